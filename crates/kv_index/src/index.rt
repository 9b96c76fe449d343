ghost use Rattle.std.specs.Prelude.{◌≡◌, ℕ, ◌-◌, ◌^◌, ◌<◌, ◌≤◌, OnOk, IfNone, MatchOption};
ghost use Rattle.std.specs.Prelude.{if◌then◌else◌};
ghost use Rattle.std.specs.FinMap as finite;
ghost use Rattle.kv_index.specs.Entries.{Entries, HasNoneFrom, IsNext};

use crate::Entry;
use kv_base::{Bytes, NoMemory};

/// A finite map from keys to entries. Keys are compared byte by byte, and a prefix is less.
pub trait Index {
    /// What it holds.
    ghost entries: { Self → Entries };

    /// How many new keys it can take before it needs memory.
    ghost spare: { Self → ℕ };

    /// The entry of a key. `None` exactly where there is none. It copies nothing.
    fn find(&self, key: &[u8]) -> Option<Entry>
        ensures value { result ≡ finite.get (entries self.now) key.now };

    /// Makes `spare` at least `n`. The one error is want of memory, and then all stays.
    fn reserve(&mut self, n: u32) -> Result<(), NoMemory>
        ensures ok { OnOk result (n ≤ spare self.new) }
        ensures kept { entries self.new ≡ entries self.old }
        ensures spare { spare self.old ≤ spare self.new };

    /// Gives the key this entry, in place of the one that it had. Takes no memory; only a new key
    /// needs `spare` to be at least 1, which then falls by one.
    fn set(&mut self, key: Bytes, entry: Entry)
        requires room { IfNone (finite.get (entries self.old) key) (0 < spare self.old) }
        requires few { IfNone (finite.get (entries self.old) key) (finite.len (entries self.old)
            < 2 ^ 32 - 1) }
        ensures value { entries self.new ≡ finite.insert (entries self.old) key entry }
        ensures spare { spare self.new
            ≡ (if finite.contains_key (entries self.old) key then spare self.old
            else spare self.old - 1) };

    /// Takes the key out, and answers its entry. `None` exactly where there was none. Takes no
    /// memory.
    fn remove(&mut self, key: &[u8]) -> Option<Entry>
        ensures value { result ≡ finite.get (entries self.old) key.now }
        ensures rest { entries self.new ≡ finite.remove (entries self.old) key.now }
        ensures spare { spare self.old ≤ spare self.new };

    /// The least key at or after this one, and its entry. `None` exactly where there is none. What
    /// it lends lives as long as the index stays as it is.
    fn next_at_or_after(&self, key: &[u8]) -> Option<(&[u8], Entry)>
        ensures next { MatchOption result (HasNoneFrom (entries self.now) key.now)
            (λ next. IsNext (entries self.now) key.now next.0.now next.1) };

    /// The number of keys.
    fn len(&self) -> u32
        ensures value { result ≡ finite.len (entries self.now) };
}
