ghost use Rattle.std.specs.Prelude.{◌≡◌, ◌≢◌, ◌≤◌, length, false, IsOk, OnOk, IfOk};
ghost use Rattle.kv_fold.specs.Bags.{IsItem};
ghost use Rattle.kv_fold.specs.States.{State, Adds, Merges, takes_memory, state_result, IsResult};

use kv_base::{Bytes, NoMemory};
use std::alloc::Global;

/// A fold over items, which come one by one in any order, or as the folds of shares. Where it began
/// empty, no key came twice and no call failed, its state is that of the bag of all that came.
pub trait Fold: Drop {
    /// What it keeps.
    ghost state: { Self → State };

    /// Adds an item whose key isn't in it. The one error is want of memory, and then the fold isn't
    /// used again; a fold that keeps a number or a sum takes none.
    fn add(&mut self, key: &[u8], value: &[u8]) -> Result<(), NoMemory>
        requires { IsItem key.now value.now }
        ensures kind { (state self.new).kind ≡ (state self.old).kind }
        ensures ok { OnOk result (Adds key.now value.now (state self.old) (state self.new)) }
        ensures sure { takes_memory (state self.old).kind ≡ false → IsOk result };

    /// Adds what another fold of this kind has, of which no key is in this one. A fold of another
    /// kind is dropped. The one error is want of memory, and then the fold isn't used again; a fold
    /// that keeps a number or a sum takes none.
    fn merge(&mut self, other: Self) -> Result<(), NoMemory>
        ensures kind { (state self.new).kind ≡ (state self.old).kind }
        ensures ok { OnOk result (Merges (state self.old) (state other) (state self.new)) }
        ensures sure { takes_memory (state self.old).kind ≡ false → IsOk result }
        ensures other_kind { (state self.old).kind ≢ (state other).kind → IsOk result }
        ensures kept { (state self.old).kind ≢ (state other).kind
            → state self.new ≡ state self.old };

    /// The bytes of the result, at most 60,002: a number or a sum in 8 bytes, least first; or the
    /// number of items in 2 bytes and then each item, its key's length in 1 byte, its key, its
    /// value's length in 4 bytes and its value. The one error is want of memory.
    fn result(&self, alloc: Global) -> Result<Bytes, NoMemory>
        ensures value { IfOk result (λ bytes. bytes ≡ state_result (state self.now)) }
        ensures result { IfOk result (IsResult (state self.now)) }
        ensures limit { IfOk result (λ bytes. length bytes ≤ 60002) };
}
