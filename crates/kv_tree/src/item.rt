ghost use Rattle.std.specs.Prelude.{◌≡◌, ◌≤◌, ℕ, List, IsTrue};
ghost use Rattle.std.specs.declared.cmp.Ordering.TheVariants.{Less, Greater};
ghost use Rattle.std.specs.Ordering.{nat_cmp};
ghost use Rattle.std.specs.Cmp.Lexicographic.{slice_cmp};
ghost use Rattle.kv_tree.specs.Head.{HasHead};

use crate::head::head_of;
use kv_base::Bytes;
use kv_index::Entry;
use std::cmp::Ordering;
use std::marker::Model;

/// A key with its entry. The key's head stands beside it, so that most comparisons read no key.
#[derive(Debug, Drop)]
pub struct Item {
    head: u64,
    key: Bytes,
    entry: Entry,
}

impl Model for Item {
    ghost use Rattle.std.specs.Prelude.{◌≡◌};
    ghost use Rattle.kv_tree.specs.Head.{HasHead};
    ghost use Rattle.kv_tree.specs.Subtree.{Pair, pair_code};

    ghost Value = { Pair };

    ghost coded = { pair_code };

    ghost view = { λ i. (i.key, i.entry) };

    ghost invariant = { λ i. HasHead i.key i.head };
}

impl Item {
    /// A key with its entry.
    pub fn new(key: Bytes, entry: Entry) -> Item
        ensures { result ≡ (key, entry) }
    {
        Item {
            head: head_of(key.as_slice()),
            key,
            entry,
        }
    }

    /// The key.
    pub fn key(&self) -> &[u8]
        ensures { result.now ≡ self.now.0 }
    {
        self.key.as_slice()
    }

    /// The key's head.
    pub fn number(&self) -> u64
        ensures { HasHead self.now.0 result }
    {
        self.head
    }

    /// The entry.
    pub fn entry(&self) -> Entry
        ensures { result ≡ self.now.1 }
    {
        self.entry
    }

    /// Gives the key another entry.
    pub fn set_entry(&mut self, entry: Entry)
        ensures { self.new ≡ (self.old.0, entry) }
    {
        self.entry = entry;
    }

    /// 1 where its head is below this one, so that its key is below each key with that head; or 0.
    pub fn below(&self, number: u64) -> usize
        ensures most { result ≤ 1 }
        ensures less { result ≡ 1 → (key : List ℕ) → HasHead key number
            → slice_cmp nat_cmp key self.now.0 ≡ Greater }
    {
        if self.head < number { 1 } else { 0 }
    }

    /// Whether its head is above this one, so that its key is above each key with that head.
    pub fn is_above(&self, number: u64) -> bool
        ensures { IsTrue result → (key : List ℕ) → HasHead key number
            → slice_cmp nat_cmp key self.now.0 ≡ Less }
    {
        number < self.head
    }

    /// How the item's key compares with this one, whose head is given.
    pub fn cmp_key(&self, number: u64, key: &[u8]) -> Ordering
        ensures { HasHead key.now number → result ≡ slice_cmp nat_cmp self.now.0 key.now }
    {
        if self.head < number {
            Ordering::Less
        } else if number < self.head {
            Ordering::Greater
        } else {
            self.key.as_slice().cmp(key)
        }
    }
}
