ghost use Rattle.std.specs.Prelude.{◌≡◌, ℕ, ◌+◌, ◌^◌, ◌<◌, ◌≤◌, ◌↔◌, List, [], ◌∷◌, ◌++◌, IsSome};
ghost use Rattle.std.specs.Prelude.{IfSome};
ghost use Rattle.kv_free.specs.FreeList.{StandsFor, link_of, relinked, last_of};

use arrayvec::ArrayVec;
use std::marker::Model;

const KEPT: usize = 64;

/// One list of free slots, used from its end. The last 64 numbers stand in memory; below them each
/// number stands on disk, in the tombstone of the slot that is 64 places above it in the list.
#[derive(Debug, Drop)]
pub struct Stacks {
    kept: ArrayVec<u32, KEPT>,
    count: u32,
}

impl Model for Stacks {
    ghost use Rattle.std.specs.Prelude.{◌≡◌, ◌^◌, ◌<◌, ◌≤◌, All, length, min};
    ghost use Rattle.kv_free.specs.FreeList.{Tail};

    ghost Value = { Tail };

    ghost view = { λ s. record { kept = s.kept.items; count = s.count } };

    ghost invariant = { λ s. record {
      kept : length s.kept.items ≡ min s.count 64;
      few : s.count ≤ 2 ^ 24;
      small : All (λ slot. slot < 2 ^ 24) s.kept.items;
    } };
}

impl Stacks {
    /// The empty list.
    pub fn new() -> Stacks
        ensures { StandsFor result [] }
    {
        Stacks {
            kept: ArrayVec::new(),
            count: 0,
        }
    }

    /// The last number. `None` exactly where the list is empty.
    pub fn last(&self) -> Option<u32>
        ensures value { (list : List ℕ) → StandsFor self.now list → result ≡ last_of list }
        ensures some { IsSome result ↔ (0 < self.now.count) }
        ensures small { IfSome result (λ slot. slot < 2 ^ 24) }
    {
        self.kept.last().copied()
    }

    /// Removes the last number and answers it. The list must have one; `link` must be there exactly
    /// where it has more than 64, and be below 2^24. Where it is there it becomes the 64th number
    /// from the end. A caller that reads it in the tombstone of `last` gives the number that stands
    /// there already, and the rest of the list stays.
    pub fn take(&mut self, link: Option<u32>) -> u32
        requires some { 0 < self.old.count }
        requires linked { IsSome link ↔ (64 < self.old.count) }
        requires small_link { IfSome link (λ slot. slot < 2 ^ 24) }
        ensures value { (rest : List ℕ) (slot : ℕ) → StandsFor self.old (rest ++ slot ∷ [])
            → result ≡ slot }
        ensures rest { (rest : List ℕ) (slot : ℕ) → StandsFor self.old (rest ++ slot ∷ [])
            → StandsFor self.new (relinked rest link) }
        ensures kept { (rest : List ℕ) (slot : ℕ) → StandsFor self.old (rest ++ slot ∷ [])
            → link ≡ link_of rest → StandsFor self.new rest }
        ensures count { self.new.count + 1 ≡ self.old.count }
        ensures small { result < 2 ^ 24 }
    {
        let slot = self.kept.remove(self.kept.len() - 1);
        if let Some(link) = link {
            self.kept.insert(0, link);
        }
        self.count -= 1;
        slot
    }

    /// Appends a slot below 2^24 to fewer than 2^24 numbers, and answers the link to write into its
    /// tombstone: the number 64 places before it. `None` exactly where fewer than 64 stood before.
    pub fn give(&mut self, slot: u32) -> Option<u32>
        requires few { self.old.count < 2 ^ 24 }
        requires small_slot { slot < 2 ^ 24 }
        ensures link { (list : List ℕ) → StandsFor self.old list → result ≡ link_of list }
        ensures list { (list : List ℕ) → StandsFor self.old list
            → StandsFor self.new (list ++ slot ∷ []) }
        ensures some { IsSome result ↔ (64 ≤ self.old.count) }
        ensures count { self.new.count ≡ self.old.count + 1 }
        ensures small { IfSome result (λ link. link < 2 ^ 24) }
    {
        let link = if self.kept.is_full() {
            Some(self.kept.remove(0))
        } else {
            None
        };
        self.kept.push(slot);
        self.count += 1;
        link
    }

    /// How many numbers the list has.
    pub fn count(&self) -> u32
        ensures { result ≡ self.now.count }
    {
        self.count
    }

    /// The same list. Takes no memory.
    pub fn copy(&self) -> Stacks
        ensures { result ≡ self.now }
    {
        let mut kept = ArrayVec::new();
        let copied = kept.try_extend_from_slice(self.kept.as_slice());
        prove!(copied.is_ok());
        Stacks {
            kept,
            count: self.count,
        }
    }
}

#[cfg(test)]
mod tests {
    use super::*;

    #[test]
    fn two_hundred_slots_come_back_from_the_last_on(rt: HostRuntime) {
        let mut stacks = Stacks::new();
        assert_eq!(rt; stacks.last(), None, "nothing is free at first");
        for number in 0..200 {
            assert_eq!(rt; stacks.count(), number);

            // The number 64 places before it is 64 less, if there is one.
            let linked = if number < 64 { None } else { Some(number - 64) };
            assert_eq!(rt; stacks.give(number), linked, "the link of {number}");
        }
        let copy = stacks.copy();
        for taken in 0..200 {
            let number = 199 - taken;
            let count = stacks.count();
            assert_eq!(rt; count, number + 1);
            assert_eq!(rt; stacks.last(), Some(number));
            let linked = if count > 64 { Some(number - 64) } else { None };
            assert_eq!(rt; stacks.take(linked), number);
        }
        assert_eq!(rt; stacks.last(), None, "all were taken");
        assert_eq!(rt; copy.last(), Some(199), "a copy stays");
    }

    #[test]
    fn a_link_becomes_the_64th_from_the_end(rt: HostRuntime) {
        let mut stacks = Stacks::new();
        for number in 0..65 {
            assert_eq!(rt; stacks.count(), number);
            let _link = stacks.give(number);
        }
        assert_eq!(rt; stacks.count(), 65);
        assert_eq!(rt; stacks.take(Some(500)), 64);
        for taken in 0..63 {
            assert_eq!(rt; stacks.count(), 64 - taken);
            assert_eq!(rt; stacks.take(None), 63 - taken);
        }
        assert_eq!(rt; stacks.last(), Some(500), "in the place of the number 0");
    }
}
