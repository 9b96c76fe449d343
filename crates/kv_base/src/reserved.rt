ghost use Rattle.std.specs.Prelude.{◌≡◌, ◌≤◌, ◌<◌, ◌+◌, ◌-◌, [], ◌∷◌, ◌++◌, length, IfOk, IfErr};
ghost use Rattle.std.specs.Prelude.{OnOk, OnErr, IsOk, IsSome, is_some, ◌↔◌, if◌then◌else◌};
ghost use Rattle.std.specs.Prelude.{option_to_list};

use crate::{NoMemory, Reply};
use std::alloc::{AllocFailed, Global};
use std::marker::Model;

/// A list whose room can be taken ahead. Contracts see its items and `spare`, the number of items
/// that can be appended without taking memory.
#[derive(Debug, Drop)]
pub struct ReservedList<T> {
    items: Vec<T>,
    spare: usize,
}

/// Replies in the order of their requests.
pub type Replies = ReservedList<Reply>;

impl<T> Model for ReservedList<T> {
    ghost use Rattle.std.specs.Prelude.{◌+◌, ◌≤◌, vec_len, vec_capacity};
    ghost use Rattle.kv_base.specs.Reserved.{Reserved};

    ghost Value = { Reserved T };

    ghost view = { λ l. record { items = l.items.items; spare = l.spare } };

    ghost invariant = { λ l. vec_len l.items + l.spare ≤ vec_capacity l.items };
}

impl<T> ReservedList<T> {
    ghost use Rattle.std.specs.Borrow.{sem};
    ghost use Rattle.kv_base.specs.ReservedLends.{lends_items};

    /// An empty list with room for `n` items. The one error is want of memory; none is wanted for
    /// no item.
    pub fn with_room(alloc: Global, n: usize) -> Result<ReservedList<T>, NoMemory>
        ensures empty { IfOk result (λ list. list.items ≡ []) }
        ensures room { IfOk result (λ list. n ≤ list.spare) }
        ensures none { n ≡ 0 → IsOk result }
    {
        let items = Vec::with_capacity(alloc, n)?;
        Ok(ReservedList { items, spare: n })
    }

    /// Appends an item. Where there is spare room it is `Ok` and takes no memory; else want of
    /// memory gives the item back and leaves the list.
    pub fn append(&mut self, item: T) -> Result<(), (T, NoMemory)>
        ensures ok { OnOk result (self.new.items ≡ self.old.items ++ item ∷ []) }
        ensures room { 0 < self.old.spare → IsOk result }
        ensures spare { OnOk result (self.new.spare ≡ self.old.spare - 1) }
        ensures err { IfErr result (λ e. e.0 ≡ item) }
        ensures kept { OnErr result (self.new ≡ self.old) }
    {
        match self.items.push(item) {
            Ok(()) => {
                self.spare = self.spare.saturating_sub(1);
                Ok(())
            }
            Err(AllocFailed { value, .. }) => Err((value, NoMemory)),
        }
    }

    /// Removes the last item. `None` exactly where the list is empty.
    pub fn take_last(&mut self) -> Option<T>
        ensures last { self.old.items ≡ self.new.items ++ option_to_list result }
        ensures some { IsSome result ↔ (0 < length self.old.items) }
        ensures spare { self.new.spare ≡ self.old.spare + (if is_some result then 1 else 0) }
    {
        let last = self.items.pop();
        if last.is_some() {
            self.spare += 1;
        }
        last
    }

    /// The items in order.
    pub fn as_slice(&self) -> &[T]
        ensures { result.now ≡ self.now.items }
    {
        self.items.as_slice()
    }

    /// The items in order, for writing.
    pub fn as_mut_slice(&mut self) -> &mut [T]
        ensures* writes_back { sem 𝓛 (lends_items T.row self.entry result) }
        ensures items { result.now ≡ self.old.items }
    {
        self.items.as_mut_slice()
    }
}
