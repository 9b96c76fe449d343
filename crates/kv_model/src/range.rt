ghost use Rattle.std.specs.Prelude.{◌≡◌, ◌++◌, [], ◌∷◌, IfOk, OnOk};
ghost use Rattle.kv_model.specs.Items.{AreItems};
ghost use Rattle.kv_model.specs.Oracle.{history_of, items_of, item_seen};

use crate::item::{Item, ItemList};
use crate::lookup::{Asked, ItemSeen, find_next};
use crate::write::Recorded;
use kv_base::{Bytes, NoMemory};
use std::alloc::Global;

/// The items of the range at the stamp, by rising key. The one error is want of memory.
pub fn items_at(alloc: Global, writes: &[Recorded], asked: Asked<'_>) -> Result<ItemList, NoMemory>
    ensures { IfOk result (λ list. AreItems (history_of writes.now) asked.entry.stamp
        asked.entry.low.now asked.entry.high.now (items_of list.items)) }
{
    let mut items = ItemList::with_room(alloc, 0)?;
    let mut last: Option<&[u8]> = None;
    while let Some(next) = find_next(writes, asked, last) {
        push(alloc, &mut items, next)?;
        last = Some(next.key);
    }
    Ok(items)
}

/// Puts a copy of the item behind the others. The one error is want of memory.
fn push(alloc: Global, items: &mut ItemList, next: ItemSeen<'_>) -> Result<(), NoMemory>
    ensures { OnOk result (items_of items.new.items ≡ items_of items.old.items
        ++ item_seen next.entry ∷ []) }
{
    let item = Item {
        key: Bytes::copy(alloc, next.key)?,
        value: Bytes::copy(alloc, next.value)?,
    };
    match items.append(item) {
        Ok(()) => Ok(()),
        Err((_, why)) => Err(why),
    }
}
