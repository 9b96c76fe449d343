ghost use Rattle.std.specs.Prelude.{◌≡◌, ◌+◌};
ghost use Rattle.std.specs.Option.{option_copied, option_map};
ghost use Rattle.kv_model.specs.Batch.{value_after, needs_slot, takes_slot, last_write};
ghost use Rattle.kv_model.specs.Items.{class_with};
ghost use Rattle.kv_model.specs.Layout.{all_classes};
ghost use Rattle.kv_model.specs.Oracle.{history_of, write_of, start_of};

use crate::class::{class_of, is_class};
use crate::item::Item;
use crate::latest::{find_latest, value_of};
use crate::write::Recorded;

/// What a batch finds: the writes before it, the stamp below its first one, the items at that
/// stamp, and the most items of a class.
#[derive(Clone, Copy)]
pub struct Found<'a> {
    /// The writes.
    pub writes: &'a [Recorded],
    /// The stamp at which they are read.
    pub stamp: u64,
    /// The items at the stamp.
    pub items: &'a [Item],
    /// The most items of a class.
    pub limit: u32,
}

/// The last of the writes of the key.
pub fn last_write<'a>(written: &'a [Recorded], key: &[u8]) -> Option<&'a Recorded>
    ensures { option_map write_of (option_copied result) ≡ last_write (history_of written.now)
        key.now }
{
    let mut last: Option<&Recorded> = None;
    for write in written {
        if write.key.as_slice() == key {
            last = Some(write);
        }
    }
    last
}

/// What the key has before the batch.
pub fn value_before<'a>(found: Found<'a>, key: &[u8]) -> Option<&'a [u8]>
    ensures { option_copied result ≡ (start_of found.entry).value key.now }
{
    value_of(find_latest(found.writes, found.stamp, key))
}

/// What the key has behind these writes of the batch.
pub fn value_after<'a>(found: Found<'a>, written: &'a [Recorded], key: &[u8]) -> Option<&'a [u8]>
    ensures { option_copied result ≡ value_after (start_of found.entry) (history_of written.now)
        key.now }
{
    match last_write(written, key) {
        None => value_before(found, key),
        Some(write) => value_of(Some(write)),
    }
}

/// The class of the key with this value.
fn class_with(key: &[u8], value: Option<&[u8]>) -> Option<u8>
    ensures { result ≡ class_with all_classes key.now (option_copied value.entry) }
{
    match value {
        None => None,
        Some(value) => class_of(key.len(), value.len()),
    }
}

/// Whether an item of the key in the class takes a slot that isn't its own yet.
pub fn needs_slot(found: Found<'_>, key: &[u8], class: u8) -> bool
    ensures { result ≡ needs_slot (start_of found.entry) key.now class }
{
    class > 7 || !is_class(class_with(key, value_before(found, key)), class)
}

/// Whether the write puts an item into a new slot of the class.
pub fn takes_slot(found: Found<'_>, class: u8, write: &Recorded) -> bool
    ensures { result ≡ takes_slot (start_of found.entry) class (write_of write.now) }
{
    let key = write.key.as_slice();
    is_class(class_with(key, value_of(Some(write))), class) && needs_slot(found, key, class)
}

/// How many items of the class there are before the batch.
pub fn items_of_class(found: Found<'_>, class: u8) -> usize
    ensures { result ≡ (start_of found.entry).items class }
{
    let mut count = 0;
    for item in found.items {
        if is_class(class_of(item.key.len(), item.value.len()), class) {
            count += 1;
        }
    }
    count
}
