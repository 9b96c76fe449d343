ghost use Rattle.std.specs.Prelude.{◌≡◌, ℕ, ◌+◌, ◌-◌, ◌^◌, ◌<◌, ◌≤◌, true, ◌++◌, take, drop};
ghost use Rattle.std.specs.Prelude.{length};
ghost use Rattle.kv_model.specs.Layout.{all_classes, class_of, only_class, room_of, slot_size};
ghost use Rattle.kv_model.specs.Slots.{read_small, read_item};
ghost use Rattle.kv_model.specs.Padding.{padded};
ghost use Rattle.kv_model.specs.SlotBytes.{header_bytes, item_bytes};
ghost use Rattle.kv_slot.specs.Overwrite.{overwritten};
ghost use Rattle.kv_slot.specs.Views.{what_stands, of_least_class};

use crate::class::class_of;
use crate::header::{HEADER, ITEM, NEVER, TOMBSTONE, put_header, read_header};
use crate::overwrite::{clear_from, put_at};
use crate::tombstone::link_in;

const LONGEST_KEY: usize = 255;

/// What stands in a slot of the classes 1 to 7. Key and value lie in the page that was read.
#[derive(Clone, Copy, Debug, PartialEq, Eq)]
pub enum Slot<'a> {
    /// Nothing was ever written there.
    Never {
        /// The number in the slot's stamp field.
        stamp: u64,
    },
    /// An item.
    Item {
        /// The stamp of its write.
        stamp: u64,
        /// The key, 1 to 255 bytes.
        key: &'a [u8],
        /// The value.
        value: &'a [u8],
    },
    /// The slot is free.
    Tombstone {
        /// The stamp of the change that freed it.
        stamp: u64,
        /// The free slot that it links to.
        link: Option<u32>,
    },
    /// Bytes that no call of this crate writes.
    Bad {
        /// The number in the slot's stamp field.
        stamp: u64,
    },
}

/// The bytes of a slot of this class, 1 to 7.
pub fn slot_size(class: u8) -> usize
    requires class { (1 ≤ class) × (class ≤ 7) }
    ensures value { result ≡ slot_size class }
    ensures room { room_of class + 16 ≡ result }
    ensures range { (64 ≤ result) × (result ≤ 4096) }
{
    match class {
        1 => 64,
        2 => 128,
        3 => 256,
        4 => 512,
        5 => 1_024,
        6 => 2_048,
        _ => 4_096,
    }
}

/// What stands in the slot of this class, 1 to 7, at the offset, in a store that has no other
/// class: an item is one where the slot's room holds it.
pub fn read_fitting<'a>(page: &'a [u8; 4096], class: u8, offset: u32) -> Slot<'a>
    requires class { (1 ≤ class) × (class ≤ 7) }
    requires within { offset + slot_size class ≤ 4096 }
    ensures { what_stands result ≡ read_small (only_class class) class
        (take (slot_size class) (drop offset page.now)) }
{
    let begin = offset as usize;
    let size = slot_size(class);
    read_bytes(&page[begin..begin + size], class)
}

#[tactic(auto, unfolding(kv_model::specs::Slots::read_small))]
fn read_bytes<'a>(slot: &'a [u8], class: u8) -> Slot<'a>
    requires class { (1 ≤ class) × (class ≤ 7) }
    requires size { length slot.now ≡ slot_size class }
    requires room { length slot.now ≡ room_of class + 16 }
    ensures { what_stands result ≡ read_small (only_class class) class slot.now }
{
    let (header, content) = slot.split_at(HEADER);
    let header = read_header(header);
    let stamp = header.stamp;
    match header.kind {
        NEVER => Slot::Never { stamp },
        ITEM => {
            let key_len = header.key_len as usize;
            let value_len = header.last as usize;
            item_of(class, stamp, key_len, value_len, content)
        }
        TOMBSTONE => Slot::Tombstone {
            stamp,
            link: link_in(header.last),
        },
        _ => Slot::Bad { stamp },
    }
}

fn item_of<'a>(
    class: u8,
    stamp: u64,
    key_len: usize,
    value_len: usize,
    content: &'a [u8],
) -> Slot<'a>
    requires room { length content.now ≡ room_of class }
    requires fits { key_len + value_len < 2 ^ 64 }
    ensures { what_stands result ≡ read_item (only_class class) class stamp key_len value_len
        content.now true }
{
    if key_len < 1 || key_len > LONGEST_KEY || key_len + value_len > content.len() {
        return Slot::Bad { stamp };
    }
    let (key, rest) = content.split_at(key_len);
    Slot::Item {
        stamp,
        key,
        value: &rest[..value_len],
    }
}

/// What stands in the slot of this class, 1 to 7, at the offset, in a store that has the classes 1
/// to 11: an item is one where this is the least class that holds it.
pub fn read_slot<'a>(page: &'a [u8; 4096], class: u8, offset: u32) -> Slot<'a>
    requires class { (1 ≤ class) × (class ≤ 7) }
    requires within { offset + slot_size class ≤ 4096 }
    ensures { what_stands result ≡ read_small all_classes class
        (take (slot_size class) (drop offset page.now)) }
{
    of_least_class(read_fitting(page, class, offset), class)
}

fn of_least_class<'a>(slot: Slot<'a>, class: u8) -> Slot<'a>
    ensures { what_stands result ≡ of_least_class class (what_stands slot.entry) }
{
    match slot {
        Slot::Item { stamp, key, value } if class_of(key.len(), value.len()) != Some(class) => {
            Slot::Bad { stamp }
        }
        slot => slot,
    }
}

/// Writes an item into the slot of this class, 1 to 7, at the offset: its key has 1 to 255 bytes,
/// and the slot's room holds key and value. The rest of the slot is zeros, and all bytes outside it
/// stay.
pub fn put_fitting(
    page: &mut [u8; 4096],
    class: u8,
    offset: u32,
    stamp: u64,
    key: &[u8],
    value: &[u8],
)
    requires class { (1 ≤ class) × (class ≤ 7) }
    requires within { offset + slot_size class ≤ 4096 }
    requires key { (1 ≤ length key.now) × (length key.now ≤ 255) }
    requires fits { length key.now + length value.now ≤ room_of class }
    ensures bytes { page.new ≡ overwritten page.old offset (item_bytes class stamp key.now
        value.now) }
    ensures size { length page.new ≡ 4096 }
{
    let begin = offset as usize;
    let size = slot_size(class);
    fill_item(
        &mut page[begin..begin + size],
        stamp,
        key,
        value.len() as u32,
        value,
    );
}

/// Writes an item of this class, 1 to 7, into its slot at the offset. The rest of the slot is
/// zeros, and all bytes outside it stay.
pub fn put_item(page: &mut [u8; 4096], class: u8, offset: u32, stamp: u64, key: &[u8], value: &[u8])
    requires class { (1 ≤ class) × (class ≤ 7) }
    requires within { offset + slot_size class ≤ 4096 }
    requires item { class_of all_classes (length key.now) (length value.now) ≡ Some class }
    ensures bytes { page.new ≡ overwritten page.old offset (item_bytes class stamp key.now
        value.now) }
    ensures size { length page.new ≡ 4096 }
{
    put_fitting(page, class, offset, stamp, key, value);
}

/// Fills the slot, or its first page, with an item's header, its key and the front of its value,
/// and then with zeros.
pub fn fill_item(slot: &mut [u8], stamp: u64, key: &[u8], value_len: u32, front: &[u8])
    requires key { length key.now ≤ 255 }
    requires fits { length key.now + length front.now + 16 ≤ length slot.old }
    requires slot { length slot.old ≤ 4096 }
    ensures { slot.new ≡ padded (length slot.old) (header_bytes stamp 1 (length key.now) value_len
        ++ key.now ++ front.now) }
{
    put_header(slot, stamp, ITEM, key.len() as u16, value_len);
    put_at(slot, HEADER, key);
    put_at(slot, HEADER + key.len(), front);
    clear_from(slot, HEADER + key.len() + front.len());
}
