ghost use Rattle.std.specs.Prelude.{◌≡◌, ◌+◌, ◌-◌, ◌*◌, ◌<◌, ◌≤◌, ◌∷◌, ◌++◌, ◌==◌, Some, length};
ghost use Rattle.std.specs.Prelude.{take, drop, vec_len, true, IfOk, OnOk, OnErr};
ghost use Rattle.std.specs.Int.{w64, to_le_bytes};
ghost use Rattle.std.specs.List.{flat_map, list_all};
ghost use Rattle.kv_model.specs.Layout.{all_classes, class_of, pages_in_slot};
ghost use Rattle.kv_model.specs.Padding.{padded};
ghost use Rattle.kv_model.specs.SlotBytes.{item_header, large_page, large_pages};
ghost use Rattle.kv_model.specs.Slots.{read_item, read_large, stamp_field};
ghost use Rattle.kv_slot.specs.Views.{what_stands, what_stands_large, read_front, IsItem};

use crate::class::class_of;
use crate::header::{HEADER, ITEM, NEVER, TOMBSTONE, read_header};
use crate::overwrite::{clear_from, put_at};
use crate::small::{Slot, fill_item};
use crate::tombstone::{link_in, page_stamp};
use byteorder::{ByteOrder, LittleEndian};
use kv_base::{Bytes, NoMemory, ReservedList};
use std::alloc::Global;

/// The bytes of key and value in the first page.
const FIRST_CONTENT: usize = 4_080;

/// The bytes of key and value in each later page.
const LATER_CONTENT: usize = 4_088;

/// The pages of one slot, in order.
pub type PageList = ReservedList<[u8; 4096]>;

/// What stands in a slot of the classes 8 to 11.
#[derive(Debug, Drop)]
pub enum Large {
    /// Nothing was ever written there.
    Never {
        /// The number in the slot's stamp field.
        stamp: u64,
    },
    /// An item.
    Item {
        /// The stamp of its write.
        stamp: u64,
        /// The key, 1 to 255 bytes.
        key: Bytes,
        /// The value.
        value: Bytes,
    },
    /// The slot is free.
    Tombstone {
        /// The stamp of the change that freed it.
        stamp: u64,
        /// The free slot that it links to.
        link: Option<u32>,
    },
    /// Bytes that no call of this crate writes.
    Bad {
        /// The number in the slot's stamp field.
        stamp: u64,
    },
    /// An item of which a later page has another stamp: a stop came between the writes of its
    /// pages.
    Torn {
        /// The number in the slot's stamp field.
        stamp: u64,
    },
}

/// What stands in a slot of this class, 8 to 11, given all its pages in order. Only an item takes
/// memory, and its want is the one error.
pub fn read_large(alloc: Global, pages: &[[u8; 4096]], class: u8) -> Result<Large, NoMemory>
    requires class { (8 ≤ class) × (class ≤ 11) }
    requires pages { length pages.now ≡ pages_in_slot class }
    ensures ok { IfOk result (λ large. what_stands_large large ≡ read_large all_classes class
        pages.now) }
    ensures err { OnErr result (IsItem (read_large all_classes class pages.now)) }
{
    let count = pages_in_slot(class);
    let later = &pages[1..count];
    read_pages(alloc, &pages[0], later, class)
}

/// What the first page of a slot of this class, 8 to 11, says: of an item all of its key, and of its
/// value the part that lies in this page. Whether the later pages have its stamp isn't looked at.
pub fn read_first<'a>(page: &'a [u8; 4096], class: u8) -> Slot<'a>
    requires class { (8 ≤ class) × (class ≤ 11) }
    ensures { what_stands result ≡ read_front class page.now }
{
    let (header, content) = page.split_at(HEADER);
    let header = read_header(header);
    let stamp = header.stamp;
    match header.kind {
        NEVER => Slot::Never { stamp },
        ITEM => {
            let key_len = header.key_len as usize;
            let value_len = header.last as usize;
            front_item(class, stamp, key_len, value_len, content)
        }
        TOMBSTONE => Slot::Tombstone {
            stamp,
            link: link_in(header.last),
        },
        _ => Slot::Bad { stamp },
    }
}

fn front_item<'a>(
    class: u8,
    stamp: u64,
    key_len: usize,
    value_len: usize,
    content: &'a [u8],
) -> Slot<'a>
    requires { 255 ≤ length content.now }
    ensures { what_stands result ≡ read_item all_classes class stamp key_len value_len content.now
        true }
{
    if class_of(key_len, value_len) != Some(class) {
        return Slot::Bad { stamp };
    }
    let (key, rest) = content.split_at(key_len);
    Slot::Item {
        stamp,
        key,
        value: front_of(rest, value_len),
    }
}

/// The pages of one slot of this class, 8 to 11.
fn pages_in_slot(class: u8) -> usize
    requires class { (8 ≤ class) × (class ≤ 11) }
    ensures value { result ≡ pages_in_slot class }
    ensures range { (2 ≤ result) × (result ≤ 16) }
{
    match class {
        8 => 2,
        9 => 4,
        10 => 8,
        _ => 16,
    }
}

#[tactic(auto, unfolding(kv_model::specs::Slots::read_large))]
fn read_pages(
    alloc: Global,
    first: &[u8; 4096],
    later: &[[u8; 4096]],
    class: u8,
) -> Result<Large, NoMemory>
    ensures ok { IfOk result (λ large. what_stands_large large ≡ read_large all_classes class
        (first.now ∷ later.now)) }
    ensures err { OnErr result (IsItem (read_large all_classes class (first.now ∷ later.now))) }
{
    let (header, front) = first.split_at(HEADER);
    let header = read_header(header);
    let stamp = header.stamp;
    match header.kind {
        NEVER => Ok(Large::Never { stamp }),
        ITEM => {
            let key_len = header.key_len as usize;
            let value_len = header.last as usize;
            item_of(alloc, class, stamp, key_len, value_len, front, later)
        }
        TOMBSTONE => Ok(Large::Tombstone {
            stamp,
            link: link_in(header.last),
        }),
        _ => Ok(Large::Bad { stamp }),
    }
}

fn item_of(
    alloc: Global,
    class: u8,
    stamp: u64,
    key_len: usize,
    value_len: usize,
    front: &[u8],
    later: &[[u8; 4096]],
) -> Result<Large, NoMemory>
    requires { 255 ≤ length front.now }
    ensures ok { IfOk result (λ large. what_stands_large large ≡ read_item all_classes class stamp
        key_len value_len
        (front.now ++ flat_map (λ page. drop 8 page) later.now)
        (list_all (λ page. stamp_field page == stamp) later.now)) }
    ensures err { OnErr result (IsItem (read_item all_classes class stamp key_len value_len
        (front.now ++ flat_map (λ page. drop 8 page) later.now)
        (list_all (λ page. stamp_field page == stamp) later.now))) }
{
    if class_of(key_len, value_len) != Some(class) {
        return Ok(Large::Bad { stamp });
    }
    if !have_stamp(later, stamp) {
        return Ok(Large::Torn { stamp });
    }
    Ok(Large::Item {
        stamp,
        key: Bytes::copy(alloc, &front[..key_len])?,
        value: value_of(alloc, value_len, &front[key_len..], later)?,
    })
}

fn have_stamp(pages: &[[u8; 4096]], stamp: u64) -> bool
    ensures { result ≡ list_all (λ page. stamp_field page == stamp) pages.now }
{
    pages.iter().all(|page| page_stamp(page) == stamp)
}

fn value_of(
    alloc: Global,
    value_len: usize,
    front: &[u8],
    later: &[[u8; 4096]],
) -> Result<Bytes, NoMemory>
    ensures { IfOk result (λ value. value
        ≡ take value_len (front.now ++ flat_map (λ page. drop 8 page) later.now)) }
{
    let mut value = Vec::with_capacity(alloc, value_len)?;
    append_up_to(&mut value, value_len, front)?;
    for page in later {
        append_up_to(&mut value, value_len, &page[8..])?;
    }
    Ok(Bytes::from_vec(value))
}

fn append_up_to(value: &mut Vec<u8>, most: usize, part: &[u8]) -> Result<(), NoMemory>
    requires { vec_len value.old ≤ most }
    ensures ok { OnOk result (value.new.items ≡ value.old.items
        ++ take (most - length value.old.items) part.now) }
    ensures len { OnOk result (vec_len value.new ≤ most) }
{
    value.extend_from_slice(front_of(part, most - value.len()))?;
    Ok(())
}

/// The pages of a slot of this class, 8 to 11, with an item of that class. The one error is want of
/// memory.
pub fn put_large(
    alloc: Global,
    class: u8,
    stamp: u64,
    key: &[u8],
    value: &[u8],
) -> Result<PageList, NoMemory>
    requires class { (8 ≤ class) × (class ≤ 11) }
    requires item { class_of all_classes (length key.now) (length value.now) ≡ Some class }
    ensures ok { IfOk result (λ pages. pages.items ≡ large_pages class stamp key.now value.now) }
{
    let count = pages_in_slot(class);
    let mut pages = ReservedList::with_room(alloc, count)?;
    for number in 0..count {
        pages.append(page_with(stamp, key, value, number)).unwrap();
    }
    Ok(pages)
}

#[tactic(auto, unfolding(kv_model::specs::SlotBytes::large_page))]
fn page_with(stamp: u64, key: &[u8], value: &[u8], number: usize) -> [u8; 4096]
    requires key { length key.now ≤ 255 }
    requires value { length value.now ≤ 65400 }
    requires number { number < 16 }
    ensures { result ≡ large_page stamp key.now value.now number }
{
    let mut page = [0; 4096];
    if number == 0 {
        fill_first(&mut page, stamp, key, value);
    } else {
        fill_later(&mut page, stamp, part_of(key, value, number));
    }
    page
}

fn fill_first(page: &mut [u8], stamp: u64, key: &[u8], value: &[u8])
    requires key { length key.now ≤ 255 }
    requires value { length value.now ≤ 65400 }
    requires page { length page.old ≡ 4096 }
    ensures { page.new ≡ padded 4096 (item_header stamp key.now value.now
        ++ take 4080 (key.now ++ value.now)) }
{
    let front = front_of(value, FIRST_CONTENT - key.len());
    fill_item(page, stamp, key, value.len() as u32, front);
}

fn part_of<'a>(key: &[u8], value: &'a [u8], number: usize) -> &'a [u8]
    requires key { length key.now ≤ 255 }
    requires number { (1 ≤ number) × (number < 16) }
    ensures value { result.now
        ≡ take 4088 (drop (4080 + 4088 * (number - 1)) (key.now ++ value.now)) }
    ensures len { length result.now ≤ 4088 }
{
    front_of(
        rest_of(
            value,
            FIRST_CONTENT + LATER_CONTENT * (number - 1) - key.len(),
        ),
        LATER_CONTENT,
    )
}

fn front_of(bytes: &[u8], count: usize) -> &[u8]
    ensures value { result.now ≡ take count bytes.now }
    ensures len { length result.now ≤ count }
{
    &bytes[..count.min(bytes.len())]
}

fn rest_of(bytes: &[u8], count: usize) -> &[u8]
    ensures { result.now ≡ drop count bytes.now }
{
    &bytes[count.min(bytes.len())..]
}

fn fill_later(page: &mut [u8], stamp: u64, part: &[u8])
    requires part { length part.now ≤ 4088 }
    requires page { length page.old ≡ 4096 }
    ensures { page.new ≡ padded 4096 (to_le_bytes w64 stamp ++ part.now) }
{
    LittleEndian::write_u64(page, stamp);
    put_at(page, 8, part);
    clear_from(page, 8 + part.len());
}
