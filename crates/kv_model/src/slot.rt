ghost use Rattle.std.specs.Prelude.{◌≡◌, ◌+◌, ◌-◌, ◌*◌, ◌^◌, ◌<◌, ◌≤◌, ◌++◌, [], ◌∷◌, IfOk, OnOk};
ghost use Rattle.std.specs.Prelude.{◌==◌, true, length, vec_len, take, drop, map, option_to_list};
ghost use Rattle.std.specs.Int.{w16, w32, w64, from_le_bytes};
ghost use Rattle.std.specs.List.{flat_map, list_all, range_with_len};
ghost use Rattle.kv_model.specs.Layout.{all_classes, slot_size, slots_in_page, pages_in_slot};
ghost use Rattle.kv_model.specs.Plain.{image_of, parts_of, is_zeros, item_in};
ghost use Rattle.kv_model.specs.Reading.{page_of, offset_of};
ghost use Rattle.kv_model.specs.Slots.{read_item, read_large, stamp_field, kind_field};
ghost use Rattle.kv_model.specs.Slots.{key_length_field, last_field};

use crate::class::{class_of, is_class};
use crate::page::{Page, page_at};
use crate::stored::Stored;
use byteorder::{ByteOrder, LittleEndian};
use kv_base::{Bytes, NoMemory, Place, owner};
use std::alloc::Global;

/// The bytes of a slot.
#[derive(Drop)]
pub struct SlotBytes {
    /// Those in its first page.
    pub first: Vec<u8>,
    /// Its later pages.
    pub later: Vec<[u8; 4096]>,
}

/// The bytes of a slot of this class, 1 to 7.
fn slot_size(class: u8) -> usize
    requires class { (1 ≤ class) × (class ≤ 7) }
    ensures value { result ≡ slot_size class }
    ensures range { (64 ≤ result) × (result ≤ 4096) }
{
    match class {
        1 => 64,
        2 => 128,
        3 => 256,
        4 => 512,
        5 => 1_024,
        6 => 2_048,
        _ => 4_096,
    }
}

/// The slots that begin in one page, of this class, 1 to 11.
pub fn slots_in_page(class: u8) -> u32
    requires class { (1 ≤ class) × (class ≤ 11) }
    ensures value { result ≡ slots_in_page class }
    ensures range { result ≤ 64 }
{
    match class {
        1 => 64,
        2 => 32,
        3 => 16,
        4 => 8,
        5 => 4,
        6 => 2,
        _ => 1,
    }
}

/// The pages of one slot of this class, 8 to 11.
fn pages_in_slot(class: u8) -> u32
    requires class { (8 ≤ class) × (class ≤ 11) }
    ensures value { result ≡ pages_in_slot class }
    ensures range { (2 ≤ result) × (result ≤ 16) }
{
    match class {
        8 => 2,
        9 => 4,
        10 => 8,
        _ => 16,
    }
}

/// The page where the slot begins, and the offset in that page.
fn spot(place: Place) -> (u32, usize)
    requires class { (1 ≤ place.class) × (place.class ≤ 11) }
    requires slot { place.slot < 2 ^ 24 }
    ensures page { result.0 ≡ page_of place.class place.slot }
    ensures offset { result.1 ≡ offset_of place.class place.slot }
    ensures small { place.class ≤ 7 → result.1 + slot_size place.class ≤ 4096 }
    ensures range { result.0 < 2 ^ 28 }
{
    let slot = place.slot;
    let within = slot as usize;
    match place.class {
        1 => (slot / 64, within % 64 * 64),
        2 => (slot / 32, within % 32 * 128),
        3 => (slot / 16, within % 16 * 256),
        4 => (slot / 8, within % 8 * 512),
        5 => (slot / 4, within % 4 * 1_024),
        6 => (slot / 2, within % 2 * 2_048),
        7 => (slot, 0),
        8 => (slot * 2, 0),
        9 => (slot * 4, 0),
        10 => (slot * 8, 0),
        _ => (slot * 16, 0),
    }
}

/// The pages from the first one on, so many.
fn pages_from(
    alloc: Global,
    pages: &[Page],
    file: u8,
    first: u32,
    count: u32,
) -> Result<Vec<[u8; 4096]>, NoMemory>
    requires { first + count < 2 ^ 32 }
    ensures { IfOk result (λ list. list.items ≡ map (image_of pages.now file)
        (range_with_len first count)) }
{
    let mut list = Vec::new(alloc);
    for number in 0..count {
        list.push(*page_at(pages, file, first + number))?;
    }
    Ok(list)
}

/// The bytes of the slot.
pub fn slot_bytes(alloc: Global, pages: &[Page], place: Place) -> Result<SlotBytes, NoMemory>
    requires class { (1 ≤ place.class) × (place.class ≤ 11) }
    requires slot { place.slot < 2 ^ 24 }
    ensures bytes { IfOk result (λ slot. slot.first.items ∷ slot.later.items
        ≡ parts_of (image_of pages.now) place.class place.slot) }
    ensures header { IfOk result (λ slot. 16 ≤ length slot.first.items) }
{
    let (number, offset) = spot(place);
    let page = page_at(pages, place.class, number);
    if place.class <= 7 {
        let size = slot_size(place.class);
        return Ok(SlotBytes {
            first: Vec::from_slice(alloc, &page[offset..offset + size])?,
            later: Vec::new(alloc),
        });
    }
    let count = pages_in_slot(place.class);
    Ok(SlotBytes {
        first: Vec::from_slice(alloc, page)?,
        later: pages_from(alloc, pages, place.class, number + 1, count - 1)?,
    })
}

/// The number at the head of a page or a slot.
fn stamp_of(bytes: &[u8]) -> u64
    requires { 8 ≤ length bytes.now }
    ensures { result ≡ stamp_field bytes.now }
{
    LittleEndian::read_u64(bytes)
}

/// The number in two bytes at the offset.
fn u16_at(bytes: &[u8], offset: usize) -> u16
    requires { offset + 2 ≤ length bytes.now }
    ensures { result ≡ from_le_bytes w16 (take 2 (drop offset bytes.now)) }
{
    LittleEndian::read_u16(&bytes[offset..])
}

/// The number in four bytes at the offset.
fn u32_at(bytes: &[u8], offset: usize) -> u32
    requires { offset + 4 ≤ length bytes.now }
    ensures { result ≡ from_le_bytes w32 (take 4 (drop offset bytes.now)) }
{
    LittleEndian::read_u32(&bytes[offset..])
}

/// The first bytes, so many or all.
fn front_of(bytes: &[u8], count: usize) -> &[u8]
    ensures { result.now ≡ take count bytes.now }
{
    &bytes[..count.min(bytes.len())]
}

/// The bytes behind so many.
fn rest_of(bytes: &[u8], count: usize) -> &[u8]
    ensures { result.now ≡ drop count bytes.now }
{
    &bytes[count.min(bytes.len())..]
}

/// Whether all bytes are zero.
fn is_zeros(bytes: &[u8]) -> bool
    ensures { result ≡ is_zeros bytes.now }
{
    bytes.iter().all(|byte| *byte == 0)
}

/// Whether all bytes of the pages are zero.
fn are_zeros(pages: &[[u8; 4096]]) -> bool
    ensures { result ≡ list_all is_zeros pages.now }
{
    pages.iter().all(|page| is_zeros(page))
}

/// Whether all bytes of the slot are zero.
pub fn is_blank(slot: &SlotBytes) -> bool
    ensures { result ≡ list_all is_zeros (slot.now.first.items ∷ slot.now.later.items) }
{
    is_zeros(&slot.first) && are_zeros(&slot.later)
}

/// Puts the numbers at the heads of the slot's pages behind the others.
pub fn push_heads(heads: &mut Vec<u64>, slot: &SlotBytes) -> Result<(), NoMemory>
    requires { 16 ≤ length slot.now.first.items }
    ensures { OnOk result (heads.new.items ≡ heads.old.items
        ++ map stamp_field (slot.now.first.items ∷ slot.now.later.items)) }
{
    heads.push(stamp_of(&slot.first))?;
    for page in &slot.later {
        heads.push(stamp_of(page))?;
    }
    Ok(())
}

/// Whether all pages have the stamp.
fn have_stamp(pages: &[[u8; 4096]], stamp: u64) -> bool
    ensures { result ≡ list_all (λ page. stamp_field page == stamp) pages.now }
{
    pages.iter().all(|page| stamp_of(page) == stamp)
}

/// The content of all pages, without their heads.
fn content_of(alloc: Global, front: &[u8], later: &[[u8; 4096]]) -> Result<Vec<u8>, NoMemory>
    ensures { IfOk result (λ content. content.items ≡ front.now
        ++ flat_map (λ page. drop 8 page) later.now) }
{
    let mut content = Vec::from_slice(alloc, front)?;
    for page in later {
        content.extend_from_slice(rest_of(page, 8))?;
    }
    Ok(content)
}

/// Whose items are looked for: those of this worker, of so many.
#[derive(Clone, Copy)]
pub struct Share {
    /// The worker.
    pub worker: u32,
    /// The number of workers, 1 to 16.
    pub workers: u32,
}

/// The item with these lengths and this content at the place, if it is one of the share.
fn item_from(
    alloc: Global,
    share: Share,
    place: Place,
    stamp: u64,
    lengths: (usize, usize),
    content: &[u8],
) -> Result<Option<Stored>, NoMemory>
    requires share { (1 ≤ share.workers) × (share.workers ≤ 16) }
    ensures { IfOk result (λ item. option_to_list item ≡ item_in share.worker share.workers place
        (read_item all_classes place.class stamp lengths.0 lengths.1 content.now true)) }
{
    let key = front_of(content, lengths.0);
    if !is_class(class_of(lengths.0, lengths.1), place.class)
        || owner(key, share.workers) != share.worker
    {
        return Ok(None);
    }
    Ok(Some(Stored {
        key: Bytes::copy(alloc, key)?,
        stamp,
        value: Bytes::copy(alloc, front_of(rest_of(content, lengths.0), lengths.1))?,
        place,
    }))
}

/// The item in a slot with these bytes, if there is one of the share.
fn item_of(
    alloc: Global,
    share: Share,
    place: Place,
    first: &[u8],
    later: &[[u8; 4096]],
) -> Result<Option<Stored>, NoMemory>
    requires share { (1 ≤ share.workers) × (share.workers ≤ 16) }
    requires header { 16 ≤ length first.now }
    ensures { IfOk result (λ item. option_to_list item ≡ item_in share.worker share.workers place
        (read_large all_classes place.class (first.now ∷ later.now))) }
{
    let stamp = stamp_of(first);
    if u16_at(first, 8) != 1 {
        return Ok(None);
    }
    if !have_stamp(later, stamp) {
        return Ok(None);
    }
    let lengths = (u16_at(first, 10) as usize, u32_at(first, 12) as usize);
    let content = content_of(alloc, rest_of(first, 16), later)?;
    item_from(alloc, share, place, stamp, lengths, &content)
}

/// The item in the slot at the place, if there is one of the share.
pub fn item_in(
    alloc: Global,
    share: Share,
    place: Place,
    slot: &SlotBytes,
) -> Result<Option<Stored>, NoMemory>
    requires share { (1 ≤ share.workers) × (share.workers ≤ 16) }
    requires header { 16 ≤ length slot.now.first.items }
    ensures { IfOk result (λ item. option_to_list item ≡ item_in share.worker share.workers place
        (read_large all_classes place.class (slot.now.first.items ∷ slot.now.later.items))) }
{
    item_of(alloc, share, place, &slot.first, &slot.later)
}
