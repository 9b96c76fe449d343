ghost use Rattle.std.specs.Prelude.{◌≡◌, ℕ, ◌+◌, ◌^◌, ◌<◌, ◌≤◌, ◌∷◌, List, Option, take, drop};
ghost use Rattle.std.specs.Prelude.{length};
ghost use Rattle.std.specs.Option.{ForSome};
ghost use Rattle.kv_model.specs.Layout.{Layout, slot_size};
ghost use Rattle.kv_model.specs.Padding.{padded};
ghost use Rattle.kv_model.specs.SlotBytes.{header_bytes, link_field, tombstone_bytes};
ghost use Rattle.kv_model.specs.SlotBytes.{tombstone_size};
ghost use Rattle.kv_model.specs.Slots.{Tombstone, last_field, link_named, read_large, read_small};
ghost use Rattle.kv_model.specs.Slots.{stamp_field};
ghost use Rattle.kv_slot.specs.Overwrite.{overwritten};

use crate::header::{HEADER, TOMBSTONE, put_header};
use crate::numbers::{u32_at, u64_at};
use crate::overwrite::clear_from;
use crate::small::slot_size;

const PAGE: usize = 4_096;

/// Writes a tombstone into the slot of this class, 1 to 11, at the offset, which is 0 from class 8
/// on. The rest of the slot is zeros, and all bytes outside it stay; of a slot larger than a page,
/// this is its first page alone. A link is below 2^24.
pub fn put_tombstone(page: &mut [u8; 4096], class: u8, offset: u32, stamp: u64, link: Option<u32>)
    requires class { (1 ≤ class) × (class ≤ 11) }
    requires small { class ≤ 7 → offset + slot_size class ≤ 4096 }
    requires large { 8 ≤ class → offset ≡ 0 }
    requires link { ForSome link (λ slot. slot < 2 ^ 24) }
    ensures bytes { page.new ≡ overwritten page.old offset (tombstone_bytes class stamp link) }
    ensures size { length page.new ≡ 4096 }
{
    let begin = offset as usize;
    let size = tombstone_size(class);
    fill_tombstone(&mut page[begin..begin + size], stamp, link_field(link));
}

fn tombstone_size(class: u8) -> usize
    requires class { (1 ≤ class) × (class ≤ 11) }
    ensures value { result ≡ tombstone_size class }
    ensures small { class ≤ 7 → result ≡ slot_size class }
    ensures range { (64 ≤ result) × (result ≤ 4096) }
{
    if class <= 7 { slot_size(class) } else { PAGE }
}

fn fill_tombstone(slot: &mut [u8], stamp: u64, field: u32)
    requires { 16 ≤ length slot.old }
    ensures { slot.new ≡ padded (length slot.old) (header_bytes stamp 2 0 field) }
{
    put_header(slot, stamp, TOMBSTONE, 0, field);
    clear_from(slot, HEADER);
}

fn link_field(link: Option<u32>) -> u32
    requires { ForSome link (λ slot. slot < 2 ^ 24) }
    ensures { result ≡ link_field link }
{
    match link {
        None => 0,
        Some(slot) => slot + 1,
    }
}

/// The link of the tombstone in the slot of this class, 1 to 11, at the offset, which is 0 from
/// class 8 on. Of a larger slot the page is its first one.
pub fn link_of(page: &[u8; 4096], class: u8, offset: u32) -> Option<u32>
    requires class { (1 ≤ class) × (class ≤ 11) }
    requires small { class ≤ 7 → offset + slot_size class ≤ 4096 }
    requires large { 8 ≤ class → offset ≡ 0 }
    ensures value { result ≡ link_named (last_field (take 16 (drop offset page.now))) }
    ensures small { (layout : Layout) (stamp : ℕ) (link : Option ℕ) → class ≤ 7
        → read_small layout class (take (slot_size class) (drop offset page.now))
        ≡ Tombstone stamp link → result ≡ link }
    ensures large { (layout : Layout) (stamp : ℕ) (link : Option ℕ) (later : List (List ℕ))
        → 8 ≤ class
        → read_large layout class (page.now ∷ later) ≡ Tombstone stamp link → result ≡ link }
{
    let begin = offset as usize;
    let size = tombstone_size(class);
    link_at(&page[begin..begin + size])
}

fn link_at(slot: &[u8]) -> Option<u32>
    requires { 16 ≤ length slot.now }
    ensures { result ≡ link_named (last_field (take 16 slot.now)) }
{
    let header = &slot[..HEADER];
    link_in(u32_at(&header[12..]))
}

/// The slot that a link field names.
pub fn link_in(field: u32) -> Option<u32>
    ensures { result ≡ link_named field }
{
    field.checked_sub(1)
}

/// The number at the head of the page: of a large slot's pages, each begins with its stamp.
pub fn page_stamp(page: &[u8; 4096]) -> u64
    ensures { result ≡ stamp_field page.now }
{
    u64_at(page)
}
