ghost use Rattle.std.specs.Prelude.{◌≡◌, ℕ, ◌+◌, ◌^◌, ◌≤◌, ◌<◌, IfOk, OnOk, OnErr, filter, not, max};
ghost use Rattle.std.specs.Prelude.{option_to_list};
ghost use Rattle.std.specs.Prelude.{◌++◌, [], ◌∷◌, slice_index, length, map};
ghost use Rattle.std.specs.List.{list_all, list_any, range_with_len};
ghost use Rattle.kv_base.specs.Image.{with_page};
ghost use Rattle.kv_model.specs.Layout.{all_classes};
ghost use Rattle.kv_model.specs.Plain.{image_of, zero_image, IsEnd, AreEnds, places_in, places_of};
ghost use Rattle.kv_model.specs.Plain.{AreBelow, found_in, heads_in, is_first, kept_of, AreKept};
ghost use Rattle.kv_model.specs.Plain.{AreFreeSlots, free_in, is_at, is_up_to, place_at, item_in, IsGreatest};
ghost use Rattle.kv_model.specs.Reading.{slot_at, heads_at, IsFloor};

use crate::page::{Page, count_pages};
use crate::slot::{Share, is_blank, item_in, push_heads, slot_bytes, slots_in_page};
use crate::stored::Stored;
use kv_base::{NoMemory, Place};
use std::alloc::Global;
use std::marker::Model;

/// An image of one worker's disk in memory, and a plain program that answers what stands on it:
/// each answer reads every slot again. An opened store can be compared with it. Contracts see its
/// pages, of which `image_of` makes what the disk reads as.
#[derive(Debug, Drop)]
pub struct PlainImage {
    alloc: Global,
    pages: Vec<Page>,
}

impl Model for PlainImage {
    ghost use Rattle.std.specs.Prelude.{List};
    ghost use Rattle.kv_model.specs.declared.page.Page.{Page};

    ghost Value = { List Page };

    ghost view = { λ image. image.pages.items };
}

impl PlainImage {
    /// All pages are zeros.
    pub fn new(alloc: Global) -> PlainImage
        ensures { image_of result ≡ zero_image }
    {
        PlainImage {
            alloc,
            pages: Vec::new(alloc),
        }
    }

    /// Writes a page of the file. The one error is want of memory, and then the image is as before.
    pub fn write_page(
        &mut self,
        file: u8,
        number: u16,
        content: &[u8; 4096],
    ) -> Result<(), NoMemory>
        ensures ok { OnOk result (image_of self.new ≡ with_page (image_of self.old) file
            number content.now) }
        ensures err { OnErr result (self.new ≡ self.old) }
    {
        self.pages.push(Page {
            file,
            number,
            content: *content,
        })?;
        Ok(())
    }

    /// The end of each class, by its number. The one error is want of memory.
    pub fn ends(&self) -> Result<[u32; 12], NoMemory>
        ensures { IfOk result (λ ends. AreEnds (image_of self.now) ends) }
    {
        ends_of(self.alloc, &self.pages)
    }

    /// The greatest number at the head of a page of a slot. The one error is want of memory.
    pub fn floor(&self) -> Result<u64, NoMemory>
        ensures { IfOk result (λ floor. IsFloor (heads_at all_classes (image_of self.now))
            floor) }
    {
        floor_of(self.alloc, &self.pages)
    }

    /// The items that are kept for this worker of so many, 1 to 16, by class and then slot. The one
    /// error is want of memory.
    pub fn kept(&self, worker: u32, workers: u32) -> Result<Vec<Stored>, NoMemory>
        requires share { (1 ≤ workers) × (workers ≤ 16) }
        ensures { IfOk result (λ kept. AreKept (image_of self.now) worker workers kept.items) }
    {
        kept_of(self.alloc, &self.pages, Share { worker, workers })
    }

    /// The slots of the class, 1 to 11, below its end where nothing is kept for this worker of so
    /// many, by rising number. The one error is want of memory.
    pub fn free(&self, worker: u32, workers: u32, class: u8) -> Result<Vec<u32>, NoMemory>
        requires share { (1 ≤ workers) × (workers ≤ 16) }
        requires class { (1 ≤ class) × (class ≤ 11) }
        ensures { IfOk result (λ slots. AreFreeSlots (image_of self.now) worker workers
            class slots.items) }
    {
        free_of(self.alloc, &self.pages, Share { worker, workers }, class)
    }
}

/// The end of this class, 1 to 11.
fn end_of(alloc: Global, pages: &[Page], class: u8) -> Result<u32, NoMemory>
    requires class { (1 ≤ class) × (class ≤ 11) }
    ensures end { IfOk result (IsEnd (image_of pages.now) class) }
    ensures range { IfOk result (λ end. end ≤ 2 ^ 22) }
{
    let mut end = 0;
    for slot in 0..count_pages(pages, class) * slots_in_page(class) {
        if !is_blank(&slot_bytes(alloc, pages, Place { class, slot })?) {
            end = slot + 1;
        }
    }
    Ok(end)
}

/// The end of each class, by its number.
fn ends_of(alloc: Global, pages: &[Page]) -> Result<[u32; 12], NoMemory>
    ensures ends { IfOk result (λ ends. AreEnds (image_of pages.now) ends) }
    ensures range { IfOk result (λ ends. (class : ℕ) → slice_index ends class ≤ 2 ^ 22) }
{
    let mut ends = [0; 12];
    for class in 1..12 {
        ends[class as usize] = end_of(alloc, pages, class)?;
    }
    Ok(ends)
}

/// Puts the slots of the class below its end behind the others.
fn push_places(places: &mut Vec<Place>, class: u8, end: u32) -> Result<(), NoMemory>
    ensures { OnOk result (places.new.items ≡ places.old.items
        ++ map (place_at class) (range_with_len 0 end)) }
{
    for slot in 0..end {
        places.push(Place { class, slot })?;
    }
    Ok(())
}

/// All slots below the ends, by class and then slot.
fn places_of(alloc: Global, ends: &[u32; 12]) -> Result<Vec<Place>, NoMemory>
    requires { (class : ℕ) → slice_index ends.now class ≤ 2 ^ 22 }
    ensures places { IfOk result (λ places. places.items ≡ places_of ends.now) }
    ensures below { IfOk result (λ places. AreBelow (2 ^ 24) places.items) }
{
    let mut places = Vec::new(alloc);
    for class in 1..12 {
        push_places(&mut places, class, ends[class as usize])?;
    }
    Ok(places)
}

/// The item in the slot at the place, if there is one of the share.
fn item_at(
    alloc: Global,
    pages: &[Page],
    share: Share,
    place: Place,
) -> Result<Option<Stored>, NoMemory>
    requires share { (1 ≤ share.workers) × (share.workers ≤ 16) }
    requires class { (1 ≤ place.class) × (place.class ≤ 11) }
    requires slot { place.slot < 2 ^ 24 }
    ensures { IfOk result (λ item. option_to_list item ≡ item_in share.worker share.workers place
        (slot_at all_classes (image_of pages.now) place.class place.slot)) }
{
    let slot = slot_bytes(alloc, pages, place)?;
    item_in(alloc, share, place, &slot)
}

/// Puts the item of the share in the slot, if there is one, behind the others.
fn push_found(
    alloc: Global,
    pages: &[Page],
    share: Share,
    place: Place,
    found: &mut Vec<Stored>,
) -> Result<(), NoMemory>
    requires share { (1 ≤ share.workers) × (share.workers ≤ 16) }
    requires class { (1 ≤ place.class) × (place.class ≤ 11) }
    requires slot { place.slot < 2 ^ 24 }
    ensures { OnOk result (found.new.items ≡ found.old.items ++ item_in share.worker share.workers
        place (slot_at all_classes (image_of pages.now) place.class place.slot)) }
{
    if let Some(item) = item_at(alloc, pages, share, place)? {
        found.push(item)?;
    }
    Ok(())
}

/// The items of the share in these slots.
fn found_in(
    alloc: Global,
    pages: &[Page],
    share: Share,
    places: &[Place],
) -> Result<Vec<Stored>, NoMemory>
    requires share { (1 ≤ share.workers) × (share.workers ≤ 16) }
    requires places { AreBelow (2 ^ 24) places.now }
    ensures { IfOk result (λ found. found.items ≡ found_in (image_of pages.now) share.worker
        share.workers places.now) }
{
    let mut found = Vec::new(alloc);
    for place in places {
        push_found(alloc, pages, share, *place, &mut found)?;
    }
    Ok(found)
}

/// The numbers at the heads of all pages of these slots.
fn heads_in(alloc: Global, pages: &[Page], places: &[Place]) -> Result<Vec<u64>, NoMemory>
    requires { AreBelow (2 ^ 24) places.now }
    ensures { IfOk result (λ heads. heads.items ≡ heads_in (image_of pages.now) places.now) }
{
    let mut heads = Vec::new(alloc);
    for place in places {
        push_heads(&mut heads, &slot_bytes(alloc, pages, *place)?)?;
    }
    Ok(heads)
}

/// The greater number.
fn greater(a: u64, b: u64) -> u64
    ensures { result ≡ max a b }
{
    if a < b { b } else { a }
}

/// The greatest of the numbers, 0 where there is none.
fn greatest(numbers: &[u64]) -> u64
    ensures { IsGreatest numbers.now result }
{
    let mut most = 0u64;
    for number in numbers {
        most = greater(most, *number);
    }
    most
}

/// Whether the first place is not behind the second.
fn is_up_to(place: Place, other: Place) -> bool
    ensures { result ≡ is_up_to place other }
{
    place.class < other.class || place.class == other.class && place.slot <= other.slot
}

/// Whether the first item is preferred to the second, if both are of one key.
fn is_first(item: &Stored, other: &Stored) -> bool
    ensures { result ≡ is_first item.now other.now }
{
    other.key.as_slice() != item.key.as_slice()
        || other.stamp < item.stamp
        || item.stamp == other.stamp && is_up_to(item.place, other.place)
}

/// Whether the item is preferred to all others of its key.
fn is_kept(found: &[Stored], item: &Stored) -> bool
    ensures { result ≡ list_all (is_first item.now) found.now }
{
    found.iter().all(|other| is_first(item, other))
}

/// Whether an item is in the slot.
fn is_taken(kept: &[Stored], class: u8, slot: u32) -> bool
    ensures { result ≡ list_any (is_at class slot) kept.now }
{
    kept.iter().any(|item| item.place.class == class && item.place.slot == slot)
}

/// Puts the slot behind the others, if none of the items is there.
fn push_free(slots: &mut Vec<u32>, kept: &[Stored], class: u8, slot: u32) -> Result<(), NoMemory>
    ensures { OnOk result (slots.new.items ≡ slots.old.items
        ++ filter (λ slot. not (list_any (is_at class slot) kept.now)) (slot ∷ [])) }
{
    if !is_taken(kept, class, slot) {
        slots.push(slot)?;
    }
    Ok(())
}

/// The slots of the class below the end where none of the items is.
fn free_in(alloc: Global, kept: &[Stored], class: u8, end: u32) -> Result<Vec<u32>, NoMemory>
    ensures { IfOk result (λ slots. slots.items ≡ free_in class kept.now end) }
{
    let mut slots = Vec::new(alloc);
    for slot in 0..end {
        push_free(&mut slots, kept, class, slot)?;
    }
    Ok(slots)
}

/// The greatest number at the head of a page of a slot.
fn floor_of(alloc: Global, pages: &[Page]) -> Result<u64, NoMemory>
    ensures { IfOk result (λ floor. IsFloor (heads_at all_classes (image_of pages.now)) floor) }
{
    let ends = ends_of(alloc, pages)?;
    let places = places_of(alloc, &ends)?;
    let heads = heads_in(alloc, pages, &places)?;
    Ok(greatest(&heads))
}

/// Of these items those that are kept: each that is preferred to all others of its key.
fn retain_kept(found: &[Stored], kept: &mut Vec<Stored>)
    ensures { kept.new.items ≡ filter (λ item. list_all (is_first item) found.now) kept.old.items }
{
    kept.retain(|item| is_kept(found, item));
}

/// The items that are kept for the share.
fn kept_of(alloc: Global, pages: &[Page], share: Share) -> Result<Vec<Stored>, NoMemory>
    requires { (1 ≤ share.workers) × (share.workers ≤ 16) }
    ensures { IfOk result (λ kept. AreKept (image_of pages.now) share.worker share.workers
        kept.items) }
{
    let ends = ends_of(alloc, pages)?;
    let places = places_of(alloc, &ends)?;
    let found = found_in(alloc, pages, share, &places)?;
    let mut kept = found_in(alloc, pages, share, &places)?;
    retain_kept(&found, &mut kept);
    Ok(kept)
}

/// The slots of the class, 1 to 11, below its end where nothing is kept for the share.
fn free_of(alloc: Global, pages: &[Page], share: Share, class: u8) -> Result<Vec<u32>, NoMemory>
    requires share { (1 ≤ share.workers) × (share.workers ≤ 16) }
    requires class { (1 ≤ class) × (class ≤ 11) }
    ensures { IfOk result (λ slots. AreFreeSlots (image_of pages.now) share.worker share.workers
        class slots.items) }
{
    let kept = kept_of(alloc, pages, share)?;
    let end = end_of(alloc, pages, class)?;
    let slots = free_in(alloc, &kept, class, end)?;
    Ok(slots)
}
