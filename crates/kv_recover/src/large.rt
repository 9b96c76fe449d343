ghost use Rattle.std.specs.Prelude.{◌≡◌, ◌⊎◌, ℕ, ◌+◌, ◌*◌, ◌-◌, ◌^◌, ◌<◌, ◌≤◌, ◌++◌, List, [], ◌∷◌};
ghost use Rattle.std.specs.Prelude.{IsTrue, OnOk, IfOk, IfErr, length, map, max};
ghost use Rattle.std.specs.List.{range_with_len};
ghost use Rattle.kv_base.specs.Fault.{Counted};
ghost use Rattle.kv_base.specs.Image.{Image, zero_page, page_size};
ghost use Rattle.kv_disk.specs.Steps.{OnlyReads};
ghost use Rattle.kv_model.specs.Layout.{pages_in_slot};
ghost use Rattle.kv_model.specs.Reading.{large_slot};
ghost use Rattle.kv_model.specs.Recovery.{most_pages};
ghost use Rattle.kv_model.specs.Slots.{stamp_field};
ghost use Rattle.kv_slot.specs.Views.{read_front};
ghost use Rattle.kv_recover.specs.Causes.{HasReadCause};
ghost use Rattle.kv_recover.specs.Faults.{AreFaultsCounted};
ghost use Rattle.kv_recover.specs.Found.{with_slot};
ghost use Rattle.kv_recover.specs.Large.{IsLater, slot_from, IsWholeSlot, HasFoundLarge};
ghost use Rattle.kv_recover.specs.Large.{FindsLargeClass};
ghost use Rattle.kv_recover.specs.Pass.{IsPast};
ghost use Rattle.kv_recover.specs.Placed.{HasCounts, ArePlaced, AreOwned, with_end};

use crate::fault::OpenFault;
use crate::find::check_blanks;
use crate::items::Items;
use crate::read::{is_blank, length_of, read_page};
use crate::see::{Seen, see_slot};
use crate::share::Share;
use kv_base::{Failed, NoMemory, Place};
use kv_disk::Disk;
use kv_index::Index;
use kv_slot::{page_stamp, read_first, spot};
use std::alloc::Global;

/// The pages of one slot of this class, 8 to 11.
pub fn pages_in_slot(class: u8) -> u32
    requires class { (8 ≤ class) × (class ≤ 11) }
    ensures value { result ≡ pages_in_slot class }
    ensures range { (2 ≤ result) × (result ≤ 16) }
{
    match class {
        8 => 2,
        9 => 4,
        10 => 8,
        _ => 16,
    }
}

/// What the later pages of a slot say, beside its first one.
#[derive(Clone, Copy)]
pub struct Later {
    /// Whether all of them have the first one's stamp.
    pub whole: bool,
    /// Whether all of them are zero.
    pub blank: bool,
    /// The greatest of a number and those at their heads.
    pub floor: u64,
}

/// Whether all pages so far are zero, and this one too.
fn still_blank(blank: bool, page: &[u8; 4096]) -> bool
    ensures to { IsTrue result → IsTrue blank × (page.now ≡ zero_page) }
    ensures from { IsTrue blank → page.now ≡ zero_page → IsTrue result }
{
    blank && is_blank(page)
}

/// What the later pages say once one more was read.
fn with_later(later: Later, page: &[u8; 4096], stamp: u64) -> Later
    ensures pages { (pages : List (List ℕ)) (floor : ℕ)
        → IsLater pages stamp floor later.whole later.blank later.floor
        → IsLater (pages ++ page.now ∷ []) stamp floor result.whole result.blank result.floor }
    ensures floor { later.floor ≤ result.floor }
{
    let head = page_stamp(page);
    Later {
        whole: later.whole & (head == stamp),
        blank: still_blank(later.blank, page),
        floor: later.floor.max(head),
    }
}

/// Reads the later pages of a slot.
pub fn read_later<D: Disk>(
    disk: &mut D,
    class: u8,
    first: u32,
    count: u32,
    stamp: u64,
    floor: u64,
) -> Result<Later, Failed>
    requires class { class ≤ 13 }
    requires pages { first + count < 2 ^ 32 - 1 }
    ensures reads { OnlyReads ⟦<D as Disk>⟧ disk.old disk.new }
    ensures pages { IsTrue D.tells → IfOk result (λ later. IsLater
        (map (λ page. D.seen disk.old class page) (range_with_len first count)) stamp floor
        later.whole later.blank later.floor) }
    ensures floor { IfOk result (λ later. floor ≤ later.floor) }
    ensures counted { Counted (D.faults disk.old) (D.faults disk.new) result }
    ensures whole { IsTrue D.tells → OnOk result ((k : ℕ) → k < count
        → length (D.seen disk.old class (first + k)) ≡ page_size) }
{
    let mut later = Later {
        whole: true,
        blank: true,
        floor,
    };
    for number in 0..count {
        let mut page = [0; 4096];
        read_page(disk, class, first + number, &mut page)?;
        later = with_later(later, &page, stamp);
    }
    Ok(later)
}

/// Takes the item of a slot of the classes 8 to 11 into the index, given its first page and whether
/// the later ones have its stamp.
fn see_first<I: Index>(
    alloc: Global,
    items: &mut Items<I>,
    share: Share,
    page: &[u8; 4096],
    whole: bool,
    place: Place,
) -> Result<(), NoMemory>
    requires class { (8 ≤ place.class) × (place.class ≤ 11) }
    requires share { (1 ≤ share.workers) × (share.workers ≤ 16) }
    requires counted { HasCounts (I.entries items.old.index) items.old.counts }
    ensures entries { (value : List ℕ) → OnOk result (I.entries items.new.index
        ≡ with_slot (I.entries items.old.index) share.worker share.workers place.class place.slot
        (slot_from (read_front place.class page.now) whole value)) }
    ensures counted { OnOk result (HasCounts (I.entries items.new.index) items.new.counts) }
{
    if whole {
        see_slot(alloc, items, share, read_first(page, place.class), place)?;
    }
    Ok(())
}

/// Sees a slot of the classes 8 to 11, given its first page and what the later ones say.
fn see_large<I: Index>(
    alloc: Global,
    items: &mut Items<I>,
    share: Share,
    page: &[u8; 4096],
    later: Later,
    place: Place,
    end: u32,
) -> Result<Seen, NoMemory>
    requires class { (8 ≤ place.class) × (place.class ≤ 11) }
    requires slot { place.slot < 2 ^ 24 }
    requires behind { end ≤ place.slot }
    requires stamp { stamp_field page.now ≤ later.floor }
    requires share { (1 ≤ share.workers) × (share.workers ≤ 16) }
    requires counted { HasCounts (I.entries items.old.index) items.old.counts }
    requires owned { AreOwned (I.entries items.old.index) share.worker share.workers }
    ensures found { IfOk result (λ now. (image : Image) (floor : ℕ) (pages : List (List ℕ))
        → large_slot image place.class place.slot ≡ page.now ∷ pages
        → IsLater pages (stamp_field page.now) (max floor (stamp_field page.now)) later.whole
        later.blank later.floor
        → HasFoundLarge image share.worker share.workers place.class place.slot
        (I.entries items.old.index) floor end
        → HasFoundLarge image share.worker share.workers place.class (place.slot + 1)
        (I.entries items.new.index) now.floor now.end) }
    ensures end { IfOk result (λ now. now.end ≤ place.slot + 1) }
    ensures placed { IfOk result (λ now. (ends : ℕ → ℕ) (floor : ℕ) → floor ≤ later.floor
        → ArePlaced (I.entries items.old.index) floor (with_end ends place.class end)
        → ArePlaced (I.entries items.new.index) now.floor (with_end ends place.class now.end)) }
    ensures counted { OnOk result (HasCounts (I.entries items.new.index) items.new.counts) }
    ensures owned { OnOk result (AreOwned (I.entries items.new.index) share.worker
        share.workers) }
{
    see_first(alloc, items, share, page, later.whole, place)?;
    let end = if still_blank(later.blank, page) {
        end
    } else {
        place.slot + 1
    };
    Ok(Seen {
        floor: later.floor,
        end,
    })
}

/// Reads a slot of the classes 8 to 11 and sees it.
fn find_large_at<D: Disk, I: Index>(
    alloc: Global,
    disk: &mut D,
    items: &mut Items<I>,
    share: Share,
    place: Place,
    seen: Seen,
) -> Result<Seen, OpenFault>
    requires class { (8 ≤ place.class) × (place.class ≤ 11) }
    requires slot { place.slot < 2 ^ 24 }
    requires behind { seen.end ≤ place.slot }
    requires share { (1 ≤ share.workers) × (share.workers ≤ 16) }
    requires counted { HasCounts (I.entries items.old.index) items.old.counts }
    requires owned { AreOwned (I.entries items.old.index) share.worker share.workers }
    ensures reads { OnlyReads ⟦<D as Disk>⟧ disk.old disk.new }
    ensures found { IsTrue D.tells → IfOk result (λ now.
        HasFoundLarge (D.seen disk.old) share.worker share.workers place.class place.slot
        (I.entries items.old.index) seen.floor seen.end
        → HasFoundLarge (D.seen disk.old) share.worker share.workers place.class (place.slot + 1)
        (I.entries items.new.index) now.floor now.end) }
    ensures end { IfOk result (λ now. now.end ≤ place.slot + 1) }
    ensures placed { IfOk result (λ now. (ends : ℕ → ℕ) → ArePlaced (I.entries items.old.index)
        seen.floor (with_end ends place.class seen.end) → ArePlaced (I.entries items.new.index)
        now.floor (with_end ends place.class now.end)) }
    ensures counted { OnOk result (HasCounts (I.entries items.new.index) items.new.counts) }
    ensures owned { OnOk result (AreOwned (I.entries items.new.index) share.worker
        share.workers) }
    ensures cause { IfErr result (HasReadCause ⊥) }
    ensures faults { AreFaultsCounted (D.faults disk.old) (D.faults disk.new) result }
    ensures whole { IsTrue D.tells → OnOk result (IsWholeSlot (D.seen disk.old) place.class
        place.slot) }
{
    let (first, _) = spot(place);
    let count = pages_in_slot(place.class);
    let mut page = [0; 4096];
    read_page(disk, place.class, first, &mut page)?;
    let stamp = page_stamp(&page);
    let floor = seen.floor.max(stamp);
    let later = read_later(disk, place.class, first + 1, count - 1, stamp, floor)?;
    Ok(see_large(alloc, items, share, &page, later, place, seen.end)?)
}

/// Sees the first slots of this class, 8 to 11.
fn find_large_slots<D: Disk, I: Index>(
    alloc: Global,
    disk: &mut D,
    items: &mut Items<I>,
    share: Share,
    class: u8,
    slots: u32,
    floor: u64,
) -> Result<Seen, OpenFault>
    requires class { (8 ≤ class) × (class ≤ 11) }
    requires slots { slots ≤ 2 ^ 24 }
    requires share { (1 ≤ share.workers) × (share.workers ≤ 16) }
    requires counted { HasCounts (I.entries items.old.index) items.old.counts }
    requires owned { AreOwned (I.entries items.old.index) share.worker share.workers }
    ensures reads { OnlyReads ⟦<D as Disk>⟧ disk.old disk.new }
    ensures found { IsTrue D.tells → IfOk result (λ now.
        HasFoundLarge (D.seen disk.old) share.worker share.workers class 0 (I.entries items.old.index)
        floor 0
        → HasFoundLarge (D.seen disk.old) share.worker share.workers class slots
        (I.entries items.new.index) now.floor now.end) }
    ensures end { IfOk result (λ now. now.end ≤ 2 ^ 24) }
    ensures placed { IfOk result (λ now. (ends : ℕ → ℕ) → ArePlaced (I.entries items.old.index)
        floor (with_end ends class 0) → ArePlaced (I.entries items.new.index) now.floor
        (with_end ends class now.end)) }
    ensures counted { OnOk result (HasCounts (I.entries items.new.index) items.new.counts) }
    ensures owned { OnOk result (AreOwned (I.entries items.new.index) share.worker
        share.workers) }
    ensures cause { IfErr result (HasReadCause ⊥) }
    ensures faults { AreFaultsCounted (D.faults disk.old) (D.faults disk.new) result }
    ensures whole { IsTrue D.tells → OnOk result ((slot : ℕ) → slot < slots
        → IsWholeSlot (D.seen disk.old) class slot) }
{
    let mut seen = Seen { floor, end: 0 };
    for slot in 0..slots {
        seen = find_large_at(alloc, disk, items, share, Place { class, slot }, seen)?;
    }
    Ok(seen)
}

/// The slots that begin in so many pages, but no more than 2^24.
fn slots_in(pages: u32, per_slot: u32) -> u32
    requires { (2 ≤ per_slot) × (per_slot ≤ 16) }
    ensures enough { (pages ≤ result * per_slot) ⊎ (result ≡ 2 ^ 24) }
    ensures limit { result ≤ 2 ^ 24 }
{
    const MOST: u32 = 1 << 24;
    let slots = pages / per_slot;
    if slots < MOST { slots + 1 } else { MOST }
}

/// The pages of the most slots of this class, 8 to 11.
fn most_large_pages(class: u8) -> u32
    requires class { (8 ≤ class) × (class ≤ 11) }
    ensures value { result ≡ most_pages class }
    ensures slots { result ≡ 2 ^ 24 * pages_in_slot class }
{
    match class {
        8 => 1 << 25,
        9 => 1 << 26,
        10 => 1 << 27,
        _ => 1 << 28,
    }
}

/// Finds the items of this class, 8 to 11.
pub fn find_large_class<D: Disk, I: Index>(
    alloc: Global,
    disk: &mut D,
    items: &mut Items<I>,
    share: Share,
    class: u8,
    floor: u64,
) -> Result<Seen, OpenFault>
    requires class { (8 ≤ class) × (class ≤ 11) }
    requires share { (1 ≤ share.workers) × (share.workers ≤ 16) }
    requires counted { HasCounts (I.entries items.old.index) items.old.counts }
    requires owned { AreOwned (I.entries items.old.index) share.worker share.workers }
    ensures reads { OnlyReads ⟦<D as Disk>⟧ disk.old disk.new }
    ensures found { IsTrue D.tells → IfOk result (λ now.
        FindsLargeClass (D.seen disk.old) share.worker share.workers class (I.entries items.old.index)
        (I.entries items.new.index) floor now.floor now.end) }
    ensures end { IfOk result (λ now. now.end ≤ 2 ^ 24) }
    ensures placed { IfOk result (λ now. (ends : ℕ → ℕ) → ArePlaced (I.entries items.old.index)
        floor (with_end ends class 0) → ArePlaced (I.entries items.new.index) now.floor
        (with_end ends class now.end)) }
    ensures counted { OnOk result (HasCounts (I.entries items.new.index) items.new.counts) }
    ensures owned { OnOk result (AreOwned (I.entries items.new.index) share.worker
        share.workers) }
    ensures cause { IfErr result (HasReadCause (IsTrue D.tells → IsPast (D.seen disk.old) class)) }
    ensures faults { AreFaultsCounted (D.faults disk.old) (D.faults disk.new) result }
{
    let pages = length_of(disk, class)?;
    let per_slot = pages_in_slot(class);
    let slots = slots_in(pages, per_slot);
    let seen = find_large_slots(alloc, disk, items, share, class, slots, floor)?;
    check_blanks(disk, class, most_large_pages(class), pages)?;
    Ok(seen)
}
