ghost use Rattle.std.specs.Prelude.{◌≡◌, ℕ, ◌+◌, ◌*◌, ◌-◌, ◌^◌, ◌<◌, ◌≤◌, ◌≢◌, IsTrue, OnOk, IfOk};
ghost use Rattle.std.specs.Prelude.{IfErr, length};
ghost use Rattle.kv_base.specs.Image.{zero_page, page_size};
ghost use Rattle.kv_model.specs.Layout.{slots_in_page};
ghost use Rattle.kv_model.specs.Recovery.{most_pages};
ghost use Rattle.std.specs.Prelude.{slice_index, max};
ghost use Rattle.std.specs.FinMap as finite;
ghost use Rattle.kv_recover.specs.Placed.{HasCounts, ArePlaced, AreOwned, with_end};
ghost use Rattle.kv_recover.specs.Pass.{HasFound, HasFoundBelow, IsPast, FindsClass, FindsBelow};
ghost use Rattle.kv_disk.specs.Steps.{OnlyReads};
ghost use Rattle.kv_recover.specs.Causes.{HasReadCause, HasCheckCause};
ghost use Rattle.kv_recover.specs.Faults.{AreFaultsCounted};

use crate::fault::OpenFault;
use crate::items::Items;
use crate::read::{check_blank, length_of, read_page};
use crate::see::{Seen, see_page};
use crate::share::Share;
use kv_disk::Disk;
use kv_index::Index;
use std::alloc::Global;

/// The pages of the most slots of this class, 1 to 7.
fn most_pages(class: u8) -> u32
    requires class { (1 ≤ class) × (class ≤ 7) }
    ensures value { result ≡ most_pages class }
    ensures slots { result * slots_in_page class ≡ 2 ^ 24 }
{
    match class {
        1 => 1 << 18,
        2 => 1 << 19,
        3 => 1 << 20,
        4 => 1 << 21,
        5 => 1 << 22,
        6 => 1 << 23,
        _ => 1 << 24,
    }
}

/// Reads a page of this class, 1 to 7, and sees its slots.
fn find_in_page<D: Disk, I: Index>(
    alloc: Global,
    disk: &mut D,
    items: &mut Items<I>,
    share: Share,
    class: u8,
    number: u32,
    seen: Seen,
) -> Result<Seen, OpenFault>
    requires class { (1 ≤ class) × (class ≤ 7) }
    requires number { (number + 1) * slots_in_page class ≤ 2 ^ 24 }
    requires behind { seen.end ≤ number * slots_in_page class }
    requires share { (1 ≤ share.workers) × (share.workers ≤ 16) }
    requires counted { HasCounts (I.entries items.old.index) items.old.counts }
    requires owned { AreOwned (I.entries items.old.index) share.worker share.workers }
    ensures reads { OnlyReads ⟦<D as Disk>⟧ disk.old disk.new }
    ensures found { IsTrue D.tells → IfOk result (λ now.
        HasFound (D.seen disk.old) share.worker share.workers class (number * slots_in_page class)
        (I.entries items.old.index) seen.floor seen.end
        → HasFound (D.seen disk.old) share.worker share.workers class
        ((number + 1) * slots_in_page class) (I.entries items.new.index) now.floor now.end) }
    ensures end { IfOk result (λ now. now.end ≤ (number + 1) * slots_in_page class) }
    ensures placed { IfOk result (λ now. (ends : ℕ → ℕ) → ArePlaced (I.entries items.old.index)
        seen.floor (with_end ends class seen.end) → ArePlaced (I.entries items.new.index) now.floor
        (with_end ends class now.end)) }
    ensures counted { OnOk result (HasCounts (I.entries items.new.index) items.new.counts) }
    ensures owned { OnOk result (AreOwned (I.entries items.new.index) share.worker
        share.workers) }
    ensures cause { IfErr result (HasReadCause ⊥) }
    ensures faults { AreFaultsCounted (D.faults disk.old) (D.faults disk.new) result }
    ensures whole { IsTrue D.tells → OnOk result (length (D.seen disk.old class number)
        ≡ page_size) }
{
    let mut page = [0; 4096];
    read_page(disk, class, number, &mut page)?;
    Ok(see_page(alloc, items, share, &page, class, number, seen)?)
}

/// Sees the slots of the first pages of this class, 1 to 7.
fn find_in_pages<D: Disk, I: Index>(
    alloc: Global,
    disk: &mut D,
    items: &mut Items<I>,
    share: Share,
    class: u8,
    pages: u32,
    floor: u64,
) -> Result<Seen, OpenFault>
    requires class { (1 ≤ class) × (class ≤ 7) }
    requires pages { pages * slots_in_page class ≤ 2 ^ 24 }
    requires share { (1 ≤ share.workers) × (share.workers ≤ 16) }
    requires counted { HasCounts (I.entries items.old.index) items.old.counts }
    requires owned { AreOwned (I.entries items.old.index) share.worker share.workers }
    ensures reads { OnlyReads ⟦<D as Disk>⟧ disk.old disk.new }
    ensures found { IsTrue D.tells → IfOk result (λ now.
        HasFound (D.seen disk.old) share.worker share.workers class 0 (I.entries items.old.index) floor 0
        → HasFound (D.seen disk.old) share.worker share.workers class (pages * slots_in_page class)
        (I.entries items.new.index) now.floor now.end) }
    ensures end { IfOk result (λ now. now.end ≤ 2 ^ 24) }
    ensures placed { IfOk result (λ now. (ends : ℕ → ℕ) → ArePlaced (I.entries items.old.index)
        floor (with_end ends class 0) → ArePlaced (I.entries items.new.index) now.floor
        (with_end ends class now.end)) }
    ensures counted { OnOk result (HasCounts (I.entries items.new.index) items.new.counts) }
    ensures owned { OnOk result (AreOwned (I.entries items.new.index) share.worker
        share.workers) }
    ensures cause { IfErr result (HasReadCause ⊥) }
    ensures faults { AreFaultsCounted (D.faults disk.old) (D.faults disk.new) result }
    ensures whole { IsTrue D.tells → OnOk result ((page : ℕ) → page < pages
        → length (D.seen disk.old class page) ≡ page_size) }
{
    let mut seen = Seen { floor, end: 0 };
    for number in 0..pages {
        seen = find_in_page(alloc, disk, items, share, class, number, seen)?;
    }
    Ok(seen)
}

/// Refuses a page from the first to the second that isn't zeros.
pub fn check_blanks<D: Disk>(
    disk: &mut D,
    class: u8,
    first: u32,
    pages: u32,
) -> Result<(), OpenFault>
    requires class { class ≤ 13 }
    ensures reads { OnlyReads ⟦<D as Disk>⟧ disk.old disk.new }
    ensures ok { IsTrue D.tells → OnOk result ((page : ℕ) → first ≤ page → page < pages
        → D.seen disk.old class page ≡ zero_page) }
    ensures cause { IfErr result (HasCheckCause (IsTrue D.tells → (page : ℕ) × (first ≤ page)
        × (D.seen disk.old class page ≢ zero_page))) }
    ensures counted { AreFaultsCounted (D.faults disk.old) (D.faults disk.new) result }
{
    for page in first..pages {
        check_blank(disk, class, page)?;
    }
    Ok(())
}

/// Finds the items of this class, 1 to 7.
pub fn find_class<D: Disk, I: Index>(
    alloc: Global,
    disk: &mut D,
    items: &mut Items<I>,
    share: Share,
    class: u8,
    floor: u64,
) -> Result<Seen, OpenFault>
    requires class { (1 ≤ class) × (class ≤ 7) }
    requires share { (1 ≤ share.workers) × (share.workers ≤ 16) }
    requires counted { HasCounts (I.entries items.old.index) items.old.counts }
    requires owned { AreOwned (I.entries items.old.index) share.worker share.workers }
    ensures reads { OnlyReads ⟦<D as Disk>⟧ disk.old disk.new }
    ensures found { IsTrue D.tells → IfOk result (λ now.
        FindsClass (D.seen disk.old) share.worker share.workers class (I.entries items.old.index)
        (I.entries items.new.index) floor now.floor now.end) }
    ensures end { IfOk result (λ now. now.end ≤ 2 ^ 24) }
    ensures placed { IfOk result (λ now. (ends : ℕ → ℕ) → ArePlaced (I.entries items.old.index)
        floor (with_end ends class 0) → ArePlaced (I.entries items.new.index) now.floor
        (with_end ends class now.end)) }
    ensures counted { OnOk result (HasCounts (I.entries items.new.index) items.new.counts) }
    ensures owned { OnOk result (AreOwned (I.entries items.new.index) share.worker
        share.workers) }
    ensures cause { IfErr result (HasReadCause (IsTrue D.tells → IsPast (D.seen disk.old) class)) }
    ensures faults { AreFaultsCounted (D.faults disk.old) (D.faults disk.new) result }
{
    let pages = length_of(disk, class)?;
    let most = most_pages(class);
    let seen = find_in_pages(alloc, disk, items, share, class, pages.min(most), floor)?;
    check_blanks(disk, class, most, pages)?;
    Ok(seen)
}

/// What was found beside the items.
#[derive(Clone, Copy)]
pub struct Found {
    /// The greatest number at the head of a page of a slot.
    pub floor: u64,
    /// The end of each class, by its number.
    pub ends: [u32; 12],
}

/// Finds the items of the classes 1 to 7, into an index that is empty.
pub fn find_small<D: Disk, I: Index>(
    alloc: Global,
    disk: &mut D,
    items: &mut Items<I>,
    share: Share,
) -> Result<Found, OpenFault>
    requires share { (1 ≤ share.workers) × (share.workers ≤ 16) }
    requires none { I.entries items.old.index ≡ finite.empty }
    requires counted { HasCounts (I.entries items.old.index) items.old.counts }
    ensures reads { OnlyReads ⟦<D as Disk>⟧ disk.old disk.new }
    ensures found { IsTrue D.tells → IfOk result (λ found. FindsBelow (D.seen disk.old)
        share.worker share.workers 8 (I.entries items.new.index) found.floor found.ends) }
    ensures ends { IfOk result (λ found. (class : ℕ) → slice_index found.ends class ≤ 2 ^ 24) }
    ensures placed { IfOk result (λ found. ArePlaced (I.entries items.new.index) found.floor
        (λ class. slice_index found.ends class)) }
    ensures rest { IfOk result (λ found. (class : ℕ) → 8 ≤ class
        → slice_index found.ends class ≡ 0) }
    ensures zero { IfOk result (λ found. slice_index found.ends 0 ≡ 0) }
    ensures counted { OnOk result (HasCounts (I.entries items.new.index) items.new.counts) }
    ensures owned { OnOk result (AreOwned (I.entries items.new.index) share.worker
        share.workers) }
    ensures cause { IfErr result (HasReadCause (IsTrue D.tells → (class : ℕ) × (1 ≤ class)
        × (class ≤ 7) × IsPast (D.seen disk.old) class)) }
    ensures faults { AreFaultsCounted (D.faults disk.old) (D.faults disk.new) result }
{
    let mut floor = 0;
    let mut ends = [0; 12];
    for class in 1..8 {
        let seen = find_class(alloc, disk, items, share, class, floor)?;
        floor = seen.floor;
        ends[class as usize] = seen.end;
    }
    Ok(Found { floor, ends })
}
