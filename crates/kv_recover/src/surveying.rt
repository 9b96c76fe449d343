ghost use Rattle.std.specs.Prelude.{◌≡◌, ℕ, ◌+◌, ◌-◌, ◌*◌, ◌^◌, ◌<◌, ◌≤◌, ◌++◌, ◌∷◌, [], IsTrue, OnOk};
ghost use Rattle.std.specs.Prelude.{IfOk, IfErr, Some, slice_get, slice_index, length};
ghost use Rattle.std.specs.List.{sum_by};
ghost use Rattle.kv_base.specs.Fault.{Counted};
ghost use Rattle.kv_disk.specs.Steps.{OnlyReads};
ghost use Rattle.kv_model.specs.Layout.{all_classes, slot_size};
ghost use Rattle.kv_model.specs.Reading.{slot_at, page_of, offset_of};
ghost use Rattle.kv_model.specs.Recovery.{OpensAs};
ghost use Rattle.kv_recover.specs.declared.kind.ClassCount.{ClassCount};
ghost use Rattle.kv_recover.specs.Causes.{HasReadCause, HasMakeCause};
ghost use Rattle.kv_recover.specs.Faults.{AreFaultsCounted};
ghost use Rattle.kv_recover.specs.Kinds.{kind_at, sum_of, HasTally, IsSurvey};

use crate::fault::OpenFault;
use crate::items::Items;
use crate::kind::{ClassCount, Classes, Kind, Survey, counted, front_kind, kind_of};
use crate::large::{pages_in_slot, read_later};
use crate::read::read_page;
use crate::reading::read_all;
use crate::share::Share;
use kv_base::{Failed, NoMemory, Place, ReservedList};
use kv_disk::Disk;
use kv_index::Index;
use kv_slot::{page_stamp, read_first, read_slot, spot};
use kv_tree::TreeIndex;
use std::alloc::Global;

/// What stands on the disk of this worker of so many, 1 to 16. It only reads, and refuses what
/// opening refuses before it writes, but for spent stamps. A slot with bytes that no store writes is
/// counted, and is no fault.
pub fn survey<D: Disk>(
    alloc: Global,
    disk: &mut D,
    worker: u32,
    workers: u32,
) -> Result<Survey, OpenFault>
    requires below { worker < workers }
    requires limit { workers ≤ 16 }
    ensures survey { IsTrue D.tells → IfOk result (λ survey. IsSurvey (D.seen disk.old) worker workers
        survey.fresh survey.floor survey.classes.items) }
    ensures classes { IfOk result (λ survey. length survey.classes.items ≡ 11) }
    ensures sums { IfOk result (λ survey. (class : ℕ) (count : ClassCount)
        → slice_get survey.classes.items class ≡ Some count → sum_of count ≡ count.end) }
    ensures keys { IfOk result (λ survey. survey.keys
        ≡ sum_by (λ count. count.kept) survey.classes.items) }
    ensures opens { IsTrue D.tells → OnOk result (OpensAs all_classes (D.seen disk.old) worker
        workers) }
    ensures reads { OnlyReads ⟦<D as Disk>⟧ disk.old disk.new }
    ensures cause { IfErr result (HasMakeCause (IsTrue D.tells) (D.seen disk.old) worker workers) }
    ensures counted { AreFaultsCounted (D.faults disk.old) (D.faults disk.new) result }
{
    let share = Share { worker, workers };
    let mut items = Items::new(TreeIndex::new(alloc));
    let (fresh, found) = read_all(alloc, disk, &mut items, share)?;
    let counts = count_all(alloc, disk, &items.index, share, &found.ends)?;
    let Counts { classes, keys } = counts;
    Ok(Survey {
        fresh,
        floor: found.floor,
        keys,
        classes,
    })
}

/// The page of a slot of the classes 1 to 7, which is read where the slot is its first one, and is
/// that of the slot before it else. Answers the slot's offset.
fn turn_page<D: Disk>(disk: &mut D, place: Place, page: &mut [u8; 4096]) -> Result<u32, Failed>
    requires class { (1 ≤ place.class) × (place.class ≤ 7) }
    requires slot { place.slot < 2 ^ 24 }
    ensures page { IsTrue D.tells → (0 < place.slot
        → page.old ≡ D.seen disk.old place.class (page_of place.class (place.slot - 1)))
        → OnOk result (page.new ≡ D.seen disk.old place.class (page_of place.class place.slot)) }
    ensures offset { IfOk result (λ offset. offset ≡ offset_of place.class place.slot) }
    ensures within { IfOk result (λ offset. offset + slot_size place.class ≤ 4096) }
    ensures reads { OnlyReads ⟦<D as Disk>⟧ disk.old disk.new }
    ensures counted { Counted (D.faults disk.old) (D.faults disk.new) result }
{
    let (number, offset) = spot(place);
    if offset == 0 {
        read_page(disk, place.class, number, page)?;
    }
    Ok(offset)
}

/// The kind of a slot of the classes 1 to 7.
fn small_kind<D: Disk, I: Index>(
    disk: &mut D,
    index: &I,
    share: Share,
    place: Place,
    page: &mut [u8; 4096],
) -> Result<Kind, Failed>
    requires class { (1 ≤ place.class) × (place.class ≤ 7) }
    requires slot { place.slot < 2 ^ 24 }
    requires share { (1 ≤ share.workers) × (share.workers ≤ 16) }
    ensures page { IsTrue D.tells → (0 < place.slot
        → page.old ≡ D.seen disk.old place.class (page_of place.class (place.slot - 1)))
        → OnOk result (page.new ≡ D.seen disk.old place.class (page_of place.class place.slot)) }
    ensures kind { IsTrue D.tells → (0 < place.slot
        → page.old ≡ D.seen disk.old place.class (page_of place.class (place.slot - 1)))
        → IfOk result (λ kind. kind ≡ kind_at (I.entries index.now) share.worker share.workers
        place.class place.slot (slot_at all_classes (D.seen disk.old) place.class place.slot)) }
    ensures reads { OnlyReads ⟦<D as Disk>⟧ disk.old disk.new }
    ensures counted { Counted (D.faults disk.old) (D.faults disk.new) result }
{
    let offset = turn_page(disk, place, page)?;
    Ok(kind_of(index, share, read_slot(page, place.class, offset), place))
}

/// The kind of a slot of the classes 8 to 11.
fn large_kind<D: Disk, I: Index>(
    disk: &mut D,
    index: &I,
    share: Share,
    place: Place,
) -> Result<Kind, Failed>
    requires class { (8 ≤ place.class) × (place.class ≤ 11) }
    requires slot { place.slot < 2 ^ 24 }
    requires share { (1 ≤ share.workers) × (share.workers ≤ 16) }
    ensures kind { IsTrue D.tells → IfOk result (λ kind. kind ≡ kind_at (I.entries index.now)
        share.worker share.workers place.class place.slot
        (slot_at all_classes (D.seen disk.old) place.class place.slot)) }
    ensures reads { OnlyReads ⟦<D as Disk>⟧ disk.old disk.new }
    ensures counted { Counted (D.faults disk.old) (D.faults disk.new) result }
{
    let (first, _) = spot(place);
    let count = pages_in_slot(place.class);
    let mut page = [0; 4096];
    read_page(disk, place.class, first, &mut page)?;
    let later = read_later(
        disk,
        place.class,
        first + 1,
        count - 1,
        page_stamp(&page),
        0,
    )?;
    let slot = read_first(&page, place.class);
    Ok(front_kind(index, share, slot, later.whole, place))
}

/// The kind of a slot. Of the classes 1 to 7 the page is that of the slot before it.
fn kind_here<D: Disk, I: Index>(
    disk: &mut D,
    index: &I,
    share: Share,
    place: Place,
    page: &mut [u8; 4096],
) -> Result<Kind, Failed>
    requires class { (1 ≤ place.class) × (place.class ≤ 11) }
    requires slot { place.slot < 2 ^ 24 }
    requires share { (1 ≤ share.workers) × (share.workers ≤ 16) }
    ensures page { IsTrue D.tells → place.class ≤ 7 → (0 < place.slot
        → page.old ≡ D.seen disk.old place.class (page_of place.class (place.slot - 1)))
        → OnOk result (page.new ≡ D.seen disk.old place.class (page_of place.class place.slot)) }
    ensures kind { IsTrue D.tells → (place.class ≤ 7 → 0 < place.slot
        → page.old ≡ D.seen disk.old place.class (page_of place.class (place.slot - 1)))
        → IfOk result (λ kind. kind ≡ kind_at (I.entries index.now) share.worker share.workers
        place.class place.slot (slot_at all_classes (D.seen disk.old) place.class place.slot)) }
    ensures reads { OnlyReads ⟦<D as Disk>⟧ disk.old disk.new }
    ensures counted { Counted (D.faults disk.old) (D.faults disk.new) result }
{
    if place.class <= 7 {
        small_kind(disk, index, share, place, page)
    } else {
        large_kind(disk, index, share, place)
    }
}

/// Counts the slots of a class below its end.
fn count_class<D: Disk, I: Index>(
    disk: &mut D,
    index: &I,
    share: Share,
    class: u8,
    end: u32,
) -> Result<ClassCount, Failed>
    requires class { (1 ≤ class) × (class ≤ 11) }
    requires end { end ≤ 2 ^ 24 }
    requires share { (1 ≤ share.workers) × (share.workers ≤ 16) }
    ensures tally { IsTrue D.tells → IfOk result (λ count. HasTally
        (λ slot. kind_at (I.entries index.now) share.worker share.workers class slot
        (slot_at all_classes (D.seen disk.old) class slot)) end count) }
    ensures end { IfOk result (λ count. count.end ≡ end) }
    ensures sum { IfOk result (λ count. sum_of count ≡ end) }
    ensures reads { OnlyReads ⟦<D as Disk>⟧ disk.old disk.new }
    ensures counted { Counted (D.faults disk.old) (D.faults disk.new) result }
{
    let mut page = [0; 4096];
    let mut count = ClassCount {
        end,
        kept: 0,
        stale: 0,
        foreign: 0,
        tomb: 0,
        never: 0,
        torn: 0,
        bad: 0,
    };
    for slot in 0..end {
        let kind = kind_here(disk, index, share, Place { class, slot }, &mut page)?;
        count = counted(count, kind);
    }
    Ok(count)
}

/// The counts of all classes, and how many items are kept in them.
#[derive(Drop)]
struct Counts {
    classes: Classes,
    keys: u32,
}

/// Appends the counts of a class.
fn push(classes: &mut Classes, count: ClassCount) -> Result<(), NoMemory>
    ensures { OnOk result (classes.new.items ≡ classes.old.items ++ count ∷ []) }
{
    match classes.append(count) {
        Ok(()) => Ok(()),
        Err((_, no_memory)) => Err(no_memory),
    }
}

/// Counts the slots of all classes below their ends.
fn count_all<D: Disk, I: Index>(
    alloc: Global,
    disk: &mut D,
    index: &I,
    share: Share,
    ends: &[u32; 12],
) -> Result<Counts, OpenFault>
    requires ends { (class : ℕ) → slice_index ends.now class ≤ 2 ^ 24 }
    requires share { (1 ≤ share.workers) × (share.workers ≤ 16) }
    ensures tally { IsTrue D.tells → IfOk result (λ counts. (class : ℕ) (count : ClassCount)
        → 1 ≤ class → slice_get counts.classes.items (class - 1) ≡ Some count → HasTally
        (λ slot. kind_at (I.entries index.now) share.worker share.workers class slot
        (slot_at all_classes (D.seen disk.old) class slot)) (slice_index ends.now class) count) }
    ensures ends { IfOk result (λ counts. (class : ℕ) (count : ClassCount) → 1 ≤ class
        → slice_get counts.classes.items (class - 1) ≡ Some count
        → (count.end ≡ slice_index ends.now class) × (sum_of count ≡ count.end)) }
    ensures count { IfOk result (λ counts. length counts.classes.items ≡ 11) }
    ensures keys { IfOk result (λ counts. counts.keys
        ≡ sum_by (λ count. count.kept) counts.classes.items) }
    ensures reads { OnlyReads ⟦<D as Disk>⟧ disk.old disk.new }
    ensures cause { IfErr result (HasReadCause ⊥) }
    ensures counted { AreFaultsCounted (D.faults disk.old) (D.faults disk.new) result }
{
    let mut classes = ReservedList::with_room(alloc, 11)?;
    let mut keys = 0;
    for class in 1..12 {
        let count = count_class(disk, index, share, class, ends[class as usize])?;
        push(&mut classes, count)?;
        keys += count.kept;
    }
    Ok(Counts { classes, keys })
}
