ghost use Rattle.std.specs.Prelude.{◌≡◌, ◌⊎◌, ℕ, ◌-◌, ◌<◌, ◌≤◌, ◌^◌, IsTrue, OnOk, OnErr, IfOk};
ghost use Rattle.std.specs.Prelude.{IfErr, slice_index};
ghost use Rattle.std.specs.FinMap as finite;
ghost use Rattle.kv_base.specs.Crash.{Only, LeavesOnly};
ghost use Rattle.kv_base.specs.Image.{Image};
ghost use Rattle.kv_disk.specs.Steps.{OnlyReads};
ghost use Rattle.kv_model.specs.Head.{head_page};
ghost use Rattle.kv_model.specs.Layout.{all_classes};
ghost use Rattle.kv_model.specs.Recovery.{OpensAs};
ghost use Rattle.kv_recover.specs.Causes.{HasReadCause, HasSlabCause, HasOpenCause, IsSpared};
ghost use Rattle.kv_recover.specs.Causes.{AreBounded, IsUntouched, HasStampsLeft, IsUsable};
ghost use Rattle.kv_recover.specs.Faults.{AreFaultsCounted};
ghost use Rattle.kv_recover.specs.Free.{HasFreedBelow, reading_of};
ghost use Rattle.kv_recover.specs.FreeLarge.{AnyMayBeFreed, FreesAnyBelow, EntriesStand};
ghost use Rattle.kv_recover.specs.Opened.{FindsAllBelow, KeepsSlabs, IsOpenedStore, HasFoundStore};
ghost use Rattle.kv_recover.specs.Opened.{KeepsStore, LeftOrKept};
ghost use Rattle.kv_recover.specs.Pass.{IsPast};
ghost use Rattle.kv_recover.specs.Placed.{HasCounts, ArePlaced, AreOwned, HasRooms};
ghost use Rattle.kv_free.specs.FreeList.{Tail};
ghost use Rattle.std.specs.Prelude.{◌+◌, Some, length, slice_get};

use crate::fault::OpenFault;
use crate::find::{Found, find_small};
use crate::free::free_small;
use crate::free_large::free_large;
use crate::head::prepare;
use crate::items::Items;
use crate::large::find_large_class;
use crate::share::Share;
use kv_base::ReservedList;
use kv_disk::Disk;
use kv_free::Stacks;
use kv_index::Index;
use std::alloc::Global;

/// The greatest stamp.
const LAST_STAMP: u64 = (1 << 62) - 1;

/// What is found on a disk beside the index, and the free lists.
#[derive(Drop)]
pub struct Parts {
    /// The greatest number at the head of a page of a slot.
    pub floor: u64,
    /// The end of each class, by its number.
    pub ends: [u32; 12],
    /// The free slots of each class, by its number.
    pub stacks: ReservedList<Stacks>,
}

/// Finds the items of all classes, into an index that is empty.
pub fn find_all<D: Disk, I: Index>(
    alloc: Global,
    disk: &mut D,
    items: &mut Items<I>,
    share: Share,
) -> Result<Found, OpenFault>
    requires share { (1 ≤ share.workers) × (share.workers ≤ 16) }
    requires none { I.entries items.old.index ≡ finite.empty }
    requires counted { HasCounts (I.entries items.old.index) items.old.counts }
    ensures reads { OnlyReads ⟦<D as Disk>⟧ disk.old disk.new }
    ensures found { IsTrue D.tells → IfOk result (λ found. FindsAllBelow (D.seen disk.old)
        share.worker share.workers 12 (I.entries items.new.index) found.floor found.ends) }
    ensures ends { IfOk result (λ found. (class : ℕ) → slice_index found.ends class ≤ 2 ^ 24) }
    ensures placed { IfOk result (λ found. ArePlaced (I.entries items.new.index) found.floor
        (λ class. slice_index found.ends class)) }
    ensures zero { IfOk result (λ found. slice_index found.ends 0 ≡ 0) }
    ensures counted { OnOk result (HasCounts (I.entries items.new.index) items.new.counts) }
    ensures owned { OnOk result (AreOwned (I.entries items.new.index) share.worker
        share.workers) }
    ensures cause { IfErr result (HasReadCause (IsTrue D.tells → (class : ℕ) × (1 ≤ class)
        × (class ≤ 11) × IsPast (D.seen disk.old) class)) }
    ensures faults { AreFaultsCounted (D.faults disk.old) (D.faults disk.new) result }
{
    let small = find_small(alloc, disk, items, share)?;
    let Found {
        mut floor,
        mut ends,
    } = small;
    for class in 8..12 {
        let seen = find_large_class(alloc, disk, items, share, class, floor)?;
        floor = seen.floor;
        ends[class as usize] = seen.end;
    }
    Ok(Found { floor, ends })
}

/// Frees every slot that is below its class's end and no entry's, makes that durable, and answers
/// the list of each class, by its number.
pub fn free_all<D: Disk, I: Index>(
    alloc: Global,
    disk: &mut D,
    items: &Items<I>,
    ends: &[u32; 12],
    floor: u64,
) -> Result<ReservedList<Stacks>, OpenFault>
    requires ends { (class : ℕ) → slice_index ends.now class ≤ 2 ^ 24 }
    requires placed { ArePlaced (I.entries items.now.index) floor (λ c. slice_index ends.now c) }
    requires counted { HasCounts (I.entries items.now.index) items.now.counts }
    ensures done { IfOk result (λ stacks. (first : Image)
        → HasFreedBelow ⟦<D as Disk>⟧ (I.entries items.now.index) first (λ c. slice_index ends.now c)
        floor 1 disk.old → (IsTrue D.tells → EntriesStand (I.entries items.now.index) (reading_of first))
        → FreesAnyBelow ⟦<D as Disk>⟧ (I.entries items.now.index) first (λ c. slice_index ends.now c)
        floor 12 disk.new stacks.items) }
    ensures durable { OnOk result (Only (D.seen disk.new) (D.leaves disk.new (D.calls disk.new))) }
    ensures any_moment { (first : Image)
        → HasFreedBelow ⟦<D as Disk>⟧ (I.entries items.now.index) first (λ c. slice_index ends.now c)
        floor 1 disk.old → (IsTrue D.tells → EntriesStand (I.entries items.now.index) (reading_of first))
        → LeavesOnly (D.calls disk.old) (D.calls disk.new) (D.leaves disk.old) (D.leaves disk.new)
        (AnyMayBeFreed (I.entries items.now.index) first (λ c. slice_index ends.now c) floor 12 0) }
    ensures range { floor < 2 ^ 64 }
    ensures count { IfOk result (λ stacks. length stacks.items ≡ 12) }
    ensures cause { IfErr result (HasReadCause ⊥) }
    ensures counted { AreFaultsCounted (D.faults disk.old) (D.faults disk.new) result }
{
    let mut stacks = ReservedList::with_room(alloc, 12)?;
    stacks.append(Stacks::new()).unwrap();
    let Items { index, counts } = items;
    free_small(disk, index, ends, counts, floor, &mut stacks)?;
    free_large(disk, index, ends, counts, floor, &mut stacks)?;
    disk.sync()?;
    Ok(stacks)
}

/// Whether the end is the number of the class's entries and free slots together.
fn is_full(stack: &Stacks, end: u32, count: u32) -> bool
    ensures { IsTrue result → end ≡ count + stack.now.count }
{
    u64::from(count) + u64::from(stack.count()) == u64::from(end)
}

/// Whether each end is the number of its class's entries and free slots together. On a disk that
/// tells what it reads it always is; another may have given other bytes when it was read again.
fn are_full(stacks: &[Stacks], ends: &[u32; 12], counts: &[u32; 12]) -> bool
    requires { length stacks.now ≤ 12 }
    ensures { IsTrue result → (class : ℕ) (stack : Tail) → slice_get stacks.now class ≡ Some stack
        → slice_index ends.now class ≡ slice_index counts.now class + stack.count }
{
    for class in 0..stacks.len() {
        if !is_full(&stacks[class], ends[class], counts[class]) {
            return false;
        }
    }
    true
}

/// Opens the slabs of a disk that has the head of this worker and nothing pending: finds what is
/// kept, frees every other slot, and makes that durable.
pub fn open_slabs<D: Disk, I: Index>(
    alloc: Global,
    disk: &mut D,
    items: &mut Items<I>,
    share: Share,
) -> Result<Parts, OpenFault>
    requires share { (1 ≤ share.workers) × (share.workers ≤ 16) }
    requires none { I.entries items.old.index ≡ finite.empty }
    requires counted { HasCounts (I.entries items.old.index) items.old.counts }
    requires settled { Only (D.seen disk.old) (D.leaves disk.old (D.calls disk.old)) }
    requires headed { IsTrue D.tells → D.seen disk.old 0 0 ≡ head_page share.worker share.workers }
    ensures opened { IsTrue D.tells → IfOk result (λ opened. IsOpenedStore (D.seen disk.new)
        share.worker share.workers (I.entries items.new.index) opened.floor opened.ends
        opened.stacks.items) }
    ensures found { IsTrue D.tells → IfOk result (λ opened. HasFoundStore (D.seen disk.old)
        share.worker share.workers (I.entries items.new.index) opened.floor) }
    ensures same { IsTrue D.tells → OnOk result (KeepsSlabs (D.seen disk.old) share.worker
        share.workers (D.seen disk.new)) }
    ensures durable { OnOk result (Only (D.seen disk.new) (D.leaves disk.new (D.calls disk.new))) }
    ensures rooms { IfOk result (λ opened. HasRooms (I.entries items.new.index) opened.floor
        opened.ends opened.stacks.items) }
    ensures owned { OnOk result (AreOwned (I.entries items.new.index) share.worker
        share.workers) }

    // crashes and refusals
    ensures any_moment { LeavesOnly (D.calls disk.old) (D.calls disk.new) (D.leaves disk.old)
        (D.leaves disk.new) (KeepsSlabs (D.seen disk.old) share.worker share.workers) }
    ensures cause { IfErr result (HasSlabCause (IsTrue D.tells) (D.seen disk.old)) }
    ensures faults { AreFaultsCounted (D.faults disk.old) (D.faults disk.new) result }
    ensures spared { IfErr result (λ fault. IsSpared fault
        → OnlyReads ⟦<D as Disk>⟧ disk.old disk.new) }
    ensures written { OnErr result (OnlyReads ⟦<D as Disk>⟧ disk.old disk.new
        ⊎ (IsTrue D.tells → AreBounded (D.seen disk.old) × HasStampsLeft (D.seen disk.old))) }
{
    let found = find_all(alloc, disk, items, share)?;
    let Found { floor, ends } = found;
    if floor >= LAST_STAMP {
        return Err(OpenFault::StampsSpent { stamp: floor });
    }
    let stacks = free_all(alloc, disk, items, &ends, floor)?;
    if !are_full(stacks.as_slice(), &ends, &items.counts) {
        return Err(OpenFault::NoMemory);
    }
    Ok(Parts {
        floor,
        ends,
        stacks,
    })
}

/// Opens the parts of the store of this worker: makes durable what is there, makes a new disk a
/// store, finds what is kept, frees every other slot, and makes that durable.
pub fn open_parts<D: Disk, I: Index>(
    alloc: Global,
    disk: &mut D,
    items: &mut Items<I>,
    share: Share,
) -> Result<Parts, OpenFault>
    requires below { share.worker < share.workers }
    requires limit { share.workers ≤ 16 }
    requires none { I.entries items.old.index ≡ finite.empty }
    requires counted { HasCounts (I.entries items.old.index) items.old.counts }
    ensures opened { IsTrue D.tells → IfOk result (λ opened. IsOpenedStore (D.seen disk.new)
        share.worker share.workers (I.entries items.new.index) opened.floor opened.ends
        opened.stacks.items) }
    ensures opens { IsTrue D.tells → OnOk result (OpensAs all_classes (D.seen disk.old)
        share.worker share.workers) }
    ensures found { IsTrue D.tells → IfOk result (λ opened. HasFoundStore (D.seen disk.old)
        share.worker share.workers (I.entries items.new.index) opened.floor) }
    ensures same { IsTrue D.tells → OnOk result (KeepsStore (D.seen disk.old) share.worker
        share.workers (D.seen disk.new)) }
    ensures durable { OnOk result (Only (D.seen disk.new) (D.leaves disk.new (D.calls disk.new))) }
    ensures rooms { IfOk result (λ opened. HasRooms (I.entries items.new.index) opened.floor
        opened.ends opened.stacks.items) }
    ensures owned { OnOk result (AreOwned (I.entries items.new.index) share.worker
        share.workers) }

    // crashes and refusals
    ensures any_moment { LeavesOnly (D.calls disk.old) (D.calls disk.new) (D.leaves disk.old)
        (D.leaves disk.new) (LeftOrKept ⟦<D as Disk>⟧ disk.old share.worker share.workers) }
    ensures cause { IfErr result (HasOpenCause (IsTrue D.tells) (D.seen disk.old) share.worker
        share.workers) }
    ensures faults { AreFaultsCounted (D.faults disk.old) (D.faults disk.new) result }
    ensures spared { IfErr result (λ fault. IsSpared fault
        → IsUntouched ⟦<D as Disk>⟧ disk.old disk.new) }
    ensures written { OnErr result (IsUntouched ⟦<D as Disk>⟧ disk.old disk.new
        ⊎ (IsTrue D.tells → IsUsable (D.seen disk.old) share.worker share.workers)) }
{
    prepare(disk, share)?;
    let parts = open_slabs(alloc, disk, items, share)?;
    Ok(parts)
}
