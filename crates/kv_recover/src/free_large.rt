ghost use Rattle.std.specs.Prelude.{◌≡◌, ℕ, ◌+◌, ◌-◌, ◌^◌, ◌<◌, ◌≤◌, IsTrue, OnOk, IfOk, List, [], ◌∷◌};
ghost use Rattle.std.specs.Prelude.{◌++◌, IfSome, slice_index, length};
ghost use Rattle.kv_base.specs.Crash.{LeavesOnly};
ghost use Rattle.kv_base.specs.Fault.{Counted};
ghost use Rattle.kv_base.specs.Image.{Image};
ghost use Rattle.kv_free.specs.FreeList.{StandsFor, link_of};
ghost use Rattle.kv_model.specs.SlotBytes.{tombstone_bytes};
ghost use Rattle.kv_recover.specs.Free.{AreTaken, AreFullTaken};
ghost use Rattle.kv_recover.specs.FreeLarge.{AnyMayBeFreed, HasFreedAny, FreesAnyBelow};

use crate::free::is_entry;
use crate::read::read_page;
use kv_base::{Failed, Place, ReservedList};
use kv_disk::Disk;
use kv_free::Stacks;
use kv_index::Index;
use kv_lanes::same;
use kv_slot::{put_tombstone, read_first, spot};

/// The first page of a large slot that is freed: a tombstone.
fn freed_page(class: u8, slot: u32, floor: u64, stack: &mut Stacks) -> [u8; 4096]
    requires class { (8 ≤ class) × (class ≤ 11) }
    requires slot { slot < 2 ^ 24 }
    requires few { stack.old.count < 2 ^ 24 }
    ensures freed { (list : List ℕ) → StandsFor stack.old list
        → (result ≡ tombstone_bytes class floor (link_of list))
        × IfSome (link_of list) (λ other. other < 2 ^ 24)
        × StandsFor stack.new (list ++ slot ∷ []) }
    ensures count { stack.new.count ≡ stack.old.count + 1 }
{
    let link = stack.give(slot);
    let mut page = [0; 4096];
    put_tombstone(&mut page, class, 0, floor, link);
    page
}

/// Frees a slot of the classes 8 to 11, unless it is an entry's: of its pages the first alone is read
/// and written. An entry whose key the first page has, and whose place this is, has its item here.
fn free_large_at<D: Disk, I: Index>(
    disk: &mut D,
    index: &I,
    place: Place,
    floor: u64,
    stack: &mut Stacks,
) -> Result<(), Failed>
    requires class { (8 ≤ place.class) × (place.class ≤ 11) }
    requires slot { place.slot < 2 ^ 24 }
    requires few { stack.old.count ≤ place.slot }
    ensures done { OnOk result ((first : Image) (ends : ℕ → ℕ) → place.slot < ends place.class
        → HasFreedAny ⟦<D as Disk>⟧ (I.entries index.now) first ends floor place.class place.slot
        disk.old stack.old
        → HasFreedAny ⟦<D as Disk>⟧ (I.entries index.now) first ends floor place.class
        (place.slot + 1) disk.new stack.new) }
    ensures any_moment { (first : Image) (ends : ℕ → ℕ) → place.slot < ends place.class
        → HasFreedAny ⟦<D as Disk>⟧ (I.entries index.now) first ends floor place.class place.slot
        disk.old stack.old
        → LeavesOnly (D.calls disk.old) (D.calls disk.new) (D.leaves disk.old) (D.leaves disk.new)
        (AnyMayBeFreed (I.entries index.now) first ends floor place.class (place.slot + 1)) }
    ensures counted { Counted (D.faults disk.old) (D.faults disk.new) result }
    ensures count { stack.new.count ≤ place.slot + 1 }
{
    let (first, _) = spot(place);
    let mut page = [0; 4096];
    read_page(disk, place.class, first, &mut page)?;
    if is_entry(index, read_first(&page, place.class), place) {
        return Ok(());
    }
    let freed = freed_page(place.class, place.slot, floor, stack);
    if same(&page, &freed) {
        return Ok(());
    }
    disk.write(place.class, first, &freed)
}

/// Frees the slots of this class, 8 to 11, that are below the end and no entry's, in order. A class with
/// as many entries as slots isn't read again.
fn free_large_class<D: Disk, I: Index>(
    disk: &mut D,
    index: &I,
    class: u8,
    end: u32,
    count: u32,
    floor: u64,
    stack: &mut Stacks,
) -> Result<(), Failed>
    requires class { (8 ≤ class) × (class ≤ 11) }
    requires end { end ≤ 2 ^ 24 }
    requires none { stack.old.count ≡ 0 }
    ensures done { OnOk result ((first : Image) (ends : ℕ → ℕ) → ends class ≡ end
        → (IsTrue D.tells → count ≡ end → AreTaken (I.entries index.now) first ends class)
        → HasFreedAny ⟦<D as Disk>⟧ (I.entries index.now) first ends floor class 0 disk.old
        stack.old
        → HasFreedAny ⟦<D as Disk>⟧ (I.entries index.now) first ends floor class end disk.new
        stack.new) }
    ensures any_moment { (first : Image) (ends : ℕ → ℕ) → ends class ≡ end
        → HasFreedAny ⟦<D as Disk>⟧ (I.entries index.now) first ends floor class 0 disk.old
        stack.old
        → LeavesOnly (D.calls disk.old) (D.calls disk.new) (D.leaves disk.old) (D.leaves disk.new)
        (AnyMayBeFreed (I.entries index.now) first ends floor class end) }
    ensures counted { Counted (D.faults disk.old) (D.faults disk.new) result }
{
    if count == end {
        return Ok(());
    }
    for slot in 0..end {
        free_large_at(disk, index, Place { class, slot }, floor, stack)?;
    }
    Ok(())
}

/// Frees a whole class, 8 to 11, and appends its list.
fn free_large_next<D: Disk, I: Index>(
    disk: &mut D,
    index: &I,
    class: u8,
    end: u32,
    count: u32,
    floor: u64,
    stacks: &mut ReservedList<Stacks>,
) -> Result<(), Failed>
    requires class { (8 ≤ class) × (class ≤ 11) }
    requires end { end ≤ 2 ^ 24 }
    requires room { 0 < stacks.old.spare }
    ensures done { OnOk result ((first : Image) (ends : ℕ → ℕ) → ends class ≡ end
        → (IsTrue D.tells → count ≡ end → AreTaken (I.entries index.now) first ends class)
        → FreesAnyBelow ⟦<D as Disk>⟧ (I.entries index.now) first ends floor class disk.old
        stacks.old.items
        → FreesAnyBelow ⟦<D as Disk>⟧ (I.entries index.now) first ends floor (class + 1) disk.new
        stacks.new.items) }
    ensures any_moment { (first : Image) (ends : ℕ → ℕ) → ends class ≡ end
        → FreesAnyBelow ⟦<D as Disk>⟧ (I.entries index.now) first ends floor class disk.old
        stacks.old.items
        → LeavesOnly (D.calls disk.old) (D.calls disk.new) (D.leaves disk.old) (D.leaves disk.new)
        (AnyMayBeFreed (I.entries index.now) first ends floor (class + 1) 0) }
    ensures counted { Counted (D.faults disk.old) (D.faults disk.new) result }
    ensures spare { OnOk result (stacks.new.spare + 1 ≡ stacks.old.spare) }
    ensures count { OnOk result (length stacks.new.items ≡ length stacks.old.items + 1) }
{
    let mut stack = Stacks::new();
    free_large_class(disk, index, class, end, count, floor, &mut stack)?;
    stacks.append(stack).unwrap();
    Ok(())
}

/// Frees the slots of the classes 8 to 11 that are below their ends and no entry's, and appends the
/// list of each class.
pub fn free_large<D: Disk, I: Index>(
    disk: &mut D,
    index: &I,
    ends: &[u32; 12],
    counts: &[u32; 12],
    floor: u64,
    stacks: &mut ReservedList<Stacks>,
) -> Result<(), Failed>
    requires ends { (class : ℕ) → slice_index ends.now class ≤ 2 ^ 24 }
    requires room { 4 ≤ stacks.old.spare }
    requires eight { length stacks.old.items ≡ 8 }
    ensures done { OnOk result ((first : Image)
        → (IsTrue D.tells → AreFullTaken (I.entries index.now) first (λ c. slice_index ends.now c)
        counts.now)
        → FreesAnyBelow ⟦<D as Disk>⟧ (I.entries index.now) first (λ c. slice_index ends.now c)
        floor 8 disk.old stacks.old.items
        → FreesAnyBelow ⟦<D as Disk>⟧ (I.entries index.now) first (λ c. slice_index ends.now c)
        floor 12 disk.new stacks.new.items) }
    ensures any_moment { (first : Image)
        → (IsTrue D.tells → AreFullTaken (I.entries index.now) first (λ c. slice_index ends.now c)
        counts.now)
        → FreesAnyBelow ⟦<D as Disk>⟧ (I.entries index.now) first (λ c. slice_index ends.now c)
        floor 8 disk.old stacks.old.items
        → LeavesOnly (D.calls disk.old) (D.calls disk.new) (D.leaves disk.old) (D.leaves disk.new)
        (AnyMayBeFreed (I.entries index.now) first (λ c. slice_index ends.now c) floor 12 0) }
    ensures count { OnOk result (length stacks.new.items ≡ 12) }
    ensures counted { Counted (D.faults disk.old) (D.faults disk.new) result }
{
    for class in 8..12 {
        let at = class as usize;
        free_large_next(disk, index, class, ends[at], counts[at], floor, stacks)?;
    }
    Ok(())
}
