ghost use Rattle.std.specs.Prelude.{◌≡◌, ℕ, ◌+◌, ◌*◌, ◌-◌, ◌^◌, ◌<◌, ◌≤◌, List, [], ◌∷◌, ◌++◌, true};
ghost use Rattle.std.specs.Prelude.{false, length, min, IfSome, OnOk, IfOk, IsTrue, slice_index};
ghost use Rattle.kv_base.specs.Fault.{Counted};
ghost use Rattle.kv_base.specs.Image.{Image};
ghost use Rattle.kv_base.specs.Crash.{LeavesOnly};
ghost use Rattle.kv_free.specs.FreeList.{Tail, StandsFor, link_of};
ghost use Rattle.std.specs.Prelude.{Some, slice_get};
ghost use Rattle.kv_model.specs.Layout.{all_classes, slots_in_page};
ghost use Rattle.kv_model.specs.Reading.{Reading, page_of, offset_of};
ghost use Rattle.kv_model.specs.SlotBytes.{tombstone_bytes};
ghost use Rattle.kv_model.specs.Slots.{read_small};
ghost use Rattle.kv_slot.specs.Overwrite.{overwritten};
ghost use Rattle.kv_slot.specs.Views.{what_stands};
ghost use Rattle.kv_recover.specs.Free.{is_entry, free_slots, IsFreedSlot, FreesPage};
ghost use Rattle.kv_recover.specs.Free.{MayBeFreed, HasFreed, HasFreedBelow};
ghost use Rattle.kv_recover.specs.Free.{reading_of, FreesBelow, AreTaken, AreFullTaken};
ghost use Rattle.kv_recover.specs.Pass.{bytes_in};

use crate::read::read_page;
use crate::see::slots_in_page;
use kv_base::{Failed, Place, ReservedList};
use kv_disk::Disk;
use kv_free::Stacks;
use kv_index::Index;
use kv_lanes::same;
use kv_slot::{Slot, put_tombstone, read_slot, spot};

/// Whether the slot, in which this stands, is that of its key's entry.
pub fn is_entry<I: Index>(index: &I, slot: Slot<'_>, place: Place) -> bool
    ensures { result ≡ is_entry (I.entries index.now) place.class place.slot
        (what_stands slot.entry) }
{
    match slot {
        Slot::Item { key, .. } => match index.find(key) {
            Some(entry) => entry.place.class == place.class && entry.place.slot == place.slot,
            None => false,
        },
        _ => false,
    }
}

/// Frees the slot at the place in its page, unless it is an entry's.
fn free_at<I: Index>(index: &I, page: &mut [u8; 4096], place: Place, floor: u64, stack: &mut Stacks)
    requires class { (1 ≤ place.class) × (place.class ≤ 7) }
    requires slot { place.slot < 2 ^ 24 }
    requires few { stack.old.count < 2 ^ 24 }
    ensures kept { is_entry (I.entries index.now) place.class place.slot (read_small all_classes
        place.class (bytes_in page.old place.class place.slot)) ≡ true
        → (page.new ≡ page.old) × (stack.new ≡ stack.old) }
    ensures freed { is_entry (I.entries index.now) place.class place.slot (read_small all_classes
        place.class (bytes_in page.old place.class place.slot)) ≡ false
        → (list : List ℕ) → StandsFor stack.old list
        → (page.new ≡ overwritten page.old (offset_of place.class place.slot)
        (tombstone_bytes place.class floor (link_of list)))
        × IfSome (link_of list) (λ other. other < 2 ^ 24)
        × StandsFor stack.new (list ++ place.slot ∷ []) }
    ensures size { length page.new ≡ 4096 }
    ensures count { stack.new.count ≤ stack.old.count + 1 }
{
    let (_, offset) = spot(place);
    if !is_entry(index, read_slot(page, place.class, offset), place) {
        let link = stack.give(place.slot);
        put_tombstone(page, place.class, offset, floor, link);
    }
}

/// Frees the slots of the page that are below the end and no entry's.
fn free_in_page<I: Index>(
    index: &I,
    page: &mut [u8; 4096],
    class: u8,
    number: u32,
    end: u32,
    floor: u64,
    stack: &mut Stacks,
)
    requires class { (1 ≤ class) × (class ≤ 7) }
    requires end { end ≤ 2 ^ 24 }
    requires number { number * slots_in_page class < end }
    requires few { stack.old.count ≤ number * slots_in_page class }
    ensures freed { (reading : Reading)
        → ((s : ℕ) → page_of class s ≡ number
        → reading class s ≡ read_small all_classes class (bytes_in page.old class s))
        → StandsFor stack.old (free_slots (I.entries index.now) reading class
        (number * slots_in_page class))
        → FreesPage (I.entries index.now) reading end class floor number
        (min ((number + 1) * slots_in_page class) end) page.old page.new
        × StandsFor stack.new (free_slots (I.entries index.now) reading class
        (min ((number + 1) * slots_in_page class) end)) }
    ensures count { stack.new.count ≤ min ((number + 1) * slots_in_page class) end }
{
    let count = slots_in_page(class);
    let first = number * count;
    let last = end.min(first + count);
    for slot in first..last {
        free_at(index, page, Place { class, slot }, floor, stack);
    }
}

/// Writes a page of this class, 1 to 7, with its free slots freed, unless they have their
/// tombstones.
fn free_page<D: Disk, I: Index>(
    disk: &mut D,
    index: &I,
    class: u8,
    number: u32,
    end: u32,
    floor: u64,
    stack: &mut Stacks,
) -> Result<(), Failed>
    requires class { (1 ≤ class) × (class ≤ 7) }
    requires end { end ≤ 2 ^ 24 }
    requires number { number * slots_in_page class < end }
    requires few { stack.old.count ≤ number * slots_in_page class }
    ensures done { OnOk result ((first : Image) (ends : ℕ → ℕ) → ends class ≡ end
        → HasFreed ⟦<D as Disk>⟧ (I.entries index.now) first ends floor class
        (number * slots_in_page class) disk.old stack.old
        → HasFreed ⟦<D as Disk>⟧ (I.entries index.now) first ends floor class
        (min ((number + 1) * slots_in_page class) end) disk.new stack.new) }
    ensures any_moment { (first : Image) (ends : ℕ → ℕ) → ends class ≡ end
        → HasFreed ⟦<D as Disk>⟧ (I.entries index.now) first ends floor class
        (number * slots_in_page class) disk.old stack.old
        → LeavesOnly (D.calls disk.old) (D.calls disk.new) (D.leaves disk.old) (D.leaves disk.new)
        (MayBeFreed (I.entries index.now) first ends floor class
        (min ((number + 1) * slots_in_page class) end)) }
    ensures counted { Counted (D.faults disk.old) (D.faults disk.new) result }
    ensures count { stack.new.count ≤ min ((number + 1) * slots_in_page class) end }
{
    let mut page = [0; 4096];
    read_page(disk, class, number, &mut page)?;
    let before = page;
    free_in_page(index, &mut page, class, number, end, floor, stack);
    if same(&before, &page) {
        return Ok(());
    }
    disk.write(class, number, &page)
}

/// The pages of this class, 1 to 7, that have a slot below the end.
fn pages_below(class: u8, end: u32) -> u32
    requires class { (1 ≤ class) × (class ≤ 7) }
    ensures within { (number : ℕ) → number < result → number * slots_in_page class < end }
    ensures all { end ≤ result * slots_in_page class }
{
    let count = slots_in_page(class);
    if end == 0 { 0 } else { (end - 1) / count + 1 }
}

/// Frees the slots of this class, 1 to 7, that are below the end and no entry's, in order. A class with
/// as many entries as slots isn't read again.
fn free_class<D: Disk, I: Index>(
    disk: &mut D,
    index: &I,
    class: u8,
    end: u32,
    count: u32,
    floor: u64,
    stack: &mut Stacks,
) -> Result<(), Failed>
    requires class { (1 ≤ class) × (class ≤ 7) }
    requires end { end ≤ 2 ^ 24 }
    requires none { stack.old.count ≡ 0 }
    ensures done { OnOk result ((first : Image) (ends : ℕ → ℕ) → ends class ≡ end
        → (IsTrue D.tells → count ≡ end → AreTaken (I.entries index.now) first ends class)
        → HasFreed ⟦<D as Disk>⟧ (I.entries index.now) first ends floor class 0 disk.old stack.old
        → HasFreed ⟦<D as Disk>⟧ (I.entries index.now) first ends floor class end disk.new
        stack.new) }
    ensures any_moment { (first : Image) (ends : ℕ → ℕ) → ends class ≡ end
        → HasFreed ⟦<D as Disk>⟧ (I.entries index.now) first ends floor class 0 disk.old stack.old
        → LeavesOnly (D.calls disk.old) (D.calls disk.new) (D.leaves disk.old) (D.leaves disk.new)
        (MayBeFreed (I.entries index.now) first ends floor class end) }
    ensures counted { Counted (D.faults disk.old) (D.faults disk.new) result }
{
    if count == end {
        return Ok(());
    }
    for number in 0..pages_below(class, end) {
        free_page(disk, index, class, number, end, floor, stack)?;
    }
    Ok(())
}

/// Frees a whole class, 1 to 7, and answers its list.
fn free_next<D: Disk, I: Index>(
    disk: &mut D,
    index: &I,
    class: u8,
    end: u32,
    count: u32,
    floor: u64,
) -> Result<Stacks, Failed>
    requires class { (1 ≤ class) × (class ≤ 7) }
    requires end { end ≤ 2 ^ 24 }
    ensures done { IfOk result (λ stack. (first : Image) (ends : ℕ → ℕ) → ends class ≡ end
        → (IsTrue D.tells → count ≡ end → AreTaken (I.entries index.now) first ends class)
        → HasFreedBelow ⟦<D as Disk>⟧ (I.entries index.now) first ends floor class disk.old
        → HasFreedBelow ⟦<D as Disk>⟧ (I.entries index.now) first ends floor (class + 1) disk.new
        × (IsTrue D.tells → StandsFor stack (free_slots (I.entries index.now) (reading_of first)
        class end))) }
    ensures any_moment { (first : Image) (ends : ℕ → ℕ) → ends class ≡ end
        → HasFreedBelow ⟦<D as Disk>⟧ (I.entries index.now) first ends floor class disk.old
        → LeavesOnly (D.calls disk.old) (D.calls disk.new) (D.leaves disk.old) (D.leaves disk.new)
        (MayBeFreed (I.entries index.now) first ends floor (class + 1) 0) }
    ensures counted { Counted (D.faults disk.old) (D.faults disk.new) result }
{
    let mut stack = Stacks::new();
    free_class(disk, index, class, end, count, floor, &mut stack)?;
    Ok(stack)
}

/// Frees the slots of the classes 1 to 7 that are below their ends and no entry's, and appends the
/// list of each class to that of class 0. Takes no memory.
pub fn free_small<D: Disk, I: Index>(
    disk: &mut D,
    index: &I,
    ends: &[u32; 12],
    counts: &[u32; 12],
    floor: u64,
    stacks: &mut ReservedList<Stacks>,
) -> Result<(), Failed>
    requires ends { (class : ℕ) → slice_index ends.now class ≤ 2 ^ 24 }
    requires one { length stacks.old.items ≡ 1 }
    requires empty { (stack : Tail) → slice_get stacks.old.items 0 ≡ Some stack
        → StandsFor stack [] }
    requires room { 7 ≤ stacks.old.spare }
    ensures done { OnOk result ((first : Image)
        → (IsTrue D.tells → AreFullTaken (I.entries index.now) first (λ c. slice_index ends.now c)
        counts.now)
        → HasFreedBelow ⟦<D as Disk>⟧ (I.entries index.now) first (λ c. slice_index ends.now c)
        floor 1 disk.old
        → FreesBelow ⟦<D as Disk>⟧ (I.entries index.now) first (λ c. slice_index ends.now c)
        floor 8 disk.new stacks.new.items) }
    ensures any_moment { (first : Image)
        → (IsTrue D.tells → AreFullTaken (I.entries index.now) first (λ c. slice_index ends.now c)
        counts.now)
        → HasFreedBelow ⟦<D as Disk>⟧ (I.entries index.now) first (λ c. slice_index ends.now c)
        floor 1 disk.old
        → LeavesOnly (D.calls disk.old) (D.calls disk.new) (D.leaves disk.old) (D.leaves disk.new)
        (MayBeFreed (I.entries index.now) first (λ c. slice_index ends.now c) floor 8 0) }
    ensures range { floor < 2 ^ 64 }
    ensures count { OnOk result (length stacks.new.items ≡ 8) }
    ensures spare { OnOk result (stacks.new.spare + 7 ≡ stacks.old.spare) }
    ensures counted { Counted (D.faults disk.old) (D.faults disk.new) result }
{
    for class in 1..8 {
        let at = class as usize;
        let stack = free_next(disk, index, class, ends[at], counts[at], floor)?;
        stacks.append(stack).unwrap();
    }
    Ok(())
}
