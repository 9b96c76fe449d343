ghost use Rattle.std.specs.Prelude.{◌≡◌, ℕ, ◌+◌, ◌-◌, ◌^◌, ◌<◌, ◌≤◌, List, IsTrue, IfOk, IfErr, length, map};
ghost use Rattle.std.specs.List.{range_with_len};
ghost use Rattle.kv_disk.specs.Steps.{OnlyReads};
ghost use Rattle.kv_model.specs.Layout.{all_classes};
ghost use Rattle.kv_model.specs.Reading.{IsKept, slot_at};
ghost use Rattle.kv_model.specs.Slots.{Item as Stored};
ghost use Rattle.kv_slot.specs.Views.{what_stands, what_stands_large};
ghost use Rattle.kv_slab.specs.Fault.{StepCounted};
ghost use Rattle.kv_recover.specs.Listed.{IsSlabPlace, copy_with};

use crate::entries::Kept;
use crate::large::pages_in_slot;
use crate::read::read_page;
use kv_base::{Bytes, Place, ReservedList};
use kv_disk::Disk;
use kv_slab::StepFault;
use kv_slot::{Large, PageList, Slot, read_large, read_slot, spot};
use std::alloc::Global;

/// The value of an item that is kept on the disk. It only reads. On a disk that doesn't tell what it
/// reads, a slot without an item is answered `NoMemory` too.
pub fn read_value<D: Disk>(alloc: Global, disk: &mut D, entry: &Kept) -> Result<Bytes, StepFault>
    requires place { IsSlabPlace entry.now.place }
    requires kept { IsTrue D.tells → (worker : ℕ) × (workers : ℕ) × (value : List ℕ)
        × IsKept (slot_at all_classes (D.seen disk.old)) worker workers entry.now.key
        (copy_with entry.now value) }
    ensures value { IsTrue D.tells → IfOk result (λ value. slot_at all_classes (D.seen disk.old)
        entry.now.place.class entry.now.place.slot
        ≡ Stored entry.now.stamp entry.now.key value) }
    ensures reads { OnlyReads ⟦<D as Disk>⟧ disk.old disk.new }
    ensures counted { StepCounted (D.faults disk.old) (D.faults disk.new) result }
{
    let value = value_at(alloc, disk, entry.place)?;
    Ok(value)
}

/// The value of the item at the place.
fn value_at<D: Disk>(alloc: Global, disk: &mut D, place: Place) -> Result<Bytes, StepFault>
    requires { IsSlabPlace place }
    ensures value { IsTrue D.tells → IfOk result (λ v. (stamp : ℕ) (key value : List ℕ)
        → slot_at all_classes (D.seen disk.old) place.class place.slot ≡ Stored stamp key value
        → v ≡ value) }
    ensures reads { OnlyReads ⟦<D as Disk>⟧ disk.old disk.new }
    ensures counted { StepCounted (D.faults disk.old) (D.faults disk.new) result }
{
    if place.class <= 7 {
        small_value(alloc, disk, place)
    } else {
        large_value(alloc, disk, place)
    }
}

/// A copy of the value of what stands in a slot.
fn value_in(alloc: Global, slot: Slot<'_>) -> Result<Bytes, StepFault>
    ensures value { IfOk result (λ v. (stamp : ℕ) (key value : List ℕ)
        → what_stands slot.entry ≡ Stored stamp key value → v ≡ value) }
    ensures cause { IfErr result (λ fault. fault ≡ StepFault.NoMemory) }
{
    match slot {
        Slot::Item { value, .. } => Ok(Bytes::copy(alloc, value)?),
        _ => Err(StepFault::NoMemory),
    }
}

/// The value of the item at the place, of the classes 1 to 7.
fn small_value<D: Disk>(alloc: Global, disk: &mut D, place: Place) -> Result<Bytes, StepFault>
    requires place { IsSlabPlace place }
    requires small { place.class ≤ 7 }
    ensures value { IsTrue D.tells → IfOk result (λ v. (stamp : ℕ) (key value : List ℕ)
        → slot_at all_classes (D.seen disk.old) place.class place.slot ≡ Stored stamp key value
        → v ≡ value) }
    ensures reads { OnlyReads ⟦<D as Disk>⟧ disk.old disk.new }
    ensures counted { StepCounted (D.faults disk.old) (D.faults disk.new) result }
{
    let (number, offset) = spot(place);
    let mut page = [0; 4096];
    read_page(disk, place.class, number, &mut page)?;
    let value = value_in(alloc, read_slot(&page, place.class, offset))?;
    Ok(value)
}

/// The value of what stands in a slot of several pages.
fn value_of(large: Large) -> Result<Bytes, StepFault>
    ensures value { IfOk result (λ v. (stamp : ℕ) (key value : List ℕ)
        → what_stands_large large ≡ Stored stamp key value → v ≡ value) }
    ensures cause { IfErr result (λ fault. fault ≡ StepFault.NoMemory) }
{
    match large {
        Large::Item { value, .. } => Ok(value),
        _ => Err(StepFault::NoMemory),
    }
}

/// Reads the pages of a slot.
fn read_pages<D: Disk>(
    alloc: Global,
    disk: &mut D,
    class: u8,
    first: u32,
    count: u32,
) -> Result<PageList, StepFault>
    requires class { class ≤ 13 }
    requires pages { first + count < 2 ^ 32 - 1 }
    ensures reads { OnlyReads ⟦<D as Disk>⟧ disk.old disk.new }
    ensures pages { IsTrue D.tells → IfOk result (λ pages. pages.items
        ≡ map (λ page. D.seen disk.old class page) (range_with_len first count)) }
    ensures count { IfOk result (λ pages. length pages.items ≡ count) }
    ensures counted { StepCounted (D.faults disk.old) (D.faults disk.new) result }
{
    let mut pages = ReservedList::with_room(alloc, count as usize)?;
    for number in 0..count {
        let mut page = [0; 4096];
        read_page(disk, class, first + number, &mut page)?;
        pages.append(page).unwrap();
    }
    Ok(pages)
}

/// The value of the item at the place, of the classes 8 to 11.
fn large_value<D: Disk>(alloc: Global, disk: &mut D, place: Place) -> Result<Bytes, StepFault>
    requires place { IsSlabPlace place }
    requires large { 8 ≤ place.class }
    ensures value { IsTrue D.tells → IfOk result (λ v. (stamp : ℕ) (key value : List ℕ)
        → slot_at all_classes (D.seen disk.old) place.class place.slot ≡ Stored stamp key value
        → v ≡ value) }
    ensures reads { OnlyReads ⟦<D as Disk>⟧ disk.old disk.new }
    ensures counted { StepCounted (D.faults disk.old) (D.faults disk.new) result }
{
    let (first, _) = spot(place);
    let pages = read_pages(alloc, disk, place.class, first, pages_in_slot(place.class))?;
    let value = value_of(read_large(alloc, pages.as_slice(), place.class)?)?;
    Ok(value)
}
