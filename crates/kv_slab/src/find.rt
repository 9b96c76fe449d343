ghost use Rattle.std.specs.Prelude.{◌≡◌, ℕ, ◌+◌, ◌<◌, ◌≤◌, List, None, Some, IsTrue, IfOk, IfErr};
ghost use Rattle.std.specs.Prelude.{◌-◌, ◌^◌, IfSome, length, take, drop, map};
ghost use Rattle.std.specs.FinMap as finite;
ghost use Rattle.std.specs.List.{range_with_len};
ghost use Rattle.kv_model.specs.Layout.{all_classes, class_of, pages_in_slot, slot_size};
ghost use Rattle.kv_model.specs.Reading.{slot_at};
ghost use Rattle.kv_model.specs.Slots.{Item as Stored, read_large, read_small};
ghost use Rattle.kv_slab.specs.Moves.{IsSlabPlace, ArePlaces};
ghost use Rattle.kv_disk.specs.Steps.{ReadsAtMost};
ghost use Rattle.kv_slab.specs.Fault.{StepCounted};
ghost use Rattle.kv_index.specs.Entries.{HasNoneFrom};
ghost use Rattle.kv_slab.specs.Counts.{pages_of_class, reads_for, NextReads};
ghost use Rattle.kv_slab.specs.View.{HasItems, IsAnswer, IsNextItem, IsEntryItem, IsNextEntry};
ghost use Rattle.kv_slab.specs.View.{HasClass, map_of};

use crate::change::Item;
use crate::fault::StepFault;
use crate::read::{place_spot, read_page};
use kv_base::{Bytes, Place};
use kv_cache::Cached;
use kv_disk::Disk;
use kv_index::Index;
use kv_lanes::same;
use kv_slot::{Large, PageList, Slot, read_large, read_slot};
use std::alloc::Global;

/// The value of the key's item in the slot. A slot without it is answered by `NoMemory`.
fn value_in(
    alloc: Global,
    page: &[u8; 4096],
    class: u8,
    offset: u32,
    key: &[u8],
) -> Result<Bytes, StepFault>
    requires class { (1 ≤ class) × (class ≤ 7) }
    requires within { offset + slot_size class ≤ 4096 }
    ensures value { IfOk result (λ v. (stamp : ℕ) (key value : List ℕ)
        → read_small all_classes class
        (take (slot_size class) (drop offset page.now)) ≡ Stored stamp key value → v ≡ value) }
    ensures fits { IfOk result (λ v. class_of all_classes (length key.now) (length v)
        ≡ Some class) }
    ensures cause { IfErr result (λ fault. fault ≡ StepFault.NoMemory) }
{
    match read_slot(page, class, offset) {
        Slot::Item {
            key: found,
            value,
            ..
        } => {
            if same(found, key) {
                Ok(Bytes::copy(alloc, value)?)
            } else {
                Err(StepFault::NoMemory)
            }
        }
        _ => Err(StepFault::NoMemory),
    }
}

/// The value of the key's item at the place, in the classes 1 to 7.
fn read_small_value<D: Disk>(
    alloc: Global,
    disk: &mut Cached<D>,
    place: Place,
    key: &[u8],
) -> Result<Bytes, StepFault>
    requires place { IsSlabPlace place }
    requires small { place.class ≤ 7 }
    ensures value { IsTrue D.tells → IfOk result (λ v. (stamp : ℕ) (key value : List ℕ)
        → slot_at all_classes (D.seen disk.old.disk) place.class place.slot
        ≡ Stored stamp key value → v ≡ value) }
    ensures fits { IfOk result (λ v. class_of all_classes (length key.now) (length v)
        ≡ Some place.class) }
    ensures reads { ReadsAtMost ⟦<D as Disk>⟧ 1 disk.old.disk disk.new.disk }
    ensures cause { StepCounted (D.faults disk.old.disk) (D.faults disk.new.disk) result }
{
    let (number, offset) = place_spot(place);
    let mut page = [0; 4096];
    read_page(disk, place.class, number, &mut page)?;
    value_in(alloc, &page, place.class, offset, key)
}

/// The pages of one slot of this class, 8 to 11.
fn slot_pages(class: u8) -> u32
    requires class { (8 ≤ class) × (class ≤ 11) }
    ensures value { result ≡ pages_in_slot class }
    ensures range { (2 ≤ result) × (result ≤ 16) }
{
    match class {
        8 => 2,
        9 => 4,
        10 => 8,
        _ => 16,
    }
}

/// Reads consecutive pages.
fn read_pages<D: Disk>(
    alloc: Global,
    disk: &mut Cached<D>,
    file: u8,
    first: u32,
    count: u32,
) -> Result<PageList, StepFault>
    requires file { file ≤ 13 }
    requires pages { first + count < 2 ^ 32 - 1 }
    ensures reads { ReadsAtMost ⟦<D as Disk>⟧ count disk.old.disk disk.new.disk }
    ensures pages { IsTrue D.tells → IfOk result (λ pages. pages.items
        ≡ map (λ page. D.seen disk.old.disk file page) (range_with_len first count)) }
    ensures count { IfOk result (λ pages. length pages.items ≡ count) }
    ensures cause { StepCounted (D.faults disk.old.disk) (D.faults disk.new.disk) result }
{
    let mut pages = PageList::with_room(alloc, count as usize)?;
    for number in 0..count {
        let mut page = [0; 4096];
        read_page(disk, file, first + number, &mut page)?;
        pages.append(page).unwrap();
    }
    Ok(pages)
}

/// The value of the key's item in a slot of the classes 8 to 11, given its pages. A slot without it
/// is answered by `NoMemory`.
fn large_value(
    alloc: Global,
    pages: &[[u8; 4096]],
    class: u8,
    key: &[u8],
) -> Result<Bytes, StepFault>
    requires class { (8 ≤ class) × (class ≤ 11) }
    requires pages { length pages.now ≡ pages_in_slot class }
    ensures value { IfOk result (λ v. (stamp : ℕ) (key value : List ℕ)
        → read_large all_classes class pages.now ≡ Stored stamp key value → v ≡ value) }
    ensures fits { IfOk result (λ v. class_of all_classes (length key.now) (length v)
        ≡ Some class) }
    ensures cause { IfErr result (λ fault. fault ≡ StepFault.NoMemory) }
{
    match read_large(alloc, pages, class) {
        Ok(
            Large::Item {
                key: found,
                value,
                ..
            },
        ) => {
            if same(found.as_slice(), key) {
                Ok(value)
            } else {
                Err(StepFault::NoMemory)
            }
        }
        _ => Err(StepFault::NoMemory),
    }
}

/// The value of the key's item at the place, in the classes 8 to 11.
fn read_large_value<D: Disk>(
    alloc: Global,
    disk: &mut Cached<D>,
    place: Place,
    key: &[u8],
) -> Result<Bytes, StepFault>
    requires place { IsSlabPlace place }
    requires large { 8 ≤ place.class }
    ensures value { IsTrue D.tells → IfOk result (λ v. (stamp : ℕ) (key value : List ℕ)
        → slot_at all_classes (D.seen disk.old.disk) place.class place.slot
        ≡ Stored stamp key value → v ≡ value) }
    ensures fits { IfOk result (λ v. class_of all_classes (length key.now) (length v)
        ≡ Some place.class) }
    ensures reads { ReadsAtMost ⟦<D as Disk>⟧ (pages_in_slot place.class) disk.old.disk
        disk.new.disk }
    ensures cause { StepCounted (D.faults disk.old.disk) (D.faults disk.new.disk) result }
{
    let (first, _) = place_spot(place);
    let pages = read_pages(alloc, disk, place.class, first, slot_pages(place.class))?;
    large_value(alloc, pages.as_slice(), place.class, key)
}

/// The value of the key's item at the place.
fn read_value<D: Disk>(
    alloc: Global,
    disk: &mut Cached<D>,
    place: Place,
    key: &[u8],
) -> Result<Bytes, StepFault>
    requires place { IsSlabPlace place }
    ensures value { IsTrue D.tells → IfOk result (λ v. (stamp : ℕ) (key value : List ℕ)
        → slot_at all_classes (D.seen disk.old.disk) place.class place.slot
        ≡ Stored stamp key value → v ≡ value) }
    ensures fits { IfOk result (λ v. class_of all_classes (length key.now) (length v)
        ≡ Some place.class) }
    ensures reads { ReadsAtMost ⟦<D as Disk>⟧ (pages_of_class place.class) disk.old.disk
        disk.new.disk }
    ensures cause { StepCounted (D.faults disk.old.disk) (D.faults disk.new.disk) result }
{
    if place.class <= 7 {
        read_small_value(alloc, disk, place, key)
    } else {
        read_large_value(alloc, disk, place, key)
    }
}

/// The key's item.
pub fn find_item<D: Disk, I: Index>(
    alloc: Global,
    disk: &mut Cached<D>,
    index: &I,
    key: &[u8],
) -> Result<Option<Item>, StepFault>
    requires places { ArePlaces (finite.get (I.entries index.now)) }
    ensures answer { IsTrue D.tells → HasItems (D.seen disk.old.disk)
        (finite.get (I.entries index.now))
        → IfOk result (λ item. IsAnswer item key.now
        (map_of (D.seen disk.old.disk) (finite.get (I.entries index.now)) key.now)) }
    ensures entry { IfOk result (λ item. IsEntryItem item key.now
        (finite.get (I.entries index.now) key.now)) }
    ensures fits { IfOk result (λ item. IfSome item HasClass) }
    ensures reads { ReadsAtMost ⟦<D as Disk>⟧ (reads_for (finite.get (I.entries index.now) key.now))
        disk.old.disk disk.new.disk }
    ensures cause { StepCounted (D.faults disk.old.disk) (D.faults disk.new.disk) result }
{
    match index.find(key) {
        Some(entry) => {
            let value = read_value(alloc, disk, entry.place, key)?;
            let key = Bytes::copy(alloc, key)?;
            Ok(Some(Item {
                key,
                stamp: entry.stamp,
                value,
            }))
        }
        None => Ok(None),
    }
}

/// The item with the least key at or after this one.
pub fn next_item<D: Disk, I: Index>(
    alloc: Global,
    disk: &mut Cached<D>,
    index: &I,
    key: &[u8],
) -> Result<Option<Item>, StepFault>
    requires places { ArePlaces (finite.get (I.entries index.now)) }
    ensures next { IsTrue D.tells → HasItems (D.seen disk.old.disk)
        (finite.get (I.entries index.now))
        → IfOk result (λ item. IsNextItem (I.entries index.now) (D.seen disk.old.disk) key.now
        item) }
    ensures entry { IfOk result (λ item. IsNextEntry (I.entries index.now) key.now item) }
    ensures fits { IfOk result (λ item. IfSome item HasClass) }
    ensures none { HasNoneFrom (I.entries index.now) key.now → disk.new ≡ disk.old }
    ensures reads { NextReads ⟦<D as Disk>⟧ (I.entries index.now) key.now disk.old.disk
        disk.new.disk }
    ensures cause { StepCounted (D.faults disk.old.disk) (D.faults disk.new.disk) result }
{
    match index.next_at_or_after(key) {
        Some((key, entry)) => {
            let value = read_value(alloc, disk, entry.place, key)?;
            let key = Bytes::copy(alloc, key)?;
            Ok(Some(Item {
                key,
                stamp: entry.stamp,
                value,
            }))
        }
        None => Ok(None),
    }
}
