ghost use Rattle.std.specs.Prelude.{◌≡◌, ℕ, ◌<◌, ◌≤◌, Option, None, Some, IsTrue};
ghost use Rattle.std.specs.Prelude.{IfOk};
ghost use Rattle.std.specs.Prelude.{length, IfSome, OnOk};
ghost use Rattle.std.specs.FinMap as finite;
ghost use Rattle.kv_model.specs.Layout.{all_classes, class_of};
ghost use Rattle.kv_model.specs.Reading.{slot_at};
ghost use Rattle.kv_base.specs.declared.place.Place.{Place as Placed};
ghost use Rattle.kv_index.specs.declared.entry.Entry.{Entry as Entered};
ghost use Rattle.kv_slab.specs.Moves.{IsMove, IsPair, IsSlabPlace, AreDistinct, ArePlaces};
ghost use Rattle.kv_slab.specs.Moves.{FitsClass};
ghost use Rattle.kv_slab.specs.Moves.{AllFit, AreAllMoves};
ghost use Rattle.kv_disk.specs.Steps.{ReadsAtMost};
ghost use Rattle.kv_slab.specs.Fault.{StepCounted};
ghost use Rattle.kv_slab.specs.Rooms.{Rooms, AreRooms, AreLinked, ArePlaced, left_by, left_for};
ghost use Rattle.kv_slab.specs.Rooms.{item_class, slot_class, new_class, needed};
ghost use Rattle.kv_slab.specs.Assigned.{GoesTo, Assigned, AreEnds, TargetFor};
ghost use Rattle.kv_slab.specs.Memory.{HasSpace, HaveLengths, HaveSpace, new_in};
ghost use Rattle.kv_slab.specs.declared.change.Change.{Change as Changed};
ghost use Rattle.kv_slab.specs.declared.moves.Move.{Move as Moved};

use crate::append::append;
use crate::change::Change;
use crate::fault::StepFault;
use crate::moves::Move;
use crate::room::Room;
use crate::take::place_for;
use kv_base::{Bytes, Place};
use kv_cache::Cached;
use kv_disk::Disk;
use kv_index::{Entry, Index};
use kv_slot::class_of;
use std::alloc::Global;

/// The class of the change's new item, if it has one.
fn item_class(change: &Change) -> Option<u8>
    requires { FitsClass change.now }
    ensures value { result ≡ item_class change.now.key change.now.value }
    ensures range { IfSome result (λ class. (1 ≤ class) × (class ≤ 11)) }
    ensures none { change.now.value ≡ None → result ≡ None }
{
    match &change.value {
        Some(value) => class_of(change.key.len(), value.len()),
        None => None,
    }
}

/// The place that the key's old item leaves, for an item of this class or for none.
fn left_for(from: Option<Entry>, class: Option<u8>) -> Option<Place>
    ensures { result ≡ left_for from class }
{
    match from {
        Some(entry) => match class {
            Some(class) => {
                if entry.place.class == class && class <= 7 {
                    None
                } else {
                    Some(entry.place)
                }
            }
            None => Some(entry.place),
        },
        None => None,
    }
}

/// Where the item of this class goes, if there is one.
fn target_for<D: Disk>(
    disk: &mut Cached<D>,
    from: Option<Entry>,
    class: Option<u8>,
    rooms: &mut Vec<Room>,
) -> Result<Option<Place>, StepFault>
    requires class { IfSome class (λ c. (1 ≤ c) × (c ≤ 11)) }
    requires from { IfSome from (λ entry. IsSlabPlace entry.place) }
    requires ends { AreEnds rooms.old.items }
    requires space { HasSpace (slot_class from class) rooms.old.items }
    ensures reads { ReadsAtMost ⟦<D as Disk>⟧ 1 disk.old.disk disk.new.disk }
    ensures none { class ≡ None → IfOk result (λ place. place ≡ None) }
    ensures some { (c : ℕ) → class ≡ Some c → IfOk result (λ target. (place : Placed)
        × (target ≡ Some place) × IsSlabPlace place × (place.class ≡ c)) }
    ensures ends { AreEnds rooms.new.items }
    ensures counted { OnOk result (HaveLengths (new_in (slot_class from class)) (λ _. 0)
        rooms.old.items rooms.new.items) }
    ensures kept { (c : ℕ) (e : Entered) → from ≡ Some e → class ≡ Some c
        → slot_class from class ≡ None → IfOk result (λ target. target ≡ Some e.place) }
    ensures goes { IsTrue D.tells → IfOk result (λ target. (old : Rooms)
        → AreRooms rooms.old.items old → AreLinked (slot_at all_classes (D.seen disk.old.disk)) old
        → (new : Rooms) × AreRooms rooms.new.items new × TargetFor from class target old new) }
    ensures cause { StepCounted (D.faults disk.old.disk) (D.faults disk.new.disk) result }
{
    match class {
        Some(class) => match place_for(disk, from, class, rooms) {
            Ok(place) => Ok(Some(place)),
            Err(fault) => Err(fault),
        },
        None => Ok(None),
    }
}

/// The move of one change.
fn assign_one<D: Disk, I: Index>(
    alloc: Global,
    disk: &mut Cached<D>,
    index: &I,
    rooms: &mut Vec<Room>,
    change: &Change,
) -> Result<Move, StepFault>
    requires places { ArePlaces (finite.get (I.entries index.now)) }
    requires fits { FitsClass change.now }
    requires ends { AreEnds rooms.old.items }
    requires space { HasSpace (new_class (finite.get (I.entries index.now)) change.now)
        rooms.old.items }
    ensures reads { ReadsAtMost ⟦<D as Disk>⟧ 1 disk.old.disk disk.new.disk }
    ensures is { IfOk result (λ m. IsMove (finite.get (I.entries index.now)) change.now m) }
    ensures left { IfOk result (λ m. m.left ≡ left_by (finite.get (I.entries index.now))
        change.now) }
    ensures counted { OnOk result (HaveLengths (new_in (new_class (finite.get
        (I.entries index.now)) change.now)) (λ _. 0) rooms.old.items rooms.new.items) }
    ensures goes { IsTrue D.tells → IfOk result (λ m. (old : Rooms) → AreRooms rooms.old.items old
        → AreLinked (slot_at all_classes (D.seen disk.old.disk)) old
        → (new : Rooms) × AreRooms rooms.new.items new
        × GoesTo (finite.get (I.entries index.now)) change.now m old new) }
    ensures ends { AreEnds rooms.new.items }
    ensures cause { StepCounted (D.faults disk.old.disk) (D.faults disk.new.disk) result }
{
    let from = index.find(change.key.as_slice());
    let class = item_class(change);
    let to = target_for(disk, from, class, rooms)?;
    Ok(Move {
        key: Bytes::copy(alloc, change.key.as_slice())?,
        stamp: change.stamp,
        from,
        to,
        left: left_for(from, class),
    })
}

/// The moves of the changes, in their order.
pub fn assign<D: Disk, I: Index>(
    alloc: Global,
    disk: &mut Cached<D>,
    index: &I,
    rooms: &mut Vec<Room>,
    changes: &[Change],
) -> Result<Vec<Move>, StepFault>
    requires places { ArePlaces (finite.get (I.entries index.now)) }
    requires fits { AllFit changes.now }
    requires distinct { AreDistinct changes.now }
    requires ends { AreEnds rooms.old.items }
    requires space { HaveSpace (needed (finite.get (I.entries index.now)) changes.now)
        rooms.old.items }
    ensures reads { ReadsAtMost ⟦<D as Disk>⟧ (length changes.now) disk.old.disk disk.new.disk }
    ensures assigned { IsTrue D.tells → IfOk result (λ moves. (start : Rooms)
        → AreRooms rooms.old.items start → ArePlaced (finite.get (I.entries index.now)) start
        → AreLinked (slot_at all_classes (D.seen disk.old.disk)) start
        → (mid : Rooms) × AreRooms rooms.new.items mid
        × AreLinked (slot_at all_classes (D.seen disk.old.disk)) mid
        × Assigned (finite.get (I.entries index.now)) start mid changes.now moves.items) }
    ensures each { IfOk result (λ moves. AreAllMoves (finite.get (I.entries index.now)) changes.now
        moves.items) }
    ensures counted { OnOk result (HaveLengths (needed (finite.get (I.entries index.now))
        changes.now) (λ _. 0) rooms.old.items rooms.new.items) }
    ensures lefts { IfOk result (λ moves. (i : ℕ) (c : Changed) (m : Moved)
        → IsPair changes.now moves.items i c m
        → m.left ≡ left_by (finite.get (I.entries index.now)) c) }
    ensures ends { AreEnds rooms.new.items }
    ensures cause { StepCounted (D.faults disk.old.disk) (D.faults disk.new.disk) result }
{
    let mut moves = Vec::new(alloc);
    for change in changes {
        let step = assign_one(alloc, disk, index, rooms, change)?;
        append(&mut moves, step)?;
    }
    Ok(moves)
}
