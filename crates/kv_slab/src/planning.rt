ghost use Rattle.std.specs.Prelude.{◌≡◌, ℕ, ◌+◌, ◌*◌, ◌^◌, ◌<◌, ◌≤◌, Option, Some, OnOk};
ghost use Rattle.std.specs.Prelude.{IfOk, IfSome};
ghost use Rattle.std.specs.Prelude.{IsTrue, length};
ghost use Rattle.std.specs.Option.{ForSome};
ghost use Rattle.std.specs.List.{slice_get};
ghost use Rattle.kv_model.specs.Layout.{all_classes};
ghost use Rattle.kv_model.specs.Reading.{slot_at};
ghost use Rattle.kv_slab.specs.declared.change.Change.{Change as Changed};
ghost use Rattle.kv_slab.specs.declared.moves.Move.{Move as Moved};
ghost use Rattle.kv_slab.specs.Floor.{HasFloorUpTo};
ghost use Rattle.kv_slab.specs.Images.{StillLater};
ghost use Rattle.kv_slab.specs.Moves.{IsSlabPlace, IsPair, CanHoldAt, to_of, IsWritten, IsVacated};
ghost use Rattle.kv_slab.specs.Moves.{FirstSoFar, SecondSoFar, TargetsApart, LeftApart, StillFirst};
ghost use Rattle.kv_slab.specs.Moves.{StillSecond, StillBeside, AreWhole, IsWhole, AreUpTo};
ghost use Rattle.kv_slab.specs.Moves.{StampsUpTo};
ghost use Rattle.kv_slab.specs.Pages.{over, ArePages};
ghost use Rattle.kv_disk.specs.Steps.{ReadsAtMost};
ghost use Rattle.kv_slab.specs.Fault.{StepCounted};

use crate::change::Change;
use crate::fault::StepFault;
use crate::moves::Move;
use crate::round::Round;
use crate::vacate::write_tombstone;
use crate::write::write_item;
use kv_base::Place;
use kv_cache::Cached;
use kv_disk::Disk;
use std::alloc::Global;

/// The new item of one change, if it has one.
fn first_one<D: Disk>(
    alloc: Global,
    disk: &mut Cached<D>,
    round: &mut Round,
    change: &Change,
    to: Option<Place>,
) -> Result<(), StepFault>
    requires hold { CanHoldAt change.now to }
    requires pages { ArePages round.old }
    ensures reads { ReadsAtMost ⟦<D as Disk>⟧ 1 disk.old.disk disk.new.disk }
    ensures written { IsTrue D.tells → OnOk result (IsWritten change.now (to_of to change.now.value)
        (slot_at all_classes (over (D.seen disk.old.disk) round.old))
        (slot_at all_classes (over (D.seen disk.old.disk) round.new))) }
    ensures still { IsTrue D.tells → OnOk result (StillBeside to
        (over (D.seen disk.old.disk) round.old) (over (D.seen disk.old.disk)
        round.new)) }
    ensures whole { IsTrue D.tells → OnOk result (IsWhole change.now (to_of to change.now.value)
        (over (D.seen disk.old.disk) round.new)) }
    ensures floor { IsTrue D.tells → OnOk result ((bound : ℕ) → change.now.stamp ≤ bound
        → HasFloorUpTo bound (over (D.seen disk.old.disk) round.old)
        → HasFloorUpTo bound (over (D.seen disk.old.disk) round.new)) }
    ensures pages { ArePages round.new }
    ensures count { length round.new ≤ length round.old + 16 }
    ensures cause { StepCounted (D.faults disk.old.disk) (D.faults disk.new.disk) result }
{
    match to {
        Some(place) => match &change.value {
            Some(value) => write_item(
                alloc,
                disk,
                round,
                place,
                change.stamp,
                change.key.as_slice(),
                value.as_slice(),
            ),
            None => Ok(()),
        },
        None => Ok(()),
    }
}

/// The pages of the first round: each new item at its place.
pub fn plan_first<D: Disk>(
    alloc: Global,
    disk: &mut Cached<D>,
    changes: &[Change],
    moves: &[Move],
) -> Result<Round, StepFault>
    requires count { length moves.now ≡ length changes.now }
    requires hold { (i : ℕ) (c : Changed) (m : Moved) → IsPair changes.now moves.now i c m
        → CanHoldAt c m.to }
    ensures reads { ReadsAtMost ⟦<D as Disk>⟧ (length changes.now) disk.old.disk disk.new.disk }
    ensures first { IsTrue D.tells → TargetsApart moves.now → IfOk result (λ round.
        FirstSoFar changes.now moves.now (length changes.now)
        (slot_at all_classes (D.seen disk.old.disk))
        (slot_at all_classes (over (D.seen disk.old.disk) round))) }
    ensures still { IsTrue D.tells → IfOk result (λ round.
        StillFirst moves.now (D.seen disk.old.disk) (over (D.seen disk.old.disk) round)) }
    ensures whole { IsTrue D.tells → TargetsApart moves.now → IfOk result (λ round.
        AreWhole changes.now moves.now (length changes.now)
        (over (D.seen disk.old.disk) round)) }
    ensures floor { IsTrue D.tells → IfOk result (λ round. (bound : ℕ)
        → AreUpTo bound changes.now → HasFloorUpTo bound (D.seen disk.old.disk)
        → HasFloorUpTo bound (over (D.seen disk.old.disk) round)) }
    ensures pages { IfOk result (λ round. ArePages round) }
    ensures count { IfOk result (λ round. length round ≤ 16 * length changes.now) }
    ensures cause { StepCounted (D.faults disk.old.disk) (D.faults disk.new.disk) result }
{
    let mut round = Round::new(alloc);
    for i in 0..changes.len() {
        first_one(alloc, disk, &mut round, &changes[i], moves[i].to)?;
    }
    Ok(round)
}

/// The tombstone of one place that is left, if one is.
fn second_one<D: Disk>(
    disk: &mut Cached<D>,
    round: &mut Round,
    first: &Round,
    stamp: u64,
    left: Option<Place>,
    link: Option<u32>,
) -> Result<(), StepFault>
    requires place { IfSome left (λ place. IsSlabPlace place) }
    requires link { ForSome link (λ other. other < 2 ^ 24) }
    requires pages { ArePages round.old }
    requires first { ArePages first.now }
    ensures reads { ReadsAtMost ⟦<D as Disk>⟧ 1 disk.old.disk disk.new.disk }
    ensures vacated { IsTrue D.tells → OnOk result (IsVacated stamp left link
        (slot_at all_classes (over (over (D.seen disk.old.disk) first.now) round.old))
        (slot_at all_classes (over (over (D.seen disk.old.disk) first.now) round.new))) }
    ensures still { IsTrue D.tells → OnOk result (StillBeside left
        (over (over (D.seen disk.old.disk) first.now) round.old)
        (over (over (D.seen disk.old.disk) first.now) round.new)) }
    ensures later { IsTrue D.tells → OnOk result (StillLater
        (over (over (D.seen disk.old.disk) first.now) round.old)
        (over (over (D.seen disk.old.disk) first.now) round.new)) }
    ensures floor { IsTrue D.tells → OnOk result ((bound : ℕ) → stamp ≤ bound
        → HasFloorUpTo bound (over (over (D.seen disk.old.disk) first.now) round.old)
        → HasFloorUpTo bound (over (over (D.seen disk.old.disk) first.now) round.new)) }
    ensures pages { ArePages round.new }
    ensures count { length round.new ≤ length round.old + 1 }
    ensures cause { StepCounted (D.faults disk.old.disk) (D.faults disk.new.disk) result }
{
    match left {
        Some(place) => write_tombstone(disk, round, first, place, stamp, link),
        None => Ok(()),
    }
}

/// The pages of the second round: a tombstone at each place that is left.
pub fn plan_second<D: Disk>(
    alloc: Global,
    disk: &mut Cached<D>,
    first: &Round,
    moves: &[Move],
    links: &[Option<u32>],
) -> Result<Round, StepFault>
    requires count { length links.now ≡ length moves.now }
    requires places { (i : ℕ) (m : Moved) → slice_get moves.now i ≡ Some m
        → IfSome m.left (λ place. IsSlabPlace place) }
    requires small { (i : ℕ) (link : Option ℕ) → slice_get links.now i ≡ Some link
        → ForSome link (λ other. other < 2 ^ 24) }
    requires first { ArePages first.now }
    ensures reads { ReadsAtMost ⟦<D as Disk>⟧ (length moves.now) disk.old.disk disk.new.disk }
    ensures second { IsTrue D.tells → LeftApart moves.now → IfOk result (λ round.
        SecondSoFar moves.now links.now (length moves.now)
        (slot_at all_classes (over (D.seen disk.old.disk) first.now))
        (slot_at all_classes (over (over (D.seen disk.old.disk) first.now) round))) }
    ensures still { IsTrue D.tells → IfOk result (λ round.
        StillSecond moves.now (over (D.seen disk.old.disk) first.now)
        (over (over (D.seen disk.old.disk) first.now) round)) }
    ensures later { IsTrue D.tells → IfOk result (λ round. StillLater
        (over (D.seen disk.old.disk) first.now)
        (over (over (D.seen disk.old.disk) first.now) round)) }
    ensures floor { IsTrue D.tells → IfOk result (λ round. (bound : ℕ)
        → StampsUpTo bound moves.now → HasFloorUpTo bound (over (D.seen disk.old.disk) first.now)
        → HasFloorUpTo bound (over (over (D.seen disk.old.disk) first.now) round)) }
    ensures pages { IfOk result (λ round. ArePages round) }
    ensures count { IfOk result (λ round. length round ≤ length moves.now) }
    ensures cause { StepCounted (D.faults disk.old.disk) (D.faults disk.new.disk) result }
{
    let mut round = Round::new(alloc);
    for i in 0..moves.len() {
        let step = &moves[i];
        second_one(disk, &mut round, first, step.stamp, step.left, links[i])?;
    }
    Ok(round)
}
