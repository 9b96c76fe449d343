ghost use Rattle.std.specs.Prelude.{◌≡◌, ℕ, ◌+◌, ◌*◌, ◌<◌, ◌≤◌, ◌^◌, List, IsTrue};
ghost use Rattle.std.specs.Prelude.{IfOk, OnOk};
ghost use Rattle.std.specs.Prelude.{OnErr, length, []};
ghost use Rattle.std.specs.FinMap as finite;
ghost use Rattle.kv_base.specs.Fault.{HasCause, Counted};
ghost use Rattle.kv_base.specs.Crash.{LeavesOnly};
ghost use Rattle.kv_model.specs.Layout.{all_classes};
ghost use Rattle.kv_model.specs.Reading.{slot_at};
ghost use Rattle.kv_slab.specs.declared.change.Change.{Change as Changed};
ghost use Rattle.kv_slab.specs.Memory.{AreFilled, HaveLengths, rooms_of};
ghost use Rattle.kv_slab.specs.Moves.{ArePlaces, AreAllMoves, AreUpTo};
ghost use Rattle.kv_slab.specs.Moves.{answer_after};
ghost use Rattle.kv_slab.specs.Floor.{HasFloorUpTo};
ghost use Rattle.kv_slab.specs.Settled.{HasEntryAfter};
ghost use Rattle.kv_slab.specs.Pages.{ArePages, IsOrder};
ghost use Rattle.kv_disk.specs.Steps.{ReadsAtMost};
ghost use Rattle.kv_slab.specs.Fault.{StepCounted};
ghost use Rattle.kv_slab.specs.Rooms.{Rooms, AreRooms, ArePlaced, AreLinked, rooms_after, needed};
ghost use Rattle.kv_slab.specs.Rooms.{left_slots};
ghost use Rattle.kv_slab.specs.Assigned.{AreEnds};
ghost use Rattle.kv_slab.specs.Plans.{CanChange, IsPlanned, PlannedFor};
ghost use Rattle.kv_slab.specs.View.{IsOpen, IsOfWorker, OldOrNewMap, map_of};
ghost use Rattle.kv_slab.specs.View.{Stands};

use crate::assign::assign;
use crate::change::Change;
use crate::fault::{StepFault, WriteFault};
use crate::leave::leave;
use crate::lists::{copy_rooms, split_rooms};
use crate::order::order_of;
use crate::parts::{EndList, StackList};
use crate::plan::Plan;
use crate::planning::{plan_first, plan_second};
use crate::rounds::carry_out;
use crate::settle::settle;
use kv_cache::Cached;
use kv_disk::Disk;
use kv_free::Stacks;
use kv_index::Index;
use std::alloc::Global;

/// The plan of some changes: all reads are made and all memory is taken.
pub fn make_plan<D: Disk, I: Index>(
    alloc: Global,
    disk: &mut Cached<D>,
    index: &mut I,
    stacks: &[Stacks],
    ends: &[u32],
    changes: &[Change],
) -> Result<Plan, StepFault>
    requires places { ArePlaces (finite.get (I.entries index.old)) }
    requires sizes { (length stacks.now ≡ 12) × (length ends.now ≡ 12) }
    requires ends { AreEnds (rooms_of stacks.now ends.now) }
    requires filled { AreFilled (I.entries index.old) (rooms_of stacks.now ends.now) }
    requires can { (limit : ℕ) × (worker : ℕ) × (workers : ℕ) × (limit ≤ 2 ^ 24)
        × CanChange D.tells (D.seen disk.old.disk) (I.entries index.old) limit worker workers
        changes.now }
    ensures moves { IfOk result (λ plan. AreAllMoves (finite.get (I.entries index.new)) changes.now
        plan.moves.items) }
    ensures spare { IfOk result (λ plan. length plan.moves.items ≤ I.spare index.new) }
    ensures few { IfOk result (λ plan. finite.len (I.entries index.new)
        + length plan.moves.items < 2 ^ 32) }
    ensures first { IfOk result (λ plan. ArePages plan.first.items) }
    ensures second { IfOk result (λ plan. ArePages plan.second.items) }
    ensures orders { IfOk result (λ plan. IsOrder plan.first.items plan.first_order.items
        × IsOrder plan.second.items plan.second_order.items) }
    ensures counts { IfOk result (λ plan. (length plan.first.items ≤ 16 * length changes.now)
        × (length plan.second.items ≤ length changes.now)) }
    ensures sizes { IfOk result (λ plan. (length plan.stacks.items ≡ 12)
        × (length plan.ends.items ≡ 12)) }
    ensures ends { IfOk result (λ plan. AreEnds (rooms_of plan.stacks.items plan.ends.items)) }
    ensures lengths { IfOk result (λ plan. HaveLengths
        (needed (finite.get (I.entries index.new)) changes.now)
        (λ c. length (left_slots (finite.get (I.entries index.new)) changes.now c))
        (rooms_of stacks.now ends.now) (rooms_of plan.stacks.items plan.ends.items)) }
    ensures told { IsTrue D.tells → IfOk result (λ plan. (start : Rooms) → AreRooms
        (rooms_of stacks.now ends.now) start
        → ArePlaced (finite.get (I.entries index.new)) start
        → AreLinked (slot_at all_classes (D.seen disk.old.disk)) start
        → PlannedFor (D.seen disk.old.disk) (finite.get (I.entries index.new)) start changes.now
        plan.moves.items plan.first.items plan.second.items
        (rooms_of plan.stacks.items plan.ends.items)) }
    ensures reads { ReadsAtMost ⟦<D as Disk>⟧ (3 * length changes.now) disk.old.disk disk.new.disk }
    ensures entries { I.entries index.new ≡ I.entries index.old }
    ensures cause { StepCounted (D.faults disk.old.disk) (D.faults disk.new.disk) result }
{
    index.reserve(changes.len() as u32)?;
    let mut now = copy_rooms(alloc, stacks, ends)?;
    let moves = assign(alloc, disk, index, &mut now, changes)?;
    let links = leave(alloc, &mut now, &moves)?;
    let first = plan_first(alloc, disk, changes, &moves)?;
    let second = plan_second(alloc, disk, &first, &moves, &links)?;
    let first = first.into_pages();
    let second = second.into_pages();
    let first_order = order_of(alloc, &first)?;
    let second_order = order_of(alloc, &second)?;
    let (stacks, ends) = split_rooms(alloc, &now)?;
    Ok(Plan {
        moves,
        first,
        first_order,
        second,
        second_order,
        stacks,
        ends,
    })
}

/// Carries a plan out.
pub fn carry<D: Disk, I: Index>(
    disk: &mut Cached<D>,
    index: &mut I,
    stacks: &mut StackList,
    ends: &mut EndList,
    plan: Plan,
) -> Result<(), WriteFault>
    requires planned { (limit : ℕ) × (worker : ℕ) × (workers : ℕ) × (changes : List Changed)
        × IsOpen D.tells (D.seen disk.old.disk) (D.leaves disk.old.disk (D.calls disk.old.disk))
        (finite.get (I.entries index.old)) (rooms_of stacks.old.items ends.old.items) worker workers
        × IsPlanned D.tells (D.seen disk.old.disk) (I.entries index.old) (I.spare index.old)
        (rooms_of stacks.old.items ends.old.items) limit worker workers plan changes }
    ensures any_moment { (limit worker workers : ℕ) (changes : List Changed)
        → IsOpen D.tells (D.seen disk.old.disk) (D.leaves disk.old.disk (D.calls disk.old.disk))
        (finite.get (I.entries index.old)) (rooms_of stacks.old.items ends.old.items) worker workers
        → IsPlanned D.tells (D.seen disk.old.disk) (I.entries index.old) (I.spare index.old)
        (rooms_of stacks.old.items ends.old.items) limit worker workers plan changes
        → LeavesOnly (D.calls disk.old.disk) (D.calls disk.new.disk) (D.leaves disk.old.disk)
        (D.leaves disk.new.disk) (OldOrNewMap (map_of (D.seen disk.old.disk)
        (finite.get (I.entries index.old))) changes worker workers) }
    ensures of_worker { (limit worker workers : ℕ) (changes : List Changed)
        → IsOpen D.tells (D.seen disk.old.disk) (D.leaves disk.old.disk (D.calls disk.old.disk))
        (finite.get (I.entries index.old)) (rooms_of stacks.old.items ends.old.items) worker workers
        → IsPlanned D.tells (D.seen disk.old.disk) (I.entries index.old) (I.spare index.old)
        (rooms_of stacks.old.items ends.old.items) limit worker workers plan changes
        → LeavesOnly (D.calls disk.old.disk) (D.calls disk.new.disk) (D.leaves disk.old.disk)
        (D.leaves disk.new.disk) (IsOfWorker worker workers) }
    ensures done { OnOk result ((limit worker workers : ℕ) (changes : List Changed)
        → IsOpen D.tells (D.seen disk.old.disk) (D.leaves disk.old.disk (D.calls disk.old.disk))
        (finite.get (I.entries index.old)) (rooms_of stacks.old.items ends.old.items) worker workers
        → IsPlanned D.tells (D.seen disk.old.disk) (I.entries index.old) (I.spare index.old)
        (rooms_of stacks.old.items ends.old.items) limit worker workers plan changes
        → IsTrue D.tells → (k : List ℕ) → map_of (D.seen disk.new.disk)
        (finite.get (I.entries index.new)) k ≡ answer_after changes k (map_of
        (D.seen disk.old.disk) (finite.get (I.entries index.old)) k)) }
    ensures lists { OnOk result ((limit worker workers : ℕ) (changes : List Changed) (start : Rooms)
        → IsPlanned D.tells (D.seen disk.old.disk) (I.entries index.old) (I.spare index.old)
        (rooms_of stacks.old.items ends.old.items) limit worker workers plan changes
        → IsTrue D.tells → AreRooms (rooms_of stacks.old.items ends.old.items) start
        → Stands (D.seen disk.old.disk) (finite.get (I.entries index.old)) start worker workers
        → AreRooms (rooms_of stacks.new.items ends.new.items)
        (rooms_after (finite.get (I.entries index.old)) changes start)
        × Stands (D.seen disk.new.disk) (finite.get (I.entries index.new))
        (rooms_after (finite.get (I.entries index.old)) changes start) worker workers) }
    ensures opened { OnOk result ((limit worker workers : ℕ) (changes : List Changed)
        → IsOpen D.tells (D.seen disk.old.disk) (D.leaves disk.old.disk (D.calls disk.old.disk))
        (finite.get (I.entries index.old)) (rooms_of stacks.old.items ends.old.items) worker workers
        → IsPlanned D.tells (D.seen disk.old.disk) (I.entries index.old) (I.spare index.old)
        (rooms_of stacks.old.items ends.old.items) limit worker workers plan changes
        → IsOpen D.tells (D.seen disk.new.disk) (D.leaves disk.new.disk (D.calls disk.new.disk))
        (finite.get (I.entries index.new)) (rooms_of stacks.new.items ends.new.items) worker
        workers) }
    ensures entries { OnOk result ((limit worker workers : ℕ) (changes : List Changed)
        → IsPlanned D.tells (D.seen disk.old.disk) (I.entries index.old) (I.spare index.old)
        (rooms_of stacks.old.items ends.old.items) limit worker workers plan changes
        → (key : List ℕ) → HasEntryAfter changes key (finite.get (I.entries index.old) key)
        (finite.get (I.entries index.new) key)) }
    ensures lengths { OnOk result ((limit worker workers : ℕ) (changes : List Changed)
        → IsPlanned D.tells (D.seen disk.old.disk) (I.entries index.old) (I.spare index.old)
        (rooms_of stacks.old.items ends.old.items) limit worker workers plan changes
        → HaveLengths (needed (finite.get (I.entries index.old)) changes)
        (λ c. length (left_slots (finite.get (I.entries index.old)) changes c))
        (rooms_of stacks.old.items ends.old.items) (rooms_of stacks.new.items ends.new.items)) }
    ensures filled { OnOk result ((limit worker workers : ℕ) (changes : List Changed)
        → IsPlanned D.tells (D.seen disk.old.disk) (I.entries index.old) (I.spare index.old)
        (rooms_of stacks.old.items ends.old.items) limit worker workers plan changes
        → (length stacks.old.items ≡ 12) × (length ends.old.items ≡ 12)
        → AreFilled (I.entries index.old) (rooms_of stacks.old.items ends.old.items)
        → AreFilled (I.entries index.new) (rooms_of stacks.new.items ends.new.items)) }
    ensures floor { OnOk result ((limit worker workers : ℕ) (changes : List Changed)
        → IsOpen D.tells (D.seen disk.old.disk) (D.leaves disk.old.disk (D.calls disk.old.disk))
        (finite.get (I.entries index.old)) (rooms_of stacks.old.items ends.old.items) worker workers
        → IsPlanned D.tells (D.seen disk.old.disk) (I.entries index.old) (I.spare index.old)
        (rooms_of stacks.old.items ends.old.items) limit worker workers plan changes
        → IsTrue D.tells → (bound : ℕ) → AreUpTo bound changes
        → HasFloorUpTo bound (D.seen disk.old.disk) → HasFloorUpTo bound (D.seen disk.new.disk)) }
    ensures memory { OnErr result ((I.entries index.new ≡ I.entries index.old)
        × (rooms_of stacks.new.items ends.new.items ≡ rooms_of stacks.old.items ends.old.items)) }
    ensures none { (plan.first.items ≡ []) → (plan.second.items ≡ []) → disk.new ≡ disk.old }
    ensures sizes { (length stacks.old.items ≡ 12) × (length ends.old.items ≡ 12)
        → (length stacks.new.items ≡ 12) × (length ends.new.items ≡ 12) }
    ensures cause { HasCause (D.faults disk.old.disk) (D.faults disk.new.disk) result }
    ensures counted { Counted (D.faults disk.old.disk) (D.faults disk.new.disk) result }
    ensures count { D.calls disk.new.disk ≤ D.calls disk.old.disk + length plan.first.items
        + length plan.second.items + 2 }
{
    let Plan {
        moves,
        first,
        first_order,
        second,
        second_order,
        stacks: now_stacks,
        ends: now_ends,
    } = plan;
    match carry_out(disk, &first, &first_order, &second, &second_order) {
        Ok(()) => {
            *stacks = now_stacks;
            *ends = now_ends;
            settle(index, moves);
            Ok(())
        }
        Err(_) => Err(WriteFault),
    }
}
