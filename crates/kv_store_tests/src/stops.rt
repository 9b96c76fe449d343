use crate::cases::{Case, Turn, items, moves, plans, turns};
use crate::opened::{CHOSEN, is_left, opens_again};
use crate::run::{begin, calls_behind};
use kv_base::Calls;
use kv_disk::MemDisk;
use std::alloc::Global;
use std::test::Fail;

// Whether a crash leaves each key its value behind the one batch or the other, whatever it leaves
// of the waiting pages, of which there are so many at most. Each opening is stopped too.
fn leaves_values(
    alloc: Global,
    case: &Case,
    disk: &MemDisk,
    moment: u32,
    waiting: u32,
    batches: (usize, usize),
) -> Result<bool, Fail> {
    for bits in 0..1 << waiting.min(CHOSEN) {
        if !is_left(alloc, case, disk, moment, bits, batches)? {
            return Ok(false);
        }
        if !opens_again(alloc, case, disk, moment, bits)? {
            return Ok(false);
        }
    }
    Ok(true)
}

// The batches that may be the last of which the values are left, so many calls behind the beginning
// of one: the batch before it until it is answered, and itself from its first call on.
fn left_behind(turn: &Turn, call: u32, batches: (usize, usize)) -> (usize, usize) {
    let old = if call == turn.calls {
        batches.1
    } else {
        batches.0
    };
    let new = if call == 0 { batches.0 } else { batches.1 };
    (old, new)
}

// Whether each moment of the batch leaves the values behind the batch before it or behind it.
fn stops_well(
    alloc: Global,
    case: &Case,
    disk: &MemDisk,
    turn: &Turn,
    batches: (usize, usize),
) -> Result<bool, Fail> {
    let from = calls_behind(alloc, case, batches.0)?;
    for call in 0..=turn.calls {
        let moment = from.saturating_add(call);
        let written = call.saturating_sub(turn.reads);
        let batches = left_behind(turn, call, batches);
        if !leaves_values(alloc, case, disk, moment, written, batches)? {
            return Ok(false);
        }
    }
    Ok(true)
}

// Whether each batch of the case does.
fn all_stop_well(alloc: Global, case: &Case) -> Result<bool, Fail> {
    let disk = begin(alloc, case, case.turns.len(), Calls::none())?.into_disk();
    for number in 0..case.turns.len() {
        let batches = (number, number + 1);
        if !stops_well(alloc, case, &disk, &case.turns[number], batches)? {
            return Ok(false);
        }
    }
    Ok(true)
}

// The first of the cases that doesn't.
fn first_wrong(alloc: Global, cases: &'static [Case]) -> Result<Option<&'static str>, Fail> {
    for case in cases {
        if !all_stop_well(alloc, case)? {
            return Ok(Some(case.why));
        }
    }
    Ok(None)
}

#[test]
fn a_stop_of_a_move_leaves_the_old_or_the_new_value(rt: HostRuntime) -> Result<(), Fail> {
    assert_eq!(rt; first_wrong(rt.alloc(), moves())?, None);
    Ok(())
}

#[test]
fn a_stop_of_a_put_or_a_delete_leaves_the_old_or_the_new_value(
    rt: HostRuntime,
) -> Result<(), Fail> {
    assert_eq!(rt; first_wrong(rt.alloc(), items())?, None);
    Ok(())
}

#[test]
fn a_stop_of_several_changes_leaves_the_old_or_the_new_values(rt: HostRuntime) -> Result<(), Fail> {
    assert_eq!(rt; first_wrong(rt.alloc(), plans())?, None);
    Ok(())
}

#[test]
fn a_stop_leaves_what_each_batch_answered(rt: HostRuntime) -> Result<(), Fail> {
    assert_eq!(rt; first_wrong(rt.alloc(), turns())?, None);
    Ok(())
}
