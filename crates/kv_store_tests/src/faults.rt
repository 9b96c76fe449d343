use crate::asked::{Outcome, Told};
use crate::cases::{Case, Turn, items, moves, plans, turns};
use crate::opened::{CHOSEN, is_left};
use crate::run::{are_of, begin, calls_behind, values};
use crate::store::{Store, answers};
use kv_base::{Calls, NoMemory};
use kv_disk::MemDisk;
use std::alloc::Global;
use std::test::Fail;

// Whether the keys of the case have their values behind so many batches.
fn has_values(alloc: Global, case: &Case, worker: &mut Store, count: usize) -> Result<bool, Fail> {
    let found = values(alloc, worker, case.keys)?;
    Ok(are_of(&found, case.keys, count, count))
}

// Whether the batch has this outcome, and the keys then the values behind so many batches.
fn ends_so(
    alloc: Global,
    case: &Case,
    turn: &Turn,
    outcome: Outcome,
    worker: &mut Store,
    count: usize,
) -> Result<bool, Fail> {
    if !answers(alloc, worker, turn.rows, outcome)? {
        return Ok(false);
    }
    has_values(alloc, case, worker, count)
}

// Whether a failed read refuses the batch and leaves the store as it was, and the batch can come
// again.
fn is_refused(
    alloc: Global,
    case: &Case,
    turn: &Turn,
    batches: (usize, usize),
    worker: &mut Store,
) -> Result<bool, Fail> {
    let refused = Outcome::Refused(Told::DiskFault);
    if !ends_so(alloc, case, turn, refused, worker, batches.0)? {
        return Ok(false);
    }
    ends_so(alloc, case, turn, Outcome::Done, worker, batches.1)
}

// Whether a failed write or sync of the batch closes the worker.
fn is_closed(alloc: Global, turn: &Turn, worker: &mut Store) -> Result<bool, NoMemory> {
    let closed = Outcome::Refused(Told::Closed);
    if !answers(alloc, worker, turn.rows, Outcome::Failed)? {
        return Ok(false);
    }
    answers(alloc, worker, turn.rows, closed)
}

// Whether a crash leaves each key its old or its new value, whatever it leaves of the waiting pages,
// of which there are so many at most.
fn leaves_values(
    alloc: Global,
    case: &Case,
    batches: (usize, usize),
    disk: &MemDisk,
    waiting: u32,
) -> Result<bool, Fail> {
    for bits in 0..1 << waiting.min(CHOSEN) {
        if !is_left(alloc, case, disk, disk.calls(), bits, batches)? {
            return Ok(false);
        }
    }
    Ok(true)
}

// The case's store behind so many batches, where the next one's call with this number fails.
fn failing(alloc: Global, case: &Case, count: usize, call: u32) -> Result<Store, Fail> {
    let from = calls_behind(alloc, case, count)?;
    let calls = Calls::of(alloc, &[from.saturating_add(call).saturating_add(1)])?;
    begin(alloc, case, count, calls)
}

// Whether the batch goes as it should where this read fails.
fn is_read_so(
    alloc: Global,
    case: &Case,
    turn: &Turn,
    batches: (usize, usize),
    call: u32,
) -> Result<bool, Fail> {
    let mut worker = failing(alloc, case, batches.0, call)?;
    is_refused(alloc, case, turn, batches, &mut worker)
}

// The disk where this write or sync of the batch fails, if that closes the worker.
fn closed_disk(
    alloc: Global,
    case: &Case,
    turn: &Turn,
    count: usize,
    call: u32,
) -> Result<Option<MemDisk>, Fail> {
    let mut worker = failing(alloc, case, count, call)?;
    if is_closed(alloc, turn, &mut worker)? {
        Ok(Some(worker.into_disk()))
    } else {
        Ok(None)
    }
}

// Whether the batch goes as it should where this write or sync fails, behind so many others.
fn is_written_so(
    alloc: Global,
    case: &Case,
    turn: &Turn,
    batches: (usize, usize),
    call: u32,
    others: u32,
) -> Result<bool, Fail> {
    match closed_disk(alloc, case, turn, batches.0, call)? {
        Some(disk) => leaves_values(alloc, case, batches, &disk, others.saturating_add(1)),
        None => Ok(false),
    }
}

// Whether the batch goes as it should where this one of its calls fails.
fn fails_so(
    alloc: Global,
    case: &Case,
    turn: &Turn,
    batches: (usize, usize),
    call: u32,
) -> Result<bool, Fail> {
    match call.checked_sub(turn.reads) {
        None => is_read_so(alloc, case, turn, batches, call),
        Some(others) => is_written_so(alloc, case, turn, batches, call, others),
    }
}

// Whether each call of the batch fails as it should.
fn fails_well(
    alloc: Global,
    case: &Case,
    turn: &Turn,
    batches: (usize, usize),
) -> Result<bool, Fail> {
    for call in 0..turn.calls {
        if !fails_so(alloc, case, turn, batches, call)? {
            return Ok(false);
        }
    }
    Ok(true)
}

// Whether each batch of the case fails as it should.
fn all_fail_well(alloc: Global, case: &Case) -> Result<bool, Fail> {
    for number in 0..case.turns.len() {
        if !fails_well(alloc, case, &case.turns[number], (number, number + 1))? {
            return Ok(false);
        }
    }
    Ok(true)
}

// The first of the cases that doesn't.
fn first_wrong(alloc: Global, cases: &'static [Case]) -> Result<Option<&'static str>, Fail> {
    for case in cases {
        if !all_fail_well(alloc, case)? {
            return Ok(Some(case.why));
        }
    }
    Ok(None)
}

#[test]
fn a_failed_call_of_a_move_refuses_or_closes(rt: HostRuntime) -> Result<(), Fail> {
    assert_eq!(rt; first_wrong(rt.alloc(), moves())?, None);
    Ok(())
}

#[test]
fn a_failed_call_of_a_put_or_a_delete_refuses_or_closes(rt: HostRuntime) -> Result<(), Fail> {
    assert_eq!(rt; first_wrong(rt.alloc(), items())?, None);
    Ok(())
}

#[test]
fn a_failed_call_of_several_changes_refuses_or_closes(rt: HostRuntime) -> Result<(), Fail> {
    assert_eq!(rt; first_wrong(rt.alloc(), plans())?, None);
    Ok(())
}

#[test]
fn a_failed_call_of_each_batch_refuses_or_closes(rt: HostRuntime) -> Result<(), Fail> {
    assert_eq!(rt; first_wrong(rt.alloc(), turns())?, None);
    Ok(())
}
