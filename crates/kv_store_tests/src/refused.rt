use crate::asked::Outcome;
use crate::cases::{Case, Turn, items, moves, plans};
use crate::opened::is_left;
use crate::plain::{Plain, is_told, read};
use crate::run::{begin, calls_behind, limits_of, open_case};
use crate::store::{answers, try_open};
use kv_base::Calls;
use kv_disk::MemDisk;
use kv_recover::OpenFault;
use std::alloc::Global;
use std::test::Fail;

// The disk behind the first batch of the case, of which a write or a sync fails, so that pages wait.
fn unsure(alloc: Global, case: &Case, turn: &Turn, failing: &[u32]) -> Result<MemDisk, Fail> {
    let mut worker = begin(alloc, case, 0, Calls::of(alloc, failing)?)?;
    if !answers(alloc, &mut worker, turn.rows, Outcome::Failed)? {
        return Err("another reply".into());
    }
    Ok(worker.into_disk())
}

// Whether the disk reads as the plain reader found before, and a crash leaves each key its value
// before the batch or behind it.
fn stands(alloc: Global, case: &Case, disk: &MemDisk, before: &Plain) -> Result<bool, Fail> {
    let after = read(alloc, disk, case.keys)?;
    if !is_told(&after, &before.values, before.floor) {
        return Ok(false);
    }
    for bits in [0, 1, 2, 31] {
        if !is_left(alloc, case, disk, disk.calls(), bits, (0, 1))? {
            return Ok(false);
        }
    }
    Ok(true)
}

// Whether opening the disk is refused for a failed call, and leaves what was there.
fn is_refused(alloc: Global, case: &Case, disk: MemDisk, before: &Plain) -> Result<bool, Fail> {
    match try_open(alloc, disk, limits_of(case)) {
        Err((disk, OpenFault::DiskFault)) => stands(alloc, case, &disk, before),
        _ => Ok(false),
    }
}

// The number of calls of the disk once it is opened.
fn calls_opened(alloc: Global, case: &Case, disk: MemDisk) -> Result<u32, OpenFault> {
    Ok(open_case(alloc, case, disk)?.into_disk().calls())
}

// Whether each call between these of an opening behind the failed call is refused where it fails.
fn all_between(
    alloc: Global,
    case: &Case,
    turn: &Turn,
    failed: u32,
    calls: (u32, u32),
    before: &Plain,
) -> Result<bool, Fail> {
    for call in calls.0..calls.1 {
        let disk = unsure(alloc, case, turn, &[failed, call.saturating_add(1)])?;
        if !is_refused(alloc, case, disk, before)? {
            return Ok(false);
        }
    }
    Ok(calls.0 < calls.1)
}

// Whether each call of an opening behind this failed call is refused where it fails.
fn are_refused(alloc: Global, case: &Case, turn: &Turn, failed: u32) -> Result<bool, Fail> {
    let disk = unsure(alloc, case, turn, &[failed])?;
    let before = read(alloc, &disk, case.keys)?;
    let from = disk.calls();
    let to = calls_opened(alloc, case, disk)?;
    all_between(alloc, case, turn, failed, (from, to), &before)
}

// Whether the openings behind each failed write or sync of the batch go well.
fn all_refused(alloc: Global, case: &Case, turn: &Turn) -> Result<bool, Fail> {
    let from = calls_behind(alloc, case, 0)?;
    for call in turn.reads..turn.calls {
        let failed = from.saturating_add(call).saturating_add(1);
        if !are_refused(alloc, case, turn, failed)? {
            return Ok(false);
        }
    }
    Ok(true)
}

// Whether they go well of the case's first batch.
fn first_refused(alloc: Global, case: &Case) -> Result<bool, Fail> {
    match case.turns.first() {
        Some(turn) => all_refused(alloc, case, turn),
        None => Ok(false),
    }
}

// The first of the cases of which they don't.
fn first_wrong(alloc: Global, cases: &'static [Case]) -> Result<Option<&'static str>, Fail> {
    for case in cases {
        if !first_refused(alloc, case)? {
            return Ok(Some(case.why));
        }
    }
    Ok(None)
}

#[test]
fn a_failed_opening_behind_a_move_leaves_what_was_there(rt: HostRuntime) -> Result<(), Fail> {
    assert_eq!(rt; first_wrong(rt.alloc(), moves())?, None);
    Ok(())
}

#[test]
fn a_failed_opening_behind_a_put_or_a_delete_leaves_what_was_there(
    rt: HostRuntime,
) -> Result<(), Fail> {
    assert_eq!(rt; first_wrong(rt.alloc(), items())?, None);
    Ok(())
}

#[test]
fn a_failed_opening_behind_several_changes_leaves_what_was_there(
    rt: HostRuntime,
) -> Result<(), Fail> {
    assert_eq!(rt; first_wrong(rt.alloc(), plans())?, None);
    Ok(())
}
