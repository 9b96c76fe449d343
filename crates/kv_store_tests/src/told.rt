use crate::cases::{Case, items, moves, plans, turns};
use crate::rows::rows;
use crate::run::{are_of, begin, calls_behind, values};
use crate::store::Store;
use kv_base::{Calls, NoMemory};
use std::alloc::Global;
use std::test::Fail;

// The failing calls of a case of which the opening ends with this call.
fn failing_calls(alloc: Global, case: &Case, from: u32) -> Result<Calls, NoMemory> {
    let mut calls = Vec::new(alloc);
    for call in case.failing {
        calls.push(from.saturating_add(*call))?;
    }
    Calls::of(alloc, &calls)
}

// The case's store behind so many batches, each answered as it is told. Its opening ends with this
// call.
fn behind(alloc: Global, case: &Case, count: usize, from: u32) -> Result<Store, Fail> {
    begin(alloc, case, count, failing_calls(alloc, case, from)?)
}

// Whether each key has its value behind so many batches, if the store isn't closed there.
fn has_values(alloc: Global, case: &Case, count: usize, from: u32) -> Result<bool, Fail> {
    let mut worker = behind(alloc, case, count, from)?;
    if worker.closed() {
        return Ok(true);
    }
    let found = values(alloc, &mut worker, case.keys)?;
    Ok(are_of(&found, case.keys, count, count))
}

// How many calls the batches take that are told before this number.
fn calls_told(case: &Case, count: usize) -> u32 {
    let mut calls = 0u32;
    for turn in case.turns.iter().take(count) {
        calls = calls.saturating_add(turn.calls);
    }
    calls
}

// Whether the first batches are answered as they are told, take as many calls, and leave the keys
// their values.
fn are_right(alloc: Global, case: &Case, count: usize, from: u32) -> Result<bool, Fail> {
    let disk = behind(alloc, case, count, from)?.into_disk();
    let calls = from.saturating_add(calls_told(case, count));
    Ok(disk.calls() == calls && has_values(alloc, case, count, from)?)
}

// Whether all batches of the case go as they are told.
fn is_right(alloc: Global, case: &Case) -> Result<bool, Fail> {
    let from = calls_behind(alloc, case, 0)?;
    for number in 0..case.turns.len() {
        if !are_right(alloc, case, number + 1, from)? {
            return Ok(false);
        }
    }
    Ok(true)
}

// The first of the cases of which they don't.
fn first_wrong(alloc: Global, cases: &'static [Case]) -> Result<Option<&'static str>, Fail> {
    for case in cases {
        if !is_right(alloc, case)? {
            return Ok(Some(case.why));
        }
    }
    Ok(None)
}

#[test]
fn batches_are_answered(rt: HostRuntime) -> Result<(), Fail> {
    let alloc = rt.alloc();
    assert_eq!(rt; first_wrong(alloc, moves())?, None);
    assert_eq!(rt; first_wrong(alloc, items())?, None);
    assert_eq!(rt; first_wrong(alloc, plans())?, None);
    assert_eq!(rt; first_wrong(alloc, turns())?, None);
    Ok(())
}

#[test]
fn batches_that_fail_or_find_no_room_are_answered(rt: HostRuntime) -> Result<(), Fail> {
    assert_eq!(rt; first_wrong(rt.alloc(), rows())?, None);
    Ok(())
}
