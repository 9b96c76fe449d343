use crate::asked::{Ask, Outcome, Told, append_task, no_batch, told_at};
use crate::cases::{Case, Held, Turn, Value};
use crate::store::{Store, answers, open, step};
use kv_base::{Calls, Limits, NoMemory};
use kv_disk::MemDisk;
use kv_recover::OpenFault;
use std::alloc::Global;
use std::test::Fail;

const PAGES: u32 = 12;

const CALLS: u32 = 200;

/// The limits of the case.
pub fn limits_of(case: &Case) -> Limits {
    Limits {
        slots: case.slots,
        cache: case.cache,
    }
}

/// Opens a disk of the case.
pub fn open_case(alloc: Global, case: &Case, disk: MemDisk) -> Result<Store, OpenFault> {
    open(alloc, disk, limits_of(case))
}

// The disk of the case's store, filled, of which these calls fail.
fn filled(alloc: Global, case: &Case, failing: Calls) -> Result<MemDisk, Fail> {
    let disk = MemDisk::new(alloc, PAGES, CALLS, failing)?;
    let mut worker = open_case(alloc, case, disk)?;
    if !answers(alloc, &mut worker, case.before, Outcome::Done)? {
        return Err("the store isn't filled".into());
    }
    Ok(worker.into_disk())
}

// Gives the store the batches. Whether they are answered as they are told.
fn make(alloc: Global, worker: &mut Store, turns: &[Turn], count: usize) -> Result<bool, Fail> {
    for turn in turns.iter().take(count) {
        if !answers(alloc, worker, turn.rows, turn.outcome)? {
            return Ok(false);
        }
    }
    Ok(true)
}

/// The case's store, filled and opened again and behind its first batches, on a disk of which these
/// calls fail.
pub fn begin(alloc: Global, case: &Case, count: usize, failing: Calls) -> Result<Store, Fail> {
    let mut worker = open_case(alloc, case, filled(alloc, case, failing)?)?;
    if !make(alloc, &mut worker, case.turns, count)? {
        return Err("another reply".into());
    }
    Ok(worker)
}

/// How many calls of the disk there are behind the first batches of the case.
pub fn calls_behind(alloc: Global, case: &Case, count: usize) -> Result<u32, Fail> {
    let worker = begin(alloc, case, count, Calls::none())?;
    Ok(worker.into_disk().calls())
}

/// What a key has.
fn value(alloc: Global, worker: &mut Store, key: &[u8]) -> Result<Option<Value>, NoMemory> {
    let base = worker.highest().saturating_add(1);
    let mut batch = no_batch(alloc)?;
    append_task(alloc, &mut batch, key, Ask::Get)?;
    if !step(alloc, worker, &mut batch, base) {
        return Ok(None);
    }
    match told_at(&batch, 0, base) {
        Told::Found(byte, count) => Ok(Some((byte, count))),
        Told::Missing => Ok(Some((0, 0))),
        _ => Ok(None),
    }
}

/// What each key of the case has.
pub fn values(alloc: Global, worker: &mut Store, keys: &[Held]) -> Result<Vec<Value>, Fail> {
    let mut values = Vec::new(alloc);
    for held in keys {
        match value(alloc, worker, held.0)? {
            Some(value) => values.push(value)?,
            None => return Err("a get isn't answered".into()),
        }
    }
    Ok(values)
}

// What the key has behind the batch with this number.
fn value_behind(held: &Held, number: usize) -> Option<Value> {
    held.1.get(number).copied()
}

/// Whether each key has its value behind one batch or behind another.
pub fn are_of(values: &[Value], keys: &[Held], old: usize, new: usize) -> bool {
    if values.len() != keys.len() {
        return false;
    }
    for at in 0..values.len() {
        let is_old = value_behind(&keys[at], old) == Some(values[at]);
        let is_new = value_behind(&keys[at], new) == Some(values[at]);
        if !is_old && !is_new {
            return false;
        }
    }
    true
}
