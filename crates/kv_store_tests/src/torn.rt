use crate::asked::{Ask, Outcome, Row, Told};
use crate::cases::Held;
use crate::opened::{left, opens_as};
use crate::plain::{is_told, read};
use crate::store::{answers, open};
use kv_base::{Calls, Limits};
use kv_disk::MemDisk;
use std::alloc::Global;
use std::test::Fail;

// One slot of a class.
const LIMITS: Limits = Limits { slots: 1, cache: 4 };

// Two keys without a value.
const KEYS: &[Held] = &[Held(b"k", &[]), Held(b"m", &[])];

// The disk of a run that puts 5,000 bytes, which have two pages, and stops before the sync. Of the
// pages these are left.
fn stopped(alloc: Global, disk: MemDisk, key: &'static [u8], pages: u32) -> Result<MemDisk, Fail> {
    let mut worker = open(alloc, disk, LIMITS)?;
    let put = Row(key, Ask::Put(7, 5_000), Told::Stored);
    if !answers(alloc, &mut worker, &[put], Outcome::Done)? {
        return Err("the put isn't answered".into());
    }
    let disk = worker.into_disk();
    left(&disk, disk.calls().saturating_sub(1), pages)
}

// Whether neither key is there, by the plain reader and by a store, and this is the floor.
fn has_neither(alloc: Global, disk: &MemDisk, floor: u64) -> Result<bool, Fail> {
    let plain = read(alloc, disk, KEYS)?;
    let copy = left(disk, 0, 0)?;
    Ok(is_told(&plain, &[(0, 0), (0, 0)], floor) && opens_as(alloc, copy, LIMITS, KEYS, &plain)?)
}

#[test]
fn two_torn_items_in_one_slot_are_dropped(rt: HostRuntime) -> Result<(), Fail> {
    let alloc = rt.alloc();
    let disk = MemDisk::new(alloc, 8, 200, Calls::none())?;
    let disk = stopped(alloc, disk, b"k", 2)?;
    assert!(rt; has_neither(alloc, &disk, 1)?, "the later page of k");
    let disk = stopped(alloc, disk, b"m", 1)?;
    assert!(rt; has_neither(alloc, &disk, 2)?, "and the first page of m");
    Ok(())
}
