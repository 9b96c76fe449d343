use crate::asked::{Ask, Outcome, Row, Told, append_task, no_batch, told_at};
use crate::store::{Store, answers, open, step};
use kv_base::{Calls, Failed, Limits, NoMemory};
use kv_disk::{Disk, MemDisk};
use kv_worker::Batch;
use std::alloc::Global;
use std::test::Fail;

const LIMITS: Limits = Limits {
    slots: 1_000,
    cache: 8,
};

const TWO: Limits = Limits { slots: 2, cache: 8 };

// What is asked of each key from one number on and below another, 200 or fewer, in one batch, and
// what each is told.
struct Round(u32, u32, Ask, Told);

static DELETED: [Round; 2] = [
    Round(0, 100, Ask::Put(7, 10), Told::Stored),
    Round(0, 100, Ask::Delete, Told::Removed),
];

static USED_AGAIN: [Round; 5] = [
    Round(0, 200, Ask::Put(7, 10), Told::Stored),
    Round(0, 200, Ask::Delete, Told::Removed),
    Round(300, 500, Ask::Put(7, 10), Told::Stored),
    Round(0, 200, Ask::Get, Told::Missing),
    Round(300, 500, Ask::Get, Told::Found(7, 10)),
];

static FULL: [Round; 2] = [
    Round(0, 2, Ask::Put(7, 10), Told::Stored),
    Round(2, 4, Ask::Put(7, 10), Told::Full(1)),
];

fn deleted() -> &'static [Round] {
    &DELETED
}

fn used_again() -> &'static [Round] {
    &USED_AGAIN
}

fn full() -> &'static [Round] {
    &FULL
}

// A new store.
fn fresh(alloc: Global, limits: Limits) -> Result<Store, Fail> {
    let disk = MemDisk::new(alloc, 16, 200, Calls::none())?;
    Ok(open(alloc, disk, limits)?)
}

// The last decimal digit.
fn digit(number: u32) -> u8 {
    b'0' + (number % 10) as u8
}

// A key of three digits.
fn key(number: u32) -> [u8; 3] {
    [digit(number / 100), digit(number / 10), digit(number)]
}

// The batch of the round.
fn batch_of(alloc: Global, round: &Round) -> Result<Batch, NoMemory> {
    let mut batch = no_batch(alloc)?;
    for number in round.0..round.1 {
        append_task(alloc, &mut batch, &key(number), round.2)?;
    }
    Ok(batch)
}

// Whether each request of the batch is told this.
fn are_told(batch: &Batch, base: u64, told: Told) -> bool {
    for at in 0..batch.as_slice().len() {
        if !told_at(batch, at, base).is_same(told) {
            return false;
        }
    }
    true
}

// Makes the round. Whether each is told what it has to be.
fn make(alloc: Global, worker: &mut Store, round: &Round) -> Result<bool, NoMemory> {
    let base = worker.highest().saturating_add(1);
    let mut batch = batch_of(alloc, round)?;
    let asked = step(alloc, worker, &mut batch, base);
    Ok(asked && are_told(&batch, base, round.3))
}

// Makes the rounds.
fn make_all(alloc: Global, worker: &mut Store, rounds: &[Round]) -> Result<bool, NoMemory> {
    for round in rounds {
        if !make(alloc, worker, round)? {
            return Ok(false);
        }
    }
    Ok(true)
}

// A new store behind the rounds.
fn behind(alloc: Global, limits: Limits, rounds: &[Round]) -> Result<Store, Fail> {
    let mut worker = fresh(alloc, limits)?;
    if !make_all(alloc, &mut worker, rounds)? {
        return Err("another reply".into());
    }
    Ok(worker)
}

// The least byte of the stamp, the kind and the link field of a slot of class 1, at the offset in its
// page.
fn slot(disk: &MemDisk, page: u32, offset: usize) -> [u8; 3] {
    if offset > 4_080 {
        return [0; 3];
    }
    let bytes = disk.page(1, page);
    [bytes[offset], bytes[offset + 8], bytes[offset + 12]]
}

// The page and the offset of a slot, its stamp and its link field.
struct Link(u32, usize, u8, u8);

// Slots have 64 bytes. Tombstones, kind 2, by the stamps of their deletes, 101 to 200. Slot 99 links
// to slot 35, so its link field has 36, and slot 64 to slot 0; up to slot 63 there is no link.
static LINKS: [Link; 4] = [
    Link(1, 35 * 64, 200, 36),
    Link(1, 0, 165, 1),
    Link(0, 63 * 64, 164, 0),
    Link(0, 0, 101, 0),
];

fn links() -> &'static [Link] {
    &LINKS
}

// Whether the slot has a tombstone with the link, and with its stamp or another.
fn is_linked(disk: &MemDisk, link: &Link, stamped: bool) -> bool {
    let [stamp, kind, to] = slot(disk, link.0, link.1);
    kind == 2 && to == link.3 && (stamp == link.2 || !stamped)
}

// Whether each slot does.
fn are_linked(disk: &MemDisk, links: &[Link], stamped: bool) -> bool {
    for link in links {
        if !is_linked(disk, link, stamped) {
            return false;
        }
    }
    true
}

#[test]
fn tombstones_link_64_slots_back(rt: HostRuntime) -> Result<(), Fail> {
    let disk = behind(rt.alloc(), LIMITS, deleted())?.into_disk();
    assert!(rt; are_linked(&disk, links(), true));
    let disk = open(rt.alloc(), disk, LIMITS)?.into_disk();
    assert!(rt; are_linked(&disk, links(), false), "opened again");
    Ok(())
}

// How many pages file 1 has.
fn pages(disk: MemDisk) -> Result<u32, Failed> {
    let mut disk = disk;
    disk.length(1)
}

#[test]
fn free_slots_are_used_again(rt: HostRuntime) -> Result<(), Fail> {
    let disk = behind(rt.alloc(), LIMITS, used_again())?.into_disk();
    assert_eq!(rt; pages(disk)?, 4, "200 slots are 3 pages and 8 slots");
    Ok(())
}

#[test]
fn room_is_what_the_limit_leaves(rt: HostRuntime) -> Result<(), Fail> {
    let rooms = behind(rt.alloc(), TWO, full())?.rooms();
    assert!(rt; rooms.0 == 0 && rooms.1 == 2);
    Ok(())
}

// Stamp 3, an item, a key of one byte and a value of one byte, and these.
const LAST: &[u8] = b"\x03\0\0\0\0\0\0\0\x01\0\x01\0\x01\0\0\0k2";

static PUTS: [Row; 3] = [
    Row(b"k", Ask::Put(b'1', 1), Told::Stored),
    Row(b"k", Ask::Get, Told::Found(b'1', 1)),
    Row(b"k", Ask::Put(b'2', 1), Told::Stored),
];

fn puts() -> &'static [Row] {
    &PUTS
}

// The disk of a new store behind these requests.
fn disk_behind(alloc: Global, rows: &[Row]) -> Result<MemDisk, Fail> {
    let mut worker = fresh(alloc, LIMITS)?;
    if !answers(alloc, &mut worker, rows, Outcome::Done)? {
        return Err("another reply".into());
    }
    Ok(worker.into_disk())
}

// Whether the first page of file 1 begins with these bytes.
fn begins(disk: &MemDisk, bytes: &[u8]) -> bool {
    disk.page(1, 0).starts_with(bytes)
}

#[test]
fn of_two_puts_of_a_key_the_last_is_written(rt: HostRuntime) -> Result<(), Fail> {
    let disk = disk_behind(rt.alloc(), puts())?;
    assert!(rt; begins(&disk, LAST));
    Ok(())
}
