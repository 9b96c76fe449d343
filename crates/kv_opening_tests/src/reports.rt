//! The reports of disks' slots and of their items.
use crate::disks::{disk_with, head_of};
use kv_base::{Calls, MemSink};
use kv_disk::{MemDisk, PlainDisk};
use kv_recover::OpenFault;
use kv_slot::{put_item, put_tombstone};
use kv_tools::{ToolFault, check_all, dump_all};
use std::alloc::Global;
use std::test::*;

// Bytes of reports that a sink has room for.
const ROOM: usize = 4096;

// The count of a disk's slots is this text, and is written in one piece.
fn is_counted(alloc: Global, disk: PlainDisk, wanted: &str) -> Result<bool, Fail> {
    let mut disks = [disk];
    let mut out = MemSink::new(alloc, ROOM, Calls::of(alloc, &[2])?)?;
    check_all(alloc, &mut disks, &mut out)?;
    Ok(out.taken() == wanted.as_bytes())
}

// The same of a disk of worker 0 of 1 with this page.
fn is_page_counted(alloc: Global, page: &[u8; 4096], wanted: &str) -> Result<bool, Fail> {
    is_counted(alloc, disk_with(alloc, 0, 1, page)?, wanted)
}

// Two items at the stamps 5 and 2, as they stand after a, b and c were put, a was deleted, and c was
// put again into the slot of a.
fn two_items() -> [u8; 4096] {
    let mut page = [0; 4096];
    put_item(&mut page, 1, 0, 5, b"c", b"3");
    put_item(&mut page, 1, 64, 2, b"b", b"2");
    page
}

// An item, a slot of kind 7, an item without a key, and one too large for its class.
fn damaged() -> [u8; 4096] {
    let mut page = [0; 4096];
    put_item(&mut page, 1, 0, 5, b"a", b"1");
    page[64 + 8] = 7;
    page[128 + 8] = 1;
    page[192 + 8] = 1;
    page[192 + 10] = 1;
    page[192 + 12] = 60;
    page[192 + 16] = 98;
    page
}

// Of one key three items, the newest of them in the middle, and a tombstone.
fn stale() -> [u8; 4096] {
    let mut page = [0; 4096];
    put_item(&mut page, 1, 0, 3, b"a", b"old");
    put_item(&mut page, 1, 64, 9, b"a", b"new");
    put_item(&mut page, 1, 128, 4, b"a", b"older");
    put_tombstone(&mut page, 1, 192, 8, None);
    page
}

const TWO_ITEMS: &str = "disk 0 class 1 end 2 kept 2 stale 0 foreign 0 tomb 0 never 0 torn 0 bad 0
disk 0 floor 5 keys 2
";

const DAMAGED: &str = "disk 0 class 1 end 4 kept 1 stale 0 foreign 0 tomb 0 never 0 torn 0 bad 3
disk 0 floor 5 keys 1
";

const STALE: &str = "disk 0 class 1 end 4 kept 1 stale 2 foreign 0 tomb 1 never 0 torn 0 bad 0
disk 0 floor 9 keys 1
";

const ALL_BAD: &str = "disk 0 class 1 end 64 kept 0 stale 0 foreign 0 tomb 0 never 0 torn 0 bad 64
disk 0 floor 18446744073709551615 keys 0
";

#[test]
fn each_kind_of_slot_is_counted(rt: HostRuntime) -> Result<(), Fail> {
    let alloc = rt.alloc();
    assert!(rt; is_page_counted(alloc, &two_items(), TWO_ITEMS)?, "items");
    assert!(rt; is_page_counted(alloc, &damaged(), DAMAGED)?, "bad slots");
    assert!(rt; is_page_counted(alloc, &stale(), STALE)?, "stale items");
    assert!(rt; is_page_counted(alloc, &[255; 4096], ALL_BAD)?, "no slot");
    let new = PlainDisk::new(alloc, 0)?;
    assert!(rt; is_counted(alloc, new, "disk 0 new\n")?, "a new disk");
    Ok(())
}

// The disks of a store of two workers, of which the first owns a and c, and the second b.
fn two_disks(alloc: Global) -> Result<[PlainDisk; 2], Fail> {
    let mut first = [0; 4096];
    put_item(&mut first, 1, 0, 3, b"c", b"");
    put_item(&mut first, 1, 64, 1, b"a", b"\x0f1");
    let mut second = [0; 4096];
    put_item(&mut second, 1, 0, 4, b"b", b"old");
    put_item(&mut second, 1, 64, 7, b"b", b"2");
    let first = disk_with(alloc, 0, 2, &first)?;
    let second = disk_with(alloc, 1, 2, &second)?;
    Ok([first, second])
}

// What they keep.
const DUMP: &[u8] = b"1 61 0f31\n7 62 32\n3 63 \n";

// The lines of the first of them.
const FIRST: &[u8] =
    b"disk 0 class 1 end 2 kept 2 stale 0 foreign 0 tomb 0 never 0 torn 0 bad 0\ndisk 0 floor 3 keys 2\n";

// What became of a report: it is whole, a disk was refused after a failed call of it, a value
// couldn't be read, the sink failed, or something else.
fn outcome(end: Result<(), ToolFault>) -> u32 {
    match end {
        Ok(()) => 0,
        Err(
            ToolFault::Store {
                fault: OpenFault::DiskFault,
                ..
            },
        ) => 1,
        Err(ToolFault::DiskFault { .. }) => 2,
        Err(ToolFault::SinkFault) => 3,
        Err(_) => 4,
    }
}

// What became of the list of two disks' items on a sink with so much room, and what the sink has.
fn dumped(alloc: Global, room: usize, failing: Calls) -> Result<(u32, MemSink), Fail> {
    let mut disks = two_disks(alloc)?;
    let mut out = MemSink::new(alloc, room, failing)?;
    let end = dump_all(alloc, &mut disks, &mut out);
    Ok((outcome(end), out))
}

#[test]
fn all_items_are_listed_by_rising_key(rt: HostRuntime) -> Result<(), Fail> {
    let alloc = rt.alloc();
    let (outcome, out) = dumped(alloc, ROOM, Calls::of(alloc, &[2])?)?;
    assert!(rt; outcome == 0 && out.taken() == DUMP, "the report");
    Ok(())
}

#[test]
fn a_sink_that_fails_ends_the_report(rt: HostRuntime) -> Result<(), Fail> {
    let alloc = rt.alloc();
    let (outcome, out) = dumped(alloc, ROOM, Calls::of(alloc, &[1])?)?;
    assert!(rt; outcome == 3 && out.taken().is_empty(), "the first call");
    let (outcome, out) = dumped(alloc, 12, Calls::none())?;
    assert!(rt; outcome == 3 && out.taken() == &DUMP[..12], "a short write");
    Ok(())
}

// What became of the count of two disks' slots where this call of the sink fails.
fn checked(alloc: Global, failing: u32) -> Result<(u32, MemSink), Fail> {
    let mut disks = two_disks(alloc)?;
    let mut out = MemSink::new(alloc, ROOM, Calls::of(alloc, &[failing])?)?;
    let end = check_all(alloc, &mut disks, &mut out);
    Ok((outcome(end), out))
}

#[test]
fn each_disk_is_a_piece_of_the_report(rt: HostRuntime) -> Result<(), Fail> {
    let alloc = rt.alloc();
    let (outcome, out) = checked(alloc, 1)?;
    assert!(rt; outcome == 3 && out.taken().is_empty(), "the first piece");
    let (outcome, out) = checked(alloc, 2)?;
    assert!(rt; outcome == 3 && out.taken() == FIRST, "the second piece");
    let (outcome, _) = checked(alloc, 3)?;
    assert!(rt; outcome == 0, "no third piece");
    Ok(())
}

// A disk with the two items, of which this call fails.
fn failing_disk(alloc: Global, call: u32) -> Result<MemDisk, Fail> {
    let mut disk = MemDisk::new(alloc, 2, 1000, Calls::of(alloc, &[call])?)?;
    if disk.set_page(0, 0, &head_of(0, 1)) && disk.set_page(1, 0, &two_items()) {
        Ok(disk)
    } else {
        Err("no memory".into())
    }
}

// What becomes of the list of its items, how many calls of the disk it takes, and whether the sink
// has a front of the lines.
fn listed(alloc: Global, call: u32) -> Result<(u32, u32, bool), Fail> {
    let mut disks = [failing_disk(alloc, call)?];
    let mut out = MemSink::new(alloc, ROOM, Calls::none())?;
    let end = dump_all(alloc, &mut disks, &mut out);
    let front = b"2 62 32\n5 63 33\n".starts_with(out.taken());
    Ok((outcome(end), disks[0].calls(), front))
}

#[test]
fn a_disk_that_fails_ends_the_report(rt: HostRuntime) -> Result<(), Fail> {
    let alloc = rt.alloc();
    let (outcome, calls, _) = listed(alloc, 0)?;
    assert!(rt; outcome == 0 && calls < 900, "no call fails");
    for call in 1..calls + 1 {
        let (outcome, last, front) = listed(alloc, call)?;
        let wanted = if call + 2 > calls { 2 } else { 1 };
        assert!(rt; outcome == wanted && last == call && front, "a failed call");
    }
    Ok(())
}

// What becomes of both reports of the two disks in the other order, and whether nothing is written.
fn turned(alloc: Global) -> Result<(Result<(), ToolFault>, Result<(), ToolFault>, bool), Fail> {
    let mut disks = two_disks(alloc)?;
    disks.swap(0, 1);
    let mut out = MemSink::new(alloc, ROOM, Calls::none())?;
    let listed = dump_all(alloc, &mut disks, &mut out);
    let counted = check_all(alloc, &mut disks, &mut out);
    Ok((listed, counted, out.taken().is_empty()))
}

// The disk of worker 1 of 2 where that of worker 0 is asked for.
fn is_other(end: Result<(), ToolFault>) -> bool {
    matches!(
        end,
        Err(ToolFault::Store {
            worker: 0,
            fault: OpenFault::OtherStore {
                kept_worker: 1,
                kept_workers: 2,
                asked_worker: 0,
                asked_workers: 2,
            }
        })
    )
}

#[test]
fn disks_in_another_order_are_refused(rt: HostRuntime) -> Result<(), Fail> {
    let alloc = rt.alloc();
    let (listed, counted, nothing) = turned(alloc)?;
    assert!(rt; is_other(listed), "the items");
    assert!(rt; is_other(counted), "the counts");
    assert!(rt; nothing, "no line");
    Ok(())
}
