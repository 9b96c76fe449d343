use crate::row_run::{
    A_AT_1, FLUSH, GET_A, HEAD, PUT_A_1, PUT_B_2, Page, bytes_of, disk_with, put_page,
};
use crate::test_run::{Left, command_over, new_disk, report, run, serve};
use kv_base::{Calls, MemSink};
use kv_disk::MemDisk;
use kv_serve::{OpenFault, Refused};
use kv_site::MemSite;
use std::alloc::Global;
use std::sync::Wait;
use std::test::Fail;
use std::thread::Threads;

// A report that was made has status 0, and no session.
fn is_report(left: &Left, text: &str) -> bool {
    left.ended.status == 0
        && left.ended.refused.is_none()
        && left.ended.endings.as_slice().is_empty()
        && left.output.as_slice() == text.as_bytes()
}

// What is counted, and what is listed, of a disk.
fn is_reported<R: Threads + Wait + Copy + Send + 'static>(
    rt: R,
    alloc: Global,
    disk: MemDisk,
    counts: &str,
    items: &str,
) -> Result<bool, Fail> {
    let checked = report(rt, alloc, &["check", "D", "1"], disk, &[])?;
    if !is_report(&checked, counts) {
        return Ok(false);
    }
    let dumped = report(rt, alloc, &["dump", "D", "1"], checked.disk, &[])?;
    Ok(is_report(&dumped, items))
}

#[test]
fn a_new_disk_is_reported(rt: HostRuntime) -> Result<(), Fail> {
    let alloc = rt.alloc();
    assert!(rt; is_reported(rt, alloc, new_disk(alloc, &[])?, "disk 0 new\n", "")?);
    Ok(())
}

#[test]
fn what_was_put_is_reported(rt: HostRuntime) -> Result<(), Fail> {
    let alloc = rt.alloc();
    let left = serve(
        rt,
        alloc,
        new_disk(alloc, &[])?,
        &bytes_of(alloc, &[PUT_A_1, GET_A])?,
        &[],
    )?;
    let counts = "disk 0 class 1 end 1 kept 1 stale 0 foreign 0 tomb 0 never 0 torn 0 bad 0
disk 0 floor 1 keys 1
";
    assert!(rt; is_reported(rt, alloc, left.disk, counts, "1 61 31\n")?);
    Ok(())
}

// With two slots a class: a and b have a place, c has none; once a is deleted, c has its slot.
const ASKED: &[(&[u8], usize)] = &[
    PUT_A_1,
    PUT_B_2,
    (b"\x04\0\0\0\x01\x01c3", 0),
    FLUSH,
    (b"\x02\0\0\0\x03a", 0),
    FLUSH,
    (b"\x04\0\0\0\x01\x01c3", 0),
];

// Stored 1, Stored 2, Full of class 1, Removed 4, Stored 5.
const ANSWERED: &[(&[u8], usize)] = &[
    (b"\x09\0\0\0\x81\x01\0\0\0\0\0\0\0", 0),
    (b"\x09\0\0\0\x81\x02\0\0\0\0\0\0\0", 0),
    (b"\x02\0\0\0\xE3\x01", 0),
    (b"\x09\0\0\0\x84\x04\0\0\0\0\0\0\0", 0),
    (b"\x09\0\0\0\x81\x05\0\0\0\0\0\0\0", 0),
];

#[test]
fn a_full_class_is_reported(rt: HostRuntime) -> Result<(), Fail> {
    let alloc = rt.alloc();
    let words = ["serve", "--slots", "2", "D", "1", "-", "-"];
    let left = run(
        rt,
        alloc,
        &words,
        new_disk(alloc, &[])?,
        &bytes_of(alloc, ASKED)?,
        &[],
    )?;
    assert!(rt; left.output == bytes_of(alloc, ANSWERED)?, "the replies");
    let counts = "disk 0 class 1 end 2 kept 2 stale 0 foreign 0 tomb 0 never 0 torn 0 bad 0
disk 0 floor 5 keys 2
";
    assert!(rt; is_reported(rt, alloc, left.disk, counts, "2 62 32\n5 63 33\n")?);
    Ok(())
}

// Slot 0 has the item a at stamp 5; slot 1 has kind 7 and stamp 7; slot 2 has an item without a key;
// slot 3 an item b whose value has 48 bytes, which is one too many for its class.
fn damaged() -> [u8; 4096] {
    let mut page = [0; 4096];
    page[0] = 5;
    page[8] = 1;
    page[10] = 1;
    page[12] = 1;
    page[16] = b'a';
    page[17] = b'1';
    page[64] = 7;
    page[72] = 7;
    page[136] = 1;
    page[200] = 1;
    page[202] = 1;
    page[204] = 48;
    page[208] = b'b';
    page
}

fn disk_of(alloc: Global, page: &[u8; 4096]) -> Result<MemDisk, Fail> {
    let mut disk = disk_with(alloc, &[HEAD])?;
    put_page(&mut disk, 1, 0, page)?;
    Ok(disk)
}

#[test]
fn damaged_slots_are_counted(rt: HostRuntime) -> Result<(), Fail> {
    let alloc = rt.alloc();
    let counts = "disk 0 class 1 end 4 kept 1 stale 0 foreign 0 tomb 0 never 0 torn 0 bad 3
disk 0 floor 7 keys 1
";
    assert!(rt; is_reported(rt, alloc, disk_of(alloc, &damaged())?, counts, "5 61 31\n")?);
    Ok(())
}

const SPENT: OpenFault = OpenFault::StampsSpent { stamp: u64::MAX };

#[test]
fn a_disk_without_stamps_is_reported_and_not_served(rt: HostRuntime) -> Result<(), Fail> {
    let alloc = rt.alloc();
    let left = serve(rt, alloc, disk_of(alloc, &[255; 4096])?, PUT_A_1.0, &[])?;
    assert!(rt; left.ended.status == 3 && is_refusal(left.ended.refused, 0, SPENT));
    let counts = "disk 0 class 1 end 64 kept 0 stale 0 foreign 0 tomb 0 never 0 torn 0 bad 64
disk 0 floor 18446744073709551615 keys 0
";
    assert!(rt; is_reported(rt, alloc, left.disk, counts, "")?);
    Ok(())
}

fn is_refusal(refused: Option<Refused>, worker: u32, fault: OpenFault) -> bool {
    refused == Some(Refused::Disk { worker, fault })
}

// The head page of worker 0 of 4.
const HEAD_OF_4: Page = (0, 0, b"KVPAGED1\x01\0\0\0\x04\0");

const OTHER: OpenFault = OpenFault::OtherStore {
    kept_worker: 0,
    kept_workers: 4,
    asked_worker: 0,
    asked_workers: 1,
};

// Whether the command refuses the disk of another store, and writes nothing.
fn is_other<R: Threads + Wait + Copy + Send + 'static>(
    rt: R,
    alloc: Global,
    name: &str,
) -> Result<bool, Fail> {
    let left = report(
        rt,
        alloc,
        &[name, "D", "1"],
        disk_with(alloc, &[HEAD_OF_4])?,
        &[],
    )?;
    Ok(left.ended.status == 3 && is_refusal(left.ended.refused, 0, OTHER) && left.output.is_empty())
}

#[test]
fn another_store_is_refused_in_reports(rt: HostRuntime) -> Result<(), Fail> {
    assert!(rt; is_other(rt, rt.alloc(), "check")?, "check");
    assert!(rt; is_other(rt, rt.alloc(), "dump")?, "dump");
    Ok(())
}

// Whether the command has status 1 where the first call of the report's sink fails.
fn is_fault<R: Threads + Wait + Copy + Send + 'static>(
    rt: R,
    alloc: Global,
    name: &str,
) -> Result<bool, Fail> {
    let left = report(
        rt,
        alloc,
        &[name, "D", "1"],
        disk_with(alloc, &[HEAD, A_AT_1])?,
        &[1],
    )?;
    Ok(left.ended.status == 1 && left.ended.refused.is_none() && left.output.is_empty())
}

#[test]
fn a_sink_that_fails_is_a_fault_of_the_report(rt: HostRuntime) -> Result<(), Fail> {
    assert!(rt; is_fault(rt, rt.alloc(), "check")?, "check");
    assert!(rt; is_fault(rt, rt.alloc(), "dump")?, "dump");
    Ok(())
}

// What a report over two workers is refused where the take with this number fails, and how many
// disks and reports the site has then. No take has the number 0.
fn refused_at<R: Threads + Wait + Copy + Send + 'static>(
    rt: R,
    alloc: Global,
    take: u32,
) -> Result<(u8, Option<Refused>, u32), Fail> {
    let mut site = MemSite::new(alloc, Calls::of(alloc, &[take])?);
    site.put_disk("D", 0, new_disk(alloc, &[])?)?;
    site.put_disk("D", 1, new_disk(alloc, &[])?)?;
    site.put_report(MemSink::new(alloc, 100, Calls::none())?);
    let ended = command_over(rt, alloc, &["check", "D", "2"], &mut site)?;
    Ok((ended.status, ended.refused, held(&site)))
}

fn held(site: &MemSite) -> u32 {
    u32::from(site.disk("D", 0).is_some())
        + u32::from(site.disk("D", 1).is_some())
        + u32::from(site.report().is_some())
}

// Whether the take with this number is refused with status 3, and all is given back.
fn is_not_taken<R: Threads + Wait + Copy + Send + 'static>(
    rt: R,
    alloc: Global,
    take: u32,
    wanted: Refused,
) -> Result<bool, Fail> {
    let (status, refused, held) = refused_at(rt, alloc, take)?;
    Ok(status == 3 && refused == Some(wanted) && held == 3)
}

#[test]
fn what_the_site_refuses_is_told(rt: HostRuntime) -> Result<(), Fail> {
    let alloc = rt.alloc();
    assert!(rt;
        is_not_taken(rt, alloc, 1, Refused::TakeReport)?,
        "the report"
    );
    assert!(rt;
        is_not_taken(rt, alloc, 2, Refused::TakeDisk { worker: 0 })?,
        "the first disk"
    );
    assert!(rt;
        is_not_taken(rt, alloc, 3, Refused::TakeDisk { worker: 1 })?,
        "the second disk"
    );
    let (status, refused, held) = refused_at(rt, alloc, 4)?;
    assert!(rt; status == 0 && refused.is_none() && held == 3, "both");
    Ok(())
}
