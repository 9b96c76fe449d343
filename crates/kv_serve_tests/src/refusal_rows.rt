use crate::row_run::{
    A_AT_1, GET_A, PUT_A_1, Page, STORED_1, begin_so, bytes_of, disk_with, has_ended,
};
use crate::test_run::{new_disk, run, serve};
use kv_base::{Cause, Reply};
use kv_serve::{Ended, OpenFault, Refused};
use std::alloc::Global;
use std::sync::Wait;
use std::test::Fail;
use std::thread::Threads;

// A page of a disk, and why the disk is refused.
static REFUSALS: [(Page, OpenFault); 3] = [
    ((0, 0, b"\x58"), OpenFault::NotAStore),
    ((3, 0, b"\x58"), OpenFault::NotAStore),
    (
        (0, 0, b"KVPAGED1\x01\0\0\0\x04\0"),
        OpenFault::OtherStore {
            kept_worker: 0,
            kept_workers: 4,
            asked_worker: 0,
            asked_workers: 1,
        },
    ),
];

// Whether the disk with this page is refused for this, and stays.
fn is_refused<R: Threads + Wait + Copy + Send + 'static>(
    rt: R,
    alloc: Global,
    page: Page,
    fault: OpenFault,
) -> Result<bool, Fail> {
    let left = serve(rt, alloc, disk_with(alloc, &[page])?, PUT_A_1.0, &[])?;
    Ok(
        left.ended.status == 3
            && left.ended.refused == Some(Refused::Disk { worker: 0, fault })
            && left.output.is_empty()
            && begin_so(&left.disk, &[page]),
    )
}

#[test]
fn other_disks_are_refused_and_come_back(rt: HostRuntime) -> Result<(), Fail> {
    for (page, fault) in &REFUSALS {
        assert!(rt; is_refused(rt, rt.alloc(), *page, *fault)?, "{fault:?}");
    }
    Ok(())
}

static OTHER_WORDS: [&[&str]; 7] = [
    &["serve", "D", "17", "-", "-"],
    &["serve", "D", "1", "-"],
    &["serve", "D", "1", "-", "-", "-", "-"],
    &[],
    &["serve", "", "1", "-", "-"],
    &["serve", "-D", "1", "-", "-"],
    &["check", "D", "1", "-", "-"],
];

fn takes_nothing<R: Threads + Wait + Copy + Send + 'static>(
    rt: R,
    alloc: Global,
    words: &[&str],
) -> Result<bool, Fail> {
    let left = run(rt, alloc, words, new_disk(alloc, &[])?, PUT_A_1.0, &[])?;
    Ok(left.ended.status == 2 && left.output.is_empty() && left.disk.calls() == 0)
}

#[test]
fn other_words_take_nothing(rt: HostRuntime) -> Result<(), Fail> {
    for words in &OTHER_WORDS {
        assert!(rt; takes_nothing(rt, rt.alloc(), words)?, "{words:?}");
    }
    Ok(())
}

// Whether the first reply that was not delivered is Found 2 with the value 1.
fn is_found_2_1(ended: &Ended) -> bool {
    match ended.endings.as_slice() {
        [ending] => match ending.undelivered.as_slice() {
            [Reply::Found { stamp, value }] => *stamp == 2 && value.as_slice() == b"1".as_slice(),
            _ => false,
        },
        _ => false,
    }
}

#[test]
fn what_a_failed_sink_did_not_take_is_left(rt: HostRuntime) -> Result<(), Fail> {
    let alloc = rt.alloc();
    let input = bytes_of(alloc, &[PUT_A_1, GET_A])?;
    let left = serve(rt, alloc, new_disk(alloc, &[])?, &input, &[2])?;
    assert!(rt; has_ended(&left.ended, Cause::SinkFault, 14, 1));
    assert!(rt; is_found_2_1(&left.ended), "the reply to the get");
    assert!(rt; left.output.as_slice() == STORED_1.0);
    assert!(rt; begin_so(&left.disk, &[A_AT_1]));
    Ok(())
}
