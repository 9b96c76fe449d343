use crate::row_run::{
    AFTER_2, AFTER_9, FLUSH, GET_A, GET_B, NOTED, PUT_A_1, PUT_B_2, Part, STORED_1, STORED_2,
    bytes_of,
};
use crate::test_run::{command_over, new_disk};
use kv_base::{Bytes, Calls, Cause, MemSink, MemSource};
use kv_serve::{Ended, OpenFault, Refused};
use kv_site::MemSite;
use std::alloc::Global;
use std::sync::Wait;
use std::test::Fail;
use std::thread::Threads;

// A site with new disks of so many workers in D, whose listed takes fail.
fn site_of(alloc: Global, workers: u32, failing: &[u32]) -> Result<MemSite, Fail> {
    let mut site = MemSite::new(alloc, Calls::of(alloc, failing)?);
    for worker in 0..workers {
        site.put_disk("D", worker, new_disk(alloc, &[])?)?;
    }
    Ok(site)
}

// Gives the site sessions with these inputs, 8 at most.
fn put_sessions(alloc: Global, site: &mut MemSite, inputs: &[&[Part]]) -> Result<(), Fail> {
    for session in 0..8 {
        if let Some(input) = inputs.get(session as usize) {
            let bytes = Bytes::copy(alloc, &bytes_of(alloc, input)?)?;
            let source = MemSource::new(bytes, 4_096, Calls::none());
            site.put_session(session, source, MemSink::new(alloc, 20_000, Calls::none())?)?;
        }
    }
    Ok(())
}

// What went out to the session.
fn output(site: &MemSite, session: u32) -> &[u8] {
    match site.session(session) {
        Some((_, sink)) => sink.taken(),
        None => &[],
    }
}

// Whether the site holds the disks and the ends of so many.
fn holds(site: &MemSite, workers: u32, sessions: u32) -> bool {
    (0..workers).all(|worker| site.disk("D", worker).is_some())
        && (0..sessions).all(|session| site.session(session).is_some())
}

// Whether all sessions ended with End, and the status is 0.
fn ended_well(ended: &Ended, sessions: usize) -> bool {
    ended.status == 0
        && ended.refused.is_none()
        && ended.endings.as_slice().len() == sessions
        && ended
            .endings
            .as_slice()
            .iter()
            .all(|ending| ending.cause == Cause::End)
}

const TWO: &[&str] = &["serve", "D", "2", "-", "a", "b", "-"];

// Whether one is Stored at stamp 1 and the other at stamp 2.
fn are_stored(one: &[u8], other: &[u8]) -> bool {
    (one == STORED_1.0 && other == STORED_2.0) || (one == STORED_2.0 && other == STORED_1.0)
}

// Whether it is a reply Found, at whatever stamp, with a value of this byte.
fn is_found(reply: &[u8], value: u8) -> bool {
    reply.len() == 14 && reply.starts_with(b"\x0A\0\0\0\x82") && reply.last() == Some(&value)
}

// Of two workers a is owned by worker 0 and b by worker 1.
#[test]
fn two_sessions_put_over_two_workers_and_get_in_the_next_run(rt: HostRuntime) -> Result<(), Fail> {
    let alloc = rt.alloc();
    let mut site = site_of(alloc, 2, &[])?;
    put_sessions(alloc, &mut site, &[&[PUT_A_1], &[PUT_B_2]])?;
    let ended = command_over(rt, alloc, TWO, &mut site)?;
    assert!(rt; ended_well(&ended, 2));
    assert!(rt; are_stored(output(&site, 0), output(&site, 1)));
    put_sessions(alloc, &mut site, &[&[GET_B], &[GET_A]])?;
    let ended = command_over(rt, alloc, TWO, &mut site)?;
    assert!(rt; ended_well(&ended, 2));
    assert!(rt; is_found(output(&site, 0), b'2') && is_found(output(&site, 1), b'1'));
    assert!(rt; holds(&site, 2, 2));
    Ok(())
}

// Whether the stamp or number of the reply is one of these.
fn is_at(reply: &[u8], least: u8, most: u8) -> bool {
    reply
        .get(5)
        .is_some_and(|number| least <= *number && *number <= most)
}

// Whether it is Noted, and then Found above stamp 2 with the value 2.
fn is_noted(output: &[u8]) -> bool {
    let found = output.get(5..).unwrap_or(&[]);
    output.starts_with(NOTED.0) && is_found(found, b'2') && is_at(found, 3, 4)
}

// Whether it is Ahead of 3 or 4, and then Found above stamp 2 with the value 1.
fn is_ahead(output: &[u8]) -> bool {
    let found = output.get(13..).unwrap_or(&[]);
    output.starts_with(b"\x09\0\0\0\xEA")
        && is_at(output, 3, 4)
        && is_found(found, b'1')
        && is_at(found, 3, 4)
}

// The puts have the stamps 1 and 2, so the counter of the next run begins at 3. The other session
// has drawn one stamp by then, or none.
#[test]
fn sessions_tell_what_they_saw_and_get_above_it(rt: HostRuntime) -> Result<(), Fail> {
    let alloc = rt.alloc();
    let mut site = site_of(alloc, 2, &[])?;
    put_sessions(alloc, &mut site, &[&[PUT_A_1], &[PUT_B_2]])?;
    let ended = command_over(rt, alloc, TWO, &mut site)?;
    assert!(rt; ended_well(&ended, 2));
    put_sessions(alloc, &mut site, &[&[AFTER_2, GET_B], &[AFTER_9, GET_A]])?;
    let ended = command_over(rt, alloc, TWO, &mut site)?;
    assert!(rt; ended_well(&ended, 2));
    assert!(rt; is_noted(output(&site, 0)));
    assert!(rt; is_ahead(output(&site, 1)));
    Ok(())
}

const SIXTEEN: &[&str] = &[
    "serve", "D", "16", "a", "b", "c", "d", "e", "f", "g", "h", "i", "j", "k", "l", "m", "n", "o",
    "p",
];

const PUT_AND_GET: &[Part] = &[PUT_A_1, FLUSH, GET_A];

// Whether the session got Stored, and then what it had put.
fn got_what_it_put(output: &[u8]) -> bool {
    output.len() == 27
        && output.starts_with(b"\x09\0\0\0\x81")
        && is_found(output.get(13..).unwrap_or(&[]), b'1')
}

#[test]
fn eight_sessions_are_served_by_sixteen_workers(rt: HostRuntime) -> Result<(), Fail> {
    let alloc = rt.alloc();
    let mut site = site_of(alloc, 16, &[])?;
    put_sessions(alloc, &mut site, &[PUT_AND_GET; 8])?;
    let ended = command_over(rt, alloc, SIXTEEN, &mut site)?;
    assert!(rt; ended_well(&ended, 8));
    for session in 0..8 {
        assert!(rt; got_what_it_put(output(&site, session)), "{session}");
    }
    assert!(rt; holds(&site, 16, 8));
    Ok(())
}

// A frame of a Put that isn't whole.
const CUT: Part = (b"\x04\0\0\0\x01\x01", 0);

#[test]
fn a_session_that_ends_early_leaves_the_others(rt: HostRuntime) -> Result<(), Fail> {
    let alloc = rt.alloc();
    let mut site = site_of(alloc, 2, &[])?;
    put_sessions(alloc, &mut site, &[&[CUT], &[PUT_A_1]])?;
    let ended = command_over(rt, alloc, TWO, &mut site)?;
    assert!(rt; ended.status == 1);
    assert!(rt;
        match ended.endings.as_slice() {
            [one, other] => {
                one.cause == Cause::Malformed { offset: 0 } && other.cause == Cause::End
            }
            _ => false,
        }
    );
    assert!(rt; output(&site, 1) == STORED_1.0);
    Ok(())
}

// A store of four workers is none of two.
#[test]
fn a_store_of_more_workers_is_refused(rt: HostRuntime) -> Result<(), Fail> {
    let alloc = rt.alloc();
    let mut site = site_of(alloc, 4, &[])?;
    put_sessions(alloc, &mut site, &[&[]])?;
    let ended = command_over(rt, alloc, &["serve", "D", "4", "-", "-"], &mut site)?;
    assert!(rt; ended_well(&ended, 1));
    put_sessions(alloc, &mut site, &[&[PUT_A_1]])?;
    let ended = command_over(rt, alloc, &["serve", "D", "2", "-", "-"], &mut site)?;
    let fault = OpenFault::OtherStore {
        kept_worker: 0,
        kept_workers: 4,
        asked_worker: 0,
        asked_workers: 2,
    };
    assert!(rt; ended.status == 3);
    assert!(rt; ended.refused == Some(Refused::Disk { worker: 0, fault }));
    assert!(rt; output(&site, 0).is_empty());
    assert!(rt; holds(&site, 4, 1));
    Ok(())
}

// What is said where the take of this number fails, of two disks and then two sessions.
static REFUSALS: [(u32, Refused); 4] = [
    (1, Refused::TakeDisk { worker: 0 }),
    (2, Refused::TakeDisk { worker: 1 }),
    (3, Refused::TakeSession { session: 0 }),
    (4, Refused::TakeSession { session: 1 }),
];

// Whether it is said, and the site holds all that it had.
fn is_not_taken<R: Threads + Wait + Copy + Send + 'static>(
    rt: R,
    alloc: Global,
    take: u32,
    wanted: Refused,
) -> Result<bool, Fail> {
    let mut site = site_of(alloc, 2, &[take])?;
    put_sessions(alloc, &mut site, &[&[PUT_A_1], &[PUT_B_2]])?;
    let ended = command_over(rt, alloc, TWO, &mut site)?;
    Ok(
        ended.status == 3
            && ended.refused == Some(wanted)
            && ended.endings.as_slice().is_empty()
            && holds(&site, 2, 2)
            && output(&site, 0).is_empty(),
    )
}

#[test]
fn what_the_site_refuses_leaves_all_with_it(rt: HostRuntime) -> Result<(), Fail> {
    for (take, wanted) in &REFUSALS {
        assert!(rt; is_not_taken(rt, rt.alloc(), *take, *wanted)?, "{take}");
    }
    Ok(())
}
