use kv_base::{Bytes, Cause, Replies};
use kv_serve::{Ended, Ending, Endings, OpenFault, Refused, status_line};
use std::alloc::Global;
use std::test::Fail;

// So many sessions that ended well, the cause of one behind them, and what is said at status 1.
type Served = (u32, Option<Cause>, &'static str);

static SERVED: [Served; 6] = [
    (
        0,
        Some(Cause::Malformed { offset: 8 }),
        "kvell: session 0 ended: malformed at 8",
    ),
    (7, Some(Cause::Limit), "kvell: session 7 ended: limit"),
    (
        1,
        Some(Cause::SourceFault),
        "kvell: session 1 ended: source fault",
    ),
    (
        0,
        Some(Cause::SinkFault),
        "kvell: session 0 ended: sink fault",
    ),
    (2, None, "kvell: a write is unsure"),
    (0, None, "kvell: report fault"),
];

fn served() -> &'static [Served] {
    &SERVED
}

// What was refused, and what is said at status 3.
type Case = (Refused, &'static str);

static REFUSED: [Case; 7] = [
    (
        Refused::Disk {
            worker: 3,
            fault: OpenFault::NotAStore,
        },
        "kvell: disk 3: not a store",
    ),
    (
        Refused::Disk {
            worker: 0,
            fault: OpenFault::OtherStore {
                kept_worker: 0,
                kept_workers: 4,
                asked_worker: 0,
                asked_workers: 2,
            },
        },
        "kvell: disk 0: store of worker 0 of 4, asked for worker 0 of 2",
    ),
    (
        Refused::Disk {
            worker: 0,
            fault: OpenFault::StampsSpent { stamp: u64::MAX },
        },
        "kvell: disk 0: stamps spent at 18446744073709551615",
    ),
    (
        Refused::Disk {
            worker: 1,
            fault: OpenFault::DiskFault,
        },
        "kvell: disk 1: disk fault",
    ),
    (
        Refused::TakeDisk { worker: 2 },
        "kvell: disk 2: cannot be taken",
    ),
    (
        Refused::TakeSession { session: 0 },
        "kvell: session 0: cannot be taken",
    ),
    (Refused::TakeReport, "kvell: report: cannot be taken"),
];

fn refused() -> &'static [Case] {
    &REFUSED
}

fn ended_with(endings: Endings, status: u8, refused: Option<Refused>) -> Ended {
    Ended {
        status,
        endings,
        refused,
    }
}

// Sessions that ended well, and one with this cause behind them.
fn endings_with(alloc: Global, good: u32, cause: Option<Cause>) -> Result<Endings, Fail> {
    let mut endings = Endings::with_room(alloc, 10)?;
    for _ in 0..good {
        push(alloc, &mut endings, Cause::End)?;
    }
    if let Some(cause) = cause {
        push(alloc, &mut endings, cause)?;
    }
    Ok(endings)
}

fn push(alloc: Global, endings: &mut Endings, cause: Cause) -> Result<(), Fail> {
    let ending = Ending {
        taken: 0,
        cause,
        undelivered: Replies::with_room(alloc, 0)?,
    };
    match endings.append(ending) {
        Ok(()) => Ok(()),
        Err(_) => Err(Fail::new("room for an ending")),
    }
}

// What is said of how a command ended; nothing is the empty text.
fn is_said(alloc: Global, ended: &Ended, text: &str) -> Result<bool, Fail> {
    match line_of(alloc, ended)? {
        Some(line) => Ok(line.as_slice() == text.as_bytes()),
        None => Ok(text.is_empty()),
    }
}

// No clause says what it is: its callers compare texts.
fn line_of(alloc: Global, ended: &Ended) -> Result<Option<Bytes>, Fail> {
    Ok(status_line(alloc, ended)?)
}

#[test]
fn a_session_that_failed_is_told(rt: HostRuntime) -> Result<(), Fail> {
    for (good, cause, text) in served() {
        let endings = endings_with(rt.alloc(), *good, *cause)?;
        assert!(rt;
            is_said(rt.alloc(), &ended_with(endings, 1, None), text)?,
            "{text}"
        );
    }
    Ok(())
}

#[test]
fn what_was_refused_is_told(rt: HostRuntime) -> Result<(), Fail> {
    for (refused, text) in refused() {
        let endings = endings_with(rt.alloc(), 0, None)?;
        assert!(rt;
            is_said(rt.alloc(), &ended_with(endings, 3, Some(*refused)), text)?,
            "{text}"
        );
    }
    Ok(())
}

const USAGE: &str =
    "kvell: usage: serve DIR N IN OUT [IN OUT ..] / check DIR N / dump DIR N / try SEED COUNT N";

// The status alone tells this.
fn is_status(alloc: Global, status: u8, text: &str) -> Result<bool, Fail> {
    let endings = endings_with(alloc, 0, None)?;
    is_said(alloc, &ended_with(endings, status, None), text)
}

#[test]
fn other_statuses_are_told(rt: HostRuntime) -> Result<(), Fail> {
    let alloc = rt.alloc();
    assert!(rt; is_status(alloc, 0, "")?, "nothing at status 0");
    assert!(rt; is_status(alloc, 2, USAGE)?, "the usage at status 2");
    assert!(rt;
        is_status(alloc, 4, "kvell: out of memory")?,
        "memory at status 4"
    );
    Ok(())
}
