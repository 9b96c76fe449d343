ghost use Rattle.std.specs.Prelude.{◌≡◌, IfOk};
ghost use Rattle.kv_ring.specs.Ends.{peers, IsFresh};

use crate::replies::{reply_to, same_bytes};
use crate::seat::counter;
use kv_base::{Bytes, Calls, Cause, MemSink, MemSource, NoMemory};
use kv_ring::{Answer, Ask, SessionEnds, Task, Tasks, Turn, WorkerEnds, mesh};
use kv_session_party::{PartyParts, SessionParty};
use kv_stamps::Stamps;
use std::alloc::Global;
use std::test::Fail;

// Put a 1, Get with an empty key, Get b, Delete c, Flush. Of two workers, 0 owns a and c, and 1
// owns b: the hash of one byte is odd exactly where the byte is even.
const GROUP: &[u8] =
    b"\x04\0\0\0\x01\x01a1\x01\0\0\0\x02\x02\0\0\0\x02b\x02\0\0\0\x03c\x01\0\0\0\x05";

// Stored a, BadKey, Missing b, Absent c: the stamp of each reply is the first byte of its key.
const REPLIES: &[u8] = b"\x09\0\0\0\x81a\0\0\0\0\0\0\0\x01\0\0\0\xE1\
\x09\0\0\0\x83b\0\0\0\0\0\0\0\x09\0\0\0\x85c\0\0\0\0\0\0\0";

// Put a 1, After 97, After 98: 97 is the byte a.
const TOLD: &[u8] =
    b"\x04\0\0\0\x01\x01a1\x09\0\0\0\x06a\0\0\0\0\0\0\0\x09\0\0\0\x06b\0\0\0\0\0\0\0";

// Stored 97, Noted, Ahead 98: the counter is raised to one more than the session has seen.
const TOLD_REPLIES: &[u8] =
    b"\x09\0\0\0\x81a\0\0\0\0\0\0\0\x01\0\0\0\x87\x09\0\0\0\xEAb\0\0\0\0\0\0\0";

// A session's party and the ends of two workers.
#[derive(Drop)]
struct Made {
    stamps: Stamps,
    party: SessionParty<MemSource, MemSink, u8>,
    workers: Vec<WorkerEnds<u8>>,
    ghost seat: { party.seat.counter ≡ stamps },
    ghost two: { peers party.links.ends ≡ 2 },
}

// The ends of a session and of two workers.
fn rings(alloc: Global) -> Result<(SessionEnds<u8>, Vec<WorkerEnds<u8>>), NoMemory>
    ensures { IfOk result (λ made. (peers made.0 ≡ 2) × IsFresh made.0) }
{
    let (mut sessions, workers) = mesh(alloc, 1, 2)?;
    let ends = sessions.pop().unwrap();
    Ok((ends, workers))
}

fn make(alloc: Global, input: &[u8]) -> Result<Made, Fail> {
    let source = MemSource::new(Bytes::copy(alloc, input)?, 4_096, Calls::none());
    let sink = MemSink::new(alloc, 999, Calls::none())?;
    let (ends, workers) = rings(alloc)?;
    let (stamps, seat) = counter(alloc, 1)?;
    match SessionParty::new(alloc, source, sink, ends, seat) {
        Ok(party) => Ok(Made {
            stamps,
            party,
            workers,
        }),
        Err(_) => Err(Fail::new("memory")),
    }
}

fn answer(task: &mut Task) {
    task.reply = Some(reply_to(&task.request));
}

fn answer_all(tasks: &mut Tasks) {
    for task in tasks.as_mut_slice() {
        answer(task);
    }
}

// Answers the session's next message. It tells how many tasks that had, 99 for a Bye, and `None`
// where none came.
fn serve(worker: &mut WorkerEnds<u8>) -> Option<usize> {
    if worker.peers() == 0 {
        return None;
    }
    match worker.pop(0) {
        Some(Ask::Group { mut tasks, .. }) => {
            answer_all(&mut tasks);
            let count = tasks.as_slice().len();
            let _ = worker.push(0, Answer::Group { tasks });
            Some(count)
        }
        Some(Ask::Bye) => Some(99),
        _ => None,
    }
}

// 1 where the party went on, 2 where it had nothing to do, 3 where it has ended; then whether it
// has ended, and whether each worker is asked.
fn turn(made: &mut Made) -> (u8, bool, [bool; 2]) {
    let turn = match made.party.turn(&made.stamps) {
        Turn::Moved => 1,
        Turn::Idle => 2,
        Turn::Ended => 3,
    };
    let asked = [made.party.is_asked(0), made.party.is_asked(1)];
    (turn, made.party.ended(), asked)
}

fn serve_at(made: &mut Made, worker: usize) -> Option<usize> {
    match made.workers.get_mut(worker) {
        Some(ends) => serve(ends),
        None => None,
    }
}

// Whether these replies went out, and the input ended.
fn ended_well(parts: &PartyParts<MemSource, MemSink, u8>, replies: &[u8]) -> bool {
    match &parts.ending {
        Some(ending) => matches!(ending.cause, Cause::End)
            && same_bytes(parts.sink.taken(), replies),
        None => false,
    }
}

#[test]
fn replies_come_in_the_order_of_the_requests(rt: HostRuntime) -> Result<(), Fail> {
    let mut made = make(rt.alloc(), GROUP)?;
    assert_eq!(rt;
        turn(&mut made),
        (1, false, [true, true]),
        "it reads and asks"
    );
    assert_eq!(rt; turn(&mut made), (2, false, [true, true]), "no answer came");
    assert_eq!(rt; serve_at(&mut made, 1), Some(1), "b");
    assert_eq!(rt;
        turn(&mut made),
        (1, false, [true, false]),
        "one answer came"
    );
    assert_eq!(rt; turn(&mut made), (2, false, [true, false]), "one is owed");
    assert_eq!(rt; serve_at(&mut made, 0), Some(2), "a and c");
    assert_eq!(rt; turn(&mut made), (1, false, [false, false]), "it replies");
    assert_eq!(rt;
        turn(&mut made),
        (3, true, [false, false]),
        "the input ended"
    );
    assert_eq!(rt;
        turn(&mut made),
        (3, true, [false, false]),
        "it does nothing more"
    );
    for worker in 0..2 {
        assert_eq!(rt; serve_at(&mut made, worker), Some(99), "Bye to {worker}");
        assert_eq!(rt; serve_at(&mut made, worker), None, "nothing behind it");
    }
    assert!(rt; ended_well(&made.party.into_parts(), REPLIES));
    Ok(())
}

#[test]
fn an_after_is_answered_behind_the_group_that_it_ends(rt: HostRuntime) -> Result<(), Fail> {
    let mut made = make(rt.alloc(), TOLD)?;
    assert_eq!(rt;
        turn(&mut made),
        (1, false, [true, false]),
        "a group of one"
    );
    assert_eq!(rt; serve_at(&mut made, 0), Some(1), "a");
    assert_eq!(rt;
        turn(&mut made),
        (1, false, [false, false]),
        "it replies to the group and to After 97"
    );
    assert_eq!(rt;
        turn(&mut made),
        (1, false, [false, false]),
        "After 98 is a group by itself"
    );
    assert_eq!(rt;
        turn(&mut made),
        (3, true, [false, false]),
        "the input ended"
    );
    let Made {
        stamps,
        mut party,
        workers: _,
    } = made;
    assert_eq!(rt; party.look(&stamps), 98, "it raised the counter");
    assert!(rt; ended_well(&party.into_parts(), TOLD_REPLIES));
    Ok(())
}

#[test]
fn a_look_sees_what_the_seat_raised(rt: HostRuntime) -> Result<(), Fail> {
    let Made {
        stamps,
        mut party,
        workers: _,
    } = make(rt.alloc(), GROUP)?;
    assert_eq!(rt; party.look(&stamps), 1);
    party.raise(&stamps, 9);
    assert_eq!(rt; party.look(&stamps), 9);
    Ok(())
}
