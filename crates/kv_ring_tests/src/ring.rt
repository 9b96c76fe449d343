use kv_ring::{Answer, Ask, SessionEnds, Turn, WorkerEnds, WorkerSide, left_between, mesh};
use std::alloc::Global;
use std::process::Abort;

// Sends the worker a message with the number; false where it is handed back.
fn ask(ends: &mut SessionEnds<u8>, worker: u32, number: u64) -> bool {
    if worker >= ends.peers() {
        return false;
    }
    ends.push(worker, Ask::Start { stamp: number }).is_ok()
}

// Sends the session an answer with the number; false where it is handed back.
fn answer(ends: &mut WorkerEnds<u8>, session: u32, number: u64) -> bool {
    if session >= ends.peers() {
        return false;
    }
    ends.push(session, Answer::Ready { highest: number })
        .is_ok()
}

// The number of the next message of the session.
fn asked(ends: &mut WorkerEnds<u8>, session: u32) -> Option<u64> {
    if session >= ends.peers() {
        return None;
    }
    match ends.pop(session) {
        Some(Ask::Start { stamp }) => Some(stamp),
        _ => None,
    }
}

// The number of the next answer of the worker.
fn answered(ends: &mut SessionEnds<u8>, worker: u32) -> Option<u64> {
    if worker >= ends.peers() {
        return None;
    }
    match ends.pop(worker) {
        Some(Answer::Ready { highest }) => Some(highest),
        _ => None,
    }
}

fn small_mesh(rt: &impl Abort, alloc: Global) -> (Vec<SessionEnds<u8>>, Vec<WorkerEnds<u8>>) {
    mesh(alloc, 2, 3).expect(rt, "memory")
}

#[test]
fn messages_come_to_their_party_in_order(rt: HostRuntime) {
    let (mut sessions, mut workers) = small_mesh(&rt, rt.alloc());
    // Session, worker and number: each ring has its own messages.
    let rows = [
        (0, 0, 1),
        (1, 0, 2),
        (0, 2, 3),
        (1, 2, 4),
        (0, 0, 5),
        (1, 1, 6),
        (0, 2, 7),
    ];
    for (session, worker, number) in rows {
        let ends = sessions.get_mut(session).expect(&rt, "a session");
        assert!(rt; ask(ends, worker, number), "message {number}");
    }
    // Worker, session and the numbers that come, in order.
    let comes = [
        (0, 0, [Some(1), Some(5), None]),
        (0, 1, [Some(2), None, None]),
        (1, 0, [None, None, None]),
        (1, 1, [Some(6), None, None]),
        (2, 0, [Some(3), Some(7), None]),
        (2, 1, [Some(4), None, None]),
    ];
    for (worker, session, numbers) in comes {
        let ends = workers.get_mut(worker).expect(&rt, "a worker");
        for number in numbers {
            assert_eq!(rt;
                asked(ends, session),
                number,
                "session {session} at worker {worker}"
            );
        }
    }
}

#[test]
fn answers_come_back(rt: HostRuntime) {
    let (mut sessions, mut workers) = small_mesh(&rt, rt.alloc());
    let worker = workers.get_mut(1).expect(&rt, "a worker");
    assert!(rt; answer(worker, 1, 8));
    assert!(rt; answer(worker, 1, 9));
    let session = sessions.get_mut(1).expect(&rt, "a session");
    assert_eq!(rt; answered(session, 0), None, "of another worker");
    assert_eq!(rt; answered(session, 1), Some(8));
    assert_eq!(rt; answered(session, 1), Some(9));
    assert_eq!(rt; answered(session, 1), None);
}

#[test]
fn a_full_ring_hands_back(rt: HostRuntime) {
    let (mut sessions, mut workers) = small_mesh(&rt, rt.alloc());
    let session = sessions.get_mut(0).expect(&rt, "a session");
    let worker = workers.get_mut(1).expect(&rt, "a worker");
    assert!(rt; ask(session, 1, 1));
    assert!(rt; ask(session, 1, 2));
    assert!(rt; !ask(session, 1, 3), "two places");
    assert_eq!(rt; session.handed_back(), 1);
    assert!(rt; ask(session, 0, 4), "another ring");
    assert_eq!(rt; asked(worker, 0), Some(1));
    assert!(rt; ask(session, 1, 5), "a place became free");
    assert_eq!(rt; asked(worker, 0), Some(2));
    assert_eq!(rt; asked(worker, 0), Some(5), "3 was handed back");
    assert_eq!(rt; session.handed_back(), 1);
}

#[test]
fn what_is_left_is_counted(rt: HostRuntime) {
    let (mut sessions, mut workers) = mesh::<u8>(rt.alloc(), 1, 1).expect(&rt, "memory");
    let session = &mut sessions[0];
    let worker = &mut workers[0];
    assert_eq!(rt; left_between(session, 0, worker, 0), 0);
    let first = session.push(0, Ask::Drop).is_ok();
    let second = session.push(0, Ask::Bye).is_ok();
    let back = worker.push(0, Answer::Dropped).is_ok();
    assert!(rt; first && second && back);
    assert_eq!(rt;
        worker.left_beside(session, 0, 0),
        3,
        "two messages and an answer"
    );
    assert!(rt; matches!(worker.pop(0), Some(Ask::Drop)));
    assert_eq!(rt; left_between(session, 0, worker, 0), 2);
}

#[test]
fn an_ended_party_is_ended_whatever_moved(rt: HostRuntime) {
    assert!(rt; matches!(Turn::of(true, true), Turn::Ended));
    assert!(rt; matches!(Turn::of(true, false), Turn::Ended));
    assert!(rt; matches!(Turn::of(false, true), Turn::Moved));
    assert!(rt; matches!(Turn::of(false, false), Turn::Idle));
}
