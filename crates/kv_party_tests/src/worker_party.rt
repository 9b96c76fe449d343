ghost use Rattle.std.specs.Prelude.{◌≡◌, ◌-◌, ◌^◌, ◌<◌, false, IfOk};
ghost use Rattle.kv_ring.specs.Ends.{IsFresh};

use crate::seat::counter;
use kv_base::{Bytes, Calls, Limits, Reply, Request, ReservedList};
use kv_disk::MemDisk;
use kv_index::FlatIndex;
use kv_recover::open_store;
use kv_ring::{Answer, Ask, SessionEnds, Task, Turn, WorkerEnds, mesh};
use kv_stamps::Stamps;
use kv_worker::Worker;
use kv_worker_party::{WorkerParts, WorkerParty};
use std::alloc::Global;
use std::marker::Model;
use std::process::Abort;
use std::test::Fail;

// What is done: a session sends a request of the key a, or a farewell; the party turns, raises the
// counter or looks at it; a session hears the next answer.
#[derive(Clone, Copy)]
enum Step {
    // The session, and what it had seen.
    Put(usize, u64),
    Get(usize, u64),
    Delete(usize, u64),
    Bye(usize),
    Turn,
    Raise(u64),
    Look,
    Hear(usize),
}

// What comes of it, with the stamp or the number.
#[derive(Clone, Copy, Debug, PartialEq, Eq)]
enum Outcome {
    Sent,
    Moved,
    Idle,
    Ended,
    Raised,
    Next(u64),
    Stored(u64),
    Found(u64),
    Missing(u64),
    Removed(u64),
    Absent(u64),
    Spent(u64),
    Nothing,
}

// The worker 0 of 1 as a party, and the ends of two sessions.
#[derive(Drop)]
struct Bench {
    party: WorkerParty<MemDisk, FlatIndex, u64>,
    stamps: Stamps,
    sessions: Vec<SessionEnds<u64>>,
}

impl Model for Bench {
    ghost use Rattle.std.specs.Prelude.{◌≡◌, ℕ};

    ghost Value = { ℕ };

    ghost view = { λ _. 0 };

    ghost invariant = { λ b. b.party.seat.counter ≡ b.stamps };
}

fn worker_over(alloc: Global) -> Result<Worker<MemDisk, FlatIndex>, Fail>
    ensures open { IfOk result (λ worker. worker.store.closed ≡ false) }
    ensures number { IfOk result (λ worker. worker.store.worker ≡ 0) }
    ensures workers { IfOk result (λ worker. worker.store.workers ≡ 1) }
    ensures highest { IfOk result (λ worker. worker.highest < 2 ^ 62 - 1) }
{
    let disk = MemDisk::new(alloc, 64, 512, Calls::none())?;
    let limits = Limits {
        slots: 64,
        cache: 4,
    };
    match open_store(alloc, disk, FlatIndex::new(alloc), 0, 1, limits) {
        Ok(opened) => match Worker::new(alloc, opened) {
            Ok(worker) => Ok(worker),
            Err(_) => Err(Fail::new("memory")),
        },
        Err(_) => Err(Fail::new("the disk is new")),
    }
}

// The ends of two sessions, and of one worker.
fn rings(alloc: Global) -> Result<(Vec<SessionEnds<u64>>, WorkerEnds<u64>), Fail>
    ensures { IfOk result (λ made. IsFresh made.1) }
{
    let (sessions, mut workers) = mesh(alloc, 2, 1)?;
    match workers.pop() {
        Some(ends) => Ok((sessions, ends)),
        None => Err(Fail::new("there is one worker")),
    }
}

fn open_bench(alloc: Global) -> Result<Bench, Fail> {
    let worker = worker_over(alloc)?;
    let (stamps, seat) = counter(alloc, worker.highest() + 1)?;
    let (sessions, ends) = rings(alloc)?;
    let parts = WorkerParts { worker, ends, seat };
    match WorkerParty::new(alloc, parts, 0, 1) {
        Ok(party) => Ok(Bench {
            party,
            stamps,
            sessions,
        }),
        Err(_) => Err(Fail::new("memory")),
    }
}

// A group of one request.
fn group(alloc: Global, seen: u64, request: Request) -> Result<Ask<u64>, Fail> {
    let mut tasks = ReservedList::with_room(alloc, 1)?;
    let task = Task {
        request,
        reply: None,
    };
    tasks.append(task).unwrap();
    Ok(Ask::Group { seen, tasks })
}

fn put(alloc: Global, seen: u64) -> Result<Ask<u64>, Fail> {
    let key = Bytes::copy(alloc, b"a")?;
    let value = Bytes::copy(alloc, b"1")?;
    group(alloc, seen, Request::Put { key, value })
}

fn get(alloc: Global, seen: u64) -> Result<Ask<u64>, Fail> {
    let key = Bytes::copy(alloc, b"a")?;
    group(alloc, seen, Request::Get { key })
}

fn delete(alloc: Global, seen: u64) -> Result<Ask<u64>, Fail> {
    let key = Bytes::copy(alloc, b"a")?;
    group(alloc, seen, Request::Delete { key })
}

// What the one reply of an answer tells.
fn told(tasks: &[Task]) -> Outcome {
    match tasks {
        [task] => match &task.reply {
            Some(Reply::Stored { stamp }) => Outcome::Stored(*stamp),
            Some(Reply::Found { stamp, .. }) => Outcome::Found(*stamp),
            Some(Reply::Missing { stamp }) => Outcome::Missing(*stamp),
            Some(Reply::Removed { stamp }) => Outcome::Removed(*stamp),
            Some(Reply::Absent { stamp }) => Outcome::Absent(*stamp),
            Some(Reply::StampsSpent { number }) => Outcome::Spent(*number),
            _ => Outcome::Nothing,
        },
        _ => Outcome::Nothing,
    }
}

impl Bench {
    fn send(&mut self, session: usize, ask: Ask<u64>) -> Outcome {
        if session >= self.sessions.len() {
            return Outcome::Nothing;
        }
        match self.sessions[session].push(0, ask) {
            Ok(()) => Outcome::Sent,
            Err(_) => Outcome::Nothing,
        }
    }

    fn hear(&mut self, session: usize) -> Outcome {
        if session >= self.sessions.len() {
            return Outcome::Nothing;
        }
        match self.sessions[session].pop(0) {
            Some(Answer::Group { tasks }) => told(tasks.as_slice()),
            _ => Outcome::Nothing,
        }
    }

    fn turn(&mut self) -> Outcome {
        match self.party.turn(&self.stamps) {
            Turn::Moved => Outcome::Moved,
            Turn::Idle => Outcome::Idle,
            Turn::Ended => Outcome::Ended,
        }
    }

    fn raise(&mut self, to: u64) -> Outcome {
        self.party.raise(&self.stamps, to.min(1 << 62));
        Outcome::Raised
    }

    fn look(&mut self) -> Outcome {
        Outcome::Next(self.party.look(&self.stamps))
    }

    fn go(&mut self, alloc: Global, step: Step) -> Result<Outcome, Fail> {
        match step {
            Step::Put(session, seen) => Ok(self.send(session, put(alloc, seen)?)),
            Step::Get(session, seen) => Ok(self.send(session, get(alloc, seen)?)),
            Step::Delete(session, seen) => Ok(self.send(session, delete(alloc, seen)?)),
            Step::Bye(session) => Ok(self.send(session, Ask::Bye)),
            Step::Turn => Ok(self.turn()),
            Step::Raise(to) => Ok(self.raise(to)),
            Step::Look => Ok(self.look()),
            Step::Hear(session) => Ok(self.hear(session)),
        }
    }

    // Whether the party has ended, and the worker's last stamp.
    fn end(self) -> (bool, u64) {
        let ended = self.party.ended();
        (ended, self.party.into_parts().worker.highest())
    }
}

// Makes the steps over a new disk, each with what is to come of it.
fn go_all(rt: &impl Abort, alloc: Global, rows: &[(Step, Outcome)]) -> Result<(bool, u64), Fail> {
    let mut bench = open_bench(alloc)?;
    for at in 0..rows.len() {
        let (step, wanted) = rows[at];
        let found = bench.go(alloc, step)?;
        assert_eq!(rt; found, wanted, "row {at}");
    }
    Ok(bench.end())
}

#[test]
fn the_groups_of_all_sessions_are_one_batch_in_their_order(rt: HostRuntime) -> Result<(), Fail> {
    let rows = [
        (Step::Turn, Outcome::Idle),
        (Step::Get(1, 0), Outcome::Sent),
        (Step::Put(0, 0), Outcome::Sent),
        (Step::Turn, Outcome::Moved),
        (Step::Hear(0), Outcome::Stored(1)),
        (Step::Hear(1), Outcome::Found(2)),
        (Step::Turn, Outcome::Idle),
        (Step::Bye(0), Outcome::Sent),
        (Step::Turn, Outcome::Moved),
        (Step::Bye(1), Outcome::Sent),
        (Step::Turn, Outcome::Ended),
    ];
    assert_eq!(rt; go_all(&rt, rt.alloc(), &rows)?, (true, 2));
    Ok(())
}

#[test]
fn an_answer_waits_for_a_place_in_its_ring(rt: HostRuntime) -> Result<(), Fail> {
    // Of three answers the third waits; while it does, a turn isn't idle.
    let rows = [
        (Step::Get(0, 0), Outcome::Sent),
        (Step::Turn, Outcome::Moved),
        (Step::Delete(0, 0), Outcome::Sent),
        (Step::Turn, Outcome::Moved),
        (Step::Put(0, 0), Outcome::Sent),
        (Step::Turn, Outcome::Moved),
        (Step::Turn, Outcome::Moved),
        (Step::Hear(0), Outcome::Missing(1)),
        (Step::Turn, Outcome::Moved),
        (Step::Turn, Outcome::Idle),
        (Step::Hear(0), Outcome::Absent(2)),
        (Step::Hear(0), Outcome::Stored(3)),
        (Step::Hear(0), Outcome::Nothing),
    ];
    assert_eq!(rt; go_all(&rt, rt.alloc(), &rows)?, (false, 3));
    Ok(())
}

#[test]
fn stamps_are_above_what_a_session_had_seen(rt: HostRuntime) -> Result<(), Fail> {
    // The greatest that was seen is 40: the batch begins at 41. Behind a raise to 2^62 none is left.
    let rows = [
        (Step::Put(0, 0), Outcome::Sent),
        (Step::Delete(1, 40), Outcome::Sent),
        (Step::Turn, Outcome::Moved),
        (Step::Hear(0), Outcome::Stored(41)),
        (Step::Hear(1), Outcome::Removed(42)),
        (Step::Look, Outcome::Next(43)),
        (Step::Raise(1 << 62), Outcome::Raised),
        (Step::Get(0, 41), Outcome::Sent),
        (Step::Turn, Outcome::Moved),
        (Step::Hear(0), Outcome::Spent(1 << 62)),
    ];
    assert_eq!(rt; go_all(&rt, rt.alloc(), &rows)?, (false, 42));
    Ok(())
}
