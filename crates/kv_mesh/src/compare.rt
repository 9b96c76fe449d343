ghost use Rattle.std.specs.Prelude.{◌≡◌, ◌<◌, ℕ, length};
ghost use Rattle.kv_mesh.specs.Moves.{Looks};
ghost use Rattle.kv_mesh.specs.Running.{AreRinged};
ghost use Rattle.kv_mesh.specs.Settled.{AreInOrder};

use kv_base::{Sink, Source};
use kv_disk::Disk;
use kv_index::Index;
use kv_session_party::SessionParty;
use kv_worker_party::WorkerParty;

/// Brings the ends of all sessions and all workers together.
pub(crate) fn compare_all<
    So: Source + Drop,
    Si: Sink + Drop,
    D: Disk + Drop,
    I: Index + Drop,
    F: Drop,
>(workers: &mut Vec<WorkerParty<D, I, F>>, sessions: &mut Vec<SessionParty<So, Si, F>>)
    requires { AreRinged workers.old.items sessions.old.items }
    ensures order { (session worker : ℕ)
        → AreInOrder workers.new.items sessions.new.items session worker }
    ensures same { Looks workers.old.items sessions.old.items workers.new.items
        sessions.new.items }
{
    for session in 0..sessions.len() {
        compare_session(workers, sessions, session);
    }
}

/// Brings the ends of one session and of all workers together.
fn compare_session<So: Source + Drop, Si: Sink + Drop, D: Disk + Drop, I: Index + Drop, F: Drop>(
    workers: &mut Vec<WorkerParty<D, I, F>>,
    sessions: &mut Vec<SessionParty<So, Si, F>>,
    session: usize,
)
    requires place { session < length sessions.old.items }
    requires ringed { AreRinged workers.old.items sessions.old.items }
    ensures order { (worker : ℕ) → worker < length workers.old.items
        → AreInOrder workers.new.items sessions.new.items session worker }
    ensures same { Looks workers.old.items sessions.old.items workers.new.items
        sessions.new.items }
{
    for worker in 0..workers.len() {
        compare(workers, sessions, session, worker);
    }
}

/// Brings the ends of one session and one worker together.
fn compare<So: Source + Drop, Si: Sink + Drop, D: Disk + Drop, I: Index + Drop, F: Drop>(
    workers: &mut Vec<WorkerParty<D, I, F>>,
    sessions: &mut Vec<SessionParty<So, Si, F>>,
    session: usize,
    worker: usize,
)
    requires place { (session < length sessions.old.items)
        × (worker < length workers.old.items) }
    requires ringed { AreRinged workers.old.items sessions.old.items }
    ensures order { AreInOrder workers.new.items sessions.new.items session worker }
    ensures same { Looks workers.old.items sessions.old.items workers.new.items
        sessions.new.items }
{
    let near = session as u32;
    let far = worker as u32;
    sessions[session].left_between(near, &mut workers[worker], far);
}
