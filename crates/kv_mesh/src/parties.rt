ghost use Rattle.atomic_table.specs.Seated.{table_id_coded};
ghost use Rattle.std.proofs.Props.{props};
ghost use Rattle.kv_mesh.specs.Linked.{AreLinked};

use crate::compare::compare_all;
use crate::laws::mesh_laws;
use crate::worker_turn::turn_above;
use kv_base::{Sink, Source};
use kv_disk::Disk;
use kv_index::Index;
use kv_session_party::SessionParty;
use kv_stamps::Stamps;
use kv_worker_party::WorkerParty;

/// All workers and all sessions, linked by their rings and one counter. `start` is the first stamp,
/// and all ranges so far lie below `kept`.
#[derive(Drop)]
pub(crate) struct AllParties<So: Source, Si: Sink, D: Disk, I: Index, F> {
    pub(crate) workers: Vec<WorkerParty<D, I, F>>,
    pub(crate) sessions: Vec<SessionParty<So, Si, F>>,
    pub(crate) stamps: Stamps,
    pub(crate) start: u64,
    pub(crate) kept: u64,
    pub ghost linked: { AreLinked workers.items sessions.items stamps start kept } by { Prim.hlevel (props, table_id_coded) },
}

impl<So: Source + Drop, Si: Sink + Drop, D: Disk + Drop, I: Index + Drop, F: Drop> AllParties<
    So,
    Si,
    D,
    I,
    F,
> {
    ghost use Rattle.std.specs.Prelude.{◌≡◌, ◌+◌, ◌<◌, ℕ, length};
    ghost use Rattle.kv_mesh.specs.Moves.{Become, Looks, MovesAt, MovesSessionAt, TurnsParty};
    ghost use Rattle.kv_mesh.specs.Settled.{AreInOrder, AreSettled};

    /// A turn of the party with this number: workers come first, sessions follow, and other numbers
    /// make no turn.
    pub(crate) fn turn(&mut self, number: usize)
        requires { ∥ AreSettled self.old.workers.items self.old.sessions.items self.old.start ∥₁ }
        ensures settled { ∥ AreSettled self.new.workers.items self.new.sessions.items
            self.new.start ∥₁ }
        ensures became { Become self.old.workers.items self.old.sessions.items self.old.start
            self.new.workers.items self.new.sessions.items self.new.start }
        ensures turned { TurnsParty number self.old.workers.items self.old.sessions.items
            self.new.workers.items self.new.sessions.items }
    {
        let workers = self.workers.len();
        if number < workers {
            return self.turn_worker(number);
        }
        let session = number - workers;
        if session < self.sessions.len() {
            return self.turn_session(session);
        }
    }

    /// A turn of a worker.
    fn turn_worker(&mut self, worker: usize)
        requires place { worker < length self.old.workers.items }
        requires settled { ∥ AreSettled self.old.workers.items self.old.sessions.items
            self.old.start ∥₁ }
        ensures settled { ∥ AreSettled self.new.workers.items self.new.sessions.items
            self.new.start ∥₁ }
        ensures became { Become self.old.workers.items self.old.sessions.items self.old.start
            self.new.workers.items self.new.sessions.items self.new.start }
        ensures turned { TurnsParty worker self.old.workers.items self.old.sessions.items
            self.new.workers.items self.new.sessions.items }
    {
        // By these laws the worker takes each message that came.
        mesh_laws::<F, D>();
        self.move_worker(worker);
        self.compare_all();
    }

    /// A turn of a session.
    fn turn_session(&mut self, session: usize)
        requires place { session < length self.old.sessions.items }
        requires settled { ∥ AreSettled self.old.workers.items self.old.sessions.items
            self.old.start ∥₁ }
        ensures settled { ∥ AreSettled self.new.workers.items self.new.sessions.items
            self.new.start ∥₁ }
        ensures became { Become self.old.workers.items self.old.sessions.items self.old.start
            self.new.workers.items self.new.sessions.items self.new.start }
        ensures turned { (number : ℕ) → number ≡ length self.old.workers.items + session
            → TurnsParty number self.old.workers.items self.old.sessions.items
            self.new.workers.items self.new.sessions.items }
    {
        self.move_session(session);
        self.compare_all();
    }

    /// A worker's turn, with stamps above all ranges so far.
    fn move_worker(&mut self, worker: usize)
        requires { worker < length self.old.workers.items }
        ensures moved { MovesAt worker self.old.kept self.new.kept self.old.workers.items
            self.new.workers.items }
        ensures others { (self.new.sessions.items ≡ self.old.sessions.items)
            × (self.new.start ≡ self.old.start) }
    {
        self.kept = turn_above(&mut self.workers[worker], &self.stamps, self.kept);
    }

    /// A session's turn.
    fn move_session(&mut self, session: usize)
        requires { session < length self.old.sessions.items }
        ensures moved { MovesSessionAt session self.old.sessions.items self.new.sessions.items }
        ensures others { (self.new.workers.items ≡ self.old.workers.items)
            × (self.new.start ≡ self.old.start) }
    {
        self.sessions[session].turn(&self.stamps);
    }

    /// Brings all ends together.
    fn compare_all(&mut self)
        ensures order { (session worker : ℕ)
            → AreInOrder self.new.workers.items self.new.sessions.items session worker }
        ensures same { Looks self.old.workers.items self.old.sessions.items
            self.new.workers.items self.new.sessions.items }
        ensures start { self.new.start ≡ self.old.start }
    {
        compare_all(&mut self.workers, &mut self.sessions);
    }
}
