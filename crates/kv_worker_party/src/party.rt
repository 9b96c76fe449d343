ghost use Rattle.std.specs.Prelude.{◌≡◌, ℕ, ◌-◌, ◌<◌, ◌≤◌, List, vec_len, length, true};
ghost use Rattle.std.specs.Prelude.{false, IfOk};
ghost use Rattle.kv_model.specs.Head.{IsWorker};
ghost use Rattle.kv_model.specs.History.{Write};
ghost use Rattle.kv_ring.specs.Ends.{peers, received_from};
ghost use Rattle.kv_groups.specs.Gathering.{all_idle};
ghost use Rattle.kv_worker_party.specs.Party.{BeginsWith, Holds};
ghost use Rattle.kv_groups.specs.Taking.{connection_of, new_connection, has_bye};

use crate::exchange::exchange;
use crate::laws::party_laws;
use kv_base::NoMemory;
use kv_disk::Disk;
use kv_groups::{Connection, all_ended};
use kv_index::Index;
use kv_ring::{SessionEnds, Turn, WorkerEnds, WorkerSide, left_between};
use kv_stamps::{StampSeat, Stamps};
use kv_worker::{Batch, Worker};
use std::alloc::Global;
use std::snapshot::Snapshot;

/// The most tasks of a batch: 64 of each of 8 sessions.
const MOST_TASKS: usize = 512;

/// The parts of a worker's party.
#[derive(Drop)]
pub struct WorkerParts<D: Disk, I: Index, F> {
    /// The worker.
    pub worker: Worker<D, I>,
    /// Its ends of the rings, to and from each session.
    pub ends: WorkerEnds<F>,
    /// Its seat of the counter.
    pub seat: StampSeat,
}

/// A worker that answers the groups of its sessions. Its promise stands in its type: where the
/// worker began with some writes, what it received and sent so far, its stamps, its map and what a
/// crash may leave of its disk are those of one plain map that began with these.
#[derive(Drop)]
pub struct WorkerParty<D: Disk, I: Index, F> {
    worker: Worker<D, I>,
    number: u32,
    workers: u32,
    ends: WorkerEnds<F>,
    connections: Vec<Connection<F>>,
    batch: Batch,
    seat: StampSeat,
    first: Snapshot<Worker<D, I>>,
    lifted: bool,
    alloc: Global,
    ghost number_is: { number ≡ worker.store.worker },
    ghost workers_is: { workers ≡ worker.store.workers },
    ghost one_of: { IsWorker number workers },
    pub ghost size: { vec_len connections ≡ peers ends },
    ghost idle: { all_idle connections.items ≡ true },
    ghost empty: { length batch.items ≡ 0 },
    ghost room: { 512 ≤ batch.spare },
    pub ghost started: { (1 ≤ seat.view.start) × (seat.view.start ≤ seat.view.seen) },
    ghost ahead: { worker.store.closed ≡ false → worker.highest < seat.view.seen },
    pub ghost gone: { (session : ℕ) → session < peers ends
        → (connection_of connections.items session).gone
        ≡ has_bye (received_from ends session) },
    pub ghost promise: { (before : List Write)
        → BeginsWith D.Disk I.Index first.value before (seat.view.start - 1)
        → ∥ Holds D.Disk I.Index seat.view.start (peers ends) first.value worker ends
        connections.items seat.view lifted before ∥₁ },
}

// As many connections, with nothing in hand.
fn new_connections<F: Drop>(alloc: Global, sessions: u32) -> Result<Vec<Connection<F>>, NoMemory>
    ensures size { IfOk result (λ connections. vec_len connections ≡ sessions) }
    ensures new { IfOk result (λ connections. (session : ℕ)
        → connection_of connections.items session ≡ new_connection) }
{
    let mut connections = Vec::with_capacity(alloc, sessions as usize)?;
    for _made in 0..sessions {
        connections.push(Connection::new())?;
    }
    Ok(connections)
}

impl<D: Disk + Drop, I: Index + Drop, F: Drop> WorkerParty<D, I, F> {
    ghost use Rattle.std.specs.Prelude.{◌≡◌, ◌≢◌, ℕ, ◌+◌, ◌-◌, ◌<◌, ◌≤◌, ◌^◌, [], min, IfOk, IfErr};
    ghost use Rattle.std.specs.Prelude.{true, false, length, vec_len, List};
    ghost use Rattle.kv_model.specs.Head.{IsWorker};
    ghost use Rattle.kv_model.specs.History.{Write};
    ghost use Rattle.kv_parties.specs.Stamps.{HasDrawnNone};
    ghost use Rattle.kv_ring.specs.Ends.{peers, IsFresh};
    ghost use Rattle.kv_stamps.specs.Steps.{Raises, Looks};
    ghost use Rattle.kv_worker_party.specs.Party.{BeginsWith, AlwaysGoesOn};
    ghost use Rattle.kv_groups.specs.Delivering.{all_ended};
    ghost use Rattle.kv_groups.specs.Taking.{connection_of, new_connection};
    ghost use Rattle.kv_worker_party.specs.Turns.{Turns, StaysAhead};

    /// Joins the parts, and takes the room of a batch; want of memory hands them back. The worker
    /// is open and has this number among so many, nothing was sent or received through the ends, and
    /// the seat has drawn nothing and has seen a number above every stamp so far.
    pub fn new(
        alloc: Global,
        parts: WorkerParts<D, I, F>,
        number: u32,
        workers: u32,
    ) -> Result<WorkerParty<D, I, F>, (WorkerParts<D, I, F>, NoMemory)>
        requires opened { parts.worker.store.closed ≡ false }
        requires number { number ≡ parts.worker.store.worker }
        requires workers { workers ≡ parts.worker.store.workers }
        requires one_of { IsWorker number workers }
        requires ends { IsFresh parts.ends }
        requires unused { HasDrawnNone parts.seat.view }
        requires started { (1 ≤ parts.seat.view.start)
            × (parts.seat.view.start ≤ parts.seat.view.seen) }
        requires ahead { parts.worker.highest < parts.seat.view.seen }
        ensures ok { IfOk result (λ party. (party.worker ≡ parts.worker)
            × (party.ends ≡ parts.ends) × (party.seat ≡ parts.seat)
            × (party.first.value ≡ parts.worker) × (party.lifted ≡ false)) }
        ensures none { IfOk result (λ party. (session : ℕ)
            → connection_of party.connections.items session ≡ new_connection) }
        ensures err { IfErr result (λ refused. refused.0 ≡ parts) }
    {
        let batch = match Batch::with_room(alloc, MOST_TASKS) {
            Ok(batch) => batch,
            Err(why) => return Err((parts, why)),
        };
        let connections = match new_connections(alloc, parts.ends.peers()) {
            Ok(connections) => connections,
            Err(why) => return Err((parts, why)),
        };
        let first = Snapshot::of(&parts.worker);
        let WorkerParts { worker, ends, seat } = parts;
        Ok(WorkerParty {
            worker,
            number,
            workers,
            ends,
            connections,
            batch,
            seat,
            first,
            lifted: false,
            alloc,
        })
    }

    /// Sends the answers that a ring had no place for, takes the next message of each session,
    /// answers the requests of all groups as one batch, with stamps of one range above all that
    /// the sessions had seen, and sends the answers. A closed worker draws no stamps. So far it
    /// passes over the messages of scans. Takes memory for the step over the batch alone.
    pub fn turn(&mut self, stamps: &Stamps) -> Turn
        requires { self.old.seat.counter ≡ stamps.now }
        ensures turned { Turns ⟦<D as Disk>⟧ ⟦<I as Index>⟧ self.old.worker self.new.worker
            self.old.ends self.new.ends self.old.connections.items self.new.connections.items
            self.old.seat.view self.new.seat.view result }
        ensures goes_on { (before : List Write) → BeginsWith ⟦<D as Disk>⟧ ⟦<I as Index>⟧
            self.old.first.value before (self.old.seat.view.start - 1)
            → AlwaysGoesOn ⟦<D as Disk>⟧ ⟦<I as Index>⟧ self.old.seat.view.start
            (peers self.old.ends) self.old.first.value self.old.worker self.new.worker
            self.old.ends self.new.ends self.old.connections.items self.new.connections.items
            self.old.seat.view self.new.seat.view self.old.lifted self.new.lifted before }
        ensures ahead { StaysAhead self.old.worker self.new.worker self.old.seat.view
            self.new.seat.view }
        ensures counter { self.new.seat.counter ≡ self.old.seat.counter }
        ensures first { (self.new.first.value ≡ self.old.first.value)
            × (self.new.lifted ≡ self.old.lifted) }
    {
        // By these laws the promise goes on.
        party_laws();
        exchange(
            self.alloc,
            &mut self.worker,
            (self.number, self.workers),
            &mut self.ends,
            &mut self.connections,
            &mut self.batch,
            stamps,
            &mut self.seat,
        )
    }

    /// Raises the counter to `to`, at most 2^62, with this party's seat; from then on the promise
    /// doesn't tell of each gap of the seat for which group it was left. Takes no memory.
    pub fn raise(&mut self, stamps: &Stamps, to: u64)
        requires counter { self.old.seat.counter ≡ stamps.now }
        requires to { to ≤ 2 ^ 62 }
        ensures counter { self.new.seat.counter ≡ self.old.seat.counter }
        ensures view { (next : ℕ) × Raises to self.old.seat.view next self.new.seat.view }
        ensures kept { (self.new.worker ≡ self.old.worker) × (self.new.ends ≡ self.old.ends)
            × (self.new.connections ≡ self.old.connections)
            × (self.new.first.value ≡ self.old.first.value) }
        ensures lifted { self.new.lifted ≡ true }
        ensures goes_on { (before : List Write) → AlwaysGoesOn ⟦<D as Disk>⟧ ⟦<I as Index>⟧
            self.old.seat.view.start (peers self.old.ends) self.old.first.value self.old.worker
            self.new.worker self.old.ends self.new.ends self.old.connections.items
            self.new.connections.items self.old.seat.view self.new.seat.view self.old.lifted
            self.new.lifted before }
    {
        self.lifted = true;
        stamps.raise(&mut self.seat, to);
    }

    /// The counter's next number, or 2^62 where it is above, seen with this party's seat. Takes no
    /// memory.
    pub fn look(&mut self, stamps: &Stamps) -> u64
        requires { self.old.seat.counter ≡ stamps.now }
        ensures counter { self.new.seat.counter ≡ self.old.seat.counter }
        ensures value { (next : ℕ) × (result ≡ min next (2 ^ 62))
            × Looks self.old.seat.view next self.new.seat.view }
        ensures kept { (self.new.worker ≡ self.old.worker) × (self.new.ends ≡ self.old.ends)
            × (self.new.connections ≡ self.old.connections)
            × (self.new.first.value ≡ self.old.first.value)
            × (self.new.lifted ≡ self.old.lifted) }
        ensures goes_on { (before : List Write) → AlwaysGoesOn ⟦<D as Disk>⟧ ⟦<I as Index>⟧
            self.old.seat.view.start (peers self.old.ends) self.old.first.value self.old.worker
            self.new.worker self.old.ends self.new.ends self.old.connections.items
            self.new.connections.items self.old.seat.view self.new.seat.view self.old.lifted
            self.new.lifted before }
    {
        stamps.look(&mut self.seat)
    }

    /// Whether every session has said farewell and no answer waits, as a turn tells by `Ended`.
    pub fn ended(&self) -> bool
        ensures { result ≡ all_ended self.now.connections.items }
    {
        all_ended(&self.connections)
    }

    /// The parts. Answers that wait to be sent are dropped.
    pub fn into_parts(self) -> WorkerParts<D, I, F>
        ensures { (result.worker ≡ self.worker) × (result.ends ≡ self.ends)
            × (result.seat ≡ self.seat) }
    {
        let WorkerParty {
            worker,
            number: _,
            workers: _,
            ends,
            connections: _,
            batch: _,
            seat,
            first: _,
            lifted: _,
            alloc: _,
        } = self;
        WorkerParts { worker, ends, seat }
    }
}

/// A look leaves all of the party but what its ends know of.
impl<D: Disk + Drop, I: Index + Drop, F: Drop> WorkerSide<F> for WorkerParty<D, I, F> {
    ghost use Rattle.std.specs.Prelude.{◌≡◌};

    ghost ends = { λ party. party.ends };

    ghost Stays = { λ old new. (new.worker ≡ old.worker) × (new.seat ≡ old.seat)
        × (new.connections ≡ old.connections) × (new.first.value ≡ old.first.value)
        × (new.lifted ≡ old.lifted) };

    fn left_beside(&mut self, session_ends: &mut SessionEnds<F>, session: u32, worker: u32) -> u32 {
        left_between(session_ends, session, &mut self.ends, worker)
    }
}
