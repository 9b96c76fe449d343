ghost use Rattle.std.specs.Prelude.{◌≡◌, length};
ghost use Rattle.std.specs.Arc.{arc_value};
ghost use Rattle.kv_mesh.specs.Drawing.{SessionsDraw, WorkersDraw};
ghost use Rattle.kv_mesh.specs.Mesh.{HasRoom};
ghost use Rattle.kv_mesh.specs.Ran.{RanOut};
ghost use Rattle.kv_mesh.specs.Running.{AreOver, AreRinged};

use crate::compare::compare_all;
use crate::end_laws::end_laws;
use crate::finished::Finished;
use crate::hand_out::hand_out;
use crate::mesh::Mesh;
use crate::parties::AllParties;
use kv_base::{ReservedList, Sink, Source};
use kv_disk::Disk;
use kv_index::Index;
use kv_session::SessionParts;
use kv_session_party::SessionParty;
use kv_stamps::Stamps;
use kv_threads::{run_all, turn_all};
use kv_worker::Worker;
use kv_worker_party::WorkerParty;
use std::alloc::AllocFailed;
use std::sync::{Arc, Wait};
use std::thread::Threads;

impl<
    So: Source + Drop + Send + 'static,
    Si: Sink + Drop + Send + 'static,
    D: Disk + Drop + Send + 'static,
    I: Index + Drop + Send + 'static,
    F: Drop + Send + 'static,
> Mesh<So, Si, D, I, F> {
    ghost use Rattle.std.specs.Prelude.{◌≡◌, ℕ, List, All, IsSome};
    ghost use Rattle.kv_mesh.specs.Linked.{first_sessions, first_workers, setting_for};
    ghost use Rattle.kv_mesh.specs.Shares.{HaveAllSeats};
    ghost use Rattle.kv_mesh.specs.Served.{Serves, ServesInAll};
    ghost use Rattle.kv_mesh.specs.Settled.{HaveBegun};
    ghost use Rattle.kv_mesh.specs.Standing.{streams_of};
    ghost use Rattle.kv_model.specs.History.{Write};
    ghost use Rattle.kv_parties.specs.Begun.{IsBefore};

    /// Makes the turns of each party on a thread of its own, until all have ended. Parties whose
    /// thread can't be started are turned by the caller's, in rotation. It waits for the sources and
    /// for threads, and refuses nothing.
    pub fn run<R: Threads + Wait + Copy + Send + 'static>(self, rt: &R) -> Finished<So, Si, D, I>
        ensures ended { All (λ parts. IsSome parts.ending) result.sessions.items }
        ensures served { (before : ℕ → List Write) → HaveBegun ⟦<D as Disk>⟧ ⟦<I as Index>⟧
            (first_workers self.all.workers.items) self.all.start before
            → IsBefore (setting_for self.all.workers.items self.all.sessions.items
            self.all.start) before
            → ∥ Serves ⟦<D as Disk>⟧ (streams_of ⟦<So as Source>⟧ ⟦<Si as Sink>⟧)
            (setting_for self.all.workers.items self.all.sessions.items self.all.start) before
            (first_workers self.all.workers.items) (first_sessions self.all.sessions.items)
            result.workers.items result.sessions.items result.unsure ∥₁ }

        // Where nothing else drew stamps, requests alone spend them.
        ensures in_all { (before : ℕ → List Write) → HaveBegun ⟦<D as Disk>⟧ ⟦<I as Index>⟧
            (first_workers self.all.workers.items) self.all.start before
            → IsBefore (setting_for self.all.workers.items self.all.sessions.items
            self.all.start) before
            → HaveAllSeats self.all.workers.items self.all.sessions.items
            → ∥ ServesInAll ⟦<D as Disk>⟧ (streams_of ⟦<So as Source>⟧ ⟦<Si as Sink>⟧)
            (setting_for self.all.workers.items self.all.sessions.items self.all.start) before
            (first_workers self.all.workers.items) (first_sessions self.all.sessions.items)
            result.workers.items result.sessions.items result.unsure ∥₁ }
    {
        // By these laws all that was answered is that of one map.
        end_laws::<F, D>();
        let Mesh {
            all,
            worker_room,
            session_room,
        } = self;
        run_parties(rt, all, worker_room, session_room)
    }
}

/// Makes the turns of all parties until they have ended, and hands out their parts.
fn run_parties<
    So: Source + Drop + Send + 'static,
    Si: Sink + Drop + Send + 'static,
    D: Disk + Drop + Send + 'static,
    I: Index + Drop + Send + 'static,
    F: Drop + Send + 'static,
    R: Threads + Wait + Copy + Send + 'static,
>(
    rt: &R,
    all: AllParties<So, Si, D, I, F>,
    worker_room: ReservedList<Worker<D, I>>,
    session_room: ReservedList<SessionParts<So, Si>>,
) -> Finished<So, Si, D, I>
    requires worker_room { HasRoom worker_room (length all.workers.items) }
    requires session_room { HasRoom session_room (length all.sessions.items) }
    ensures { RanOut all.workers.items all.sessions.items result.workers.items
        result.sessions.items result.unsure }
{
    let AllParties {
        workers,
        sessions,
        stamps,
        start: _,
        kept: _,
    } = all;
    let alloc = *workers.allocator();
    match Arc::new(alloc, stamps) {
        Ok(shared) => {
            let (workers, sessions) = run_all(rt, alloc, &shared, workers, sessions);
            end(&shared, workers, sessions, worker_room, session_room)
        }
        Err(AllocFailed { value, .. }) => {
            let (workers, sessions) = turn_all(rt, alloc, &value, workers, sessions);
            end(&value, workers, sessions, worker_room, session_room)
        }
    }
}

/// Brings the ends of parties that have ended together, and hands out their parts.
fn end<So: Source + Drop, Si: Sink + Drop, D: Disk + Drop, I: Index + Drop, F: Drop>(
    stamps: &Stamps,
    workers: Vec<WorkerParty<D, I, F>>,
    sessions: Vec<SessionParty<So, Si, F>>,
    worker_room: ReservedList<Worker<D, I>>,
    session_room: ReservedList<SessionParts<So, Si>>,
) -> Finished<So, Si, D, I>
    requires draw { WorkersDraw stamps.now workers.items × SessionsDraw stamps.now sessions.items }
    requires ringed { AreRinged workers.items sessions.items }
    requires over { AreOver sessions.items }
    requires worker_room { HasRoom worker_room (length workers.items) }
    requires session_room { HasRoom session_room (length sessions.items) }
    ensures { RanOut workers.items sessions.items result.workers.items result.sessions.items
        result.unsure }
{
    let mut near = sessions;
    let mut far = workers;
    compare_all(&mut far, &mut near);
    hand_out(stamps, far, near, worker_room, session_room)
}
