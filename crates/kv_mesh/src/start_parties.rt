ghost use Rattle.std.specs.Prelude.{◌≡◌, ◌+◌, ◌≤◌, All, vec_len, IfOk, OnErr};
ghost use Rattle.kv_groups.specs.Gathering.{greatest};
ghost use Rattle.kv_ring.specs.Ends.{IsFresh};
ghost use Rattle.kv_stamps.specs.Seats.{new_seat};
ghost use Rattle.kv_mesh.specs.Started.{AreNew, AreStores, IsReady, SessionsStart, WorkersStart};
ghost use Rattle.kv_mesh.specs.Started.{floors};

use crate::first_stamp::first_stamp;
use crate::parties::AllParties;
use crate::seats::Seats;
use crate::start_sessions::start_sessions;
use crate::start_workers::{give_workers_back, start_workers};
use crate::within::turn_round;
use kv_base::{NoMemory, Sink, Source};
use kv_disk::Disk;
use kv_index::Index;
use kv_recover::Opened;
use kv_ring::{SessionEnds, WorkerEnds, mesh};
use kv_session_party::SessionParty;
use kv_worker_party::WorkerParty;
use std::alloc::Global;

/// The parties of all stores, sources and sinks, in their order. Want of memory leaves these.
fn start_all<So: Source + Drop, Si: Sink + Drop, D: Disk + Drop, I: Index + Drop, F: Drop>(
    alloc: Global,
    stores: &mut Vec<Opened<D, I>>,
    ends: &mut Vec<(So, Si)>,
    session_rings: Vec<SessionEnds<F>>,
    worker_rings: Vec<WorkerEnds<F>>,
    seats: &mut Seats,
) -> Result<(Vec<WorkerParty<D, I, F>>, Vec<SessionParty<So, Si, F>>), NoMemory>
    requires start { 1 ≤ seats.old.start }
    requires ready { All (IsReady ⟦<D as Disk>⟧ ⟦<I as Index>⟧ seats.old.start) stores.old.items }
    requires fresh { All IsFresh session_rings.items × All IsFresh worker_rings.items }
    requires counts { (vec_len session_rings ≡ vec_len ends.old)
        × (vec_len worker_rings ≡ vec_len stores.old) }
    requires seats { vec_len stores.old + vec_len ends.old ≤ vec_len seats.old.free }
    ensures workers { IfOk result (λ all. WorkersStart stores.old.items worker_rings.items
        (new_seat seats.old.stamps seats.old.start seats.old.many) all.0.items) }
    ensures sessions { IfOk result (λ all. SessionsStart ends.old.items session_rings.items
        (new_seat seats.old.stamps seats.old.start seats.old.many) all.1.items) }
    ensures same { new_seat seats.new.stamps seats.new.start seats.new.many
        ≡ new_seat seats.old.stamps seats.old.start seats.old.many }
    ensures err { OnErr result ((stores.new.items ≡ stores.old.items)
        × (ends.new.items ≡ ends.old.items)) }
{
    let mut workers = start_workers(alloc, stores, worker_rings, seats)?;
    match start_sessions(alloc, ends, session_rings, seats) {
        Ok(sessions) => Ok((workers, sessions)),
        Err(why) => {
            turn_round(&mut workers);
            give_workers_back(workers, stores);
            Err(why)
        }
    }
}

/// The parties of all stores, sources and sinks, linked to one another. Want of memory leaves these.
pub(crate) fn start_parties<
    So: Source + Drop,
    Si: Sink + Drop,
    D: Disk + Drop,
    I: Index + Drop,
    F: Drop,
>(
    alloc: Global,
    stores: &mut Vec<Opened<D, I>>,
    ends: &mut Vec<(So, Si)>,
) -> Result<AllParties<So, Si, D, I, F>, NoMemory>
    requires workers { (1 ≤ vec_len stores.old) × (vec_len stores.old ≤ 16) }
    requires sessions { (1 ≤ vec_len ends.old) × (vec_len ends.old ≤ 8) }
    requires stores { AreStores ⟦<D as Disk>⟧ ⟦<I as Index>⟧ stores.old.items }
    ensures new { IfOk result (λ all. AreNew stores.old.items ends.old.items all.stamps all.start
        all.workers.items all.sessions.items) }
    ensures start { IfOk result (λ all. all.start ≡ greatest (floors stores.old.items) + 1) }
    ensures err { OnErr result ((stores.new.items ≡ stores.old.items)
        × (ends.new.items ≡ ends.old.items)) }
{
    let (session_rings, worker_rings) = mesh(alloc, ends.len() as u32, stores.len() as u32)?;
    let start = first_stamp(stores.as_slice());
    let mut seats = Seats::new(alloc, start, (stores.len() + ends.len()) as u32)?;
    let (workers, sessions) = start_all(
        alloc,
        stores,
        ends,
        session_rings,
        worker_rings,
        &mut seats,
    )?;
    let Seats {
        stamps,
        start: _,
        many: _,
        free: _,
    } = seats;
    Ok(AllParties {
        workers,
        sessions,
        stamps,
        start,
        kept: start,
    })
}
