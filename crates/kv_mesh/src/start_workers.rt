ghost use Rattle.std.specs.Prelude.{◌≡◌, ◌+◌, ◌<◌, ◌≤◌, ◌∷◌, [], ◌++◌, All, map, reverse, vec_len};
ghost use Rattle.std.specs.Prelude.{vec_capacity, IfOk, IfErr, OnOk, OnErr, ℕ, false};
ghost use Rattle.kv_groups.specs.Taking.{connection_of, new_connection};
ghost use Rattle.kv_parties.specs.Stamps.{HasDrawnNone};
ghost use Rattle.kv_ring.specs.Ends.{IsFresh};
ghost use Rattle.kv_stamps.specs.Seats.{new_seat};
ghost use Rattle.kv_worker.specs.Worker.{IsOpened};
ghost use Rattle.kv_mesh.specs.Started.{IsNewWorker, IsReady, WorkersStart, opened_of};

use crate::seats::Seats;
use crate::within::{push_within, take_last, turn_round};
use kv_base::NoMemory;
use kv_disk::Disk;
use kv_index::Index;
use kv_recover::Opened;
use kv_ring::WorkerEnds;
use kv_stamps::StampSeat;
use kv_worker::Worker;
use kv_worker_party::{WorkerParts, WorkerParty};
use std::alloc::Global;

/// The store of a party.
fn store_of<D: Disk + Drop, I: Index + Drop, F: Drop>(party: WorkerParty<D, I, F>) -> Opened<D, I>
    ensures { result ≡ opened_of party.worker }
{
    let WorkerParts {
        worker,
        ends: _,
        seat: _,
    } = party.into_parts();
    worker.into_opened()
}

/// The party of a store, which has these ends and this seat. Want of memory hands the store back.
fn make_worker<D: Disk + Drop, I: Index + Drop, F: Drop>(
    alloc: Global,
    opened: Opened<D, I>,
    ends: WorkerEnds<F>,
    seat: StampSeat,
) -> Result<WorkerParty<D, I, F>, (Opened<D, I>, NoMemory)>
    requires opened { IsOpened ⟦<D as Disk>⟧ ⟦<I as Index>⟧ opened.slabs opened.floor }
    requires fresh { IsFresh ends }
    requires unused { HasDrawnNone seat.view }
    requires started { (1 ≤ seat.view.start) × (seat.view.start ≤ seat.view.seen) }
    requires ahead { opened.floor < seat.view.seen }
    ensures store { IfOk result (λ party. opened_of party.worker ≡ opened) }
    ensures parts { IfOk result (λ party. (party.ends ≡ ends) × (party.seat ≡ seat)
        × (party.first.value ≡ party.worker) × (party.lifted ≡ false)) }
    ensures none { IfOk result (λ party. (session : ℕ)
        → connection_of party.connections.items session ≡ new_connection) }
    ensures err { IfErr result (λ refused. refused.0 ≡ opened) }
{
    let number = opened.slabs.worker();
    let workers = opened.slabs.workers();
    let worker = match Worker::new(alloc, opened) {
        Ok(worker) => worker,
        Err(refused) => return Err(refused),
    };
    let parts = WorkerParts { worker, ends, seat };
    match WorkerParty::new(alloc, parts, number, workers) {
        Ok(party) => Ok(party),
        Err((parts, why)) => {
            let WorkerParts {
                worker,
                ends: _,
                seat: _,
            } = parts;
            Err((worker.into_opened(), why))
        }
    }
}

/// The party of the last store, which has the last ends and a free seat. Want of memory leaves the
/// stores.
fn start_worker<D: Disk + Drop, I: Index + Drop, F: Drop>(
    alloc: Global,
    stores: &mut Vec<Opened<D, I>>,
    ends: &mut Vec<WorkerEnds<F>>,
    seats: &mut Seats,
) -> Result<WorkerParty<D, I, F>, NoMemory>
    requires start { 1 ≤ seats.old.start }
    requires ready { All (IsReady ⟦<D as Disk>⟧ ⟦<I as Index>⟧ seats.old.start) stores.old.items }
    requires fresh { All IsFresh ends.old.items }
    requires some { (0 < vec_len stores.old) × (0 < vec_len ends.old)
        × (0 < vec_len seats.old.free) }
    ensures stores { IfOk result (λ party. stores.old.items
        ≡ stores.new.items ++ opened_of party.worker ∷ []) }
    ensures ends { IfOk result (λ party. ends.old.items
        ≡ ends.new.items ++ party.ends ∷ []) }
    ensures new { IfOk result (IsNewWorker (new_seat seats.old.stamps seats.old.start
        seats.old.many)) }
    ensures seats { vec_len seats.new.free + 1 ≡ vec_len seats.old.free }
    ensures same { new_seat seats.new.stamps seats.new.start seats.new.many
        ≡ new_seat seats.old.stamps seats.old.start seats.old.many }
    ensures capacity { vec_capacity stores.old ≤ vec_capacity stores.new }
    ensures err { OnErr result (stores.new.items ≡ stores.old.items) }
{
    let opened = take_last(stores);
    match make_worker(alloc, opened, take_last(ends), seats.take()) {
        Ok(party) => Ok(party),
        Err((opened, why)) => {
            push_within(stores, opened);
            Err(why)
        }
    }
}

/// Takes the parties apart, the last one first, and puts each store behind the others. Takes no
/// memory.
pub(crate) fn give_workers_back<D: Disk + Drop, I: Index + Drop, F: Drop>(
    mut parties: Vec<WorkerParty<D, I, F>>,
    stores: &mut Vec<Opened<D, I>>,
)
    requires { vec_len stores.old + vec_len parties ≤ vec_capacity stores.old }
    ensures { stores.new.items ≡ stores.old.items
        ++ map (λ party. opened_of party.worker) (reverse parties.items) }
{
    while let Some(party) = parties.pop() {
        push_within(stores, store_of(party));
    }
}

/// The parties of all stores, in their order. Want of memory leaves the stores.
pub(crate) fn start_workers<D: Disk + Drop, I: Index + Drop, F: Drop>(
    alloc: Global,
    stores: &mut Vec<Opened<D, I>>,
    mut ends: Vec<WorkerEnds<F>>,
    seats: &mut Seats,
) -> Result<Vec<WorkerParty<D, I, F>>, NoMemory>
    requires start { 1 ≤ seats.old.start }
    requires ready { All (IsReady ⟦<D as Disk>⟧ ⟦<I as Index>⟧ seats.old.start) stores.old.items }
    requires fresh { All IsFresh ends.items }
    requires counts { (vec_len ends ≡ vec_len stores.old)
        × (vec_len stores.old ≤ vec_len seats.old.free) }
    ensures ok { IfOk result (λ workers. WorkersStart stores.old.items ends.items
        (new_seat seats.old.stamps seats.old.start seats.old.many) workers.items) }
    ensures none { OnOk result (stores.new.items ≡ []) }
    ensures seats { OnOk result
        (vec_len seats.new.free + vec_len stores.old ≡ vec_len seats.old.free) }
    ensures same { new_seat seats.new.stamps seats.new.start seats.new.many
        ≡ new_seat seats.old.stamps seats.old.start seats.old.many }
    ensures capacity { OnOk result (vec_len stores.old ≤ vec_capacity stores.new) }
    ensures err { OnErr result (stores.new.items ≡ stores.old.items) }
{
    let mut parties = Vec::with_capacity(alloc, stores.len())?;
    while stores.len() > 0 {
        match start_worker(alloc, stores, &mut ends, seats) {
            Ok(party) => push_within(&mut parties, party),
            Err(why) => {
                give_workers_back(parties, stores);
                return Err(why);
            }
        }
    }
    turn_round(&mut parties);
    Ok(parties)
}
