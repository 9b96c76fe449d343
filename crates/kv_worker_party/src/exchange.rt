ghost use Rattle.std.specs.Prelude.{◌≡◌, ◌<◌, ◌≤◌, [], length, vec_len, false, true};
ghost use Rattle.kv_model.specs.Head.{IsWorker};
ghost use Rattle.kv_ring.specs.Ends.{peers};
ghost use Rattle.kv_groups.specs.Gathering.{all_idle};
ghost use Rattle.kv_worker_party.specs.Turns.{Turns, StaysAhead};

use crate::serve::serve;
use kv_disk::Disk;
use kv_groups::{Connection, all_ended, deliver, gather, greatest_seen};
use kv_index::Index;
use kv_ring::{Turn, WorkerEnds};
use kv_stamps::{StampSeat, Stamps};
use kv_worker::{Batch, Worker};
use std::alloc::Global;

/// Takes the next message of each session, answers the groups as one batch of the worker with this
/// number among so many, and sends the answers.
pub fn exchange<D: Disk + Drop, I: Index + Drop, F: Drop>(
    alloc: Global,
    worker: &mut Worker<D, I>,
    numbers: (u32, u32),
    ends: &mut WorkerEnds<F>,
    connections: &mut Vec<Connection<F>>,
    batch: &mut Batch,
    stamps: &Stamps,
    seat: &mut StampSeat,
) -> Turn
    requires counter { seat.old.counter ≡ stamps.now }
    requires number { numbers.0 ≡ worker.old.store.worker }
    requires workers { numbers.1 ≡ worker.old.store.workers }
    requires one_of { IsWorker numbers.0 numbers.1 }
    requires size { vec_len connections.old ≡ peers ends.old }
    requires idle { all_idle connections.old.items ≡ true }
    requires empty { length batch.old.items ≡ 0 }
    requires room { 512 ≤ batch.old.spare }
    requires ahead { worker.old.store.closed ≡ false → worker.old.highest < seat.old.view.seen }
    ensures turned { Turns ⟦<D as Disk>⟧ ⟦<I as Index>⟧ worker.old worker.new ends.old ends.new
        connections.old.items connections.new.items seat.old.view seat.new.view result }
    ensures ahead { StaysAhead worker.old worker.new seat.old.view seat.new.view }
    ensures counter { seat.new.counter ≡ seat.old.counter }
    ensures size { vec_len connections.new ≡ peers ends.new }
    ensures idle { all_idle connections.new.items ≡ true }
    ensures empty { batch.new.items ≡ [] }
    ensures room { batch.new.spare ≡ batch.old.spare }
{
    let moved = gather(ends, connections, batch, numbers.0, numbers.1);
    let seen = greatest_seen(connections);
    serve(alloc, worker, stamps, seat, batch, seen);
    deliver(ends, connections, batch);
    Turn::of(all_ended(connections), moved)
}
