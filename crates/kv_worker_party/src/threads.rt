use crate::party::WorkerParty;
use kv_disk::Disk;
use kv_index::Index;
use kv_ring::Turn;
use kv_stamps::Stamps;
use kv_threads::Party;

/// A worker's party keeps its worker's number, its rings and its share of the counter.
impl<D: Disk + Drop, I: Index + Drop, F: Drop> Party for WorkerParty<D, I, F> {
    ghost use Rattle.kv_groups.specs.Delivering.{all_ended};
    ghost use Rattle.kv_worker_party.specs.Threads.{WorkerStays, WorkerStays-still, WorkerStays-on};

    ghost counter = { λ party. party.seat.counter };

    ghost ended = { λ party. all_ended party.connections.items };

    ghost Stays = { λ party later. WorkerStays party later };

    fn turn(&mut self, stamps: &Stamps) -> Turn {
        self.turn(stamps)
    }

    fn ended(&self) -> bool {
        self.ended()
    }

    ghost stays_still = { WorkerStays-still };

    ghost stays_on = { WorkerStays-on };
}
