ghost use Rattle.std.specs.Prelude.{◌≡◌, ◌≤◌, ◌^◌};
ghost use Rattle.kv_mesh.specs.Moves.{MovesWorker};

use kv_disk::Disk;
use kv_index::Index;
use kv_stamps::Stamps;
use kv_worker_party::WorkerParty;

/// A turn of the worker, whose stamps are at least `kept` and below the number that is answered.
pub(crate) fn turn_above<D: Disk + Drop, I: Index + Drop, F: Drop>(
    party: &mut WorkerParty<D, I, F>,
    stamps: &Stamps,
    kept: u64,
) -> u64
    requires counter { party.old.seat.counter ≡ stamps.now }
    requires kept { kept ≤ 2 ^ 62 }
    ensures { MovesWorker kept result party.old party.new }
{
    party.raise(stamps, kept);
    party.turn(stamps);
    party.look(stamps)
}
