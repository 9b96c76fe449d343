ghost use Rattle.kv_parties.specs.Begun.{KeptItemsBegin};
ghost use Rattle.kv_parties.specs.Laws.{PromisesJoin, PromisesEnd, OwesNone, RecoveryJoins};
ghost use Rattle.kv_parties.specs.Laws.{NumbersAreFew, SpentHasCause, StandsOnce, WorkerBegins};
ghost use Rattle.kv_parties.specs.Laws.{SessionBegins};

use kv_disk::Disk;

/// The items that the disks of all workers keep are a history, each of a key that its worker owns.
pub fn kept_items_begin()
    ensures { KeptItemsBegin }
{}

/// A worker that has done nothing so far keeps its promise.
pub fn worker_begins<F, D: Disk>()
    ensures { WorkerBegins F D ⟦<D as Disk>⟧ }
{}

/// So does a session.
pub fn session_begins<F>()
    ensures { SessionBegins F }
{}

/// Where all parties keep their promises and no message was passed over, all answered pairs are
/// those of one plain map, each session's stamps are in its order, each refusal has its cause, and
/// each disk recovers a prefix of the writes.
pub fn promises_join<F, D: Disk>()
    ensures { PromisesJoin F D ⟦<D as Disk>⟧ }
{}

/// Where no session waits any more, no message was passed over.
pub fn promises_end<F, D: Disk>()
    ensures { PromisesEnd F D ⟦<D as Disk>⟧ }
{}

/// Where one more message of a session comes, its worker has no answer to it in hand, and takes the
/// message.
pub fn owes_none<F, D: Disk>()
    ensures { OwesNone F D ⟦<D as Disk>⟧ }
{}

/// An image that recovers a prefix of its worker's writes does so of the writes of all workers.
pub fn recovery_joins<F, D: Disk>()
    ensures { RecoveryJoins F D ⟦<D as Disk>⟧ }
{}

/// The workers draw no more stamps than there are answered requests.
pub fn numbers_are_few<F, D: Disk>()
    ensures { NumbersAreFew F D ⟦<D as Disk>⟧ }
{}

/// Where a worker meets no stamps left, the floor and the number of requests pass the last one.
pub fn spent_has_cause<F, D: Disk>()
    ensures { SpentHasCause F D ⟦<D as Disk>⟧ }
{}

/// What stands is one fact, so that it follows also from promises that tell only that there is a
/// history.
pub fn stands_once<F, D: Disk>()
    ensures { StandsOnce F D ⟦<D as Disk>⟧ }
{}
