ghost use Rattle.std.specs.Prelude.{◌≡◌, ◌≢◌, ℕ, ◌+◌, ◌*◌, ◌<◌, ◌≤◌, ◌++◌, ◌||◌, List, None, length, map, vec_len};
ghost use Rattle.kv_model.specs.Head.{IsWorker};
ghost use Rattle.kv_ring.specs.Ends.{peers, SameRings};
ghost use Rattle.kv_groups.specs.declared.connection.Connection.{Connection as ConnectionOf};
ghost use Rattle.kv_groups.specs.Batched.{of_session, in_hand};
ghost use Rattle.kv_groups.specs.Traffic.{Receives, traffic_with};
ghost use Rattle.kv_groups.specs.Gathering.{Intake, Gathers, GathersAll, all_tasks, AreIdle, has_moved, seen_in, greatest};

use crate::connection::Connection;
use crate::hand_in::{Batch, hand_in};
use crate::send::send_waiting;
use kv_ring::WorkerEnds;

// Whether one of the two is so.
fn either(first: bool, second: bool) -> bool
    ensures { result ≡ (first || second) }
{
    first || second
}

/// Takes the session's next message, if one is known of. The answer is whether one was.
fn receive<F: Drop>(
    ends: &mut WorkerEnds<F>,
    connection: &mut Connection<F>,
    session: u32,
    worker: u32,
    workers: u32,
) -> bool
    requires session { session < peers ends.old }
    requires worker { IsWorker worker workers }
    ensures { Receives session worker workers ends.old ends.new connection.old connection.new
        result }
{
    match ends.pop(session) {
        Some(message) => {
            connection.take(message, worker, workers);
            true
        }
        None => false,
    }
}

/// Sends the answer that waits for the session, takes its next message, and moves the tasks of the
/// group that it took into the batch. The answer is whether an answer waited or a message came.
fn gather_from<F: Drop>(
    ends: &mut WorkerEnds<F>,
    connection: &mut Connection<F>,
    session: u32,
    batch: &mut Batch,
    worker: u32,
    workers: u32,
) -> bool
    requires session { session < peers ends.old }
    requires worker { IsWorker worker workers }
    requires idle { connection.old.group ≡ None }
    requires room { 64 ≤ batch.old.spare }
    ensures gathered { (intake : Intake F)
        × Gathers worker workers (traffic_with ends.old session) (traffic_with ends.new session)
        connection.old connection.new intake × (result ≡ has_moved connection.old intake)
        × (batch.new.items ≡ batch.old.items ++ of_session session intake.tasks)
        × (batch.new.spare + length intake.tasks ≡ batch.old.spare)
        × (length intake.tasks ≤ 64) }
    ensures others { (other : ℕ) → other ≢ session
        → traffic_with ends.new other ≡ traffic_with ends.old other }
    ensures rings { SameRings ends.old ends.new }
{
    let waited = connection.waiting.is_some();
    send_waiting(ends, session, &mut connection.waiting);
    let came = receive(ends, connection, session, worker, workers);
    hand_in(&mut connection.group, session, batch);
    either(waited, came)
}

/// Sends the answers that wait, takes the next message of each session, and moves the tasks of all
/// groups into the batch. The answer is whether an answer waited or a message came.
pub fn gather<F: Drop>(
    ends: &mut WorkerEnds<F>,
    connections: &mut Vec<Connection<F>>,
    batch: &mut Batch,
    worker: u32,
    workers: u32,
) -> bool
    requires size { vec_len connections.old ≡ peers ends.old }
    requires worker { IsWorker worker workers }
    requires idle { AreIdle connections.old.items }
    requires room { 64 * peers ends.old ≤ batch.old.spare }
    ensures gathered { (intakes : List (Intake F))
        × GathersAll worker workers ends.old ends.new connections.old.items connections.new.items
        intakes result
        × (batch.new.items ≡ batch.old.items ++ in_hand 0 (all_tasks intakes)) }
    ensures room { batch.new.spare + length batch.new.items
        ≡ batch.old.spare + length batch.old.items }
    ensures few { length batch.new.items ≤ length batch.old.items + 64 * peers ends.old }
{
    let mut moved = false;
    for session in 0..ends.peers() {
        let connection = &mut connections[session as usize];
        let found = gather_from(ends, connection, session, batch, worker, workers);
        moved = either(moved, found);
    }
    moved
}

/// What the session had seen when it sent the group in hand, 0 where none is.
fn seen_in<F>(connection: &Connection<F>) -> u64
    ensures { result ≡ seen_in connection.now }
{
    if connection.group.is_some() {
        connection.seen
    } else {
        0
    }
}

/// The greatest stamp that the sessions had seen when they sent the groups in hand.
pub fn greatest_seen<F>(connections: &Vec<Connection<F>>) -> u64
    ensures { result ≡ greatest (map seen_in connections.now.items) }
{
    let mut most: u64 = 0;
    for connection in connections {
        most = most.max(seen_in(connection));
    }
    most
}
