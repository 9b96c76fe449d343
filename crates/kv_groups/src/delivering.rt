ghost use Rattle.std.specs.Prelude.{◌≡◌, ◌≢◌, ◌⊎◌, ℕ, ◌+◌, ◌<◌, ◌≤◌, ◌++◌, List, [], None, length, vec_len};
ghost use Rattle.kv_ring.specs.Ends.{peers, SameRings};
ghost use Rattle.kv_ring.specs.declared.task.Task.{Task as TaskOf};
ghost use Rattle.kv_groups.specs.Batched.{of_session, tasks_in};
ghost use Rattle.kv_groups.specs.Traffic.{traffic_with};
ghost use Rattle.kv_groups.specs.Delivering.{AreBack, Delivers, DeliversAll, AreFree, all_ended, has_ended};

use crate::connection::Connection;
use crate::hand_in::{Batch, hand_back};
use crate::send::send;
use kv_ring::{Answer, WorkerEnds};

/// Moves the last tasks of the batch back into the session's group, if it has one, and sends the
/// answer.
fn deliver_to<F: Drop>(
    ends: &mut WorkerEnds<F>,
    connection: &mut Connection<F>,
    session: u32,
    batch: &mut Batch,
)
    requires session { session < peers ends.old }
    requires free { (connection.old.group ≡ None) ⊎ (connection.old.waiting ≡ None) }
    requires some { length (tasks_in connection.old.group) ≤ length batch.old.items }
    ensures delivered { (front : List (ℕ × TaskOf)) (tasks : List TaskOf)
        → batch.old.items ≡ front ++ of_session session tasks
        → length tasks ≡ length (tasks_in connection.old.group)
        → (batch.new.items ≡ front) × Delivers (traffic_with ends.old session)
        (traffic_with ends.new session) connection.old connection.new tasks }
    ensures spare { batch.new.spare ≡ batch.old.spare + length (tasks_in connection.old.group) }
    ensures others { (other : ℕ) → other ≢ session
        → traffic_with ends.new other ≡ traffic_with ends.old other }
    ensures rings { SameRings ends.old ends.new }
{
    match connection.group.take() {
        Some(mut tasks) => {
            hand_back(&mut tasks, batch);
            connection.waiting = send(ends, session, Answer::Group { tasks });
        }
        None => {}
    }
}

/// Moves the tasks of the batch back into the groups, and sends the answers.
pub fn deliver<F: Drop>(
    ends: &mut WorkerEnds<F>,
    connections: &mut Vec<Connection<F>>,
    batch: &mut Batch,
)
    requires size { vec_len connections.old ≡ peers ends.old }
    requires free { AreFree connections.old.items }
    requires back { (groups : List (List TaskOf))
        × AreBack connections.old.items groups batch.old.items }
    ensures delivered { (groups : List (List TaskOf))
        → AreBack connections.old.items groups batch.old.items
        → DeliversAll ends.old ends.new connections.old.items connections.new.items groups }
    ensures empty { batch.new.items ≡ [] }
    ensures spare { batch.new.spare ≡ batch.old.spare + length batch.old.items }
    ensures size { vec_len connections.new ≡ vec_len connections.old }
{
    for session in (0..ends.peers()).rev() {
        deliver_to(ends, &mut connections[session as usize], session, batch);
    }
}

/// Whether the session has ended, and no answer waits for it.
fn has_ended<F>(connection: &Connection<F>) -> bool
    ensures { result ≡ has_ended connection.now }
{
    connection.gone && connection.waiting.is_none()
}

/// Whether all sessions have ended, and no answer waits.
pub fn all_ended<F>(connections: &Vec<Connection<F>>) -> bool
    ensures { result ≡ all_ended connections.now.items }
{
    for connection in connections {
        if !has_ended(connection) {
            return false;
        }
    }
    true
}
