ghost use Rattle.std.specs.Prelude.{◌≡◌, ◌<◌, Some};
ghost use Rattle.kv_ring.specs.Ends.{peers};
ghost use Rattle.kv_groups.specs.Traffic.{Sends};

use kv_ring::{Answer, WorkerEnds};

/// Sends the answer to the session, or hands it back where the ring has no place.
pub fn send<F>(ends: &mut WorkerEnds<F>, session: u32, answer: Answer<F>) -> Option<Answer<F>>
    requires { session < peers ends.old }
    ensures { Sends session ends.old ends.new (Some answer) result }
{
    match ends.push(session, answer) {
        Ok(()) => None,
        Err(refused) => Some(refused),
    }
}

/// Sends the answer that waits for the session, if one does. It waits on where the ring has no
/// place.
pub fn send_waiting<F: Drop>(
    ends: &mut WorkerEnds<F>,
    session: u32,
    waiting: &mut Option<Answer<F>>,
)
    requires { session < peers ends.old }
    ensures { Sends session ends.old ends.new waiting.old waiting.new }
{
    match waiting.take() {
        Some(answer) => *waiting = send(ends, session, answer),
        None => {}
    }
}
