ghost use Rattle.std.specs.Prelude.{◌≡◌, ℕ, ◌<◌, Some, None, IfOk, vec_len, slice_index_or, ◌||◌};
ghost use Rattle.kv_ring.specs.Ends.{peers};
ghost use Rattle.kv_session_party.specs.Sending.{Sends, has_gone};

use kv_base::NoMemory;
use kv_ring::{Ask, SessionEnds};
use std::alloc::Global;

/// Room for a message to each worker.
pub fn no_messages<F: Drop>(alloc: Global, workers: u32) -> Result<Vec<Option<Ask<F>>>, NoMemory>
    ensures size { IfOk result (λ unsent. vec_len unsent ≡ workers) }
    ensures none { IfOk result (λ unsent. (worker : ℕ)
        → slice_index_or unsent.items worker None ≡ None) }
{
    let mut unsent = Vec::with_capacity(alloc, workers as usize)?;
    for _worker in 0..workers {
        unsent.push(None)?;
    }
    Ok(unsent)
}

/// Sends the message, or hands it back where the ring has no place.
pub fn send<F: Drop>(ends: &mut SessionEnds<F>, worker: u32, message: Ask<F>) -> Option<Ask<F>>
    requires { worker < peers ends.old }
    ensures { Sends worker ends.old ends.new (Some message) result }
{
    match ends.push(worker, message) {
        Ok(()) => None,
        Err(message) => Some(message),
    }
}

/// Sends the message that waits, if one does; it waits on where the ring has no place. The answer
/// is whether one was sent.
pub fn send_waiting<F: Drop>(
    ends: &mut SessionEnds<F>,
    worker: u32,
    waiting: &mut Option<Ask<F>>,
) -> bool
    requires { worker < peers ends.old }
    ensures sent { Sends worker ends.old ends.new waiting.old waiting.new }
    ensures moved { result ≡ has_gone waiting.old waiting.new }
{
    match waiting.take() {
        None => false,
        Some(message) => {
            *waiting = send(ends, worker, message);
            waiting.is_none()
        }
    }
}

/// Whether one of the two is so.
pub fn either(one: bool, other: bool) -> bool
    ensures { result ≡ (one || other) }
{
    one || other
}
