ghost use Rattle.std.specs.Prelude.{◌≡◌, ◌<◌, ◌^◌};
ghost use Rattle.kv_model.specs.Agreement.{counter_reply};
ghost use Rattle.kv_session_party.specs.Looking.{LooksAbove, AnswersAfter, seen_behind_it};

use kv_base::Reply;
use kv_stamps::{StampSeat, Stamps};

/// Raises the counter above what the session has seen, and looks at it: the next number, or 2^62
/// where it is above. Takes no memory.
fn look_above(stamps: &Stamps, seat: &mut StampSeat, seen: u64) -> u64
    requires counter { seat.old.counter ≡ stamps.now }
    requires limit { seen < 2 ^ 62 }
    ensures counter { seat.new.counter ≡ seat.old.counter }
    ensures looks { LooksAbove seen seat.old.view seat.new.view result }
{
    stamps.raise(seat, seen + 1);
    stamps.look(seat)
}

/// The reply to an After of this stamp, where the counter stands at the number.
fn reply_at(stamp: u64, number: u64) -> Reply
    ensures { result ≡ counter_reply stamp number }
{
    if stamp < number {
        Reply::Noted
    } else {
        Reply::Ahead { number }
    }
}

/// The greatest stamp that a session which had seen so much has seen behind that After.
fn seen_at(seen: u64, stamp: u64, number: u64) -> u64
    ensures { result ≡ seen_behind_it seen stamp number }
{
    if stamp < number {
        seen.max(stamp)
    } else {
        seen
    }
}

/// The reply to an After of this stamp, and the greatest stamp that its session has seen then. The
/// counter is raised above what it has seen first. Takes no memory.
pub fn answer(stamps: &Stamps, seat: &mut StampSeat, seen: u64, stamp: u64) -> (Reply, u64)
    requires counter { seat.old.counter ≡ stamps.now }
    requires limit { seen < 2 ^ 62 }
    ensures counter { seat.new.counter ≡ seat.old.counter }
    ensures answers { AnswersAfter seen stamp seat.old.view seat.new.view result.0 result.1 }
{
    let number = look_above(stamps, seat, seen);
    (reply_at(stamp, number), seen_at(seen, stamp, number))
}
