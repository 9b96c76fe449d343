ghost use Rattle.std.specs.Prelude.{◌≡◌, ◌≤◌, ◌^◌, IfOk};
ghost use Rattle.kv_parties.specs.Stamps.{HasDrawnNone};
ghost use Rattle.kv_stamps.specs.Seats.{new_seat};

use kv_stamps::{StampSeat, Stamps};
use std::alloc::Global;
use std::test::Fail;

/// A counter and its one seat.
pub fn counter(alloc: Global, start: u64) -> Result<(Stamps, StampSeat), Fail>
    requires { (1 ≤ start) × (start ≤ 2 ^ 62) }
    ensures seat { IfOk result (λ made. made.1 ≡ new_seat made.0 start 1) }
    ensures fresh { IfOk result (λ made. HasDrawnNone made.1.view) }
{
    let (stamps, mut seats) = Stamps::new(alloc, start, 1)?;
    match seats.pop() {
        Some(seat) => Ok((stamps, seat)),
        None => Err(Fail::new("there is one seat")),
    }
}
