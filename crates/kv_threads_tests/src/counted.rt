ghost use Rattle.std.specs.Prelude.{◌≡◌, IfOk, All};
ghost use Rattle.std.specs.Arc.{arc_value};

use kv_base::NoMemory;
use kv_stamps::{StampSeat, Stamps};
use std::alloc::{AllocError, Global};
use std::sync::Arc;
use std::test::Fail;

/// A counter from 1 on that threads share, and its four seats.
pub fn counter(alloc: Global) -> Result<(Arc<Stamps, Global>, Vec<StampSeat>), Fail>
    ensures { IfOk result (λ made. All (λ seat. seat.counter ≡ arc_value made.0) made.1.items) }
{
    let (stamps, seats) = Stamps::new(alloc, 1, 4)?;
    match Arc::new(alloc, stamps) {
        Ok(shared) => Ok((shared, seats)),
        Err(_) => Err(Fail::new("memory")),
    }
}

/// The last seat.
pub fn next(seats: &mut Vec<StampSeat>, stamps: &Stamps) -> Result<StampSeat, Fail>
    requires { All (λ seat. seat.counter ≡ stamps.now) seats.old.items }
    ensures seat { IfOk result (λ seat. seat.counter ≡ stamps.now) }
    ensures others { All (λ seat. seat.counter ≡ stamps.now) seats.new.items }
{
    match seats.pop() {
        Some(seat) => Ok(seat),
        None => Err(Fail::new("four seats")),
    }
}
