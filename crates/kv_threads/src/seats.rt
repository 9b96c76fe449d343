ghost use Rattle.std.specs.Prelude.{◌≡◌, ℕ, ◌≤◌, ◌∷◌, All};
ghost use Rattle.kv_stamps.specs.Ranges.{between};
ghost use Rattle.kv_threads.specs.JoinedSeats.{times_among, weight_of};

use kv_stamps::{StampSeat, Stamps};

/// Joins the other seats to the first, and looks at the counter with the joined seat. What they
/// drew, passed over and met was apart; with the weight of all seats, it is all that the counter
/// gave. Takes no memory.
pub fn join_seats(stamps: &Stamps, first: StampSeat, others: Vec<StampSeat>) -> StampSeat
    requires first { first.counter ≡ stamps.now }
    requires others { All (λ seat. seat.counter ≡ stamps.now) others.items }
    ensures counter { result.counter ≡ stamps.now }
    ensures apart { (number : ℕ) → times_among number (first ∷ others.items) ≤ 1 }
    ensures all { weight_of (first ∷ others.items) ≡ first.view.seats
        → (next : ℕ) × ((number : ℕ) → times_among number (first ∷ others.items)
        ≡ between number first.view.start next) }
{
    let mut joined = first;
    for other in others {
        stamps.join(&mut joined, other);
    }
    stamps.look(&mut joined);
    joined
}
