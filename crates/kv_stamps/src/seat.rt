use crate::view::View;
use atomic_table::Seat;
use std::marker::Model;

/// One party's part of a counter: it knows what the party drew, raised to and saw, and keeps the
/// number of the first `StampsSpent`. It may move to another thread. One that is dropped is joined
/// to no other, and what it knew is lost.
#[derive(Drop)]
pub struct StampSeat {
    pub(crate) seat: Seat<(), View>,
    pub(crate) spent: Option<u64>,
}

impl Model for StampSeat {
    ghost use Rattle.std.specs.Prelude.{◌≡◌, ℕ, ◌≤◌, [], All};
    ghost use Rattle.kv_stamps.specs.Ranges.{PassesLimit};
    ghost use Rattle.kv_stamps.specs.Seats.{Seat, first_spent};

    ghost Value = { Seat };

    ghost view = { λ s. record { counter = s.seat.table_id; view = s.seat.me.0 } };

    ghost invariant = { λ s. record {
      plain : s.seat.me.1 ≡ [];
      live : 1 ≤ s.seat.me.0.weight;
      kept : s.spent ≡ first_spent s.seat.me.0.spent;
      limit : All PassesLimit s.seat.me.0.spent;
    } };
}
