ghost use Rattle.std.specs.Prelude.{◌≡◌, Bool};
ghost use Rattle.atomic_table.specs.Seated.{TableId};

use kv_ring::Turn;
use kv_stamps::Stamps;

/// One that makes turns until it has ended, and draws stamps from a counter that it shares with
/// others.
pub trait Party {
    /// The counter.
    ghost counter: { Self → TableId };

    /// Whether it has ended.
    ghost ended: { Self → Bool };

    /// What turns leave of it, from before them to behind them.
    ghost Stays: { Self → Self → Type 0 };

    /// Makes a turn. `Idle` tells that there was nothing to do.
    fn turn(&mut self, stamps: &Stamps) -> Turn
        requires { counter self.old ≡ stamps.now }
        ensures counter { counter self.new ≡ counter self.old }
        ensures stays { Stays self.old self.new };

    /// Whether it has ended: no turn of it is owed.
    fn ended(&self) -> bool
        ensures { result ≡ ended self.now };

    /// No turn leaves all as it is.
    ghost stays_still: { (party : Self) → Stays party party };

    /// Turns behind turns leave what each leaves.
    ghost stays_on: { (party later latest : Self) → Stays party later → Stays later latest
        → Stays party latest };
}
