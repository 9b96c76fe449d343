use kv_ring::Turn;
use kv_stamps::{StampSeat, Stamps};
use kv_threads::Party;
use std::alloc::Global;
use std::hint::spin_loop;
use std::sync::Arc;
use std::sync::atomic::{AtomicU64, Ordering};

/// How often one that waits inside its turn looks for the others.
const TRIES: u64 = 100_000_000;

/// One that waits inside its one turn until so many are inside theirs.
#[derive(Drop)]
pub struct Meeter {
    seat: StampSeat,
    inside: Arc<AtomicU64, Global>,
    many: u64,
    met: bool,
    over: bool,
}

// Whether so many were inside before the last try.
fn meet(inside: &AtomicU64, many: u64) -> bool {
    for _ in 0..TRIES {
        if inside.load(Ordering::SeqCst) >= many {
            return true;
        }
        spin_loop();
    }
    false
}

impl Meeter {
    ghost use Rattle.std.specs.Prelude.{◌≡◌};

    pub fn new(seat: StampSeat, inside: Arc<AtomicU64, Global>, many: u64) -> Meeter
        ensures { result.seat ≡ seat }
    {
        Meeter {
            seat,
            inside,
            many,
            met: false,
            over: false,
        }
    }

    /// Whether it met the others.
    pub fn met(&self) -> bool {
        self.met
    }
}

impl Party for Meeter {
    ghost use Rattle.std.specs.Prelude.{◌≡◌};
    ghost use Rattle.std.proofs.Common.{rules};

    ghost counter = { λ meeter. meeter.seat.counter };

    ghost ended = { λ meeter. meeter.over };

    ghost Stays = { λ old new. new.seat ≡ old.seat };

    fn turn(&mut self, _stamps: &Stamps) -> Turn {
        self.inside.fetch_add(1, Ordering::SeqCst);
        self.met = meet(&self.inside, self.many);
        self.over = true;
        Turn::Ended
    }

    fn ended(&self) -> bool {
        self.over
    }

    ghost stays_still = { Prim.search rules };

    ghost stays_on = { Prim.search rules };
}
