use kv_ring::Turn;
use kv_stamps::{StampSeat, Stamps};
use kv_threads::Party;
use std::alloc::Global;
use std::hint::spin_loop;
use std::sync::Arc;
use std::sync::atomic::{AtomicU64, Ordering};

/// How many hand on to one another in a ring.
pub const PASSERS: u64 = 4;

/// How often each passes the token on, and how often it spins before each pass.
#[derive(Clone, Copy)]
pub struct Work {
    pub passes: u32,
    pub spins: u32,
}

/// One of a ring that hands a token on: with each pass it draws a stamp, and where another has the
/// token there is nothing to do.
#[derive(Drop)]
pub struct Passer {
    seat: StampSeat,
    // How often the token was passed on.
    passes: Arc<AtomicU64, Global>,
    // The place in the ring.
    place: u64,
    // How often it is still to pass the token on.
    left: u64,
    // How often it spins before each pass.
    spins: u32,
    // The stamp that it drew last.
    last: u64,
}

impl Passer {
    ghost use Rattle.std.specs.Prelude.{◌≡◌};

    pub fn new(seat: StampSeat, passes: Arc<AtomicU64, Global>, place: u64, work: Work) -> Passer
        ensures { result.seat ≡ seat }
    {
        Passer {
            seat,
            passes,
            place,
            left: u64::from(work.passes),
            spins: work.spins,
            last: 0,
        }
    }

    /// The seat, and the stamp that was drawn last.
    pub fn into_seat(self) -> (StampSeat, u64)
        ensures { result.0 ≡ self.seat }
    {
        let Passer {
            seat,
            passes: _,
            place: _,
            left: _,
            spins: _,
            last,
        } = self;
        (seat, last)
    }

    // Draws a stamp, and hands the token on.
    fn pass(&mut self, stamps: &Stamps)
        requires { self.old.seat.counter ≡ stamps.now }
        ensures { self.new.seat.counter ≡ self.old.seat.counter }
    {
        for _ in 0..self.spins {
            spin_loop();
        }
        if let Ok(stamp) = stamps.draw(&mut self.seat, 1) {
            self.last = stamp;
        }
        self.left = self.left.saturating_sub(1);
        self.passes.fetch_add(1, Ordering::SeqCst);
    }
}

impl Party for Passer {
    ghost use Rattle.std.specs.Prelude.{◌≡◌, ◌==◌};
    ghost use Rattle.std.proofs.Common.{rules};

    ghost counter = { λ passer. passer.seat.counter };

    ghost ended = { λ passer. passer.left == 0 };

    ghost Stays = { λ old new. new.seat.counter ≡ old.seat.counter };

    fn turn(&mut self, stamps: &Stamps) -> Turn {
        if self.passes.load(Ordering::SeqCst) % PASSERS != self.place {
            return Turn::Idle;
        }
        self.pass(stamps);
        Turn::of(self.left == 0, true)
    }

    fn ended(&self) -> bool {
        self.left == 0
    }

    ghost stays_still = { Prim.search rules };

    ghost stays_on = { Prim.search rules };
}
