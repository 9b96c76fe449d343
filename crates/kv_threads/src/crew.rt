use std::sync::Wait;
use std::sync::atomic::{AtomicU64, Ordering};

/// What the threads of all parties share to wait for one another. A thread that found nothing to do
/// says that it rests, looks once more, and then sleeps until a party moves. So no wake is lost,
/// and one that moves while none rests only reads a word.
#[derive(Drop)]
pub struct Crew {
    // Rises with each move of a party while some thread rests. Threads sleep on it.
    moves: AtomicU64,
    // How many threads rest.
    resting: AtomicU64,
    // The number of the party whose start was refused last, or that of none.
    refused: AtomicU64,
}

/// The number of no party.
const NO_PARTY: u64 = u64::MAX;

impl Crew {
    /// A crew of which no thread rests.
    pub fn new() -> Crew {
        Crew {
            moves: AtomicU64::new(0),
            resting: AtomicU64::new(0),
            refused: AtomicU64::new(NO_PARTY),
        }
    }

    /// Notes that a thread rests, and answers what it sleeps on if it then finds nothing to do.
    pub fn begin_rest(&self) -> u64 {
        self.resting.fetch_add(1, Ordering::SeqCst);
        self.moves.load(Ordering::SeqCst)
    }

    /// Sleeps, unless a party has moved since the thread began to rest.
    pub fn sleep<R: Wait>(&self, rt: &R, seen: u64) {
        self.moves.park(rt, (seen % (1 << 32)) as u32);
    }

    /// Notes that a thread rests no more.
    pub fn end_rest(&self) {
        self.resting.fetch_sub(1, Ordering::SeqCst);
    }

    /// Wakes the threads that rest: a party has moved.
    pub fn wake(&self) {
        if self.resting.load(Ordering::SeqCst) > 0 {
            self.moves.fetch_add(1, Ordering::SeqCst);
            self.moves.wake_all();
        }
    }

    /// Notes that no thread was started for the party of this number.
    pub fn refuse(&self, number: u64) {
        self.refused.store(number, Ordering::SeqCst);
    }

    /// Whether that was noted last of the party of this number.
    pub fn is_refused(&self, number: u64) -> bool {
        self.refused.load(Ordering::SeqCst) == number
    }
}
