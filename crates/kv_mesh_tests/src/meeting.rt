use std::alloc::Global;
use std::hint::spin_loop;
use std::sync::Arc;
use std::sync::atomic::{AtomicU64, Ordering};

// How many are to meet.
const MANY: u64 = 4;

// How often one that waits for the others looks for them.
const TRIES: u64 = 100_000_000;

/// One of four that meet: its first call waits inside until all are inside theirs.
#[derive(Drop)]
pub struct Meeting {
    inside: Arc<AtomicU64, Global>,
    begun: bool,
}

impl Meeting {
    pub fn new(inside: Arc<AtomicU64, Global>) -> Meeting {
        Meeting {
            inside,
            begun: false,
        }
    }

    /// Waits for the others where this is its first call. Whether they came, as they did at any
    /// later call.
    pub fn meet(&mut self) -> bool {
        if self.begun {
            return true;
        }
        self.begun = true;
        self.inside.fetch_add(1, Ordering::SeqCst);
        have_come(&self.inside)
    }
}

// Whether all were inside before the last try.
fn have_come(inside: &AtomicU64) -> bool {
    for _ in 0..TRIES {
        if inside.load(Ordering::SeqCst) >= MANY {
            return true;
        }
        spin_loop();
    }
    false
}
