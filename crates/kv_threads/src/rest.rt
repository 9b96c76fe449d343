use crate::crew::Crew;
use std::hint::spin_loop;
use std::sync::Wait;

/// How often a thread looks for something to do before it rests.
const LOOKS: u32 = 200;

/// How long one thread has found nothing to do.
#[derive(Drop)]
pub struct Rest {
    // How often it looked in vain since a turn moved.
    looks: u32,
    // What it is to sleep on, while it rests.
    seen: Option<u64>,
}

impl Rest {
    /// Nothing was looked for yet.
    pub fn new() -> Rest {
        Rest {
            looks: 0,
            seen: None,
        }
    }

    /// Wakes others behind a turn that moved. Behind one in vain it spins, then rests, and at the
    /// next one sleeps.
    pub fn after<R: Wait>(&mut self, rt: &R, crew: &Crew, moved: bool) {
        if moved {
            self.end(crew);
            self.looks = 0;
            crew.wake();
            return;
        }
        match self.seen {
            Some(seen) => {
                crew.sleep(rt, seen);
                self.end(crew);
            }
            None => self.look_again(crew),
        }
    }

    // Spins so often, and then rests.
    fn look_again(&mut self, crew: &Crew) {
        if self.looks < LOOKS {
            self.looks += 1;
            spin_loop();
        } else {
            self.seen = Some(crew.begin_rest());
        }
    }

    /// Rests no more.
    pub fn end(&mut self, crew: &Crew) {
        if self.seen.is_some() {
            crew.end_rest();
            self.seen = None;
        }
    }
}
