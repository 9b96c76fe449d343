ghost use Rattle.std.specs.Prelude.{◌<◌, ⊤};
ghost use Rattle.kv_ring.specs.declared.ends.Ends.{Ends};
ghost use Rattle.kv_ring.specs.declared.message.Answer.{Answer as AnswerOf};
ghost use Rattle.kv_ring.specs.declared.message.Ask.{Ask as AskOf};
ghost use Rattle.kv_ring.specs.Ends.{peers, AreBetween};
ghost use Rattle.kv_ring.specs.Comparing.{Compares};

use crate::ends::{SessionEnds, WorkerEnds};
use crate::left::left_between;

/// A party with the ends of a worker, which it keeps to itself: it offers to compare them with a
/// session's. So a session looks at the rings between the two, and can send nothing through them.
pub trait WorkerSide<F> {
    /// The ends of the worker.
    ghost ends: { Self → Ends (AnswerOf F) (AskOf F) 8 };

    /// What a look leaves of the party, from before it to behind it.
    ghost Stays: { Self → Self → Type 0 };

    /// How many messages are left in the two rings between the session of this number, whose ends
    /// these are, and this worker of that number. Nothing is sent or received. Takes no memory.
    fn left_beside(&mut self, session_ends: &mut SessionEnds<F>, session: u32, worker: u32) -> u32
        requires worker { worker < peers session_ends.old }
        requires session { session < peers (ends self.old) }
        requires rings { AreBetween session_ends.old session (ends self.old) worker }
        ensures compared { Compares session_ends.old session_ends.new session (ends self.old)
            (ends self.new) worker result }
        ensures stays { Stays self.old self.new };
}

/// The ends alone: all that they are is said by the look.
impl<F> WorkerSide<F> for WorkerEnds<F> {
    ghost ends = { λ ends. ends };

    ghost Stays = { λ old new. ⊤ };

    fn left_beside(&mut self, session_ends: &mut SessionEnds<F>, session: u32, worker: u32) -> u32 {
        left_between(session_ends, session, self, worker)
    }
}
