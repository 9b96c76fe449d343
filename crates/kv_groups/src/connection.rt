use crate::open_task::takes_all;
use kv_ring::{Answer, Ask, Tasks};

/// Stamps are below this.
const LIMIT: u64 = 1 << 62;

/// What a worker has in hand of one session.
#[derive(Debug, Drop)]
pub struct Connection<F> {
    /// The greatest stamp that the session had seen when it sent the group in hand.
    pub(crate) seen: u64,
    /// The group in hand.
    pub(crate) group: Option<Tasks>,
    /// The answer that waits to be sent.
    pub(crate) waiting: Option<Answer<F>>,
    /// Whether the session has ended.
    pub(crate) gone: bool,
}

impl<F: Drop> Connection<F> {
    ghost use Rattle.std.specs.Prelude.{◌≡◌, None, false};
    ghost use Rattle.kv_model.specs.Head.{IsWorker};
    ghost use Rattle.kv_groups.specs.Taking.{after_message, new_connection};

    /// Nothing is in hand of a new session.
    pub fn new() -> Connection<F>
        ensures { result ≡ new_connection }
    {
        Connection {
            seen: 0,
            group: None,
            waiting: None,
            gone: false,
        }
    }

    /// Takes the message, or passes over it: a group while an answer waits, or one that has a
    /// request that the worker, of so many, doesn't answer.
    pub(crate) fn take(&mut self, message: Ask<F>, worker: u32, workers: u32)
        requires { IsWorker worker workers }
        ensures { self.new ≡ after_message worker workers self.old message }
    {
        match message {
            Ask::Group { seen, tasks } => {
                if self.waiting.is_none()
                    && seen < LIMIT
                    && takes_all(tasks.as_slice(), worker, workers)
                {
                    self.seen = seen;
                    self.group = Some(tasks);
                }
            }
            Ask::Bye => self.gone = true,
            Ask::Prepare {
                fold: _,
                low: _,
                high: _,
            } => {}
            Ask::Start { stamp: _ } => {}
            Ask::Drop => {}
        }
    }
}
