ghost use Rattle.std.specs.Prelude.{◌≡◌};
ghost use Rattle.kv_worker.specs.Refusals.{reply_for};

use kv_base::Reply;
use kv_slab::StepFault;

/// Why all tasks of a batch are refused.
#[derive(Clone, Copy, Debug)]
pub enum Refusal {
    /// The worker is closed.
    Closed,
    /// The store refused the batch, and is as before.
    Fault(StepFault),
}

impl Refusal {
    /// The reply that tells it. Takes no memory.
    pub fn reply(self) -> Reply
        ensures { result ≡ reply_for self }
    {
        match self {
            Refusal::Closed => Reply::Closed,
            Refusal::Fault(StepFault::DiskFault) => Reply::DiskFault,
            Refusal::Fault(StepFault::NoMemory) => Reply::NoMemory,
        }
    }
}
