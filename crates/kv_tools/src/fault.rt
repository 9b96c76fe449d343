ghost use Rattle.std.specs.Prelude.{◌≡◌};
ghost use Rattle.kv_tools.specs.Faults.{refusal_of};

use kv_base::{Failed, NoMemory};
use kv_recover::OpenFault;

/// Why a report isn't whole.
#[derive(Clone, Copy, Debug, PartialEq, Eq)]
pub enum ToolFault {
    /// The disk of a worker was refused: it isn't that worker's store, or a call of it failed.
    Store {
        /// The worker.
        worker: u32,
        /// Why it was refused, never `NoMemory`.
        fault: OpenFault,
    },
    /// A value couldn't be read from the disk of a worker.
    DiskFault {
        /// The worker.
        worker: u32,
    },
    /// The sink failed.
    SinkFault,
    /// Want of memory.
    NoMemory,
}

impl From<Failed> for ToolFault {
    ghost use Rattle.kv_tools.specs.declared.fault.ToolFault.TheVariants.{SinkFault};

    ghost from_gives = { λ _ fault. fault ≡ SinkFault };

    fn from(_: Failed) -> Self {
        ToolFault::SinkFault
    }
}

impl From<NoMemory> for ToolFault {
    ghost use Rattle.kv_tools.specs.declared.fault.ToolFault.TheVariants.{NoMemory};

    ghost from_gives = { λ _ fault. fault ≡ NoMemory };

    fn from(_: NoMemory) -> Self {
        ToolFault::NoMemory
    }
}

/// What it means to a report that the disk of this worker is refused.
pub fn refusal(worker: u32, fault: OpenFault) -> ToolFault
    ensures { result ≡ refusal_of worker fault }
{
    match fault {
        OpenFault::NoMemory => ToolFault::NoMemory,
        fault => ToolFault::Store { worker, fault },
    }
}
