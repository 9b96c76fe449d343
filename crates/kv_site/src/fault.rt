ghost use Rattle.std.specs.Prelude.{◌≡◌, ◌↔◌};
ghost use Rattle.std.specs.IoError.{error_kind};
ghost use Rattle.std.specs.declared.io.ErrorKind.TheVariants.{OutOfMemory};
ghost use Rattle.kv_site.specs.declared.fault.TakeFault.TheVariants.{NoMemory};

use std::alloc::{AllocError, AllocFailed};
use std::io;

/// Why a site refused to give what was asked. It then holds what it held before.
#[derive(Clone, Copy, Debug, PartialEq, Eq)]
pub enum TakeFault {
    /// It can't be had. The site's count of faults shows it.
    Failed,
    /// Memory ran out.
    NoMemory,
}

impl From<io::Error> for TakeFault {
    ghost from_gives = { λ error fault. (fault ≡ NoMemory) ↔ (error_kind error ≡ OutOfMemory) };

    fn from(error: io::Error) -> Self {
        if error.kind() == io::ErrorKind::OutOfMemory {
            TakeFault::NoMemory
        } else {
            TakeFault::Failed
        }
    }
}

impl From<AllocError> for TakeFault {
    ghost from_gives = { λ _ fault. fault ≡ NoMemory };

    fn from(_: AllocError) -> Self {
        TakeFault::NoMemory
    }
}

impl<T: Drop> From<AllocFailed<T>> for TakeFault {
    ghost from_gives = { λ _ fault. fault ≡ NoMemory };

    fn from(_: AllocFailed<T>) -> Self {
        TakeFault::NoMemory
    }
}
