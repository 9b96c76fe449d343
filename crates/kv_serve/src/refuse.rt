ghost use Rattle.std.specs.Prelude.{◌≡◌, []};
ghost use Rattle.kv_serve.specs.Stores.{IsDiskRefusal};
ghost use Rattle.kv_serve.specs.Taken.{IsTakeRefusal};

use crate::ended::{Ended, Endings, Refused};
use kv_base::NoMemory;
use kv_recover::OpenFault;
use kv_site::TakeFault;
use std::alloc::Global;

/// The end of a command that served no session. Takes no memory.
pub fn not_served(alloc: Global, status: u8, refused: Option<Refused>) -> Ended
    ensures status { result.status ≡ status }
    ensures endings { result.endings.items ≡ [] }
    ensures refused { result.refused ≡ refused }
{
    let endings = match Endings::with_room(alloc, 0) {
        Ok(endings) => endings,
        Err(NoMemory) => unreachable!(),
    };
    Ended {
        status,
        endings,
        refused,
    }
}

/// The end of a command that the site refused something.
pub fn refused_by(alloc: Global, fault: TakeFault, refused: Refused) -> Ended
    ensures endings { result.endings.items ≡ [] }
    ensures cause { IsTakeRefusal fault refused result.status result.refused }
{
    match fault {
        TakeFault::Failed => not_served(alloc, 3, Some(refused)),
        TakeFault::NoMemory => not_served(alloc, 4, None),
    }
}

/// The end of a command one of whose disks couldn't be opened.
pub fn refuse_disk(alloc: Global, worker: u32, fault: OpenFault) -> Ended
    ensures endings { result.endings.items ≡ [] }
    ensures cause { IsDiskRefusal worker fault result.status result.refused }
{
    match fault {
        OpenFault::NoMemory => not_served(alloc, 4, None),
        _ => not_served(alloc, 3, Some(Refused::Disk { worker, fault })),
    }
}
