ghost use Rattle.std.specs.Prelude.{◌≡◌, ◌≤◌, ◌<◌, ◌++◌, [], ◌∷◌, None, false, OnOk, IfOk, IfErr};
ghost use Rattle.std.specs.FinMap as finite;
ghost use Rattle.kv_base.specs.Limits.{AreLimits};
ghost use Rattle.kv_slab.specs.Memory.{rooms_of};
ghost use Rattle.kv_recover.specs.Store.{HasOpened, HasRefused, AreParts};

use crate::fault::OpenFault;
use crate::items::Items;
use crate::open::{Parts, open_parts};
use crate::share::Share;
use kv_base::{Limits, NoMemory, ReservedList};
use kv_cache::Cached;
use kv_disk::Disk;
use kv_index::Index;
use kv_slab::{EndList, Slabs};
use std::alloc::Global;

/// A store that was opened.
#[derive(Drop)]
pub struct Opened<D: Disk, I: Index> {
    /// The store.
    pub slabs: Slabs<D, I>,
    /// The greatest number that stands on its disk at the head of a page of a slot: below 2^62 - 1,
    /// and at least each stamp of the store.
    pub floor: u64,
}

/// Opens the disk of this worker of so many, 1 to 16, into an index that is empty. It makes durable
/// what is there; makes a new disk a store; keeps of each key the item with the greatest stamp, and
/// of equal stamps the one in the least place; frees every other slot; and makes that durable.
///
/// A refusal hands the disk back. `DiskFault` counts one fault, any other none. `NotAStore`,
/// `OtherStore` and `StampsSpent` leave it as it was, and come in this order: what the head page
/// says, `NotAStore` by other pages, `StampsSpent`. `NoMemory` may come once the head page is good.
pub fn open_store<D: Disk + Drop, I: Index + Drop>(
    alloc: Global,
    disk: D,
    index: I,
    worker: u32,
    workers: u32,
    limits: Limits,
) -> Result<Opened<D, I>, (D, OpenFault)>
    requires below { worker < workers }
    requires limit { workers ≤ 16 }
    requires none { I.entries index ≡ finite.empty }
    requires limits { AreLimits limits }
    ensures ok { IfOk result (λ opened. HasOpened ⟦<D as Disk>⟧ ⟦<I as Index>⟧ disk worker workers
        limits opened.slabs opened.floor) }
    ensures err { IfErr result (λ refused. HasRefused ⟦<D as Disk>⟧ disk worker workers refused.0
        refused.1) }
{
    let mut disk = disk;
    let mut items = Items::new(index);
    match open_parts(alloc, &mut disk, &mut items, Share { worker, workers }) {
        Ok(parts) => {
            let floor = parts.floor;
            match slabs_of(alloc, disk, items, parts, Share { worker, workers }, limits) {
                Ok(slabs) => Ok(Opened { slabs, floor }),
                Err((disk, _)) => Err((disk, OpenFault::NoMemory)),
            }
        }
        Err(fault) => Err((disk, fault)),
    }
}

/// The store of these parts. The one error is want of memory, and it gives the disk back.
fn slabs_of<D: Disk + Drop, I: Index + Drop>(
    alloc: Global,
    disk: D,
    items: Items<I>,
    parts: Parts,
    share: Share,
    limits: Limits,
) -> Result<Slabs<D, I>, (D, NoMemory)>
    requires limits { AreLimits limits }
    requires parts { AreParts ⟦<D as Disk>⟧ disk (I.entries items.index) share.worker share.workers
        parts.floor parts.ends parts.stacks.items }
    ensures ok { IfOk result (λ slabs. slabs ≡ record {
      disk = record { disk = disk; capacity = limits.cache; pages = []; unkept = 0 };
      index = items.index;
      rooms = rooms_of parts.stacks.items parts.ends;
      limits = limits;
      worker = share.worker;
      workers = share.workers;
      plan = None;
      closed = false;
    }) }
    ensures err { IfErr result (λ refused. refused.0 ≡ disk) }
{
    let Parts { ends, stacks, .. } = parts;
    let ends = match list_of(alloc, &ends) {
        Ok(ends) => ends,
        Err(no_memory) => return Err((disk, no_memory)),
    };
    match Cached::new(alloc, disk, limits.cache) {
        Ok(disk) => Ok(Slabs::of_parts(kv_slab::Parts {
            disk,
            index: items.index,
            stacks,
            ends,
            worker: share.worker,
            workers: share.workers,
            limits,
        })),
        Err((disk, no_memory)) => Err((disk, no_memory)),
    }
}

/// The ends as a list.
fn list_of(alloc: Global, ends: &[u32; 12]) -> Result<EndList, NoMemory>
    ensures { IfOk result (λ list. list.items ≡ ends.now) }
{
    let mut list = ReservedList::with_room(alloc, ends.len())?;
    for end in ends {
        push(&mut list, *end)?;
    }
    Ok(list)
}

/// Appends an end.
fn push(list: &mut EndList, end: u32) -> Result<(), NoMemory>
    ensures { OnOk result (list.new.items ≡ list.old.items ++ end ∷ []) }
{
    match list.append(end) {
        Ok(()) => Ok(()),
        Err((_, no_memory)) => Err(no_memory),
    }
}
