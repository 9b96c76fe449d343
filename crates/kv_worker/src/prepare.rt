ghost use Rattle.std.specs.Prelude.{◌≡◌, ◌+◌, ◌*◌, ◌≤◌, ◌^◌, length, IfOk};
ghost use Rattle.std.specs.List.{AllByRecursion};
ghost use Rattle.kv_slab.specs.Fault.{StepCounted};
ghost use Rattle.kv_worker.specs.Answering.{HasGoodSizes};
ghost use Rattle.kv_worker.specs.Batches.{requests_in};
ghost use Rattle.kv_worker.specs.Open.{ArePrepared, IsOpenStore};
ghost use Rattle.kv_worker.specs.Reads.{HasRead};
ghost use Rattle.kv_worker.specs.Worker.{start_of};

use crate::answer::answer_all;
use crate::net::net_changes;
use crate::pass::Pass;
use kv_base::Reply;
use kv_disk::Disk;
use kv_index::Index;
use kv_ring::Task;
use kv_slab::{Change, Slabs, StepFault};
use std::alloc::Global;

/// What a batch is answered where all its writes go well, and what of it goes to disk.
#[derive(Debug, Drop)]
pub struct Prepared {
    /// The replies, in the order of the requests.
    pub replies: Vec<Reply>,
    /// The changes, in the order of their stamps.
    pub changes: Vec<Change>,
}

/// Answers the tasks and finds what they change. It only reads. A fault is that of the store, or
/// want of memory.
pub fn prepare<D: Disk, I: Index>(
    alloc: Global,
    slabs: &mut Slabs<D, I>,
    tasks: &[(u32, Task)],
    base: u64,
) -> Result<Prepared, StepFault>
    requires opened { IsOpenStore ⟦<D as Disk>⟧ ⟦<I as Index>⟧ slabs.old base }
    requires good { AllByRecursion HasGoodSizes (requests_in tasks.now) }
    requires few { length tasks.now ≤ 512 }
    requires stamps { base + length tasks.now ≤ 2 ^ 62 }
    ensures ok { IfOk result (λ found. ArePrepared D.tells
        (start_of ⟦<D as Disk>⟧ ⟦<I as Index>⟧ slabs.old) (requests_in tasks.now) base
        found.replies.items found.changes.items) }
    ensures read { HasRead ⟦<D as Disk>⟧ (16 * length tasks.now) slabs.old slabs.new }
    ensures cause { StepCounted (D.faults slabs.old.disk.disk) (D.faults slabs.new.disk.disk)
        result }
{
    let mut pass = Pass::new(alloc, tasks.len())?;
    let replies = answer_all(alloc, slabs, &mut pass, tasks, base)?;
    let changes = net_changes(alloc, slabs, &pass, tasks, base)?;
    Ok(Prepared { replies, changes })
}
