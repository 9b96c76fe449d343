ghost use Rattle.kv_worker.specs.Open.{IsBatch, IsRun};

use crate::fail::fail_all;
use crate::prepare::{Prepared, prepare};
use kv_base::Reply;
use kv_disk::Disk;
use kv_index::Index;
use kv_model::{old_or_new_reads_as_all, store_follows_history};
use kv_ring::Task;
use kv_slab::{Slabs, StepFault};
use std::alloc::Global;

/// Makes one step over the tasks of a batch, and answers their replies. A fault refuses all of them,
/// and the store is as before. A write or a sync that fails closes the store.
pub fn run<D: Disk, I: Index>(
    alloc: Global,
    slabs: &mut Slabs<D, I>,
    tasks: &[(u32, Task)],
    base: u64,
) -> Result<Vec<Reply>, StepFault>
    requires { IsBatch ⟦<D as Disk>⟧ ⟦<I as Index>⟧ slabs.old tasks.now base }
    ensures { IsRun ⟦<D as Disk>⟧ ⟦<I as Index>⟧ slabs.old slabs.new tasks.now base result }
{
    // By these laws what a crash leaves is a prefix of the writes.
    old_or_new_reads_as_all();
    store_follows_history();
    let Prepared { replies, changes } = prepare(alloc, slabs, tasks, base)?;
    if changes.is_empty() {
        return Ok(replies);
    }
    slabs.plan(alloc, changes.as_slice())?;
    let _ = slabs.apply();
    if slabs.closed() {
        Ok(fail_all(replies, tasks, base))
    } else {
        Ok(replies)
    }
}
