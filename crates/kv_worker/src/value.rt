ghost use Rattle.std.specs.Prelude.{◌≡◌, ℕ, List, IfOk, is_some, option_copied};
ghost use Rattle.std.specs.List.{AllByRecursion};
ghost use Rattle.kv_model.specs.Agreement.{told_of};
ghost use Rattle.kv_model.specs.Batch.{get_reply, value_after};
ghost use Rattle.kv_model.specs.Frames.{HasReplyFrame};
ghost use Rattle.kv_model.specs.History.{Write};
ghost use Rattle.kv_slab.specs.Fault.{StepCounted};
ghost use Rattle.kv_worker.specs.Answering.{HasGoodSizes, KnowsLast, value_written};
ghost use Rattle.kv_worker.specs.Batches.{requests_in};
ghost use Rattle.kv_worker.specs.Course.{Course};
ghost use Rattle.kv_worker.specs.Reads.{HasRead, IsReady};
ghost use Rattle.kv_worker.specs.Worker.{start_of};

use crate::overlay::Last;
use kv_base::{Bytes, NoMemory, Reply, Request};
use kv_disk::Disk;
use kv_index::Index;
use kv_ring::Task;
use kv_slab::{Item, Slabs, StepFault};
use std::alloc::Global;

/// The value that the request with this number writes.
fn value_written<'r>(tasks: &'r [(u32, Task)], task: u16) -> Option<&'r [u8]>
    ensures { option_copied result ≡ value_written (requests_in tasks.now) task }
{
    match tasks.get(task as usize) {
        Some(
            (
                _,
                Task {
                    request: Request::Put { value, .. },
                    ..
                },
            ),
        ) => Some(value.as_slice()),
        _ => None,
    }
}

/// Whether the key has a value behind the writes so far, of which this is its last one.
pub fn has_value<D: Disk, I: Index>(
    slabs: &Slabs<D, I>,
    last: Option<Last>,
    tasks: &[(u32, Task)],
    key: &[u8],
) -> bool
    ensures { (course : Course) (writes : List Write)
        → KnowsLast course writes (start_of ⟦<D as Disk>⟧ ⟦<I as Index>⟧ slabs.now)
        (requests_in tasks.now) key.now last → result ≡ is_some
        (value_after (start_of ⟦<D as Disk>⟧ ⟦<I as Index>⟧ slabs.now) writes key.now) }
{
    match last {
        Some(last) => value_written(tasks, last.task).is_some(),
        None => slabs.class_of_key(key).is_some(),
    }
}

/// Answers a get of a key that the batch wrote before, last by this request. The one error is want
/// of memory.
fn written_reply(
    alloc: Global,
    tasks: &[(u32, Task)],
    task: u16,
    stamp: u64,
) -> Result<Reply, NoMemory>
    requires { AllByRecursion HasGoodSizes (requests_in tasks.now) }
    ensures reply { IfOk result (λ reply. reply
        ≡ get_reply stamp (value_written (requests_in tasks.now) task)) }
    ensures framed { IfOk result HasReplyFrame }
{
    match value_written(tasks, task) {
        Some(value) => {
            let value = Bytes::copy(alloc, value)?;
            Ok(Reply::Found { stamp, value })
        }
        None => Ok(Reply::Missing { stamp }),
    }
}

/// Answers a get of a key that the batch didn't write before.
fn kept_reply<D: Disk, I: Index>(
    alloc: Global,
    slabs: &mut Slabs<D, I>,
    key: &[u8],
    stamp: u64,
) -> Result<Reply, StepFault>
    requires { IsReady ⟦<I as Index>⟧ slabs.old }
    ensures reply { IfOk result (λ reply. told_of D.tells reply ≡ told_of D.tells
        (get_reply stamp ((start_of ⟦<D as Disk>⟧ ⟦<I as Index>⟧ slabs.old).value key.now))) }
    ensures framed { IfOk result HasReplyFrame }
    ensures read { HasRead ⟦<D as Disk>⟧ 16 slabs.old slabs.new }
    ensures cause { StepCounted (D.faults slabs.old.disk.disk) (D.faults slabs.new.disk.disk)
        result }
{
    match slabs.get(alloc, key)? {
        Some(Item { value, .. }) => Ok(Reply::Found { stamp, value }),
        None => Ok(Reply::Missing { stamp }),
    }
}

/// Answers a get, behind the writes so far, of which this is the key's last one. A fault is that of
/// the store.
pub fn get<D: Disk, I: Index>(
    alloc: Global,
    slabs: &mut Slabs<D, I>,
    last: Option<Last>,
    tasks: &[(u32, Task)],
    key: &[u8],
    stamp: u64,
) -> Result<Reply, StepFault>
    requires ready { IsReady ⟦<I as Index>⟧ slabs.old }
    requires good { AllByRecursion HasGoodSizes (requests_in tasks.now) }
    ensures reply { IfOk result (λ reply. (course : Course) (writes : List Write)
        → KnowsLast course writes (start_of ⟦<D as Disk>⟧ ⟦<I as Index>⟧ slabs.old)
        (requests_in tasks.now) key.now last → told_of D.tells reply ≡ told_of D.tells
        (get_reply stamp (value_after (start_of ⟦<D as Disk>⟧ ⟦<I as Index>⟧ slabs.old) writes
        key.now))) }
    ensures framed { IfOk result HasReplyFrame }
    ensures read { HasRead ⟦<D as Disk>⟧ 16 slabs.old slabs.new }
    ensures cause { StepCounted (D.faults slabs.old.disk.disk) (D.faults slabs.new.disk.disk)
        result }
{
    match last {
        Some(last) => Ok(written_reply(alloc, tasks, last.task, stamp)?),
        None => kept_reply(alloc, slabs, key, stamp),
    }
}
