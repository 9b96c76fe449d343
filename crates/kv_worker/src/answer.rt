ghost use Rattle.std.specs.Prelude.{◌≡◌, ◌+◌, ◌*◌, ◌≤◌, ◌^◌, ℕ, List, [], Some, IfOk, length};
ghost use Rattle.std.specs.List.{AllByRecursion};
ghost use Rattle.kv_base.specs.declared.request.Request.TheVariants.{Put, Delete};
ghost use Rattle.kv_model.specs.Frames.{HasReplyFrame};
ghost use Rattle.kv_model.specs.Layout.{all_classes, class_of};
ghost use Rattle.kv_slab.specs.Fault.{StepCounted};
ghost use Rattle.kv_worker.specs.Answering.{Answers, AnswersIn, AreAnsweredSo, CanAnswer};
ghost use Rattle.kv_worker.specs.Answering.{CanAnswerIn, HasGoodSizes};
ghost use Rattle.kv_worker.specs.Batches.{requests_in};
ghost use Rattle.kv_worker.specs.Course.{Follows, IsSlab, course_of};
ghost use Rattle.kv_worker.specs.Reads.{HasRead, IsReady};
ghost use Rattle.kv_worker.specs.Worker.{start_of};

use crate::append::{append, with_room};
use crate::overlay::Last;
use crate::pass::Pass;
use crate::room::{is_full, slot_for};
use crate::value::{get, has_value};
use kv_base::{NoMemory, Reply, Request};
use kv_disk::Disk;
use kv_index::Index;
use kv_ring::Task;
use kv_slab::{Slabs, StepFault};
use kv_slot::class_of;
use std::alloc::Global;

/// Answers a put of an item of the class. The one error is want of memory.
fn put<'a, D: Disk, I: Index>(
    slabs: &Slabs<D, I>,
    pass: &mut Pass<'a>,
    key: &'a [u8],
    class: u8,
    task: u16,
    stamp: u64,
) -> Result<Reply, NoMemory>
    requires slab { IsSlab class }
    requires stands { (value : List ℕ)
        × (class_of all_classes (length key.now) (length value) ≡ Some class)
        × CanAnswer pass.old (start_of ⟦<D as Disk>⟧ ⟦<I as Index>⟧ slabs.now)
        (Put key.now value) task stamp }
    ensures reply { IfOk result (λ reply. (value : List ℕ)
        → class_of all_classes (length key.now) (length value) ≡ Some class
        → Answers D.tells pass.old (start_of ⟦<D as Disk>⟧ ⟦<I as Index>⟧ slabs.now)
        (Put key.now value) task stamp reply pass.new) }
    ensures framed { IfOk result HasReplyFrame }
{
    let before = pass.overlay.find(key);
    let slot = slot_for(slabs, key, class);
    if is_full(slabs, pass, before, slot) {
        return Ok(Reply::Full { class });
    }
    pass.accept(key, before, Last { task, slot })?;
    Ok(Reply::Stored { stamp })
}

/// Answers a delete. The one error is want of memory.
fn delete<'a, D: Disk, I: Index>(
    slabs: &Slabs<D, I>,
    pass: &mut Pass<'a>,
    tasks: &[(u32, Task)],
    key: &'a [u8],
    task: u16,
    stamp: u64,
) -> Result<Reply, NoMemory>
    requires { CanAnswerIn pass.old (start_of ⟦<D as Disk>⟧ ⟦<I as Index>⟧ slabs.now)
        (requests_in tasks.now) (Delete key.now) task stamp }
    ensures reply { IfOk result (λ reply. AnswersIn D.tells pass.old
        (start_of ⟦<D as Disk>⟧ ⟦<I as Index>⟧ slabs.now) (requests_in tasks.now) (Delete key.now)
        task stamp reply pass.new) }
    ensures framed { IfOk result HasReplyFrame }
{
    let before = pass.overlay.find(key);
    let has = has_value(slabs, before, tasks, key);
    pass.accept(key, before, Last { task, slot: None })?;
    if has {
        Ok(Reply::Removed { stamp })
    } else {
        Ok(Reply::Absent { stamp })
    }
}

/// Answers one request. A fault is that of the store, or want of memory.
fn answer<'a, D: Disk, I: Index>(
    alloc: Global,
    slabs: &mut Slabs<D, I>,
    pass: &mut Pass<'a>,
    tasks: &'a [(u32, Task)],
    request: &'a Request,
    task: u16,
    stamp: u64,
) -> Result<Reply, StepFault>
    requires ready { IsReady ⟦<I as Index>⟧ slabs.old }
    requires good { AllByRecursion HasGoodSizes (requests_in tasks.now) }
    requires stands { CanAnswerIn pass.old (start_of ⟦<D as Disk>⟧ ⟦<I as Index>⟧ slabs.old)
        (requests_in tasks.now) request.now task stamp }
    ensures reply { IfOk result (λ reply. AnswersIn D.tells pass.old
        (start_of ⟦<D as Disk>⟧ ⟦<I as Index>⟧ slabs.old) (requests_in tasks.now) request.now task
        stamp reply pass.new) }
    ensures framed { IfOk result HasReplyFrame }
    ensures read { HasRead ⟦<D as Disk>⟧ 16 slabs.old slabs.new }
    ensures cause { StepCounted (D.faults slabs.old.disk.disk) (D.faults slabs.new.disk.disk)
        result }
{
    match request {
        Request::Put { key, value } => match class_of(key.len(), value.len()) {
            Some(class) => Ok(put(slabs, pass, key.as_slice(), class, task, stamp)?),
            None => Ok(Reply::TooLarge),
        },
        Request::Get { key } => {
            let last = pass.overlay.find(key.as_slice());
            get(alloc, slabs, last, tasks, key.as_slice(), stamp)
        }
        Request::Delete { key } => Ok(delete(slabs, pass, tasks, key.as_slice(), task, stamp)?),
        Request::Flush | Request::After { .. } => Ok(Reply::BadKey),
    }
}

/// Answers the requests of a batch, one behind the other. A fault is that of the store, or want of
/// memory.
pub fn answer_all<'a, D: Disk, I: Index>(
    alloc: Global,
    slabs: &mut Slabs<D, I>,
    pass: &mut Pass<'a>,
    tasks: &'a [(u32, Task)],
    base: u64,
) -> Result<Vec<Reply>, StepFault>
    requires ready { IsReady ⟦<I as Index>⟧ slabs.old }
    requires begins { Follows (course_of (start_of ⟦<D as Disk>⟧ ⟦<I as Index>⟧ slabs.old)
        (requests_in tasks.now) base) [] pass.old }
    requires good { AllByRecursion HasGoodSizes (requests_in tasks.now) }
    requires few { length tasks.now ≤ 512 }
    requires stamps { base + length tasks.now ≤ 2 ^ 62 }
    ensures replies { IfOk result (λ replies. AreAnsweredSo D.tells
        (start_of ⟦<D as Disk>⟧ ⟦<I as Index>⟧ slabs.old) (requests_in tasks.now)
        (requests_in tasks.now) base replies.items pass.new) }
    ensures framed { IfOk result (λ replies. AllByRecursion HasReplyFrame replies.items) }
    ensures read { HasRead ⟦<D as Disk>⟧ (16 * length tasks.now) slabs.old slabs.new }
    ensures cause { StepCounted (D.faults slabs.old.disk.disk) (D.faults slabs.new.disk.disk)
        result }
{
    let mut replies = with_room(alloc, tasks.len())?;
    let mut task: u16 = 0;
    for item in tasks {
        let request = &item.1.request;
        let stamp = base + u64::from(task);
        let reply = answer(alloc, slabs, pass, tasks, request, task, stamp)?;
        append(&mut replies, reply)?;
        task += 1;
    }
    Ok(replies)
}
