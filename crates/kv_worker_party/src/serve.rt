ghost use Rattle.std.specs.Prelude.{◌≡◌, ℕ, ◌+◌, ◌^◌, ◌<◌, ◌≤◌, List, map, length, false};
ghost use Rattle.std.specs.List.{AllByRecursion};
ghost use Rattle.kv_base.specs.declared.reply.Reply.{Reply as ReplyOf};
ghost use Rattle.kv_base.specs.declared.reply.Reply.TheVariants.{StampsSpent as Spent};
ghost use Rattle.kv_model.specs.Frames.{HasReplyFrame};
ghost use Rattle.kv_worker.specs.Batches.{AreAnswered, IsOpenTask, requests_in};
ghost use Rattle.kv_worker_party.specs.Serving.{HasServed};

use kv_base::Reply;
use kv_disk::Disk;
use kv_index::Index;
use kv_ring::Task;
use kv_stamps::{StampSeat, Stamps};
use kv_worker::{Batch, Worker};
use std::alloc::Global;

/// Answers the task that no stamps are left from the number on.
fn refuse_one(item: &mut (u32, Task), number: u64)
    ensures session { item.new.0 ≡ item.old.0 }
    ensures request { item.new.1.request ≡ item.old.1.request }
    ensures reply { item.new.1.reply ≡ Some (Spent number) }
{
    item.1.reply = Some(Reply::StampsSpent { number });
}

/// Answers all tasks so.
fn refuse_spent(batch: &mut Batch, number: u64)
    ensures answered { AreAnswered batch.old.items batch.new.items
        (map (λ _. Spent number) (requests_in batch.old.items)) }
    ensures spare { batch.new.spare ≡ batch.old.spare }
{
    let tasks = batch.as_mut_slice();
    for at in 0..tasks.len() {
        refuse_one(&mut tasks[at], number);
    }
}

/// Answers the tasks of the batch, at most 512, with stamps of one range above all that their
/// sessions had seen. A closed worker is given none, nor is a batch without a task.
pub fn serve<D: Disk + Drop, I: Index + Drop>(
    alloc: Global,
    worker: &mut Worker<D, I>,
    stamps: &Stamps,
    seat: &mut StampSeat,
    batch: &mut Batch,
    seen: u64,
)
    requires counter { seat.old.counter ≡ stamps.now }
    requires tasks { AllByRecursion (IsOpenTask worker.old.store.worker worker.old.store.workers)
        batch.old.items }
    requires few { length batch.old.items ≤ 512 }
    requires seen { seen < 2 ^ 62 }
    requires ahead { worker.old.store.closed ≡ false → worker.old.highest < seat.old.view.seen }
    ensures served { (replies : List ReplyOf)
        × AreAnswered batch.old.items batch.new.items replies
        × AllByRecursion HasReplyFrame replies
        × HasServed ⟦<D as Disk>⟧ ⟦<I as Index>⟧ worker.old worker.new seat.old.view seat.new.view
        seen (requests_in batch.old.items) replies }
    ensures counter { seat.new.counter ≡ seat.old.counter }
    ensures spare { batch.new.spare ≡ batch.old.spare }
{
    let many = batch.as_slice().len();
    if many == 0 {
        return;
    }
    if worker.closed() {
        worker.step(alloc, batch, 0);
        return;
    }
    stamps.raise(seat, seen + 1);
    match stamps.draw(seat, many as u32) {
        Ok(base) => worker.step(alloc, batch, base),
        Err(spent) => refuse_spent(batch, spent.number),
    }
}
