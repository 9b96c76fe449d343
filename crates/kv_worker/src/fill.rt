ghost use Rattle.std.specs.Prelude.{◌≡◌, Some, length, map};
ghost use Rattle.kv_worker.specs.Batches.{AreAnswered, requests_in};
ghost use Rattle.kv_worker.specs.Refusals.{reply_for};

use crate::batch::Batch;
use crate::refusal::Refusal;
use kv_base::Reply;
use kv_ring::Task;

/// Gives the task its reply.
fn set_reply(item: &mut (u32, Task), reply: Reply)
    ensures session { item.new.0 ≡ item.old.0 }
    ensures request { item.new.1.request ≡ item.old.1.request }
    ensures reply { item.new.1.reply ≡ Some reply }
{
    item.1.reply = Some(reply);
}

/// Gives each task its reply, in their order. Takes no memory.
pub fn set_replies(batch: &mut Batch, replies: Vec<Reply>)
    requires { length replies.items ≡ length batch.old.items }
    ensures answered { AreAnswered batch.old.items batch.new.items replies.items }
    ensures spare { batch.new.spare ≡ batch.old.spare }
{
    let tasks = batch.as_mut_slice();
    let mut at: usize = 0;
    for reply in replies {
        set_reply(&mut tasks[at], reply);
        at += 1;
    }
}

/// Gives each task the reply that tells the refusal. Takes no memory.
pub fn refuse_all(batch: &mut Batch, refusal: Refusal)
    ensures answered { AreAnswered batch.old.items batch.new.items
        (map (λ _. reply_for refusal) (requests_in batch.old.items)) }
    ensures spare { batch.new.spare ≡ batch.old.spare }
{
    let tasks = batch.as_mut_slice();
    for at in 0..tasks.len() {
        set_reply(&mut tasks[at], refusal.reply());
    }
}
