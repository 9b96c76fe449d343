ghost use Rattle.std.specs.Prelude.{◌≡◌, ◌+◌, ◌≤◌, ◌^◌, length, vec_len};
ghost use Rattle.kv_model.specs.Batch.{failed_replies, failed_reply};
ghost use Rattle.kv_worker.specs.Batches.{requests_in};
ghost use Rattle.kv_worker.specs.Refusals.{is_full_reply};

use kv_base::{Reply, Request};
use kv_ring::Task;

/// Whether a put was refused for want of a slot.
fn is_full(reply: &Reply) -> bool
    ensures { result ≡ is_full_reply reply.now }
{
    matches!(reply, Reply::Full { .. })
}

/// Puts the reply of a batch of which a write failed in place of this one.
fn fail(reply: &mut Reply, request: &Request, stamp: u64)
    ensures { reply.new ≡ failed_reply request.now stamp reply.old }
{
    match request {
        Request::Put { .. } => {
            if !is_full(reply) {
                *reply = Reply::Unsure { stamp };
            }
        }
        Request::Get { .. } => *reply = Reply::DiskFault,
        Request::Delete { .. } => *reply = Reply::Unsure { stamp },
        Request::Flush | Request::After { .. } => {}
    }
}

/// The replies where a write failed. Takes no memory.
pub fn fail_all(mut replies: Vec<Reply>, tasks: &[(u32, Task)], base: u64) -> Vec<Reply>
    requires same { vec_len replies ≡ length tasks.now }
    requires stamps { base + length tasks.now ≤ 2 ^ 62 }
    ensures { result.items ≡ failed_replies base (requests_in tasks.now) replies.items }
{
    let mut at: usize = 0;
    for item in tasks {
        fail(&mut replies[at], &item.1.request, base + at as u64);
        at += 1;
    }
    replies
}
