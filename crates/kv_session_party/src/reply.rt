ghost use Rattle.std.specs.Prelude.{◌≡◌, Some, IsSome};

use kv_base::Reply;
use kv_ring::Task;

/// The reply of a task that has one.
pub fn reply_to(task: Task) -> Reply
    requires { IsSome task.reply }
    ensures { task.reply ≡ Some result }
{
    let Task { reply, .. } = task;
    reply.unwrap()
}
