ghost use Rattle.std.specs.Prelude.{◌≡◌, [], ◌∷◌, unwrap_or};
ghost use Rattle.kv_model.specs.Pairs.{stamp_of};
ghost use Rattle.kv_session_party.specs.Party.{greatest_in};

use kv_base::Reply;
use kv_ring::Task;

/// The stamp that the reply carries, 0 where it carries none.
fn stamp_in(reply: &Reply) -> u64
    ensures { result ≡ unwrap_or (stamp_of reply.now) 0 }
{
    match reply {
        Reply::Stored { stamp } => *stamp,
        Reply::Found { stamp, value: _ } => *stamp,
        Reply::Missing { stamp } => *stamp,
        Reply::Removed { stamp } => *stamp,
        Reply::Absent { stamp } => *stamp,
        Reply::Unsure { stamp } => *stamp,
        Reply::BadKey
        | Reply::TooLarge
        | Reply::Full { class: _ }
        | Reply::NoMemory
        | Reply::DiskFault
        | Reply::Closed
        | Reply::StampsSpent { number: _ }
        | Reply::Malformed { offset: _ }
        | Reply::Noted
        | Reply::Ahead { number: _ } => 0,
    }
}

/// The greatest of this number and the stamp of the task's reply.
fn greater(task: &Task, seen: u64) -> u64
    ensures { result ≡ greatest_in seen (task.now ∷ []) }
{
    match &task.reply {
        Some(reply) => seen.max(stamp_in(reply)),
        None => seen,
    }
}

/// The greatest of this number and the stamps of the tasks' replies.
pub fn greatest(tasks: &[Task], seen: u64) -> u64
    ensures { result ≡ greatest_in seen tasks.now }
{
    let mut greatest = seen;
    let mut left = tasks;
    while let Some((task, later)) = left.split_first() {
        greatest = greater(task, greatest);
        left = later;
    }
    greatest
}
