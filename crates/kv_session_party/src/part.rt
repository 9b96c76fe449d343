ghost use Rattle.std.specs.Prelude.{◌≡◌, ◌<◌, ◌≤◌, ◌^◌, ◌∷◌, ◌++◌, true, nat_le, IfSome};
ghost use Rattle.std.specs.List.{AllByRecursion};
ghost use Rattle.kv_model.specs.Frames.{HasReplyFrame};
ghost use Rattle.kv_model.specs.Pairs.{stamp_of};
ghost use Rattle.kv_parties.specs.Messages.{IsReplied};
ghost use Rattle.kv_session_party.specs.Parts.{AddsTask, tasks_out, part_out, part_after, is_taken};
ghost use Rattle.kv_session_party.specs.Parts.{is_stamp, is_good, has_reply, have_replies};
ghost use Rattle.kv_session_party.specs.Parts.{answers_all, is_away, part_with, takes_tasks};
ghost use Rattle.kv_session_party.specs.Parts.{tasks_here, EndsReplied, TakesReply};

use crate::reply::reply_to;
use kv_base::{Reply, Request};
use kv_ring::{Answer, Task, Tasks};
use std::mem;

/// The most bytes of a value that has room in a reply's frame.
const LONGEST_VALUE: usize = 65_991;

/// Stamps are below this.
const LIMIT: u64 = 1 << 62;

/// A worker's tasks of a group.
#[derive(Debug, Drop)]
pub enum Part {
    /// They are here.
    Here {
        /// The tasks.
        tasks: Tasks,
    },
    /// They are at the worker.
    Away {
        /// How many they are.
        count: usize,
    },
}

/// Adds a task for the request behind the others. The answer is whether there was memory for it.
pub fn add_task(part: &mut Part, request: Request) -> bool
    ensures { AddsTask result part.old part.new (record { request = request; reply = None }) }
{
    match part {
        Part::Here { tasks } => tasks
            .append(Task {
                request,
                reply: None,
            })
            .is_ok(),
        Part::Away { count: _ } => false,
    }
}

/// Takes the tasks out, if there are any; the part is away then.
pub fn take_out(part: &mut Part) -> Option<Tasks>
    ensures tasks { result ≡ tasks_out part.old }
    ensures part { part.new ≡ part_out part.old }
{
    let count = match part {
        Part::Here { tasks } => tasks.as_slice().len(),
        Part::Away { count: _ } => 0,
    };
    if count == 0 {
        return None;
    }
    match mem::replace(part, Part::Away { count }) {
        Part::Here { tasks } => Some(tasks),
        Part::Away { count: _ } => None,
    }
}

/// Whether the part is away.
pub fn is_away(part: &Part) -> bool
    ensures { result ≡ is_away part.now }
{
    matches!(part, Part::Away { .. })
}

/// Takes an answer to the part in its place, and passes over any other one.
pub fn accept<F: Drop>(part: &mut Part, answer: Answer<F>)
    ensures part { part.new ≡ part_after part.old answer }
    ensures replied { is_taken part.old answer ≡ true
        → AllByRecursion IsReplied (tasks_here part.new) }
{
    match answer {
        Answer::Group { tasks } => accept_tasks(part, tasks),
        _ => {}
    }
}

/// The same of an answer with these tasks.
fn accept_tasks(part: &mut Part, tasks: Tasks)
    ensures part { part.new ≡ part_with tasks part.old }
    ensures replied { takes_tasks part.old tasks.items ≡ true
        → AllByRecursion IsReplied tasks.items }
{
    match part {
        Part::Here { tasks: _ } => {}
        Part::Away { count } => {
            if answers_all(*count, tasks.as_slice()) {
                *part = Part::Here { tasks };
            }
        }
    }
}

/// Whether these are so many tasks, each with a reply that goes into a frame.
fn answers_all(count: usize, tasks: &[Task]) -> bool
    ensures value { result ≡ answers_all count tasks.now }
    ensures replied { result ≡ true → AllByRecursion IsReplied tasks.now }
{
    tasks.len() == count && have_replies(tasks)
}

/// Whether each task has a reply that goes into a frame, with a stamp below 2^62 if it carries one.
fn have_replies(tasks: &[Task]) -> bool
    ensures value { result ≡ have_replies tasks.now }
    ensures replied { result ≡ true → AllByRecursion IsReplied tasks.now }
{
    let mut left = tasks;
    while let Some((task, later)) = left.split_first() {
        if !is_replied(task) {
            return false;
        }
        left = later;
    }
    true
}

/// Whether the task has such a reply.
fn is_replied(task: &Task) -> bool
    ensures value { result ≡ has_reply task.now.reply }
    ensures replied { result ≡ true → IsReplied task.now }
{
    match &task.reply {
        Some(reply) => is_good(reply),
        None => false,
    }
}

/// Whether the reply goes into a frame, as each does but a Found of too long a value, and its
/// stamp, if it carries one, is below 2^62.
fn is_good(reply: &Reply) -> bool
    ensures value { result ≡ is_good reply.now }
    ensures framed { result ≡ true → HasReplyFrame reply.now }
    ensures stamp { result ≡ true → IfSome (stamp_of reply.now) (λ stamp. stamp < 2 ^ 62) }
{
    match reply {
        Reply::Found { stamp, value } => is_stamp(*stamp) && fits(value.len()),
        Reply::Stored { stamp } => is_stamp(*stamp),
        Reply::Missing { stamp } => is_stamp(*stamp),
        Reply::Removed { stamp } => is_stamp(*stamp),
        Reply::Absent { stamp } => is_stamp(*stamp),
        Reply::Unsure { stamp } => is_stamp(*stamp),
        Reply::StampsSpent { number } => is_word(*number),
        Reply::Malformed { offset } => is_word(*offset),
        Reply::Ahead { number } => is_word(*number),
        Reply::Noted => true,
        Reply::Full { class } => is_byte(*class),
        Reply::BadKey => true,
        Reply::TooLarge => true,
        Reply::NoMemory => true,
        Reply::DiskFault => true,
        Reply::Closed => true,
    }
}

/// Whether the stamp is below 2^62.
fn is_stamp(stamp: u64) -> bool
    ensures value { result ≡ is_stamp stamp }
    ensures low { result ≡ true → stamp < 2 ^ 62 }
{
    stamp < LIMIT
}

// A number of eight bytes.
fn is_word(_number: u64) -> bool
    ensures { (result ≡ true) × (_number < 2 ^ 64) }
{
    true
}

// A number of one byte.
fn is_byte(_number: u8) -> bool
    ensures { (result ≡ true) × (_number < 256) }
{
    true
}

// Whether a value of so many bytes goes into a frame, beside its stamp.
fn fits(length: usize) -> bool
    ensures value { result ≡ nat_le length 65991 }
    ensures room { result ≡ true → length ≤ 65991 }
{
    length <= LONGEST_VALUE
}

/// Takes the reply of the last task off the part.
pub fn take_reply(part: &mut Part) -> Reply
    requires { EndsReplied (tasks_here part.old) }
    ensures { TakesReply part.old part.new result }
{
    match part {
        Part::Here { tasks } => match tasks.take_last() {
            Some(task) => reply_to(task),
            None => unreachable!(),
        },
        Part::Away { count: _ } => unreachable!(),
    }
}
