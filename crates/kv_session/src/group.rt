ghost use Rattle.std.specs.Prelude.{◌≡◌, ◌<◌, ◌≤◌, ◌+◌, ◌^◌, List, [], None, Some, true};
ghost use Rattle.std.specs.Prelude.{length, IfSome, IsSome};
ghost use Rattle.kv_base.specs.Stream.{IsSpent};
ghost use Rattle.kv_base.specs.declared.request.Request.{Request as RequestOf};
ghost use Rattle.kv_frames.specs.View.{request_of};
ghost use Rattle.kv_model.specs.Pairs.{key_of};
ghost use Rattle.kv_session.specs.Passage.{source_faults_at};
ghost use Rattle.kv_session.specs.Reading.{HasRequest, EndsFor};
ghost use Rattle.kv_session.specs.Tasks.{AreTaken};
ghost use Rattle.kv_session.specs.Group.{IsTaken, IsKind, TakesFront, ReadsGroup, closing_of};

use crate::gathered::Gathered;
use crate::reader::Reader;
use crate::refusal::refusal;
use kv_base::{NoMemory, Reply, Request, Source};
use kv_frames::{RequestView, own};
use kv_ring::{Task, Tasks};
use std::alloc::Global;

/// The most requests of a group.
const MOST_REQUESTS: usize = 64;

/// What a request is to the group that is read.
#[derive(Drop)]
enum Kind {
    /// About a key: it has this task.
    Keyed {
        /// Its task.
        task: Task,
    },
    /// A Flush.
    Flush,
    /// An After.
    After {
        /// Its stamp.
        stamp: u64,
    },
}

/// What was used up at the front.
enum Used {
    /// A request about a key, whose task was added.
    Keyed,
    /// A Flush.
    Flush,
    /// An After.
    After {
        /// Its stamp.
        stamp: u64,
    },
}

/// Reads a group: its 64th request ended it, or a Flush or an After, which is used up, or the end
/// of reading. `tasks` is empty and has room for 64.
pub fn read_group<So: Source>(reader: &mut Reader<So>, alloc: Global, tasks: &mut Tasks) -> Gathered
    requires empty { tasks.old.items ≡ [] }
    requires room { 64 ≤ tasks.old.spare }
    ensures group { (asked : List RequestOf) × AreTaken asked tasks.new.items
        × ReadsGroup So.stream reader.old reader.new result asked }
    ensures over { IfSome (closing_of result) (λ cause. EndsFor cause reader.new.waiting
        reader.new.ended reader.new.taken) }
    ensures spent { reader.new.ended ≡ true → IsSpent (So.stream reader.new.source) }
    ensures counted { So.faults reader.new.source
        ≡ source_faults_at (closing_of result) (So.faults reader.old.source) }
    ensures limit { reader.new.taken ≤ 2 ^ 40 }
    ensures progress { closing_of result ≡ None → length reader.new.waiting + reader.old.taken
        < length reader.old.waiting + reader.new.taken }
    ensures most { length tasks.new.items ≤ 64 }
    ensures spare { tasks.new.spare + length tasks.new.items ≡ tasks.old.spare }
{
    for _ in 0..MOST_REQUESTS {
        match reader.fill() {
            Some(cause) => return Gathered::Ending { cause },
            None => {}
        }
        match take_front(reader, alloc, tasks) {
            Used::Flush => return Gathered::More,
            Used::After { stamp } => return Gathered::After { stamp },
            Used::Keyed => {}
        }
    }
    Gathered::More
}

/// Uses up the request at the front, and adds its task where it is about a key.
fn take_front<So: Source>(reader: &mut Reader<So>, alloc: Global, tasks: &mut Tasks) -> Used
    requires request { HasRequest reader.old.waiting }
    requires room { 0 < tasks.old.spare }
    ensures { TakesFront result reader.old reader.new tasks.old tasks.new }
{
    let (request, length) = reader.front();
    let kind = kind_of(alloc, &request);
    reader.pass(length);
    match kind {
        Kind::Flush => Used::Flush,
        Kind::After { stamp } => Used::After { stamp },
        Kind::Keyed { task } => {
            tasks.append(task).unwrap();
            Used::Keyed
        }
    }
}

/// What the request is, and its task where it is about a key.
fn kind_of(alloc: Global, view: &RequestView<'_>) -> Kind
    ensures { IsKind result (request_of view.now) }
{
    match view {
        RequestView::Flush => Kind::Flush,
        RequestView::After { stamp } => Kind::After { stamp: *stamp },
        RequestView::Put { .. } | RequestView::Get { .. } | RequestView::Delete { .. } => {
            Kind::Keyed {
                task: task_of(alloc, view),
            }
        }
    }
}

/// The task of a request about a key. A request of good sizes is copied. Where its sizes are bad,
/// or memory for the copy runs out, the task has the reply that says so.
fn task_of(alloc: Global, view: &RequestView<'_>) -> Task
    requires { IsSome (key_of (request_of view.now)) }
    ensures { IsTaken (request_of view.now) result }
{
    match refusal(view) {
        Some(reply) => refused(reply),
        None => match own(alloc, view) {
            Ok(request) => Task {
                request,
                reply: None,
            },
            Err(NoMemory) => refused(Reply::NoMemory),
        },
    }
}

/// A task that the session answers itself, without the request's bytes.
fn refused(reply: Reply) -> Task
    ensures { result ≡ record { request = Request.Flush; reply = Some reply } }
{
    Task {
        request: Request::Flush,
        reply: Some(reply),
    }
}
