ghost use Rattle.std.specs.Prelude.{◌≡◌, not, is_some, length};
ghost use Rattle.kv_model.specs.Agreement.{refusal_of};
ghost use Rattle.kv_model.specs.Head.{IsWorker};
ghost use Rattle.kv_model.specs.Layout.{all_classes, is_key_length};
ghost use Rattle.kv_model.specs.Pairs.{key_of};
ghost use Rattle.kv_groups.specs.Taking.{owns_key, takes_task, takes_each, takes_all};

use kv_base::{Request, owner};
use kv_ring::Task;
use kv_slot::class_of;

/// The most bytes of a key.
const LONGEST_KEY: usize = 255;

/// The most requests of a group.
const MOST_REQUESTS: usize = 64;

/// Whether the key may be stored: 1 to 255 bytes.
fn is_key(key: &[u8]) -> bool
    ensures { result ≡ is_key_length all_classes (length key.now) }
{
    !key.is_empty() && key.len() <= LONGEST_KEY
}

/// Whether the request is of good sizes.
fn has_good_sizes(request: &Request) -> bool
    ensures { result ≡ not (is_some (refusal_of all_classes request.now)) }
{
    match request {
        Request::Put { key, value } => class_of(key.len(), value.len()).is_some(),
        Request::Get { key } => is_key(key.as_slice()),
        Request::Delete { key } => is_key(key.as_slice()),
        Request::Flush | Request::After { .. } => true,
    }
}

/// Whether the request is about a key that the worker, of so many, owns.
fn owns_key(request: &Request, worker: u32, workers: u32) -> bool
    requires { IsWorker worker workers }
    ensures { result ≡ owns_key workers worker (key_of request.now) }
{
    match request {
        Request::Put { key, value: _ } => owner(key.as_slice(), workers) == worker,
        Request::Get { key } => owner(key.as_slice(), workers) == worker,
        Request::Delete { key } => owner(key.as_slice(), workers) == worker,
        Request::Flush | Request::After { .. } => false,
    }
}

/// Whether the worker, of so many, takes the task.
fn takes_task(task: &Task, worker: u32, workers: u32) -> bool
    requires { IsWorker worker workers }
    ensures { result ≡ takes_task worker workers task.now }
{
    task.reply.is_none()
        && has_good_sizes(&task.request)
        && owns_key(&task.request, worker, workers)
}

/// Whether the worker, of so many, takes each of the tasks.
fn takes_each(tasks: &[Task], worker: u32, workers: u32) -> bool
    requires { IsWorker worker workers }
    ensures { result ≡ takes_each worker workers tasks.now }
{
    for task in tasks {
        if !takes_task(task, worker, workers) {
            return false;
        }
    }
    true
}

/// Whether the worker, of so many, takes the tasks of a group.
pub fn takes_all(tasks: &[Task], worker: u32, workers: u32) -> bool
    requires { IsWorker worker workers }
    ensures { result ≡ takes_all worker workers tasks.now }
{
    tasks.len() <= MOST_REQUESTS && takes_each(tasks, worker, workers)
}
