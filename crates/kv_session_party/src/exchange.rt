ghost use Rattle.std.specs.Prelude.{◌≡◌, ◌≢◌, ℕ, ◌<◌, ◌++◌, None, length};
ghost use Rattle.kv_ring.specs.Ends.{peers, SameRings};
ghost use Rattle.kv_session_party.specs.Exchanges.{Asks, AsksOne, Receives, ReceivesOne};
ghost use Rattle.kv_session_party.specs.Links.{waiting_for};

use crate::links::Links;
use crate::routes::Routes;
use crate::send::either;
use kv_ring::Ask;

/// Sends each worker that has a task of the group all of its own, in one message.
pub fn ask<F: Drop>(links: &mut Links<F>, routes: &mut Routes, seen: u64)
    requires size { length routes.old.parts ≡ peers links.old.ends }
    requires free { (worker : ℕ) → waiting_for links.old worker ≡ None }
    ensures { Asks seen links.old links.new routes.old routes.new }
{
    for worker in 0..routes.workers() {
        ask_one(links, routes, seen, worker);
    }
}

/// The same of one worker.
fn ask_one<F: Drop>(links: &mut Links<F>, routes: &mut Routes, seen: u64, worker: u32)
    requires part { worker < length routes.old.parts }
    requires peer { worker < peers links.old.ends }
    requires free { waiting_for links.old worker ≡ None }
    ensures { AsksOne worker seen links.old links.new routes.old routes.new }
{
    if let Some(tasks) = routes.take_out(worker) {
        links.tell(worker, Ask::Group { seen, tasks });
    }
}

/// Takes the next answer of each worker that owes one, and passes over one that isn't to its tasks.
/// The answer is whether any came.
pub fn receive<F: Drop>(links: &mut Links<F>, routes: &mut Routes) -> bool
    requires { length routes.old.parts ≡ peers links.old.ends }
    ensures { Receives links.old links.new routes.old routes.new result }
{
    let mut moved = false;
    for worker in 0..routes.workers() {
        let came = receive_from(links, routes, worker);
        moved = either(moved, came);
    }
    moved
}

/// The same of one worker.
fn receive_from<F: Drop>(links: &mut Links<F>, routes: &mut Routes, worker: u32) -> bool
    requires part { worker < length routes.old.parts }
    requires peer { worker < peers links.old.ends }
    ensures { ReceivesOne worker links.old links.new routes.old routes.new result }
{
    if !routes.is_away(worker) || links.waits_for(worker) {
        return false;
    }
    match links.pop(worker) {
        Some(answer) => {
            routes.accept(worker, answer);
            true
        }
        None => false,
    }
}
