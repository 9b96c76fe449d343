ghost use Rattle.std.specs.Prelude.{◌≡◌, ℕ, ◌≤◌, ◌<◌, ◌+◌, List, [], ◌∷◌, ◌++◌, length, IsSome};
ghost use Rattle.std.specs.Prelude.{IfOk};
ghost use Rattle.std.specs.Prelude.{slice_set, true, reverse};
ghost use Rattle.std.specs.List.{AllByRecursion};
ghost use Rattle.kv_base.specs.Partition.{owner_of};
ghost use Rattle.kv_base.specs.declared.reply.Reply.{Reply as ReplyOf};
ghost use Rattle.kv_model.specs.Pairs.{key_of};
ghost use Rattle.kv_parties.specs.Setting.{IsOwned};
ghost use Rattle.kv_ring.specs.declared.task.Task.{Task as TaskOf};
ghost use Rattle.kv_session.specs.Tasks.{HaveReplies};
ghost use Rattle.kv_session_party.specs.Routes.{IsRouted, IsBare, IsRoutable, IsKept, AreKept};
ghost use Rattle.kv_session_party.specs.Routes.{IsPlaced, IsPut};
ghost use Rattle.kv_session_party.specs.Parts.{part_of, tasks_out, part_out, is_away, part_after};
ghost use Rattle.kv_parties.specs.Messages.{IsReplied};
ghost use Rattle.kv_session_party.specs.Merging.{AreAnswered, IsMerged};
ghost use Rattle.kv_session_party.specs.Parts.{is_taken, tasks_here};
ghost use Rattle.kv_session_party.specs.Merging.{IsReady, RepliesAt};
ghost use Rattle.kv_session_party.specs.Parts.{replies_in, all_here};

use crate::part::{self, Part};
use kv_base::{NoMemory, Reply, Request, ReservedList, owner};
use kv_ring::{Answer, Task, Tasks};
use std::alloc::Global;
use std::marker::Model;

/// The most requests of a group.
const MOST_REQUESTS: usize = 64;

/// Who answers a request of a group.
#[derive(Debug, Drop)]
pub enum Place {
    /// The session itself.
    Own {
        /// The reply.
        reply: Reply,
    },
    /// A worker.
    Worker {
        /// Its number.
        number: u32,
    },
}

/// A group of at most 64 requests on its way: who answers each of them, and each worker's tasks.
#[derive(Drop)]
pub struct Routes {
    places: ReservedList<Place>,
    parts: Vec<Part>,
}

impl Model for Routes {
    ghost use Rattle.std.specs.Prelude.{◌≤◌, ◌+◌, length, vec_len};
    ghost use Rattle.kv_session_party.specs.Routes.{RoutesState};

    ghost Value = { RoutesState };

    ghost view = { λ r. record { places = r.places.items; parts = r.parts.items } };

    ghost invariant = { λ r. (64 ≤ length r.places.items + r.places.spare)
        × (1 ≤ vec_len r.parts) × (vec_len r.parts ≤ 16) };
}

/// The worker, of so many, that owns the key that the request is about.
fn owner_for(request: &Request, workers: u32) -> u32
    requires some { 1 ≤ workers }
    requires limit { workers ≤ 16 }
    requires keyed { IsSome (key_of request.now) }
    ensures owner { IsOwned workers result request.now }
    ensures below { result < workers }
{
    match request {
        Request::Put { key, value: _ } => owner(key.as_slice(), workers),
        Request::Get { key } => owner(key.as_slice(), workers),
        Request::Delete { key } => owner(key.as_slice(), workers),
        Request::Flush | Request::After { stamp: _ } => unreachable!(),
    }
}

impl Routes {
    /// A group of no request, for so many workers, 1 to 16. Takes the room for 64 requests, and for
    /// as many tasks of each worker.
    pub fn new(alloc: Global, workers: u32) -> Result<Routes, NoMemory>
        requires some { 1 ≤ workers }
        requires limit { workers ≤ 16 }
        ensures bare { IfOk result IsBare }
        ensures count { IfOk result (λ routes. length routes.parts ≡ workers) }
    {
        let mut parts = Vec::with_capacity(alloc, workers as usize)?;
        for _made in 0..workers {
            let tasks = ReservedList::with_room(alloc, MOST_REQUESTS)?;
            parts.push(Part::Here { tasks })?;
        }
        Ok(Routes {
            places: ReservedList::with_room(alloc, MOST_REQUESTS)?,
            parts,
        })
    }

    /// Routes the tasks of a group, in their order: one that has its reply stands for itself, each
    /// other one goes to the worker that owns its key, or is answered NoMemory where there is none
    /// for it.
    pub fn split(&mut self, tasks: &mut Tasks)
        requires bare { IsBare self.old }
        requires few { length tasks.old.items ≤ 64 }
        requires routable { AllByRecursion IsRoutable tasks.old.items }
        ensures routed { (kept : List TaskOf) × AreKept tasks.old.items kept
            × IsRouted kept self.new }
        ensures size { length self.new.parts ≡ length self.old.parts }
        ensures no_tasks { tasks.new.items ≡ [] }
        ensures spare { tasks.new.spare ≡ tasks.old.spare + length tasks.old.items }
    {
        turn_round(tasks);
        while let Some(task) = tasks.take_last() {
            self.add(task);
        }
    }

    /// Routes one more task.
    fn add(&mut self, task: Task)
        requires few { length self.old.places < 64 }
        requires routable { IsRoutable task }
        ensures routed { (kept : TaskOf) × IsKept task kept
            × ((tasks : List TaskOf) → IsRouted tasks self.old
            → IsRouted (tasks ++ kept ∷ []) self.new) }
        ensures size { length self.new.parts ≡ length self.old.parts }
        ensures many { length self.new.places ≡ length self.old.places + 1 }
    {
        let place = place_task(&mut self.parts, task);
        self.places.append(place).unwrap();
    }

    /// How many workers there are.
    pub fn workers(&self) -> u32
        ensures value { result ≡ length self.now.parts }
        ensures limit { (1 ≤ result) × (result ≤ 16) }
    {
        self.parts.len() as u32
    }

    /// Takes the worker's tasks out, if there are any; they are away then.
    pub fn take_out(&mut self, worker: u32) -> Option<Tasks>
        requires { worker < length self.old.parts }
        ensures tasks { result ≡ tasks_out (part_of self.old.parts worker) }
        ensures parts { self.new.parts
            ≡ slice_set self.old.parts worker (part_out (part_of self.old.parts worker)) }
        ensures places { self.new.places ≡ self.old.places }
    {
        part::take_out(&mut self.parts[worker as usize])
    }

    /// Whether the worker's tasks are away.
    pub fn is_away(&self, worker: u32) -> bool
        requires { worker < length self.now.parts }
        ensures { result ≡ is_away (part_of self.now.parts worker) }
    {
        part::is_away(&self.parts[worker as usize])
    }

    /// Takes an answer of the worker, and passes over one that isn't to its tasks.
    pub fn accept<F: Drop>(&mut self, worker: u32, answer: Answer<F>)
        requires { worker < length self.old.parts }
        ensures parts { self.new.parts
            ≡ slice_set self.old.parts worker (part_after (part_of self.old.parts worker) answer) }
        ensures replied { is_taken (part_of self.old.parts worker) answer ≡ true
            → AllByRecursion IsReplied
            (tasks_here (part_after (part_of self.old.parts worker) answer)) }
        ensures places { self.new.places ≡ self.old.places }
    {
        part::accept(&mut self.parts[worker as usize], answer);
    }

    /// Whether no worker's tasks are away.
    pub fn all_here(&self) -> bool
        ensures { result ≡ all_here self.now.parts }
    {
        for part in &self.parts {
            if part::is_away(part) {
                return false;
            }
        }
        true
    }

    /// Puts all replies into the order of the requests, as tasks that have nothing else. The group
    /// has no request then. Takes no memory.
    pub fn merge(&mut self, tasks: &mut Tasks)
        requires empty { tasks.old.items ≡ [] }
        requires room { 64 ≤ tasks.old.spare }
        requires few { length self.old.places ≤ 64 }
        requires answered { AreAnswered self.old.places self.old.parts }
        ensures merged { (replies : List ReplyOf) × HaveReplies tasks.new.items replies
            × IsMerged self.old.places
            (λ worker. replies_in (tasks_here (part_of self.old.parts worker))) replies }
        ensures bare { IsBare self.new }
        ensures size { length self.new.parts ≡ length self.old.parts }
        ensures spare { tasks.new.spare + length tasks.new.items ≡ tasks.old.spare }
        ensures many { length tasks.new.items ≡ length self.old.places }
    {
        while let Some(place) = self.places.take_last() {
            let reply = take_reply(&mut self.parts, place);
            tasks.append(answered(reply)).unwrap();
        }
        turn_round(tasks);
    }
}

/// The place of the task: the session's where it has its reply, else that of its request.
fn place_task(parts: &mut Vec<Part>, task: Task) -> Place
    requires some { 1 ≤ length parts.old.items }
    requires limit { length parts.old.items ≤ 16 }
    requires routable { IsRoutable task }
    ensures { IsPut parts.old.items parts.new.items task result }
{
    let Task { request, reply } = task;
    match reply {
        Some(reply) => Place::Own { reply },
        None => place_request(parts, request),
    }
}

/// Puts a task for the request behind those of the worker that owns its key.
fn place_request(parts: &mut Vec<Part>, request: Request) -> Place
    requires some { 1 ≤ length parts.old.items }
    requires limit { length parts.old.items ≤ 16 }
    requires keyed { IsSome (key_of request) }
    ensures { IsPlaced parts.old.items parts.new.items request result }
{
    let worker = owner_for(&request, parts.len() as u32);
    if part::add_task(&mut parts[worker as usize], request) {
        Place::Worker { number: worker }
    } else {
        Place::Own {
            reply: Reply::NoMemory,
        }
    }
}

/// Takes the reply for the place: its own, or that of the last task of its worker's part.
fn take_reply(parts: &mut Vec<Part>, place: Place) -> Reply
    requires { IsReady place parts.old.items }
    ensures { RepliesAt place parts.old.items parts.new.items result }
{
    match place {
        Place::Own { reply } => reply,
        Place::Worker { number } => part::take_reply(&mut parts[number as usize]),
    }
}

/// Puts the tasks into the other order.
fn turn_round(tasks: &mut Tasks)
    ensures items { tasks.new.items ≡ reverse tasks.old.items }
    ensures many { length tasks.new.items ≡ length tasks.old.items }
    ensures spare { tasks.new.spare ≡ tasks.old.spare }
{
    tasks.as_mut_slice().reverse();
}

/// A task that has its reply and nothing else.
fn answered(reply: Reply) -> Task
    ensures { result ≡ record { request = Request.Flush; reply = Some reply } }
{
    Task {
        request: Request::Flush,
        reply: Some(reply),
    }
}
