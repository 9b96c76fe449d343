ghost use Rattle.std.specs.Prelude.{◌≡◌, ℕ, ◌≤◌, ◌<◌, ◌+◌, ◌-◌, List, [], ◌∷◌, ◌++◌, true, false};
ghost use Rattle.std.specs.Prelude.{length, drop, reverse, Some, IsSome, IfOk, ◌↔◌, if◌then◌else◌};
ghost use Rattle.std.specs.List.{AllByRecursion};
ghost use Rattle.kv_base.specs.declared.reply.Reply.{Reply as ReplyOf};
ghost use Rattle.kv_base.specs.Calls.{next_count};
ghost use Rattle.kv_base.specs.Stream.{Takes};
ghost use Rattle.kv_model.specs.Frames.{HasReplyFrame};
ghost use Rattle.kv_model.specs.Transcript.{GoesOut};
ghost use Rattle.kv_session.specs.Outgoing.{HoldsFirst, Sends, replies_behind};
ghost use Rattle.kv_session.specs.Tasks.{HaveReplies};

use crate::pieces::Pieces;
use kv_base::{Cause, NoMemory, Replies, Reply, ReservedList, Sink};
use kv_ring::{Task, Tasks};
use std::alloc::Global;
use std::marker::Model;
use std::mem;

/// The most replies: those of a group, and one behind them.
const MOST_REPLIES: usize = 65;

/// Replies that are to go out. The list has the last of them first, so that those that went out are
/// taken off its end. Contracts see the replies in order, and the room beside them.
#[derive(Drop)]
pub struct Outbox {
    replies: Replies,
    pieces: Pieces,
}

impl Model for Outbox {
    ghost use Rattle.std.specs.Prelude.{reverse};
    ghost use Rattle.kv_base.specs.declared.reply.Reply.{Reply};
    ghost use Rattle.kv_base.specs.Reserved.{Reserved};

    ghost Value = { Reserved Reply };

    ghost view = { λ o. record { items = reverse o.replies.items; spare = o.replies.spare } };
}

impl Outbox {
    /// No replies. Takes the room.
    pub fn new(alloc: Global) -> Result<Outbox, NoMemory>
        ensures empty { IfOk result (λ outbox. outbox.items ≡ []) }
        ensures room { IfOk result (λ outbox. 65 ≤ outbox.spare) }
    {
        Ok(Outbox {
            replies: ReservedList::with_room(alloc, MOST_REPLIES)?,
            pieces: Pieces::new(alloc)?,
        })
    }

    /// Whether there is no reply.
    fn is_empty(&self) -> bool
        ensures { result ≡ true ↔ (self.now.items ≡ []) }
    {
        self.replies.as_slice().is_empty()
    }

    /// Puts the reply before the others. Takes no memory.
    pub fn put_first(&mut self, reply: Reply)
        requires { 0 < self.old.spare }
        ensures items { self.new.items ≡ reply ∷ self.old.items }
        ensures spare { self.new.spare + 1 ≡ self.old.spare }
    {
        self.replies.append(reply).unwrap();
    }

    /// Takes the replies of all tasks, and behind them the one that says so where reading has ended
    /// as malformed. The list of tasks is empty then. Takes no memory.
    pub fn load(&mut self, tasks: &mut Tasks, closing: Option<Cause>)
        requires answered { (replies : List ReplyOf) × HaveReplies tasks.old.items replies
            × AllByRecursion HasReplyFrame replies }
        requires empty { self.old.items ≡ [] }
        requires room { length tasks.old.items < self.old.spare }
        ensures items { (replies : List ReplyOf) → HaveReplies tasks.old.items replies
            → self.new.items ≡ replies ++ replies_behind closing }
        ensures framed { AllByRecursion HasReplyFrame self.new.items }
        ensures few { length self.new.items ≤ length tasks.old.items + 1 }
        ensures spare { self.new.spare + length self.new.items ≡ self.old.spare }
        ensures no_tasks { tasks.new.items ≡ [] }
        ensures given_back { tasks.new.spare ≡ tasks.old.spare + length tasks.old.items }
    {
        match closing {
            Some(Cause::Malformed { offset }) => self.put_first(Reply::Malformed { offset }),
            _ => {}
        }
        self.take_replies(tasks);
    }

    /// Puts the replies of all tasks before the others, and takes the tasks off their list. Takes
    /// no memory.
    pub fn take_replies(&mut self, tasks: &mut Tasks)
        requires answered { (replies : List ReplyOf) × HaveReplies tasks.old.items replies }
        requires room { length tasks.old.items ≤ self.old.spare }
        ensures items { (replies : List ReplyOf) → HaveReplies tasks.old.items replies
            → self.new.items ≡ replies ++ self.old.items }
        ensures spare { self.new.spare + length tasks.old.items ≡ self.old.spare }
        ensures no_tasks { tasks.new.items ≡ [] }
        ensures given_back { tasks.new.spare ≡ tasks.old.spare + length tasks.old.items }
    {
        while let Some(task) = tasks.take_last() {
            self.put_first(reply_to(task));
        }
    }

    /// Writes the frames of all replies: in one call of the sink where they fit into the buffer,
    /// and in more calls only for those that don't. It answers whether all went out; where the sink
    /// failed, those that it didn't take whole are left. Takes no memory.
    pub fn send<Si: Sink>(&mut self, sink: &mut Si) -> bool
        requires framed { AllByRecursion HasReplyFrame self.old.items }
        requires few { length self.old.items ≤ 65 }
        ensures sent { (given : List ℕ) × Takes (Si.held sink.old) (Si.held sink.new) given
            × GoesOut self.old.items given self.new.items }
        ensures all { result ≡ true → self.new.items ≡ [] }
        ensures some { result ≡ false → 1 ≤ length self.new.items }
        ensures spare { self.new.spare + length self.new.items
            ≡ self.old.spare + length self.old.items }
        ensures counted { Si.faults sink.new
            ≡ (if result then Si.faults sink.old else next_count (Si.faults sink.old)) }
    {
        while !self.is_empty() {
            if !self.send_first(sink) {
                return false;
            }
        }
        true
    }

    /// Writes the frames of the first replies, as many as fit into the buffer, in one call of the
    /// sink. It answers whether they all went out; those that did are taken off.
    fn send_first<Si: Sink>(&mut self, sink: &mut Si) -> bool
        requires framed { AllByRecursion HasReplyFrame self.old.items }
        requires some { 1 ≤ length self.old.items }
        requires few { length self.old.items ≤ 65 }
        ensures sent { (given : List ℕ) × Takes (Si.held sink.old) (Si.held sink.new) given
            × Sends result self.old.items given self.new.items }
        ensures spare { self.new.spare + length self.new.items
            ≡ self.old.spare + length self.old.items }
        ensures counted { Si.faults sink.new
            ≡ (if result then Si.faults sink.old else next_count (Si.faults sink.old)) }
    {
        frame_last(self.replies.as_slice(), &mut self.pieces);
        let whole = self.pieces.write_to(sink);
        take_off(&mut self.replies, whole);
        whole == self.pieces.len()
    }

    /// Gives the replies in order, with their room. No room is left then. Takes no memory.
    pub fn take_left(&mut self, alloc: Global) -> Replies
        ensures items { result.items ≡ self.old.items }
        ensures empty { self.new.items ≡ [] }
    {
        let no_room = ReservedList::with_room(alloc, 0).unwrap();
        let mut left = mem::replace(&mut self.replies, no_room);
        left.as_mut_slice().reverse();
        left
    }
}

/// The reply of a task that has one.
fn reply_to(task: Task) -> Reply
    requires { IsSome task.reply }
    ensures { task.reply ≡ Some result }
{
    let Task { reply, .. } = task;
    reply.unwrap()
}

/// Puts the frames of the last replies into the pieces, the last one first, as many as fit.
fn frame_last(replies: &[Reply], pieces: &mut Pieces)
    requires framed { AllByRecursion HasReplyFrame (reverse replies.now) }
    requires few { length replies.now ≤ 65 }
    ensures { HoldsFirst pieces.new (reverse replies.now) }
{
    pieces.clear();
    let mut left = replies;
    while let Some((reply, earlier)) = left.split_last() {
        if !pieces.add(reply) {
            return;
        }
        left = earlier;
    }
}

/// Takes so many replies off the end of the list.
fn take_off(replies: &mut Replies, count: usize)
    requires { count ≤ length replies.old.items }
    ensures items { reverse replies.new.items ≡ drop count (reverse replies.old.items) }
    ensures spare { replies.new.spare ≡ replies.old.spare + count }
{
    for _ in 0..count {
        let _ = replies.take_last();
    }
}
