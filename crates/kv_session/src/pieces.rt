ghost use Rattle.std.specs.Prelude.{◌≡◌, ℕ, ◌≤◌, ◌<◌, List, [], length, drop, IfOk};
ghost use Rattle.kv_base.specs.declared.reply.Reply.{Reply as ReplyOf};
ghost use Rattle.kv_base.specs.Pieces.{CountedPieces};
ghost use Rattle.kv_base.specs.Stream.{Takes};
ghost use Rattle.kv_model.specs.Frames.{HasReplyFrame};
ghost use Rattle.kv_model.specs.Transcript.{GoesOut};
ghost use Rattle.kv_session.specs.Outgoing.{HoldsFrames, AddsFrame};

use kv_base::{NoMemory, Reply, Sink};
use kv_frames::put_reply;
use std::alloc::Global;
use std::marker::Model;

/// The bytes of the longest frame.
const LONGEST_FRAME: usize = 66_004;

/// The most bytes of all frames together: some replies of the longest, or many short ones.
const ROOM: usize = 4 * LONGEST_FRAME;

/// The most frames: the replies of a group, and one behind them.
const MOST_FRAMES: usize = 65;

/// Frames of replies, one behind the other, that go to a sink in one call. Contracts see the bytes
/// and where each frame ends.
#[derive(Drop)]
pub struct Pieces {
    frame: Vec<u8>,
    bytes: Vec<u8>,
    ends: Vec<usize>,
}

impl Model for Pieces {
    ghost use Rattle.std.specs.Prelude.{◌≤◌, vec_len, vec_capacity};
    ghost use Rattle.kv_session.specs.Outgoing.{Framed};

    ghost Value = { Framed };

    ghost view = { λ p. record { bytes = p.bytes.items; ends = p.ends.items } };

    ghost invariant = { λ p. (66004 ≤ vec_capacity p.frame) × (264016 ≤ vec_capacity p.bytes)
        × (vec_len p.bytes ≤ 264016) × (65 ≤ vec_capacity p.ends) };
}

impl Pieces {
    /// No frames. Takes the room.
    pub fn new(alloc: Global) -> Result<Pieces, NoMemory>
        ensures { IfOk result (λ pieces. HoldsFrames pieces []) }
    {
        Ok(Pieces {
            frame: Vec::with_capacity(alloc, LONGEST_FRAME)?,
            bytes: Vec::with_capacity(alloc, ROOM)?,
            ends: Vec::with_capacity(alloc, MOST_FRAMES)?,
        })
    }

    /// How many frames there are.
    pub fn len(&self) -> usize
        ensures { result ≡ length self.now.ends }
    {
        self.ends.len()
    }

    /// Takes all frames away.
    pub fn clear(&mut self)
        ensures { HoldsFrames self.new [] }
    {
        self.bytes.clear();
        self.ends.clear();
    }

    /// Adds the reply's frame behind the others, and answers whether it fits, as it does behind
    /// none. Takes no memory.
    pub fn add(&mut self, reply: &Reply) -> bool
        requires framed { HasReplyFrame reply.now }
        requires few { length self.old.ends < 65 }
        ensures { AddsFrame result self.old self.new reply.now }
    {
        put_reply(reply, &mut self.frame).unwrap();
        if self.bytes.len() + self.frame.len() > ROOM {
            return false;
        }
        self.bytes.extend_from_slice(self.frame.as_slice()).unwrap();
        self.ends.push(self.bytes.len()).unwrap();
        true
    }

    /// Writes all frames in one call of the sink. It answers how many went out whole: fewer than
    /// all only where the sink failed.
    pub fn write_to<Si: Sink>(&self, sink: &mut Si) -> usize
        requires { (replies : List ReplyOf) × HoldsFrames self.now replies }
        ensures some { result ≤ length self.now.ends }
        ensures sent { (replies : List ReplyOf) → HoldsFrames self.now replies → (given : List ℕ)
            × Takes (Si.held sink.old) (Si.held sink.new) given
            × GoesOut replies given (drop result replies) }
        ensures counted { CountedPieces (Si.faults sink.old) (Si.faults sink.new) result
            (length self.now.ends) }
    {
        sink.write_pieces(self.bytes.as_slice(), self.ends.as_slice())
    }
}
