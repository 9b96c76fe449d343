ghost use Rattle.std.specs.Prelude.{◌≡◌, ℕ, List, ◌∷◌, IfOk, OnErr};
ghost use Rattle.kv_base.specs.declared.reply.Reply.{Reply};
ghost use Rattle.kv_model.specs.Frames.{BeginsWithReply, IsPartial, IsMalformedReply};
ghost use Rattle.kv_frames.specs.Reading.{bare_of, full_of, stamped_of};
ghost use Rattle.kv_frames.specs.Reading.{plain_in, found_in, reply_in, IsFoundContent};
ghost use Rattle.kv_frames.specs.Parse.{IsReplyParsed, IsReplyFound, BeginsWithFound};

use crate::cut::{Front, cut_front};
use crate::kind;
use crate::numbers::{read_number, u64_in};
use kv_base::{Bytes, NoMemory, Reply};
use std::alloc::Global;

/// What bytes of replies begin with.
#[derive(Debug, Drop)]
pub enum ReplyParsed {
    /// A reply's frame.
    Whole {
        /// The reply.
        reply: Reply,
        /// How many bytes the frame has, 5 to 66,004.
        length: usize,
    },
    /// A part of a frame, or nothing: more bytes decide.
    More,
    /// No frame, whatever bytes follow.
    Malformed,
}

/// Parses the reply that the bytes begin with. The one error is want of memory for the value of a
/// `Found`; all else takes no memory.
pub fn parse_reply(alloc: Global, bytes: &[u8]) -> Result<ReplyParsed, NoMemory>
    ensures cases { IfOk result (λ parsed. IsReplyParsed parsed bytes.now) }
    ensures whole { (reply : Reply) (rest : List ℕ) → BeginsWithReply bytes.now reply rest
        → IfOk result (λ parsed. IsReplyFound parsed reply) }
    ensures more { IsPartial bytes.now → result ≡ Ok ReplyParsed.More }
    ensures malformed { IsMalformedReply bytes.now → result ≡ Ok ReplyParsed.Malformed }
    ensures err { OnErr result (BeginsWithFound bytes.now) }
{
    match cut_front(bytes) {
        Front::More => Ok(ReplyParsed::More),
        Front::Malformed => Ok(ReplyParsed::Malformed),
        Front::Whole { content } => match read_reply(alloc, content)? {
            Some(reply) => Ok(ReplyParsed::Whole {
                reply,
                length: 4 + content.len(),
            }),
            None => Ok(ReplyParsed::Malformed),
        },
    }
}

/// The reply with this content.
fn read_reply(alloc: Global, content: &[u8]) -> Result<Option<Reply>, NoMemory>
    ensures ok { IfOk result (λ reply. reply ≡ reply_in content.now) }
    ensures err { OnErr result (IsFoundContent content.now) }
{
    match content {
        [] => Ok(None),
        [kind::FOUND, body @ ..] => read_found(alloc, body),
        [kind, body @ ..] => Ok(read_plain(*kind, body)),
    }
}

/// The `Found` with this body.
fn read_found(alloc: Global, body: &[u8]) -> Result<Option<Reply>, NoMemory>
    ensures ok { IfOk result (λ reply. reply ≡ found_in body.now) }
    ensures err { OnErr result (IsFoundContent (0x82 ∷ body.now)) }
{
    let Some((stamp, value)) = body.split_first_chunk::<8>() else {
        return Ok(None);
    };
    Ok(Some(Reply::Found {
        stamp: u64_in(stamp),
        value: Bytes::copy(alloc, value)?,
    }))
}

/// The reply of another kind with this body.
fn read_plain(kind: u8, body: &[u8]) -> Option<Reply>
    ensures { result ≡ plain_in kind body.now }
{
    match body {
        [] => bare_reply(kind),
        [class] => full_reply(kind, *class),
        _ => stamped_reply(kind, read_number(body)?),
    }
}

/// The reply of a kind whose body is empty.
fn bare_reply(kind: u8) -> Option<Reply>
    ensures { result ≡ bare_of kind }
{
    match kind {
        kind::NOTED => Some(Reply::Noted),
        kind::BAD_KEY => Some(Reply::BadKey),
        kind::TOO_LARGE => Some(Reply::TooLarge),
        kind::NO_MEMORY => Some(Reply::NoMemory),
        kind::DISK_FAULT => Some(Reply::DiskFault),
        kind::CLOSED => Some(Reply::Closed),
        _ => None,
    }
}

/// The reply of a kind whose body is a class.
fn full_reply(kind: u8, class: u8) -> Option<Reply>
    ensures { result ≡ full_of kind class }
{
    match kind {
        kind::FULL => Some(Reply::Full { class }),
        _ => None,
    }
}

/// The reply of a kind whose body is a number.
fn stamped_reply(kind: u8, number: u64) -> Option<Reply>
    ensures { result ≡ stamped_of kind number }
{
    match kind {
        kind::STORED => Some(Reply::Stored { stamp: number }),
        kind::MISSING => Some(Reply::Missing { stamp: number }),
        kind::REMOVED => Some(Reply::Removed { stamp: number }),
        kind::ABSENT => Some(Reply::Absent { stamp: number }),
        kind::UNSURE => Some(Reply::Unsure { stamp: number }),
        kind::STAMPS_SPENT => Some(Reply::StampsSpent { number }),
        kind::MALFORMED => Some(Reply::Malformed { offset: number }),
        kind::AHEAD => Some(Reply::Ahead { number }),
        _ => None,
    }
}
