ghost use Rattle.std.specs.Prelude.{◌≡◌, ◌+◌, ◌≤◌, ◌++◌, length, OnOk, IsOk, vec_capacity};
ghost use Rattle.kv_model.specs.Frames.{framed, longest_content};
ghost use Rattle.kv_model.specs.Frames.{HasRequestFrame, request_frame, HasReplyFrame, reply_frame};

use crate::kind;
use crate::numbers::{u32_bytes, u64_bytes};
use kv_base::{NoMemory, Reply, Request};

/// Writes the reply's frame: `out` then holds it and nothing else, whatever it held. The one error
/// is want of memory, and then `out` holds anything. Takes no memory where the capacity of `out`
/// holds the frame, which is 66,004 bytes at most.
pub fn put_reply(reply: &Reply, out: &mut Vec<u8>) -> Result<(), NoMemory>
    requires { HasReplyFrame reply.now }
    ensures ok { OnOk result (out.new.items ≡ reply_frame reply.now) }
    ensures room { length (reply_frame reply.now) ≤ vec_capacity out.old → IsOk result }
    ensures capacity { vec_capacity out.old ≤ vec_capacity out.new }
{
    match reply {
        Reply::Stored { stamp } => put_frame(&[kind::STORED], &u64_bytes(*stamp), &[], out),
        Reply::Found { stamp, value } => {
            put_frame(&[kind::FOUND], &u64_bytes(*stamp), value.as_slice(), out)
        }
        Reply::Missing { stamp } => put_frame(&[kind::MISSING], &u64_bytes(*stamp), &[], out),
        Reply::Removed { stamp } => put_frame(&[kind::REMOVED], &u64_bytes(*stamp), &[], out),
        Reply::Absent { stamp } => put_frame(&[kind::ABSENT], &u64_bytes(*stamp), &[], out),
        Reply::BadKey => put_frame(&[kind::BAD_KEY], &[], &[], out),
        Reply::TooLarge => put_frame(&[kind::TOO_LARGE], &[], &[], out),
        Reply::Full { class } => put_frame(&[kind::FULL, *class], &[], &[], out),
        Reply::NoMemory => put_frame(&[kind::NO_MEMORY], &[], &[], out),
        Reply::DiskFault => put_frame(&[kind::DISK_FAULT], &[], &[], out),
        Reply::Unsure { stamp } => put_frame(&[kind::UNSURE], &u64_bytes(*stamp), &[], out),
        Reply::Closed => put_frame(&[kind::CLOSED], &[], &[], out),
        Reply::StampsSpent { number } => put_frame(
            &[kind::STAMPS_SPENT],
            &u64_bytes(*number),
            &[],
            out,
        ),
        Reply::Malformed { offset } => put_frame(&[kind::MALFORMED], &u64_bytes(*offset), &[], out),
        Reply::Noted => put_frame(&[kind::NOTED], &[], &[], out),
        Reply::Ahead { number } => put_frame(&[kind::AHEAD], &u64_bytes(*number), &[], out),
    }
}

/// Writes the request's frame, as `put_reply` does.
pub fn put_request(request: &Request, out: &mut Vec<u8>) -> Result<(), NoMemory>
    requires { HasRequestFrame request.now }
    ensures ok { OnOk result (out.new.items ≡ request_frame request.now) }
    ensures room { length (request_frame request.now) ≤ vec_capacity out.old → IsOk result }
    ensures capacity { vec_capacity out.old ≤ vec_capacity out.new }
{
    match request {
        Request::Put { key, value } => {
            put_frame(
                &[kind::PUT, key.len() as u8],
                key.as_slice(),
                value.as_slice(),
                out,
            )
        }
        Request::Get { key } => put_frame(&[kind::GET], &[], key.as_slice(), out),
        Request::Delete { key } => put_frame(&[kind::DELETE], &[], key.as_slice(), out),
        Request::Flush => put_frame(&[kind::FLUSH], &[], &[], out),
        Request::After { stamp } => put_frame(&[kind::AFTER], &u64_bytes(*stamp), &[], out),
    }
}

/// Writes the frame of a content in three parts.
fn put_frame(head: &[u8], first: &[u8], second: &[u8], out: &mut Vec<u8>) -> Result<(), NoMemory>
    requires { length head.now + length first.now + length second.now ≤ longest_content }
    ensures ok { OnOk result (out.new.items ≡ framed (head.now ++ (first.now ++ second.now))) }
    ensures room { 4 + (length head.now + length first.now + length second.now)
        ≤ vec_capacity out.old
        → IsOk result }
    ensures capacity { vec_capacity out.old ≤ vec_capacity out.new }
{
    let length = head.len() + first.len() + second.len();
    out.clear();
    out.reserve(4 + length)?;
    out.extend_from_slice(&u32_bytes(length as u32))?;
    out.extend_from_slice(head)?;
    out.extend_from_slice(first)?;
    out.extend_from_slice(second)?;
    Ok(())
}
