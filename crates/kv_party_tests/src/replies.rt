ghost use Rattle.kv_model.specs.Frames.{HasReplyFrame};

use kv_base::{Bytes, Reply, Request};

// The first byte of the key, 0 where it has none.
fn first_of(key: &Bytes) -> u64 {
    key.as_slice().first().map_or(0, |byte| u64::from(*byte))
}

/// A reply to the request, whose stamp is the first byte of its key.
pub fn reply_to(request: &Request) -> Reply
    ensures { HasReplyFrame result }
{
    match request {
        Request::Put { key, .. } => Reply::Stored {
            stamp: first_of(key),
        },
        Request::Get { key } => Reply::Missing {
            stamp: first_of(key),
        },
        Request::Delete { key } => Reply::Absent {
            stamp: first_of(key),
        },
        Request::Flush | Request::After { .. } => Reply::Closed,
    }
}

/// Whether these are the same bytes.
pub fn same_bytes(a: &[u8], b: &[u8]) -> bool {
    a == b
}
