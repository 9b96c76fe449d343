use kv_base::{Cause, Replies};

/// How a session ended.
#[derive(Debug, Drop)]
pub struct Ending {
    /// How many bytes it took, at most 2^40.
    pub taken: u64,
    /// Why it ended.
    pub cause: Cause,
    /// The replies that the sink didn't take whole, in order. The first may be out in part.
    pub undelivered: Replies,
}

/// What a session was made of, and how it ended.
#[derive(Drop)]
pub struct SessionParts<So, Si> {
    /// Where its bytes came from.
    pub source: So,
    /// Where its replies went.
    pub sink: Si,
    /// How it ended. `None` exactly where it hasn't ended.
    pub ending: Option<Ending>,
}
