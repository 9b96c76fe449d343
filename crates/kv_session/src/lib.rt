//! A session: it reads a client's requests in groups and writes the replies.
#![tactic(auto)]

mod ending;
mod fill;
mod gathered;
mod group;
mod outbox;
mod pieces;
mod reader;
mod refusal;
mod session;
mod window;

pub use ending::{Ending, SessionParts};
pub use gathered::Gathered;
pub use session::Session;
