//! Frames of requests and replies: their bytes, read and written.
#![tactic(auto)]

mod cut;
mod kind;
mod laws;
mod numbers;
mod owned;
mod parse;
mod put;
mod replies;
mod view;

pub use kv_base::{Reply, Request};
pub use laws::{
    malformed_stays, next_piece, next_request, one_outcome, one_reading, one_reply, one_request,
    one_split, one_transcript, partial_begins_none, written_again,
};
pub use owned::own;
pub use parse::parse_request;
pub use put::{put_reply, put_request};
pub use replies::{ReplyParsed, parse_reply};
pub use view::{Parsed, RequestView};
