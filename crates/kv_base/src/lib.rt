//! Types and traits that every crate of the store shares, and the definitions that stand beside
//! them.
#![tactic(auto)]

mod adapters;
mod bytes;
mod calls;
mod cause;
mod cursor;
mod fault;
mod limits;
mod partition;
mod pieces;
mod place;
mod reply;
mod request;
mod reserved;
mod sink;
mod sink_memory;
mod source;
mod source_memory;

pub use adapters::{ReaderSource, WriterSink};
pub use bytes::Bytes;
pub use calls::Calls;
pub use cause::Cause;
pub use fault::{Failed, NoMemory};
pub use limits::Limits;
pub use partition::owner;
pub use place::Place;
pub use reply::Reply;
pub use request::Request;
pub use reserved::{Replies, ReservedList};
pub use sink::Sink;
pub use sink_memory::MemSink;
pub use source::Source;
pub use source_memory::{MemSource, SureSource};
