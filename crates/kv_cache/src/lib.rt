//! A page cache in front of any disk.
#![tactic(auto)]

mod cached;
mod kept;

pub use cached::Cached;
