//! What a worker takes from its sessions as one batch, and how the answers go back to them.
#![tactic(auto)]

mod connection;
mod delivering;
mod gathering;
mod hand_in;
mod open_task;
mod send;

pub use connection::Connection;
pub use delivering::{all_ended, deliver};
pub use gathering::{gather, greatest_seen};
pub use hand_in::Batch;
