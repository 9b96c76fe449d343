//! Parties of any kind, each of which makes its turns on a thread of its own until it has ended.
#![tactic(auto)]

mod away;
mod crew;
mod many;
mod party;
mod rest;
mod roster;
mod round;
mod seats;
mod turning;

pub use many::{run_all, turn_all};
pub use party::Party;
pub use seats::join_seats;
