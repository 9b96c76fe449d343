//! A worker as one of several parties: with its ring ends, its seat of the counter, and its turns.
#![tactic(auto)]

mod exchange;
mod laws;
mod party;
mod serve;
mod threads;

pub use laws::{due_messages_are_taken, worker_parties_cross_threads};
pub use party::{WorkerParts, WorkerParty};
