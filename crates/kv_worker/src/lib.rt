//! A worker: it answers batches of requests from its store, and writes what they change.
#![tactic(auto)]

mod answer;
mod append;
mod batch;
mod fail;
mod fill;
mod net;
mod overlay;
mod pass;
mod prepare;
mod refusal;
mod room;
mod step;
mod value;
mod worker;

pub use batch::Batch;
pub use worker::Worker;
