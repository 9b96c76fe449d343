//! All parties of a store: the workers, the sessions and the counter, and their turns by a schedule.
#![tactic(auto)]

mod compare;
mod end_laws;
mod ended;
mod finish;
mod finished;
mod first_stamp;
mod hand_out;
mod joining;
mod laws;
mod mesh;
mod new;
mod opening;
mod parties;
mod run;
mod seats;
mod start_parties;
mod start_sessions;
mod start_workers;
mod within;
mod worker_turn;

pub use finished::Finished;
pub use mesh::Mesh;
pub use opening::opened_stores_begin;
