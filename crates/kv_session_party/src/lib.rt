//! A session among the workers: it routes each group's requests by owner, and merges the replies.
#![tactic(auto)]

mod after;
mod exchange;
mod greatest;
mod laws;
mod links;
mod part;
mod party;
mod reply;
mod routes;
mod send;
mod threads;

pub use laws::session_parties_cross_threads;
pub use party::{PartyParts, SessionParty};
