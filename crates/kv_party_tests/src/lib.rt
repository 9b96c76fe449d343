//! Tests of a session alone, of a session among workers, and of a worker among sessions: their turns
//! step by step, over bytes and a disk in memory.
#![tactic(auto)]

#[cfg(test)]
mod replies;
#[cfg(test)]
mod seat;
#[cfg(test)]
mod session_party;
#[cfg(test)]
mod sessions;
#[cfg(test)]
mod worker_party;
