//! The counter from which all threads draw stamps, each seat its own ranges.
#![tactic(auto)]

mod counter;
mod laws;
mod seat;
mod spent;
mod view;

pub use counter::Stamps;
pub use laws::counters_cross_threads;
pub use seat::StampSeat;
pub use spent::StampsSpent;
