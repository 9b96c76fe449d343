//! A list of free slots of which only the last 64 numbers stand in memory.
#![tactic(auto)]

mod stacks;

pub use stacks::Stacks;
