//! A finite map from keys to the places of their items, and a sorted vector that keeps one.
#![tactic(auto)]

mod entry;
mod flat;
mod index;

pub use entry::Entry;
pub use flat::FlatIndex;
pub use index::Index;
