//! An index in a B-tree of order 32, which takes memory only where room is reserved.
#![tactic(auto)]

mod even;
mod head;
mod item;
mod laws;
mod moves;
mod node;
mod nodes;
mod pool;
mod root;
mod search;
mod split;
mod tree;

pub use laws::tree_indexes_cross_threads;
pub use tree::TreeIndex;
