//! The reports of what stands on a store's disks: counts of their slots, and all items.
#![tactic(auto)]

mod check;
mod dump;
mod fault;
mod lines;
mod list;
mod merge;
mod send;
mod text;

pub use check::check_all;
pub use dump::dump_all;
pub use fault::ToolFault;
