//! The disk under one worker: what it reads as, what a crash may leave of it, and two that stand in
//! memory.
#![tactic(auto)]

mod call;
mod disk;
mod memory;
mod order;
mod plain;
mod replay;

pub use disk::Disk;
pub use memory::MemDisk;
pub use order::write_in_order;
pub use plain::PlainDisk;
