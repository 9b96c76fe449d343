use kv_base::{Limits, ReservedList};
use kv_cache::Cached;
use kv_disk::Disk;
use kv_free::Stacks;
use kv_index::Index;

/// The free slots of each class, by class from 0 to 11; that of class 0 is empty.
pub type StackList = ReservedList<Stacks>;

/// One past the last slot that was ever used of each class, by class from 0 to 11; that of class 0
/// is 0.
pub type EndList = ReservedList<u32>;

/// What a store is made of.
#[derive(Drop)]
pub struct Parts<D: Disk, I: Index> {
    /// The disk, with nothing pending.
    pub disk: Cached<D>,
    /// The kept entries of its image.
    pub index: I,
    /// The free slots.
    pub stacks: StackList,
    /// The ends of the slabs.
    pub ends: EndList,
    /// The worker's number.
    pub worker: u32,
    /// The number of workers.
    pub workers: u32,
    /// The most slots of a class, and the most pages that are cached.
    pub limits: Limits,
}
