use kv_base::ReservedList;
use kv_disk::Disk;
use kv_index::Index;
use kv_session::SessionParts;
use kv_worker::Worker;

/// What the parties of a store had when they stopped.
#[derive(Drop)]
pub struct Finished<So, Si, D: Disk, I: Index> {
    /// The workers, in the order of their numbers.
    pub workers: ReservedList<Worker<D, I>>,
    /// The sources, sinks and endings of the sessions, in the order of their numbers.
    pub sessions: ReservedList<SessionParts<So, Si>>,
    /// Whether a worker is closed: a request was answered `Unsure`.
    pub unsure: bool,
}
