use kv_base::ReservedList;
use kv_ring::Task;

/// The tasks that a worker answers at once, in their order, each with its session's number.
pub type Batch = ReservedList<(u32, Task)>;
