/// Why a batch ended a scan.
#[derive(Clone, Copy, Debug, PartialEq, Eq)]
pub enum Refusal {
    /// The batch was refused since a read failed, or a write or a sync of it failed.
    DiskFault,
    /// The batch was refused for want of memory.
    NoMemory,
}
