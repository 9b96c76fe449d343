use kv_base::{Bytes, Place};

/// An item as it stands on a disk.
#[derive(Debug, Drop)]
pub struct Stored {
    /// The key, 1 to 255 bytes.
    pub key: Bytes,
    /// The stamp of its write.
    pub stamp: u64,
    /// The value.
    pub value: Bytes,
    /// Where it stands.
    pub place: Place,
}
