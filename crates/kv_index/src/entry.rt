use kv_base::Place;

/// What an index keeps for a key.
#[derive(Clone, Copy, Debug, PartialEq, Eq)]
pub struct Entry {
    /// The stamp of the change that wrote the item.
    pub stamp: u64,
    /// Where the item lies on disk.
    pub place: Place,
}
