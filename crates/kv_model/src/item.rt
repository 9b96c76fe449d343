use kv_base::{Bytes, ReservedList};

/// A key and its value.
#[derive(Debug, Drop)]
pub struct Item {
    /// The key.
    pub key: Bytes,
    /// The value.
    pub value: Bytes,
}

/// Items by rising key.
pub type ItemList = ReservedList<Item>;
