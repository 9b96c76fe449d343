use crate::Bytes;

/// What the store answers to one request.
#[derive(Debug, Drop)]
pub enum Reply {
    /// The value is on disk.
    Stored {
        /// The stamp of the request.
        stamp: u64,
    },
    /// The key has this value at the stamp.
    Found {
        /// The stamp of the request.
        stamp: u64,
        /// The value.
        value: Bytes,
    },
    /// The key has no value at the stamp.
    Missing {
        /// The stamp of the request.
        stamp: u64,
    },
    /// The key had a value, and on disk it has none any more.
    Removed {
        /// The stamp of the request.
        stamp: u64,
    },
    /// The key had no value that could be removed.
    Absent {
        /// The stamp of the request.
        stamp: u64,
    },
    /// Each later stamp of the session is above that of the `After`.
    Noted,
    /// The key has no byte or more than 255.
    BadKey,
    /// Key and value together are larger than the largest class.
    TooLarge,
    /// The class has no slot left.
    Full {
        /// The class of the item.
        class: u8,
    },
    /// Memory ran out. Nothing changed.
    NoMemory,
    /// A read of the disk failed. Nothing changed.
    DiskFault,
    /// A write or a sync failed: the write may be on disk or not, until the store is opened again.
    Unsure {
        /// The stamp of the request.
        stamp: u64,
    },
    /// An earlier write or sync failed. The store answers nothing else until it is opened again.
    Closed,
    /// No stamp is left for the request. Nothing changed.
    StampsSpent {
        /// The number that was drawn, at which the stamps of the requests would have begun.
        number: u64,
    },
    /// The bytes at the offset are no request, and nothing behind them was read.
    Malformed {
        /// How many bytes of the session stand before them.
        offset: u64,
    },
    /// The stamp of an `After` was given to nobody yet. Nothing changed.
    Ahead {
        /// The next stamp, or 2^62 where none is left; that of the `After` is this or above.
        number: u64,
    },
}
