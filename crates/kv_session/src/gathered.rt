use kv_base::Cause;

/// What ended a group.
#[derive(Clone, Copy, Debug, PartialEq, Eq)]
pub enum Gathered {
    /// Its 64th request, or a Flush behind it, which is used up.
    More,
    /// An After behind it, which is used up. It is the next group, by itself.
    After {
        /// Its stamp, any number.
        stamp: u64,
    },
    /// The end of reading.
    Ending {
        /// Why no more is read; never `SinkFault`.
        cause: Cause,
    },
}
