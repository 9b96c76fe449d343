/// Why the reading of a session ended.
#[derive(Clone, Copy, Debug, PartialEq, Eq)]
pub enum Cause {
    /// The input ended behind a whole frame.
    End,
    /// The bytes at the offset are no frame, or the input ended inside a frame that begins there.
    Malformed {
        /// How many bytes of the session stand before them.
        offset: u64,
    },
    /// 2^40 bytes were taken.
    Limit,
    /// A read of the session's source failed.
    SourceFault,
    /// A write of the session's sink failed.
    SinkFault,
}
