/// A request whose key and value are slices of the bytes that it was read from.
#[derive(Clone, Copy, Debug)]
pub enum RequestView<'a> {
    /// Gives the key this value.
    Put {
        /// The key, 0 to 255 bytes.
        key: &'a [u8],
        /// The value.
        value: &'a [u8],
    },
    /// Asks for the value of the key.
    Get {
        /// The key, of any length that a frame has room for.
        key: &'a [u8],
    },
    /// Removes the value of the key.
    Delete {
        /// The key, of any length that a frame has room for.
        key: &'a [u8],
    },
    /// Ends a group of requests.
    Flush,
    /// Asks that each later stamp of the session be above this one.
    After {
        /// The stamp, any number.
        stamp: u64,
    },
}

/// What bytes of requests begin with.
#[derive(Clone, Copy, Debug)]
pub enum Parsed<'a> {
    /// A request's frame.
    Whole {
        /// The request.
        request: RequestView<'a>,
        /// How many bytes the frame has, 5 to 66,004.
        length: usize,
    },
    /// A part of a frame, or nothing: more bytes decide.
    More,
    /// No frame, whatever bytes follow.
    Malformed,
}
