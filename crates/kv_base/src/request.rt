use crate::Bytes;

/// What a session asks of the store.
#[derive(Debug, Drop)]
pub enum Request {
    /// Gives the key this value.
    Put {
        /// The key, 1 to 255 bytes, else the reply is `BadKey`.
        key: Bytes,
        /// The value. With the key it has at most the room of the largest class, else the reply is
        /// `TooLarge`.
        value: Bytes,
    },
    /// Asks for the value of the key.
    Get {
        /// The key, 1 to 255 bytes, else the reply is `BadKey`.
        key: Bytes,
    },
    /// Removes the value of the key.
    Delete {
        /// The key, 1 to 255 bytes, else the reply is `BadKey`.
        key: Bytes,
    },
    /// Ends a group of requests, whose replies are then written. It has no reply of its own.
    Flush,
    /// Asks that each later stamp of the session be above this one. It is a group by itself.
    After {
        /// A stamp that the client was told of, else the reply is `Ahead`.
        stamp: u64,
    },
}
