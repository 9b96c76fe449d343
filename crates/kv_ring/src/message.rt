use crate::task::Tasks;
use kv_base::{Bytes, Reply};

/// What a session sends to a worker. All but `Bye` want an answer. A ring keeps the order of the
/// messages alone: which may follow which is for the parties to promise.
#[derive(Debug, Drop)]
pub enum Ask<F> {
    /// Requests of one group whose keys the worker owns.
    Group {
        /// The greatest stamp that the session has seen; the requests get greater ones.
        seen: u64,
        /// The requests, none with a reply.
        tasks: Tasks,
    },
    /// A scan is about to start.
    Prepare {
        /// An empty fold, which the worker fills.
        fold: F,
        /// The least key of the range.
        low: Bytes,
        /// The key behind the range; empty for no end.
        high: Bytes,
    },
    /// The prepared scan is of this stamp.
    Start {
        /// The stamp, above what each worker told.
        stamp: u64,
    },
    /// The prepared scan is given up.
    Drop,
    /// The session has ended, and sends nothing more.
    Bye,
}

/// What a worker sends to a session.
#[derive(Debug, Drop)]
pub enum Answer<F> {
    /// To a `Group`: its tasks, each with its reply.
    Group {
        /// The tasks.
        tasks: Tasks,
    },
    /// To a `Prepare`: from now on what the scan needs is kept.
    Ready {
        /// The worker's highest stamp.
        highest: u64,
    },
    /// To a `Start`: the fold over the worker's items of the range at the scan's stamp.
    Share {
        /// The fold.
        fold: F,
    },
    /// To a `Prepare` or a `Start`: there is no such scan any more.
    Refused {
        /// Why.
        why: Reply,
    },
    /// To a `Drop`.
    Dropped,
}
