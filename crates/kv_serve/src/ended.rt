use kv_base::ReservedList;
use kv_recover::OpenFault;
use kv_session::Ending;

/// Why a command was refused.
#[derive(Clone, Copy, Debug, PartialEq, Eq)]
pub enum Refused {
    /// A worker's disk couldn't be opened.
    Disk {
        /// The worker.
        worker: u32,
        /// Why; never `NoMemory`.
        fault: OpenFault,
    },
    /// The site refused a worker's disk.
    TakeDisk {
        /// The worker.
        worker: u32,
    },
    /// The site refused the ends of a session.
    TakeSession {
        /// The session.
        session: u32,
    },
    /// The site refused the sink of the report.
    TakeReport,
}

/// Endings in the order of their sessions.
pub type Endings = ReservedList<Ending>;

/// How a command ended.
#[derive(Debug, Drop)]
pub struct Ended {
    /// 0 where all went well, 1 where a session didn't end with `End` or a write is unsure, 2 where
    /// the words are none of a command, 3 where something was refused, 4 where memory ran out
    /// before serving.
    pub status: u8,
    /// How the sessions ended, where they were served.
    pub endings: Endings,
    /// What was refused, exactly at status 3.
    pub refused: Option<Refused>,
}
