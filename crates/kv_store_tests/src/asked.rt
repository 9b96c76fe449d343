use kv_base::{Bytes, NoMemory, Reply, Request};
use kv_ring::Task;
use kv_worker::Batch;
use std::alloc::Global;

/// What is asked of a key. A value is a byte and how often it stands there.
#[derive(Clone, Copy)]
pub enum Ask {
    Put(u8, usize),
    Get,
    Delete,
}

/// What is answered, with the stamp that belongs to the request.
#[derive(Clone, Copy)]
pub enum Told {
    Stored,
    Found(u8, usize),
    Missing,
    Removed,
    Absent,
    Full(u8),
    Unsure,
    DiskFault,
    Closed,
    /// Another reply, or another stamp.
    Other,
}

impl Told {
    // Numbers that tell it from any other.
    fn numbers(self) -> (u8, u8, usize) {
        match self {
            Told::Stored => (0, 0, 0),
            Told::Found(byte, count) => (1, byte, count),
            Told::Missing => (2, 0, 0),
            Told::Removed => (3, 0, 0),
            Told::Absent => (4, 0, 0),
            Told::Full(class) => (5, class, 0),
            Told::Unsure => (6, 0, 0),
            Told::DiskFault => (7, 0, 0),
            Told::Closed => (8, 0, 0),
            Told::Other => (9, 0, 0),
        }
    }

    /// Whether both are the same.
    pub fn is_same(self, other: Told) -> bool {
        let (kind, first, count) = self.numbers();
        let (other_kind, other_first, other_count) = other.numbers();
        kind == other_kind && first == other_first && count == other_count
    }
}

/// A request, and its reply where all goes well.
#[derive(Clone, Copy)]
pub struct Row(pub &'static [u8], pub Ask, pub Told);

/// What became of a batch.
#[derive(Clone, Copy)]
pub enum Outcome {
    /// All went well.
    Done,
    /// It was refused, or the worker is closed.
    Refused(Told),
    /// A write or a sync failed.
    Failed,
}

/// The reply to the request with this outcome.
pub fn wanted(row: &Row, outcome: Outcome) -> Told {
    match outcome {
        Outcome::Done => row.2,
        Outcome::Refused(told) => told,
        Outcome::Failed => match row.2 {
            Told::Full(class) => Told::Full(class),
            Told::Found(..) | Told::Missing => Told::DiskFault,
            _ => Told::Unsure,
        },
    }
}

/// The request.
pub fn request_of(alloc: Global, key: &[u8], ask: Ask) -> Result<Request, NoMemory> {
    let key = Bytes::copy(alloc, key)?;
    match ask {
        Ask::Put(byte, count) => Ok(Request::Put {
            key,
            value: value_of(alloc, byte, count)?,
        }),
        Ask::Get => Ok(Request::Get { key }),
        Ask::Delete => Ok(Request::Delete { key }),
    }
}

// The byte so often.
fn value_of(alloc: Global, byte: u8, count: usize) -> Result<Bytes, NoMemory> {
    Ok(Bytes::from_vec(vec![in alloc; byte; count]?))
}

/// A batch that has no task yet.
pub fn no_batch(alloc: Global) -> Result<Batch, NoMemory> {
    Batch::with_room(alloc, 512)
}

/// Appends a task, of session 3.
pub fn append_task(alloc: Global, batch: &mut Batch, key: &[u8], ask: Ask) -> Result<(), NoMemory> {
    let request = request_of(alloc, key, ask)?;
    let task = Task {
        request,
        reply: None,
    };
    match batch.append((3, task)) {
        Ok(()) => Ok(()),
        Err((_, no_memory)) => Err(no_memory),
    }
}

/// The batch of these requests.
pub fn batch_of(alloc: Global, rows: &[Row]) -> Result<Batch, NoMemory> {
    let mut batch = no_batch(alloc)?;
    for row in rows {
        append_task(alloc, &mut batch, row.0, row.1)?;
    }
    Ok(batch)
}

/// What is told of a value that was found: a byte and how often it stands there.
pub fn found(value: &[u8]) -> Told {
    let first = match value.first() {
        Some(byte) => *byte,
        None => 0,
    };
    if value.iter().all(|byte| *byte == first) {
        Told::Found(first, value.len())
    } else {
        Told::Other
    }
}

// Told where the stamp is right.
fn stamped(told: Told, stamp: u64, wanted: u64) -> Told {
    if stamp == wanted { told } else { Told::Other }
}

/// What the reply tells, to a request with this stamp.
pub fn told_by(reply: &Reply, wanted: u64) -> Told {
    match reply {
        Reply::Stored { stamp } => stamped(Told::Stored, *stamp, wanted),
        Reply::Found { stamp, value } => stamped(found(value.as_slice()), *stamp, wanted),
        Reply::Missing { stamp } => stamped(Told::Missing, *stamp, wanted),
        Reply::Removed { stamp } => stamped(Told::Removed, *stamp, wanted),
        Reply::Absent { stamp } => stamped(Told::Absent, *stamp, wanted),
        Reply::Unsure { stamp } => stamped(Told::Unsure, *stamp, wanted),
        Reply::Full { class } => Told::Full(*class),
        Reply::DiskFault => Told::DiskFault,
        Reply::Closed => Told::Closed,
        _ => Told::Other,
    }
}

/// What the task with this number was answered, in a batch from this stamp on.
pub fn told_at(batch: &Batch, at: usize, base: u64) -> Told {
    match batch.as_slice().get(at) {
        Some(
            (
                3,
                Task {
                    reply: Some(reply),
                    ..
                },
            ),
        ) => told_by(reply, base.saturating_add(at as u64)),
        _ => Told::Other,
    }
}
