use crate::asks::Ask;
use crate::replies::{Told, replies_of};
use crate::stores::{Parties, make_client, make_parties};
use kv_base::{Cause, MemSink, MemSource, Source};
use kv_disk::{Disk, MemDisk};
use kv_index::FlatIndex;
use kv_mesh::Finished;
use std::alloc::Global;
use std::test::Fail;

/// What is left of all parties: the replies of each session, whether each input ended behind a
/// whole frame, the disks, and whether a worker is closed.
#[derive(Drop)]
pub struct Ended<D> {
    pub replies: Vec<Vec<Told>>,
    pub well: bool,
    pub disks: Vec<D>,
    pub unsure: bool,
}

/// Reads the replies, and takes the disks out.
pub fn take_apart<So: Source + Drop, D: Disk + Drop>(
    alloc: Global,
    finished: Finished<So, MemSink, D, FlatIndex>,
) -> Result<Ended<D>, Fail> {
    let Finished {
        mut workers,
        sessions,
        unsure,
    } = finished;
    let mut replies = Vec::new(alloc);
    let mut well = true;
    for session in sessions.as_slice() {
        replies.push(replies_of(alloc, session.sink.taken())?)?;
        well = well && matches!(&session.ending, Some(ending) if ending.cause == Cause::End);
    }
    let mut disks = Vec::new(alloc);
    for _ in 0..workers.as_slice().len() {
        if let Some(worker) = workers.take_last() {
            disks.push(worker.into_disk())?;
        }
    }
    disks.reverse();
    Ok(Ended {
        replies,
        well,
        disks,
        unsure,
    })
}

// More parties than any test has; numbers that name none make no turn.
static ALL: [u16; 8] = [0, 1, 2, 3, 4, 5, 6, 7];

/// Turns all parties in rotation until they have ended, which is soon.
pub fn turn_to_end(mesh: &mut Parties<MemSource, MemDisk>) {
    for _ in 0..1_000 {
        if mesh.ended() {
            return;
        }
        mesh.run_turns(&ALL);
    }
}

/// Opens the disks, and asks for the values of these keys.
pub fn values(alloc: Global, disks: Vec<MemDisk>, keys: &[u8]) -> Result<Vec<Told>, Fail> {
    let mut asks = Vec::new(alloc);
    for key in keys {
        asks.push(Ask::Get(*key))?;
    }
    let mut clients = Vec::new(alloc);
    clients.push(make_client(alloc, &asks, 4_096)?)?;
    let mut mesh = make_parties(alloc, disks, clients)?;
    turn_to_end(&mut mesh);
    let mut left = take_apart(alloc, mesh.finish())?;
    match left.replies.pop() {
        Some(replies) => Ok(replies),
        None => Err(Fail::new("one session")),
    }
}
