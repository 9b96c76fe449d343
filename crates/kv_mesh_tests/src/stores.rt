ghost use Rattle.std.specs.Prelude.{◌≡◌, ◌<◌, ◌≤◌, IfOk, OnOk, length};
ghost use Rattle.kv_mesh.specs.Started.{AreStores, IsStoreOf};
ghost use Rattle.kv_mesh_tests.specs.Stores.{EachIsStore};

use crate::asks::{Ask, input_of};
use kv_base::{Calls, Limits, MemSink, MemSource, Source};
use kv_disk::{Disk, MemDisk};
use kv_index::{FlatIndex, Index};
use kv_mesh::Mesh;
use kv_recover::{OpenFault, Opened, open_store};
use std::alloc::Global;
use std::test::Fail;

/// All parties of a store over disks in memory.
pub type Parties<So, D> = Mesh<So, MemSink, D, FlatIndex, u8>;

/// The source and the sink of a session.
pub type Client<So> = (So, MemSink);

const LIMITS: Limits = Limits {
    slots: 64,
    cache: 4,
};

/// Disks without a page.
pub fn new_disks(alloc: Global, count: usize) -> Result<Vec<MemDisk>, Fail> {
    let mut disks = Vec::new(alloc);
    for _ in 0..count {
        disks.push(new_disk(alloc, &[])?)?;
    }
    Ok(disks)
}

/// A disk without a page, whose calls of these numbers fail.
pub fn new_disk(alloc: Global, failing: &[u32]) -> Result<MemDisk, Fail> {
    Ok(MemDisk::new(alloc, 64, 1_500, Calls::of(alloc, failing)?)?)
}

/// The disks as a crash leaves them, of the one at this place at the moment, and of the others now.
/// A page that waits has this choice.
pub fn left_at(
    alloc: Global,
    disks: &[MemDisk],
    place: usize,
    moment: u32,
    choice: u32,
) -> Result<Vec<MemDisk>, Fail> {
    let mut left = Vec::new(alloc);
    for at in 0..disks.len() {
        let now = disks[at].calls();
        let moment = if at == place { now.min(moment) } else { now };
        left.push(disks[at].crash(moment, &[choice; 16])?)?;
    }
    Ok(left)
}

/// The disks as a crash now leaves them. A page that waits has this choice.
pub fn left_now(alloc: Global, disks: &[MemDisk], choice: u32) -> Result<Vec<MemDisk>, Fail> {
    left_at(alloc, disks, disks.len(), 0, choice)
}

/// Opens a disk as that of this worker of so many.
pub fn open<D: Disk + Drop>(
    alloc: Global,
    disk: D,
    worker: u32,
    workers: u32,
) -> Result<Opened<D, FlatIndex>, OpenFault>
    requires worker { worker < workers }
    requires workers { workers ≤ 16 }
    ensures { IfOk result (λ opened. IsStoreOf ⟦<D as Disk>⟧ ⟦<FlatIndex as Index>⟧ workers 64 worker
        opened) }
{
    match open_store(alloc, disk, FlatIndex::new(alloc), worker, workers, LIMITS) {
        Ok(opened) => Ok(opened),
        Err((_, fault)) => Err(fault),
    }
}

// Opens a disk as that of the next worker.
fn open_next<D: Disk + Drop>(
    alloc: Global,
    disk: D,
    workers: u32,
    stores: &mut Vec<Opened<D, FlatIndex>>,
) -> Result<(), Fail>
    requires workers { workers ≤ 16 }
    ensures { OnOk result (EachIsStore ⟦<D as Disk>⟧ ⟦<FlatIndex as Index>⟧ workers stores.old.items
        → EachIsStore ⟦<D as Disk>⟧ ⟦<FlatIndex as Index>⟧ workers stores.new.items) }
{
    let worker = stores.len();
    if worker >= workers as usize {
        return Err(Fail::new("a disk of each worker"));
    }
    let opened = open(alloc, disk, worker as u32, workers)?;
    stores.push(opened)?;
    Ok(())
}

// Opens the disks, of which the last one is the next worker's.
fn open_rest<D: Disk + Drop>(
    alloc: Global,
    mut disks: Vec<D>,
    workers: u32,
    stores: &mut Vec<Opened<D, FlatIndex>>,
) -> Result<(), Fail>
    requires workers { workers ≤ 16 }
    ensures { OnOk result (EachIsStore ⟦<D as Disk>⟧ ⟦<FlatIndex as Index>⟧ workers stores.old.items
        → EachIsStore ⟦<D as Disk>⟧ ⟦<FlatIndex as Index>⟧ workers stores.new.items) }
{
    match disks.pop() {
        None => Ok(()),
        Some(disk) => {
            open_next(alloc, disk, workers, stores)?;
            open_rest(alloc, disks, workers, stores)
        }
    }
}

/// Opens each disk as that of the worker of its place.
pub fn open_all<D: Disk + Drop>(
    alloc: Global,
    mut disks: Vec<D>,
) -> Result<Vec<Opened<D, FlatIndex>>, Fail>
    ensures some { IfOk result (λ stores. 1 ≤ length stores.items) }
    ensures few { IfOk result (λ stores. length stores.items ≤ 16) }
    ensures stores { IfOk result (λ stores. AreStores ⟦<D as Disk>⟧ ⟦<FlatIndex as Index>⟧
        stores.items) }
{
    let workers = match disks.len() {
        1..=16 => disks.len() as u32,
        _ => return Err(Fail::new("1 to 16 disks")),
    };
    let mut stores = Vec::new(alloc);
    disks.reverse();
    open_rest(alloc, disks, workers, &mut stores)?;
    if stores.len() != workers as usize {
        return Err(Fail::new("a store of each disk"));
    }
    Ok(stores)
}

/// The source of a client that sends these requests. A read gives at most so many bytes.
pub fn make_source(alloc: Global, asks: &[Ask], piece: u32) -> Result<MemSource, Fail> {
    Ok(MemSource::new(input_of(alloc, asks)?, piece.max(1), Calls::none()))
}

/// A sink that takes all replies of a test.
pub fn make_sink(alloc: Global) -> Result<MemSink, Fail> {
    Ok(MemSink::new(alloc, 20_000, Calls::none())?)
}

/// A client that sends these requests.
pub fn make_client(alloc: Global, asks: &[Ask], piece: u32) -> Result<Client<MemSource>, Fail> {
    Ok((make_source(alloc, asks, piece)?, make_sink(alloc)?))
}

/// All parties of the disks and the clients.
pub fn make_parties<So: Source + Drop, D: Disk + Drop>(
    alloc: Global,
    disks: Vec<D>,
    clients: Vec<Client<So>>,
) -> Result<Parties<So, D>, Fail> {
    let stores = open_all(alloc, disks)?;
    if clients.is_empty() || clients.len() > 8 {
        return Err(Fail::new("1 to 8 clients"));
    }
    match Mesh::new(alloc, stores, clients) {
        Ok(mesh) => Ok(mesh),
        Err(_) => Err(Fail::new("memory")),
    }
}
