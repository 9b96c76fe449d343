ghost use Rattle.std.specs.Prelude.{◌≡◌, ◌≤◌, ◌<◌, ◌^◌, IsTrue, IsSome, IfSome, None, length};
ghost use Rattle.std.specs.List.{AllByRecursion};
ghost use Rattle.kv_base.specs.Partition.{owner_of};
ghost use Rattle.kv_model.specs.Agreement.{refusal_of};
ghost use Rattle.kv_model.specs.Layout.{all_classes, is_key_length};
ghost use Rattle.kv_model.specs.Pairs.{key_of};
ghost use Rattle.kv_worker.specs.Batches.{IsOpenTask};

use crate::asked::{Outcome, Row, batch_of, told_at, wanted};
use kv_base::{Bytes, Limits, NoMemory, Request, owner};
use kv_disk::MemDisk;
use kv_recover::{OpenFault, open_store};
use kv_ring::Task;
use kv_slot::class_of;
use kv_tree::TreeIndex;
use kv_worker::{Batch, Worker};
use std::alloc::Global;
use std::marker::Model;

/// A number far below the last stamp.
pub const LAST_BASE: u64 = 1 << 61;

/// The worker 0 of 1 over a disk in memory. Proofs see nothing of it, so that those of the tests stay
/// short.
#[derive(Drop)]
pub struct Store {
    worker: Worker<MemDisk, TreeIndex>,
}

impl Model for Store {
    ghost use Rattle.std.specs.Prelude.{◌≡◌, ℕ};

    ghost Value = { ℕ };

    ghost view = { λ _. 0 };

    ghost invariant = { λ s. (s.worker.store.worker ≡ 0) × (s.worker.store.workers ≡ 1) };
}

impl Store {
    /// The last stamp of the latest batch, or the floor.
    pub fn highest(&self) -> u64 {
        self.worker.highest()
    }

    /// Whether a write or a sync failed.
    pub fn closed(&self) -> bool {
        self.worker.closed()
    }

    /// How many slots the classes 1 and 2 have left.
    pub fn rooms(self) -> (u32, u32) {
        let opened = self.worker.into_opened();
        (opened.slabs.room(1), opened.slabs.room(2))
    }

    /// The disk alone.
    pub fn into_disk(self) -> MemDisk {
        self.worker.into_disk()
    }
}

/// Opens the disk. A refusal hands it back.
pub fn try_open(
    alloc: Global,
    disk: MemDisk,
    limits: Limits,
) -> Result<Store, (MemDisk, OpenFault)> {
    if limits.slots < 1 || limits.slots > 16_777_216 || limits.cache < 1 || limits.cache > 1024 {
        return Err((disk, OpenFault::NoMemory));
    }
    match open_store(alloc, disk, TreeIndex::new(alloc), 0, 1, limits) {
        Ok(opened) => match Worker::new(alloc, opened) {
            Ok(worker) => Ok(Store { worker }),
            Err((opened, _)) => Err((opened.slabs.into_disk(), OpenFault::NoMemory)),
        },
        Err(refused) => Err(refused),
    }
}

/// Opens the disk.
pub fn open(alloc: Global, disk: MemDisk, limits: Limits) -> Result<Store, OpenFault> {
    match try_open(alloc, disk, limits) {
        Ok(store) => Ok(store),
        Err((_, fault)) => Err(fault),
    }
}

// Whether the key may be stored.
fn is_key(key: &Bytes) -> bool
    ensures { result ≡ is_key_length all_classes (length key.now) }
{
    !key.is_empty() && key.len() <= 255
}

// Whether the sizes are good.
fn is_good(request: &Request) -> bool
    ensures { IsTrue result → refusal_of all_classes request.now ≡ None }
{
    match request {
        Request::Put { key, value } => is_key(key) && class_of(key.len(), value.len()).is_some(),
        Request::Get { key } | Request::Delete { key } => is_key(key),
        Request::Flush | Request::After { .. } => false,
    }
}

// Whether the request is about a key of worker 0 of 1.
fn is_own(request: &Request) -> bool
    ensures keyed { IsTrue result → IsSome (key_of request.now) }
    ensures owned { IsTrue result → IfSome (key_of request.now) (λ key. owner_of key 1 ≡ 0) }
{
    match request {
        Request::Put { key, .. } | Request::Get { key } | Request::Delete { key } => {
            owner(key.as_slice(), 1) == 0
        }
        Request::Flush | Request::After { .. } => false,
    }
}

// Whether a batch of worker 0 of 1 may have the task.
fn is_open(item: &(u32, Task)) -> bool
    ensures { IsTrue result → IsOpenTask 0 1 item.now }
{
    is_good(&item.1.request) && is_own(&item.1.request) && item.1.reply.is_none()
}

// Whether a batch of worker 0 of 1 may have these tasks.
fn are_open(tasks: &[(u32, Task)]) -> bool
    ensures { IsTrue result → AllByRecursion (IsOpenTask 0 1) tasks.now }
{
    match tasks {
        [] => true,
        [first, rest @ ..] => is_open(first) && are_open(rest),
    }
}

// Answers the batch.
fn ask(alloc: Global, worker: &mut Worker<MemDisk, TreeIndex>, batch: &mut Batch, base: u64)
    requires own { (worker.old.store.worker ≡ 0) × (worker.old.store.workers ≡ 1) }
    requires tasks { AllByRecursion (IsOpenTask 0 1) batch.old.items }
    requires size { (1 ≤ length batch.old.items) × (length batch.old.items ≤ 512) }
    requires stamps { (worker.old.highest < base) × (base ≤ 2 ^ 61) }
    ensures { (worker.new.store.worker ≡ 0) × (worker.new.store.workers ≡ 1) }
{
    worker.step(alloc, batch, base);
}

/// Answers the batch with the stamps from `base` on. False where a worker can't be asked so.
pub fn step(alloc: Global, store: &mut Store, batch: &mut Batch, base: u64) -> bool {
    let count = batch.as_slice().len();
    if count < 1 || count > 512 || base <= store.worker.highest() || base > LAST_BASE {
        return false;
    }
    if !are_open(batch.as_slice()) {
        return false;
    }
    ask(alloc, &mut store.worker, batch, base);
    true
}

// Whether the reply at this place is as wanted.
fn is_wanted(batch: &Batch, at: usize, base: u64, row: &Row, outcome: Outcome) -> bool {
    told_at(batch, at, base).is_same(wanted(row, outcome))
}

/// The number of the first reply that isn't as wanted, or of all.
pub fn first_wrong(batch: &Batch, rows: &[Row], base: u64, outcome: Outcome) -> usize {
    for at in 0..rows.len() {
        if !is_wanted(batch, at, base, &rows[at], outcome) {
            return at;
        }
    }
    rows.len()
}

// Answers the requests, with the stamps from `base` on. Whether the replies are those of the outcome.
fn answers_from(
    alloc: Global,
    store: &mut Store,
    rows: &[Row],
    base: u64,
    outcome: Outcome,
) -> Result<bool, NoMemory> {
    let mut batch = batch_of(alloc, rows)?;
    let asked = step(alloc, store, &mut batch, base);
    Ok(asked && first_wrong(&batch, rows, base, outcome) == rows.len())
}

// The highest stamp behind so many requests, which is as before where the worker is closed.
fn stamp_behind(store: &Store, count: usize) -> u64 {
    if store.closed() {
        store.highest()
    } else {
        store.highest().saturating_add(count as u64)
    }
}

/// Answers the requests, with the next stamps. Whether the replies are those of the outcome, and
/// the highest stamp the last one of the batch, or as before where the worker is closed.
pub fn answers(
    alloc: Global,
    store: &mut Store,
    rows: &[Row],
    outcome: Outcome,
) -> Result<bool, NoMemory> {
    if rows.is_empty() {
        return Ok(true);
    }
    let behind = stamp_behind(store, rows.len());
    let base = store.highest().saturating_add(1);
    let well = answers_from(alloc, store, rows, base, outcome)?;
    Ok(well && store.highest() == behind)
}
