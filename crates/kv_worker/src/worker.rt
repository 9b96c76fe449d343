ghost use Rattle.std.specs.Prelude.{◌≡◌, ℕ, ◌+◌, ◌≤◌, ◌<◌, ◌^◌, List, length, map, IfOk, IfErr};
ghost use Rattle.std.specs.Prelude.{true, false};
ghost use Rattle.std.specs.List.{AllByRecursion};
ghost use Rattle.kv_base.specs.declared.reply.Reply.{Reply as ReplyOf};
ghost use Rattle.kv_base.specs.declared.reply.Reply.TheVariants.{Closed};
ghost use Rattle.kv_worker.specs.Worker.{IsOpened};
ghost use Rattle.kv_worker.specs.Batches.{AreAnswered, IsOpenTask, requests_in};
ghost use Rattle.kv_worker.specs.Steps.{Steps};

use crate::batch::Batch;
use crate::fill::{refuse_all, set_replies};
use crate::refusal::Refusal;
use crate::step::run;
use kv_base::NoMemory;
use kv_disk::Disk;
use kv_index::Index;
use kv_recover::Opened;
use kv_slab::Slabs;
use std::alloc::Global;
use std::marker::Model;

/// One worker: its store, and the greatest stamp so far.
#[derive(Drop)]
pub struct Worker<D: Disk, I: Index> {
    slabs: Slabs<D, I>,
    highest: u64,
}

impl<D: Disk, I: Index> Model for Worker<D, I> {
    ghost use Rattle.std.specs.Prelude.{◌≡◌, ◌≤◌, List, ℕ, Some, IsTrue, false};
    ghost use Rattle.std.specs.FinMap as finite;
    ghost use Rattle.kv_index.specs.declared.entry.Entry.{Entry};
    ghost use Rattle.kv_model.specs.Head.{IsWorker};
    ghost use Rattle.kv_slab.specs.Floor.{HasFloorUpTo};
    ghost use Rattle.kv_worker.specs.Worker.{WorkerView};

    ghost Value = { WorkerView D I };

    ghost view = { λ w. record { store = w.slabs; highest = w.highest } };

    ghost invariant = { λ w. record {
      worker_is : IsWorker w.slabs.worker w.slabs.workers;
      stamps : w.slabs.closed ≡ false → (key : List ℕ) (entry : Entry)
          → finite.get (I.entries w.slabs.index) key ≡ Some entry → entry.stamp ≤ w.highest;
      floor : w.slabs.closed ≡ false → IsTrue D.tells
          → HasFloorUpTo w.highest (D.seen w.slabs.disk.disk);
    } };
}

impl<D: Disk + Drop, I: Index + Drop> Worker<D, I> {
    /// A worker over a store that was opened. Want of memory hands the store back.
    pub fn new(
        alloc: Global,
        opened: Opened<D, I>,
    ) -> Result<Worker<D, I>, (Opened<D, I>, NoMemory)>
        requires { IsOpened ⟦<D as Disk>⟧ ⟦<I as Index>⟧ opened.slabs opened.floor }
        ensures ok { IfOk result (λ worker. (worker.store ≡ opened.slabs)
            × (worker.highest ≡ opened.floor)) }
        ensures err { IfErr result (λ refused. refused.0 ≡ opened) }
    {
        let _ = alloc;
        let Opened { slabs, floor } = opened;
        Ok(Worker {
            slabs,
            highest: floor,
        })
    }

    /// Answers the tasks of a batch, 1 to 512, with the stamps from `base` on, and writes what they
    /// change. Want of memory, or a read that fails, refuses them all, and the store is as before. A
    /// write or a sync that fails closes the worker; from then on each reply is `Closed`.
    pub fn step(&mut self, alloc: Global, batch: &mut Batch, base: u64)
        requires tasks { AllByRecursion (IsOpenTask self.old.store.worker self.old.store.workers)
            batch.old.items }
        requires size { (1 ≤ length batch.old.items) × (length batch.old.items ≤ 512) }
        requires stamps { self.old.store.closed ≡ false → (self.old.highest < base)
            × (base + length batch.old.items ≤ 2 ^ 62) }
        ensures spare { batch.new.spare ≡ batch.old.spare }
        ensures stepped { self.old.store.closed ≡ false → (replies : List ReplyOf)
            × AreAnswered batch.old.items batch.new.items replies
            × Steps ⟦<D as Disk>⟧ ⟦<I as Index>⟧ self.old self.new (requests_in batch.old.items)
            base replies }
        ensures closed { self.old.store.closed ≡ true → (self.new ≡ self.old)
            × AreAnswered batch.old.items batch.new.items (map (λ _. Closed)
            (requests_in batch.old.items)) }
    {
        if self.slabs.closed() {
            refuse_all(batch, Refusal::Closed);
            return;
        }
        let tasks = batch.as_slice();
        self.highest = base + (tasks.len() as u64 - 1);
        match run(alloc, &mut self.slabs, tasks, base) {
            Ok(replies) => set_replies(batch, replies),
            Err(fault) => refuse_all(batch, Refusal::Fault(fault)),
        }
    }

    /// The floor before the first batch, then the last stamp of the latest batch, whatever became of
    /// it, as long as the worker was open.
    pub fn highest(&self) -> u64
        ensures { result ≡ self.now.highest }
    {
        self.highest
    }

    /// Whether a write or a sync failed.
    pub fn closed(&self) -> bool
        ensures { result ≡ self.now.store.closed }
    {
        self.slabs.closed()
    }

    /// The disk alone.
    pub fn into_disk(self) -> D
        ensures { result ≡ self.store.disk.disk }
    {
        self.slabs.into_disk()
    }

    /// The store, with `highest` as its floor. Takes no memory.
    pub fn into_opened(self) -> Opened<D, I>
        ensures { (result.slabs ≡ self.store) × (result.floor ≡ self.highest) }
    {
        Opened {
            slabs: self.slabs,
            floor: self.highest,
        }
    }
}
