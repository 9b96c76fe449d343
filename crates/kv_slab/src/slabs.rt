ghost use Rattle.std.specs.Prelude.{◌≡◌, ℕ, ◌+◌, ◌-◌, ◌*◌, ◌<◌, ◌≤◌, List, [], None, Some, IsTrue};
ghost use Rattle.std.specs.Prelude.{IfOk, IfSome};
ghost use Rattle.std.specs.Prelude.{OnOk, OnErr, true, false, length, option_map};
ghost use Rattle.std.specs.FinMap as finite;
ghost use Rattle.kv_base.specs.Fault.{HasCause, Counted};
ghost use Rattle.kv_base.specs.Image.{Image};
ghost use Rattle.kv_base.specs.Limits.{AreLimits};
ghost use Rattle.kv_base.specs.Crash.{LeavesOnly, MayLeave, Only};
ghost use Rattle.kv_disk.specs.Steps.{ReadsAtMost};
ghost use Rattle.kv_index.specs.Entries.{HasNoneFrom};
ghost use Rattle.kv_slab.specs.declared.change.Change.{Change as Changed};
ghost use Rattle.kv_slab.specs.Moves.{AreUpTo, ArePlaces, answer_after};
ghost use Rattle.kv_slab.specs.Fault.{StepCounted};
ghost use Rattle.kv_slab.specs.Memory.{AreCounted, AreFilled, HaveLengths, items_in, rooms_of};
ghost use Rattle.kv_slab.specs.Floor.{HasFloorUpTo};
ghost use Rattle.kv_slab.specs.Settled.{HasEntryAfter};
ghost use Rattle.kv_slab.specs.Rooms.{Rooms, AreRooms, rooms_after, needed, left_slots};
ghost use Rattle.kv_slab.specs.Counts.{reads_for, NextReads};
ghost use Rattle.kv_slab.specs.Plans.{HasPlan, MayPlan};
ghost use Rattle.kv_slab.specs.View.{IsOpen, IsOfWorker, IsAnswer, IsNextItem, HasRooms};
ghost use Rattle.kv_slab.specs.View.{HasClass, IsEntryItem, IsNextEntry};
ghost use Rattle.kv_slab.specs.View.{OldOrNewMap, KeepsMap, Stands, store_map};

use crate::change::{Change, Item};
use crate::fault::{StepFault, WriteFault};
use crate::find::{find_item, next_item};
use crate::lists::room_of;
use crate::parts::{EndList, Parts, StackList};
use crate::plan::Plan;
use crate::store::{carry, make_plan};
use kv_base::Limits;
use kv_cache::Cached;
use kv_disk::Disk;
use kv_index::Index;
use std::alloc::Global;
use std::marker::Model;

/// One worker's store over its disk: a map from keys to stamps and values.
#[derive(Drop)]
pub struct Slabs<D: Disk, I: Index> {
    disk: Cached<D>,
    index: I,
    stacks: StackList,
    ends: EndList,
    limits: Limits,
    worker: u32,
    workers: u32,
    plan: Option<Plan>,
    closed: bool,
}

impl<D: Disk, I: Index> Model for Slabs<D, I> {
    ghost use Rattle.std.specs.Prelude.{◌≡◌, false, length};
    ghost use Rattle.std.specs.FinMap as finite;
    ghost use Rattle.kv_base.specs.Image.{Image};
    ghost use Rattle.kv_base.specs.Limits.{AreLimits};
    ghost use Rattle.kv_base.specs.Crash.{MayLeave};
    ghost use Rattle.kv_slab.specs.Memory.{AreFilled, rooms_of};
    ghost use Rattle.kv_slab.specs.View.{View, IsOpen, IsOfWorker};

    ghost Value = { View D I };

    ghost view = { λ s. record {
      disk = s.disk;
      index = s.index;
      rooms = rooms_of s.stacks.items s.ends.items;
      limits = s.limits;
      worker = s.worker;
      workers = s.workers;
      plan = s.plan;
      closed = s.closed;
    } };

    ghost invariant = { λ s. record {
      limits : AreLimits s.limits;
      sizes : (length s.stacks.items ≡ 12) × (length s.ends.items ≡ 12);
      filled : AreFilled (I.entries s.index) (rooms_of s.stacks.items s.ends.items);
      opened : s.closed ≡ false → IsOpen D.tells (D.seen s.disk.disk)
          (D.leaves s.disk.disk (D.calls s.disk.disk)) (finite.get (I.entries s.index))
          (rooms_of s.stacks.items s.ends.items) s.worker s.workers;
      of_worker : (image : Image) → MayLeave (D.leaves s.disk.disk (D.calls s.disk.disk)) image
          → IsOfWorker s.worker s.workers image;
    } };
}

impl<D: Disk, I: Index> Slabs<D, I> {
    /// The store of these parts, open, without a plan. Takes no memory. A crash must leave the
    /// image as read alone. That holds the store: its head page names the worker, no page past the
    /// first 2^24 slots of a slab has a byte other than zero, each entry's item stands at its place
    /// and nowhere else is an item of its key, and each other slot below an end is in its class's
    /// list, with its link.
    pub fn of_parts(parts: Parts<D, I>) -> Slabs<D, I>
        requires limits { AreLimits parts.limits }
        requires sizes { (length parts.stacks.items ≡ 12) × (length parts.ends.items ≡ 12) }
        requires counted { AreCounted (I.entries parts.index)
            (rooms_of parts.stacks.items parts.ends.items) }
        requires opened { IsOpen D.tells (D.seen parts.disk.disk)
            (D.leaves parts.disk.disk (D.calls parts.disk.disk))
            (finite.get (I.entries parts.index))
            (rooms_of parts.stacks.items parts.ends.items) parts.worker parts.workers }
        ensures { result ≡ record {
          disk = parts.disk;
          index = parts.index;
          rooms = rooms_of parts.stacks.items parts.ends.items;
          limits = parts.limits;
          worker = parts.worker;
          workers = parts.workers;
          plan = None;
          closed = false;
        } }
    {
        let Parts {
            disk,
            index,
            stacks,
            ends,
            worker,
            workers,
            limits,
        } = parts;
        Slabs {
            disk,
            index,
            stacks,
            ends,
            limits,
            worker,
            workers,
            plan: None,
            closed: false,
        }
    }

    /// Whether a write or a sync has failed. While none has, nothing is pending, and the image
    /// keeps
    /// the map.
    pub fn closed(&self) -> bool
        ensures value { result ≡ self.now.closed }
        ensures settled { result ≡ false → Only (D.seen self.now.disk.disk)
            (D.leaves self.now.disk.disk (D.calls self.now.disk.disk)) }
        ensures stands { result ≡ false → IsTrue D.tells → (rooms : Rooms)
            × AreRooms self.now.rooms rooms
            × Stands (D.seen self.now.disk.disk) (finite.get (I.entries self.now.index)) rooms
            self.now.worker self.now.workers }
        ensures keeps { result ≡ false → IsTrue D.tells → KeepsMap (D.seen self.now.disk.disk)
            (store_map ⟦<D as Disk>⟧ ⟦<I as Index>⟧ self.now) self.now.worker self.now.workers }
        ensures of_worker { (image : Image)
            → MayLeave (D.leaves self.now.disk.disk (D.calls self.now.disk.disk)) image
            → IsOfWorker self.now.worker self.now.workers image }
        ensures filled { AreFilled (I.entries self.now.index) self.now.rooms }
        ensures limits { AreLimits self.now.limits }
        ensures places { result ≡ false → ArePlaces (finite.get (I.entries self.now.index)) }
    {
        self.closed
    }

    /// The worker's number.
    pub fn worker(&self) -> u32
        ensures { result ≡ self.now.worker }
    {
        self.worker
    }

    /// The number of workers.
    pub fn workers(&self) -> u32
        ensures { result ≡ self.now.workers }
    {
        self.workers
    }

    /// The key's item. `None` exactly where the key has no value. A read that fails ends the call
    /// with `DiskFault`, and is the one fault that the disk counts meanwhile. On a disk that doesn't
    /// tell what it reads, a slot that hasn't what the store wrote there is answered `NoMemory` too.
    pub fn get(&mut self, alloc: Global, key: &[u8]) -> Result<Option<Item>, StepFault>
        requires { self.old.closed ≡ false }
        ensures answer { IsTrue D.tells → IfOk result (λ item. IsAnswer item key.now
            (store_map ⟦<D as Disk>⟧ ⟦<I as Index>⟧ self.old key.now)) }
        ensures entry { IfOk result (λ item. IsEntryItem item key.now
            (finite.get (I.entries self.old.index) key.now)) }
        ensures fits { IfOk result (λ item. IfSome item HasClass) }
        ensures reads { ReadsAtMost ⟦<D as Disk>⟧
            (reads_for (finite.get (I.entries self.old.index) key.now))
            self.old.disk.disk self.new.disk.disk }
        ensures rest { self.new ≡ record self.old { disk = self.new.disk } }
        ensures plan { (changes : List Changed)
            → HasPlan ⟦<D as Disk>⟧ ⟦<I as Index>⟧ self.old changes
            → HasPlan ⟦<D as Disk>⟧ ⟦<I as Index>⟧ self.new changes }
        ensures cause { StepCounted (D.faults self.old.disk.disk) (D.faults self.new.disk.disk)
            result }
    {
        find_item(alloc, &mut self.disk, &self.index, key)
    }

    /// The item with the least key at or after this one. `None` exactly where there is none, and
    /// then no call of the disk is made. Faults are those of `get`.
    pub fn next(&mut self, alloc: Global, key: &[u8]) -> Result<Option<Item>, StepFault>
        requires { self.old.closed ≡ false }
        ensures next { IsTrue D.tells → IfOk result (λ item. IsNextItem
            (I.entries self.old.index) (D.seen self.old.disk.disk) key.now item) }
        ensures entry { IfOk result (λ item. IsNextEntry (I.entries self.old.index) key.now
            item) }
        ensures fits { IfOk result (λ item. IfSome item HasClass) }
        ensures none { HasNoneFrom (I.entries self.old.index) key.now → self.new ≡ self.old }
        ensures reads { NextReads ⟦<D as Disk>⟧ (I.entries self.old.index) key.now
            self.old.disk.disk self.new.disk.disk }
        ensures rest { self.new ≡ record self.old { disk = self.new.disk } }
        ensures plan { (changes : List Changed)
            → HasPlan ⟦<D as Disk>⟧ ⟦<I as Index>⟧ self.old changes
            → HasPlan ⟦<D as Disk>⟧ ⟦<I as Index>⟧ self.new changes }
        ensures cause { StepCounted (D.faults self.old.disk.disk) (D.faults self.new.disk.disk)
            result }
    {
        next_item(alloc, &mut self.disk, &self.index, key)
    }

    /// Makes all reads for the changes and takes all memory, and keeps the plan, in place of an
    /// earlier one. After an error none is kept, and the map, the images, the free slots and the
    /// ends are as before. Faults are those of `get`.
    pub fn plan(&mut self, alloc: Global, changes: &[Change]) -> Result<(), StepFault>
        requires opened { self.old.closed ≡ false }
        requires can { MayPlan ⟦<D as Disk>⟧ ⟦<I as Index>⟧ self.old changes.now }
        ensures planned { OnOk result (HasPlan ⟦<D as Disk>⟧ ⟦<I as Index>⟧ self.new changes.now) }
        ensures no_plan { OnErr result (self.new.plan ≡ None) }
        ensures reads { ReadsAtMost ⟦<D as Disk>⟧ (3 * length changes.now) self.old.disk.disk
            self.new.disk.disk }
        ensures entries { I.entries self.new.index ≡ I.entries self.old.index }
        ensures rest { self.new ≡ record self.old {
          disk = self.new.disk;
          index = self.new.index;
          plan = self.new.plan;
        } }
        ensures cause { StepCounted (D.faults self.old.disk.disk) (D.faults self.new.disk.disk)
            result }
    {
        self.plan = None;
        let plan = make_plan(
            alloc,
            &mut self.disk,
            &mut self.index,
            self.stacks.as_slice(),
            self.ends.as_slice(),
            changes,
        )?;
        self.plan = Some(plan);
        Ok(())
    }

    /// Carries the plan that is kept out: pages with new items, a sync, pages with tombstones, a
    /// sync. At every moment meanwhile a crash leaves for each key its old or its new value. After
    /// `WriteFault`, for which the disk counts one fault, the store is closed. Takes no memory.
    pub fn apply(&mut self) -> Result<(), WriteFault>
        requires opened { self.old.closed ≡ false }
        requires planned { (changes : List Changed)
            × HasPlan ⟦<D as Disk>⟧ ⟦<I as Index>⟧ self.old changes }

        // what a crash leaves meanwhile
        ensures any_moment { (changes : List Changed)
            → HasPlan ⟦<D as Disk>⟧ ⟦<I as Index>⟧ self.old changes
            → LeavesOnly (D.calls self.old.disk.disk) (D.calls self.new.disk.disk)
            (D.leaves self.old.disk.disk) (D.leaves self.new.disk.disk)
            (OldOrNewMap (store_map ⟦<D as Disk>⟧ ⟦<I as Index>⟧ self.old) changes
            self.old.worker self.old.workers) }
        ensures of_worker { LeavesOnly (D.calls self.old.disk.disk) (D.calls self.new.disk.disk)
            (D.leaves self.old.disk.disk) (D.leaves self.new.disk.disk)
            (IsOfWorker self.old.worker self.old.workers) }

        // what stands afterwards
        ensures map { OnOk result ((changes : List Changed)
            → HasPlan ⟦<D as Disk>⟧ ⟦<I as Index>⟧ self.old changes → IsTrue D.tells
            → (key : List ℕ) → store_map ⟦<D as Disk>⟧ ⟦<I as Index>⟧ self.new key
            ≡ answer_after changes key (store_map ⟦<D as Disk>⟧ ⟦<I as Index>⟧ self.old key)) }
        ensures lists { OnOk result ((changes : List Changed) (rooms : Rooms)
            → HasPlan ⟦<D as Disk>⟧ ⟦<I as Index>⟧ self.old changes
            → HasRooms ⟦<D as Disk>⟧ ⟦<I as Index>⟧ self.old rooms
            → HasRooms ⟦<D as Disk>⟧ ⟦<I as Index>⟧ self.new
            (rooms_after (finite.get (I.entries self.old.index)) changes rooms)) }
        ensures entries { OnOk result ((changes : List Changed)
            → HasPlan ⟦<D as Disk>⟧ ⟦<I as Index>⟧ self.old changes
            → (key : List ℕ) → HasEntryAfter changes key
            (finite.get (I.entries self.old.index) key)
            (finite.get (I.entries self.new.index) key)) }
        ensures lengths { OnOk result ((changes : List Changed)
            → HasPlan ⟦<D as Disk>⟧ ⟦<I as Index>⟧ self.old changes
            → HaveLengths (needed (finite.get (I.entries self.old.index)) changes)
            (λ c. length (left_slots (finite.get (I.entries self.old.index)) changes c))
            self.old.rooms self.new.rooms) }
        ensures floor { OnOk result ((changes : List Changed) (bound : ℕ)
            → HasPlan ⟦<D as Disk>⟧ ⟦<I as Index>⟧ self.old changes → IsTrue D.tells
            → AreUpTo bound changes → HasFloorUpTo bound (D.seen self.old.disk.disk)
            → HasFloorUpTo bound (D.seen self.new.disk.disk)) }
        ensures opened { OnOk result (self.new.closed ≡ false) }
        ensures closed { OnErr result (self.new.closed ≡ true) }
        ensures no_plan { self.new.plan ≡ None }
        ensures kept { (self.new.worker ≡ self.old.worker) × (self.new.workers ≡ self.old.workers)
            × (self.new.limits ≡ self.old.limits) }

        // faults and calls
        ensures cause { HasCause (D.faults self.old.disk.disk) (D.faults self.new.disk.disk)
            result }
        ensures counted { Counted (D.faults self.old.disk.disk) (D.faults self.new.disk.disk)
            result }
        ensures count { (changes : List Changed)
            → HasPlan ⟦<D as Disk>⟧ ⟦<I as Index>⟧ self.old changes
            → D.calls self.new.disk.disk
            ≤ D.calls self.old.disk.disk + 17 * length changes + 2 }
        ensures none { HasPlan ⟦<D as Disk>⟧ ⟦<I as Index>⟧ self.old []
            → self.new.disk ≡ self.old.disk }
    {
        match self.plan.take() {
            Some(plan) => {
                let result = carry(
                    &mut self.disk,
                    &mut self.index,
                    &mut self.stacks,
                    &mut self.ends,
                    plan,
                );
                match result {
                    Ok(()) => Ok(()),
                    Err(fault) => {
                        self.closed = true;
                        Err(fault)
                    }
                }
            }
            None => Ok(()),
        }
    }

    /// The slot limit less the items of the class, 1 to 11, and 0 where there are more items.
    pub fn room(&self, class: u8) -> u32
        requires { (1 ≤ class) × (class ≤ 11) }
        ensures { result ≡ self.now.limits.slots - items_in (I.entries self.now.index) class }
    {
        room_of(
            self.stacks.as_slice(),
            self.ends.as_slice(),
            self.limits.slots,
            class,
        )
    }

    /// The stamp of the key's item. `None` exactly where the key has none.
    pub fn stamp_of(&self, key: &[u8]) -> Option<u64>
        ensures { result ≡ option_map (λ entry. entry.stamp) (finite.get
            (I.entries self.now.index) key.now) }
    {
        match self.index.find(key) {
            Some(entry) => Some(entry.stamp),
            None => None,
        }
    }

    /// The class of the key's item. `None` exactly where the key has none.
    pub fn class_of_key(&self, key: &[u8]) -> Option<u8>
        ensures { result ≡ option_map (λ entry. entry.place.class) (finite.get
            (I.entries self.now.index) key.now) }
    {
        match self.index.find(key) {
            Some(entry) => Some(entry.place.class),
            None => None,
        }
    }
}

impl<D: Disk, I: Index + Drop> Slabs<D, I> {
    /// The disk alone.
    pub fn into_disk(self) -> D
        ensures { result ≡ self.disk.disk }
    {
        let Slabs { disk, .. } = self;
        disk.into_disk()
    }
}
