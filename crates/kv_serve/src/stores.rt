ghost use Rattle.std.specs.Prelude.{◌≡◌, ◌<◌, ◌≤◌, ℕ, List, length, map, vec_capacity};
ghost use Rattle.std.specs.Prelude.{IsTrue, OnOk, IfOk, IfErr};
ghost use Rattle.kv_base.specs.Limits.{AreLimits};
ghost use Rattle.kv_recover.specs.Store.{HasOpened};
ghost use Rattle.kv_site.specs.Held.{Held, TakesDisk};
ghost use Rattle.kv_serve.specs.Stores.{CountsUnopened, IsUnopened, StopsBehind, TookStores};
ghost use Rattle.kv_serve.specs.Taken.{AreHome, GivesDisks};

use kv_base::{Limits, ReservedList};
use kv_disk::Disk;
use kv_index::Index;
use kv_recover::{OpenFault, Opened, open_store};
use kv_site::{Site, TakeFault};
use kv_tree::TreeIndex;
use kv_worker::Worker;
use std::alloc::Global;

/// The stores of opened disks, worker by worker.
pub type Stores<D> = Vec<Opened<D, TreeIndex>>;

/// Why a worker's disk wasn't opened.
#[derive(Drop)]
pub enum Unopened<D> {
    /// The site refused it.
    NotTaken {
        /// The worker.
        worker: u32,
        /// Why.
        fault: TakeFault,
    },
    /// It was taken, and can't be opened.
    NotOpened {
        /// The worker.
        worker: u32,
        /// The disk.
        disk: D,
        /// Why.
        fault: OpenFault,
    },
}

/// Takes the disk of the worker, of so many, in the folder, and opens it.
fn open_next<S: Site>(
    alloc: Global,
    site: &mut S,
    folder: &str,
    worker: u32,
    workers: u32,
    limits: Limits,
) -> Result<Opened<S::Pages, TreeIndex>, Unopened<S::Pages>>
    requires worker { worker < workers }
    requires workers { workers ≤ 16 }
    requires limits { AreLimits limits }
    ensures ok { IfOk result (λ opened. (disk : S.Pages)
        × (IsTrue S.tells → TakesDisk (S.holds site.old) (S.holds site.new) folder.now worker disk)
        × HasOpened ⟦<S::Pages as Disk>⟧ ⟦<TreeIndex as Index>⟧ disk worker workers limits
        opened.slabs opened.floor) }
    ensures err { IfErr result (IsUnopened S.tells ⟦<S::Pages as Disk>⟧ workers worker
        (S.holds site.old) (S.holds site.new) folder.now) }
    ensures counted { CountsUnopened (S.faults site.old) (S.faults site.new) result }
{
    match site.take_disk(folder, worker) {
        Ok(disk) => match open_store(alloc, disk, TreeIndex::new(alloc), worker, workers, limits) {
            Ok(opened) => Ok(opened),
            Err((disk, fault)) => Err(Unopened::NotOpened {
                worker,
                disk,
                fault,
            }),
        },
        Err(fault) => Err(Unopened::NotTaken { worker, fault }),
    }
}

/// Takes the disks of so many workers in the folder, behind those whose stores are in the list, and
/// opens each before it takes the next. Where one isn't opened, the stores of those before it are in
/// the list.
pub fn open_stores<S: Site>(
    alloc: Global,
    site: &mut S,
    folder: &str,
    workers: u32,
    limits: Limits,
    stores: &mut Stores<S::Pages>,
) -> Result<(), Unopened<S::Pages>>
    requires workers { workers ≤ 16 }
    requires limits { AreLimits limits }
    requires within { length stores.old.items ≤ workers }
    requires room { workers ≤ vec_capacity stores.old }
    ensures ok { OnOk result ((before : Held S.In S.Out S.Pages)
        → TookStores S.tells ⟦<S::Pages as Disk>⟧ ⟦<TreeIndex as Index>⟧ workers limits before
        (S.holds site.old) folder.now stores.old.items
        → TookStores S.tells ⟦<S::Pages as Disk>⟧ ⟦<TreeIndex as Index>⟧ workers limits before
        (S.holds site.new) folder.now stores.new.items) }
    ensures many { OnOk result (length stores.new.items ≡ workers) }
    ensures err { IfErr result (λ why. (before : Held S.In S.Out S.Pages)
        → TookStores S.tells ⟦<S::Pages as Disk>⟧ ⟦<TreeIndex as Index>⟧ workers limits before
        (S.holds site.old) folder.now stores.old.items
        → StopsBehind S.tells ⟦<S::Pages as Disk>⟧ ⟦<TreeIndex as Index>⟧ workers limits before
        (S.holds site.new) folder.now stores.new.items why) }
    ensures few { length stores.new.items ≤ workers }
    ensures counted { CountsUnopened (S.faults site.old) (S.faults site.new) result }
{
    let worker = stores.len() as u32;
    if worker == workers {
        return Ok(());
    }
    match open_next(alloc, site, folder, worker, workers, limits) {
        Ok(opened) => stores.push(opened).unwrap(),
        Err(why) => return Err(why),
    }
    open_stores(alloc, site, folder, workers, limits, stores)
}

/// Gives the disks of the stores back, the last one first.
pub fn give_stores<S: Site>(site: &mut S, mut stores: Stores<S::Pages>)
    requires { length stores.items ≤ 16 }
    ensures given { IsTrue S.tells → (folder : List ℕ)
        → AreHome (S.holds site.old) folder (length stores.items)
        → GivesDisks (S.holds site.old) (S.holds site.new) folder
        (map (λ opened. opened.slabs.disk.disk) stores.items) }
    ensures still { S.faults site.new ≡ S.faults site.old }
{
    while let Some(opened) = stores.pop() {
        site.give_disk(stores.len() as u32, opened.slabs.into_disk());
    }
}

/// Gives the disks of the workers back, the last one first.
pub fn give_workers<S: Site>(site: &mut S, mut workers: ReservedList<Worker<S::Pages, TreeIndex>>)
    requires { length workers.items ≤ 16 }
    ensures given { IsTrue S.tells → (folder : List ℕ)
        → AreHome (S.holds site.old) folder (length workers.items)
        → GivesDisks (S.holds site.old) (S.holds site.new) folder
        (map (λ worker. worker.store.disk.disk) workers.items) }
    ensures still { S.faults site.new ≡ S.faults site.old }
{
    while let Some(worker) = workers.take_last() {
        site.give_disk(workers.as_slice().len() as u32, worker.into_disk());
    }
}
