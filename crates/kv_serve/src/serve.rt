ghost use Rattle.std.specs.Prelude.{◌≡◌, ◌≤◌, ℕ, List, [], length, map, vec_capacity, IsTrue};
ghost use Rattle.std.specs.Prelude.{filter_map, None};
ghost use Rattle.kv_base.specs.Crash.{MayLeave};
ghost use Rattle.kv_base.specs.Limits.{AreLimits};
ghost use Rattle.kv_base.specs.declared.limits.Limits.{Limits as LimitsOf};
ghost use Rattle.kv_site.specs.Held.{Held};
ghost use Rattle.kv_serve.specs.Opening.{AreOpenedFrom};
ghost use Rattle.kv_serve.specs.Outside.{outside_of};
ghost use Rattle.kv_serve.specs.Serve.{IsDone, served_status};
ghost use Rattle.kv_serve.specs.Taken.{BringsAll, TookDisks, TookSessions};

use crate::ended::{Ended, Endings, Refused};
use crate::refuse::{not_served, refuse_disk, refused_by};
use crate::sessions::{give_sessions, give_stopped, take_sessions};
use crate::status::status_of;
use crate::stores::{Stores, Unopened, give_stores, give_workers, open_stores};
use kv_base::{Limits, NoMemory, Sink, Source};
use kv_disk::Disk;
use kv_index::Index;
use kv_mesh::{Finished, Mesh, opened_stores_begin};
use kv_site::Site;
use kv_tree::{TreeIndex, tree_indexes_cross_threads};
use kv_words::Ends;
use std::alloc::Global;
use std::sync::Wait;
use std::thread::Threads;

/// Serves sessions with ends of these names over the disks of so many workers in the folder. All that
/// it takes from the site it gives back.
pub fn serve<S: Site + 'static, R: Threads + Wait + Copy + Send + 'static>(
    rt: R,
    alloc: Global,
    site: &mut S,
    folder: &str,
    workers: u32,
    limits: Limits,
    names: &[Ends<'_>],
) -> Ended
    requires workers { (1 ≤ workers) × (workers ≤ 16) }
    requires limits { AreLimits limits }
    requires sessions { (1 ≤ length names.now) × (length names.now ≤ 8) }
    ensures { IsDone ⟦<S::Pages as Disk>⟧ (outside_of ⟦<S::In as Source>⟧ ⟦<S::Out as Sink>⟧ S.tells
        (S.holds site.old) (S.holds site.new) (S.faults site.old) (S.faults site.new)) folder.now
        workers limits (length names.now) result }
{
    let Ok(endings) = Endings::with_room(alloc, names.len()) else {
        return not_served(alloc, 4, None);
    };
    let Ok(ends) = Vec::with_capacity(alloc, names.len()) else {
        return not_served(alloc, 4, None);
    };
    let Ok(mut stores) = Vec::with_capacity(alloc, workers as usize) else {
        return not_served(alloc, 4, None);
    };
    match open_stores(alloc, site, folder, workers, limits, &mut stores) {
        Ok(()) => serve_stores(rt, alloc, site, stores, names, ends, endings),
        Err(Unopened::NotTaken { worker, fault }) => {
            give_stores(site, stores);
            refused_by(alloc, fault, Refused::TakeDisk { worker })
        }
        Err(
            Unopened::NotOpened {
                worker,
                disk,
                fault,
            },
        ) => {
            site.give_disk(worker, disk);
            give_stores(site, stores);
            refuse_disk(alloc, worker, fault)
        }
    }
}

/// Serves sessions over stores whose disks were taken from the site.
fn serve_stores<S: Site + 'static, R: Threads + Wait + Copy + Send + 'static>(
    rt: R,
    alloc: Global,
    site: &mut S,
    stores: Stores<S::Pages>,
    names: &[Ends<'_>],
    mut ends: Vec<(S::In, S::Out)>,
    endings: Endings,
) -> Ended
    requires workers { (1 ≤ length stores.items) × (length stores.items ≤ 16) }
    requires sessions { (1 ≤ length names.now) × (length names.now ≤ 8) }
    requires ends { (ends.items ≡ []) × (length names.now ≤ vec_capacity ends) }
    requires endings { (endings.items ≡ []) × (length names.now ≤ endings.spare) }
    requires opened { (olds : List S.Pages) × (limits : LimitsOf)
        × AreOpenedFrom ⟦<S::Pages as Disk>⟧ ⟦<TreeIndex as Index>⟧ (length olds) limits olds
        stores.items }
    ensures { (before : Held S.In S.Out S.Pages) (folder : List ℕ) (n : ℕ) (olds : List S.Pages)
        (limits : LimitsOf)
        → (IsTrue S.tells → TookDisks before (S.holds site.old) folder olds)
        → AreOpenedFrom ⟦<S::Pages as Disk>⟧ ⟦<TreeIndex as Index>⟧ (length olds) limits olds
        stores.items → n ≡ S.faults site.old
        → IsDone ⟦<S::Pages as Disk>⟧ (outside_of ⟦<S::In as Source>⟧ ⟦<S::Out as Sink>⟧ S.tells
        before (S.holds site.new) n (S.faults site.new)) folder (length olds) limits
        (length names.now) result }
{
    match take_sessions(site, names, &mut ends) {
        Ok(()) => serve_sessions(rt, alloc, site, stores, ends, endings),
        Err((session, fault)) => {
            give_sessions(site, ends);
            give_stores(site, stores);
            refused_by(alloc, fault, Refused::TakeSession { session })
        }
    }
}

/// Serves sessions whose ends were taken from the site, over stores whose disks were.
fn serve_sessions<S: Site + 'static, R: Threads + Wait + Copy + Send + 'static>(
    rt: R,
    alloc: Global,
    site: &mut S,
    stores: Stores<S::Pages>,
    ends: Vec<(S::In, S::Out)>,
    endings: Endings,
) -> Ended
    requires workers { (1 ≤ length stores.items) × (length stores.items ≤ 16) }
    requires sessions { (1 ≤ length ends.items) × (length ends.items ≤ 8) }
    requires endings { (endings.items ≡ []) × (length ends.items ≤ endings.spare) }
    requires opened { (olds : List S.Pages) × (limits : LimitsOf)
        × AreOpenedFrom ⟦<S::Pages as Disk>⟧ ⟦<TreeIndex as Index>⟧ (length olds) limits olds
        stores.items }
    ensures { (before between : Held S.In S.Out S.Pages) (folder : List ℕ) (n : ℕ)
        (olds : List S.Pages) (limits : LimitsOf)
        → (IsTrue S.tells → TookDisks before between folder olds)
        → (IsTrue S.tells → TookSessions between (S.holds site.old) ends.items)
        → AreOpenedFrom ⟦<S::Pages as Disk>⟧ ⟦<TreeIndex as Index>⟧ (length olds) limits olds
        stores.items → n ≡ S.faults site.old
        → IsDone ⟦<S::Pages as Disk>⟧ (outside_of ⟦<S::In as Source>⟧ ⟦<S::Out as Sink>⟧ S.tells
        before (S.holds site.new) n (S.faults site.new)) folder (length olds) limits
        (length ends.items) result }
{
    // By these laws the parties begin with what stood on their disks, and may move to threads.
    disks_tell::<S::Pages>();
    opened_stores_begin::<S::Pages, TreeIndex>();
    tree_indexes_cross_threads();
    let mesh = match Mesh::<S::In, S::Out, S::Pages, TreeIndex, ()>::new(alloc, stores, ends) {
        Ok(mesh) => mesh,
        Err((stores, ends, NoMemory)) => {
            give_sessions(site, ends);
            give_stores(site, stores);
            return not_served(alloc, 4, None);
        }
    };
    give_back(site, mesh.run(&rt), endings)
}

/// Where a disk leaves something it tells what it reads, and a crash now may leave that. Nothing runs.
fn disks_tell<D: Disk>()
    ensures { (disk : D) (t f p : ℕ) (c : List ℕ) → D.leaves disk t f p c
        → IsTrue D.tells × MayLeave (D.leaves disk (D.calls disk)) (D.seen disk) }
{}

/// Gives back what the parties had, and ends the command.
fn give_back<S: Site>(
    site: &mut S,
    finished: Finished<S::In, S::Out, S::Pages, TreeIndex>,
    endings: Endings,
) -> Ended
    requires workers { length finished.workers.items ≤ 16 }
    requires sessions { length finished.sessions.items ≤ 8 }
    requires endings { (endings.items ≡ []) × (length finished.sessions.items ≤ endings.spare) }
    ensures brings { (before between : Held S.In S.Out S.Pages) (folder : List ℕ)
        (olds : List S.Pages) (ends : List (S.In × S.Out)) → IsTrue S.tells
        → TookDisks before between folder olds
        → TookSessions between (S.holds site.old) ends
        → length finished.workers.items ≡ length olds
        → length finished.sessions.items ≡ length ends
        → BringsAll before (S.holds site.new) folder olds
        (map (λ worker. worker.store.disk.disk) finished.workers.items) ends
        (map (λ parts. (parts.source, parts.sink)) finished.sessions.items) }
    ensures still { S.faults site.new ≡ S.faults site.old }
    ensures endings { result.endings.items
        ≡ filter_map (λ parts. parts.ending) finished.sessions.items }
    ensures status { result.status ≡ served_status result.endings.items finished.unsure }
    ensures refused { result.refused ≡ None }
{
    let Finished {
        workers,
        sessions,
        unsure,
    } = finished;
    let endings = give_stopped(site, sessions, endings);
    give_workers(site, workers);
    let status = status_of(endings.as_slice(), unsure);
    Ended {
        status,
        endings,
        refused: None,
    }
}
