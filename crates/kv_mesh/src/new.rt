ghost use Rattle.std.specs.Prelude.{◌≡◌, ◌+◌, ◌≤◌, map, vec_len, IfOk, IfErr, OnErr};
ghost use Rattle.kv_groups.specs.Gathering.{greatest};
ghost use Rattle.kv_mesh.specs.Linked.{first_sessions, first_workers};
ghost use Rattle.kv_mesh.specs.Shares.{HaveAllSeats};
ghost use Rattle.kv_mesh.specs.Started.{AreStores, ends_of, floors, opened_of};

use crate::mesh::Mesh;
use crate::start_parties::start_parties;
use kv_base::{NoMemory, ReservedList, Sink, Source};
use kv_disk::Disk;
use kv_index::Index;
use kv_recover::Opened;
use std::alloc::Global;

/// All parties, and the room of what they give back. Want of memory leaves stores, sources and sinks.
fn start_mesh<So: Source + Drop, Si: Sink + Drop, D: Disk + Drop, I: Index + Drop, F: Drop>(
    alloc: Global,
    stores: &mut Vec<Opened<D, I>>,
    ends: &mut Vec<(So, Si)>,
) -> Result<Mesh<So, Si, D, I, F>, NoMemory>
    requires workers { (1 ≤ vec_len stores.old) × (vec_len stores.old ≤ 16) }
    requires sessions { (1 ≤ vec_len ends.old) × (vec_len ends.old ≤ 8) }
    requires stores { AreStores ⟦<D as Disk>⟧ ⟦<I as Index>⟧ stores.old.items }
    ensures stores { IfOk result (λ mesh. map opened_of (first_workers mesh.all.workers.items)
        ≡ stores.old.items) }
    ensures ends { IfOk result (λ mesh. map ends_of (first_sessions mesh.all.sessions.items)
        ≡ ends.old.items) }
    ensures start { IfOk result (λ mesh. mesh.all.start
        ≡ greatest (floors stores.old.items) + 1) }
    ensures seats { IfOk result (λ mesh. HaveAllSeats mesh.all.workers.items
        mesh.all.sessions.items) }
    ensures err { OnErr result ((stores.new.items ≡ stores.old.items)
        × (ends.new.items ≡ ends.old.items)) }
{
    let worker_room = ReservedList::with_room(alloc, stores.len())?;
    let session_room = ReservedList::with_room(alloc, ends.len())?;
    let all = start_parties(alloc, stores, ends)?;
    Ok(Mesh {
        all,
        worker_room,
        session_room,
    })
}

impl<So: Source + Drop, Si: Sink + Drop, D: Disk + Drop, I: Index + Drop, F: Drop> Mesh<
    So,
    Si,
    D,
    I,
    F,
> {
    /// Makes parties of the stores, 1 to 16, each opened as the worker of its place, and a session of
    /// each source and sink, 1 to 8. The first stamp is one more than the greatest floor. Want of
    /// memory hands all back.
    pub fn new(
        alloc: Global,
        mut stores: Vec<Opened<D, I>>,
        mut ends: Vec<(So, Si)>,
    ) -> Result<Mesh<So, Si, D, I, F>, (Vec<Opened<D, I>>, Vec<(So, Si)>, NoMemory)>
        requires workers { (1 ≤ vec_len stores) × (vec_len stores ≤ 16) }
        requires sessions { (1 ≤ vec_len ends) × (vec_len ends ≤ 8) }
        requires stores { AreStores ⟦<D as Disk>⟧ ⟦<I as Index>⟧ stores.items }
        ensures stores { IfOk result (λ mesh. map opened_of
            (first_workers mesh.all.workers.items) ≡ stores.items) }
        ensures ends { IfOk result (λ mesh. map ends_of
            (first_sessions mesh.all.sessions.items) ≡ ends.items) }
        ensures start { IfOk result (λ mesh. mesh.all.start
            ≡ greatest (floors stores.items) + 1) }
        ensures seats { IfOk result (λ mesh. HaveAllSeats mesh.all.workers.items
            mesh.all.sessions.items) }
        ensures err { IfErr result (λ refused. (refused.0.items ≡ stores.items)
            × (refused.1.items ≡ ends.items)) }
    {
        match start_mesh(alloc, &mut stores, &mut ends) {
            Ok(mesh) => Ok(mesh),
            Err(why) => Err((stores, ends, why)),
        }
    }
}
