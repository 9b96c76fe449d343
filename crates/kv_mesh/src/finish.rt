use crate::end_laws::end_laws;
use crate::finished::Finished;
use crate::hand_out::hand_out;
use crate::mesh::Mesh;
use crate::parties::AllParties;
use kv_base::{Sink, Source};
use kv_disk::Disk;
use kv_index::Index;

impl<So: Source + Drop, Si: Sink + Drop, D: Disk + Drop, I: Index + Drop, F: Drop> Mesh<
    So,
    Si,
    D,
    I,
    F,
> {
    ghost use Rattle.std.specs.Prelude.{◌≡◌, ℕ, List, map, true};
    ghost use Rattle.kv_mesh.specs.Finished.{parts_of};
    ghost use Rattle.kv_mesh.specs.Linked.{first_sessions, first_workers, setting_for};
    ghost use Rattle.kv_mesh.specs.Mesh.{any_closed, sessions_ended};
    ghost use Rattle.kv_mesh.specs.Served.{Serves};
    ghost use Rattle.kv_mesh.specs.Settled.{HaveBegun};
    ghost use Rattle.kv_mesh.specs.Standing.{streams_of};
    ghost use Rattle.kv_model.specs.History.{Write};
    ghost use Rattle.kv_parties.specs.Begun.{IsBefore};

    /// Stops without further turns. The parts are as they are; messages and answers that wait are
    /// dropped. Takes no memory.
    pub fn finish(self) -> Finished<So, Si, D, I>
        ensures workers { result.workers.items
            ≡ map (λ party. party.worker) self.all.workers.items }
        ensures sessions { result.sessions.items
            ≡ map (λ party. parts_of party.session) self.all.sessions.items }
        ensures unsure { result.unsure ≡ any_closed self.all.workers.items }
        ensures served { sessions_ended self.all.sessions.items ≡ true
            → (before : ℕ → List Write) → HaveBegun ⟦<D as Disk>⟧ ⟦<I as Index>⟧
            (first_workers self.all.workers.items) self.all.start before
            → IsBefore (setting_for self.all.workers.items self.all.sessions.items
            self.all.start) before
            → ∥ Serves ⟦<D as Disk>⟧ (streams_of ⟦<So as Source>⟧ ⟦<Si as Sink>⟧)
            (setting_for self.all.workers.items self.all.sessions.items self.all.start) before
            (first_workers self.all.workers.items) (first_sessions self.all.sessions.items)
            result.workers.items result.sessions.items result.unsure ∥₁ }
    {
        // By these laws all that was answered is that of one map.
        end_laws::<F, D>();
        let Mesh {
            all,
            worker_room,
            session_room,
        } = self;
        let AllParties {
            workers,
            sessions,
            stamps,
            start: _,
            kept: _,
        } = all;
        hand_out(&stamps, workers, sessions, worker_room, session_room)
    }
}
