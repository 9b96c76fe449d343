ghost use Rattle.std.specs.Prelude.{length};
ghost use Rattle.kv_mesh.specs.Mesh.{HasRoom};
ghost use Rattle.kv_mesh.specs.Settled.{AreSettled};

use crate::laws::mesh_laws;
use crate::parties::AllParties;
use kv_base::{ReservedList, Sink, Source};
use kv_disk::Disk;
use kv_index::Index;
use kv_session::SessionParts;
use kv_worker::Worker;

/// All parties of a store: up to 16 workers, up to 8 sessions, and the counter. Between any two turns
/// what all parties received and sent, their maps and their disks are those of one plain map.
#[derive(Drop)]
pub struct Mesh<So: Source, Si: Sink, D: Disk, I: Index, F> {
    pub(crate) all: AllParties<So, Si, D, I, F>,
    pub(crate) worker_room: ReservedList<Worker<D, I>>,
    pub(crate) session_room: ReservedList<SessionParts<So, Si>>,
    ghost settled: { ∥ AreSettled all.workers.items all.sessions.items all.start ∥₁ },
    ghost workers_fit: { HasRoom worker_room (length all.workers.items) },
    ghost sessions_fit: { HasRoom session_room (length all.sessions.items) },
}

impl<So: Source + Drop, Si: Sink + Drop, D: Disk + Drop, I: Index + Drop, F: Drop> Mesh<
    So,
    Si,
    D,
    I,
    F,
> {
    ghost use Rattle.std.specs.Prelude.{◌≡◌, ℕ, List, [], ◌∷◌};
    ghost use Rattle.kv_mesh.specs.Moves.{TurnsParty};
    ghost use Rattle.kv_mesh.specs.Linked.{BeganSame, first_workers, setting_for};
    ghost use Rattle.kv_mesh.specs.Moments.{LeavePrefixes};
    ghost use Rattle.kv_mesh.specs.Settled.{HaveBegun};
    ghost use Rattle.kv_mesh.specs.Standing.{ServeAsOne};
    ghost use Rattle.kv_model.specs.History.{Write};
    ghost use Rattle.kv_parties.specs.Begun.{IsBefore};

    /// Makes the turns of the schedule in this order. A number names a party: workers come first,
    /// sessions follow; others make no turn.
    pub fn run_turns(&mut self, schedule: &[u16])
        ensures stands { (before : ℕ → List Write) → HaveBegun ⟦<D as Disk>⟧ ⟦<I as Index>⟧
            (first_workers self.new.all.workers.items) self.new.all.start before
            → IsBefore (setting_for self.new.all.workers.items self.new.all.sessions.items
            self.new.all.start) before → ∥ ServeAsOne self.new.all.workers.items
            self.new.all.sessions.items self.new.all.start before ∥₁ }
        ensures began { BeganSame self.old.all.workers.items self.old.all.sessions.items
            self.old.all.start self.new.all.workers.items self.new.all.sessions.items
            self.new.all.start }

        // At each moment between the call's begin and its end a crash leaves a prefix that holds all
        // that was answered before.
        ensures moments { (before : ℕ → List Write) → HaveBegun ⟦<D as Disk>⟧ ⟦<I as Index>⟧
            (first_workers self.old.all.workers.items) self.old.all.start before
            → IsBefore (setting_for self.old.all.workers.items self.old.all.sessions.items
            self.old.all.start) before → LeavePrefixes self.old.all.workers.items
            self.old.all.sessions.items self.old.all.start before self.new.all.workers.items }

        // On a schedule of one number the party that it names makes its turn.
        ensures one { (number : ℕ) → schedule.now ≡ number ∷ [] → TurnsParty number
            self.old.all.workers.items self.old.all.sessions.items self.new.all.workers.items
            self.new.all.sessions.items }
    {
        // By these laws all parties serve as one.
        mesh_laws::<F, D>();
        for number in schedule {
            self.all.turn(usize::from(*number));
        }
    }
}
