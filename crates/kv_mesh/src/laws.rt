ghost use Rattle.kv_mesh.specs.Laws.{MeshLaws};

use kv_disk::Disk;
use kv_parties::{owes_none, promises_join, recovery_joins};
use kv_worker_party::due_messages_are_taken;

/// What the promises of all parties say together. Nothing runs.
pub(crate) fn mesh_laws<F, D: Disk>()
    ensures { MeshLaws F D ⟦<D as Disk>⟧ }
{
    promises_join::<F, D>();
    owes_none::<F, D>();
    due_messages_are_taken::<F>();
    recovery_joins::<F, D>();
}
