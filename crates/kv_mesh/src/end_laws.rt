ghost use Rattle.kv_mesh.specs.EndLaws.{EndLaws};

use kv_disk::Disk;
use kv_parties::{promises_end, promises_join, spent_has_cause};

/// What the promises of parties that have ended say together. Nothing runs.
pub(crate) fn end_laws<F, D: Disk>()
    ensures { EndLaws F D ⟦<D as Disk>⟧ }
{
    promises_end::<F, D>();
    promises_join::<F, D>();
    spent_has_cause::<F, D>();
}
