ghost use Rattle.kv_mesh.specs.Opening.{OpenedStoresBegin};

use kv_disk::Disk;
use kv_index::Index;

/// Workers of stores that were opened begin with what these kept. Nothing runs.
pub fn opened_stores_begin<D: Disk, I: Index>()
    ensures { OpenedStoresBegin ⟦<D as Disk>⟧ ⟦<I as Index>⟧ }
{}
