ghost use Rattle.std.specs.Prelude.{◌≡◌, ℕ, ◌<◌, ◌≤◌, IsTrue, OnOk, IfOk, IfErr, Some, slice_get};
ghost use Rattle.kv_disk.specs.Steps.{OnlyReads};
ghost use Rattle.kv_model.specs.Layout.{all_classes};
ghost use Rattle.kv_model.specs.Recovery.{OpensAs};
ghost use Rattle.kv_recover.specs.declared.entries.Kept.{Kept};
ghost use Rattle.kv_recover.specs.Causes.{HasMakeCause};
ghost use Rattle.kv_recover.specs.Faults.{AreFaultsCounted};
ghost use Rattle.kv_recover.specs.Listed.{AreKept, IsSlabPlace};

use crate::entries::{KeptList, list_all};
use crate::fault::OpenFault;
use crate::items::Items;
use crate::reading::read_all;
use crate::share::Share;
use kv_disk::Disk;
use kv_tree::TreeIndex;
use std::alloc::Global;

/// The items that are kept on the disk of this worker of so many, 1 to 16, by rising key. It only
/// reads, and refuses what opening refuses before it writes, but for spent stamps.
pub fn kept<D: Disk>(
    alloc: Global,
    disk: &mut D,
    worker: u32,
    workers: u32,
) -> Result<KeptList, OpenFault>
    requires below { worker < workers }
    requires limit { workers ≤ 16 }
    ensures kept { IsTrue D.tells → IfOk result (λ list. AreKept (D.seen disk.old) worker workers
        list.items) }
    ensures places { IfOk result (λ list. (i : ℕ) (kept : Kept) → slice_get list.items i ≡ Some kept
        → IsSlabPlace kept.place) }
    ensures opens { IsTrue D.tells → OnOk result (OpensAs all_classes (D.seen disk.old) worker
        workers) }
    ensures reads { OnlyReads ⟦<D as Disk>⟧ disk.old disk.new }
    ensures cause { IfErr result (HasMakeCause (IsTrue D.tells) (D.seen disk.old) worker workers) }
    ensures counted { AreFaultsCounted (D.faults disk.old) (D.faults disk.new) result }
{
    let mut items = Items::new(TreeIndex::new(alloc));
    read_all(alloc, disk, &mut items, Share { worker, workers })?;
    let list = list_all(alloc, &mut items.index)?;
    Ok(list)
}
