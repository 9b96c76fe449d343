ghost use Rattle.std.specs.Prelude.{◌≡◌, ℕ, ◌<◌, ◌≤◌, ◌^◌, IsTrue, OnOk, IfOk, IfErr, slice_index};
ghost use Rattle.std.specs.FinMap as finite;
ghost use Rattle.kv_disk.specs.Steps.{OnlyReads};
ghost use Rattle.kv_model.specs.Layout.{all_classes};
ghost use Rattle.kv_model.specs.Recovery.{OpensAs};
ghost use Rattle.kv_recover.specs.Causes.{HasMakeCause};
ghost use Rattle.kv_recover.specs.Faults.{AreFaultsCounted};
ghost use Rattle.kv_recover.specs.HeadCheck.{IsReadable};
ghost use Rattle.kv_recover.specs.Opened.{FindsAllBelow};
ghost use Rattle.kv_recover.specs.Placed.{HasCounts, ArePlaced};

use crate::fault::OpenFault;
use crate::find::Found;
use crate::head::{check_head, check_slabs};
use crate::items::Items;
use crate::open::find_all;
use crate::share::Share;
use kv_disk::Disk;
use kv_index::Index;
use std::alloc::Global;

/// Whether the disk is new; else it has to have the head of this worker.
pub fn check_store<D: Disk>(disk: &mut D, share: Share) -> Result<bool, OpenFault>
    ensures readable { IsTrue D.tells → IfOk result (λ fresh. IsReadable fresh (D.seen disk.old)
        share.worker share.workers) }
    ensures reads { OnlyReads ⟦<D as Disk>⟧ disk.old disk.new }
    ensures cause { IfErr result (HasMakeCause (IsTrue D.tells) (D.seen disk.old) share.worker
        share.workers) }
    ensures counted { AreFaultsCounted (D.faults disk.old) (D.faults disk.new) result }
{
    if check_head(disk, share)? {
        check_slabs(disk)?;
        Ok(true)
    } else {
        Ok(false)
    }
}

/// Finds the items of a disk that is new or this worker's, into an index that is empty, and writes
/// nothing.
pub fn read_all<D: Disk, I: Index>(
    alloc: Global,
    disk: &mut D,
    items: &mut Items<I>,
    share: Share,
) -> Result<(bool, Found), OpenFault>
    requires below { share.worker < share.workers }
    requires limit { share.workers ≤ 16 }
    requires none { I.entries items.old.index ≡ finite.empty }
    requires counted { HasCounts (I.entries items.old.index) items.old.counts }
    ensures readable { IsTrue D.tells → IfOk result (λ read. IsReadable read.0 (D.seen disk.old)
        share.worker share.workers) }
    ensures found { IsTrue D.tells → IfOk result (λ read. FindsAllBelow (D.seen disk.old)
        share.worker share.workers 12 (I.entries items.new.index) read.1.floor read.1.ends) }
    ensures ends { IfOk result (λ read. (class : ℕ) → slice_index read.1.ends class ≤ 2 ^ 24) }
    ensures placed { IfOk result (λ read. ArePlaced (I.entries items.new.index) read.1.floor
        (λ class. slice_index read.1.ends class)) }
    ensures counted { OnOk result (HasCounts (I.entries items.new.index) items.new.counts) }
    ensures opens { IsTrue D.tells → OnOk result (OpensAs all_classes (D.seen disk.old)
        share.worker share.workers) }
    ensures reads { OnlyReads ⟦<D as Disk>⟧ disk.old disk.new }
    ensures cause { IfErr result (HasMakeCause (IsTrue D.tells) (D.seen disk.old) share.worker
        share.workers) }
    ensures faults { AreFaultsCounted (D.faults disk.old) (D.faults disk.new) result }
{
    let fresh = check_store(disk, share)?;
    let found = find_all(alloc, disk, items, share)?;
    Ok((fresh, found))
}
