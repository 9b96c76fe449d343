ghost use Rattle.std.specs.Prelude.{◌≡◌, ◌<◌, ◌≤◌, IfOk, IfErr, IsTrue, length};
ghost use Rattle.kv_disk.specs.Steps.{OnlyReads};
ghost use Rattle.kv_tools.specs.Disks.{ReadsAll, CountsAll};
ghost use Rattle.kv_tools.specs.Dumped.{AreItemsOf, ArePlaced};
ghost use Rattle.kv_tools.specs.DumpedDisk.{ListsDisk, HasListCause, IsListFault};
ghost use Rattle.kv_tools.specs.Faults.{HasReportCause, disk_faults};

use crate::fault::{ToolFault, refusal};
use crate::merge::{Listed, merge};
use kv_disk::Disk;
use kv_recover::kept;
use std::alloc::Global;

/// Lists the items that the disk of this worker of so many keeps among those of other workers.
fn list_disk<D: Disk>(
    alloc: Global,
    disk: &mut D,
    worker: u32,
    workers: u32,
    listed: Vec<Listed>,
) -> Result<Vec<Listed>, ToolFault>
    requires below { worker < workers }
    requires limit { workers ≤ 16 }
    ensures ok { IfOk result (λ now. ListsDisk ⟦<D as Disk>⟧ disk.old worker workers listed.items
        now.items) }
    ensures cause { IfErr result (HasListCause ⟦<D as Disk>⟧ disk.old worker workers) }
    ensures reads { OnlyReads ⟦<D as Disk>⟧ disk.old disk.new }
    ensures faults { D.faults disk.new ≡ disk_faults result worker (D.faults disk.old) }
{
    let list = match kept(alloc, disk, worker, workers) {
        Ok(list) => list,
        Err(fault) => return Err(refusal(worker, fault)),
    };
    let listed = merge(alloc, listed, worker, list)?;
    Ok(listed)
}

/// The items that the disks of a store keep, by rising key.
pub fn list_all<D: Disk>(alloc: Global, disks: &mut [D]) -> Result<Vec<Listed>, ToolFault>
    requires limit { length disks.old ≤ 16 }
    ensures items { IsTrue D.tells → IfOk result (λ listed. AreItemsOf ⟦<D as Disk>⟧ disks.old
        (length disks.old) listed.items) }
    ensures places { IfOk result (λ listed. ArePlaced (length disks.old) listed.items) }
    ensures err { IfErr result (IsListFault ⟦<D as Disk>⟧ disks.old) }
    ensures cause { IfErr result (HasReportCause ⟦<D as Disk>⟧ disks.old) }
    ensures reads { ReadsAll ⟦<D as Disk>⟧ disks.old disks.new }
    ensures faults { CountsAll ⟦<D as Disk>⟧ disks.old disks.new result }
{
    let workers = disks.len() as u32;
    let mut listed = Vec::new(alloc);
    for worker in 0..workers {
        listed = list_disk(alloc, &mut disks[worker as usize], worker, workers, listed)?;
    }
    Ok(listed)
}
