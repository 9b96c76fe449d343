ghost use Rattle.std.specs.Prelude.{◌≡◌, ◌<◌, ◌≤◌, OnOk, IfErr, length};
ghost use Rattle.kv_disk.specs.Steps.{OnlyReads};
ghost use Rattle.kv_tools.specs.Checked.{Checks, ChecksUntil};
ghost use Rattle.kv_tools.specs.CheckedDisk.{ChecksDisk, ChecksDiskUntil};
ghost use Rattle.kv_tools.specs.Disks.{ReadsAll, CountsAll};
ghost use Rattle.kv_tools.specs.Faults.{HasReportCause, disk_faults, sink_faults};

use crate::fault::{ToolFault, refusal};
use crate::lines::lines_of;
use crate::send::send;
use kv_base::Sink;
use kv_disk::Disk;
use kv_recover::survey;
use std::alloc::Global;

/// Reports what stands on the disk of this worker of so many.
fn check_disk<D: Disk, Si: Sink>(
    alloc: Global,
    disk: &mut D,
    worker: u32,
    workers: u32,
    out: &mut Si,
) -> Result<(), ToolFault>
    requires below { worker < workers }
    requires limit { workers ≤ 16 }
    ensures ok { OnOk result (ChecksDisk ⟦<D as Disk>⟧ disk.old worker workers (Si.held out.old)
        (Si.held out.new)) }
    ensures err { IfErr result (ChecksDiskUntil ⟦<D as Disk>⟧ disk.old worker workers
        (Si.held out.old) (Si.held out.new)) }
    ensures reads { OnlyReads ⟦<D as Disk>⟧ disk.old disk.new }
    ensures faults { D.faults disk.new ≡ disk_faults result worker (D.faults disk.old) }
    ensures counted { Si.faults out.new ≡ sink_faults result (Si.faults out.old) }
{
    let survey = match survey(alloc, disk, worker, workers) {
        Ok(survey) => survey,
        Err(fault) => return Err(refusal(worker, fault)),
    };
    let text = lines_of(alloc, worker, &survey)?;
    send(out, text.as_bytes())?;
    Ok(())
}

/// Reports what stands on the disks of a store, 1 to 16, the first one that of worker 0 and so on:
/// how many slots of each class are of which kind, the floor and the number of keys. It only reads.
/// Each disk's lines go to the sink as one piece. The first disk that is refused ends the report
/// behind the lines of the disks before it, and so may want of memory at any disk. Where the sink
/// fails, it holds a front of the lines.
pub fn check_all<D: Disk, Si: Sink>(
    alloc: Global,
    disks: &mut [D],
    out: &mut Si,
) -> Result<(), ToolFault>
    requires some { 1 ≤ length disks.old }
    requires limit { length disks.old ≤ 16 }
    ensures ok { OnOk result (Checks ⟦<D as Disk>⟧ disks.old (length disks.old) (Si.held out.old)
        (Si.held out.new)) }
    ensures err { IfErr result (ChecksUntil ⟦<D as Disk>⟧ disks.old (Si.held out.old)
        (Si.held out.new)) }
    ensures cause { IfErr result (HasReportCause ⟦<D as Disk>⟧ disks.old) }
    ensures reads { ReadsAll ⟦<D as Disk>⟧ disks.old disks.new }
    ensures faults { CountsAll ⟦<D as Disk>⟧ disks.old disks.new result }
    ensures counted { Si.faults out.new ≡ sink_faults result (Si.faults out.old) }
{
    let workers = disks.len() as u32;
    for worker in 0..workers {
        check_disk(alloc, &mut disks[worker as usize], worker, workers, out)?;
    }
    Ok(())
}
