ghost use Rattle.std.specs.Prelude.{◌≡◌, ◌≤◌, ◌++◌, ℕ, OnOk, OnErr, IfErr, IsTrue};
ghost use Rattle.std.specs.Prelude.{Contains, length};
ghost use Rattle.kv_disk.specs.Steps.{OnlyReads};
ghost use Rattle.kv_recover.specs.Listed.{IsSlabPlace};
ghost use Rattle.kv_tools.specs.declared.merge.Listed.{Listed};
ghost use Rattle.kv_tools.specs.Disks.{ReadsAll, CountsAll};
ghost use Rattle.kv_tools.specs.Dumped.{ArePlaced, Dumps, DumpsUntil, IsKeptIn, IsKeptOn, line_in};
ghost use Rattle.kv_tools.specs.Dumped.{lines_of};
ghost use Rattle.kv_tools.specs.DumpedDisk.{IsLineFault, IsLinesFault};
ghost use Rattle.kv_tools.specs.Faults.{HasReportCause, disk_faults, sink_faults, value_fault_of};
ghost use Rattle.kv_tools.specs.Sent.{Puts, TakesSome};

use crate::fault::ToolFault;
use crate::list::list_all;
use crate::merge::Listed;
use crate::text::Text;
use kv_base::Sink;
use kv_disk::Disk;
use kv_recover::read_value;
use kv_slab::StepFault;
use std::alloc::Global;

/// What it means to a report that a value couldn't be read from the disk of this worker.
fn value_fault(worker: u32, fault: StepFault) -> ToolFault
    ensures { result ≡ value_fault_of worker fault }
{
    match fault {
        StepFault::DiskFault => ToolFault::DiskFault { worker },
        StepFault::NoMemory => ToolFault::NoMemory,
    }
}

/// Puts the line of an item that this disk, its worker's, keeps.
fn put_line<D: Disk, Si: Sink>(
    alloc: Global,
    disk: &mut D,
    item: &Listed,
    text: &mut Text,
    out: &mut Si,
) -> Result<(), ToolFault>
    requires place { IsSlabPlace item.now.kept.place }
    requires kept { IsTrue D.tells → (workers : ℕ)
        × IsKeptIn ⟦<D as Disk>⟧ disk.old item.now.worker workers item.now }
    ensures ok { IsTrue D.tells → OnOk result (Puts (Si.held out.old) (Si.held out.new) text.old
        text.new (line_in (D.seen disk.old) item.now)) }
    ensures err { IsTrue D.tells → OnErr result (TakesSome (Si.held out.old) (Si.held out.new)
        (text.old ++ line_in (D.seen disk.old) item.now)) }
    ensures cause { IfErr result (IsLineFault item.now.worker) }
    ensures reads { OnlyReads ⟦<D as Disk>⟧ disk.old disk.new }
    ensures faults { D.faults disk.new ≡ disk_faults result item.now.worker (D.faults disk.old) }
    ensures counted { Si.faults out.new ≡ sink_faults result (Si.faults out.old) }
{
    let value = match read_value(alloc, disk, &item.kept) {
        Ok(value) => value,
        Err(fault) => return Err(value_fault(item.worker, fault)),
    };
    let key = item.kept.key.as_slice();
    text.put_item(out, item.kept.stamp, key, value.as_slice())?;
    Ok(())
}

/// Puts the lines of items that the disks keep.
fn put_lines<D: Disk, Si: Sink>(
    alloc: Global,
    disks: &mut [D],
    items: &[Listed],
    text: &mut Text,
    out: &mut Si,
) -> Result<(), ToolFault>
    requires places { ArePlaced (length disks.old) items.now }
    requires kept { IsTrue D.tells → (item : Listed) → Contains items.now item
        → IsKeptOn ⟦<D as Disk>⟧ disks.old item }
    ensures ok { IsTrue D.tells → OnOk result (Puts (Si.held out.old) (Si.held out.new) text.old
        text.new (lines_of ⟦<D as Disk>⟧ disks.old items.now)) }
    ensures err { IsTrue D.tells → OnErr result (TakesSome (Si.held out.old) (Si.held out.new)
        (text.old ++ lines_of ⟦<D as Disk>⟧ disks.old items.now)) }
    ensures cause { IfErr result (IsLinesFault (length disks.old)) }
    ensures reads { ReadsAll ⟦<D as Disk>⟧ disks.old disks.new }
    ensures faults { CountsAll ⟦<D as Disk>⟧ disks.old disks.new result }
    ensures counted { Si.faults out.new ≡ sink_faults result (Si.faults out.old) }
{
    for item in items {
        let worker = item.worker as usize;
        put_line(alloc, &mut disks[worker], item, text, out)?;
    }
    Ok(())
}

/// Reports all items that the disks of a store keep, 1 to 16, the first one that of worker 0 and so
/// on: a line for each item, by rising key. It only reads. Before the first line it takes memory for
/// all keys. Lines go to the sink in pieces of some 64 KB. A disk that is refused leaves the report
/// without a line. Where a read or the sink fails, the sink has a front of the lines; where memory
/// is wanting, nothing or such a front.
pub fn dump_all<D: Disk, Si: Sink>(
    alloc: Global,
    disks: &mut [D],
    out: &mut Si,
) -> Result<(), ToolFault>
    requires some { 1 ≤ length disks.old }
    requires limit { length disks.old ≤ 16 }
    ensures ok { IsTrue D.tells → OnOk result (Dumps ⟦<D as Disk>⟧ disks.old (Si.held out.old)
        (Si.held out.new)) }
    ensures err { IfErr result (DumpsUntil ⟦<D as Disk>⟧ disks.old (Si.held out.old)
        (Si.held out.new)) }
    ensures cause { IfErr result (HasReportCause ⟦<D as Disk>⟧ disks.old) }
    ensures reads { ReadsAll ⟦<D as Disk>⟧ disks.old disks.new }
    ensures faults { CountsAll ⟦<D as Disk>⟧ disks.old disks.new result }
    ensures counted { Si.faults out.new ≡ sink_faults result (Si.faults out.old) }
{
    let items = list_all(alloc, disks)?;
    let mut text = Text::new(alloc)?;
    put_lines(alloc, disks, items.as_slice(), &mut text, out)?;
    text.flush(out)?;
    Ok(())
}
