ghost use Rattle.std.specs.Prelude.{◌≡◌, ◌≤◌, ℕ, List, [], length, IsTrue};
ghost use Rattle.kv_serve.specs.Outside.{outside_of};
ghost use Rattle.kv_serve.specs.Report.{IsReported, IsReportEnd, Makes, ReturnsAll};
ghost use Rattle.kv_serve.specs.Taken.{TookDisks};
ghost use Rattle.kv_site.specs.Held.{Held, TakesReport};

use crate::disks::{Disks, give_disks, take_disks};
use crate::ended::{Ended, Refused};
use crate::refuse::{not_served, refused_by};
use kv_base::{Sink, Source};
use kv_disk::Disk;
use kv_recover::OpenFault;
use kv_site::Site;
use kv_tools::{ToolFault, check_all, dump_all};
use std::alloc::Global;

/// A report of a store's disks.
#[derive(Clone, Copy)]
pub enum ReportKind {
    /// How many of their slots are of which kind.
    Check,
    /// All items that they keep.
    Dump,
}

/// Makes the report over the disks.
fn make_report<D: Disk, Si: Sink>(
    alloc: Global,
    kind: ReportKind,
    disks: &mut [D],
    out: &mut Si,
) -> Result<(), ToolFault>
    requires some { 1 ≤ length disks.old }
    requires limit { length disks.old ≤ 16 }
    ensures { Makes ⟦<D as Disk>⟧ Si.held Si.faults kind disks.old disks.new out.old out.new result }
{
    match kind {
        ReportKind::Check => check_all(alloc, disks, out),
        ReportKind::Dump => dump_all(alloc, disks, out),
    }
}

/// The end of a command by what came of its report.
fn reported(alloc: Global, outcome: Result<(), ToolFault>) -> Ended
    ensures endings { result.endings.items ≡ [] }
    ensures ends { IsReportEnd outcome result.status result.refused }
{
    match outcome {
        Ok(()) => not_served(alloc, 0, None),
        Err(ToolFault::Store { worker, fault }) => {
            not_served(alloc, 3, Some(Refused::Disk { worker, fault }))
        }
        Err(ToolFault::DiskFault { worker }) => {
            let fault = OpenFault::DiskFault;
            not_served(alloc, 3, Some(Refused::Disk { worker, fault }))
        }
        Err(ToolFault::SinkFault) => not_served(alloc, 1, None),
        Err(ToolFault::NoMemory) => not_served(alloc, 4, None),
    }
}

/// Gives back the disks and the sink of the report.
fn give_all<S: Site>(site: &mut S, disks: Disks<S::Pages>, out: S::Out)
    requires { length disks.items ≤ 16 }
    ensures given { (before between : Held S.In S.Out S.Pages) (folder : List ℕ)
        (olds : List S.Pages) (old : S.Out) → IsTrue S.tells → TakesReport before between old
        → TookDisks between (S.holds site.old) folder olds → length disks.items ≡ length olds
        → ReturnsAll before (S.holds site.new) folder olds disks.items old out }
    ensures still { S.faults site.new ≡ S.faults site.old }
{
    give_disks(site, disks);
    site.give_report(out);
}

/// Makes the report over disks and a sink that were taken from the site.
fn report_taken<S: Site>(
    alloc: Global,
    site: &mut S,
    mut out: S::Out,
    kind: ReportKind,
    mut disks: Disks<S::Pages>,
) -> Ended
    requires some { 1 ≤ length disks.items }
    requires limit { length disks.items ≤ 16 }
    ensures { (before between : Held S.In S.Out S.Pages) (folder : List ℕ) (n : ℕ)
        → (IsTrue S.tells → TakesReport before between out)
        → (IsTrue S.tells → TookDisks between (S.holds site.old) folder disks.items)
        → n ≡ S.faults site.old
        → IsReported ⟦<S::Pages as Disk>⟧ (outside_of ⟦<S::In as Source>⟧ ⟦<S::Out as Sink>⟧ S.tells
        before (S.holds site.new) n (S.faults site.new)) kind folder (length disks.items) result }
{
    let outcome = make_report(alloc, kind, disks.as_mut_slice(), &mut out);
    give_all(site, disks, out);
    reported(alloc, outcome)
}

/// Takes the disks and makes the report to a sink that was taken from the site.
fn report_to<S: Site>(
    alloc: Global,
    site: &mut S,
    out: S::Out,
    kind: ReportKind,
    folder: &str,
    workers: u32,
    mut disks: Disks<S::Pages>,
) -> Ended
    requires some { 1 ≤ workers }
    requires limit { workers ≤ 16 }
    requires empty { disks.items ≡ [] }
    requires room { workers ≤ disks.spare }
    ensures { (before : Held S.In S.Out S.Pages) (n : ℕ)
        → (IsTrue S.tells → TakesReport before (S.holds site.old) out)
        → n ≡ S.faults site.old
        → IsReported ⟦<S::Pages as Disk>⟧ (outside_of ⟦<S::In as Source>⟧ ⟦<S::Out as Sink>⟧ S.tells
        before (S.holds site.new) n (S.faults site.new)) kind folder.now workers result }
{
    match take_disks(site, folder, workers, &mut disks) {
        Ok(()) => report_taken(alloc, site, out, kind, disks),
        Err((worker, fault)) => {
            give_all(site, disks, out);
            refused_by(alloc, fault, Refused::TakeDisk { worker })
        }
    }
}

/// Makes a report over the disks of so many workers in the folder, and gives back all that it takes.
pub fn report<S: Site>(
    alloc: Global,
    kind: ReportKind,
    folder: &str,
    workers: u32,
    site: &mut S,
) -> Ended
    requires some { 1 ≤ workers }
    requires limit { workers ≤ 16 }
    ensures { IsReported ⟦<S::Pages as Disk>⟧ (outside_of ⟦<S::In as Source>⟧ ⟦<S::Out as Sink>⟧
        S.tells (S.holds site.old) (S.holds site.new) (S.faults site.old) (S.faults site.new)) kind
        folder.now workers result }
{
    let Ok(disks) = Disks::with_room(alloc, workers as usize) else {
        return not_served(alloc, 4, None);
    };
    match site.take_report() {
        Ok(out) => report_to(alloc, site, out, kind, folder, workers, disks),
        Err(fault) => refused_by(alloc, fault, Refused::TakeReport),
    }
}
