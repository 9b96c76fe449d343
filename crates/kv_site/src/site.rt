ghost use Rattle.std.specs.Prelude.{◌≡◌, ◌≤◌, ℕ, Bool, Err, IsTrue, IfOk, OnErr};
ghost use Rattle.kv_base.specs.Fault.{Rose};
ghost use Rattle.kv_site.specs.FileSite.{Counts};
ghost use Rattle.kv_site.specs.Held.{Held, TakesSession, GivesSession, TakesDisk, GivesDisk};
ghost use Rattle.kv_site.specs.Held.{TakesReport, GivesReport};

use crate::TakeFault;
use kv_base::{Sink, Source};
use kv_disk::Disk;

/// Where a command takes the ends of its sessions, its disks and the sink of its report from, and
/// where it gives them back to.
///
/// A take that is refused leaves all that the site holds. No call but a take wants memory.
pub trait Site {
    /// Where a session's bytes come from.
    type In: Source + Send + Drop + 'static;

    /// Where a session's replies go, or a report.
    type Out: Sink + Send + Drop + 'static;

    /// The disk of one worker.
    type Pages: Disk + Send + Drop + 'static;

    /// Whether sites of this type tell what they hold.
    ghost tells: { Bool };

    /// What it holds.
    ghost holds: { Self → Held Self.In Self.Out Self.Pages };

    /// How often it has failed. The count never falls.
    ghost faults: { Self → ℕ };

    /// Takes the ends of the session with this number, where `input` and `output` name them.
    fn take_session(
        &mut self,
        number: u32,
        input: &str,
        output: &str,
    ) -> Result<(Self::In, Self::Out), TakeFault>
        ensures taken { IsTrue tells
            → IfOk result (TakesSession (holds self.old) (holds self.new) number) }
        ensures kept { IsTrue tells → OnErr result (holds self.new ≡ holds self.old) }
        ensures later { faults self.old ≤ faults self.new }
        ensures cause { result ≡ Err TakeFault.Failed → Rose (faults self.old) (faults self.new) }
        ensures counted { Counts (faults self.old) (faults self.new) result };

    /// Gives the ends of a session back to the number from which they were taken. Where nothing was
    /// ever taken from it they are dropped.
    fn give_session(&mut self, number: u32, source: Self::In, sink: Self::Out)
        ensures given { IsTrue tells → GivesSession (holds self.old) (holds self.new) number
            (source, sink) }
        ensures later { faults self.old ≤ faults self.new }
        ensures still { faults self.new ≡ faults self.old };

    /// Takes the worker's disk in this folder.
    fn take_disk(&mut self, folder: &str, worker: u32) -> Result<Self::Pages, TakeFault>
        ensures taken { IsTrue tells
            → IfOk result (TakesDisk (holds self.old) (holds self.new) folder.now worker) }
        ensures kept { IsTrue tells → OnErr result (holds self.new ≡ holds self.old) }
        ensures later { faults self.old ≤ faults self.new }
        ensures cause { result ≡ Err TakeFault.Failed → Rose (faults self.old) (faults self.new) }
        ensures counted { Counts (faults self.old) (faults self.new) result };

    /// Gives the worker's disk back to the folder from which one was last taken. Where none ever
    /// was it is dropped.
    fn give_disk(&mut self, worker: u32, disk: Self::Pages)
        ensures given { IsTrue tells → GivesDisk (holds self.old) (holds self.new) worker disk }
        ensures later { faults self.old ≤ faults self.new }
        ensures still { faults self.new ≡ faults self.old };

    /// Takes the sink of the report.
    fn take_report(&mut self) -> Result<Self::Out, TakeFault>
        ensures taken { IsTrue tells → IfOk result (TakesReport (holds self.old) (holds self.new)) }
        ensures kept { IsTrue tells → OnErr result (holds self.new ≡ holds self.old) }
        ensures later { faults self.old ≤ faults self.new }
        ensures cause { result ≡ Err TakeFault.Failed → Rose (faults self.old) (faults self.new) }
        ensures counted { Counts (faults self.old) (faults self.new) result };

    /// Gives the sink of the report back. Where it was never taken it is dropped.
    fn give_report(&mut self, sink: Self::Out)
        ensures given { IsTrue tells → GivesReport (holds self.old) (holds self.new) sink }
        ensures later { faults self.old ≤ faults self.new }
        ensures still { faults self.new ≡ faults self.old };
}
