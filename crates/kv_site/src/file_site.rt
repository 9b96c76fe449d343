ghost use Rattle.std.specs.Prelude.{◌≡◌, ◌≤◌, false, IsOk};
ghost use Rattle.kv_site.specs.FileSite.{Counts};
ghost use Rattle.kv_site.specs.Held.{nothing_held};

use crate::ends::{Input, Output};
use crate::folder::open_disk;
use crate::{FileDisk, FilePages, Site, TakeFault};
use kv_base::{ReaderSource, WriterSink};
use std::fs::File;
use std::marker::Model;

/// The real site: its disks are folders, its ends are standard input, standard output, files and
/// pipes, and its report is standard output. It tells nothing of what it holds, and drops what it
/// is given back. Contracts see its count of faults.
#[derive(Drop)]
pub struct FileSite {
    rt: HostRuntime,
    faults: u64,
}

impl Model for FileSite {
    ghost use Rattle.std.specs.Prelude.{ℕ};

    ghost Value = { ℕ };

    ghost view = { λ s. s.faults };
}

impl FileSite {
    /// A site over the system, without a fault so far.
    pub fn new(rt: HostRuntime) -> FileSite
        ensures { result ≡ 0 }
    {
        FileSite { rt, faults: 0 }
    }

    // Counts a fault.
    fn count<T: Drop>(&mut self, outcome: Result<T, TakeFault>) -> Result<T, TakeFault>
        ensures same { result ≡ outcome }
        ensures later { self.old ≤ self.new }
        ensures counted { Counts self.old self.new result }
    {
        if let Err(TakeFault::Failed) = &outcome {
            self.faults = self.faults.saturating_add(1);
        }
        outcome
    }
}

// Opens both ends, the input first.
fn open_ends(
    rt: &HostRuntime,
    input: &str,
    output: &str,
) -> Result<(ReaderSource<Input>, WriterSink<Output>), TakeFault> {
    let source = ReaderSource::new(Input::open(rt, input)?);
    let sink = WriterSink::new(Output::open(rt, output)?);
    Ok((source, sink))
}

impl Site for FileSite {
    type In = ReaderSource<Input>;

    type Out = WriterSink<Output>;

    type Pages = FileDisk<FilePages<File>>;

    ghost tells = { false };

    ghost holds = { λ _. nothing_held };

    ghost faults = { λ count. count };

    fn take_session(
        &mut self,
        _number: u32,
        input: &str,
        output: &str,
    ) -> Result<(Self::In, Self::Out), TakeFault>
        ensures later { self.old ≤ self.new }
        ensures counted { Counts self.old self.new result }
    {
        let outcome = open_ends(&self.rt, input, output);
        self.count(outcome)
    }

    fn give_session(&mut self, _number: u32, _source: Self::In, _sink: Self::Out)
        ensures still { self.new ≡ self.old }
    {}

    fn take_disk(&mut self, folder: &str, worker: u32) -> Result<Self::Pages, TakeFault>
        ensures later { self.old ≤ self.new }
        ensures counted { Counts self.old self.new result }
    {
        let outcome = open_disk(&self.rt, self.rt.alloc(), folder, worker);
        self.count(outcome)
    }

    fn give_disk(&mut self, _worker: u32, _disk: Self::Pages)
        ensures still { self.new ≡ self.old }
    {}

    fn take_report(&mut self) -> Result<Self::Out, TakeFault>
        ensures ok { IsOk result }
        ensures counted { Counts self.old self.new result }
        ensures kept { self.new ≡ self.old }
    {
        Ok(WriterSink::new(Output::Standard(self.rt.stdout())))
    }

    fn give_report(&mut self, _sink: Self::Out)
        ensures still { self.new ≡ self.old }
    {}
}
