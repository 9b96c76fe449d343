ghost use Rattle.std.specs.Prelude.{◌≡◌, ◌≤◌, true, false, [], None, Some, Err, IsTrue, IfOk, OnOk};
ghost use Rattle.std.specs.Prelude.{OnErr};
ghost use Rattle.std.specs.Option.{option_copied, option_map};
ghost use Rattle.kv_base.specs.Fault.{Rose};
ghost use Rattle.kv_site.specs.FileSite.{Counts};
ghost use Rattle.kv_site.specs.Held.{nothing_held, TakesSession, GivesSession, TakesDisk};
ghost use Rattle.kv_site.specs.Held.{GivesDisk, TakesReport, GivesReport};
ghost use Rattle.kv_site.specs.MemorySite.{held_by, Refuses, SameCounts, PutsSession, PutsDisk};

use crate::entries::Entries;
use crate::take_counter::TakeCounter;
use crate::{Site, TakeFault};
use kv_base::{Calls, MemSink, MemSource, NoMemory};
use kv_disk::MemDisk;
use std::alloc::Global;
use std::marker::Model;

// Sessions stand in the folder that has no name.
const NO_FOLDER: &[u8] = &[];

/// A site that holds in memory what was put there, and tells it. A take fails exactly at a listed
/// number, counted from 1 over all takes, and where the site doesn't hold what is wanted. No take
/// and no giving back takes memory.
#[derive(Drop)]
pub struct MemSite {
    alloc: Global,
    sessions: Entries<(MemSource, MemSink)>,
    disks: Entries<MemDisk>,
    report: Option<MemSink>,
    report_lent: bool,
    counter: TakeCounter,
}

impl Model for MemSite {
    ghost use Rattle.kv_site.specs.MemorySite.{HeldThings};
    ghost use Rattle.kv_site.specs.MemoryFields.{HasNoFolder};

    ghost Value = { HeldThings };

    ghost view = { λ s. record {
      sessions = s.sessions.entries.items;
      disks = s.disks.entries.items;
      report = s.report;
      report_lent = s.report_lent;
      failing = s.counter.failing;
      takes = s.counter.takes;
      faults = s.counter.faults;
    } };

    ghost invariant = { λ s. HasNoFolder s.sessions.entries.items };
}

impl MemSite {
    /// A site that holds nothing. The numbers are those of the takes that fail. Takes no memory.
    pub fn new(alloc: Global, failing: Calls) -> MemSite
        ensures empty { held_by result ≡ nothing_held }
        ensures value { result ≡ record {
          sessions = [];
          disks = [];
          report = None;
          report_lent = false;
          failing = failing;
          takes = 0;
          faults = 0;
        } }
    {
        MemSite {
            alloc,
            sessions: Entries::new(alloc),
            disks: Entries::new(alloc),
            report: None,
            report_lent: false,
            counter: TakeCounter {
                failing,
                takes: 0,
                faults: 0,
            },
        }
    }

    /// Holds these ends at the number of a session, in place of earlier ones.
    pub fn put_session(
        &mut self,
        number: u32,
        source: MemSource,
        sink: MemSink,
    ) -> Result<(), NoMemory>
        ensures ok { OnOk result (PutsSession (held_by self.old) (held_by self.new) number (
          source,
          sink,
        )) }
        ensures counts { SameCounts self.old self.new }
        ensures err { OnErr result (self.new ≡ self.old) }
    {
        self.sessions
            .put(self.alloc, NO_FOLDER, number, (source, sink))
    }

    /// Holds this disk for the worker in this folder, in place of an earlier one.
    pub fn put_disk(&mut self, folder: &str, worker: u32, disk: MemDisk) -> Result<(), NoMemory>
        ensures ok { OnOk result (PutsDisk (held_by self.old) (held_by self.new) folder.now worker
            disk) }
        ensures counts { SameCounts self.old self.new }
        ensures err { OnErr result (self.new ≡ self.old) }
    {
        self.disks.put(self.alloc, folder.as_bytes(), worker, disk)
    }

    /// Holds this sink for the report, in place of an earlier one. Takes no memory.
    pub fn put_report(&mut self, sink: MemSink)
        ensures { self.new ≡ record self.old { report = Some sink } }
    {
        self.report = Some(sink);
    }

    /// The ends that it holds at the number of a session.
    pub fn session(&self, number: u32) -> Option<(&MemSource, &MemSink)>
        ensures { option_map (λ ends. (ends.0.now, ends.1.now)) result ≡ (held_by self.now).sessions
            number }
    {
        match self.sessions.get(NO_FOLDER, number) {
            Some((source, sink)) => Some((source, sink)),
            None => None,
        }
    }

    /// The disk that it holds for the worker in this folder.
    pub fn disk(&self, folder: &str, worker: u32) -> Option<&MemDisk>
        ensures { option_copied result ≡ (held_by self.now).disks folder.now worker }
    {
        self.disks.get(folder.as_bytes(), worker)
    }

    /// The sink that it holds for the report.
    pub fn report(&self) -> Option<&MemSink>
        ensures { option_copied result ≡ self.now.report }
    {
        self.report.as_ref()
    }
}

impl Site for MemSite {
    type In = MemSource;

    type Out = MemSink;

    type Pages = MemDisk;

    ghost tells = { true };

    ghost holds = { held_by };

    ghost faults = { λ s. s.faults };

    fn take_session(
        &mut self,
        number: u32,
        _input: &str,
        _output: &str,
    ) -> Result<(MemSource, MemSink), TakeFault>
        ensures taken { IsTrue true
            → IfOk result (TakesSession (held_by self.old) (held_by self.new) number) }
        ensures kept { IsTrue true → OnErr result ((held_by self.new) ≡ (held_by self.old)) }
        ensures later { self.old.faults ≤ self.new.faults }
        ensures cause { result ≡ Err TakeFault.Failed → Rose self.old.faults self.new.faults }
        ensures counted { Counts self.old.faults self.new.faults result }

        // exactly when it fails
        ensures exact { Refuses self.old self.new ((held_by self.old).sessions number) result }
    {
        let taken = if self.counter.begin() {
            None
        } else {
            self.sessions.take(NO_FOLDER, number)
        };
        self.counter.end(taken)
    }

    fn give_session(&mut self, number: u32, source: MemSource, sink: MemSink)
        ensures given { IsTrue true → GivesSession (held_by self.old) (held_by self.new) number
            (source, sink) }
        ensures later { self.old.faults ≤ self.new.faults }
        ensures still { self.new.faults ≡ self.old.faults }
        ensures counts { SameCounts self.old self.new }
    {
        self.sessions.give(number, (source, sink));
    }

    fn take_disk(&mut self, folder: &str, worker: u32) -> Result<MemDisk, TakeFault>
        ensures taken { IsTrue true
            → IfOk result (TakesDisk (held_by self.old) (held_by self.new) folder.now worker) }
        ensures kept { IsTrue true → OnErr result ((held_by self.new) ≡ (held_by self.old)) }
        ensures later { self.old.faults ≤ self.new.faults }
        ensures cause { result ≡ Err TakeFault.Failed → Rose self.old.faults self.new.faults }
        ensures counted { Counts self.old.faults self.new.faults result }

        // exactly when it fails
        ensures exact { Refuses self.old self.new ((held_by self.old).disks folder.now worker)
            result }
    {
        let taken = if self.counter.begin() {
            None
        } else {
            self.disks.take(folder.as_bytes(), worker)
        };
        self.counter.end(taken)
    }

    fn give_disk(&mut self, worker: u32, disk: MemDisk)
        ensures given { IsTrue true → GivesDisk (held_by self.old) (held_by self.new) worker disk }
        ensures later { self.old.faults ≤ self.new.faults }
        ensures still { self.new.faults ≡ self.old.faults }
        ensures counts { SameCounts self.old self.new }
    {
        self.disks.give(worker, disk);
    }

    fn take_report(&mut self) -> Result<MemSink, TakeFault>
        ensures taken { IsTrue true
            → IfOk result (TakesReport (held_by self.old) (held_by self.new)) }
        ensures kept { IsTrue true → OnErr result ((held_by self.new) ≡ (held_by self.old)) }
        ensures later { self.old.faults ≤ self.new.faults }
        ensures cause { result ≡ Err TakeFault.Failed → Rose self.old.faults self.new.faults }
        ensures counted { Counts self.old.faults self.new.faults result }

        // exactly when it fails
        ensures exact { Refuses self.old self.new self.old.report result }
    {
        let taken = if self.counter.begin() {
            None
        } else {
            self.report.take()
        };
        self.report_lent = self.report_lent || taken.is_some();
        self.counter.end(taken)
    }

    fn give_report(&mut self, sink: MemSink)
        ensures given { IsTrue true → GivesReport (held_by self.old) (held_by self.new) sink }
        ensures later { self.old.faults ≤ self.new.faults }
        ensures still { self.new.faults ≡ self.old.faults }
        ensures counts { SameCounts self.old self.new }
    {
        if self.report_lent {
            self.report = Some(sink);
        }
    }
}
