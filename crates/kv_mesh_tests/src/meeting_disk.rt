ghost use Rattle.std.specs.Prelude.{◌≡◌, ◌<◌, ◌≤◌, ◌-◌, ◌^◌, false, if◌then◌else◌};
ghost use Rattle.kv_base.specs.Calls.{next_count};
ghost use Rattle.kv_base.specs.Crash.{Advances};
ghost use Rattle.kv_base.specs.Fault.{Counted, HasCause};
ghost use Rattle.kv_disk.specs.Plain.{no_choices};

use crate::meeting::Meeting;
use kv_base::Failed;
use kv_disk::{Disk, MemDisk};

/// A disk whose first write to a file other than 0 meets three others. It tells no content.
#[derive(Drop)]
pub struct MeetingDisk {
    disk: MemDisk,
    meeting: Meeting,
    calls: u64,
    faults: u64,
}

impl MeetingDisk {
    pub fn new(disk: MemDisk, meeting: Meeting) -> MeetingDisk {
        MeetingDisk {
            disk,
            meeting,
            calls: 0,
            faults: 0,
        }
    }

    // Counts a call, and a fault where it failed.
    fn count(&mut self, failed: bool)
        ensures later { (self.old.calls ≤ self.new.calls) × (self.old.faults ≤ self.new.faults) }
        ensures calls { self.new.calls ≡ next_count self.old.calls }
        ensures faults { self.new.faults
            ≡ (if failed then next_count self.old.faults else self.old.faults) }
    {
        self.calls = self.calls.saturating_add(1);
        if failed {
            self.faults = self.faults.saturating_add(1);
        }
    }

    // Writes, once the others came.
    fn put(&mut self, file: u8, page: u32, content: &[u8; 4096]) -> Result<(), Failed>
        requires file { file ≤ 13 }
        requires page { page < 2 ^ 32 - 1 }
        ensures { (self.new.calls ≡ self.old.calls) × (self.new.faults ≡ self.old.faults) }
    {
        if file != 0 && !self.meeting.meet() {
            return Err(Failed);
        }
        self.disk.write(file, page, content)
    }
}

impl Disk for MeetingDisk {
    ghost use Rattle.kv_base.specs.Image.{zero_page};

    ghost tells = { false };

    ghost seen = { λ _ _ _. zero_page };

    ghost leaves = { λ _. no_choices };

    ghost calls = { λ d. d.calls };

    ghost faults = { λ d. d.faults };

    ghost told = { λ d t f p c none. absurd none };

    fn read(&mut self, file: u8, page: u32, buf: &mut [u8; 4096]) -> Result<(), Failed>
        requires file { file ≤ 13 }
        requires page { page < 2 ^ 32 - 1 }
        ensures past { Advances self.old.calls self.new.calls no_choices no_choices }
        ensures cause { HasCause self.old.faults self.new.faults result }
        ensures counted { Counted self.old.faults self.new.faults result }
    {
        let outcome = self.disk.read(file, page, buf);
        self.count(outcome.is_err());
        outcome
    }

    fn write(&mut self, file: u8, page: u32, content: &[u8; 4096]) -> Result<(), Failed>
        requires file { file ≤ 13 }
        requires page { page < 2 ^ 32 - 1 }
        ensures past { Advances self.old.calls self.new.calls no_choices no_choices }
        ensures cause { HasCause self.old.faults self.new.faults result }
        ensures counted { Counted self.old.faults self.new.faults result }
    {
        let outcome = self.put(file, page, content);
        self.count(outcome.is_err());
        outcome
    }

    fn sync(&mut self) -> Result<(), Failed>
        ensures past { Advances self.old.calls self.new.calls no_choices no_choices }
        ensures cause { HasCause self.old.faults self.new.faults result }
        ensures counted { Counted self.old.faults self.new.faults result }
    {
        let outcome = self.disk.sync();
        self.count(outcome.is_err());
        outcome
    }

    fn length(&mut self, file: u8) -> Result<u32, Failed>
        requires { file ≤ 13 }
        ensures past { Advances self.old.calls self.new.calls no_choices no_choices }
        ensures cause { HasCause self.old.faults self.new.faults result }
        ensures counted { Counted self.old.faults self.new.faults result }
    {
        let outcome = self.disk.length(file);
        self.count(outcome.is_err());
        outcome
    }
}
