ghost use Rattle.std.specs.Prelude.{◌≡◌, ◌<◌, ◌≤◌, length, IfOk, None, if◌then◌else◌};
ghost use Rattle.kv_base.specs.Calls.{next_count};
ghost use Rattle.kv_base.specs.Fault.{Counted, HasCause};

use crate::meeting::Meeting;
use kv_base::{Failed, MemSource, Source};

/// A source whose first read meets three others, where it is to. It tells no byte.
#[derive(Drop)]
pub struct MeetingSource {
    source: MemSource,
    meeting: Option<Meeting>,
    faults: u64,
}

impl MeetingSource {
    pub fn new(source: MemSource, meeting: Option<Meeting>) -> MeetingSource {
        MeetingSource {
            source,
            meeting,
            faults: 0,
        }
    }

    // Counts a fault where a read failed.
    fn count(&mut self, failed: bool)
        ensures later { self.old.faults ≤ self.new.faults }
        ensures faults { self.new.faults
            ≡ (if failed then next_count self.old.faults else self.old.faults) }
    {
        if failed {
            self.faults = self.faults.saturating_add(1);
        }
    }

    // Reads, once the others came.
    fn take(&mut self, buf: &mut [u8]) -> Result<usize, Failed>
        requires { 0 < length buf.old }
        ensures bound { IfOk result (λ n. n ≤ length buf.new) }
        ensures faults { self.new.faults ≡ self.old.faults }
    {
        if let Some(meeting) = &mut self.meeting {
            if !meeting.meet() {
                return Err(Failed);
            }
        }
        self.source.read(buf)
    }
}

impl Source for MeetingSource {
    ghost stream = { λ _. None };

    ghost faults = { λ s. s.faults };

    fn read(&mut self, buf: &mut [u8]) -> Result<usize, Failed>
        requires { 0 < length buf.old }
        ensures bound { IfOk result (λ n. n ≤ length buf.new) }
        ensures cause { HasCause self.old.faults self.new.faults result }
        ensures counted { Counted self.old.faults self.new.faults result }
    {
        let outcome = self.take(buf);
        self.count(outcome.is_err());
        outcome
    }
}
