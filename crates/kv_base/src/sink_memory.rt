ghost use Rattle.std.specs.Prelude.{◌≡◌, ℕ, ◌<◌, ◌≤◌, List, [], Option, Some, take, length, IfOk};
ghost use Rattle.std.specs.Prelude.{OnErr};
ghost use Rattle.kv_base.specs.Fault.{HasCause, Counted};
ghost use Rattle.kv_base.specs.Stream.{Takes};
ghost use Rattle.kv_base.specs.Memory.{MemorySink, Writes};

use crate::{Calls, Failed, NoMemory, Sink};
use std::alloc::Global;
use std::marker::Model;

/// A sink that holds in memory all that it took, and tells it. It fails exactly at the calls on its
/// list and where no room is left. A write takes no memory.
#[derive(Debug, Drop)]
pub struct MemSink {
    taken: Vec<u8>,
    room: usize,
    failing: Calls,
    calls: u64,
    faults: u64,
}

impl Model for MemSink {
    ghost use Rattle.std.specs.Prelude.{◌+◌, ◌≤◌, vec_len, vec_capacity};
    ghost use Rattle.kv_base.specs.Memory.{MemorySink};

    ghost Value = { MemorySink };

    ghost view = { λ s. record {
      taken = s.taken.items;
      room = s.room;
      failing = s.failing;
      calls = s.calls;
      faults = s.faults;
    } };

    ghost invariant = { λ s. vec_len s.taken + s.room ≤ vec_capacity s.taken };
}

impl MemSink {
    /// An empty sink with room for so many bytes, which it takes at once.
    pub fn new(alloc: Global, room: usize, failing: Calls) -> Result<MemSink, NoMemory>
        ensures { IfOk result (λ sink. sink ≡ record {
          taken = [];
          room = room;
          failing = failing;
          calls = 0;
          faults = 0;
        }) }
    {
        Ok(MemSink {
            taken: Vec::with_capacity(alloc, room)?,
            room,
            failing,
            calls: 0,
            faults: 0,
        })
    }

    /// All bytes that it took, in order.
    pub fn taken(&self) -> &[u8]
        ensures { result.now ≡ self.now.taken }
    {
        self.taken.as_slice()
    }
}

impl Sink for MemSink {
    ghost held = { λ s. Some s.taken };

    ghost faults = { λ s. s.faults };

    fn write(&mut self, bytes: &[u8]) -> Result<usize, Failed>
        requires { 0 < length bytes.now }
        ensures bound { IfOk result (λ n. (0 < n) × (n ≤ length bytes.now)) }
        ensures bytes { IfOk result (λ n. Takes (Some self.old.taken) (Some self.new.taken)
            (take n bytes.now)) }
        ensures err { OnErr result (Takes (Some self.old.taken) (Some self.new.taken) []) }
        ensures cause { HasCause self.old.faults self.new.faults result }
        ensures counted { Counted self.old.faults self.new.faults result }

        // exactly when it fails, and how much it takes
        ensures exact { Writes self.old self.new bytes.now result }
    {
        self.calls = self.calls.saturating_add(1);
        if self.room == 0 || self.failing.has(self.calls) {
            self.faults = self.faults.saturating_add(1);
            return Err(Failed);
        }
        let n = bytes.len().min(self.room);
        self.taken.extend_from_slice(&bytes[..n]).unwrap();
        self.room -= n;
        Ok(n)
    }
}
