ghost use Rattle.std.specs.Prelude.{◌≡◌, ℕ, ◌<◌, ◌≤◌, List, [], Option, Ok, Some, take, length};
ghost use Rattle.std.specs.Prelude.{IfOk, IsOk, OnErr};
ghost use Rattle.kv_base.specs.Fault.{HasCause, Counted};
ghost use Rattle.kv_base.specs.Stream.{Stream, Passes, IsSpent};
ghost use Rattle.kv_base.specs.Memory.{MemorySource, Reads, FaultlessReads};

use crate::cursor::Cursor;
use crate::{Bytes, Calls, Failed, Source};
use std::marker::Model;

/// A source that holds its bytes in memory and tells them. It fails exactly at the calls on its
/// list.
#[derive(Debug, Drop)]
pub struct MemSource {
    cursor: Cursor,
    piece: u32,
    failing: Calls,
    calls: u64,
    faults: u64,
}

impl Model for MemSource {
    ghost use Rattle.std.specs.Prelude.{◌<◌};
    ghost use Rattle.kv_base.specs.Memory.{MemorySource};

    ghost Value = { MemorySource };

    ghost view = { λ s. record {
      stream = s.cursor;
      piece = s.piece;
      failing = s.failing;
      calls = s.calls;
      faults = s.faults;
    } };

    ghost invariant = { λ s. 0 < s.piece };
}

impl MemSource {
    /// A source of these bytes. A read gives at most `piece` of them, at least 1. Takes no memory.
    pub fn new(bytes: Bytes, piece: u32, failing: Calls) -> MemSource
        requires { 1 ≤ piece }
        ensures { result ≡ record {
          stream = record { taken = []; left = bytes };
          piece = piece;
          failing = failing;
          calls = 0;
          faults = 0;
        } }
    {
        MemSource {
            cursor: Cursor::new(bytes),
            piece,
            failing,
            calls: 0,
            faults: 0,
        }
    }
}

impl Source for MemSource {
    ghost stream = { λ s. Some s.stream };

    ghost faults = { λ s. s.faults };

    fn read(&mut self, buf: &mut [u8]) -> Result<usize, Failed>
        requires { 0 < length buf.old }
        ensures bound { IfOk result (λ n. n ≤ length buf.new) }
        ensures bytes { IfOk result (λ n. Passes (Some self.old.stream) (Some self.new.stream)
            (take n buf.new)) }
        ensures end { result ≡ Ok 0 → IsSpent (Some self.new.stream) }
        ensures err { OnErr result (Passes (Some self.old.stream) (Some self.new.stream) []) }
        ensures cause { HasCause self.old.faults self.new.faults result }
        ensures counted { Counted self.old.faults self.new.faults result }

        // exactly when it fails, and how much it gives
        ensures exact { Reads self.old self.new buf.old result }
    {
        self.calls = self.calls.saturating_add(1);
        if self.failing.has(self.calls) {
            self.faults = self.faults.saturating_add(1);
            return Err(Failed);
        }
        Ok(self.cursor.take(buf, self.piece as usize))
    }
}

/// A source in memory that never fails: its count of faults is the constant 0.
#[derive(Debug, Drop)]
pub struct SureSource {
    cursor: Cursor,
    piece: u32,
}

impl Model for SureSource {
    ghost use Rattle.std.specs.Prelude.{◌<◌};
    ghost use Rattle.kv_base.specs.Memory.{FaultlessSource};

    ghost Value = { FaultlessSource };

    ghost view = { λ s. record { stream = s.cursor; piece = s.piece } };

    ghost invariant = { λ s. 0 < s.piece };
}

impl SureSource {
    /// A source of these bytes. A read gives at most `piece` of them, at least 1. Takes no memory.
    pub fn new(bytes: Bytes, piece: u32) -> SureSource
        requires { 1 ≤ piece }
        ensures { result ≡ record { stream = record { taken = []; left = bytes }; piece = piece } }
    {
        SureSource {
            cursor: Cursor::new(bytes),
            piece,
        }
    }
}

impl Source for SureSource {
    ghost stream = { λ s. Some s.stream };

    ghost faults = { λ _. 0 };

    fn read(&mut self, buf: &mut [u8]) -> Result<usize, Failed>
        requires { 0 < length buf.old }
        ensures bound { IfOk result (λ n. n ≤ length buf.new) }
        ensures bytes { IfOk result (λ n. Passes (Some self.old.stream) (Some self.new.stream)
            (take n buf.new)) }
        ensures end { result ≡ Ok 0 → IsSpent (Some self.new.stream) }
        ensures err { OnErr result (Passes (Some self.old.stream) (Some self.new.stream) []) }
        ensures cause { HasCause 0 0 result }
        ensures counted { Counted 0 0 result }

        // it never fails, and how much it gives
        ensures exact { FaultlessReads self.old self.new buf.old result }
    {
        Ok(self.cursor.take(buf, self.piece as usize))
    }
}
