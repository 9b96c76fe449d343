ghost use Rattle.std.specs.Prelude.{◌≡◌, ◌≤◌, ◌<◌, ◌-◌, [], Ok, length, take, drop, MatchResult};
ghost use Rattle.std.specs.Prelude.{IfOk, vec_len};
ghost use Rattle.kv_base.specs.Fault.{HasCause, Counted};
ghost use Rattle.kv_base.specs.Stream.{IsSpent};
ghost use Rattle.kv_session.specs.Reading.{Arrives};

use kv_base::{Failed, NoMemory, Source};
use std::alloc::Global;
use std::marker::Model;

/// The bytes of the longest frame.
const LONGEST_FRAME: usize = 66_004;

/// The bytes of a window's buffer. At least half of them is free behind a part of a frame.
const ROOM: usize = 2 * LONGEST_FRAME;

/// Bytes that were read and not used up yet: those from `start` to `end` of a buffer. Contracts see
/// these bytes.
#[derive(Drop)]
pub struct Window {
    buffer: Vec<u8>,
    start: usize,
    end: usize,
}

impl Model for Window {
    ghost use Rattle.std.specs.Prelude.{◌≡◌, ◌≤◌, List, ℕ, drop, take, vec_len};

    ghost Value = { List ℕ };

    ghost view = { λ w. drop w.start (take w.end w.buffer.items) };

    ghost invariant = { λ w. (w.start ≤ w.end) × (w.end ≤ 132008) × (vec_len w.buffer ≡ 132008) };
}

impl Window {
    /// No bytes. Takes the buffer.
    pub fn new(alloc: Global) -> Result<Window, NoMemory>
        ensures { IfOk result (λ window. window ≡ []) }
    {
        Ok(Window {
            buffer: vec![in alloc; 0; ROOM]?,
            start: 0,
            end: 0,
        })
    }

    /// The bytes.
    pub fn waiting(&self) -> &[u8]
        ensures { result.now ≡ self.now }
    {
        &self.buffer[self.start..self.end]
    }

    /// Uses up the first bytes.
    pub fn pass(&mut self, used: usize)
        requires { used ≤ length self.old }
        ensures { self.new ≡ drop used self.old }
    {
        self.start += used;
    }

    /// Reads once behind the bytes, at most so many, and answers how many. It moves the bytes only
    /// where the room behind them is short.
    pub fn read_from<So: Source>(&mut self, source: &mut So, most: usize) -> Result<usize, Failed>
        requires short { length self.old < 66004 }
        requires some { 0 < most }
        ensures bound { IfOk result (λ n. n ≤ most) }
        ensures arrives { MatchResult result
            (λ n. Arrives (So.stream source.old) (So.stream source.new) self.old self.new 0 n)
            (λ _. Arrives (So.stream source.old) (So.stream source.new) self.old self.new 0 0) }
        ensures end { result ≡ Ok 0 → IsSpent (So.stream source.new) }
        ensures cause { HasCause (So.faults source.old) (So.faults source.new) result }
        ensures counted { Counted (So.faults source.old) (So.faults source.new) result }
    {
        compact(&mut self.buffer, &mut self.start, &mut self.end);
        let room = most.min(ROOM - self.end);
        match source.read(&mut self.buffer[self.end..self.end + room]) {
            Ok(n) => {
                self.end += n;
                Ok(n)
            }
            Err(Failed) => Err(Failed),
        }
    }
}

/// Moves the bytes to the front of the buffer where the room behind them is short, or where it
/// takes nothing to move them.
fn compact(buffer: &mut Vec<u8>, start: &mut usize, end: &mut usize)
    requires order { start.old ≤ end.old }
    requires within { end.old ≤ 132008 }
    requires size { vec_len buffer.old ≡ 132008 }
    requires short { end.old - start.old < 66004 }
    ensures order { start.new ≤ end.new }
    ensures within { end.new < 132008 }
    ensures size { vec_len buffer.new ≡ 132008 }
    ensures same { drop start.new (take end.new buffer.new.items) ≡ drop start.old
        (take end.old buffer.old.items) }
{
    if *start == *end || ROOM - *end < LONGEST_FRAME {
        buffer.copy_within(*start..*end, 0);
        *end -= *start;
        *start = 0;
    }
}
