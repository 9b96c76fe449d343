ghost use Rattle.std.specs.Prelude.{◌≡◌, ◌<◌, ◌≤◌, ◌^◌, true, false, length, drop, IfOk, IfErr};
ghost use Rattle.std.specs.Prelude.{OnOk, OnErr};
ghost use Rattle.kv_base.specs.Fault.{HasCause, Counted};
ghost use Rattle.kv_base.specs.Stream.{IsSpent};
ghost use Rattle.kv_session.specs.Reading.{NothingRead, Arrives};

use crate::window::Window;
use kv_base::{Failed, NoMemory, Source};
use std::alloc::Global;
use std::marker::Model;

/// The most bytes that a session takes.
const MOST_TAKEN: u64 = 1 << 40;

/// A session's bytes as they come from its source, at most 2^40. Contracts see a record of its
/// state.
#[derive(Drop)]
pub struct Reader<So: Source> {
    source: So,
    window: Window,
    taken: u64,
    ended: bool,
}

impl<So: Source> Model for Reader<So> {
    ghost use Rattle.std.specs.Prelude.{◌≡◌, ◌≤◌, ◌^◌, true, length};
    ghost use Rattle.kv_base.specs.Stream.{IsSpent};
    ghost use Rattle.kv_session.specs.Reading.{ReaderState};

    ghost Value = { ReaderState So };

    ghost view = { λ r. record {
      source = r.source;
      waiting = r.window;
      taken = r.taken;
      ended = r.ended;
    } };

    ghost invariant = { λ r. (length r.window ≤ r.taken) × (r.taken ≤ 2 ^ 40)
        × (r.ended ≡ true → IsSpent (So.stream r.source)) };
}

impl<So: Source> Reader<So> {
    /// A reader that took no byte so far. Takes the buffer for its frames; want of memory hands the
    /// source back.
    pub fn new(alloc: Global, source: So) -> Result<Reader<So>, (So, NoMemory)>
        ensures ok { IfOk result (λ reader. NothingRead reader × (reader.source ≡ source)) }
        ensures err { IfErr result (λ refused. refused.0 ≡ source) }
    {
        let Ok(window) = Window::new(alloc) else {
            return Err((source, NoMemory));
        };
        Ok(Reader {
            source,
            window,
            taken: 0,
            ended: false,
        })
    }

    /// Gives the source back.
    pub fn into_source(self) -> So
        ensures { result ≡ self.source }
    {
        self.source
    }

    /// The bytes that were taken and not used up.
    pub fn waiting(&self) -> &[u8]
        ensures { result.now ≡ self.now.waiting }
    {
        self.window.waiting()
    }

    /// How many bytes were taken.
    pub fn taken(&self) -> u64
        ensures value { result ≡ self.now.taken }
        ensures limit { result ≤ 2 ^ 40 }
        ensures waiting { length self.now.waiting ≤ result }
    {
        self.taken
    }

    /// Whether a read answered the end of the input.
    pub fn has_ended(&self) -> bool
        ensures value { result ≡ self.now.ended }
        ensures spent { result ≡ true → IsSpent (So.stream self.now.source) }
    {
        self.ended
    }

    /// Uses up the first bytes.
    pub fn pass(&mut self, used: usize)
        requires { used ≤ length self.old.waiting }
        ensures waiting { self.new.waiting ≡ drop used self.old.waiting }
        ensures source { self.new.source ≡ self.old.source }
        ensures taken { self.new.taken ≡ self.old.taken }
        ensures ended { self.new.ended ≡ self.old.ended }
    {
        self.window.pass(used);
    }

    /// Reads once. It takes never more than 2^40 bytes in all.
    pub fn read_more(&mut self) -> Result<(), Failed>
        requires short { length self.old.waiting < 66004 }
        requires limit { self.old.taken < 2 ^ 40 }
        requires goes_on { self.old.ended ≡ false }
        ensures arrives { Arrives (So.stream self.old.source) (So.stream self.new.source)
            self.old.waiting self.new.waiting self.old.taken self.new.taken }
        ensures some { OnOk result (self.new.ended ≡ false → self.old.taken < self.new.taken) }
        ensures none { OnErr result ((self.new.waiting ≡ self.old.waiting)
            × (self.new.ended ≡ false)) }
        ensures limit { self.new.taken ≤ 2 ^ 40 }
        ensures spent { self.new.ended ≡ true → IsSpent (So.stream self.new.source) }
        ensures cause { HasCause (So.faults self.old.source) (So.faults self.new.source) result }
        ensures counted { Counted (So.faults self.old.source) (So.faults self.new.source) result }
    {
        let left = (MOST_TAKEN - self.taken) as usize;
        match self.window.read_from(&mut self.source, left) {
            Ok(n) => {
                self.taken += n as u64;
                self.ended = n == 0;
                Ok(())
            }
            Err(Failed) => Err(Failed),
        }
    }
}
