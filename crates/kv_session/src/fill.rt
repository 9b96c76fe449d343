ghost use Rattle.std.specs.Prelude.{◌≡◌, ◌+◌, ◌≤◌, ◌^◌, true, length, MatchOption};
ghost use Rattle.kv_base.specs.Stream.{IsSpent};
ghost use Rattle.kv_model.specs.Frames.{BeginsWithNoRequest, IsPartial, IsMalformed};
ghost use Rattle.kv_frames.specs.Parse.{IsWhole};
ghost use Rattle.kv_frames.specs.View.{request_of};
ghost use Rattle.kv_session.specs.Passage.{source_faults_at};
ghost use Rattle.kv_session.specs.Reading.{Arrives, HasRequest, EndsFor, IsFront};
ghost use Rattle.kv_session.specs.Reading.{StaysDecided};

use crate::reader::Reader;
use kv_base::{Cause, Failed, Source};
use kv_frames::{Parsed, RequestView, parse_request};

/// What stands at the front of a session's bytes.
enum Front {
    /// A whole request.
    Request,
    /// None, and none will.
    Over {
        /// Why no more is read.
        cause: Cause,
    },
    /// A part of a frame or nothing: more bytes decide.
    More,
}

impl<So: Source> Reader<So> {
    /// Reads until a whole request stands at the front. `Some` says why none comes any more. It
    /// reads nothing where what stands at the front, or the end of the input, decides already.
    pub fn fill(&mut self) -> Option<Cause>
        ensures ready { MatchOption result (HasRequest self.new.waiting)
            (λ cause. EndsFor cause self.new.waiting self.new.ended self.new.taken) }
        ensures arrives { Arrives (So.stream self.old.source) (So.stream self.new.source)
            self.old.waiting self.new.waiting self.old.taken self.new.taken }
        ensures spent { self.new.ended ≡ true → IsSpent (So.stream self.new.source) }
        ensures limit { self.new.taken ≤ 2 ^ 40 }
        ensures counted { So.faults self.new.source
            ≡ source_faults_at result (So.faults self.old.source) }
        ensures kept { StaysDecided self.old self.new }
    {
        loop {
            match self.look() {
                Front::Request => return None,
                Front::Over { cause } => return Some(cause),
                Front::More => {}
            }
            match self.read_more() {
                Ok(()) => {}
                Err(Failed) => return Some(Cause::SourceFault),
            }
        }
    }

    /// What stands at the front.
    fn look(&self) -> Front
        ensures front { IsFront result self.now.waiting self.now.ended self.now.taken }
        ensures spent { self.now.ended ≡ true → IsSpent (So.stream self.now.source) }
        ensures limit { self.now.taken ≤ 2 ^ 40 }
    {
        let ended = self.has_ended();
        let waiting = self.waiting();
        let before = self.taken() - waiting.len() as u64;
        match parse_request(waiting) {
            Parsed::Whole { .. } => Front::Request,
            Parsed::Malformed => Front::Over {
                cause: Cause::Malformed { offset: before },
            },
            Parsed::More => look_behind(waiting, before, ended),
        }
    }

    /// The request at the front, and how many bytes its frame has. Copies nothing.
    pub fn front(&self) -> (RequestView<'_>, usize)
        requires { HasRequest self.now.waiting }
        ensures { IsWhole self.now.waiting (request_of result.0) result.1 }
    {
        match parse_request(self.waiting()) {
            Parsed::Whole { request, length } => (request, length),
            _ => unreachable!(),
        }
    }
}

/// The same where a part of a frame or nothing stands at the front, behind so many bytes.
fn look_behind(waiting: &[u8], before: u64, ended: bool) -> Front
    requires partial { IsPartial waiting.now }
    requires none { BeginsWithNoRequest waiting.now }
    requires good { IsMalformed waiting.now → ⊥ }
    requires limit { before + length waiting.now ≤ 2 ^ 40 }
    ensures { IsFront result waiting.now ended (before + length waiting.now) }
{
    if ended {
        return Front::Over {
            cause: if waiting.is_empty() {
                Cause::End
            } else {
                Cause::Malformed { offset: before }
            },
        };
    }
    if before + waiting.len() as u64 == 1 << 40 {
        return Front::Over {
            cause: Cause::Limit,
        };
    }
    Front::More
}
