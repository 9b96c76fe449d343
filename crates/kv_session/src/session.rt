ghost use Rattle.std.specs.Prelude.{◌≡◌, ◌≤◌, ◌<◌, ◌+◌, ◌^◌, ℕ, List, [], None, Some, true, length};
ghost use Rattle.std.specs.Prelude.{◌↔◌, ◌∷◌, IfOk, IfErr, IfSome};
ghost use Rattle.std.specs.List.{AllByRecursion};
ghost use Rattle.kv_base.specs.declared.reply.Reply.{Reply as ReplyOf};
ghost use Rattle.kv_base.specs.declared.request.Request.{Request as RequestOf};
ghost use Rattle.kv_base.specs.declared.request.Request.TheVariants.{After};
ghost use Rattle.kv_model.specs.BatchLaws.{pairs_of};
ghost use Rattle.kv_model.specs.Frames.{HasReplyFrame};
ghost use Rattle.kv_model.specs.Pairs.{Pair};
ghost use Rattle.kv_session.specs.Session.{IsNew, EndsGroup, KeepsReading, after_taken};
ghost use Rattle.kv_session.specs.Tasks.{AreTaken, HaveReplies};
ghost use Rattle.kv_session.specs.Group.{closing_of, after_of};
ghost use Rattle.kv_session.specs.Outgoing.{cause_behind};
ghost use Rattle.kv_session.specs.Passage.{Streams, HasRead, Delivers, with_pairs};

use crate::ending::{Ending, SessionParts};
use crate::gathered::Gathered;
use crate::group::read_group;
use crate::outbox::Outbox;
use crate::reader::Reader;
use kv_base::{Cause, NoMemory, Sink, Source};
use kv_ring::Tasks;
use std::alloc::Global;
use std::marker::Model;

/// A client: its bytes come from a source, and the replies go to a sink. It takes at most 2^40
/// bytes.
#[derive(Drop)]
pub struct Session<So: Source, Si: Sink> {
    alloc: Global,
    reader: Reader<So>,
    sink: Si,
    outbox: Outbox,
    closing: Option<Cause>,
    after: Option<u64>,
    ending: Option<Ending>,
}

impl<So: Source, Si: Sink> Model for Session<So, Si> {
    ghost use Rattle.std.specs.Prelude.{◌≡◌, ◌≤◌, [], None};
    ghost use Rattle.kv_session.specs.Session.{SessionState};

    ghost Value = { SessionState So Si };

    ghost view = { λ s. record {
      source = s.reader.source;
      sink = s.sink;
      waiting = s.reader.waiting;
      taken = s.reader.taken;
      ended = s.reader.ended;
      closing = s.closing;
      after = s.after;
      ending = s.ending;
    } };

    ghost invariant = { λ s. s.ending ≡ None → (s.outbox.items ≡ []) × (65 ≤ s.outbox.spare) };
}

impl<So: Source + Drop, Si: Sink + Drop> Session<So, Si> {
    /// A session that took no byte so far. Takes the buffers for its frames and its replies; want
    /// of memory hands source and sink back.
    pub fn new(alloc: Global, source: So, sink: Si) -> Result<Session<So, Si>, (So, Si, NoMemory)>
        ensures ok { IfOk result (λ session. IsNew session × (session.source ≡ source)
            × (session.sink ≡ sink)) }
        ensures begins { let streams : Streams So Si = record {
          stream = So.stream;
          source_faults = So.faults;
          held = Si.held;
          sink_faults = Si.faults;
        } in IfOk result (λ session. HasRead streams source sink [] [] session) }
        ensures err { IfErr result (λ refused. (refused.0 ≡ source) × (refused.1 ≡ sink)) }
    {
        let Ok(outbox) = Outbox::new(alloc) else {
            return Err((source, sink, NoMemory));
        };
        match Reader::new(alloc, source) {
            Ok(reader) => Ok(Session {
                alloc,
                reader,
                sink,
                outbox,
                closing: None,
                after: None,
                ending: None,
            }),
            Err((source, NoMemory)) => Err((source, sink, NoMemory)),
        }
    }

    /// Reads a group: its requests of good sizes, each copied, and the replies to the others. It
    /// has 64 requests at most, and a Flush or an After ends it, which is used up. Behind the
    /// replies to the group `take_after` gives that After, which is the next group. `tasks` is
    /// empty and has room for them.
    pub fn gather(&mut self, tasks: &mut Tasks) -> Gathered
        requires empty { tasks.old.items ≡ [] }
        requires room { 64 ≤ tasks.old.spare }
        requires reads { self.old.closing ≡ None }
        requires told { self.old.after ≡ None }
        requires goes_on { self.old.ending ≡ None }
        ensures ends { EndsGroup result self.new.closing }
        ensures after { self.new.after ≡ after_of result }
        ensures most { length tasks.new.items ≤ 64 }
        ensures spare { tasks.new.spare + length tasks.new.items ≡ tasks.old.spare }
        ensures gathered { let streams : Streams So Si = record {
          stream = So.stream;
          source_faults = So.faults;
          held = Si.held;
          sink_faults = Si.faults;
        } in
            (asked : List RequestOf) × AreTaken asked tasks.new.items
            × ((source : So) (sink : Si) (groups : List (List Pair))
            → HasRead streams source sink groups [] self.old
            → HasRead streams source sink groups asked self.new) }
        ensures goes_on { self.new.ending ≡ None }

        // a group uses up bytes, of which no more than 2^40 come
        ensures progress { closing_of result ≡ None → length self.new.waiting + self.old.taken
            < length self.old.waiting + self.new.taken }
        ensures limit { self.new.taken ≤ 2 ^ 40 }
    {
        match read_group(&mut self.reader, self.alloc, tasks) {
            Gathered::More => Gathered::More,
            Gathered::After { stamp } => {
                self.after = Some(stamp);
                Gathered::After { stamp }
            }
            Gathered::Ending { cause } => {
                self.closing = Some(cause);
                Gathered::Ending { cause }
            }
        }
    }

    /// The stamp of the After that ended the group whose replies were written last, if one did.
    /// That After is then the group that has no reply yet: the next call of `deliver` writes its
    /// reply.
    pub fn take_after(&mut self) -> Option<u64>
        ensures value { result ≡ self.old.after }
        ensures asks { let streams : Streams So Si = record {
          stream = So.stream;
          source_faults = So.faults;
          held = Si.held;
          sink_faults = Si.faults;
        } in IfSome result (λ stamp. (source : So) (sink : Si) (groups : List (List Pair))
            → HasRead streams source sink groups [] self.old
            → HasRead streams source sink groups (After stamp ∷ []) self.new) }
        ensures kept { self.new ≡ after_taken self.old }
    {
        let after = self.after;
        self.after = None;
        after
    }

    /// Writes the replies to the group that has none yet, and behind them, where that has ended
    /// the session as malformed, the reply that says so. They are handed on: the list is empty
    /// then. The answer is whether all went out whole; the sink's count of faults shows where not,
    /// the session has ended, and its ending has what is left. Takes no memory.
    pub fn deliver(&mut self, tasks: &mut Tasks) -> bool
        requires answered { (replies : List ReplyOf) × HaveReplies tasks.old.items replies
            × AllByRecursion HasReplyFrame replies }
        requires few { length tasks.old.items ≤ 64 }
        requires goes_on { self.old.ending ≡ None }
        ensures empty { tasks.new.items ≡ [] }
        ensures spare { tasks.new.spare ≡ tasks.old.spare + length tasks.old.items }
        ensures delivered { let streams : Streams So Si = record {
          stream = So.stream;
          source_faults = So.faults;
          held = Si.held;
          sink_faults = Si.faults;
        } in
            (source : So) (sink : Si) (groups : List (List Pair)) (asked : List RequestOf)
            (replies : List ReplyOf) → length replies ≡ length asked
            → HaveReplies tasks.old.items replies
            → HasRead streams source sink groups asked self.old
            → Delivers streams source sink (with_pairs groups (pairs_of asked replies))
            self.old.closing self.new result }
        ensures kept { KeepsReading self.old self.new }
        ensures goes_on { (self.new.ending ≡ None) ↔ ((result ≡ true)
            × (self.old.closing ≡ None)) }
    {
        self.outbox.load(tasks, self.closing);
        let whole = self.outbox.send(&mut self.sink);
        match end_for(self.closing, whole) {
            None => whole,
            Some(cause) => {
                self.ending = Some(Ending {
                    taken: self.reader.taken(),
                    cause,
                    undelivered: self.outbox.take_left(self.alloc),
                });
                whole
            }
        }
    }

    /// What it was made of, and how it ended, if it has.
    pub fn into_parts(self) -> SessionParts<So, Si>
        ensures { result ≡ record {
          source = self.source;
          sink = self.sink;
          ending = self.ending;
        } }
    {
        let Session {
            reader,
            sink,
            ending,
            ..
        } = self;
        SessionParts {
            source: reader.into_source(),
            sink,
            ending,
        }
    }
}

/// Why the session ends behind replies, where it does: the sink failed, or reading has ended.
fn end_for(closing: Option<Cause>, whole: bool) -> Option<Cause>
    ensures { result ≡ cause_behind whole closing }
{
    if whole {
        closing
    } else {
        Some(Cause::SinkFault)
    }
}
