ghost use Rattle.std.specs.Prelude.{◌≡◌, ◌≤◌, true, false, length, is_some, not, ◌||◌};
ghost use Rattle.std.specs.Prelude.{List, [], ◌∷◌, None, Some, IfSome};
ghost use Rattle.kv_parties.specs.Setting.{Setting};
ghost use Rattle.kv_ring.specs.Ends.{peers};
ghost use Rattle.kv_session_party.specs.Links.{told_to, heard_from};
ghost use Rattle.kv_session_party.specs.Party.{WaitsAway, ends_reading};
ghost use Rattle.kv_session_party.specs.Routes.{IsBare};
ghost use Rattle.kv_session.specs.Passage.{Streams, HasRead};
ghost use Rattle.kv_session.specs.Session.{after_taken};
ghost use Rattle.kv_base.specs.declared.request.Request.TheVariants.{After};
ghost use Rattle.kv_model.specs.Pairs.{Pair};
ghost use Rattle.kv_session_party.specs.Promise.{IsServed, Tells};

use crate::after::answer;
use crate::exchange::{ask, receive};
use crate::greatest::greatest;
use crate::links::Links;
use crate::routes::Routes;
use crate::send::either;
use kv_base::{NoMemory, Reply, Request, ReservedList, Sink, Source};
use kv_ring::{SessionEnds, Task, Tasks, Turn, WorkerSide};
use kv_session::{Ending, Gathered, Session};
use kv_stamps::{StampSeat, Stamps};
use std::alloc::Global;
use std::snapshot::Snapshot;

/// The most requests of a group.
const MOST_REQUESTS: usize = 64;

/// The parts of a session's party.
#[derive(Drop)]
pub struct PartyParts<So, Si, F> {
    /// Where its bytes came from.
    pub source: So,
    /// Where its replies went.
    pub sink: Si,
    /// How it ended. `None` exactly where it hasn't ended.
    pub ending: Option<Ending>,
    /// Its ends of the rings, to and from each worker.
    pub ends: SessionEnds<F>,
    /// Its seat of the counter.
    pub seat: StampSeat,
}

/// A session among the workers. Its transcript and its promise stand in its type: the bytes that it
/// took and gave, and what it sent to the workers and received from them, are those of the same
/// groups.
#[derive(Drop)]
pub struct SessionParty<So: Source, Si: Sink, F> {
    session: Session<So, Si>,
    links: Links<F>,
    routes: Routes,
    tasks: Tasks,
    seen: u64,
    waiting: bool,
    read_all: bool,
    over: bool,
    lifted: bool,
    seat: StampSeat,
    first: Snapshot<Session<So, Si>>,
    ghost size: { length routes.parts ≡ peers links.ends },
    ghost few: { length routes.places ≤ 64 },
    ghost idle: { length tasks.items ≡ 0 },
    ghost room: { 64 ≤ tasks.spare },
    ghost ended: { over ≡ is_some session.ending },
    ghost closed: { read_all ≡ is_some session.closing },
    ghost reads: { over ≡ false → waiting ≡ false → read_all ≡ false },
    ghost told: { over ≡ false → waiting ≡ false → session.after ≡ None },
    ghost rests: { over ≡ true → waiting ≡ false },
    ghost away: { over ≡ false → WaitsAway links routes },
    ghost bare: { waiting ≡ false → IsBare routes },
    ghost promise: { let streams : Streams So Si = record {
      stream = So.stream;
      source_faults = So.faults;
      held = Si.held;
      sink_faults = Si.faults;
    } in (setting : Setting) → IsServed setting (peers links.ends)
        → ∥ Tells streams setting first.value.source first.value.sink session (told_to links)
        (heard_from links) seen routes waiting seat.view lifted ∥₁ },
}

impl<So: Source + Drop, Si: Sink + Drop, F: Drop> SessionParty<So, Si, F> {
    ghost use Rattle.std.specs.Prelude.{◌≡◌, ◌↔◌, ℕ, ◌+◌, ◌<◌, ◌≤◌, ◌^◌, min, length, IfOk, IfErr};
    ghost use Rattle.std.specs.Prelude.{[], None, true, false, not, ◌≢◌};
    ghost use Rattle.kv_ring.specs.Comparing.{Compares};
    ghost use Rattle.kv_ring.specs.Ends.{peers, IsFresh, AreBetween, SameRings};
    ghost use Rattle.kv_ring.specs.declared.turn.Turn.TheVariants as turn;
    ghost use Rattle.kv_session_party.specs.Party.{KeepsBytes};
    ghost use Rattle.kv_session_party.specs.Looking.{MayStep};
    ghost use Rattle.kv_parties.specs.Stamps.{HasDrawnNone};
    ghost use Rattle.kv_session_party.specs.Exchanges.{Receives};
    ghost use Rattle.kv_session_party.specs.Links.{waiting_for, heard_from, coming_from};
    ghost use Rattle.kv_session_party.specs.Links.{WaitsForPlaces};
    ghost use Rattle.kv_session_party.specs.Party.{is_over, TurnsWaiting, TurnsReading, WaitsFor};
    ghost use Rattle.kv_session_party.specs.Parts.{all_here, is_away, part_of};
    ghost use Rattle.kv_stamps.specs.Steps.{Raises, Looks};

    /// A session that took no byte so far, with fresh ends and a fresh seat. Takes the buffers for
    /// its frames and replies; want of memory hands source and sink back.
    pub fn new(
        alloc: Global,
        source: So,
        sink: Si,
        ends: SessionEnds<F>,
        seat: StampSeat,
    ) -> Result<SessionParty<So, Si, F>, (So, Si, NoMemory)>
        requires ends { IsFresh ends }
        requires seat { HasDrawnNone seat.view }
        ensures parts { IfOk result (λ party. (party.first.value.source ≡ source)
            × (party.first.value.sink ≡ sink) × (party.links.ends ≡ ends)
            × (party.seat ≡ seat) × (party.session ≡ party.first.value)
            × (party.waiting ≡ false) × (party.lifted ≡ false)) }
        ensures err { IfErr result (λ refused. (refused.0 ≡ source) × (refused.1 ≡ sink)) }
    {
        let Ok(tasks) = ReservedList::with_room(alloc, MOST_REQUESTS) else {
            return Err((source, sink, NoMemory));
        };
        let Ok(routes) = Routes::new(alloc, ends.peers()) else {
            return Err((source, sink, NoMemory));
        };
        let Ok(links) = Links::new(alloc, ends) else {
            return Err((source, sink, NoMemory));
        };
        let session = match Session::new(alloc, source, sink) {
            Ok(session) => session,
            Err(refused) => return Err(refused),
        };
        let first = Snapshot::of(&session);
        Ok(SessionParty {
            session,
            links,
            routes,
            tasks,
            seen: 0,
            waiting: false,
            read_all: false,
            over: false,
            lifted: false,
            seat,
            first,
        })
    }

    /// Sends the messages that a ring had no place for. Then it reads a group and asks it of the
    /// workers, or takes the answers that are owed; where none is owed any more it writes the
    /// replies, and answers an After that ended the group. A session that has ended says so to the
    /// workers. Takes memory for the requests alone.
    pub fn turn(&mut self, stamps: &Stamps) -> Turn
        requires { self.old.seat.counter ≡ stamps.now }
        ensures ended { (result ≡ turn.Ended)
            ↔ (is_over self.new.session.ending self.new.links ≡ true) }

        // Where a group is on its way it takes the answers that are owed; else it reads one.
        ensures waits { self.old.waiting ≡ true → TurnsWaiting self.old.links self.new.links
            self.old.routes self.new.waiting (is_over self.new.session.ending self.new.links)
            result }
        ensures reads { self.old.waiting ≡ false → self.old.session.ending ≡ None
            → TurnsReading self.old.session self.new.session × (result ≢ turn.Idle) }
        ensures rests { self.old.session.ending ≢ None → self.new.session ≡ self.old.session }

        // A message waits behind it only where its ring was full, as far as this end knew.
        ensures full { WaitsForPlaces self.new.links }
        ensures rings { SameRings self.old.links.ends self.new.links.ends }
        ensures seat { MayStep self.old.seat self.new.seat }
        ensures lifted { self.new.lifted ≡ self.old.lifted }
        ensures first { self.new.first.value ≡ self.old.first.value }
    {
        let pushed = self.links.push();
        let moved = self.go_on(stamps);
        Turn::of(self.ended(), either(pushed, moved))
    }

    /// Whether the session has ended and no message waits: its turns do nothing more. No group is on
    /// its way then, and the parts have how it ended.
    pub fn ended(&self) -> bool
        ensures value { result ≡ is_over self.now.session.ending self.now.links }
        ensures rests { result ≡ true → self.now.waiting ≡ false }
        ensures ending { result ≡ true → self.now.session.ending ≢ None }
    {
        self.over && !self.links.waits()
    }

    /// How many workers there are.
    pub fn workers(&self) -> u32
        ensures { result ≡ peers self.now.links.ends }
    {
        self.links.workers()
    }

    /// Whether the group that is on its way waits for this worker: its tasks are away.
    pub fn is_asked(&self, worker: u32) -> bool
        requires { worker < peers self.now.links.ends }
        ensures { result ≡ is_away (part_of self.now.routes.parts worker) }
    {
        self.routes.is_away(worker)
    }

    /// Reads a group, or takes the answers that are owed. The answer is whether it did more than
    /// look for answers.
    fn go_on(&mut self, stamps: &Stamps) -> bool
        requires counter { self.old.seat.counter ≡ stamps.now }
        ensures waits { self.old.waiting ≡ true → WaitsFor self.old.links self.new.links
            self.old.routes self.new.waiting result }
        ensures reads { self.old.waiting ≡ false → self.old.over ≡ false
            → TurnsReading self.old.session self.new.session × (result ≡ true) }
        ensures rests { self.old.over ≡ true → self.new.session ≡ self.old.session }
        ensures full { WaitsForPlaces self.old.links → WaitsForPlaces self.new.links }
        ensures rings { SameRings self.old.links.ends self.new.links.ends }
        ensures seat { MayStep self.old.seat self.new.seat }
        ensures lifted { self.new.lifted ≡ self.old.lifted }
        ensures first { self.new.first.value ≡ self.old.first.value }
    {
        if self.over {
            return true;
        }
        if self.waiting {
            return self.wait(stamps);
        }
        self.read(stamps);
        true
    }

    /// Reads a group, and asks it of the workers; where none gets a request it writes the replies.
    fn read(&mut self, stamps: &Stamps)
        requires counter { self.old.seat.counter ≡ stamps.now }
        requires goes_on { self.old.over ≡ false }
        requires reads { self.old.waiting ≡ false }
        ensures reads { TurnsReading self.old.session self.new.session }
        ensures full { WaitsForPlaces self.new.links }
        ensures rings { SameRings self.old.links.ends self.new.links.ends }
        ensures seat { MayStep self.old.seat self.new.seat }
        ensures lifted { self.new.lifted ≡ self.old.lifted }
        ensures first { self.new.first.value ≡ self.old.first.value }
    {
        self.ask_group();
        self.reply_if_here(stamps);
    }

    /// Reads a group, and asks it of the workers.
    fn ask_group(&mut self)
        requires goes_on { self.old.over ≡ false }
        requires reads { self.old.waiting ≡ false }
        ensures reads { TurnsReading self.old.session self.new.session }
        ensures goes_on { self.new.over ≡ false }
        ensures waits { self.new.waiting ≡ true }
        ensures full { WaitsForPlaces self.new.links }
        ensures rings { SameRings self.old.links.ends self.new.links.ends }
        ensures seat { self.new.seat ≡ self.old.seat }
        ensures lifted { self.new.lifted ≡ self.old.lifted }
        ensures first { self.new.first.value ≡ self.old.first.value }
    {
        let gathered = self.session.gather(&mut self.tasks);
        self.read_all = ends_reading(gathered);
        self.routes.split(&mut self.tasks);
        ask(&mut self.links, &mut self.routes, self.seen);
        self.waiting = true;
    }

    /// Takes the answers that are owed, and where none is owed any more writes the replies. The
    /// answer is whether any came.
    fn wait(&mut self, stamps: &Stamps) -> bool
        requires counter { self.old.seat.counter ≡ stamps.now }
        requires goes_on { self.old.over ≡ false }
        requires waits { self.old.waiting ≡ true }
        ensures waits { WaitsFor self.old.links self.new.links self.old.routes self.new.waiting
            result }
        ensures full { WaitsForPlaces self.old.links → WaitsForPlaces self.new.links }
        ensures rings { SameRings self.old.links.ends self.new.links.ends }
        ensures seat { MayStep self.old.seat self.new.seat }
        ensures lifted { self.new.lifted ≡ self.old.lifted }
        ensures first { self.new.first.value ≡ self.old.first.value }
    {
        let came = self.take_answers();
        self.reply_if_here(stamps);
        came
    }

    /// Takes the answers that are owed. The answer is whether any came.
    fn take_answers(&mut self) -> bool
        requires goes_on { self.old.over ≡ false }
        requires waits { self.old.waiting ≡ true }
        ensures receives { Receives self.old.links self.new.links self.old.routes self.new.routes
            result }
        ensures goes_on { self.new.over ≡ false }
        ensures waits { self.new.waiting ≡ true }
        ensures full { WaitsForPlaces self.old.links → WaitsForPlaces self.new.links }
        ensures seat { self.new.seat ≡ self.old.seat }
        ensures lifted { self.new.lifted ≡ self.old.lifted }
        ensures first { self.new.first.value ≡ self.old.first.value }
    {
        receive(&mut self.links, &mut self.routes)
    }

    /// Writes the replies of the group, and that to an After that ended it, unless a worker's tasks
    /// are away.
    fn reply_if_here(&mut self, stamps: &Stamps)
        requires counter { self.old.seat.counter ≡ stamps.now }
        requires goes_on { self.old.over ≡ false }
        requires waits { self.old.waiting ≡ true }
        ensures waits { self.new.waiting ≡ not (all_here self.old.routes.parts) }
        ensures reading { KeepsBytes self.old.session self.new.session }
        ensures full { WaitsForPlaces self.old.links → WaitsForPlaces self.new.links }
        ensures heard { (worker : ℕ)
            → (heard_from self.new.links worker ≡ heard_from self.old.links worker)
            × (coming_from self.new.links worker ≡ coming_from self.old.links worker) }
        ensures rings { SameRings self.old.links.ends self.new.links.ends }
        ensures seat { MayStep self.old.seat self.new.seat }
        ensures lifted { self.new.lifted ≡ self.old.lifted }
        ensures first { self.new.first.value ≡ self.old.first.value }
    {
        if self.routes.all_here() {
            self.reply(stamps);
            self.say_bye();
        }
    }

    /// Writes the replies of the group, of which no worker's tasks are away, and then that to an
    /// After that ended it.
    fn reply(&mut self, stamps: &Stamps)
        requires counter { self.old.seat.counter ≡ stamps.now }
        requires goes_on { self.old.over ≡ false }
        requires waits { self.old.waiting ≡ true }
        requires here { all_here self.old.routes.parts ≡ true }
        ensures reading { KeepsBytes self.old.session self.new.session }
        ensures waits { self.new.waiting ≡ false }
        ensures links { self.new.links ≡ self.old.links }
        ensures here { all_here self.new.routes.parts ≡ true }
        ensures seat { MayStep self.old.seat self.new.seat }
        ensures lifted { self.new.lifted ≡ self.old.lifted }
        ensures first { self.new.first.value ≡ self.old.first.value }
    {
        self.routes.merge(&mut self.tasks);
        self.seen = greatest(self.tasks.as_slice(), self.seen);
        self.waiting = false;
        let whole = self.session.deliver(&mut self.tasks);
        self.over = ends(self.read_all, whole);
        match next_after(&mut self.session, self.over) {
            None => {}
            Some(stamp) => {
                let (reply, seen) = answer(stamps, &mut self.seat, self.seen, stamp);
                self.seen = seen;
                self.tasks.append(told(reply)).unwrap();
                let all = self.session.deliver(&mut self.tasks);
                self.over = !all;
            }
        }
    }

    /// Tells the workers where the session has ended.
    fn say_bye(&mut self)
        requires free { (worker : ℕ) → waiting_for self.old.links worker ≡ None }
        ensures session { self.new.session ≡ self.old.session }
        ensures waits { self.new.waiting ≡ self.old.waiting }
        ensures full { WaitsForPlaces self.old.links → WaitsForPlaces self.new.links }
        ensures heard { (worker : ℕ)
            → (heard_from self.new.links worker ≡ heard_from self.old.links worker)
            × (coming_from self.new.links worker ≡ coming_from self.old.links worker) }
        ensures rings { SameRings self.old.links.ends self.new.links.ends }
        ensures seat { self.new.seat ≡ self.old.seat }
        ensures lifted { self.new.lifted ≡ self.old.lifted }
        ensures first { self.new.first.value ≡ self.old.first.value }
    {
        if self.over {
            self.links.say_bye();
        }
    }

    /// Raises the counter to `to`, at most 2^62, with this party's seat. Takes no memory.
    pub fn raise(&mut self, stamps: &Stamps, to: u64)
        requires counter { self.old.seat.counter ≡ stamps.now }
        requires to { to ≤ 2 ^ 62 }
        ensures counter { self.new.seat.counter ≡ self.old.seat.counter }
        ensures view { (next : ℕ) × Raises to self.old.seat.view next self.new.seat.view }
        ensures kept { (self.new.session ≡ self.old.session) × (self.new.links ≡ self.old.links)
            × (self.new.waiting ≡ self.old.waiting)
            × (self.new.first.value ≡ self.old.first.value) }
        ensures lifted { self.new.lifted ≡ true }
    {
        self.lifted = true;
        stamps.raise(&mut self.seat, to);
    }

    /// The counter's next number, or 2^62 where it is above, seen with this party's seat. Takes no
    /// memory.
    pub fn look(&mut self, stamps: &Stamps) -> u64
        requires { self.old.seat.counter ≡ stamps.now }
        ensures counter { self.new.seat.counter ≡ self.old.seat.counter }
        ensures value { (next : ℕ) × (result ≡ min next (2 ^ 62))
            × Looks self.old.seat.view next self.new.seat.view }
        ensures kept { (self.new.session ≡ self.old.session) × (self.new.links ≡ self.old.links)
            × (self.new.waiting ≡ self.old.waiting)
            × (self.new.first.value ≡ self.old.first.value)
            × (self.new.lifted ≡ self.old.lifted) }
    {
        stamps.look(&mut self.seat)
    }

    /// How many messages are left in the two rings between this session and a worker, with the
    /// worker's side. Nothing is sent or received. Takes no memory.
    pub fn left_between<W: WorkerSide<F>>(
        &mut self,
        session: u32,
        worker_side: &mut W,
        worker: u32,
    ) -> u32
        requires worker { worker < peers self.old.links.ends }
        requires session { session < peers (W.ends worker_side.old) }
        requires rings { AreBetween self.old.links.ends session (W.ends worker_side.old) worker }
        ensures compared { Compares self.old.links.ends self.new.links.ends session
            (W.ends worker_side.old) (W.ends worker_side.new) worker result }
        ensures stays { W.Stays worker_side.old worker_side.new }
        ensures kept { (self.new.session ≡ self.old.session) × (self.new.seat ≡ self.old.seat)
            × (self.new.waiting ≡ self.old.waiting)
            × (self.new.first.value ≡ self.old.first.value)
            × (self.new.lifted ≡ self.old.lifted) }
    {
        self.links.left_between(session, worker_side, worker)
    }

    /// The parts. A message that waits to be sent is dropped.
    pub fn into_parts(self) -> PartyParts<So, Si, F>
        ensures { (result.source ≡ self.session.source) × (result.sink ≡ self.session.sink)
            × (result.ending ≡ self.session.ending) × (result.ends ≡ self.links.ends)
            × (result.seat ≡ self.seat) }
    {
        let SessionParty {
            session,
            links,
            routes: _,
            tasks: _,
            seen: _,
            waiting: _,
            read_all: _,
            over: _,
            lifted: _,
            seat,
            first: _,
        } = self;
        let parts = session.into_parts();
        PartyParts {
            source: parts.source,
            sink: parts.sink,
            ending: parts.ending,
            ends: links.into_ends(),
            seat,
        }
    }
}

/// Whether a group ended with the reading.
fn ends_reading(gathered: Gathered) -> bool
    ensures { result ≡ ends_reading gathered }
{
    match gathered {
        Gathered::More | Gathered::After { stamp: _ } => false,
        Gathered::Ending { cause: _ } => true,
    }
}

/// Whether a session ends behind replies: reading has ended, or they didn't all go out.
fn ends(read_all: bool, whole: bool) -> bool
    ensures { result ≡ (read_all || not whole) }
{
    read_all || !whole
}

/// The stamp of the After that ended the group, if one did and the session goes on. It is then the
/// group that has no reply yet.
fn next_after<So: Source + Drop, Si: Sink + Drop>(
    session: &mut Session<So, Si>,
    over: bool,
) -> Option<u64>
    ensures over { over ≡ true → (result ≡ None) × (session.new ≡ session.old) }
    ensures goes_on { over ≡ false → (result ≡ session.old.after)
        × (session.new ≡ after_taken session.old) }
    ensures asks { let streams : Streams So Si = record {
      stream = So.stream;
      source_faults = So.faults;
      held = Si.held;
      sink_faults = Si.faults;
    } in IfSome result (λ stamp. (source : So) (sink : Si) (groups : List (List Pair))
        → HasRead streams source sink groups [] session.old
        → HasRead streams source sink groups (After stamp ∷ []) session.new) }
{
    if over { None } else { session.take_after() }
}

/// A task that has its reply and nothing else.
fn told(reply: Reply) -> Task
    ensures { result ≡ record { request = Request.Flush; reply = Some reply } }
{
    Task {
        request: Request::Flush,
        reply: Some(reply),
    }
}
