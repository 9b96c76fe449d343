ghost use Rattle.std.specs.Prelude.{◌≡◌, vec_len};
ghost use Rattle.kv_ring.specs.Ends.{peers};

use crate::send::{either, no_messages, send, send_waiting};
use kv_base::NoMemory;
use kv_ring::{Answer, Ask, SessionEnds, WorkerSide};
use std::alloc::Global;

/// A session's ends of its rings, and for each worker the message that waits for a place in its
/// ring.
#[derive(Drop)]
pub struct Links<F> {
    pub(crate) ends: SessionEnds<F>,
    pub(crate) unsent: Vec<Option<Ask<F>>>,
    ghost size: { vec_len unsent ≡ peers ends },
}

impl<F: Drop> Links<F> {
    ghost use Rattle.std.specs.Prelude.{◌≡◌, ◌≢◌, ℕ, ◌<◌, ◌+◌, [], ◌∷◌, ◌++◌, None, IfOk, IfErr};
    ghost use Rattle.std.specs.Prelude.{is_some, option_to_list};
    ghost use Rattle.kv_ring.specs.Comparing.{Compares};
    ghost use Rattle.kv_ring.specs.Ends.{peers, SameRings, only_at, AreBetween, places_to};
    ghost use Rattle.kv_ring.specs.declared.message.Ask.TheVariants as ask;
    ghost use Rattle.kv_session_party.specs.Links.{told_to, heard_from, coming_from, waiting_for};
    ghost use Rattle.kv_session_party.specs.Links.{Pushes, WaitsForPlaces, any_waits, any_went};

    /// Nothing waits. Want of memory hands the ends back.
    pub fn new(alloc: Global, ends: SessionEnds<F>) -> Result<Links<F>, (SessionEnds<F>, NoMemory)>
        ensures ok { IfOk result (λ links. links.ends ≡ ends) }
        ensures none { IfOk result (λ links. (worker : ℕ) → waiting_for links worker ≡ None) }
        ensures err { IfErr result (λ refused. refused.0 ≡ ends) }
    {
        match no_messages(alloc, ends.peers()) {
            Ok(unsent) => Ok(Links { ends, unsent }),
            Err(why) => Err((ends, why)),
        }
    }

    /// How many workers there are.
    pub fn workers(&self) -> u32
        ensures { result ≡ peers self.now.ends }
    {
        self.ends.peers()
    }

    /// Sends the message to the worker, or lets it wait where the ring has no place.
    pub fn tell(&mut self, worker: u32, message: Ask<F>)
        requires worker { worker < peers self.old.ends }
        requires free { waiting_for self.old worker ≡ None }
        ensures told { (other : ℕ) → told_to self.new other
            ≡ told_to self.old other ++ only_at worker other (message ∷ []) }
        ensures others { (other : ℕ) → other ≢ worker
            → waiting_for self.new other ≡ waiting_for self.old other }
        ensures full { waiting_for self.new worker ≢ None
            → places_to self.new.ends worker ≡ 0 }
        ensures places { (other : ℕ) → other ≢ worker → places_to self.new.ends other
            ≡ places_to self.old.ends other }
        ensures heard { (other : ℕ) → (heard_from self.new other ≡ heard_from self.old other)
            × (coming_from self.new other ≡ coming_from self.old other) }
        ensures rings { SameRings self.old.ends self.new.ends }
    {
        self.unsent[worker as usize] = send(&mut self.ends, worker, message);
    }

    /// Sends the messages that wait, as far as the rings have places. The answer is whether one was
    /// sent.
    pub fn push(&mut self) -> bool
        ensures pushed { Pushes self.old self.new }
        ensures moved { result ≡ any_went self.old.unsent.items self.new.unsent.items }
        ensures rings { SameRings self.old.ends self.new.ends }
    {
        let mut moved = false;
        for worker in 0..self.unsent.len() {
            let sent = send_waiting(&mut self.ends, worker as u32, &mut self.unsent[worker]);
            moved = either(moved, sent);
        }
        moved
    }

    /// Whether a message waits for the worker.
    pub fn waits_for(&self, worker: u32) -> bool
        requires { worker < peers self.now.ends }
        ensures { result ≡ is_some (waiting_for self.now worker) }
    {
        self.unsent[worker as usize].is_some()
    }

    /// Whether a message waits.
    pub fn waits(&self) -> bool
        ensures { result ≡ any_waits self.now.unsent.items }
    {
        for unsent in &self.unsent {
            if unsent.is_some() {
                return true;
            }
        }
        false
    }

    /// The worker's next answer, if one is known of.
    pub fn pop(&mut self, worker: u32) -> Option<Answer<F>>
        requires { worker < peers self.old.ends }
        ensures heard { (other : ℕ) → heard_from self.new other
            ≡ heard_from self.old other ++ only_at worker other (option_to_list result) }
        ensures none { result ≡ None → coming_from self.new worker ≡ [] }
        ensures others { (other : ℕ) → other ≢ worker
            → coming_from self.new other ≡ coming_from self.old other }
        ensures told { (other : ℕ) → told_to self.new other ≡ told_to self.old other }
        ensures unsent { self.new.unsent ≡ self.old.unsent }
        ensures places { (other : ℕ) → places_to self.new.ends other
            ≡ places_to self.old.ends other }
        ensures rings { SameRings self.old.ends self.new.ends }
    {
        self.ends.pop(worker)
    }

    /// Tells all workers that the session has ended.
    pub fn say_bye(&mut self)
        requires { (worker : ℕ) → waiting_for self.old worker ≡ None }
        ensures told { (worker : ℕ) → worker < peers self.old.ends
            → told_to self.new worker ≡ told_to self.old worker ++ ask.Bye ∷ [] }
        ensures heard { (worker : ℕ) → (heard_from self.new worker ≡ heard_from self.old worker)
            × (coming_from self.new worker ≡ coming_from self.old worker) }
        ensures full { WaitsForPlaces self.new }
        ensures rings { SameRings self.old.ends self.new.ends }
    {
        for worker in 0..self.ends.peers() {
            self.tell(worker, Ask::Bye);
        }
    }

    /// How many messages are left in the two rings between this session and a worker, with the
    /// worker's side. Nothing is sent or received.
    pub fn left_between<W: WorkerSide<F>>(
        &mut self,
        session: u32,
        worker_side: &mut W,
        worker: u32,
    ) -> u32
        requires worker { worker < peers self.old.ends }
        requires session { session < peers (W.ends worker_side.old) }
        requires rings { AreBetween self.old.ends session (W.ends worker_side.old) worker }
        ensures compared { Compares self.old.ends self.new.ends session (W.ends worker_side.old)
            (W.ends worker_side.new) worker result }
        ensures stays { W.Stays worker_side.old worker_side.new }
        ensures unsent { self.new.unsent ≡ self.old.unsent }
    {
        worker_side.left_beside(&mut self.ends, session, worker)
    }

    /// Gives the ends back. A message that waits is dropped.
    pub fn into_ends(self) -> SessionEnds<F>
        ensures { result ≡ self.ends }
    {
        let Links { ends, unsent: _ } = self;
        ends
    }
}
