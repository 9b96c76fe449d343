ghost use Rattle.std.specs.Prelude.{◌≡◌, ℕ, ◌+◌, ◌-◌, ◌^◌, ◌≤◌, min, if◌then◌else◌, vec_len};

use crate::end::End;
use crate::message::{Answer, Ask};
use kv_base::NoMemory;
use std::alloc::Global;

/// A party's ends of its rings, one line of two rings for each party at the other side. Each ring
/// has two places. Contracts see, for each other party by its number, what was sent to it and
/// received from it, and what this end knows of: places that are free, and messages that may be
/// popped.
#[derive(Drop)]
pub struct Ends<S, R, const MOST: u32> {
    pub(crate) ends: Vec<End<S, R>>,
    pub(crate) handed_back: u64,
    ghost some: { 1 ≤ vec_len ends },
    ghost most: { vec_len ends ≤ MOST },
}

/// A session's ends: to and from each worker, 1 to 16.
pub type SessionEnds<F> = Ends<Ask<F>, Answer<F>, 16>;

/// A worker's ends: to and from each session, 1 to 8.
pub type WorkerEnds<F> = Ends<Answer<F>, Ask<F>, 8>;

// One more, where it is to be counted and there is a greater number.
fn count_if(count: u64, counted: bool) -> u64
    ensures { result ≡ (if counted then min (count + 1) (2 ^ 64 - 1) else count) }
{
    if counted {
        count.saturating_add(1)
    } else {
        count
    }
}

impl<S, R, const MOST: u32> Ends<S, R, MOST> {
    ghost use Rattle.std.specs.Prelude.{◌≡◌, ◌≢◌, ℕ, ◌+◌, ◌-◌, ◌<◌, ◌^◌, [], ◌∷◌, ◌++◌, length};
    ghost use Rattle.std.specs.Prelude.{IsOk, IfOk, OnOk, OnErr, IfErr, IfSome, IfNone, IsSome};
    ghost use Rattle.std.specs.Prelude.{option_to_list, if◌then◌else◌, is_ok, min};
    ghost use mathlib.Core.List.{IsPrefix};
    ghost use Rattle.kv_ring.specs.Ends.{peers, SameRings, sent_to, received_from, known_from};
    ghost use Rattle.kv_ring.specs.Ends.{places_to, refusals, SameOut, SameBack, only_at};

    /// Sends a message to the party of this number, or hands it back where this end knows of no
    /// free place; the first two are taken. Takes no memory.
    pub fn push(&mut self, peer: u32, message: S) -> Result<(), S>
        requires { peer < peers self.old }
        ensures ok { OnOk result ((other : ℕ) → sent_to self.new other
            ≡ sent_to self.old other ++ only_at peer other (message ∷ [])) }
        ensures err { IfErr result (λ handed. handed ≡ message) }
        ensures unsent { OnErr result ((other : ℕ) → sent_to self.new other
            ≡ sent_to self.old other) }

        // Where a place was known, one alone is taken; the first two always are.
        ensures full { OnErr result (places_to self.new peer ≡ 0) }
        ensures place { 0 < places_to self.old peer → IsOk result }
        ensures one { OnOk result (places_to self.old peer ≤ places_to self.new peer + 1) }
        ensures first { length (sent_to self.old peer) < 2 → IsOk result }
        ensures others { (other : ℕ) → other ≢ peer → places_to self.new other
            ≡ places_to self.old other }

        // What was handed back is counted.
        ensures counted { refusals self.new
            ≡ (if is_ok result then refusals self.old else min (refusals self.old + 1) (2 ^ 64 - 1)) }
        ensures rings { SameRings self.old self.new }
        ensures back { SameBack self.old self.new }
    {
        let pushed = self.ends[peer as usize].push(message);
        self.handed_back = count_if(self.handed_back, pushed.is_err());
        pushed
    }

    /// The next message of the party of this number; `None` only where this end knows of none.
    /// Takes no memory.
    pub fn pop(&mut self, peer: u32) -> Option<R>
        requires { peer < peers self.old }
        ensures received { (other : ℕ) → received_from self.new other
            ≡ received_from self.old other ++ only_at peer other (option_to_list result) }

        // What was known comes first, and what the other party sent in order.
        ensures some { IfSome result (λ message.
            IsPrefix (known_from self.old peer) (message ∷ known_from self.new peer)) }
        ensures none { IfNone result (known_from self.new peer ≡ []) }
        ensures known { 0 < length (known_from self.old peer) → IsSome result }
        ensures others { (other : ℕ) → other ≢ peer → known_from self.new other
            ≡ known_from self.old other }

        ensures rings { SameRings self.old self.new }
        ensures out { SameOut self.old self.new }
    {
        self.ends[peer as usize].pop()
    }

    // Ends of one line.
    pub(crate) fn one(alloc: Global, end: End<S, R>) -> Result<Ends<S, R, MOST>, NoMemory>
    where
        S: Drop,
        R: Drop,
        requires { 1 ≤ MOST }
        ensures { IfOk result (λ ends. (ends.ends.items ≡ end ∷ []) × (refusals ends ≡ 0)) }
    {
        let mut ends = Vec::with_capacity(alloc, MOST as usize)?;
        ends.push(end)?;
        Ok(Ends {
            ends,
            handed_back: 0,
        })
    }

    // Ends of one line more.
    pub(crate) fn add(&mut self, end: End<S, R>) -> Result<(), NoMemory>
    where
        S: Drop,
        R: Drop,
        requires { peers self.old < MOST }
        ensures ends { OnOk result (self.new.ends.items ≡ self.old.ends.items ++ end ∷ []) }
        ensures refusals { refusals self.new ≡ refusals self.old }
    {
        self.ends.push(end)?;
        Ok(())
    }

    /// How many pushes were handed back; the count stays at the greatest number.
    pub fn handed_back(&self) -> u64
        ensures { result ≡ refusals self.now }
    {
        self.handed_back
    }

    /// How many parties there are at the other side.
    pub fn peers(&self) -> u32
        ensures { result ≡ peers self.now }
    {
        self.ends.len() as u32
    }
}
