ghost use Rattle.std.specs.Prelude.{◌≡◌, true};
ghost use Rattle.kv_threads.specs.Listed.{ListedDrawFrom, ListedContinue, ListedHaveEnded};

use crate::party::Party;
use crate::round::Round;
use crate::turning::turn_each;
use kv_stamps::Stamps;
use std::alloc::Global;
use std::marker::Model;

/// Parties of one kind: those that wait, those that stay with the caller's thread, and places for
/// those that are away on threads of their own.
#[derive(Drop)]
pub struct Roster<P> {
    waiting: Vec<P>,
    stayed: Vec<P>,
    away: usize,
    room: usize,
}

impl<P> Model for Roster<P> {
    ghost use Rattle.std.specs.Prelude.{◌+◌, ◌≤◌, vec_len, vec_capacity};
    ghost use Rattle.kv_threads.specs.Listed.{Listed};

    ghost Value = { Listed P };

    ghost view = { λ r. record {
      waiting = r.waiting.items;
      stayed = r.stayed.items;
      away = r.away;
    } };

    ghost invariant = { λ r. (vec_len r.waiting + vec_len r.stayed + r.away
        ≤ vec_capacity r.waiting)
        × (vec_len r.stayed + r.away + r.room ≤ vec_capacity r.stayed) };
}

impl<P: Drop> Roster<P> {
    ghost use Rattle.std.specs.Prelude.{◌≡◌, ◌<◌, ◌+◌, [], ◌∷◌, ◌++◌, length, IfSome, IfNone};
    ghost use Rattle.kv_threads.specs.Listed.{listed};

    /// A roster of parties that wait. Where there is no memory for its places, all wait for good.
    pub fn new(alloc: Global, parties: Vec<P>) -> Roster<P>
        ensures { result ≡ listed parties.items [] 0 }
    {
        let room = parties.len();
        match Vec::with_capacity(alloc, room) {
            Ok(stayed) => Roster {
                waiting: parties,
                stayed,
                away: 0,
                room,
            },
            Err(_) => Roster::without_room(alloc, parties),
        }
    }

    /// A roster of parties that wait for good. Takes no memory.
    pub fn without_room(alloc: Global, parties: Vec<P>) -> Roster<P>
        ensures { result ≡ listed parties.items [] 0 }
    {
        Roster {
            waiting: parties,
            stayed: Vec::new(alloc),
            away: 0,
            room: 0,
        }
    }

    /// The last party that waits: it goes away. `None` where none waits, or there is no place.
    pub fn next(&mut self) -> Option<P>
        ensures some { IfSome result (λ party. (self.old.waiting ≡ self.new.waiting ++ party ∷ [])
            × (self.new.stayed ≡ self.old.stayed) × (self.new.away ≡ self.old.away + 1)) }
        ensures none { IfNone result (self.new ≡ self.old) }
    {
        if self.room == 0 {
            return None;
        }
        let party = self.waiting.pop();
        if party.is_some() {
            self.room -= 1;
            self.away += 1;
        }
        party
    }

    /// A party that was away stays.
    pub fn stay(&mut self, party: P)
        requires { 0 < self.old.away }
        ensures waiting { self.new.waiting ≡ self.old.waiting }
        ensures stayed { self.new.stayed ≡ self.old.stayed ++ party ∷ [] }
        ensures away { self.new.away + 1 ≡ self.old.away }
    {
        self.away -= 1;
        self.stayed.push(party).unwrap();
    }

    /// A party that was away waits again, as the last.
    pub fn come_back(&mut self, party: P)
        requires { 0 < self.old.away }
        ensures waiting { self.new.waiting ≡ self.old.waiting ++ party ∷ [] }
        ensures stayed { self.new.stayed ≡ self.old.stayed }
        ensures away { self.new.away + 1 ≡ self.old.away }
    {
        self.away -= 1;
        self.waiting.push(party).unwrap();
    }

    /// The last party that stayed waits again, as the last.
    pub fn return_last(&mut self)
        requires { 0 < length self.old.stayed }
        ensures { (party : P) × (self.old.stayed ≡ self.new.stayed ++ party ∷ [])
            × (self.new.waiting ≡ self.old.waiting ++ party ∷ [])
            × (self.new.away ≡ self.old.away) }
    {
        if let Some(party) = self.stayed.pop() {
            self.waiting.push(party).unwrap();
        }
    }

    /// The parties that wait. Others are dropped.
    pub fn into_parties(self) -> Vec<P>
        ensures { result.items ≡ self.waiting }
    {
        let Roster {
            waiting,
            stayed: _,
            away: _,
            room: _,
        } = self;
        waiting
    }
}

impl<P: Party> Roster<P> {
    /// Makes a turn of each party that has not ended.
    pub fn turn_each(&mut self, stamps: &Stamps) -> Round
        requires { ListedDrawFrom ⟦<P as Party>⟧ stamps.now self.old }
        ensures continues { ListedContinue ⟦<P as Party>⟧ self.old self.new }
        ensures over { result.over ≡ true → ListedHaveEnded ⟦<P as Party>⟧ self.new }
    {
        let one = turn_each(self.waiting.as_mut_slice(), stamps);
        let other = turn_each(self.stayed.as_mut_slice(), stamps);
        one.beside(other)
    }
}
