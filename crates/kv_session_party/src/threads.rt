use crate::party::SessionParty;
use kv_base::{Sink, Source};
use kv_ring::Turn;
use kv_stamps::Stamps;
use kv_threads::Party;

/// A session's party keeps its rings and its share of the counter. Where it has ended, no group of
/// it waits.
impl<So: Source + Drop, Si: Sink + Drop, F: Drop> Party for SessionParty<So, Si, F> {
    ghost use Rattle.std.specs.Prelude.{◌&&◌, not};
    ghost use Rattle.kv_session_party.specs.Threads.{SessionStays, SessionStays-still};
    ghost use Rattle.kv_session_party.specs.Threads.{SessionStays-on};
    ghost use Rattle.kv_session_party.specs.Party.{is_over};

    ghost counter = { λ party. party.seat.counter };

    ghost ended = { λ party. is_over party.session.ending party.links && not party.waiting };

    ghost Stays = { λ party later. SessionStays party later };

    fn turn(&mut self, stamps: &Stamps) -> Turn {
        self.turn(stamps)
    }

    fn ended(&self) -> bool {
        self.ended()
    }

    ghost stays_still = { SessionStays-still };

    ghost stays_on = { SessionStays-on };
}
