ghost use Rattle.std.specs.Prelude.{◌≡◌, ◌+◌, ◌<◌, ◌≤◌, ◌∷◌, [], ◌++◌, All, map, reverse, vec_len};
ghost use Rattle.std.specs.Prelude.{vec_capacity, IfOk, OnErr};
ghost use Rattle.kv_ring.specs.Ends.{IsFresh};
ghost use Rattle.kv_stamps.specs.Seats.{new_seat};
ghost use Rattle.kv_mesh.specs.Started.{IsNewSession, SessionsStart, ends_of};

use crate::seats::Seats;
use crate::within::{push_within, take_last, turn_round};
use kv_base::{NoMemory, Sink, Source};
use kv_ring::SessionEnds;
use kv_session_party::{PartyParts, SessionParty};
use std::alloc::Global;

/// The party of the last source and sink, which has the last ring ends and a free seat. Want of
/// memory leaves the sources and sinks.
fn start_session<So: Source + Drop, Si: Sink + Drop, F: Drop>(
    alloc: Global,
    ends: &mut Vec<(So, Si)>,
    rings: &mut Vec<SessionEnds<F>>,
    seats: &mut Seats,
) -> Result<SessionParty<So, Si, F>, NoMemory>
    requires fresh { All IsFresh rings.old.items }
    requires some { (0 < vec_len ends.old) × (0 < vec_len rings.old)
        × (0 < vec_len seats.old.free) }
    ensures ends { IfOk result (λ party. ends.old.items
        ≡ ends.new.items ++ ends_of party.session ∷ []) }
    ensures rings { IfOk result (λ party. rings.old.items
        ≡ rings.new.items ++ party.links.ends ∷ []) }
    ensures new { IfOk result (IsNewSession (new_seat seats.old.stamps seats.old.start
        seats.old.many)) }
    ensures seats { vec_len seats.new.free + 1 ≡ vec_len seats.old.free }
    ensures same { new_seat seats.new.stamps seats.new.start seats.new.many
        ≡ new_seat seats.old.stamps seats.old.start seats.old.many }
    ensures capacity { vec_capacity ends.old ≤ vec_capacity ends.new }
    ensures err { OnErr result (ends.new.items ≡ ends.old.items) }
{
    let (source, sink) = take_last(ends);
    match SessionParty::new(alloc, source, sink, take_last(rings), seats.take()) {
        Ok(party) => Ok(party),
        Err((source, sink, why)) => {
            push_within(ends, (source, sink));
            Err(why)
        }
    }
}

/// The source and the sink of a party.
fn source_and_sink<So: Source + Drop, Si: Sink + Drop, F: Drop>(
    party: SessionParty<So, Si, F>,
) -> (So, Si)
    ensures { result ≡ ends_of party.session }
{
    let PartyParts {
        source,
        sink,
        ending: _,
        ends: _,
        seat: _,
    } = party.into_parts();
    (source, sink)
}

/// Takes the parties apart, the last one first, and puts each source and sink behind the others.
/// Takes no memory.
fn give_sessions_back<So: Source + Drop, Si: Sink + Drop, F: Drop>(
    mut parties: Vec<SessionParty<So, Si, F>>,
    ends: &mut Vec<(So, Si)>,
)
    requires { vec_len ends.old + vec_len parties ≤ vec_capacity ends.old }
    ensures { ends.new.items ≡ ends.old.items
        ++ map (λ party. ends_of party.session) (reverse parties.items) }
{
    while let Some(party) = parties.pop() {
        push_within(ends, source_and_sink(party));
    }
}

/// The parties of all sources and sinks, in their order. Want of memory leaves these.
pub(crate) fn start_sessions<So: Source + Drop, Si: Sink + Drop, F: Drop>(
    alloc: Global,
    ends: &mut Vec<(So, Si)>,
    mut rings: Vec<SessionEnds<F>>,
    seats: &mut Seats,
) -> Result<Vec<SessionParty<So, Si, F>>, NoMemory>
    requires fresh { All IsFresh rings.items }
    requires counts { (vec_len rings ≡ vec_len ends.old)
        × (vec_len ends.old ≤ vec_len seats.old.free) }
    ensures ok { IfOk result (λ sessions. SessionsStart ends.old.items rings.items
        (new_seat seats.old.stamps seats.old.start seats.old.many) sessions.items) }
    ensures same { new_seat seats.new.stamps seats.new.start seats.new.many
        ≡ new_seat seats.old.stamps seats.old.start seats.old.many }
    ensures err { OnErr result (ends.new.items ≡ ends.old.items) }
{
    let mut parties = Vec::with_capacity(alloc, ends.len())?;
    while ends.len() > 0 {
        match start_session(alloc, ends, &mut rings, seats) {
            Ok(party) => push_within(&mut parties, party),
            Err(why) => {
                give_sessions_back(parties, ends);
                return Err(why);
            }
        }
    }
    turn_round(&mut parties);
    Ok(parties)
}
