ghost use Rattle.std.specs.Prelude.{◌≡◌, length, map, None, IfSome};
ghost use Rattle.std.specs.List.{list_any};
ghost use Rattle.std.specs.Option.{option_map};
ghost use Rattle.kv_mesh.specs.Drawing.{SessionsDraw, WorkersDraw};
ghost use Rattle.kv_mesh.specs.Finished.{parts_of};
ghost use Rattle.kv_mesh.specs.Joining.{HasLooked, joined_from};
ghost use Rattle.kv_mesh.specs.Mesh.{HasRoom, any_closed};

use crate::finished::Finished;
use crate::joining::{join_next, look_with};
use kv_base::{ReservedList, Sink, Source};
use kv_disk::Disk;
use kv_index::Index;
use kv_session::SessionParts;
use kv_session_party::{PartyParts, SessionParty};
use kv_stamps::{StampSeat, Stamps};
use kv_worker::Worker;
use kv_worker_party::{WorkerParts, WorkerParty};

/// Takes all parties apart, hands out their parts, and looks at the counter with all their seats.
/// Messages and answers that wait to be sent are dropped. Takes no memory.
pub(crate) fn hand_out<
    So: Source + Drop,
    Si: Sink + Drop,
    D: Disk + Drop,
    I: Index + Drop,
    F: Drop,
>(
    stamps: &Stamps,
    workers: Vec<WorkerParty<D, I, F>>,
    sessions: Vec<SessionParty<So, Si, F>>,
    worker_room: ReservedList<Worker<D, I>>,
    session_room: ReservedList<SessionParts<So, Si>>,
) -> Finished<So, Si, D, I>
    requires draw { WorkersDraw stamps.now workers.items × SessionsDraw stamps.now sessions.items }
    requires worker_room { HasRoom worker_room (length workers.items) }
    requires session_room { HasRoom session_room (length sessions.items) }
    ensures workers { result.workers.items ≡ map (λ party. party.worker) workers.items }
    ensures sessions { result.sessions.items ≡ map (λ party. parts_of party.session) sessions.items }
    ensures unsure { result.unsure ≡ any_closed workers.items }
    ensures seats { IfSome (joined_from (joined_from None
        (map (λ party. party.seat) workers.items)) (map (λ party. party.seat) sessions.items))
        HasLooked }
{
    let (workers, joined) = hand_out_workers(stamps, workers, worker_room);
    let (sessions, joined) = hand_out_sessions(stamps, sessions, session_room, joined);
    look_with(stamps, joined);
    let unsure = is_any_closed(workers.as_slice());
    Finished {
        workers,
        sessions,
        unsure,
    }
}

/// Hands out the workers, and joins their seats.
fn hand_out_workers<D: Disk + Drop, I: Index + Drop, F: Drop>(
    stamps: &Stamps,
    parties: Vec<WorkerParty<D, I, F>>,
    room: ReservedList<Worker<D, I>>,
) -> (ReservedList<Worker<D, I>>, Option<StampSeat>)
    requires draw { WorkersDraw stamps.now parties.items }
    requires room { HasRoom room (length parties.items) }
    ensures workers { result.0.items ≡ map (λ party. party.worker) parties.items }
    ensures counter { IfSome result.1 (λ all. all.counter ≡ stamps.now) }
    ensures view { option_map (λ all. all.view) result.1
        ≡ joined_from None (map (λ party. party.seat) parties.items) }
{
    let mut workers = room;
    let mut joined = None;
    for party in parties {
        let WorkerParts {
            worker,
            ends: _,
            seat,
        } = party.into_parts();
        workers.append(worker).unwrap();
        joined = Some(join_next(stamps, joined, seat));
    }
    (workers, joined)
}

/// Hands out what the sessions had, and joins their seats to the others.
fn hand_out_sessions<So: Source + Drop, Si: Sink + Drop, F: Drop>(
    stamps: &Stamps,
    parties: Vec<SessionParty<So, Si, F>>,
    room: ReservedList<SessionParts<So, Si>>,
    others: Option<StampSeat>,
) -> (ReservedList<SessionParts<So, Si>>, Option<StampSeat>)
    requires draw { SessionsDraw stamps.now parties.items }
    requires room { HasRoom room (length parties.items) }
    requires others { IfSome others (λ all. all.counter ≡ stamps.now) }
    ensures sessions { result.0.items ≡ map (λ party. parts_of party.session) parties.items }
    ensures counter { IfSome result.1 (λ all. all.counter ≡ stamps.now) }
    ensures view { option_map (λ all. all.view) result.1
        ≡ joined_from (option_map (λ all. all.view) others)
        (map (λ party. party.seat) parties.items) }
{
    let mut sessions = room;
    let mut joined = others;
    for party in parties {
        let PartyParts {
            source,
            sink,
            ending,
            ends: _,
            seat,
        } = party.into_parts();
        sessions
            .append(SessionParts {
                source,
                sink,
                ending,
            })
            .unwrap();
        joined = Some(join_next(stamps, joined, seat));
    }
    (sessions, joined)
}

/// Whether one of the workers is closed.
fn is_any_closed<D: Disk + Drop, I: Index + Drop>(workers: &[Worker<D, I>]) -> bool
    ensures { result ≡ list_any (λ worker. worker.store.closed) workers.now }
{
    for worker in workers {
        if worker.closed() {
            return true;
        }
    }
    false
}
