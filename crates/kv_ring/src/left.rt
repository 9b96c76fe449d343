ghost use Rattle.std.specs.Prelude.{◌≡◌, ◌+◌, ◌<◌, ◌≤◌, ◌++◌, length};
ghost use Rattle.rtrb.specs.Ring.{sent, received, known_free, known_items, producer_capacity};
ghost use Rattle.rtrb.specs.Ring.{IsPair};
ghost use Rattle.kv_ring.specs.Lines.{line_of, ring_into, ring_from, IsLine};
ghost use Rattle.kv_ring.specs.Ends.{peers, known_from, Looked, AreBetween, HasAll, KnowsPlaces};

use crate::end::End;
use crate::ends::{SessionEnds, WorkerEnds};
use rtrb::{Consumer, Producer};

// How many messages are left in a ring.
fn left_in<T>(producer: &mut Producer<T>, consumer: &mut Consumer<T>) -> u32
    requires pair { IsPair producer.old consumer.old }
    requires capacity { producer_capacity producer.old ≡ 2 }
    ensures producer { (ring_into producer.new ≡ ring_into producer.old)
        × (sent producer.new ≡ sent producer.old) × (producer_capacity producer.new ≡ 2) }
    ensures consumer { (ring_from consumer.new ≡ ring_from consumer.old)
        × (received consumer.new ≡ received consumer.old) }
    ensures all { sent producer.new ≡ received consumer.new ++ known_items consumer.new }
    ensures places { 2 ≤ known_free producer.new + length (known_items consumer.new) }
    ensures value { (result ≡ length (known_items consumer.new)) × (result ≤ 2) }
{
    producer.slots_beside(consumer);
    consumer.slots_beside(producer) as u32
}

// How many messages are left in the two rings.
fn left<S, R>(near: &mut End<S, R>, far: &mut End<R, S>) -> u32
    requires { IsLine far.old near.old }
    ensures near { (line_of near.new ≡ line_of near.old) × (sent near.new.out ≡ sent near.old.out)
        × (received near.new.back ≡ received near.old.back) }
    ensures far { (line_of far.new ≡ line_of far.old) × (sent far.new.out ≡ sent far.old.out)
        × (received far.new.back ≡ received far.old.back) }
    ensures there { sent near.new.out ≡ received far.new.back ++ known_items far.new.back }
    ensures back { sent far.new.out ≡ received near.new.back ++ known_items near.new.back }
    ensures there_places { 2 ≤ known_free near.new.out + length (known_items far.new.back) }
    ensures back_places { 2 ≤ known_free far.new.out + length (known_items near.new.back) }
    ensures few { (length (known_items far.new.back) ≤ 2)
        × (length (known_items near.new.back) ≤ 2) }
    ensures value { result ≡ length (known_items far.new.back)
        + length (known_items near.new.back) }
{
    let there = left_in(&mut near.out, &mut far.back);
    let back = left_in(&mut far.out, &mut near.back);
    there + back
}

/// How many messages are left in the two rings between a session and a worker, whose ends of one
/// mesh these are. On each ring, what was sent is what was received and then what is left, at most
/// two messages; until the next pop the receiver knows of all that is left, and until the next push
/// the sender of each free place. Nothing is sent or received. Takes no memory.
pub fn left_between<F>(
    session_ends: &mut SessionEnds<F>,
    session: u32,
    worker_ends: &mut WorkerEnds<F>,
    worker: u32,
) -> u32
    requires worker { worker < peers session_ends.old }
    requires session { session < peers worker_ends.old }
    requires rings { AreBetween session_ends.old session worker_ends.old worker }
    ensures session_ends { Looked worker session_ends.old session_ends.new }
    ensures worker_ends { Looked session worker_ends.old worker_ends.new }
    ensures asks { HasAll session_ends.new worker worker_ends.new session }
    ensures answers { HasAll worker_ends.new session session_ends.new worker }
    ensures asks_places { KnowsPlaces session_ends.new worker worker_ends.new session }
    ensures answers_places { KnowsPlaces worker_ends.new session session_ends.new worker }
    ensures few { (length (known_from worker_ends.new session) ≤ 2)
        × (length (known_from session_ends.new worker) ≤ 2) }
    ensures value { result ≡ length (known_from worker_ends.new session)
        + length (known_from session_ends.new worker) }
{
    left(
        &mut session_ends.ends[worker as usize],
        &mut worker_ends.ends[session as usize],
    )
}
