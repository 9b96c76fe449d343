ghost use Rattle.std.specs.Prelude.{◌≡◌, All, IfOk};
ghost use Rattle.std.specs.Arc.{arc_value};
ghost use Rattle.kv_threads.specs.Continuing.{DrawFrom};

use crate::counted::{counter, next};
use crate::meeter::Meeter;
use crate::passer::{PASSERS, Passer, Work};
use kv_stamps::{StampSeat, Stamps};
use kv_threads::{Party, join_seats, run_all, turn_all};
use std::alloc::Global;
use std::process::Abort;
use std::sync::Arc;
use std::sync::atomic::AtomicU64;
use std::test::Fail;

// Passes one behind the other.
const QUICK: Work = Work {
    passes: 1_000,
    spins: 0,
};

// Passes so slow that the others sleep.
const SLOW: Work = Work {
    passes: 100,
    spins: 50_000,
};

// Both, in a list.
fn pair<P: Party + Drop>(
    alloc: Global,
    stamps: &Stamps,
    first: P,
    second: P,
) -> Result<Vec<P>, Fail>
    requires first { P.counter first ≡ stamps.now }
    requires second { P.counter second ≡ stamps.now }
    ensures { IfOk result (λ pair. DrawFrom ⟦<P as Party>⟧ stamps.now pair.items) }
{
    let mut pair = Vec::new(alloc);
    pair.push(first)?;
    pair.push(second)?;
    Ok(pair)
}

// A passer of this place, with a seat of its own.
fn passer(
    seats: &mut Vec<StampSeat>,
    stamps: &Stamps,
    passes: &Arc<AtomicU64, Global>,
    place: u64,
    work: Work,
) -> Result<Passer, Fail>
    requires { All (λ seat. seat.counter ≡ stamps.now) seats.old.items }
    ensures passer { IfOk result (λ passer. passer.seat.counter ≡ stamps.now) }
    ensures others { All (λ seat. seat.counter ≡ stamps.now) seats.new.items }
{
    let seat = next(seats, stamps)?;
    Ok(Passer::new(seat, Arc::try_clone(passes)?, place, work))
}

// Two pairs of passers, in one ring.
fn ring(
    alloc: Global,
    mut seats: Vec<StampSeat>,
    stamps: &Stamps,
    work: Work,
) -> Result<(Vec<Passer>, Vec<Passer>), Fail>
    requires { All (λ seat. seat.counter ≡ stamps.now) seats.items }
    ensures first { IfOk result (λ made. DrawFrom ⟦<Passer as Party>⟧ stamps.now made.0.items) }
    ensures second { IfOk result (λ made. DrawFrom ⟦<Passer as Party>⟧ stamps.now made.1.items) }
{
    let passes = Arc::new(alloc, AtomicU64::new(0))?;
    let a = passer(&mut seats, stamps, &passes, 0, work)?;
    let b = passer(&mut seats, stamps, &passes, 1, work)?;
    let c = passer(&mut seats, stamps, &passes, 2, work)?;
    let d = passer(&mut seats, stamps, &passes, 3, work)?;
    Ok((pair(alloc, stamps, a, c)?, pair(alloc, stamps, b, d)?))
}

// The four passers' last stamps are those of the last round, and the counter has no other.
fn have_passed(
    rt: &impl Abort,
    alloc: Global,
    stamps: &Stamps,
    mut first: Vec<Passer>,
    mut second: Vec<Passer>,
    work: Work,
) -> Result<(), Fail>
    requires first { DrawFrom ⟦<Passer as Party>⟧ stamps.now first.items }
    requires second { DrawFrom ⟦<Passer as Party>⟧ stamps.now second.items }
{
    let passes = PASSERS * u64::from(work.passes);
    let mut others = Vec::new(alloc);
    let (seat, last) = last_of(&mut second, stamps)?;
    assert_eq!(rt; last, passes);
    others.push(seat)?;
    let (seat, last) = last_of(&mut first, stamps)?;
    assert_eq!(rt; last, passes.saturating_sub(1));
    others.push(seat)?;
    let (seat, last) = last_of(&mut second, stamps)?;
    assert_eq!(rt; last, passes.saturating_sub(2));
    others.push(seat)?;
    let (seat, last) = last_of(&mut first, stamps)?;
    assert_eq!(rt; last, passes.saturating_sub(3));
    let mut joined = join_seats(stamps, seat, others);
    assert_eq!(rt; stamps.look(&mut joined), passes + 1);
    Ok(())
}

// The seat and the last stamp of the last passer.
fn last_of(passers: &mut Vec<Passer>, stamps: &Stamps) -> Result<(StampSeat, u64), Fail>
    requires { DrawFrom ⟦<Passer as Party>⟧ stamps.now passers.old.items }
    ensures seat { IfOk result (λ last. last.0.counter ≡ stamps.now) }
    ensures others { DrawFrom ⟦<Passer as Party>⟧ stamps.now passers.new.items }
{
    match passers.pop() {
        Some(passer) => Ok(passer.into_seat()),
        None => Err(Fail::new("two passers")),
    }
}

#[test]
fn parties_on_threads_hand_on(rt: HostRuntime) -> Result<(), Fail> {
    let alloc = rt.alloc();
    let (stamps, seats) = counter(alloc)?;
    let (first, second) = ring(alloc, seats, &stamps, QUICK)?;
    let (first, second) = run_all(&rt, alloc, &stamps, first, second);
    have_passed(&rt, alloc, &stamps, first, second, QUICK)
}

#[test]
fn parties_that_sleep_are_woken(rt: HostRuntime) -> Result<(), Fail> {
    let alloc = rt.alloc();
    let (stamps, seats) = counter(alloc)?;
    let (first, second) = ring(alloc, seats, &stamps, SLOW)?;
    let (first, second) = run_all(&rt, alloc, &stamps, first, second);
    have_passed(&rt, alloc, &stamps, first, second, SLOW)
}

#[test]
fn parties_on_one_thread_hand_on(rt: HostRuntime) -> Result<(), Fail> {
    let alloc = rt.alloc();
    let (stamps, seats) = counter(alloc)?;
    let (first, second) = ring(alloc, seats, &stamps, QUICK)?;
    let (first, second) = turn_all(&rt, alloc, &stamps, first, second);
    have_passed(&rt, alloc, &stamps, first, second, QUICK)
}

// A meeter with a seat of its own.
fn meeter(
    seats: &mut Vec<StampSeat>,
    stamps: &Stamps,
    inside: &Arc<AtomicU64, Global>,
) -> Result<Meeter, Fail>
    requires { All (λ seat. seat.counter ≡ stamps.now) seats.old.items }
    ensures meeter { IfOk result (λ meeter. meeter.seat.counter ≡ stamps.now) }
    ensures others { All (λ seat. seat.counter ≡ stamps.now) seats.new.items }
{
    let seat = next(seats, stamps)?;
    Ok(Meeter::new(seat, Arc::try_clone(inside)?, PASSERS))
}

#[test]
fn four_parties_are_inside_a_turn_at_once(rt: HostRuntime) -> Result<(), Fail> {
    let alloc = rt.alloc();
    let (stamps, mut seats) = counter(alloc)?;
    let inside = Arc::new(alloc, AtomicU64::new(0))?;
    let a = meeter(&mut seats, &stamps, &inside)?;
    let b = meeter(&mut seats, &stamps, &inside)?;
    let c = meeter(&mut seats, &stamps, &inside)?;
    let d = meeter(&mut seats, &stamps, &inside)?;
    let first = pair(alloc, &stamps, a, b)?;
    let second = pair(alloc, &stamps, c, d)?;
    let (first, second) = run_all(&rt, alloc, &stamps, first, second);
    for meeter in &first {
        assert!(rt; meeter.met());
    }
    for meeter in &second {
        assert!(rt; meeter.met());
    }
    Ok(())
}
