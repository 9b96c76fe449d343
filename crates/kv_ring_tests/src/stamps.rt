ghost use Rattle.std.specs.Prelude.{◌≡◌, ℕ, ◌+◌, ◌^◌, ◌<◌, ◌≤◌, ◌==◌, [], All, count_by, IfOk};
ghost use Rattle.kv_stamps.specs.Seats.{new_seat};

mod drawer;

use drawer::Drawer;
use kv_base::NoMemory;
use kv_stamps::{StampSeat, Stamps, StampsSpent};
use std::alloc::{AllocError, Global};
use std::process::Abort;
use std::thread;
use std::thread::Threads;

// A counter and its two seats.
fn pair(rt: &impl Abort, alloc: Global, start: u64) -> (Stamps, StampSeat, StampSeat)
    requires { (1 ≤ start) × (start ≤ 2 ^ 62) }
    ensures first { result.1 ≡ new_seat result.0 start 2 }
    ensures second { result.2 ≡ new_seat result.0 start 2 }
{
    let (stamps, mut seats) = Stamps::new(alloc, start, 2).expect(rt, "memory");
    let first = seats.pop().expect(rt, "two seats");
    let second = seats.pop().expect(rt, "two seats");
    (stamps, first, second)
}

#[test]
fn two_seats_draw_in_turn(rt: HostRuntime) {
    let (stamps, mut first, mut second) = pair(&rt, rt.alloc(), 1);
    assert_eq!(rt; stamps.draw(&mut first, 3), Ok(1), "1, 2, 3");
    assert_eq!(rt; stamps.draw(&mut second, 2), Ok(4), "4, 5");
    assert_eq!(rt; stamps.draw(&mut first, 1), Ok(6), "6");
    assert_eq!(rt; stamps.look(&mut first), 7);
    stamps.join(&mut second, first);
    assert_eq!(rt;
        stamps.draw(&mut second, 512),
        Ok(7),
        "a joined seat draws on"
    );
    assert_eq!(rt; stamps.look(&mut second), 519);
}

#[test]
fn a_raise_passes_over_numbers(rt: HostRuntime) {
    let (stamps, mut first, mut second) = pair(&rt, rt.alloc(), 5);
    stamps.raise(&mut first, 10);
    assert_eq!(rt; stamps.draw(&mut second, 2), Ok(10), "5 to 9 are nobody's");
    stamps.raise(&mut first, 7);
    assert_eq!(rt; stamps.look(&mut first), 12, "it was above 7");
    stamps.raise(&mut second, 1 << 62);
    assert_eq!(rt; stamps.look(&mut first), 1 << 62);
}

#[test]
fn a_range_past_the_last_stamp_is_refused_for_good(rt: HostRuntime) {
    // The last 511 stamps are 2^62 - 511 to 2^62 - 1.
    let last = (1 << 62) - 511;
    let (stamps, mut first, mut second) = pair(&rt, rt.alloc(), last);
    assert_eq!(rt;
        stamps.draw(&mut first, 512),
        Err(StampsSpent { number: last })
    );
    assert_eq!(rt;
        stamps.draw(&mut first, 1),
        Err(StampsSpent { number: last }),
        "again"
    );
    assert_eq!(rt; stamps.look(&mut first), 1 << 62, "not 2^62 + 1");

    // The other seat meets it at a number of its own, and a joined seat keeps the first.
    let passed = (1 << 62) + 1;
    assert_eq!(rt;
        stamps.draw(&mut second, 1),
        Err(StampsSpent { number: passed })
    );
    stamps.join(&mut second, first);
    assert_eq!(rt;
        stamps.draw(&mut second, 1),
        Err(StampsSpent { number: passed })
    );

    // Each of the 511 is drawn.
    let (stamps, mut first, mut second) = pair(&rt, rt.alloc(), last);
    assert_eq!(rt; stamps.draw(&mut first, 511), Ok(last));
    assert_eq!(rt;
        stamps.draw(&mut second, 1),
        Err(StampsSpent { number: 1 << 62 })
    );
    stamps.join(&mut first, second);
    assert_eq!(rt;
        stamps.draw(&mut first, 1),
        Err(StampsSpent { number: 1 << 62 }),
        "joined"
    );
}

#[test]
fn twenty_four_seats_draw_one_after_the_other(rt: HostRuntime) {
    let (stamps, seats) = Stamps::new(rt.alloc(), 1, 24).expect(&rt, "memory");
    assert_eq!(rt; seats.len(), 24);
    let mut expected = 1;
    for mut seat in seats {
        assert_eq!(rt; stamps.draw(&mut seat, 2), Ok(expected));
        expected += 2;
    }
}

// Joins what threads drew to what this one drew.
fn join_all(
    stamps: &Stamps,
    mut all: Drawer,
    drawers: Vec<Result<Drawer, NoMemory>>,
) -> Result<Drawer, NoMemory>
    requires own { all.seat.counter ≡ stamps.now }
    requires others { All (λ r. IfOk r (λ drawer. drawer.seat.counter ≡ stamps.now)) drawers.items }
    ensures { IfOk result (λ drawer. drawer.seat.counter ≡ stamps.now) }
{
    for drawer in drawers {
        all = all.join(stamps, drawer?)?;
    }
    Ok(all)
}

// What a thread for each seat drew.
fn draw_all<R: Threads + Sync>(
    rt: &R,
    alloc: Global,
    stamps: &Stamps,
    seats: Vec<StampSeat>,
    draws: u32,
) -> Result<Vec<Result<Drawer, NoMemory>>, AllocError>
    requires counter { All (λ seat. seat.counter ≡ stamps.now) seats.items }
    requires new { All (λ seat. seat.view.drawn ≡ []) seats.items }
    ensures { IfOk result (λ drawers.
        All (λ r. IfOk r (λ drawer. drawer.seat.counter ≡ stamps.now)) drawers.items) }
{
    thread::map_vec(rt, seats, &|seat| Drawer::draw(stamps, alloc, seat, draws))
}

// The first number of each range that threads drew beside each other, one for each seat but the
// last, and then this thread with the last.
fn drawn_by_threads<R: Threads + Sync>(
    rt: &R,
    alloc: Global,
    seats: u32,
    draws: u32,
) -> Result<Vec<u64>, NoMemory>
    requires { (1 ≤ seats) × (seats ≤ 24) }
    ensures { IfOk result (λ numbers.
        (number : ℕ) → count_by (λ first. first == number) numbers.items ≤ 1) }
{
    let (stamps, mut seats) = Stamps::new(alloc, 1, seats)?;
    let Some(last) = seats.pop() else {
        return Ok(Vec::new(alloc));
    };
    let drawers = draw_all(rt, alloc, &stamps, seats, draws)?;
    let own = Drawer::draw(&stamps, alloc, last, draws)?;
    let all = join_all(&stamps, own, drawers)?;
    Ok(all.into_numbers(&stamps))
}

#[test]
fn threads_draw_no_number_twice(rt: HostRuntime) {
    let mut numbers = drawn_by_threads(&rt, rt.alloc(), 5, 100_000).expect(&rt, "memory");
    assert_eq!(rt; numbers.len(), 500_000);
    numbers.sort().expect(&rt, "memory");
    for i in 1..numbers.len() {
        assert!(rt;
            numbers[i - 1] < numbers[i],
            "{} is there twice",
            numbers[i]
        );
    }
}
