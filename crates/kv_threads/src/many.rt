ghost use Rattle.std.specs.Prelude.{◌≡◌};
ghost use Rattle.std.specs.Arc.{arc_value};
ghost use Rattle.kv_threads.specs.Continuing.{DrawFrom, HaveRun};
ghost use Rattle.kv_threads.specs.Listed.{ListedDrawFrom, ListedContinue, ListedHaveEnded};

use crate::away::start;
use crate::crew::Crew;
use crate::party::Party;
use crate::rest::Rest;
use crate::roster::Roster;
use crate::turning::turn_until_ended;
use kv_stamps::Stamps;
use std::alloc::Global;
use std::sync::{Arc, Wait};
use std::thread::Threads;

/// Turns the parties of both rosters in rotation, until all of them have ended.
fn rotate<P: Party, Q: Party, R: Wait>(
    rt: &R,
    stamps: &Stamps,
    crew: &Crew,
    first: &mut Roster<P>,
    second: &mut Roster<Q>,
)
    requires first { ListedDrawFrom ⟦<P as Party>⟧ stamps.now first.old }
    requires second { ListedDrawFrom ⟦<Q as Party>⟧ stamps.now second.old }
    ensures first { ListedContinue ⟦<P as Party>⟧ first.old first.new }
    ensures second { ListedContinue ⟦<Q as Party>⟧ second.old second.new }
    ensures first_ended { ListedHaveEnded ⟦<P as Party>⟧ first.new }
    ensures second_ended { ListedHaveEnded ⟦<Q as Party>⟧ second.new }
{
    let mut rest = Rest::new();
    for _ in rt.forever() {
        let one = first.turn_each(stamps);
        let round = one.beside(second.turn_each(stamps));
        if round.over {
            rest.end(crew);
            return;
        }
        rest.after(rt, crew, round.moved);
    }
    unreachable!()
}

/// Starts each party of the second roster on a thread of its own, from the last on. The caller's
/// thread turns those that stay, and then all come back.
fn run_second<
    P: Party,
    Q: Party + Drop + Send + 'static,
    R: Threads + Wait + Copy + Send + 'static,
>(
    rt: &R,
    stamps: &Arc<Stamps, Global>,
    crew: &Arc<Crew, Global>,
    number: u64,
    first: &mut Roster<P>,
    second: &mut Roster<Q>,
)
    requires first { ListedDrawFrom ⟦<P as Party>⟧ (arc_value stamps.now) first.old }
    requires second { ListedDrawFrom ⟦<Q as Party>⟧ (arc_value stamps.now) second.old }
    ensures first { ListedContinue ⟦<P as Party>⟧ first.old first.new }
    ensures second { ListedContinue ⟦<Q as Party>⟧ second.old second.new }
    ensures first_ended { ListedHaveEnded ⟦<P as Party>⟧ first.new }
    ensures second_ended { ListedHaveEnded ⟦<Q as Party>⟧ second.new }
{
    let Some(party) = second.next() else {
        rotate(rt, stamps, crew, first, second);
        return;
    };
    match start(rt, stamps, crew, number, party) {
        Ok(handle) => {
            run_second(rt, stamps, crew, number.wrapping_add(1), first, second);
            let turned = turn_until_ended(rt, handle.join(rt), stamps, crew);
            second.come_back(turned);
        }
        Err(left) => {
            second.stay(left);
            run_second(rt, stamps, crew, number.wrapping_add(1), first, second);
            second.return_last();
        }
    }
}

/// Starts each party of the first roster and then of the second on a thread of its own, from the
/// last on. The caller's thread turns those that stay, and then all come back.
fn run_first<
    P: Party + Drop + Send + 'static,
    Q: Party + Drop + Send + 'static,
    R: Threads + Wait + Copy + Send + 'static,
>(
    rt: &R,
    stamps: &Arc<Stamps, Global>,
    crew: &Arc<Crew, Global>,
    number: u64,
    first: &mut Roster<P>,
    second: &mut Roster<Q>,
)
    requires first { ListedDrawFrom ⟦<P as Party>⟧ (arc_value stamps.now) first.old }
    requires second { ListedDrawFrom ⟦<Q as Party>⟧ (arc_value stamps.now) second.old }
    ensures first { ListedContinue ⟦<P as Party>⟧ first.old first.new }
    ensures second { ListedContinue ⟦<Q as Party>⟧ second.old second.new }
    ensures first_ended { ListedHaveEnded ⟦<P as Party>⟧ first.new }
    ensures second_ended { ListedHaveEnded ⟦<Q as Party>⟧ second.new }
{
    let Some(party) = first.next() else {
        run_second(rt, stamps, crew, number, first, second);
        return;
    };
    match start(rt, stamps, crew, number, party) {
        Ok(handle) => {
            run_first(rt, stamps, crew, number.wrapping_add(1), first, second);
            let turned = turn_until_ended(rt, handle.join(rt), stamps, crew);
            first.come_back(turned);
        }
        Err(left) => {
            first.stay(left);
            run_first(rt, stamps, crew, number.wrapping_add(1), first, second);
            first.return_last();
        }
    }
}

/// Repeats the turns of each party, on a thread of its own, until all of them have ended. The
/// caller's thread turns those in rotation for which no thread can be started. It waits for others;
/// where there is no memory for what the threads share it starts none.
pub fn run_all<
    P: Party + Drop + Send + 'static,
    Q: Party + Drop + Send + 'static,
    R: Threads + Wait + Copy + Send + 'static,
>(
    rt: &R,
    alloc: Global,
    stamps: &Arc<Stamps, Global>,
    parties: Vec<P>,
    others: Vec<Q>,
) -> (Vec<P>, Vec<Q>)
    requires parties { DrawFrom ⟦<P as Party>⟧ (arc_value stamps.now) parties.items }
    requires others { DrawFrom ⟦<Q as Party>⟧ (arc_value stamps.now) others.items }
    ensures parties { HaveRun ⟦<P as Party>⟧ (arc_value stamps.now) parties.items result.0.items }
    ensures others { HaveRun ⟦<Q as Party>⟧ (arc_value stamps.now) others.items result.1.items }
{
    let Ok(crew) = Arc::new(alloc, Crew::new()) else {
        return turn_all(rt, alloc, stamps, parties, others);
    };
    let mut first = Roster::new(alloc, parties);
    let mut second = Roster::new(alloc, others);
    run_first(rt, stamps, &crew, 0, &mut first, &mut second);
    (first.into_parties(), second.into_parties())
}

/// Turns the parties in rotation on the caller's thread, until all of them have ended. It waits
/// where none has anything to do. Takes no memory.
pub fn turn_all<P: Party + Drop, Q: Party + Drop, R: Wait>(
    rt: &R,
    alloc: Global,
    stamps: &Stamps,
    parties: Vec<P>,
    others: Vec<Q>,
) -> (Vec<P>, Vec<Q>)
    requires parties { DrawFrom ⟦<P as Party>⟧ stamps.now parties.items }
    requires others { DrawFrom ⟦<Q as Party>⟧ stamps.now others.items }
    ensures parties { HaveRun ⟦<P as Party>⟧ stamps.now parties.items result.0.items }
    ensures others { HaveRun ⟦<Q as Party>⟧ stamps.now others.items result.1.items }
{
    let mut first = Roster::without_room(alloc, parties);
    let mut second = Roster::without_room(alloc, others);
    rotate(rt, stamps, &Crew::new(), &mut first, &mut second);
    (first.into_parties(), second.into_parties())
}
