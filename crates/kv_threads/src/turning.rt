ghost use Rattle.std.specs.Prelude.{◌≡◌, true};
ghost use Rattle.kv_threads.specs.Continuing.{Continues, AllContinue, HaveEnded, DrawFrom};

use crate::crew::Crew;
use crate::party::Party;
use crate::rest::Rest;
use crate::round::Round;
use kv_ring::Turn;
use kv_stamps::Stamps;
use std::sync::Wait;

/// Makes a turn, unless the party has ended: then the round is over.
pub fn turn_one<P: Party>(party: &mut P, stamps: &Stamps) -> Round
    requires { P.counter party.old ≡ stamps.now }
    ensures continues { Continues ⟦<P as Party>⟧ party.old party.new }
    ensures over { result.over ≡ true → P.ended party.new ≡ true }
{
    if party.ended() {
        return Round::ended();
    }
    let turn = party.turn(stamps);
    Round {
        moved: !matches!(turn, Turn::Idle),
        over: false,
    }
}

/// Makes turns until the party has ended.
pub fn turn_until_ended<P: Party, R: Wait>(rt: &R, mut party: P, stamps: &Stamps, crew: &Crew) -> P
    requires { P.counter party ≡ stamps.now }
    ensures continues { Continues ⟦<P as Party>⟧ party result }
    ensures ended { P.ended result ≡ true }
{
    let mut rest = Rest::new();
    for _ in rt.forever() {
        let round = turn_one(&mut party, stamps);
        if round.over {
            rest.end(crew);
            return party;
        }
        rest.after(rt, crew, round.moved);
    }
    unreachable!()
}

/// Makes a turn of each party that has not ended.
pub fn turn_each<P: Party>(parties: &mut [P], stamps: &Stamps) -> Round
    requires { DrawFrom ⟦<P as Party>⟧ stamps.now parties.old }
    ensures continues { AllContinue ⟦<P as Party>⟧ parties.old parties.new }
    ensures over { result.over ≡ true → HaveEnded ⟦<P as Party>⟧ parties.new }
{
    let mut round = Round::ended();
    for at in 0..parties.len() {
        let one = turn_one(&mut parties[at], stamps);
        round = round.beside(one);
    }
    round
}
