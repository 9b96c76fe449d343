ghost use Rattle.std.specs.Prelude.{◌≡◌, IfOk, IfErr};
ghost use Rattle.std.specs.Arc.{arc_value};
ghost use Rattle.kv_threads.specs.Continuing.{Continues};

use crate::crew::Crew;
use crate::party::Party;
use crate::turning::turn_until_ended;
use kv_stamps::Stamps;
use std::alloc::Global;
use std::snapshot::Snapshot;
use std::sync::{Arc, Wait};
use std::thread;
use std::thread::{Promise, PromisedHandle, Threads};

/// What a thread promises of its party: it comes back as turns leave it.
#[derive(Drop)]
pub struct Back<P>(Snapshot<P>);

impl<P: Party> Promise<P> for Back<P> {
    ghost use Rattle.kv_threads.specs.Continuing.{Continues};

    ghost kept_by = { λ back party. Continues ⟦<P as Party>⟧ back.0.value party };
}

/// Makes turns until the party has ended; none where its start was refused.
fn turn_away<P: Party, R: Wait>(party: P, number: u64, rt: &R, stamps: &Stamps, crew: &Crew) -> P
    requires { P.counter party ≡ stamps.now }
    ensures { Continues ⟦<P as Party>⟧ party result }
{
    if crew.is_refused(number) {
        return party;
    }
    turn_until_ended(rt, party, stamps, crew)
}

/// Starts the party of this number on a thread of its own. Where none can be started, it comes back
/// without a turn.
pub fn start<P: Party + Drop + Send + 'static, R: Threads + Wait + Copy + Send + 'static>(
    rt: &R,
    stamps: &Arc<Stamps, Global>,
    crew: &Arc<Crew, Global>,
    number: u64,
    party: P,
) -> Result<PromisedHandle<P, Back<P>>, P>
    requires counter { P.counter party ≡ arc_value stamps.now }
    ensures ok { IfOk result (λ handle. handle.promise.0.value ≡ party) }
    ensures err { IfErr result (λ back. Continues ⟦<P as Party>⟧ party back) }
{
    let Ok(counter) = Arc::try_clone(stamps) else {
        return Err(party);
    };
    let Ok(others) = Arc::try_clone(crew) else {
        return Err(party);
    };
    let promise = Back(Snapshot::of(&party));
    let waits = *rt;
    let turns = move || -> P
        requires { P.counter party ≡ arc_value counter }
    { turn_away(party, number, &waits, &counter, &others) };
    match thread::spawn_with(rt, promise, turns) {
        Ok(handle) => Ok(handle),
        Err(refused) => {
            crew.refuse(number);
            Err((refused.value)())
        }
    }
}
