ghost use Rattle.std.specs.Prelude.{◌≡◌, IfSome};
ghost use Rattle.std.specs.Option.{option_map};
ghost use Rattle.kv_mesh.specs.Joining.{joined_with, HasLooked};

use kv_stamps::{StampSeat, Stamps};

/// Joins a seat to those so far, if there are any.
pub(crate) fn join_next(stamps: &Stamps, joined: Option<StampSeat>, seat: StampSeat) -> StampSeat
    requires joined { IfSome joined (λ all. all.counter ≡ stamps.now) }
    requires seat { seat.counter ≡ stamps.now }
    ensures counter { result.counter ≡ stamps.now }
    ensures view { result.view ≡ joined_with (option_map (λ all. all.view) joined) seat.view }
{
    match joined {
        None => seat,
        Some(mut all) => {
            stamps.join(&mut all, seat);
            all
        }
    }
}

/// Looks at the counter with the joined seat, if there is one: with that of all parties it tells
/// where each number is.
pub(crate) fn look_with(stamps: &Stamps, joined: Option<StampSeat>)
    requires { IfSome joined (λ all. all.counter ≡ stamps.now) }
    ensures { IfSome (option_map (λ all. all.view) joined) HasLooked }
{
    if let Some(mut all) = joined {
        stamps.look(&mut all);
    }
}
