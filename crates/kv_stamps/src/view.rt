//! What the rule of the counter speaks of, and the kinds of step on it. No value of these types is
//! made but `Origin`, which the rule reads.
ghost use Rattle.std.specs.Prelude.{◌≡◌, ◌+◌, ◌^◌, ◌<◌, ◌≤◌};

use atomic_table::{Join, Play, Split, TableRule};
use std::collections::LinkedList;

/// Numbers side by side.
pub struct Range {
    /// The least of them.
    pub first: u64,
    /// How many they are.
    pub count: u64,
}

/// What a seat knows of the counter.
pub struct View {
    /// Where the counter began.
    pub start: u64,
    /// How many seats were made.
    pub seats: u64,
    /// The seat's share of these: 1, and that of each seat that was joined to it.
    pub weight: u64,
    /// The greatest number that it knows the counter to have reached.
    pub seen: u64,
    /// The greatest number that it raised the counter to.
    pub raised: u64,
    /// The ranges of stamps that it drew.
    pub drawn: LinkedList<Range>,
    /// The numbers that its raises passed over.
    pub gaps: LinkedList<Range>,
    /// The run of each StampsSpent that it met: the number, and how many stamps were asked there.
    pub spent: LinkedList<Range>,
}

/// Where a counter begins, and how many seats are made.
#[derive(Clone, Copy)]
pub struct Origin {
    /// The first number.
    pub start: u64,
    /// The number of seats.
    pub seats: u64,
}

/// The rule of the counter.
pub struct Rule;

impl TableRule<(), View, Origin> for Rule {
    ghost use Rattle.kv_stamps.specs.Rule.{PartitionsNumbers, first_view};

    ghost holds = { λ origin state. PartitionsNumbers origin state.words state.views };

    ghost first = { first_view };
}

/// A load that the seat notes.
pub struct Look;

impl Play<(), View> for Look {
    ghost use Rattle.kv_stamps.specs.Steps.{Looks};

    ghost then = { λ _ old next new. (new.1 ≡ old.1) × Looks old.0 next new.0 };
}

/// A load that the seat doesn't note: it tells that no number is twice in the seat's ranges.
pub struct Check;

impl Play<(), View> for Check {
    ghost use Rattle.kv_stamps.specs.Steps.{HasNoNumberTwice};

    ghost then = { λ _ old _ new. (new ≡ old) × HasNoNumberTwice old.0 };
}

/// A fetch_max.
pub struct Raise;

impl Play<(), View> for Raise {
    ghost use Rattle.kv_stamps.specs.Steps.{Raises};

    ghost then = { λ step old next new. (new.1 ≡ old.1) × Raises step.first old.0 next new.0 };
}

/// A fetch_add.
pub struct Draw;

impl Play<(), View> for Draw {
    ghost use Rattle.kv_stamps.specs.Steps.{Draws, Spends};

    ghost then = { λ step old next new. (new.1 ≡ old.1)
        × (next + step.first ≤ 2 ^ 62 → Draws step.first old.0 next new.0)
        × (2 ^ 62 < next + step.first → Spends step.first old.0 next new.0) };
}

/// A seat that is split off another, or joined to it.
pub struct Divide;

impl Split<View> for Divide {
    ghost use Rattle.kv_stamps.specs.Steps.{kept_view, split_view};

    ghost left = { kept_view };

    ghost right = { split_view };
}

impl Join<View> for Divide {
    ghost use Rattle.kv_stamps.specs.Rule.{left_view};
    ghost use Rattle.kv_stamps.specs.Steps.{joined_view};

    ghost both = { joined_view };

    ghost spent = { left_view };
}
