ghost use Rattle.std.specs.Prelude.{◌≡◌, ◌⊎◌, ℕ, ◌+◌, ◌^◌, ◌<◌, ◌≤◌, [], Some, All, min, vec_len};
ghost use Rattle.std.specs.Prelude.{IfOk, IfErr, OnOk};
ghost use Rattle.kv_stamps.specs.Rule.{first_view};
ghost use Rattle.kv_stamps.specs.Seats.{first_spent, new_seat};
ghost use Rattle.kv_stamps.specs.Steps.{Looks, Raises, Draws, Spends, kept_view, split_view};
ghost use Rattle.kv_stamps.specs.Steps.{joined_view, HasNoNumberTwice};

use crate::seat::StampSeat;
use crate::spent::StampsSpent;
use crate::view::{Check, Divide, Draw, Look, Origin, Raise, Rule, View};
use atomic_table::Table;
use kv_base::NoMemory;
use std::alloc::Global;
use std::marker::Model;

/// Stamps are below this.
const LIMIT: u64 = 1 << 62;

/// A counter that holds the next number. Threads share it, and step on it with their seats.
#[derive(Drop)]
pub struct Stamps {
    table: Table<(), View, Origin, Rule, Global>,
}

impl Model for Stamps {
    ghost use Rattle.std.specs.Prelude.{◌≡◌};
    ghost use Rattle.atomic_table.specs.Seated.{TableId, table_id_coded};

    ghost Value = { TableId };

    ghost coded = { table_id_coded };

    ghost view = { λ s. s.table.shared.table_id };

    ghost invariant = { λ s. s.table.shared.table_id.words ≡ 1 };
}

impl Stamps {
    // A counter at the start, and one seat with the weight of all.
    fn open(alloc: Global, start: u64, seats: u32) -> Result<(Stamps, StampSeat), NoMemory>
        requires start { (1 ≤ start) × (start ≤ 2 ^ 62) }
        requires seats { (1 ≤ seats) × (seats ≤ 24) }
        ensures counter { IfOk result (λ r. r.1.counter ≡ r.0) }
        ensures view { IfOk result (λ r.
            r.1.view ≡ first_view (record { start = start; seats = seats })) }
    {
        let origin = Origin {
            start,
            seats: u64::from(seats),
        };
        let (table, seat) = Table::of_words(alloc, &[start], &origin)?;
        Ok((Stamps { table }, StampSeat { seat, spent: None }))
    }

    /// A counter whose next number is `start`, and so many seats, each of which has seen it. The
    /// start is 1 to 2^62, the number of seats 1 to 24.
    pub fn new(alloc: Global, start: u64, seats: u32) -> Result<(Stamps, Vec<StampSeat>), NoMemory>
        requires start { (1 ≤ start) × (start ≤ 2 ^ 62) }
        requires seats { (1 ≤ seats) × (seats ≤ 24) }
        ensures count { IfOk result (λ r. vec_len r.1 ≡ seats) }
        ensures seats { IfOk result (λ r. All (λ s. s ≡ new_seat r.0 start seats) r.1.items) }
    {
        let (stamps, mut first) = Stamps::open(alloc, start, seats)?;
        let mut all = Vec::with_capacity(alloc, seats as usize)?;
        for _made in 1..seats {
            let other = stamps.split(&mut first);
            all.push(other)?;
        }
        all.push(first)?;
        Ok((stamps, all))
    }

    /// Raises the counter to `to`, at most 2^62, unless it is there or above. The seat's later
    /// draws are at least `to`; the numbers that were passed over are its gap, and nobody draws
    /// them. Takes no memory.
    pub fn raise(&self, seat: &mut StampSeat, to: u64)
        requires counter { seat.old.counter ≡ self.now }
        requires to { to ≤ 2 ^ 62 }
        ensures counter { seat.new.counter ≡ seat.old.counter }
        ensures view { (next : ℕ) × Raises to seat.old.view next seat.new.view }
    {
        let _found = self.table.shared.fetch_max::<Raise>(&mut seat.seat, 0, to);
    }

    /// Draws `n` stamps, 1 to 512, and answers the first of them. They are at least each number
    /// that the seat has seen or raised to, and no other draw gives one of them. `StampsSpent`
    /// exactly where they would pass 2^62 - 1, now or at an earlier draw of this seat, whose number
    /// it then has: the seat draws no more. Takes no memory.
    pub fn draw(&self, seat: &mut StampSeat, n: u32) -> Result<u64, StampsSpent>
        requires counter { seat.old.counter ≡ self.now }
        requires n { (1 ≤ n) × (n ≤ 512) }
        ensures counter { seat.new.counter ≡ seat.old.counter }
        ensures ok { IfOk result (λ number. Draws n seat.old.view number seat.new.view) }
        ensures unspent { OnOk result (seat.old.view.spent ≡ []) }

        // Met at an earlier draw, or now.
        ensures err { IfErr result (λ spent.
            ((first_spent seat.old.view.spent ≡ Some spent.number)
            × (seat.new.view ≡ seat.old.view))
            ⊎ ((seat.old.view.spent ≡ []) × Spends n seat.old.view spent.number seat.new.view)) }
        ensures kept { IfErr result (λ spent.
            first_spent seat.new.view.spent ≡ Some spent.number) }
        ensures limit { IfErr result (λ spent. 2 ^ 62 < spent.number + 512) }
    {
        if let Some(number) = seat.spent {
            return Err(StampsSpent { number });
        }
        let count = u64::from(n);
        let found = self
            .table
            .shared
            .fetch_add::<Draw>(&mut seat.seat, 0, count);
        if found <= LIMIT - count {
            return Ok(found);
        }
        seat.spent = Some(found);
        Err(StampsSpent { number: found })
    }

    /// The next number, or 2^62 where it is above. The seat has then seen it; one to which all
    /// others were joined knows where each number below it is. Takes no memory.
    pub fn look(&self, seat: &mut StampSeat) -> u64
        requires { seat.old.counter ≡ self.now }
        ensures counter { seat.new.counter ≡ seat.old.counter }
        ensures value { (next : ℕ) × (result ≡ min next (2 ^ 62))
            × Looks seat.old.view next seat.new.view }
    {
        let found = self.table.shared.load::<Look>(&mut seat.seat, 0);
        found.min(LIMIT)
    }

    // Splits a seat off one that has met no StampsSpent and whose weight is above 1.
    fn split(&self, seat: &mut StampSeat) -> StampSeat
        requires counter { seat.old.counter ≡ self.now }
        requires weight { 1 < seat.old.view.weight }
        requires unspent { seat.old.view.spent ≡ [] }
        ensures counter { (seat.new.counter ≡ seat.old.counter)
            × (result.counter ≡ seat.old.counter) }
        ensures kept { seat.new.view ≡ kept_view seat.old.view }
        ensures split { result.view ≡ split_view seat.old.view }
    {
        let other = self.table.shared.split_seat::<Divide>(&mut seat.seat);
        StampSeat {
            seat: other,
            spent: None,
        }
    }

    /// Joins another seat of this counter to the seat, which then has all that both drew, raised to
    /// and saw. No number is twice in it. Takes no memory.
    pub fn join(&self, seat: &mut StampSeat, other: StampSeat)
        requires counter { seat.old.counter ≡ self.now }
        requires other { other.counter ≡ self.now }
        ensures counter { seat.new.counter ≡ seat.old.counter }
        ensures view { seat.new.view ≡ joined_view seat.old.view other.view }
        ensures once { HasNoNumberTwice seat.new.view }
    {
        let StampSeat {
            seat: theirs,
            spent,
        } = other;
        self.table
            .shared
            .join_seat::<Divide>(&mut seat.seat, theirs);
        // A proof knows the rule only at a step; this one tells that no number is twice.
        self.table.shared.load::<Check>(&mut seat.seat, 0);
        if seat.spent.is_none() {
            seat.spent = spent;
        }
    }
}
