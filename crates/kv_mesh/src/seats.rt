ghost use Rattle.atomic_table.specs.Seated.{table_id_coded};
ghost use Rattle.std.proofs.Props.{props};
ghost use Rattle.std.specs.Prelude.{◌≡◌, All};
ghost use Rattle.kv_stamps.specs.Seats.{new_seat};

use crate::within::take_last;
use kv_base::NoMemory;
use kv_stamps::{StampSeat, Stamps};
use std::alloc::Global;

/// A counter that began at `start`, and those of its seats, `many` in all, that nobody has taken.
#[derive(Drop)]
pub(crate) struct Seats {
    pub(crate) stamps: Stamps,
    pub(crate) start: u64,
    pub(crate) many: u32,
    pub(crate) free: Vec<StampSeat>,
    ghost unused: { All (λ seat. seat ≡ new_seat stamps start many) free.items } by { Prim.hlevel (props, table_id_coded) },
}

impl Seats {
    ghost use Rattle.std.specs.Prelude.{◌≡◌, ◌+◌, ◌<◌, ◌≤◌, ◌^◌, vec_len, IfOk};
    ghost use Rattle.kv_stamps.specs.Seats.{new_seat};

    /// A counter whose next number is `start`, 1 to 2^62, and so many seats, 1 to 24.
    pub(crate) fn new(alloc: Global, start: u64, many: u32) -> Result<Seats, NoMemory>
        requires start { (1 ≤ start) × (start ≤ 2 ^ 62) }
        requires many { (1 ≤ many) × (many ≤ 24) }
        ensures start { IfOk result (λ made. (made.start ≡ start) × (made.many ≡ many)) }
        ensures count { IfOk result (λ made. vec_len made.free ≡ many) }
    {
        let (stamps, free) = Stamps::new(alloc, start, many)?;
        Ok(Seats {
            stamps,
            start,
            many,
            free,
        })
    }

    /// Takes a seat.
    pub(crate) fn take(&mut self) -> StampSeat
        requires { 0 < vec_len self.old.free }
        ensures seat { result ≡ new_seat self.old.stamps self.old.start self.old.many }
        ensures left { vec_len self.new.free + 1 ≡ vec_len self.old.free }
        ensures same { new_seat self.new.stamps self.new.start self.new.many
            ≡ new_seat self.old.stamps self.old.start self.old.many }
    {
        take_last(&mut self.free)
    }
}
