ghost use Rattle.std.specs.Prelude.{◌≡◌, ℕ, ◌≤◌, ◌==◌, [], map, count_by, IfOk};

use kv_base::NoMemory;
use kv_stamps::{StampSeat, Stamps};
use std::alloc::Global;

/// A seat, and the first number of each range that it drew.
#[derive(Drop)]
pub struct Drawer {
    seat: StampSeat,
    firsts: Vec<u64>,
    ghost noted: { firsts.items ≡ map (λ r. r.first) seat.view.drawn },
}

impl Drawer {
    /// Draws so many ranges of 1 to 3 stamps, or fewer where no stamps are left.
    pub fn draw(
        stamps: &Stamps,
        alloc: Global,
        mut seat: StampSeat,
        draws: u32,
    ) -> Result<Drawer, NoMemory>
        requires counter { seat.counter ≡ stamps.now }
        requires new { seat.view.drawn ≡ [] }
        ensures { IfOk result (λ drawer. drawer.seat.counter ≡ seat.counter) }
    {
        let mut firsts = Vec::with_capacity(alloc, draws as usize)?;
        for i in 0..draws {
            let Ok(first) = stamps.draw(&mut seat, 1 + i % 3) else {
                break;
            };
            firsts.push(first)?;
        }
        Ok(Drawer { seat, firsts })
    }

    /// Takes in what another drew.
    pub fn join(self, stamps: &Stamps, other: Drawer) -> Result<Drawer, NoMemory>
        requires counter { self.seat.counter ≡ stamps.now }
        requires other { other.seat.counter ≡ stamps.now }
        ensures { IfOk result (λ drawer. drawer.seat.counter ≡ self.seat.counter) }
    {
        let Drawer {
            mut seat,
            mut firsts,
        } = self;
        stamps.join(&mut seat, other.seat);
        firsts.extend_from_slice(other.firsts.as_slice())?;
        Ok(Drawer { seat, firsts })
    }

    /// The numbers, of which none is there twice.
    pub fn into_numbers(self, stamps: &Stamps) -> Vec<u64>
        requires { self.seat.counter ≡ stamps.now }
        ensures { (number : ℕ) → count_by (λ first. first == number) result.items ≤ 1 }
    {
        let Drawer { mut seat, firsts } = self;
        stamps.look(&mut seat);
        firsts
    }
}
