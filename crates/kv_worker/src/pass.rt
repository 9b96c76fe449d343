ghost use Rattle.std.specs.Prelude.{◌≡◌, ◌+◌, ◌-◌, ◌≤◌, ◌<◌, ◌^◌, ℕ, List, None, Some, IfOk, IfSome};
ghost use Rattle.std.specs.Prelude.{OnOk, slice_index};
ghost use Rattle.kv_worker.specs.Overlay.{last_of};
ghost use Rattle.kv_worker.specs.Course.{IsSlab, CanAccept, GoesOn, slots_of};

use crate::overlay::{Last, Overlay};
use kv_base::NoMemory;
use std::alloc::Global;

/// What a pass over a batch keeps: each key's last accepted write, and how many new slots of each
/// class, 0 to 11, these take.
#[derive(Drop)]
pub struct Pass<'a> {
    pub overlay: Overlay<'a>,
    pub taken: [u32; 12],
}

impl<'a> Pass<'a> {
    /// Before the first of so many requests. The one error is want of memory.
    pub fn new(alloc: Global, requests: usize) -> Result<Pass<'a>, NoMemory>
        ensures lasts { IfOk result (λ pass. (key : List ℕ) → last_of pass.overlay key ≡ None) }
        ensures taken { IfOk result (λ pass. (class : ℕ) → slice_index pass.taken class ≡ 0) }
    {
        let overlay = Overlay::with_room(alloc, requests)?;
        Ok(Pass {
            overlay,
            taken: [0; 12],
        })
    }

    /// How many new slots of the class are taken, but for that of this last write.
    pub fn taken_beside(&self, before: Option<Last>, class: u8) -> u32
        requires slab { IsSlab class }
        requires some { slots_of before class ≤ slice_index self.now.taken class }
        ensures { result + slots_of before class ≡ slice_index self.now.taken class }
    {
        self.taken[class as usize] - own_slots(before, class)
    }

    /// Takes the key's next write in, behind its last one before, where there is one. The one error
    /// is want of memory, and then the batch is refused.
    pub fn accept(
        &mut self,
        key: &'a [u8],
        before: Option<Last>,
        last: Last,
    ) -> Result<(), NoMemory>
        requires { CanAccept self.old key.now before last }
        ensures { OnOk result (GoesOn self.old self.new key.now before last) }
    {
        give_back(&mut self.taken, before);
        take(&mut self.taken, last);
        self.overlay.set(key, last)
    }
}

/// How many new slots of the class the last write takes, where there is one.
fn own_slots(last: Option<Last>, class: u8) -> u32
    ensures { result ≡ slots_of last class }
{
    match last {
        Some(
            Last {
                slot: Some(own),
                ..
            },
        ) if own == class => 1,
        _ => 0,
    }
}

/// The slots of a last write that is replaced are free again.
fn give_back(taken: &mut [u32; 12], last: Option<Last>)
    requires slab { IfSome last (λ l. IfSome l.slot IsSlab) }
    requires some { (class : ℕ) → class < 12 → slots_of last class ≤ slice_index taken.old class }
    ensures { (class : ℕ) → class < 12 → slice_index taken.new class + slots_of last class
        ≡ slice_index taken.old class }
{
    if let Some(last) = last {
        if let Some(class) = last.slot {
            taken[class as usize] -= 1;
        }
    }
}

/// The slot of a new last write is taken.
fn take(taken: &mut [u32; 12], last: Last)
    requires slab { IfSome last.slot IsSlab }
    requires room { (class : ℕ) → class < 12 → slice_index taken.old class < 2 ^ 32 - 1 }
    ensures { (class : ℕ) → class < 12 → slice_index taken.new class
        ≡ slice_index taken.old class + slots_of (Some last) class }
{
    if let Some(class) = last.slot {
        taken[class as usize] += 1;
    }
}
