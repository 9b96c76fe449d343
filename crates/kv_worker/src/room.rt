ghost use Rattle.std.specs.Prelude.{◌≡◌, ◌≤◌, ℕ, List, IfSome, slice_index};
ghost use Rattle.kv_model.specs.History.{Write};
ghost use Rattle.kv_model.specs.Slots.{is_class};
ghost use Rattle.kv_worker.specs.Answering.{StandsAt, slot_for, is_full_slot};
ghost use Rattle.kv_worker.specs.Course.{Course, IsSlab, slots_of};
ghost use Rattle.kv_worker.specs.Worker.{start_of};

use crate::overlay::Last;
use crate::pass::Pass;
use kv_disk::Disk;
use kv_index::Index;
use kv_slab::Slabs;

/// The class, where an item of the key in it takes a new slot.
pub fn slot_for<D: Disk, I: Index>(slabs: &Slabs<D, I>, key: &[u8], class: u8) -> Option<u8>
    ensures { result
        ≡ slot_for (start_of ⟦<D as Disk>⟧ ⟦<I as Index>⟧ slabs.now) key.now class }
{
    if class <= 7 && is_kept_in(slabs, key, class) {
        None
    } else {
        Some(class)
    }
}

/// Whether the key is kept in the class.
fn is_kept_in<D: Disk, I: Index>(slabs: &Slabs<D, I>, key: &[u8], class: u8) -> bool
    ensures { result ≡ is_class
        ((start_of ⟦<D as Disk>⟧ ⟦<I as Index>⟧ slabs.now).class key.now) class }
{
    match slabs.class_of_key(key) {
        Some(kept) => kept == class,
        None => false,
    }
}

/// Whether a new slot is needed and none is left.
pub fn is_full<D: Disk, I: Index>(
    slabs: &Slabs<D, I>,
    pass: &Pass<'_>,
    before: Option<Last>,
    slot: Option<u8>,
) -> bool
    requires slab { IfSome slot IsSlab }
    requires some { IfSome slot
        (λ class. slots_of before class ≤ slice_index pass.now.taken class) }
    ensures { (course : Course) (writes : List Write) (key : List ℕ)
        → StandsAt course writes pass.now (start_of ⟦<D as Disk>⟧ ⟦<I as Index>⟧ slabs.now) key
        before
        → result ≡ is_full_slot (start_of ⟦<D as Disk>⟧ ⟦<I as Index>⟧ slabs.now) writes key slot }
{
    match slot {
        Some(class) => slabs.room(class) <= pass.taken_beside(before, class),
        None => false,
    }
}
