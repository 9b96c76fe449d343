ghost use Rattle.std.specs.Prelude.{◌≡◌, ℕ, ◌+◌, ◌-◌, ◌^◌, ◌<◌, ◌≤◌, ◌↔◌, ◌⊎◌, ◌∷◌, Option, List};
ghost use Rattle.std.specs.Prelude.{None, Some};
ghost use Rattle.std.specs.Prelude.{IsTrue, IfOk, IfSome, IsSome, OnOk, MatchOption};
ghost use Rattle.std.specs.Prelude.{take, drop};
ghost use Rattle.std.specs.List.{slice_get};
ghost use Rattle.kv_model.specs.Layout.{all_classes, slot_size};
ghost use Rattle.kv_model.specs.Slots.{Tombstone, read_small, read_large};
ghost use Rattle.kv_model.specs.Reading.{slot_at};
ghost use Rattle.kv_index.specs.declared.entry.Entry.{Entry as Entered};
ghost use Rattle.kv_slab.specs.Moves.{IsSlabPlace};
ghost use Rattle.kv_disk.specs.Steps.{ReadsAtMost};
ghost use Rattle.kv_slab.specs.Fault.{StepCounted};
ghost use Rattle.kv_slab.specs.Rooms.{Free, Rooms, IsRoom, AreRooms, AreLinked, link_at};
ghost use Rattle.kv_slab.specs.Rooms.{slot_class};
ghost use Rattle.kv_slab.specs.Assigned.{HasTaken, Takes, AreEnds};
ghost use Rattle.kv_slab.specs.Memory.{HasLength, HasSpace, HaveLengths, new_in};

use crate::fault::StepFault;
use crate::read::{place_spot, read_page};
use crate::room::Room;
use kv_base::Place;
use kv_cache::Cached;
use kv_disk::Disk;
use kv_index::Entry;
use kv_slot::{Slot, link_of, read_slot};

const MOST_SLOTS: u32 = 1 << 24;

/// The most numbers of a list that stand in memory.
const KEPT: u32 = 64;

/// The link of the tombstone in the slot, `None` where there is no tombstone.
fn link_in(page: &[u8; 4096], class: u8, offset: u32) -> Option<u32>
    requires class { (1 ≤ class) × (class ≤ 7) }
    requires within { offset + slot_size class ≤ 4096 }
    ensures { (stamp : ℕ) (link : Option ℕ) → read_small all_classes class
        (take (slot_size class) (drop offset page.now)) ≡ Tombstone stamp link → result ≡ link }
{
    match read_slot(page, class, offset) {
        Slot::Tombstone { link, .. } => link,
        _ => None,
    }
}

/// The link of the tombstone in the slot at the offset, of a large slot given its first page.
fn link_there(page: &[u8; 4096], class: u8, offset: u32) -> Option<u32>
    requires class { (1 ≤ class) × (class ≤ 11) }
    requires within { class ≤ 7 → offset + slot_size class ≤ 4096 }
    requires large { 8 ≤ class → offset ≡ 0 }
    ensures small { class ≤ 7 → (stamp : ℕ) (link : Option ℕ) → read_small all_classes class
        (take (slot_size class) (drop offset page.now)) ≡ Tombstone stamp link → result ≡ link }
    ensures large { 8 ≤ class → (stamp : ℕ) (link : Option ℕ) (later : List (List ℕ))
        → read_large all_classes class (page.now ∷ later) ≡ Tombstone stamp link
        → result ≡ link }
{
    if class <= 7 {
        link_in(page, class, offset)
    } else {
        link_of(page, class, offset)
    }
}

/// The link to read before the last slot of a list is taken: there is one where the list has more
/// than 64. A slot without it is answered by `NoMemory`.
fn link_to_take<D: Disk>(
    disk: &mut Cached<D>,
    class: u8,
    slot: u32,
    count: u32,
) -> Result<Option<u32>, StepFault>
    requires class { (1 ≤ class) × (class ≤ 11) }
    requires slot { slot < 2 ^ 24 }
    ensures reads { ReadsAtMost ⟦<D as Disk>⟧ 1 disk.old.disk disk.new.disk }
    ensures some { IfOk result (λ link. IsSome link ↔ (64 < count)) }
    ensures small { IfOk result (λ link. IfSome link (λ other. other < 2 ^ 24)) }
    ensures link { IsTrue D.tells → 64 < count → IfOk result (λ link. (stamp : ℕ)
        (there : Option ℕ) → slot_at all_classes (D.seen disk.old.disk) class slot
        ≡ Tombstone stamp there → link ≡ there) }
    ensures cause { StepCounted (D.faults disk.old.disk) (D.faults disk.new.disk) result }
{
    if count <= KEPT {
        return Ok(None);
    }
    let (number, offset) = place_spot(Place { class, slot });
    let mut page = [0; 4096];
    read_page(disk, class, number, &mut page)?;
    match link_there(&page, class, offset) {
        Some(link) if link < MOST_SLOTS => Ok(Some(link)),
        _ => Err(StepFault::NoMemory),
    }
}

/// Takes the last free slot of the class, and where there is none the slot at its end.
fn take_slot<D: Disk>(disk: &mut Cached<D>, class: u8, room: &mut Room) -> Result<u32, StepFault>
    requires class { (1 ≤ class) × (class ≤ 11) }
    requires end { room.old.end ≤ 2 ^ 24 }
    requires space { room.old.stack.count ≡ 0 → room.old.end < 2 ^ 24 }
    ensures reads { ReadsAtMost ⟦<D as Disk>⟧ 1 disk.old.disk disk.new.disk }
    ensures small { IfOk result (λ slot. slot < 2 ^ 24) }
    ensures end { room.new.end ≤ 2 ^ 24 }
    ensures counted { OnOk result (HasLength 1 0 room.old room.new) }
    ensures taken { IsTrue D.tells → IfOk result (λ slot. (old : Free) → IsRoom room.old old
        → ((j s : ℕ) → slice_get old.list j ≡ Some s → (stamp : ℕ)
        × (slot_at all_classes (D.seen disk.old.disk) class s
        ≡ Tombstone stamp (link_at old.list j)))
        → (new : Free) × IsRoom room.new new × HasTaken slot old new) }
    ensures cause { StepCounted (D.faults disk.old.disk) (D.faults disk.new.disk) result }
{
    match room.stack.last() {
        Some(slot) => {
            let link = link_to_take(disk, class, slot, room.stack.count())?;
            Ok(room.stack.take(link))
        }
        None => Ok(take_end(room)),
    }
}

/// Takes the slot at the end.
fn take_end(room: &mut Room) -> u32
    requires { room.old.end < 2 ^ 24 }
    ensures slot { result ≡ room.old.end }
    ensures room { room.new ≡ record room.old { end = room.old.end + 1 } }
{
    let slot = room.end;
    room.end = slot + 1;
    slot
}

/// The place of the key's entry, where an item of this class stays there.
fn place_kept(from: Option<Entry>, class: u8) -> Option<Place>
    requires class { (1 ≤ class) × (class ≤ 11) }
    ensures { MatchOption result (slot_class from (Some class) ≡ Some class)
        (λ place. (slot_class from (Some class) ≡ None) × (entry : Entered)
        × (from ≡ Some entry) × (place ≡ entry.place)) }
{
    match from {
        Some(entry) => {
            if entry.place.class == class && class <= 7 {
                Some(entry.place)
            } else {
                None
            }
        }
        None => None,
    }
}

/// The place for an item of this class: that of its key's entry, or a slot that is taken.
pub fn place_for<D: Disk>(
    disk: &mut Cached<D>,
    from: Option<Entry>,
    class: u8,
    rooms: &mut Vec<Room>,
) -> Result<Place, StepFault>
    requires class { (1 ≤ class) × (class ≤ 11) }
    requires from { IfSome from (λ entry. IsSlabPlace entry.place) }
    requires ends { AreEnds rooms.old.items }
    requires space { HasSpace (slot_class from (Some class)) rooms.old.items }
    ensures reads { ReadsAtMost ⟦<D as Disk>⟧ 1 disk.old.disk disk.new.disk }
    ensures place { IfOk result (λ place. IsSlabPlace place × (place.class ≡ class)) }
    ensures ends { AreEnds rooms.new.items }
    ensures counted { OnOk result (HaveLengths (new_in (slot_class from (Some class))) (λ _. 0)
        rooms.old.items rooms.new.items) }
    ensures kept { slot_class from (Some class) ≡ None → IfOk result (λ place. (entry : Entered)
        × (from ≡ Some entry) × (place ≡ entry.place)) }
    ensures goes { IsTrue D.tells → IfOk result (λ place. (old : Rooms)
        → AreRooms rooms.old.items old → AreLinked (slot_at all_classes (D.seen disk.old.disk)) old
        → (new : Rooms) × AreRooms rooms.new.items new
        × (((slot_class from (Some class) ≡ None) × (new ≡ old)
        × (entry : Entered) × (from ≡ Some entry) × (place ≡ entry.place))
        ⊎ ((slot_class from (Some class) ≡ Some class) × Takes class place.slot old new))) }
    ensures cause { StepCounted (D.faults disk.old.disk) (D.faults disk.new.disk) result }
{
    match place_kept(from, class) {
        Some(place) => Ok(place),
        None => {
            let class_index = class as usize;
            let slot = take_slot(disk, class, &mut rooms[class_index])?;
            Ok(Place { class, slot })
        }
    }
}
