ghost use Rattle.std.specs.Prelude.{◌≡◌, ◌-◌, ◌<◌, Some, IfOk, IfErr, length};
ghost use Rattle.std.specs.List.{slice_get};
ghost use Rattle.kv_slab.specs.declared.room.Room.{Room as Kept};
ghost use Rattle.kv_slab.specs.Memory.{rooms_of};

use crate::append::append;
use crate::fault::StepFault;
use crate::parts::{EndList, StackList};
use crate::room::Room;
use kv_free::Stacks;
use std::alloc::Global;

/// A copy of the free slots and the ends.
pub fn copy_rooms(alloc: Global, stacks: &[Stacks], ends: &[u32]) -> Result<Vec<Room>, StepFault>
    requires { length stacks.now ≡ length ends.now }
    ensures ok { IfOk result (λ rooms. rooms.items ≡ rooms_of stacks.now ends.now) }
    ensures cause { IfErr result (λ fault. fault ≡ StepFault.NoMemory) }
{
    let mut rooms = Vec::new(alloc);
    for class in 0..stacks.len() {
        append(
            &mut rooms,
            Room {
                stack: stacks[class].copy(),
                end: ends[class],
            },
        )?;
    }
    Ok(rooms)
}

/// The free slots and the ends, each as a list of its own.
pub fn split_rooms(alloc: Global, rooms: &[Room]) -> Result<(StackList, EndList), StepFault>
    ensures ok { IfOk result (λ lists. rooms_of lists.0.items lists.1.items ≡ rooms.now) }
    ensures sizes { IfOk result (λ lists. (length lists.0.items ≡ length rooms.now)
        × (length lists.1.items ≡ length rooms.now)) }
    ensures cause { IfErr result (λ fault. fault ≡ StepFault.NoMemory) }
{
    let mut stacks = StackList::with_room(alloc, rooms.len())?;
    let mut ends = EndList::with_room(alloc, rooms.len())?;
    for room in rooms {
        stacks.append(room.stack.copy()).unwrap();
        ends.append(room.end).unwrap();
    }
    Ok((stacks, ends))
}

/// The slot limit less the slots of the class that are neither free nor past its end.
pub fn room_of(stacks: &[Stacks], ends: &[u32], limit: u32, class: u8) -> u32
    requires sizes { (length stacks.now ≡ 12) × (length ends.now ≡ 12) }
    requires class { class < 12 }
    ensures { (room : Kept) → slice_get (rooms_of stacks.now ends.now) class ≡ Some room
        → result ≡ limit - (room.end - room.stack.count) }
{
    let class_index = class as usize;
    let items = ends[class_index].saturating_sub(stacks[class_index].count());
    limit.saturating_sub(items)
}
