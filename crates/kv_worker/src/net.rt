ghost use Rattle.std.specs.Prelude.{◌≡◌, ◌+◌, ◌≤◌, ◌^◌, ◌++◌, ℕ, List, [], length, None, Some, IfOk};
ghost use Rattle.std.specs.Prelude.{OnOk, option_map, option_to_list};
ghost use Rattle.kv_model.specs.Batch.{accepted_writes, last_write, net};
ghost use Rattle.kv_model.specs.History.{Write};
ghost use Rattle.kv_worker.specs.Batches.{requests_in};
ghost use Rattle.kv_worker.specs.Course.{Course, Follows, course_of};
ghost use Rattle.kv_worker.specs.Net.{change_for, has_stamp, write_of, writes_of};
ghost use Rattle.kv_worker.specs.Worker.{start_of};

use crate::append::{append, with_room};
use crate::pass::Pass;
use kv_base::{Bytes, NoMemory, Request};
use kv_disk::Disk;
use kv_index::Index;
use kv_ring::Task;
use kv_slab::{Change, Slabs};
use std::alloc::Global;

/// Whether the request's write is the last of its key.
fn is_last(pass: &Pass<'_>, key: &[u8], task: u16) -> bool
    ensures { (course : Course) (writes : List Write) → Follows course writes pass.now
        → result ≡ has_stamp (last_write writes key.now) (course.base + task) }
{
    match pass.overlay.find(key) {
        Some(last) => last.task == task,
        None => false,
    }
}

/// A change of the key. The one error is want of memory.
fn change(
    alloc: Global,
    key: &[u8],
    stamp: u64,
    value: Option<Bytes>,
) -> Result<Option<Change>, NoMemory>
    ensures { IfOk result (λ change. option_map write_of change ≡ Some (record {
      stamp = stamp;
      key = key.now;
      value = value;
    })) }
{
    let key = Bytes::copy(alloc, key)?;
    Ok(Some(Change { key, stamp, value }))
}

/// The change that the request makes. `None` exactly where it makes none. The one error is want of
/// memory.
fn change_for<D: Disk, I: Index>(
    alloc: Global,
    slabs: &Slabs<D, I>,
    pass: &Pass<'_>,
    request: &Request,
    task: u16,
    stamp: u64,
) -> Result<Option<Change>, NoMemory>
    ensures { IfOk result (λ change. (course : Course) (writes : List Write)
        → Follows course writes pass.now
        → course.start ≡ start_of ⟦<D as Disk>⟧ ⟦<I as Index>⟧ slabs.now
        → stamp ≡ course.base + task
        → option_map write_of change ≡ change_for course.start writes request.now stamp) }
{
    match request {
        Request::Put { key, value } => {
            if !is_last(pass, key.as_slice(), task) {
                return Ok(None);
            }
            let value = Bytes::copy(alloc, value.as_slice())?;
            change(alloc, key.as_slice(), stamp, Some(value))
        }
        Request::Delete { key } => {
            if !is_last(pass, key.as_slice(), task)
                || slabs.class_of_key(key.as_slice()).is_none()
            {
                return Ok(None);
            }
            change(alloc, key.as_slice(), stamp, None)
        }
        _ => Ok(None),
    }
}

/// Appends the change, where there is one. The one error is want of memory.
fn add(changes: &mut Vec<Change>, change: Option<Change>) -> Result<(), NoMemory>
    ensures { OnOk result (writes_of changes.new.items ≡ writes_of changes.old.items
        ++ option_to_list (option_map write_of change)) }
{
    match change {
        Some(change) => append(changes, change),
        None => Ok(()),
    }
}

/// What of the batch goes to disk, in the order of the stamps. The one error is want of memory.
pub fn net_changes<D: Disk, I: Index>(
    alloc: Global,
    slabs: &Slabs<D, I>,
    pass: &Pass<'_>,
    tasks: &[(u32, Task)],
    base: u64,
) -> Result<Vec<Change>, NoMemory>
    requires follows { Follows (course_of (start_of ⟦<D as Disk>⟧ ⟦<I as Index>⟧ slabs.now)
        (requests_in tasks.now) base) (accepted_writes
        (start_of ⟦<D as Disk>⟧ ⟦<I as Index>⟧ slabs.now) [] base (requests_in tasks.now)) pass.now }
    requires few { length tasks.now ≤ 512 }
    requires stamps { base + length tasks.now ≤ 2 ^ 62 }
    ensures { IfOk result (λ changes. writes_of changes.items
        ≡ net (start_of ⟦<D as Disk>⟧ ⟦<I as Index>⟧ slabs.now) (accepted_writes
        (start_of ⟦<D as Disk>⟧ ⟦<I as Index>⟧ slabs.now) [] base (requests_in tasks.now))) }
{
    let mut changes = with_room(alloc, pass.overlay.keys())?;
    let mut task: u16 = 0;
    for item in tasks {
        let stamp = base + u64::from(task);
        let change = change_for(alloc, slabs, pass, &item.1.request, task, stamp)?;
        add(&mut changes, change)?;
        task += 1;
    }
    Ok(changes)
}
