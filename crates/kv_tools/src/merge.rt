ghost use Rattle.std.specs.Prelude.{◌≡◌, ◌-◌, length, map, slice_get, IfOk};
ghost use Rattle.kv_tools.specs.Merged.{IsMerged, TakesGreatest, is_last_greater, listed_of};

use kv_base::NoMemory;
use kv_recover::{Kept, KeptList};
use std::alloc::Global;

/// An item that is kept on the disk of a worker, without its value.
#[derive(Debug, Drop)]
pub struct Listed {
    /// The worker.
    pub worker: u32,
    /// The item.
    pub kept: Kept,
}

/// Whether of two lists by rising key the first one has the item with the greatest key.
fn is_last_greater(listed: &[Listed], list: &[Kept]) -> bool
    ensures { result ≡ is_last_greater (slice_get listed.now (length listed.now - 1))
        (slice_get list.now (length list.now - 1)) }
{
    match (listed.last(), list.last()) {
        (None, _) => false,
        (Some(_), None) => true,
        (Some(one), Some(other)) => other.key.as_slice().cmp(one.kept.key.as_slice()).is_le(),
    }
}

/// Takes the item with the greatest key out of two lists by rising key, the second one of a worker.
fn take_greatest(listed: &mut Vec<Listed>, worker: u32, list: &mut KeptList) -> Option<Listed>
    ensures { TakesGreatest listed.old.items (map (listed_of worker) list.old.items)
        listed.new.items (map (listed_of worker) list.new.items) result }
{
    if is_last_greater(listed.as_slice(), list.as_slice()) {
        listed.pop()
    } else {
        let kept = list.take_last()?;
        Some(Listed { worker, kept })
    }
}

/// Merges the items of a worker into those of other workers: all by rising key.
pub fn merge(
    alloc: Global,
    mut listed: Vec<Listed>,
    worker: u32,
    mut list: KeptList,
) -> Result<Vec<Listed>, NoMemory>
    ensures { IfOk result (λ merged. IsMerged listed.items (map (listed_of worker) list.items)
        merged.items) }
{
    let mut merged = Vec::with_capacity(alloc, listed.len() + list.as_slice().len())?;
    while let Some(greatest) = take_greatest(&mut listed, worker, &mut list) {
        merged.push(greatest)?;
    }
    merged.reverse();
    Ok(merged)
}
