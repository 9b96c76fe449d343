ghost use Rattle.std.specs.Prelude.{◌≡◌, ◌++◌, [], ◌∷◌, IfOk, OnOk, filter};
ghost use Rattle.kv_model.specs.Batch.{last_writes, changes_something, net};
ghost use Rattle.kv_model.specs.Oracle.{history_of, write_of, start_of, seen_of};

use crate::found::{Found, last_write, value_before};
use crate::latest::value_of;
use crate::write::{Recorded, record};
use kv_base::NoMemory;
use std::alloc::Global;

/// Of each key its last write, in their order. The one error is want of memory.
pub fn last_writes(alloc: Global, written: &[Recorded]) -> Result<Vec<&Recorded>, NoMemory>
    ensures { IfOk result (λ lasts. seen_of lasts.items ≡ last_writes (history_of written.now)) }
{
    let mut lasts = Vec::new(alloc);
    for i in 0..written.len() {
        keep_last(&mut lasts, &written[i], &written[i + 1..])?;
    }
    Ok(lasts)
}

/// Keeps the write if it is the last one of its key. The one error is want of memory.
fn keep_last<'a>(
    lasts: &mut Vec<&'a Recorded>,
    write: &'a Recorded,
    later: &[Recorded],
) -> Result<(), NoMemory>
    ensures { OnOk result (seen_of lasts.new.items ++ last_writes (history_of later.now)
        ≡ seen_of lasts.old.items ++ last_writes (write_of write.now ∷ history_of later.now)) }
{
    if last_write(later, write.key.as_slice()).is_some() {
        return Ok(());
    }
    lasts.push(write)?;
    Ok(())
}

/// What goes to disk of these writes of a batch. The one error is want of memory.
pub fn net(alloc: Global, found: Found<'_>, written: &[Recorded]) -> Result<Vec<Recorded>, NoMemory>
    ensures { IfOk result (λ changes. history_of changes.items ≡ net (start_of found.entry)
        (history_of written.now)) }
{
    let lasts = last_writes(alloc, written)?;
    let mut changes = Vec::new(alloc);
    for write in &lasts {
        keep_change(alloc, found, &mut changes, write)?;
    }
    Ok(changes)
}

/// Keeps a copy of the write if it changes something. The one error is want of memory.
fn keep_change(
    alloc: Global,
    found: Found<'_>,
    changes: &mut Vec<Recorded>,
    write: &Recorded,
) -> Result<(), NoMemory>
    ensures { OnOk result (history_of changes.new.items ≡ history_of changes.old.items
        ++ filter (changes_something (start_of found.entry)) (write_of write.now ∷ [])) }
{
    let key = write.key.as_slice();
    let value = value_of(Some(write));
    if value.is_none() && value_before(found, key).is_none() {
        return Ok(());
    }
    record(alloc, changes, write.stamp, key, value)
}
