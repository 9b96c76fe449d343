ghost use Rattle.std.specs.Prelude.{◌≡◌, ◌++◌, ◌+◌, ◌≤◌, ◌^◌, length, IfOk, OnOk, [], ◌∷◌, not};
ghost use Rattle.std.specs.Prelude.{◌&&◌, count_by};
ghost use Rattle.std.specs.Str.{bytes_eq};
ghost use Rattle.kv_base.specs.declared.request.Request.TheVariants.{Put, Get, Delete};
ghost use Rattle.kv_model.specs.Batch.{answers, accepted_writes, taken_by_others, full_class};
ghost use Rattle.kv_model.specs.Batch.{reply_of, behind};
ghost use Rattle.kv_model.specs.Batch.{takes_slot};
ghost use Rattle.kv_model.specs.Oracle.{history_of, write_of, start_of, seen_of};

use crate::class::class_of;
use crate::found::{Found, items_of_class, needs_slot, takes_slot, value_after};
use crate::lasts::last_writes;
use crate::write::{Recorded, record};
use kv_base::{Bytes, NoMemory, Replies, Reply, Request};
use std::alloc::Global;

/// Answers the requests of a batch in order, and puts the writes that they accept behind the
/// others. The one error is want of memory.
pub fn answer_all(
    alloc: Global,
    found: Found<'_>,
    written: &mut Vec<Recorded>,
    base: u64,
    requests: &[Request],
) -> Result<Replies, NoMemory>
    requires stamps { base + length requests.now ≤ 2 ^ 62 }
    ensures replies { IfOk result (λ replies. replies.items ≡ answers (start_of found.entry)
        (history_of written.old.items) base requests.now) }
    ensures written { OnOk result (history_of written.new.items ≡ accepted_writes
        (start_of found.entry) (history_of written.old.items) base requests.now) }
{
    let mut replies = Replies::with_room(alloc, requests.len())?;
    for i in 0..requests.len() {
        let reply = answer(alloc, found, written, base + i as u64, &requests[i])?;
        push_reply(&mut replies, reply)?;
    }
    Ok(replies)
}

/// Puts a reply behind the others. The one error is want of memory.
fn push_reply(replies: &mut Replies, reply: Reply) -> Result<(), NoMemory>
    ensures { OnOk result (replies.new.items ≡ replies.old.items ++ reply ∷ []) }
{
    match replies.append(reply) {
        Ok(()) => Ok(()),
        Err((_, why)) => Err(why),
    }
}

/// How many keys other than this one have a last write that takes a new slot of the class.
fn taken_by_others(
    alloc: Global,
    found: Found<'_>,
    written: &[Recorded],
    key: &[u8],
    class: u8,
) -> Result<usize, NoMemory>
    ensures { IfOk result (λ count. count ≡ taken_by_others (start_of found.entry)
        (history_of written.now) key.now class) }
{
    let lasts = last_writes(alloc, written)?;
    Ok(count_others(found, &lasts, key, class))
}

/// How many of the writes are of other keys, and take a new slot of the class.
fn count_others(found: Found<'_>, lasts: &[&Recorded], key: &[u8], class: u8) -> usize
    ensures { result ≡ count_by (λ write. not (bytes_eq write.key key.now)
        && takes_slot (start_of found.entry) class write) (seen_of lasts.now) }
{
    let mut count = 0;
    for write in lasts {
        if is_of_other(found, write, key, class) {
            count += 1;
        }
    }
    count
}

/// Whether the write is of another key, and takes a new slot of the class.
fn is_of_other(found: Found<'_>, write: &Recorded, key: &[u8], class: u8) -> bool
    ensures { result ≡ (not (bytes_eq write.now.key key.now)
        && takes_slot (start_of found.entry) class (write_of write.now)) }
{
    write.key.as_slice() != key && takes_slot(found, class, write)
}

/// The class that has no slot left for this put. The one error is want of memory.
fn full_class(
    alloc: Global,
    found: Found<'_>,
    written: &[Recorded],
    key: &[u8],
    value: &[u8],
) -> Result<Option<u8>, NoMemory>
    ensures { IfOk result (λ full. full ≡ full_class (start_of found.entry)
        (history_of written.now) key.now value.now) }
{
    let class = match class_of(key.len(), value.len()) {
        None => return Ok(None),
        Some(class) => class,
    };
    if !needs_slot(found, key, class) {
        return Ok(None);
    }
    let taken = taken_by_others(alloc, found, written, key, class)?;
    if items_of_class(found, class).saturating_add(taken) >= found.limit as usize {
        Ok(Some(class))
    } else {
        Ok(None)
    }
}

/// Answers a request, and puts the write that it accepts behind the others. The one error is want
/// of memory.
pub fn answer(
    alloc: Global,
    found: Found<'_>,
    written: &mut Vec<Recorded>,
    stamp: u64,
    request: &Request,
) -> Result<Reply, NoMemory>
    ensures reply { IfOk result (λ reply. reply ≡ reply_of (start_of found.entry)
        (history_of written.old.items) stamp request.now) }
    ensures written { OnOk result (history_of written.new.items ≡ behind (start_of found.entry)
        (history_of written.old.items) stamp request.now) }
{
    match request {
        Request::Put { key, value } => {
            put(
                alloc,
                found,
                written,
                stamp,
                key.as_slice(),
                value.as_slice(),
            )
        }
        Request::Get { key } => get(alloc, found, written, stamp, key.as_slice()),
        Request::Delete { key } => delete(alloc, found, written, stamp, key.as_slice()),
        Request::Flush | Request::After { stamp: _ } => Ok(Reply::BadKey),
    }
}

/// Answers a put.
fn put(
    alloc: Global,
    found: Found<'_>,
    written: &mut Vec<Recorded>,
    stamp: u64,
    key: &[u8],
    value: &[u8],
) -> Result<Reply, NoMemory>
    ensures reply { IfOk result (λ reply. reply ≡ reply_of (start_of found.entry)
        (history_of written.old.items) stamp (Put key.now value.now)) }
    ensures written { OnOk result (history_of written.new.items ≡ behind (start_of found.entry)
        (history_of written.old.items) stamp (Put key.now value.now)) }
{
    match full_class(alloc, found, written, key, value)? {
        Some(class) => Ok(Reply::Full { class }),
        None => {
            record(alloc, written, stamp, key, Some(value))?;
            Ok(Reply::Stored { stamp })
        }
    }
}

/// Answers a get.
fn get(
    alloc: Global,
    found: Found<'_>,
    written: &[Recorded],
    stamp: u64,
    key: &[u8],
) -> Result<Reply, NoMemory>
    ensures { IfOk result (λ reply. reply ≡ reply_of (start_of found.entry)
        (history_of written.now) stamp (Get key.now)) }
{
    match value_after(found, written, key) {
        None => Ok(Reply::Missing { stamp }),
        Some(value) => Ok(Reply::Found {
            stamp,
            value: Bytes::copy(alloc, value)?,
        }),
    }
}

/// Answers a delete.
fn delete(
    alloc: Global,
    found: Found<'_>,
    written: &mut Vec<Recorded>,
    stamp: u64,
    key: &[u8],
) -> Result<Reply, NoMemory>
    ensures reply { IfOk result (λ reply. reply ≡ reply_of (start_of found.entry)
        (history_of written.old.items) stamp (Delete key.now)) }
    ensures written { OnOk result (history_of written.new.items ≡ behind (start_of found.entry)
        (history_of written.old.items) stamp (Delete key.now)) }
{
    let has = value_after(found, written, key).is_some();
    record(alloc, written, stamp, key, None)?;
    if has {
        Ok(Reply::Removed { stamp })
    } else {
        Ok(Reply::Absent { stamp })
    }
}
