ghost use Rattle.std.specs.Prelude.{◌≡◌, ◌++◌, [], ◌∷◌, OnOk, IfOk};
ghost use Rattle.kv_recover.specs.Listed.{IsLeast, MayTakeLeast, AreListed};

use kv_base::{Bytes, NoMemory, Place, ReservedList};
use kv_index::Index;
use std::alloc::Global;

/// An item that is kept on a disk, without its value.
#[derive(Debug, Drop)]
pub struct Kept {
    /// The key, 1 to 255 bytes.
    pub key: Bytes,
    /// The stamp of its write.
    pub stamp: u64,
    /// Where it stands.
    pub place: Place,
}

/// Items that are kept on a disk.
pub type KeptList = ReservedList<Kept>;

/// The entry with the least key.
fn least_of<I: Index>(alloc: Global, index: &I) -> Result<Option<Kept>, NoMemory>
    ensures { IfOk result (λ least. IsLeast (I.entries index.now) least) }
{
    match index.next_at_or_after(&[]) {
        None => Ok(None),
        Some((key, entry)) => Ok(Some(Kept {
            key: Bytes::copy(alloc, key)?,
            stamp: entry.stamp,
            place: entry.place,
        })),
    }
}

/// Appends an item.
fn append(list: &mut KeptList, kept: Kept) -> Result<(), NoMemory>
    ensures { OnOk result (list.new.items ≡ list.old.items ++ kept ∷ []) }
{
    match list.append(kept) {
        Ok(()) => Ok(()),
        Err((_, no_memory)) => Err(no_memory),
    }
}

/// Takes the entry with the least key out of the index and appends it to the list. Whether there was
/// one.
fn take_least<I: Index>(alloc: Global, index: &mut I, list: &mut KeptList) -> Result<bool, NoMemory>
    ensures { IfOk result (λ more. MayTakeLeast more (I.entries index.old) (I.entries index.new)
        list.old.items list.new.items) }
{
    match least_of(alloc, index)? {
        None => Ok(false),
        Some(least) => {
            index.remove(least.key.as_slice());
            append(list, least)?;
            Ok(true)
        }
    }
}

/// Empties the index into a list of its entries by rising key.
pub fn list_all<I: Index>(alloc: Global, index: &mut I) -> Result<KeptList, NoMemory>
    ensures { IfOk result (λ list. AreListed (I.entries index.old) list.items) }
{
    let mut list = ReservedList::with_room(alloc, index.len() as usize)?;
    let mut more = true;
    while more {
        more = take_least(alloc, index, &mut list)?;
    }
    Ok(list)
}
