ghost use Rattle.std.specs.Prelude.{◌≡◌, ℕ, ◌+◌, ◌-◌, ◌^◌, ◌<◌, ◌≤◌, OnOk, Option, IfSome, length};
ghost use Rattle.std.specs.Prelude.{slice_index};
ghost use Rattle.std.specs.FinMap as finite;
ghost use Rattle.kv_recover.specs.Found.{is_older, with_newer};
ghost use Rattle.kv_recover.specs.Placed.{HasCounts, one_of};

use kv_base::{Bytes, NoMemory};
use kv_index::{Entry, Index};
use std::alloc::Global;

/// The items that were found so far.
#[derive(Drop)]
pub struct Items<I> {
    /// The entry of each key.
    pub index: I,
    /// The number of entries of each class, by its number.
    pub counts: [u32; 12],
}

impl<I: Index> Items<I> {
    /// No items yet, in an index that is empty.
    pub fn new(index: I) -> Items<I>
        requires none { I.entries index ≡ finite.empty }
        ensures index { result.index ≡ index }
        ensures counted { HasCounts (I.entries result.index) result.counts }
    {
        Items {
            index,
            counts: [0; 12],
        }
    }
}

/// Gives the key this entry, unless it has one whose stamp isn't less. The one error is want of
/// memory.
pub fn take_item<I: Index>(
    alloc: Global,
    items: &mut Items<I>,
    key: &[u8],
    entry: Entry,
) -> Result<(), NoMemory>
    requires class { entry.place.class < 12 }
    requires counted { HasCounts (I.entries items.old.index) items.old.counts }
    ensures entries { OnOk result (I.entries items.new.index
        ≡ with_newer (I.entries items.old.index) key.now entry) }
    ensures counted { OnOk result (HasCounts (I.entries items.new.index) items.new.counts) }
{
    let found = items.index.find(key);
    if !is_older(found, entry.stamp) {
        return Ok(());
    }
    let key = Bytes::copy(alloc, key)?;
    items.index.reserve(1)?;
    if items.index.len() == u32::MAX {
        return Err(NoMemory);
    }
    items.index.set(key, entry);
    drop_one(&mut items.counts, found);
    add_one(&mut items.counts, entry.place.class);
    Ok(())
}

/// Whether there is no entry, or one with a lesser stamp.
fn is_older(found: Option<Entry>, stamp: u64) -> bool
    ensures { result ≡ is_older found stamp }
{
    match found {
        None => true,
        Some(entry) => entry.stamp < stamp,
    }
}

/// Counts one entry of the class less, if there was one.
fn drop_one(counts: &mut [u32; 12], from: Option<Entry>)
    requires class { IfSome from (λ entry. entry.place.class < 12) }
    requires some { IfSome from (λ entry. 0 < slice_index counts.old entry.place.class) }
    ensures size { length counts.new ≡ 12 }
    ensures value { (class : ℕ) → class < 12 → slice_index counts.new class + one_of from class
        ≡ slice_index counts.old class }
{
    if let Some(entry) = from {
        let class = entry.place.class as usize;
        counts[class] -= 1;
    }
}

/// Counts one entry of the class more.
fn add_one(counts: &mut [u32; 12], class: u8)
    requires class { class < 12 }
    requires room { slice_index counts.old class < 2 ^ 32 - 1 }
    ensures size { length counts.new ≡ 12 }
    ensures here { slice_index counts.new class ≡ slice_index counts.old class + 1 }
    ensures others { (c : ℕ) → (c ≡ class → ⊥) → slice_index counts.new c
        ≡ slice_index counts.old c }
{
    counts[class as usize] += 1;
}
