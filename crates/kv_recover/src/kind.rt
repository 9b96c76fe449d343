ghost use Rattle.std.specs.Prelude.{◌≡◌, ◌+◌, ◌-◌, ◌^◌, ◌<◌, ◌≤◌, List, ℕ};
ghost use Rattle.kv_model.specs.Slots.{Item};
ghost use Rattle.kv_slot.specs.Views.{what_stands};
ghost use Rattle.kv_recover.specs.Kinds.{kind_at, with_one, sum_of};
ghost use Rattle.kv_recover.specs.Large.{slot_from};

use crate::share::Share;
use kv_base::{Place, ReservedList, owner};
use kv_index::Index;
use kv_slot::Slot;

/// How many slots of a class there are of each kind, below its end.
#[derive(Clone, Copy, Debug, PartialEq, Eq)]
pub struct ClassCount {
    /// One past the last slot that has a byte other than zero.
    pub end: u32,
    /// Items that are kept.
    pub kept: u32,
    /// Items of this worker's keys that aren't kept.
    pub stale: u32,
    /// Items of other workers' keys.
    pub foreign: u32,
    /// Tombstones.
    pub tomb: u32,
    /// Slots that were never used.
    pub never: u32,
    /// Items of several pages of which a later page has another stamp.
    pub torn: u32,
    /// Slots with anything else.
    pub bad: u32,
}

/// The counts of the classes 1 to 11, in order.
pub type Classes = ReservedList<ClassCount>;

/// What stands on a disk.
#[derive(Debug, Drop)]
pub struct Survey {
    /// Whether no store was ever made on it.
    pub fresh: bool,
    /// The greatest number at the head of a page of a slot, 0 where there is none.
    pub floor: u64,
    /// The number of keys, of each of which an item is kept.
    pub keys: u32,
    /// How many slots there are of each kind.
    pub classes: Classes,
}

/// What a slot is to a survey.
#[derive(Clone, Copy, Debug, PartialEq, Eq)]
pub enum Kind {
    /// The item that is kept of its key.
    Kept,
    /// Another item of a key of this worker.
    Stale,
    /// An item of another worker's key.
    Foreign,
    /// A tombstone.
    Tomb,
    /// Nothing.
    Never,
    /// An item that was written in part.
    Torn,
    /// Anything else.
    Bad,
}

/// The kind of a slot in which this stands.
pub fn kind_of<I: Index>(index: &I, share: Share, slot: Slot<'_>, place: Place) -> Kind
    requires { (1 ≤ share.workers) × (share.workers ≤ 16) }
    ensures { result ≡ kind_at (I.entries index.now) share.worker share.workers place.class
        place.slot (what_stands slot.entry) }
{
    match slot {
        Slot::Never { .. } => Kind::Never,
        Slot::Item { key, .. } => item_kind(index, share, key, place),
        Slot::Tombstone { .. } => Kind::Tomb,
        Slot::Bad { .. } => Kind::Bad,
    }
}

/// The kind of an item with this key.
fn item_kind<I: Index>(index: &I, share: Share, key: &[u8], place: Place) -> Kind
    requires { (1 ≤ share.workers) × (share.workers ≤ 16) }
    ensures { (stamp : ℕ) (value : List ℕ) → result ≡ kind_at (I.entries index.now) share.worker
        share.workers place.class place.slot (Item stamp key.now value) }
{
    if owner(key, share.workers) != share.worker {
        return Kind::Foreign;
    }
    match index.find(key) {
        Some(entry) if entry.place.class == place.class && entry.place.slot == place.slot => {
            Kind::Kept
        }
        _ => Kind::Stale,
    }
}

/// The kind of a slot of several pages, given what its first page says and whether the later ones
/// have its stamp.
pub fn front_kind<I: Index>(
    index: &I,
    share: Share,
    slot: Slot<'_>,
    whole: bool,
    place: Place,
) -> Kind
    requires { (1 ≤ share.workers) × (share.workers ≤ 16) }
    ensures { (value : List ℕ) → result ≡ kind_at (I.entries index.now) share.worker share.workers
        place.class place.slot (slot_from (what_stands slot.entry) whole value) }
{
    match slot {
        Slot::Item { key, .. } => {
            if whole {
                item_kind(index, share, key, place)
            } else {
                Kind::Torn
            }
        }
        Slot::Never { .. } => Kind::Never,
        Slot::Tombstone { .. } => Kind::Tomb,
        Slot::Bad { .. } => Kind::Bad,
    }
}

/// One slot more of this kind.
pub fn counted(count: ClassCount, kind: Kind) -> ClassCount
    requires { sum_of count < 2 ^ 32 - 1 }
    ensures value { result ≡ with_one kind count }
    ensures sum { sum_of result ≡ sum_of count + 1 }
    ensures end { result.end ≡ count.end }
{
    let mut count = count;
    match kind {
        Kind::Kept => count.kept += 1,
        Kind::Stale => count.stale += 1,
        Kind::Foreign => count.foreign += 1,
        Kind::Tomb => count.tomb += 1,
        Kind::Never => count.never += 1,
        Kind::Torn => count.torn += 1,
        Kind::Bad => count.bad += 1,
    }
    count
}
