ghost use Rattle.std.specs.Prelude.{◌≡◌, ◌&&◌, ◌++◌, [], ◌∷◌, List};
ghost use Rattle.std.specs.Option.{option_copied, option_map};
ghost use Rattle.kv_model.specs.History.{Write};
ghost use Rattle.kv_model.specs.Items.{is_in_range};
ghost use Rattle.kv_model.specs.Oracle.{history_of, write_of, item_seen, lookup_of};
ghost use Rattle.kv_model.specs.Lookup.{Lookup, IsNext, is_behind, is_up_to};

use crate::latest::{find_latest, value_of};
use crate::write::Recorded;

/// A key and its value, as they stand in the writes.
#[derive(Clone, Copy)]
pub struct ItemSeen<'a> {
    /// The key.
    pub key: &'a [u8],
    /// The value.
    pub value: &'a [u8],
}

/// The range whose items are asked for, at a stamp.
#[derive(Clone, Copy)]
pub struct Asked<'a> {
    /// The stamp.
    pub stamp: u64,
    /// The least key.
    pub low: &'a [u8],
    /// The first key behind the range; with no byte there is none.
    pub high: &'a [u8],
}

/// The item with the least key of the range behind the last one.
pub fn find_next<'a>(
    writes: &'a [Recorded],
    asked: Asked<'_>,
    last: Option<&[u8]>,
) -> Option<ItemSeen<'a>>
    ensures { IsNext (lookup_of (history_of writes.now) asked.entry (option_copied last.entry))
        (history_of writes.now) (option_map item_seen result) }
{
    let mut next: Option<ItemSeen<'a>> = None;
    for write in writes {
        next = nearer(writes, asked, last, next, write);
    }
    next
}

/// The item of the write's key, where that is looked for and less than the next one so far.
fn nearer<'a>(
    writes: &'a [Recorded],
    asked: Asked<'_>,
    last: Option<&[u8]>,
    next: Option<ItemSeen<'a>>,
    write: &'a Recorded,
) -> Option<ItemSeen<'a>>
    ensures { (seen : List Write) (lookup : Lookup) → lookup ≡ lookup_of (history_of writes.now)
        asked.entry (option_copied last.entry) → IsNext lookup seen (option_map item_seen
        next.entry)
        → IsNext lookup (seen ++ write_of write.now ∷ []) (option_map item_seen result) }
{
    let key = write.key.as_slice();
    if !is_in_range(asked.low, asked.high, key) || !is_behind(last, key) || is_up_to(next, key) {
        return next;
    }
    match value_of(find_latest(writes, asked.stamp, key)) {
        None => next,
        Some(value) => Some(ItemSeen { key, value }),
    }
}

/// Whether the key lies in the range.
fn is_in_range(low: &[u8], high: &[u8], key: &[u8]) -> bool
    ensures { result ≡ is_in_range low.now high.now key.now }
{
    low.cmp(key).is_le() && (high.is_empty() || key.cmp(high).is_lt())
}

/// Whether the key is behind the last one.
fn is_behind(last: Option<&[u8]>, key: &[u8]) -> bool
    ensures { result ≡ is_behind (option_copied last.entry) key.now }
{
    match last {
        None => true,
        Some(last) => last.cmp(key).is_lt(),
    }
}

/// Whether the next item so far has the key or a lesser one.
fn is_up_to(next: Option<ItemSeen<'_>>, key: &[u8]) -> bool
    ensures { result ≡ is_up_to (option_map item_seen next.entry) key.now }
{
    match next {
        None => false,
        Some(next) => next.key.cmp(key).is_le(),
    }
}
