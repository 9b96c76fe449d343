ghost use Rattle.std.specs.Prelude.{◌≡◌, ◌+◌, ◌<◌, ◌≤◌, length, take, IsTrue, vec_len};
ghost use Rattle.std.specs.List.{sum_by};
ghost use Rattle.std.specs.Ordering.{is_lt};
ghost use Rattle.kv_model.specs.Fold.{item_size, most_bytes};
ghost use Rattle.kv_fold.specs.Bags.{order};
ghost use Rattle.kv_fold.specs.States.{prefix};
ghost use Rattle.kv_fold.specs.Prefixes.{below};
ghost use Rattle.kv_fold.specs.Places.{HasRisingKeys, IsGapOrFound, KeepsGap, MakesRoom};
ghost use Rattle.kv_fold.specs.Firsts.{AreFirst, StaysFirst};

use kv_base::Bytes;
use std::cmp::Ordering;

const MOST_BYTES: usize = 60000;

// Where the key goes. `None` where it is there already.
pub(crate) fn find_gap(items: &[(Bytes, Bytes)], key: &[u8]) -> Option<usize>
    requires { HasRisingKeys items.now }
    ensures { IsGapOrFound key.now items.now result }
{
    let searched = items.binary_search_by(
        |item: &(Bytes, Bytes)| -> Ordering
            ensures { result ≡ order item.now.0 key.entry.now }
        { item.0.as_slice().cmp(key) },
    );
    searched.err()
}

// Drops items from the end until one of this size fits behind those before the place; the cut is
// then the key of the last that was dropped. Whether it fits.
pub(crate) fn make_room(
    most: u16,
    items: &mut Vec<(Bytes, Bytes)>,
    bytes: &mut usize,
    cut: &mut Option<Bytes>,
    place: usize,
    size: usize,
) -> bool
    requires first { AreFirst most bytes.old items.old.items }
    requires place { place ≤ vec_len items.old }
    requires size { size ≤ 65405 }
    ensures first { AreFirst most bytes.new items.new.items }
    ensures place { place ≤ vec_len items.new }
    ensures few { IsTrue result → vec_len items.new < most }
    ensures small { IsTrue result → bytes.new + size ≤ most_bytes }
    ensures gap { KeepsGap place items.old.items items.new.items }
    ensures value { MakesRoom most place size (prefix items.old.items cut.old)
        (prefix items.new.items cut.new) result }
{
    while items.len() >= most as usize || *bytes + size > MOST_BYTES {
        if items.len() <= place {
            return false;
        }
        match items.pop() {
            None => return false,
            Some((key, value)) => {
                *bytes -= 5 + key.len() + value.len();
                *cut = Some(key);
            }
        }
    }
    true
}

// Drops the items that aren't below the key, and answers the bytes of the rest.
pub(crate) fn drop_from(items: &mut Vec<(Bytes, Bytes)>, bytes: usize, key: &[u8]) -> usize
    requires counted { bytes ≡ sum_by item_size items.old.items }
    requires rising { HasRisingKeys items.old.items }
    ensures value { items.new.items ≡ below key.now items.old.items }
    ensures first { StaysFirst bytes items.old.items result items.new.items }
{
    let count = count_below(items, key);
    shorten(items, bytes, count)
}

// How many items are below the key.
fn count_below(items: &[(Bytes, Bytes)], key: &[u8]) -> usize
    requires { HasRisingKeys items.now }
    ensures bound { result ≤ length items.now }
    ensures below { take result items.now ≡ below key.now items.now }
{
    items.partition_point(
        |item: &(Bytes, Bytes)| -> bool
            ensures { result ≡ is_lt (order item.now.0 key.entry.now) }
        { item.0.as_slice().cmp(key).is_lt() },
    )
}

// Keeps so many items, and answers their bytes.
fn shorten(items: &mut Vec<(Bytes, Bytes)>, bytes: usize, count: usize) -> usize
    requires counted { bytes ≡ sum_by item_size items.old.items }
    requires count { count ≤ vec_len items.old }
    ensures value { items.new.items ≡ take count items.old.items }
    ensures counted { result ≡ sum_by item_size items.new.items }
{
    let mut left = bytes;
    while items.len() > count {
        match items.pop() {
            None => return left,
            Some((key, value)) => {
                left -= 5 + key.len() + value.len();
            }
        }
    }
    left
}
