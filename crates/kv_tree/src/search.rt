ghost use Rattle.std.specs.Prelude.{length, IfOk, IfErr};
ghost use Rattle.std.specs.Prelude.{◌≡◌, ◌<◌, ◌≤◌, List, ℕ, take};
ghost use Rattle.kv_tree.specs.Subtree.{Past};
ghost use Rattle.std.specs.List.Sorted.{IsSearchInRange};
ghost use Rattle.std.specs.Ordering.{nat_cmp};
ghost use Rattle.std.specs.Cmp.Lexicographic.{slice_cmp};
ghost use Rattle.kv_index.specs.Places.{HasRisingKeys, IsAt, IsGap};
ghost use Rattle.kv_tree.specs.Head.{HasHead};

use crate::item::Item;
use std::cmp::Ordering;

/// Where the key stands, or else where it would.
pub fn place_of(items: &[Item], number: u64, key: &[u8]) -> Result<usize, usize>
    requires rising { HasRisingKeys (slice_cmp nat_cmp) items.now }
    requires number { HasHead key.now number }
    ensures bound { IsSearchInRange result (length items.now) }
    ensures found { IfOk result (IsAt (slice_cmp nat_cmp) key.now items.now) }
    ensures absent { IfErr result (IsGap (slice_cmp nat_cmp) key.now items.now) }
{
    let at = count_below(items, number);
    place_behind(items, at, number, key)
}

/// The same for keys that come in order.
pub fn place_in_order(
    items: &[Item],
    is_leaf: bool,
    number: u64,
    key: &[u8],
) -> Result<usize, usize>
    requires rising { HasRisingKeys (slice_cmp nat_cmp) items.now }
    requires number { HasHead key.now number }
    ensures bound { IsSearchInRange result (length items.now) }
    ensures found { IfOk result (IsAt (slice_cmp nat_cmp) key.now items.now) }
    ensures absent { IfErr result (IsGap (slice_cmp nat_cmp) key.now items.now) }
{
    let at = count_in_order(items, is_leaf, number);
    place_behind(items, at, number, key)
}

// The same where all items before a place come before the key.
fn place_behind(items: &[Item], at: usize, number: u64, key: &[u8]) -> Result<usize, usize>
    requires rising { HasRisingKeys (slice_cmp nat_cmp) items.now }
    requires number { HasHead key.now number }
    requires at { at ≤ length items.now }
    requires past { Past key.now (take at items.now) }
    ensures bound { IsSearchInRange result (length items.now) }
    ensures found { IfOk result (IsAt (slice_cmp nat_cmp) key.now items.now) }
    ensures absent { IfErr result (IsGap (slice_cmp nat_cmp) key.now items.now) }
{
    if at == items.len() {
        return Err(at);
    }
    if items[at].is_above(number) {
        return Err(at);
    }
    place_from(items, at, number, key)
}

// The same where the item at the place has the key's head or comes before: the key is mostly there,
// or the first behind it. This stands apart, since most searches end before it.
#[inline(never)]
fn place_from(items: &[Item], at: usize, number: u64, key: &[u8]) -> Result<usize, usize>
    requires rising { HasRisingKeys (slice_cmp nat_cmp) items.now }
    requires number { HasHead key.now number }
    requires at { at < length items.now }
    requires past { Past key.now (take at items.now) }
    ensures bound { IsSearchInRange result (length items.now) }
    ensures found { IfOk result (IsAt (slice_cmp nat_cmp) key.now items.now) }
    ensures absent { IfErr result (IsGap (slice_cmp nat_cmp) key.now items.now) }
{
    match items[at].cmp_key(number, key) {
        Ordering::Equal => Ok(at),
        Ordering::Greater => Err(at),
        Ordering::Less => {
            let next = at + 1;
            if next == items.len() {
                return Err(next);
            }
            if items[next].is_above(number) {
                return Err(next);
            }
            place_by_halves(items, number, key)
        }
    }
}

// How many items come before each key with this head, by their heads alone. The ends come first,
// for keys in order. Then all heads are looked at, which takes no branch that may be guessed wrong.
fn count_below(items: &[Item], number: u64) -> usize
    requires { HasRisingKeys (slice_cmp nat_cmp) items.now }
    ensures bound { result ≤ length items.now }
    ensures past { (key : List ℕ) → HasHead key number → Past key (take result items.now) }
{
    let len = items.len();
    if len == 0 || items[0].below(number) == 0 {
        return 0;
    }
    if items[len - 1].below(number) == 1 {
        return len;
    }
    let mut at: usize = 0;
    for item in items {
        at += item.below(number);
    }
    at
}

// The same for keys that come in order. Above the leaves each branch goes mostly as it went for the
// key before, so a count by halves guesses right; a leaf is read whole, before it is wanted.
fn count_in_order(items: &[Item], is_leaf: bool, number: u64) -> usize
    requires { HasRisingKeys (slice_cmp nat_cmp) items.now }
    ensures bound { result ≤ length items.now }
    ensures past { (key : List ℕ) → HasHead key number → Past key (take result items.now) }
{
    if is_leaf {
        count_below(items, number)
    } else {
        count_by_halves(items, number)
    }
}

// The same by halves.
fn count_by_halves(items: &[Item], number: u64) -> usize
    requires { HasRisingKeys (slice_cmp nat_cmp) items.now }
    ensures bound { result ≤ length items.now }
    ensures past { (key : List ℕ) → HasHead key number → Past key (take result items.now) }
{
    let mut low: usize = 0;
    let mut high = items.len();
    while low < high {
        let middle = low + (high - low) / 2;
        if items[middle].below(number) == 1 {
            low = middle + 1;
        } else {
            high = middle;
        }
    }
    low
}

// Where a key stands among items whose heads are alike, by halves.
fn place_by_halves(items: &[Item], number: u64, key: &[u8]) -> Result<usize, usize>
    requires rising { HasRisingKeys (slice_cmp nat_cmp) items.now }
    requires number { HasHead key.now number }
    ensures bound { IsSearchInRange result (length items.now) }
    ensures found { IfOk result (IsAt (slice_cmp nat_cmp) key.now items.now) }
    ensures absent { IfErr result (IsGap (slice_cmp nat_cmp) key.now items.now) }
{
    items.binary_search_by(
        |item: &Item| -> Ordering
            ensures { HasHead key.entry.now number → result
                ≡ slice_cmp nat_cmp item.now.0 key.entry.now }
        { item.cmp_key(number, key) },
    )
}
