use kv_base::{Bytes, NoMemory, Place};
use kv_index::{Entry, FlatIndex, Index};
use kv_tree::TreeIndex;
use rand_core::utils::NextWord;
use rand_pcg::Lcg64Xsh32;
use std::alloc::Global;
use std::test::Fail;

const SET: u32 = 0;

const REMOVE: u32 = 1;

const FIND: u32 = 2;

const NEXT: u32 = 3;

// Sets the key where the index is small.
fn put<I: Index>(alloc: Global, index: &mut I, key: &[u8], stamp: u64) -> Result<(), NoMemory> {
    let key = Bytes::copy(alloc, key)?;
    index.reserve(1)?;
    if index.len() < 10_000 {
        let place = Place { class: 1, slot: 0 };
        index.set(key, Entry { stamp, place });
    }
    Ok(())
}

// The stamp of the entry, or none.
fn stamp_of(entry: Option<Entry>) -> Option<u64> {
    entry.map(|entry| entry.stamp)
}

// Whether both indexes answer alike from this key on.
fn same_next(flat: &FlatIndex, tree: &TreeIndex, key: &[u8]) -> bool {
    match flat.next_at_or_after(key) {
        None => tree.next_at_or_after(key).is_none(),
        Some((key1, entry1)) => match tree.next_at_or_after(key) {
            None => false,
            Some((key2, entry2)) => key1 == key2 && entry1.stamp == entry2.stamp,
        },
    }
}

// Makes one call on both indexes, and answers whether they answered alike.
fn same_answers(
    alloc: Global,
    flat: &mut FlatIndex,
    tree: &mut TreeIndex,
    call: u32,
    key: &[u8],
    stamp: u64,
) -> Result<bool, NoMemory> {
    let same = match call {
        SET => {
            put(alloc, flat, key, stamp)?;
            put(alloc, tree, key, stamp)?;
            stamp_of(tree.find(key)) == Some(stamp)
        }
        REMOVE => stamp_of(flat.remove(key)) == stamp_of(tree.remove(key)),
        FIND => stamp_of(flat.find(key)) == stamp_of(tree.find(key)),
        _ => same_next(flat, tree, key),
    };
    Ok(same && flat.len() == tree.len())
}

// Four decimal digits.
fn digits(number: u32) -> [u8; 4] {
    let mut digits = [b'0'; 4];
    let mut rest = number % 10_000;
    for at in [3, 2, 1, 0] {
        digits[at] = b'0' + (rest % 10) as u8;
        rest /= 10;
    }
    digits
}

#[test]
fn drawn_calls_have_the_answers_of_a_sorted_vector(rt: HostRuntime) -> Result<(), Fail> {
    let alloc = rt.alloc();
    let mut flat = FlatIndex::new(alloc);
    let mut tree = TreeIndex::new(alloc);
    let mut draws = Lcg64Xsh32::new(5, 1);
    for number in 0..2000 {
        let call = draws.next_word() % 4;
        let key = digits(draws.next_word() % 300);
        let stamp = draws.next_word() as u64;
        let same = same_answers(alloc, &mut flat, &mut tree, call, &key, stamp)?;
        assert!(rt; same, "call {number}");
    }
    Ok(())
}

// A key of this number: rising, falling, scattered, or with the same first eight bytes.
fn key_of(order: u32, number: u32) -> [u8; 12] {
    let mut key = [b'k'; 12];
    let digits = match order {
        0 => number,
        1 => u32::MAX - number,
        _ => number.wrapping_mul(0x9E37_79B1),
    };
    let at = if order < 3 { 0 } else { 8 };
    key[at..at + 4].copy_from_slice(&digits.to_be_bytes());
    key
}

// Makes the call for each of so many keys, and answers whether all were answered alike.
fn all_alike(
    alloc: Global,
    flat: &mut FlatIndex,
    tree: &mut TreeIndex,
    call: u32,
    order: u32,
    size: u32,
) -> Result<bool, NoMemory> {
    for number in 0..size {
        let key = key_of(order, number);
        if !same_answers(alloc, flat, tree, call, &key, number as u64)? {
            return Ok(false);
        }
    }
    Ok(true)
}

// Around a full node, of 31 keys; around a full root over leaves, which rising keys split at key 32
// and then at each 17th: 32 + 31 * 17 = 559; and three levels.
static SIZES: [u32; 9] = [1, 15, 16, 31, 32, 33, 558, 559, 1100];

// What is done in turn. The second filling comes after the index is empty again.
static CALLS: [u32; 7] = [SET, FIND, NEXT, REMOVE, FIND, SET, REMOVE];

#[test]
fn filled_and_emptied_it_answers_as_a_sorted_vector(rt: HostRuntime) -> Result<(), Fail> {
    let alloc = rt.alloc();
    for order in 0..4 {
        for size in SIZES {
            let mut flat = FlatIndex::new(alloc);
            let mut tree = TreeIndex::new(alloc);
            for call in CALLS {
                let alike = all_alike(alloc, &mut flat, &mut tree, call, order, size)?;
                assert!(rt; alike, "order {order}, call {call}, {size} keys");
            }
            assert_eq!(rt; tree.len(), 0, "order {order}, {size} keys");
        }
    }
    Ok(())
}
