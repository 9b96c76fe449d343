ghost use Rattle.std.specs.Prelude.{◌≡◌, ◌+◌, ◌<◌, ◌≤◌, length, insert, IfOk, IfErr, vec_len};
ghost use Rattle.std.specs.Prelude.{vec_capacity};
ghost use Rattle.std.specs.List.Sorted.{IsSearchInRange};
ghost use Rattle.std.specs.Ordering.{nat_cmp};
ghost use Rattle.std.specs.Cmp.Lexicographic.{slice_cmp};
ghost use Rattle.std.specs.FinMap as finite;
ghost use Rattle.kv_index.specs.Places.{HasRisingKeys, IsAt, IsGap};

use crate::{Entry, Index};
use kv_base::{Bytes, NoMemory};
use std::alloc::Global;
use std::cmp::Ordering;
use std::marker::Model;

/// An index in a sorted vector. A key is found by halving, and a new one moves all later ones.
#[derive(Debug, Drop)]
pub struct FlatIndex {
    pairs: Vec<(Bytes, Entry)>,
    spare: usize,
}

impl Model for FlatIndex {
    ghost use Rattle.std.specs.Prelude.{◌+◌, ◌^◌, ◌<◌, ◌≤◌, vec_len, vec_capacity};
    ghost use Rattle.std.specs.FinMap.{from_sorted};
    ghost use Rattle.std.specs.Ordering.{nat_cmp};
    ghost use Rattle.std.specs.Cmp.Lexicographic.{slice_cmp};
    ghost use Rattle.kv_index.specs.Places.{HasRisingKeys};
    ghost use Rattle.kv_index.specs.Entries.{Indexed, indexed_code};

    ghost Value = { Indexed };

    ghost coded = { indexed_code };

    ghost view = { λ s. record { entries = from_sorted s.pairs.items; spare = s.spare } };

    ghost invariant = { λ s. record {
      rising : HasRisingKeys (slice_cmp nat_cmp) s.pairs.items;
      room : vec_len s.pairs + s.spare ≤ vec_capacity s.pairs;
      few : vec_len s.pairs < 2 ^ 32;
    } };
}

impl FlatIndex {
    /// An index with no key and no room. Takes no memory.
    pub fn new(alloc: Global) -> FlatIndex
        ensures none { result.entries ≡ finite.empty }
        ensures spare { result.spare ≡ 0 }
    {
        FlatIndex {
            pairs: Vec::new(alloc),
            spare: 0,
        }
    }
}

impl Index for FlatIndex {
    ghost entries = { λ s. s.entries };

    ghost spare = { λ s. s.spare };

    fn find(&self, key: &[u8]) -> Option<Entry> {
        match place_of(&self.pairs, key) {
            Ok(at) => Some(self.pairs[at].1),
            Err(_) => None,
        }
    }

    fn reserve(&mut self, n: u32) -> Result<(), NoMemory> {
        let wanted = n as usize;
        if self.spare < wanted {
            self.pairs.reserve(wanted)?;
            self.spare = wanted;
        }
        Ok(())
    }

    fn set(&mut self, key: Bytes, entry: Entry) {
        match place_of(&self.pairs, key.as_slice()) {
            Ok(at) => {
                self.pairs[at].1 = entry;
            }
            Err(at) => {
                insert_within(&mut self.pairs, at, (key, entry));
                self.spare -= 1;
            }
        }
    }

    fn remove(&mut self, key: &[u8]) -> Option<Entry> {
        match place_of(&self.pairs, key) {
            Ok(at) => {
                let (_, entry) = self.pairs.remove(at);
                self.spare += 1;
                Some(entry)
            }
            Err(_) => None,
        }
    }

    fn next_at_or_after(&self, key: &[u8]) -> Option<(&[u8], Entry)> {
        let at = match place_of(&self.pairs, key) {
            Ok(at) => at,
            Err(at) => at,
        };
        if at < self.pairs.len() {
            let pair = &self.pairs[at];
            Some((pair.0.as_slice(), pair.1))
        } else {
            None
        }
    }

    fn len(&self) -> u32 {
        self.pairs.len() as u32
    }
}

// Inserts where there is room, which takes no memory.
fn insert_within(pairs: &mut Vec<(Bytes, Entry)>, at: usize, pair: (Bytes, Entry))
    requires bounds { at ≤ vec_len pairs.old }
    requires room { vec_len pairs.old < vec_capacity pairs.old }
    ensures items { pairs.new.items ≡ insert pairs.old.items at pair }
    ensures len { vec_len pairs.new ≡ vec_len pairs.old + 1 }
    ensures capacity { vec_capacity pairs.old ≤ vec_capacity pairs.new }
{
    let _ = pairs.insert(at, pair);
}

// Where the key stands, or else where it would.
fn place_of(pairs: &[(Bytes, Entry)], key: &[u8]) -> Result<usize, usize>
    requires { HasRisingKeys (slice_cmp nat_cmp) pairs.now }
    ensures bound { IsSearchInRange result (length pairs.now) }
    ensures found { IfOk result (IsAt (slice_cmp nat_cmp) key.now pairs.now) }
    ensures absent { IfErr result (IsGap (slice_cmp nat_cmp) key.now pairs.now) }
{
    pairs.binary_search_by(
        |pair: &(Bytes, Entry)| -> Ordering
            ensures { result ≡ slice_cmp nat_cmp pair.now.0 key.entry.now }
        { pair.0.as_slice().cmp(key) },
    )
}

#[cfg(test)]
mod tests {
    use super::*;
    use kv_base::Place;
    use std::test::Fail;

    fn entry(stamp: u64) -> Entry {
        Entry {
            stamp,
            place: Place { class: 1, slot: 7 },
        }
    }

    // Sets the key where the index is small.
    fn put<I: Index>(alloc: Global, index: &mut I, key: &[u8], stamp: u64) -> Result<(), NoMemory> {
        let key = Bytes::copy(alloc, key)?;
        index.reserve(1)?;
        if index.len() < 1000 {
            index.set(key, entry(stamp));
        }
        Ok(())
    }

    #[test]
    fn a_flat_index_finds_keys_in_byte_order(rt: HostRuntime) -> Result<(), Fail> {
        let alloc = rt.alloc();
        let mut index = FlatIndex::new(alloc);
        let steps: [(&[u8], u64); 6] = [
            (b"b", 1),
            (b"ab", 2),
            (b"a", 3),
            (b"b", 4),
            (b"c", 5),
            (b"ab\0", 6),
        ];
        for (key, stamp) in steps {
            put(alloc, &mut index, key, stamp)?;
        }
        assert_eq!(rt;
            index.remove(b"c").map(|entry| entry.stamp),
            Some(5),
            "the entry that was there"
        );
        assert_eq!(rt; index.remove(b"c"), None, "no longer there");
        assert_eq!(rt; index.len(), 4);
        let rows: [(&[u8], Option<u64>, Option<(&[u8], u64)>); 8] = [
            (b"", None, Some((b"a", 3))),
            (b"a", Some(3), Some((b"a", 3))),
            (b"a\0", None, Some((b"ab", 2))),
            (b"ab", Some(2), Some((b"ab", 2))),
            (b"ab\0", Some(6), Some((b"ab\0", 6))),
            (b"ab\x01", None, Some((b"b", 4))),
            (b"b", Some(4), Some((b"b", 4))),
            (b"b\0", None, None),
        ];
        for (key, found, next) in rows {
            assert_eq!(rt; index.find(key).map(|entry| entry.stamp), found, "{key:?}");
            let least = index.next_at_or_after(key);
            assert_eq!(rt;
                least.map(|(key, entry)| (key, entry.stamp)),
                next,
                "from {key:?}"
            );
        }
        Ok(())
    }
}
