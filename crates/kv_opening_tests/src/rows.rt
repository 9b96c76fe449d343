//! What stands in slots, worked by hand from docs/format.md.
use crate::pieces::{HEAD, Piece, count_of, counts_of, disk_of, has, opened};
use kv_recover::OpenFault;
use std::alloc::Global;
use std::test::*;

// A class less 1, what stands in it, what a survey says, and what stands there once it was opened.
struct Row {
    what: &'static str,
    before: &'static [Piece],
    class: usize,
    counts: [u32; 8],
    floor: u64,
    keys: u32,
    after: &'static [Piece],
}

// Worker 0 of 2, which owns a and c. The counts are end, kept, stale, foreign, tomb, never, torn and
// bad.
static ROWS: [Row; 14] = [
    Row {
        what: "of two copies the later is kept",
        before: &[
            (1, 0, 0, b"\x05\0\0\0\0\0\0\0\x01\0\x01\0\x01\0\0\0a1"),
            (1, 0, 64, b"\x09\0\0\0\0\0\0\0\x01\0\x01\0\x01\0\0\0a2"),
        ],
        class: 0,
        counts: [2, 1, 1, 0, 0, 0, 0, 0],
        floor: 9,
        keys: 1,
        after: &[
            (1, 0, 0, b"\x09\0\0\0\0\0\0\0\x02\0\0\0\0\0\0\0\0\0"),
            (1, 0, 64, b"\x09\0\0\0\0\0\0\0\x01\0\x01\0\x01\0\0\0a2"),
        ],
    },
    Row {
        what: "of equal stamps the least place is kept",
        before: &[
            (2, 0, 0, b"\x05\0\0\0\0\0\0\0\x01\0\x01\0\x30\0\0\0a1"),
            (1, 0, 64, b"\x05\0\0\0\0\0\0\0\x01\0\x01\0\x01\0\0\0a2"),
            (1, 0, 128, b"\x05\0\0\0\0\0\0\0\x01\0\x01\0\x01\0\0\0a3"),
        ],
        class: 0,
        counts: [3, 1, 1, 0, 0, 1, 0, 0],
        floor: 5,
        keys: 1,
        after: &[
            (1, 0, 0, b"\x05\0\0\0\0\0\0\0\x02\0\0\0\0\0\0\0\0\0"),
            (1, 0, 64, b"\x05\0\0\0\0\0\0\0\x01\0\x01\0\x01\0\0\0a2"),
            (1, 0, 128, b"\x05\0\0\0\0\0\0\0\x02\0\0\0\0\0\0\0\0\0"),
            (2, 0, 0, b"\x05\0\0\0\0\0\0\0\x02\0\0\0\0\0\0\0\0\0"),
        ],
    },
    Row {
        what: "another worker's key",
        before: &[
            (1, 0, 0, b"\x07\0\0\0\0\0\0\0\x01\0\x01\0\x01\0\0\0b1"),
            (1, 0, 64, b"\x03\0\0\0\0\0\0\0\x01\0\x01\0\x01\0\0\0c1"),
        ],
        class: 0,
        counts: [2, 1, 0, 1, 0, 0, 0, 0],
        floor: 7,
        keys: 1,
        after: &[
            (1, 0, 0, b"\x07\0\0\0\0\0\0\0\x02\0\0\0\0\0\0\0\0\0"),
            (1, 0, 64, b"\x03\0\0\0\0\0\0\0\x01\0\x01\0\x01\0\0\0c1"),
        ],
    },
    Row {
        what: "a slot of kind 7",
        before: &[(1, 0, 0, b"\x03\0\0\0\0\0\0\0\x07\0\x01\0\x01\0\0\0a1")],
        class: 0,
        counts: [1, 0, 0, 0, 0, 0, 0, 1],
        floor: 3,
        keys: 0,
        after: &[(1, 0, 0, b"\x03\0\0\0\0\0\0\0\x02\0\0\0\0\0\0\0\0\0")],
    },
    Row {
        what: "a key without a byte",
        before: &[(1, 0, 64, b"\x03\0\0\0\0\0\0\0\x01\0\0\0\x01\0\0\0a1")],
        class: 0,
        counts: [2, 0, 0, 0, 0, 1, 0, 1],
        floor: 3,
        keys: 0,
        after: &[
            (1, 0, 0, b"\x03\0\0\0\0\0\0\0\x02\0\0\0\0\0\0\0\0\0"),
            (1, 0, 64, b"\x03\0\0\0\0\0\0\0\x02\0\0\0\0\0\0\0\0\0"),
        ],
    },
    Row {
        what: "a key of 256 bytes, in a class whose room has them",
        before: &[(4, 0, 0, b"\x03\0\0\0\0\0\0\0\x01\0\0\x01\x01\0\0\0a1")],
        class: 3,
        counts: [1, 0, 0, 0, 0, 0, 0, 1],
        floor: 3,
        keys: 0,
        after: &[(4, 0, 0, b"\x03\0\0\0\0\0\0\0\x02\0\0\0\0\0\0\0\0\0")],
    },
    Row {
        what: "lengths past the slot: 1 and 48 bytes in a room of 48",
        before: &[(1, 0, 0, b"\x03\0\0\0\0\0\0\0\x01\0\x01\0\x30\0\0\0a1")],
        class: 0,
        counts: [1, 0, 0, 0, 0, 0, 0, 1],
        floor: 3,
        keys: 0,
        after: &[(1, 0, 0, b"\x03\0\0\0\0\0\0\0\x02\0\0\0\0\0\0\0\0\0")],
    },
    Row {
        what: "lengths of a lesser class: 1 and 47 bytes",
        before: &[(2, 0, 0, b"\x03\0\0\0\0\0\0\0\x01\0\x01\0\x2f\0\0\0a1")],
        class: 1,
        counts: [1, 0, 0, 0, 0, 0, 0, 1],
        floor: 3,
        keys: 0,
        after: &[(2, 0, 0, b"\x03\0\0\0\0\0\0\0\x02\0\0\0\0\0\0\0\0\0")],
    },
    Row {
        what: "a tombstone that links past the end, to slot 2^24 - 1",
        before: &[(1, 0, 0, b"\x04\0\0\0\0\0\0\0\x02\0\0\0\0\0\0\x01")],
        class: 0,
        counts: [1, 0, 0, 0, 1, 0, 0, 0],
        floor: 4,
        keys: 0,
        after: &[(1, 0, 0, b"\x04\0\0\0\0\0\0\0\x02\0\0\0\0\0\0\0\0\0")],
    },
    Row {
        what: "a slot whose last byte alone isn't zero",
        before: &[(1, 0, 127, b"\x01")],
        class: 0,
        counts: [2, 0, 0, 0, 0, 2, 0, 0],
        floor: 0,
        keys: 0,
        after: &[
            (1, 0, 0, b"\0\0\0\0\0\0\0\0\x02\0\0\0\0\0\0\0\0\0"),
            (1, 0, 64, b"\0\0\0\0\0\0\0\0\x02\0\0\0\0\0\0\0\0\0"),
            (1, 0, 127, b"\0"),
        ],
    },
    Row {
        what: "the store goes on behind a stamp of 2^62 - 2",
        before: &[(1, 0, 0, b"\xfe\xff\xff\xff\xff\xff\xff\x3f\x02\0")],
        class: 0,
        counts: [1, 0, 0, 0, 1, 0, 0, 0],
        floor: 4_611_686_018_427_387_902,
        keys: 0,
        after: &[(
            1,
            0,
            0,
            b"\xfe\xff\xff\xff\xff\xff\xff\x3f\x02\0\0\0\0\0\0\0\0",
        )],
    },
    Row {
        what: "a large item of which the later page alone was written, at stamp 1",
        before: &[(8, 1, 0, b"\x01\0\0\0\0\0\0\0later")],
        class: 7,
        counts: [1, 0, 0, 0, 0, 1, 0, 0],
        floor: 1,
        keys: 0,
        after: &[
            (8, 0, 0, b"\x01\0\0\0\0\0\0\0\x02\0\0\0\0\0\0\0\0\0"),
            (8, 1, 0, b"\x01\0\0\0\0\0\0\0later"),
        ],
    },
    Row {
        what: "then another of which the first page alone was written, of 5,000 bytes at stamp 2",
        before: &[
            (8, 0, 0, b"\x02\0\0\0\0\0\0\0\x01\0\x01\0\x88\x13\0\0cvalue"),
            (8, 1, 0, b"\x01\0\0\0\0\0\0\0later"),
        ],
        class: 7,
        counts: [1, 0, 0, 0, 0, 0, 1, 0],
        floor: 2,
        keys: 0,
        after: &[
            (8, 0, 0, b"\x02\0\0\0\0\0\0\0\x02\0\0\0\0\0\0\0\0\0"),
            (8, 1, 0, b"\x01\0\0\0\0\0\0\0later"),
        ],
    },
    Row {
        what: "a large item that was written whole, beside one without its later page",
        before: &[
            (8, 0, 0, b"\x02\0\0\0\0\0\0\0\x01\0\x01\0\x88\x13\0\0cvalue"),
            (8, 1, 0, b"\x02\0\0\0\0\0\0\0later"),
            (8, 2, 0, b"\x03\0\0\0\0\0\0\0\x01\0\x01\0\x88\x13\0\0cvalue"),
        ],
        class: 7,
        counts: [2, 1, 0, 0, 0, 0, 1, 0],
        floor: 3,
        keys: 1,
        after: &[
            (8, 0, 0, b"\x02\0\0\0\0\0\0\0\x01\0\x01\0\x88\x13\0\0cvalue"),
            (8, 1, 0, b"\x02\0\0\0\0\0\0\0later"),
            (8, 2, 0, b"\x03\0\0\0\0\0\0\0\x02\0\0\0\0\0\0\0\0\0"),
        ],
    },
];

// Whether a survey says what the row does, and whether the disk that was opened once, and again, has
// the row's floor and slots.
fn is_right(alloc: Global, row: &Row) -> Result<bool, OpenFault> {
    let mut disk = disk_of(alloc, &[HEAD], row.before)?;
    let (counts, floor, keys) = counts_of(alloc, &mut disk, row.class)?;
    let said = counts == Some(count_of(row.counts)) && floor == row.floor && keys == row.keys;
    let (mut disk, floor) = opened(alloc, disk)?;
    let freed = floor == row.floor && has(&mut disk, row.after)?;
    let (mut disk, floor) = opened(alloc, disk)?;
    Ok(said && freed && floor == row.floor && has(&mut disk, row.after)?)
}

#[test]
fn what_stands_in_slots_is_counted_and_freed(rt: HostRuntime) -> Result<(), Fail> {
    let alloc = rt.alloc();
    for row in &ROWS {
        assert!(rt; is_right(alloc, row)?, "{}", row.what);
    }
    Ok(())
}
