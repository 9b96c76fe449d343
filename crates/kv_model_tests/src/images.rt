use kv_base::NoMemory;
use kv_model::{PlainImage, Stored};
use std::alloc::Global;
use std::test::Fail;

// Bytes on a page: the file, the number of the page, the offset, and the bytes.
type Piece = (u8, u16, u16, &'static [u8]);

// An item that is kept: key, stamp, the zeros that its value begins with, the rest of the value, the
// class and the slot.
type KeptItem = (&'static [u8], u64, usize, &'static [u8], u8, u32);

// An image, what it is read as, and what it has to give. No two pages of the pieces alternate.
struct ImageRow {
    name: &'static str,
    pieces: &'static [Piece],
    worker: u32,
    workers: u32,
    floor: u64,
    kept: &'static [KeptItem],
    ends: [u32; 12],
    free: &'static [(u8, &'static [u32])],
}

// An item a of class 1 with an older copy, a tombstone, a slot of kind 7; in class 8 an item b whose
// second page has another stamp, and an item c.
const OF_ALL_KINDS: [Piece; 8] = [
    (
        1,
        0,
        0,
        &[2, 1, 0, 0, 0, 0, 0, 0, 1, 0, 1, 0, 1, 0, 0, 0, b'a', b'1'],
    ),
    (
        1,
        0,
        128,
        &[3, 0, 0, 0, 0, 0, 0, 0, 1, 0, 1, 0, 1, 0, 0, 0, b'a', b'2'],
    ),
    (
        1,
        0,
        192,
        &[42, 0, 0, 0, 0, 0, 0, 0, 2, 0, 0, 0, 36, 0, 0, 0],
    ),
    (1, 0, 320, &[44, 1, 0, 0, 0, 0, 0, 0, 7, 0]),
    (
        8,
        0,
        0,
        &[0xF4, 1, 0, 0, 0, 0, 0, 0, 1, 0, 1, 0, 0xF0, 15, 0, 0, b'b'],
    ),
    (8, 1, 0, &[0xF5, 1, 0, 0, 0, 0, 0, 0]),
    (
        8,
        2,
        0,
        &[9, 0, 0, 0, 0, 0, 0, 0, 1, 0, 1, 0, 0xF0, 15, 0, 0, b'c'],
    ),
    (8, 3, 0, &[9, 0, 0, 0, 0, 0, 0, 0, b'z']),
];

// An item b, and an item a twice with one stamp.
const OF_TWO_WORKERS: [Piece; 3] = [
    (
        1,
        0,
        0,
        &[7, 0, 0, 0, 0, 0, 0, 0, 1, 0, 1, 0, 1, 0, 0, 0, b'b', b'1'],
    ),
    (
        1,
        0,
        64,
        &[5, 0, 0, 0, 0, 0, 0, 0, 1, 0, 1, 0, 1, 0, 0, 0, b'a', b'x'],
    ),
    (
        1,
        0,
        128,
        &[5, 0, 0, 0, 0, 0, 0, 0, 1, 0, 1, 0, 1, 0, 0, 0, b'a', b'y'],
    ),
];

static ROWS: [ImageRow; 3] = [
    // The greatest number at a head is that of b's second page, 501. The value of c has 4,080
    // bytes, of which the last is the first one behind the stamp of its second page.
    ImageRow {
        name: "all kinds",
        pieces: &OF_ALL_KINDS,
        worker: 0,
        workers: 1,
        floor: 501,
        kept: &[(b"a", 258, 0, b"1", 1, 0), (b"c", 9, 4079, b"z", 8, 1)],
        ends: [0, 6, 0, 0, 0, 0, 0, 0, 2, 0, 0, 0],
        free: &[(1, &[1, 2, 3, 4, 5]), (8, &[0]), (7, &[])],
    },
    // Of two workers a has 0 and b has 1.
    ImageRow {
        name: "of worker 0",
        pieces: &OF_TWO_WORKERS,
        worker: 0,
        workers: 2,
        floor: 7,
        kept: &[(b"a", 5, 0, b"x", 1, 1)],
        ends: [0, 3, 0, 0, 0, 0, 0, 0, 0, 0, 0, 0],
        free: &[(1, &[0, 2])],
    },
    ImageRow {
        name: "of worker 1",
        pieces: &OF_TWO_WORKERS,
        worker: 1,
        workers: 2,
        floor: 7,
        kept: &[(b"b", 7, 0, b"1", 1, 0)],
        ends: [0, 3, 0, 0, 0, 0, 0, 0, 0, 0, 0, 0],
        free: &[(1, &[1, 2])],
    },
];

// Copies the bytes into the page.
fn put(page: &mut [u8; 4096], offset: u16, bytes: &[u8]) {
    for i in 0..bytes.len() {
        let place = usize::from(offset).saturating_add(i);
        if place < 4096 {
            page[place] = bytes[i];
        }
    }
}

// The image with these pieces.
fn image_with(alloc: Global, pieces: &[Piece]) -> Result<PlainImage, NoMemory> {
    let mut image = PlainImage::new(alloc);
    for i in 0..pieces.len() {
        let (file, number, _, _) = pieces[i];
        let mut page = [0; 4096];
        for piece in pieces {
            if piece.0 == file && piece.1 == number {
                put(&mut page, piece.2, piece.3);
            }
        }
        image.write_page(file, number, &page)?;
    }
    Ok(image)
}

// Whether the value is so many zeros and then the rest.
fn is_value(value: &[u8], zeros: usize, rest: &[u8]) -> bool {
    match (value.get(..zeros), value.get(zeros..)) {
        (Some(front), Some(back)) => front.iter().all(|byte| *byte == 0) && back == rest,
        _ => false,
    }
}

// Whether these items, and no others, are kept.
fn are_kept(kept: &[Stored], expected: &[KeptItem]) -> bool {
    let mut same = kept.len() == expected.len();
    for (item, row) in kept.iter().zip(expected) {
        let (key, stamp, zeros, rest, class, slot) = *row;
        same = same
            && item.key.as_slice() == key
            && item.stamp == stamp
            && is_value(item.value.as_slice(), zeros, rest)
            && item.place.class == class
            && item.place.slot == slot;
    }
    same
}

#[test]
fn images_are_read_by_the_definitions(rt: HostRuntime) -> Result<(), Fail> {
    for row in &ROWS {
        let name = row.name;
        let image = image_with(rt.alloc(), row.pieces)?;
        assert_eq!(rt; image.ends()?, row.ends, "{name}: ends");
        assert_eq!(rt; image.floor()?, row.floor, "{name}: floor");
        let kept = image.kept(row.worker, row.workers)?;
        assert!(rt; are_kept(&kept, row.kept), "{name}: kept");
        for (class, slots) in row.free {
            let free = image.free(row.worker, row.workers, *class)?;
            assert_eq!(rt; free.as_slice(), *slots, "{name}: free slots of {class}");
        }
    }
    Ok(())
}
