use kv_base::Reply;
use kv_frames::{
    Parsed, ReplyParsed, RequestView, own, parse_reply, parse_request, put_reply, put_request,
};
use std::alloc::{AllocError, Global};
use std::test::*;

/// What was parsed: a word, the key's length or an After's stamp, the value's length and the
/// frame's length.
fn seen(bytes: &[u8]) -> (&'static str, usize, usize, usize) {
    match parse_request(bytes) {
        Parsed::Whole { request, length } => match request {
            RequestView::Put { key, value } => ("put", key.len(), value.len(), length),
            RequestView::Get { key } => ("get", key.len(), 0, length),
            RequestView::Delete { key } => ("delete", key.len(), 0, length),
            RequestView::Flush => ("flush", 0, 0, length),
            RequestView::After { stamp } => ("after", stamp as usize, 0, length),
        },
        Parsed::More => ("more", 0, 0, 0),
        Parsed::Malformed => ("malformed", 0, 0, 0),
    }
}

/// Bytes, what they are parsed as, and what they are.
type RequestRow = (
    &'static [u8],
    (&'static str, usize, usize, usize),
    &'static str,
);

static REQUESTS: [RequestRow; 29] = [
    (&[], ("more", 0, 0, 0), "nothing"),
    (&[0], ("more", 0, 0, 0), "one byte of a length"),
    (&[0, 0, 0], ("more", 0, 0, 0), "three bytes of a length"),
    (&[0, 0, 0, 0], ("malformed", 0, 0, 0), "a length of 0"),
    // 0x0101D0 is 66,000.
    (&[0xD0, 1, 1, 0], ("more", 0, 0, 0), "a length of 66,000"),
    (
        &[0xD1, 1, 1, 0],
        ("malformed", 0, 0, 0),
        "a length of 66,001",
    ),
    (&[0, 0, 0, 1], ("malformed", 0, 0, 0), "a length of 2^24"),
    (&[4, 0, 0, 0, 1, 1, 0x61, 0x31], ("put", 1, 1, 8), "a Put"),
    (
        &[4, 0, 0, 0, 1, 1, 0x61],
        ("more", 0, 0, 0),
        "a Put but for its last byte",
    ),
    (
        &[4, 0, 0, 0, 1, 1],
        ("more", 0, 0, 0),
        "a Put but for its key",
    ),
    (&[2, 0, 0, 0, 2, 0x61], ("get", 1, 0, 6), "a Get"),
    (
        &[2, 0, 0, 0, 2, 0x61, 4, 0],
        ("get", 1, 0, 6),
        "a Get and two bytes",
    ),
    (&[1, 0, 0, 0, 2], ("get", 0, 0, 5), "a Get of no key"),
    (
        &[3, 0, 0, 0, 1, 0, 0x31],
        ("put", 0, 1, 7),
        "a Put of no key",
    ),
    (
        &[3, 0, 0, 0, 1, 1, 0x61],
        ("put", 1, 0, 7),
        "a Put of no value",
    ),
    (
        &[1, 0, 0, 0, 1],
        ("malformed", 0, 0, 0),
        "a Put without the length of its key",
    ),
    (
        &[3, 0, 0, 0, 1, 2, 0x61],
        ("malformed", 0, 0, 0),
        "a key longer than the body",
    ),
    (&[2, 0, 0, 0, 3, 0x61], ("delete", 1, 0, 6), "a Delete"),
    (&[1, 0, 0, 0, 3], ("delete", 0, 0, 5), "a Delete of no key"),
    (&[1, 0, 0, 0, 5], ("flush", 0, 0, 5), "a Flush"),
    (
        &[2, 0, 0, 0, 5, 0],
        ("malformed", 0, 0, 0),
        "a Flush with a body",
    ),
    (
        &[9, 0, 0, 0, 6, 1, 2, 0, 0, 0, 0, 0, 0],
        ("after", 513, 0, 13),
        "an After",
    ),
    (
        &[9, 0, 0, 0, 6, 1, 2, 0, 0, 0, 0, 0],
        ("more", 0, 0, 0),
        "an After but for its last byte",
    ),
    (
        &[8, 0, 0, 0, 6, 1, 2, 0, 0, 0, 0, 0],
        ("malformed", 0, 0, 0),
        "an After with a body of seven bytes",
    ),
    (
        &[10, 0, 0, 0, 6, 1, 2, 0, 0, 0, 0, 0, 0, 0],
        ("malformed", 0, 0, 0),
        "an After with a body of nine bytes",
    ),
    (
        &[1, 0, 0, 0, 6],
        ("malformed", 0, 0, 0),
        "an After without a body",
    ),
    (&[2, 0, 0, 0, 7, 0x61], ("malformed", 0, 0, 0), "kind 07"),
    (&[2, 0, 0, 0, 0, 0x61], ("malformed", 0, 0, 0), "kind 00"),
    (
        &[2, 0, 0, 0, 7],
        ("more", 0, 0, 0),
        "kind 07 but for its last byte",
    ),
];

#[test]
fn requests_are_parsed_by_the_table_of_kinds(rt: HostRuntime) {
    for (bytes, want, what) in &REQUESTS {
        assert_eq!(rt; seen(bytes), *want, "{what}");
    }
}

/// The head, and so many bytes in all.
fn padded(alloc: Global, head: &[u8], length: usize) -> Result<Vec<u8>, AllocError> {
    let mut bytes = Vec::from_slice(alloc, head)?;
    bytes.resize(length, 7)?;
    Ok(bytes)
}

#[test]
fn the_longest_frames_are_parsed(rt: HostRuntime) -> Result<(), Fail> {
    // 65,402 is 0xFF7A: a kind, a key length, a key of 255 bytes and a value of 65,145.
    let put = padded(rt.alloc(), &[0x7A, 0xFF, 0, 0, 1, 0xFF], 65_406)?;
    assert_eq!(rt; seen(&put), ("put", 255, 65_145, 65_406));
    let get = padded(rt.alloc(), &[0xD0, 1, 1, 0, 2], 66_004)?;
    assert_eq!(rt; seen(&get), ("get", 65_999, 0, 66_004));
    let part = padded(rt.alloc(), &[0xD0, 1, 1, 0, 2], 66_003)?;
    assert_eq!(rt; seen(&part), ("more", 0, 0, 0));
    Ok(())
}

static FRAMES: [&[u8]; 5] = [
    &[4, 0, 0, 0, 1, 1, 0x61, 0x31],
    &[2, 0, 0, 0, 2, 0x61],
    &[2, 0, 0, 0, 3, 0x61],
    &[1, 0, 0, 0, 5],
    &[9, 0, 0, 0, 6, 1, 2, 0, 0, 0, 0, 0, 0x80],
];

#[test]
fn a_request_is_owned_and_written_as_it_came(rt: HostRuntime) -> Result<(), Fail> {
    let mut out = Vec::new(rt.alloc());
    for bytes in &FRAMES {
        let Parsed::Whole { request, .. } = parse_request(bytes) else {
            return Err("the bytes are a request".into());
        };
        let owned = own(rt.alloc(), &request).ok().ok_or("memory is there")?;
        put_request(&owned, &mut out).ok().ok_or("memory is there")?;
        assert_eq!(rt; out.as_slice(), *bytes);
    }
    Ok(())
}

/// The reply's name, its number, and the length of its value.
fn named(reply: &Reply) -> (&'static str, u64, usize) {
    match reply {
        Reply::Stored { stamp } => ("stored", *stamp, 0),
        Reply::Found { stamp, value } => ("found", *stamp, value.len()),
        Reply::Missing { stamp } => ("missing", *stamp, 0),
        Reply::Removed { stamp } => ("removed", *stamp, 0),
        Reply::Absent { stamp } => ("absent", *stamp, 0),
        Reply::BadKey => ("bad key", 0, 0),
        Reply::TooLarge => ("too large", 0, 0),
        Reply::Full { class } => ("full", u64::from(*class), 0),
        Reply::NoMemory => ("no memory", 0, 0),
        Reply::DiskFault => ("disk fault", 0, 0),
        Reply::Unsure { stamp } => ("unsure", *stamp, 0),
        Reply::Closed => ("closed", 0, 0),
        Reply::StampsSpent { number } => ("stamps spent", *number, 0),
        Reply::Malformed { offset } => ("malformed", *offset, 0),
        Reply::Noted => ("noted", 0, 0),
        Reply::Ahead { number } => ("ahead", *number, 0),
    }
}

/// A frame and the reply that it is.
type ReplyRow = (&'static [u8], (&'static str, u64, usize));

static REPLIES: [ReplyRow; 17] = [
    (
        &[9, 0, 0, 0, 0x81, 1, 0, 0, 0, 0, 0, 0, 0],
        ("stored", 1, 0),
    ),
    (
        &[10, 0, 0, 0, 0x82, 2, 0, 0, 0, 0, 0, 0, 0, 0x31],
        ("found", 2, 1),
    ),
    (&[9, 0, 0, 0, 0x82, 2, 0, 0, 0, 0, 0, 0, 0], ("found", 2, 0)),
    (
        &[9, 0, 0, 0, 0x83, 1, 0, 0, 0, 0, 0, 0, 0],
        ("missing", 1, 0),
    ),
    (
        &[9, 0, 0, 0, 0x84, 3, 0, 0, 0, 0, 0, 0, 0],
        ("removed", 3, 0),
    ),
    (
        &[9, 0, 0, 0, 0x85, 4, 0, 0, 0, 0, 0, 0, 0],
        ("absent", 4, 0),
    ),
    (&[1, 0, 0, 0, 0xE1], ("bad key", 0, 0)),
    (&[1, 0, 0, 0, 0xE2], ("too large", 0, 0)),
    (&[2, 0, 0, 0, 0xE3, 1], ("full", 1, 0)),
    (&[1, 0, 0, 0, 0xE4], ("no memory", 0, 0)),
    (&[1, 0, 0, 0, 0xE5], ("disk fault", 0, 0)),
    // 2^62 - 1, the greatest stamp.
    (
        &[
            9, 0, 0, 0, 0xE6, 0xFF, 0xFF, 0xFF, 0xFF, 0xFF, 0xFF, 0xFF, 0x3F,
        ],
        ("unsure", 4_611_686_018_427_387_903, 0),
    ),
    (&[1, 0, 0, 0, 0xE7], ("closed", 0, 0)),
    // 2^62, the first number that is no stamp.
    (
        &[9, 0, 0, 0, 0xE8, 0, 0, 0, 0, 0, 0, 0, 0x40],
        ("stamps spent", 4_611_686_018_427_387_904, 0),
    ),
    (
        &[9, 0, 0, 0, 0xE9, 8, 0, 0, 0, 0, 0, 0, 0],
        ("malformed", 8, 0),
    ),
    (&[1, 0, 0, 0, 0x87], ("noted", 0, 0)),
    (&[9, 0, 0, 0, 0xEA, 1, 0, 0, 0, 0, 0, 0, 0], ("ahead", 1, 0)),
];

#[test]
fn replies_are_read_and_written_by_the_table_of_kinds(rt: HostRuntime) -> Result<(), Fail> {
    for (bytes, want) in &REPLIES {
        let Ok(ReplyParsed::Whole { reply, length }) = parse_reply(rt.alloc(), bytes) else {
            return Err(want.0.into());
        };
        assert_eq!(rt; named(&reply), *want);
        assert_eq!(rt; length, bytes.len(), "{}", want.0);
        let mut out = vec![in rt.alloc(); 9u8; 20]?;
        put_reply(&reply, &mut out).ok().ok_or("memory is there")?;
        assert_eq!(rt; out.as_slice(), *bytes, "{}", want.0);
    }
    Ok(())
}

/// Bytes that no reply begins, and whether more of them decide.
static NO_REPLIES: [(&[u8], bool); 11] = [
    (&[9, 0, 0, 0, 0x81, 1, 0, 0, 0, 0, 0, 0], true),
    (&[9, 0, 0], true),
    (&[0, 0, 0, 0], false),
    (&[8, 0, 0, 0, 0x81, 1, 0, 0, 0, 0, 0, 0], false),
    (&[8, 0, 0, 0, 0x82, 1, 0, 0, 0, 0, 0, 0], false),
    (&[2, 0, 0, 0, 0xE1, 0], false),
    (&[1, 0, 0, 0, 0xE3], false),
    (&[1, 0, 0, 0, 0xE8], false),
    (&[2, 0, 0, 0, 0x87, 0], false),
    (&[1, 0, 0, 0, 0xEA], false),
    (&[1, 0, 0, 0, 1], false),
];

#[test]
fn what_is_no_reply_is_told_from_a_part_of_one(rt: HostRuntime) -> Result<(), Fail> {
    for (bytes, more) in &NO_REPLIES {
        match parse_reply(rt.alloc(), bytes) {
            Ok(ReplyParsed::More) => assert!(rt; *more, "{bytes:?}"),
            Ok(ReplyParsed::Malformed) => assert!(rt; !*more, "{bytes:?}"),
            Ok(ReplyParsed::Whole { .. }) | Err(..) => return Err("no reply is there".into()),
        }
    }
    Ok(())
}
