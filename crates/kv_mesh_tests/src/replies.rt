use std::alloc::Global;
use std::test::Fail;

/// What a reply tells, with its stamp or number, and a value of one byte.
#[derive(Clone, Copy, Debug, PartialEq, Eq)]
pub enum Told {
    Stored(u64),
    Found(u64, u8),
    Missing(u64),
    Removed(u64),
    Absent(u64),
    Noted,
    DiskFault,
    Unsure(u64),
    Closed,
    Ahead(u64),
    /// None of these.
    Other,
}

// A reply of this kind, whose body is a stamp or a number.
fn numbered(kind: u8, number: u64) -> Told {
    match kind {
        0x81 => Told::Stored(number),
        0x83 => Told::Missing(number),
        0x84 => Told::Removed(number),
        0x85 => Told::Absent(number),
        0xE6 => Told::Unsure(number),
        0xEA => Told::Ahead(number),
        _ => Told::Other,
    }
}

// A reply of this kind, without a body.
fn bare(kind: u8) -> Told {
    match kind {
        0x87 => Told::Noted,
        0xE5 => Told::DiskFault,
        0xE7 => Told::Closed,
        _ => Told::Other,
    }
}

// The number of 8 bytes, the least first.
fn number_of(bytes: &[u8]) -> u64 {
    let mut number: u64 = 0;
    for byte in bytes.iter().rev() {
        number = number.wrapping_mul(256).wrapping_add(u64::from(*byte));
    }
    number
}

// What the bytes of a frame behind its length tell.
fn read_reply(frame: &[u8]) -> Told {
    match frame {
        [kind] => bare(*kind),
        [0x82, _, _, _, _, _, _, _, _, value] => match frame.get(1..9) {
            Some(stamp) => Told::Found(number_of(stamp), *value),
            None => Told::Other,
        },
        [kind, stamp @ ..] if stamp.len() == 8 => numbered(*kind, number_of(stamp)),
        _ => Told::Other,
    }
}

// The first frame behind its length, and the bytes behind it.
fn split_frame(bytes: &[u8]) -> Option<(&[u8], &[u8])> {
    match bytes {
        [size, 0, 0, 0, rest @ ..] => rest.split_at_checked(usize::from(*size)),
        _ => None,
    }
}

/// What the replies tell. Bytes that are no short frame tell something else.
pub fn replies_of(alloc: Global, bytes: &[u8]) -> Result<Vec<Told>, Fail> {
    let mut replies = Vec::new(alloc);
    let mut left = bytes;
    for _ in 0..bytes.len() {
        match split_frame(left) {
            Some((frame, rest)) => {
                replies.push(read_reply(frame))?;
                left = rest;
            }
            None => break,
        }
    }
    if !left.is_empty() {
        replies.push(Told::Other)?;
    }
    Ok(replies)
}
