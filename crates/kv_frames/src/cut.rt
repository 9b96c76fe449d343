ghost use Rattle.kv_frames.specs.Cut.{IsFront};

use crate::numbers::u32_in;

/// The most bytes of kind and body.
pub const LONGEST_CONTENT: usize = 66_000;

/// What bytes begin with, as far as the length at their front tells.
#[derive(Clone, Copy, Debug)]
pub enum Front<'a> {
    /// A frame with this content: its kind and its body.
    Whole {
        /// The content, 1 to 66,000 bytes.
        content: &'a [u8],
    },
    /// A part of a frame, or nothing.
    More,
    /// A length out of range.
    Malformed,
}

/// Cuts the first frame's content off, by the length that the bytes begin with. Takes no memory.
pub fn cut_front(bytes: &[u8]) -> Front<'_>
    ensures { IsFront result bytes.now }
{
    let Some((length, rest)) = bytes.split_first_chunk::<4>() else {
        return Front::More;
    };
    let length = u32_in(length) as usize;
    if length < 1 || LONGEST_CONTENT < length {
        return Front::Malformed;
    }
    if rest.len() < length {
        return Front::More;
    }
    Front::Whole {
        content: &rest[..length],
    }
}
