ghost use Rattle.std.specs.Prelude.{◌≡◌, ◌==◌, ◌↔◌, IsTrue, replicate, length};
ghost use Rattle.std.specs.List.{list_all};

use std::simd::prelude::*;

/// Whether all bytes are 0.
pub fn is_zero(bytes: &[u8]) -> bool
    ensures value { result ≡ list_all (λ byte. byte == 0) bytes.now }
    ensures zeros { IsTrue result ↔ (bytes.now ≡ replicate (length bytes.now) 0) }
{
    let mut seen = u8x64::splat(0);
    let mut at = 0;
    while bytes.len() - at >= 64 {
        seen |= u8x64::from_slice(&bytes[at..]);
        at += 64;
    }
    seen.reduce_or() == 0 && is_zero_rest(&bytes[at..])
}

// The same, for fewer bytes than the lanes of the widest vector.
fn is_zero_rest(bytes: &[u8]) -> bool
    ensures { result ≡ list_all (λ byte. byte == 0) bytes.now }
{
    let mut seen = u8x16::splat(0);
    let mut at = 0;
    while bytes.len() - at >= 16 {
        seen |= u8x16::from_slice(&bytes[at..]);
        at += 16;
    }
    seen.reduce_or() == 0 && is_zero_plain(&bytes[at..])
}

// The same, byte by byte.
fn is_zero_plain(bytes: &[u8]) -> bool
    ensures { result ≡ list_all (λ byte. byte == 0) bytes.now }
{
    bytes.iter().all(|byte| *byte == 0)
}

#[cfg(test)]
mod tests {
    use super::*;

    #[test]
    fn one_byte_at_any_place_is_seen_at_every_length(rt: HostRuntime) {
        let mut bytes = [0u8; 200];
        for len in 0..=200 {
            assert!(rt; is_zero(&bytes[..len]), "{len} zeros");
            for place in 0..len {
                bytes[place] = 128;
                assert!(rt; !is_zero(&bytes[..len]), "a byte at {place} of {len}");
                assert_eq!(rt; is_zero(&bytes[..len]), is_zero_plain(&bytes[..len]));
                bytes[place] = 0;
            }
        }
    }
}
