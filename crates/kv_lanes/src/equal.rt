ghost use Rattle.std.specs.Prelude.{◌≡◌, ◌↔◌, IsTrue, length};

use std::simd::prelude::*;

/// Whether both have the same length and bytes.
pub fn same(a: &[u8], b: &[u8]) -> bool
    ensures { IsTrue result ↔ (a.now ≡ b.now) }
{
    if a.len() != b.len() {
        return false;
    }
    let mut apart = u8x64::splat(0);
    let mut at = 0;
    while a.len() - at >= 64 {
        apart |= u8x64::from_slice(&a[at..]) ^ u8x64::from_slice(&b[at..]);
        at += 64;
    }
    apart.reduce_or() == 0 && same_rest(&a[at..], &b[at..])
}

// The same, for fewer bytes than the lanes of the widest vector.
fn same_rest(a: &[u8], b: &[u8]) -> bool
    requires { length a.now ≡ length b.now }
    ensures { IsTrue result ↔ (a.now ≡ b.now) }
{
    let mut apart = u8x16::splat(0);
    let mut at = 0;
    while a.len() - at >= 16 {
        apart |= u8x16::from_slice(&a[at..]) ^ u8x16::from_slice(&b[at..]);
        at += 16;
    }
    apart.reduce_or() == 0 && same_plain(&a[at..], &b[at..])
}

// The same, byte by byte.
fn same_plain(a: &[u8], b: &[u8]) -> bool
    ensures { IsTrue result ↔ (a.now ≡ b.now) }
{
    a == b
}

#[cfg(test)]
mod tests {
    use super::*;

    #[test]
    fn one_other_byte_at_any_place_is_seen_at_every_length(rt: HostRuntime) {
        let mut a = [0u8; 200];
        for (place, byte) in a.iter_mut().enumerate() {
            *byte = (place * 37 % 251) as u8;
        }
        let mut b = a;
        for len in 0..=200 {
            assert!(rt; same(&a[..len], &b[..len]), "{len} bytes");
            for place in 0..len {
                let byte = b[place];
                b[place] = byte ^ 16;
                assert!(rt;
                    !same(&a[..len], &b[..len]),
                    "another byte at {place} of {len}"
                );
                assert_eq!(rt;
                    same(&a[..len], &b[..len]),
                    same_plain(&a[..len], &b[..len])
                );
                b[place] = byte;
            }
        }
        assert!(rt; !same(&[7; 64], &[7; 65]), "another length");
    }
}
