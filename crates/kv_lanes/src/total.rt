ghost use Rattle.std.specs.Prelude.{◌≡◌, ◌^◌, ◌≤◌, length, sum};

use std::simd::prelude::*;

const SPAN: usize = 65536;

/// The sum of at most 2^32 bytes.
pub fn sum_bytes(bytes: &[u8]) -> u64
    requires { length bytes.now ≤ 2 ^ 32 }
    ensures { result ≡ sum bytes.now }
{
    let mut total = 0;
    let mut rest = bytes;
    while rest.len() > SPAN {
        let (front, back) = rest.split_at(SPAN);
        total += u64::from(sum_of_span(front));
        rest = back;
    }
    total + u64::from(sum_of_span(rest))
}

// The sum of so few bytes that no lane overflows.
fn sum_of_span(bytes: &[u8]) -> u32
    requires { length bytes.now ≤ 65536 }
    ensures { result ≡ sum bytes.now }
{
    let mut lanes = u32x16::splat(0);
    let mut at = 0;
    while bytes.len() - at >= 64 {
        let fours = u8x64::from_slice(&bytes[at..]).dot4(u8x64::splat(1));
        lanes = lanes.strict_add(fours);
        at += 64;
    }
    lanes.strict_reduce_sum() + sum_plain(&bytes[at..])
}

// The same, byte by byte.
fn sum_plain(bytes: &[u8]) -> u32
    requires { length bytes.now ≤ 65536 }
    ensures { result ≡ sum bytes.now }
{
    let mut total = 0;
    for byte in bytes {
        total += u32::from(*byte);
    }
    total
}

#[cfg(test)]
mod tests {
    use super::*;
    use std::test::Fail;

    #[test]
    fn each_length_has_the_sum_of_a_plain_loop(rt: HostRuntime) {
        let mut bytes = [0u8; 200];
        for (place, byte) in bytes.iter_mut().enumerate() {
            *byte = (255 - place * 37 % 251) as u8;
        }
        for len in 0..=200 {
            assert_eq!(rt;
                sum_bytes(&bytes[..len]),
                u64::from(sum_plain(&bytes[..len])),
                "{len} bytes"
            );
        }
        assert_eq!(rt; sum_bytes(&[255; 130]), 33150, "130 times 255");
    }

    // 200,000 times 255, over more than three spans.
    #[test]
    fn no_lane_overflows_over_many_spans(rt: HostRuntime) -> Result<(), Fail> {
        let bytes = vec![in rt.alloc(); 255u8; 200000]?;
        assert_eq!(rt; sum_bytes(&bytes), 51000000);
        Ok(())
    }
}
