ghost use Rattle.std.specs.Prelude.{◌≡◌};
ghost use Rattle.std.specs.Int.{w32, w64, to_le_bytes, from_le_bytes};
ghost use Rattle.kv_frames.specs.Reading.{number_in};

use byteorder::{ByteOrder, LittleEndian};

/// The number in these four bytes, the least first.
pub fn u32_in(bytes: &[u8; 4]) -> u32
    ensures { result ≡ from_le_bytes w32 bytes.now }
{
    LittleEndian::read_u32(bytes)
}

/// The number in these eight bytes, the least first.
pub fn u64_in(bytes: &[u8; 8]) -> u64
    ensures { result ≡ from_le_bytes w64 bytes.now }
{
    LittleEndian::read_u64(bytes)
}

/// The number in four bytes, the least first.
pub fn u32_bytes(number: u32) -> [u8; 4]
    ensures { result ≡ to_le_bytes w32 number }
{
    let mut bytes = [0; 4];
    LittleEndian::write_u32(&mut bytes, number);
    bytes
}

/// The number in eight bytes, the least first.
pub fn u64_bytes(number: u64) -> [u8; 8]
    ensures { result ≡ to_le_bytes w64 number }
{
    let mut bytes = [0; 8];
    LittleEndian::write_u64(&mut bytes, number);
    bytes
}

/// The number that the body is, where it has just its eight bytes.
pub fn read_number(body: &[u8]) -> Option<u64>
    ensures { result ≡ number_in body.now }
{
    match body.split_first_chunk::<8>() {
        Some((number, [])) => Some(u64_in(number)),
        _ => None,
    }
}
