ghost use Rattle.std.specs.Prelude.{◌≡◌, ◌≤◌, length, take};
ghost use Rattle.std.specs.Int.{w16, w32, w64, from_le_bytes};

use byteorder::{ByteOrder, LittleEndian};

/// The number in the first two bytes, the least first.
pub fn u16_at(bytes: &[u8]) -> u16
    requires { 2 ≤ length bytes.now }
    ensures { result ≡ from_le_bytes w16 (take 2 bytes.now) }
{
    LittleEndian::read_u16(bytes)
}

/// The number in the first four bytes, the least first.
pub fn u32_at(bytes: &[u8]) -> u32
    requires { 4 ≤ length bytes.now }
    ensures { result ≡ from_le_bytes w32 (take 4 bytes.now) }
{
    LittleEndian::read_u32(bytes)
}

/// The number in the first eight bytes, the least first.
pub fn u64_at(bytes: &[u8]) -> u64
    requires { 8 ≤ length bytes.now }
    ensures { result ≡ from_le_bytes w64 (take 8 bytes.now) }
{
    LittleEndian::read_u64(bytes)
}
