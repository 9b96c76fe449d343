ghost use Rattle.std.specs.Prelude.{◌≡◌, ◌≤◌, ◌++◌, length, drop};
ghost use Rattle.kv_model.specs.SlotBytes.{header_bytes};
ghost use Rattle.kv_model.specs.Slots.{stamp_field, kind_field, key_length_field, last_field};

use crate::numbers::{u16_at, u32_at, u64_at};
use byteorder::{ByteOrder, LittleEndian};

/// The bytes of a header.
pub const HEADER: usize = 16;

/// The kind of a slot that was never written.
pub const NEVER: u16 = 0;

/// The kind of an item.
pub const ITEM: u16 = 1;

/// The kind of a tombstone.
pub const TOMBSTONE: u16 = 2;

/// The fields of a header.
#[derive(Clone, Copy)]
pub struct Header {
    /// The stamp field.
    pub stamp: u64,
    /// The kind.
    pub kind: u16,
    /// The key's length.
    pub key_len: u16,
    /// An item's value length, or a tombstone's link.
    pub last: u32,
}

/// The fields of the header that these bytes begin with.
pub fn read_header(header: &[u8]) -> Header
    requires { 16 ≤ length header.now }
    ensures stamp { result.stamp ≡ stamp_field header.now }
    ensures kind { result.kind ≡ kind_field header.now }
    ensures key_len { result.key_len ≡ key_length_field header.now }
    ensures last { result.last ≡ last_field header.now }
{
    Header {
        stamp: u64_at(header),
        kind: u16_at(&header[8..]),
        key_len: u16_at(&header[10..]),
        last: u32_at(&header[12..]),
    }
}

/// Writes a header to the front of the slot.
pub fn put_header(slot: &mut [u8], stamp: u64, kind: u16, key_len: u16, last: u32)
    requires { 16 ≤ length slot.old }
    ensures { slot.new ≡ header_bytes stamp kind key_len last ++ drop 16 slot.old }
{
    LittleEndian::write_u64(slot, stamp);
    LittleEndian::write_u16(&mut slot[8..], kind);
    LittleEndian::write_u16(&mut slot[10..], key_len);
    LittleEndian::write_u32(&mut slot[12..], last);
}
