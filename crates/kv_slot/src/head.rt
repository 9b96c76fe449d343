ghost use Rattle.std.specs.Prelude.{◌≡◌, ℕ, ◌+◌, ◌<◌, ◌≤◌, ◌++◌, ◌↔◌, IsTrue, length, take, drop};
ghost use Rattle.std.specs.Int.{w16, to_le_bytes, from_le_bytes};
ghost use Rattle.kv_base.specs.Image.{zero_page};
ghost use Rattle.kv_model.specs.Head.{IsHead, head_page, magic};
ghost use Rattle.kv_model.specs.Padding.{padded};
ghost use Rattle.kv_slot.specs.Heads.{IsReadAs};

use crate::numbers::u16_at;
use crate::overwrite::{clear_from, put_at};
use byteorder::{ByteOrder, LittleEndian};
use kv_lanes::same;

const MAGIC: [u8; 8] = *b"KVPAGED1";

const FORMAT: u16 = 1;

const MOST_WORKERS: u32 = 16;

/// What the head page of a disk says.
#[derive(Clone, Copy, Debug, PartialEq, Eq)]
pub enum HeadRead {
    /// All bytes are zero: no store was ever made on the disk.
    Zero,
    /// The disk of one worker of a store.
    Head {
        /// The worker's number, below `workers`.
        worker: u32,
        /// The number of workers, 1 to 16.
        workers: u32,
    },
    /// Anything else.
    Other,
}

/// Makes the page the head of this worker of so many, 1 to 16.
pub fn put_head(page: &mut [u8; 4096], worker: u32, workers: u32)
    requires below { worker < workers }
    requires limit { workers ≤ 16 }
    ensures bytes { page.new ≡ head_page worker workers }
    ensures size { length page.new ≡ 4096 }
{
    fill_head(page, worker, workers);
}

fn fill_head(page: &mut [u8], worker: u32, workers: u32)
    requires below { worker < workers }
    requires limit { workers ≤ 16 }
    requires page { 14 ≤ length page.old }
    ensures { page.new ≡ padded (length page.old) (magic ++ to_le_bytes w16 1 ++ to_le_bytes w16
        worker ++ to_le_bytes w16 workers) }
{
    put_at(page, 0, &MAGIC);
    LittleEndian::write_u16(&mut page[8..], FORMAT);
    LittleEndian::write_u16(&mut page[10..], worker as u16);
    LittleEndian::write_u16(&mut page[12..], workers as u16);
    clear_from(page, 14);
}

/// What the head page says. It is a head exactly where it is as `put_head` writes it.
pub fn read_head(page: &[u8; 4096]) -> HeadRead
    ensures value { IsReadAs result page.now }
    ensures zero { page.now ≡ zero_page → result ≡ HeadRead.Zero }
    ensures head { (worker workers : ℕ) → IsHead page.now worker workers
        → result ≡ HeadRead.Head worker workers }
{
    if is_zero(page) {
        return HeadRead::Zero;
    }
    let worker = field(page, 10);
    let workers = field(page, 12);
    if is_head(page, worker, workers) {
        HeadRead::Head { worker, workers }
    } else {
        HeadRead::Other
    }
}

fn field(page: &[u8], offset: usize) -> u32
    requires { offset + 2 ≤ length page.now }
    ensures { result ≡ from_le_bytes w16 (take 2 (drop offset page.now)) }
{
    u32::from(u16_at(&page[offset..]))
}

fn is_zero(page: &[u8; 4096]) -> bool
    ensures { IsTrue result ↔ (page.now ≡ zero_page) }
{
    kv_lanes::is_zero(page)
}

fn is_head(page: &[u8; 4096], worker: u32, workers: u32) -> bool
    ensures { IsTrue result ↔ IsHead page.now worker workers }
{
    if worker >= workers || workers > MOST_WORKERS {
        return false;
    }
    let mut head = [0; 4096];
    put_head(&mut head, worker, workers);
    same(page, &head)
}
