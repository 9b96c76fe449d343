//! Disks that are drawn: few keys and few stamps in slots of some classes.
ghost use Rattle.std.specs.Prelude.{◌≤◌, ◌<◌};

use crate::disks::head_of;
use kv_disk::{Disk, PlainDisk};
use kv_model::PlainImage;
use kv_recover::OpenFault;
use rand_pcg::Pcg32;
use rand_pcg::rand_core::Rng;
use std::alloc::Global;

/// The pages that an image may have: of each file from 0 to 11 so many.
pub const PAGES: [u16; 12] = [1, 2, 1, 0, 0, 0, 1, 1, 4, 4, 0, 0];

/// A number below this one, which isn't 0.
pub fn below(draw: &mut Pcg32, limit: u32) -> u32
    requires { 1 ≤ limit }
    ensures { result < limit }
{
    draw.next_u32() % limit
}

// Copies the bytes into the page.
fn put(page: &mut [u8; 4096], offset: usize, bytes: &[u8]) {
    for i in 0..bytes.len() {
        let place = offset.saturating_add(i);
        if place < 4096 {
            page[place] = bytes[i];
        }
    }
}

/// Puts a header into the page, and a key of one byte.
pub fn put_header(page: &mut [u8; 4096], offset: usize, stamp: u64, kind: u16, last: u32, key: u8) {
    put(page, offset, &stamp.to_le_bytes());
    put(page, offset.saturating_add(8), &kind.to_le_bytes());
    if kind == 1 {
        put(page, offset.saturating_add(10), &[1]);
    }
    put(page, offset.saturating_add(12), &last.to_le_bytes());
    put(page, offset.saturating_add(16), &[key]);
}

// What a page of a file may have: the bytes from slot to slot, the greatest number of stamps, and
// the length below which values are drawn.
#[derive(Clone, Copy)]
struct Kinds {
    size: usize,
    stamps: u32,
    longest: u32,
}

// What pages of the file may have.
fn kinds_of(file: u8) -> Kinds
    ensures size { 64 ≤ result.size }
    ensures some { (1 ≤ result.stamps) × (1 ≤ result.longest) }
{
    let (size, stamps, longest) = match file {
        1 => (64, 12, 60),
        2 => (128, 12, 140),
        6 => (2048, 12, 2100),
        7 => (4096, 12, 4200),
        8 => (4096, 2, 9000),
        _ => (4096, 2, 17000),
    };
    Kinds {
        size,
        stamps,
        longest,
    }
}

// Puts something into a slot: most often an item of few keys and few stamps, whose value may be of
// another class; else a tombstone, a slot of another kind, some byte, or nothing.
fn put_any(draw: &mut Pcg32, page: &mut [u8; 4096], offset: usize, kinds: &Kinds)
    requires { (1 ≤ kinds.now.stamps) × (1 ≤ kinds.now.longest) }
{
    let stamp = u64::from(below(draw, kinds.stamps));
    let key = below(draw, 6) as u8 + b'a';
    let value = below(draw, kinds.longest);
    let some = below(draw, 56) as usize + 8;
    match below(draw, 8) {
        0..=3 => {
            put(page, offset.saturating_add(17), &[key, key]);
            put_header(page, offset, stamp, 1, value, key);
        }
        4 => put_header(page, offset, stamp, 2, value % 9, 0),
        5 => put_header(page, offset, stamp, 3, value, key),
        6 => put(page, offset.saturating_add(some), &[key]),
        _ => {}
    }
}

// A page of the file. Of a slot in several pages a later page has a stamp that may be another.
fn any_page(draw: &mut Pcg32, file: u8, number: u16) -> [u8; 4096] {
    let kinds = kinds_of(file);
    let mut page = [0; 4096];
    if file == 8 && number % 2 != 0 || file == 9 && number % 4 != 0 {
        let stamp = u64::from(below(draw, kinds.stamps));
        put(&mut page, 0, &stamp.to_le_bytes());
        put(&mut page, 8, &[7]);
        return page;
    }
    for slot in 0..4096 / kinds.size {
        put_any(draw, &mut page, slot.saturating_mul(kinds.size), &kinds);
    }
    page
}

/// One disk both ways.
#[derive(Drop)]
pub struct Both {
    /// The disk.
    pub disk: PlainDisk,
    /// What it reads as.
    pub image: PlainImage,
}

// Writes a page to both.
fn write_both(both: &mut Both, file: u8, number: u16, page: &[u8; 4096]) -> Result<(), OpenFault>
    requires { file ≤ 13 }
{
    both.disk.write(file, u32::from(number), page)?;
    both.image.write_page(file, number, page)?;
    Ok(())
}

/// A disk with the head of the worker and pages of some classes.
pub fn any_disk(
    alloc: Global,
    draw: &mut Pcg32,
    worker: u32,
    workers: u32,
) -> Result<Both, OpenFault>
    requires { (worker < workers) × (workers ≤ 16) }
{
    let mut both = Both {
        disk: PlainDisk::new(alloc, 40)?,
        image: PlainImage::new(alloc),
    };
    write_both(&mut both, 0, 0, &head_of(worker, workers))?;
    for file in 1..12 {
        if below(draw, 3) != 0 {
            for number in 0..PAGES[file as usize] {
                let page = any_page(draw, file, number);
                write_both(&mut both, file, number, &page)?;
            }
        }
    }
    Ok(both)
}
