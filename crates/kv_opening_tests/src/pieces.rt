//! Disks that are given byte by byte, and what is told of them.
use crate::disks::LIMITS;
use kv_disk::{Disk, PlainDisk};
use kv_recover::{ClassCount, OpenFault, open_store, survey};
use kv_tree::TreeIndex;
use std::alloc::Global;

/// Bytes at an offset of a page of a file.
pub type Piece = (u8, u32, usize, &'static [u8]);

/// The head page of worker 0 of 2.
pub const HEAD: Piece = (0, 0, 0, b"KVPAGED1\x01\0\0\0\x02\0");

/// A disk that reads as these pieces, and as zeros else.
pub fn disk_of(alloc: Global, head: &[Piece], rest: &[Piece]) -> Result<PlainDisk, OpenFault> {
    let mut disk = PlainDisk::new(alloc, 8)?;
    for (file, page, offset, bytes) in head.iter().chain(rest) {
        if *file <= 13 && *page < 1_000_000 {
            let mut content = [0; 4096];
            disk.read(*file, *page, &mut content)?;
            for (to, from) in content.iter_mut().skip(*offset).zip(*bytes) {
                *to = *from;
            }
            disk.write(*file, *page, &content)?;
        }
    }
    Ok(disk)
}

/// Whether the pieces stand on the disk.
pub fn has(disk: &mut PlainDisk, pieces: &[Piece]) -> Result<bool, OpenFault> {
    let mut all = true;
    for (file, page, offset, bytes) in pieces {
        if *file <= 13 && *page < 1_000_000 {
            let mut content = [0; 4096];
            disk.read(*file, *page, &mut content)?;
            let there = content.iter().skip(*offset).take(bytes.len());
            all = all && there.eq(bytes.iter());
        }
    }
    Ok(all)
}

/// The counts of this class less 1, the floor and the number of keys.
pub fn counts_of(
    alloc: Global,
    disk: &mut PlainDisk,
    class: usize,
) -> Result<(Option<ClassCount>, u64, u32), OpenFault> {
    let found = survey(alloc, disk, 0, 2)?;
    let count = found.classes.as_slice().get(class).copied();
    Ok((count, found.floor, found.keys))
}

/// The disk once it was opened, and the floor of the store.
pub fn opened(alloc: Global, disk: PlainDisk) -> Result<(PlainDisk, u64), OpenFault> {
    match open_store(alloc, disk, TreeIndex::new(alloc), 0, 2, LIMITS) {
        Ok(store) => Ok((store.slabs.into_disk(), store.floor)),
        Err((_, fault)) => Err(fault),
    }
}

/// The counts in the order end, kept, stale, foreign, tomb, never, torn and bad.
pub fn count_of(counts: [u32; 8]) -> ClassCount {
    let [end, kept, stale, foreign, tomb, never, torn, bad] = counts;
    ClassCount {
        end,
        kept,
        stale,
        foreign,
        tomb,
        never,
        torn,
        bad,
    }
}
