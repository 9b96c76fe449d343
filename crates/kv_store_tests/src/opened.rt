use crate::cases::{Case, Held};
use crate::plain::{PAGES, Plain, is_told, read};
use crate::run::{are_of, limits_of, values};
use crate::store::open;
use kv_base::Limits;
use kv_disk::MemDisk;
use kv_lanes::same;
use kv_recover::OpenFault;
use std::alloc::Global;
use std::test::Fail;

/// The first pages that wait for a sync each have a choice of their own, of so many.
pub const CHOSEN: u32 = 5;

/// What a crash leaves at a moment: of the pages that wait the j-th is as written where bit j is
/// set, and the fifth and all behind it where bit 4 is.
pub fn left(disk: &MemDisk, moment: u32, bits: u32) -> Result<MemDisk, Fail> {
    let mut choice = [0; 16];
    for page in 0..16 {
        let bit = (page as u32).min(CHOSEN - 1);
        choice[page] = bits >> bit & 1;
    }
    if moment > disk.calls() {
        return Err("no such moment".into());
    }
    Ok(disk.crash(moment, &choice)?)
}

/// Opens the disk. Whether the store, and its disk afterwards, tell what the plain reader found
/// before.
pub fn opens_as(
    alloc: Global,
    disk: MemDisk,
    limits: Limits,
    keys: &[Held],
    plain: &Plain,
) -> Result<bool, Fail> {
    let mut worker = open(alloc, disk, limits)?;
    let floor = worker.highest();
    let found = values(alloc, &mut worker, keys)?;
    let after = read(alloc, &worker.into_disk(), keys)?;
    Ok(is_told(plain, &found, floor) && is_told(&after, &found, floor))
}

/// Whether a crash leaves each key of the case its value behind the one batch or the other. The
/// plain reader finds it, and then the store that is opened.
pub fn is_left(
    alloc: Global,
    case: &Case,
    disk: &MemDisk,
    moment: u32,
    bits: u32,
    batches: (usize, usize),
) -> Result<bool, Fail> {
    let disk = left(disk, moment, bits)?;
    let plain = read(alloc, &disk, case.keys)?;
    Ok(
        are_of(&plain.values, case.keys, batches.0, batches.1)
            && opens_as(alloc, disk, limits_of(case), case.keys, &plain)?,
    )
}

// Whether the disk opens as it is told when a crash at this moment leaves of the pages that wait
// none, each choice of the first two, the first and the third, or all.
fn stops_as(
    alloc: Global,
    case: &Case,
    disk: &MemDisk,
    moment: u32,
    plain: &Plain,
) -> Result<bool, Fail> {
    for bits in [0, 1, 2, 3, 5, 31] {
        let disk = left(disk, moment, bits)?;
        if !opens_as(alloc, disk, limits_of(case), case.keys, plain)? {
            return Ok(false);
        }
    }
    Ok(true)
}

// Whether both disks have the same pages.
fn are_same(disk: &MemDisk, other: &MemDisk) -> bool {
    for file in 0..12 {
        for number in 0..PAGES[file as usize] {
            let page = u32::from(number);
            if !same(disk.page(file, page), other.page(file, page)) {
                return false;
            }
        }
    }
    true
}

// Whether the disk, stopped at each call of its opening from the first write on, opens as it is told.
// Up to there it is as at the start.
fn stops_all_as(
    alloc: Global,
    case: &Case,
    disk: &MemDisk,
    start: &MemDisk,
    plain: &Plain,
) -> Result<bool, Fail> {
    for back in 1..=disk.calls() {
        let moment = disk.calls().saturating_sub(back);
        if are_same(&left(disk, moment, 31)?, start) {
            return Ok(true);
        }
        if !stops_as(alloc, case, disk, moment, plain)? {
            return Ok(false);
        }
    }
    Ok(true)
}

// The disk once it is opened.
fn opened(alloc: Global, case: &Case, disk: MemDisk) -> Result<MemDisk, OpenFault> {
    Ok(open(alloc, disk, limits_of(case))?.into_disk())
}

/// Opens what a crash leaves, and stops that at each of its calls. Whether what is left then opens
/// with what the plain reader found before.
pub fn opens_again(
    alloc: Global,
    case: &Case,
    disk: &MemDisk,
    moment: u32,
    bits: u32,
) -> Result<bool, Fail> {
    let start = left(disk, moment, bits)?;
    let plain = read(alloc, &start, case.keys)?;
    let opened = opened(alloc, case, left(disk, moment, bits)?)?;
    stops_all_as(alloc, case, &opened, &start, &plain)
}
