//! Disks that are refused, worked by hand from docs/format.md.
ghost use Rattle.std.specs.Prelude.{◌≤◌, ◌<◌};

use crate::disks::{LIMITS, disk_with};
use crate::pieces::{HEAD, Piece, disk_of, has};
use kv_disk::PlainDisk;
use kv_recover::{OpenFault, open_store};
use kv_tree::TreeIndex;
use std::alloc::Global;
use std::test::*;

// Why a disk doesn't open for this worker, and the disk then.
fn refusal(
    alloc: Global,
    disk: PlainDisk,
    worker: u32,
    workers: u32,
) -> Option<(PlainDisk, OpenFault)>
    requires below { worker < workers }
    requires limit { workers ≤ 16 }
{
    match open_store(alloc, disk, TreeIndex::new(alloc), worker, workers, LIMITS) {
        Ok(_) => None,
        Err(refused) => Some(refused),
    }
}

// Why alone.
fn fault(alloc: Global, disk: PlainDisk, worker: u32, workers: u32) -> Option<OpenFault>
    requires below { worker < workers }
    requires limit { workers ≤ 16 }
{
    match refusal(alloc, disk, worker, workers) {
        None => None,
        Some((_, fault)) => Some(fault),
    }
}

#[test]
fn other_disks_are_refused(rt: HostRuntime) -> Result<(), Fail> {
    let alloc = rt.alloc();
    let other = OpenFault::OtherStore {
        kept_worker: 0,
        kept_workers: 1,
        asked_worker: 1,
        asked_workers: 2,
    };
    let disk = disk_with(alloc, 0, 1, &[0; 4096])?;
    assert_eq!(rt; fault(alloc, disk, 1, 2), Some(other));
    assert_eq!(rt; fault(alloc, PlainDisk::new(alloc, 1)?, 1, 2), None);
    let full = PlainDisk::new(alloc, 0)?;
    assert_eq!(rt; fault(alloc, full, 0, 1), Some(OpenFault::DiskFault));
    Ok(())
}

// A disk that isn't opened as that of worker 0 of 2, and why.
type Refused = (&'static str, &'static [Piece], OpenFault);

static REFUSED: [Refused; 7] = [
    (
        "one byte of a head",
        &[(0, 0, 0, b"X")],
        OpenFault::NotAStore,
    ),
    (
        "a zero head and one byte of file 3",
        &[(3, 1, 4095, b"\x01")],
        OpenFault::NotAStore,
    ),
    (
        "a head of format 2",
        &[(0, 0, 0, b"KVPAGED1\x02\0\0\0\x02\0")],
        OpenFault::NotAStore,
    ),
    (
        "a byte behind the head",
        &[HEAD, (0, 0, 4095, b"\x01")],
        OpenFault::NotAStore,
    ),
    (
        "the head of worker 0 of 1",
        &[(0, 0, 0, b"KVPAGED1\x01\0\0\0\x01\0")],
        OpenFault::OtherStore {
            kept_worker: 0,
            kept_workers: 1,
            asked_worker: 0,
            asked_workers: 2,
        },
    ),
    (
        "a stamp of 2^62 - 1",
        &[
            HEAD,
            (1, 0, 0, b"\xff\xff\xff\xff\xff\xff\xff\x3f\x02\0"),
            (1, 0, 64, b"\x03\0\0\0\0\0\0\0\x07\0"),
        ],
        OpenFault::StampsSpent {
            stamp: 4_611_686_018_427_387_903,
        },
    ),
    (
        "a stamp of ones at the head of a later page",
        &[HEAD, (9, 3, 0, b"\xff\xff\xff\xff\xff\xff\xff\xff")],
        OpenFault::StampsSpent {
            stamp: 18_446_744_073_709_551_615,
        },
    ),
];

// Why the disk of these pieces doesn't open, and whether it has them still.
fn refusal_of(alloc: Global, pieces: &[Piece]) -> Result<(Option<OpenFault>, bool), OpenFault> {
    let disk = disk_of(alloc, &[], pieces)?;
    match refusal(alloc, disk, 0, 2) {
        None => Ok((None, false)),
        Some((mut disk, fault)) => Ok((Some(fault), has(&mut disk, pieces)?)),
    }
}

#[test]
fn a_disk_that_is_refused_stays(rt: HostRuntime) -> Result<(), Fail> {
    let alloc = rt.alloc();
    for (what, pieces, fault) in &REFUSED {
        let found = refusal_of(alloc, *pieces)?;
        assert_eq!(rt; found, (Some(*fault), true), "{what}");
    }
    let spent = OpenFault::StampsSpent { stamp: u64::MAX };
    let found = refusal_of(alloc, &[HEAD, (1, 0, 0, &[255; 4096])])?;
    assert_eq!(rt; found, (Some(spent), true), "a page of ones");
    Ok(())
}
