//! Free slots and their links, worked by hand from docs/format.md.
use crate::pieces::{HEAD, count_of, counts_of, disk_of, opened};
use kv_disk::{Disk, PlainDisk};
use kv_recover::OpenFault;
use std::alloc::Global;
use std::test::*;

// Slots of class 1 of a kind that no store writes, the last one with stamp 42.
fn bad_slots(alloc: Global, count: u32) -> Result<PlainDisk, OpenFault> {
    let mut disk = disk_of(alloc, &[HEAD], &[])?;
    for slot in 0..count {
        let (page, offset) = (slot / 64, slot % 64 * 64);
        let mut content = [0; 4096];
        disk.read(1, page, &mut content)?;
        content[offset as usize + 8] = 7;
        if slot + 1 == count {
            content[offset as usize] = 42;
        }
        disk.write(1, page, &content)?;
    }
    Ok(disk)
}

// Whether each slot of class 1 has a tombstone of stamp 42 that links to the 64th slot before it.
fn has_links(disk: &mut PlainDisk, count: u32) -> Result<bool, OpenFault> {
    let mut all = true;
    for slot in 0..count {
        let (page, offset) = (slot / 64, slot % 64 * 64);
        let mut content = [0; 4096];
        disk.read(1, page, &mut content)?;
        let mut wanted = [0u8; 64];
        wanted[0] = 42;
        wanted[8] = 2;
        wanted[12..16].copy_from_slice(&slot.saturating_sub(63).to_le_bytes());
        let there = content.iter().skip(offset as usize).take(64);
        all = all && there.eq(wanted.iter());
    }
    Ok(all)
}

#[test]
fn a_free_slot_links_to_the_64th_before_it(rt: HostRuntime) -> Result<(), Fail> {
    let alloc = rt.alloc();
    let disk = bad_slots(alloc, 200)?;
    let (mut disk, floor) = opened(alloc, disk)?;
    assert_eq!(rt; (floor, has_links(&mut disk, 200)?), (42, true));
    let (mut disk, floor) = opened(alloc, disk)?;
    assert_eq!(rt;
        (floor, has_links(&mut disk, 200)?),
        (42, true),
        "opened again"
    );
    let counts = count_of([200, 0, 0, 0, 200, 0, 0, 0]);
    assert_eq!(rt; counts_of(alloc, &mut disk, 0)?, (Some(counts), 42, 0));
    Ok(())
}
