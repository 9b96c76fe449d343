//! Drawn disks beside the plain reader.
ghost use Rattle.std.specs.Prelude.{◌≤◌, ◌<◌};

use crate::drawn::{Both, PAGES, any_disk, below, put_header};
use kv_base::{Limits, Place};
use kv_disk::{Disk, PlainDisk};
use kv_model::{PlainImage, Stored};
use kv_recover::{KeptList, OpenFault, Survey, kept, open_store, survey};
use kv_slot::spot;
use kv_tree::TreeIndex;
use rand_pcg::Pcg32;
use std::alloc::Global;
use std::test::*;

// The slots that a class may have.
const SLOTS: u32 = 1000;

// What the disk reads as now.
fn image_of(alloc: Global, disk: &mut PlainDisk) -> Result<PlainImage, OpenFault> {
    let mut image = PlainImage::new(alloc);
    for file in 0..12 {
        for number in 0..PAGES[file as usize] {
            let mut page = [0; 4096];
            disk.read(file, u32::from(number), &mut page)?;
            image.write_page(file, number, &page)?;
        }
    }
    Ok(image)
}

// Whether these are the same items, which are listed by rising key.
fn are_listed(list: &KeptList, kept: &[Stored]) -> bool {
    let mut same = list.as_slice().len() == kept.len();
    let mut last: Option<&[u8]> = None;
    for item in list.as_slice() {
        let key = item.key.as_slice();
        same = same
            && last.is_none_or(|last| last < key)
            && kept.iter().any(|other| {
                other.key.as_slice() == key
                    && other.stamp == item.stamp
                    && other.place == item.place
            });
        last = Some(key);
    }
    same
}

// Whether both are the same items in the same places.
fn are_same(kept: &[Stored], others: &[Stored]) -> bool {
    kept.len() == others.len()
        && kept.iter().zip(others).all(|(item, other)| {
            item.key.as_slice() == other.key.as_slice()
                && item.value.as_slice() == other.value.as_slice()
                && item.stamp == other.stamp
                && item.place == other.place
        })
}

// Whether the survey has these ends and so many kept items.
fn is_surveyed(survey: &Survey, ends: &[u32; 12], kept: usize) -> bool {
    survey.keys as usize == kept
        && survey
            .classes
            .as_slice()
            .iter()
            .zip(&ends[1..])
            .all(|(count, end)| count.end == *end)
}

// Whether the slot has a tombstone of this stamp with this link field.
fn is_freed(
    disk: &mut PlainDisk,
    class: u8,
    slot: u32,
    stamp: u64,
    link: u32,
) -> Result<bool, OpenFault> {
    if class == 0 || class > 11 || slot >= 1 << 24 {
        return Ok(false);
    }
    let (number, offset) = spot(Place { class, slot });
    let mut page = [0; 4096];
    disk.read(class, number, &mut page)?;
    let mut wanted = [0; 4096];
    put_header(&mut wanted, 0, stamp, 2, link, 0);
    let begin = offset as usize;
    Ok(page.get(begin..begin.saturating_add(16)) == wanted.get(..16))
}

// Whether each free slot has a tombstone of the stamp that links to the 64th before it.
fn are_freed(
    disk: &mut PlainDisk,
    class: u8,
    slots: &[u32],
    stamp: u64,
) -> Result<bool, OpenFault> {
    let mut same = true;
    for place in 0..slots.len() {
        let link = match place.checked_sub(64) {
            None => 0,
            Some(before) => slots[before].saturating_add(1),
        };
        same = same && is_freed(disk, class, slots[place], stamp, link)?;
    }
    Ok(same)
}

// How many of the items are of the class.
fn count_in(kept: &[Stored], class: u8) -> u32 {
    let mut count = 0u32;
    for item in kept {
        if item.place.class == class {
            count = count.saturating_add(1);
        }
    }
    count
}

// What the plain reader says of an image.
#[derive(Drop)]
struct Expected {
    ends: [u32; 12],
    floor: u64,
    kept: Vec<Stored>,
}

fn expected_of(image: &PlainImage, worker: u32, workers: u32) -> Result<Expected, OpenFault>
    requires { (worker < workers) × (workers ≤ 16) }
{
    Ok(Expected {
        ends: image.ends()?,
        floor: image.floor()?,
        kept: image.kept(worker, workers)?,
    })
}

// Whether the survey and the list of the disk say the same.
fn is_told(
    alloc: Global,
    disk: &mut PlainDisk,
    worker: u32,
    workers: u32,
    expected: &Expected,
) -> Result<bool, OpenFault>
    requires { (worker < workers) × (workers ≤ 16) }
{
    let surveyed = survey(alloc, disk, worker, workers)?;
    let listed = kept(alloc, disk, worker, workers)?;
    Ok(
        surveyed.floor == expected.floor
            && is_surveyed(&surveyed, &expected.ends, expected.kept.len())
            && are_listed(&listed, &expected.kept),
    )
}

// The disk as opening leaves it, if the opened store has the floor and the room that it should.
fn opened_disk(
    alloc: Global,
    disk: PlainDisk,
    worker: u32,
    workers: u32,
    expected: &Expected,
) -> Result<Option<PlainDisk>, OpenFault>
    requires { (worker < workers) × (workers ≤ 16) }
{
    let limits = Limits {
        slots: SLOTS,
        cache: 4,
    };
    let opened = match open_store(alloc, disk, TreeIndex::new(alloc), worker, workers, limits) {
        Ok(opened) => opened,
        Err((_, fault)) => return Err(fault),
    };
    let mut same = opened.floor == expected.floor;
    for class in 1..12 {
        let room = SLOTS.saturating_sub(count_in(&expected.kept, class));
        same = same && opened.slabs.room(class) == room;
    }
    let disk = opened.slabs.into_disk();
    Ok(if same { Some(disk) } else { None })
}

// Whether these are what the plain reader said before.
fn is_as_before(now: &Expected, before: &Expected) -> bool {
    now.ends == before.ends && now.floor == before.floor && are_same(&now.kept, &before.kept)
}

// Whether each slot that is free in the image has its tombstone on the disk now.
fn all_freed(
    disk: &mut PlainDisk,
    image: &PlainImage,
    worker: u32,
    workers: u32,
    floor: u64,
) -> Result<bool, OpenFault>
    requires { (worker < workers) × (workers ≤ 16) }
{
    let mut same = true;
    for class in [1, 2, 6, 7, 8, 9] {
        let free = image.free(worker, workers, class)?;
        same = same && are_freed(disk, class, &free, floor)?;
    }
    Ok(same)
}

// Where what is told of a drawn disk, or an opened store, differs from what the plain reader says.
fn difference(alloc: Global, draw: &mut Pcg32) -> Result<Option<&'static str>, OpenFault> {
    let workers = below(draw, 3) + 1;
    let worker = below(draw, workers);
    let Both { mut disk, image } = any_disk(alloc, draw, worker, workers)?;
    let expected = expected_of(&image, worker, workers)?;
    if !is_told(alloc, &mut disk, worker, workers, &expected)? {
        return Ok(Some("survey or list"));
    }
    let mut disk = match opened_disk(alloc, disk, worker, workers, &expected)? {
        Some(disk) => disk,
        None => return Ok(Some("floor or room")),
    };
    let after = image_of(alloc, &mut disk)?;
    if !is_as_before(&expected_of(&after, worker, workers)?, &expected) {
        return Ok(Some("what stands afterwards"));
    }
    if !all_freed(&mut disk, &image, worker, workers, expected.floor)? {
        return Ok(Some("free slots"));
    }
    Ok(None)
}

#[test]
fn drawn_disks_open_as_the_plain_reader_says(rt: HostRuntime) -> Result<(), Fail> {
    let mut draw = Pcg32::new(42, 54);
    for round in 0..100 {
        assert_eq!(rt; difference(rt.alloc(), &mut draw)?, None, "round {round}");
    }
    Ok(())
}
