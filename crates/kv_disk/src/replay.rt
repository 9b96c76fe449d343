ghost use Rattle.std.specs.Prelude.{◌≡◌, ℕ, ◌+◌, ◌-◌, ◌%◌, ◌^◌, ◌<◌, ◌≤◌, ◌∷◌, [], List, All};
ghost use Rattle.std.specs.Prelude.{length, map, filter, count_by, slice_index, slice_index_or};
ghost use Rattle.std.specs.Prelude.{vec_len, vec_capacity, IfOk, OnOk};
ghost use Rattle.kv_base.specs.Image.{zero_page};
ghost use Rattle.kv_disk.specs.Replay.{place_in, start_of, Left, after_call, left_in, spots_after};
ghost use Rattle.kv_disk.specs.Replay.{spots_in, is_waiting, waiting_in, comes_before, chosen_in};
ghost use Rattle.kv_disk.specs.Replay.{held_with, settled_in, length_in, SpotFits};

use crate::call::{Call, Held, Spot};
use std::alloc::{AllocError, Global};

/// The place of a page among others.
pub fn find(spots: &[Spot], file: u8, page: u32) -> Option<usize>
    ensures { result ≡ place_in spots.now file page }
{
    spots.iter().position(|s| s.file == file && s.page == page)
}

/// The content of a page before the first call.
#[tactic(auto, unfolding(kv_base::specs::Image::zero_page))]
pub fn content_at_start(start: &[Held], file: u8, page: u32) -> [u8; 4096]
    ensures { result ≡ start_of start.now file page }
{
    for held in start {
        if held.file == file && held.page == page {
            return held.content;
        }
    }
    [0; 4096]
}

// Takes one call into what is left of a page and what it reads as.
fn take_call(
    left: &mut Vec<[u8; 4096]>,
    seen: &mut [u8; 4096],
    call: &Call,
    file: u8,
    page: u32,
) -> Result<(), AllocError>
    ensures contents { OnOk result (left.new.items
        ≡ (after_call file page (record { seen = seen.old; contents = left.old.items })
        call.now).contents) }
    ensures some { OnOk result (0 < vec_len left.old → 0 < vec_len left.new) }
    ensures seen { OnOk result (seen.new
        ≡ (after_call file page (record { seen = seen.old; contents = left.old.items })
        call.now).seen) }
{
    match call {
        Call::Write(write) => {
            if write.file == file && write.page == page {
                left.push(write.content)?;
                if write.done {
                    *seen = write.content;
                }
            }
        }
        Call::Sync => {
            left.clear();
            left.push(*seen)?;
        }
        Call::Idle => {}
    }
    Ok(())
}

/// What a crash after these calls may leave of a page: the synced content, and then each write
/// since.
pub fn left_after(
    alloc: Global,
    start: &[Held],
    log: &[Call],
    file: u8,
    page: u32,
) -> Result<Vec<[u8; 4096]>, AllocError>
    ensures items { IfOk result (λ left. left.items
        ≡ (left_in start.now log.now file page).contents) }
    ensures some { IfOk result (λ left. 0 < vec_len left) }
{
    let mut seen = content_at_start(start, file, page);
    let mut left = Vec::new(alloc);
    left.push(seen)?;
    for call in log {
        take_call(&mut left, &mut seen, call, file, page)?;
    }
    Ok(left)
}

// Adds the page that a call wrote where it is new.
fn hold_written(spots: &mut Vec<Spot>, call: &Call) -> Result<(), AllocError>
    ensures items { OnOk result (spots.new.items ≡ spots_after spots.old.items call.now) }
    ensures capacity { vec_capacity spots.old ≤ vec_capacity spots.new }
{
    if let Call::Write(write) = call {
        if find(spots, write.file, write.page).is_none() {
            spots.push(Spot {
                file: write.file,
                page: write.page,
            })?;
        }
    }
    Ok(())
}

/// The pages that are held after these calls, in a vector with this room.
pub fn spots_held(
    alloc: Global,
    start: &[Held],
    log: &[Call],
    room: usize,
) -> Result<Vec<Spot>, AllocError>
    ensures items { IfOk result (λ spots. spots.items ≡ spots_in start.now log.now) }
    ensures capacity { IfOk result (λ spots. room ≤ vec_capacity spots) }
{
    let mut spots = Vec::with_capacity(alloc, room)?;
    for held in start {
        spots.push(Spot {
            file: held.file,
            page: held.page,
        })?;
    }
    for call in log {
        hold_written(&mut spots, call)?;
    }
    Ok(spots)
}

/// The held pages that have writes since the last sync.
pub fn waiting(
    alloc: Global,
    start: &[Held],
    log: &[Call],
    spots: &[Spot],
) -> Result<Vec<Spot>, AllocError>
    ensures { IfOk result (λ waiting. waiting.items ≡ filter (is_waiting start.now log.now)
        spots.now) }
{
    let mut waiting = Vec::new(alloc);
    for spot in spots {
        if left_after(alloc, start, log, spot.file, spot.page)?.len() > 1 {
            waiting.push(*spot)?;
        }
    }
    Ok(waiting)
}

// How many of these pages come before this one, by file and page.
fn rank_of(waiting: &[Spot], file: u8, page: u32) -> usize
    ensures { result ≡ count_by (comes_before file page) waiting.now }
{
    waiting
        .iter()
        .filter(|s| s.file < file || (s.file == file && s.page < page))
        .count()
}

// The content that the choices give to a page.
fn chosen(
    alloc: Global,
    start: &[Held],
    log: &[Call],
    waiting: &[Spot],
    choice: &[u32],
    file: u8,
    page: u32,
) -> Result<[u8; 4096], AllocError>
    requires { waiting.now ≡ waiting_in start.now log.now }
    ensures { IfOk result (λ content. content ≡ chosen_in start.now log.now choice.now file page) }
{
    let left = left_after(alloc, start, log, file, page)?;
    let choice = choice
        .get(rank_of(waiting, file, page))
        .copied()
        .unwrap_or(0);
    Ok(left[choice as usize % left.len()])
}

/// The pages that a crash after these calls leaves by these choices, in a vector with this room.
pub fn settled(
    alloc: Global,
    start: &[Held],
    log: &[Call],
    spots: &[Spot],
    waiting: &[Spot],
    choice: &[u32],
    room: usize,
) -> Result<Vec<Held>, AllocError>
    requires spots { spots.now ≡ spots_in start.now log.now }
    requires waiting { waiting.now ≡ waiting_in start.now log.now }
    ensures items { IfOk result (λ pages. pages.items ≡ settled_in start.now log.now choice.now) }
    ensures capacity { IfOk result (λ pages. room ≤ vec_capacity pages) }
{
    let mut pages = Vec::with_capacity(alloc, room)?;
    for spot in spots {
        let content = chosen(alloc, start, log, waiting, choice, spot.file, spot.page)?;
        pages.push(Held {
            file: spot.file,
            page: spot.page,
            content,
        })?;
    }
    Ok(pages)
}

/// The contents of these pages, in a vector with this room.
pub fn contents_of(
    alloc: Global,
    pages: &[Held],
    room: usize,
) -> Result<Vec<[u8; 4096]>, AllocError>
    ensures items { IfOk result (λ contents. contents.items ≡ map (λ held. held.content) pages.now) }
    ensures capacity { IfOk result (λ contents. room ≤ vec_capacity contents) }
{
    let mut contents = Vec::with_capacity(alloc, room)?;
    for held in pages {
        contents.push(held.content)?;
    }
    Ok(contents)
}

/// One past the last page of the file, and 0 where there is none.
pub fn length_of(spots: &[Spot], file: u8) -> u32
    requires { All SpotFits spots.now }
    ensures { result ≡ length_in spots.now file }
{
    let mut longest = 0;
    for spot in spots {
        if spot.file == file && longest < spot.page + 1 {
            longest = spot.page + 1;
        }
    }
    longest
}
