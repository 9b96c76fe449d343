use crate::test_run::{crashed, new_disk, serve};
use kv_base::Cause;
use kv_disk::{Disk, MemDisk};
use kv_serve::Ended;
use std::alloc::Global;
use std::sync::Wait;
use std::test::Fail;
use std::thread::Threads;

/// Bytes, and behind them so many letters v.
pub type Part = (&'static [u8], usize);

/// A file, a page of it, and how the page begins.
pub type Page = (u8, u32, &'static [u8]);

// Frames of requests: length, kind, and of a Put the key's length.

/// Put a 1.
pub const PUT_A_1: Part = (b"\x04\0\0\0\x01\x01a1", 0);

/// Put b 2.
pub const PUT_B_2: Part = (b"\x04\0\0\0\x01\x01b2", 0);

/// Get a.
pub const GET_A: Part = (b"\x02\0\0\0\x02a", 0);

/// Get b.
pub const GET_B: Part = (b"\x02\0\0\0\x02b", 0);

/// Get k.
pub const GET_K: Part = (b"\x02\0\0\0\x02k", 0);

/// Get m.
pub const GET_M: Part = (b"\x02\0\0\0\x02m", 0);

/// Delete a.
pub const DELETE_A: Part = (b"\x02\0\0\0\x03a", 0);

/// Flush.
pub const FLUSH: Part = (b"\x01\0\0\0\x05", 0);

/// After 0.
pub const AFTER_0: Part = (b"\x09\0\0\0\x06\0\0\0\0\0\0\0\0", 0);

/// After 1.
pub const AFTER_1: Part = (b"\x09\0\0\0\x06\x01\0\0\0\0\0\0\0", 0);

/// After 2.
pub const AFTER_2: Part = (b"\x09\0\0\0\x06\x02\0\0\0\0\0\0\0", 0);

/// After 9.
pub const AFTER_9: Part = (b"\x09\0\0\0\x06\x09\0\0\0\0\0\0\0", 0);

// Frames of replies: length, kind, stamp.

/// Stored at stamp 1.
pub const STORED_1: Part = (b"\x09\0\0\0\x81\x01\0\0\0\0\0\0\0", 0);

/// Stored at stamp 2.
pub const STORED_2: Part = (b"\x09\0\0\0\x81\x02\0\0\0\0\0\0\0", 0);

/// Stored at stamp 3.
pub const STORED_3: Part = (b"\x09\0\0\0\x81\x03\0\0\0\0\0\0\0", 0);

/// Missing at stamp 1.
pub const MISSING_1: Part = (b"\x09\0\0\0\x83\x01\0\0\0\0\0\0\0", 0);

/// Missing at stamp 2.
pub const MISSING_2: Part = (b"\x09\0\0\0\x83\x02\0\0\0\0\0\0\0", 0);

/// Missing at stamp 3.
pub const MISSING_3: Part = (b"\x09\0\0\0\x83\x03\0\0\0\0\0\0\0", 0);

/// Missing at stamp 4.
pub const MISSING_4: Part = (b"\x09\0\0\0\x83\x04\0\0\0\0\0\0\0", 0);

/// Found at stamp 2 with the value 1.
pub const FOUND_2_1: Part = (b"\x0A\0\0\0\x82\x02\0\0\0\0\0\0\x001", 0);

/// Noted, which has no stamp.
pub const NOTED: Part = (b"\x01\0\0\0\x87", 0);

/// Ahead of the number 1.
pub const AHEAD_1: Part = (b"\x09\0\0\0\xEA\x01\0\0\0\0\0\0\0", 0);

/// TooLarge, which has no stamp.
pub const TOO_LARGE: Part = (b"\x01\0\0\0\xE2", 0);

/// The head page of worker 0 of 1: its letters, format 1, worker 0, 1 worker.
pub const HEAD: Page = (0, 0, b"KVPAGED1\x01\0\0\0\x01\0\0\0");

/// The first slot of class 1, never written.
pub const BLANK: Page = (1, 0, b"\0\0\0\0\0\0\0\0\0\0\0\0\0\0\0\0");

/// The item a with the value 1 there: its stamp 1, kind 1, the lengths of its key and its value.
pub const A_AT_1: Page = (1, 0, b"\x01\0\0\0\0\0\0\0\x01\0\x01\0\x01\0\0\0a1\0");

/// A session over a disk: what goes in and out, why it ends, and how pages begin afterwards.
pub struct Run {
    /// The bytes of the requests.
    pub input: &'static [Part],
    /// The bytes of the replies.
    pub output: &'static [Part],
    /// Why the session ends.
    pub cause: Cause,
    /// Where it isn't empty, the run is stopped before its last call, and this says what is left.
    pub choice: &'static [u32],
    /// How pages begin afterwards.
    pub pages: &'static [Page],
}

/// What runs one behind the other on a disk show.
pub struct Case {
    /// What is shown.
    pub name: &'static str,
    /// The pages that stand on the disk before the first run.
    pub pages: &'static [Page],
    /// The runs.
    pub runs: &'static [Run],
}

/// The bytes of the parts, one behind the other.
pub fn bytes_of(alloc: Global, parts: &[Part]) -> Result<Vec<u8>, Fail> {
    let mut all = Vec::new(alloc);
    for (bytes, letters) in parts {
        all.extend_from_slice(bytes)?;
        for _ in 0..*letters {
            all.push(b'v')?;
        }
    }
    Ok(all)
}

fn fill(page: &mut [u8], begin: &[u8]) {
    for at in 0..begin.len().min(page.len()) {
        page[at] = begin[at];
    }
}

/// Puts a page that begins so on the disk, zeros behind it, and syncs it.
pub fn put_page(disk: &mut MemDisk, file: u8, page: u32, begin: &[u8]) -> Result<(), Fail> {
    if file > 13 || page == u32::MAX {
        return Err(Fail::new("the disk has such a page"));
    }
    let mut content = [0; 4096];
    fill(&mut content, begin);
    disk.write(file, page, &content)?;
    disk.sync()?;
    Ok(())
}

/// A disk on which these pages stand.
pub fn disk_with(alloc: Global, pages: &[Page]) -> Result<MemDisk, Fail> {
    let mut disk = new_disk(alloc, &[])?;
    for (file, page, begin) in pages {
        put_page(&mut disk, *file, *page, begin)?;
    }
    Ok(disk)
}

/// Whether the pages of the disk begin so.
pub fn begin_so(disk: &MemDisk, pages: &[Page]) -> bool {
    pages.iter().all(|(file, page, begin)| disk.page(*file, *page).starts_with(begin))
}

/// Whether the session ended for this cause behind so many bytes, with so many replies left, and
/// the status is that of the cause.
pub fn has_ended(ended: &Ended, cause: Cause, taken: usize, left: usize) -> bool {
    match ended.endings.as_slice() {
        [ending] => {
            ending.cause == cause
                && ending.taken == taken as u64
                && ending.undelivered.as_slice().len() == left
                && ended.status == u8::from(cause != Cause::End)
                && ended.refused.is_none()
        }
        _ => false,
    }
}

// What a run that is as it has to be leaves of the disk.
fn left_behind<R: Threads + Wait + Copy + Send + 'static>(
    rt: R,
    alloc: Global,
    disk: MemDisk,
    run: &Run,
) -> Result<Option<MemDisk>, Fail> {
    let input = bytes_of(alloc, run.input)?;
    let left = serve(rt, alloc, disk, &input, &[])?;
    if !has_ended(&left.ended, run.cause, input.len(), 0)
        || left.output != bytes_of(alloc, run.output)?
    {
        return Ok(None);
    }
    let disk = stopped(left.disk, run.choice)?;
    if begin_so(&disk, run.pages) {
        Ok(Some(disk))
    } else {
        Ok(None)
    }
}

fn stopped(disk: MemDisk, choice: &[u32]) -> Result<MemDisk, Fail> {
    if choice.is_empty() {
        return Ok(disk);
    }
    crashed(&disk, disk.calls().saturating_sub(1), choice)
}

/// Whether the case's runs go as they have to.
pub fn is_so<R: Threads + Wait + Copy + Send + 'static>(
    rt: R,
    alloc: Global,
    case: &Case,
) -> Result<bool, Fail> {
    let mut disk = disk_with(alloc, case.pages)?;
    for run in case.runs {
        disk = match left_behind(rt, alloc, disk, run)? {
            Some(disk) => disk,
            None => return Ok(false),
        };
    }
    Ok(true)
}
