use crate::test_run::{crashed, new_disk, serve};
use kv_base::Cause;
use kv_disk::MemDisk;
use kv_serve::Ended;
use std::alloc::Global;
use std::sync::Wait;
use std::test::Fail;
use std::thread::Threads;

// A letter and how often it stands in a value. None is no value.
type Value = Option<(u8, u16)>;

// The values of the keys a, b and c.
type Values = [Value; 3];

// A key and its new value.
type Change = (u8, Value);

// A session of some groups over a disk on which one group was written before: its changes, and the
// values of the keys before the first group of the session and behind each.
struct Scene {
    name: &'static str,
    before: &'static [Change],
    groups: &'static [&'static [Change]],
    values: &'static [Values],
}

// With a key of one byte values of 47 bytes are in class 1 and of 48 in class 2, of 4,079 in class
// 7 and of 4,080 to 8,167 in class 8.
static SCENES: [Scene; 3] = [
    Scene {
        name: "a new disk",
        before: &[],
        groups: &[
            &[(b'a', Some((b'1', 1))), (b'b', Some((b'2', 100)))],
            &[(b'a', Some((b'3', 48))), (b'b', None)],
            &[(b'c', Some((b'4', 1))), (b'a', None)],
        ],
        values: &[
            [None, None, None],
            [Some((b'1', 1)), Some((b'2', 100)), None],
            [Some((b'3', 48)), None, None],
            [None, None, Some((b'4', 1))],
        ],
    },
    Scene {
        name: "an update, a greater class and a delete",
        before: &[(b'a', Some((b'1', 1)))],
        groups: &[
            &[(b'a', Some((b'2', 47)))],
            &[(b'a', Some((b'3', 48)))],
            &[(b'a', None)],
        ],
        values: &[
            [Some((b'1', 1)), None, None],
            [Some((b'2', 47)), None, None],
            [Some((b'3', 48)), None, None],
            [None, None, None],
        ],
    },
    Scene {
        name: "from one page to two, and from two pages to two others",
        before: &[(b'b', Some((b'1', 4_079))), (b'c', Some((b'2', 5_000)))],
        groups: &[
            &[(b'b', Some((b'3', 4_080)))],
            &[(b'c', Some((b'4', 5_001)))],
        ],
        values: &[
            [None, Some((b'1', 4_079)), Some((b'2', 5_000))],
            [None, Some((b'3', 4_080)), Some((b'2', 5_000))],
            [None, Some((b'3', 4_080)), Some((b'4', 5_001))],
        ],
    },
];

// Get a, Get b, Get c.
const GETS: &[u8] = b"\x02\0\0\0\x02a\x02\0\0\0\x02b\x02\0\0\0\x02c";

fn put_frame(input: &mut Vec<u8>, key: u8, letter: u8, length: u16) -> Result<(), Fail> {
    input.extend_from_slice(&(u32::from(length) + 3).to_le_bytes())?;
    input.extend_from_slice(&[1, 1, key])?;
    for _ in 0..length {
        input.push(letter)?;
    }
    Ok(())
}

fn change_frame(input: &mut Vec<u8>, key: u8, value: Value) -> Result<(), Fail> {
    match value {
        Some((letter, length)) => put_frame(input, key, letter, length),
        None => Ok(input.extend_from_slice(&[2, 0, 0, 0, 3, key])?),
    }
}

// The frames of the changes, and a Flush behind them.
fn group_frames(input: &mut Vec<u8>, changes: &[Change]) -> Result<(), Fail> {
    for (key, value) in changes {
        change_frame(input, *key, *value)?;
    }
    Ok(input.extend_from_slice(b"\x01\0\0\0\x05")?)
}

// The disk behind a session with the first of these groups.
fn disk_behind<R: Threads + Wait + Copy + Send + 'static>(
    rt: R,
    alloc: Global,
    disk: MemDisk,
    groups: &[&[Change]],
    count: usize,
) -> Result<MemDisk, Fail> {
    let mut input = Vec::new(alloc);
    for changes in groups.iter().take(count) {
        group_frames(&mut input, changes)?;
    }
    Ok(serve(rt, alloc, disk, &input, &[])?.disk)
}

// The frame at the front, without its length, and what stands behind it.
fn split_frame(bytes: &[u8]) -> Option<(&[u8], &[u8])> {
    match bytes {
        [low, high, 0, 0, rest @ ..] => {
            let length = u16::from_le_bytes([*low, *high]) as usize;
            if length <= rest.len() {
                Some(rest.split_at(length))
            } else {
                None
            }
        }
        _ => None,
    }
}

// Whether the reply to a Get tells this value, at whatever stamp.
fn tells(reply: &[u8], value: Value) -> bool {
    match (reply, value) {
        ([0x82, _, _, _, _, _, _, _, _, found @ ..], Some((letter, length))) => {
            found.len() == length as usize && found.iter().all(|byte| *byte == letter)
        }
        ([0x83, _, _, _, _, _, _, _, _], None) => true,
        _ => false,
    }
}

// Whether each of the replies tells the old value of its key or the new one.
fn tell_each(replies: &[u8], old: &Values, new: &Values) -> bool {
    let mut rest = replies;
    for (old, new) in old.iter().zip(new) {
        let Some((reply, behind)) = split_frame(rest) else {
            return false;
        };
        if !tells(reply, *old) && !tells(reply, *new) {
            return false;
        }
        rest = behind;
    }
    rest.is_empty()
}

// Whether the disk that was left has of each key the old value or the new one.
fn has_each<R: Threads + Wait + Copy + Send + 'static>(
    rt: R,
    alloc: Global,
    disk: MemDisk,
    old: &Values,
    new: &Values,
) -> Result<bool, Fail> {
    let left = serve(rt, alloc, disk, GETS, &[])?;
    Ok(left.ended.status == 0 && tell_each(&left.output, old, new))
}

// Whether pages are the same where stamps of the keys stand: in slots of the keys or at their head.
fn has_same_stamps(page: &[u8], other: &[u8]) -> bool {
    page.iter().zip(other).take(384).all(|(a, b)| a == b)
}

// Whether the first pages of the files are the same there.
fn is_same(disk: &MemDisk, other: &MemDisk) -> bool {
    for file in 0..9 {
        for page in 0..8 {
            if !has_same_stamps(disk.page(file, page), other.page(file, page)) {
                return false;
            }
        }
    }
    true
}

// Whether the disk, stopped at the moment, has of each key the old value or the new one, whatever
// writes of up to three pages are left: none has two between two syncs.
fn has_each_always<R: Threads + Wait + Copy + Send + 'static>(
    rt: R,
    alloc: Global,
    disk: &MemDisk,
    moment: u32,
    old: &Values,
    new: &Values,
) -> Result<bool, Fail> {
    let nothing = crashed(disk, moment, &[])?;
    let last = if is_same(&nothing, &crashed(disk, moment, &[1, 1, 1])?) {
        0
    } else {
        7
    };
    for choice in 0..=last {
        let left = crashed(disk, moment, &[choice % 2, choice / 2 % 2, choice / 4])?;
        if !has_each(rt, alloc, left, old, new)? {
            return Ok(false);
        }
    }
    Ok(true)
}

// The first of these moments at which the disk has another value than it may. At the last one the
// last group is answered, and before it each key has its old value or its new one.
fn first_wrong<R: Threads + Wait + Copy + Send + 'static>(
    rt: R,
    alloc: Global,
    disk: &MemDisk,
    first: u32,
    old: &Values,
    new: &Values,
) -> Result<Option<u32>, Fail> {
    let last = disk.calls();
    for moment in first..last {
        if !has_each_always(rt, alloc, disk, moment, old, new)? {
            return Ok(Some(moment));
        }
    }
    if has_each_always(rt, alloc, disk, last, new, new)? {
        Ok(None)
    } else {
        Ok(Some(last))
    }
}

// A copy of a disk on which nothing is pending, with no call so far.
fn copy_of(disk: &MemDisk) -> Result<MemDisk, Fail> {
    crashed(disk, disk.calls(), &[])
}

// The disk behind a session of one group, a new one where it has no changes.
fn disk_with<R: Threads + Wait + Copy + Send + 'static>(
    rt: R,
    alloc: Global,
    changes: &[Change],
) -> Result<MemDisk, Fail> {
    let disk = new_disk(alloc, &[])?;
    if changes.is_empty() {
        return Ok(disk);
    }
    disk_behind(rt, alloc, disk, &[changes], 1)
}

// The first moment of the scene at which a stop leaves another value than it may.
fn first_wrong_in<R: Threads + Wait + Copy + Send + 'static>(
    rt: R,
    alloc: Global,
    scene: &Scene,
) -> Result<Option<u32>, Fail> {
    let start = disk_with(rt, alloc, scene.before)?;
    let mut first = 0;
    let Some(mut old) = scene.values.first() else {
        return Err(Fail::new("the keys have values"));
    };
    for (count, new) in scene.values.iter().enumerate() {
        let disk = disk_behind(rt, alloc, copy_of(&start)?, scene.groups, count)?;
        if let Some(moment) = first_wrong(rt, alloc, &disk, first, old, new)? {
            return Ok(Some(moment));
        }
        first = disk.calls().saturating_add(1);
        old = new;
    }
    Ok(None)
}

#[test]
fn a_stop_leaves_old_or_new_values_and_all_that_was_answered(rt: HostRuntime) -> Result<(), Fail> {
    for scene in &SCENES {
        assert_eq!(rt;
            first_wrong_in(rt, rt.alloc(), scene)?,
            None,
            "{}",
            scene.name
        );
    }
    Ok(())
}

fn ended_so(ended: &Ended, status: u8) -> bool {
    match ended.endings.as_slice() {
        [ending] => ended.status == status && ending.cause == Cause::End,
        _ => false,
    }
}

// Put a 1, Put b 2, Get a.
const GROUP: &[u8] = b"\x04\0\0\0\x01\x01a1\x04\0\0\0\x01\x01b2\x02\0\0\0\x02a";

// The same, then a Flush and Get a.
const TWO_GROUPS: &[u8] = b"\x04\0\0\0\x01\x01a1\x04\0\0\0\x01\x01b2\x02\0\0\0\x02a\
\x01\0\0\0\x05\x02\0\0\0\x02a";

// Unsure 1, Unsure 2, DiskFault, then Closed.
const REFUSALS: &[u8] = b"\x09\0\0\0\xE6\x01\0\0\0\0\0\0\0\x09\0\0\0\xE6\x02\0\0\0\0\0\0\0\
\x01\0\0\0\xE5\x01\0\0\0\xE7";

// The disk behind a session whose last call fails, the sync of its first group.
fn unsure_disk<R: Threads + Wait + Copy + Send + 'static>(
    rt: R,
    alloc: Global,
) -> Result<Option<MemDisk>, Fail> {
    let whole = serve(rt, alloc, new_disk(alloc, &[])?, GROUP, &[])?;
    let sync = whole.disk.calls();
    let left = serve(rt, alloc, new_disk(alloc, &[sync])?, TWO_GROUPS, &[])?;
    if ended_so(&left.ended, 1) && left.output.as_slice() == REFUSALS {
        Ok(Some(left.disk))
    } else {
        Ok(None)
    }
}

#[test]
fn a_failed_sync_closes_the_store_until_it_is_opened_again(rt: HostRuntime) -> Result<(), Fail> {
    let alloc = rt.alloc();
    let Some(disk) = unsure_disk(rt, alloc)? else {
        return Err(Fail::new("the replies are unsure, and then closed"));
    };
    // Both keys are on one page, which is as it was or has what was written.
    let old = [None, None, None];
    let new = [Some((b'1', 1)), Some((b'2', 1)), None];
    let last = disk.calls();
    assert!(rt; has_each(rt, alloc, crashed(&disk, last, &[0])?, &old, &old)?);
    assert!(rt; has_each(rt, alloc, crashed(&disk, last, &[1])?, &new, &new)?);
    Ok(())
}
