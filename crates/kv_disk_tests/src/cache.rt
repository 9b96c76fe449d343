ghost use Rattle.std.specs.Prelude.{◌≡◌, ◌⊎◌, ℕ, ◌-◌, ◌^◌, ◌≤◌, ◌<◌, IsTrue, IfOk, OnOk};
ghost use Rattle.kv_base.specs.Fault.{HasCause};
ghost use Rattle.kv_base.specs.Image.{with_page};
ghost use Rattle.kv_base.specs.Crash.{Only, LeavesOnly};

use kv_base::{Calls, Failed, NoMemory};
use kv_cache::Cached;
use kv_disk::{Disk, MemDisk, PlainDisk};
use std::alloc::Global;
use std::process::Abort;
use std::test::Fail;

// The disk with a cache of so many pages.
fn cached<D: Disk + Drop>(alloc: Global, disk: D, pages: u32) -> Result<Cached<D>, NoMemory>
    requires { (1 ≤ pages) × (pages ≤ 1024) }
    ensures { IfOk result (λ cache. cache.disk ≡ disk) }
{
    match Cached::new(alloc, disk, pages) {
        Ok(cache) => Ok(cache),
        Err((_, no_memory)) => Err(no_memory),
    }
}

// The last byte of a page of file 13.
fn get<D: Disk>(cache: &mut Cached<D>, page: u8) -> Result<u8, Failed> {
    let mut out = [9; 4096];
    cache.page(13, u32::from(page), &mut out)?;
    Ok(out[4095])
}

// Writes a page of file 13 with one byte all over.
fn put<D: Disk>(cache: &mut Cached<D>, page: u8, byte: u8) -> Result<(), Failed> {
    cache.write(13, u32::from(page), &[byte; 4096])
}

// A write, two looks at that page and one at another, a sync and a length.
fn one_round<D: Disk>(cache: &mut Cached<D>) -> Result<([u8; 3], u32), Failed> {
    put(cache, 1, 7)?;
    let found = [get(cache, 1)?, get(cache, 1)?, get(cache, 0)?];
    cache.sync()?;
    Ok((found, cache.length(13)?))
}

#[test]
fn a_written_page_is_read(rt: HostRuntime) -> Result<(), Fail> {
    let alloc = rt.alloc();
    let mut cache = cached(alloc, MemDisk::new(alloc, 2, 9, Calls::none())?, 4)?;
    assert_eq!(rt; one_round(&mut cache)?, ([7, 7, 0], 2));
    assert_eq!(rt; (cache.capacity(), cache.unkept()), (4, 0));
    assert_eq!(rt;
        cache.into_disk().calls(),
        5,
        "the second look takes no call"
    );
    let mut plain = cached(alloc, PlainDisk::new(alloc, 2)?, 4)?;
    assert_eq!(rt; one_round(&mut plain)?, ([7, 7, 0], 2));
    assert_eq!(rt; (plain.capacity(), plain.unkept()), (4, 0));
    let mut disk = plain.into_disk();
    assert_eq!(rt; disk.length(13)?, 2);
    Ok(())
}

// What is asked of page 0, 1 or 2, and with which answer.
enum Step {
    Get(u8, u8),
    Put(u8, u8),
    FailedGet(u8),
    FailedPut(u8, u8),
}

use Step::{FailedGet, FailedPut, Get, Put};

// Steps over a disk of which these calls fail, and how many calls they take.
struct Case {
    why: &'static str,
    capacity: u32,
    failing: &'static [u32],
    steps: &'static [Step],
    calls: u32,
}

// Each write takes one call, and so does each look at a page that isn't kept then.
static CASES: [Case; 9] = [
    Case {
        why: "one page: it is kept, and the other takes its place",
        capacity: 1,
        failing: &[],
        steps: &[Get(0, 0), Get(0, 0), Get(1, 0), Get(1, 0), Get(0, 0)],
        calls: 3,
    },
    Case {
        why: "two pages: both are kept",
        capacity: 2,
        failing: &[],
        steps: &[Get(0, 0), Get(1, 0), Get(0, 0), Get(1, 0)],
        calls: 2,
    },
    Case {
        why: "the page that was looked at first goes first",
        capacity: 2,
        failing: &[],
        steps: &[Get(0, 0), Get(1, 0), Get(2, 0), Get(1, 0), Get(0, 0)],
        calls: 4,
    },
    Case {
        why: "a look at a kept page moves it to the front",
        capacity: 2,
        failing: &[],
        steps: &[
            Get(0, 0),
            Get(1, 0),
            Get(0, 0),
            Get(2, 0),
            Get(0, 0),
            Get(1, 0),
        ],
        calls: 4,
    },
    Case {
        why: "a write renews a kept page and moves it to the front",
        capacity: 2,
        failing: &[],
        steps: &[
            Get(0, 0),
            Get(1, 0),
            Put(0, 8),
            Get(2, 0),
            Get(0, 8),
            Get(1, 0),
        ],
        calls: 5,
    },
    Case {
        why: "a write of another page leaves the list",
        capacity: 1,
        failing: &[],
        steps: &[Get(0, 0), Put(1, 8), Get(0, 0), Get(1, 8)],
        calls: 3,
    },
    Case {
        why: "a failed write drops the page, and the next look reads it",
        capacity: 2,
        failing: &[2],
        steps: &[Get(0, 0), FailedPut(0, 8), Get(0, 0), Get(0, 0)],
        calls: 3,
    },
    Case {
        why: "a failed write of another page leaves the list",
        capacity: 2,
        failing: &[2],
        steps: &[Get(0, 0), FailedPut(1, 8), Get(0, 0), Get(1, 0)],
        calls: 3,
    },
    Case {
        why: "a failed look leaves the list",
        capacity: 2,
        failing: &[3],
        steps: &[
            Get(0, 0),
            Get(1, 0),
            FailedGet(2),
            Get(0, 0),
            Get(1, 0),
            Get(2, 0),
        ],
        calls: 4,
    },
];

// One step with its answer.
fn take_step(rt: &impl Abort, cache: &mut Cached<MemDisk>, step: &Step, why: &str) {
    match step {
        Get(page, byte) => assert_eq!(rt; get(cache, *page), Ok(*byte), "{why}"),
        Put(page, byte) => assert!(rt; put(cache, *page, *byte).is_ok(), "{why}"),
        FailedGet(page) => assert!(rt; get(cache, *page).is_err(), "{why}"),
        FailedPut(page, byte) => assert!(rt; put(cache, *page, *byte).is_err(), "{why}"),
    }
}

#[test]
fn a_kept_page_takes_no_call(rt: HostRuntime) -> Result<(), Fail> {
    let alloc = rt.alloc();
    for case in &CASES {
        let disk = MemDisk::new(alloc, 3, 9, Calls::of(alloc, case.failing)?)?;
        assert!(rt; 1 <= case.capacity && case.capacity <= 1024);
        let mut cache = cached(alloc, disk, case.capacity)?;
        for step in case.steps {
            take_step(&rt, &mut cache, step, case.why);
        }
        assert_eq!(rt; cache.unkept(), 0, "{}", case.why);
        assert_eq!(rt; cache.into_disk().calls(), case.calls, "{}", case.why);
    }
    Ok(())
}

// Where an allocation fails, the page is read again and the answer is the same.
#[test]
fn a_page_that_was_not_kept_is_read_again(rt: HostRuntime) -> Result<(), Fail> {
    let alloc = rt.alloc();
    let mut cache = cached(alloc, MemDisk::new(alloc, 1, 9, Calls::none())?, 1)?;
    put(&mut cache, 0, 7)?;
    for _ in 0..3 {
        assert_eq!(rt; get(&mut cache, 0)?, 7);
    }
    let unkept = cache.unkept();
    assert!(rt; unkept <= 1, "one allocation failed at most");
    assert_eq!(rt; u64::from(cache.into_disk().calls()), 2 + unkept);
    Ok(())
}

// A worked caller: copies one page over another and makes it durable. A crash at any moment leaves
// the disk as it was, or with the copy.
fn copy_page<D: Disk>(cache: &mut Cached<D>, file: u8, from: u32, to: u32) -> Result<(), Failed>
    requires file { file ≤ 13 }
    requires from { from < 2 ^ 32 - 1 }
    requires to { to < 2 ^ 32 - 1 }
    requires durable { Only (D.seen cache.old.disk)
        (D.leaves cache.old.disk (D.calls cache.old.disk)) }
    ensures written { IsTrue D.tells
        → OnOk result (D.seen cache.new.disk ≡ with_page (D.seen cache.old.disk) file to
        (D.seen cache.old.disk file from)) }
    ensures durable { OnOk result (Only (D.seen cache.new.disk)
        (D.leaves cache.new.disk (D.calls cache.new.disk))) }
    ensures any_moment { let copy = with_page (D.seen cache.old.disk) file to (D.seen cache.old.disk file from) in
        LeavesOnly (D.calls cache.old.disk) (D.calls cache.new.disk) (D.leaves cache.old.disk)
        (D.leaves cache.new.disk) (λ image. (image ≡ D.seen cache.old.disk) ⊎ (image ≡ copy)) }
    ensures cause { HasCause (D.faults cache.old.disk) (D.faults cache.new.disk) result }
{
    let mut content = [0; 4096];
    cache.page(file, from, &mut content)?;
    cache.write(file, to, &content)?;
    cache.sync()
}

// Copies page 1 over page 0 twice, and reads both.
fn copied_twice<D: Disk>(cache: &mut Cached<D>) -> Result<[u8; 2], Failed>
    requires { Only (D.seen cache.old.disk) (D.leaves cache.old.disk (D.calls cache.old.disk)) }
{
    copy_page(cache, 13, 1, 0)?;
    copy_page(cache, 13, 1, 0)?;
    Ok([get(cache, 0)?, get(cache, 1)?])
}

#[test]
fn a_page_is_copied(rt: HostRuntime) -> Result<(), Fail> {
    let alloc = rt.alloc();
    let mut disk = MemDisk::new(alloc, 2, 9, Calls::none())?;
    assert!(rt; disk.set_page(13, 1, &[5; 4096]));
    let mut cache = cached(alloc, disk, 2)?;
    assert_eq!(rt; copied_twice(&mut cache)?, [5, 5]);
    assert_eq!(rt;
        cache.into_disk().calls(),
        6,
        "a look, and twice a write and a sync, and a look"
    );
    Ok(())
}
