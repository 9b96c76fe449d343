ghost use Rattle.std.specs.Prelude.{ℕ, ◌-◌, ◌^◌, ◌≤◌, ◌<◌};
ghost use Rattle.kv_base.specs.Crash.{Only};

use kv_base::{Calls, Failed, NoMemory};
use kv_disk::{Disk, MemDisk, PlainDisk, write_in_order};
use std::alloc::Global;
use std::test::Fail;

// Writes a page of one byte.
fn put<D: Disk>(disk: &mut D, file: u8, page: u32, byte: u8) -> Result<(), Failed>
    requires file { file ≤ 13 }
    requires page { page < 2 ^ 32 - 1 }
{
    disk.write(file, page, &[byte; 4096])
}

// The last byte of a page.
fn get<D: Disk>(disk: &mut D, file: u8, page: u32) -> Result<u8, Failed>
    requires file { file ≤ 13 }
    requires page { page < 2 ^ 32 - 1 }
{
    let mut buf = [9; 4096];
    disk.read(file, page, &mut buf)?;
    Ok(buf[4095])
}

// A write, a read of that page and of another, a sync and a length.
fn one_round<D: Disk>(disk: &mut D) -> Result<(u8, u8, u32), Failed> {
    put(disk, 3, 1, 7)?;
    let found = (get(disk, 3, 1)?, get(disk, 3, 0)?);
    disk.sync()?;
    Ok((found.0, found.1, disk.length(3)?))
}

// A disk with these rooms, whose listed calls fail.
fn memory(alloc: Global, pages: u32, calls: u32, failing: &[u32]) -> Result<MemDisk, NoMemory> {
    MemDisk::new(alloc, pages, calls, Calls::of(alloc, failing)?)
}

#[test]
fn a_written_page_is_read(rt: HostRuntime) -> Result<(), Fail> {
    let alloc = rt.alloc();
    let mut disk = memory(alloc, 2, 9, &[])?;
    assert_eq!(rt; one_round(&mut disk)?, (7, 0, 2));
    assert_eq!(rt; disk.calls(), 5);
    assert_eq!(rt; one_round(&mut PlainDisk::new(alloc, 2)?)?, (7, 0, 2));
    Ok(())
}

// Writes page 5 and then page 4 of an empty disk, and reads both.
fn both<D: Disk>(disk: &mut D) -> Result<(u8, u8), Failed>
    requires { Only (D.seen disk.old) (D.leaves disk.old (D.calls disk.old)) }
{
    write_in_order(disk, 1, 5, &[1; 4096], 4, &[2; 4096])?;
    Ok((get(disk, 1, 5)?, get(disk, 1, 4)?))
}

#[test]
fn two_pages_are_written_in_order(rt: HostRuntime) -> Result<(), Fail> {
    let alloc = rt.alloc();
    assert_eq!(rt;
        both(&mut MemDisk::new(alloc, 2, 9, Calls::none())?)?,
        (1, 2)
    );
    assert_eq!(rt; both(&mut PlainDisk::new(alloc, 2)?)?, (1, 2));
    Ok(())
}

// Pages (0, 0), (0, 1) and (1, 0), in this order by file and page. Calls, the 7th failing:
// 1 writes 1 to (0, 1); 2 writes 4 to (0, 0); 3 syncs; 4 writes 2 to (0, 1); 5 writes 6 to (1, 0);
// 6 writes 3 to (0, 1); 7 writes 5 to (0, 0) and fails; 8 reads.
// So after 7 calls a crash may leave 4, 5 at (0, 0), then 1, 2, 3 at (0, 1), then 0, 6 at (1, 0).
fn run(disk: &mut MemDisk) -> Result<bool, Failed> {
    put(disk, 0, 1, 1)?;
    put(disk, 0, 0, 4)?;
    disk.sync()?;
    put(disk, 0, 1, 2)?;
    put(disk, 1, 0, 6)?;
    put(disk, 0, 1, 3)?;
    let failed = put(disk, 0, 0, 5).is_err();
    Ok(failed && get(disk, 0, 0)? == 4)
}

// The first bytes of the three pages after a crash.
fn stop(disk: &MemDisk, moment: u32, choice: &[u32]) -> Result<Option<[u8; 3]>, NoMemory> {
    if moment > disk.calls() {
        return Ok(None);
    }
    let left = disk.crash(moment, choice)?;
    Ok(Some([
        left.page(0, 0)[0],
        left.page(0, 1)[4095],
        left.page(1, 0)[0],
    ]))
}

const STOPS: [(u32, &[u32], [u8; 3], &str); 16] = [
    (0, &[1, 1, 1], [0, 0, 0], "nothing was written"),
    (1, &[0, 1, 1], [0, 0, 0], "choice 0 is the synced content"),
    (
        1,
        &[1, 0, 0],
        [0, 1, 0],
        "the first choice is for the only page that waits",
    ),
    (1, &[], [0, 0, 0], "a choice that isn't there is 0"),
    (1, &[2], [0, 0, 0], "2 modulo 2 is 0"),
    (
        2,
        &[1, 0],
        [4, 0, 0],
        "(0, 0) comes first, though it was written later",
    ),
    (2, &[0, 1], [0, 1, 0], "the second choice is for (0, 1)"),
    (3, &[1, 1], [4, 1, 0], "the sync leaves what is read alone"),
    (
        4,
        &[1],
        [4, 2, 0],
        "after the sync (0, 1) is the first that waits",
    ),
    (5, &[0, 1], [4, 1, 6], "one write of two"),
    (6, &[2, 0], [4, 3, 0], "the second write since the sync"),
    (6, &[5, 3], [4, 3, 6], "5 modulo 3 is 2, 3 modulo 2 is 1"),
    (7, &[0, 2, 1], [4, 3, 6], "the failed write is left out"),
    (7, &[1, 0, 0], [5, 1, 0], "the failed write is left"),
    (7, &[1, 1], [5, 2, 0], "the third choice isn't there"),
    (8, &[0, 1, 0], [4, 2, 0], "a read changes nothing"),
];

#[test]
fn a_crash_leaves_what_its_choices_say(rt: HostRuntime) -> Result<(), Fail> {
    let alloc = rt.alloc();
    let mut disk = memory(alloc, 3, 8, &[7])?;
    assert!(rt; run(&mut disk)?, "a failed write reads as before");
    for (moment, choice, want, why) in STOPS {
        assert_eq!(rt; stop(&disk, moment, choice)?, Some(want), "{why}");
    }
    Ok(())
}

#[test]
fn a_crashed_disk_holds_the_pages_of_its_moment(rt: HostRuntime) -> Result<(), Fail> {
    let alloc = rt.alloc();
    let mut disk = memory(alloc, 2, 2, &[])?;
    put(&mut disk, 0, 4, 1)?;
    put(&mut disk, 0, 9, 1)?;
    assert!(rt; 1 <= disk.calls());
    let mut left = disk.crash(1, &[])?;
    assert_eq!(rt; left.length(0)?, 5, "page 9 came later");
    put(&mut left, 0, 7, 1)?;
    assert!(rt;
        left.sync().is_err(),
        "the room of two calls is the new disk's too"
    );
    Ok(())
}

#[test]
fn a_spent_room_fails_each_call(rt: HostRuntime) -> Result<(), Fail> {
    let alloc = rt.alloc();
    let mut disk = memory(alloc, 1, 4, &[2])?;
    put(&mut disk, 2, 8, 1)?;
    assert!(rt; get(&mut disk, 2, 8).is_err(), "the second call is listed");
    assert!(rt;
        put(&mut disk, 2, 9, 2).is_err(),
        "there is room for one page"
    );
    put(&mut disk, 2, 8, 3)?;
    assert!(rt; disk.sync().is_err(), "there is room for four calls");
    assert!(rt; disk.length(2).is_err(), "and for no sixth");
    assert_eq!(rt;
        (disk.calls(), disk.page(2, 8)[0], disk.page(2, 9)[0]),
        (6, 3, 0)
    );
    Ok(())
}

#[test]
fn a_plain_disk_fails_where_its_room_is_spent(rt: HostRuntime) -> Result<(), Fail> {
    let mut plain = PlainDisk::new(rt.alloc(), 1)?;
    put(&mut plain, 2, 8, 1)?;
    assert!(rt; put(&mut plain, 2, 9, 1).is_err());
    put(&mut plain, 2, 8, 2)?;
    assert_eq!(rt; plain.length(2)?, 9);
    Ok(())
}

#[test]
fn a_page_that_is_set_is_synced(rt: HostRuntime) -> Result<(), Fail> {
    let alloc = rt.alloc();
    let mut disk = MemDisk::new(alloc, 1, 2, Calls::none())?;
    assert!(rt; disk.set_page(0, 3, &[1; 4096]));
    assert_eq!(rt; disk.page(0, 3)[0], 1);
    assert_eq!(rt; disk.crash(0, &[1])?.page(0, 3)[4095], 1);
    assert_eq!(rt; disk.length(0)?, 4);
    let mut full = MemDisk::new(alloc, 0, 2, Calls::none())?;
    assert!(rt; !full.set_page(0, 3, &[1; 4096]), "there is no room");
    Ok(())
}
