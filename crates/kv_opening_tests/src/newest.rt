use crate::disks::disk_with;
use kv_recover::kept;
use kv_slot::{put_item, put_tombstone};
use std::test::*;

// Slots of class 1: two items of one key, one of another, a tombstone, one that was never used, and
// bytes that no store writes.
fn used() -> [u8; 4096] {
    let mut page = [0; 4096];
    put_item(&mut page, 1, 0, 5, b"key", b"old");
    put_item(&mut page, 1, 64, 7, b"key", b"new");
    put_item(&mut page, 1, 128, 6, b"a", b"first");
    put_tombstone(&mut page, 1, 192, 4, None);
    page[320] = 9;
    page[328] = 7;
    page
}

#[test]
fn the_newest_item_of_each_key_is_kept(rt: HostRuntime) -> Result<(), Fail> {
    let alloc = rt.alloc();
    let mut disk = disk_with(alloc, 0, 1, &used())?;
    let list = kept(alloc, &mut disk, 0, 1)?;
    let wanted = [(b"a".as_slice(), 6, 2), (b"key".as_slice(), 7, 1)];
    assert_eq!(rt; list.as_slice().len(), 2);
    for (found, (key, stamp, slot)) in list.as_slice().iter().zip(wanted) {
        assert!(rt; found.key.as_slice() == key, "the key");
        assert_eq!(rt; (found.stamp, found.place.slot), (stamp, slot));
    }
    Ok(())
}
