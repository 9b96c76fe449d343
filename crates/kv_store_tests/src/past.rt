use kv_base::Limits;
use kv_disk::{Disk, PlainDisk};
use kv_recover::{OpenFault, open_store};
use kv_slot::put_head;
use kv_tree::TreeIndex;
use std::alloc::Global;
use std::test::Fail;

const LIMITS: Limits = Limits {
    slots: 16_777_216,
    cache: 4,
};

// A disk of worker 0 of 1 with a byte in the last slot of this page of file 1.
fn disk_with(alloc: Global, page: u32) -> Result<PlainDisk, OpenFault> {
    let mut disk = PlainDisk::new(alloc, 4)?;
    let mut content = [0; 4096];
    put_head(&mut content, 0, 1);
    disk.write(0, 0, &content)?;
    if page < 300_000 {
        let mut content = [0; 4096];
        content[4_095] = 1;
        disk.write(1, page, &content)?;
    }
    Ok(disk)
}

// Why the disk doesn't open.
fn refusal(alloc: Global, disk: PlainDisk) -> Option<OpenFault> {
    match open_store(alloc, disk, TreeIndex::new(alloc), 0, 1, LIMITS) {
        Ok(_) => None,
        Err((_, fault)) => Some(fault),
    }
}

// A page has 64 slots of class 1, so 2^24 slots are the pages 0 to 262,143.
#[test]
fn a_byte_past_the_most_slots_is_refused(rt: HostRuntime) -> Result<(), Fail> {
    let alloc = rt.alloc();
    let refused = Some(OpenFault::NotAStore);
    assert_eq!(rt; refusal(alloc, disk_with(alloc, 262_144)?), refused);
    Ok(())
}
