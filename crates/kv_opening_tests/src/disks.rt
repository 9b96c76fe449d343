ghost use Rattle.std.specs.Prelude.{◌≤◌, ◌<◌};

use kv_base::Limits;
use kv_disk::{Disk, PlainDisk};
use kv_slot::put_head;
use std::alloc::Global;
use std::test::Fail;

/// Limits of a store of few items.
pub const LIMITS: Limits = Limits {
    slots: 100,
    cache: 4,
};

/// The head page of this worker of so many.
pub fn head_of(worker: u32, workers: u32) -> [u8; 4096]
    requires below { worker < workers }
    requires limit { workers ≤ 16 }
{
    let mut head = [0; 4096];
    put_head(&mut head, worker, workers);
    head
}

/// A disk of this worker of so many with this page in the file of class 1.
pub fn disk_with(
    alloc: Global,
    worker: u32,
    workers: u32,
    page: &[u8; 4096],
) -> Result<PlainDisk, Fail>
    requires below { worker < workers }
    requires limit { workers ≤ 16 }
{
    let mut disk = PlainDisk::new(alloc, 2)?;
    disk.write(0, 0, &head_of(worker, workers))?;
    disk.write(1, 0, page)?;
    Ok(disk)
}
