ghost use Rattle.std.specs.Prelude.{◌≡◌, ℕ, ◌-◌, ◌^◌, ◌≤◌, ◌<◌, IsTrue, OnOk};
ghost use Rattle.kv_base.specs.Fault.{HasCause};
ghost use Rattle.kv_base.specs.Image.{with_page};
ghost use Rattle.kv_base.specs.Crash.{Only, LeavesOnly};
ghost use Rattle.kv_disk.specs.Order.{IsInOrder};

use crate::Disk;
use kv_base::Failed;

/// Writes two pages of a file in order, each with a sync. A crash at any moment never leaves the
/// second without the first. After `Ok` it leaves both; after `Failed` the disk's count has risen.
pub fn write_in_order<D: Disk>(
    disk: &mut D,
    file: u8,
    first: u32,
    one: &[u8; 4096],
    second: u32,
    two: &[u8; 4096],
) -> Result<(), Failed>
    requires file { file ≤ 13 }
    requires first { first < 2 ^ 32 - 1 }
    requires second { second < 2 ^ 32 - 1 }
    requires durable { Only (D.seen disk.old) (D.leaves disk.old (D.calls disk.old)) }
    ensures written { IsTrue D.tells
        → OnOk result (D.seen disk.new ≡ with_page (with_page (D.seen disk.old) file first one.now)
        file second two.now) }
    ensures durable { OnOk result (Only (D.seen disk.new) (D.leaves disk.new (D.calls disk.new))) }
    ensures any_moment { LeavesOnly (D.calls disk.old) (D.calls disk.new) (D.leaves disk.old)
        (D.leaves disk.new) (IsInOrder (D.seen disk.old) file first one.now second two.now) }
    ensures cause { HasCause (D.faults disk.old) (D.faults disk.new) result }
{
    disk.write(file, first, one)?;
    disk.sync()?;
    disk.write(file, second, two)?;
    disk.sync()
}
