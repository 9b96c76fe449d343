ghost use Rattle.std.specs.Prelude.{◌≡◌, ◌+◌, ◌-◌, ◌^◌, ◌<◌, ◌≤◌, All};
ghost use Rattle.kv_groups.specs.Gathering.{greatest};
ghost use Rattle.kv_mesh.specs.Started.{floors};

use kv_disk::Disk;
use kv_index::Index;
use kv_recover::Opened;

/// The first stamp of new parties: one more than the greatest floor.
pub(crate) fn first_stamp<D: Disk, I: Index>(stores: &[Opened<D, I>]) -> u64
    requires { All (λ opened. opened.floor < 2 ^ 62 - 1) stores.now }
    ensures value { result ≡ greatest (floors stores.now) + 1 }
    ensures limit { result < 2 ^ 62 }
    ensures above { All (λ opened. opened.floor < result) stores.now }
{
    let mut greatest: u64 = 0;
    for opened in stores {
        greatest = greatest.max(opened.floor);
    }
    greatest + 1
}
