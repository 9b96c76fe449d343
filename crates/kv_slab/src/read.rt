ghost use Rattle.std.specs.Prelude.{◌≡◌, ◌+◌, ◌-◌, ◌^◌, ◌<◌, ◌≤◌, IsTrue, OnOk};
ghost use Rattle.kv_base.specs.Fault.{Counted};
ghost use Rattle.kv_disk.specs.Steps.{ReadsAtMost};
ghost use Rattle.kv_model.specs.Layout.{slot_size};
ghost use Rattle.kv_model.specs.Reading.{page_of, offset_of};
ghost use Rattle.kv_model.specs.Recovery.{most_pages};
ghost use Rattle.kv_slab.specs.Moves.{IsSlabPlace};

use kv_base::{Failed, Place};
use kv_cache::Cached;
use kv_disk::Disk;
use kv_slot::spot;

/// Reads a page through the cache.
pub fn read_page<D: Disk>(
    disk: &mut Cached<D>,
    file: u8,
    page: u32,
    content: &mut [u8; 4096],
) -> Result<(), Failed>
    requires file { file ≤ 13 }
    requires page { page < 2 ^ 32 - 1 }
    ensures content { IsTrue D.tells → OnOk result (content.new ≡ D.seen disk.old.disk file page) }
    ensures reads { ReadsAtMost ⟦<D as Disk>⟧ 1 disk.old.disk disk.new.disk }
    ensures counted { Counted (D.faults disk.old.disk) (D.faults disk.new.disk) result }
{
    disk.page(file, page, content)
}

/// The page where a slot begins, and the offset in it.
pub fn place_spot(place: Place) -> (u32, u32)
    requires place { IsSlabPlace place }
    ensures page { result.0 ≡ page_of place.class place.slot }
    ensures offset { result.1 ≡ offset_of place.class place.slot }
    ensures within { place.class ≤ 7 → result.1 + slot_size place.class ≤ 4096 }
    ensures most { result.0 < most_pages place.class }
    ensures range { result.0 < 2 ^ 28 }
{
    spot(place)
}
