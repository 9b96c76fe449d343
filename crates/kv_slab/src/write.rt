ghost use Rattle.std.specs.Prelude.{◌≡◌, ◌+◌, ◌≤◌, ◌<◌, ◌^◌, ◌-◌, Some, OnOk, IfOk, IfErr, IsTrue};
ghost use Rattle.std.specs.Prelude.{length};
ghost use Rattle.kv_base.specs.Image.{Image};
ghost use Rattle.kv_disk.specs.Steps.{ReadsAtMost};
ghost use Rattle.kv_model.specs.Layout.{all_classes, class_of};
ghost use Rattle.kv_model.specs.Reading.{large_slot};
ghost use Rattle.kv_model.specs.Recovery.{most_pages};
ghost use Rattle.kv_model.specs.Slots.{Item};
ghost use Rattle.kv_slab.specs.Fault.{StepCounted};
ghost use Rattle.kv_slab.specs.Images.{IsSlotSet};
ghost use Rattle.kv_slab.specs.Large.{HaveStamp};
ghost use Rattle.kv_slab.specs.Moves.{IsSlabPlace};
ghost use Rattle.kv_slab.specs.Pages.{over, ArePages, HasAt};

use crate::fault::StepFault;
use crate::hold::{hold, hold_pages, hold_whole};
use crate::page::Page;
use crate::read::{place_spot, read_page};
use crate::round::Round;
use kv_base::Place;
use kv_cache::Cached;
use kv_disk::Disk;
use kv_slot::{put_item, put_large};
use std::alloc::Global;

/// Has a page at hand: as it is planned, or as the disk has it.
fn bring<D: Disk>(
    disk: &mut Cached<D>,
    round: &mut Round,
    file: u8,
    page: u32,
) -> Result<usize, StepFault>
    requires low { (1 ≤ file) × (file ≤ 7) }
    requires page { page < most_pages file }
    requires number { page < 2 ^ 32 - 1 }
    requires pages { ArePages round.old }
    ensures reads { ReadsAtMost ⟦<D as Disk>⟧ 1 disk.old.disk disk.new.disk }
    ensures same { IsTrue D.tells → over (D.seen disk.old.disk) round.new
        ≡ over (D.seen disk.old.disk) round.old }
    ensures at { IfOk result (λ at. HasAt round.new at file page) }
    ensures pages { ArePages round.new }
    ensures count { length round.new ≤ length round.old + 1 }
    ensures cause { StepCounted (D.faults disk.old.disk) (D.faults disk.new.disk) result }
{
    match round.find(file, page) {
        Some(at) => Ok(at),
        None => {
            let mut held = Page {
                file,
                page,
                content: [0; 4096],
            };
            read_page(disk, file, page, &mut held.content)?;
            hold(round, held)
        }
    }
}

/// Writes an item of the classes 1 to 6 into its page.
fn write_part<D: Disk>(
    disk: &mut Cached<D>,
    round: &mut Round,
    place: Place,
    stamp: u64,
    key: &[u8],
    value: &[u8],
) -> Result<(), StepFault>
    requires place { IsSlabPlace place }
    requires small { place.class ≤ 7 }
    requires item { class_of all_classes (length key.now) (length value.now) ≡ Some place.class }
    requires pages { ArePages round.old }
    ensures reads { ReadsAtMost ⟦<D as Disk>⟧ 1 disk.old.disk disk.new.disk }
    ensures set { IsTrue D.tells → OnOk result (IsSlotSet place.class place.slot
        (Item stamp key.now value.now) stamp (over (D.seen disk.old.disk) round.old)
        (over (D.seen disk.old.disk) round.new)) }
    ensures pages { ArePages round.new }
    ensures count { length round.new ≤ length round.old + 1 }
    ensures cause { StepCounted (D.faults disk.old.disk) (D.faults disk.new.disk) result }
{
    let (page, _) = place_spot(place);
    let at = bring(disk, round, place.class, page)?;
    round.put_item(at, place, stamp, key, value);
    Ok(())
}

/// Writes an item of class 7, which fills its page.
fn write_page(
    round: &mut Round,
    place: Place,
    stamp: u64,
    key: &[u8],
    value: &[u8],
) -> Result<(), StepFault>
    requires place { IsSlabPlace place }
    requires class { place.class ≡ 7 }
    requires item { class_of all_classes (length key.now) (length value.now) ≡ Some place.class }
    requires pages { ArePages round.old }
    ensures set { (image : Image) → OnOk result (IsSlotSet place.class place.slot
        (Item stamp key.now value.now) stamp (over image round.old)
        (over image round.new)) }
    ensures pages { ArePages round.new }
    ensures count { length round.new ≤ length round.old + 1 }
    ensures cause { IfErr result (λ fault. fault ≡ StepFault.NoMemory) }
{
    let (page, _) = place_spot(place);
    let mut held = Page {
        file: place.class,
        page,
        content: [0; 4096],
    };
    put_item(&mut held.content, place.class, 0, stamp, key, value);
    hold_whole(round, held)
}

/// Writes an item of the classes 8 to 11, all pages of its slot.
fn write_large(
    alloc: Global,
    round: &mut Round,
    place: Place,
    stamp: u64,
    key: &[u8],
    value: &[u8],
) -> Result<(), StepFault>
    requires place { IsSlabPlace place }
    requires large { 8 ≤ place.class }
    requires item { class_of all_classes (length key.now) (length value.now) ≡ Some place.class }
    requires pages { ArePages round.old }
    ensures set { (image : Image) → OnOk result (IsSlotSet place.class place.slot
        (Item stamp key.now value.now) stamp (over image round.old)
        (over image round.new)) }
    ensures whole { (image : Image) → OnOk result (HaveStamp stamp
        (large_slot (over image round.new) place.class place.slot)) }
    ensures pages { ArePages round.new }
    ensures count { length round.new ≤ length round.old + 16 }
    ensures cause { IfErr result (λ fault. fault ≡ StepFault.NoMemory) }
{
    let (first, _) = place_spot(place);
    let contents = put_large(alloc, place.class, stamp, key, value)?;
    hold_pages(round, place.class, first, contents.as_slice())
}

/// Writes an item into its slot.
pub fn write_item<D: Disk>(
    alloc: Global,
    disk: &mut Cached<D>,
    round: &mut Round,
    place: Place,
    stamp: u64,
    key: &[u8],
    value: &[u8],
) -> Result<(), StepFault>
    requires place { IsSlabPlace place }
    requires item { class_of all_classes (length key.now) (length value.now) ≡ Some place.class }
    requires pages { ArePages round.old }
    ensures reads { ReadsAtMost ⟦<D as Disk>⟧ 1 disk.old.disk disk.new.disk }
    ensures set { IsTrue D.tells → OnOk result (IsSlotSet place.class place.slot
        (Item stamp key.now value.now) stamp (over (D.seen disk.old.disk) round.old)
        (over (D.seen disk.old.disk) round.new)) }
    ensures whole { IsTrue D.tells → 8 ≤ place.class → OnOk result (HaveStamp stamp
        (large_slot (over (D.seen disk.old.disk) round.new) place.class place.slot)) }
    ensures pages { ArePages round.new }
    ensures count { length round.new ≤ length round.old + 16 }
    ensures cause { StepCounted (D.faults disk.old.disk) (D.faults disk.new.disk) result }
{
    match place.class {
        0..=6 => write_part(disk, round, place, stamp, key, value),
        7 => write_page(round, place, stamp, key, value),
        _ => write_large(alloc, round, place, stamp, key, value),
    }
}
