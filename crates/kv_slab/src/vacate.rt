ghost use Rattle.std.specs.Prelude.{◌≡◌, ◌+◌, ◌≤◌, ◌<◌, ◌^◌, ◌-◌, OnOk, IfOk, IfErr, IsTrue, length};
ghost use Rattle.std.specs.Option.{ForSome};
ghost use Rattle.kv_base.specs.Image.{Image};
ghost use Rattle.kv_disk.specs.Steps.{ReadsAtMost};
ghost use Rattle.kv_model.specs.Recovery.{most_pages};
ghost use Rattle.kv_model.specs.Slots.{Tombstone};
ghost use Rattle.kv_slab.specs.Fault.{StepCounted};
ghost use Rattle.kv_slab.specs.Images.{IsSlotSet, StillLater};
ghost use Rattle.kv_slab.specs.Moves.{IsSlabPlace};
ghost use Rattle.kv_slab.specs.Pages.{over, ArePages, HasAt};

use crate::fault::StepFault;
use crate::hold::{hold, hold_whole};
use crate::page::Page;
use crate::read::{place_spot, read_page};
use crate::round::Round;
use kv_base::Place;
use kv_cache::Cached;
use kv_disk::Disk;
use kv_slot::put_tombstone;

/// Reads a page as the first round leaves it.
fn fetch<D: Disk>(
    disk: &mut Cached<D>,
    first: &Round,
    file: u8,
    page: u32,
    content: &mut [u8; 4096],
) -> Result<(), StepFault>
    requires file { file ≤ 13 }
    requires page { page < 2 ^ 32 - 1 }
    requires first { ArePages first.now }
    ensures reads { ReadsAtMost ⟦<D as Disk>⟧ 1 disk.old.disk disk.new.disk }
    ensures content { IsTrue D.tells
        → OnOk result (content.new ≡ over (D.seen disk.old.disk) first.now file page) }
    ensures cause { StepCounted (D.faults disk.old.disk) (D.faults disk.new.disk) result }
{
    match first.content(file, page) {
        Some(planned) => {
            *content = *planned;
            Ok(())
        }
        None => Ok(read_page(disk, file, page, content)?),
    }
}

/// Has a page at hand: as it is planned, or as the first round leaves it.
fn bring<D: Disk>(
    disk: &mut Cached<D>,
    round: &mut Round,
    first: &Round,
    file: u8,
    page: u32,
) -> Result<usize, StepFault>
    requires low { (1 ≤ file) × (file ≤ 7) }
    requires page { page < most_pages file }
    requires number { page < 2 ^ 32 - 1 }
    requires pages { ArePages round.old }
    requires first { ArePages first.now }
    ensures reads { ReadsAtMost ⟦<D as Disk>⟧ 1 disk.old.disk disk.new.disk }
    ensures same { IsTrue D.tells → over (over (D.seen disk.old.disk) first.now) round.new
        ≡ over (over (D.seen disk.old.disk) first.now) round.old }
    ensures at { IfOk result (λ at. HasAt round.new at file page) }
    ensures pages { ArePages round.new }
    ensures count { length round.new ≤ length round.old + 1 }
    ensures cause { StepCounted (D.faults disk.old.disk) (D.faults disk.new.disk) result }
{
    match round.find(file, page) {
        Some(at) => Ok(at),
        None => {
            let mut held = Page {
                file,
                page,
                content: [0; 4096],
            };
            fetch(disk, first, file, page, &mut held.content)?;
            hold(round, held)
        }
    }
}

/// Writes a tombstone of the classes 1 to 6 into its page.
fn vacate_part<D: Disk>(
    disk: &mut Cached<D>,
    round: &mut Round,
    first: &Round,
    place: Place,
    stamp: u64,
    link: Option<u32>,
) -> Result<(), StepFault>
    requires place { IsSlabPlace place }
    requires small { place.class ≤ 7 }
    requires link { ForSome link (λ slot. slot < 2 ^ 24) }
    requires pages { ArePages round.old }
    requires first { ArePages first.now }
    ensures reads { ReadsAtMost ⟦<D as Disk>⟧ 1 disk.old.disk disk.new.disk }
    ensures set { IsTrue D.tells → OnOk result (IsSlotSet place.class place.slot
        (Tombstone stamp link) stamp (over (over (D.seen disk.old.disk) first.now) round.old)
        (over (over (D.seen disk.old.disk) first.now) round.new)) }
    ensures later { IsTrue D.tells → OnOk result (StillLater
        (over (over (D.seen disk.old.disk) first.now) round.old)
        (over (over (D.seen disk.old.disk) first.now) round.new)) }
    ensures pages { ArePages round.new }
    ensures count { length round.new ≤ length round.old + 1 }
    ensures cause { StepCounted (D.faults disk.old.disk) (D.faults disk.new.disk) result }
{
    let (page, _) = place_spot(place);
    let at = bring(disk, round, first, place.class, page)?;
    round.put_tombstone(at, place, stamp, link);
    Ok(())
}

/// Writes a tombstone of the classes 7 to 11, the first page of its slot.
fn vacate_page(
    round: &mut Round,
    place: Place,
    stamp: u64,
    link: Option<u32>,
) -> Result<(), StepFault>
    requires place { IsSlabPlace place }
    requires class { 7 ≤ place.class }
    requires link { ForSome link (λ slot. slot < 2 ^ 24) }
    requires pages { ArePages round.old }
    ensures set { (image : Image) → OnOk result (IsSlotSet place.class place.slot
        (Tombstone stamp link) stamp (over image round.old) (over image round.new)) }
    ensures later { (image : Image) → OnOk result (StillLater (over image round.old)
        (over image round.new)) }
    ensures pages { ArePages round.new }
    ensures count { length round.new ≤ length round.old + 1 }
    ensures cause { IfErr result (λ fault. fault ≡ StepFault.NoMemory) }
{
    let (page, _) = place_spot(place);
    let mut held = Page {
        file: place.class,
        page,
        content: [0; 4096],
    };
    put_tombstone(&mut held.content, place.class, 0, stamp, link);
    hold_whole(round, held)
}

/// Writes a tombstone into a slot.
pub fn write_tombstone<D: Disk>(
    disk: &mut Cached<D>,
    round: &mut Round,
    first: &Round,
    place: Place,
    stamp: u64,
    link: Option<u32>,
) -> Result<(), StepFault>
    requires place { IsSlabPlace place }
    requires link { ForSome link (λ slot. slot < 2 ^ 24) }
    requires pages { ArePages round.old }
    requires first { ArePages first.now }
    ensures reads { ReadsAtMost ⟦<D as Disk>⟧ 1 disk.old.disk disk.new.disk }
    ensures set { IsTrue D.tells → OnOk result (IsSlotSet place.class place.slot
        (Tombstone stamp link) stamp (over (over (D.seen disk.old.disk) first.now) round.old)
        (over (over (D.seen disk.old.disk) first.now) round.new)) }
    ensures later { IsTrue D.tells → OnOk result (StillLater
        (over (over (D.seen disk.old.disk) first.now) round.old)
        (over (over (D.seen disk.old.disk) first.now) round.new)) }
    ensures pages { ArePages round.new }
    ensures count { length round.new ≤ length round.old + 1 }
    ensures cause { StepCounted (D.faults disk.old.disk) (D.faults disk.new.disk) result }
{
    if place.class < 7 {
        vacate_part(disk, round, first, place, stamp, link)
    } else {
        vacate_page(round, place, stamp, link)
    }
}
