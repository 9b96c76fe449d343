ghost use Rattle.std.specs.Prelude.{◌≡◌, ◌+◌, ◌≤◌, ◌<◌, [], get_or, OnOk, IsTrue, length};
ghost use Rattle.kv_base.specs.Fault.{HasCause, Counted};
ghost use Rattle.kv_base.specs.Crash.{Only, LeavesOnly};
ghost use Rattle.kv_slab.specs.Images.{Mix};
ghost use Rattle.kv_slab.specs.Pages.{over, ArePages, InRounds, IsOrder};
ghost use Rattle.kv_disk.specs.Steps.{WritesPage};
ghost use Rattle.kv_slab.specs.declared.page.Page.{Page as Paged};

use crate::page::Page;
use kv_base::Failed;
use kv_cache::Cached;
use kv_disk::Disk;

/// Writes one of the pages.
fn write_one<D: Disk>(disk: &mut Cached<D>, pages: &[Page], number: usize) -> Result<(), Failed>
    requires pages { ArePages pages.now }
    requires number { number < length pages.now }
    ensures writes { (page : Paged) → page ≡ get_or pages.now number page
        → WritesPage ⟦<D as Disk>⟧ page.file page.page page.content disk.old.disk disk.new.disk
        result }
    ensures cause { HasCause (D.faults disk.old.disk) (D.faults disk.new.disk) result }
    ensures counted { Counted (D.faults disk.old.disk) (D.faults disk.new.disk) result }
    ensures count { D.calls disk.new.disk ≤ D.calls disk.old.disk + 1 }
{
    let page = &pages[number];
    disk.write(page.file, page.page, &page.content)
}

/// Writes pages, each once and in their order, and then syncs; without pages it makes no call. A
/// crash meanwhile leaves each page
/// as before or as written.
fn write_pages<D: Disk>(
    disk: &mut Cached<D>,
    pages: &[Page],
    order: &[(u8, u32, usize)],
) -> Result<(), Failed>
    requires settled { Only (D.seen disk.old.disk) (D.leaves disk.old.disk
        (D.calls disk.old.disk)) }
    requires pages { ArePages pages.now }
    requires order { IsOrder pages.now order.now }
    ensures any_moment { LeavesOnly (D.calls disk.old.disk) (D.calls disk.new.disk)
        (D.leaves disk.old.disk) (D.leaves disk.new.disk)
        (Mix (D.seen disk.old.disk) (over (D.seen disk.old.disk) pages.now)) }
    ensures written { IsTrue D.tells
        → OnOk result (D.seen disk.new.disk ≡ over (D.seen disk.old.disk) pages.now) }
    ensures durable { OnOk result (Only (D.seen disk.new.disk)
        (D.leaves disk.new.disk (D.calls disk.new.disk))) }
    ensures cause { HasCause (D.faults disk.old.disk) (D.faults disk.new.disk) result }
    ensures counted { Counted (D.faults disk.old.disk) (D.faults disk.new.disk) result }
    ensures count { D.calls disk.new.disk ≤ D.calls disk.old.disk + length pages.now + 1 }
    ensures none { pages.now ≡ [] → disk.new ≡ disk.old }
{
    if pages.is_empty() {
        return Ok(());
    }
    for turn in 0..order.len() {
        write_one(disk, pages, order[turn].2)?;
    }
    disk.sync()
}

/// Two rounds. A round without pages is left out.
pub fn carry_out<D: Disk>(
    disk: &mut Cached<D>,
    first: &[Page],
    first_order: &[(u8, u32, usize)],
    second: &[Page],
    second_order: &[(u8, u32, usize)],
) -> Result<(), Failed>
    requires settled { Only (D.seen disk.old.disk) (D.leaves disk.old.disk
        (D.calls disk.old.disk)) }
    requires first { ArePages first.now }
    requires first_order { IsOrder first.now first_order.now }
    requires second { ArePages second.now }
    requires second_order { IsOrder second.now second_order.now }
    ensures any_moment { LeavesOnly (D.calls disk.old.disk) (D.calls disk.new.disk)
        (D.leaves disk.old.disk) (D.leaves disk.new.disk)
        (InRounds (D.seen disk.old.disk) first.now second.now) }
    ensures written { IsTrue D.tells → OnOk result (D.seen disk.new.disk
        ≡ over (over (D.seen disk.old.disk) first.now) second.now) }
    ensures durable { OnOk result (Only (D.seen disk.new.disk)
        (D.leaves disk.new.disk (D.calls disk.new.disk))) }
    ensures cause { HasCause (D.faults disk.old.disk) (D.faults disk.new.disk) result }
    ensures counted { Counted (D.faults disk.old.disk) (D.faults disk.new.disk) result }
    ensures count { D.calls disk.new.disk ≤ D.calls disk.old.disk + length first.now
        + length second.now + 2 }
    ensures none { first.now ≡ [] → second.now ≡ [] → disk.new ≡ disk.old }
{
    write_pages(disk, first, first_order)?;
    write_pages(disk, second, second_order)
}
