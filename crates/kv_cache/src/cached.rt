ghost use Rattle.std.specs.Prelude.{◌≡◌, ℕ, ◌-◌, ◌^◌, ◌≤◌, ◌<◌, List, [], None, Some, IsTrue};
ghost use Rattle.std.specs.Prelude.{IfOk, IfErr, OnOk, OnErr};
ghost use Rattle.kv_base.specs.Fault.{HasCause};
ghost use Rattle.kv_base.specs.Image.{zero_page};
ghost use Rattle.kv_disk.specs.Steps.{Looks, WritesPage, Syncs, ReadsAtMost};
ghost use Rattle.kv_cache.specs.Kept.{content_of, without, renewed};
ghost use Rattle.kv_cache.specs.Cache.{IsCache, Hits, KeepsOrCounts};

use crate::kept::KeptPages;
use kv_base::{Failed, NoMemory};
use kv_disk::Disk;
use std::alloc::Global;
use std::marker::Model;

/// A disk with a cache of its pages. Contracts see the disk, the capacity, the pages that are kept,
/// the most recently used first, and how often a page was read and could not be kept.
///
/// Write to the disk through the cache alone: `into_disk` gives the disk back.
#[derive(Drop)]
pub struct Cached<D: Disk> {
    disk: D,
    kept: KeptPages,
    unkept: u64,
}

impl<D: Disk> Model for Cached<D> {
    ghost use Rattle.std.specs.Prelude.{IsTrue};
    ghost use Rattle.kv_cache.specs.Kept.{AgreeWith};
    ghost use Rattle.kv_cache.specs.Cache.{Cache};

    ghost Value = { Cache D };

    ghost view = { λ c. record {
      disk = c.disk;
      capacity = c.kept.capacity;
      pages = c.kept.pages;
      unkept = c.unkept;
    } };

    ghost invariant = { λ c. IsTrue D.tells → AgreeWith (D.seen c.disk) c.kept.pages };
}

impl<D: Disk> Cached<D> {
    /// The disk with no page kept, and room for so many, 1 to 1,024. The one error is want of
    /// memory, and it gives the disk back.
    pub fn new(alloc: Global, disk: D, pages: u32) -> Result<Cached<D>, (D, NoMemory)>
        requires { (1 ≤ pages) × (pages ≤ 1024) }
        ensures ok { IfOk result (λ cache. cache ≡ record {
          disk = disk;
          capacity = pages;
          pages = [];
          unkept = 0;
        }) }
        ensures err { IfErr result (λ e. e.0 ≡ disk) }
    {
        match KeptPages::new(alloc, pages) {
            Ok(kept) => Ok(Cached {
                disk,
                kept,
                unkept: 0,
            }),
            Err(no_memory) => Err((disk, no_memory)),
        }
    }

    /// Copies the content of a page to `out`. A page that is kept takes no call of the disk. Any
    /// other is read, and is kept from then on if there is memory, in the place of the one that was
    /// used least recently. After `Failed`, which the disk's count of faults shows, `out` holds
    /// anything.
    pub fn page(&mut self, file: u8, page: u32, out: &mut [u8; 4096]) -> Result<(), Failed>
        requires file { file ≤ 13 }
        requires page { page < 2 ^ 32 - 1 }
        ensures content { IsTrue D.tells → OnOk result (out.new ≡ D.seen self.old.disk file page) }
        ensures reads { ReadsAtMost ⟦<D as Disk>⟧ 1 self.old.disk self.new.disk }
        ensures cause { HasCause (D.faults self.old.disk) (D.faults self.new.disk) result }

        // a page that is kept
        ensures hit { (content : List ℕ) → content_of self.old.pages file page ≡ Some content
            → Hits file page content out.new self.old self.new result }

        // any other
        ensures missed { content_of self.old.pages file page ≡ None
            → Looks ⟦<D as Disk>⟧ self.old.disk self.new.disk result }
        ensures ok { content_of self.old.pages file page ≡ None
            → OnOk result (KeepsOrCounts file page out.new self.old self.new) }
        ensures err { OnErr result (self.new ≡ record self.old { disk = self.new.disk }) }
    {
        if self.kept.copy(file, page, out) {
            return Ok(());
        }
        self.disk.read(file, page, out)?;
        if let Err(NoMemory) = self.kept.keep(file, page, out) {
            self.unkept = self.unkept.saturating_add(1);
        }
        Ok(())
    }

    /// Writes a page. If it is kept, its copy is renewed, and dropped after `Failed`, which the
    /// disk's count of faults shows. Takes no memory.
    pub fn write(&mut self, file: u8, page: u32, content: &[u8; 4096]) -> Result<(), Failed>
        requires file { file ≤ 13 }
        requires page { page < 2 ^ 32 - 1 }
        ensures disk { WritesPage ⟦<D as Disk>⟧ file page content.now self.old.disk self.new.disk
            result }

        // the pages
        ensures ok { OnOk result (self.new ≡ record self.old {
          disk = self.new.disk;
          pages = renewed self.old.pages file page content.now;
        }) }
        ensures err { OnErr result (self.new ≡ record self.old {
          disk = self.new.disk;
          pages = without self.old.pages file page;
        }) }
    {
        match self.disk.write(file, page, content) {
            Ok(()) => {
                self.kept.renew(file, page, content);
                Ok(())
            }
            Err(failed) => {
                self.kept.remove(file, page);
                Err(failed)
            }
        }
    }

    /// Makes all writes so far durable. After `Failed`, which the disk's count of faults shows, all
    /// stands as before.
    pub fn sync(&mut self) -> Result<(), Failed>
        ensures disk { Syncs ⟦<D as Disk>⟧ self.old.disk self.new.disk result }
        ensures kept { self.new ≡ record self.old { disk = self.new.disk } }
    {
        self.disk.sync()
    }

    /// A number of pages of the file, such that every page at or past it is zero. `Failed` shows in
    /// the disk's count of faults.
    pub fn length(&mut self, file: u8) -> Result<u32, Failed>
        requires { file ≤ 13 }
        ensures rest { IsTrue D.tells → IfOk result (λ pages. (p : ℕ) → pages ≤ p
            → D.seen self.old.disk file p ≡ zero_page) }
        ensures disk { Looks ⟦<D as Disk>⟧ self.old.disk self.new.disk result }
        ensures kept { self.new ≡ record self.old { disk = self.new.disk } }
    {
        self.disk.length(file)
    }

    /// How often a page was read and could not be kept for want of memory.
    pub fn unkept(&self) -> u64
        ensures { result ≡ self.now.unkept }
    {
        self.unkept
    }

    /// The most pages that are kept.
    pub fn capacity(&self) -> u32
        ensures capacity { result ≡ self.now.capacity }
        ensures valid { IsCache ⟦<D as Disk>⟧ self.now }
    {
        self.kept.capacity()
    }

    /// The disk alone.
    pub fn into_disk(self) -> D
        ensures { result ≡ self.disk }
    {
        let Cached { disk, .. } = self;
        disk
    }
}
