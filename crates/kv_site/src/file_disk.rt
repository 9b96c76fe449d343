ghost use Rattle.std.specs.Prelude.{◌≡◌, ◌≤◌, ◌<◌, ◌-◌, ◌^◌, ℕ, false, IsTrue, IfOk, OnOk, OnErr};
ghost use Rattle.std.specs.Prelude.{map, set, vec_len, true, if◌then◌else◌};
ghost use Rattle.kv_base.specs.Calls.{next_count};
ghost use Rattle.kv_base.specs.Fault.{HasCause, Counted};
ghost use Rattle.kv_base.specs.Image.{zero_page, with_page};
ghost use Rattle.kv_base.specs.Crash.{WrittenOrNot, Advances};
ghost use Rattle.kv_disk.specs.Plain.{no_choices};
ghost use Rattle.kv_site.specs.PageFile.{image_in, CountedIn, SyncsInOrder};

use crate::page_file::PageFile;
use kv_base::Failed;
use kv_disk::Disk;
use std::marker::Model;

/// A worker's disk in files of pages, one open handle each. A sync covers the files that were
/// written since they were last made durable, in order, up to the first that fails: that one and
/// all behind it stay for the next sync. Behind the 14 files stand three folders, which are synced
/// the same way.
///
/// It tells what it reads where its files do, and nothing of crashes.
#[derive(Drop)]
pub struct FileDisk<F> {
    files: Vec<F>,
    calls: u64,
    faults: u64,
}

impl<F> Model for FileDisk<F> {
    ghost use Rattle.std.specs.Prelude.{◌≡◌, vec_len};
    ghost use Rattle.kv_site.specs.PageFile.{DiskFiles};

    ghost Value = { DiskFiles F };

    ghost view = { λ d. record { files = d.files.items; calls = d.calls; faults = d.faults } };

    ghost invariant = { λ d. vec_len d.files ≡ 17 };
}

impl<F> FileDisk<F> {
    /// A disk of 14 files and three folders.
    pub fn new(files: Vec<F>) -> FileDisk<F>
        requires { vec_len files ≡ 17 }
        ensures { result ≡ record { files = files.items; calls = 0; faults = 0 } }
    {
        FileDisk {
            files,
            calls: 0,
            faults: 0,
        }
    }

    // Counts a call, and a fault where it failed.
    fn count(&mut self, failed: bool)
        ensures { self.new ≡ record self.old {
          calls = next_count self.old.calls;
          faults = if failed then next_count self.old.faults else self.old.faults;
        } }
    {
        self.calls = self.calls.saturating_add(1);
        if failed {
            self.faults = self.faults.saturating_add(1);
        }
    }
}

// Makes a file durable where it isn't.
fn sync_file<F: PageFile>(file: &mut F) -> Result<(), Failed>
    ensures seen { IsTrue F.tells → F.reads file.new ≡ F.reads file.old }
    ensures done { OnOk result (F.synced file.new ≡ true) }
    ensures was { OnErr result (F.synced file.old ≡ false) }
    ensures still { OnErr result (F.synced file.new ≡ false) }
{
    if file.is_synced() {
        return Ok(());
    }
    file.sync()
}

// Makes the files durable that aren't, in order, up to the first that fails.
fn sync_files<F: PageFile>(files: &mut Vec<F>) -> Result<(), Failed>
    requires { vec_len files.old ≡ 17 }
    ensures seen { IsTrue F.tells
        → image_in F.reads files.new.items ≡ image_in F.reads files.old.items }
    ensures marks { SyncsInOrder (map F.synced files.old.items) (map F.synced files.new.items)
        result }
    ensures length { vec_len files.new ≡ 17 }
{
    for at in 0..files.len() {
        match sync_file(&mut files[at]) {
            Ok(()) => {}
            Err(Failed) => return Err(Failed),
        }
    }
    Ok(())
}

impl<F: PageFile> Disk for FileDisk<F> {
    ghost tells = { F.tells };

    ghost seen = { λ d. image_in F.reads d.files };

    ghost leaves = { λ _. no_choices };

    ghost calls = { λ d. d.calls };

    ghost faults = { λ d. d.faults };

    ghost told = { λ d t f p c none. absurd none };

    fn read(&mut self, file: u8, page: u32, buf: &mut [u8; 4096]) -> Result<(), Failed>
        requires file { file ≤ 13 }
        requires page { page < 2 ^ 32 - 1 }
        ensures content { IsTrue F.tells
            → OnOk result (buf.new ≡ image_in F.reads self.old.files file page) }
        ensures seen { IsTrue F.tells
            → image_in F.reads self.new.files ≡ image_in F.reads self.old.files }
        ensures past { Advances self.old.calls self.new.calls no_choices no_choices }
        ensures cause { HasCause self.old.faults self.new.faults result }
        ensures counted { Counted self.old.faults self.new.faults result }

        // its fault is that of the file, and the next sync covers what it did
        ensures file { CountedIn F.faults file self.old.files self.new.files result }
        ensures kept { map F.synced self.new.files ≡ map F.synced self.old.files }
    {
        let outcome = self.files[file as usize].read(page, buf);
        self.count(outcome.is_err());
        outcome
    }

    fn write(&mut self, file: u8, page: u32, content: &[u8; 4096]) -> Result<(), Failed>
        requires file { file ≤ 13 }
        requires page { page < 2 ^ 32 - 1 }
        ensures written { IsTrue F.tells → OnOk result (image_in F.reads self.new.files
            ≡ with_page (image_in F.reads self.old.files) file page content.now) }
        ensures seen { IsTrue F.tells → WrittenOrNot file page content.now
            (image_in F.reads self.old.files) (image_in F.reads self.new.files) }
        ensures past { Advances self.old.calls self.new.calls no_choices no_choices }
        ensures cause { HasCause self.old.faults self.new.faults result }
        ensures counted { Counted self.old.faults self.new.faults result }

        // its fault is that of the file, and the next sync covers this file too
        ensures file { CountedIn F.faults file self.old.files self.new.files result }
        ensures marked { map F.synced self.new.files
            ≡ set (map F.synced self.old.files) file false }
    {
        let outcome = self.files[file as usize].write(page, content);
        self.count(outcome.is_err());
        outcome
    }

    fn sync(&mut self) -> Result<(), Failed>
        ensures seen { IsTrue F.tells
            → image_in F.reads self.new.files ≡ image_in F.reads self.old.files }
        ensures past { Advances self.old.calls self.new.calls no_choices no_choices }
        ensures cause { HasCause self.old.faults self.new.faults result }
        ensures counted { Counted self.old.faults self.new.faults result }

        // what is durable then
        ensures marks { SyncsInOrder (map F.synced self.old.files) (map F.synced self.new.files)
            result }
    {
        let outcome = sync_files(&mut self.files);
        self.count(outcome.is_err());
        outcome
    }

    fn length(&mut self, file: u8) -> Result<u32, Failed>
        requires { file ≤ 13 }
        ensures rest { IsTrue F.tells → IfOk result (λ pages. (p : ℕ) → pages ≤ p
            → image_in F.reads self.old.files file p ≡ zero_page) }
        ensures seen { IsTrue F.tells
            → image_in F.reads self.new.files ≡ image_in F.reads self.old.files }
        ensures past { Advances self.old.calls self.new.calls no_choices no_choices }
        ensures cause { HasCause self.old.faults self.new.faults result }
        ensures counted { Counted self.old.faults self.new.faults result }

        // its fault is that of the file, and the next sync covers what it did
        ensures file { CountedIn F.faults file self.old.files self.new.files result }
        ensures kept { map F.synced self.new.files ≡ map F.synced self.old.files }
    {
        let outcome = self.files[file as usize].length();
        self.count(outcome.is_err());
        outcome
    }
}
