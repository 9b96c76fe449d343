ghost use Rattle.std.specs.Prelude.{◌≡◌, ◌<◌, ◌-◌, ◌*◌, ◌^◌, true, false, OnOk, OnErr};
ghost use Rattle.kv_base.specs.Calls.{next_count};
ghost use Rattle.kv_base.specs.Fault.{Counted};
ghost use Rattle.kv_base.specs.Image.{zero_page};
ghost use Rattle.kv_site.specs.FilePages.{just_opened};

use crate::page_file::PageFile;
use crate::page_io::{page_count, read_page, write_page};
use kv_base::Failed;
use std::fs::OpenFile;
use std::marker::Model;
use std::os::unix::fs::FileExt;

/// The pages of a file of std: one call of the system for a page, more only where that moved a part
/// of it. It counts each error as a fault, and tells nothing of what it reads. What is there when
/// it is made counts as written.
#[derive(Drop)]
pub struct FilePages<F> {
    file: F,
    is_folder: bool,
    synced: bool,
    faults: u64,
}

impl<F> Model for FilePages<F> {
    ghost use Rattle.kv_site.specs.FilePages.{FileMarks};

    ghost Value = { FileMarks };

    ghost view = { λ f. record { synced = f.synced; faults = f.faults } };
}

impl<F> FilePages<F> {
    /// The pages of a file.
    pub fn of_file(file: F) -> FilePages<F>
        ensures { result ≡ just_opened }
    {
        FilePages {
            file,
            is_folder: false,
            synced: false,
            faults: 0,
        }
    }

    /// A folder, whose names a sync makes durable.
    pub fn of_folder(folder: F) -> FilePages<F>
        ensures { result ≡ just_opened }
    {
        FilePages {
            file: folder,
            is_folder: true,
            synced: false,
            faults: 0,
        }
    }

    // Counts a fault.
    fn fail(&mut self) -> Failed
        ensures { self.new ≡ record self.old { faults = next_count self.old.faults } }
    {
        self.faults = self.faults.saturating_add(1);
        Failed
    }
}

impl<F: FileExt + OpenFile> PageFile for FilePages<F> {
    ghost tells = { false };

    ghost reads = { λ _ _. zero_page };

    ghost synced = { λ f. f.synced };

    ghost faults = { λ f. f.faults };

    fn read(&mut self, page: u32, content: &mut [u8; 4096]) -> Result<(), Failed>
        requires { page < 2 ^ 32 - 1 }
        ensures kept { self.new.synced ≡ self.old.synced }
        ensures counted { Counted self.old.faults self.new.faults result }
    {
        match read_page(&self.file, offset_of(page), content) {
            Ok(()) => Ok(()),
            Err(_) => Err(self.fail()),
        }
    }

    fn write(&mut self, page: u32, content: &[u8; 4096]) -> Result<(), Failed>
        requires { page < 2 ^ 32 - 1 }
        ensures marked { self.new.synced ≡ false }
        ensures counted { Counted self.old.faults self.new.faults result }
    {
        self.synced = false;
        match write_page(&self.file, offset_of(page), content) {
            Ok(()) => Ok(()),
            Err(_) => Err(self.fail()),
        }
    }

    fn sync(&mut self) -> Result<(), Failed>
        ensures done { OnOk result (self.new.synced ≡ true) }
        ensures undone { OnErr result (self.new.synced ≡ self.old.synced) }
        ensures counted { Counted self.old.faults self.new.faults result }
    {
        let outcome = if self.is_folder {
            self.file.sync_all()
        } else {
            self.file.sync_data()
        };
        match outcome {
            Ok(()) => {
                self.synced = true;
                Ok(())
            }
            Err(_) => Err(self.fail()),
        }
    }

    fn is_synced(&self) -> bool
        ensures { result ≡ self.now.synced }
    {
        self.synced
    }

    fn length(&mut self) -> Result<u32, Failed>
        ensures kept { self.new.synced ≡ self.old.synced }
        ensures counted { Counted self.old.faults self.new.faults result }
    {
        match page_count(&self.file) {
            Ok(pages) => Ok(pages),
            Err(_) => Err(self.fail()),
        }
    }
}

// Where a page begins in its file.
fn offset_of(page: u32) -> u64
    ensures { result ≡ page * 4096 }
{
    u64::from(page) * 4096
}
