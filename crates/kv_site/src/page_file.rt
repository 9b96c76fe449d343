ghost use Rattle.std.specs.Prelude.{◌≡◌, ◌≤◌, ◌<◌, ◌-◌, ◌^◌, ℕ, Bool, List, true, false, IsTrue};
ghost use Rattle.std.specs.Prelude.{IfOk, OnOk, OnErr};
ghost use Rattle.kv_base.specs.Fault.{Counted};
ghost use Rattle.kv_base.specs.Image.{zero_page};
ghost use Rattle.kv_site.specs.PageFile.{put_page, IsPutOrNot};

use kv_base::Failed;

/// A file of pages of 4,096 bytes, or a folder, of which only a sync is asked.
pub trait PageFile {
    /// Whether files of this type tell what they read.
    ghost tells: { Bool };

    /// The content of each page.
    ghost reads: { Self → ℕ → List ℕ };

    /// Whether all that was written is durable.
    ghost synced: { Self → Bool };

    /// How often it has failed. The count never falls.
    ghost faults: { Self → ℕ };

    /// Reads a page, of which the file has all bytes, a part, or none: what it lacks is zeros.
    /// After `Failed` the buffer holds anything.
    fn read(&mut self, page: u32, content: &mut [u8; 4096]) -> Result<(), Failed>
        requires { page < 2 ^ 32 - 1 }
        ensures content { IsTrue tells → OnOk result (content.new ≡ reads self.old page) }
        ensures seen { IsTrue tells → reads self.new ≡ reads self.old }
        ensures kept { synced self.new ≡ synced self.old }
        ensures counted { Counted (faults self.old) (faults self.new) result };

    /// Writes a page. After `Failed` it reads as before or as the content.
    fn write(&mut self, page: u32, content: &[u8; 4096]) -> Result<(), Failed>
        requires { page < 2 ^ 32 - 1 }
        ensures written { IsTrue tells
            → OnOk result (reads self.new ≡ put_page (reads self.old) page content.now) }
        ensures seen { IsTrue tells → IsPutOrNot (reads self.old) (reads self.new) page content.now }
        ensures marked { synced self.new ≡ false }
        ensures counted { Counted (faults self.old) (faults self.new) result };

    /// Makes durable all that was written.
    fn sync(&mut self) -> Result<(), Failed>
        ensures seen { IsTrue tells → reads self.new ≡ reads self.old }
        ensures done { OnOk result (synced self.new ≡ true) }
        ensures undone { OnErr result (synced self.new ≡ synced self.old) }
        ensures counted { Counted (faults self.old) (faults self.new) result };

    /// Whether all that was written is durable.
    fn is_synced(&self) -> bool
        ensures { result ≡ synced self.now };

    /// A number of pages, such that every page at or past it is zero.
    fn length(&mut self) -> Result<u32, Failed>
        ensures rest { IsTrue tells → IfOk result (λ pages. (p : ℕ) → pages ≤ p
            → reads self.old p ≡ zero_page) }
        ensures seen { IsTrue tells → reads self.new ≡ reads self.old }
        ensures kept { synced self.new ≡ synced self.old }
        ensures counted { Counted (faults self.old) (faults self.new) result };
}
