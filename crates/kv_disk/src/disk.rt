ghost use Rattle.std.specs.Prelude.{◌≡◌, ℕ, ◌-◌, ◌^◌, ◌≤◌, ◌<◌, Bool, List, IsTrue, IfOk, OnOk};
ghost use Rattle.std.specs.Prelude.{OnErr};
ghost use Rattle.kv_base.specs.Fault.{HasCause, Counted};
ghost use Rattle.kv_base.specs.Image.{Image, zero_page, with_page};
ghost use Rattle.kv_base.specs.Crash.{Choices, MayLeave, Only, NoMore, Same, Adds, WrittenOrNot};
ghost use Rattle.kv_base.specs.Crash.{Advances};

use kv_base::Failed;

/// A disk of 14 files, 0 to 13, of pages of 4,096 bytes. It writes one page whole or not at all.
/// A page that was never written reads as zeros.
///
/// A moment is the number of calls so far. A crash leaves of each page, by itself, what the disk
/// may leave of it at that moment: its content at the last sync, or one of the writes to it since.
pub trait Disk {
    /// Whether disks of this type tell what they read.
    ghost tells: { Bool };

    /// What it reads as.
    ghost seen: { Self → Image };

    /// What a crash at a moment may leave of each page. A disk that doesn't tell what it reads
    /// leaves none.
    ghost leaves: { Self → ℕ → Choices };

    /// The number of calls so far.
    ghost calls: { Self → ℕ };

    /// How often it has failed. The count never falls.
    ghost faults: { Self → ℕ };

    /// Reads a page. After `Failed`, which the count of faults shows, the buffer holds anything.
    fn read(&mut self, file: u8, page: u32, buf: &mut [u8; 4096]) -> Result<(), Failed>
        requires file { file ≤ 13 }
        requires page { page < 2 ^ 32 - 1 }
        ensures content { IsTrue tells → OnOk result (buf.new ≡ seen self.old file page) }
        ensures seen { IsTrue tells → seen self.new ≡ seen self.old }
        ensures crash { Same (leaves self.old (calls self.old)) (leaves self.new (calls self.new)) }
        ensures past { Advances (calls self.old) (calls self.new) (leaves self.old)
            (leaves self.new) }
        ensures cause { HasCause (faults self.old) (faults self.new) result }
        ensures counted { Counted (faults self.old) (faults self.new) result };

    /// Writes a page, which then reads as the content. After `Failed`, which the count of faults
    /// shows, it reads as before or as the content, and a crash may leave the content there too.
    fn write(&mut self, file: u8, page: u32, content: &[u8; 4096]) -> Result<(), Failed>
        requires file { file ≤ 13 }
        requires page { page < 2 ^ 32 - 1 }
        ensures written { IsTrue tells
            → OnOk result (seen self.new ≡ with_page (seen self.old) file page content.now) }
        ensures seen { IsTrue tells
            → WrittenOrNot file page content.now (seen self.old) (seen self.new) }
        ensures crash { Adds file page content.now result (leaves self.old (calls self.old))
            (leaves self.new (calls self.new)) }
        ensures past { Advances (calls self.old) (calls self.new) (leaves self.old)
            (leaves self.new) }
        ensures cause { HasCause (faults self.old) (faults self.new) result }
        ensures counted { Counted (faults self.old) (faults self.new) result };

    /// Makes all writes so far durable: a crash leaves just what is read. After `Failed`, which the
    /// count of faults shows, all stands as before.
    fn sync(&mut self) -> Result<(), Failed>
        ensures seen { IsTrue tells → seen self.new ≡ seen self.old }
        ensures durable { OnOk result (Only (seen self.new) (leaves self.new (calls self.new))) }
        ensures undone { OnErr result (Same (leaves self.old (calls self.old))
            (leaves self.new (calls self.new))) }
        ensures crash { NoMore (leaves self.old (calls self.old)) (leaves self.new (calls self.new)) }
        ensures past { Advances (calls self.old) (calls self.new) (leaves self.old)
            (leaves self.new) }
        ensures cause { HasCause (faults self.old) (faults self.new) result }
        ensures counted { Counted (faults self.old) (faults self.new) result };

    /// A number of pages of the file, such that every page at or past it is zero.
    fn length(&mut self, file: u8) -> Result<u32, Failed>
        requires { file ≤ 13 }
        ensures rest { IsTrue tells → IfOk result (λ pages. (p : ℕ) → pages ≤ p
            → seen self.old file p ≡ zero_page) }
        ensures seen { IsTrue tells → seen self.new ≡ seen self.old }
        ensures crash { Same (leaves self.old (calls self.old)) (leaves self.new (calls self.new)) }
        ensures past { Advances (calls self.old) (calls self.new) (leaves self.old)
            (leaves self.new) }
        ensures cause { HasCause (faults self.old) (faults self.new) result }
        ensures counted { Counted (faults self.old) (faults self.new) result };

    /// Where a content of a page may be left at some moment, the type tells what it reads, and a
    /// crash now may leave what is read.
    ghost told: { (disk : Self) (t f p : ℕ) (c : List ℕ) → leaves disk t f p c → IsTrue tells
        × MayLeave (leaves disk (calls disk)) (seen disk) };
}
