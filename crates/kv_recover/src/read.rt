ghost use Rattle.std.specs.Prelude.{◌≡◌, ℕ, ◌-◌, ◌^◌, ◌<◌, ◌≤◌, ◌↔◌, ◌≢◌, IsTrue, OnOk, IfOk, IfErr};
ghost use Rattle.std.specs.Prelude.{length};
ghost use Rattle.kv_base.specs.Fault.{Counted};
ghost use Rattle.kv_base.specs.Image.{zero_page};
ghost use Rattle.kv_disk.specs.Steps.{OnlyReads};
ghost use Rattle.kv_recover.specs.Causes.{HasCheckCause};
ghost use Rattle.kv_recover.specs.Faults.{AreFaultsCounted};

use crate::fault::OpenFault;
use kv_base::Failed;
use kv_disk::Disk;
use kv_lanes::is_zero;

/// Reads a page.
pub fn read_page<D: Disk>(
    disk: &mut D,
    file: u8,
    page: u32,
    content: &mut [u8; 4096],
) -> Result<(), Failed>
    requires file { file ≤ 13 }
    requires page { page < 2 ^ 32 - 1 }
    ensures content { IsTrue D.tells → OnOk result (content.new ≡ D.seen disk.old file page) }
    ensures size { length content.new ≡ 4096 }
    ensures reads { OnlyReads ⟦<D as Disk>⟧ disk.old disk.new }
    ensures counted { Counted (D.faults disk.old) (D.faults disk.new) result }
{
    disk.read(file, page, content)
}

/// A number of pages such that every page at or past it is zero.
pub fn length_of<D: Disk>(disk: &mut D, file: u8) -> Result<u32, Failed>
    requires { file ≤ 13 }
    ensures rest { IsTrue D.tells → IfOk result (λ pages. (p : ℕ) → pages ≤ p
        → D.seen disk.old file p ≡ zero_page) }
    ensures reads { OnlyReads ⟦<D as Disk>⟧ disk.old disk.new }
    ensures counted { Counted (D.faults disk.old) (D.faults disk.new) result }
{
    disk.length(file)
}

/// Refuses a page that isn't zeros.
pub fn check_blank<D: Disk>(disk: &mut D, file: u8, page: u32) -> Result<(), OpenFault>
    requires file { file ≤ 13 }
    requires page { page < 2 ^ 32 - 1 }
    ensures reads { OnlyReads ⟦<D as Disk>⟧ disk.old disk.new }
    ensures ok { IsTrue D.tells → OnOk result (D.seen disk.old file page ≡ zero_page) }
    ensures cause { IfErr result (HasCheckCause (IsTrue D.tells
        → D.seen disk.old file page ≢ zero_page)) }
    ensures counted { AreFaultsCounted (D.faults disk.old) (D.faults disk.new) result }
{
    let mut content = [0; 4096];
    read_page(disk, file, page, &mut content)?;
    if is_blank(&content) {
        Ok(())
    } else {
        Err(OpenFault::NotAStore)
    }
}

/// Whether all bytes are zero.
pub fn is_blank(page: &[u8; 4096]) -> bool
    ensures { IsTrue result ↔ (page.now ≡ zero_page) }
{
    is_zero(page)
}
