ghost use Rattle.std.specs.Prelude.{◌≡◌, ◌⊎◌, ℕ, ◌<◌, ◌≤◌, ◌≢◌, IsTrue, IfOk, IfErr, OnOk, OnErr};
ghost use Rattle.kv_base.specs.Fault.{Counted};
ghost use Rattle.kv_base.specs.Crash.{Only, MayLeave, LeavesOnly};
ghost use Rattle.kv_base.specs.Image.{with_page, zero_page};
ghost use Rattle.kv_disk.specs.Steps.{OnlyReads};
ghost use Rattle.kv_model.specs.Head.{head_page};
ghost use Rattle.kv_model.specs.Recovery.{IsNew};
ghost use Rattle.kv_recover.specs.Causes.{HasHeadCause, HasCheckCause, HasMakeCause, IsSpared};
ghost use Rattle.kv_recover.specs.Causes.{IsUntouched, IsUsed};
ghost use Rattle.kv_recover.specs.Faults.{AreFaultsCounted};
ghost use Rattle.kv_recover.specs.HeadCheck.{IsGoodHead, AreBlank, IsMade, IsMadeNew};
ghost use Rattle.kv_recover.specs.Opened.{IsPrepared};
ghost use Rattle.kv_recover.specs.Opened.{KeepsStore, LeftOrKept};

use crate::fault::OpenFault;
use crate::find::check_blanks;
use crate::read::{length_of, read_page};
use crate::share::Share;
use kv_base::Failed;
use kv_disk::Disk;
use kv_slot::{HeadRead, put_head, read_head};

/// Whether the disk is new, by its head page alone; else that page has to be the head of this
/// worker.
pub fn check_head<D: Disk>(disk: &mut D, share: Share) -> Result<bool, OpenFault>
    ensures reads { OnlyReads ⟦<D as Disk>⟧ disk.old disk.new }
    ensures ok { IsTrue D.tells → IfOk result (λ new. IsGoodHead new (D.seen disk.old 0 0)
        share.worker share.workers) }
    ensures cause { IfErr result (HasHeadCause (IsTrue D.tells) (D.seen disk.old 0 0) share.worker
        share.workers) }
    ensures counted { AreFaultsCounted (D.faults disk.old) (D.faults disk.new) result }
{
    let mut page = [0; 4096];
    read_page(disk, 0, 0, &mut page)?;
    match read_head(&page) {
        HeadRead::Zero => Ok(true),
        HeadRead::Head { worker, workers } => {
            if worker == share.worker && workers == share.workers {
                Ok(false)
            } else {
                Err(OpenFault::OtherStore {
                    kept_worker: worker,
                    kept_workers: workers,
                    asked_worker: share.worker,
                    asked_workers: share.workers,
                })
            }
        }
        HeadRead::Other => Err(OpenFault::NotAStore),
    }
}

/// Refuses a file that has a byte other than zero.
fn check_file<D: Disk>(disk: &mut D, file: u8) -> Result<(), OpenFault>
    requires { file ≤ 13 }
    ensures reads { OnlyReads ⟦<D as Disk>⟧ disk.old disk.new }
    ensures ok { IsTrue D.tells → OnOk result ((page : ℕ) → D.seen disk.old file page ≡ zero_page) }
    ensures cause { IfErr result (HasCheckCause (IsTrue D.tells → (page : ℕ)
        × (D.seen disk.old file page ≢ zero_page))) }
    ensures counted { AreFaultsCounted (D.faults disk.old) (D.faults disk.new) result }
{
    let pages = length_of(disk, file)?;
    check_blanks(disk, file, 0, pages)
}

/// Refuses a disk of which a slab has a byte other than zero.
pub fn check_slabs<D: Disk>(disk: &mut D) -> Result<(), OpenFault>
    ensures reads { OnlyReads ⟦<D as Disk>⟧ disk.old disk.new }
    ensures ok { IsTrue D.tells → OnOk result (AreBlank (D.seen disk.old)) }
    ensures cause { IfErr result (HasCheckCause (IsTrue D.tells → IsUsed (D.seen disk.old))) }
    ensures counted { AreFaultsCounted (D.faults disk.old) (D.faults disk.new) result }
{
    for class in 1..12 {
        check_file(disk, class)?;
    }
    Ok(())
}

/// Writes the head page of this worker and makes it durable.
fn write_head<D: Disk>(disk: &mut D, share: Share) -> Result<(), Failed>
    requires below { share.worker < share.workers }
    requires limit { share.workers ≤ 16 }
    ensures head { IsTrue D.tells → OnOk result (D.seen disk.new ≡ with_page (D.seen disk.old) 0 0
        (head_page share.worker share.workers)) }
    ensures durable { OnOk result (Only (D.seen disk.new) (D.leaves disk.new (D.calls disk.new))) }
    ensures any_moment { Only (D.seen disk.old) (D.leaves disk.old (D.calls disk.old))
        → LeavesOnly (D.calls disk.old) (D.calls disk.new) (D.leaves disk.old) (D.leaves disk.new)
        (IsMade (D.seen disk.old) share.worker share.workers) }
    ensures counted { Counted (D.faults disk.old) (D.faults disk.new) result }
{
    let mut page = [0; 4096];
    put_head(&mut page, share.worker, share.workers);
    disk.write(0, 0, &page)?;
    disk.sync()
}

/// Makes a store of this worker on a disk whose head page is zero and that has nothing pending: its
/// slabs have to be zero too, and then its head page is written and synced.
fn make_store<D: Disk>(disk: &mut D, share: Share) -> Result<(), OpenFault>
    requires below { share.worker < share.workers }
    requires limit { share.workers ≤ 16 }
    requires settled { Only (D.seen disk.old) (D.leaves disk.old (D.calls disk.old)) }
    ensures blank { IsTrue D.tells → OnOk result (AreBlank (D.seen disk.old)) }
    ensures head { IsTrue D.tells → OnOk result (D.seen disk.new ≡ with_page (D.seen disk.old) 0 0
        (head_page share.worker share.workers)) }
    ensures durable { OnOk result (Only (D.seen disk.new) (D.leaves disk.new (D.calls disk.new))) }
    ensures any_moment { LeavesOnly (D.calls disk.old) (D.calls disk.new) (D.leaves disk.old)
        (D.leaves disk.new) (IsMadeNew (D.seen disk.old) share.worker share.workers) }
    ensures cause { IfErr result (HasCheckCause (IsTrue D.tells → IsUsed (D.seen disk.old))) }
    ensures counted { AreFaultsCounted (D.faults disk.old) (D.faults disk.new) result }
    ensures spared { IfErr result (λ fault. IsSpared fault
        → OnlyReads ⟦<D as Disk>⟧ disk.old disk.new) }
    ensures written { OnErr result (OnlyReads ⟦<D as Disk>⟧ disk.old disk.new
        ⊎ (IsTrue D.tells → AreBlank (D.seen disk.old))) }
{
    check_slabs(disk)?;
    write_head(disk, share)?;
    Ok(())
}

/// Makes durable what is on the disk, which has to be new or this worker's; a new one is made a
/// store.
pub fn prepare<D: Disk>(disk: &mut D, share: Share) -> Result<(), OpenFault>
    requires below { share.worker < share.workers }
    requires limit { share.workers ≤ 16 }
    ensures prepared { IsTrue D.tells → OnOk result (IsPrepared ⟦<D as Disk>⟧ share.worker
        share.workers disk.old disk.new) }
    ensures durable { OnOk result (Only (D.seen disk.new) (D.leaves disk.new (D.calls disk.new))) }
    ensures any_moment { LeavesOnly (D.calls disk.old) (D.calls disk.new) (D.leaves disk.old)
        (D.leaves disk.new) (LeftOrKept ⟦<D as Disk>⟧ disk.old share.worker share.workers) }
    ensures cause { IfErr result (HasMakeCause (IsTrue D.tells) (D.seen disk.old) share.worker
        share.workers) }
    ensures counted { AreFaultsCounted (D.faults disk.old) (D.faults disk.new) result }
    ensures spared { IfErr result (λ fault. IsSpared fault
        → IsUntouched ⟦<D as Disk>⟧ disk.old disk.new) }
    ensures written { OnErr result (IsUntouched ⟦<D as Disk>⟧ disk.old disk.new
        ⊎ (IsTrue D.tells → IsNew (D.seen disk.old))) }
{
    disk.sync()?;
    if check_head(disk, share)? {
        make_store(disk, share)?;
    }
    Ok(())
}
