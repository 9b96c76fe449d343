ghost use Rattle.std.specs.Prelude.{◌≡◌, [], OnOk, reverse};
ghost use Rattle.kv_fold.specs.Bags.{IsItem};
ghost use Rattle.kv_scan.specs.Owes.{AreItems};
ghost use Rattle.kv_scan.specs.Drains.{Drains, TakesOne};

use crate::held::{Held, covers_stamp};
use kv_base::NoMemory;
use kv_fold::Fold;

// Folds the held versions that were current at the stamp, and drops the others.
pub(crate) fn drain<F: Fold>(fold: &mut F, held: &mut Vec<Held>, stamp: u64) -> Result<(), NoMemory>
    requires { AreItems held.old.items }
    ensures kind { (F.state fold.new).kind ≡ (F.state fold.old).kind }
    ensures items { AreItems held.new.items }
    ensures none { OnOk result (held.new.items ≡ []) }
    ensures ok { OnOk result (Drains stamp (F.state fold.old) (reverse held.old.items)
        (F.state fold.new) []) }
{
    while let Some(version) = held.pop() {
        take_one(fold, version, stamp)?;
    }
    Ok(())
}

// Folds a held version where it was current at the stamp.
fn take_one<F: Fold>(fold: &mut F, version: Held, stamp: u64) -> Result<(), NoMemory>
    requires { IsItem version.key version.value }
    ensures kind { (F.state fold.new).kind ≡ (F.state fold.old).kind }
    ensures ok { OnOk result (TakesOne stamp version (F.state fold.old) (F.state fold.new)) }
{
    if !covers_stamp(&version, stamp) {
        return Ok(());
    }
    fold.add(version.key.as_slice(), version.value.as_slice())?;
    Ok(())
}
