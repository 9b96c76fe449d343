ghost use Rattle.std.specs.Prelude.{◌≡◌, ◌<◌, ◌≤◌, ℕ, List, [], length, IsTrue, OnOk, IfErr};
ghost use Rattle.kv_serve.specs.Taken.{AreHome, CountsTakes, GivesDisks, TookDisks};

use kv_base::ReservedList;
use kv_site::{Site, TakeFault};

/// The disks of a store, worker by worker.
pub type Disks<D> = ReservedList<D>;

/// Takes the disks of so many workers in the folder. Where the site refuses one it answers whose, and
/// those before it are in the list.
pub fn take_disks<S: Site>(
    site: &mut S,
    folder: &str,
    workers: u32,
    disks: &mut Disks<S::Pages>,
) -> Result<(), (u32, TakeFault)>
    requires empty { disks.old.items ≡ [] }
    requires room { workers ≤ disks.old.spare }
    ensures took { IsTrue S.tells → TookDisks (S.holds site.old) (S.holds site.new) folder.now
        disks.new.items }
    ensures ok { OnOk result (length disks.new.items ≡ workers) }
    ensures within { length disks.new.items ≤ workers }
    ensures err { IfErr result (λ refused. refused.0 < workers) }
    ensures counted { CountsTakes (S.faults site.old) (S.faults site.new) result }
{
    for worker in 0..workers {
        match site.take_disk(folder, worker) {
            Ok(disk) => disks.append(disk).unwrap(),
            Err(fault) => return Err((worker, fault)),
        }
    }
    Ok(())
}

/// Gives the disks back, the last one first.
pub fn give_disks<S: Site>(site: &mut S, mut disks: Disks<S::Pages>)
    requires { length disks.items ≤ 16 }
    ensures given { IsTrue S.tells → (folder : List ℕ)
        → AreHome (S.holds site.old) folder (length disks.items)
        → GivesDisks (S.holds site.old) (S.holds site.new) folder disks.items }
    ensures still { S.faults site.new ≡ S.faults site.old }
{
    while let Some(disk) = disks.take_last() {
        site.give_disk(disks.as_slice().len() as u32, disk);
    }
}
