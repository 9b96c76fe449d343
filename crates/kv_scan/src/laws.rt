ghost use denote.Param.Send.{IsSend};
ghost use Rattle.kv_scan.specs.Laws.{OwesView, FoldsShare, OutlivesQuietly, RenewsView, PendingIs};
ghost use Rattle.kv_scan.specs.Laws.{HeldIsOver, OwesSameMap, NextKeyFollows};
ghost use Rattle.kv_scan.specs.contracts.scans.Scans.{the_row as scans};

use crate::Scans;
use kv_fold::Fold;

/// A scan that was prepared with an empty fold owes, at each stamp, what the map has in its range.
pub fn owes_view()
    ensures { OwesView }
{}

/// Where nothing is left to walk, the fold of a started scan is that of its share.
pub fn folds_share()
    ensures { FoldsShare }
{}

/// A change of a key that the scan doesn't reach, or that had no version, leaves what it owes.
pub fn outlives_quietly()
    ensures { OutlivesQuietly }
{}

/// Once no held version lasts beyond the stamp, a prepared scan owes there what the map has.
pub fn renews_view()
    ensures { RenewsView }
{}

/// What is pending at a stamp is what a held version or the map gives the keys that are reached.
pub fn pending_is()
    ensures { PendingIs }
{}

/// No held version is the key's from the end of its last one on.
pub fn held_is_over()
    ensures { HeldIsOver }
{}

/// What a scan owes depends on what the map gives each key, and on nothing else of the map.
pub fn owes_same_map()
    ensures { OwesSameMap }
{}

/// No key lies between a key and the next one.
pub fn next_key_follows()
    ensures { NextKeyFollows }
{}

fn is_send<T: Send>()
    ensures { IsSend T.row }
{}

/// The scans of a worker may move to another thread, where their folds may.
pub fn scans_cross_threads<F: Fold + Send>()
    ensures { IsSend (scans F.row ⟦<F as Fold>⟧) }
{
    is_send::<Scans<F>>();
}
