ghost use Rattle.std.specs.Prelude.{◌≡◌, ◌<◌, ℕ, OnOk, length, is_some};
ghost use Rattle.std.specs.Option.{option_map};
ghost use Rattle.kv_fold.specs.Bags.{IsItem};
ghost use Rattle.kv_scan.specs.Scans.{ended_scan};
ghost use Rattle.kv_scan.specs.Sessions.{scan_of, wants_key, is_at_end, refusal_of, IsSameOrNone};
ghost use Rattle.kv_scan.specs.Sessions.{Hears};

use crate::Refusal;
use crate::entry::Entry;
use kv_base::NoMemory;
use kv_fold::Fold;

// Whether a session's scan is to hear of a change of the key.
pub(crate) fn wants<F: Fold>(entry: &Option<Entry<F>>, key: &[u8]) -> bool
    ensures { result ≡ wants_key key.now entry.now }
{
    match entry {
        None => false,
        Some(entry) => entry.wants(key),
    }
}

// Tells a session's scan that a version of a key is about to be overwritten.
fn tell<F: Fold>(
    entry: &mut Option<Entry<F>>,
    key: &[u8],
    since: u64,
    until: u64,
    value: &[u8],
) -> Result<(), NoMemory>
    requires item { IsItem key.now value.now }
    requires later { since < until }
    ensures same { IsSameOrNone entry.old entry.new }
    ensures ok { OnOk result (Hears key.now since until value.now entry.old entry.new) }
{
    match entry {
        None => Ok(()),
        Some(entry) => {
            entry.overwritten(key, since, until, value)?;
            Ok(())
        }
    }
}

// Tells each scan that a version of a key is about to be overwritten.
pub(crate) fn tell_all<F: Fold>(
    entries: &mut Vec<Option<Entry<F>>>,
    key: &[u8],
    since: u64,
    until: u64,
    value: &[u8],
) -> Result<(), NoMemory>
    requires item { IsItem key.now value.now }
    requires later { since < until }
    ensures sessions { length entries.new.items ≡ length entries.old.items }
    ensures same { (session : ℕ) → IsSameOrNone (scan_of entries.old.items session)
        (scan_of entries.new.items session) }
    ensures ok { OnOk result ((session : ℕ) → Hears key.now since until value.now
        (scan_of entries.old.items session) (scan_of entries.new.items session)) }
{
    for i in 0..entries.len() {
        tell(&mut entries[i], key, since, until, value)?;
    }
    Ok(())
}

// Ends a session's scan, where there is one.
fn end<F: Fold>(entry: &mut Option<Entry<F>>, why: Refusal)
    ensures { entry.new ≡ option_map (ended_scan why) entry.old }
{
    match entry {
        None => {}
        Some(entry) => entry.end(why),
    }
}

// Ends each scan.
pub(crate) fn end_each<F: Fold>(entries: &mut Vec<Option<Entry<F>>>, why: Refusal)
    ensures sessions { length entries.new.items ≡ length entries.old.items }
    ensures ended { (session : ℕ) → scan_of entries.new.items session
        ≡ option_map (ended_scan why) (scan_of entries.old.items session) }
{
    for i in 0..entries.len() {
        end(&mut entries[i], why);
    }
}

// Whether no key of a session's scan is left.
pub(crate) fn is_at_end<F: Fold>(entry: &Option<Entry<F>>) -> bool
    ensures { result ≡ is_at_end entry.now }
{
    match entry {
        None => false,
        Some(entry) => entry.is_at_end(),
    }
}

// Why a batch ended a session's scan.
pub(crate) fn refusal_of<F: Fold>(entry: &Option<Entry<F>>) -> Option<Refusal>
    ensures { result ≡ refusal_of entry.now }
{
    match entry {
        None => None,
        Some(entry) => entry.refusal(),
    }
}
