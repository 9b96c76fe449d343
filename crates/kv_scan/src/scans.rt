ghost use Rattle.std.specs.Prelude.{◌≡◌, ◌<◌, ◌↔◌, ℕ, None, Some, false, IsTrue, IsSome, is_some};
ghost use Rattle.std.specs.Prelude.{OnOk, OnErr, IfOk, IfSome, length, replicate, slice_set};
ghost use Rattle.std.specs.Prelude.{if◌then◌else◌};
ghost use Rattle.std.specs.List.{list_any};
ghost use Rattle.std.specs.Option.{option_map};
ghost use Rattle.std.specs.Ordering.{is_le};
ghost use Rattle.kv_fold.specs.Bags.{order, IsItem};
ghost use Rattle.kv_scan.specs.Scans.{prepared_scan, ended_scan};
ghost use Rattle.kv_scan.specs.Sessions.{scan_of, wants_key, refusal_of, held_by, IsInRange};
ghost use Rattle.kv_scan.specs.Sessions.{IsPrepared, IsStarted, IsSameOrNone, Hears, Moves};
ghost use Rattle.kv_scan.specs.Sessions.{StartsScan, WalksScan, ReachesEnd, IsFinished};

use crate::Refusal;
use crate::entry::Entry;
use crate::telling::{end_each, is_at_end, refusal_of, tell_all, wants};
use kv_base::{Bytes, NoMemory};
use kv_fold::Fold;
use std::alloc::Global;
use std::marker::Model;

/// The scans of a worker's sessions, at most one for each. A scan is prepared, then started at a
/// stamp, and then walks the keys of its range. What a batch is about to overwrite is handed over
/// before, so that the scan's fold becomes that of the items at its stamp. Contracts see a list by
/// session.
///
/// A session's number is below the number of sessions that `new` took.
#[derive(Drop)]
pub struct Scans<F: Fold> {
    alloc: Global,
    entries: Vec<Option<Entry<F>>>,
}

impl<F: Fold> Model for Scans<F> {
    ghost use Rattle.kv_scan.specs.Sessions.{Sessions};

    ghost Value = { Sessions };

    ghost view = { λ s. s.entries.items };
}

impl<F: Fold> Scans<F> {
    /// No session has a scan. The one error is want of memory.
    pub fn new(alloc: Global, sessions: u32) -> Result<Scans<F>, NoMemory>
        ensures ok { IfOk result (λ scans. scans ≡ replicate sessions None) }
    {
        let mut entries = Vec::with_capacity(alloc, sessions as usize)?;
        for _ in 0..sessions {
            entries.push(None)?;
        }
        Ok(Scans { alloc, entries })
    }

    /// Whether the session has a scan, be it running or ended.
    pub fn has_scan(&self, session: u32) -> bool
        requires { session < length self.now }
        ensures { result ≡ is_some (scan_of self.now session) }
    {
        self.entries[session as usize].is_some()
    }

    /// Whether the session has a scan that isn't started.
    pub fn is_prepared(&self, session: u32) -> bool
        requires { session < length self.now }
        ensures { IsTrue result ↔ IsPrepared (scan_of self.now session) }
    {
        match &self.entries[session as usize] {
            None => false,
            Some(entry) => entry.stamp().is_none(),
        }
    }

    /// Whether the session has a scan that is started.
    pub fn is_started(&self, session: u32) -> bool
        requires { session < length self.now }
        ensures { IsTrue result ↔ IsStarted (scan_of self.now session) }
    {
        match &self.entries[session as usize] {
            None => false,
            Some(entry) => entry.stamp().is_some(),
        }
    }

    /// Prepares a scan of the keys from `low` on and below `high`; an empty `high` is no end. What
    /// it answers is the fold of its items where `fold` has none yet. Takes no memory.
    pub fn prepare(&mut self, session: u32, fold: F, low: Bytes, high: Bytes)
        requires session { session < length self.old }
        requires none { scan_of self.old session ≡ None }
        ensures { self.new
            ≡ slice_set self.old session (Some (prepared_scan (F.state fold) low high)) }
    {
        self.entries[session as usize] = Some(Entry::new(self.alloc, fold, low, high));
    }

    /// Starts a prepared scan at a stamp: the held versions that were current then are folded, and
    /// the others are dropped, so that none is held any more. The one error is want of memory, and
    /// then the entry is gone.
    pub fn start(&mut self, session: u32, stamp: u64) -> Result<(), NoMemory>
        requires session { session < length self.old }
        requires prepared { IsPrepared (scan_of self.old session) }
        ensures sessions { length self.new ≡ length self.old }
        ensures ok { OnOk result (Moves (StartsScan stamp) session self.old self.new) }
        ensures err { OnErr result (self.new ≡ slice_set self.old session None) }
    {
        match self.entries[session as usize].take() {
            None => Ok(()),
            Some(mut entry) => {
                entry.start(stamp)?;
                self.entries[session as usize] = Some(entry);
                Ok(())
            }
        }
    }

    /// Drops the entry, where there is one.
    pub fn drop_scan(&mut self, session: u32)
        requires { session < length self.old }
        ensures { self.new ≡ slice_set self.old session None }
    {
        self.entries[session as usize] = None;
    }

    /// Whether some running scan has the key in its range and hasn't walked it. Takes no memory.
    pub fn wants(&self, key: &[u8]) -> bool
        ensures value { result ≡ list_any (wants_key key.now) self.now }
        ensures unwanted { result ≡ false
            → (session : ℕ) → wants_key key.now (scan_of self.now session) ≡ false }
    {
        self.entries.iter().any(|entry| wants(entry, key))
    }

    /// Tells every scan that the version of a key with the stamp `since` is about to be overwritten
    /// by a change with the stamp `until`, or deleted. The one error is want of memory, and then
    /// the change isn't to be made, and every scan is to be ended.
    pub fn overwritten(
        &mut self,
        key: &[u8],
        since: u64,
        until: u64,
        value: &[u8],
    ) -> Result<(), NoMemory>
        requires item { IsItem key.now value.now }
        requires later { since < until }
        ensures sessions { length self.new ≡ length self.old }
        ensures same { (session : ℕ) → IsSameOrNone (scan_of self.old session)
            (scan_of self.new session) }
        ensures ok { OnOk result ((session : ℕ) → Hears key.now since until value.now
            (scan_of self.old session) (scan_of self.new session)) }
    {
        tell_all(&mut self.entries, key, since, until, value)
    }

    /// Ends every running scan, as its batch was refused or a write of it failed: the scan holds
    /// nothing any more and hears of no change, and its session is owed the refusal. One that an
    /// earlier batch ended keeps its refusal. Takes no memory.
    pub fn end_all(&mut self, why: Refusal)
        ensures sessions { length self.new ≡ length self.old }
        ensures ended { (session : ℕ) → scan_of self.new session
            ≡ option_map (ended_scan why) (scan_of self.old session) }
    {
        end_each(&mut self.entries, why);
    }

    /// Why a batch ended the session's scan; then the entry is gone. `None` exactly where it has
    /// none that was ended, and then nothing changes.
    pub fn refused(&mut self, session: u32) -> Option<Refusal>
        requires { session < length self.old }
        ensures result { result ≡ refusal_of (scan_of self.old session) }
        ensures new { self.new ≡ (if is_some result then slice_set self.old session None
            else self.old) }
    {
        let Some(why) = refusal_of(&self.entries[session as usize]) else {
            return None;
        };
        self.entries[session as usize] = None;
        Some(why)
    }

    /// Walks the next key of a started scan with its stamp and value: the key is folded where its
    /// stamp isn't above the scan's, and the cursor passes it. The one error is want of memory, and
    /// then the entry is gone.
    pub fn walked(
        &mut self,
        session: u32,
        key: &[u8],
        stamp: u64,
        value: &[u8],
    ) -> Result<(), NoMemory>
        requires session { session < length self.old }
        requires started { IsStarted (scan_of self.old session) }
        requires inside { IsInRange (scan_of self.old session) key.now }
        requires item { IsItem key.now value.now }
        ensures sessions { length self.new ≡ length self.old }
        ensures ok { OnOk result (Moves (WalksScan key.now (stamp, value.now)) session self.old
            self.new) }
        ensures err { OnErr result (self.new ≡ slice_set self.old session None) }
    {
        match self.entries[session as usize].take() {
            None => Ok(()),
            Some(mut entry) => {
                entry.walked(key, stamp, value)?;
                self.entries[session as usize] = Some(entry);
                Ok(())
            }
        }
    }

    /// Hears that no key of a started scan's range is left.
    pub fn at_end(&mut self, session: u32)
        requires session { session < length self.old }
        requires started { IsStarted (scan_of self.old session) }
        ensures sessions { length self.new ≡ length self.old }
        ensures moves { Moves ReachesEnd session self.old self.new }
    {
        let Some(entry) = &mut self.entries[session as usize] else {
            return;
        };
        entry.reach_end();
    }

    /// The fold of a scan of which no key is left; then the entry is gone. `None` exactly where
    /// `at_end` wasn't told, and then nothing changes.
    pub fn finished(&mut self, session: u32) -> Option<F>
        requires { session < length self.old }
        ensures result { IsFinished F.state result (scan_of self.old session) }
        ensures new { self.new ≡ (if is_some result then slice_set self.old session None
            else self.old) }
    {
        if !is_at_end(&self.entries[session as usize]) {
            return None;
        }
        match self.entries[session as usize].take() {
            None => None,
            Some(entry) => Some(entry.into_fold()),
        }
    }

    /// The least key that may come next in the walk of the session's scan, which is at or after
    /// the range's `low`.
    pub fn cursor(&self, session: u32) -> &[u8]
        requires session { session < length self.now }
        requires some { IsSome (scan_of self.now session) }
        ensures value { IfSome (scan_of self.now session) (λ scan. result.now ≡ scan.cursor) }
        ensures from { IfSome (scan_of self.now session) (λ scan.
            IsTrue (is_le (order scan.low scan.cursor))) }
    {
        match &self.entries[session as usize] {
            None => b"",
            Some(entry) => entry.cursor(),
        }
    }

    /// Whether the key lies in the range of the session's scan; not, where it has none.
    pub fn in_range(&self, session: u32, key: &[u8]) -> bool
        requires { session < length self.now }
        ensures { IsTrue result ↔ IsInRange (scan_of self.now session) key.now }
    {
        match &self.entries[session as usize] {
            None => false,
            Some(entry) => entry.is_in_range(key),
        }
    }

    /// The number of versions that the session's scan holds; 0 where it has none.
    pub fn held(&self, session: u32) -> usize
        requires { session < length self.now }
        ensures { result ≡ held_by (scan_of self.now session) }
    {
        match &self.entries[session as usize] {
            None => 0,
            Some(entry) => entry.held(),
        }
    }
}
