ghost use Rattle.std.specs.Prelude.{◌≡◌, ◌<◌, ◌≤◌, IsTrue, OnOk, OnErr, IfOk, IsSome, None};
ghost use Rattle.std.specs.Prelude.{length};
ghost use Rattle.std.specs.Ordering.{is_le};
ghost use Rattle.kv_model.specs.Items.{is_in_range};
ghost use Rattle.kv_fold.specs.Bags.{order, IsItem};
ghost use Rattle.kv_fold.specs.States.{Adds};
ghost use Rattle.kv_scan.specs.Scans.{reaches, wants, next_key, hold, refold, pass};
ghost use Rattle.kv_scan.specs.Scans.{prepared_scan, started_scan, ended_scan, scan_at_end};
ghost use Rattle.kv_scan.specs.Owes.{IsSameScan, KeepsOwing, Outlives, Starts, Walks};
ghost use Rattle.kv_scan.specs.Owes.{HoldsMore, is_later};

use crate::Refusal;
use crate::drain::drain;
use crate::held::Held;
use kv_base::{Bytes, NoMemory};
use kv_fold::Fold;
use std::alloc::Global;
use std::marker::Model;

/// A running scan of one session, or one that a batch has ended.
#[derive(Drop)]
pub(crate) struct Entry<F: Fold> {
    alloc: Global,
    fold: F,
    low: Bytes,
    high: Bytes,
    stamp: Option<u64>,
    held: Vec<Held>,
    cursor: Option<Bytes>,
    at_end: bool,
    refusal: Option<Refusal>,
}

impl<F: Fold> Model for Entry<F> {
    ghost use Rattle.std.specs.Prelude.{reverse};
    ghost use Rattle.kv_scan.specs.Scans.{Scan, cursor_of};
    ghost use Rattle.kv_scan.specs.Owes.{IsEntry};

    ghost Value = { Scan };

    ghost view = { λ e. record {
      state = F.state e.fold;
      low = e.low;
      high = e.high;
      stamp = e.stamp;
      held = reverse e.held.items;
      cursor = cursor_of e.cursor e.low;
      at_end = e.at_end;
      refusal = e.refusal;
    } };

    ghost invariant = { λ e. IsEntry e.held.items e.low (cursor_of e.cursor e.low) };
}

impl<F: Fold> Entry<F> {
    // A scan that is prepared now. Takes no memory.
    pub(crate) fn new(alloc: Global, fold: F, low: Bytes, high: Bytes) -> Entry<F>
        ensures { result ≡ prepared_scan (F.state fold) low high }
    {
        Entry {
            alloc,
            fold,
            low,
            high,
            stamp: None,
            held: Vec::new(alloc),
            cursor: None,
            at_end: false,
            refusal: None,
        }
    }

    // Whether the key lies in the range.
    pub(crate) fn is_in_range(&self, key: &[u8]) -> bool
        ensures { result ≡ is_in_range self.now.low self.now.high key.now }
    {
        self.low.as_slice().cmp(key).is_le()
            && (self.high.is_empty() || key.cmp(self.high.as_slice()).is_lt())
    }

    // The least key that may come next.
    pub(crate) fn cursor(&self) -> &[u8]
        ensures value { result.now ≡ self.now.cursor }
        ensures from { IsTrue (is_le (order self.now.low self.now.cursor)) }
    {
        match &self.cursor {
            None => self.low.as_slice(),
            Some(cursor) => cursor.as_slice(),
        }
    }

    // Whether the key lies in the range and the walk hasn't passed it.
    fn reaches(&self, key: &[u8]) -> bool
        ensures { result ≡ reaches self.now key.now }
    {
        self.is_in_range(key) && self.cursor().cmp(key).is_le()
    }

    // Whether it is to hear of a change of the key.
    pub(crate) fn wants(&self, key: &[u8]) -> bool
        ensures { result ≡ wants self.now key.now }
    {
        self.refusal.is_none() && self.reaches(key)
    }

    // The stamp, once it is started.
    pub(crate) fn stamp(&self) -> Option<u64>
        ensures { result ≡ self.now.stamp }
    {
        self.stamp
    }

    // The number of versions that it holds.
    pub(crate) fn held(&self) -> usize
        ensures { result ≡ length self.now.held }
    {
        self.held.len()
    }

    // Whether no key of the range is left.
    pub(crate) fn is_at_end(&self) -> bool
        ensures { result ≡ self.now.at_end }
    {
        self.at_end
    }

    // Why a batch ended it.
    pub(crate) fn refusal(&self) -> Option<Refusal>
        ensures { result ≡ self.now.refusal }
    {
        self.refusal
    }

    // Holds a version. The one error is want of memory.
    fn hold(&mut self, key: &[u8], since: u64, until: u64, value: &[u8]) -> Result<(), NoMemory>
        requires { IsItem key.now value.now }
        ensures ok { OnOk result (self.new ≡ hold (record {
          key = key.now;
          since = since;
          until = until;
          value = value.now;
        }) self.old) }
        ensures err { OnErr result (self.new ≡ self.old) }
    {
        let key = Bytes::copy(self.alloc, key)?;
        let value = Bytes::copy(self.alloc, value)?;
        self.held.push(Held {
            key,
            since,
            until,
            value,
        })?;
        Ok(())
    }

    // Folds an item.
    fn fold_in(&mut self, key: &[u8], value: &[u8]) -> Result<(), NoMemory>
        requires { IsItem key.now value.now }
        ensures rest { self.new ≡ refold self.new.state self.old }
        ensures kind { self.new.state.kind ≡ self.old.state.kind }
        ensures ok { OnOk result (Adds key.now value.now self.old.state self.new.state) }
    {
        self.fold.add(key, value)?;
        Ok(())
    }

    // Sets the cursor.
    fn set_cursor(&mut self, cursor: Bytes)
        requires { IsTrue (is_le (order self.old.low cursor)) }
        ensures { self.new ≡ pass cursor self.old }
    {
        self.cursor = Some(cursor);
    }

    // Hears that a version of a key is about to be overwritten: a scan that isn't started holds it,
    // and a started one folds it, where it was the key's at the scan's stamp.
    pub(crate) fn overwritten(
        &mut self,
        key: &[u8],
        since: u64,
        until: u64,
        value: &[u8],
    ) -> Result<(), NoMemory>
        requires item { IsItem key.now value.now }
        requires later { since < until }
        ensures same { IsSameScan self.old self.new }
        ensures ok { OnOk result (Outlives key.now since until value.now self.old self.new) }
        ensures held { OnOk result (HoldsMore until self.old.held self.new.held) }
    {
        if !self.wants(key) {
            return Ok(());
        }
        match self.stamp {
            None => {
                self.hold(key, since, until, value)?;
                Ok(())
            }
            Some(stamp) => {
                if stamp < since {
                    return Ok(());
                }
                self.fold_in(key, value)?;
                Ok(())
            }
        }
    }

    // Starts the scan: folds the held versions that were current at the stamp, drops the others.
    pub(crate) fn start(&mut self, stamp: u64) -> Result<(), NoMemory>
        requires { self.old.stamp ≡ None }
        ensures kind { self.new.state.kind ≡ self.old.state.kind }
        ensures ok { OnOk result (self.new ≡ started_scan stamp self.new.state self.old) }
        ensures owes { OnOk result (Starts stamp self.old self.new) }
    {
        drain(&mut self.fold, &mut self.held, stamp)?;
        self.stamp = Some(stamp);
        Ok(())
    }

    // Walks the next key of the range.
    pub(crate) fn walked(&mut self, key: &[u8], stamp: u64, value: &[u8]) -> Result<(), NoMemory>
        requires started { IsSome self.old.stamp }
        requires inside { IsTrue (is_in_range self.old.low self.old.high key.now) }
        requires item { IsItem key.now value.now }
        ensures kind { self.new.state.kind ≡ self.old.state.kind }
        ensures ok { OnOk result (self.new
            ≡ pass (next_key key.now) (refold self.new.state self.old)) }
        ensures owes { OnOk result (Walks key.now (stamp, value.now) self.old self.new) }
    {
        let next = key_after(self.alloc, key)?;
        if self.is_later(stamp) {
            self.set_cursor(next);
            return Ok(());
        }
        self.fold_in(key, value)?;
        self.set_cursor(next);
        Ok(())
    }

    // Whether the stamp is above the scan's.
    fn is_later(&self, stamp: u64) -> bool
        ensures { result ≡ is_later self.now.stamp stamp }
    {
        match self.stamp {
            None => false,
            Some(at) => at < stamp,
        }
    }

    // Hears that no key of the range is left.
    pub(crate) fn reach_end(&mut self)
        ensures value { self.new ≡ scan_at_end self.old }
        ensures owes { KeepsOwing self.old self.new }
    {
        self.at_end = true;
    }

    // Hears that a batch ends it, unless an earlier one has: what it held is dropped.
    pub(crate) fn end(&mut self, why: Refusal)
        ensures { self.new ≡ ended_scan why self.old }
    {
        if self.refusal.is_some() {
            return;
        }
        self.held = Vec::new(self.alloc);
        self.refusal = Some(why);
    }

    // The fold.
    pub(crate) fn into_fold(self) -> F
        ensures { F.state result ≡ self.state }
    {
        self.fold
    }
}

// The least key above this one.
fn key_after(alloc: Global, key: &[u8]) -> Result<Bytes, NoMemory>
    requires { length key.now ≤ 255 }
    ensures { IfOk result (λ next. next ≡ next_key key.now) }
{
    let mut next = Vec::with_capacity(alloc, key.len() + 1)?;
    next.extend_from_slice(key)?;
    next.push(0)?;
    Ok(Bytes::from_vec(next))
}
