ghost use Rattle.std.specs.Prelude.{◌≡◌, ◌<◌, length};

use crate::history::History;
use kv_base::{Bytes, NoMemory};
use kv_fold::{ByteSum, Fold};
use kv_scan::Scans;
use rand_pcg::Pcg32;
use rand_pcg::rand_core::Rng;
use std::alloc::Global;

/// A worker in small: the changes that it made, and the scans of two sessions.
#[derive(Drop)]
pub struct Desk {
    alloc: Global,
    history: History,
    stamp: u64,
    scans: Scans<ByteSum>,
    ghost two: { length scans ≡ 2 },
}

impl Desk {
    /// No change and no scan yet.
    pub fn new(alloc: Global) -> Result<Desk, NoMemory> {
        Ok(Desk {
            alloc,
            history: History::new(alloc),
            stamp: 0,
            scans: Scans::new(alloc, 2)?,
        })
    }

    /// The last stamp.
    pub fn stamp(&self) -> u64 {
        self.stamp
    }

    /// The sum that a scan has to answer.
    pub fn sum_at(&self, at: u64, low: u8, high: u8) -> u64 {
        self.history.sum_at(at, low, high)
    }

    // Changes a key at the next stamp that 4 divides, and hands over before what a scan wants.
    fn change(&mut self, key: u8, value: Option<u8>) -> Result<(), NoMemory> {
        let before = self.stamp;
        self.stamp = before.saturating_add(4);
        if let Some((since, old)) = self.history.version_at(before, key) {
            if self.scans.wants(&[key]) && since < self.stamp {
                self.scans.overwritten(&[key], since, self.stamp, &[old])?;
            }
        }
        self.history.add(self.stamp, key, value)
    }

    /// So many changes that are drawn; one in four is a deletion.
    pub fn change_some(&mut self, draw: &mut Pcg32, count: u32) -> Result<(), NoMemory> {
        for _ in 0..count {
            let key = b'a' + (draw.next_u32() % 8) as u8;
            let value = (draw.next_u32() % 256) as u8;
            let deletes = draw.next_u32() % 4 == 0;
            self.change(key, if deletes { None } else { Some(value) })?;
        }
        Ok(())
    }

    /// Prepares a scan; false where the session has one.
    pub fn prepare(&mut self, session: u32, low: u8, high: u8) -> Result<bool, NoMemory>
        requires { session < 2 }
    {
        if self.scans.has_scan(session) {
            return Ok(false);
        }
        let low = Bytes::copy(self.alloc, &[low])?;
        let high = Bytes::copy(self.alloc, &[high])?;
        self.scans.prepare(session, ByteSum::new(), low, high);
        Ok(true)
    }

    /// Starts a scan; false where the session has none that is prepared.
    pub fn start(&mut self, session: u32, at: u64) -> Result<bool, NoMemory>
        requires { session < 2 }
    {
        if !self.scans.is_prepared(session) {
            return Ok(false);
        }
        self.scans.start(session, at)?;
        Ok(true)
    }

    /// The number of versions that the session's scan holds.
    pub fn held(&self, session: u32) -> usize
        requires { session < 2 }
    {
        self.scans.held(session)
    }

    // The least key that has a version, from where the walk stands.
    fn next_key(&self, cursor: &[u8]) -> Option<(u8, u64, u8)> {
        for key in b'a'..b'i' {
            let bytes = [key];
            if cursor.cmp(bytes.as_slice()).is_le() {
                if let Some((stamp, value)) = self.history.version_at(self.stamp, key) {
                    return Some((key, stamp, value));
                }
            }
        }
        None
    }

    /// Walks one key, or answers the result where none is left.
    pub fn walk(&mut self, session: u32) -> Result<Option<Bytes>, NoMemory>
        requires { session < 2 }
    {
        if !self.scans.is_started(session) {
            return Ok(None);
        }
        if let Some((key, stamp, value)) = self.next_key(self.scans.cursor(session)) {
            if self.scans.in_range(session, &[key]) {
                self.scans.walked(session, &[key], stamp, &[value])?;
                return Ok(None);
            }
        }
        self.scans.at_end(session);
        match self.scans.finished(session) {
            None => Ok(None),
            Some(fold) => Ok(Some(fold.result(self.alloc)?)),
        }
    }
}
