use kv_base::NoMemory;
use std::alloc::Global;

/// All changes of a map with the keys `a` to `h` and values of one byte.
#[derive(Drop)]
pub struct History {
    changes: Vec<(u64, u8, Option<u8>)>,
}

impl History {
    /// No change.
    pub fn new(alloc: Global) -> History {
        History {
            changes: Vec::new(alloc),
        }
    }

    /// One more change; no value is a deletion.
    pub fn add(&mut self, stamp: u64, key: u8, value: Option<u8>) -> Result<(), NoMemory> {
        self.changes.push((stamp, key, value))?;
        Ok(())
    }

    /// The last change of a key up to a stamp, if it gave a value: its stamp and the value.
    pub fn version_at(&self, at: u64, key: u8) -> Option<(u64, u8)> {
        let mut found = None;
        for (stamp, other, value) in &self.changes {
            if *other == key && *stamp <= at {
                found = value.map(|byte| (*stamp, byte));
            }
        }
        found
    }

    /// The sum of the values of the keys from `low` on and below `high` at a stamp.
    pub fn sum_at(&self, at: u64, low: u8, high: u8) -> u64 {
        let mut sum = 0u64;
        for key in low..high {
            if let Some((_, value)) = self.version_at(at, key) {
                sum = sum.wrapping_add(u64::from(value));
            }
        }
        sum
    }
}
