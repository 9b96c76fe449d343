ghost use Rattle.std.specs.Prelude.{◌≡◌};
ghost use Rattle.std.specs.FinMap.{empty};
ghost use Rattle.kv_model.specs.Fold.{Counting, AddingLengths, AddingBytes};
ghost use Rattle.kv_fold.specs.States.{sum_state, state_of};

use crate::Fold;
use kv_base::{Bytes, NoMemory};
use kv_lanes::sum_bytes;
use std::alloc::Global;
use std::marker::Model;

/// The number of items. Contracts see it.
#[derive(Debug, Drop)]
pub struct CountItems {
    count: u64,
}

/// The sum of the value lengths, modulo 2^64. Contracts see it.
#[derive(Debug, Drop)]
pub struct ValueLengths {
    total: u64,
}

/// The sum of all value bytes, modulo 2^64. Contracts see it.
#[derive(Debug, Drop)]
pub struct ByteSum {
    total: u64,
}

impl Model for CountItems {
    ghost use Rattle.std.specs.Prelude.{ℕ};

    ghost Value = { ℕ };

    ghost view = { λ s. s.count };
}

impl Model for ValueLengths {
    ghost use Rattle.std.specs.Prelude.{ℕ};

    ghost Value = { ℕ };

    ghost view = { λ s. s.total };
}

impl Model for ByteSum {
    ghost use Rattle.std.specs.Prelude.{ℕ};

    ghost Value = { ℕ };

    ghost view = { λ s. s.total };
}

impl CountItems {
    /// The fold of no item.
    pub fn new() -> CountItems
        ensures { sum_state Counting result ≡ state_of Counting empty }
    {
        CountItems { count: 0 }
    }
}

impl ValueLengths {
    /// The fold of no item.
    pub fn new() -> ValueLengths
        ensures { sum_state AddingLengths result ≡ state_of AddingLengths empty }
    {
        ValueLengths { total: 0 }
    }
}

impl ByteSum {
    /// The fold of no item.
    pub fn new() -> ByteSum
        ensures { sum_state AddingBytes result ≡ state_of AddingBytes empty }
    {
        ByteSum { total: 0 }
    }
}

impl Fold for CountItems {
    ghost state = { λ count. sum_state Counting count };

    fn add(&mut self, _key: &[u8], _value: &[u8]) -> Result<(), NoMemory> {
        self.count = self.count.wrapping_add(1);
        Ok(())
    }

    fn merge(&mut self, other: Self) -> Result<(), NoMemory> {
        self.count = self.count.wrapping_add(other.count);
        Ok(())
    }

    fn result(&self, alloc: Global) -> Result<Bytes, NoMemory> {
        Bytes::copy(alloc, &self.count.to_le_bytes())
    }
}

impl Fold for ValueLengths {
    ghost state = { λ total. sum_state AddingLengths total };

    fn add(&mut self, _key: &[u8], value: &[u8]) -> Result<(), NoMemory> {
        self.total = self.total.wrapping_add(value.len() as u64);
        Ok(())
    }

    fn merge(&mut self, other: Self) -> Result<(), NoMemory> {
        self.total = self.total.wrapping_add(other.total);
        Ok(())
    }

    fn result(&self, alloc: Global) -> Result<Bytes, NoMemory> {
        Bytes::copy(alloc, &self.total.to_le_bytes())
    }
}

impl Fold for ByteSum {
    ghost state = { λ total. sum_state AddingBytes total };

    fn add(&mut self, _key: &[u8], value: &[u8]) -> Result<(), NoMemory> {
        self.total = self.total.wrapping_add(sum_bytes(value));
        Ok(())
    }

    fn merge(&mut self, other: Self) -> Result<(), NoMemory> {
        self.total = self.total.wrapping_add(other.total);
        Ok(())
    }

    fn result(&self, alloc: Global) -> Result<Bytes, NoMemory> {
        Bytes::copy(alloc, &self.total.to_le_bytes())
    }
}
