use crate::merging::{merge_bytes, merge_count, merge_first, merge_lengths};
use crate::{ByteSum, CountItems, First, Fold, ValueLengths};
use kv_base::{Bytes, NoMemory};
use std::alloc::Global;

/// A fold of any kind, as a request names it.
#[derive(Debug, Drop)]
pub enum AnyFold {
    /// The number of items.
    Count(CountItems),
    /// The sum of the value lengths.
    ValueLengths(ValueLengths),
    /// The sum of all value bytes.
    ByteSum(ByteSum),
    /// The first items by rising key.
    First(First),
}

impl Fold for AnyFold {
    ghost use Rattle.kv_fold.specs.Any.{any_state};

    ghost state = { any_state };

    fn add(&mut self, key: &[u8], value: &[u8]) -> Result<(), NoMemory> {
        match self {
            AnyFold::Count(fold) => fold.add(key, value),
            AnyFold::ValueLengths(fold) => fold.add(key, value),
            AnyFold::ByteSum(fold) => fold.add(key, value),
            AnyFold::First(fold) => fold.add(key, value),
        }
    }

    fn merge(&mut self, other: Self) -> Result<(), NoMemory> {
        match self {
            AnyFold::Count(fold) => merge_count(fold, other),
            AnyFold::ValueLengths(fold) => merge_lengths(fold, other),
            AnyFold::ByteSum(fold) => merge_bytes(fold, other),
            AnyFold::First(fold) => merge_first(fold, other),
        }
    }

    fn result(&self, alloc: Global) -> Result<Bytes, NoMemory> {
        match self {
            AnyFold::Count(fold) => fold.result(alloc),
            AnyFold::ValueLengths(fold) => fold.result(alloc),
            AnyFold::ByteSum(fold) => fold.result(alloc),
            AnyFold::First(fold) => fold.result(alloc),
        }
    }
}
