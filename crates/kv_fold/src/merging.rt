ghost use Rattle.std.specs.Prelude.{◌≡◌, ◌≢◌, IsOk, OnOk};
ghost use Rattle.kv_model.specs.Fold.{Counting, AddingLengths, AddingBytes, TakingFirst};
ghost use Rattle.kv_fold.specs.States.{Merges, sum_state, first_state};
ghost use Rattle.kv_fold.specs.Any.{any_state};

use crate::{AnyFold, ByteSum, CountItems, First, Fold, ValueLengths};
use kv_base::NoMemory;

// Adds another fold, where it is of this kind.
pub(crate) fn merge_count(fold: &mut CountItems, other: AnyFold) -> Result<(), NoMemory>
    ensures sure { IsOk result }
    ensures kept { Counting ≢ (any_state other).kind → fold.new ≡ fold.old }
    ensures ok { OnOk result (Merges (sum_state Counting fold.old) (any_state other)
        (sum_state Counting fold.new)) }
{
    let AnyFold::Count(other) = other else {
        return Ok(());
    };
    fold.merge(other)?;
    Ok(())
}

// Adds another fold, where it is of this kind.
pub(crate) fn merge_lengths(fold: &mut ValueLengths, other: AnyFold) -> Result<(), NoMemory>
    ensures sure { IsOk result }
    ensures kept { AddingLengths ≢ (any_state other).kind → fold.new ≡ fold.old }
    ensures ok { OnOk result (Merges (sum_state AddingLengths fold.old) (any_state other)
        (sum_state AddingLengths fold.new)) }
{
    let AnyFold::ValueLengths(other) = other else {
        return Ok(());
    };
    fold.merge(other)?;
    Ok(())
}

// Adds another fold, where it is of this kind.
pub(crate) fn merge_bytes(fold: &mut ByteSum, other: AnyFold) -> Result<(), NoMemory>
    ensures sure { IsOk result }
    ensures kept { AddingBytes ≢ (any_state other).kind → fold.new ≡ fold.old }
    ensures ok { OnOk result (Merges (sum_state AddingBytes fold.old) (any_state other)
        (sum_state AddingBytes fold.new)) }
{
    let AnyFold::ByteSum(other) = other else {
        return Ok(());
    };
    fold.merge(other)?;
    Ok(())
}

// Adds another fold, where it is of this kind.
pub(crate) fn merge_first(fold: &mut First, other: AnyFold) -> Result<(), NoMemory>
    ensures most { fold.new.most ≡ fold.old.most }
    ensures other_kind { TakingFirst fold.old.most ≢ (any_state other).kind → IsOk result }
    ensures kept { TakingFirst fold.old.most ≢ (any_state other).kind → fold.new ≡ fold.old }
    ensures ok { OnOk result (Merges (first_state fold.old.most fold.old.first) (any_state other)
        (first_state fold.new.most fold.new.first)) }
{
    let AnyFold::First(other) = other else {
        return Ok(());
    };
    fold.merge(other)?;
    Ok(())
}
