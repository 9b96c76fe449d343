ghost use Rattle.std.specs.Prelude.{◌≡◌, ◌++◌, [], ◌∷◌, OnOk, OnErr};
ghost use Rattle.std.specs.Option.{option_copied};
ghost use Rattle.kv_model.specs.Oracle.{history_of};

use kv_base::{Bytes, NoMemory};
use std::alloc::Global;

/// A write as the oracle keeps it.
#[derive(Debug, Drop)]
pub struct Recorded {
    /// When it was made.
    pub stamp: u64,
    /// The key.
    pub key: Bytes,
    /// The value, or none where the key was deleted.
    pub value: Option<Bytes>,
}

/// Puts a copy of a write behind the others. The one error is want of memory, and then they are as
/// before.
pub fn record(
    alloc: Global,
    written: &mut Vec<Recorded>,
    stamp: u64,
    key: &[u8],
    value: Option<&[u8]>,
) -> Result<(), NoMemory>
    ensures ok { OnOk result (history_of written.new.items ≡ history_of written.old.items
        ++ record { stamp = stamp; key = key.now; value = option_copied value.entry } ∷ []) }
    ensures err { OnErr result (written.new.items ≡ written.old.items) }
{
    let key = Bytes::copy(alloc, key)?;
    let value = match value {
        None => None,
        Some(value) => Some(Bytes::copy(alloc, value)?),
    };
    written.push(Recorded { stamp, key, value })?;
    Ok(())
}
