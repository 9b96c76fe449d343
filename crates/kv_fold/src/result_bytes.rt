ghost use Rattle.std.specs.Prelude.{◌≡◌, ◌++◌, ◌≤◌, length, All, OnOk, IfOk};
ghost use Rattle.kv_model.specs.Fold.{item_bytes, items_bytes};
ghost use Rattle.kv_fold.specs.Bags.{IsItem};

use kv_base::{Bytes, NoMemory};
use std::alloc::Global;

// The bytes of a result with these items, which are so many.
pub(crate) fn write_items(
    alloc: Global,
    items: &[(Bytes, Bytes)],
    size: usize,
) -> Result<Vec<u8>, NoMemory>
    requires few { length items.now ≤ 65535 }
    requires each { All (λ item. IsItem item.0 item.1) items.now }
    ensures { IfOk result (λ bytes. bytes.items ≡ items_bytes items.now) }
{
    let mut bytes = Vec::with_capacity(alloc, size)?;
    bytes.extend_from_slice(&(items.len() as u16).to_le_bytes())?;
    for item in items {
        append_item(&mut bytes, item.0.as_slice(), item.1.as_slice())?;
    }
    Ok(bytes)
}

// Appends an item of a result.
fn append_item(bytes: &mut Vec<u8>, key: &[u8], value: &[u8]) -> Result<(), NoMemory>
    requires { IsItem key.now value.now }
    ensures { OnOk result (bytes.new.items ≡ bytes.old.items ++ item_bytes (key.now, value.now)) }
{
    bytes.push(key.len() as u8)?;
    bytes.extend_from_slice(key)?;
    bytes.extend_from_slice(&(value.len() as u32).to_le_bytes())?;
    bytes.extend_from_slice(value)?;
    Ok(())
}
