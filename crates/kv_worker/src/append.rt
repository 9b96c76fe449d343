ghost use Rattle.std.specs.Prelude.{◌≡◌, ◌++◌, ◌∷◌, [], IfOk, OnOk};

use kv_base::NoMemory;
use std::alloc::Global;

/// An empty list with room for so many items. The one error is want of memory.
pub fn with_room<T>(alloc: Global, items: usize) -> Result<Vec<T>, NoMemory>
    ensures { IfOk result (λ list. list.items ≡ []) }
{
    Ok(Vec::with_capacity(alloc, items)?)
}

/// Appends an item. The one error is want of memory.
pub fn append<T: Drop>(list: &mut Vec<T>, item: T) -> Result<(), NoMemory>
    ensures { OnOk result (list.new.items ≡ list.old.items ++ item ∷ []) }
{
    list.push(item)?;
    Ok(())
}
