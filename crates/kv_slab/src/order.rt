ghost use Rattle.std.specs.Prelude.{◌≡◌, IfOk, IfErr};
ghost use Rattle.std.specs.List.Sorted.{IsSorted};
ghost use Rattle.kv_slab.specs.Pages.{IsOrder, by_place};

use crate::append::append;
use crate::fault::StepFault;
use crate::page::Page;
use std::alloc::Global;

/// The order in which pages go out: by file, and then by page. Each key has the two and the page's
/// number in the list.
pub fn order_of(alloc: Global, pages: &[Page]) -> Result<Vec<(u8, u32, usize)>, StepFault>
    ensures ok { IfOk result (λ order. IsOrder pages.now order.items) }
    ensures rising { IfOk result (λ order. IsSorted by_place order.items) }
    ensures cause { IfErr result (λ fault. fault ≡ StepFault.NoMemory) }
{
    let mut order = Vec::new(alloc);
    for index in 0..pages.len() {
        let page = &pages[index];
        append(&mut order, (page.file, page.page, index))?;
    }
    order.sort_unstable();
    Ok(order)
}
