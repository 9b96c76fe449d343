ghost use Rattle.std.specs.Prelude.{◌≡◌, IfOk};
ghost use Rattle.kv_frames.specs.View.{request_of};

use crate::view::RequestView;
use kv_base::{Bytes, NoMemory, Request};
use std::alloc::Global;

/// Copies the request that is seen. The one error is want of memory.
pub fn own(alloc: Global, view: &RequestView<'_>) -> Result<Request, NoMemory>
    ensures { IfOk result (λ request. request ≡ request_of view.now) }
{
    match view {
        RequestView::Put { key, value } => Ok(Request::Put {
            key: Bytes::copy(alloc, key)?,
            value: Bytes::copy(alloc, value)?,
        }),
        RequestView::Get { key } => Ok(Request::Get {
            key: Bytes::copy(alloc, key)?,
        }),
        RequestView::Delete { key } => Ok(Request::Delete {
            key: Bytes::copy(alloc, key)?,
        }),
        RequestView::Flush => Ok(Request::Flush),
        RequestView::After { stamp } => Ok(Request::After { stamp: *stamp }),
    }
}
