ghost use Rattle.std.specs.Prelude.{IfOk};
ghost use Rattle.kv_ring.specs.Lines.{IsLine, IsNew};

use crate::end::End;
use rtrb::RingBuffer;
use std::alloc::{AllocError, Global};

/// Two rings of two places each, between two parties.
pub(crate) fn rings<S: Drop, R: Drop>(alloc: Global) -> Result<(End<S, R>, End<R, S>), AllocError>
    ensures line { IfOk result (λ ends. IsLine ends.0 ends.1) }
    ensures new { IfOk result (λ ends. IsNew ends.0 × IsNew ends.1) }
{
    let (out, there) = RingBuffer::new(alloc, 2)?;
    let (back, here) = RingBuffer::new(alloc, 2)?;
    let near = End { out, back: here };
    let far = End {
        out: back,
        back: there,
    };
    Ok((near, far))
}
