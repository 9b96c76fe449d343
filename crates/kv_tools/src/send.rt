ghost use Rattle.std.specs.Prelude.{OnOk, OnErr};
ghost use Rattle.kv_base.specs.Fault.{Counted};
ghost use Rattle.kv_base.specs.Stream.{Takes};
ghost use Rattle.kv_tools.specs.Sent.{TakesFront};

use kv_base::{Failed, Sink};

/// Appends all of the bytes to what the sink holds: in one call, and more only for what a short
/// write left.
pub fn send<Si: Sink>(out: &mut Si, bytes: &[u8]) -> Result<(), Failed>
    ensures ok { OnOk result (Takes (Si.held out.old) (Si.held out.new) bytes.now) }
    ensures err { OnErr result (TakesFront (Si.held out.old) (Si.held out.new) bytes.now) }
    ensures counted { Counted (Si.faults out.old) (Si.faults out.new) result }
{
    if bytes.is_empty() {
        return Ok(());
    }
    if out.write_pieces(bytes, &[bytes.len()]) == 1 {
        Ok(())
    } else {
        Err(Failed)
    }
}
