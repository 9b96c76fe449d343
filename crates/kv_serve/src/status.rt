ghost use Rattle.std.specs.Prelude.{◌≡◌};
ghost use Rattle.kv_serve.specs.Serve.{all_end, is_end, served_status};

use kv_base::Cause;
use kv_session::Ending;

/// Whether the cause is End.
fn is_end(cause: Cause) -> bool
    ensures { result ≡ is_end cause }
{
    matches!(cause, Cause::End)
}

/// Whether all sessions ended with End.
fn all_end(endings: &[Ending]) -> bool
    ensures { result ≡ all_end endings.now }
{
    endings.iter().all(|ending| is_end(ending.cause))
}

/// The status where sessions were served.
pub fn status_of(endings: &[Ending], unsure: bool) -> u8
    ensures { result ≡ served_status endings.now unsure }
{
    if all_end(endings) && !unsure { 0 } else { 1 }
}
