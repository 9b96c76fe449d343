ghost use denote.Param.{number};
ghost use denote.Param.Send.{IsSend};
ghost use Rattle.kv_ring.specs.contracts.ends.Ends.{the_row as ends};
ghost use Rattle.kv_ring.specs.contracts.message.Answer.{the_row as answer};
ghost use Rattle.kv_ring.specs.contracts.message.Ask.{the_row as ask};

use crate::ends::{SessionEnds, WorkerEnds};

fn is_send<T: Send>()
    ensures { IsSend T.row }
{}

/// The ends of a session and of a worker may move to another thread, where the fold that a message
/// carries may.
pub fn ends_cross_threads<F: Send>()
    ensures session { IsSend (ends (ask F.row) (answer F.row) (number 16)) }
    ensures worker { IsSend (ends (answer F.row) (ask F.row) (number 8)) }
{
    is_send::<SessionEnds<F>>();
    is_send::<WorkerEnds<F>>();
}
