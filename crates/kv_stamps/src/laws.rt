ghost use denote.Param.Send.{IsSend, IsSync};
ghost use Rattle.kv_stamps.specs.contracts.counter.Stamps.{the_row as counter};
ghost use Rattle.kv_stamps.specs.contracts.seat.StampSeat.{the_row as seat};

use crate::counter::Stamps;
use crate::seat::StampSeat;

fn is_send<T: Send>()
    ensures { IsSend T.row }
{}

fn is_sync<T: Sync>()
    ensures { IsSync T.row }
{}

/// Threads may share a counter, and a seat may move to another thread.
pub fn counters_cross_threads()
    ensures counter { IsSend counter × IsSync counter }
    ensures seat { IsSend seat }
{
    is_send::<Stamps>();
    is_sync::<Stamps>();
    is_send::<StampSeat>();
}
