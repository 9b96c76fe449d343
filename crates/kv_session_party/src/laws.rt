ghost use denote.Param.Send.{IsSend};
ghost use Rattle.kv_session_party.specs.contracts.party.SessionParty.{the_row as party};

use crate::party::SessionParty;
use kv_base::{Sink, Source};

fn is_send<T: Send>()
    ensures { IsSend T.row }
{}

/// A session's party may move to another thread, where its source, its sink and the fold that a
/// message carries may.
pub fn session_parties_cross_threads<So: Source + Send, Si: Sink + Send, F: Send>()
    ensures { IsSend (party So.row Si.row F.row ⟦<So as Source>⟧ ⟦<Si as Sink>⟧) }
{
    is_send::<SessionParty<So, Si, F>>();
}
