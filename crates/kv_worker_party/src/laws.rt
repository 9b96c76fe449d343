ghost use denote.Param.Send.{IsSend};
ghost use Rattle.kv_worker_party.specs.Due.{DueAreTaken};
ghost use Rattle.kv_worker_party.specs.Laws.{PartyLaws};
ghost use Rattle.kv_worker_party.specs.contracts.party.WorkerParty.{the_row as party};

use crate::party::WorkerParty;
use kv_disk::Disk;
use kv_index::Index;
use kv_model::{
    failed_answers_agree_with_one_map, failed_writes_are_unsure, prefixes_stay,
    refusals_agree_with_one_map, refusals_are_silent, stamps_follow_requests,
    store_follows_history, told_answers_agree_with_one_map,
};

/// What the model's laws say of a batch behind others. Nothing runs.
pub fn party_laws()
    ensures { PartyLaws }
{
    stamps_follow_requests();
    store_follows_history();
    told_answers_agree_with_one_map();
    failed_answers_agree_with_one_map();
    failed_writes_are_unsure();
    refusals_agree_with_one_map();
    refusals_are_silent();
    prefixes_stay();
}

/// A message that a session sends by its promise is one that its worker's turn takes, where no
/// answer to the session waits.
pub fn due_messages_are_taken<F>()
    ensures { DueAreTaken F }
{}

fn is_send<T: Send>()
    ensures { IsSend T.row }
{}

/// A worker's party may move to another thread, where its disk, its index and the fold that a message
/// carries may.
pub fn worker_parties_cross_threads<D: Disk + Send, I: Index + Send, F: Send>()
    ensures { IsSend (party D.row I.row F.row ⟦<D as Disk>⟧ ⟦<I as Index>⟧) }
{
    is_send::<WorkerParty<D, I, F>>();
}
