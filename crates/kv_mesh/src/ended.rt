ghost use Rattle.std.specs.Prelude.{◌≡◌, ◌&&◌};
ghost use Rattle.kv_mesh.specs.Mesh.{sessions_ended, workers_ended};

use crate::mesh::Mesh;
use kv_base::{Sink, Source};
use kv_disk::Disk;
use kv_index::Index;
use kv_session_party::SessionParty;
use kv_worker_party::WorkerParty;

/// Whether each worker has heard every session's farewell, and no answer waits.
fn workers_ended<D: Disk + Drop, I: Index + Drop, F: Drop>(workers: &[WorkerParty<D, I, F>]) -> bool
    ensures { result ≡ workers_ended workers.now }
{
    for party in workers {
        if !party.ended() {
            return false;
        }
    }
    true
}

/// Whether each session has ended, and no message waits.
fn sessions_ended<So: Source + Drop, Si: Sink + Drop, F: Drop>(
    sessions: &[SessionParty<So, Si, F>],
) -> bool
    ensures { result ≡ sessions_ended sessions.now }
{
    for party in sessions {
        if !party.ended() {
            return false;
        }
    }
    true
}

impl<So: Source + Drop, Si: Sink + Drop, D: Disk + Drop, I: Index + Drop, F: Drop> Mesh<
    So,
    Si,
    D,
    I,
    F,
> {
    /// Whether every session has ended, every worker has heard it, and nothing waits to be sent: no
    /// turn does anything more.
    pub fn ended(&self) -> bool
        ensures { result ≡ (workers_ended self.now.all.workers.items
            && sessions_ended self.now.all.sessions.items) }
    {
        workers_ended(self.all.workers.as_slice()) && sessions_ended(self.all.sessions.as_slice())
    }
}
