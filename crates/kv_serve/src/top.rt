ghost use Rattle.std.specs.Prelude.{◌≡◌, ◌⊎◌, [], map, string_bytes, None};
ghost use Rattle.kv_serve.specs.Command.{Does};
ghost use Rattle.kv_serve.specs.Outside.{outside_of};
ghost use Rattle.kv_words.specs.Words.{Asked, Asks};

use crate::ended::Ended;
use crate::refuse::not_served;
use crate::report::{ReportKind, report};
use crate::serve::serve;
use kv_base::{Sink, Source};
use kv_disk::Disk;
use kv_site::Site;
use kv_words::{Command, WordsFault, read_words};
use std::alloc::Global;
use std::sync::Wait;
use std::thread::Threads;

/// Carries out a command, whose words don't include the program's name: `serve`, `check` or `dump`.
/// All that it takes from the site it gives back. `serve` runs each worker and each session on a
/// thread of its own, and returns where all sessions have ended.
///
/// Words, statuses and refusals are those of docs/protocol.md, "Words" and "Endings and statuses".
pub fn run_words<S: Site + 'static, R: Threads + Wait + Copy + Send + 'static>(
    rt: R,
    alloc: Global,
    words: &[String],
    site: &mut S,
) -> Ended
    ensures usage { ((asked : Asked) → Asks (map (λ word. string_bytes word) words.now) asked → ⊥)
        → ((result.status ≡ 2) ⊎ (result.status ≡ 4)) × (result.endings.items ≡ [])
        × (result.refused ≡ None) × (site.new ≡ site.old) }
    ensures done { (asked : Asked) → Asks (map (λ word. string_bytes word) words.now) asked
        → Does ⟦<S::Pages as Disk>⟧ (outside_of ⟦<S::In as Source>⟧ ⟦<S::Out as Sink>⟧ S.tells
        (S.holds site.old) (S.holds site.new) (S.faults site.old) (S.faults site.new)) asked result }
    ensures only { result.status ≡ 2
        → (asked : Asked) → Asks (map (λ word. string_bytes word) words.now) asked → ⊥ }
{
    match read_words(alloc, words) {
        Ok(
            Command::Serve {
                folder,
                workers,
                limits,
                sessions,
            },
        ) => serve(
            rt,
            alloc,
            site,
            folder,
            workers,
            limits,
            sessions.as_slice(),
        ),
        Ok(Command::Check { folder, workers }) => {
            report(alloc, ReportKind::Check, folder, workers, site)
        }
        Ok(Command::Dump { folder, workers }) => {
            report(alloc, ReportKind::Dump, folder, workers, site)
        }
        Err(WordsFault::Usage) => not_served(alloc, 2, None),
        Err(WordsFault::NoMemory) => not_served(alloc, 4, None),
    }
}
