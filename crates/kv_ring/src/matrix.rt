ghost use Rattle.std.specs.Prelude.{◌≡◌, ℕ, ◌≤◌, ◌<◌, [], ◌∷◌, vec_len, length, map, slice_index_or};
ghost use Rattle.std.specs.Prelude.{All, IfOk, OnOk, IsOk};
ghost use Rattle.kv_ring.specs.Lines.{IsNew};
ghost use Rattle.kv_ring.specs.Ends.{peers, all_lines, refusals, IsFresh};
ghost use Rattle.kv_ring.specs.Matrix.{turned_lines, beside, HasNew, AreMesh};

use crate::end::End;
use crate::ends::{Ends, SessionEnds, WorkerEnds};
use crate::message::{Answer, Ask};
use crate::rings::rings;
use kv_base::NoMemory;
use std::alloc::Global;

/// The ends of one session to so many workers, and each worker's ends to this session alone.
fn first<F: Drop>(
    alloc: Global,
    workers: u32,
) -> Result<(SessionEnds<F>, Vec<WorkerEnds<F>>), NoMemory>
    requires { (1 ≤ workers) × (workers ≤ 16) }
    ensures counts { IfOk result (λ made. (peers made.0 ≡ workers)
        × (vec_len made.1 ≡ workers)) }
    ensures lines { IfOk result (λ made. map all_lines made.1.items
        ≡ map (λ line. line ∷ []) (turned_lines made.0)) }
    ensures new { IfOk result (λ made. HasNew made.0 × All HasNew made.1.items) }
{
    let mut row = Vec::with_capacity(alloc, workers as usize)?;
    let mut columns = Vec::with_capacity(alloc, workers as usize)?;
    for _worker in 0..workers {
        let (near, far) = rings(alloc)?;
        row.push(near)?;
        columns.push(Ends::one(alloc, far)?)?;
    }
    let session = Ends {
        ends: row,
        handed_back: 0,
    };
    Ok((session, columns))
}

/// The ends of one session more; each worker's ends get one to this session.
fn further<F: Drop>(
    alloc: Global,
    columns: &mut Vec<WorkerEnds<F>>,
) -> Result<SessionEnds<F>, NoMemory>
    requires workers { (1 ≤ vec_len columns.old) × (vec_len columns.old ≤ 16) }
    requires room { All (λ ends. peers ends < 8) columns.old.items }
    ensures workers { vec_len columns.new ≡ vec_len columns.old }
    ensures count { IfOk result (λ session. peers session ≡ vec_len columns.old) }
    ensures lines { IfOk result (λ session. map all_lines columns.new.items
        ≡ beside (map all_lines columns.old.items) (turned_lines session)) }
    ensures new { IfOk result HasNew }
    ensures still { OnOk result (All HasNew columns.old.items
        → All HasNew columns.new.items) }
{
    let mut row = Vec::with_capacity(alloc, columns.len())?;
    for worker in 0..columns.len() {
        let (near, far) = rings(alloc)?;
        columns[worker].add(far)?;
        row.push(near)?;
    }
    Ok(Ends {
        ends: row,
        handed_back: 0,
    })
}

/// The ends of all sessions and of all workers, with two rings of two places between each session
/// and each worker. Sessions are 1 to 8, workers 1 to 16. The one error is want of memory.
pub fn mesh<F: Drop>(
    alloc: Global,
    sessions: u32,
    workers: u32,
) -> Result<(Vec<SessionEnds<F>>, Vec<WorkerEnds<F>>), NoMemory>
    requires sessions { (1 ≤ sessions) × (sessions ≤ 8) }
    requires workers { (1 ≤ workers) × (workers ≤ 16) }
    ensures counts { IfOk result (λ made. (vec_len made.0 ≡ sessions)
        × (vec_len made.1 ≡ workers)) }
    ensures session_ends { IfOk result (λ made. All (λ ends. (peers ends ≡ workers)
        × IsFresh ends) made.0.items) }
    ensures worker_ends { IfOk result (λ made. All (λ ends. (peers ends ≡ sessions)
        × IsFresh ends) made.1.items) }
    ensures rings { IfOk result (λ made. AreMesh made.0.items made.1.items) }
{
    let mut all = Vec::with_capacity(alloc, sessions as usize)?;
    let (session, mut columns) = first(alloc, workers)?;
    all.push(session)?;
    for _session in 1..sessions {
        all.push(further(alloc, &mut columns)?)?;
    }
    Ok((all, columns))
}
