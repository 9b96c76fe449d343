ghost use Rattle.std.specs.Prelude.{◌≡◌, IfOk, Some, None, option_map, string_bytes};
ghost use Rattle.kv_serve.specs.StatusLine.{cause_text, fault_text, refused_text, sessions_text};
ghost use Rattle.kv_serve.specs.StatusLine.{failed_text, status_text, worker_text};

use crate::ended::{Ended, Refused};
use kv_base::{Bytes, Cause, NoMemory};
use kv_recover::OpenFault;
use kv_session::Ending;
use std::alloc::{AllocError, Global};

const USAGE: &str =
    "kvell: usage: serve DIR N IN OUT [IN OUT ..] / check DIR N / dump DIR N / try SEED COUNT N";

/// The text of a cause that isn't `End`.
fn cause_text(alloc: Global, cause: Cause) -> Result<Option<String>, AllocError>
    ensures { IfOk result (λ text. option_map (λ t. string_bytes t) text ≡ cause_text cause) }
{
    let text = match cause {
        Cause::End => return Ok(None),
        Cause::Malformed { offset } => format!(in alloc; "malformed at {offset}")?,
        Cause::Limit => String::from_str(alloc, "limit")?,
        Cause::SourceFault => String::from_str(alloc, "source fault")?,
        Cause::SinkFault => String::from_str(alloc, "sink fault")?,
    };
    Ok(Some(text))
}

/// The text of the first session whose cause isn't `End`, else that of an unsure write.
fn sessions_text(alloc: Global, endings: &[Ending]) -> Result<String, AllocError>
    ensures { IfOk result (λ text. string_bytes text ≡ sessions_text 0 endings.now) }
{
    for (session, ending) in endings.iter().enumerate() {
        if let Some(cause) = cause_text(alloc, ending.cause)? {
            return format!(in alloc; "kvell: session {session} ended: {cause}");
        }
    }
    String::from_str(alloc, "kvell: a write is unsure")
}

/// The text at status 1.
fn failed_text(alloc: Global, endings: &[Ending]) -> Result<String, AllocError>
    ensures { IfOk result (λ text. string_bytes text ≡ failed_text endings.now) }
{
    if endings.is_empty() {
        return String::from_str(alloc, "kvell: report fault");
    }
    sessions_text(alloc, endings)
}

/// The text of a worker of so many.
fn worker_text(alloc: Global, worker: u32, workers: u32) -> Result<String, AllocError>
    ensures { IfOk result (λ text. string_bytes text ≡ worker_text worker workers) }
{
    format!(in alloc; "worker {worker} of {workers}")
}

/// The text of why a disk was refused.
fn fault_text(alloc: Global, fault: OpenFault) -> Result<String, AllocError>
    ensures { IfOk result (λ text. string_bytes text ≡ fault_text fault) }
{
    match fault {
        OpenFault::NotAStore => String::from_str(alloc, "not a store"),
        OpenFault::OtherStore {
            kept_worker,
            kept_workers,
            asked_worker,
            asked_workers,
        } => {
            let kept = worker_text(alloc, kept_worker, kept_workers)?;
            let asked = worker_text(alloc, asked_worker, asked_workers)?;
            format!(in alloc; "store of {kept}, asked for {asked}")
        }
        OpenFault::StampsSpent { stamp } => format!(in alloc; "stamps spent at {stamp}"),
        OpenFault::DiskFault => String::from_str(alloc, "disk fault"),
        OpenFault::NoMemory => String::from_str(alloc, "out of memory"),
    }
}

/// The text of what was refused.
fn refused_text(alloc: Global, refused: Refused) -> Result<String, AllocError>
    ensures { IfOk result (λ text. string_bytes text ≡ refused_text refused) }
{
    match refused {
        Refused::Disk { worker, fault } => {
            let fault = fault_text(alloc, fault)?;
            format!(in alloc; "kvell: disk {worker}: {fault}")
        }
        Refused::TakeDisk { worker } => format!(in alloc; "kvell: disk {worker}: cannot be taken"),
        Refused::TakeSession { session } => {
            format!(in alloc; "kvell: session {session}: cannot be taken")
        }
        Refused::TakeReport => String::from_str(alloc, "kvell: report: cannot be taken"),
    }
}

/// The text at a status, if there is one.
fn text_of(alloc: Global, ended: &Ended) -> Result<Option<String>, AllocError>
    ensures { IfOk result (λ text. option_map (λ t. string_bytes t) text ≡ status_text ended.now) }
{
    let text = match ended.status {
        1 => failed_text(alloc, ended.endings.as_slice())?,
        2 => String::from_str(alloc, USAGE)?,
        3 => match ended.refused {
            Some(refused) => refused_text(alloc, refused)?,
            None => return Ok(None),
        },
        4 => String::from_str(alloc, "kvell: out of memory")?,
        _ => return Ok(None),
    };
    Ok(Some(text))
}

/// What is said of how a command ended, without a line end: the texts of docs/protocol.md, "Endings
/// and statuses". Nothing at status 0.
pub fn status_line(alloc: Global, ended: &Ended) -> Result<Option<Bytes>, NoMemory>
    ensures { IfOk result (λ line. line ≡ status_text ended.now) }
{
    match text_of(alloc, ended)? {
        Some(text) => Ok(Some(Bytes::from_vec(text.into_bytes()))),
        None => Ok(None),
    }
}
