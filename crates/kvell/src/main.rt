//! The program: `kvell serve DIR N IN OUT [IN OUT ..]` answers puts, gets and deletes; `kvell check
//! DIR N` and `kvell dump DIR N` report what stands on a store's disks.
#![tactic(auto)]

use kv_serve::{run_words, status_line};
use kv_site::FileSite;
use std::alloc::Global;
use std::io::Write;
use std::process::ExitCode;
use std::rt::Env;
use std::{env, io};

/// The status where memory ran out.
const OUT_OF_MEMORY: u8 = 4;

fn main(rt: HostRuntime) -> ExitCode {
    let alloc = rt.alloc();
    let words = match words_of(alloc, &rt) {
        Ok(words) => words,
        Err(error) if error.kind() == io::ErrorKind::OutOfMemory => {
            return ExitCode::from(OUT_OF_MEMORY);
        }
        // A word isn't UTF-8: no words are none of a command, either.
        Err(_) => Vec::new(alloc),
    };
    let mut stderr = rt.stderr();
    let mut site = FileSite::new(rt);
    let ended = run_words(rt, alloc, &words, &mut site);
    if let Ok(Some(line)) = status_line(alloc, &ended) {
        let _ = stderr.write_all(line.as_slice());
        let _ = stderr.write_all(b"\n");
    }
    ExitCode::from(ended.status)
}

/// The words behind the program's name.
fn words_of(alloc: Global, rt: &(impl AllocGlobal + Env)) -> io::Result<Vec<String>> {
    Ok(env::args(rt)?.skip(1).collect(alloc)?)
}
