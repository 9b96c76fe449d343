ghost use Rattle.std.specs.Prelude.{◌≡◌, ℕ, map, string_bytes, Err, IfOk, MatchOption};
ghost use Rattle.kv_words.specs.Asked.{asked_by};
ghost use Rattle.kv_words.specs.Words.{Asked, Asks, AreLimitsOf, IsLimit, IsNumberIn, Reporting};
ghost use Rattle.kv_words.specs.Words.{Says, SaysReport, SaysServe, Serving, first_word};

use crate::said::{Heard, hear_all};
use crate::sessions::{Sessions, sessions_in};
use kv_base::Limits;
use std::alloc::{AllocError, Global};

/// The limits of a store where none are named.
const LIMITS: Limits = Limits {
    slots: 1 << 20,
    cache: 256,
};

/// The most slots of a class.
const MOST_SLOTS: u32 = 1 << 24;

/// The most pages that a cache keeps.
const MOST_PAGES: u32 = 1_024;

/// The most workers.
const MOST_WORKERS: u32 = 16;

/// A command.
#[derive(Debug, Drop)]
pub enum Command<'a> {
    /// Serves sessions over a store.
    Serve {
        /// The folder of the store.
        folder: &'a str,
        /// The number of workers, 1 to 16.
        workers: u32,
        /// The limits of each worker.
        limits: Limits,
        /// The names of the sessions' ends, 1 to 8 sessions.
        sessions: Sessions<'a>,
    },
    /// Reports what stands in the slots of a store's disks.
    Check {
        /// The folder of the store.
        folder: &'a str,
        /// The number of workers, 1 to 16.
        workers: u32,
    },
    /// Reports all items that a store's disks keep.
    Dump {
        /// The folder of the store.
        folder: &'a str,
        /// The number of workers, 1 to 16.
        workers: u32,
    },
}

/// Why words are no command.
#[derive(Clone, Copy, Debug, PartialEq, Eq)]
pub enum WordsFault {
    /// They are none of a command.
    Usage,
    /// Want of memory.
    NoMemory,
}

impl From<AllocError> for WordsFault {
    ghost use Rattle.kv_words.specs.declared.words.WordsFault.TheVariants.{NoMemory};

    ghost from_gives = { λ _ fault. fault ≡ NoMemory };

    fn from(_: AllocError) -> Self {
        WordsFault::NoMemory
    }
}

/// The number in a range that the text is, with an optional `+` before its digits.
fn number_in(text: &str, least: u32, most: u32) -> Option<u32>
    ensures { MatchOption result ((number : ℕ) → IsNumberIn least most text.now number → ⊥)
        (IsNumberIn least most text.now) }
{
    match text.parse::<u32>() {
        Ok(number) if least <= number && number <= most => Some(number),
        _ => None,
    }
}

/// The limit that the values of an option name.
fn limit_in(values: &[&str], most: u32, usual: u32) -> Option<u32>
    ensures { let texts = map (λ value. value.now) values.now in
        MatchOption result ((number : ℕ) → IsLimit most usual texts number → ⊥)
        (IsLimit most usual texts) }
{
    match values {
        [] => Some(usual),
        [value] => number_in(value, 1, most),
        _ => None,
    }
}

/// The limits that the options name.
fn limits_of(heard: &Heard) -> Option<Limits>
    ensures { MatchOption result ((limits : Limits) → AreLimitsOf heard.now limits → ⊥)
        (AreLimitsOf heard.now) }
{
    let slots = limit_in(heard.slots.as_slice(), MOST_SLOTS, LIMITS.slots)?;
    let cache = limit_in(heard.cache.as_slice(), MOST_PAGES, LIMITS.cache)?;
    Some(Limits { slots, cache })
}

/// The command `serve`, where the words behind it say one.
fn served<'a>(alloc: Global, heard: &Heard<'a>) -> Result<Command<'a>, WordsFault>
    ensures ok { IfOk result (λ command. (serving : Serving)
        × (asked_by command ≡ Asked.serve serving) × SaysServe heard.now serving) }
    ensures usage { result ≡ Err WordsFault.Usage → (serving : Serving)
        → SaysServe heard.now serving → ⊥ }
{
    let [folder, number, names @ ..] = heard.plain.as_slice() else {
        return Err(WordsFault::Usage);
    };
    let Some(workers) = number_in(number, 1, MOST_WORKERS) else {
        return Err(WordsFault::Usage);
    };
    let Some(limits) = limits_of(heard) else {
        return Err(WordsFault::Usage);
    };
    let sessions = match sessions_in(alloc, names) {
        Ok(sessions) => sessions,
        Err(fault) => return Err(fault),
    };
    Ok(Command::Serve {
        folder,
        workers,
        limits,
        sessions,
    })
}

/// The folder and the number of workers, where the words behind a report's name say them.
fn reported<'a>(heard: &Heard<'a>) -> Option<(&'a str, u32)>
    ensures { MatchOption result ((reporting : Reporting) → SaysReport heard.now reporting → ⊥)
        (λ said. SaysReport heard.now (record { folder = said.0.now; workers = said.1 })) }
{
    let [folder, workers] = heard.plain.as_slice() else {
        return None;
    };
    let Some(workers) = number_in(workers, 1, MOST_WORKERS) else {
        return None;
    };
    if !heard.slots.is_empty() || !heard.cache.is_empty() {
        return None;
    }
    Some((folder, workers))
}

/// The command with this first word, where the words behind it say one.
fn command_of<'a>(alloc: Global, first: &str, heard: &Heard<'a>) -> Result<Command<'a>, WordsFault>
    ensures ok { IfOk result (λ command. (first.now ≡ first_word (asked_by command))
        × Says heard.now (asked_by command)) }
    ensures usage { result ≡ Err WordsFault.Usage → (asked : Asked)
        → first.now ≡ first_word asked → Says heard.now asked → ⊥ }
{
    match first {
        "serve" => served(alloc, heard),
        "check" => match reported(heard) {
            Some((folder, workers)) => Ok(Command::Check { folder, workers }),
            None => Err(WordsFault::Usage),
        },
        "dump" => match reported(heard) {
            Some((folder, workers)) => Ok(Command::Dump { folder, workers }),
            None => Err(WordsFault::Usage),
        },
        _ => Err(WordsFault::Usage),
    }
}

/// The command that the words are, without the program's name: those of docs/protocol.md, "Words".
/// Usage comes exactly where they are none, or else want of memory.
pub fn read_words<'a>(alloc: Global, words: &'a [String]) -> Result<Command<'a>, WordsFault>
    ensures ok { IfOk result (λ command. Asks (map (λ word. string_bytes word) words.now)
        (asked_by command)) }
    ensures only { IfOk result (λ command. (asked : Asked)
        → Asks (map (λ word. string_bytes word) words.now) asked → asked ≡ asked_by command) }
    ensures usage { result ≡ Err WordsFault.Usage → (asked : Asked)
        → Asks (map (λ word. string_bytes word) words.now) asked → ⊥ }
{
    let Some((first, rest)) = words.split_first() else {
        return Err(WordsFault::Usage);
    };
    let heard = match hear_all(alloc, rest) {
        Ok(heard) => heard,
        Err(fault) => return Err(fault),
    };
    match command_of(alloc, first.as_str(), &heard) {
        Ok(command) => Ok(command),
        Err(fault) => Err(fault),
    }
}
