ghost use Rattle.std.specs.Prelude.{◌≡◌, ◌↔◌, ◌≤◌, List, [], Err, IfOk, IsTrue, count_by, map};
ghost use Rattle.kv_words.specs.Asked.{ends_in};
ghost use Rattle.kv_words.specs.Words.{Ends as EndsOf, AreSessions, words_of};
ghost use Rattle.kv_words.specs.Words.{reads_standard, writes_standard};

use crate::words::WordsFault;
use kv_base::ReservedList;
use std::alloc::Global;

/// The most sessions.
const MOST_SESSIONS: usize = 8;

/// The names of a session's ends.
#[derive(Clone, Copy, Debug, PartialEq, Eq)]
pub struct Ends<'a> {
    /// Where requests come from: a path, or `-` for standard input.
    pub input: &'a str,
    /// Where replies go: a path, or `-` for standard output.
    pub output: &'a str,
}

/// The names of the ends of sessions, in the order of their numbers.
pub type Sessions<'a> = ReservedList<Ends<'a>>;

/// The ends that the words name, two by two.
fn pairs_in<'a>(alloc: Global, words: &[&'a str]) -> Result<Sessions<'a>, WordsFault>
    ensures ok { IfOk result (λ sessions. words_of (ends_in sessions.items)
        ≡ map (λ word. word.now) words.now) }
    ensures usage { result ≡ Err WordsFault.Usage → (sessions : List EndsOf)
        → words_of sessions ≡ map (λ word. word.now) words.now → ⊥ }
{
    let Ok(mut sessions) = Sessions::with_room(alloc, words.len() / 2) else {
        return Err(WordsFault::NoMemory);
    };
    let mut rest = words;
    while let [input, output, others @ ..] = rest {
        if sessions.append(Ends { input, output }).is_err() {
            return Err(WordsFault::NoMemory);
        }
        rest = others;
    }
    if rest.is_empty() {
        Ok(sessions)
    } else {
        Err(WordsFault::Usage)
    }
}

/// How many of the sessions read standard input.
fn reading_standard(sessions: &[Ends]) -> usize
    ensures { result ≡ count_by reads_standard (ends_in sessions.now) }
{
    sessions.iter().filter(|ends| ends.input == "-").count()
}

/// How many of the sessions write to standard output.
fn writing_standard(sessions: &[Ends]) -> usize
    ensures { result ≡ count_by writes_standard (ends_in sessions.now) }
{
    sessions.iter().filter(|ends| ends.output == "-").count()
}

/// Whether they are sessions that can be served together.
fn are_sessions(sessions: &[Ends]) -> bool
    ensures { IsTrue result ↔ AreSessions (ends_in sessions.now) }
{
    let count = sessions.len();
    if count == 0 || count > MOST_SESSIONS {
        return false;
    }
    reading_standard(sessions) <= 1 && writing_standard(sessions) <= 1
}

/// The sessions that the words name, where they name some that can be served together.
pub fn sessions_in<'a>(alloc: Global, words: &[&'a str]) -> Result<Sessions<'a>, WordsFault>
    ensures words { IfOk result (λ sessions. words_of (ends_in sessions.items)
        ≡ map (λ word. word.now) words.now) }
    ensures sessions { IfOk result (λ sessions. AreSessions (ends_in sessions.items)) }
    ensures usage { result ≡ Err WordsFault.Usage → (sessions : List EndsOf)
        → words_of sessions ≡ map (λ word. word.now) words.now → AreSessions sessions → ⊥ }
{
    let sessions = match pairs_in(alloc, words) {
        Ok(sessions) => sessions,
        Err(fault) => return Err(fault),
    };
    if are_sessions(sessions.as_slice()) {
        Ok(sessions)
    } else {
        Err(WordsFault::Usage)
    }
}
