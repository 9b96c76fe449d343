use kv_words::{Command, Ends, WordsFault, read_words};
use std::alloc::Global;
use std::test::Fail;

fn words_of(alloc: Global, words: &[&str]) -> Result<Vec<String>, Fail> {
    let mut all = Vec::new(alloc);
    for word in words {
        all.push(String::from_str(alloc, word)?)?;
    }
    Ok(all)
}

// Which command words are, and its numbers: of `serve` slots and pages, of a report the workers.
type Asked = (u8, u32, u32);

const NONE: Asked = (0, 0, 0);

// No clause says what it is: its callers compare numbers.
fn asked(alloc: Global, words: &[String]) -> Asked {
    match read_words(alloc, words) {
        Ok(Command::Serve { limits, .. }) => (1, limits.slots, limits.cache),
        Ok(Command::Check { workers, .. }) => (2, workers, 0),
        Ok(Command::Dump { workers, .. }) => (3, workers, 0),
        Err(WordsFault::Usage) => NONE,
        Err(WordsFault::NoMemory) => (4, 0, 0),
    }
}

type Row = (&'static [&'static str], Asked);

const SLOTS: u32 = 1 << 20;

static GOOD: [Row; 24] = [
    (&["serve", "D", "1", "-", "-"], (1, SLOTS, 256)),
    (&["serve", "D", "2", "-", "-"], (1, SLOTS, 256)),
    (&["serve", "D", "16", "-", "-"], (1, SLOTS, 256)),
    (&["serve", "D", "1", "-", "a", "a", "-"], (1, SLOTS, 256)),
    (&["serve", "D", "1", "a", "a", "a", "a"], (1, SLOTS, 256)),
    (
        &[
            "serve",
            "D",
            "2",
            "a",
            "b",
            "c",
            "d",
            "e",
            "f",
            "g",
            "h",
            "i",
            "j",
            "k",
            "l",
            "m",
            "n",
            "-",
            "-",
            "--slots=9",
        ],
        (1, 9, 256),
    ),
    (&["serve", "--slots", "5", "D", "1", "-", "-"], (1, 5, 256)),
    (&["serve", "D", "--slots=5", "1", "-", "-"], (1, 5, 256)),
    (
        &["serve", "D", "1", "-", "-", "--cache", "7"],
        (1, SLOTS, 7),
    ),
    (
        &["serve", "D", "1", "--cache=1", "-", "-", "--slots=2"],
        (1, 2, 1),
    ),
    (
        &["serve", "D", "1", "-", "-", "--slots=16777216"],
        (1, 1 << 24, 256),
    ),
    (
        &["serve", "D", "1", "-", "-", "--cache=1024"],
        (1, SLOTS, 1024),
    ),
    (&["serve", "D", "+1", "-", "-"], (1, SLOTS, 256)),
    (&["serve", "D", "001", "-", "-"], (1, SLOTS, 256)),
    (
        &["serve", "--slots", "+007", "D", "1", "-", "-"],
        (1, 7, 256),
    ),
    (&["serve", "--", "D", "1", "-", "-"], (1, SLOTS, 256)),
    (
        &["serve", "--slots=3", "--", "--slots=4", "1", "-x", "--"],
        (1, 3, 256),
    ),
    (&["check", "-", "16"], (2, 16, 0)),
    (&["check", "D", "--", "1"], (2, 1, 0)),
    (&["check", "--", "--", "2"], (2, 2, 0)),
    (&["check", "--", "-D", "+016"], (2, 16, 0)),
    (&["check", "D", "3", "--"], (2, 3, 0)),
    (&["dump", "D", "007"], (3, 7, 0)),
    (&["dump", "check", "4"], (3, 4, 0)),
];

static OTHER: [&[&str]; 30] = [
    &[],
    &[""],
    &["serve"],
    &["Serve", "D", "1", "-", "-"],
    &["help"],
    &["--help"],
    &["serve", "--help"],
    &["serve", "--version"],
    &["serve", "D", "17", "-", "-"],
    &["serve", "D", "0", "-", "-"],
    &["serve", "D", "1"],
    &["serve", "D", "1", "-"],
    &["serve", "D", "1", "-", "-", "-"],
    &["serve", "D", "2", "a", "b", "c"],
    &["serve", "D", "1", "-", "a", "-", "b"],
    &["serve", "D", "1", "a", "-", "b", "-"],
    &[
        "serve", "D", "2", "a", "b", "c", "d", "e", "f", "g", "h", "i", "j", "k", "l", "m", "n",
        "o", "p", "q", "r",
    ],
    &["serve", "D", "1", "-", "-", "-", "-"],
    &["serve", "D", "1", "", "-"],
    &["serve", "", "1", "-", "-"],
    &["serve", "--", "", "1", "-", "-"],
    &["serve", "D", "1", "-x", "-"],
    &["serve", "-D", "1", "-", "-"],
    &["serve", "D", "one", "-", "-"],
    &["serve", "D", "+", "-", "-"],
    &["serve", "D", "++1", "-", "-"],
    &["serve", "D", "1 ", "-", "-"],
    &["serve", "D", "18446744073709551617", "-", "-"],
    &["serve", "D", "4294967297", "-", "-"],
    &["try", "7", "0", "1"],
];

static OTHER_OPTIONS: [&[&str]; 21] = [
    &["serve", "D", "1", "-", "-", "--slots"],
    &["serve", "D", "1", "-", "-", "--slots="],
    &["serve", "D", "1", "-", "-", "--slots=0"],
    &["serve", "D", "1", "-", "-", "--slots=16777217"],
    &["serve", "D", "1", "-", "-", "--slots=18446744073709551621"],
    &["serve", "D", "1", "-", "-", "--slots=5", "--slots=5"],
    &["serve", "--slots", "5", "D", "1", "-", "-", "--slots=5"],
    &["serve", "D", "1", "-", "-", "--slots=5=5"],
    &["serve", "--slots", "", "D", "1", "-", "-"],
    &["serve", "D", "1", "-", "-", "--cache=0"],
    &["serve", "D", "1", "-", "-", "--cache=1025"],
    &["serve", "D", "1", "-", "-", "--cache", "-5"],
    &["serve", "D", "1", "-", "-", "--cache", "-"],
    &["serve", "--slots", "--", "5", "D", "1", "-", "-"],
    &["serve", "D", "1", "-", "-", "--slot=5"],
    &["serve", "D", "1", "-", "-", "-s", "5"],
    &["check", "D"],
    &["check", "D", "17"],
    &["check", "D", "1", "--cache=5"],
    &["dump", "D", "1", "-"],
    &["dump", "D", "-1"],
];

fn good() -> &'static [Row] {
    &GOOD
}

fn other() -> &'static [&'static [&'static str]] {
    &OTHER
}

fn other_options() -> &'static [&'static [&'static str]] {
    &OTHER_OPTIONS
}

fn is_asked(alloc: Global, words: &[&str], wanted: Asked) -> Result<bool, Fail> {
    let words = words_of(alloc, words)?;
    Ok(asked(alloc, &words) == wanted)
}

#[test]
fn good_words_are_read(rt: HostRuntime) -> Result<(), Fail> {
    for (words, wanted) in good() {
        assert!(rt; is_asked(rt.alloc(), words, *wanted)?, "{words:?}");
    }
    Ok(())
}

#[test]
fn other_words_are_usage(rt: HostRuntime) -> Result<(), Fail> {
    for words in other() {
        assert!(rt; is_asked(rt.alloc(), words, NONE)?, "{words:?}");
    }
    Ok(())
}

#[test]
fn other_options_are_usage(rt: HostRuntime) -> Result<(), Fail> {
    for words in other_options() {
        assert!(rt; is_asked(rt.alloc(), words, NONE)?, "{words:?}");
    }
    Ok(())
}

// Whether the words are `serve` with this folder, so many workers, and these words in place of each
// session's input and output.
fn is_serve(
    words: &[String],
    folder: &str,
    workers: u32,
    ends: &[(&str, &str)],
    alloc: Global,
) -> bool {
    match read_words(alloc, words) {
        Ok(
            Command::Serve {
                folder: f,
                workers: w,
                sessions,
                ..
            },
        ) => f == folder && w == workers && are_ends(sessions.as_slice(), ends),
        _ => false,
    }
}

fn are_ends(sessions: &[Ends], ends: &[(&str, &str)]) -> bool {
    if sessions.len() != ends.len() {
        return false;
    }
    for (session, (input, output)) in sessions.iter().zip(ends) {
        if session.input != *input || session.output != *output {
            return false;
        }
    }
    true
}

#[test]
fn each_word_has_its_place(rt: HostRuntime) -> Result<(), Fail> {
    let alloc = rt.alloc();
    let words = words_of(alloc, &["serve", "D", "--slots", "3", "1", "in", "out"])?;
    assert!(rt; is_serve(&words, "D", 1, &[("in", "out")], alloc));
    let words = words_of(alloc, &["serve", "--", "--slots=4", "1", "-x", "--"])?;
    assert!(rt; is_serve(&words, "--slots=4", 1, &[("-x", "--")], alloc));
    let words = words_of(
        alloc,
        &["serve", "D", "+3", "a", "b", "--cache=2", "-", "c"],
    )?;
    assert!(rt; is_serve(&words, "D", 3, &[("a", "b"), ("-", "c")], alloc));
    Ok(())
}
