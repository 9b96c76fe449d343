ghost use Rattle.std.specs.Prelude.{◌≡◌, ◌==◌, Err, IfOk, length, map, string_bytes};
ghost use Rattle.std.specs.List.{list_any};
ghost use Rattle.clap.specs.Matches.{found_of};
ghost use Rattle.clap.specs.Simple.{app_of};
ghost use Rattle.clap.specs.Walk.{rows_of};
ghost use Rattle.kv_words.specs.Parsed.{asked_app, found_in, values_at};
ghost use Rattle.kv_words.specs.Words.{Line, Tells};

use crate::words::WordsFault;
use clap::error::ErrorKind;
use clap::{Arg, ArgAction, ArgMatches, Command};
use std::alloc::{AllocError, Global};
use std::marker::Model;

/// What the words behind the first one say.
#[derive(Drop)]
pub struct Heard<'a> {
    /// The plain words, in order.
    pub plain: Vec<&'a str>,
    /// The values of `--slots`, in order.
    pub slots: Vec<&'a str>,
    /// The values of `--cache`, in order.
    pub cache: Vec<&'a str>,
}

impl<'a> Model for Heard<'a> {
    ghost use Rattle.std.specs.Prelude.{map};
    ghost use Rattle.kv_words.specs.Words.{Line};

    ghost Value = { Line };

    ghost view = { λ heard. record {
      plain = map (λ word. word.now) heard.plain.items;
      slots = map (λ word. word.now) heard.slots.items;
      cache = map (λ word. word.now) heard.cache.items;
    } };
}

/// The values of an argument, in order.
fn values<'a>(alloc: Global, matches: &ArgMatches<'a>, id: &str) -> Result<Vec<&'a str>, AllocError>
    ensures { IfOk result (λ all. map (λ value. value.now) all.items
        ≡ values_at id.now (rows_of (found_of matches.now))) }
{
    match matches.get_raw(id) {
        Some(values) => Vec::from_slice(alloc, values),
        None => Ok(Vec::new(alloc)),
    }
}

/// All that clap found.
fn found<'a>(alloc: Global, matches: &ArgMatches<'a>) -> Result<Heard<'a>, AllocError>
    ensures { IfOk result (λ heard. heard ≡ found_in matches.now) }
{
    let plain = values(alloc, matches, "words")?;
    let slots = values(alloc, matches, "slots")?;
    let cache = values(alloc, matches, "cache")?;
    Ok(Heard {
        plain,
        slots,
        cache,
    })
}

/// The command as clap reads it: plain words and options, each any number of times.
fn command<'a>(alloc: Global) -> Result<Command<'a>, AllocError>
    ensures { IfOk result (λ command. app_of command ≡ asked_app) }
{
    let words = Arg::new(alloc, "words").action(ArgAction::Append);
    let slots = Arg::new(alloc, "slots")
        .long("slots")
        .action(ArgAction::Append);
    let cache = Arg::new(alloc, "cache")
        .long("cache")
        .action(ArgAction::Append);
    Command::new(alloc, "kvell")
        .no_binary_name(true)
        .disable_help_flag(true)
        .disable_version_flag(true)
        .arg(words)?
        .arg(slots)?
        .arg(cache)
}

/// Whether one of the words is empty.
fn has_empty(words: &[String]) -> bool
    ensures { result ≡ list_any (λ word. length (string_bytes word) == 0) words.now }
{
    words.iter().any(|word| word.is_empty())
}

/// Hears all words behind the first one.
pub fn hear_all<'a>(alloc: Global, words: &'a [String]) -> Result<Heard<'a>, WordsFault>
    ensures ok { IfOk result (Tells (map (λ word. string_bytes word) words.now)) }
    ensures usage { result ≡ Err WordsFault.Usage → (line : Line)
        → Tells (map (λ word. string_bytes word) words.now) line → ⊥ }
{
    if has_empty(words) {
        return Err(WordsFault::Usage);
    }
    let command = command(alloc)?;
    match command.try_get_matches_from(words) {
        Ok(matches) => match found(alloc, &matches) {
            Ok(heard) => Ok(heard),
            Err(_) => Err(WordsFault::NoMemory),
        },
        Err(error) => match error.kind() {
            ErrorKind::OutOfMemory => Err(WordsFault::NoMemory),
            _ => Err(WordsFault::Usage),
        },
    }
}
