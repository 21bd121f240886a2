//! What the words ask for.
ghost use Rattle.std.specs.Prelude.{◌≡◌, ◌≢◌, [], IfOk, None, codes, map, string_bytes};
ghost use Rattle.std.specs.Option.{option_map, unwrap_or};
ghost use Rattle.std.specs.Str.{bytes_eq};
ghost use Rattle.clap.specs.Words.{found_of, kind_of, matched_of, raw_values};
ghost use Rattle.program_words.specs.Words.{node_named, number_asked, pair_asked, word_asked, word_named, words_asked};

use crate::command::positional_words;
use crate::numbers::number_to;
use clap::error::ErrorKind;
use clap::{ArgMatches, Error};
use std::alloc::{AllocError, Global};
use val_types::NoMemory;

/// What the program can be asked for: to carry out a script; to carry out a log; to show a log; to show what the source's or the replica's
/// store has; to write the made script of so many lines.
#[derive(Clone, Copy)]
pub enum Word {
    Run,
    Replay,
    Print,
    DumpSource,
    DumpReplica,
    Gen(u32),
}

/// The greatest number of lines of a made script.
const LINES: u32 = 100_000;

/// What one word alone asks for.
fn word_named(word: &str) -> Option<Word>
    ensures { result ≡ word_named word.now }
{
    if word == "run" {
        Some(Word::Run)
    } else if word == "replay" {
        Some(Word::Replay)
    } else if word == "print" {
        Some(Word::Print)
    } else {
        None
    }
}

/// What a word with a number behind it asks for.
fn number_asked(word: &str, digits: &str) -> Option<Word>
    ensures { result ≡ number_asked word.now digits.now }
{
    if word == "gen" {
        Some(Word::Gen(number_to(LINES, digits)?))
    } else {
        None
    }
}

/// Whose tables `dump` shows.
fn node_named(name: &str) -> Option<Word>
    ensures { result ≡ node_named name.now }
{
    if name == "source" {
        Some(Word::DumpSource)
    } else if name == "replica" {
        Some(Word::DumpReplica)
    } else {
        None
    }
}

/// What two words ask for.
fn pair_asked(word: &str, more: &str) -> Option<Word>
    ensures { result ≡ pair_asked word.now more.now }
{
    if word == "dump" {
        node_named(more)
    } else {
        number_asked(word, more)
    }
}

/// What words ask for of which none is a `--` that does not count.
fn words_asked(words: &[&str]) -> Option<Word>
    ensures { result ≡ words_asked (map (λ word. word.now) words.now) }
{
    match words {
        [word] => word_named(word),
        [word, more] => pair_asked(word, more),
        _ => None,
    }
}

/// What the words ask for that were found.
fn found(matches: &ArgMatches) -> Option<Word>
    ensures { result ≡ words_asked (unwrap_or (option_map raw_values (matched_of (found_of matches.now) (codes "words"))) []) }
{
    match matches.get_strs("words") {
        Some(words) => words_asked(words),
        None => None,
    }
}

/// What words ask for that the command does not take, unless memory was short: nothing.
fn refused(error: &Error) -> Result<Option<Word>, NoMemory>
    ensures { IfOk result (λ asked. (asked ≡ None) × (kind_of error.now ≢ ErrorKind.OutOfMemory)) }
{
    if error.kind() == ErrorKind::OutOfMemory {
        Err(AllocError)
    } else {
        Ok(None)
    }
}

/// What the words ask for.
pub fn asked_word(alloc: Global, words: &[String]) -> Result<Option<Word>, NoMemory>
    ensures { IfOk result (λ asked. asked ≡ word_asked (map string_bytes words.now)) }
{
    match positional_words(alloc)?.try_get_matches_from(words) {
        Ok(matches) => Ok(found(&matches)),
        Err(error) => refused(&error),
    }
}
