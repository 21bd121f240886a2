//! Lists of words, and what they ask for.

use program_words::{Word, asked_word};
use std::alloc::Global;

/// Words that ask for something: its name, and the number behind it, 0 where there is none.
static ACCEPTED: [(&[&str], &str, u32); 18] = [
    (&["run"], "run", 0),
    (&["replay"], "replay", 0),
    (&["print"], "print", 0),
    (&["--", "run"], "run", 0),
    (&["run", "--"], "run", 0),
    (&["--", "replay"], "replay", 0),
    (&["print", "--"], "print", 0),
    (&["dump", "source"], "dump source", 0),
    (&["dump", "replica"], "dump replica", 0),
    (&["--", "dump", "replica"], "dump replica", 0),
    (&["dump", "--", "source"], "dump source", 0),
    (&["gen", "1"], "gen", 1),
    (&["gen", "4"], "gen", 4),
    (&["gen", "99999"], "gen", 99_999),
    (&["gen", "100000"], "gen", 100_000),
    (&["--", "gen", "4"], "gen", 4),
    (&["gen", "--", "4"], "gen", 4),
    (&["gen", "4", "--"], "gen", 4),
];

/// Words beside these, which ask for nothing.
static REFUSED: [&[&str]; 68] = [
    &[],
    &[""],
    &["", ""],
    &["--"],
    &["--", "--"],
    &["--", "--", "run"],
    &["--", "run", "--"],
    &["run", "--", "--"],
    &["-", "run"],
    &["---", "run"],
    &["--", ""],
    &["Run"],
    &["RUN"],
    &["ru"],
    &["runs"],
    &["run "],
    &[" run"],
    &["-run"],
    &["--run"],
    &["run="],
    &["run", ""],
    &["", "run"],
    &["run", "fast"],
    &["run", "run"],
    &["run", "1"],
    &["run", "-x"],
    &["run", "--x"],
    &["replay", "print"],
    &["print", "log"],
    &["log"],
    &["help"],
    &["--help"],
    &["-h"],
    &["run", "--help"],
    &["--version"],
    &["-V"],
    &["dump"],
    &["dump", "both"],
    &["dump", "Source"],
    &["dump", ""],
    &["dump", "4"],
    &["dump", "source", "replica"],
    &["source"],
    &["source", "dump"],
    &["export", "1"],
    &["chain"],
    &["load", "4"],
    &["gen"],
    &["gen", ""],
    &["gen", "--"],
    &["gen", "0"],
    &["gen", "00"],
    &["gen", "01"],
    &["gen", "100001"],
    &["gen", "4294967300"],
    &["gen", "18446744073709551620"],
    &["gen", "+4"],
    &["gen", "-4"],
    &["--", "gen", "-4"],
    &["gen", "4 "],
    &["gen", "4x"],
    &["gen", "0x4"],
    &["gen", "4.0"],
    &["gen", "4", "4"],
    &["gen", "4", "run"],
    &["gen", "--", "--", "4"],
    &["gen4"],
    &["gen=4"],
];

/// Words as they come from the command line. One that wants memory is left out, and then a test fails.
fn strings(alloc: Global, words: &[&str]) -> Vec<String> {
    let mut strings = Vec::new(alloc);
    for word in words {
        if let Ok(word) = String::from_str(alloc, *word) {
            let _ = strings.push(word);
        }
    }
    strings
}

/// What words ask for, as a name and a number; no name where they ask for nothing, and `?` where memory was short.
fn asked(alloc: Global, words: &[&str]) -> (&'static str, u32) {
    match asked_word(alloc, strings(alloc, words).as_slice()) {
        Ok(None) => ("", 0),
        Ok(Some(Word::Run)) => ("run", 0),
        Ok(Some(Word::Replay)) => ("replay", 0),
        Ok(Some(Word::Print)) => ("print", 0),
        Ok(Some(Word::DumpSource)) => ("dump source", 0),
        Ok(Some(Word::DumpReplica)) => ("dump replica", 0),
        Ok(Some(Word::Gen(number))) => ("gen", number),
        Err(_) => ("?", 0),
    }
}

/// How many lists ask for what they should, from the first on.
fn held_accepted(alloc: Global) -> usize {
    for (i, (words, name, number)) in ACCEPTED.iter().enumerate() {
        if asked(alloc, *words) != (*name, *number) {
            return i;
        }
    }
    ACCEPTED.len()
}

/// How many ask for nothing, from the first on.
fn held_refused(alloc: Global) -> usize {
    for (i, words) in REFUSED.iter().enumerate() {
        if asked(alloc, *words) != ("", 0) {
            return i;
        }
    }
    REFUSED.len()
}

#[test]
fn lists_of_words(rt: HostRuntime) {
    assert_eq!(rt; held_accepted(rt.alloc()), ACCEPTED.len());
    assert_eq!(rt; held_refused(rt.alloc()), REFUSED.len());
}
