//! Calls of the program one after the other, each on what the one before left of both disks.

use crash_images::{disk_left, no_files};
use program_calls::{asked, comes_to, dumped, dumped_replica, files_of, over};
use std::alloc::Global;
use val_types::{Bytes, List};

/// A call of the program: its words and its input, what it has to write, and the line that it has to end with.
#[derive(Clone, Copy)]
pub struct Turn<'a> {
    pub words: &'a str,
    pub input: &'a [u8],
    pub written: &'a str,
    pub line: &'a str,
}

/// The files of both disks.
#[derive(Drop)]
pub struct Both {
    pub source: List<Bytes>,
    pub replica: List<Bytes>,
}

/// No files yet.
pub fn no_disks(alloc: Global) -> Both {
    Both {
        source: no_files(alloc, 0),
        replica: no_files(alloc, 0),
    }
}

/// What a call leaves of both disks; none where it comes to anything else.
pub fn behind(alloc: Global, before: &Both, turn: &Turn<'_>) -> Option<Both> {
    let mut source = disk_left(alloc, before.source.as_slice())?;
    let mut replica = disk_left(alloc, before.replica.as_slice())?;
    let ended = over(
        alloc,
        &asked(turn.words, turn.input),
        &mut source,
        &mut replica,
    );
    if !comes_to(&ended, turn.written, turn.line) {
        return None;
    }
    Some(Both {
        source: files_of(alloc, &source),
        replica: files_of(alloc, &replica),
    })
}

/// What calls leave one after the other, the first of them of disks without files.
pub fn behind_all(alloc: Global, turns: &[Turn<'_>]) -> Option<Both> {
    let mut files = no_disks(alloc);
    for turn in turns {
        files = behind(alloc, &files, turn)?;
    }
    Some(files)
}

/// A script that has to end well, with these lines.
pub fn runs<'a>(script: &'a str, written: &'a str) -> Turn<'a> {
    Turn {
        words: "run",
        input: script.as_bytes(),
        written,
        line: "",
    }
}

/// A log that is replayed, with this line, and that of its status.
pub fn replays<'a>(log: &'a [u8], written: &'a str, line: &'a str) -> Turn<'a> {
    Turn {
        words: "replay",
        input: log,
        written,
        line,
    }
}

/// Whether the dump of a replica's files shows this.
pub fn shows(alloc: Global, files: &[Bytes], text: &str) -> bool {
    match dumped_replica(alloc, files) {
        Some(found) => found.as_slice() == text.as_bytes(),
        None => false,
    }
}

/// Whether both dumps show this.
pub fn both_show(alloc: Global, files: &Both, text: &str) -> bool {
    match dumped(alloc, files.source.as_slice()) {
        Some(found) => {
            found.as_slice() == text.as_bytes() && shows(alloc, files.replica.as_slice(), text)
        }
        None => false,
    }
}

/// The bytes of a file; none where there is no such file.
pub fn file(files: &List<Bytes>, number: usize) -> &[u8] {
    match files.as_slice().get(number) {
        Some(bytes) => bytes.as_slice(),
        None => &[],
    }
}
