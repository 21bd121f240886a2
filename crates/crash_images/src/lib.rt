//! What four crashes leave of the files of a disk in memory, for tests.
//!
//! A crash leaves a file as it was at its last sync, and of what was written since then any bytes: [`Crash`] names four cases. [`image`]
//! makes one file so, of the bytes that it had and of the calls that came, and [`disk_left`] the disk that comes up with them.
//!
//! This crate stands on `disk_model`; tests of stores and of the program stand on it.
//!
//! # Proved
//! - [`disk_left`] is settled: nothing has been written to it yet. Which bytes are left is not proved here: tests say what they come to.
#![tactic(auto)]

ghost use Rattle.std.specs.Prelude.{Some, IfSome};
ghost use Rattle.disk_model.specs.Files.{story_of};
ghost use Rattle.disk_model.specs.Moments.{IsSettled};

use disk_model::{Call, MemDisk};
use std::alloc::Global;
use val_types::{Bytes, List};

/// What a crash leaves of what was written since the last sync: nothing, all, the front half of each piece, or other bytes.
#[derive(Clone, Copy)]
pub enum Crash {
    Nothing,
    All,
    Half,
    Garbage,
}

/// All four.
pub static CRASHES: [Crash; 4] = [Crash::Nothing, Crash::All, Crash::Half, Crash::Garbage];

static GARBAGE: [u8; 256] = [0xff; 256];

/// Bytes with memory of their own. What wants memory is left out, and then a test fails.
fn bytes(alloc: Global, of: &[u8]) -> Bytes {
    let mut bytes = List::new(alloc);
    let _ = bytes.extend_from_slice(of);
    bytes
}

/// What is left of a piece.
fn left_of(crash: Crash, piece: &[u8]) -> &[u8] {
    match crash {
        Crash::Nothing => &[],
        Crash::All => piece,
        Crash::Half => &piece[..piece.len() / 2],
        Crash::Garbage => &GARBAGE[..piece.len().min(256)],
    }
}

/// A piece over what stands from a place on.
fn over(alloc: Global, contents: &[u8], at: u64, piece: &[u8]) -> Bytes {
    let at = at.min(contents.len() as u64) as usize;
    let mut new = bytes(alloc, &contents[..at]);
    let _ = new.extend_from_slice(piece);
    let rest = &contents[at..];
    if piece.len() < rest.len() {
        let _ = new.extend_from_slice(&rest[piece.len()..]);
    }
    new
}

/// What a crash leaves of a file that had these bytes, after these calls: what was written before its last sync, and of the rest as the
/// crash has it. A write that failed has begun.
pub fn image(alloc: Global, first: &[u8], calls: &[Call], of: u32, crash: Crash) -> Bytes {
    let mut now = bytes(alloc, first);
    let mut left = bytes(alloc, first);
    for call in calls {
        match call {
            Call::Write {
                file,
                at,
                piece,
                done,
            } => {
                if *file == of {
                    left = over(
                        alloc,
                        left.as_slice(),
                        *at,
                        left_of(crash, piece.as_slice()),
                    );
                    if *done {
                        now = over(alloc, now.as_slice(), *at, piece.as_slice());
                    }
                }
            }
            Call::Sync { file, done } => {
                if *file == of && *done {
                    left = bytes(alloc, now.as_slice());
                }
            }
            _ => {}
        }
    }
    left
}

/// The files that a crash leaves of these, by their numbers, after these calls, as many as there are.
pub fn files_left(alloc: Global, first: &[Bytes], calls: &[Call], crash: Crash) -> List<Bytes> {
    let mut files = List::new(alloc);
    let mut of: u32 = 0;
    for had in first {
        let _ = files.push(image(alloc, had.as_slice(), calls, of, crash));
        of = of.saturating_add(1);
    }
    files
}

/// So many files without bytes.
pub fn no_files(alloc: Global, count: u32) -> List<Bytes> {
    let mut files = List::new(alloc);
    for _ in 0..count {
        let _ = files.push(List::new(alloc));
    }
    files
}

/// The disk that comes up with these files; none where memory was short.
pub fn disk_left(alloc: Global, files: &[Bytes]) -> Option<MemDisk>
    ensures { IfSome result (λ d. IsSettled (Some (story_of d))) }
{
    let mut own = List::new(alloc);
    for file in files {
        let _ = own.push(bytes(alloc, file.as_slice()));
    }
    MemDisk::with_files(alloc, own).ok()
}
