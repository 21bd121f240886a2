//! A text read, and texts put together. What wants memory is left out, and then the test fails.
use crate::read_back;
use sql_parse::{ParseRefusal, parse};
use sql_print::print;
use sql_tree::{Stmt, depth, well};
use std::alloc::Global;
use std::process::Abort;
use val_types::{Bytes, List, NoMemory};

/// What a text is read as. No text here is as long as those that are not read.
pub fn read(alloc: Global, text: &[u8]) -> Result<Stmt, ParseRefusal> {
    if text.len() > 4_294_967_295 {
        return Err(ParseRefusal::NoMemory);
    }
    parse(alloc, text)
}

/// What the tests look at. Functions that hold what was read are over this, since the borrows of one
/// that holds a statement are dear to check.
pub trait Shown {
    /// Whether the parser can give it, and its canonical text is this one.
    fn is_printed(&self, alloc: Global, wanted: &[u8]) -> bool;

    /// How deep it is.
    fn levels(&self) -> u32;
}

/// Whether a text is made, and is this one.
fn is_text(found: Result<Bytes, NoMemory>, wanted: &[u8]) -> bool {
    match found {
        Ok(text) => text.as_slice() == wanted,
        Err(_) => false,
    }
}

/// Whether something was read, with this canonical text.
fn is_printed_as<T: Shown + Drop>(
    alloc: Global,
    answer: Result<T, ParseRefusal>,
    wanted: &[u8],
) -> bool {
    match answer {
        Ok(part) => part.is_printed(alloc, wanted),
        Err(_) => false,
    }
}

impl Shown for Stmt {
    fn is_printed(&self, alloc: Global, wanted: &[u8]) -> bool {
        well(self) && is_text(print(alloc, self), wanted)
    }

    fn levels(&self) -> u32 {
        depth(self)
    }
}

/// What can be printed and read back. It has a trait of its own, since it calls what is over [`Shown`].
trait Reread {
    /// Whether the parser can give it, and it has the same canonical text when that is read.
    fn is_read_back(&self, alloc: Global) -> bool;
}

impl Reread for Stmt {
    fn is_read_back(&self, alloc: Global) -> bool {
        if !well(self) {
            return false;
        }
        match print(alloc, self) {
            Ok(text) => is_printed_as(alloc, read_back(alloc, self), text.as_slice()),
            Err(_) => false,
        }
    }
}

/// Whether something was read, and is read back.
fn is_back<T: Reread + Drop>(alloc: Global, answer: Result<T, ParseRefusal>) -> bool {
    match answer {
        Ok(part) => part.is_read_back(alloc),
        Err(_) => false,
    }
}

/// The levels of what was read, None where a text was refused.
pub fn levels_of<T: Shown + Drop>(answer: Result<T, ParseRefusal>) -> Option<u32> {
    match answer {
        Ok(part) => Some(part.levels()),
        Err(_) => None,
    }
}

/// Whether a text is a statement, which is read back from its canonical text.
pub fn is_read_back(alloc: Global, text: &[u8]) -> bool {
    is_back(alloc, read(alloc, text))
}

/// Whether a text is a statement with this canonical text.
pub fn is_printed(alloc: Global, text: &[u8], wanted: &[u8]) -> bool {
    is_printed_as(alloc, read(alloc, text), wanted)
}

/// The byte at which something was refused, None where it was not.
fn place_of<T: Drop>(answer: Result<T, ParseRefusal>) -> Option<u32> {
    match answer {
        Err(ParseRefusal::Syntax { at }) => Some(at),
        _ => None,
    }
}

/// Whether a text is refused at this byte.
pub fn is_refused_at(alloc: Global, text: &[u8], place: usize) -> bool {
    match place_of(read(alloc, text)) {
        Some(at) => at as usize == place,
        None => false,
    }
}

/// Whether something was refused as too deep.
fn is_too_deep<T: Drop>(answer: Result<T, ParseRefusal>) -> bool {
    matches!(answer, Err(ParseRefusal::Deep))
}

/// Whether a text is refused as too deep.
pub fn is_deep(alloc: Global, text: &[u8]) -> bool {
    is_too_deep(read(alloc, text))
}

/// So many times a piece, behind a text.
pub fn push_times(text: &mut Bytes, count: u32, piece: &str) {
    for _turn in 0..count {
        let _ = text.extend_from_slice(piece.as_bytes());
    }
}

/// A text, so many times a piece, and a text.
pub fn repeated(alloc: Global, front: &str, count: u32, piece: &str, end: &str) -> Bytes {
    let mut text = List::new(alloc);
    push_times(&mut text, 1, front);
    push_times(&mut text, count, piece);
    push_times(&mut text, 1, end);
    text
}

/// Expects of a table that all its cases hold.
pub fn expect_all(rt: &impl Abort, of: &str, held: usize, cases: usize) {
    assert_eq!(rt; held, cases, "{of}");
}
