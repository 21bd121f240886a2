//! Calls of `val_types` and `port_traits` with ample memory, by tables worked out by hand.
//!
//! A case is a line of a table. A function over a table says how many of its cases hold from the first on, so that a test that
//! fails tells the first one that does not. What wants memory is left out, and then the test fails.

mod changes;
mod lists;
mod rows;
mod streams;
mod values;

use std::alloc::Global;
use std::process::Abort;
use val_types::{Bytes, List, NoMemory, Row, Value};

/// A value as a table of tests holds it.
enum Part {
    Null,
    Int(i64),
    Text(&'static [u8]),
}

/// Bytes with memory of their own.
fn bytes(alloc: Global, of: &[u8]) -> Bytes {
    let mut bytes = List::new(alloc);
    let _ = bytes.extend_from_slice(of);
    bytes
}

fn value(alloc: Global, part: &Part) -> Value {
    match part {
        Part::Null => Value::Null,
        Part::Int(number) => Value::Int(*number),
        Part::Text(text) => Value::Text(bytes(alloc, *text)),
    }
}

fn row(alloc: Global, parts: &[Part]) -> Row {
    let mut values = List::new(alloc);
    for part in parts {
        let _ = values.push(value(alloc, part));
    }
    values
}

/// Whether a text is made, and is this one.
fn is_text(found: Result<Bytes, NoMemory>, wanted: &[u8]) -> bool {
    match found {
        Ok(text) => text.as_slice() == wanted,
        Err(_) => false,
    }
}

/// Expects of a table that all its cases hold.
fn expect_all(rt: &impl Abort, of: &str, held: usize, cases: usize) {
    assert_eq!(rt; held, cases, "{of}");
}
