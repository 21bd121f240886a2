//! Calls of the crates of values and rows, by hand.
//!
//! A case is a line of a table. A function over a table says how many of its cases hold from the first on, so that a test that
//! fails tells the first one that does not. What wants memory is left out, and then the test fails.

mod changes;
mod functions;
mod operators;
mod selecting;
mod storing;
mod undoing;

use std::alloc::Global;
use std::process::Abort;
use val_types::{Bytes, List, SqlError, SqlRefusal, Value};

/// A value, or the number of an error, as a table of tests holds it.
enum Part {
    Null,
    Int(i64),
    Text(&'static [u8]),
    Error(SqlError),
}

/// Bytes with memory of their own.
fn bytes(alloc: Global, of: &[u8]) -> Bytes {
    let mut bytes = List::new(alloc);
    let _ = bytes.extend_from_slice(of);
    bytes
}

/// A value; an error counts as NULL.
fn value(alloc: Global, part: &Part) -> Value {
    match part {
        Part::Int(number) => Value::Int(*number),
        Part::Text(text) => Value::Text(bytes(alloc, *text)),
        _ => Value::Null,
    }
}

/// Values, one after the other; or a row of them.
fn values(alloc: Global, parts: &[Part]) -> List<Value> {
    let mut values = List::new(alloc);
    for part in parts {
        let _ = values.push(value(alloc, part));
    }
    values
}

/// One number.
fn number(alloc: Global, of: i64) -> List<Value> {
    let mut values = List::new(alloc);
    let _ = values.push(Value::Int(of));
    values
}

/// Whether a value is a part.
fn is_value(found: &Value, part: &Part) -> bool {
    match part {
        Part::Null => matches!(found, Value::Null),
        Part::Int(number) => matches!(found, Value::Int(own) if *own == *number),
        Part::Text(bytes) => matches!(found, Value::Text(own) if own.as_slice() == *bytes),
        Part::Error(_) => false,
    }
}

/// Whether an error is a part.
fn is_error(found: SqlError, part: &Part) -> bool {
    matches!(part, Part::Error(code) if *code == found)
}

/// Whether an outcome is a part.
fn is_outcome(found: &Result<Value, SqlError>, part: &Part) -> bool {
    match found {
        Ok(value) => is_value(value, part),
        Err(code) => is_error(*code, part),
    }
}

/// Whether an outcome is a part, where memory may run out.
fn is_answer(found: &Result<Value, SqlRefusal>, part: &Part) -> bool {
    match found {
        Ok(value) => is_value(value, part),
        Err(SqlRefusal::Sql(code)) => is_error(*code, part),
        Err(SqlRefusal::NoMemory) => false,
    }
}

/// Expects of a table that all its cases hold.
fn expect_all(rt: &impl Abort, of: &str, held: usize, cases: usize) {
    assert_eq!(rt; held, cases, "{of}");
}
