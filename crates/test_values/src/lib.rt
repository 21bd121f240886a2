//! Callers of `val_types`, as a test of how little proof its lists ask of the crates above; the tests
//! of that crate and of `port_traits`.
//!
//! Loops, chains, indexing, comparing, copying and moving to and from vectors, each in a small
//! function with an exact contract. Two loops have an invariant of one line; nothing else has a
//! proof file.
//!
//! - `tests`: calls of `val_types` and `port_traits` with ample memory
//!
//! # Proved
//! Each function by one equation, or want of memory.
//!
//! # Only tested
//! Texts, orders, fitting, keys, inverses, copies and refusals of `val_types`, by hand; streams and
//! environments of `port_traits`, in memory and over the runtime.
#![tactic(auto)]

ghost use Rattle.std.specs.Prelude.{◌≡◌, ◌^◌, ◌<◌, ◌++◌, ◌∷◌, [], length, IfOk, sum_by, slice_get, slice_index_or, option_copied, IsTrue, IsPermutation, ◌↔◌, reverse};
ghost use Rattle.test_values.specs.Rows.{widths};

use std::alloc::Global;
use std::cmp::Ordering;
use val_types::{Bytes, Duplicate, List, NoMemory, Row, Value, key_cmp};

#[cfg(test)]
mod tests;

/// How many values there are, by a loop.
pub fn width(rows: &List<Row>) -> usize
    requires { widths rows.now < 2 ^ 64 }
    ensures { result ≡ widths rows.now }
{
    let mut all = 0usize;
    for row in rows.as_slice() {
        all += row.len();
    }
    all
}

/// The same by a chain.
pub fn width_by_chain(rows: &List<Row>) -> usize
    requires { sum_by length rows.now < 2 ^ 64 }
    ensures { result ≡ sum_by length rows.now }
{
    rows.as_slice().iter().map(|row| row.len()).sum()
}

/// The value at a place of a row that is there.
pub fn value_at(rows: &List<Row>, row: usize, column: usize) -> Option<&Value>
    requires { row < length rows.now }
    ensures { option_copied result ≡ slice_get (slice_index_or rows.now row []) column }
{
    rows[row].get(column)
}

/// Whether the first value is NULL, by an index.
pub fn begins_with_null(row: &Row) -> bool
    requires { 0 < length row.now }
    ensures { IsTrue result ↔ (slice_get row.now 0 ≡ Some Value.Null) }
{
    row[0] == Value::Null
}

/// A row with one more value, moved.
pub fn longer(mut row: Row, value: Value) -> Result<Row, NoMemory>
    ensures { IfOk result (λ longer. longer ≡ row ++ value ∷ []) }
{
    row.push(value)?;
    Ok(row)
}

/// The values from the last to the first, taken apart and put together.
pub fn backwards(alloc: Global, mut row: Row) -> Result<Row, NoMemory>
    ensures { IfOk result (λ turned. turned ≡ reverse row) }
{
    let mut turned = List::new(alloc);
    while let Some(value) = row.pop() {
        turned.push(value)?;
    }
    Ok(turned)
}

/// Equal rows, with memory of their own.
pub fn copies(alloc: Global, rows: &List<Row>) -> Result<List<Row>, NoMemory>
    ensures { IfOk result (λ same. same ≡ rows.now) }
{
    rows.duplicate(alloc)
}

/// Whether two rows are equal.
pub fn same_key(a: &Row, b: &Row) -> bool
    ensures { IsTrue result ↔ (a.now ≡ b.now) }
{
    key_cmp(a, b) == Ordering::Equal
}

/// The bytes in their order, by way of a vector.
pub fn in_order(bytes: Bytes) -> Result<Bytes, NoMemory>
    ensures same { IfOk result (λ sorted. IsPermutation bytes sorted) }
{
    let mut bytes = bytes.into_vec();
    bytes.sort()?;
    Ok(List::from_vec(bytes))
}

/// The bytes of two lists, one behind the other.
pub fn joined(mut front: Bytes, back: &Bytes) -> Result<Bytes, NoMemory>
    ensures { IfOk result (λ both. both ≡ front ++ back.now) }
{
    front.extend_from_slice(back.as_slice())?;
    Ok(front)
}
