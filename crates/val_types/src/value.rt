//! Values, rows, and the order in which a table keeps its rows.
ghost use Rattle.std.specs.Prelude.{◌≡◌, ◌↔◌};
ghost use Rattle.std.specs.Cmp.{IsTotalOrder};
ghost use Rattle.val_types.specs.Fitting.{is_null};
ghost use Rattle.val_types.specs.Order.{key_order};

use crate::list::{Bytes, List};
use std::cmp::Ordering;

/// A value of SQL: NULL, a signed number of 64 bits, or a text of bytes.
///
/// The derived comparisons are those of keys: NULL before numbers before texts, where `==` holds
/// between two NULLs. SQL's `=` is another thing and does not stand here.
#[derive(PartialEq, Eq, PartialOrd, Ord, Debug, Drop)]
pub enum Value {
    Null,
    Int(i64),
    Text(Bytes),
}

impl Value {
    /// Whether this is NULL.
    pub fn is_null(&self) -> bool
        ensures { result ≡ is_null self.now }
    {
        matches!(self, Value::Null)
    }
}

/// The values of a row, or those of a key, in the order of the columns.
pub type Row = List<Value>;

/// How two keys stand to each other: the first two values that differ decide, NULL before numbers
/// before texts, texts byte by byte; a key that is the front of another one comes before it.
pub fn key_cmp(a: &Row, b: &Row) -> Ordering
    ensures order { result ≡ key_order a.now b.now }
    ensures equal { (result ≡ Ordering.Equal) ↔ (a.now ≡ b.now) }
{
    a.cmp(b)
}

/// A law: `key_order` is a total order. It is antisymmetric and transitive, and keys that compare
/// as equal compare alike with every other key.
pub fn key_order_is_total()
    ensures { IsTotalOrder key_order }
{}
