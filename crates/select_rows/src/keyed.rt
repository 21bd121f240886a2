//! A row with what it is ordered by.

use val_types::{List, Row, Value};

/// A row that WHERE keeps, with the values of the ORDER BY items in it.
#[derive(PartialEq, Eq, Debug, Drop)]
pub struct Keyed {
    pub row: Row,
    /// The value of each ORDER BY item.
    pub by: List<Value>,
    /// Which items are descending; the same for all rows of a SELECT.
    pub down: List<bool>,
}
