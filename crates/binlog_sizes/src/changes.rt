//! The bytes of changes.
ghost use Rattle.std.specs.Prelude.{◌≡◌};
ghost use Rattle.row_events.specs.Sizes.{bounded};
ghost use Rattle.binlog_sizes.specs.Sizes.{change_size, changes_size, row_size, value_size};

use val_types::{Change, Row, Value};

/// How many bytes a value has.
fn value_size(value: &Value) -> u64
    ensures { result ≡ bounded (value_size value.now) }
{
    match value {
        Value::Null => 1,
        Value::Int(_) => 9,
        Value::Text(text) => (text.len() as u64).saturating_add(5),
    }
}

/// How many bytes a row has.
fn row_size(row: &Row) -> u64
    ensures { result ≡ bounded (row_size row.now) }
{
    let mut size = 1u64;
    for value in row.as_slice() {
        size = size.saturating_add(value_size(value));
    }
    size
}

/// How many bytes a change has, or the greatest number of 64 bits where it has more.
pub fn change_size(change: &Change) -> u64
    ensures { result ≡ bounded (change_size change.now) }
{
    let head = (change.table().len() as u64).saturating_add(2);
    match change {
        Change::Insert { row, .. } => head.saturating_add(row_size(row.get())),
        Change::Delete { row, .. } => head.saturating_add(row_size(row.get())),
        Change::Update { before, after, .. } => head
            .saturating_add(row_size(before.get()))
            .saturating_add(row_size(after.get())),
    }
}

/// How many bytes some changes have, or the greatest number of 64 bits where they have more.
pub fn changes_size(changes: &[Change]) -> u64
    ensures { result ≡ bounded (changes_size changes.now) }
{
    let mut size = 0u64;
    for change in changes {
        size = size.saturating_add(change_size(change));
    }
    size
}
