//! How many bytes values, rows and changes have, at most the greatest number of 64 bits.
ghost use Rattle.std.specs.Prelude.{◌≡◌, length, map};
ghost use Rattle.log_model.specs.Images.{change_bytes, row_bytes, value_bytes, values_bytes};
ghost use Rattle.log_model.specs.Items.{kind_of};
ghost use Rattle.val_types.specs.declared.definitions.ColType.TheVariants.{Varchar};
ghost use Rattle.val_types.specs.declared.value.Value.TheVariants.{Text};
ghost use Rattle.row_events.specs.Sizes.{bounded};

use val_types::{Bytes, Change, ColType, ColumnDef, Value};

/// How many bytes a text has behind its length, in a column of texts of at most so many bytes.
#[tactic(auto, unfolding(byte_fields::specs::Field::number_bytes))]
fn text_size(most: u16, text: &Bytes) -> u64
    ensures { result ≡ bounded (length (value_bytes (Varchar most) (Text text.now))) }
{
    let count = text.len() as u64;
    if most <= 255 {
        count.saturating_add(1)
    } else {
        count.saturating_add(2)
    }
}

/// How many bytes a value has in a column of a type.
#[tactic(auto, unfolding(byte_fields::specs::Field::number_bytes))]
fn value_size(kind: ColType, value: &Value) -> u64
    ensures { result ≡ bounded (length (value_bytes kind value.now)) }
{
    match (kind, value) {
        (_, Value::Null) => 0,
        (ColType::Int, Value::Int(_)) => 4,
        (ColType::BigInt, Value::Int(_)) => 8,
        (ColType::Varchar(most), Value::Text(text)) => text_size(most, text),
        (ColType::Int | ColType::BigInt, Value::Text(_)) | (ColType::Varchar(_), Value::Int(_)) =>
            0,
    }
}

/// How many bytes the values of a row have.
fn values_size(columns: &[ColumnDef], row: &[Value]) -> u64
    ensures { result ≡ bounded (length (values_bytes (map kind_of columns.now) row.now)) }
{
    let mut size: u64 = 0;
    for place in 0..columns.len().min(row.len()) {
        size = size.saturating_add(value_size(columns[place].kind, &row[place]));
    }
    size
}

/// How many bytes a row has.
#[tactic(auto, unfolding(log_model::specs::Images::row_bytes))]
fn row_size(columns: &[ColumnDef], row: &[Value]) -> u64
    ensures { result ≡ bounded (length (row_bytes (map kind_of columns.now) row.now)) }
{
    (row.len().div_ceil(8) as u64).saturating_add(values_size(columns, row))
}

/// How many bytes the row of a change has, or the pair of rows.
pub fn change_size(columns: &[ColumnDef], change: &Change) -> u64
    ensures { result ≡ bounded (length (change_bytes (map kind_of columns.now) change.now)) }
{
    match change {
        Change::Insert { row, .. } => row_size(columns, row.get().as_slice()),
        Change::Update { before, after, .. } => {
            let size = row_size(columns, before.get().as_slice());
            size.saturating_add(row_size(columns, after.get().as_slice()))
        }
        Change::Delete { row, .. } => row_size(columns, row.get().as_slice()),
    }
}
