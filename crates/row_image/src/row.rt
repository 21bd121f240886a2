//! The bytes of rows and of changes.
ghost use Rattle.std.specs.Prelude.{◌≡◌, ◌++◌, OnOk, OnErr};
ghost use Rattle.byte_fields.specs.Field.{BeginsWith};
ghost use Rattle.log_model.specs.Images.{change_bytes, IsRow, row_bytes, values_bytes};
ghost use Rattle.row_image.specs.Walk.{HasRows, types_in};

use crate::bits::put_bits;
use crate::value::put_value;
use val_types::{Bytes, Change, ColumnDef, List, NoMemory, Row};

/// Puts the values of a row at the end, each by its column's type.
fn put_values(columns: &List<ColumnDef>, row: &Row, out: &mut Bytes) -> Result<(), NoMemory>
    requires { IsRow (types_in columns.now) row.now }
    ensures ok { OnOk result (out.new ≡ out.old ++ values_bytes (types_in columns.now) row.now) }
    ensures err { OnErr result (BeginsWith out.new out.old) }
{
    for column in 0..columns.len() {
        put_value(columns[column].kind, &row[column], out)?;
    }
    Ok(())
}

/// Puts a row of a table with these columns at the end: a bit for each column, and the values that are
/// not NULL.
#[tactic(auto, using(byte_fields::proofs::FieldLaws::begins_more), unfolding(log_model::specs::Images::row_bytes))]
pub fn put_row(columns: &List<ColumnDef>, row: &Row, out: &mut Bytes) -> Result<(), NoMemory>
    requires { IsRow (types_in columns.now) row.now }
    ensures ok { OnOk result (out.new ≡ out.old ++ row_bytes (types_in columns.now) row.now) }
    ensures err { OnErr result (BeginsWith out.new out.old) }
{
    put_bits(row.as_slice(), out)?;
    put_values(columns, row, out)
}

/// Puts the row of a change, or the pair of rows, at the end.
#[tactic(auto, using(byte_fields::proofs::FieldLaws::begins_more))]
pub fn put_change(
    columns: &List<ColumnDef>,
    change: &Change,
    out: &mut Bytes,
) -> Result<(), NoMemory>
    requires { HasRows (types_in columns.now) change.now }
    ensures ok { OnOk result (out.new ≡ out.old ++ change_bytes (types_in columns.now) change.now) }
    ensures err { OnErr result (BeginsWith out.new out.old) }
{
    match change {
        Change::Insert { row, .. } => put_row(columns, row.get(), out),
        Change::Update { before, after, .. } => {
            put_row(columns, before.get(), out)?;
            put_row(columns, after.get(), out)
        }
        Change::Delete { row, .. } => put_row(columns, row.get(), out),
    }
}
