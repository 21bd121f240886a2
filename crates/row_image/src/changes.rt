//! The changes that the rows of an event are.
ghost use Rattle.std.specs.Prelude.{◌≡◌, ◌*◌, ◌≤◌, length, IfOk};
ghost use Rattle.event_codec.specs.Event.{map_of, rows_of, value_of};
ghost use Rattle.log_model.specs.Images.{change_at, changes_of, map_types, row_at, values_at};
ghost use Rattle.row_image.specs.Walk.{change_seen, one_at, row_seen};

use crate::column::{behind_type, column_type, read_column};
use event_codec::{MapView, RowsKind, RowsView, VarValue};
use sharing::Shared;
use std::alloc::Global;
use val_types::{Bytes, Change, List, NoMemory, Row, Value};

/// A value apart from the bytes that it was read from.
fn kept(alloc: Global, value: &VarValue) -> Result<Value, NoMemory>
    ensures { IfOk result (λ v. v ≡ value_of value.now) }
{
    match value {
        VarValue::Null => Ok(Value::Null),
        VarValue::Int(number) => Ok(Value::Int(*number)),
        VarValue::Text(text) => Ok(Value::Text(Bytes::from_slice(alloc, text)?)),
    }
}

/// The values of a row with these bits, and what is behind them.
#[tactic(auto, using(crate::proofs::Columns::value_step))]
fn read_values<'a>(
    alloc: Global,
    map: &MapView,
    nulls: &[u8],
    bytes: &'a [u8],
) -> Result<Option<(Row, &'a [u8])>, NoMemory>
    requires { length map.now.kinds.now ≤ 8 * length nulls.now }
    ensures { IfOk result (λ o. row_seen o ≡ values_at (map_types (map_of map.now)) nulls.now 0 bytes.now) }
{
    let mut row = Row::with_capacity(alloc, map.kinds.len())?;
    let mut metadata = map.metadata;
    let mut rest = bytes;
    let mut column = 0;
    for kind in map.kinds {
        match read_column(column_type(*kind, metadata), nulls, column, rest) {
            Some((value, next)) => {
                row.push(kept(alloc, &value)?)?;
                rest = next;
            }
            None => return Ok(None),
        }
        metadata = behind_type(*kind, metadata);
        column += 1;
    }
    Ok(Some((row, rest)))
}

/// A row, which changes share, and what is behind it.
#[tactic(auto, using(crate::proofs::Columns::as_many_types), unfolding(log_model::specs::Images::row_at))]
fn read_row<'a>(
    alloc: Global,
    map: &MapView,
    bytes: &'a [u8],
) -> Result<Option<(Shared<Row>, &'a [u8])>, NoMemory>
    ensures { IfOk result (λ o. row_seen o ≡ row_at (map_types (map_of map.now)) bytes.now) }
{
    let size = map.kinds.len().div_ceil(8);
    if map.kinds.is_empty() || bytes.len() < size {
        return Ok(None);
    }
    let (nulls, rest) = bytes.split_at(size);
    match read_values(alloc, map, nulls, rest)? {
        Some((row, behind)) => Ok(Some((Shared::new(alloc, row)?, behind))),
        None => Ok(None),
    }
}

/// A change of a row of the map's table, whose name is shared, and what is behind it.
fn read_one<'a>(
    alloc: Global,
    inserted: bool,
    table: &Shared<Bytes>,
    map: &MapView,
    bytes: &'a [u8],
) -> Result<Option<(Change, &'a [u8])>, NoMemory>
    requires { table.now ≡ map.now.name.now }
    ensures { IfOk result (λ o. change_seen o ≡ one_at inserted map.now.name.now (map_types (map_of map.now)) bytes.now) }
{
    let Some((row, rest)) = read_row(alloc, map, bytes)? else {
        return Ok(None);
    };
    let table = table.share()?;
    let change = if inserted {
        Change::Insert { table, row }
    } else {
        Change::Delete { table, row }
    };
    Ok(Some((change, rest)))
}

/// A change of a pair of rows, and what is behind it.
fn read_pair<'a>(
    alloc: Global,
    table: &Shared<Bytes>,
    map: &MapView,
    bytes: &'a [u8],
) -> Result<Option<(Change, &'a [u8])>, NoMemory>
    requires { table.now ≡ map.now.name.now }
    ensures { IfOk result (λ o. change_seen o ≡ change_at RowsKind.Update map.now.name.now (map_types (map_of map.now)) bytes.now) }
{
    let Some((before, middle)) = read_row(alloc, map, bytes)? else {
        return Ok(None);
    };
    let Some((after, rest)) = read_row(alloc, map, middle)? else {
        return Ok(None);
    };
    let table = table.share()?;
    let change = Change::Update {
        table,
        before,
        after,
    };
    Ok(Some((change, rest)))
}

/// A change of a kind, and what is behind it.
fn read_change<'a>(
    alloc: Global,
    kind: RowsKind,
    table: &Shared<Bytes>,
    map: &MapView,
    bytes: &'a [u8],
) -> Result<Option<(Change, &'a [u8])>, NoMemory>
    requires { table.now ≡ map.now.name.now }
    ensures { IfOk result (λ o. change_seen o ≡ change_at kind map.now.name.now (map_types (map_of map.now)) bytes.now) }
{
    match kind {
        RowsKind::Write => read_one(alloc, true, table, map, bytes),
        RowsKind::Update => read_pair(alloc, table, map, bytes),
        RowsKind::Delete => read_one(alloc, false, table, map, bytes),
    }
}

/// The changes that the rows of an event are, which share the name of their table; where not all of its
/// bytes are rows, those of the rows in front.
pub fn rows_of(alloc: Global, map: &MapView, event: &RowsView) -> Result<List<Change>, NoMemory>
    ensures { IfOk result (λ cs. cs ≡ changes_of (map_of map.now) (rows_of event.now)) }
{
    let table = Shared::new(alloc, Bytes::from_slice(alloc, map.name)?)?;
    let mut changes = List::new(alloc);
    let mut rest = event.rows;
    while let [_, ..] = rest {
        match read_change(alloc, event.kind, &table, map, rest)? {
            Some((change, next)) => {
                changes.push(change)?;
                rest = next;
            }
            None => return Ok(changes),
        }
    }
    Ok(changes)
}
