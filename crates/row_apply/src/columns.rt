//! Whether the columns of a map and of a table are the same.
ghost use Rattle.std.specs.Prelude.{◌≡◌};
ghost use Rattle.event_codec.specs.Event.{map_of};
ghost use Rattle.apply_model.specs.log_model.Images.{map_types};
ghost use Rattle.apply_model.specs.Rows.{are_same_types, is_same_type, matches, takes_row, types_of};

use apply_model::row_image::{behind_type, column_type};
use event_codec::MapView;
use val_types::{Change, ColType, ColumnDef, List, Row, TableDef};

/// Whether two types are one, with the same greatest length where they are texts.
fn is_same_type(a: ColType, b: ColType) -> bool
    ensures { result ≡ is_same_type a b }
{
    match (a, b) {
        (ColType::Int, ColType::Int) => true,
        (ColType::BigInt, ColType::BigInt) => true,
        (ColType::Varchar(a), ColType::Varchar(b)) => a == b,
        (ColType::Int, ColType::BigInt | ColType::Varchar(_)) => false,
        (ColType::BigInt, ColType::Int | ColType::Varchar(_)) => false,
        (ColType::Varchar(_), ColType::Int | ColType::BigInt) => false,
    }
}

/// Whether the columns of a map are as many as a table's, and of the same types.
fn are_same_types(map: &MapView, definition: &TableDef) -> bool
    ensures { result ≡ are_same_types (map_types (map_of map.now)) (types_of definition.now) }
{
    let mut metadata = map.metadata;
    let mut columns = definition.columns.as_slice();
    for kind in map.kinds {
        let [column, behind @ ..] = columns else {
            return false;
        };
        if !is_same_type(column_type(*kind, metadata), column.kind) {
            return false;
        }
        metadata = behind_type(*kind, metadata);
        columns = behind;
    }
    columns.is_empty()
}

/// Whether no NULL stands in a column that takes none.
fn takes_row(columns: &List<ColumnDef>, row: &Row) -> bool
    ensures { result ≡ takes_row columns.now row.now }
{
    let mut values = row.as_slice();
    for column in columns.as_slice() {
        let [value, behind @ ..] = values else {
            return true;
        };
        if !column.nullable && value.is_null() {
            return false;
        }
        values = behind;
    }
    true
}

/// Whether a table has the columns of a change's map and takes the NULLs of its rows.
pub(crate) fn matches(map: &MapView, definition: &TableDef, change: &Change) -> bool
    ensures { result ≡ matches (map_of map.now) definition.now change.now }
{
    if !are_same_types(map, definition) {
        return false;
    }
    match change {
        Change::Insert { row, .. } => takes_row(&definition.columns, row.get()),
        Change::Update { before, after, .. } => {
            takes_row(&definition.columns, before.get())
                && takes_row(&definition.columns, after.get())
        }
        Change::Delete { row, .. } => takes_row(&definition.columns, row.get()),
    }
}
