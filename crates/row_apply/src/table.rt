//! What the table of a change says of it.
ghost use Rattle.std.specs.Prelude.{◌≡◌, List as Items, Some, IfOk, option_copied};
ghost use Rattle.std.specs.Option.{option_map};
ghost use Rattle.val_types.specs.declared.change.Change.TheVariants.{Insert};
ghost use Rattle.val_types.specs.Keys.{primary_key};
ghost use Rattle.auto_inc.specs.declared.counters.Counter.{Counter};
ghost use Rattle.table_rules.specs.Stored.{row_at, table_named};
ghost use Rattle.table_rules.specs.Tables.{Table};
ghost use Rattle.event_codec.specs.Event.{map_of};
ghost use Rattle.apply_model.specs.Rows.{counters_moved};
ghost use Rattle.row_apply.specs.Changes.{definition_of, is_row, raised_to, table_code};

use crate::columns::matches;
use event_codec::MapView;
use row_store::Tables;
use std::alloc::Global;
use val_types::{
    Bytes, Change, NoMemory, Row, SqlError, TableDef, Value, key_cmp, key_of, value_at,
};

/// There is no such table (ER_NO_SUCH_TABLE).
const NO_SUCH_TABLE: SqlError = 1146;

/// The columns of a map and of its table differ (this project's number).
const COLUMNS_DIFFER: SqlError = 30010;

/// The definition of the table of a name.
#[tactic(auto, using(crate::proofs::Named::definition_there, crate::proofs::Named::no_definition))]
fn definition_named<'a>(tables: &'a Tables, name: &Bytes) -> Option<&'a TableDef>
    ensures { option_copied result ≡ option_map definition_of (table_named name.now tables.now.tables) }
{
    match tables.place(name) {
        Some(at) => tables.definition(at),
        None => None,
    }
}

/// Why the table of a change does not take it, whatever its rows: 1146, 30010.
#[tactic(auto, using(crate::proofs::Named::code_there, crate::proofs::Named::code_nowhere))]
pub(crate) fn table_refusal(tables: &Tables, map: &MapView, change: &Change) -> Option<SqlError>
    ensures { result ≡ table_code (map_of map.now) tables.now.tables change.now }
{
    match definition_named(tables, change.table()) {
        Some(definition) => {
            if matches(map, definition, change) {
                None
            } else {
                Some(COLUMNS_DIFFER)
            }
        }
        None => Some(NO_SUCH_TABLE),
    }
}

/// The primary key of a row in the table of a name.
#[tactic(auto, using(crate::proofs::Named::its_definition))]
pub(crate) fn key_in(
    alloc: Global,
    tables: &Tables,
    name: &Bytes,
    row: &Row,
) -> Result<Row, NoMemory>
    ensures { (table : Table) → table_named name.now tables.now.tables ≡ Some table → IfOk result (λ key. key ≡ primary_key table.definition row.now) }
{
    match definition_named(tables, name) {
        Some(definition) => key_of(alloc, definition, row),
        None => Ok(Row::new(alloc)),
    }
}

/// Whether the row of a key is there with just these values.
pub(crate) fn is_there(tables: &Tables, name: &Bytes, key: &Row, row: &Row) -> bool
    ensures { result ≡ is_row (row_at name.now key.now tables.now.tables) row.now }
{
    match tables.get(name, key) {
        Some(found) => key_cmp(row, found).is_eq(),
        None => false,
    }
}

/// The value of a row to which it raises the counter of its table: -1 where the AUTO_INCREMENT column has no number,
/// which raises none, and None where there is no such column.
#[tactic(auto, using(crate::proofs::Raising::raising_none, crate::proofs::Raising::raising_nothing, crate::proofs::Raising::raising_value))]
pub(crate) fn auto_value(tables: &Tables, name: &Bytes, row: &Row) -> Option<i64>
    ensures { (counters : Items Counter) → raised_to name.now result counters ≡ counters_moved tables.now.tables (Insert name.now row.now) counters }
{
    let Some(definition) = definition_named(tables, name) else {
        return None;
    };
    let Some(column) = definition.auto else {
        return None;
    };
    match value_at(row, column, &Value::Null) {
        Value::Int(number) => Some(*number),
        Value::Null | Value::Text(_) => Some(-1),
    }
}
