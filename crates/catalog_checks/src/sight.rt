//! The tables whose rows an expression sees.
ghost use Rattle.std.specs.Prelude.{◌≡◌};
ghost use Rattle.std.specs.List.{list_any};
ghost use Rattle.std.specs.Option.{option_copied};
ghost use Rattle.catalog_objects.specs.Keys.{objects_of};
ghost use Rattle.catalog_objects.specs.catalog_rules.Checks.{row_has_column, has_column, is_known_column, is_known_inserted, table_has_column};
ghost use Rattle.catalog_objects.specs.catalog_rules.Ranks.{has_table};
ghost use Rattle.catalog_checks.specs.Asking.{sight_of};

use catalog_objects::Objects;
use val_types::{Bytes, TableDef};

/// What an expression sees of rows, kept on the stack: the innermost table first.
#[derive(Clone, Copy)]
pub enum Sight<'a> {
    /// No row.
    Nothing,
    /// The row of one table.
    Only(&'a Bytes),
    /// Behind ON DUPLICATE KEY UPDATE of a table: its row, and the one that was to be inserted.
    Update(&'a Bytes),
    /// A row of one more table.
    Row(&'a Bytes, &'a Sight<'a>),
}

/// Whether there is a table of a name.
pub(crate) fn has_table(objects: &Objects, table: &Bytes) -> bool
    ensures { result ≡ has_table (objects_of objects.now) table.now }
{
    objects.table(table).is_some()
}

/// Whether a table has a column of a name.
pub(crate) fn has_column(column: &Bytes, definition: &TableDef) -> bool
    ensures { result ≡ has_column column.now definition.now }
{
    for own in definition.columns.as_slice() {
        if *column == own.name {
            return true;
        }
    }
    false
}

/// Whether a row that is there has a column.
pub(crate) fn row_has_column(column: &Bytes, row: Option<&TableDef>) -> bool
    ensures { result ≡ row_has_column column.now (option_copied row.entry) }
{
    match row {
        Some(definition) => has_column(column, definition),
        None => false,
    }
}

/// Whether a table of a name is there and has a column.
pub(crate) fn table_has_column(objects: &Objects, column: &Bytes, table: &Bytes) -> bool
    ensures { result ≡ table_has_column (objects_of objects.now) column.now table.now }
{
    match objects.table(table) {
        Some(definition) => has_column(column, definition),
        None => false,
    }
}

/// Whether a table in view has a column.
pub(crate) fn is_in_view(objects: &Objects, column: &Bytes, sight: &Sight<'_>) -> bool
    ensures { result ≡ list_any (table_has_column (objects_of objects.now) column.now) (sight_of sight.now).tables }
{
    match sight {
        Sight::Nothing => false,
        Sight::Only(table) => table_has_column(objects, column, table),
        Sight::Update(table) => table_has_column(objects, column, table),
        Sight::Row(table, outer) => {
            table_has_column(objects, column, table) || is_in_view(objects, column, outer)
        }
    }
}

/// Whether the innermost table in view of a name has a column.
pub(crate) fn is_known_column(
    objects: &Objects,
    sight: &Sight<'_>,
    table: &Bytes,
    column: &Bytes,
) -> bool
    ensures { result ≡ is_known_column (objects_of objects.now) (sight_of sight.now) table.now column.now }
{
    match sight {
        Sight::Nothing => false,
        Sight::Only(own) => *table == **own && table_has_column(objects, column, own),
        Sight::Update(own) => *table == **own && table_has_column(objects, column, own),
        Sight::Row(own, outer) => {
            if *table == **own {
                table_has_column(objects, column, own)
            } else {
                is_known_column(objects, outer, table, column)
            }
        }
    }
}

/// Whether a row is to be inserted and its table has a column.
pub(crate) fn is_known_inserted(objects: &Objects, sight: &Sight<'_>, column: &Bytes) -> bool
    ensures { result ≡ is_known_inserted (objects_of objects.now) (sight_of sight.now) column.now }
{
    match sight {
        Sight::Nothing | Sight::Only(_) => false,
        Sight::Update(table) => table_has_column(objects, column, table),
        Sight::Row(_, outer) => is_known_inserted(objects, outer, column),
    }
}
