//! Whether a log can carry an item. In a run it can: definitions come from statements that were read, rows fit their tables,
//! and the numbers of a context are those that events have.
ghost use Rattle.std.specs.Prelude.{◌≡◌, ◌<◌, ◌^◌, [], ◌∷◌, map};
ghost use Rattle.std.specs.Bool.{OnTrue};
ghost use Rattle.log_entry_laws.specs.log_model.Images.{IsChange, IsRow};
ghost use Rattle.log_entry_laws.specs.log_model.Items.{AreTypes, CanCarry, CanCarryAll, columns_in, kind_of, rows_kind_of};
ghost use Rattle.binlog_items.specs.Logged.{HasRows, IsLogged};
ghost use Rattle.row_laws.specs.row_events.Tables.{columns_seen};
ghost use Rattle.row_laws.specs.Laws.{AreNamed};
ghost use Rattle.val_types.specs.Changes.{table_of};

use crate::texts::can_carry_text;
use log_entry_laws::log_entries::Item;
use sharing::Shared;
use val_types::{Bytes, Change, ColType, ColumnDef, List, Row, TableDef, row_fits};

/// The greatest length of a name of a table.
const LONGEST_NAME: usize = 64;

/// Whether the greatest length of a text fits two bytes, as it always does.
fn is_short(kind: &ColType) -> bool
    ensures { OnTrue result (AreTypes (kind.now ∷ [])) }
{
    match kind {
        ColType::Varchar(most) => u32::from(*most) < 0x10000,
        ColType::Int | ColType::BigInt => true,
    }
}

/// Whether those of all columns do.
fn are_types(columns: &[ColumnDef]) -> bool
    ensures { OnTrue result (AreTypes (map kind_of columns.now)) }
{
    for column in columns {
        if !is_short(&column.kind) {
            return false;
        }
    }
    true
}

/// Whether a row can be written.
fn is_row(columns: &List<ColumnDef>, row: &Row) -> bool
    requires { AreTypes (map kind_of columns.now) }
    ensures { OnTrue result (IsRow (map kind_of columns.now) row.now) }
{
    row_fits(columns, row)
}

/// Whether the rows of a change of a table with these columns can be written.
fn is_change(columns: &List<ColumnDef>, change: &Change) -> bool
    requires { AreTypes (map kind_of columns.now) }
    ensures { OnTrue result (IsChange (rows_kind_of change.now) (table_of change.now) (map kind_of columns.now) change.now) }
{
    match change {
        Change::Insert { row, .. } | Change::Delete { row, .. } => is_row(columns, row.get()),
        Change::Update { before, after, .. } => {
            is_row(columns, before.get()) && is_row(columns, after.get())
        }
    }
}

/// The columns of a table by its definition.
fn columns_of<'a>(defs: &'a [Shared<TableDef>], name: &Bytes) -> Option<&'a List<ColumnDef>>
    ensures { columns_seen result ≡ columns_in defs.now name.now }
{
    for definition in defs {
        let table = definition.get();
        if table.name == *name {
            return Some(&table.columns);
        }
    }
    None
}

/// Whether a change can be carried beside the definition of its table.
fn can_carry(defs: &List<Shared<TableDef>>, change: &Change) -> bool
    ensures { OnTrue result (CanCarry defs.now change.now) }
{
    let Some(columns) = columns_of(defs.as_slice(), change.table()) else {
        return false;
    };
    columns.len() > 0 && are_types(columns.as_slice()) && is_change(columns, change)
}

/// Whether all changes can be.
fn can_carry_all(defs: &List<Shared<TableDef>>, changes: &[Change]) -> bool
    ensures { OnTrue result (CanCarryAll defs.now changes.now) }
{
    for change in changes {
        if !can_carry(defs, change) {
            return false;
        }
    }
    true
}

/// Whether no name of a table is too long.
fn are_named(defs: &[Shared<TableDef>]) -> bool
    ensures { OnTrue result (AreNamed defs.now) }
{
    for definition in defs {
        if definition.get().name.len() > LONGEST_NAME {
            return false;
        }
    }
    true
}

/// A fact of two numbers: they have 32 bits.
pub(crate) fn have_words(first: u32, second: u32)
    ensures first { first < 2 ^ 32 }
    ensures second { second < 2 ^ 32 }
{
    let _ = (first, second);
}

/// Whether a log can carry an item by its rows, of which there are some.
fn has_rows(item: &Item) -> bool
    ensures { OnTrue result (HasRows item.now) }
{
    if item.changes.len() == 0 || !are_named(item.defs.as_slice()) {
        return false;
    }
    can_carry_all(&item.defs, item.changes.as_slice())
}

/// Whether a log can carry an item, by its rows or by its text.
pub(crate) fn is_logged(item: &Item) -> bool
    ensures { OnTrue result (IsLogged item.now) }
{
    have_words(item.carried.stamp, item.carried.connection);
    if item.rows {
        has_rows(item)
    } else {
        can_carry_text(&item.text, &item.carried)
    }
}
