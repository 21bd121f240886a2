//! One row stored in the table of a name, with its change noted.
ghost use Rattle.std.specs.Prelude.{◌≡◌, true};
ghost use Rattle.table_rules.specs.Stored.{deletion, fits_table, insertion, replacement};
ghost use Rattle.table_rules.specs.Leads.{Leads};
ghost use Rattle.row_store.specs.Stores.{Stores};
ghost use Rattle.dml_rows.specs.Noted.{Notes};

use crate::storing::{delete_row_at, insert_row_at, update_row_at};
use row_store::{RowRefusal, Tables};
use sharing::Shared;
use undo_log::Undo;
use val_types::{Bytes, Row};

/// Inserts a row.
#[tactic(auto, using(crate::proofs::Noting::nothing_leads))]
pub fn insert_row(
    tables: &mut Tables,
    undo: &mut Undo,
    table: &Bytes,
    row: Shared<Row>,
) -> Result<(), RowRefusal>
    requires { fits_table table.now row tables.old.tables ≡ true }
    ensures stored { Stores result (insertion table.now row tables.old.tables)
        tables.old.tables tables.new.tables }
    ensures noted { Notes result (insertion table.now row tables.old.tables) undo.old undo.new }
    ensures leads { Leads tables.old undo.old tables.new undo.new }
{
    match tables.place(table) {
        Some(at) => insert_row_at(tables, undo, at, row),
        None => Err(RowRefusal::Absent),
    }
}

/// Replaces the row of a key.
#[tactic(auto, using(crate::proofs::Noting::nothing_leads))]
pub fn update_row(
    tables: &mut Tables,
    undo: &mut Undo,
    table: &Bytes,
    key: &Row,
    row: Shared<Row>,
) -> Result<(), RowRefusal>
    requires { fits_table table.now row tables.old.tables ≡ true }
    ensures stored { Stores result (replacement table.now key.now row tables.old.tables)
        tables.old.tables tables.new.tables }
    ensures noted { Notes result (replacement table.now key.now row tables.old.tables)
        undo.old undo.new }
    ensures leads { Leads tables.old undo.old tables.new undo.new }
{
    match tables.place(table) {
        Some(at) => update_row_at(tables, undo, at, key, row),
        None => Err(RowRefusal::Absent),
    }
}

/// Deletes the row of a key.
#[tactic(auto, using(crate::proofs::Noting::nothing_leads))]
pub fn delete_row(
    tables: &mut Tables,
    undo: &mut Undo,
    table: &Bytes,
    key: &Row,
) -> Result<(), RowRefusal>
    ensures stored { Stores result (deletion table.now key.now tables.old.tables)
        tables.old.tables tables.new.tables }
    ensures noted { Notes result (deletion table.now key.now tables.old.tables)
        undo.old undo.new }
    ensures leads { Leads tables.old undo.old tables.new undo.new }
{
    match tables.place(table) {
        Some(at) => delete_row_at(tables, undo, at, key),
        None => Err(RowRefusal::Absent),
    }
}
