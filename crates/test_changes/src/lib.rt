//! Callers of `dml_rows`, as a test of how little proof its relation asks of the crates above.
//!
//! Rows are inserted, replaced and deleted in loops inside loops, with an exit at the first refusal, and
//! taken back to where they began. Two loops have an invariant of one line; nothing else has a proof file.
//!
//! # Proved
//! - [`change_each`], [`change_often`]: what was changed leads on from the beginning, at every exit
//! - [`change_or_not`]: where there is an error, the tables and the list of changes are as before, and at
//!   every exit what was changed leads on
//! - [`change_beside`]: whatever another does over the rows that are there to stay, what was shown is shown
//!   again then
#![tactic(auto, using(table_rules::proofs::Leading::leading))]

ghost use Rattle.std.specs.Prelude.{◌≡◌, OnErr};
ghost use Rattle.table_rules.specs.Leads.{Leads};

use dml_rows::{delete_row_at, insert_row_at, take_back_to, update_row_at};
use row_store::{RowRefusal, Tables};
use sharing::Shared;
use std::alloc::Global;
use undo_log::Undo;
use val_types::{Duplicate, List, NoMemory, Row};

/// Inserts a row, if it fits.
fn insert_fitting(
    alloc: Global,
    tables: &mut Tables,
    undo: &mut Undo,
    at: usize,
    row: &Row,
) -> Result<(), RowRefusal>
    ensures { Leads tables.old undo.old tables.new undo.new }
{
    let row = Shared::new(alloc, row.duplicate(alloc)?)?;
    if !tables.fits_at(at, row.get()) {
        return Err(RowRefusal::Absent);
    }
    insert_row_at(tables, undo, at, row)
}

/// Replaces the row of a key, if it is there and the other one fits.
fn update_fitting(
    alloc: Global,
    tables: &mut Tables,
    undo: &mut Undo,
    at: usize,
    key: &Row,
    row: &Row,
) -> Result<(), RowRefusal>
    ensures { Leads tables.old undo.old tables.new undo.new }
{
    if tables.get_at(at, key).is_none() {
        return Ok(());
    }
    let row = Shared::new(alloc, row.duplicate(alloc)?)?;
    if !tables.fits_at(at, row.get()) {
        return Err(RowRefusal::Absent);
    }
    update_row_at(tables, undo, at, key, row)
}

/// Inserts each row, replaces the row of a key by it, and deletes the row of the key, up to the first
/// refusal.
pub fn change_each(
    alloc: Global,
    tables: &mut Tables,
    undo: &mut Undo,
    at: usize,
    key: &Row,
    rows: &List<Row>,
) -> Result<(), RowRefusal>
    ensures { Leads tables.old undo.old tables.new undo.new }
{
    for row in rows.as_slice() {
        insert_fitting(alloc, tables, undo, at, row)?;
        update_fitting(alloc, tables, undo, at, key, row)?;
        delete_row_at(tables, undo, at, key)?;
    }
    Ok(())
}

/// Does so for each of some keys.
pub fn change_often(
    alloc: Global,
    tables: &mut Tables,
    undo: &mut Undo,
    at: usize,
    keys: &List<Row>,
    rows: &List<Row>,
) -> Result<(), RowRefusal>
    ensures { Leads tables.old undo.old tables.new undo.new }
{
    for key in keys.as_slice() {
        change_each(alloc, tables, undo, at, key, rows)?;
    }
    Ok(())
}

/// Does so, or leaves all as it was.
pub fn change_or_not(
    alloc: Global,
    tables: &mut Tables,
    undo: &mut Undo,
    at: usize,
    keys: &List<Row>,
    rows: &List<Row>,
) -> Result<(), RowRefusal>
    ensures leads { Leads tables.old undo.old tables.new undo.new }
    ensures tables { OnErr result (tables.new.tables ≡ tables.old.tables) }
    ensures changes { OnErr result (undo.new ≡ undo.old) }
{
    let mark = undo.mark();
    match change_often(alloc, tables, undo, at, keys, rows) {
        Ok(()) => Ok(()),
        Err(refusal) => {
            take_back_to(tables, undo, mark);
            Err(refusal)
        }
    }
}

/// Does so over the rows that are there to stay, beside what is shown, and shows that again.
pub fn change_beside(
    alloc: Global,
    tables: &mut Tables,
    at: usize,
    keys: &List<Row>,
    rows: &List<Row>,
) -> Result<(), NoMemory>
    ensures tables { tables.new.tables ≡ tables.old.tables }
    ensures kept { tables.new.kept ≡ tables.old.kept }
    ensures committed { tables.new.committed ≡ tables.old.committed }
{
    let aside = tables.set_aside()?;
    let mut undo = Undo::new(alloc);
    let _ = change_often(alloc, tables, &mut undo, at, keys, rows);
    tables.put_back(aside);
    Ok(())
}
