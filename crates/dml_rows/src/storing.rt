//! One row stored in the table at a place, with its change noted.
ghost use Rattle.std.specs.Prelude.{◌≡◌, ℕ, ◌++◌, ◌∷◌, [], true, List, Some};
ghost use Rattle.val_types.specs.declared.change.Change.{Change};
ghost use Rattle.table_rules.specs.Stored.{deletion, insertion, replacement};
ghost use Rattle.table_rules.specs.Stores.{fits_at, place_of};
ghost use Rattle.table_rules.specs.Leads.{Leads};
ghost use Rattle.row_store.specs.Stores.{Stores};
ghost use Rattle.dml_rows.specs.Noted.{Notes};

use row_store::{RowRefusal, Tables};
use sharing::Shared;
use undo_log::Undo;
use val_types::{Change, Row};

/// Inserts a row into the table at a place.
#[tactic(auto, using(crate::proofs::Noting::nothing_leads, crate::proofs::Noting::unchanged_leads))]
pub fn insert_row_at(
    tables: &mut Tables,
    undo: &mut Undo,
    at: usize,
    row: Shared<Row>,
) -> Result<(), RowRefusal>
    requires { fits_at at row tables.old.tables ≡ true }
    ensures stored { (name : List ℕ) → place_of name tables.old.tables ≡ Some at
        → Stores result (insertion name row tables.old.tables) tables.old.tables tables.new.tables }
    ensures noted { (name : List ℕ) → place_of name tables.old.tables ≡ Some at
        → Notes result (insertion name row tables.old.tables) undo.old undo.new }
    ensures leads { Leads tables.old undo.old tables.new undo.new }
{
    let Some(name) = tables.name_at(at) else {
        return Err(RowRefusal::Absent);
    };
    let change = Change::Insert {
        table: name.share()?,
        row: row.share()?,
    };
    undo.push(change)?;
    match tables.insert_at(at, row) {
        Ok(()) => Ok(()),
        Err(refusal) => {
            forget(undo);
            Err(refusal)
        }
    }
}

/// Replaces the row of a key in the table at a place.
#[tactic(auto, using(crate::proofs::Noting::nothing_leads, crate::proofs::Noting::unchanged_leads))]
pub fn update_row_at(
    tables: &mut Tables,
    undo: &mut Undo,
    at: usize,
    key: &Row,
    row: Shared<Row>,
) -> Result<(), RowRefusal>
    requires { fits_at at row tables.old.tables ≡ true }
    ensures stored { (name : List ℕ) → place_of name tables.old.tables ≡ Some at
        → Stores result (replacement name key.now row tables.old.tables) tables.old.tables tables.new.tables }
    ensures noted { (name : List ℕ) → place_of name tables.old.tables ≡ Some at
        → Notes result (replacement name key.now row tables.old.tables) undo.old undo.new }
    ensures leads { Leads tables.old undo.old tables.new undo.new }
{
    let Some(name) = tables.name_at(at) else {
        return Err(RowRefusal::Absent);
    };
    let Some(before) = tables.held_at(at, key) else {
        return Err(RowRefusal::Absent);
    };
    let change = Change::Update {
        table: name.share()?,
        before: before.share()?,
        after: row.share()?,
    };
    undo.push(change)?;
    match tables.update_at(at, key, row) {
        Ok(()) => Ok(()),
        Err(refusal) => {
            forget(undo);
            Err(refusal)
        }
    }
}

/// Deletes the row of a key from the table at a place.
#[tactic(auto, using(crate::proofs::Noting::nothing_leads, crate::proofs::Noting::unchanged_leads))]
pub fn delete_row_at(
    tables: &mut Tables,
    undo: &mut Undo,
    at: usize,
    key: &Row,
) -> Result<(), RowRefusal>
    ensures stored { (name : List ℕ) → place_of name tables.old.tables ≡ Some at
        → Stores result (deletion name key.now tables.old.tables) tables.old.tables tables.new.tables }
    ensures noted { (name : List ℕ) → place_of name tables.old.tables ≡ Some at
        → Notes result (deletion name key.now tables.old.tables) undo.old undo.new }
    ensures leads { Leads tables.old undo.old tables.new undo.new }
{
    let Some(name) = tables.name_at(at) else {
        return Err(RowRefusal::Absent);
    };
    let Some(row) = tables.held_at(at, key) else {
        return Err(RowRefusal::Absent);
    };
    let change = Change::Delete {
        table: name.share()?,
        row: row.share()?,
    };
    undo.push(change)?;
    match tables.delete_at(at, key) {
        Ok(()) => Ok(()),
        Err(refusal) => {
            forget(undo);
            Err(refusal)
        }
    }
}

/// Drops the last change.
pub(crate) fn forget(undo: &mut Undo)
    ensures { (noted : List Change) → (last : Change) → undo.old ≡ noted ++ last ∷ []
        → undo.new ≡ noted }
{
    if let Some(change) = undo.pop() {
        drop(change);
    }
}
