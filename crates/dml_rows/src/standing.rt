//! A row that stands just so in the table at a place, replaced or taken out with its change noted.
ghost use Rattle.std.specs.Prelude.{◌≡◌, ℕ, true, List, Some};
ghost use Rattle.table_rules.specs.Stores.{fits_at, place_of};
ghost use Rattle.table_rules.specs.Leads.{Leads};
ghost use Rattle.row_store.specs.Stores.{exchange, removal, Stores};
ghost use Rattle.dml_rows.specs.Noted.{Notes};

use crate::storing::forget;
use row_store::{RowRefusal, Tables};
use sharing::Shared;
use undo_log::Undo;
use val_types::{Change, Row};

/// Replaces a row that stands just so; Absent where it does not.
#[tactic(auto, using(crate::proofs::Noting::nothing_leads, crate::proofs::Noting::unchanged_leads))]
pub fn replace_row_at(
    tables: &mut Tables,
    undo: &mut Undo,
    at: usize,
    old: &Shared<Row>,
    new: Shared<Row>,
) -> Result<(), RowRefusal>
    requires { fits_at at new tables.old.tables ≡ true }
    ensures stored { (name : List ℕ) → place_of name tables.old.tables ≡ Some at
        → Stores result (exchange name old.now new tables.old.tables) tables.old.tables tables.new.tables }
    ensures noted { (name : List ℕ) → place_of name tables.old.tables ≡ Some at
        → Notes result (exchange name old.now new tables.old.tables) undo.old undo.new }
    ensures leads { Leads tables.old undo.old tables.new undo.new }
{
    let Some(name) = tables.name_at(at) else {
        return Err(RowRefusal::Absent);
    };
    let change = Change::Update {
        table: name.share()?,
        before: old.share()?,
        after: new.share()?,
    };
    undo.push(change)?;
    match tables.replace_at(at, old.get(), new) {
        Ok(()) => Ok(()),
        Err(refusal) => {
            forget(undo);
            Err(refusal)
        }
    }
}

/// Takes a row out that stands just so; Absent where it does not.
#[tactic(auto, using(crate::proofs::Noting::nothing_leads, crate::proofs::Noting::unchanged_leads))]
pub fn remove_row_at(
    tables: &mut Tables,
    undo: &mut Undo,
    at: usize,
    row: &Shared<Row>,
) -> Result<(), RowRefusal>
    ensures stored { (name : List ℕ) → place_of name tables.old.tables ≡ Some at
        → Stores result (removal name row.now tables.old.tables) tables.old.tables tables.new.tables }
    ensures noted { (name : List ℕ) → place_of name tables.old.tables ≡ Some at
        → Notes result (removal name row.now tables.old.tables) undo.old undo.new }
    ensures leads { Leads tables.old undo.old tables.new undo.new }
{
    let Some(name) = tables.name_at(at) else {
        return Err(RowRefusal::Absent);
    };
    let change = Change::Delete {
        table: name.share()?,
        row: row.share()?,
    };
    undo.push(change)?;
    match tables.remove_at(at, row.get()) {
        Ok(()) => Ok(()),
        Err(refusal) => {
            forget(undo);
            Err(refusal)
        }
    }
}
