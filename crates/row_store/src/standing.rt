//! Rows that stand just so: held, replaced and taken out.
ghost use Rattle.std.specs.Prelude.{◌≡◌, ℕ, Some, true, false, option_copied, slice_get, Err, IfSome, List, OnOk};
ghost use Rattle.std.specs.Option.{option_map};
ghost use Rattle.val_types.specs.Fitting.{row_fits};
ghost use Rattle.val_types.specs.Keys.{primary_key};
ghost use Rattle.table_rules.specs.Stored.{row_at};
ghost use Rattle.table_rules.specs.Stores.{definitions_of, fits_at, keeps, place_of, IsWhole, KeepsAll, Still};
ghost use Rattle.table_sheet.specs.Pages.{has_entry, rows_on, Stays};
ghost use Rattle.row_store.specs.Shelves.{Deleted, Replaced};
ghost use Rattle.row_store.specs.Stores.{exchange, is_standing, removal, Stores};
ghost use Rattle.row_store.specs.declared.refusal.RowRefusal.TheVariants.{Absent};

use crate::refusal::{RowRefusal, told};
use crate::shelf::Shelf;
use crate::tables::Tables;
use sharing::Shared;
use std::alloc::Global;
use val_types::{Bytes, Row};

impl Shelf {
    /// Replaces a row that stands just so.
    fn replace(&mut self, alloc: Global, old: &Row, new: Shared<Row>) -> Result<(), RowRefusal>
        requires { row_fits self.old.sheet.definition.columns new ≡ true }
        ensures there { is_standing self.old.sheet.definition old.now (rows_on self.old.sheet) ≡ true
            → Replaced result self.old.sheet.definition (primary_key self.old.sheet.definition old.now) new
            (rows_on self.old.sheet) (rows_on self.new.sheet) }
        ensures absent { is_standing self.old.sheet.definition old.now (rows_on self.old.sheet) ≡ false
            → (result ≡ Err Absent) × (rows_on self.new.sheet ≡ rows_on self.old.sheet) }
        ensures before { OnOk result (has_entry (primary_key self.old.sheet.definition old.now) self.new.sheet ≡ true) }
        ensures entry { OnOk result (has_entry (primary_key self.old.sheet.definition new) self.new.sheet ≡ true) }
        ensures stays { Stays self.old.sheet self.new.sheet }
    {
        told(self.sheet.replace_same(alloc, old, new))
    }

    /// Takes a row out that stands just so.
    fn remove(&mut self, alloc: Global, row: &Row) -> Result<(), RowRefusal>
        ensures there { is_standing self.old.sheet.definition row.now (rows_on self.old.sheet) ≡ true
            → Deleted result self.old.sheet.definition (primary_key self.old.sheet.definition row.now)
            (rows_on self.old.sheet) (rows_on self.new.sheet) }
        ensures absent { is_standing self.old.sheet.definition row.now (rows_on self.old.sheet) ≡ false
            → (result ≡ Err Absent) × (rows_on self.new.sheet ≡ rows_on self.old.sheet) }
        ensures before { OnOk result (has_entry (primary_key self.old.sheet.definition row.now) self.new.sheet ≡ true) }
        ensures stays { Stays self.old.sheet self.new.sheet }
    {
        told(self.sheet.remove_same(alloc, row))
    }
}

impl Tables {
    /// The name of the table at a place, if there is one, for the changes of its rows.
    pub fn name_at(&self, at: usize) -> Option<&Shared<Bytes>>
        ensures is { option_copied result
            ≡ option_map (λ definition. definition.name) (slice_get (definitions_of self.now.tables) at) }
        ensures place { IfSome (option_copied result) (λ name. place_of name self.now.tables ≡ Some at) }
        ensures whole { IsWhole self.now }
    {
        if at >= self.shelves.len() {
            return None;
        }
        Some(&self.shelves[at].name)
    }

    /// The row of a primary key in the table at a place, as the table holds it.
    pub fn held_at(&self, at: usize, key: &Row) -> Option<&Shared<Row>>
        ensures { (name : List ℕ) → place_of name self.now.tables ≡ Some at
            → option_copied result ≡ row_at name key.now self.now.tables }
    {
        if at >= self.shelves.len() {
            return None;
        }
        self.shelves[at].sheet.get(key)
    }

    /// Replaces a row that stands just so in the table at a place; Absent where it does not. Keys of the row
    /// itself are in no way of the new one.
    pub fn replace_at(&mut self, at: usize, old: &Row, new: Shared<Row>) -> Result<(), RowRefusal>
        requires { fits_at at new self.old.tables ≡ true }
        ensures stored { (name : List ℕ) → place_of name self.old.tables ≡ Some at
            → Stores result (exchange name old.now new self.old.tables) self.old.tables self.new.tables }
        ensures kept { (name : List ℕ) → place_of name self.old.tables ≡ Some at
            → OnOk result (keeps self.new name new ≡ true) }
        ensures before { (name : List ℕ) → place_of name self.old.tables ≡ Some at
            → OnOk result (keeps self.new name old.now ≡ true) }
        ensures keys { KeepsAll self.old self.new }
        ensures still { Still self.old self.new }
    {
        if at >= self.shelves.len() {
            return Err(RowRefusal::Absent);
        }
        self.shelves[at].replace(self.alloc, old, new)
    }

    /// Takes a row that stands just so out of the table at a place; Absent where it does not.
    pub fn remove_at(&mut self, at: usize, row: &Row) -> Result<(), RowRefusal>
        ensures stored { (name : List ℕ) → place_of name self.old.tables ≡ Some at
            → Stores result (removal name row.now self.old.tables) self.old.tables self.new.tables }
        ensures before { (name : List ℕ) → place_of name self.old.tables ≡ Some at
            → OnOk result (keeps self.new name row.now ≡ true) }
        ensures keys { KeepsAll self.old self.new }
        ensures still { Still self.old self.new }
    {
        if at >= self.shelves.len() {
            return Err(RowRefusal::Absent);
        }
        self.shelves[at].remove(self.alloc, row)
    }
}
