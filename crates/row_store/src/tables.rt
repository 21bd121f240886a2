//! The tables with their rows, by their places.

use crate::named::shelf_of;
use crate::refusal::RowRefusal;
use crate::shelf::Shelf;
use sharing::Shared;
use std::alloc::Global;
use std::marker::Model;
use val_types::{Bytes, Change, Duplicate, NoMemory, Row, TableDef};

/// The tables with their rows, no two of the same name. A table's place is good while no table is made or
/// dropped.
#[derive(Drop)]
pub struct Tables {
    pub(crate) alloc: Global,
    pub(crate) shelves: Vec<Shelf>,
}

impl Model for Tables {
    ghost use Rattle.std.specs.Prelude.{IsTrue};
    ghost use Rattle.table_rules.specs.Stores.{Store, names_differ};

    ghost Value = { Store };

    ghost use Rattle.row_store.specs.Shelves.{definitions_on, store_of};

    ghost view = { λ t. store_of t.shelves.items };

    ghost invariant = { λ t. IsTrue (names_differ (definitions_on t.shelves.items)) };
}

impl Tables {
    ghost use Rattle.std.specs.Prelude.{◌≡◌, ℕ, ◌++◌, ◌∷◌, [], true, None, Some, option_copied, slice_get, IfSome, IsSome, List, OnErr, OnOk};
    ghost use Rattle.val_types.specs.declared.value.Value.{Value};
    ghost use Rattle.val_types.specs.Changes.{inverse};
    ghost use Rattle.table_rules.specs.Changes.{applied};
    ghost use Rattle.table_rules.specs.Stored.{deletion, insertion, replacement, row_at, table_named, tables_beside, tables_cleared};
    ghost use Rattle.table_rules.specs.Stores.{definitions_of, fits_at, keeps, keeps_put, place_of, IsWhole, KeepsAll, KeepsBeside, KeepsSame, Still};
    ghost use Rattle.row_store.specs.Stores.{Stores};

    /// No table, which takes no memory.
    pub fn new(alloc: Global) -> Tables
        ensures { result ≡ record { tables = []; kept = []; committed = []; room = [] } }
    {
        Tables {
            alloc,
            shelves: Vec::new(alloc),
        }
    }

    /// The place of a table, None where there is no such table.
    pub fn place(&self, table: &Bytes) -> Option<usize>
        ensures { result ≡ place_of table.now self.now.tables }
    {
        shelf_of(&self.shelves, table)
    }

    /// The definition of the table at a place, if there is one.
    pub fn definition(&self, at: usize) -> Option<&TableDef>
        ensures is { option_copied result ≡ slice_get (definitions_of self.now.tables) at }
        ensures place { IfSome (option_copied result) (λ definition. place_of definition.name self.now.tables ≡ Some at) }
        ensures whole { IsWhole self.now }
    {
        if at >= self.shelves.len() {
            return None;
        }
        Some(self.shelves[at].sheet.definition())
    }

    /// The same definition, for those who hold it on while rows change.
    pub fn shared_definition(&self, at: usize) -> Option<&Shared<TableDef>>
        ensures { option_copied result ≡ slice_get (definitions_of self.now.tables) at }
    {
        if at >= self.shelves.len() {
            return None;
        }
        Some(self.shelves[at].sheet.shared_definition())
    }

    /// The row of a primary key in the table at a place, None where there is no such row.
    pub fn get_at(&self, at: usize, key: &Row) -> Option<&Row>
        ensures { (name : List ℕ) → place_of name self.now.tables ≡ Some at
            → option_copied result ≡ row_at name key.now self.now.tables }
    {
        match self.held_at(at, key) {
            Some(row) => Some(row.get()),
            None => None,
        }
    }

    /// Whether a row fits the table at a place; it does where there is no table.
    pub fn fits_at(&self, at: usize, row: &Row) -> bool
        ensures { result ≡ fits_at at row.now self.now.tables }
    {
        if at >= self.shelves.len() {
            return true;
        }
        self.shelves[at].sheet.fits(row)
    }

    /// Inserts a row into the table at a place. The primary key is looked at first, then the unique keys in
    /// order of definition. Absent where there is no table.
    pub fn insert_at(&mut self, at: usize, row: Shared<Row>) -> Result<(), RowRefusal>
        requires { fits_at at row self.old.tables ≡ true }
        ensures stored { (name : List ℕ) → place_of name self.old.tables ≡ Some at
            → Stores result (insertion name row self.old.tables) self.old.tables self.new.tables }
        ensures kept { (name : List ℕ) → place_of name self.old.tables ≡ Some at
            → OnOk result (keeps self.new name row ≡ true) }
        ensures keys { KeepsAll self.old self.new }
        ensures still { Still self.old self.new }
    {
        if at >= self.shelves.len() {
            return Err(RowRefusal::Absent);
        }
        self.shelves[at].insert(self.alloc, row)
    }

    /// Replaces the row of a key in the table at a place. Keys of the row itself are in no way of it.
    pub fn update_at(&mut self, at: usize, key: &Row, row: Shared<Row>) -> Result<(), RowRefusal>
        requires { fits_at at row self.old.tables ≡ true }
        ensures stored { (name : List ℕ) → place_of name self.old.tables ≡ Some at
            → Stores result (replacement name key.now row self.old.tables) self.old.tables self.new.tables }
        ensures kept { (name : List ℕ) → place_of name self.old.tables ≡ Some at
            → OnOk result (keeps self.new name row ≡ true) }
        ensures before { (name : List ℕ) → place_of name self.old.tables ≡ Some at
            → OnOk result ((before : List Value)
            → row_at name key.now self.old.tables ≡ Some before → keeps self.new name before ≡ true) }
        ensures keys { KeepsAll self.old self.new }
        ensures still { Still self.old self.new }
    {
        if at >= self.shelves.len() {
            return Err(RowRefusal::Absent);
        }
        self.shelves[at].update(self.alloc, key, row)
    }

    /// Takes the row of a key out of the table at a place.
    pub fn delete_at(&mut self, at: usize, key: &Row) -> Result<(), RowRefusal>
        ensures stored { (name : List ℕ) → place_of name self.old.tables ≡ Some at
            → Stores result (deletion name key.now self.old.tables) self.old.tables self.new.tables }
        ensures before { (name : List ℕ) → place_of name self.old.tables ≡ Some at
            → OnOk result ((before : List Value)
            → row_at name key.now self.old.tables ≡ Some before → keeps self.new name before ≡ true) }
        ensures keys { KeepsAll self.old self.new }
        ensures still { Still self.old self.new }
    {
        if at >= self.shelves.len() {
            return Err(RowRefusal::Absent);
        }
        self.shelves[at].delete(self.alloc, key)
    }

    /// Takes a change back, without memory.
    pub fn take_back(&mut self, change: Change)
        requires step { IsSome (applied (inverse change) self.old.tables) }
        requires kept { keeps_put self.old (inverse change) ≡ true }
        ensures tables { applied (inverse change) self.old.tables ≡ Some self.new.tables }
        ensures keys { KeepsSame self.old self.new }
        ensures still { Still self.old self.new }
        ensures whole { IsWhole self.new }
    {
        if let Some(at) = self.place(change.table()) {
            self.shelves[at].take_back(change);
        }
    }

    /// Adds a table without rows.
    pub fn create(&mut self, definition: &TableDef) -> Result<(), NoMemory>
        requires { table_named definition.now.name self.old.tables ≡ None }
        ensures ok { OnOk result (self.new.tables
            ≡ self.old.tables ++ record { definition = definition.now; rows = [] } ∷ []) }
        ensures committed { OnOk result (self.new.committed
            ≡ self.old.committed ++ record { definition = definition.now; rows = [] } ∷ []) }
        ensures err { OnErr result (self.new ≡ self.old) }
        ensures keys { KeepsAll self.old self.new }
    {
        let name = Shared::new(self.alloc, definition.name.duplicate(self.alloc)?)?;
        let definition = Shared::new(self.alloc, definition.duplicate(self.alloc)?)?;
        let shelf = Shelf::new(self.alloc, name, definition);
        self.shelves.push(shelf)?;
        Ok(())
    }

    /// Drops a table with its rows.
    pub fn drop_table(&mut self, table: &Bytes)
        ensures tables { self.new.tables ≡ tables_beside table.now self.old.tables }
        ensures committed { self.new.committed ≡ tables_beside table.now self.old.committed }
        ensures gone { table_named table.now self.new.tables ≡ None }
        ensures keys { KeepsBeside table.now self.old self.new }
    {
        if let Some(at) = self.place(table) {
            self.shelves.remove(at);
        }
    }

    /// Drops the rows of a table.
    pub fn clear(&mut self, table: &Bytes)
        ensures tables { self.new.tables ≡ tables_cleared table.now self.old.tables }
        ensures committed { self.new.committed ≡ tables_cleared table.now self.old.committed }
        ensures keys { KeepsBeside table.now self.old self.new }
    {
        if let Some(at) = self.place(table) {
            self.shelves[at].clear(self.alloc);
        }
    }

    /// Makes the rows that are shown those that are there to stay, and lets the keys go that are kept for changes
    /// to be taken back. It takes no memory.
    pub fn tidy(&mut self)
        ensures tables { self.new.tables ≡ self.old.tables }
        ensures committed { self.new.committed ≡ self.new.tables }
        ensures whole { IsWhole self.new }
    {
        for i in 0..self.shelves.len() {
            self.shelves[i].tidy(self.alloc);
        }
    }
}
