//! Rows of tables by the tables' names.

use crate::refusal::RowRefusal;
use crate::tables::Tables;
use sharing::Shared;
use val_types::{Bytes, Duplicate, List, NoMemory, Row};

impl Tables {
    ghost use Rattle.std.specs.Prelude.{◌≡◌, true, Some, option_copied, IfOk, List, OnOk};
    ghost use Rattle.val_types.specs.declared.value.Value.{Value};
    ghost use Rattle.table_rules.specs.Stored.{deletion, fits_table, insertion, keys_at, replacement, row_at};
    ghost use Rattle.table_rules.specs.Stores.{keeps, KeepsAll, Still};
    ghost use Rattle.row_store.specs.Stores.{Stores};

    /// The row of a primary key in a table, None where there is no such row or table.
    pub fn get(&self, table: &Bytes, key: &Row) -> Option<&Row>
        ensures { option_copied result ≡ row_at table.now key.now self.now.tables }
    {
        match self.place(table) {
            Some(at) => self.get_at(at, key),
            None => None,
        }
    }

    /// The primary keys of a table's rows, in the order of the rows; none where there is no such table.
    pub fn keys(&self, table: &Bytes) -> Result<List<Row>, NoMemory>
        ensures { IfOk result (λ keys. keys ≡ keys_at table.now self.now.tables) }
    {
        match self.place(table) {
            Some(at) => self.shelves[at].sheet.keys(self.alloc),
            None => Ok(List::new(self.alloc)),
        }
    }

    /// Whether a row fits a table; it does where there is no such table.
    pub fn fits(&self, table: &Bytes, row: &Row) -> bool
        ensures { result ≡ fits_table table.now row.now self.now.tables }
    {
        match self.place(table) {
            Some(at) => self.fits_at(at, row),
            None => true,
        }
    }

    /// Inserts a row. Absent where there is no such table.
    pub fn insert(&mut self, table: &Bytes, row: Shared<Row>) -> Result<(), RowRefusal>
        requires { fits_table table.now row self.old.tables ≡ true }
        ensures stored { Stores result (insertion table.now row self.old.tables)
            self.old.tables self.new.tables }
        ensures kept { OnOk result (keeps self.new table.now row ≡ true) }
        ensures keys { KeepsAll self.old self.new }
        ensures still { Still self.old self.new }
    {
        match self.place(table) {
            Some(at) => self.insert_at(at, row),
            None => Err(RowRefusal::Absent),
        }
    }

    /// Replaces the row of a key.
    pub fn update(&mut self, table: &Bytes, key: &Row, row: Shared<Row>) -> Result<(), RowRefusal>
        requires { fits_table table.now row self.old.tables ≡ true }
        ensures stored { Stores result (replacement table.now key.now row self.old.tables)
            self.old.tables self.new.tables }
        ensures kept { OnOk result (keeps self.new table.now row ≡ true) }
        ensures before { OnOk result ((before : List Value)
            → row_at table.now key.now self.old.tables ≡ Some before
            → keeps self.new table.now before ≡ true) }
        ensures keys { KeepsAll self.old self.new }
        ensures still { Still self.old self.new }
    {
        match self.place(table) {
            Some(at) => self.update_at(at, key, row),
            None => Err(RowRefusal::Absent),
        }
    }

    /// Takes the row of a key out, and hands out a copy of it.
    pub fn delete(&mut self, table: &Bytes, key: &Row) -> Result<Row, RowRefusal>
        ensures stored { Stores result (deletion table.now key.now self.old.tables)
            self.old.tables self.new.tables }
        ensures row { IfOk result (λ row. row_at table.now key.now self.old.tables ≡ Some row) }
        ensures kept { IfOk result (λ row. keeps self.new table.now row ≡ true) }
        ensures keys { KeepsAll self.old self.new }
        ensures still { Still self.old self.new }
    {
        let Some(at) = self.place(table) else {
            return Err(RowRefusal::Absent);
        };
        let row = match self.get_at(at, key) {
            Some(row) => row.duplicate(self.alloc)?,
            None => return Err(RowRefusal::Absent),
        };
        match self.delete_at(at, key) {
            Ok(()) => Ok(row),
            Err(refusal) => Err(refusal),
        }
    }
}
