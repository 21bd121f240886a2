//! Rows read where they stand: all of a table, and those that have a key of another.
ghost use Rattle.std.specs.Prelude.{◌≡◌, ℕ, Some, filter, find, option_copied, IfOk, List};
ghost use Rattle.table_rules.specs.Tables.{Table};
ghost use Rattle.table_rules.specs.Stored.{has_key_in_way, key_in_way, row_in_way, rows_of, table_named};
ghost use Rattle.table_rules.specs.Stores.{place_of};
ghost use Rattle.table_sheet.specs.value_ranges.Keys.{row_is_in};
ghost use Rattle.table_sheet.specs.value_ranges.Ranges.{range_of};

use crate::tables::Tables;
use sharing::Shared;
use table_sheet::value_ranges::ValueRange;
use val_types::{List, NoMemory, Row};

impl Tables {
    /// The rows of the table at a place, in their order, each shared with the table, so that they stay what
    /// they are whatever is changed; none where there is no table.
    pub fn rows(&self, at: usize) -> Result<List<Shared<Row>>, NoMemory>
        ensures { (name : List ℕ) → place_of name self.now.tables ≡ Some at
            → IfOk result (λ rows. rows ≡ rows_of name self.now.tables) }
    {
        if at >= self.shelves.len() {
            return Ok(List::new(self.alloc));
        }
        self.shelves[at].sheet.rows(self.alloc)
    }

    /// The rows of the table at a place of which the primary keys begin in a range, in their order, each shared with the table: found
    /// by search, and walked from there to the end of the range; none where there is no table.
    pub fn rows_between(
        &self,
        at: usize,
        range: ValueRange<'_>,
    ) -> Result<List<Shared<Row>>, NoMemory>
        ensures { (name : List ℕ) → (table : Table) → place_of name self.now.tables ≡ Some at
            → table_named name self.now.tables ≡ Some table
            → IfOk result (λ rows. rows ≡ filter (row_is_in table.definition (range_of range.entry)) table.rows) }
    {
        if at >= self.shelves.len() {
            return Ok(List::new(self.alloc));
        }
        self.shelves[at].sheet.rows_between(self.alloc, range)
    }

    /// The rows of the table at a place that are there to stay, whatever is shown, in their order and shared with the
    /// table; none where there is no table.
    pub fn committed_rows(&self, at: usize) -> Result<List<Shared<Row>>, NoMemory>
        ensures { (name : List ℕ) → place_of name self.now.tables ≡ Some at
            → IfOk result (λ rows. rows ≡ rows_of name self.now.committed) }
    {
        if at >= self.shelves.len() {
            return Ok(List::new(self.alloc));
        }
        self.shelves[at].sheet.committed_rows(self.alloc)
    }

    /// The number of the first key of a row that is in its way in the table at a place: 0 is the primary
    /// key, then come the unique keys in order of definition.
    pub fn key_in_way(&self, at: usize, row: &Row) -> Option<usize>
        ensures { (name : List ℕ) → (table : Table) → place_of name self.now.tables ≡ Some at
            → table_named name self.now.tables ≡ Some table
            → result ≡ key_in_way table.definition row.now table.rows }
    {
        if at >= self.shelves.len() {
            return None;
        }
        self.shelves[at].sheet.key_in_way(row)
    }

    /// The first row of the table at a place that has the key of a number in common with a row.
    pub fn row_on_key(&self, at: usize, row: &Row, which: usize) -> Option<&Row>
        ensures { (name : List ℕ) → (table : Table) → place_of name self.now.tables ≡ Some at
            → table_named name self.now.tables ≡ Some table
            → option_copied result ≡ find (has_key_in_way table.definition row.now which) table.rows }
    {
        if at >= self.shelves.len() {
            return None;
        }
        match self.shelves[at].sheet.row_on_key(row, which) {
            Some(other) => Some(other.get()),
            None => None,
        }
    }

    /// The first row of the table at a place that has the first key in the way of a row.
    pub fn row_in_way(&self, at: usize, row: &Row) -> Option<&Row>
        ensures { (name : List ℕ) → (table : Table) → place_of name self.now.tables ≡ Some at
            → table_named name self.now.tables ≡ Some table
            → option_copied result ≡ row_in_way table.definition row.now table.rows }
    {
        match self.key_in_way(at, row) {
            Some(which) => self.row_on_key(at, row, which),
            None => None,
        }
    }
}
