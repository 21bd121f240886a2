//! How many rows a table has, and the first and the last of them.
ghost use Rattle.std.specs.Prelude.{◌≡◌, ℕ, ◌-◌, Some, option_copied, List, length, slice_get};
ghost use Rattle.table_rules.specs.Stored.{rows_of};
ghost use Rattle.table_rules.specs.Stores.{place_of};

use crate::tables::Tables;
use sharing::Shared;
use val_types::Row;

impl Tables {
    /// How many rows the table at a place has, 0 where there is no table.
    pub fn count(&self, at: usize) -> usize
        ensures { (name : List ℕ) → place_of name self.now.tables ≡ Some at
            → result ≡ length (rows_of name self.now.tables) }
    {
        if at >= self.shelves.len() {
            return 0;
        }
        self.shelves[at].sheet.count()
    }

    /// The first row of the table at a place, in the order of its primary key.
    pub fn first(&self, at: usize) -> Option<&Shared<Row>>
        ensures { (name : List ℕ) → place_of name self.now.tables ≡ Some at
            → option_copied result ≡ slice_get (rows_of name self.now.tables) 0 }
    {
        if at >= self.shelves.len() {
            return None;
        }
        self.shelves[at].sheet.first()
    }

    /// The last.
    pub fn last(&self, at: usize) -> Option<&Shared<Row>>
        ensures { (name : List ℕ) → place_of name self.now.tables ≡ Some at
            → option_copied result ≡ slice_get (rows_of name self.now.tables) (length (rows_of name self.now.tables) - 1) }
    {
        if at >= self.shelves.len() {
            return None;
        }
        self.shelves[at].sheet.last()
    }
}
