//! Rows found by the values of a key, in counted comparisons.
ghost use Rattle.std.specs.Prelude.{◌≡◌, ℕ, ◌-◌, ◌<◌, ◌≤◌, Some, option_copied, List};
ghost use Rattle.table_rules.specs.Stores.{place_of};
ghost use Rattle.table_sheet.specs.Costs.{AreWithinBoth, AreWithinTwice};
ghost use Rattle.row_store.specs.Found.{found_with, keys_at, rows_at};

use crate::tables::Tables;
use sharing::Shared;
use std::marker::Brand;
use std::sync::ledger::{Blank, Ledger};
use table_sheet::block_list::Steps;
use val_types::{Bytes, Row};

impl Tables {
    /// The row of the table at a place that has some values in the key of a number, in counted comparisons: 0 is the primary key, then
    /// come the unique keys in order of definition. None where there is none, or one of the values is NULL. By the primary key these are at
    /// most two more than the counts of keys that are kept and of rows that are there to stay have binary digits together; by a unique
    /// key at most three more than the first has twice and the second once.
    pub fn find_at<L: Ledger>(
        &self,
        at: usize,
        which: usize,
        values: &Row,
        steps: &mut Steps<L>,
    ) -> Option<&Shared<Row>>
        ensures row { (name : List ℕ) → place_of name self.now.tables ≡ Some at
            → option_copied result ≡ found_with name which values.now self.now.tables }
        ensures primary { which ≡ 0 → AreWithinBoth (keys_at at self.now) (rows_at at self.now) (steps.new - steps.old) }
        ensures cost { AreWithinTwice (keys_at at self.now) (rows_at at self.now) (steps.new - steps.old) }
        ensures more { steps.old ≤ steps.new }
    {
        if at >= self.shelves.len() {
            return None;
        }
        self.shelves[at].sheet.find_on_key(which, values, steps)
    }

    /// The same by a table's name.
    pub fn find<L: Ledger>(
        &self,
        table: &Bytes,
        which: u16,
        values: &Row,
        steps: &mut Steps<L>,
    ) -> Option<&Row>
        ensures row { option_copied result ≡ found_with table.now which values.now self.now.tables }
        ensures primary { (at : ℕ) → place_of table.now self.now.tables ≡ Some at → which ≡ 0
            → AreWithinBoth (keys_at at self.now) (rows_at at self.now) (steps.new - steps.old) }
        ensures cost { (at : ℕ) → place_of table.now self.now.tables ≡ Some at
            → AreWithinTwice (keys_at at self.now) (rows_at at self.now) (steps.new - steps.old) }
        ensures more { steps.old ≤ steps.new }
    {
        let at = self.place(table)?;
        match self.find_at(at, which as usize, values, steps) {
            Some(row) => Some(row.get()),
            None => None,
        }
    }

    /// The row of the table at a place that has some values in the key of a number, where nobody counts.
    pub fn held_with(&self, at: usize, which: usize, values: &Row) -> Option<&Shared<Row>>
        ensures { (name : List ℕ) → place_of name self.now.tables ≡ Some at
            → option_copied result ≡ found_with name which values.now self.now.tables }
    {
        self.held_in::<Brand>(at, which, values, Blank::new(1))
    }

    /// The same in a ledger of its own.
    fn held_in<L: Ledger>(
        &self,
        at: usize,
        which: usize,
        values: &Row,
        blank: Blank,
    ) -> Option<&Shared<Row>>
        requires name { blank.name ≡ L.name }
        requires parts { blank.parts ≡ L.parts }
        requires some { 0 < blank.parts }
        ensures { (name : List ℕ) → place_of name self.now.tables ≡ Some at
            → option_copied result ≡ found_with name which values.now self.now.tables }
    {
        let mut steps: Steps<L> = Steps::new(blank);
        self.find_at(at, which, values, &mut steps)
    }
}
