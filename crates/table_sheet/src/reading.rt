//! Rows read where they stand: all that are shown, all that are committed, and those that have a key of another.

use crate::sheet::Sheet;
use crate::walking::{keys_from, next, rows_from, start, start_below};
use sharing::Shared;
use std::alloc::Global;
use val_types::{List, NoMemory, Row};

impl Sheet {
    ghost use Rattle.std.specs.Prelude.{◌≡◌, find, map, option_copied, slice_get, IfOk};
    ghost use Rattle.val_types.specs.Keys.{primary_key};
    ghost use Rattle.table_rules.specs.Stored.{has_key_in_way, key_in_way};
    ghost use Rattle.row_index.specs.row_sheets.Slots.{rows_in};
    ghost use Rattle.table_sheet.specs.Pages.{rows_on};

    /// The rows that are shown, in their order, each shared with the table, so that they stay what they are whatever is changed.
    pub fn rows(&self, alloc: Global) -> Result<List<Shared<Row>>, NoMemory>
        ensures { IfOk result (λ rows. rows ≡ rows_on self.now) }
    {
        let from = start(&self.committed, &self.overlay);
        rows_from(
            alloc,
            &self.definition,
            &self.committed,
            &self.overlay,
            from,
        )
    }

    /// The committed rows, whatever is shown over them.
    pub fn committed_rows(&self, alloc: Global) -> Result<List<Shared<Row>>, NoMemory>
        ensures { IfOk result (λ rows. rows ≡ rows_in self.now.committed) }
    {
        let from = start_below(&self.committed, &self.overlay);
        rows_from(
            alloc,
            &self.definition,
            &self.committed,
            &self.overlay,
            from,
        )
    }

    /// The first row that is shown.
    pub fn first(&self) -> Option<&Shared<Row>>
        ensures { option_copied result ≡ slice_get (rows_on self.now) 0 }
    {
        let mut at = start(&self.committed, &self.overlay);
        next(&self.definition, &self.committed, &self.overlay, &mut at)
    }

    /// The primary keys of the rows that are shown, in their order.
    pub fn keys(&self, alloc: Global) -> Result<List<Row>, NoMemory>
        ensures { IfOk result (λ keys. keys ≡ map (primary_key self.now.definition) (rows_on self.now)) }
    {
        let from = start(&self.committed, &self.overlay);
        keys_from(
            alloc,
            &self.definition,
            &self.committed,
            &self.overlay,
            from,
        )
    }

    /// The number of the first key of a row that is in its way: 0 is the primary key, then come the unique keys in order of
    /// definition.
    pub fn key_in_way(&self, row: &Row) -> Option<usize>
        ensures { result ≡ key_in_way self.now.definition row.now (rows_on self.now) }
    {
        if let Some(_) = self.get_same(row) {
            return Some(0);
        }
        self.first_agreed(row)
    }

    /// The first row that is shown that has the key of a number in common with a row.
    pub fn row_on_key(&self, row: &Row, which: usize) -> Option<&Shared<Row>>
        ensures { option_copied result ≡ find (has_key_in_way self.now.definition row.now which) (rows_on self.now) }
    {
        if which == 0 {
            return self.get_same(row);
        }
        let uniques = &self.definition.get().uniques;
        if which > uniques.len() {
            return None;
        }
        self.agreeing(which - 1, &uniques[which - 1], row)
    }
}
