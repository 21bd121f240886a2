//! Rows found by their values in a unique key.
ghost use Rattle.std.specs.Prelude.{◌≡◌, suc, find, option_copied, slice_get, Some};
ghost use Rattle.std.specs.Option.{option_map};
ghost use Rattle.val_types.specs.Keys.{agree_on};
ghost use Rattle.table_rules.specs.Stored.{first_agreed};
ghost use Rattle.table_sheet.specs.Pages.{rows_on};

use crate::entry::Shown;
use crate::sheet::Sheet;
use row_index::found_in;
use sharing::Shared;
use val_types::{KeyDef, Row};

impl Sheet {
    /// The row that is shown with which a row agrees on the unique key of a number: that of the entry that has its values, else the
    /// committed one, where the transaction has no entry of that one's key.
    pub(crate) fn agreeing(&self, which: usize, key: &KeyDef, row: &Row) -> Option<&Shared<Row>>
        requires { slice_get self.now.definition.uniques which ≡ Some key.now }
        ensures { option_copied result ≡ find (λ other. agree_on row.now other key.now) (rows_on self.now) }
    {
        let shown = Shown {
            entries: &self.overlay.entries,
        };
        if let Some(number) = found_in(&self.overlay.indexes, which, key, &shown, row) {
            return match self.overlay.entry(number) {
                Some(entry) => entry.shown(),
                None => None,
            };
        }
        let number = found_in(
            &self.committed.indexes,
            which,
            key,
            &self.committed.rows,
            row,
        )?;
        let found = self.committed.rows.shared(number)?;
        match self.overlay.find_row(&self.definition, found.get()) {
            Ok(_) => None,
            Err(_) => Some(found),
        }
    }

    /// The number of the first unique key on which a row agrees with one that is shown, counted from 1.
    pub(crate) fn first_agreed(&self, row: &Row) -> Option<usize>
        ensures { result ≡ option_map suc (first_agreed self.now.definition.uniques row.now (rows_on self.now)) }
    {
        for (i, key) in self.definition.get().uniques.as_slice().iter().enumerate() {
            if let Some(_) = self.agreeing(i, key, row) {
                return Some(i + 1);
            }
        }
        None
    }
}
