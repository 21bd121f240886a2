//! Rows inserted, replaced and deleted.

use crate::refusal::SheetRefusal;
use crate::sheet::Sheet;
use sharing::Shared;
use std::alloc::Global;
use val_types::Row;

impl Sheet {
    ghost use Rattle.std.specs.Prelude.{◌≡◌, true, OnOk};
    ghost use Rattle.val_types.specs.Fitting.{row_fits};
    ghost use Rattle.val_types.specs.Keys.{primary_key};
    ghost use Rattle.table_sheet.specs.Pages.{has_entry, rows_on, Stays};
    ghost use Rattle.table_sheet.specs.Refusals.{Deleted, Inserted, Replaced};

    /// Inserts a row. The primary key is looked at first, then the unique keys in order of definition.
    pub fn insert(&mut self, alloc: Global, row: Shared<Row>) -> Result<(), SheetRefusal>
        requires { row_fits self.old.definition.columns row ≡ true }
        ensures stored { Inserted result self.old.definition row (rows_on self.old) (rows_on self.new) }
        ensures entry { OnOk result (has_entry (primary_key self.old.definition row) self.new ≡ true) }
        ensures stays { Stays self.old self.new }
    {
        if let Some(which) = self.key_in_way(row.get()) {
            return Err(SheetRefusal::Taken { which });
        }
        self.put(alloc, row)?;
        Ok(())
    }

    /// Replaces the row of a key. Keys of the row itself are in no way of it.
    pub fn replace(
        &mut self,
        alloc: Global,
        key: &Row,
        row: Shared<Row>,
    ) -> Result<(), SheetRefusal>
        requires { row_fits self.old.definition.columns row ≡ true }
        ensures stored { Replaced result self.old.definition key.now row (rows_on self.old) (rows_on self.new) }
        ensures before { OnOk result (has_entry key.now self.new ≡ true) }
        ensures entry { OnOk result (has_entry (primary_key self.old.definition row) self.new ≡ true) }
        ensures stays { Stays self.old self.new }
    {
        // what is shown is as rows of a table have to be, so that a row that was taken out can be put back
        let _ = self.definition();
        let before = match self.take(alloc, key)? {
            Some(before) => before,
            None => return Err(SheetRefusal::Absent),
        };
        match self.insert(alloc, row) {
            Ok(()) => Ok(()),
            Err(refusal) => {
                self.put_back_row(before);
                Err(refusal)
            }
        }
    }

    /// Takes the row of a key out.
    pub fn delete(&mut self, alloc: Global, key: &Row) -> Result<(), SheetRefusal>
        ensures stored { Deleted result self.old.definition key.now (rows_on self.old) (rows_on self.new) }
        ensures entry { OnOk result (has_entry key.now self.new ≡ true) }
        ensures stays { Stays self.old self.new }
    {
        match self.take(alloc, key)? {
            Some(_) => Ok(()),
            None => Err(SheetRefusal::Absent),
        }
    }
}
