//! One table: its name, and the sheet that its rows stand on.
ghost use Rattle.std.specs.Prelude.{◌≡◌};
ghost use Rattle.table_sheet.specs.Pages.{rows_on};
ghost use Rattle.row_store.specs.Rows.{HoldsRows};

use crate::refusal::{RowRefusal, told};
use crate::taking_back::take_back_on;
use sharing::Shared;
use std::alloc::Global;
use table_sheet::Sheet;
use val_types::{Bytes, Change, Row, TableDef};

/// A table: its name, and its sheet.
#[derive(Drop)]
pub struct Shelf {
    /// The name in the definition, which the changes of its rows share.
    pub name: Shared<Bytes>,
    pub sheet: Sheet,
    pub ghost named: { name ≡ sheet.definition.name },
    pub ghost rows: { HoldsRows sheet },
}

impl Shelf {
    ghost use Rattle.std.specs.Prelude.{[], true, Some, IsSome, OnOk};
    ghost use Rattle.val_types.specs.Changes.{inverse};
    ghost use Rattle.val_types.specs.Fitting.{row_fits};
    ghost use Rattle.val_types.specs.Keys.{primary_key};
    ghost use Rattle.table_rules.specs.Changes.{rows_after};
    ghost use Rattle.table_sheet.specs.row_sheets.Slots.{keys_in, rows_in};
    ghost use Rattle.table_sheet.specs.Pages.{has_entry, Stays};
    ghost use Rattle.row_store.specs.Shelves.{has_entries_for, Deleted, Inserted, Replaced};

    /// A table without rows.
    pub(crate) fn new(alloc: Global, name: Shared<Bytes>, definition: Shared<TableDef>) -> Shelf
        requires { name ≡ definition.name }
        ensures definition { result.sheet.definition ≡ definition }
        ensures rows { rows_on result.sheet ≡ [] }
        ensures committed { result.sheet.committed ≡ [] }
    {
        Shelf {
            name,
            sheet: Sheet::new(alloc, definition),
        }
    }

    /// Inserts a row.
    pub(crate) fn insert(&mut self, alloc: Global, row: Shared<Row>) -> Result<(), RowRefusal>
        requires { row_fits self.old.sheet.definition.columns row ≡ true }
        ensures stored { Inserted result self.old.sheet.definition row (rows_on self.old.sheet) (rows_on self.new.sheet) }
        ensures entry { OnOk result (has_entry (primary_key self.old.sheet.definition row) self.new.sheet ≡ true) }
        ensures stays { Stays self.old.sheet self.new.sheet }
    {
        told(self.sheet.insert(alloc, row))
    }

    /// Replaces the row of a key.
    pub(crate) fn update(
        &mut self,
        alloc: Global,
        key: &Row,
        row: Shared<Row>,
    ) -> Result<(), RowRefusal>
        requires { row_fits self.old.sheet.definition.columns row ≡ true }
        ensures stored { Replaced result self.old.sheet.definition key.now row (rows_on self.old.sheet) (rows_on self.new.sheet) }
        ensures before { OnOk result (has_entry key.now self.new.sheet ≡ true) }
        ensures entry { OnOk result (has_entry (primary_key self.old.sheet.definition row) self.new.sheet ≡ true) }
        ensures stays { Stays self.old.sheet self.new.sheet }
    {
        told(self.sheet.replace(alloc, key, row))
    }

    /// Takes the row of a key out.
    pub(crate) fn delete(&mut self, alloc: Global, key: &Row) -> Result<(), RowRefusal>
        ensures stored { Deleted result self.old.sheet.definition key.now (rows_on self.old.sheet) (rows_on self.new.sheet) }
        ensures before { OnOk result (has_entry key.now self.new.sheet ≡ true) }
        ensures stays { Stays self.old.sheet self.new.sheet }
    {
        told(self.sheet.delete(alloc, key))
    }

    /// Takes a change of the rows back, without memory.
    pub(crate) fn take_back(&mut self, change: Change)
        requires step { IsSome (rows_after self.old.sheet.definition (inverse change) (rows_on self.old.sheet)) }
        requires entries { has_entries_for self.old.sheet (inverse change) ≡ true }
        ensures rows { rows_after self.old.sheet.definition (inverse change) (rows_on self.old.sheet)
            ≡ Some (rows_on self.new.sheet) }
        ensures keys { keys_in self.new.sheet.entries ≡ keys_in self.old.sheet.entries }
        ensures stays { Stays self.old.sheet self.new.sheet }
    {
        take_back_on(&mut self.sheet, change);
    }

    /// Makes the rows that are shown those that are there to stay.
    pub(crate) fn tidy(&mut self, alloc: Global)
        ensures rows { rows_on self.new.sheet ≡ rows_on self.old.sheet }
        ensures committed { rows_in self.new.sheet.committed ≡ rows_on self.old.sheet }
        ensures definition { self.new.sheet.definition ≡ self.old.sheet.definition }
    {
        self.sheet.settle(alloc);
    }

    /// Drops all rows.
    pub(crate) fn clear(&mut self, alloc: Global)
        ensures rows { rows_on self.new.sheet ≡ [] }
        ensures committed { self.new.sheet.committed ≡ [] }
        ensures definition { self.new.sheet.definition ≡ self.old.sheet.definition }
    {
        self.sheet.clear(alloc);
    }
}
