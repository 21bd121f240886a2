//! One table with what a transaction shows of it.

use crate::committed::Committed;
use crate::overlay::Overlay;
use sharing::Shared;
use std::alloc::Global;
use std::marker::Model;
use val_types::{NoMemory, Row, TableDef, row_fits};

/// A table: its definition, its committed rows, and over them what a transaction shows.
#[derive(Drop)]
pub struct Sheet {
    pub(crate) definition: Shared<TableDef>,
    pub(crate) committed: Committed,
    pub(crate) overlay: Overlay,
}

impl Model for Sheet {
    ghost use Rattle.table_sheet.specs.Pages.{Page};

    ghost Value = { Page };

    ghost use Rattle.table_sheet.specs.Pages.{Holds};
    ghost use Rattle.table_sheet.specs.Indexed.{IsIndexed};
    ghost use Rattle.table_sheet.specs.Parts.{committed_slots, entry_slots, page_of, room_of};

    ghost view = { λ s. page_of s.definition s.committed s.overlay };

    ghost invariant = { λ s. record {
      holds : Holds s.definition (committed_slots s.definition s.committed) (entry_slots s.definition s.overlay) (room_of s.committed) s.overlay.fresh;
      indexed : IsIndexed s.definition s.committed s.overlay;
    } };
}

impl Sheet {
    ghost use Rattle.std.specs.Prelude.{◌≡◌, ◌≤◌, [], true, false, option_copied, IfOk, IsSome, List, OnErr, OnOk};
    ghost use Rattle.std.specs.List.{list_any};
    ghost use Rattle.val_types.specs.Fitting.{row_fits};
    ghost use Rattle.val_types.specs.Keys.{collide, primary_key};
    ghost use Rattle.table_rules.specs.Changes.{with_row};
    ghost use Rattle.table_rules.specs.Stored.{row_of_key, rows_beside};
    ghost use Rattle.row_index.specs.row_sheets.Slots.{keys_in, rows_in};
    ghost use Rattle.table_sheet.specs.Pages.{has_entry, rows_on, IsPage, Stays};
    ghost use Rattle.table_sheet.specs.Indexed.{Fits};
    ghost use Rattle.table_sheet.specs.Parts.{entry_slots};

    /// A table without rows, which takes no memory until there is to be one.
    pub fn new(alloc: Global, definition: Shared<TableDef>) -> Sheet
        ensures definition { result.definition ≡ definition }
        ensures committed { result.committed ≡ [] }
        ensures entries { result.entries ≡ [] }
    {
        Sheet {
            definition,
            committed: Committed::new(alloc),
            overlay: Overlay::new(alloc),
        }
    }

    /// The table's definition.
    pub fn definition(&self) -> &TableDef
        ensures is { result.now ≡ self.now.definition }
        ensures page { IsPage self.now }
    {
        self.definition.get()
    }

    /// Whether a row fits the table.
    pub fn fits(&self, row: &Row) -> bool
        ensures { result ≡ row_fits self.now.definition.columns row.now }
    {
        row_fits(&self.definition().columns, row)
    }

    /// The row that is shown of a key.
    pub fn get(&self, key: &Row) -> Option<&Shared<Row>>
        ensures { option_copied result ≡ row_of_key self.now.definition key.now (rows_on self.now) }
    {
        match self.overlay.find(&self.definition, key) {
            Ok(spot) => match self.overlay.at(spot) {
                Some(entry) => entry.shown(),
                None => None,
            },
            Err(_) => self.committed.get(&self.definition, key),
        }
    }

    /// The row that is shown of the primary key of a row.
    pub fn get_same(&self, row: &Row) -> Option<&Shared<Row>>
        ensures { option_copied result ≡ row_of_key self.now.definition (primary_key self.now.definition row.now) (rows_on self.now) }
    {
        match self.overlay.find_row(&self.definition, row) {
            Ok(spot) => match self.overlay.at(spot) {
                Some(entry) => entry.shown(),
                None => None,
            },
            Err(_) => self.committed.get_same(&self.definition, row),
        }
    }

    /// Takes the row of a key out, and answers with it. An entry that was not there wants memory.
    pub(crate) fn take(&mut self, alloc: Global, key: &Row) -> Result<Option<Shared<Row>>, NoMemory>
        ensures row { IfOk result (λ row. row ≡ row_of_key self.old.definition key.now (rows_on self.old)) }
        ensures rows { OnOk result (rows_on self.new ≡ rows_beside self.old.definition key.now (rows_on self.old)) }
        ensures entry { IfOk result (λ row. IsSome row → has_entry key.now self.new ≡ true) }
        ensures same { OnErr result (rows_on self.new ≡ rows_on self.old) }
        ensures stays { Stays self.old self.new }
    {
        match self.overlay.find(&self.definition, key) {
            Ok(spot) => Ok(self.overlay.fill(&self.definition, spot, None)),
            Err(spot) => {
                let row = match self.committed.get(&self.definition, key) {
                    Some(row) => row,
                    None => return Ok(None),
                };
                let before = row.share()?;
                let bearer = row.share()?;
                self.overlay
                    .add(alloc, &self.definition, spot, bearer, None, 0)?;
                Ok(Some(before))
            }
        }
    }

    /// Puts a row of which no key is in the way. An entry that was not there wants memory.
    pub(crate) fn put(&mut self, alloc: Global, row: Shared<Row>) -> Result<(), NoMemory>
        requires fits { row_fits self.old.definition.columns row ≡ true }
        requires free { list_any (collide self.old.definition row) (rows_on self.old) ≡ false }
        ensures rows { OnOk result (rows_on self.new ≡ with_row self.old.definition row (rows_on self.old)) }
        ensures entry { OnOk result (has_entry (primary_key self.old.definition row) self.new ≡ true) }
        ensures same { OnErr result (rows_on self.new ≡ rows_on self.old) }
        ensures stays { Stays self.old self.new }
    {
        match self.overlay.find_row(&self.definition, row.get()) {
            Ok(spot) => {
                let _ = self.overlay.fill(&self.definition, spot, Some(row));
                Ok(())
            }
            Err(spot) => {
                let bearer = row.share()?;
                let keys = self.definition.get().uniques.len();
                self.committed
                    .make_room(alloc, keys, self.overlay.fresh + 1)?;
                self.overlay
                    .add(alloc, &self.definition, spot, bearer, Some(row), 1)?;
                Ok(())
            }
        }
    }

    /// Puts a row back into the entry of its key, which takes no memory: a deletion is taken back, or the second half of an update.
    pub fn put_back_row(&mut self, row: Shared<Row>)
        requires entry { has_entry (primary_key self.old.definition row) self.old ≡ true }
        requires fits { row_fits self.old.definition.columns row ≡ true }
        requires free { list_any (collide self.old.definition row) (rows_on self.old) ≡ false }
        ensures rows { rows_on self.new ≡ with_row self.old.definition row (rows_on self.old) }
        ensures keys { keys_in self.new.entries ≡ keys_in self.old.entries }
        ensures stays { Stays self.old self.new }
    {
        match self.overlay.find_row(&self.definition, row.get()) {
            Ok(spot) => {
                let _ = self.overlay.fill(&self.definition, spot, Some(row));
            }
            Err(_) => {}
        }
    }

    /// Takes the row with the primary key of a row out of its entry, which takes no memory: an insertion is taken back, or the first
    /// half of an update.
    pub fn take_same(&mut self, row: &Row)
        requires { has_entry (primary_key self.old.definition row.now) self.old ≡ true }
        ensures rows { rows_on self.new ≡ rows_beside self.old.definition (primary_key self.old.definition row.now) (rows_on self.old) }
        ensures keys { keys_in self.new.entries ≡ keys_in self.old.entries }
        ensures stays { Stays self.old self.new }
    {
        match self.overlay.find_row(&self.definition, row) {
            Ok(spot) => {
                let _ = self.overlay.fill(&self.definition, spot, None);
            }
            Err(_) => {}
        }
    }

    /// Takes out what the transaction shows, so that the committed rows are shown. It takes no memory.
    pub fn set_aside(&mut self, alloc: Global) -> Overlay
        ensures entries { entry_slots self.old.definition result ≡ self.old.entries }
        ensures fits { Fits result self.old }
        ensures page { self.new ≡ record self.old { entries = [] } }
    {
        std::mem::replace(&mut self.overlay, Overlay::new(alloc))
    }

    /// Shows again what was set aside, in place of what is shown, over the same committed rows and with no less room. It takes no
    /// memory.
    pub fn put_back(&mut self, overlay: Overlay)
        requires { Fits overlay self.old }
        ensures { self.new ≡ record self.old { entries = entry_slots self.old.definition overlay } }
    {
        self.overlay = overlay;
    }

    /// Makes the committed rows the ones that are shown. It takes no memory.
    pub fn forget(&mut self, alloc: Global)
        ensures { self.new ≡ record self.old { entries = [] } }
    {
        self.overlay.clear();
    }
}
