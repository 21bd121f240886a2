//! Rows found by key in counted comparisons.
ghost use Rattle.std.specs.Prelude.{◌≡◌, ◌-◌, ◌≤◌, true, length, option_copied, slice_get, Some, MatchResult};
ghost use Rattle.std.specs.Option.{option_map};
ghost use Rattle.val_types.specs.Keys.{primary_key};
ghost use Rattle.table_rules.specs.Stored.{row_of_key, row_of_values};
ghost use Rattle.row_index.specs.block_list.Layouts.{flat, AreWithinDigits};
ghost use Rattle.row_index.specs.block_list.Spots.{IsAt, IsFound, IsSpot};
ghost use Rattle.row_index.specs.row_sheets.Slots.{held, keys_in, keys_rise};
ghost use Rattle.row_index.specs.row_sheets.Orders.{by_key};
ghost use Rattle.table_sheet.specs.Costs.{AreWithinBoth, AreWithinTwice};
ghost use Rattle.table_sheet.specs.Keyed.{row_with};
ghost use Rattle.table_sheet.specs.Numbered.{row_slot};
ghost use Rattle.table_sheet.specs.Pages.{rows_on};
ghost use Rattle.table_sheet.specs.Parts.{committed_slots, entry_slots};
ghost use Rattle.table_sheet.specs.Ranked.{entry_slot};

use crate::committed::Committed;
use crate::entry::Shown;
use crate::overlay::Overlay;
use crate::sheet::Sheet;
use row_index::block_list::{Spot, Steps};
use row_index::search_in;
use sharing::Shared;
use std::cmp::Ordering;
use std::sync::ledger::Ledger;
use val_types::{KeyDef, Row, TableDef};

impl Overlay {
    /// Where the number of the entry of a key stands, or belongs.
    fn search<L: Ledger>(
        &self,
        definition: &Shared<TableDef>,
        key: &Row,
        steps: &mut Steps<L>,
    ) -> Result<Spot, Spot>
        requires { keys_rise (keys_in (entry_slots definition.now self.now)) ≡ true }
        ensures found { IsFound (by_key (entry_slot definition.now self.now.entries.items) key.now) self.now.ranks.blocks result }
        ensures spot { MatchResult result (λ spot. IsAt self.now.ranks.blocks spot) (λ spot. IsSpot self.now.ranks.blocks spot) }
        ensures cost { AreWithinDigits (length (flat self.now.ranks.blocks)) (steps.new - steps.old) }
        ensures more { steps.old ≤ steps.new }
    {
        let compare = |number: u32| -> Ordering
            ensures { result ≡ by_key (entry_slot definition.entry.now self.entry.now.entries.items) key.entry.now number }
        { self.key_cmp(definition, key, number) };
        self.ranks.search(&compare, steps)
    }

    /// The same for the primary key of a row.
    fn search_row<L: Ledger>(
        &self,
        definition: &Shared<TableDef>,
        row: &Row,
        steps: &mut Steps<L>,
    ) -> Result<Spot, Spot>
        requires { keys_rise (keys_in (entry_slots definition.now self.now)) ≡ true }
        ensures found { IsFound (by_key (entry_slot definition.now self.now.entries.items) (primary_key definition.now row.now)) self.now.ranks.blocks result }
        ensures spot { MatchResult result (λ spot. IsAt self.now.ranks.blocks spot) (λ spot. IsSpot self.now.ranks.blocks spot) }
        ensures cost { AreWithinDigits (length (flat self.now.ranks.blocks)) (steps.new - steps.old) }
        ensures more { steps.old ≤ steps.new }
    {
        let compare = |number: u32| -> Ordering
            ensures { result ≡ by_key (entry_slot definition.entry.now self.entry.now.entries.items) (primary_key definition.entry.now row.entry.now) number }
        { self.row_cmp(definition, row, number) };
        self.ranks.search(&compare, steps)
    }
}

impl Committed {
    /// Where the number of a key stands, or belongs.
    fn search<L: Ledger>(
        &self,
        definition: &Shared<TableDef>,
        key: &Row,
        steps: &mut Steps<L>,
    ) -> Result<Spot, Spot>
        requires { keys_rise (keys_in (committed_slots definition.now self.now)) ≡ true }
        ensures found { IsFound (by_key (row_slot definition.now self.now.rows.rows) key.now) self.now.order.blocks result }
        ensures spot { MatchResult result (λ spot. IsAt self.now.order.blocks spot) (λ spot. IsSpot self.now.order.blocks spot) }
        ensures cost { AreWithinDigits (length (flat self.now.order.blocks)) (steps.new - steps.old) }
        ensures more { steps.old ≤ steps.new }
    {
        let compare = |number: u32| -> Ordering
            ensures { result ≡ by_key (row_slot definition.entry.now self.entry.now.rows.rows) key.entry.now number }
        { self.key_cmp(definition, key, number) };
        self.order.search(&compare, steps)
    }

    /// The row of a key.
    fn search_row<L: Ledger>(
        &self,
        definition: &Shared<TableDef>,
        key: &Row,
        steps: &mut Steps<L>,
    ) -> Option<&Shared<Row>>
        requires { keys_rise (keys_in (committed_slots definition.now self.now)) ≡ true }
        ensures row { held key.now (committed_slots definition.now self.now) ≡ option_map (λ row. Some row) (option_copied result) }
        ensures cost { AreWithinDigits (length (flat self.now.order.blocks)) (steps.new - steps.old) }
        ensures more { steps.old ≤ steps.new }
    {
        match self.search(definition, key, steps) {
            Ok(spot) => self.at(spot),
            Err(_) => None,
        }
    }
}

impl Sheet {
    /// The row that is shown of a key, in counted comparisons: at most two more than the counts of entries and of committed rows have
    /// binary digits together.
    pub fn find<L: Ledger>(&self, key: &Row, steps: &mut Steps<L>) -> Option<&Shared<Row>>
        ensures row { option_copied result ≡ row_of_key self.now.definition key.now (rows_on self.now) }
        ensures cost { AreWithinBoth (length self.now.entries) (length self.now.committed) (steps.new - steps.old) }
        ensures more { steps.old ≤ steps.new }
    {
        match self.overlay.search(&self.definition, key, steps) {
            Ok(spot) => match self.overlay.at(spot) {
                Some(entry) => entry.shown(),
                None => None,
            },
            Err(_) => self.committed.search_row(&self.definition, key, steps),
        }
    }

    /// The row that is shown with some values of the unique key of a number, in counted comparisons: that of the entry that has them, else
    /// the committed one, where the transaction has no entry of that one's key.
    fn find_with<L: Ledger>(
        &self,
        which: usize,
        key: &KeyDef,
        values: &Row,
        steps: &mut Steps<L>,
    ) -> Option<&Shared<Row>>
        requires { slice_get self.now.definition.uniques which ≡ Some key.now }
        ensures row { option_copied result ≡ row_of_values key.now values.now (rows_on self.now) }
        ensures cost { AreWithinTwice (length self.now.entries) (length self.now.committed) (steps.new - steps.old) }
        ensures more { steps.old ≤ steps.new }
    {
        let shown = Shown {
            entries: &self.overlay.entries,
        };
        if let Some(number) = search_in(&self.overlay.indexes, which, key, &shown, values, steps) {
            return match self.overlay.entry(number) {
                Some(entry) => entry.shown(),
                None => None,
            };
        }
        let rows = &self.committed.rows;
        let number = search_in(&self.committed.indexes, which, key, rows, values, steps)?;
        let found = rows.shared(number)?;
        match self
            .overlay
            .search_row(&self.definition, found.get(), steps)
        {
            Ok(_) => None,
            Err(_) => Some(found),
        }
    }

    /// The row that is shown with some values of the key of a number, in counted comparisons: 0 is the primary key, then come the unique
    /// keys in order of definition. By a unique key these are at most three more than the count of entries has binary digits twice, and
    /// that of committed rows once.
    pub fn find_on_key<L: Ledger>(
        &self,
        which: usize,
        values: &Row,
        steps: &mut Steps<L>,
    ) -> Option<&Shared<Row>>
        ensures row { option_copied result ≡ row_with self.now.definition which values.now (rows_on self.now) }
        ensures primary { which ≡ 0 → AreWithinBoth (length self.now.entries) (length self.now.committed) (steps.new - steps.old) }
        ensures cost { AreWithinTwice (length self.now.entries) (length self.now.committed) (steps.new - steps.old) }
        ensures more { steps.old ≤ steps.new }
    {
        if which == 0 {
            return self.find(values, steps);
        }
        let uniques = &self.definition.get().uniques;
        if which > uniques.len() {
            return None;
        }
        self.find_with(which - 1, &uniques[which - 1], values, steps)
    }
}
