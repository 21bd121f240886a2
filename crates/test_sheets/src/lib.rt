//! Callers of `table_sheet`, as a test of how little proof it asks of the crates above; tests of it.
//!
//! They stand in a crate of their own, since a crate with tests of its own is proved once more for them.
//!
//! - `tests::beside`: a table, and the values that it has to show and to have committed of each key; what is done to all
//! - `tests::lots`: tables of up to 1,000 rows, calls by lot
//! - `tests::cases`: transactions by hand
//! - `tests::values`: rows found by their values in a unique key, by hand
//! - `tests::many`: a table of 10,000 rows that come in no order
//!
//! # Proved
//! - [`found_in_thousand`] needs at most 12 comparisons where 1,000 rows are committed and no transaction has changed one, and
//!   [`found_by_values_in_thousand`] at most 13, whatever the key
//!
//! # Only tested
//! That calls succeed with ample memory; which rows are shown after many calls.
#![tactic(auto)]

ghost use Rattle.std.specs.Prelude.{◌≡◌, ◌+◌, ◌<◌, ◌≤◌, [], length, option_copied};
ghost use Rattle.table_rules.specs.Stored.{row_of_key};
ghost use Rattle.table_sheet.specs.Keyed.{row_with};
ghost use Rattle.table_sheet.specs.Pages.{rows_on};

use sharing::Shared;
use std::marker::Brand;
use std::sync::ledger::{Blank, Ledger};
use table_sheet::Sheet;
use table_sheet::block_list::Steps;
use val_types::Row;

/// The row of a key in a table of at most 1,000 rows of which no transaction has changed one.
pub fn found_in_thousand<'a, L: Ledger>(
    sheet: &'a Sheet,
    key: &Row,
    steps: &mut Steps<L>,
) -> Option<&'a Shared<Row>>
    requires rows { length sheet.now.committed ≤ 1000 }
    requires entries { sheet.now.entries ≡ [] }
    ensures row { option_copied result ≡ row_of_key sheet.now.definition key.now (rows_on sheet.now) }
    ensures cost { steps.new ≤ steps.old + 12 }
{
    sheet.find(key, steps)
}

/// The row with some values in the key of a number, in such a table.
pub fn found_by_values_in_thousand<'a, L: Ledger>(
    sheet: &'a Sheet,
    which: usize,
    values: &Row,
    steps: &mut Steps<L>,
) -> Option<&'a Shared<Row>>
    requires rows { length sheet.now.committed ≤ 1000 }
    requires entries { sheet.now.entries ≡ [] }
    ensures row { option_copied result ≡ row_with sheet.now.definition which values.now (rows_on sheet.now) }
    ensures cost { steps.new ≤ steps.old + 13 }
{
    sheet.find_on_key(which, values, steps)
}

/// The row with some values in the key of a number, where nobody counts.
pub fn found_with<'a>(sheet: &'a Sheet, which: usize, values: &Row) -> Option<&'a Shared<Row>>
    ensures { option_copied result ≡ row_with sheet.now.definition which values.now (rows_on sheet.now) }
{
    found_with_in::<Brand>(sheet, which, values, Blank::new(1))
}

/// The same in a ledger of its own.
fn found_with_in<'a, L: Ledger>(
    sheet: &'a Sheet,
    which: usize,
    values: &Row,
    blank: Blank,
) -> Option<&'a Shared<Row>>
    requires name { blank.name ≡ L.name }
    requires parts { blank.parts ≡ L.parts }
    requires some { 0 < blank.parts }
    ensures { option_copied result ≡ row_with sheet.now.definition which values.now (rows_on sheet.now) }
{
    let mut steps: Steps<L> = Steps::new(blank);
    sheet.find_on_key(which, values, &mut steps)
}

/// The row of a key, where nobody counts.
pub fn found<'a>(sheet: &'a Sheet, key: &Row) -> Option<&'a Shared<Row>>
    ensures { option_copied result ≡ row_of_key sheet.now.definition key.now (rows_on sheet.now) }
{
    found_in::<Brand>(sheet, key, Blank::new(1))
}

/// The same in a ledger of its own.
fn found_in<'a, L: Ledger>(sheet: &'a Sheet, key: &Row, blank: Blank) -> Option<&'a Shared<Row>>
    requires name { blank.name ≡ L.name }
    requires parts { blank.parts ≡ L.parts }
    requires some { 0 < blank.parts }
    ensures { option_copied result ≡ row_of_key sheet.now.definition key.now (rows_on sheet.now) }
{
    let mut steps: Steps<L> = Steps::new(blank);
    sheet.find(key, &mut steps)
}

#[cfg(test)]
mod tests;
