//! How many rows are shown, without a walk over all of them.
ghost use Rattle.std.specs.Prelude.{◌≡◌, ◌^◌, ◌≤◌, ◌&&◌, true, length, option_copied, is_some, is_none};
ghost use Rattle.row_index.specs.row_sheets.Slots.{keys_in, keys_rise};
ghost use Rattle.table_sheet.specs.Counts.{one_if, puts, takes};
ghost use Rattle.table_sheet.specs.Pages.{rows_on};
ghost use Rattle.table_sheet.specs.Parts.{committed_slots, entry_slots};

use crate::committed::Committed;
use crate::entry::Entry;
use crate::overlay::Overlay;
use crate::sheet::Sheet;
use sharing::Shared;
use val_types::{Row, TableDef};

/// One where an entry puts a row beside the committed ones, of which this one has its key.
fn put_by(entry: &Entry, below: Option<&Shared<Row>>) -> usize
    ensures { result ≡ one_if (is_some entry.now.present && is_none (option_copied below.entry)) }
{
    match (&entry.present, below) {
        (Some(_), None) => 1,
        _ => 0,
    }
}

/// One where an entry takes the committed row of its key out.
fn taken_by(entry: &Entry, below: Option<&Shared<Row>>) -> usize
    ensures { result ≡ one_if (is_none entry.now.present && is_some (option_copied below.entry)) }
{
    match (&entry.present, below) {
        (None, Some(_)) => 1,
        _ => 0,
    }
}

/// How many rows the entries put, and how many they take out.
fn counts(definition: &Shared<TableDef>, committed: &Committed, overlay: &Overlay) -> (usize, usize)
    requires { keys_rise (keys_in (committed_slots definition.now committed.now)) ≡ true }
    ensures puts { result.0 ≡ puts (committed_slots definition.now committed.now) (entry_slots definition.now overlay.now) }
    ensures takes { result.1 ≡ takes (committed_slots definition.now committed.now) (entry_slots definition.now overlay.now) }
    ensures few { result.0 ≤ 2 ^ 32 }
{
    // there are at most 2 ^ 32 entries
    let _ = overlay.ranks.len();
    let mut puts = 0;
    let mut takes = 0;
    let mut at = overlay.ranks.first();
    while let Some(entry) = overlay.at(at) {
        let below = committed.get_same(definition, entry.bearer.get());
        puts += put_by(entry, below);
        takes += taken_by(entry, below);
        at = overlay.ranks.after(at);
    }
    (puts, takes)
}

impl Sheet {
    /// How many rows are shown; it looks at the entries alone.
    pub fn count(&self) -> usize
        ensures { result ≡ length (rows_on self.now) }
    {
        let (puts, takes) = counts(&self.definition, &self.committed, &self.overlay);
        self.committed.order.len() + puts - takes
    }
}
