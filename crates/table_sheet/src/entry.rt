//! What a transaction has of a key.
ghost use Rattle.std.specs.Prelude.{◌≡◌, option_copied};

use row_index::RowsByNumber;
use sharing::Shared;
use val_types::Row;

/// An entry: a row that has its key, and the row that is shown of that key, None where it is taken out.
#[derive(Drop)]
pub struct Entry {
    pub bearer: Shared<Row>,
    pub present: Option<Shared<Row>>,
}

impl Entry {
    /// The row that is shown.
    pub(crate) fn shown(&self) -> Option<&Shared<Row>>
        ensures { option_copied result ≡ self.now.present }
    {
        match &self.present {
            Some(row) => Some(row),
            None => None,
        }
    }
}

/// The rows that entries show, by the numbers of these.
#[derive(Drop)]
pub(crate) struct Shown<'a> {
    pub(crate) entries: &'a Vec<Entry>,
}

impl RowsByNumber for Shown<'_> {
    ghost use Rattle.table_sheet.specs.Ranked.{shown_by};

    ghost row_of = { λ shown number. shown_by shown.entries.now.items number };

    fn row(&self, number: u32) -> Option<&Row> {
        match self.entries.get(number as usize) {
            Some(entry) => match &entry.present {
                Some(row) => Some(row.get()),
                None => None,
            },
            None => None,
        }
    }
}
