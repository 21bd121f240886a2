//! The numbers of a transaction's entries by the values of the rows that they show.
ghost use Rattle.std.specs.Prelude.{◌≡◌};
ghost use Rattle.row_index.specs.row_sheets.Orders.{NumbersRise};
ghost use Rattle.row_index.specs.Numbers.{number_slot};
ghost use Rattle.row_index.specs.Lists.{numbers_at, CanPutInAll, OfEach};
ghost use Rattle.table_sheet.specs.Ranked.{shown_by};
ghost use Rattle.table_sheet.specs.Indexed.{AreEntered, AreLeft};

use crate::entry::{Entry, Shown};
use row_index::block_list::Blocks;
use row_index::{RowsByNumber, put_row, take_row};
use val_types::TableDef;

/// Takes the number of an entry out of all indexes, where it shows a row.
pub(crate) fn leave(
    definition: &TableDef,
    entries: &Vec<Entry>,
    indexes: &mut Vec<Blocks>,
    number: u32,
)
    requires { OfEach definition.now.uniques (λ which key. NumbersRise (number_slot key (shown_by entries.now.items)) (numbers_at indexes.old.items which)) }
    ensures { AreLeft definition.now.uniques (shown_by entries.now.items) (shown_by entries.now.items number) indexes.old.items indexes.new.items }
{
    let shown = Shown { entries };
    match shown.row(number) {
        Some(row) => take_row(indexes, definition, &shown, row),
        None => {}
    }
}

/// Puts the number of an entry into all indexes, where it shows a row.
pub(crate) fn enter(
    definition: &TableDef,
    entries: &Vec<Entry>,
    indexes: &mut Vec<Blocks>,
    number: u32,
)
    requires { CanPutInAll definition.now.uniques (shown_by entries.now.items) indexes.old.items }
    ensures { AreEntered definition.now.uniques (shown_by entries.now.items) (shown_by entries.now.items number) indexes.old.items indexes.new.items }
{
    let shown = Shown { entries };
    match shown.row(number) {
        Some(row) => put_row(indexes, definition, &shown, row, number),
        None => {}
    }
}
