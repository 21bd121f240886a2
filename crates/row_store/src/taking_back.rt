//! A change of the rows on a sheet taken back.
ghost use Rattle.std.specs.Prelude.{◌≡◌, true, Some, IsSome, IsTrue};
ghost use Rattle.val_types.specs.Changes.{inverse};
ghost use Rattle.table_rules.specs.Changes.{rows_after};
ghost use Rattle.table_sheet.specs.row_sheets.Slots.{keys_in, rows_are_kept};
ghost use Rattle.table_sheet.specs.Pages.{rows_on, Stays};
ghost use Rattle.row_store.specs.Shelves.{has_entries_for};

use table_sheet::Sheet;
use val_types::Change;

/// Takes a change of the rows on a sheet back, without memory.
pub(crate) fn take_back_on(sheet: &mut Sheet, change: Change)
    requires kept { IsTrue (rows_are_kept sheet.old.definition (rows_on sheet.old)) }
    requires step { IsSome (rows_after sheet.old.definition (inverse change) (rows_on sheet.old)) }
    requires entries { has_entries_for sheet.old (inverse change) ≡ true }
    ensures rows { rows_after sheet.old.definition (inverse change) (rows_on sheet.old) ≡ Some (rows_on sheet.new) }
    ensures keys { keys_in sheet.new.entries ≡ keys_in sheet.old.entries }
    ensures stays { Stays sheet.old sheet.new }
{
    match change {
        Change::Insert { row, .. } => sheet.take_same(row.get()),
        Change::Delete { row, .. } => sheet.put_back_row(row),
        Change::Update { before, after, .. } => {
            sheet.take_same(after.get());
            sheet.put_back_row(before);
        }
    }
}
