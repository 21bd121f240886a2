//! Looking for the shelf of a table.
ghost use Rattle.std.specs.Prelude.{◌≡◌, ◌<◌, length, position, IfSome};
ghost use Rattle.row_store.specs.Shelves.{is_named};

use crate::shelf::Shelf;
use val_types::Bytes;

/// The place of a table's shelf.
pub(crate) fn shelf_of(shelves: &[Shelf], table: &Bytes) -> Option<usize>
    ensures place { result ≡ position (is_named table.now) shelves.now }
    ensures within { IfSome result (λ at. at < length shelves.now) }
{
    shelves
        .iter()
        .position(|shelf| *table == shelf.sheet.definition().name)
}
