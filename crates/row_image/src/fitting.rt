//! Whether bytes are rows of a table.
ghost use Rattle.std.specs.Prelude.{◌≡◌, ◌*◌, ◌≤◌, length};
ghost use Rattle.event_codec.specs.Event.{map_of, rows_of};
ghost use Rattle.log_model.specs.Images.{are_rows, change_at, map_types, row_at, types_of, values_at};
ghost use Rattle.row_image.specs.Walk.{are_changes, behind, rest_seen};

use crate::column::{behind_type, column_type, read_column};
use event_codec::{MapView, RowsKind, RowsView};

/// What is behind the values of a row with these bits.
#[tactic(auto, using(crate::proofs::Columns::column_step))]
fn behind_values<'a>(map: &MapView, nulls: &[u8], bytes: &'a [u8]) -> Option<&'a [u8]>
    requires { length map.now.kinds.now ≤ 8 * length nulls.now }
    ensures { rest_seen result ≡ behind (values_at (map_types (map_of map.now)) nulls.now 0 bytes.now) }
{
    let mut metadata = map.metadata;
    let mut rest = bytes;
    let mut column = 0;
    for kind in map.kinds {
        match read_column(column_type(*kind, metadata), nulls, column, rest) {
            Some((_, next)) => rest = next,
            None => return None,
        }
        metadata = behind_type(*kind, metadata);
        column += 1;
    }
    Some(rest)
}

/// What is behind a row.
#[tactic(auto, using(crate::proofs::Columns::as_many_types), unfolding(log_model::specs::Images::row_at))]
fn behind_row<'a>(map: &MapView, bytes: &'a [u8]) -> Option<&'a [u8]>
    ensures { rest_seen result ≡ behind (row_at (map_types (map_of map.now)) bytes.now) }
{
    let size = map.kinds.len().div_ceil(8);
    if map.kinds.is_empty() || bytes.len() < size {
        return None;
    }
    let (nulls, rest) = bytes.split_at(size);
    behind_values(map, nulls, rest)
}

/// What is behind a change.
fn behind_change<'a>(kind: RowsKind, map: &MapView, bytes: &'a [u8]) -> Option<&'a [u8]>
    ensures { rest_seen result ≡ behind (change_at kind map.now.name.now (map_types (map_of map.now)) bytes.now) }
{
    match kind {
        RowsKind::Write => behind_row(map, bytes),
        RowsKind::Update => match behind_row(map, bytes) {
            Some(rest) => behind_row(map, rest),
            None => None,
        },
        RowsKind::Delete => behind_row(map, bytes),
    }
}

/// Whether the bytes are one or more rows of the map, or pairs of rows.
fn are_changes(kind: RowsKind, map: &MapView, bytes: &[u8]) -> bool
    ensures { result ≡ are_changes kind (map_of map.now) bytes.now }
{
    if bytes.len() < 1 {
        return false;
    }
    let mut rest = bytes;
    while let [_, ..] = rest {
        match behind_change(kind, map, rest) {
            Some(next) => rest = next,
            None => return false,
        }
    }
    true
}

/// Whether an event's bytes are one or more rows of the map, which has as many columns as the event
/// says.
#[tactic(auto, using(crate::proofs::Walking::rows_by))]
pub fn rows_fit(map: &MapView, event: &RowsView) -> bool
    ensures { result ≡ are_rows (map_of map.now) (rows_of event.now) }
{
    event.columns == map.kinds.len() as u64 && are_changes(event.kind, map, event.rows)
}
