//! The rows of an event.
ghost use Rattle.std.specs.Prelude.{◌≡◌, ◌++◌, OnOk};
ghost use Rattle.event_codec.specs.Event.{rows_of};
ghost use Rattle.log_print.specs.Lines.{change_words, end_word, map_seen, row_words, rows_name, rows_shown, rows_words};

use crate::putting::put_number;
use event_codec::{MapView, RowsKind, RowsView};
use row_image::rows_of;
use std::alloc::Global;
use val_types::{Bytes, Change, NoMemory, Row, row_text};

/// Puts the values of a row between parentheses.
fn put_row(alloc: Global, out: &mut Bytes, row: &Row) -> Result<(), NoMemory>
    ensures { OnOk result (out.new ≡ out.old ++ row_words row.now) }
{
    out.push(b'(')?;
    out.append(row_text(alloc, row)?)?;
    out.push(b')')
}

/// Puts the row of a change, or the row before and the row after.
fn put_change(alloc: Global, out: &mut Bytes, change: &Change) -> Result<(), NoMemory>
    ensures { OnOk result (out.new ≡ out.old ++ change_words change.now) }
{
    out.push(b' ')?;
    match change {
        Change::Insert { row, .. } => put_row(alloc, out, row.get()),
        Change::Update { before, after, .. } => {
            put_row(alloc, out, before.get())?;
            out.extend_from_slice(b"->")?;
            put_row(alloc, out, after.get())
        }
        Change::Delete { row, .. } => put_row(alloc, out, row.get()),
    }
}

/// Puts the rows by their map; without one, none.
fn put_changes(
    alloc: Global,
    out: &mut Bytes,
    map: Option<&MapView>,
    rows: &RowsView,
) -> Result<(), NoMemory>
    ensures { OnOk result (out.new ≡ out.old ++ rows_shown (map_seen map.entry) (rows_of rows.now)) }
{
    let Some(map) = map else {
        return Ok(());
    };
    let changes = rows_of(alloc, map, rows)?;
    for change in changes.as_slice() {
        put_change(alloc, out, change)?;
    }
    Ok(())
}

/// What rows were.
fn name(kind: RowsKind) -> &'static [u8]
    ensures { result.now ≡ rows_name kind }
{
    match kind {
        RowsKind::Write => b"WRITE_ROWS ",
        RowsKind::Update => b"UPDATE_ROWS ",
        RowsKind::Delete => b"DELETE_ROWS ",
    }
}

/// Puts what a rows event says.
pub(crate) fn put_rows(
    alloc: Global,
    out: &mut Bytes,
    map: Option<&MapView>,
    rows: &RowsView,
) -> Result<(), NoMemory>
    ensures { OnOk result (out.new ≡ out.old ++ rows_words (map_seen map.entry) (rows_of rows.now)) }
{
    put_number(alloc, out, name(rows.kind), rows.id)?;
    if rows.ends {
        out.extend_from_slice(b" end")?;
    }
    put_changes(alloc, out, map, rows)
}
