//! Neighbouring changes of one kind of one table, as many as one event has.
ghost use Rattle.std.specs.Prelude.{◌≡◌, map};
ghost use Rattle.event_codec.specs.Writing.{rows_kind};
ghost use Rattle.log_model.specs.Images.{change_bytes};
ghost use Rattle.log_model.specs.Items.{columns_in, kind_of, rows_kind_of, types_in};
ghost use Rattle.val_types.specs.Changes.{table_of};
ghost use Rattle.row_events.specs.Runs.{goes_with, run_from, IsRun};
ghost use Rattle.row_events.specs.Sizes.{bounded};

use crate::image_sizes::change_size;
use crate::tables::columns_of;
use event_codec::RowsKind;
use sharing::Shared;
use val_types::{Bytes, Change, ColumnDef, List, TableDef};

/// How many bytes of rows an event has at the most, where it has more than one change.
const MOST: u64 = 8192;

/// What the rows of a change were.
pub fn kind_of(change: &Change) -> RowsKind
    ensures { result ≡ rows_kind_of change.now }
{
    match change {
        Change::Insert { .. } => RowsKind::Write,
        Change::Update { .. } => RowsKind::Update,
        Change::Delete { .. } => RowsKind::Delete,
    }
}

/// The number of its type of event.
fn code_of(change: &Change) -> u8
    ensures { result ≡ rows_kind (rows_kind_of change.now) }
{
    match change {
        Change::Insert { .. } => 30,
        Change::Update { .. } => 31,
        Change::Delete { .. } => 32,
    }
}

/// The columns of a table by its definition, none where there is none.
pub fn slice_of<'a>(defs: &'a List<Shared<TableDef>>, name: &Bytes) -> &'a [ColumnDef]
    ensures { result.now ≡ columns_in defs.now name.now }
{
    match columns_of(defs, name) {
        Some(columns) => columns.as_slice(),
        None => &[],
    }
}

/// Whether a change goes on with rows of so many bytes, the first of which is another one's.
fn goes_with(columns: &[ColumnDef], first: &Change, size: u64, change: &Change) -> bool
    ensures { result ≡ goes_with (map kind_of columns.now) first.now size change.now }
{
    code_of(first) == code_of(change)
        && *first.table() == *change.table()
        && size.saturating_add(change_size(columns, change)) <= MOST
}

/// A change of some with those that go on with it: how many bytes their rows have, those behind the
/// first, and those that are left.
#[derive(Clone, Copy)]
pub struct Run<'a> {
    pub size: u64,
    pub more: &'a [Change],
    pub rest: &'a [Change],
}

/// How many bytes rows have that begin with so many, with all changes that go on with them, and those
/// that are left.
fn run_from<'a>(
    columns: &[ColumnDef],
    first: &Change,
    begun: u64,
    all: &'a [Change],
) -> (u64, &'a [Change])
    ensures { (result.0, result.1.now) ≡ run_from (map kind_of columns.now) first.now begun all.now }
{
    let mut size = begun;
    let mut rest = all;
    while let [change, behind @ ..] = rest {
        if !goes_with(columns, first, size, change) {
            return (size, rest);
        }
        size = size.saturating_add(change_size(columns, change));
        rest = behind;
    }
    (size, rest)
}

/// A change with all those behind it that go on with it.
pub fn run_of<'a>(defs: &List<Shared<TableDef>>, first: &Change, all: &'a [Change]) -> Run<'a>
    ensures { IsRun defs.now first.now all.now result.more.now result.rest.now result.size }
{
    let columns = slice_of(defs, first.table());
    let (size, rest) = run_from(columns, first, change_size(columns, first), all);
    Run {
        size,
        more: &all[..all.len() - rest.len()],
        rest,
    }
}
