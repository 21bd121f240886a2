//! WRITE, UPDATE and DELETE_ROWS of changes, and all events of an item by its rows.
ghost use Rattle.std.specs.Prelude.{◌≡◌, ◌≤◌, ◌+◌, ◌∷◌, [], ◌++◌, flat_map, length, map, IfOk, OnErr, OnOk};
ghost use Rattle.byte_fields.specs.Field.{BeginsWith};
ghost use Rattle.event_codec.specs.Event.{rows};
ghost use Rattle.log_model.specs.Images.{change_bytes};
ghost use Rattle.log_model.specs.Items.{at_time, changes_item, columns_in, CanCarryAll};
ghost use Rattle.log_model.specs.Spelling.{bodies_of};
ghost use Rattle.log_model.specs.Written.{bytes_of, CanWriteAll};
ghost use Rattle.val_types.specs.Changes.{table_of};
ghost use Rattle.row_events.specs.Runs.{rows_events, run_event, run_rows, HaveRows};
ghost use Rattle.row_events.specs.Writing.{Wrote};
ghost use Rattle.row_image.specs.Walk.{HasRows, types_in};

use crate::maps::put_maps;
use crate::runs::{Run, kind_of, run_of};
use crate::tables::{columns_of, id_of, tables_of};
use crate::writing::put;
use event_codec::{Event, Header, RowsView};
use row_image::put_change;
use sharing::Shared;
use std::alloc::Global;
use val_types::{Bytes, Change, ColumnDef, List, NoMemory, TableDef};

/// Puts the rows of changes of a table with these columns at the end.
#[tactic(auto, using(byte_fields::proofs::FieldLaws::begins_more))]
fn put_changes(
    columns: &List<ColumnDef>,
    changes: &[Change],
    out: &mut Bytes,
) -> Result<(), NoMemory>
    requires { HaveRows (types_in columns.now) changes.now }
    ensures { OnOk result (out.new ≡ out.old ++ flat_map (change_bytes (types_in columns.now)) changes.now) }
{
    for change in changes {
        put_change(columns, change, out)?;
    }
    Ok(())
}

/// Puts the rows event of a run of changes at the end, with the columns and the id of their table; it
/// ends its item where nothing is left.
fn put_run_of(
    alloc: Global,
    columns: &List<ColumnDef>,
    id: u64,
    first: &Change,
    run: &Run,
    h: Header,
    out: &mut Bytes,
) -> Result<Header, NoMemory>
    requires rows { HaveRows (types_in columns.now) (first.now ∷ run.now.more.now) }
    requires event { CanWriteAll h.pos (at_time h.stamp (rows (run_rows columns.now id first.now run.now.more.now run.now.rest.now) ∷ [])) }
    ensures ok { IfOk result (λ to. Wrote (at_time h.stamp (rows (run_rows columns.now id first.now run.now.more.now run.now.rest.now) ∷ [])) h to out.old out.new) }
    ensures err { OnErr result (BeginsWith out.new out.old) }
{
    let mut rows = Bytes::with_capacity(alloc, run.size as usize)?;
    put_change(columns, first, &mut rows)?;
    put_changes(columns, run.more, &mut rows)?;
    let event = Event::Rows(RowsView {
        stamp: 0,
        length: 0,
        kind: kind_of(first),
        id,
        ends: run.rest.is_empty(),
        columns: columns.len() as u64,
        rows: rows.as_slice(),
    });
    put(&event, h, out)
}

/// Puts the rows event of a run of changes at the end.
fn put_run(
    alloc: Global,
    defs: &List<Shared<TableDef>>,
    names: &List<Bytes>,
    first: &Change,
    run: &Run,
    h: Header,
    out: &mut Bytes,
) -> Result<Header, NoMemory>
    requires rows { HaveRows (types_in (columns_in defs.now (table_of first.now))) (first.now ∷ run.now.more.now) }
    requires event { CanWriteAll h.pos (at_time h.stamp (rows (run_event defs.now names.now first.now run.now.more.now run.now.rest.now) ∷ [])) }
    ensures ok { IfOk result (λ to. Wrote (at_time h.stamp (rows (run_event defs.now names.now first.now run.now.more.now run.now.rest.now) ∷ [])) h to out.old out.new) }
    ensures err { OnErr result (BeginsWith out.new out.old) }
{
    let id = id_of(names, first.table());
    match columns_of(defs, first.table()) {
        Some(columns) => put_run_of(alloc, columns, id, first, run, h, out),
        None => put_run_of(alloc, &List::new(alloc), id, first, run, h, out),
    }
}

/// Puts the rows events of changes at the end, of which the last ends their item.
fn put_runs(
    alloc: Global,
    defs: &List<Shared<TableDef>>,
    names: &List<Bytes>,
    changes: &[Change],
    h: Header,
    out: &mut Bytes,
) -> Result<Header, NoMemory>
    requires rows { CanCarryAll defs.now changes.now }
    requires events { CanWriteAll h.pos (rows_events defs.now names.now changes.now h.stamp) }
    ensures ok { IfOk result (λ to. Wrote (rows_events defs.now names.now changes.now h.stamp) h to out.old out.new) }
    ensures err { OnErr result (BeginsWith out.new out.old) }
{
    let mut here = h;
    let mut left = changes;
    while let [first, all @ ..] = left {
        let run = run_of(defs, first, all);
        here = put_run(alloc, defs, names, first, &run, here, out)?;
        left = run.rest;
    }
    Ok(here)
}

/// Puts the events of an item by its rows at the end: a map for each table, and the rows of the
/// changes. The header behind them.
pub fn put_rows(
    alloc: Global,
    defs: &List<Shared<TableDef>>,
    changes: &[Change],
    h: Header,
    out: &mut Bytes,
) -> Result<Header, NoMemory>
    requires rows { CanCarryAll defs.now changes.now }
    requires events { CanWriteAll h.pos (at_time h.stamp (bodies_of (changes_item defs.now changes.now))) }
    ensures ok { IfOk result (λ to. Wrote (at_time h.stamp (bodies_of (changes_item defs.now changes.now))) h to out.old out.new) }
    ensures err { OnErr result (BeginsWith out.new out.old) }
{
    let names = tables_of(alloc, changes)?;
    let here = put_maps(alloc, defs, &names, h, out)?;
    put_runs(alloc, defs, &names, changes, here, out)
}

/// Puts the events of an item by its rows at the end, with a header's timestamp and server, from its
/// place on: a map for each table in the order of first changes, then the rows of the changes, runs of
/// one kind of one table, cut at 8,192 bytes of rows. Where there is no memory, the bytes still begin
/// as they were.
pub fn encode_rows(
    alloc: Global,
    defs: &List<Shared<TableDef>>,
    changes: &List<Change>,
    header: &Header,
    out: &mut Bytes,
) -> Result<(), NoMemory>
    requires rows { CanCarryAll defs.now changes.now }
    requires events { CanWriteAll header.now.pos (at_time header.now.stamp (bodies_of (changes_item defs.now changes.now))) }
    ensures ok { OnOk result (out.new ≡ out.old ++ bytes_of header.now.server_id header.now.pos (at_time header.now.stamp (bodies_of (changes_item defs.now changes.now)))) }
    ensures err { OnErr result (BeginsWith out.new out.old) }
{
    put_rows(alloc, defs, changes.as_slice(), *header, out)?;
    Ok(())
}
