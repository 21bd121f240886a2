//! How many bytes the events of changes have, at most the greatest number of 64 bits.
ghost use Rattle.std.specs.Prelude.{◌≡◌, ◌*◌, ◌<◌, ◌≤◌, ◌^◌, ℕ, List, flat_map, length, map};
ghost use Rattle.event_codec.specs.Event.{rows, table_map};
ghost use Rattle.event_codec.specs.Bitmap.{bitmap_size};
ghost use Rattle.event_codec.specs.Writing.{present_bytes, size};
ghost use Rattle.byte_fields.specs.LengthEncoded.{lenenc_bytes};
ghost use Rattle.log_model.specs.Items.{at_time, changes_item, kind_of, map_of, maps_from, rows_kind_of, tables_of, type_metadata};
ghost use Rattle.log_model.specs.Spelling.{bodies_of};
ghost use Rattle.log_model.specs.Written.{total};
ghost use Rattle.row_events.specs.Runs.{piece, rows_events, run_event};
ghost use Rattle.row_events.specs.Sizes.{bounded, sizes};

use crate::runs::{Run, run_of, slice_of};
use crate::tables::have_table;
use byte_fields::bytes_lenenc;
use sharing::Shared;
use val_types::{Bytes, Change, ColType, ColumnDef, List, TableDef};

/// How many bytes the metadata of a type has.
#[tactic(auto, unfolding(byte_fields::specs::Field::number_bytes))]
fn metadata_size(kind: ColType) -> u64
    ensures exact { result ≡ length (type_metadata kind) }
    ensures few { result ≤ 2 }
{
    match kind {
        ColType::Int | ColType::BigInt => 0,
        ColType::Varchar(_) => 2,
    }
}

/// How many bytes the metadata of columns has.
fn all_metadata_size(columns: &[ColumnDef]) -> u64
    ensures exact { result ≡ length (flat_map type_metadata (map kind_of columns.now)) }
    ensures few { result ≤ 2 * length columns.now }
{
    let mut size = 0;
    for column in columns {
        size += metadata_size(column.kind);
    }
    size
}

/// How many bytes a length-encoded integer has.
#[tactic(auto, using(crate::proofs::Measuring::encoded_few))]
fn encoded_size(number: u64) -> u64
    ensures exact { result ≡ length (lenenc_bytes number) }
    ensures few { result ≤ 9 }
{
    bytes_lenenc(number).1 as u64
}

/// How many bytes the map of a table has, whatever its id.
fn map_size(name: &Bytes, columns: &[ColumnDef]) -> u64
    ensures { (id : ℕ) → result ≡ bounded (size (table_map (map_of id name.now columns.now))) }
{
    let count = columns.len() as u64;
    let metadata = all_metadata_size(columns);
    let lengths = encoded_size(count) + encoded_size(metadata);
    (33 + lengths + count + metadata + count.div_ceil(8)).saturating_add(name.len() as u64)
}

/// How many bytes the maps of the tables of changes have.
fn maps_size(defs: &List<Shared<TableDef>>, changes: &[Change]) -> u64
    ensures { result ≡ bounded (sizes (map table_map (maps_from 1 defs.now (tables_of changes.now)))) }
{
    let mut size: u64 = 0;
    for place in 0..changes.len() {
        let name = changes[place].table();
        if !have_table(&changes[..place], name) {
            size = size.saturating_add(map_size(name, slice_of(defs, name)));
        }
    }
    size
}

/// How many bytes the bits of so many columns have in a rows event: once, or twice for an update.
fn present_size(change: &Change, columns: u64) -> u64
    ensures exact { result ≡ length (present_bytes (rows_kind_of change.now) columns) }
    ensures few { result < 2 ^ 63 }
{
    match change {
        Change::Insert { .. } => columns.div_ceil(8),
        Change::Update { .. } => 2 * columns.div_ceil(8),
        Change::Delete { .. } => columns.div_ceil(8),
    }
}

/// How many bytes the rows event of a run of changes has, whatever the id of its table.
fn run_size(defs: &List<Shared<TableDef>>, first: &Change, run: &Run) -> u64
    requires { run.now.size ≡ bounded (length (piece defs.now first.now run.now.more.now).rows) }
    ensures { (names : List (List ℕ)) → result ≡ bounded (size (rows (run_event defs.now names first.now run.now.more.now run.now.rest.now))) }
{
    let columns = slice_of(defs, first.table()).len() as u64;
    (29 + encoded_size(columns) + present_size(first, columns)).saturating_add(run.size)
}

/// How many bytes the rows events of changes have, whatever the ids of their tables.
fn runs_size(defs: &List<Shared<TableDef>>, changes: &[Change]) -> u64
    ensures { (names : List (List ℕ)) (stamp : ℕ) → result ≡ bounded (total (rows_events defs.now names changes.now stamp)) }
{
    let mut size: u64 = 0;
    let mut left = changes;
    while let [first, all @ ..] = left {
        let run = run_of(defs, first, all);
        size = size.saturating_add(run_size(defs, first, &run));
        left = run.rest;
    }
    size
}

/// How many bytes the events of an item by its rows have, at whatever time.
pub fn rows_size(defs: &List<Shared<TableDef>>, changes: &[Change]) -> u64
    ensures { (stamp : ℕ) → result ≡ bounded (total (at_time stamp (bodies_of (changes_item defs.now changes.now)))) }
{
    maps_size(defs, changes).saturating_add(runs_size(defs, changes))
}
