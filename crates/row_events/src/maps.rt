//! TABLE_MAPs of the tables of changes.
ghost use Rattle.std.specs.Prelude.{◌≡◌, ◌∷◌, [], map, IfOk, OnErr};
ghost use Rattle.byte_fields.specs.Field.{BeginsWith};
ghost use Rattle.event_codec.specs.Event.{table_map};
ghost use Rattle.log_model.specs.Items.{at_time, columns_in, map_of, maps_from};
ghost use Rattle.log_model.specs.Written.{CanWriteAll};
ghost use Rattle.row_events.specs.Writing.{Wrote};

use crate::nulls::nulls_of;
use crate::tables::columns_of;
use crate::writing::put;
use event_codec::{Event, Header, MapView};
use row_image::{codes_of, metadata_of};
use sharing::Shared;
use std::alloc::Global;
use val_types::{Bytes, ColumnDef, List, NoMemory, TableDef};

/// Puts the map of a table with an id and these columns at the end.
fn put_map_of(
    alloc: Global,
    id: u64,
    name: &Bytes,
    columns: &List<ColumnDef>,
    h: Header,
    out: &mut Bytes,
) -> Result<Header, NoMemory>
    requires { CanWriteAll h.pos (at_time h.stamp (table_map (map_of id name.now columns.now) ∷ [])) }
    ensures ok { IfOk result (λ to. Wrote (at_time h.stamp (table_map (map_of id name.now columns.now) ∷ [])) h to out.old out.new) }
    ensures err { OnErr result (BeginsWith out.new out.old) }
{
    let kinds = codes_of(alloc, columns)?;
    let metadata = metadata_of(alloc, columns)?;
    let nulls = nulls_of(alloc, columns.as_slice())?;
    let map = Event::TableMap(MapView {
        stamp: 0,
        length: 0,
        id,
        name: name.as_slice(),
        kinds: kinds.as_slice(),
        metadata: metadata.as_slice(),
        nulls: nulls.as_slice(),
    });
    put(&map, h, out)
}

/// Puts the map of a table with an id at the end.
fn put_map(
    alloc: Global,
    defs: &List<Shared<TableDef>>,
    id: u64,
    name: &Bytes,
    h: Header,
    out: &mut Bytes,
) -> Result<Header, NoMemory>
    requires { CanWriteAll h.pos (at_time h.stamp (table_map (map_of id name.now (columns_in defs.now name.now)) ∷ [])) }
    ensures ok { IfOk result (λ to. Wrote (at_time h.stamp (table_map (map_of id name.now (columns_in defs.now name.now)) ∷ [])) h to out.old out.new) }
    ensures err { OnErr result (BeginsWith out.new out.old) }
{
    match columns_of(defs, name) {
        Some(columns) => put_map_of(alloc, id, name, columns, h, out),
        None => put_map_of(alloc, id, name, &List::new(alloc), h, out),
    }
}

/// Puts maps of tables at the end, with ids from 1 on.
pub fn put_maps(
    alloc: Global,
    defs: &List<Shared<TableDef>>,
    names: &List<Bytes>,
    h: Header,
    out: &mut Bytes,
) -> Result<Header, NoMemory>
    requires { CanWriteAll h.pos (at_time h.stamp (map table_map (maps_from 1 defs.now names.now))) }
    ensures ok { IfOk result (λ to. Wrote (at_time h.stamp (map table_map (maps_from 1 defs.now names.now))) h to out.old out.new) }
    ensures err { OnErr result (BeginsWith out.new out.old) }
{
    let mut here = h;
    let mut id = 1;
    for name in names.as_slice() {
        here = put_map(alloc, defs, id, name, here, out)?;
        id += 1;
    }
    Ok(here)
}
