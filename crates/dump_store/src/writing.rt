//! The lines of a base, written some at a time.
ghost use Rattle.std.specs.Prelude.{◌≡◌, ◌≤◌, ◌++◌, flat_map, IfErr, OnErr, OnOk};
ghost use Rattle.catalog_show_create.specs.catalog_objects.Keys.{objects_of, seen};
ghost use Rattle.prog_work.specs.Contents.{base_of};
ghost use Rattle.run_streams.specs.Stops.{StopsWriting, failed_writes, status_of};
ghost use Rattle.run_streams.specs.Wrote.{Wrote, WroteFront, Writing};
ghost use Rattle.dump_store.specs.Lines.{dump_lines, object_lines, row_line};

use crate::lines::{create_line, row_line, rows_behind};
use answer_text::Status;
use catalog_show_create::catalog_objects::Object;
use port_traits::Sink;
use prog_work::Work;
use row_store::Tables;
use run_streams::{with_status, write_line};
use sharing::Shared;
use std::alloc::Global;
use val_types::{Bytes, Row};

/// From how many bytes on what is gathered is written.
const PIECE: usize = 65_536;

/// Puts a line behind what is gathered, and writes that if it is much.
fn gather<K: Sink>(text: &mut Bytes, line: Bytes, out: &mut K) -> Result<(), Status>
    ensures ok { OnOk result (Writing (K.written out.old) (K.written out.new) (text.old ++ line) text.new) }
    ensures err { OnErr result (WroteFront (K.written out.old) (K.written out.new) (text.old ++ line)) }
    ensures stop { IfErr result (λ status. StopsWriting status (K.faults out.old) (K.faults out.new)) }
    ensures later { K.faults out.old ≤ K.faults out.new }
    ensures ended { K.ended out.old ≡ 0 → K.ended out.new ≡ failed_writes (status_of result) }
{
    with_status(text.append(line))?;
    if text.len() < PIECE {
        return Ok(());
    }
    write_line(out, text.as_slice())?;
    text.clear();
    Ok(())
}

/// Puts the lines of rows behind what is gathered, and writes some of it.
fn write_rows<K: Sink>(
    alloc: Global,
    rows: &[Shared<Row>],
    text: &mut Bytes,
    out: &mut K,
) -> Result<(), Status>
    ensures ok { OnOk result (Writing (K.written out.old) (K.written out.new) (text.old ++ flat_map row_line rows.now) text.new) }
    ensures err { OnErr result (WroteFront (K.written out.old) (K.written out.new) (text.old ++ flat_map row_line rows.now)) }
    ensures stop { IfErr result (λ status. StopsWriting status (K.faults out.old) (K.faults out.new)) }
    ensures later { K.faults out.old ≤ K.faults out.new }
    ensures ended { K.ended out.old ≡ 0 → K.ended out.new ≡ failed_writes (status_of result) }
{
    for row in rows {
        let line = with_status(row_line(alloc, row.get()))?;
        gather(text, line, out)?;
    }
    Ok(())
}

/// The same with the lines of an object.
fn write_object<K: Sink>(
    alloc: Global,
    tables: &Tables,
    object: &Object,
    text: &mut Bytes,
    out: &mut K,
) -> Result<(), Status>
    ensures ok { OnOk result (Writing (K.written out.old) (K.written out.new) (text.old ++ object_lines tables.now.tables (seen object.now)) text.new) }
    ensures err { OnErr result (WroteFront (K.written out.old) (K.written out.new) (text.old ++ object_lines tables.now.tables (seen object.now))) }
    ensures stop { IfErr result (λ status. StopsWriting status (K.faults out.old) (K.faults out.new)) }
    ensures later { K.faults out.old ≤ K.faults out.new }
    ensures ended { K.ended out.old ≡ 0 → K.ended out.new ≡ failed_writes (status_of result) }
{
    let line = with_status(create_line(alloc, object))?;
    gather(text, line, out)?;
    let rows = with_status(rows_behind(alloc, tables, object))?;
    write_rows(alloc, rows.as_slice(), text, out)
}

/// The same with those of objects, one after the other.
fn write_objects<K: Sink>(
    alloc: Global,
    tables: &Tables,
    objects: &[Object],
    text: &mut Bytes,
    out: &mut K,
) -> Result<(), Status>
    ensures ok { OnOk result (Writing (K.written out.old) (K.written out.new) (text.old ++ flat_map (object_lines tables.now.tables) (objects_of objects.now)) text.new) }
    ensures err { OnErr result (WroteFront (K.written out.old) (K.written out.new) (text.old ++ flat_map (object_lines tables.now.tables) (objects_of objects.now))) }
    ensures stop { IfErr result (λ status. StopsWriting status (K.faults out.old) (K.faults out.new)) }
    ensures later { K.faults out.old ≤ K.faults out.new }
    ensures ended { K.ended out.old ≡ 0 → K.ended out.new ≡ failed_writes (status_of result) }
{
    for object in objects {
        write_object(alloc, tables, object, text, out)?;
    }
    Ok(())
}

/// Writes the lines of a catalog with its tables.
pub(crate) fn write_base<K: Sink>(alloc: Global, work: &Work, out: &mut K) -> Result<(), Status>
    ensures ok { OnOk result (Wrote (K.written out.old) (K.written out.new) (dump_lines (base_of work.now))) }
    ensures err { OnErr result (WroteFront (K.written out.old) (K.written out.new) (dump_lines (base_of work.now))) }
    ensures stop { IfErr result (λ status. StopsWriting status (K.faults out.old) (K.faults out.new)) }
    ensures ended { K.ended out.old ≡ 0 → K.ended out.new ≡ failed_writes (status_of result) }
{
    let mut text = Bytes::new(alloc);
    let objects = work.catalog().objects().all();
    write_objects(alloc, work.tables(), objects, &mut text, out)?;
    write_line(out, text.as_slice())
}
