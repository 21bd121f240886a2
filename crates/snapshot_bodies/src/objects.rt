//! The objects of a snapshot, with their rows.
ghost use Rattle.std.specs.Prelude.{◌≡◌, ◌<◌, ◌^◌, ◌++◌, flat_map, length, Ok, IfOk, OnOk};
ghost use Rattle.catalog_show_create.specs.catalog_objects.Keys.{objects_of, seen};
ghost use Rattle.catalog_show_create.specs.Stated.{statement_of};
ghost use Rattle.sql_print.specs.StatementSpelling.{spelling};
ghost use Rattle.table_rules.specs.Stored.{rows_of};
ghost use Rattle.store_model.specs.Bodies.{all_bytes, row_bytes};
ghost use Rattle.store_model.specs.Snapshots.{base_bytes, object_bytes, rows_behind};
ghost use Rattle.snapshot_bodies.specs.Kept.{base_kept};

use crate::forms::is_row;
use byte_fields::{bytes_u32, bytes_u64};
use catalog_show_create::catalog_objects::{Object, Objects};
use catalog_show_create::object_statement;
use row_store::Tables;
use sharing::Shared;
use sql_print::print;
use std::alloc::{AllocError, Global};
use store_bodies::{put_object_text, put_row};
use val_types::{Boxed, Bytes, List, NoMemory, Row};

/// What was made, on the heap.
fn boxed<T: Drop>(alloc: Global, made: Result<T, NoMemory>) -> Result<Boxed<T>, NoMemory>
    ensures { IfOk result (λ b. made ≡ Ok b) }
{
    Boxed::new(alloc, made?)
}

/// The canonical text of the CREATE statement of an object.
fn object_text(alloc: Global, object: &Object) -> Result<Bytes, NoMemory>
    ensures { IfOk result (λ text. text ≡ spelling (statement_of (seen object.now))) }
{
    let statement = boxed(alloc, object_statement(alloc, object))?;
    print(alloc, statement.get())
}

/// Puts rows, one behind the other.
fn put_rows(rows: &[Shared<Row>], out: &mut Bytes) -> Result<(), NoMemory>
    ensures { OnOk result (out.new ≡ out.old ++ flat_map row_bytes rows.now) }
{
    for row in rows {
        if !is_row(row.get()) {
            return Err(AllocError);
        }
        put_row(row.get(), out)?;
    }
    Ok(())
}

/// The rows of the table of a name that are there to stay, in the order of their keys and shared with the table.
fn rows_named(tables: &Tables, name: &Bytes) -> Result<List<Shared<Row>>, NoMemory>
    ensures { IfOk result (λ rows. rows ≡ rows_of name.now tables.now.committed) }
{
    match tables.place(name) {
        Some(at) => tables.committed_rows(at),
        None => Err(AllocError),
    }
}

/// Puts them behind their count.
fn put_table_rows(tables: &Tables, name: &Bytes, out: &mut Bytes) -> Result<(), NoMemory>
    ensures { OnOk result (out.new ≡ out.old ++ all_bytes 8 row_bytes (rows_of name.now tables.now.committed)) }
{
    let rows = rows_named(tables, name)?;
    out.extend_from_slice(&bytes_u64(rows.len() as u64))?;
    put_rows(rows.as_slice(), out)
}

/// Puts what stands behind the text of an object: the rows of a table.
fn put_rows_behind(tables: &Tables, object: &Object, out: &mut Bytes) -> Result<(), NoMemory>
    ensures { OnOk result (out.new ≡ out.old ++ rows_behind tables.now.committed (seen object.now)) }
{
    match object {
        Object::Table(definition) => put_table_rows(tables, &definition.get().name, out),
        Object::Function(_) => Ok(()),
        Object::Procedure(_) => Ok(()),
        Object::Trigger(_) => Ok(()),
    }
}

/// Puts an object: its text, and its rows.
#[tactic(auto, using(crate::proofs::Stating::statement_is))]
fn put_object(
    alloc: Global,
    tables: &Tables,
    object: &Object,
    out: &mut Bytes,
) -> Result<(), NoMemory>
    ensures { OnOk result (out.new ≡ out.old ++ object_bytes tables.now.committed (seen object.now)) }
{
    let text = object_text(alloc, object)?;
    put_object_text(&text, out)?;
    put_rows_behind(tables, object, out)
}

/// Puts objects, one behind the other.
fn put_objects(
    alloc: Global,
    tables: &Tables,
    objects: &[Object],
    out: &mut Bytes,
) -> Result<(), NoMemory>
    ensures { OnOk result (out.new ≡ out.old ++ flat_map (object_bytes tables.now.committed) (objects_of objects.now)) }
{
    for object in objects {
        put_object(alloc, tables, object, out)?;
    }
    Ok(())
}

/// Puts the objects of a catalog in order of creation, behind their count, with the rows of its tables that are there to stay.
pub fn put_base(
    alloc: Global,
    tables: &Tables,
    objects: &Objects,
    out: &mut Bytes,
) -> Result<(), NoMemory>
    ensures base { OnOk result (out.new ≡ out.old ++ base_bytes (base_kept tables.now objects.now)) }
    ensures few { OnOk result (length objects.now < 2 ^ 32) }
{
    let all = objects.all();
    if all.len() > 0xffff_ffff {
        return Err(AllocError);
    }
    out.extend_from_slice(&bytes_u32(all.len() as u64))?;
    put_objects(alloc, tables, all, out)
}
