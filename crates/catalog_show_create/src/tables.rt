//! The CREATE TABLE that a table's definition is written as.
ghost use Rattle.std.specs.Prelude.{◌≡◌, [], false, map, nat_eq, slice_index_or, IfOk};
ghost use Rattle.catalog_objects.specs.catalog_rules.Defined.{names_at, written_column, written_columns, written_key, written_table, written_type};
ghost use Rattle.std.specs.Option.{option_map_or};
ghost use Rattle.val_types.specs.declared.definitions.ColumnDef.{ColumnDef};

use sql_tree::{Column, CreateTable, SqlType, UniqueKey};
use std::alloc::Global;
use val_types::{Bytes, ColType, ColumnDef, Duplicate, KeyDef, List, NoMemory, TableDef};

/// A type as it is written.
fn written_type(kind: ColType) -> SqlType
    ensures { result ≡ written_type kind }
{
    match kind {
        ColType::Int => SqlType::Int,
        ColType::BigInt => SqlType::BigInt,
        ColType::Varchar(most) => SqlType::Varchar(u64::from(most)),
    }
}

/// A copy of the name of the column at a place.
fn name_at(alloc: Global, columns: &[ColumnDef], place: u16) -> Result<Bytes, NoMemory>
    ensures { IfOk result (λ name. name ≡ slice_index_or (map (λ (c : ColumnDef). c.name) columns.now) place []) }
{
    match columns.get(usize::from(place)) {
        None => Ok(Bytes::new(alloc)),
        Some(column) => column.name.duplicate(alloc),
    }
}

/// Copies of the names of the columns at some places.
fn names_at(
    alloc: Global,
    columns: &[ColumnDef],
    places: &List<u16>,
) -> Result<List<Bytes>, NoMemory>
    ensures { IfOk result (λ names. names ≡ names_at (map (λ (c : ColumnDef). c.name) columns.now) places.now) }
{
    let mut names = List::new(alloc);
    for place in places.as_slice() {
        names.push(name_at(alloc, columns, *place)?)?;
    }
    Ok(names)
}

/// Whether a place is that of the AUTO_INCREMENT column.
fn is_auto(auto: Option<u16>, place: usize) -> bool
    ensures { result ≡ option_map_or (nat_eq place) auto false }
{
    match auto {
        None => false,
        Some(at) => place == usize::from(at),
    }
}

/// A column as it is written.
fn written_column(
    alloc: Global,
    auto: Option<u16>,
    place: usize,
    column: &ColumnDef,
) -> Result<Column, NoMemory>
    ensures { IfOk result (λ written. written ≡ written_column auto place column.now) }
{
    let name = column.name.duplicate(alloc)?;
    let preset = column.preset.duplicate(alloc)?;
    Ok(Column {
        name,
        kind: written_type(column.kind),
        nullable: column.nullable,
        preset,
        auto_increment: is_auto(auto, place),
    })
}

/// The columns as they are written.
fn written_columns(
    alloc: Global,
    auto: Option<u16>,
    columns: &[ColumnDef],
) -> Result<List<Column>, NoMemory>
    ensures { IfOk result (λ all. all ≡ written_columns auto 0 columns.now) }
{
    let mut all = List::new(alloc);
    for (place, column) in columns.iter().enumerate() {
        all.push(written_column(alloc, auto, place, column)?)?;
    }
    Ok(all)
}

/// A unique key as it is written.
fn written_key(alloc: Global, columns: &[ColumnDef], key: &KeyDef) -> Result<UniqueKey, NoMemory>
    ensures { IfOk result (λ written. written ≡ written_key (map (λ (c : ColumnDef). c.name) columns.now) key.now) }
{
    let name = key.name.duplicate(alloc)?;
    let columns = names_at(alloc, columns, &key.columns)?;
    Ok(UniqueKey { name, columns })
}

/// The unique keys as they are written.
fn written_keys(
    alloc: Global,
    columns: &[ColumnDef],
    keys: &[KeyDef],
) -> Result<List<UniqueKey>, NoMemory>
    ensures { IfOk result (λ all. all ≡ map (written_key (map (λ (c : ColumnDef). c.name) columns.now)) keys.now) }
{
    let mut all = List::new(alloc);
    for key in keys {
        all.push(written_key(alloc, columns, key)?)?;
    }
    Ok(all)
}

/// The CREATE TABLE of a definition.
pub(crate) fn written_table(alloc: Global, d: &TableDef) -> Result<CreateTable, NoMemory>
    ensures { IfOk result (λ t. t ≡ written_table d.now) }
{
    let all = d.columns.as_slice();
    let name = d.name.duplicate(alloc)?;
    let columns = written_columns(alloc, d.auto, all)?;
    let primary = names_at(alloc, all, &d.primary)?;
    let uniques = written_keys(alloc, all, d.uniques.as_slice())?;
    Ok(CreateTable {
        name,
        columns,
        primary: Some(primary),
        uniques,
    })
}
