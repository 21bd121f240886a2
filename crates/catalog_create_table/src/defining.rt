//! The definition that CREATE TABLE makes.
ghost use Rattle.std.specs.Prelude.{◌≡◌, ◌<◌, ◌^◌, [], false, length, map, IfOk};
ghost use Rattle.std.specs.List.{list_any};
ghost use Rattle.std.specs.Option.{option_map_or};
ghost use Rattle.sql_locals.specs.Types.{column_type};
ghost use Rattle.sql_tree.specs.declared.statements.Column.{Column};
ghost use Rattle.catalog_checks.specs.catalog_rules.Names.{place_among};
ghost use Rattle.catalog_checks.specs.catalog_rules.Defined.{auto_place, defined_column, defined_key, definition_of, names_of_columns, places_of};
ghost use Rattle.catalog_checks.specs.catalog_rules.Creating.{is_ill_type};
ghost use Rattle.catalog_create_table.specs.Placed.{auto_from, place_from};

use sql_tree::{Column, CreateTable, SqlType, UniqueKey};
use std::alloc::Global;
use val_types::{Bytes, ColType, ColumnDef, Duplicate, KeyDef, List, NoMemory, TableDef};

/// The type of a column.
fn stored_type(kind: SqlType) -> ColType
    requires { is_ill_type kind ≡ false }
    ensures { result ≡ column_type kind }
{
    match kind {
        SqlType::Int => ColType::Int,
        SqlType::BigInt => ColType::BigInt,
        SqlType::Varchar(most) => ColType::Varchar(most as u16),
    }
}

/// The number of the column of a name, counted on.
fn place_from(columns: &[Column], name: &Bytes) -> Option<u16>
    requires { length columns.now < 2 ^ 16 }
    ensures { result ≡ place_from 0 columns.now name.now }
{
    let mut at = 0;
    for column in columns {
        if *name == column.name {
            return Some(at);
        }
        at += 1;
    }
    None
}

/// The number of the column of a name, None where there is none.
fn place_among(columns: &[Column], name: &Bytes) -> Option<u16>
    requires { length columns.now < 2 ^ 16 }
    ensures { result ≡ place_among (map (λ (c : Column). c.name) columns.now) name.now }
{
    place_from(columns, name)
}

/// The number of the first AUTO_INCREMENT column, counted on.
fn auto_from(columns: &[Column]) -> Option<u16>
    requires { length columns.now < 2 ^ 16 }
    ensures { result ≡ auto_from 0 columns.now }
{
    let mut at = 0;
    for column in columns {
        if column.auto_increment {
            return Some(at);
        }
        at += 1;
    }
    None
}

/// The number of the first AUTO_INCREMENT column.
fn auto_place(columns: &[Column]) -> Option<u16>
    requires { length columns.now < 2 ^ 16 }
    ensures { result ≡ auto_place columns.now }
{
    auto_from(columns)
}

/// The numbers of the columns of some names.
fn places_of(alloc: Global, columns: &[Column], names: &List<Bytes>) -> Result<List<u16>, NoMemory>
    requires { length columns.now < 2 ^ 16 }
    ensures { IfOk result (λ places. places ≡ places_of (map (λ (c : Column). c.name) columns.now) names.now) }
{
    let mut places = List::new(alloc);
    for name in names.as_slice() {
        if let Some(place) = place_among(columns, name) {
            places.push(place)?;
        }
    }
    Ok(places)
}

fn column_of(alloc: Global, column: &Column) -> Result<ColumnDef, NoMemory>
    requires { is_ill_type column.now.kind ≡ false }
    ensures { IfOk result (λ c. c ≡ defined_column column.now) }
{
    Ok(ColumnDef {
        name: column.name.duplicate(alloc)?,
        kind: stored_type(column.kind),
        nullable: column.nullable,
        preset: column.preset.duplicate(alloc)?,
    })
}

fn columns_of(alloc: Global, columns: &[Column]) -> Result<List<ColumnDef>, NoMemory>
    requires { list_any (λ (c : Column). is_ill_type c.kind) columns.now ≡ false }
    ensures { IfOk result (λ all. all ≡ map defined_column columns.now) }
{
    let mut all = List::with_capacity(alloc, columns.len())?;
    for column in columns {
        all.push(column_of(alloc, column)?)?;
    }
    Ok(all)
}

fn key_of(alloc: Global, columns: &[Column], key: &UniqueKey) -> Result<KeyDef, NoMemory>
    requires { length columns.now < 2 ^ 16 }
    ensures { IfOk result (λ k. k ≡ defined_key (map (λ (c : Column). c.name) columns.now) key.now) }
{
    let name = key.name.duplicate(alloc)?;
    let columns = places_of(alloc, columns, &key.columns)?;
    Ok(KeyDef { name, columns })
}

fn keys_of(alloc: Global, columns: &[Column], keys: &[UniqueKey]) -> Result<List<KeyDef>, NoMemory>
    requires { length columns.now < 2 ^ 16 }
    ensures { IfOk result (λ all. all ≡ map (defined_key (map (λ (c : Column). c.name) columns.now)) keys.now) }
{
    let mut all = List::with_capacity(alloc, keys.len())?;
    for key in keys {
        all.push(key_of(alloc, columns, key)?)?;
    }
    Ok(all)
}

fn primary_of(alloc: Global, t: &CreateTable) -> Result<List<u16>, NoMemory>
    requires { length t.now.columns < 2 ^ 16 }
    ensures { IfOk result (λ places. places ≡ option_map_or (places_of (names_of_columns t.now)) t.now.primary []) }
{
    match &t.primary {
        None => Ok(List::new(alloc)),
        Some(names) => places_of(alloc, t.columns.as_slice(), names),
    }
}

/// The definition that a CREATE TABLE makes, whose types are none of them ill.
pub fn definition_of(alloc: Global, t: &CreateTable) -> Result<TableDef, NoMemory>
    requires few { length t.now.columns < 2 ^ 16 }
    requires types { list_any (λ (c : Column). is_ill_type c.kind) t.now.columns ≡ false }
    ensures { IfOk result (λ d. d ≡ definition_of t.now) }
{
    let columns = t.columns.as_slice();
    Ok(TableDef {
        name: t.name.duplicate(alloc)?,
        columns: columns_of(alloc, columns)?,
        primary: primary_of(alloc, t)?,
        uniques: keys_of(alloc, columns, t.uniques.as_slice())?,
        auto: auto_place(columns),
    })
}
