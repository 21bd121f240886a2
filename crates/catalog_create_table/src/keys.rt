//! The names of columns and keys in a CREATE TABLE.
ghost use Rattle.std.specs.Prelude.{◌≡◌, false, map, length, nat_lt, slice_get};
ghost use Rattle.std.specs.List.{list_any};
ghost use Rattle.std.specs.Option.{option_map_or};
ghost use Rattle.sql_tree.specs.declared.statements.Column.{Column};
ghost use Rattle.sql_tree.specs.declared.statements.UniqueKey.{UniqueKey};
ghost use Rattle.catalog_checks.specs.catalog_rules.Names.{has_twice, is_among, same_name};
ghost use Rattle.catalog_checks.specs.catalog_rules.Defined.{names_of_columns};
ghost use Rattle.catalog_checks.specs.catalog_rules.Creating.{begins_key, has_unknown, keys_of};

use catalog_checks::has_twice;
use sql_tree::{Column, CreateTable, UniqueKey};
use val_types::{Bytes, List};

/// Whether a name is that of a column.
fn is_column(columns: &[Column], name: &Bytes) -> bool
    ensures { result ≡ is_among (map (λ (c : Column). c.name) columns.now) name.now }
{
    for column in columns {
        if *name == column.name {
            return true;
        }
    }
    false
}

/// Whether a column stands twice.
pub(crate) fn has_columns_twice(columns: &[Column]) -> bool
    ensures { result ≡ has_twice (map (λ (c : Column). c.name) columns.now) }
{
    for (i, column) in columns.iter().enumerate() {
        if is_column(&columns[i + 1..], &column.name) {
            return true;
        }
    }
    false
}

fn is_key(keys: &[UniqueKey], name: &Bytes) -> bool
    ensures { result ≡ is_among (map (λ (k : UniqueKey). k.name) keys.now) name.now }
{
    for key in keys {
        if *name == key.name {
            return true;
        }
    }
    false
}

/// Whether the name of a key stands twice.
pub(crate) fn has_keys_twice(keys: &[UniqueKey]) -> bool
    ensures { result ≡ has_twice (map (λ (k : UniqueKey). k.name) keys.now) }
{
    for (i, key) in keys.iter().enumerate() {
        if is_key(&keys[i + 1..], &key.name) {
            return true;
        }
    }
    false
}

/// Whether one of some names is no column.
fn has_unknown(columns: &[Column], names: &[Bytes]) -> bool
    ensures { result ≡ has_unknown (map (λ (c : Column). c.name) columns.now) names.now }
{
    for name in names {
        if !is_column(columns, name) {
            return true;
        }
    }
    false
}

fn uniques_twice(keys: &[UniqueKey]) -> bool
    ensures { result ≡ list_any has_twice (map (λ (k : UniqueKey). k.columns) keys.now) }
{
    for key in keys {
        if has_twice(key.columns.as_slice()) {
            return true;
        }
    }
    false
}

/// Whether a key has a column twice.
pub(crate) fn key_twice(t: &CreateTable) -> bool
    ensures { result ≡ list_any has_twice (keys_of t.now) }
{
    match &t.primary {
        None => uniques_twice(t.uniques.as_slice()),
        Some(names) => has_twice(names.as_slice()) || uniques_twice(t.uniques.as_slice()),
    }
}

fn uniques_unknown(columns: &[Column], keys: &[UniqueKey]) -> bool
    ensures { result ≡ list_any (has_unknown (map (λ (c : Column). c.name) columns.now)) (map (λ (k : UniqueKey). k.columns) keys.now) }
{
    for key in keys {
        if has_unknown(columns, key.columns.as_slice()) {
            return true;
        }
    }
    false
}

/// Whether a key names a column that is none.
pub(crate) fn key_unknown(t: &CreateTable) -> bool
    ensures { result ≡ list_any (has_unknown (names_of_columns t.now)) (keys_of t.now) }
{
    let columns = t.columns.as_slice();
    match &t.primary {
        None => uniques_unknown(columns, t.uniques.as_slice()),
        Some(names) => {
            has_unknown(columns, names.as_slice()) || uniques_unknown(columns, t.uniques.as_slice())
        }
    }
}

fn uniques_wide(keys: &[UniqueKey]) -> bool
    ensures { result ≡ list_any (λ columns. nat_lt 4 (length columns)) (map (λ (k : UniqueKey). k.columns) keys.now) }
{
    for key in keys {
        if key.columns.len() > 4 {
            return true;
        }
    }
    false
}

/// Whether a key has more than four columns.
pub(crate) fn key_wide(t: &CreateTable) -> bool
    ensures { result ≡ list_any (λ columns. nat_lt 4 (length columns)) (keys_of t.now) }
{
    match &t.primary {
        None => uniques_wide(t.uniques.as_slice()),
        Some(names) => names.len() > 4 || uniques_wide(t.uniques.as_slice()),
    }
}

/// Whether a name stands first among some.
fn is_first(names: &List<Bytes>, name: &Bytes) -> bool
    ensures { result ≡ option_map_or (same_name name.now) (slice_get names.now 0) false }
{
    match names.get(0) {
        None => false,
        Some(first) => *name == *first,
    }
}

fn begins_unique(keys: &[UniqueKey], column: &Column) -> bool
    ensures { result ≡ begins_key (map (λ (k : UniqueKey). k.columns) keys.now) column.now }
{
    for key in keys {
        if is_first(&key.columns, &column.name) {
            return true;
        }
    }
    false
}

/// Whether a column is the first of a key.
pub(crate) fn begins_key(t: &CreateTable, column: &Column) -> bool
    ensures { result ≡ begins_key (keys_of t.now) column.now }
{
    match &t.primary {
        None => begins_unique(t.uniques.as_slice(), column),
        Some(names) => {
            is_first(names, &column.name) || begins_unique(t.uniques.as_slice(), column)
        }
    }
}
