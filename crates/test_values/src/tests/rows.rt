//! Values in columns, rows in tables, and their keys.

use super::{Part, bytes, expect_all, row, value};
use std::alloc::Global;
use val_types::{
    ColType, ColumnDef, Duplicate, List, Row, SqlError, TableDef, Value, fits, key_of, row_fits,
};

/// A column of a type, NULL where it may be.
fn column(alloc: Global, kind: ColType, nullable: bool) -> ColumnDef {
    ColumnDef {
        name: bytes(alloc, b"c"),
        kind,
        nullable,
        preset: Some(Value::Int(7)),
    }
}

/// Types with values and the error that putting them in gives, 0 for none.
static FITTING: [(ColType, Part, SqlError); 22] = [
    (ColType::Int, Part::Null, 0),
    (ColType::Int, Part::Int(0), 0),
    (ColType::Int, Part::Int(2_147_483_647), 0),
    (ColType::Int, Part::Int(2_147_483_648), 1264),
    (ColType::Int, Part::Int(-2_147_483_648), 0),
    (ColType::Int, Part::Int(-2_147_483_649), 1264),
    (ColType::Int, Part::Int(i64::MAX), 1264),
    (ColType::Int, Part::Text(b"1"), 30002),
    (ColType::Int, Part::Text(b""), 30002),
    (ColType::BigInt, Part::Null, 0),
    (ColType::BigInt, Part::Int(i64::MAX), 0),
    (ColType::BigInt, Part::Int(i64::MIN), 0),
    (ColType::BigInt, Part::Text(b"1"), 30002),
    (ColType::Varchar(3), Part::Null, 0),
    (ColType::Varchar(3), Part::Text(b""), 0),
    (ColType::Varchar(3), Part::Text(b"abc"), 0),
    (ColType::Varchar(3), Part::Text(b"abcd"), 1406),
    (ColType::Varchar(3), Part::Text(b"\xc3\xa4\xc3\xb6"), 1406),
    (ColType::Varchar(0), Part::Text(b""), 0),
    (ColType::Varchar(0), Part::Text(b"a"), 1406),
    (ColType::Varchar(3), Part::Int(1), 30002),
    (ColType::Varchar(65_535), Part::Text(b"abcd"), 0),
];

/// What putting a value into a column of a type gives, 0 for none.
fn error_of(alloc: Global, kind: ColType, part: &Part) -> SqlError {
    match fits(&column(alloc, kind, false), &value(alloc, part)) {
        Ok(()) => 0,
        Err(error) => error,
    }
}

/// How many values fit their columns or do not, from the first on.
fn held_by_values(alloc: Global) -> usize {
    for (i, (kind, part, error)) in FITTING.iter().enumerate() {
        if error_of(alloc, *kind, part) != *error {
            return i;
        }
    }
    FITTING.len()
}

/// The types of a table's columns, and where NULL may be.
static COLUMNS: [(ColType, bool); 3] = [
    (ColType::Int, false),
    (ColType::Int, true),
    (ColType::Varchar(2), true),
];

fn columns(alloc: Global) -> List<ColumnDef> {
    let mut columns = List::new(alloc);
    for (kind, nullable) in &COLUMNS {
        let _ = columns.push(column(alloc, *kind, *nullable));
    }
    columns
}

fn places(alloc: Global, of: &[u16]) -> List<u16> {
    let mut places = List::new(alloc);
    let _ = places.extend_from_slice(of);
    places
}

/// A table with those columns and the primary key (third, first).
fn table(alloc: Global) -> TableDef {
    TableDef {
        name: List::new(alloc),
        columns: columns(alloc),
        primary: places(alloc, &[2, 0]),
        uniques: List::new(alloc),
        auto: Some(0),
    }
}

/// Rows, their keys, and whether they may stand in the table.
static ROWS: [(&[Part], &[Part], bool); 8] = [
    (
        &[Part::Int(1), Part::Null, Part::Text(b"ab")],
        &[Part::Text(b"ab"), Part::Int(1)],
        true,
    ),
    (
        &[Part::Int(1), Part::Int(2), Part::Null],
        &[Part::Null, Part::Int(1)],
        true,
    ),
    (
        &[Part::Null, Part::Int(2), Part::Null],
        &[Part::Null, Part::Null],
        false,
    ),
    (
        &[Part::Int(1), Part::Int(2)],
        &[Part::Null, Part::Int(1)],
        false,
    ),
    (
        &[Part::Int(1), Part::Int(2), Part::Null, Part::Null],
        &[Part::Null, Part::Int(1)],
        false,
    ),
    (
        &[Part::Int(1), Part::Int(2), Part::Text(b"abc")],
        &[Part::Text(b"abc"), Part::Int(1)],
        false,
    ),
    (
        &[Part::Int(1), Part::Text(b"2"), Part::Null],
        &[Part::Null, Part::Int(1)],
        false,
    ),
    (&[], &[Part::Null, Part::Null], false),
];

/// Whether a row has this key.
fn has_key(alloc: Global, table: &TableDef, found: &Row, key: &[Part]) -> bool {
    match key_of(alloc, table, found) {
        Ok(own) => own == row(alloc, key),
        Err(_) => false,
    }
}

/// How many rows may stand in a table or not, and have their keys, from the first on.
fn held_by_rows(alloc: Global, table: &TableDef) -> usize {
    for (i, (parts, key, fit)) in ROWS.iter().enumerate() {
        let row = row(alloc, *parts);
        if row_fits(&table.columns, &row) != *fit || !has_key(alloc, table, &row, *key) {
            return i;
        }
    }
    ROWS.len()
}

/// Whether a copy of a table is equal.
fn is_copied(alloc: Global, table: &TableDef) -> bool {
    match table.duplicate(alloc) {
        Ok(copy) => copy == *table,
        Err(_) => false,
    }
}

#[test]
fn columns_and_tables(rt: HostRuntime) {
    let alloc = rt.alloc();
    expect_all(
        &rt,
        "values that fit their columns",
        held_by_values(alloc),
        22,
    );
    let table = table(alloc);
    expect_all(&rt, "rows and their keys", held_by_rows(alloc, &table), 8);
    assert!(rt; is_copied(alloc, &table));
}
