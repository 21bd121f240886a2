//! Tables, by hand.
ghost use Rattle.std.specs.Prelude.{◌≡◌, []};

use super::{Part, bytes, expect_all, is_value, values};
use row_store::{RowRefusal, Tables};
use sharing::Shared;
use std::alloc::Global;
use val_types::{Bytes, ColType, ColumnDef, KeyDef, List, Row, TableDef};

/// A number, a text and two numbers.
static COLUMNS: [(&[u8], ColType); 4] = [
    (b"id", ColType::Int),
    (b"k", ColType::Varchar(4)),
    (b"a", ColType::BigInt),
    (b"b", ColType::BigInt),
];

fn columns(alloc: Global) -> List<ColumnDef> {
    let mut columns = List::new(alloc);
    for (name, kind) in &COLUMNS {
        let _ = columns.push(ColumnDef {
            name: bytes(alloc, *name),
            kind: *kind,
            nullable: true,
            preset: None,
        });
    }
    columns
}

/// The unique keys `u` of the text and `w` of both numbers.
static UNIQUES: [(&[u8], &[u16]); 2] = [(b"u", &[1]), (b"w", &[3, 2])];

fn places(alloc: Global, of: &[u16]) -> List<u16> {
    let mut places = List::new(alloc);
    let _ = places.extend_from_slice(of);
    places
}

fn uniques(alloc: Global) -> List<KeyDef> {
    let mut uniques = List::new(alloc);
    for (name, columns) in &UNIQUES {
        let _ = uniques.push(KeyDef {
            name: bytes(alloc, *name),
            columns: places(alloc, *columns),
        });
    }
    uniques
}

/// The table `t` of those columns and keys.
pub(super) fn definition(alloc: Global, primary: &[u16]) -> TableDef {
    TableDef {
        name: bytes(alloc, b"t"),
        columns: columns(alloc),
        primary: places(alloc, primary),
        uniques: uniques(alloc),
        auto: None,
    }
}

/// What is done to the rows of a table, and what it answers.
enum Step {
    Insert(&'static [Part], Result<(), RowRefusal>),
    Update(&'static [Part], &'static [Part], Result<(), RowRefusal>),
    Delete(&'static [Part], Result<(), RowRefusal>),
}

const DONE: Result<(), RowRefusal> = Ok(());

const ABSENT: Result<(), RowRefusal> = Err(RowRefusal::Absent);

const ID: Result<(), RowRefusal> = Err(RowRefusal::Taken { which: 0 });

const U: Result<(), RowRefusal> = Err(RowRefusal::Taken { which: 1 });

const W: Result<(), RowRefusal> = Err(RowRefusal::Taken { which: 2 });

static BY_NUMBER: [Step; 18] = [
    Step::Insert(
        &[Part::Int(5), Part::Text(b"a"), Part::Int(1), Part::Int(1)],
        DONE,
    ),
    Step::Insert(
        &[Part::Int(5), Part::Text(b"a"), Part::Int(1), Part::Int(1)],
        ID,
    ),
    Step::Insert(
        &[Part::Int(5), Part::Text(b"b"), Part::Int(2), Part::Int(2)],
        ID,
    ),
    Step::Insert(
        &[Part::Int(2), Part::Text(b"a"), Part::Int(1), Part::Int(1)],
        U,
    ),
    Step::Insert(
        &[Part::Int(2), Part::Text(b"b"), Part::Int(1), Part::Int(1)],
        W,
    ),
    Step::Insert(&[Part::Int(2), Part::Null, Part::Int(1), Part::Null], DONE),
    Step::Insert(&[Part::Int(3), Part::Null, Part::Int(1), Part::Null], DONE),
    Step::Update(
        &[Part::Int(9)],
        &[Part::Int(5), Part::Null, Part::Null, Part::Null],
        ABSENT,
    ),
    Step::Update(
        &[Part::Int(2)],
        &[Part::Int(2), Part::Text(b"a"), Part::Null, Part::Null],
        U,
    ),
    Step::Update(
        &[Part::Int(2)],
        &[Part::Int(3), Part::Text(b"a"), Part::Null, Part::Null],
        ID,
    ),
    Step::Update(
        &[Part::Int(5)],
        &[Part::Int(5), Part::Text(b"a"), Part::Int(1), Part::Int(7)],
        DONE,
    ),
    Step::Update(
        &[Part::Int(5)],
        &[Part::Int(1), Part::Text(b"a"), Part::Int(1), Part::Int(7)],
        DONE,
    ),
    Step::Insert(
        &[Part::Int(5), Part::Text(b"b"), Part::Int(1), Part::Int(1)],
        DONE,
    ),
    Step::Delete(&[Part::Int(6)], ABSENT),
    Step::Delete(&[Part::Int(3)], DONE),
    Step::Delete(&[Part::Int(3)], ABSENT),
    Step::Insert(
        &[Part::Int(3), Part::Text(b"A"), Part::Int(1), Part::Int(8)],
        DONE,
    ),
    Step::Insert(&[Part::Int(-3), Part::Null, Part::Int(1), Part::Int(8)], W),
];

static BY_TEXT: [Step; 5] = [
    Step::Insert(
        &[Part::Int(1), Part::Text(b"\xff"), Part::Null, Part::Null],
        DONE,
    ),
    Step::Insert(
        &[Part::Int(2), Part::Text(b"\x80a"), Part::Null, Part::Null],
        DONE,
    ),
    Step::Insert(
        &[Part::Int(3), Part::Text(b"\x7f"), Part::Null, Part::Null],
        DONE,
    ),
    Step::Insert(
        &[Part::Int(4), Part::Text(b"\xff"), Part::Null, Part::Null],
        ID,
    ),
    Step::Delete(&[Part::Text(b"\x80")], ABSENT),
];

static BY_FOUR: [Step; 4] = [
    Step::Insert(
        &[Part::Int(1), Part::Text(b"b"), Part::Int(2), Part::Int(1)],
        DONE,
    ),
    Step::Insert(
        &[Part::Int(1), Part::Text(b"a"), Part::Int(2), Part::Int(3)],
        DONE,
    ),
    Step::Insert(
        &[Part::Int(1), Part::Text(b"c"), Part::Int(1), Part::Int(3)],
        DONE,
    ),
    Step::Update(
        &[Part::Int(1), Part::Int(2), Part::Text(b"b"), Part::Int(1)],
        &[Part::Int(1), Part::Text(b"a"), Part::Int(2), Part::Int(3)],
        ID,
    ),
];

/// Inserts a row that fits; absent where it does not.
fn insert(
    alloc: Global,
    tables: &mut Tables,
    table: &Bytes,
    parts: &[Part],
) -> Result<(), RowRefusal> {
    let row = values(alloc, parts);
    if !tables.fits(table, &row) {
        return Err(RowRefusal::Absent);
    }
    tables.insert(table, Shared::new(alloc, row)?)
}

/// Replaces a row by one that fits; absent where it does not.
fn update(
    alloc: Global,
    tables: &mut Tables,
    table: &Bytes,
    key: &[Part],
    parts: &[Part],
) -> Result<(), RowRefusal> {
    let key = values(alloc, key);
    let row = values(alloc, parts);
    if !tables.fits(table, &row) {
        return Err(RowRefusal::Absent);
    }
    tables.update(table, &key, Shared::new(alloc, row)?)
}

/// Deletes a row.
fn delete(
    alloc: Global,
    tables: &mut Tables,
    table: &Bytes,
    key: &[Part],
) -> Result<(), RowRefusal> {
    let key = values(alloc, key);
    match tables.delete(table, &key) {
        Ok(_) => Ok(()),
        Err(refusal) => Err(refusal),
    }
}

/// Whether a step answers as it should.
fn answers(alloc: Global, tables: &mut Tables, table: &Bytes, step: &Step) -> bool {
    match step {
        Step::Insert(parts, wanted) => insert(alloc, tables, table, *parts) == *wanted,
        Step::Update(key, parts, wanted) => {
            update(alloc, tables, table, *key, *parts) == *wanted
        }
        Step::Delete(key, wanted) => delete(alloc, tables, table, *key) == *wanted,
    }
}

/// How many steps in a new table do so, from the first on.
fn held(alloc: Global, tables: &mut Tables, primary: &[u16], steps: &[Step]) -> usize
    requires { tables.old.tables ≡ [] }
{
    if tables.create(&definition(alloc, primary)).is_err() {
        return 0;
    }
    let table = bytes(alloc, b"t");
    for (i, step) in steps.iter().enumerate() {
        if !answers(alloc, tables, &table, step) {
            return i;
        }
    }
    steps.len()
}

/// Whether a row is these parts.
fn is_row(row: &Row, parts: &[Part]) -> bool {
    let mut same = row.len() == parts.len();
    for (value, part) in row.as_slice().iter().zip(parts) {
        same = same && is_value(value, part);
    }
    same
}

fn are_rows(rows: &List<Row>, wanted: &[&'static [Part]]) -> bool {
    let mut same = rows.len() == wanted.len();
    for (row, parts) in rows.as_slice().iter().zip(wanted) {
        same = same && is_row(row, *parts);
    }
    same
}

/// Whether the table has these keys.
fn has_keys(alloc: Global, tables: &Tables, wanted: &[&'static [Part]]) -> bool {
    match tables.keys(&bytes(alloc, b"t")) {
        Ok(keys) => are_rows(&keys, wanted),
        Err(_) => false,
    }
}

/// The keys that the first steps leave.
static NUMBERED: [&[Part]; 4] = [
    &[Part::Int(1)],
    &[Part::Int(2)],
    &[Part::Int(3)],
    &[Part::Int(5)],
];

/// Whether rows stand in the way of themselves in one place and not in another.
fn stand_in_way(rows: &List<Shared<Row>>, same: &Tables, cleared: &Tables) -> bool {
    let mut stand = rows.len() == 4;
    for row in rows.as_slice() {
        stand = stand
            && cleared.key_in_way(0, row.get()) == None
            && same.key_in_way(0, row.get()) == Some(0)
            && same.row_in_way(0, row.get()) == Some(row.get());
    }
    stand
}

/// Whether rows that are shared, and tables that are copied, stay when the table, which is in the first place, is cleared.
fn stays_shared(alloc: Global, tables: &mut Tables) -> bool {
    let table = bytes(alloc, b"t");
    let is_first = tables.place(&table) == Some(0);
    match (tables.rows(0), tables.copy()) {
        (Ok(rows), Ok(same)) => {
            tables.clear(&table);
            is_first && stand_in_way(&rows, &same, tables)
        }
        _ => false,
    }
}

/// The keys that texts are, in byte order.
static LETTERED: [&[Part]; 3] = [
    &[Part::Text(b"\x7f")],
    &[Part::Text(b"\x80a")],
    &[Part::Text(b"\xff")],
];

/// The keys of four columns.
static OF_FOUR: [&[Part]; 3] = [
    &[Part::Int(1), Part::Int(1), Part::Text(b"c"), Part::Int(3)],
    &[Part::Int(1), Part::Int(2), Part::Text(b"a"), Part::Int(3)],
    &[Part::Int(1), Part::Int(2), Part::Text(b"b"), Part::Int(1)],
];

/// Whether no key is left, once the table is cleared, and once it is dropped.
fn is_emptied(alloc: Global, tables: &mut Tables) -> bool {
    let table = bytes(alloc, b"t");
    tables.clear(&table);
    let cleared = has_keys(alloc, tables, &[]);
    tables.drop_table(&table);
    cleared && has_keys(alloc, tables, &[])
}

#[test]
fn rows_by_number(rt: HostRuntime) {
    let mut tables = Tables::new(rt.alloc());
    let held = held(rt.alloc(), &mut tables, &[0], &BY_NUMBER);
    expect_all(&rt, "keys in the way", held, 18);
    tables.tidy();
    assert!(rt; has_keys(rt.alloc(), &tables, &NUMBERED));
    assert!(rt; stays_shared(rt.alloc(), &mut tables));
    assert!(rt; has_keys(rt.alloc(), &tables, &[]));
}

#[test]
fn rows_by_text(rt: HostRuntime) {
    let mut tables = Tables::new(rt.alloc());
    let held = held(rt.alloc(), &mut tables, &[1], &BY_TEXT);
    expect_all(&rt, "texts in byte order", held, 5);
    assert!(rt; has_keys(rt.alloc(), &tables, &LETTERED));
}

#[test]
fn rows_by_four_columns(rt: HostRuntime) {
    let mut tables = Tables::new(rt.alloc());
    let held = held(rt.alloc(), &mut tables, &[0, 2, 1, 3], &BY_FOUR);
    expect_all(&rt, "keys of four columns", held, 4);
    assert!(rt; has_keys(rt.alloc(), &tables, &OF_FOUR));
    assert!(rt; is_emptied(rt.alloc(), &mut tables));
}
