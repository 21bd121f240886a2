//! Rows of events: whether they fit the map of their table, and the changes that they are.
use crate::tests::{bytes, expect_all, is_change};
use event_codec::{MapView, RowsKind, RowsView};
use row_image::{rows_fit, rows_of};
use sharing::Shared;
use std::alloc::Global;
use val_types::{Change, List, NoMemory, Row, Value};

/// A table `t` of INT, BIGINT and VARCHAR(300).
static MAP: MapView = MapView {
    stamp: 0,
    length: 0,
    id: 1,
    name: b"t",
    kinds: &[3, 8, 15],
    metadata: &[0x2c, 0x01],
    nulls: &[7],
};

fn event(kind: RowsKind, columns: u64, rows: &[u8]) -> RowsView<'_> {
    RowsView {
        stamp: 0,
        length: 0,
        kind,
        id: 1,
        ends: true,
        columns,
        rows,
    }
}

/// Which kinds, counts of columns and bytes are rows of the table.
static CASES: [(RowsKind, u64, &[u8], bool); 10] = [
    (
        RowsKind::Write,
        3,
        &[0x02, 0xfe, 0xff, 0xff, 0xff, 0x02, 0x00, 0x61, 0x62],
        true,
    ),
    (
        RowsKind::Delete,
        3,
        &[0x05, 0x01, 0, 0, 0, 0, 0, 0, 0],
        true,
    ),
    (
        RowsKind::Write,
        2,
        &[0x02, 0xfe, 0xff, 0xff, 0xff, 0x02, 0x00, 0x61, 0x62],
        false,
    ),
    (
        RowsKind::Update,
        3,
        &[0x02, 0xfe, 0xff, 0xff, 0xff, 0x02, 0x00, 0x61, 0x62],
        false,
    ),
    (RowsKind::Write, 3, &[], false),
    (RowsKind::Write, 3, &[0x07, 0x07, 0x07], true),
    (RowsKind::Update, 3, &[0x07, 0x07, 0x07], false),
    (RowsKind::Update, 3, &[0x07, 0x07, 0xff, 0x07], true),
    (RowsKind::Write, 3, &[0x03, 0x2d, 0x01], false),
    (RowsKind::Write, 3, &[0x03, 0x01, 0x00], false),
];

/// How many of them fit or do not, from the first on.
fn held() -> usize {
    for (i, (kind, columns, rows, fits)) in CASES.iter().enumerate() {
        if rows_fit(&MAP, &event(*kind, *columns, *rows)) != *fits {
            return i;
        }
    }
    CASES.len()
}

/// The rows (-2, NULL, 'ab') and (NULL, 1, NULL).
static BOTH: [u8; 18] = [
    0x02, 0xfe, 0xff, 0xff, 0xff, 0x02, 0x00, 0x61, 0x62, 0x05, 0x01, 0, 0, 0, 0, 0, 0, 0,
];

/// A row of three values.
fn row(alloc: Global, first: Value, second: Value, third: Value) -> Result<Shared<Row>, NoMemory> {
    let mut row = List::new(alloc);
    let _ = row.push(first);
    let _ = row.push(second);
    let _ = row.push(third);
    Shared::new(alloc, row)
}

/// The change of the first of both rows to the second.
fn change(alloc: Global) -> Result<Change, NoMemory> {
    let text = Value::Text(bytes(alloc, b"ab"));
    let before = row(alloc, Value::Int(-2), Value::Null, text)?;
    let after = row(alloc, Value::Null, Value::Int(1), Value::Null)?;
    Ok(Change::Update {
        table: Shared::new(alloc, bytes(alloc, b"t"))?,
        before,
        after,
    })
}

#[test]
fn rows_and_changes(rt: HostRuntime) {
    expect_all(&rt, "rows that fit their map", held(), 10);
    let found = rows_of(rt.alloc(), &MAP, &event(RowsKind::Update, 3, &BOTH));
    assert!(rt; is_change(found, change(rt.alloc())));
}
