//! Rows of events at the ends of what a row can be: 64 columns, numbers at both ends, texts where their length takes a
//! byte more.
use crate::tests::{bytes, expect_all, is_change};
use event_codec::{MapView, RowsKind, RowsView};
use row_image::{rows_fit, rows_of};
use sharing::Shared;
use std::alloc::Global;
use val_types::{Bytes, Change, List, NoMemory, Row, Value};

/// A table `t` of columns of these kinds, each of which may be NULL.
fn map<'a>(kinds: &'a [u8], metadata: &'a [u8], nulls: &'a [u8]) -> MapView<'a> {
    MapView {
        stamp: 0,
        length: 0,
        id: 1,
        name: b"t",
        kinds,
        metadata,
        nulls,
    }
}

fn write(columns: u64, rows: &[u8]) -> RowsView<'_> {
    RowsView {
        stamp: 0,
        length: 0,
        kind: RowsKind::Write,
        id: 1,
        ends: true,
        columns,
        rows,
    }
}

/// The change that puts a row into `t`.
fn inserted(alloc: Global, row: Row) -> Result<Change, NoMemory> {
    Ok(Change::Insert {
        table: Shared::new(alloc, bytes(alloc, b"t"))?,
        row: Shared::new(alloc, row)?,
    })
}

/// Whether bytes are just one row of a table, and are none where their last byte is missing.
fn is_row(alloc: Global, map: &MapView<'_>, of: &[u8], row: Row) -> bool {
    let columns = map.kinds.len() as u64;
    let short = of.split_at(of.len().saturating_sub(1)).0;
    if rows_fit(map, &write(columns, short)) || !rows_fit(map, &write(columns, of)) {
        return false;
    }
    is_change(
        rows_of(alloc, map, &write(columns, of)),
        inserted(alloc, row),
    )
}

/// The codes of 64 columns of INT.
static INTS: [u8; 64] = [3; 64];

/// Whether 64 columns may be NULL.
fn are_null(alloc: Global) -> bool {
    let mut row = List::new(alloc);
    for _column in 0..64u32 {
        let _ = row.push(Value::Null);
    }
    is_row(alloc, &map(&INTS, &[], &[0xff; 8]), &[0xff; 8], row)
}

/// Whether the least byte of each of 64 columns is its number, but for the last, which is NULL.
fn have_values(alloc: Global) -> bool {
    let mut row = List::new(alloc);
    let mut of = bytes(alloc, &[0, 0, 0, 0, 0, 0, 0, 0x80]);
    for column in 0..63u8 {
        let _ = row.push(Value::Int(i64::from(column)));
        let _ = of.extend_from_slice(&[column, 0, 0, 0]);
    }
    let _ = row.push(Value::Null);
    is_row(alloc, &map(&INTS, &[], &[0xff; 8]), of.as_slice(), row)
}

/// Rows of an INT and a BIGINT at their ends.
static NUMBERS: [(&[u8], i64, i64); 3] = [
    (
        &[0, 0, 0, 0, 0x80, 0, 0, 0, 0, 0, 0, 0, 0x80],
        -2147483648,
        i64::MIN,
    ),
    (
        &[
            0, 0xff, 0xff, 0xff, 0x7f, 0xff, 0xff, 0xff, 0xff, 0xff, 0xff, 0xff, 0x7f,
        ],
        2147483647,
        i64::MAX,
    ),
    (
        &[0, 0xff, 0xff, 0xff, 0xff, 0, 0, 0, 0, 1, 0, 0, 0],
        -1,
        4294967296,
    ),
];

/// A row of two numbers.
fn two(alloc: Global, int: i64, big: i64) -> Row {
    let mut row = List::new(alloc);
    let _ = row.push(Value::Int(int));
    let _ = row.push(Value::Int(big));
    row
}

/// How many are rows, from the first on.
fn held_numbers(alloc: Global) -> usize {
    for (i, (of, int, big)) in NUMBERS.iter().enumerate() {
        let row = two(alloc, *int, *big);
        if !is_row(alloc, &map(&[3, 8], &[], &[3]), *of, row) {
            return i;
        }
    }
    NUMBERS.len()
}

/// The greatest length of a VARCHAR, a length with its bytes: one where the greatest is at most 255, else two.
static TEXTS: [(&[u8], &[u8], usize); 5] = [
    (&[0xff, 0], &[0xff], 255),
    (&[0, 1], &[0xff, 0], 255),
    (&[0, 1], &[0, 1], 256),
    (&[0xff, 0xff], &[0xff, 0xff], 65535),
    (&[0xff, 0xff], &[1, 0], 1),
];

/// So many times `a`, behind some bytes.
fn letters(alloc: Global, front: &[u8], count: usize) -> Bytes {
    let mut letters = bytes(alloc, front);
    for _letter in 0..count {
        let _ = letters.push(0x61);
    }
    letters
}

/// Whether a text of so many letters is a row.
fn is_text_row(alloc: Global, metadata: &[u8], length: &[u8], count: usize) -> bool {
    let mut of = bytes(alloc, &[0]);
    let _ = of.append(letters(alloc, length, count));
    let mut row = List::new(alloc);
    let _ = row.push(Value::Text(letters(alloc, &[], count)));
    is_row(alloc, &map(&[15], metadata, &[1]), of.as_slice(), row)
}

/// How many texts are rows, from the first on.
fn held_texts(alloc: Global) -> usize {
    for (i, (metadata, length, count)) in TEXTS.iter().enumerate() {
        if !is_text_row(alloc, *metadata, *length, *count) {
            return i;
        }
    }
    TEXTS.len()
}

#[test]
fn rows_at_their_ends(rt: HostRuntime) {
    let alloc = rt.alloc();
    assert!(rt; are_null(alloc) && have_values(alloc));
    expect_all(&rt, "numbers at their ends", held_numbers(alloc), 3);
    expect_all(&rt, "texts at their ends", held_texts(alloc), 5);
}
