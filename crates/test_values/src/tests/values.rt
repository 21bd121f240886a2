//! Texts and order of values.

use super::{Part, expect_all, is_text, row, value};
use std::alloc::Global;
use val_types::{Row, key_cmp, row_text, value_text};

/// Values with their text.
static TEXTS: [(Part, &[u8]); 14] = [
    (Part::Null, b"NULL"),
    (Part::Int(0), b"0"),
    (Part::Int(-5), b"-5"),
    (Part::Int(i64::MAX), b"9223372036854775807"),
    (Part::Int(i64::MIN), b"-9223372036854775808"),
    (Part::Text(b""), b"''"),
    (Part::Text(b"pen ~!\""), b"'pen ~!\"'"),
    (Part::Text(b"it's"), b"X'69742773'"),
    (Part::Text(b"a\\b"), b"X'615C62'"),
    (Part::Text(b"\x00\x27"), b"X'0027'"),
    (Part::Text(b"\x1f"), b"X'1F'"),
    (Part::Text(b" ~"), b"' ~'"),
    (Part::Text(b"\x7f"), b"X'7F'"),
    (Part::Text(b"\xff\xab"), b"X'FFAB'"),
];

/// How many values have their text, from the first on.
fn held_by_texts(alloc: Global) -> usize {
    for (i, (part, shown)) in TEXTS.iter().enumerate() {
        if !is_text(value_text(alloc, &value(alloc, part)), *shown) {
            return i;
        }
    }
    TEXTS.len()
}

/// Rows with their text.
static ROW_TEXTS: [(&[Part], &[u8]); 3] = [
    (&[], b""),
    (&[Part::Int(-1)], b"-1"),
    (
        &[Part::Int(1), Part::Null, Part::Text(b"x")],
        b"1, NULL, 'x'",
    ),
];

/// How many rows have their text, from the first on.
fn held_by_rows(alloc: Global) -> usize {
    for (i, (parts, shown)) in ROW_TEXTS.iter().enumerate() {
        if !is_text(row_text(alloc, &row(alloc, *parts)), *shown) {
            return i;
        }
    }
    ROW_TEXTS.len()
}

/// Keys, each below the next.
static KEYS: [&[Part]; 13] = [
    &[],
    &[Part::Null],
    &[Part::Null, Part::Int(0)],
    &[Part::Int(i64::MIN)],
    &[Part::Int(-1), Part::Int(7)],
    &[Part::Int(2), Part::Null],
    &[Part::Int(10)],
    &[Part::Text(b"")],
    &[Part::Text(b"10")],
    &[Part::Text(b"9")],
    &[Part::Text(b"a")],
    &[Part::Text(b"ab")],
    &[Part::Text(b"\xff")],
];

/// Whether a key stands to the key at each place of the table as its own place does.
fn is_in_order(alloc: Global, at: usize, key: &Row) -> bool {
    for (other, parts) in KEYS.iter().enumerate() {
        if key_cmp(key, &row(alloc, *parts)) != at.cmp(&other) {
            return false;
        }
    }
    true
}

/// How many keys do so, from the first on.
fn held_by_keys(alloc: Global) -> usize {
    for (at, parts) in KEYS.iter().enumerate() {
        if !is_in_order(alloc, at, &row(alloc, *parts)) {
            return at;
        }
    }
    KEYS.len()
}

#[test]
fn texts_and_order(rt: HostRuntime) {
    let alloc = rt.alloc();
    expect_all(&rt, "values as text", held_by_texts(alloc), 14);
    expect_all(&rt, "rows as text", held_by_rows(alloc), 3);
    expect_all(&rt, "keys in their order", held_by_keys(alloc), 13);
}
