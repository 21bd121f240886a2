//! Order, parts and aggregates, by hand.

use super::{Part, expect_all, is_answer, number, values};
use select_rows::{Keyed, aggregate, limit, order};
use std::alloc::Global;
use val_types::{Agg, List, Value};

/// Aggregates of values.
static AGGREGATES: [(Agg, &[Part], Part); 24] = [
    (Agg::Count, &[], Part::Int(0)),
    (
        Agg::Count,
        &[Part::Null, Part::Int(0), Part::Text(b"")],
        Part::Int(2),
    ),
    (Agg::Sum, &[], Part::Null),
    (Agg::Sum, &[Part::Null, Part::Null], Part::Null),
    (Agg::Sum, &[Part::Int(0)], Part::Int(0)),
    (
        Agg::Sum,
        &[Part::Int(-7), Part::Null, Part::Int(10)],
        Part::Int(3),
    ),
    (
        Agg::Sum,
        &[Part::Int(i64::MAX), Part::Int(1), Part::Int(-1)],
        Part::Int(i64::MAX),
    ),
    (
        Agg::Sum,
        &[Part::Int(i64::MAX), Part::Int(1)],
        Part::Error(1690),
    ),
    (
        Agg::Sum,
        &[Part::Int(i64::MIN), Part::Int(-1)],
        Part::Error(1690),
    ),
    (
        Agg::Sum,
        &[Part::Int(i64::MAX), Part::Int(1), Part::Text(b"")],
        Part::Error(30002),
    ),
    (Agg::Sum, &[Part::Text(b"1")], Part::Error(30002)),
    (Agg::Min, &[], Part::Null),
    (Agg::Max, &[Part::Null], Part::Null),
    (
        Agg::Min,
        &[Part::Int(3), Part::Null, Part::Int(-2)],
        Part::Int(-2),
    ),
    (
        Agg::Max,
        &[Part::Int(3), Part::Null, Part::Int(-2)],
        Part::Int(3),
    ),
    (Agg::Min, &[Part::Null, Part::Int(5)], Part::Int(5)),
    (Agg::Max, &[Part::Int(-5), Part::Null], Part::Int(-5)),
    (
        Agg::Min,
        &[Part::Text(b"b"), Part::Text(b"ab")],
        Part::Text(b"ab"),
    ),
    (
        Agg::Max,
        &[Part::Text(b"10"), Part::Text(b"9")],
        Part::Text(b"9"),
    ),
    (
        Agg::Min,
        &[Part::Text(b"a"), Part::Text(b"")],
        Part::Text(b""),
    ),
    (
        Agg::Min,
        &[Part::Int(1), Part::Text(b"1")],
        Part::Error(30002),
    ),
    (
        Agg::Max,
        &[Part::Text(b"1"), Part::Null, Part::Int(1)],
        Part::Error(30002),
    ),
    (Agg::Count, &[Part::Int(1), Part::Text(b"1")], Part::Int(2)),
    (
        Agg::Max,
        &[Part::Int(i64::MIN), Part::Int(i64::MAX)],
        Part::Int(i64::MAX),
    ),
];

/// Whether an aggregate gives this.
fn gives(alloc: Global, f: Agg, parts: &[Part], wanted: &Part) -> bool {
    let values = values(alloc, parts);
    is_answer(&aggregate(alloc, f, &values), wanted)
}

/// How many aggregates do so, from the first on.
fn held_by_aggregates(alloc: Global) -> usize {
    for (i, (f, parts, wanted)) in AGGREGATES.iter().enumerate() {
        if !gives(alloc, *f, *parts, wanted) {
            return i;
        }
    }
    AGGREGATES.len()
}

/// What rows are ordered by, numbered from 0.
static ITEMS: [&[Part]; 8] = [
    &[Part::Int(2), Part::Text(b"b")],
    &[Part::Null, Part::Text(b"z")],
    &[Part::Int(2), Part::Text(b"a")],
    &[Part::Text(b"1"), Part::Null],
    &[Part::Int(-1), Part::Text(b"b")],
    &[Part::Int(2), Part::Text(b"b")],
    &[Part::Null, Part::Int(5)],
    &[Part::Int(10), Part::Null],
];

/// Whether each of so many values is ordered from the greatest on.
fn downs(alloc: Global, count: usize, down: bool) -> List<bool> {
    let mut downs = List::new(alloc);
    for _value in 0..count {
        let _ = downs.push(down);
    }
    downs
}

/// A row of one number, ordered by some values.
fn keyed(alloc: Global, place: i64, by: &[Part], down: bool) -> Keyed {
    Keyed {
        row: number(alloc, place),
        by: values(alloc, by),
        down: downs(alloc, by.len(), down),
    }
}

fn rows(alloc: Global, down: bool) -> List<Keyed> {
    let mut rows = List::new(alloc);
    let mut place = 0i64;
    for by in &ITEMS {
        let _ = rows.push(keyed(alloc, place, *by, down));
        place = place.wrapping_add(1);
    }
    rows
}

/// Whether the rows hold these numbers.
fn are(rows: &List<Keyed>, wanted: &[i64]) -> bool {
    let mut same = rows.len() == wanted.len();
    for (row, place) in rows.as_slice().iter().zip(wanted) {
        same = same && matches!(row.row.get(0), Some(Value::Int(own)) if *own == *place);
    }
    same
}

/// Whether the rows are ordered so.
fn is_order(alloc: Global, down: bool, wanted: &[i64]) -> bool {
    match order(alloc, rows(alloc, down)) {
        Ok(ordered) => are(&ordered, wanted),
        Err(_) => false,
    }
}

/// OFFSET, LIMIT and the rows that are left of eight.
static PARTS: [(u64, u64, &[i64]); 8] = [
    (0, 8, &[0, 1, 2, 3, 4, 5, 6, 7]),
    (0, 3, &[0, 1, 2]),
    (2, 3, &[2, 3, 4]),
    (6, 3, &[6, 7]),
    (8, 1, &[]),
    (u64::MAX, u64::MAX, &[]),
    (7, u64::MAX, &[7]),
    (3, 0, &[]),
];

/// Whether these rows are left.
fn is_part(alloc: Global, skip: u64, take: u64, wanted: &[i64]) -> bool {
    let part = limit(rows(alloc, false), skip, take);
    are(&part, wanted)
}

/// How many parts are so, from the first on.
fn held_by_parts(alloc: Global) -> usize {
    for (i, (skip, take, wanted)) in PARTS.iter().enumerate() {
        if !is_part(alloc, *skip, *take, *wanted) {
            return i;
        }
    }
    PARTS.len()
}

#[test]
fn rows_selected(rt: HostRuntime) {
    let alloc = rt.alloc();
    expect_all(&rt, "aggregates", held_by_aggregates(alloc), 24);
    assert!(rt; is_order(alloc, false, &[6, 1, 4, 2, 0, 5, 7, 3]));
    assert!(rt; is_order(alloc, true, &[3, 7, 0, 5, 2, 4, 1, 6]));
    expect_all(&rt, "parts", held_by_parts(alloc), 8);
}
