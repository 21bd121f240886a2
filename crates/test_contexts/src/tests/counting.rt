//! Counters and sequences worked out by hand.

use auto_inc::{Counters, StmtSeq, start_value};
use std::alloc::Global;
use std::process::Abort;
use std::test::Fail;
use val_types::{Bytes, Duplicate, List, NoMemory, Row, Value};

/// The greatest number of INT.
const INT: i64 = 2_147_483_647;

/// The greatest number of BIGINT.
const BIGINT: i64 = i64::MAX;

/// A counter, an increment, an offset and a greatest number, with the first value that a statement
/// generates.
static FIRST: [(u64, u16, u16, i64, Option<i64>); 20] = [
    (1, 1, 1, INT, Some(1)),
    (7, 1, 1, INT, Some(7)),
    (4, 10, 3, INT, Some(13)),
    (3, 10, 3, INT, Some(3)),
    (1, 10, 3, INT, Some(3)),
    (13, 10, 3, INT, Some(13)),
    (14, 10, 3, INT, Some(23)),
    (14, 10, 20, INT, Some(20)),
    (20, 10, 20, INT, Some(20)),
    (21, 10, 11, INT, Some(30)),
    (1, 10, 10, INT, Some(10)),
    (1, 65535, 65535, INT, Some(65535)),
    (2_147_483_647, 1, 1, INT, Some(2_147_483_647)),
    (2_147_483_648, 1, 1, INT, None),
    (2_147_483_641, 10, 7, INT, Some(2_147_483_647)),
    (2_147_483_641, 10, 8, INT, None),
    (9_223_372_036_854_775_807, 1, 1, BIGINT, Some(BIGINT)),
    (9_223_372_036_854_775_808, 1, 1, BIGINT, None),
    (9_223_372_036_854_775_801, 10, 7, BIGINT, Some(BIGINT)),
    (u64::MAX, 65535, 1, BIGINT, None),
];

fn expect_first(rt: &impl Abort, case: &(u64, u16, u16, i64, Option<i64>)) {
    let (counter, increment, offset, top, wanted) = *case;
    let mut sequence = StmtSeq::new();
    let found = sequence.next(counter, increment.max(1), offset, top);
    assert_eq!(rt; found, wanted, "{counter} {increment} {offset}");
    assert_eq!(rt; sequence.first(), wanted, "{counter} {increment} {offset}");
}

#[test]
fn first_values(rt: HostRuntime) -> Result<(), Fail> {
    for case in &FIRST {
        expect_first(&rt, case);
    }
    Ok(())
}

/// What a statement does with its sequence, beside a counter of 5, increment 10 and offset 3.
enum Step {
    Next(Option<i64>),
    Explicit(i64),
    Forced(i64),
}

fn expect_steps(rt: &impl Abort, top: i64, first: Option<i64>, steps: &[Step]) {
    let mut sequence = StmtSeq::new();
    for step in steps {
        match step {
            Step::Next(wanted) => assert_eq!(rt; sequence.next(5, 10, 3, top), *wanted),
            Step::Explicit(value) => sequence.explicit(*value),
            Step::Forced(value) => sequence.forced(*value),
        }
    }
    assert_eq!(rt; sequence.first(), first);
}

#[test]
fn explicit_values_between(rt: HostRuntime) -> Result<(), Fail> {
    expect_steps(
        &rt,
        INT,
        Some(13),
        &[
            Step::Explicit(40),
            Step::Next(Some(13)),
            Step::Explicit(5),
            Step::Next(Some(23)),
            Step::Explicit(24),
            Step::Next(Some(33)),
            Step::Explicit(33),
            Step::Next(Some(43)),
            Step::Explicit(-60),
            Step::Next(Some(53)),
        ],
    );
    Ok(())
}

#[test]
fn values_behind_a_forced_one(rt: HostRuntime) -> Result<(), Fail> {
    expect_steps(
        &rt,
        INT,
        Some(100),
        &[Step::Forced(100), Step::Next(Some(103))],
    );
    expect_steps(
        &rt,
        INT,
        Some(0),
        &[Step::Forced(0), Step::Next(Some(3)), Step::Next(Some(13))],
    );
    expect_steps(
        &rt,
        BIGINT,
        Some(BIGINT),
        &[Step::Forced(BIGINT), Step::Next(None), Step::Next(None)],
    );
    Ok(())
}

#[test]
fn values_up_to_the_greatest(rt: HostRuntime) -> Result<(), Fail> {
    expect_steps(
        &rt,
        20,
        Some(13),
        &[
            Step::Next(Some(13)),
            Step::Next(None),
            Step::Explicit(2),
            Step::Next(None),
        ],
    );
    Ok(())
}

fn name(alloc: Global, bytes: &[u8]) -> Result<Bytes, Fail> {
    Ok(List::from_slice(alloc, bytes)?)
}

/// Three counters: of `t` 1, of `u` 5 and of a name of other bytes 9.
fn three(alloc: Global) -> Result<Counters, Fail> {
    let mut counters = Counters::new(alloc);
    add(&mut counters, &name(alloc, b"t")?, 1)?;
    add(&mut counters, &name(alloc, b"u")?, 5)?;
    add(&mut counters, &name(alloc, b"\xe9")?, 9)?;
    Ok(counters)
}

fn add(counters: &mut Counters, table: &Bytes, value: u64) -> Result<(), NoMemory> {
    match counters.place(table) {
        None => counters.add(table, value),
        Some(_) => Ok(()),
    }
}

#[test]
fn counters_rise(rt: HostRuntime) -> Result<(), Fail> {
    let alloc = rt.alloc();
    let mut counters = three(alloc)?;
    let (t, u, last) = (
        name(alloc, b"t")?,
        name(alloc, b"u")?,
        name(alloc, b"\xe9")?,
    );
    counters.raise(&u, 4);
    assert_eq!(rt; counters.value(&u), 5);
    counters.raise(&u, 5);
    assert_eq!(rt; counters.value(&u), 6);
    counters.raise(&last, BIGINT);
    assert_eq!(rt; counters.value(&last), 9_223_372_036_854_775_808);
    counters.raise(&t, -1);
    assert_eq!(rt; counters.value(&t), 1);
    counters.reset(&last);
    assert_eq!(rt; counters.value(&last), 1);
    assert_eq!(rt; counters.value(&u), 6);
    counters.remove(&u);
    assert_eq!(rt; counters.value(&u), 0);
    assert_eq!(rt; counters.value(&t), 1);
    Ok(())
}

/// The place of a counter, and its value, raised, beside that of a copy.
fn beside_a_copy(alloc: Global) -> Result<(Option<usize>, u64, u64), Fail> {
    let mut counters = three(alloc)?;
    let u = name(alloc, b"u")?;
    let copy = counters.duplicate(alloc)?;
    counters.raise(&u, 8);
    Ok((counters.place(&u), counters.value(&u), copy.value(&u)))
}

#[test]
fn places_and_copies(rt: HostRuntime) -> Result<(), Fail> {
    assert!(rt; beside_a_copy(rt.alloc())? == (Some(1), 9, 5));
    Ok(())
}

/// What a counter starts with by the only column of a row, and by one that is not there.
fn starts(alloc: Global, number: i64) -> Result<(u64, u64), Fail> {
    let mut row: Row = List::new(alloc);
    row.push(Value::Int(number))?;
    let mut rows = List::new(alloc);
    rows.push(row)?;
    Ok((
        start_value(Some(0), rows.as_slice()),
        start_value(Some(1), rows.as_slice()),
    ))
}

#[test]
fn a_counter_starts(rt: HostRuntime) -> Result<(), Fail> {
    assert!(rt; starts(rt.alloc(), BIGINT)? == (9_223_372_036_854_775_808, 1));
    Ok(())
}
