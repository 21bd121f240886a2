//! Operators on values, and what a left operand decides.

use super::{Part, expect_all, is_error, is_outcome, is_value, value};
use expr_ops::{binary, decided, truth, unary};
use std::alloc::Global;
use val_types::{BinOp, UnOp, Value};

/// Whether an operator gives this of two operands.
fn gives(alloc: Global, op: BinOp, a: &Part, b: &Part, wanted: &Part) -> bool {
    let a = value(alloc, a);
    let b = value(alloc, b);
    is_outcome(&binary(op, &a, &b), wanted)
}

/// How many cases hold from the first on.
fn held(alloc: Global, rows: &[(BinOp, Part, Part, Part)]) -> usize {
    for (i, (op, a, b, wanted)) in rows.iter().enumerate() {
        if !gives(alloc, *op, a, b, wanted) {
            return i;
        }
    }
    rows.len()
}

/// Operands and results of arithmetic.
static ARITHMETIC: [(BinOp, Part, Part, Part); 54] = [
    (BinOp::Add, Part::Int(2), Part::Int(-5), Part::Int(-3)),
    (BinOp::Add, Part::Null, Part::Int(1), Part::Null),
    (BinOp::Add, Part::Int(1), Part::Null, Part::Null),
    (BinOp::Add, Part::Null, Part::Null, Part::Null),
    (
        BinOp::Add,
        Part::Int(i64::MAX),
        Part::Int(0),
        Part::Int(i64::MAX),
    ),
    (
        BinOp::Add,
        Part::Int(i64::MAX),
        Part::Int(1),
        Part::Error(1690),
    ),
    (
        BinOp::Add,
        Part::Int(i64::MIN),
        Part::Int(-1),
        Part::Error(1690),
    ),
    (
        BinOp::Add,
        Part::Int(i64::MAX),
        Part::Int(i64::MIN),
        Part::Int(-1),
    ),
    (
        BinOp::Add,
        Part::Text(b"a"),
        Part::Int(1),
        Part::Error(30002),
    ),
    (
        BinOp::Add,
        Part::Int(1),
        Part::Text(b"1"),
        Part::Error(30002),
    ),
    (BinOp::Add, Part::Text(b"a"), Part::Null, Part::Error(30002)),
    (BinOp::Add, Part::Null, Part::Text(b"a"), Part::Error(30002)),
    (
        BinOp::Add,
        Part::Text(b""),
        Part::Text(b""),
        Part::Error(30002),
    ),
    (BinOp::Subtract, Part::Int(5), Part::Int(7), Part::Int(-2)),
    (
        BinOp::Subtract,
        Part::Int(i64::MIN),
        Part::Int(1),
        Part::Error(1690),
    ),
    (
        BinOp::Subtract,
        Part::Int(0),
        Part::Int(i64::MIN),
        Part::Error(1690),
    ),
    (
        BinOp::Subtract,
        Part::Int(-1),
        Part::Int(i64::MIN),
        Part::Int(i64::MAX),
    ),
    (
        BinOp::Subtract,
        Part::Null,
        Part::Text(b"a"),
        Part::Error(30002),
    ),
    (BinOp::Subtract, Part::Int(1), Part::Null, Part::Null),
    (BinOp::Multiply, Part::Int(-4), Part::Int(3), Part::Int(-12)),
    (
        BinOp::Multiply,
        Part::Int(i64::MAX),
        Part::Int(2),
        Part::Error(1690),
    ),
    (
        BinOp::Multiply,
        Part::Int(i64::MIN),
        Part::Int(-1),
        Part::Error(1690),
    ),
    (
        BinOp::Multiply,
        Part::Int(i64::MIN),
        Part::Int(1),
        Part::Int(i64::MIN),
    ),
    (
        BinOp::Multiply,
        Part::Int(3_037_000_499),
        Part::Int(3_037_000_499),
        Part::Int(9_223_372_030_926_249_001),
    ),
    (
        BinOp::Multiply,
        Part::Int(3_037_000_500),
        Part::Int(3_037_000_500),
        Part::Error(1690),
    ),
    (
        BinOp::Multiply,
        Part::Int(4_294_967_296),
        Part::Int(-2_147_483_648),
        Part::Int(i64::MIN),
    ),
    (BinOp::Multiply, Part::Int(0), Part::Null, Part::Null),
    (
        BinOp::Multiply,
        Part::Null,
        Part::Text(b"a"),
        Part::Error(30002),
    ),
    (BinOp::Divide, Part::Int(7), Part::Int(2), Part::Int(3)),
    (BinOp::Divide, Part::Int(-7), Part::Int(2), Part::Int(-3)),
    (BinOp::Divide, Part::Int(7), Part::Int(-2), Part::Int(-3)),
    (BinOp::Divide, Part::Int(-7), Part::Int(-2), Part::Int(3)),
    (
        BinOp::Divide,
        Part::Int(i64::MIN),
        Part::Int(-1),
        Part::Error(1690),
    ),
    (
        BinOp::Divide,
        Part::Int(i64::MIN),
        Part::Int(1),
        Part::Int(i64::MIN),
    ),
    (
        BinOp::Divide,
        Part::Int(i64::MAX),
        Part::Int(i64::MIN),
        Part::Int(0),
    ),
    (
        BinOp::Divide,
        Part::Int(i64::MIN),
        Part::Int(i64::MAX),
        Part::Int(-1),
    ),
    (BinOp::Divide, Part::Int(1), Part::Int(0), Part::Error(1365)),
    (BinOp::Divide, Part::Int(0), Part::Int(0), Part::Error(1365)),
    (BinOp::Divide, Part::Null, Part::Int(0), Part::Null),
    (BinOp::Divide, Part::Int(0), Part::Null, Part::Null),
    (
        BinOp::Divide,
        Part::Text(b"a"),
        Part::Int(0),
        Part::Error(30002),
    ),
    (
        BinOp::Divide,
        Part::Null,
        Part::Text(b"a"),
        Part::Error(30002),
    ),
    (BinOp::Modulo, Part::Int(7), Part::Int(2), Part::Int(1)),
    (BinOp::Modulo, Part::Int(-7), Part::Int(2), Part::Int(-1)),
    (BinOp::Modulo, Part::Int(7), Part::Int(-2), Part::Int(1)),
    (BinOp::Modulo, Part::Int(-7), Part::Int(-2), Part::Int(-1)),
    (BinOp::Modulo, Part::Int(6), Part::Int(3), Part::Int(0)),
    (
        BinOp::Modulo,
        Part::Int(i64::MIN),
        Part::Int(-1),
        Part::Int(0),
    ),
    (
        BinOp::Modulo,
        Part::Int(i64::MAX),
        Part::Int(i64::MIN),
        Part::Int(i64::MAX),
    ),
    (
        BinOp::Modulo,
        Part::Int(i64::MIN),
        Part::Int(i64::MAX),
        Part::Int(-1),
    ),
    (BinOp::Modulo, Part::Int(1), Part::Int(0), Part::Error(1365)),
    (BinOp::Modulo, Part::Null, Part::Int(0), Part::Null),
    (
        BinOp::Modulo,
        Part::Int(5),
        Part::Text(b"x"),
        Part::Error(30002),
    ),
    (
        BinOp::Modulo,
        Part::Null,
        Part::Text(b"x"),
        Part::Error(30002),
    ),
];

/// AND and OR.
static LOGIC: [(BinOp, Part, Part, Part); 28] = [
    (BinOp::And, Part::Int(0), Part::Int(0), Part::Int(0)),
    (BinOp::And, Part::Int(0), Part::Int(1), Part::Int(0)),
    (BinOp::And, Part::Int(0), Part::Null, Part::Int(0)),
    (BinOp::And, Part::Int(1), Part::Int(0), Part::Int(0)),
    (BinOp::And, Part::Int(1), Part::Int(1), Part::Int(1)),
    (BinOp::And, Part::Int(1), Part::Null, Part::Null),
    (BinOp::And, Part::Null, Part::Int(0), Part::Int(0)),
    (BinOp::And, Part::Null, Part::Int(1), Part::Null),
    (BinOp::And, Part::Null, Part::Null, Part::Null),
    (BinOp::Or, Part::Int(0), Part::Int(0), Part::Int(0)),
    (BinOp::Or, Part::Int(0), Part::Int(1), Part::Int(1)),
    (BinOp::Or, Part::Int(0), Part::Null, Part::Null),
    (BinOp::Or, Part::Int(1), Part::Int(0), Part::Int(1)),
    (BinOp::Or, Part::Int(1), Part::Int(1), Part::Int(1)),
    (BinOp::Or, Part::Int(1), Part::Null, Part::Int(1)),
    (BinOp::Or, Part::Null, Part::Int(0), Part::Null),
    (BinOp::Or, Part::Null, Part::Int(1), Part::Int(1)),
    (BinOp::Or, Part::Null, Part::Null, Part::Null),
    (BinOp::And, Part::Int(5), Part::Int(-3), Part::Int(1)),
    (BinOp::And, Part::Int(0), Part::Text(b"a"), Part::Int(0)),
    (
        BinOp::And,
        Part::Int(1),
        Part::Text(b"a"),
        Part::Error(30002),
    ),
    (BinOp::And, Part::Null, Part::Text(b"a"), Part::Error(30002)),
    (
        BinOp::And,
        Part::Text(b"a"),
        Part::Int(0),
        Part::Error(30002),
    ),
    (BinOp::Or, Part::Int(0), Part::Int(-7), Part::Int(1)),
    (BinOp::Or, Part::Int(1), Part::Text(b"a"), Part::Int(1)),
    (
        BinOp::Or,
        Part::Int(0),
        Part::Text(b"a"),
        Part::Error(30002),
    ),
    (BinOp::Or, Part::Null, Part::Text(b"a"), Part::Error(30002)),
    (
        BinOp::Or,
        Part::Text(b"a"),
        Part::Int(1),
        Part::Error(30002),
    ),
];

/// Comparisons without an order.
static UNCOMPARED: [(BinOp, Part, Part, Part); 35] = [
    (BinOp::Equal, Part::Null, Part::Int(1), Part::Null),
    (BinOp::Equal, Part::Text(b"a"), Part::Null, Part::Null),
    (BinOp::Equal, Part::Null, Part::Null, Part::Null),
    (
        BinOp::Equal,
        Part::Int(1),
        Part::Text(b"1"),
        Part::Error(30002),
    ),
    (
        BinOp::Equal,
        Part::Text(b""),
        Part::Int(0),
        Part::Error(30002),
    ),
    (BinOp::NotEqual, Part::Null, Part::Int(1), Part::Null),
    (BinOp::NotEqual, Part::Text(b"a"), Part::Null, Part::Null),
    (BinOp::NotEqual, Part::Null, Part::Null, Part::Null),
    (
        BinOp::NotEqual,
        Part::Int(1),
        Part::Text(b"1"),
        Part::Error(30002),
    ),
    (
        BinOp::NotEqual,
        Part::Text(b""),
        Part::Int(0),
        Part::Error(30002),
    ),
    (BinOp::Less, Part::Null, Part::Int(1), Part::Null),
    (BinOp::Less, Part::Text(b"a"), Part::Null, Part::Null),
    (BinOp::Less, Part::Null, Part::Null, Part::Null),
    (
        BinOp::Less,
        Part::Int(1),
        Part::Text(b"1"),
        Part::Error(30002),
    ),
    (
        BinOp::Less,
        Part::Text(b""),
        Part::Int(0),
        Part::Error(30002),
    ),
    (BinOp::LessOrEqual, Part::Null, Part::Int(1), Part::Null),
    (BinOp::LessOrEqual, Part::Text(b"a"), Part::Null, Part::Null),
    (BinOp::LessOrEqual, Part::Null, Part::Null, Part::Null),
    (
        BinOp::LessOrEqual,
        Part::Int(1),
        Part::Text(b"1"),
        Part::Error(30002),
    ),
    (
        BinOp::LessOrEqual,
        Part::Text(b""),
        Part::Int(0),
        Part::Error(30002),
    ),
    (BinOp::Greater, Part::Null, Part::Int(1), Part::Null),
    (BinOp::Greater, Part::Text(b"a"), Part::Null, Part::Null),
    (BinOp::Greater, Part::Null, Part::Null, Part::Null),
    (
        BinOp::Greater,
        Part::Int(1),
        Part::Text(b"1"),
        Part::Error(30002),
    ),
    (
        BinOp::Greater,
        Part::Text(b""),
        Part::Int(0),
        Part::Error(30002),
    ),
    (BinOp::GreaterOrEqual, Part::Null, Part::Int(1), Part::Null),
    (
        BinOp::GreaterOrEqual,
        Part::Text(b"a"),
        Part::Null,
        Part::Null,
    ),
    (BinOp::GreaterOrEqual, Part::Null, Part::Null, Part::Null),
    (
        BinOp::GreaterOrEqual,
        Part::Int(1),
        Part::Text(b"1"),
        Part::Error(30002),
    ),
    (
        BinOp::GreaterOrEqual,
        Part::Text(b""),
        Part::Int(0),
        Part::Error(30002),
    ),
    (BinOp::NullSafeEqual, Part::Null, Part::Int(1), Part::Int(0)),
    (
        BinOp::NullSafeEqual,
        Part::Text(b"a"),
        Part::Null,
        Part::Int(0),
    ),
    (BinOp::NullSafeEqual, Part::Null, Part::Null, Part::Int(1)),
    (
        BinOp::NullSafeEqual,
        Part::Int(1),
        Part::Text(b"1"),
        Part::Error(30002),
    ),
    (
        BinOp::NullSafeEqual,
        Part::Text(b""),
        Part::Int(0),
        Part::Error(30002),
    ),
];

/// Values, each with one above it.
static PAIRS: [(Part, Part); 8] = [
    (Part::Int(i64::MIN), Part::Int(i64::MAX)),
    (Part::Int(-1), Part::Int(0)),
    (Part::Int(9), Part::Int(10)),
    (Part::Text(b""), Part::Text(b"\x00")),
    (Part::Text(b"10"), Part::Text(b"9")),
    (Part::Text(b"Z"), Part::Text(b"a")),
    (Part::Text(b"a"), Part::Text(b"ab")),
    (Part::Text(b"~"), Part::Text(b"\x80")),
];

/// Comparisons, with what they give where the left operand is below, equal to and above the right.
static COMPARISONS: [(BinOp, Part, Part, Part); 7] = [
    (BinOp::Equal, Part::Int(0), Part::Int(1), Part::Int(0)),
    (
        BinOp::NullSafeEqual,
        Part::Int(0),
        Part::Int(1),
        Part::Int(0),
    ),
    (BinOp::NotEqual, Part::Int(1), Part::Int(0), Part::Int(1)),
    (BinOp::Less, Part::Int(1), Part::Int(0), Part::Int(0)),
    (BinOp::LessOrEqual, Part::Int(1), Part::Int(1), Part::Int(0)),
    (BinOp::Greater, Part::Int(0), Part::Int(0), Part::Int(1)),
    (
        BinOp::GreaterOrEqual,
        Part::Int(0),
        Part::Int(1),
        Part::Int(1),
    ),
];

/// Whether a comparison gives on a pair what it should below, at equal values and above.
fn compares(alloc: Global, row: &(BinOp, Part, Part, Part), low: &Part, high: &Part) -> bool {
    let (op, below, equal, above) = row;
    gives(alloc, *op, low, high, below)
        && gives(alloc, *op, low, low, equal)
        && gives(alloc, *op, high, low, above)
}

/// Whether a comparison does so on each pair.
fn compares_pairs(alloc: Global, row: &(BinOp, Part, Part, Part)) -> bool {
    for (low, high) in &PAIRS {
        if !compares(alloc, row, low, high) {
            return false;
        }
    }
    true
}

/// How many comparisons do so, from the first on.
fn held_by_pairs(alloc: Global) -> usize {
    for (i, row) in COMPARISONS.iter().enumerate() {
        if !compares_pairs(alloc, row) {
            return i;
        }
    }
    COMPARISONS.len()
}

/// Operators on one operand.
static UNARY: [(UnOp, Part, Part); 17] = [
    (UnOp::Negate, Part::Null, Part::Null),
    (UnOp::Negate, Part::Int(0), Part::Int(0)),
    (UnOp::Negate, Part::Int(5), Part::Int(-5)),
    (
        UnOp::Negate,
        Part::Int(i64::MAX),
        Part::Int(-9_223_372_036_854_775_807),
    ),
    (UnOp::Negate, Part::Int(i64::MIN), Part::Error(1690)),
    (UnOp::Negate, Part::Text(b"5"), Part::Error(30002)),
    (UnOp::Not, Part::Null, Part::Null),
    (UnOp::Not, Part::Int(0), Part::Int(1)),
    (UnOp::Not, Part::Int(1), Part::Int(0)),
    (UnOp::Not, Part::Int(-7), Part::Int(0)),
    (UnOp::Not, Part::Text(b""), Part::Error(30002)),
    (UnOp::IsNull, Part::Null, Part::Int(1)),
    (UnOp::IsNull, Part::Int(0), Part::Int(0)),
    (UnOp::IsNull, Part::Text(b""), Part::Int(0)),
    (UnOp::IsNotNull, Part::Null, Part::Int(0)),
    (UnOp::IsNotNull, Part::Int(0), Part::Int(1)),
    (UnOp::IsNotNull, Part::Text(b""), Part::Int(1)),
];

/// Whether an operator gives this of one operand.
fn gives_of_one(alloc: Global, op: UnOp, a: &Part, wanted: &Part) -> bool {
    let a = value(alloc, a);
    is_outcome(&unary(op, &a), wanted)
}

/// How many operators on one operand do so, from the first on.
fn held_by_one(alloc: Global) -> usize {
    for (i, (op, a, wanted)) in UNARY.iter().enumerate() {
        if !gives_of_one(alloc, *op, a, wanted) {
            return i;
        }
    }
    UNARY.len()
}

/// Values with the number that stands for their truth, or its error.
static TRUTHS: [(Part, Part); 4] = [
    (Part::Int(-1), Part::Int(1)),
    (Part::Int(0), Part::Int(0)),
    (Part::Null, Part::Null),
    (Part::Text(b"1"), Part::Error(30002)),
];

/// Whether a value has this truth.
fn has_truth(alloc: Global, of: &Part, wanted: &Part) -> bool {
    let of = value(alloc, of);
    match truth(&of) {
        Ok(Some(holds)) => is_value(&Value::Int(i64::from(holds)), wanted),
        Ok(None) => is_value(&Value::Null, wanted),
        Err(code) => is_error(code, wanted),
    }
}

/// How many values have their truth, from the first on.
fn held_by_truths(alloc: Global) -> usize {
    for (i, (of, wanted)) in TRUTHS.iter().enumerate() {
        if !has_truth(alloc, of, wanted) {
            return i;
        }
    }
    TRUTHS.len()
}

/// What a left operand decides: a number or an error, or nothing, for which NULL stands.
static DECIDED: [(BinOp, Part, Part); 8] = [
    (BinOp::And, Part::Int(0), Part::Int(0)),
    (BinOp::And, Part::Int(2), Part::Null),
    (BinOp::And, Part::Null, Part::Null),
    (BinOp::And, Part::Text(b"1"), Part::Error(30002)),
    (BinOp::Or, Part::Int(2), Part::Int(1)),
    (BinOp::Or, Part::Int(0), Part::Null),
    (BinOp::Or, Part::Text(b"1"), Part::Error(30002)),
    (BinOp::Add, Part::Text(b"1"), Part::Null),
];

/// Whether a left operand decides this.
fn decides(alloc: Global, op: BinOp, left: &Part, wanted: &Part) -> bool {
    let left = value(alloc, left);
    match decided(op, &left) {
        Ok(Some(Value::Int(number))) => is_value(&Value::Int(number), wanted),
        Ok(Some(_)) => false,
        Ok(None) => is_value(&Value::Null, wanted),
        Err(code) => is_error(code, wanted),
    }
}

/// How many left operands decide so, from the first on.
fn held_by_left(alloc: Global) -> usize {
    for (i, (op, left, wanted)) in DECIDED.iter().enumerate() {
        if !decides(alloc, *op, left, wanted) {
            return i;
        }
    }
    DECIDED.len()
}

#[test]
fn operators(rt: HostRuntime) {
    let alloc = rt.alloc();
    expect_all(
        &rt,
        "arithmetic with its ends",
        held(alloc, &ARITHMETIC),
        54,
    );
    expect_all(&rt, "logic with three values", held(alloc, &LOGIC), 28);
    expect_all(
        &rt,
        "operands without an order",
        held(alloc, &UNCOMPARED),
        35,
    );
    expect_all(&rt, "comparisons", held_by_pairs(alloc), 7);
    expect_all(&rt, "operators on one operand", held_by_one(alloc), 17);
    expect_all(&rt, "truths", held_by_truths(alloc), 4);
    expect_all(&rt, "left operands that decide", held_by_left(alloc), 8);
}
