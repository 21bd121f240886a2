//! Built-in functions, moments, identifiers and random numbers.

ghost use Rattle.std.specs.Prelude.{IsTrue};
ghost use Rattle.value_rules.specs.Functions.{takes};

use super::{Part, expect_all, is_answer, is_outcome, is_value, value, values};
use expr_ops::{builtin, floor_rand, rand_step, time_text, uuid_text};
use std::alloc::Global;
use val_types::{Bytes, Func, Func1, Func2, Func3, FuncN, List, NoMemory, SqlRefusal, Value};

// Built-in functions, as the table names them.
const ABS: Func = Func::One(Func1::Abs);

const LENGTH: Func = Func::One(Func1::Length);

const IFNULL: Func = Func::Two(Func2::IfNull);

const IF: Func = Func::Three(Func3::If);

const SUBSTRING: Func = Func::Three(Func3::Substring);

const COALESCE: Func = Func::Many(FuncN::Coalesce);

const CONCAT: Func = Func::Many(FuncN::Concat);

/// Built-in functions with their arguments and results.
static BUILT_IN: [(Func, &[Part], Part); 58] = [
    (ABS, &[Part::Null], Part::Null),
    (ABS, &[Part::Int(5)], Part::Int(5)),
    (ABS, &[Part::Int(-5)], Part::Int(5)),
    (ABS, &[Part::Int(i64::MIN)], Part::Error(1690)),
    (
        ABS,
        &[Part::Int(-9_223_372_036_854_775_807)],
        Part::Int(i64::MAX),
    ),
    (ABS, &[Part::Text(b"5")], Part::Error(30002)),
    (COALESCE, &[Part::Null], Part::Null),
    (COALESCE, &[Part::Int(7)], Part::Int(7)),
    (
        COALESCE,
        &[Part::Null, Part::Null, Part::Int(0)],
        Part::Int(0),
    ),
    (
        COALESCE,
        &[Part::Null, Part::Text(b"x"), Part::Int(5)],
        Part::Text(b"x"),
    ),
    (COALESCE, &[Part::Text(b""), Part::Null], Part::Text(b"")),
    (
        IF,
        &[Part::Int(1), Part::Int(2), Part::Int(3)],
        Part::Int(2),
    ),
    (
        IF,
        &[Part::Int(0), Part::Int(2), Part::Text(b"c")],
        Part::Text(b"c"),
    ),
    (IF, &[Part::Null, Part::Int(2), Part::Int(3)], Part::Int(3)),
    (IF, &[Part::Int(-1), Part::Null, Part::Int(3)], Part::Null),
    (
        IF,
        &[Part::Text(b"a"), Part::Int(2), Part::Int(3)],
        Part::Error(30002),
    ),
    (IFNULL, &[Part::Null, Part::Int(2)], Part::Int(2)),
    (IFNULL, &[Part::Int(0), Part::Int(2)], Part::Int(0)),
    (IFNULL, &[Part::Null, Part::Null], Part::Null),
    (IFNULL, &[Part::Text(b""), Part::Int(1)], Part::Text(b"")),
    (CONCAT, &[Part::Null], Part::Null),
    (CONCAT, &[Part::Text(b"a"), Part::Null], Part::Null),
    (CONCAT, &[Part::Int(1)], Part::Text(b"1")),
    (
        CONCAT,
        &[Part::Int(i64::MIN), Part::Text(b"x")],
        Part::Text(b"-9223372036854775808x"),
    ),
    (
        CONCAT,
        &[Part::Text(b"a"), Part::Text(b""), Part::Text(b"b")],
        Part::Text(b"ab"),
    ),
    (
        CONCAT,
        &[Part::Text(b"left "), Part::Int(-6)],
        Part::Text(b"left -6"),
    ),
    (LENGTH, &[Part::Null], Part::Null),
    (LENGTH, &[Part::Text(b"")], Part::Int(0)),
    (LENGTH, &[Part::Text(b"abc")], Part::Int(3)),
    (LENGTH, &[Part::Text(b"\x00\xff")], Part::Int(2)),
    (LENGTH, &[Part::Int(5)], Part::Error(30002)),
    (
        SUBSTRING,
        &[Part::Text(b"journal"), Part::Int(1), Part::Int(3)],
        Part::Text(b"jou"),
    ),
    (
        SUBSTRING,
        &[Part::Text(b"journal"), Part::Int(3), Part::Int(2)],
        Part::Text(b"ur"),
    ),
    (
        SUBSTRING,
        &[Part::Text(b"journal"), Part::Int(-3), Part::Int(2)],
        Part::Text(b"na"),
    ),
    (
        SUBSTRING,
        &[Part::Text(b"journal"), Part::Int(-7), Part::Int(1)],
        Part::Text(b"j"),
    ),
    (
        SUBSTRING,
        &[Part::Text(b"journal"), Part::Int(-8), Part::Int(1)],
        Part::Text(b""),
    ),
    (
        SUBSTRING,
        &[Part::Text(b"journal"), Part::Int(0), Part::Int(5)],
        Part::Text(b""),
    ),
    (
        SUBSTRING,
        &[Part::Text(b"journal"), Part::Int(8), Part::Int(1)],
        Part::Text(b""),
    ),
    (
        SUBSTRING,
        &[Part::Text(b"journal"), Part::Int(7), Part::Int(1)],
        Part::Text(b"l"),
    ),
    (
        SUBSTRING,
        &[Part::Text(b"journal"), Part::Int(7), Part::Int(5)],
        Part::Text(b"l"),
    ),
    (
        SUBSTRING,
        &[Part::Text(b"journal"), Part::Int(1), Part::Int(0)],
        Part::Text(b""),
    ),
    (
        SUBSTRING,
        &[Part::Text(b"journal"), Part::Int(1), Part::Int(-1)],
        Part::Text(b""),
    ),
    (
        SUBSTRING,
        &[Part::Text(b"journal"), Part::Int(1), Part::Int(i64::MIN)],
        Part::Text(b""),
    ),
    (
        SUBSTRING,
        &[Part::Text(b"journal"), Part::Int(1), Part::Int(i64::MAX)],
        Part::Text(b"journal"),
    ),
    (
        SUBSTRING,
        &[Part::Text(b"journal"), Part::Int(-3), Part::Int(i64::MAX)],
        Part::Text(b"nal"),
    ),
    (
        SUBSTRING,
        &[Part::Text(b"journal"), Part::Int(i64::MIN), Part::Int(1)],
        Part::Text(b""),
    ),
    (
        SUBSTRING,
        &[Part::Text(b"journal"), Part::Int(i64::MAX), Part::Int(1)],
        Part::Text(b""),
    ),
    (
        SUBSTRING,
        &[Part::Text(b"journal"), Part::Int(-1), Part::Int(1)],
        Part::Text(b"l"),
    ),
    (
        SUBSTRING,
        &[Part::Text(b""), Part::Int(1), Part::Int(1)],
        Part::Text(b""),
    ),
    (
        SUBSTRING,
        &[Part::Text(b""), Part::Int(-1), Part::Int(1)],
        Part::Text(b""),
    ),
    (
        SUBSTRING,
        &[Part::Null, Part::Int(1), Part::Int(1)],
        Part::Null,
    ),
    (
        SUBSTRING,
        &[Part::Text(b"journal"), Part::Null, Part::Int(1)],
        Part::Null,
    ),
    (
        SUBSTRING,
        &[Part::Text(b"journal"), Part::Int(1), Part::Null],
        Part::Null,
    ),
    (
        SUBSTRING,
        &[Part::Null, Part::Text(b"x"), Part::Int(1)],
        Part::Null,
    ),
    (
        SUBSTRING,
        &[Part::Int(5), Part::Null, Part::Int(1)],
        Part::Null,
    ),
    (
        SUBSTRING,
        &[Part::Int(5), Part::Int(1), Part::Int(1)],
        Part::Error(30002),
    ),
    (
        SUBSTRING,
        &[Part::Text(b"journal"), Part::Text(b"1"), Part::Int(1)],
        Part::Error(30002),
    ),
    (
        SUBSTRING,
        &[Part::Text(b"journal"), Part::Int(1), Part::Text(b"1")],
        Part::Error(30002),
    ),
];

/// Whether a built-in function takes so many arguments.
fn takes(f: Func, count: usize) -> bool
    ensures { IsTrue result → IsTrue (takes f count) }
{
    match f {
        Func::Zero(_) => false,
        Func::One(_) => count == 1,
        Func::Two(_) => count == 2,
        Func::Three(_) => count == 3,
        Func::Many(_) => count >= 1,
    }
}

/// What a built-in function gives; want of memory, where it takes not so many arguments.
fn given(alloc: Global, f: Func, arguments: &List<Value>) -> Result<Value, SqlRefusal> {
    if !takes(f, arguments.len()) {
        return Err(SqlRefusal::NoMemory);
    }
    builtin(alloc, f, arguments)
}

/// Whether a built-in function gives this.
fn gives(alloc: Global, f: Func, arguments: &[Part], wanted: &Part) -> bool {
    let arguments = values(alloc, arguments);
    is_answer(&given(alloc, f, &arguments), wanted)
}

/// How many calls do so, from the first on.
fn held_by_functions(alloc: Global) -> usize {
    for (i, (f, arguments, wanted)) in BUILT_IN.iter().enumerate() {
        if !gives(alloc, *f, *arguments, wanted) {
            return i;
        }
    }
    BUILT_IN.len()
}

/// How many bytes CONCAT joins with a value, and the length of the result.
static LENGTHS: [(usize, Part, Part); 7] = [
    (65_535, Part::Text(b""), Part::Int(65_535)),
    (65_534, Part::Text(b"b"), Part::Int(65_535)),
    (65_535, Part::Text(b"b"), Part::Error(1153)),
    (65_536, Part::Text(b""), Part::Error(1153)),
    (65_533, Part::Int(-7), Part::Int(65_535)),
    (65_534, Part::Int(-7), Part::Error(1153)),
    (65_536, Part::Null, Part::Null),
];

/// So many times `a`, and a value.
fn many(alloc: Global, count: usize, last: &Part) -> List<Value> {
    let mut many: Bytes = List::new(alloc);
    for _letter in 0..count {
        let _ = many.push(b'a');
    }
    let mut arguments = List::new(alloc);
    let _ = arguments.push(Value::Text(many));
    let _ = arguments.push(value(alloc, last));
    arguments
}

/// Whether what is given is NULL, an error, or a text of a length.
fn has_length(found: &Result<Value, SqlRefusal>, wanted: &Part) -> bool {
    match found {
        Ok(Value::Text(text)) => match i64::try_from(text.len()) {
            Ok(length) => is_value(&Value::Int(length), wanted),
            Err(_) => false,
        },
        _ => is_answer(found, wanted),
    }
}

/// Whether CONCAT of so many times `a` and a value is NULL, an error, or a text of a length.
fn joins(alloc: Global, count: usize, last: &Part, wanted: &Part) -> bool {
    let arguments = many(alloc, count, last);
    has_length(&given(alloc, CONCAT, &arguments), wanted)
}

/// How many do so, from the first on.
fn held_by_lengths(alloc: Global) -> usize {
    for (i, (count, last, wanted)) in LENGTHS.iter().enumerate() {
        if !joins(alloc, *count, last, wanted) {
            return i;
        }
    }
    LENGTHS.len()
}

/// Seconds since 1970-01-01 00:00:00 UTC with their text.
static MOMENTS: [(u32, &[u8]); 22] = [
    (0, b"1970-01-01 00:00:00"),
    (59, b"1970-01-01 00:00:59"),
    (3599, b"1970-01-01 00:59:59"),
    (86399, b"1970-01-01 23:59:59"),
    (86400, b"1970-01-02 00:00:00"),
    (5_097_600, b"1970-03-01 00:00:00"),
    (31_535_999, b"1970-12-31 23:59:59"),
    (31_536_000, b"1971-01-01 00:00:00"),
    (68_169_600, b"1972-02-29 00:00:00"),
    (94_694_399, b"1972-12-31 23:59:59"),
    (951_782_400, b"2000-02-29 00:00:00"),
    (951_868_799, b"2000-02-29 23:59:59"),
    (951_868_800, b"2000-03-01 00:00:00"),
    (1_700_000_000, b"2023-11-14 22:13:20"),
    (1_709_164_800, b"2024-02-29 00:00:00"),
    (1_709_251_199, b"2024-02-29 23:59:59"),
    (1_709_251_200, b"2024-03-01 00:00:00"),
    (2_147_483_647, b"2038-01-19 03:14:07"),
    (4_107_542_399, b"2100-02-28 23:59:59"),
    (4_107_542_400, b"2100-03-01 00:00:00"),
    (4_133_980_799, b"2100-12-31 23:59:59"),
    (4_294_967_295, b"2106-02-07 06:28:15"),
];

/// Whether a text is made, and is this one.
fn is_text(found: Result<Bytes, NoMemory>, wanted: &[u8]) -> bool {
    match found {
        Ok(text) => text.as_slice() == wanted,
        Err(_) => false,
    }
}

/// How many moments have their text, from the first on.
fn held_by_moments(alloc: Global) -> usize {
    for (i, (t, wanted)) in MOMENTS.iter().enumerate() {
        if !is_text(time_text(alloc, *t), *wanted) {
            return i;
        }
    }
    MOMENTS.len()
}

/// Numbers of 128 bits with the text of their UUID.
static IDENTIFIERS: [(u128, &[u8]); 6] = [
    (0, b"00000000-0000-0000-0000-000000000000"),
    (16, b"00000000-0000-0000-0000-000000000010"),
    (0x100000000000003e8, b"00000000-0000-0001-0000-0000000003e8"),
    (
        0x80000000000000000000000000000000,
        b"80000000-0000-0000-0000-000000000000",
    ),
    (
        0x123456789abcdef0011223344556677,
        b"01234567-89ab-cdef-0011-223344556677",
    ),
    (
        0xffffffffffffffffffffffffffffffff,
        b"ffffffff-ffff-ffff-ffff-ffffffffffff",
    ),
];

/// How many identifiers have their text, from the first on.
fn held_by_identifiers(alloc: Global) -> usize {
    for (i, (n, wanted)) in IDENTIFIERS.iter().enumerate() {
        if !is_text(uuid_text(alloc, *n), *wanted) {
            return i;
        }
    }
    IDENTIFIERS.len()
}

/// Seeds before and after a step.
static STEPS: [(u64, u64, u64, u64); 8] = [
    (1, 2, 5, 40),
    (5, 40, 55, 128),
    (7, 9, 30, 72),
    (0, 0, 0, 33),
    (1_073_741_822, 1_073_741_822, 1_073_741_819, 28),
    (u64::MAX, 0, 45, 78),
    (0, u64::MAX, 15, 63),
    (u64::MAX, u64::MAX, 60, 108),
];

/// How many steps of the seeds are so, from the first on.
fn held_by_steps() -> usize {
    for (i, (s1, s2, first, second)) in STEPS.iter().enumerate() {
        if rand_step(*s1, *s2) != (*first, *second) {
            return i;
        }
    }
    STEPS.len()
}

/// A first seed, n, and the floor of their product by the bound of seeds.
static FLOORS: [(u64, Part, Part); 12] = [
    (5, Part::Int(1_073_741_823), Part::Int(5)),
    (55, Part::Int(1_073_741_823), Part::Int(55)),
    (55, Part::Int(0), Part::Int(0)),
    (55, Part::Int(-1), Part::Int(-1)),
    (536_870_911, Part::Int(10), Part::Int(4)),
    (536_870_912, Part::Int(10), Part::Int(5)),
    (1_073_741_822, Part::Int(-10), Part::Int(-10)),
    (
        1_073_741_822,
        Part::Int(i64::MAX),
        Part::Int(9_223_372_028_264_841_206),
    ),
    (
        1_073_741_822,
        Part::Int(i64::MIN),
        Part::Int(-9_223_372_028_264_841_208),
    ),
    (55, Part::Null, Part::Null),
    (55, Part::Text(b"2"), Part::Error(30002)),
    (u64::MAX, Part::Int(i64::MAX), Part::Error(1690)),
];

/// Whether the floor of a product is this.
fn has_floor(alloc: Global, s1: u64, n: &Part, wanted: &Part) -> bool {
    let n = value(alloc, n);
    is_outcome(&floor_rand(s1, &n), wanted)
}

/// How many floors are so, from the first on.
fn held_by_floors(alloc: Global) -> usize {
    for (i, (s1, n, wanted)) in FLOORS.iter().enumerate() {
        if !has_floor(alloc, *s1, n, wanted) {
            return i;
        }
    }
    FLOORS.len()
}

#[test]
fn functions(rt: HostRuntime) {
    let alloc = rt.alloc();
    expect_all(&rt, "built-in functions", held_by_functions(alloc), 58);
    expect_all(&rt, "the longest text", held_by_lengths(alloc), 7);
    expect_all(&rt, "moments as text", held_by_moments(alloc), 22);
    expect_all(&rt, "identifiers as text", held_by_identifiers(alloc), 6);
    expect_all(&rt, "steps of seeds", held_by_steps(), 8);
    expect_all(&rt, "floors of random numbers", held_by_floors(alloc), 12);
}
