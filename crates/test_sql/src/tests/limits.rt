//! At most 400 constructs are open at once, and a statement has at most 200 levels.
use crate::tests::common::{
    expect_all, is_deep, is_read_back, is_refused_at, levels_of, push_times, read, repeated,
};
use std::alloc::Global;
use val_types::Bytes;

type Opening = (&'static str, &'static str, u32, &'static str);

/// A front, what is opened again and again, how often at most, and what opens one construct more.
/// So often, and then `last` and what is no token, it is refused at that; once more, it is too deep.
static OPENINGS: &[Opening] = &[
    ("DO ", "(", 399, "("),
    ("DO 1, ", "(", 399, "- "),
    ("DO ", "- ", 399, "- "),
    ("DO ", "NOT ", 399, "NOT "),
    ("DO ", "CASE WHEN ", 399, "CASE "),
    ("DO ", "CASE WHEN 1 THEN ", 399, "CASE "),
    ("DO ", "CASE WHEN 1 THEN 1 ELSE ", 399, "CASE "),
    ("DO ", "(SELECT ", 399, "("),
    ("SELECT ", "EXISTS (SELECT ", 399, "EXISTS ("),
    ("DO ", "1 IN (1, ", 399, "a NOT IN ("),
    ("DO ", "f(1, ", 399, "f("),
    ("DO ", "IF(1, ", 399, "IF("),
    ("DO ", "COALESCE(", 399, "ABS ("),
    ("DO ", "SUBSTRING(1, 1, ", 399, "SUBSTRING("),
    ("DO ", "1 + (", 399, "VALUES("),
    ("DO ", "1 = (", 399, "NAME_CONST("),
    ("DO ", "FLOOR(RAND() * ", 398, "FLOOR(RAND("),
    ("DO ", "(SELECT a FROM t WHERE ", 399, "now("),
    ("DO ", "(SELECT a FROM t ORDER BY ", 399, "CASE "),
    ("CREATE PROCEDURE p() ", "BEGIN ", 399, "BEGIN "),
    ("CREATE PROCEDURE p() ", "IF 1 THEN ", 399, "IF "),
    (
        "CREATE PROCEDURE p() ",
        "IF 1 THEN COMMIT; ELSE ",
        399,
        "IF ",
    ),
    (
        "CREATE PROCEDURE p() ",
        "IF 1 THEN COMMIT; ELSEIF 1 THEN ",
        399,
        "IF ",
    ),
    ("CREATE PROCEDURE p() ", "WHILE 1 DO ", 399, "WHILE "),
    ("CREATE PROCEDURE p() ", "BEGIN ", 398, "IF (SELECT "),
    (
        "CREATE TRIGGER g AFTER INSERT ON t FOR EACH ROW ",
        "BEGIN COMMIT; ",
        399,
        "CALL p(",
    ),
    (
        "CREATE FUNCTION f(a INT(1)) RETURNS INT ",
        "BEGIN ",
        399,
        "DECLARE a VARCHAR(",
    ),
    ("CREATE PROCEDURE p() ", "BEGIN ", 399, "INSERT t ("),
    (
        "CREATE PROCEDURE p() ",
        "BEGIN ",
        399,
        "INSERT t (a) VALUES (",
    ),
    (
        "CREATE PROCEDURE p() ",
        "BEGIN ",
        399,
        "REPLACE t (a) VALUES (1), (",
    ),
    ("CREATE PROCEDURE p() ", "BEGIN ", 399, "CREATE TABLE t ("),
    (
        "CREATE PROCEDURE p() ",
        "BEGIN ",
        398,
        "CREATE TABLE t (a INT(",
    ),
    (
        "CREATE PROCEDURE p() ",
        "BEGIN ",
        398,
        "CREATE TABLE t (PRIMARY KEY (",
    ),
    (
        "CREATE PROCEDURE p() ",
        "BEGIN ",
        398,
        "CREATE TABLE t (UNIQUE k (",
    ),
    (
        "CREATE PROCEDURE p() ",
        "BEGIN ",
        399,
        "CREATE PROCEDURE p(",
    ),
    (
        "CREATE PROCEDURE p() ",
        "BEGIN ",
        399,
        "CREATE FUNCTION f() RETURNS BIGINT(",
    ),
    ("CREATE PROCEDURE p() ", "BEGIN ", 399, "SELECT COUNT("),
    (
        "CREATE PROCEDURE p() ",
        "BEGIN ",
        399,
        "SELECT COUNT(*), SUM(",
    ),
    // What is closed counts no more, and what is open does.
    ("DO ", "(", 400, "1) + ("),
    ("DO ", "(", 399, "- 1 * ("),
    ("DO ", "(", 398, "- (1) * - ("),
    ("DO ", "(", 398, "NOT 1 = ("),
    ("DO ", "(", 398, "NOT 1 = 2 IS NULL IN ("),
    ("DO ", "(", 399, "NOT 1 AND ("),
    ("DO ", "f(", 399, "NOT 1, NOT "),
    ("DO ", "(", 398, "CASE WHEN (1) THEN ("),
    ("DO ", "(", 399, "CASE WHEN 1 THEN 2 END + ("),
    ("DO ", "(", 399, "-5 - (-5) - ("),
    ("DO ", "f(", 397, "- - - 1, - - - "),
    ("CREATE PROCEDURE p() ", "BEGIN ", 399, "BEGIN END; BEGIN "),
    (
        "CREATE PROCEDURE p() ",
        "BEGIN ",
        399,
        "IF 1 THEN COMMIT; END IF; WHILE ",
    ),
    (
        "CREATE PROCEDURE p() ",
        "BEGIN ",
        397,
        "IF (1) THEN WHILE (1) DO COMMIT; END WHILE; IF ",
    ),
];

/// A text of so many more constructs than the most, and then what is no token.
fn opened(alloc: Global, opening: &Opening, more: u32) -> Bytes {
    let (front, piece, most, last) = opening;
    let mut text = repeated(alloc, front, most.saturating_add(more), piece, last);
    let _ = text.extend_from_slice(b"#");
    text
}

/// Whether the most are refused at their last byte.
fn most_are_read(alloc: Global, opening: &Opening) -> bool {
    let text = opened(alloc, opening, 0);
    is_refused_at(alloc, text.as_slice(), text.len().saturating_sub(1))
}

/// Whether one construct more is too deep.
fn one_more_is_deep(alloc: Global, opening: &Opening) -> bool {
    let text = opened(alloc, opening, 1);
    is_deep(alloc, text.as_slice())
}

/// How many openings from the first on are counted so.
fn count_opened(alloc: Global, rows: &[Opening]) -> usize {
    for (i, opening) in rows.iter().enumerate() {
        if !most_are_read(alloc, opening) || !one_more_is_deep(alloc, opening) {
            return i;
        }
    }
    rows.len()
}

/// A front and a piece a thousand times, with never more than two constructs open at once.
static FLAT: &[(&str, &str)] = &[
    ("DO 1", ", (1)"),
    ("DO 1", ", - 1"),
    ("DO 1", ", NOT 1"),
    ("DO 1", " + 1"),
    ("DO 1", " - -5"),
    ("DO 1", " IN (1)"),
    ("DO 1", ", CASE WHEN 1 THEN 1 END"),
    ("DO 1", ", (SELECT 1)"),
    ("DO 1", ", EXISTS (SELECT * FROM t)"),
    ("DO 1", ", f(1), now(), ABS(1), VALUES(a)"),
    ("INSERT t (a) VALUES (1)", ", (1)"),
    ("CREATE TABLE t (a INT(1)", ", a VARCHAR(1), UNIQUE k (a)"),
    ("CREATE FUNCTION f(a INT(1)", ", a INT(1)"),
    ("CREATE PROCEDURE p() BEGIN ", "DECLARE a VARCHAR(1); "),
    ("CREATE PROCEDURE p() BEGIN ", "BEGIN END; "),
    ("CREATE PROCEDURE p() BEGIN ", "IF 1 THEN COMMIT; END IF; "),
    (
        "CREATE PROCEDURE p() BEGIN ",
        "WHILE 1 DO COMMIT; END WHILE; ",
    ),
    ("CREATE PROCEDURE p() BEGIN ", "CALL p(1); "),
    (
        "CREATE PROCEDURE p() IF 1 THEN COMMIT; ",
        "ELSEIF 1 THEN COMMIT; ",
    ),
    ("", "CREATE FUNCTION f() RETURNS INT "),
    ("", "CREATE PROCEDURE p(a INT) "),
    ("", "CREATE TRIGGER g BEFORE INSERT ON t FOR EACH ROW "),
];

/// Whether a thousand of a piece, and then what is no token, are refused at that.
fn is_flat(alloc: Global, front: &str, piece: &str) -> bool {
    let mut text = repeated(alloc, front, 1000, piece, " ");
    let place = text.len();
    let _ = text.extend_from_slice(b"#");
    is_refused_at(alloc, text.as_slice(), place)
}

type NotOpened = (&'static str, &'static str, &'static str, &'static str);

/// A front, what is opened 400 times, what may follow, and what may not: it opens nothing.
static NOT_OPENED: &[NotOpened] = &[
    ("DO ", "(", "", ")"),
    ("DO ", "(", "1 ", "("),
    ("DO ", "(", "EXISTS ", "a"),
    ("DO ", "(", "IF ", "a"),
    ("DO ", "(", "COUNT", "(*)"),
    ("DO ", "(", "RAND", "()"),
    ("DO ", "(", "a.b", "(1)"),
    ("DO ", "(", "1 + ", "NOT 1"),
    ("DO ", "(", "a IS ", "(1)"),
    ("DO ", "(", "3 -5 ", "5"),
    ("DO ", "(", "", "-9223372036854775809"),
    ("DO ", "(", "3 -", "9223372036854775809"),
    ("DO ", "(", "-5", ", 1"),
    ("CREATE PROCEDURE p() ", "BEGIN ", "", "START"),
    ("CREATE PROCEDURE p() ", "BEGIN ", "", "CASE"),
    ("CREATE PROCEDURE p() ", "BEGIN ", "", "("),
    ("CREATE PROCEDURE p() ", "BEGIN ", "COMMIT; END ", "IF"),
    ("CREATE PROCEDURE p() ", "BEGIN ", "CALL p ", "CASE"),
    ("CREATE PROCEDURE p() ", "BEGIN ", "CREATE TABLE t ", "t ("),
];

fn is_not_opened(alloc: Global, row: &NotOpened) -> bool {
    let (front, piece, before, wrong) = row;
    let mut text = repeated(alloc, front, 400, piece, before);
    let place = text.len();
    let _ = text.extend_from_slice(wrong.as_bytes());
    is_refused_at(alloc, text.as_slice(), place)
}

/// A text, and what may not follow it: 401 open parentheses behind that count no more.
static LEFT: &[(&str, &str)] = &[
    ("", "1 "),
    ("DO 1 ", "1 "),
    ("DO ", "+ "),
    ("DO (1", ", "),
    ("COMMIT", ";"),
    ("DO f(", "#"),
    ("CREATE PROCEDURE p() BEGIN ", "START "),
];

fn is_left(alloc: Global, front: &str, wrong: &str) -> bool {
    let mut text = repeated(alloc, front, 1, wrong, "");
    push_times(&mut text, 401, "(");
    is_refused_at(alloc, text.as_slice(), front.len())
}

/// How many rows from the first on are flat.
fn count_flat(alloc: Global, rows: &[(&str, &str)]) -> usize {
    for (i, (front, piece)) in rows.iter().enumerate() {
        if !is_flat(alloc, front, piece) {
            return i;
        }
    }
    rows.len()
}

/// How many rows from the first on open nothing more.
fn count_not_opened(alloc: Global, rows: &[NotOpened]) -> usize {
    for (i, row) in rows.iter().enumerate() {
        if !is_not_opened(alloc, row) {
            return i;
        }
    }
    rows.len()
}

/// How many texts from the first on are refused before what is left counts.
fn count_left(alloc: Global, rows: &[(&str, &str)]) -> usize {
    for (i, (front, wrong)) in rows.iter().enumerate() {
        if !is_left(alloc, front, wrong) {
            return i;
        }
    }
    rows.len()
}

/// A front, what stands again and again around the middle, that middle, what closes each, the end,
/// and how often it is a statement at most.
type Nest = (
    &'static str,
    &'static str,
    &'static str,
    &'static str,
    &'static str,
    u32,
);

fn nested(alloc: Global, nest: &Nest, count: u32) -> Bytes {
    let (front, open, middle, close, end, _) = nest;
    let mut text = repeated(alloc, front, count, open, middle);
    push_times(&mut text, count, close);
    let _ = text.extend_from_slice(end.as_bytes());
    text
}

/// Parentheses around what opens some constructs itself; they add no level.
static CLOSED: &[Nest] = &[
    ("SELECT ", "(", "1", ")", "", 400),
    ("DO ", "(", "-5", ")", "", 400),
    ("DO ", "(", "a.b", ")", "", 400),
    ("DO ", "(", "- 5", ")", "", 399),
    ("DO ", "(", "NOT 1", ")", "", 399),
    ("DO ", "(", "f()", ")", "", 399),
    ("DO ", "(", "NOW()", ")", "", 399),
    ("DO ", "(", "VALUES(a)", ")", "", 399),
    ("DO ", "(", "NAME_CONST('a', -5)", ")", "", 399),
    ("DO ", "(", "CASE WHEN 1 THEN 1 END", ")", "", 399),
    ("DO ", "(", "a IN (1, (2))", ")", "", 398),
    ("DO ", "(", "(SELECT 1)", ")", "", 399),
    ("DO ", "(", "EXISTS (SELECT 1)", ")", "", 399),
    ("DO ", "(", "FLOOR(RAND() * 1)", ")", "", 398),
    ("DO ", "(", "ABS(-(1))", ")", "", 397),
    ("DO ", "(", "NOT - 1 = (2)", ")", "", 398),
    ("INSERT t VALUES (", "(", "1", ")", ")", 399),
    ("SELECT SUM(", "(", "a", ")", ") FROM t", 399),
    (
        "SELECT a FROM t ORDER BY ",
        "(",
        "a",
        ")",
        " DESC LIMIT 1",
        400,
    ),
    ("UPDATE t SET a = ", "(", "a", ")", " WHERE (1)", 400),
    (
        "CREATE FUNCTION f(a INT(1)) RETURNS INT(1) RETURN ",
        "(",
        "a",
        ")",
        "",
        400,
    ),
    (
        "CREATE PROCEDURE p() BEGIN IF ",
        "(",
        "a",
        ")",
        " THEN COMMIT; END IF; END",
        398,
    ),
];

/// The text with the most turns, and so many more.
fn nest_of(alloc: Global, nest: &Nest, more: u32) -> Bytes {
    let (_, _, _, _, _, most) = nest;
    nested(alloc, nest, most.saturating_add(more))
}

/// Whether the most turns are a statement.
fn most_turns_are_read(alloc: Global, nest: &Nest) -> bool {
    let text = nest_of(alloc, nest, 0);
    is_read_back(alloc, text.as_slice())
}

/// Whether one turn more is too deep.
fn one_turn_more_is_deep(alloc: Global, nest: &Nest) -> bool {
    let text = nest_of(alloc, nest, 1);
    is_deep(alloc, text.as_slice())
}

/// How many nests from the first on have that many turns at most.
fn count_closed(alloc: Global, rows: &[Nest]) -> usize {
    for (i, nest) in rows.iter().enumerate() {
        if !most_turns_are_read(alloc, nest) || !one_turn_more_is_deep(alloc, nest) {
            return i;
        }
    }
    rows.len()
}

/// Statements of 200 levels, and of 201 or 202 with one turn more.
static LEVELS: &[Nest] = &[
    ("SELECT 1", " + 1", "", "", "", 198),
    ("SELECT 1", " AND 1", "", "", "", 198),
    ("SELECT 1", " = 1", "", "", "", 198),
    ("SELECT 1", " IS NULL", "", "", "", 198),
    ("SELECT 1", " IN (1)", "", "", "", 198),
    ("DO NAME_CONST('a', 1)", " * 1", "", "", "", 198),
    ("DO ", "- ", "1", "", "", 198),
    ("DO ", "- ", "-5", "", "", 198),
    ("DO ", "NOT ", "a.b", "", "", 198),
    ("DO ", "1 + (", "@a", ")", "", 198),
    ("DO ", "1 IN (1, ", "NEW.a", ")", "", 198),
    ("DO ", "CASE WHEN ", "1", " THEN 1 END", "", 198),
    ("DO ", "CASE WHEN 1 THEN ", "1", " END", "", 198),
    ("DO ", "CASE WHEN 1 THEN 1 ELSE ", "1", " END", "", 198),
    ("DO ", "(SELECT ", "1", ")", "", 198),
    (
        "SELECT ",
        "(SELECT a FROM t WHERE ",
        "VALUES(a)",
        ")",
        "",
        198,
    ),
    ("DO ", "EXISTS (SELECT ", "1", ")", "", 99),
    ("DO ", "EXISTS (SELECT * FROM t WHERE ", "1", ")", "", 99),
    ("DO ", "f(", "", ")", "", 199),
    ("DO ", "f(1, ", "1", ")", "", 198),
    ("DO ", "ABS(", "NOW()", ")", "", 198),
    ("DO ", "IF(1, 1, ", "1", ")", "", 198),
    ("DO ", "IF(", "1", ", 1, 1)", "", 198),
    ("DO ", "IFNULL(1, ", "1", ")", "", 198),
    ("DO ", "COALESCE(1, ", "1", ")", "", 198),
    ("DO ", "SUBSTRING(1, 1, ", "1", ")", "", 198),
    ("DO ", "FLOOR(RAND() * ", "1", ")", "", 198),
    ("SELECT SUM(1", " + 1", "", "", ") FROM t", 197),
    ("SELECT COUNT(*) FROM t WHERE 1", " + 1", "", "", "", 198),
    ("SELECT a FROM t ORDER BY 1", " + 1", "", "", " DESC", 198),
    ("SET a = 1", " + 1", "", "", "", 198),
    ("CALL p(1", " + 1", "", "", ")", 198),
    ("INSERT t VALUES (1), (1", " + 1", "", "", ")", 198),
    (
        "INSERT t VALUES (1) ON DUPLICATE KEY UPDATE a = 1",
        " + 1",
        "",
        "",
        "",
        198,
    ),
    ("INSERT t SELECT 1", " + 1", "", "", "", 197),
    ("REPLACE t SELECT 1", " + 1", "", "", "", 197),
    ("UPDATE t SET a = 1", " + 1", "", "", "", 198),
    ("UPDATE t SET a = 1 ORDER BY 1", " + 1", "", "", "", 198),
    ("DELETE FROM t WHERE 1", " + 1", "", "", "", 198),
    (
        "CREATE FUNCTION f() RETURNS INT RETURN 1",
        " + 1",
        "",
        "",
        "",
        197,
    ),
    (
        "CREATE PROCEDURE p() BEGIN DECLARE a INT DEFAULT 1",
        " + 1",
        "",
        "",
        "; END",
        197,
    ),
    (
        "CREATE PROCEDURE p() IF 1 THEN COMMIT; ELSEIF 1",
        " + 1",
        "",
        "",
        " THEN COMMIT; END IF",
        197,
    ),
    (
        "CREATE PROCEDURE p() WHILE 1",
        " + 1",
        "",
        "",
        " DO COMMIT; END WHILE",
        197,
    ),
    (
        "CREATE PROCEDURE p() BEGIN ",
        "BEGIN ",
        "",
        "END; ",
        "END",
        198,
    ),
    (
        "CREATE PROCEDURE p() BEGIN ",
        "BEGIN ",
        "COMMIT; ",
        "END; ",
        "END",
        197,
    ),
    (
        "CREATE PROCEDURE p() BEGIN ",
        "IF 1 THEN ",
        "COMMIT; ",
        "END IF; ",
        "END",
        197,
    ),
    (
        "CREATE PROCEDURE p() BEGIN ",
        "IF 1 THEN COMMIT; ELSE ",
        "COMMIT; ",
        "END IF; ",
        "END",
        197,
    ),
    (
        "CREATE PROCEDURE p() BEGIN ",
        "WHILE 1 DO ",
        "COMMIT; ",
        "END WHILE; ",
        "END",
        197,
    ),
    (
        "",
        "CREATE FUNCTION f() RETURNS INT ",
        "RETURN 1",
        "",
        "",
        198,
    ),
    ("", "CREATE PROCEDURE p() ", "COMMIT", "", "", 199),
    (
        "",
        "CREATE PROCEDURE p() ",
        "CREATE TABLE t (a INT)",
        "",
        "",
        199,
    ),
    (
        "",
        "CREATE TRIGGER g BEFORE INSERT ON t FOR EACH ROW ",
        "BEGIN END",
        "",
        "",
        199,
    ),
];

/// Whether the most turns are 200 levels.
fn has_most_levels(alloc: Global, nest: &Nest) -> bool {
    let text = nest_of(alloc, nest, 0);
    levels_of(read(alloc, text.as_slice())) == Some(200)
}

/// How many nests from the first on have 200 levels at most.
fn count_levelled(alloc: Global, rows: &[Nest]) -> usize {
    for (i, nest) in rows.iter().enumerate() {
        if !has_most_levels(alloc, nest) {
            return i;
        }
    }
    rows.len()
}

#[test]
fn constructs_and_levels(rt: HostRuntime) {
    let alloc = rt.alloc();
    expect_all(
        &rt,
        "open constructs",
        count_opened(alloc, OPENINGS),
        OPENINGS.len(),
    );
    expect_all(&rt, "flat texts", count_flat(alloc, FLAT), FLAT.len());
    expect_all(
        &rt,
        "what opens nothing",
        count_not_opened(alloc, NOT_OPENED),
        NOT_OPENED.len(),
    );
    expect_all(&rt, "what is left", count_left(alloc, LEFT), LEFT.len());
    expect_all(
        &rt,
        "400 constructs",
        count_closed(alloc, CLOSED),
        CLOSED.len(),
    );
    expect_all(
        &rt,
        "200 levels",
        count_levelled(alloc, LEVELS),
        LEVELS.len(),
    );
    expect_all(&rt, "201 levels", count_closed(alloc, LEVELS), LEVELS.len());
}
