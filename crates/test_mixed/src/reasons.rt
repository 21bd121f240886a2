//! Each reason for which a text is unsafe, alone, however it is reached, in each format: the lines of the statement, and which of its
//! items are rows.

use crate::playing::{NEAR, expect_all, joined, log_of, put_line, runs, written_by};
use std::alloc::Global;
use val_types::Bytes;

/// Tables: `t` and `x` of two numbers, `a` and `c`, whose keys are generated, `u` and `z` with a unique key, of which `u` has generated
/// ones; a row in `t`.
const TABLES: &str =
    "s1: CREATE TABLE t (id INT, v INT, PRIMARY KEY (id)) //\ns1: CREATE TABLE x (id INT, v INT, PRIMARY KEY (id)) //\ns1: CREATE TABLE a (id INT AUTO_INCREMENT, v BIGINT, w VARCHAR(40), PRIMARY KEY (id)) //\ns1: CREATE TABLE c (id INT AUTO_INCREMENT, v INT, PRIMARY KEY (id)) //\ns1: CREATE TABLE u (id INT AUTO_INCREMENT, k INT, PRIMARY KEY (id), UNIQUE KEY uk (k)) //\ns1: CREATE TABLE z (id INT, k INT, PRIMARY KEY (id), UNIQUE KEY uk (k)) //\ns1: INSERT INTO t VALUES (1, 1) //\n";

/// What these seven commands write.
const MADE: &str = "1 ok 0\n2 ok 0\n3 ok 0\n4 ok 0\n5 ok 0\n6 ok 0\n7 ok 1\n";

/// How a text is reached: what stands before and behind it in definitions, how many these are, and the statement that reaches it.
struct Way {
    front: &'static str,
    behind: &'static str,
    definitions: usize,
    statement: &'static str,
}

/// As the statement of a procedure.
static IN_PROCEDURE: [Way; 1] = [Way {
    front: "s1: CREATE PROCEDURE p() ",
    behind: " //\n",
    definitions: 1,
    statement: "CALL p()",
}];

/// A statement with the number `n`, from 1 on, in view: in a trigger, in a function that a trigger calls, and in one that a statement of
/// a procedure calls. Each time one row of `a` is inserted.
static INSIDE: [Way; 3] = [
    Way {
        front: "s1: CREATE TRIGGER r AFTER INSERT ON a FOR EACH ROW BEGIN DECLARE n INT DEFAULT NEW.id; ",
        behind: "; END //\n",
        definitions: 1,
        statement: "INSERT INTO a (v) VALUES (0)",
    },
    Way {
        front: "s1: CREATE FUNCTION f(n INT) RETURNS INT BEGIN ",
        behind: "; RETURN n; END //\ns1: CREATE TRIGGER r AFTER INSERT ON a FOR EACH ROW DO f(NEW.id) //\n",
        definitions: 2,
        statement: "INSERT INTO a (v) VALUES (0)",
    },
    Way {
        front: "s1: CREATE FUNCTION f(n INT) RETURNS INT BEGIN ",
        behind: "; RETURN n; END //\ns1: CREATE PROCEDURE p() INSERT INTO a (v) VALUES (f(1)) //\n",
        definitions: 2,
        statement: "CALL p()",
    },
];

/// Statements that have one reason each. What a program inserts into a table with generated values is none here.
static REASONS: [&str; 13] = [
    "INSERT INTO a (w) VALUES (UUID())",
    "INSERT INTO a (w) VALUES (SYSDATE())",
    "INSERT INTO a (w) VALUES (USER())",
    "INSERT INTO a (v) VALUES (ROW_COUNT())",
    "INSERT INTO a (v) VALUES (FLOOR(RAND() * 9))",
    "INSERT INTO a (v) VALUES (@@server_id)",
    "UPDATE t SET v = v + 1 LIMIT 1",
    "INSERT INTO a (v) VALUES ((SELECT v FROM t LIMIT 1))",
    "INSERT INTO a (v) SELECT v FROM t",
    "INSERT INTO u (k) VALUES (NULL) ON DUPLICATE KEY UPDATE k = 0",
    "INSERT IGNORE INTO x SELECT COUNT(*), COUNT(*) FROM x",
    "REPLACE INTO x SELECT COUNT(*), COUNT(*) FROM x",
    "INSERT INTO x SELECT COUNT(*), COUNT(*) FROM x ON DUPLICATE KEY UPDATE v = 1",
];

/// The same inside. INSERT of a SELECT into a table with generated values has two reasons there, and is left out.
static REASONS_INSIDE: [&str; 16] = [
    "DO UUID()",
    "DO SYSDATE()",
    "DO LENGTH(USER())",
    "DO ROW_COUNT()",
    "DO FLOOR(RAND() * n)",
    "DO IF(0, @@server_id, 1)",
    "UPDATE t SET v = v + 1 LIMIT 1",
    "DELETE FROM x LIMIT n",
    "INSERT INTO c (v) VALUES (n)",
    "REPLACE INTO c (v) VALUES (n)",
    "IF 0 THEN INSERT INTO c VALUES (n, n); END IF",
    "INSERT INTO z VALUES (n, n) ON DUPLICATE KEY UPDATE k = 0",
    "INSERT IGNORE INTO x SELECT n, 0",
    "REPLACE INTO x SELECT n, 0",
    "INSERT INTO x SELECT n, 0 ON DUPLICATE KEY UPDATE v = 1",
    "BEGIN DECLARE i INT DEFAULT LENGTH(UUID()); WHILE i < 0 DO DO 1; END WHILE; END",
];

/// Statements that have none.
static SAFE: [&str; 6] = [
    "INSERT INTO a (v) VALUES (UNIX_TIMESTAMP() + CONNECTION_ID() + LAST_INSERT_ID() + COALESCE(@v, 0) + @@timestamp + @@last_insert_id + @@auto_increment_increment + @@auto_increment_offset)",
    "INSERT INTO a (w) VALUES (NOW())",
    "INSERT INTO x SELECT COUNT(*), COUNT(*) FROM x",
    "INSERT INTO a (v) VALUES (1) ON DUPLICATE KEY UPDATE v = 2",
    "INSERT IGNORE INTO u (k) VALUES (NULL)",
    "REPLACE INTO a (v) VALUES (1)",
];

/// The same inside.
static SAFE_INSIDE: [&str; 6] = [
    "DO UNIX_TIMESTAMP() + CONNECTION_ID() + LAST_INSERT_ID() + COALESCE(@v, 0) + @@timestamp + @@last_insert_id + @@auto_increment_increment + @@auto_increment_offset",
    "INSERT INTO x VALUES (n, n) ON DUPLICATE KEY UPDATE v = v + 1",
    "UPDATE t SET v = n + v ORDER BY id DESC",
    "DELETE FROM z WHERE id IN (1, 2)",
    "INSERT IGNORE INTO z VALUES (n, n)",
    "REPLACE INTO x VALUES (n, n)",
];

/// How the line of a statement ends under STATEMENT, and how many of its items in the three formats are rows.
struct Outcome {
    first: &'static str,
    rows: usize,
}

/// With a reason: warned under STATEMENT, by rows under MIXED and ROW.
static WITH_REASON: Outcome = Outcome {
    first: " ok 1 warning 1592\n",
    rows: 2,
};

/// Without one: by rows under ROW alone.
static WITHOUT: Outcome = Outcome {
    first: " ok 1\n",
    rows: 1,
};

/// What stands before a statement in each format, and behind the last.
const BY_TEXT: &str = "s1: SET binlog_format = STATEMENT //\ns1: ";

const MIXED: &str = " //\ns1: SET binlog_format = MIXED //\ns1: ";

const BY_ROWS: &str = " //\ns1: SET binlog_format = ROW //\ns1: ";

const APPLIED: &str = " //\nreplica: FETCH 100000 //\nreplica: APPLY 100 //\n";

/// Puts a piece at the end.
fn put(script: &mut Bytes, piece: &str) {
    let _ = script.extend_from_slice(piece.as_bytes());
}

/// Puts a statement in each format, all of it carried out by the replica.
fn put_in_formats(script: &mut Bytes, statement: &str) {
    put(script, BY_TEXT);
    put(script, statement);
    put(script, MIXED);
    put(script, statement);
    put(script, BY_ROWS);
    put(script, statement);
    put(script, APPLIED);
}

/// Tables, and a statement in each format.
fn script_of_text(alloc: Global, text: &str) -> Bytes {
    let mut script = joined(alloc, &[TABLES]);
    put_in_formats(&mut script, text);
    script
}

/// Tables, the definitions of a way around a text, and the statement that reaches it in each format.
fn script_of_way(alloc: Global, way: &Way, text: &str) -> Bytes {
    let mut script = joined(alloc, &[TABLES]);
    put(&mut script, way.front);
    put(&mut script, text);
    put(&mut script, way.behind);
    put_in_formats(&mut script, way.statement);
    script
}

/// Puts the lines of a SET and of the statement behind it, the first with this number.
fn put_statement(alloc: Global, lines: &mut Bytes, number: usize, ending: &str) {
    put_line(alloc, lines, number, " ok 0\n");
    put_line(alloc, lines, number.saturating_add(1), ending);
}

/// Puts what the replica says of a log of so many bytes: all of it but its magic is fetched, and all of its groups are carried out, those
/// of six tables, a row, the definitions and three statements.
fn put_applied(alloc: Global, lines: &mut Bytes, number: usize, definitions: usize, size: usize) {
    put_line(alloc, lines, number, " fetched ");
    put_line(alloc, lines, size.saturating_sub(4), "\n");
    put_line(alloc, lines, number.saturating_add(1), " applied ");
    put_line(alloc, lines, definitions.saturating_add(10), " 1:");
    put_line(alloc, lines, size, "\n");
}

/// What a script with so many definitions writes, whose log has so many bytes.
fn lines_of(alloc: Global, definitions: usize, first: &str, size: usize) -> Bytes {
    let mut lines = joined(alloc, &[MADE]);
    let made = definitions.saturating_add(8);
    for number in 8..made {
        put_line(alloc, &mut lines, number, " ok 0\n");
    }
    put_statement(alloc, &mut lines, made, first);
    put_statement(alloc, &mut lines, made.saturating_add(2), " ok 1\n");
    put_statement(alloc, &mut lines, made.saturating_add(4), " ok 1\n");
    put_applied(alloc, &mut lines, made.saturating_add(6), definitions, size);
    lines
}

/// How often a piece stands in a text.
fn count_of(text: &[u8], piece: &[u8]) -> usize {
    let mut count: usize = 0;
    for at in 0..text.len() {
        if text.get(at..).unwrap_or(b"").starts_with(piece) {
            count = count.saturating_add(1);
        }
    }
    count
}

/// How many items of a log are rows: the last event of each has the end of its statement.
fn rows_in(alloc: Global, log: &[u8]) -> usize {
    let (printed, _) = written_by(alloc, "print", log, &NEAR);
    count_of(printed.as_slice(), b" end (")
}

/// Whether a script writes its lines, and so many of its items are rows.
fn comes_to(alloc: Global, script: &[u8], definitions: usize, outcome: &Outcome) -> bool {
    let log = log_of(alloc, script);
    let lines = lines_of(alloc, definitions, outcome.first, log.len());
    runs(alloc, &NEAR, script, lines.as_slice()) && rows_in(alloc, log.as_slice()) == outcome.rows
}

/// Whether this comes of a text that is reached in a way.
fn is_reached(alloc: Global, way: &Way, text: &str, outcome: &Outcome) -> bool {
    let script = script_of_way(alloc, way, text);
    comes_to(alloc, script.as_slice(), way.definitions, outcome)
}

/// Whether it does in each of these ways.
fn in_each_way(alloc: Global, ways: &[Way], text: &str, outcome: &Outcome) -> bool {
    for way in ways {
        if !is_reached(alloc, way, text, outcome) {
            return false;
        }
    }
    true
}

/// Of how many texts it does, from the first on, in each of these ways.
fn held_in(alloc: Global, ways: &[Way], texts: &[&str], outcome: &Outcome) -> usize {
    for (i, text) in texts.iter().enumerate() {
        if !in_each_way(alloc, ways, *text, outcome) {
            return i;
        }
    }
    texts.len()
}

/// Of how many texts it does by themselves.
fn held_alone(alloc: Global, texts: &[&str], outcome: &Outcome) -> usize {
    for (i, text) in texts.iter().enumerate() {
        let script = script_of_text(alloc, *text);
        if !comes_to(alloc, script.as_slice(), 0, outcome) {
            return i;
        }
    }
    texts.len()
}

#[test]
fn texts_with_a_reason(rt: HostRuntime) {
    let alloc = rt.alloc();
    let alone = held_alone(alloc, &REASONS, &WITH_REASON);
    expect_all(&rt, "by themselves", alone, REASONS.len());
    let called = held_in(alloc, &IN_PROCEDURE, &REASONS, &WITH_REASON);
    expect_all(&rt, "in a procedure", called, REASONS.len());
}

#[test]
fn texts_with_a_reason_inside(rt: HostRuntime) {
    let inside = held_in(rt.alloc(), &INSIDE, &REASONS_INSIDE, &WITH_REASON);
    expect_all(&rt, "inside", inside, REASONS_INSIDE.len());
}

#[test]
fn texts_without_one(rt: HostRuntime) {
    let alloc = rt.alloc();
    let alone = held_alone(alloc, &SAFE, &WITHOUT);
    expect_all(&rt, "by themselves", alone, SAFE.len());
    let called = held_in(alloc, &IN_PROCEDURE, &SAFE, &WITHOUT);
    expect_all(&rt, "in a procedure", called, SAFE.len());
    let inside = held_in(alloc, &INSIDE, &SAFE_INSIDE, &WITHOUT);
    expect_all(&rt, "inside", inside, SAFE_INSIDE.len());
}
