//! Stored functions and triggers.

use crate::playing::{Frame, expect_all, held, joined, put_number, put_times, runs};
use std::alloc::Global;
use val_types::Bytes;

/// Behind tables `t` and `u` of two numbers, whose key is `id`.
static TABLES: Frame = Frame {
    before: "s1: CREATE TABLE t (id INT, v INT, PRIMARY KEY (id)) //\ns1: CREATE TABLE u (id INT, v BIGINT, PRIMARY KEY (id)) //\n",
    behind: "",
    first: "1 ok 0\n2 ok 0\n",
    last: "",
};

/// Scripts behind both tables, and the lines behind theirs.
static SCRIPTS: [(&str, &str); 9] = [
    // an error in a function that a trigger calls takes back the whole statement
    (
        "s1: CREATE FUNCTION h(x INT) RETURNS BIGINT RETURN 9223372036854775805 + x //\ns1: CREATE TRIGGER b BEFORE UPDATE ON t FOR EACH ROW INSERT INTO u VALUES (OLD.id, h(OLD.id)) //\ns1: INSERT INTO t VALUES (1, 0), (2, 0), (3, 0), (4, 0), (5, 0) //\ns1: UPDATE t SET v = 1 //\ns1: SELECT COUNT(*) FROM u //\ns1: SELECT SUM(v) FROM t //\n",
        "3 ok 0\n4 ok 0\n5 ok 5\n6 error 1690\n7 row 0\n7 rows 1\n8 row 0\n8 rows 1\n",
    ),
    // a function that writes: it needs the lock, may not change what is read around it, and a replica refuses it
    (
        "s1: CREATE FUNCTION f(n INT) RETURNS INT BEGIN INSERT INTO t VALUES (n, 0); RETURN n + 1; END //\ns1: SELECT f(1) //\ns1: SELECT f(1) //\ns1: UPDATE t SET v = f(9) //\ns1: BEGIN //\ns1: DO f(2) //\ns2: SELECT f(3) //\ns1: ROLLBACK //\nreplica: FETCH 100000 //\nreplica: APPLY 100 //\nreplica: SELECT f(7) //\nreplica: SELECT * FROM t //\ns1: SELECT f(9) //\nreplica: FETCH 100000 //\nreplica: APPLY 100 //\nreplica: SELECT * FROM t //\ns1: SELECT * FROM t //\n",
        "3 ok 0\n4 row 2\n4 rows 1\n5 error 1062\n6 error 1442\n7 ok 0\n8 ok 0\n9 error 1205 by s1\n10 ok 0\n11 fetched 525\n12 applied 4 1:529\n13 error 1290\n14 row 1, 0\n14 rows 1\n15 row 10\n15 rows 1\n16 fetched 113\n17 applied 1 1:642\n18 row 1, 0\n18 row 9, 0\n18 rows 2\n19 row 1, 0\n19 row 9, 0\n19 rows 2\n",
    ),
    // triggers cause triggers
    (
        "s1: CREATE TABLE l (id INT, w INT, PRIMARY KEY (id)) //\ns1: CREATE TRIGGER a AFTER INSERT ON t FOR EACH ROW INSERT INTO l VALUES (NEW.id, NEW.v + 1) //\ns1: CREATE TRIGGER c AFTER INSERT ON l FOR EACH ROW INSERT INTO u VALUES (NEW.id, NEW.w + 1) //\ns1: INSERT INTO t VALUES (4, 40) //\ns1: SELECT * FROM u //\nreplica: FETCH 100000 //\nreplica: APPLY 100 //\nreplica: SELECT * FROM l //\nreplica: SELECT * FROM u //\ns1: DROP TRIGGER c //\ns1: CREATE TRIGGER c AFTER INSERT ON l FOR EACH ROW DELETE FROM t //\ns1: INSERT INTO t VALUES (5, 50) //\ns1: SELECT COUNT(*) FROM l //\n",
        "3 ok 0\n4 ok 0\n5 ok 0\n6 ok 1\n7 row 4, 42\n7 rows 1\n8 fetched 747\n9 applied 6 1:751\n10 row 4, 41\n10 rows 1\n11 row 4, 42\n11 rows 1\n12 ok 0\n13 ok 0\n14 error 1442\n15 row 1\n15 rows 1\n",
    ),
    // a function in a function, which fails at the third row
    (
        "s1: CREATE FUNCTION g(x INT) RETURNS INT RETURN 10 DIV (3 - x) //\ns1: CREATE FUNCTION k(x INT) RETURNS INT RETURN g(x) + 1 //\ns1: INSERT INTO t VALUES (1, 0), (2, 0), (3, 0), (4, 0) //\ns1: INSERT INTO u SELECT id, k(id) FROM t //\ns1: SELECT COUNT(*) FROM u //\ns1: INSERT INTO u SELECT id, k(id) FROM t WHERE id < 3 //\ns1: SELECT * FROM u //\n",
        "3 ok 0\n4 ok 0\n5 ok 4\n6 error 1365\n7 row 0\n7 rows 1\n8 ok 2\n9 row 1, 6\n9 row 2, 11\n9 rows 2\n",
    ),
    // NEW is written before NOT NULL is looked at, and OLD is the row before
    (
        "s1: CREATE TABLE n (id INT, w INT NOT NULL, PRIMARY KEY (id)) //\ns1: CREATE TRIGGER i BEFORE INSERT ON n FOR EACH ROW SET NEW.w = COALESCE(NEW.w, 7) //\ns1: CREATE TRIGGER o AFTER UPDATE ON n FOR EACH ROW INSERT INTO u VALUES (OLD.w, NEW.w) //\ns1: INSERT INTO n VALUES (1, NULL), (2, 8) //\ns1: UPDATE n SET w = w * 10 WHERE id = 1 //\ns1: SELECT * FROM n //\ns1: SELECT * FROM u //\n",
        "3 ok 0\n4 ok 0\n5 ok 0\n6 ok 2\n7 ok 1\n8 row 1, 70\n8 row 2, 8\n8 rows 2\n9 row 7, 70\n9 rows 1\n",
    ),
    // blocks, branches, loops and locals
    (
        "s1: CREATE FUNCTION s(n INT) RETURNS INT BEGIN DECLARE i, r INT DEFAULT 0; WHILE i < n DO SET i = i + 1; IF i MOD 2 = 0 THEN BEGIN DECLARE i INT DEFAULT 100; SET r = r + i; END; ELSE SET r = r + i; END IF; END WHILE; RETURN r; END //\ns1: SELECT s(0), s(5), s(NULL) //\n",
        "3 ok 0\n4 row 0, 209, 0\n4 rows 1\n",
    ),
    // what refuses a call
    (
        "s1: CREATE FUNCTION r(n INT) RETURNS INT RETURN r(n) //\ns1: CREATE FUNCTION e() RETURNS INT DO 1 //\ns1: CREATE FUNCTION p(n INT) RETURNS VARCHAR(2) RETURN n //\ns1: SELECT r(1) //\ns1: SELECT r() //\ns1: SELECT e() //\ns1: SELECT p(1) //\ns1: SELECT p('a') //\ns1: SELECT p(2147483648) //\ns1: SELECT q(1) //\ns1: SELECT 1 //\n",
        "3 ok 0\n4 ok 0\n5 ok 0\n6 error 1424\n7 error 1318\n8 error 1321\n9 error 30002\n10 error 30002\n11 error 1264\n12 error 1305\n13 row 1\n13 rows 1\n",
    ),
    // what refuses a definition, and what goes with a table
    (
        "s1: CREATE FUNCTION f() RETURNS INT COMMIT //\ns1: CREATE FUNCTION f() RETURNS INT SELECT 1 //\ns1: CREATE FUNCTION f() RETURNS INT RETURN 1 //\ns1: CREATE FUNCTION f() RETURNS INT RETURN 2 //\ns1: CREATE TRIGGER a AFTER INSERT ON nosuch FOR EACH ROW DO 1 //\ns1: CREATE TRIGGER a AFTER INSERT ON t FOR EACH ROW DO 1 //\ns1: CREATE TRIGGER a AFTER DELETE ON t FOR EACH ROW DO 1 //\ns1: CREATE TRIGGER b AFTER INSERT ON t FOR EACH ROW DO 1 //\ns1: CREATE TRIGGER b AFTER INSERT ON u FOR EACH ROW SET NEW.v = 1 //\ns1: DROP TABLE t //\ns1: DROP TRIGGER a //\ns1: DROP FUNCTION f //\ns1: DROP FUNCTION f //\ns1: CREATE PROCEDURE f() DO 1 //\n",
        "3 error 30005\n4 error 30005\n5 ok 0\n6 error 1304\n7 error 1146\n8 ok 0\n9 error 1359\n10 error 30005\n11 error 30005\n12 ok 0\n13 error 1360\n14 ok 0\n15 error 1305\n16 ok 0\n",
    ),
    // turns of WHILE are counted for the whole command, whatever its statement comes to
    (
        "s1: CREATE FUNCTION w(n INT) RETURNS INT BEGIN DECLARE i INT DEFAULT 0; WHILE i < n DO SET i = i + 1; END WHILE; RETURN i; END //\ns1: SELECT w(1000000) //\ns1: SELECT w(1000001) //\ns1: SELECT w(600000), w(400001) //\ns1: SELECT w(600000), w(400000) //\n",
        "3 ok 0\n4 row 1000000\n4 rows 1\n5 error 30004\n6 error 30004\n7 row 600000, 400000\n7 rows 1\n",
    ),
];

/// Puts the functions that call one another, so many deep but for the innermost, `f1`.
fn put_functions(alloc: Global, script: &mut Bytes, depth: u32) {
    for number in 2..depth.saturating_add(1) {
        put_times(script, "s1: CREATE FUNCTION f", 1);
        put_number(alloc, script, number);
        put_times(script, "() RETURNS INT RETURN f", 1);
        put_number(alloc, script, number.saturating_sub(1));
        put_times(script, "() //\n", 1);
    }
}

/// Functions that call one another, so many deep, and a call of the outermost.
fn nested(alloc: Global, depth: u32) -> Bytes {
    let mut script = joined(
        alloc,
        &["s1: CREATE FUNCTION f1() RETURNS INT RETURN 5 //\n"],
    );
    put_functions(alloc, &mut script, depth);
    put_times(&mut script, "s1: SELECT f", 1);
    put_number(alloc, &mut script, depth);
    put_times(&mut script, "() //\n", 1);
    script
}

/// What is written where so many functions are made, and then the lines of the call.
fn made_then(alloc: Global, count: u32, last: &str) -> Bytes {
    let mut lines = joined(alloc, &[]);
    for number in 1..count.saturating_add(1) {
        put_number(alloc, &mut lines, number);
        put_times(&mut lines, " ok 0\n", 1);
    }
    put_times(&mut lines, last, 1);
    lines
}

/// Whether so many functions that call one another end with these lines.
fn runs_nested(alloc: Global, depth: u32, last: &str) -> bool {
    let lines = made_then(alloc, depth, last);
    runs(alloc, nested(alloc, depth).as_slice(), lines.as_slice())
}

#[test]
fn functions_and_triggers(rt: HostRuntime) {
    let alloc = rt.alloc();
    expect_all(
        &rt,
        "scripts",
        held(alloc, &TABLES, &SCRIPTS),
        SCRIPTS.len(),
    );
    assert!(rt; runs_nested(alloc, 16, "17 row 5\n17 rows 1\n"));
    assert!(rt; runs_nested(alloc, 17, "18 error 30003\n"));
}
