//! Refusals of statements, SETs, CALLs and definitions at the source, and of SELECTs at the replica, one by one: each has one cause.
//!
//! Those that need more than a statement stand in `answers` (1467, 30006, 30007, what refuses a table) and `programs` (1321, 1359,
//! 1424, 1442, 30003, 30004), and in the stored run of `repl_fixed` (1197, 1456, those of procedures). Of 30008 there is no case:
//! it takes 4,294,967,295 transactions, or a log of a gigabyte.

use crate::playing::{Frame, expect_all, held};

/// Behind tables, a function, a procedure and two rows; behind the statement the rows are as before.
static SOURCE: Frame = Frame {
    before: "s1: CREATE TABLE t (id INT, v INT, PRIMARY KEY (id)) //\ns1: CREATE TABLE n (id INT NOT NULL AUTO_INCREMENT, w VARCHAR(3) NOT NULL, PRIMARY KEY (id)) //\ns1: CREATE FUNCTION g(x INT) RETURNS INT RETURN 10 DIV x //\ns1: CREATE PROCEDURE p(x INT) DO x //\ns1: INSERT INTO t VALUES (1, 1), (2, 2) //\ns1: ",
    behind: " //\ns1: SELECT COUNT(*), SUM(id), SUM(v) FROM t //\n",
    first: "1 ok 0\n2 ok 0\n3 ok 0\n4 ok 0\n5 ok 2\n6 error ",
    last: "\n7 row 2, 3, 3\n7 rows 1\n",
};

/// Statements that the catalog's checks refuse, and others that their run refuses.
static STATEMENTS: [(&str, &str); 20] = [
    ("DELETE FROM nosuch", "1146"),
    ("UPDATE t SET w = 1", "1054"),
    ("DO nosuch(1)", "1305"),
    ("DO g()", "1318"),
    ("DO @@nosuch", "1193"),
    ("DELETE FROM t LIMIT k", "1327"),
    ("INSERT INTO t (v, id, v) VALUES (1, 3, 3)", "1110"),
    ("INSERT INTO t VALUES (3)", "1136"),
    ("DELETE FROM t WHERE v = (SELECT MAX(v) FROM t)", "1093"),
    ("INSERT INTO n (id) VALUES (1)", "1364"),
    ("INSERT INTO t VALUES (3, 3), (1, 3)", "1062"),
    ("UPDATE t SET id = 2 WHERE id = 1", "1062"),
    ("INSERT INTO n VALUES (1, NULL)", "1048"),
    ("INSERT INTO n VALUES (1, 'four')", "1406"),
    ("INSERT INTO t VALUES (3, 3), (2147483648, 1)", "1264"),
    ("UPDATE t SET v = 'a'", "30002"),
    ("UPDATE t SET v = g(id - 2)", "1365"),
    ("SELECT (SELECT v FROM t)", "1242"),
    ("ROLLBACK TO x", "1305"),
    ("RELEASE SAVEPOINT x", "1305"),
];

/// SETs that are refused before their expressions are evaluated, by these, or for the values.
static SETS: [(&str, &str); 17] = [
    ("SET nosuch = 1", "1193"),
    ("SET server_id = 2", "1193"),
    ("SET NEW.v = 1", "1193"),
    ("SET @x = (SELECT id FROM nosuch)", "1146"),
    ("SET @x = v", "1054"),
    ("SET @x = nosuch(1)", "1305"),
    ("SET @x = g(0)", "1365"),
    ("SET @x = 9223372036854775807 + 1", "1690"),
    ("SET auto_increment_increment = NULL", "1231"),
    ("SET auto_increment_offset = 'a'", "1231"),
    ("SET timestamp = -1", "1231"),
    ("SET last_insert_id = -1", "1231"),
    ("SET insert_id = -1", "1231"),
    ("SET rand_seed1 = 1073741823", "1231"),
    ("SET rand_seed2 = NULL", "1231"),
    ("SET @x = 1, binlog_format = 'BOTH'", "1231"),
    ("SET binlog_format = NULL", "1231"),
];

/// CALLs, and definitions of tables.
static CALLS: [(&str, &str); 11] = [
    ("CALL nosuch(1)", "1305"),
    ("CALL p()", "1318"),
    ("CALL p(v)", "1054"),
    ("CALL p(g(0))", "1365"),
    ("CALL p('a')", "30002"),
    ("CALL p(2147483648)", "1264"),
    ("CREATE TABLE t (id INT, PRIMARY KEY (id))", "1050"),
    ("CREATE TABLE u (a INT, a INT, PRIMARY KEY (a))", "1060"),
    ("CREATE TABLE u (a INT, PRIMARY KEY (b))", "1072"),
    ("CREATE TABLE u (a INT)", "30001"),
    (
        "CREATE TABLE u (a INT, b VARCHAR(65536), PRIMARY KEY (a))",
        "30009",
    ),
];

/// Definitions of programs, and what is dropped.
static PROGRAMS: [(&str, &str); 13] = [
    ("CREATE FUNCTION g() RETURNS INT RETURN 1", "1304"),
    (
        "CREATE FUNCTION h() RETURNS INT BEGIN SET nosuch = 1; RETURN 1; END",
        "1193",
    ),
    (
        "CREATE FUNCTION h() RETURNS INT BEGIN COMMIT; RETURN 1; END",
        "30005",
    ),
    (
        "CREATE FUNCTION h(x VARCHAR(0)) RETURNS INT RETURN 1",
        "30009",
    ),
    ("CREATE PROCEDURE p() DO 1", "1304"),
    (
        "CREATE PROCEDURE h() BEGIN DECLARE x VARCHAR(65536); DO 1; END",
        "30009",
    ),
    (
        "CREATE TRIGGER b BEFORE INSERT ON nosuch FOR EACH ROW DO 1",
        "1146",
    ),
    (
        "CREATE TRIGGER b BEFORE INSERT ON t FOR EACH ROW SET nosuch = 1",
        "1193",
    ),
    ("DROP TABLE nosuch", "1051"),
    ("DROP FUNCTION p", "1305"),
    ("DROP PROCEDURE g", "1305"),
    ("DROP TRIGGER nosuch", "1360"),
    ("TRUNCATE TABLE nosuch", "1146"),
];

/// A replica with a table, five functions and two rows. The log has 863 bytes behind its magic: 119, 35 and its text for each of
/// the six definitions, and 137 for the rows.
static REPLICA: Frame = Frame {
    before: "s1: CREATE TABLE t (id INT, v INT, PRIMARY KEY (id)) //\ns1: CREATE FUNCTION g(x INT) RETURNS INT RETURN 10 DIV x //\ns1: CREATE FUNCTION e() RETURNS INT DO 1 //\ns1: CREATE FUNCTION r(x INT) RETURNS INT RETURN r(x) //\ns1: CREATE FUNCTION w() RETURNS INT BEGIN INSERT INTO t VALUES (9, 9); RETURN 1; END //\ns1: CREATE FUNCTION b() RETURNS INT BEGIN DECLARE s VARCHAR(65535) DEFAULT 'x'; WHILE 1 DO SET s = CONCAT(s, s); END WHILE; RETURN 1; END //\ns1: INSERT INTO t VALUES (1, 1), (2, 2) //\nreplica: FETCH 100000 //\nreplica: APPLY 100 //\nreplica: ",
    behind: " //\nreplica: SELECT COUNT(*) FROM t //\n",
    first: "1 ok 0\n2 ok 0\n3 ok 0\n4 ok 0\n5 ok 0\n6 ok 0\n7 ok 2\n8 fetched 863\n9 applied 7 1:867\n10 error ",
    last: "\n11 row 2\n11 rows 1\n",
};

/// SELECTs of the replica.
static SELECTS: [(&str, &str); 17] = [
    ("SELECT 1 FORM t", "1064 at 9"),
    ("SELECT * FROM nosuch", "1146"),
    ("SELECT w FROM t", "1054"),
    ("SELECT nosuch(1)", "1305"),
    ("SELECT g()", "1318"),
    ("SELECT @@nosuch", "1193"),
    ("SELECT id FROM t LIMIT k", "1327"),
    ("SELECT w()", "1290"),
    ("SELECT (SELECT v FROM t)", "1242"),
    ("SELECT 9223372036854775807 + 1", "1690"),
    ("SELECT g(id - 1) FROM t", "1365"),
    ("SELECT 'a' + 1", "30002"),
    ("SELECT g('a')", "30002"),
    ("SELECT g(2147483648)", "1264"),
    ("SELECT e()", "1321"),
    ("SELECT r(1)", "1424"),
    ("SELECT b()", "1153"),
];

#[test]
fn statements_are_refused(rt: HostRuntime) {
    let cases = STATEMENTS.len();
    expect_all(
        &rt,
        "statements",
        held(rt.alloc(), &SOURCE, &STATEMENTS),
        cases,
    );
}

#[test]
fn sets_are_refused(rt: HostRuntime) {
    let cases = SETS.len();
    expect_all(&rt, "SETs", held(rt.alloc(), &SOURCE, &SETS), cases);
}

#[test]
fn calls_are_refused(rt: HostRuntime) {
    let cases = CALLS.len();
    expect_all(
        &rt,
        "CALLs and tables",
        held(rt.alloc(), &SOURCE, &CALLS),
        cases,
    );
}

#[test]
fn definitions_are_refused(rt: HostRuntime) {
    let cases = PROGRAMS.len();
    expect_all(&rt, "programs", held(rt.alloc(), &SOURCE, &PROGRAMS), cases);
}

#[test]
fn selects_of_a_replica_are_refused(rt: HostRuntime) {
    let cases = SELECTS.len();
    expect_all(&rt, "SELECTs", held(rt.alloc(), &REPLICA, &SELECTS), cases);
}
