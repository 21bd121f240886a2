//! Lines with the warning 1592, and lines of the same kinds without.

use crate::playing::{NEAR, expect_all, held};

/// A session that asks for texts, a table, a function that inserts into it for a reason, and one that does without; and what that writes.
const BY_TEXTS: &str =
    "s1: CREATE TABLE t (id INT, v INT, PRIMARY KEY (id)) //\ns1: CREATE FUNCTION f(n INT) RETURNS INT BEGIN INSERT INTO t VALUES (n, @@server_id); RETURN n; END //\ns1: CREATE FUNCTION g(n INT) RETURNS INT BEGIN INSERT INTO t VALUES (n, 0); RETURN n; END //\ns1: SET binlog_format = STATEMENT //\n";

const MADE: &str = "1 ok 0\n2 ok 0\n3 ok 0\n4 ok 0\n";

/// Scripts behind them, and the lines behind theirs.
static WARNED: [(&str, &str); 11] = [
    // what reads: warned where it changed rows for a reason
    (
        "s1: SELECT f(1) //\ns1: SELECT g(2) //\ns1: SELECT v, @@server_id FROM t LIMIT 1 //\ns1: DO f(3) //\ns1: DO UUID() //\ns1: DO g(4) //\n",
        "5 row 1\n5 rows 1 warning 1592\n6 row 2\n6 rows 1\n7 row 1, 1\n7 rows 1\n8 ok 0 warning 1592\n9 ok 0\n10 ok 0\n",
    ),
    // SET: its expressions are one statement; none where it is refused
    (
        "s1: SET @a = f(1), @b = g(2) //\ns1: SET @a = UUID() //\ns1: SET @a = g(3) //\ns1: SET @a = f(4), rand_seed1 = 'a' //\ns1: SET @a = f(4), nosuch = 1 //\ns1: SELECT @a //\n",
        "5 ok 0 warning 1592\n6 ok 0\n7 ok 0\n8 error 1231\n9 error 1193\n10 row 3\n10 rows 1\n",
    ),
    // what has a reason and changes no row, or fails
    (
        "s1: INSERT INTO t VALUES (1, 1) //\ns1: UPDATE t SET v = @@server_id //\ns1: UPDATE t SET v = 5 WHERE id = 9 LIMIT 1 //\ns1: INSERT IGNORE INTO t SELECT id, v FROM t //\ns1: INSERT INTO t VALUES (2, @@server_id), (1, 1) //\ns1: INSERT INTO t SELECT id, v FROM t ON DUPLICATE KEY UPDATE v = 1 //\ns1: DELETE FROM t LIMIT 1 //\n",
        "5 ok 1\n6 ok 0\n7 ok 0\n8 ok 0\n9 error 1062\n10 ok 0\n11 ok 1 warning 1592\n",
    ),
    // by rows nothing is warned; each session has its format, and begins with MIXED
    (
        "s2: INSERT INTO t VALUES (1, @@server_id) //\ns1: INSERT INTO t VALUES (2, @@server_id) //\ns1: SET binlog_format = MIXED //\ns1: INSERT INTO t VALUES (3, @@server_id) //\ns1: SET binlog_format = ROW //\ns1: INSERT INTO t VALUES (4, @@server_id) //\ns1: SELECT f(5) //\ns1: SET @a = f(6) //\n",
        "5 ok 1\n6 ok 1 warning 1592\n7 ok 0\n8 ok 1\n9 ok 0\n10 ok 1\n11 row 5\n11 rows 1\n12 ok 0\n",
    ),
    // transactions and definitions are not warned; ROW_COUNT() does not see it
    (
        "s1: BEGIN //\ns1: INSERT INTO t VALUES (1, @@server_id) //\ns1: SELECT ROW_COUNT() //\ns1: SAVEPOINT a //\ns1: INSERT INTO t VALUES (2, 2) //\ns1: COMMIT //\ns1: TRUNCATE TABLE t //\ns1: CREATE TABLE u (id INT AUTO_INCREMENT, PRIMARY KEY (id)) //\n",
        "5 ok 0\n6 ok 1 warning 1592\n7 row 1\n7 rows 1\n8 ok 0\n9 ok 1\n10 ok 0\n11 ok 0\n12 ok 0\n",
    ),
    // CALL: one warned statement in it, the first or the last; its rows lines have no warning
    (
        "s1: CREATE PROCEDURE p() BEGIN INSERT INTO t VALUES (1, @@server_id); INSERT INTO t VALUES (2, 0); END //\ns1: CREATE PROCEDURE q() BEGIN DELETE FROM t WHERE id = 2; UPDATE t SET v = v + 1 LIMIT 1; SELECT v FROM t; END //\ns1: CREATE PROCEDURE r() BEGIN DELETE FROM t; SELECT COUNT(*) FROM t; END //\ns1: CALL p() //\ns1: CALL q() //\ns1: CALL r() //\n",
        "5 ok 0\n6 ok 0\n7 ok 0\n8 ok 2 warning 1592\n9 row 2\n9 rows 1\n9 ok 2 warning 1592\n10 row 0\n10 rows 1\n10 ok 1\n",
    ),
    // SELECTs in a CALL, and its arguments
    (
        "s1: CREATE PROCEDURE p(n INT) BEGIN SELECT f(n); SELECT g(n + 1); END //\ns1: CALL p(1) //\ns1: CREATE PROCEDURE q(n INT) SELECT g(n) //\ns1: CALL q(5) //\ns1: CALL q(f(6) + 1) //\ns1: CALL q(g(8) + 1) //\n",
        "5 ok 0\n6 row 1\n6 rows 1\n6 row 2\n6 rows 1\n6 ok 0 warning 1592\n7 ok 0\n8 row 5\n8 rows 1\n8 ok 0\n9 row 7\n9 rows 1\n9 ok 0 warning 1592\n10 row 9\n10 rows 1\n10 ok 0\n",
    ),
    // a condition, a DEFAULT and a SET in a CALL, and a CALL in a CALL
    (
        "s1: CREATE PROCEDURE c(k INT) BEGIN IF f(k) THEN DO 1; END IF; END //\ns1: CREATE PROCEDURE d() BEGIN DECLARE x INT DEFAULT f(2); DO x; END //\ns1: CREATE PROCEDURE s() SET @x = f(3) //\ns1: CREATE PROCEDURE n() BEGIN CALL c(4); DO 1; END //\ns1: CREATE PROCEDURE w() WHILE g(5) = 0 DO DO 1; END WHILE //\ns1: CALL c(1) //\ns1: CALL d() //\ns1: CALL s() //\ns1: CALL n() //\ns1: CALL w() //\n",
        "5 ok 0\n6 ok 0\n7 ok 0\n8 ok 0\n9 ok 0\n10 ok 0 warning 1592\n11 ok 0 warning 1592\n12 ok 0 warning 1592\n13 ok 0 warning 1592\n14 ok 0\n",
    ),
    // a CALL that ends in an error is not warned, whatever stays of it
    (
        "s1: CREATE PROCEDURE p() BEGIN INSERT INTO t VALUES (1, @@server_id); INSERT INTO t VALUES (1, 0); END //\ns1: CALL p() //\ns1: SELECT * FROM t //\ns1: CREATE PROCEDURE q(n INT) DO n //\ns1: CALL q(f(2) DIV 0) //\ns1: CALL q(f(2) + 2147483648) //\ns1: SELECT COUNT(*) FROM t //\ns1: SET binlog_format = MIXED //\ns1: CREATE PROCEDURE r() DELETE FROM t LIMIT 1 //\ns1: CALL r() //\n",
        "5 ok 0\n6 error 1062\n7 row 1, 1\n7 rows 1\n8 ok 0\n9 error 1365\n10 error 1264\n11 row 2\n11 rows 1\n12 ok 0\n13 ok 0\n14 ok 1\n",
    ),
    // what the DEFAULT of a local reaches: it writes and is warned, and the replica refuses it
    (
        "s1: CREATE FUNCTION d(n INT) RETURNS INT BEGIN DECLARE x INT DEFAULT f(n); RETURN x; END //\ns1: SELECT d(1) //\ns2: BEGIN //\ns2: INSERT INTO t VALUES (2, 2) //\ns1: SELECT d(3) //\ns2: COMMIT //\nreplica: FETCH 100000 //\nreplica: APPLY 100 //\nreplica: SELECT d(3) //\nreplica: SELECT * FROM t //\n",
        "5 ok 0\n6 row 1\n6 rows 1 warning 1592\n7 ok 0\n8 ok 1\n9 error 1205 by s2\n10 ok 0\n11 fetched 813\n12 applied 6 1:817\n13 error 1290\n14 row 1, 2\n14 row 2, 2\n14 rows 2\n",
    ),
    // triggers of the events that a statement can cause, whether these come or not: an UPDATE, a DELETE
    (
        "s1: CREATE TABLE k (id INT, v INT, PRIMARY KEY (id)) //\ns1: CREATE TRIGGER b AFTER UPDATE ON k FOR EACH ROW DO @@server_id //\ns1: INSERT INTO k VALUES (1, 1) //\ns1: INSERT INTO k VALUES (2, 2) ON DUPLICATE KEY UPDATE v = 9 //\ns1: UPDATE k SET v = 3 WHERE id = 1 //\ns1: REPLACE INTO k VALUES (1, 4) //\ns1: DELETE FROM k WHERE id = 2 //\ns1: DROP TRIGGER b //\ns1: CREATE TRIGGER b BEFORE DELETE ON k FOR EACH ROW DO @@server_id //\ns1: INSERT INTO k VALUES (2, 2) //\ns1: INSERT INTO k VALUES (3, 3) ON DUPLICATE KEY UPDATE v = 9 //\ns1: UPDATE k SET v = 5 WHERE id = 3 //\ns1: REPLACE INTO k VALUES (4, 4) //\ns1: DELETE FROM k WHERE id = 4 //\n",
        "5 ok 0\n6 ok 0\n7 ok 1\n8 ok 1 warning 1592\n9 ok 1 warning 1592\n10 ok 2\n11 ok 1\n12 ok 0\n13 ok 0\n14 ok 1\n15 ok 1\n16 ok 1\n17 ok 1 warning 1592\n18 ok 1 warning 1592\n",
    ),
];

#[test]
fn warned_lines(rt: HostRuntime) {
    expect_all(
        &rt,
        "scripts with warnings",
        held(rt.alloc(), &NEAR, BY_TEXTS, MADE, &WARNED),
        WARNED.len(),
    );
}
