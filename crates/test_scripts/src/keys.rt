//! Conditions that name a key of a row or a range of it, and conditions that may seem to.

use crate::playing::{Frame, expect_all, held};

/// Behind a table `t` of three rows, whose key is `id`, a table `w` of three rows, whose key is `a` and `b`, and a function that notes
/// its calls in a table `l`.
static KEYS: Frame = Frame {
    before: "s1: CREATE TABLE t (id INT, v INT, PRIMARY KEY (id)) //\ns1: CREATE TABLE w (a INT, b VARCHAR(5), v INT, PRIMARY KEY (a, b)) //\ns1: CREATE TABLE l (n INT, PRIMARY KEY (n)) //\ns1: CREATE FUNCTION c(n INT) RETURNS INT BEGIN INSERT INTO l VALUES (n); RETURN n; END //\ns1: INSERT INTO t VALUES (1, 10), (2, 20), (3, 30) //\ns1: INSERT INTO w VALUES (1, 'a', 1), (1, 'b', 2), (2, 'a', 3) //\n",
    behind: "",
    first: "1 ok 0\n2 ok 0\n3 ok 0\n4 ok 0\n5 ok 3\n6 ok 3\n",
    last: "",
};

/// Scripts behind them, and the lines behind theirs.
static SCRIPTS: [(&str, &str); 17] = [
    // a key, either way round, with more behind it
    (
        "s1: SELECT v FROM t WHERE id = 2 //\ns1: SELECT v FROM t WHERE 3 <=> id //\ns1: UPDATE t SET v = v + 1 WHERE t.id = 1 AND v = 10 //\ns1: DELETE FROM t WHERE id = 2 AND v = 21 //\ns1: DELETE FROM t WHERE id = 2 //\ns1: SELECT * FROM t WHERE id = 2 //\ns1: SELECT COUNT(*) FROM t WHERE id = 2 //\ns1: SELECT v FROM t WHERE id = 3 ORDER BY v DESC LIMIT 1 //\ns1: SELECT * FROM t //\n",
        "7 row 20\n7 rows 1\n8 row 30\n8 rows 1\n9 ok 1\n10 ok 0\n11 ok 1\n12 rows 0\n13 row 0\n13 rows 1\n14 row 30\n14 rows 1\n15 row 1, 11\n15 row 3, 30\n15 rows 2\n",
    ),
    // OR and NOT name no key
    (
        "s1: SELECT id FROM t WHERE id = 2 OR v = 30 //\ns1: SELECT id FROM t WHERE NOT (id = 2) //\ns1: SELECT id FROM t WHERE (id = 2 OR id = 3) AND v = 30 //\ns1: UPDATE t SET v = 0 WHERE NOT (id = 1) OR id = 1 //\ns1: DELETE FROM t WHERE id = 1 OR id = 3 //\ns1: SELECT * FROM t //\n",
        "7 row 2\n7 row 3\n7 rows 2\n8 row 1\n8 row 3\n8 rows 2\n9 row 3\n9 rows 1\n10 ok 3\n11 ok 2\n12 row 2, 0\n12 rows 1\n",
    ),
    // a local hides the column, but not the one with its table's name; the value of a local is a key
    (
        "s1: CREATE FUNCTION h(id INT) RETURNS INT RETURN (SELECT COUNT(*) FROM t WHERE id = 2) //\ns1: CREATE FUNCTION k(id INT) RETURNS INT RETURN (SELECT v FROM t WHERE t.id = id) //\ns1: CREATE FUNCTION m(n INT) RETURNS INT BEGIN DECLARE x INT DEFAULT 0; WHILE x < n DO SET x = x + 1; UPDATE w SET v = v + 10 WHERE b = 'a' AND a = x; END WHILE; RETURN x; END //\ns1: SELECT h(2), h(1), k(3), k(4), m(2) //\ns1: SELECT v FROM w //\n",
        "7 ok 0\n8 ok 0\n9 ok 0\n10 row 3, 0, 30, NULL, 2\n10 rows 1\n11 row 11\n11 row 2\n11 row 13\n11 rows 3\n",
    ),
    // NULL is no key, and what stands behind it is evaluated; a user variable
    (
        "s1: SELECT id FROM t WHERE id = NULL //\ns1: SELECT id FROM t WHERE id <=> NULL //\ns1: SELECT id FROM t WHERE id = @k //\ns1: SET @k = 3 //\ns1: SELECT id FROM t WHERE id = @k AND c(id) = 3 //\ns1: SELECT id FROM t WHERE id = NULL AND c(id + 10) = 0 //\ns1: SELECT n FROM l //\n",
        "7 rows 0\n8 rows 0\n9 rows 0\n10 ok 0\n11 row 3\n11 rows 1\n12 rows 0\n13 row 3\n13 row 11\n13 row 12\n13 row 13\n13 rows 4\n",
    ),
    // a value of the other kind is refused where a row is compared with it, also as the second column of a key
    (
        "s1: SELECT id FROM t WHERE id = 'a' //\ns1: SELECT id FROM t WHERE id = 5 AND v = 'a' //\ns1: SELECT id FROM t WHERE id = 2 AND v = 'a' //\ns1: SELECT id FROM t WHERE v = 'a' AND id = 5 //\ns1: SELECT a FROM w WHERE a = 1 AND b = 2 //\ns1: SELECT a FROM w WHERE a = 9 AND b = 2 //\ns1: DELETE FROM t WHERE id = 'a' //\ns1: DELETE FROM t //\ns1: SELECT id FROM t WHERE id = 'a' //\ns1: UPDATE t SET v = 0 WHERE id = 'a' //\n",
        "7 error 30002\n8 rows 0\n9 error 30002\n10 error 30002\n11 error 30002\n12 rows 0\n13 error 30002\n14 ok 3\n15 rows 0\n16 ok 0\n",
    ),
    // an error behind the key comes for its row alone, one before it for any row
    (
        "s1: SELECT id FROM t WHERE id = 2 AND 1 DIV (v - 20) = 1 //\ns1: SELECT id FROM t WHERE id = 3 AND 1 DIV (v - 20) = 1 //\ns1: SELECT id FROM t WHERE 1 DIV (v - 20) = 1 AND id = 3 //\ns1: UPDATE t SET v = 1 WHERE id = 2 AND v + 9223372036854775807 = 1 //\ns1: UPDATE t SET v = 1 WHERE id = 4 AND v + 9223372036854775807 = 1 //\n",
        "7 error 1365\n8 rows 0\n9 error 1365\n10 error 1690\n11 ok 0\n",
    ),
    // a function that changes rows is called for the row of the key behind it, and for each row before it
    (
        "s1: SELECT id FROM t WHERE id = 2 AND c(id) = 2 //\ns1: SELECT id FROM t WHERE c(id + 10) = 12 AND id = 2 //\ns1: SELECT n FROM l //\ns1: CREATE FUNCTION d(n INT) RETURNS INT BEGIN INSERT INTO t VALUES (n, 0); RETURN n; END //\ns1: SELECT id FROM t WHERE id = 9 AND d(7) = 7 //\ns1: SELECT id FROM t WHERE id = 2 AND d(7) = 7 //\ns1: SELECT COUNT(*) FROM t //\n",
        "7 row 2\n7 rows 1\n8 row 2\n8 rows 1\n9 row 2\n9 row 11\n9 row 12\n9 row 13\n9 rows 4\n10 ok 0\n11 rows 0\n12 error 1442\n13 row 3\n13 rows 1\n",
    ),
    // RAND() is drawn once behind the key, and for each row before it
    (
        "s1: SET rand_seed1 = 1, rand_seed2 = 2 //\ns1: SELECT id FROM t WHERE id = 2 AND FLOOR(RAND() * 1073741823) = 5 //\ns1: SELECT FLOOR(RAND() * 1073741823) //\ns1: SET rand_seed1 = 1, rand_seed2 = 2 //\ns1: SELECT id FROM t WHERE FLOOR(RAND() * 1073741823) > 0 AND id = 2 //\ns1: SELECT FLOOR(RAND() * 1073741823) //\n",
        "7 ok 0\n8 row 2\n8 rows 1\n9 row 55\n9 rows 1\n10 ok 0\n11 row 2\n11 rows 1\n12 row 1333\n12 rows 1\n",
    ),
    // subqueries: as the value of a key, and behind it for its row alone
    (
        "s1: SELECT v FROM t WHERE id = (SELECT MAX(id) FROM t) //\ns1: SELECT id FROM t WHERE id = 9 AND v = (SELECT id FROM t) //\ns1: SELECT id FROM t WHERE id = 2 AND v = (SELECT id FROM t) //\ns1: SELECT id FROM t WHERE EXISTS (SELECT 1 FROM w WHERE a = 2 AND b = 'a') AND id = 1 //\n",
        "7 row 30\n7 rows 1\n8 rows 0\n9 error 1242\n10 row 1\n10 rows 1\n",
    ),
    // columns of rows in view outside: another name, the same name, and with their table's name
    (
        "s1: SELECT id, (SELECT v FROM w WHERE a = id AND b = 'a') FROM t //\ns1: SELECT a, (SELECT COUNT(*) FROM t WHERE t.id = id) FROM w WHERE b = 'b' //\ns1: SELECT v, (SELECT COUNT(*) FROM t WHERE v = 20) FROM w //\ns1: SELECT v, (SELECT t.v FROM t WHERE id = w.v) FROM w //\n",
        "7 row 1, 1\n7 row 2, 3\n7 row 3, NULL\n7 rows 3\n8 row 1, 3\n8 rows 1\n9 row 1, 1\n9 row 2, 1\n9 row 3, 1\n9 rows 3\n10 row 1, 10\n10 row 2, 20\n10 row 3, 30\n10 rows 3\n",
    ),
    // NAME_CONST; NEW and OLD in a trigger
    (
        "s1: SELECT v FROM t WHERE id = NAME_CONST('x', 2) //\ns1: CREATE TRIGGER g AFTER UPDATE ON t FOR EACH ROW UPDATE w SET v = v + NEW.v WHERE a = OLD.id AND b = 'a' //\ns1: UPDATE t SET v = 100 WHERE id = 2 //\ns1: UPDATE t SET id = 4 WHERE id = 3 //\ns1: SELECT * FROM w //\n",
        "7 row 20\n7 rows 1\n8 ok 0\n9 ok 1\n10 ok 1\n11 row 1, 'a', 1\n11 row 1, 'b', 2\n11 row 2, 'a', 103\n11 rows 3\n",
    ),
    // keys of two columns, in either order, with more between and behind; one column alone names none
    (
        "s1: SELECT v FROM w WHERE a = 1 AND b = 'b' //\ns1: SELECT v FROM w WHERE b = 'a' AND a = 2 //\ns1: SELECT v FROM w WHERE a = 1 //\ns1: SELECT v FROM w WHERE a = 1 AND b = 'a' AND a = 2 //\ns1: UPDATE w SET v = 9 WHERE b = 'b' AND v = 2 AND a = 1 //\ns1: DELETE FROM w WHERE a = 2 AND b = 'c' //\ns1: SELECT v FROM w WHERE b = 'b' //\n",
        "7 row 2\n7 rows 1\n8 row 3\n8 rows 1\n9 row 1\n9 row 2\n9 rows 2\n10 rows 0\n11 ok 1\n12 ok 0\n13 row 9\n13 rows 1\n",
    ),
    // equalities inside other conditions name no key; what is true, false or unknown on any row may stand before one that does
    (
        "s1: SELECT id FROM t WHERE (id = 2) = 0 //\ns1: SELECT id FROM t WHERE id = v DIV 10 //\ns1: SELECT id FROM t WHERE id IN (2, 3) AND v = 30 //\ns1: SELECT id FROM t WHERE id = 1 + 1 //\ns1: SELECT id FROM t WHERE - id = -2 //\ns1: SELECT id FROM t WHERE IF(id = 2, 1, 0) //\ns1: SELECT id FROM t WHERE id > 1 AND NOT (v = 20) AND id = 3 //\ns1: SELECT id FROM t WHERE id > 1 AND NOT (v = 30) AND id = 3 //\ns1: SELECT id FROM t WHERE (id = 1 OR v = 20) AND id = 2 //\ns1: SELECT id FROM t WHERE 1 AND id = 2 //\ns1: SELECT id FROM t WHERE 0 AND id = 2 //\ns1: SELECT id FROM t WHERE 'x' AND id = 2 //\ns1: SELECT id FROM t WHERE id = 2 AND 'x' //\ns1: SELECT id FROM t WHERE id = 9 AND 'x' //\n",
        "7 row 1\n7 row 3\n7 rows 2\n8 row 1\n8 row 2\n8 row 3\n8 rows 3\n9 row 3\n9 rows 1\n10 row 2\n10 rows 1\n11 row 2\n11 rows 1\n12 row 2\n12 rows 1\n13 row 3\n13 rows 1\n14 rows 0\n15 row 2\n15 rows 1\n16 row 2\n16 rows 1\n17 rows 0\n18 error 30002\n19 error 30002\n20 rows 0\n",
    ),
    // what is unknown before the key does not decide: what stands behind is evaluated for the row of the key
    (
        "s1: INSERT INTO t VALUES (4, NULL) //\ns1: SELECT id FROM t WHERE v = 5 AND id = 4 //\ns1: SELECT id FROM t WHERE v <=> NULL AND id = 4 //\ns1: SELECT id FROM t WHERE v IS NULL AND id = 4 //\ns1: SELECT id FROM t WHERE v = NULL AND id = 2 AND c(id + 20) = 0 //\ns1: SELECT id FROM t WHERE v = 20 AND id = 4 AND c(id + 20) = 24 //\ns1: SELECT n FROM l //\ns1: DELETE FROM t WHERE NULL AND id = 4 //\ns1: DELETE FROM t WHERE id = 4 AND v IS NULL //\ns1: SELECT id FROM t //\n",
        "7 ok 1\n8 rows 0\n9 row 4\n9 rows 1\n10 row 4\n10 rows 1\n11 rows 0\n12 rows 0\n13 row 22\n13 row 24\n13 rows 2\n14 ok 0\n15 ok 1\n16 row 1\n16 row 2\n16 row 3\n16 rows 3\n",
    ),
    // rows of a key in a transaction, beside it, and behind it
    (
        "s1: BEGIN //\ns1: UPDATE t SET v = 99 WHERE id = 2 //\ns1: INSERT INTO t VALUES (5, 50) //\ns1: DELETE FROM t WHERE id = 3 //\ns2: SELECT v FROM t WHERE id = 2 //\ns2: SELECT v FROM t WHERE id = 5 //\ns2: SELECT v FROM t WHERE id = 3 //\ns1: SELECT v FROM t WHERE id = 2 //\ns1: SELECT v FROM t WHERE id = 5 //\ns1: SELECT v FROM t WHERE id = 3 //\ns1: UPDATE t SET id = 6 WHERE id = 5 //\ns1: SELECT v FROM t WHERE id = 5 //\ns1: SELECT v FROM t WHERE id = 6 //\ns2: UPDATE t SET v = 0 WHERE id = 1 //\ns1: ROLLBACK //\ns1: SELECT * FROM t //\ns1: SELECT v FROM t WHERE id = 6 //\n",
        "7 ok 0\n8 ok 1\n9 ok 1\n10 ok 1\n11 row 20\n11 rows 1\n12 rows 0\n13 row 30\n13 rows 1\n14 row 99\n14 rows 1\n15 row 50\n15 rows 1\n16 rows 0\n17 ok 1\n18 rows 0\n19 row 50\n19 rows 1\n20 error 1205 by s1\n21 ok 0\n22 row 1, 10\n22 row 2, 20\n22 row 3, 30\n22 rows 3\n23 rows 0\n",
    ),
    // locals of the other kind and of none; of a procedure, one with the name of a column that is no key
    (
        "s1: CREATE FUNCTION e(x VARCHAR(5)) RETURNS INT RETURN (SELECT COUNT(*) FROM l WHERE n = x) //\ns1: SELECT e('a') //\ns1: INSERT INTO l VALUES (1) //\ns1: SELECT e('a') //\ns1: SELECT e(NULL) //\ns1: CREATE PROCEDURE p(x INT, v INT) BEGIN UPDATE t SET v = x WHERE id = v; DELETE FROM w WHERE a = x AND b = 'b'; SELECT v FROM t WHERE t.v = x; END //\ns1: CALL p(1, 2) //\ns1: SELECT * FROM t //\ns1: SELECT v FROM w //\n",
        "7 ok 0\n8 row 0\n8 rows 1\n9 ok 1\n10 error 30002\n11 row 0\n11 rows 1\n12 ok 0\n13 row 2\n13 rows 1\n13 ok 2\n14 row 1, 10\n14 row 2, 1\n14 row 3, 30\n14 rows 3\n15 row 1\n15 row 3\n15 rows 2\n",
    ),
    // a table inside itself, and a key that a subquery names by a row outside
    (
        "s1: SELECT id, (SELECT v FROM t WHERE id = 2) FROM t //\ns1: SELECT id, (SELECT COUNT(*) FROM t WHERE t.id = id) FROM t WHERE id = 2 //\ns1: SELECT v FROM w WHERE a = (SELECT id FROM t WHERE id = 2) AND b = 'a' //\ns1: SELECT id FROM t WHERE id = (SELECT a FROM w WHERE a = id AND b = 'b') //\n",
        "7 row 1, 20\n7 row 2, 20\n7 row 3, 20\n7 rows 3\n8 row 2, 3\n8 rows 1\n9 row 3\n9 rows 1\n10 row 1\n10 rows 1\n",
    ),
];

#[test]
fn keys_named(rt: HostRuntime) {
    let alloc = rt.alloc();
    expect_all(
        &rt,
        "conditions that may name a key",
        held(alloc, &KEYS, &SCRIPTS),
        SCRIPTS.len(),
    );
}

/// Behind a table `q` of three rows, with a unique key of `k` and one of `n`, which may be NULL, a table `x` of three rows with a unique key of
/// `a` and `b`, and a function that notes its calls in a table `l`.
static UNIQUES: Frame = Frame {
    before: "s1: CREATE TABLE q (id INT, k INT NOT NULL, n INT, v INT, PRIMARY KEY (id), UNIQUE KEY uk (k), UNIQUE KEY un (n)) //\ns1: CREATE TABLE x (id INT, a INT NOT NULL, b VARCHAR(5) NOT NULL, PRIMARY KEY (id), UNIQUE KEY ab (a, b)) //\ns1: CREATE TABLE l (n INT, PRIMARY KEY (n)) //\ns1: CREATE FUNCTION c(n INT) RETURNS INT BEGIN INSERT INTO l VALUES (n); RETURN n; END //\ns1: INSERT INTO q VALUES (1, 10, 100, 0), (2, 20, NULL, 0), (3, 30, 300, 0) //\ns1: INSERT INTO x VALUES (1, 1, 'a'), (2, 1, 'b'), (3, 2, 'a') //\n",
    behind: "",
    first: "1 ok 0\n2 ok 0\n3 ok 0\n4 ok 0\n5 ok 3\n6 ok 3\n",
    last: "",
};

/// Scripts behind them, and the lines behind theirs.
static VALUES: [(&str, &str); 6] = [
    // a value of a unique key, either way round, with more behind it
    (
        "s1: SELECT id FROM q WHERE k = 20 //\ns1: SELECT id FROM q WHERE 30 <=> k //\ns1: UPDATE q SET v = 1 WHERE q.k = 10 AND v = 0 //\ns1: DELETE FROM q WHERE k = 20 AND v = 5 //\ns1: DELETE FROM q WHERE k = 20 //\ns1: SELECT id FROM q WHERE k = 20 //\ns1: SELECT id, v FROM q //\n",
        "7 row 2\n7 rows 1\n8 row 3\n8 rows 1\n9 ok 1\n10 ok 0\n11 ok 1\n12 rows 0\n13 row 1, 1\n13 row 3, 0\n13 rows 2\n",
    ),
    // values that rows have in a transaction, beside it, and behind it
    (
        "s1: BEGIN //\ns1: UPDATE q SET k = 25 WHERE k = 20 //\ns1: INSERT INTO q VALUES (4, 40, NULL, 0) //\ns1: SELECT id FROM q WHERE k = 20 //\ns1: SELECT id FROM q WHERE k = 25 //\ns2: SELECT id FROM q WHERE k = 20 //\ns2: SELECT id FROM q WHERE k = 25 //\ns2: SELECT id FROM q WHERE k = 40 //\ns1: UPDATE q SET k = 20 WHERE k = 40 //\ns1: SELECT id FROM q WHERE k = 20 //\ns1: ROLLBACK //\ns1: SELECT id FROM q WHERE k = 20 //\ns1: SELECT id FROM q WHERE k = 25 //\n",
        "7 ok 0\n8 ok 1\n9 ok 1\n10 rows 0\n11 row 2\n11 rows 1\n12 row 2\n12 rows 1\n13 rows 0\n14 rows 0\n15 ok 1\n16 row 4\n16 rows 1\n17 ok 0\n18 row 2\n18 rows 1\n19 rows 0\n",
    ),
    // values of two columns, in either order; one alone names none
    (
        "s1: SELECT id FROM x WHERE a = 1 AND b = 'b' //\ns1: SELECT id FROM x WHERE b = 'a' AND a = 2 //\ns1: SELECT id FROM x WHERE a = 1 //\ns1: SELECT id FROM x WHERE a = 1 AND b = 'a' AND a = 2 //\ns1: UPDATE x SET b = 'c' WHERE a = 1 AND b = 'b' //\ns1: SELECT id FROM x WHERE a = 1 AND b = 'b' //\ns1: SELECT id FROM x WHERE a = 1 AND b = 'c' //\n",
        "7 row 2\n7 rows 1\n8 row 3\n8 rows 1\n9 row 1\n9 row 2\n9 rows 2\n10 rows 0\n11 ok 1\n12 rows 0\n13 row 2\n13 rows 1\n",
    ),
    // a column that may be NULL names no value: what stands behind it is evaluated where it is NULL
    (
        "s1: SELECT id FROM q WHERE n = 300 AND c(id) = 3 //\ns1: SELECT n FROM l //\ns1: SELECT id FROM q WHERE n <=> NULL //\ns1: SELECT id FROM q WHERE k = NULL //\ns1: UPDATE q SET n = 100 WHERE n = 300 //\ns1: UPDATE q SET n = NULL WHERE n = 300 //\ns1: SELECT id FROM q WHERE n <=> NULL //\n",
        "7 row 3\n7 rows 1\n8 row 2\n8 row 3\n8 rows 2\n9 row 2\n9 rows 1\n10 rows 0\n11 error 1062\n12 ok 1\n13 row 2\n13 row 3\n13 rows 2\n",
    ),
    // a value of the other kind, errors, and a function behind the value, for its row alone
    (
        "s1: SELECT id FROM q WHERE k = 'a' //\ns1: SELECT id FROM q WHERE k = 50 AND v = 'a' //\ns1: SELECT id FROM q WHERE k = 20 AND v = 'a' //\ns1: SELECT id FROM q WHERE k = 30 AND 1 DIV v = 1 //\ns1: SELECT id FROM q WHERE k = 50 AND 1 DIV v = 1 //\ns1: SELECT id FROM q WHERE k = 30 AND c(id) = 3 //\ns1: SELECT n FROM l //\ns1: SELECT id FROM q WHERE c(id + 10) = 13 AND k = 30 //\ns1: SELECT n FROM l //\n",
        "7 error 30002\n8 rows 0\n9 error 30002\n10 error 1365\n11 rows 0\n12 row 3\n12 rows 1\n13 row 3\n13 rows 1\n14 row 3\n14 rows 1\n15 row 3\n15 row 11\n15 row 12\n15 row 13\n15 rows 4\n",
    ),
    // a value beside a primary key, beside another in OR, and one that another row has
    (
        "s1: SELECT v FROM q WHERE k = 20 AND id = 3 //\ns1: SELECT v FROM q WHERE id = 3 AND k = 30 //\ns1: UPDATE q SET k = 20 WHERE k = 30 //\ns1: SELECT id FROM q WHERE k = 30 //\ns1: SELECT id FROM q WHERE k = 10 OR k = 30 //\ns1: SELECT id FROM q WHERE NOT (k = 10) //\n",
        "7 rows 0\n8 row 0\n8 rows 1\n9 error 1062\n10 row 3\n10 rows 1\n11 row 1\n11 row 3\n11 rows 2\n12 row 2\n12 row 3\n12 rows 2\n",
    ),
];

#[test]
fn values_named(rt: HostRuntime) {
    let alloc = rt.alloc();
    expect_all(
        &rt,
        "conditions that may name the values of a unique key",
        held(alloc, &UNIQUES, &VALUES),
        VALUES.len(),
    );
}

/// Behind a table `t` of five rows, whose key is `id`, a table `w` of four rows, whose key is `a` and `b`, and a function that notes its calls
/// in a table `l`.
static RANGES: Frame = Frame {
    before: "s1: CREATE TABLE t (id INT, v INT, PRIMARY KEY (id)) //\ns1: CREATE TABLE w (a INT, b VARCHAR(5), v INT, PRIMARY KEY (a, b)) //\ns1: CREATE TABLE l (n INT, PRIMARY KEY (n)) //\ns1: CREATE FUNCTION c(n INT) RETURNS INT BEGIN INSERT INTO l VALUES (n); RETURN n; END //\ns1: INSERT INTO t VALUES (1, 10), (2, 20), (3, 30), (4, 40), (5, NULL) //\ns1: INSERT INTO w VALUES (1, 'a', 1), (1, 'b', 2), (2, 'a', 3), (3, 'a', 4) //\n",
    behind: "",
    first: "1 ok 0\n2 ok 0\n3 ok 0\n4 ok 0\n5 ok 5\n6 ok 4\n",
    last: "",
};

/// Scripts behind them, and the lines behind theirs.
static BETWEEN: [(&str, &str); 10] = [
    // a range of the key: with its ends and without, either way round, the nearer of two ends, and no row
    (
        "s1: SELECT id FROM t WHERE id >= 2 AND id < 4 //\ns1: SELECT id FROM t WHERE id > 2 AND id <= 4 //\ns1: SELECT id FROM t WHERE 4 < id //\ns1: SELECT id FROM t WHERE 2 >= t.id //\ns1: SELECT id FROM t WHERE id > 1 AND id > 3 //\ns1: SELECT id FROM t WHERE id > 3 AND id > 1 //\ns1: SELECT id FROM t WHERE id >= 3 AND id > 3 //\ns1: SELECT id FROM t WHERE id < 4 AND id <= 2 AND id < 9 //\ns1: SELECT id FROM t WHERE id > 3 AND id < 3 //\ns1: SELECT id FROM t WHERE id >= 3 AND 3 >= id //\ns1: SELECT id FROM t WHERE id > 9 //\n",
        "7 row 2\n7 row 3\n7 rows 2\n8 row 3\n8 row 4\n8 rows 2\n9 row 5\n9 rows 1\n10 row 1\n10 row 2\n10 rows 2\n11 row 4\n11 row 5\n11 rows 2\n12 row 4\n12 row 5\n12 rows 2\n13 row 4\n13 row 5\n13 rows 2\n14 row 1\n14 row 2\n14 rows 2\n15 rows 0\n16 row 3\n16 rows 1\n17 rows 0\n",
    ),
    // OR, NOT and <> say no range; what is true, false or unknown on any row may stand before one that does
    (
        "s1: SELECT id FROM t WHERE id > 4 OR id < 2 //\ns1: SELECT id FROM t WHERE NOT (id > 2) //\ns1: SELECT id FROM t WHERE (id > 4 OR v = 20) AND id < 5 //\ns1: SELECT id FROM t WHERE id <> 3 AND id > 2 //\ns1: SELECT id FROM t WHERE (id > 2) = 0 //\ns1: SELECT id FROM t WHERE v = 30 AND id > 2 //\ns1: SELECT id FROM t WHERE v > 20 //\ns1: SELECT id FROM t WHERE id + 1 > 5 //\n",
        "7 row 1\n7 row 5\n7 rows 2\n8 row 1\n8 row 2\n8 rows 2\n9 row 2\n9 rows 1\n10 row 4\n10 row 5\n10 rows 2\n11 row 1\n11 row 2\n11 rows 2\n12 row 3\n12 rows 1\n13 row 3\n13 row 4\n13 rows 2\n14 row 5\n14 rows 1\n",
    ),
    // an error behind a range comes for its rows alone, one before it for any row; a value of the other kind
    (
        "s1: SELECT id FROM t WHERE id > 3 AND 1 DIV (v - 20) = 1 //\ns1: SELECT id FROM t WHERE id < 3 AND 1 DIV (v - 20) = 1 //\ns1: SELECT id FROM t WHERE 1 DIV (v - 20) = 1 AND id > 3 //\ns1: SELECT id FROM t WHERE id > 2 AND id > 'a' //\ns1: SELECT id FROM t WHERE id > 9 AND id > 'a' //\ns1: SELECT id FROM t WHERE id > 'a' //\ns1: UPDATE t SET v = 0 WHERE id < 2 AND v + 9223372036854775807 = 1 //\ns1: UPDATE t SET v = 0 WHERE id > 9 AND v + 9223372036854775807 = 1 //\n",
        "7 rows 0\n8 error 1365\n9 error 1365\n10 error 30002\n11 rows 0\n12 error 30002\n13 error 1690\n14 ok 0\n",
    ),
    // a function that changes rows is called for the rows of a range behind it, and for each row before it
    (
        "s1: SELECT id FROM t WHERE id >= 2 AND id <= 3 AND c(id) = 3 //\ns1: SELECT n FROM l //\ns1: SELECT id FROM t WHERE c(id + 10) > 11 AND id < 3 //\ns1: SELECT COUNT(*) FROM l //\ns1: SELECT id FROM t WHERE id > 3 AND c(id + 20) = 24 AND id < 5 //\ns1: SELECT COUNT(*) FROM l //\n",
        "7 row 3\n7 rows 1\n8 row 2\n8 row 3\n8 rows 2\n9 row 2\n9 rows 1\n10 row 7\n10 rows 1\n11 row 4\n11 rows 1\n12 row 9\n12 rows 1\n",
    ),
    // RAND() is drawn for each row of a range behind it, and for each row before it
    (
        "s1: SET rand_seed1 = 1, rand_seed2 = 2 //\ns1: SELECT id FROM t WHERE id > 1 AND id < 4 AND FLOOR(RAND() * 1073741823) > 0 //\ns1: SELECT FLOOR(RAND() * 1073741823) //\ns1: SET rand_seed1 = 1, rand_seed2 = 2 //\ns1: SELECT id FROM t WHERE FLOOR(RAND() * 1073741823) > 0 AND id > 4 //\ns1: SELECT FLOOR(RAND() * 1073741823) //\n",
        "7 ok 0\n8 row 2\n8 row 3\n8 rows 2\n9 row 293\n9 rows 1\n10 ok 0\n11 row 5\n11 rows 1\n12 row 25129\n12 rows 1\n",
    ),
    // NULL ends no range, and what stands behind it is evaluated for each row; user variables
    (
        "s1: SELECT id FROM t WHERE id > NULL //\ns1: SELECT id FROM t WHERE id > NULL AND c(id) = 0 //\ns1: SELECT COUNT(*) FROM l //\ns1: SELECT id FROM t WHERE id > @k //\ns1: SET @k = 3 //\ns1: SELECT id FROM t WHERE id > @k //\ns1: SELECT id FROM t WHERE id > 3 AND c(id + 10) > 0 AND v IS NULL //\ns1: SELECT COUNT(*) FROM l //\n",
        "7 rows 0\n8 rows 0\n9 row 5\n9 rows 1\n10 rows 0\n11 ok 0\n12 row 4\n12 row 5\n12 rows 2\n13 row 5\n13 rows 1\n14 row 7\n14 rows 1\n",
    ),
    // the first column of a key of two: a range of it, its value alone, and more behind; the second column says none
    (
        "s1: SELECT a, b FROM w WHERE a >= 2 //\ns1: SELECT b FROM w WHERE a = 1 //\ns1: SELECT b FROM w WHERE a = 1 AND b > 'a' //\ns1: SELECT a FROM w WHERE b > 'a' //\ns1: SELECT a FROM w WHERE a < 3 AND b = 'a' //\ns1: SELECT a FROM w WHERE a = 1 AND a > 1 //\ns1: UPDATE w SET v = 0 WHERE a > 1 //\ns1: SELECT v FROM w //\n",
        "7 row 2, 'a'\n7 row 3, 'a'\n7 rows 2\n8 row 'a'\n8 row 'b'\n8 rows 2\n9 row 'b'\n9 rows 1\n10 row 1\n10 rows 1\n11 row 1\n11 row 2\n11 rows 2\n12 rows 0\n13 ok 2\n14 row 1\n14 row 2\n14 row 0\n14 row 0\n14 rows 4\n",
    ),
    // a local hides the column; columns of rows in view outside, and a subquery
    (
        "s1: CREATE FUNCTION h(id INT) RETURNS INT RETURN (SELECT COUNT(*) FROM t WHERE id > 2) //\ns1: CREATE FUNCTION k(id INT) RETURNS INT RETURN (SELECT COUNT(*) FROM t WHERE t.id > id) //\ns1: SELECT h(3), h(2), k(3) //\ns1: SELECT a, (SELECT COUNT(*) FROM t WHERE id > a) FROM w //\ns1: SELECT id FROM t WHERE id > (SELECT MAX(a) FROM w) //\ns1: CREATE TRIGGER g AFTER UPDATE ON t FOR EACH ROW DELETE FROM w WHERE a > OLD.id //\ns1: UPDATE t SET v = 1 WHERE id = 2 //\ns1: SELECT a FROM w //\n",
        "7 ok 0\n8 ok 0\n9 row 5, 0, 2\n9 rows 1\n10 row 1, 4\n10 row 1, 4\n10 row 2, 3\n10 row 3, 2\n10 rows 4\n11 row 4\n11 row 5\n11 rows 2\n12 ok 0\n13 ok 1\n14 row 1\n14 row 1\n14 row 2\n14 rows 3\n",
    ),
    // rows of a range in a transaction, beside it, and behind it
    (
        "s1: BEGIN //\ns1: DELETE FROM t WHERE id >= 2 AND id <= 3 //\ns1: INSERT INTO t VALUES (0, 0), (7, 70) //\ns1: UPDATE t SET id = 6 WHERE id > 6 //\ns1: SELECT id FROM t WHERE id > 1 //\ns1: SELECT id FROM t WHERE id < 4 //\ns2: SELECT id FROM t WHERE id > 1 AND id < 4 //\ns2: SELECT id FROM t WHERE id > 5 //\ns1: INSERT INTO t VALUES (3, 33) //\ns1: SELECT id, v FROM t WHERE id >= 2 AND id < 5 //\ns1: ROLLBACK //\ns1: SELECT id, v FROM t WHERE id >= 2 AND id < 4 //\n",
        "7 ok 0\n8 ok 2\n9 ok 2\n10 ok 1\n11 row 4\n11 row 5\n11 row 6\n11 rows 3\n12 row 0\n12 row 1\n12 rows 2\n13 row 2\n13 row 3\n13 rows 2\n14 rows 0\n15 ok 1\n16 row 3, 33\n16 row 4, 40\n16 rows 2\n17 ok 0\n18 row 2, 20\n18 row 3, 30\n18 rows 2\n",
    ),
    // rows of a range changed, ordered and counted
    (
        "s1: UPDATE t SET v = 0 WHERE id > 3 //\ns1: UPDATE t SET id = id + 10 WHERE id >= 4 //\ns1: SELECT id FROM t WHERE id < 99 ORDER BY id DESC LIMIT 2 //\ns1: SELECT COUNT(*), MIN(id), MAX(id) FROM t WHERE id > 1 AND id < 15 //\ns1: DELETE FROM t WHERE id > 2 AND id < 15 //\ns1: SELECT * FROM t //\n",
        "7 ok 2\n8 ok 2\n9 row 15\n9 row 14\n9 rows 2\n10 row 3, 2, 14\n10 rows 1\n11 ok 2\n12 row 1, 10\n12 row 2, 20\n12 row 15, 0\n12 rows 3\n",
    ),
];

#[test]
fn ranges_named(rt: HostRuntime) {
    let alloc = rt.alloc();
    expect_all(
        &rt,
        "conditions that may say a range of a key",
        held(alloc, &RANGES, &BETWEEN),
        BETWEEN.len(),
    );
}
