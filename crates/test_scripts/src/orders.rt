//! ORDER BY the primary key, and COUNT, MIN and MAX, as statements that may need no sort and no walk, and as statements that do.

use crate::playing::{Frame, expect_all, held};

/// Behind tables `t` of three rows, whose key is `id`, `w` of three rows, whose key is `a` and `b`, `e` of no row, `n` of three rows, whose
/// key is a text, and a function that notes its calls in a table `l`. Rows are put in in no order of their keys.
static ORDERS: Frame = Frame {
    before: "s1: CREATE TABLE t (id INT, v INT, PRIMARY KEY (id)) //\ns1: CREATE TABLE w (a INT, b VARCHAR(5), v INT, PRIMARY KEY (a, b)) //\ns1: CREATE TABLE e (id INT, v INT, PRIMARY KEY (id)) //\ns1: CREATE TABLE n (name VARCHAR(5), PRIMARY KEY (name)) //\ns1: CREATE TABLE l (n INT, PRIMARY KEY (n)) //\ns1: CREATE FUNCTION c(n INT) RETURNS INT BEGIN INSERT INTO l VALUES (n); RETURN n; END //\ns1: INSERT INTO t VALUES (3, 10), (1, 30), (2, 20) //\ns1: INSERT INTO w VALUES (2, 'a', 1), (1, 'b', 2), (1, 'a', 3) //\ns1: INSERT INTO n VALUES ('b'), ('a'), ('ab') //\n",
    behind: "",
    first: "1 ok 0\n2 ok 0\n3 ok 0\n4 ok 0\n5 ok 0\n6 ok 0\n7 ok 3\n8 ok 3\n9 ok 3\n",
    last: "",
};

/// Scripts behind them, and the lines behind theirs.
static SCRIPTS: [(&str, &str); 9] = [
    // the key rising and falling, with LIMIT: none, one, more than there are, and behind some
    (
        "s1: SELECT * FROM t ORDER BY id //\ns1: SELECT id FROM t ORDER BY id DESC //\ns1: SELECT id FROM t ORDER BY id LIMIT 0 //\ns1: SELECT id FROM t ORDER BY id LIMIT 1 //\ns1: SELECT id FROM t ORDER BY id DESC LIMIT 1 //\ns1: SELECT id FROM t ORDER BY t.id ASC LIMIT 9 //\ns1: SELECT id FROM t ORDER BY t.id DESC LIMIT 1, 9 //\ns1: SELECT id FROM e ORDER BY id //\ns1: SELECT id FROM e ORDER BY id DESC LIMIT 1 //\ns1: SELECT name FROM n ORDER BY name DESC //\n",
        "10 row 1, 30\n10 row 2, 20\n10 row 3, 10\n10 rows 3\n11 row 3\n11 row 2\n11 row 1\n11 rows 3\n12 rows 0\n13 row 1\n13 rows 1\n14 row 3\n14 rows 1\n15 row 1\n15 row 2\n15 row 3\n15 rows 3\n16 row 2\n16 row 1\n16 rows 2\n17 rows 0\n18 rows 0\n19 row 'b'\n19 row 'ab'\n19 row 'a'\n19 rows 3\n",
    ),
    // behind a WHERE, of no key and of one
    (
        "s1: SELECT id FROM t WHERE v < 25 ORDER BY id DESC //\ns1: SELECT id FROM t WHERE v > 15 ORDER BY id //\ns1: SELECT id FROM t WHERE v > 15 ORDER BY id DESC LIMIT 1 //\ns1: SELECT id FROM t WHERE id = 2 ORDER BY id DESC //\ns1: SELECT id FROM t WHERE id > 9 ORDER BY id DESC //\n",
        "10 row 3\n10 row 2\n10 rows 2\n11 row 1\n11 row 2\n11 rows 2\n12 row 2\n12 rows 1\n13 row 2\n13 rows 1\n14 rows 0\n",
    ),
    // another column, an expression, and more than the key are sorted by
    (
        "s1: SELECT id FROM t ORDER BY v //\ns1: SELECT id FROM t ORDER BY - id //\ns1: SELECT id FROM t ORDER BY id + 0 DESC //\ns1: SELECT id FROM t ORDER BY v DESC, id DESC //\ns1: SELECT id FROM t ORDER BY id DESC, v //\ns1: SELECT id FROM t ORDER BY v DIV 20 DESC, id DESC //\n",
        "10 row 3\n10 row 2\n10 row 1\n10 rows 3\n11 row 3\n11 row 2\n11 row 1\n11 rows 3\n12 row 3\n12 row 2\n12 row 1\n12 rows 3\n13 row 1\n13 row 2\n13 row 3\n13 rows 3\n14 row 3\n14 row 2\n14 row 1\n14 rows 3\n15 row 2\n15 row 1\n15 row 3\n15 rows 3\n",
    ),
    // a local hides the column, but not the one with its table's name
    (
        "s1: CREATE FUNCTION f(id INT) RETURNS INT RETURN (SELECT MAX(id) FROM t) //\ns1: CREATE FUNCTION g(id INT) RETURNS INT RETURN (SELECT MAX(t.id) FROM t) //\ns1: CREATE FUNCTION h(id INT) RETURNS INT RETURN (SELECT COUNT(id) FROM t) //\ns1: CREATE FUNCTION i(id INT) RETURNS INT RETURN (SELECT MIN(id) FROM e) //\ns1: CREATE FUNCTION k(id INT) RETURNS INT RETURN (SELECT v FROM t ORDER BY t.id DESC LIMIT 1) //\ns1: SELECT f(9), g(9), h(9), h(NULL), i(9), k(9) //\n",
        "10 ok 0\n11 ok 0\n12 ok 0\n13 ok 0\n14 ok 0\n15 row 9, 3, 3, 0, NULL, 10\n15 rows 1\n",
    ),
    // a key of two columns: rising, falling, mixed, turned about, and its first column alone
    (
        "s1: SELECT a, b FROM w ORDER BY a, b //\ns1: SELECT a, b FROM w ORDER BY a DESC, b DESC //\ns1: SELECT a, b FROM w ORDER BY a DESC, b //\ns1: SELECT a, b FROM w ORDER BY b, a //\ns1: SELECT a FROM w ORDER BY a DESC //\ns1: SELECT MIN(a), MAX(a), COUNT(a), COUNT(*), MIN(b), MAX(b) FROM w //\n",
        "10 row 1, 'a'\n10 row 1, 'b'\n10 row 2, 'a'\n10 rows 3\n11 row 2, 'a'\n11 row 1, 'b'\n11 row 1, 'a'\n11 rows 3\n12 row 2, 'a'\n12 row 1, 'a'\n12 row 1, 'b'\n12 rows 3\n13 row 1, 'a'\n13 row 2, 'a'\n13 row 1, 'b'\n13 rows 3\n14 row 2\n14 row 1\n14 row 1\n14 rows 3\n15 row 1, 2, 3, 3, 'a', 'b'\n15 rows 1\n",
    ),
    // COUNT, MIN and MAX of the key, of an empty table, of a text, of another column, behind a WHERE, and inside another SELECT
    (
        "s1: SELECT COUNT(*) FROM t //\ns1: SELECT MIN(id), MAX(id), COUNT(id), COUNT(*) FROM t //\ns1: SELECT MIN(v), MAX(v), SUM(id), MAX(id + 1) FROM t //\ns1: SELECT COUNT(*) FROM e //\ns1: SELECT MIN(id), MAX(id), COUNT(id), SUM(id) FROM e //\ns1: SELECT MIN(id), MAX(id) FROM e //\ns1: SELECT MIN(name), MAX(name), COUNT(*) FROM n //\ns1: SELECT COUNT(*) FROM t WHERE v < 25 //\ns1: SELECT MAX(id) FROM t WHERE v > 15 //\ns1: SELECT a, (SELECT MAX(id) FROM t), (SELECT COUNT(*) FROM e) FROM w WHERE b = 'b' //\ns1: SELECT id FROM t WHERE id = (SELECT MIN(id) FROM t) //\n",
        "10 row 3\n10 rows 1\n11 row 1, 3, 3, 3\n11 rows 1\n12 row 10, 30, 6, 4\n12 rows 1\n13 row 0\n13 rows 1\n14 row NULL, NULL, 0, NULL\n14 rows 1\n15 row NULL, NULL\n15 rows 1\n16 row 'a', 'b', 3\n16 rows 1\n17 row 2\n17 rows 1\n18 row 2\n18 rows 1\n19 row 1, 3, 0\n19 rows 1\n20 row 1\n20 rows 1\n",
    ),
    // in a transaction, beside it, and behind it
    (
        "s1: BEGIN //\ns1: INSERT INTO t VALUES (0, 5), (9, 90) //\ns1: DELETE FROM t WHERE id = 2 //\ns1: SELECT COUNT(*), MIN(id), MAX(id) FROM t //\ns1: SELECT id FROM t ORDER BY id DESC //\ns1: SELECT id FROM t ORDER BY id LIMIT 1 //\ns2: SELECT COUNT(*), MIN(id), MAX(id) FROM t //\ns2: SELECT id FROM t ORDER BY id DESC //\ns1: INSERT INTO e VALUES (4, 4) //\ns2: SELECT COUNT(*), MAX(id) FROM e //\ns1: SELECT COUNT(*), MAX(id) FROM e //\ns1: DELETE FROM t //\ns1: SELECT COUNT(*), MIN(id) FROM t //\ns2: SELECT COUNT(*), MIN(id) FROM t //\ns1: ROLLBACK //\ns1: SELECT COUNT(*), MIN(id), MAX(id) FROM t //\ns1: SELECT COUNT(*) FROM e //\n",
        "10 ok 0\n11 ok 2\n12 ok 1\n13 row 4, 0, 9\n13 rows 1\n14 row 9\n14 row 3\n14 row 1\n14 row 0\n14 rows 4\n15 row 0\n15 rows 1\n16 row 3, 1, 3\n16 rows 1\n17 row 3\n17 row 2\n17 row 1\n17 rows 3\n18 ok 1\n19 row 0, NULL\n19 rows 1\n20 row 1, 4\n20 rows 1\n21 ok 4\n22 row 0, NULL\n22 rows 1\n23 row 3, 1\n23 rows 1\n24 ok 0\n25 row 3, 1, 3\n25 rows 1\n26 row 0\n26 rows 1\n",
    ),
    // LIMIT 1 of all rows, of a WHERE, behind another, by a local, and inside another SELECT; items are evaluated for its row alone
    (
        "s1: SELECT id FROM t LIMIT 1 //\ns1: SELECT * FROM t LIMIT 1 //\ns1: SELECT id FROM t LIMIT 1 OFFSET 1 //\ns1: SELECT id FROM t ORDER BY v LIMIT 1 //\ns1: SELECT id FROM e LIMIT 1 //\ns1: SELECT 1 DIV (v - 10) FROM t ORDER BY id LIMIT 1 //\ns1: SELECT 1 DIV (v - 10) FROM t ORDER BY id DESC LIMIT 1 //\ns1: SELECT id FROM t ORDER BY 1 DIV (v - 10), id LIMIT 1 //\ns1: CREATE FUNCTION q(n INT) RETURNS INT RETURN (SELECT id FROM t ORDER BY id DESC LIMIT n) //\ns1: SELECT q(1), q(0) //\ns1: SELECT q(2) //\ns1: SELECT a, (SELECT id FROM t ORDER BY id DESC LIMIT 1), EXISTS (SELECT 1 FROM e LIMIT 1) FROM w WHERE b = 'b' //\ns1: SELECT id FROM t WHERE v < 25 LIMIT 1 //\ns1: SELECT a, b FROM w ORDER BY a DESC, b DESC LIMIT 1 //\ns1: SELECT a, b FROM w ORDER BY b DESC LIMIT 1 //\n",
        "10 row 1\n10 rows 1\n11 row 1, 30\n11 rows 1\n12 row 2\n12 rows 1\n13 row 3\n13 rows 1\n14 rows 0\n15 row 0\n15 rows 1\n16 error 1365\n17 error 1365\n18 ok 0\n19 row 3, NULL\n19 rows 1\n20 error 1242\n21 row 1, 3, 0\n21 rows 1\n22 row 2\n22 rows 1\n23 row 2, 'a'\n23 rows 1\n24 row 1, 'b'\n24 rows 1\n",
    ),
    // a WHERE calls for each row, whatever LIMIT leaves, and items for those shown, in their order; so is RAND() drawn
    (
        "s1: SELECT id FROM t WHERE c(id) > 0 ORDER BY id DESC LIMIT 1 //\ns1: SELECT c(id + 10) FROM t ORDER BY id DESC LIMIT 2 //\ns1: SELECT n FROM l ORDER BY n DESC //\ns1: SET rand_seed1 = 1, rand_seed2 = 2 //\ns1: SELECT id, FLOOR(RAND() * 1073741823) FROM t ORDER BY id DESC //\n",
        "10 row 3\n10 rows 1\n11 row 13\n11 row 12\n11 rows 2\n12 row 13\n12 row 12\n12 row 3\n12 row 2\n12 row 1\n12 rows 5\n13 ok 0\n14 row 3, 5\n14 row 2, 55\n14 row 1, 293\n14 rows 3\n",
    ),
];

#[test]
fn keys_ordered(rt: HostRuntime) {
    let alloc = rt.alloc();
    expect_all(
        &rt,
        "statements that may need no sort and no walk",
        held(alloc, &ORDERS, &SCRIPTS),
        SCRIPTS.len(),
    );
}
