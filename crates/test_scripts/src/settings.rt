//! SET that is refused behind its evaluation: what its expressions changed is taken back.

use crate::playing::{Frame, expect_all, held};

/// Behind a table `t`, a table `a` whose key is generated, a function that inserts into the one and one that inserts into the other.
static FUNCTIONS: Frame = Frame {
    before: "s1: CREATE TABLE t (id INT, v INT, PRIMARY KEY (id)) //\ns1: CREATE TABLE a (id INT NOT NULL AUTO_INCREMENT, k INT, PRIMARY KEY (id)) //\ns1: CREATE FUNCTION f(n INT) RETURNS INT BEGIN INSERT INTO t VALUES (n, 0); RETURN n + 1; END //\ns1: CREATE FUNCTION g(n INT) RETURNS INT BEGIN INSERT INTO a (k) VALUES (n); RETURN n; END //\n",
    behind: "",
    first: "1 ok 0\n2 ok 0\n3 ok 0\n4 ok 0\n",
    last: "",
};

/// Scripts behind them, and the lines behind theirs.
static SCRIPTS: [(&str, &str); 7] = [
    // the row is gone, nothing is assigned, and the key is free
    (
        "s1: SET @x = f(1), rand_seed1 = 'a' //\ns1: SELECT * FROM t //\ns1: SELECT @x //\ns1: SET @x = f(1) //\ns1: SELECT * FROM t //\ns1: SELECT @x //\n",
        "5 error 1231\n6 rows 0\n7 row NULL\n7 rows 1\n8 ok 0\n9 row 1, 0\n9 rows 1\n10 row 2\n10 rows 1\n",
    ),
    // in a transaction without changes it takes no lock
    (
        "s1: BEGIN //\ns1: SET @x = f(1), binlog_format = ROW //\ns2: INSERT INTO t VALUES (1, 5) //\ns1: SELECT * FROM t //\ns1: COMMIT //\n",
        "5 ok 0\n6 error 30006\n7 ok 1\n8 row 1, 5\n8 rows 1\n9 ok 0\n",
    ),
    // in one with changes these stay, with the lock and the savepoint
    (
        "s1: BEGIN //\ns1: INSERT INTO t VALUES (1, 1) //\ns1: SAVEPOINT p //\ns1: SET @x = f(2), timestamp = -1 //\ns1: SELECT * FROM t //\ns2: INSERT INTO t VALUES (9, 9) //\ns1: SET @x = f(2) //\ns1: ROLLBACK TO p //\ns1: COMMIT //\ns2: SELECT * FROM t //\n",
        "5 ok 0\n6 ok 1\n7 ok 0\n8 error 1231\n9 row 1, 1\n9 rows 1\n10 error 1205 by s1\n11 ok 0\n12 ok 0\n13 ok 0\n14 row 1, 1\n14 rows 1\n",
    ),
    // beside another session's lock: expressions that write do not begin, and those that read leave it
    (
        "s2: BEGIN //\ns2: INSERT INTO t VALUES (7, 7) //\ns1: SET @x = f(1), rand_seed1 = 'a' //\ns1: SET @x = (SELECT COUNT(*) FROM t), rand_seed1 = 'a' //\ns1: INSERT INTO t VALUES (8, 8) //\ns2: SELECT * FROM t //\ns2: COMMIT //\ns1: SELECT * FROM t //\n",
        "5 ok 0\n6 ok 1\n7 error 1205 by s2\n8 error 1231\n9 error 1205 by s2\n10 row 7, 7\n10 rows 1\n11 ok 0\n12 row 7, 7\n12 rows 1\n",
    ),
    // counters stay used; a forced INSERT_ID, which a function's INSERT does not use, stays forced
    (
        "s1: SET @x = g(1), rand_seed1 = 'a' //\ns1: INSERT INTO a (k) VALUES (2) //\ns1: SET insert_id = 50 //\ns1: SET @x = g(3), rand_seed1 = 'a' //\ns1: INSERT INTO a (k) VALUES (4) //\ns1: SELECT id, k FROM a //\n",
        "5 error 1231\n6 ok 1\n7 ok 0\n8 error 1231\n9 ok 1\n10 row 2, 2\n10 row 50, 4\n10 rows 2\n",
    ),
    // seeds stay as they were drawn
    (
        "s1: SET rand_seed1 = 1, rand_seed2 = 2 //\ns1: SET @x = FLOOR(RAND() * 10), timestamp = -1 //\ns1: SELECT FLOOR(RAND() * 1073741823) //\ns1: SELECT @x //\n",
        "5 ok 0\n6 error 1231\n7 row 55\n7 rows 1\n8 row NULL\n8 rows 1\n",
    ),
    // an error of the evaluation comes first; in a CALL what an evaluation changed stays
    (
        "s1: SET @x = f(1), rand_seed1 = 1 DIV 0 //\ns1: SET @x = f(1), rand_seed1 = 'a', @y = 1 DIV 0 //\ns1: SELECT COUNT(*) FROM t //\ns1: CREATE PROCEDURE p() BEGIN DECLARE b INT; SET @x = f(1), b = 'a'; END //\ns1: CALL p() //\ns1: SELECT * FROM t //\n",
        "5 error 1365\n6 error 1365\n7 row 0\n7 rows 1\n8 ok 0\n9 error 30002\n10 row 1, 0\n10 rows 1\n",
    ),
];

#[test]
fn sets_taken_back(rt: HostRuntime) {
    let alloc = rt.alloc();
    expect_all(
        &rt,
        "SETs that are refused",
        held(alloc, &FUNCTIONS, &SCRIPTS),
        SCRIPTS.len(),
    );
}
