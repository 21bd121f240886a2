//! Scripts and what they write.

use crate::playing::{Frame, expect_all, held, joined, put_times, runs};
use std::alloc::Global;
use val_types::Bytes;

/// Behind the table `t` of two numbers, whose key is `id`.
static T: Frame = Frame {
    before: "s1: CREATE TABLE t (id INT, v INT, PRIMARY KEY (id)) //\n",
    behind: "",
    first: "1 ok 0\n",
    last: "",
};

/// Behind the table `a`, whose key is generated.
static A: Frame = Frame {
    before: "s1: CREATE TABLE a (id INT NOT NULL AUTO_INCREMENT, k INT NOT NULL, PRIMARY KEY (id), UNIQUE KEY uk (k)) //\n",
    behind: "",
    first: "",
    last: "",
};

/// Scripts behind the table `t`, and the lines behind `1 ok 0`.
static OF_T: [(&str, &str); 16] = [
    // a savepoint
    (
        "s1: BEGIN //\ns1: INSERT INTO t VALUES (1, 10) //\ns1: SAVEPOINT x //\ns1: INSERT INTO t VALUES (2, 20) //\ns1: ROLLBACK TO x //\ns1: COMMIT //\nreplica: FETCH 100000 //\nreplica: APPLY 100 //\nreplica: SELECT * FROM t //\n",
        "2 ok 0\n3 ok 1\n4 ok 0\n5 ok 1\n6 ok 0\n7 ok 0\n8 fetched 332\n9 applied 2 1:336\n10 row 1, 10\n10 rows 1\n",
    ),
    // a writer, and readers beside it
    (
        "s1: INSERT INTO t VALUES (1, 10) //\ns1: BEGIN //\ns1: INSERT INTO t VALUES (2, 20) //\ns2: UPDATE t SET v = 0 //\ns2: SELECT * FROM t //\nreplica: FETCH 100000 //\nreplica: APPLY 100 //\nreplica: SELECT * FROM t //\ns1: COMMIT //\nreplica: FETCH 100000 //\nreplica: APPLY 100 //\nreplica: SELECT v FROM t WHERE id = 2 //\n",
        "2 ok 1\n3 ok 0\n4 ok 1\n5 error 1205 by s1\n6 row 1, 10\n6 rows 1\n7 fetched 332\n8 applied 2 1:336\n9 row 1, 10\n9 rows 1\n10 ok 0\n11 fetched 130\n12 applied 1 1:466\n13 row 20\n13 rows 1\n",
    ),
    // a reader beside rows that are changed, taken out, moved and put in sees none of it, and an error of its statement takes none of it back
    (
        "s1: INSERT INTO t VALUES (1, 10), (2, 20), (3, 30) //\ns1: BEGIN //\ns1: UPDATE t SET v = 11 WHERE id = 1 //\ns1: DELETE FROM t WHERE id = 2 //\ns1: UPDATE t SET id = 4 WHERE id = 3 //\ns1: INSERT INTO t VALUES (5, 50) //\ns2: SELECT * FROM t //\ns2: SELECT v + 9223372036854775807 FROM t //\ns2: SET @n = (SELECT COUNT(*) FROM t) //\ns1: SELECT * FROM t //\ns1: SAVEPOINT x //\ns1: DELETE FROM t //\ns2: SELECT v + @n FROM t //\ns1: ROLLBACK TO x //\ns1: SELECT * FROM t //\ns1: ROLLBACK //\ns1: SELECT * FROM t //\n",
        "2 ok 3\n3 ok 0\n4 ok 1\n5 ok 1\n6 ok 1\n7 ok 1\n8 row 1, 10\n8 row 2, 20\n8 row 3, 30\n8 rows 3\n9 error 1690\n10 ok 0\n11 row 1, 11\n11 row 4, 30\n11 row 5, 50\n11 rows 3\n12 ok 0\n13 ok 3\n14 row 13\n14 row 23\n14 row 33\n14 rows 3\n15 ok 0\n16 row 1, 11\n16 row 4, 30\n16 row 5, 50\n16 rows 3\n17 ok 0\n18 row 1, 10\n18 row 2, 20\n18 row 3, 30\n18 rows 3\n",
    ),
    // the lock ends with the transaction, and a statement that changed nothing or failed does not keep it
    (
        "s1: BEGIN //\ns1: UPDATE t SET v = 1 //\ns2: INSERT INTO t VALUES (1, 1) //\ns1: INSERT INTO t VALUES (1, 2) //\ns2: UPDATE t SET v = 2 //\ns1: INSERT INTO t VALUES (3, 3) //\ns1: ROLLBACK //\ns2: DELETE FROM t //\n",
        "2 ok 0\n3 ok 0\n4 ok 1\n5 error 1062\n6 ok 1\n7 ok 1\n8 ok 0\n9 ok 1\n",
    ),
    // the lock stays behind a savepoint to which the only change was taken back
    (
        "s1: BEGIN //\ns1: SAVEPOINT x //\ns1: INSERT INTO t VALUES (1, 1) //\ns1: ROLLBACK TO x //\ns2: INSERT INTO t VALUES (2, 2) //\ns1: COMMIT //\ns2: INSERT INTO t VALUES (2, 2) //\n",
        "2 ok 0\n3 ok 0\n4 ok 1\n5 ok 0\n6 error 1205 by s1\n7 ok 0\n8 ok 1\n",
    ),
    // BEGIN and a definition commit the open transaction, also a definition that is refused
    (
        "s1: BEGIN //\ns1: INSERT INTO t VALUES (1, 1) //\ns1: BEGIN //\ns1: ROLLBACK //\ns1: SELECT COUNT(*) FROM t //\ns1: BEGIN //\ns1: INSERT INTO t VALUES (2, 2) //\ns1: DROP TABLE nosuch //\ns1: ROLLBACK //\ns1: SELECT COUNT(*) FROM t //\n",
        "2 ok 0\n3 ok 1\n4 ok 0\n5 ok 0\n6 row 1\n6 rows 1\n7 ok 0\n8 ok 1\n9 error 1051\n10 ok 0\n11 row 2\n11 rows 1\n",
    ),
    // savepoints of no name, outside a transaction and in one
    (
        "s1: RELEASE SAVEPOINT a //\ns1: BEGIN //\ns1: SAVEPOINT a //\ns1: RELEASE SAVEPOINT b //\ns1: ROLLBACK TO b //\ns1: RELEASE SAVEPOINT a //\ns1: ROLLBACK TO a //\ns1: COMMIT //\n",
        "2 error 1305\n3 ok 0\n4 ok 0\n5 error 1305\n6 error 1305\n7 ok 0\n8 error 1305\n9 ok 0\n",
    ),
    // a primary key is changed, by the text and by the row; a key in the way refuses it
    (
        "s1: INSERT INTO t VALUES (1, 10), (2, 20) //\ns1: UPDATE t SET id = 2 WHERE id = 1 //\ns1: UPDATE t SET id = 3 WHERE id = 1 //\ns1: SET binlog_format = ROW //\ns1: UPDATE t SET id = 0 WHERE v = 20 //\ns1: SELECT * FROM t //\nreplica: FETCH 100000 //\nreplica: APPLY 100 //\nreplica: SELECT * FROM t //\n",
        "2 ok 2\n3 error 1062\n4 ok 1\n5 ok 0\n6 ok 1\n7 row 0, 20\n7 row 3, 10\n7 rows 2\n8 fetched 631\n9 applied 4 1:635\n10 row 0, 20\n10 row 3, 10\n10 rows 2\n",
    ),
    // changes that are none, and rows that are replaced
    (
        "s1: INSERT INTO t VALUES (1, 10) //\ns1: INSERT INTO t VALUES (1, 10) ON DUPLICATE KEY UPDATE v = 10 //\ns1: INSERT INTO t VALUES (1, 20) ON DUPLICATE KEY UPDATE v = VALUES(v) + 1 //\ns1: SELECT v FROM t //\ns1: REPLACE INTO t VALUES (1, 5) //\ns1: UPDATE t SET v = 5 //\n",
        "2 ok 1\n3 ok 0\n4 ok 2\n5 row 21\n5 rows 1\n6 ok 2\n7 ok 0\n",
    ),
    // session variables
    (
        "s1: SET nosuch = 1 //\ns1: SET auto_increment_offset = 0 //\ns1: SELECT @@auto_increment_offset //\ns1: SET rand_seed1 = -1 //\ns1: ROLLBACK TO x //\ns1: SET @a = 1, timestamp = 2147483648 //\ns1: SELECT @a //\n",
        "2 error 1193\n3 ok 0\n4 row 1\n4 rows 1\n5 error 1231\n6 error 1305\n7 error 1231\n8 row NULL\n8 rows 1\n",
    ),
    // the format: which values it takes, in any case, and that it stays within a transaction
    (
        "s1: SET binlog_format = MIXED //\ns1: SET binlog_format = 1 //\ns1: SET binlog_format = 'row' //\ns1: BEGIN //\ns1: SET binlog_format = STATEMENT //\ns1: SET binlog_format = MIXED //\ns1: SET binlog_format = 'both' //\ns1: SET @a = 1, binlog_format = STATEMENT //\ns1: SELECT @a //\ns1: COMMIT //\ns1: SET SESSION binlog_format = Statement //\ns1: SET @@session.binlog_format = 'Mixed' //\ns1: SELECT @@binlog_format //\n",
        "2 ok 0\n3 error 1231\n4 ok 0\n5 ok 0\n6 error 30006\n7 error 30006\n8 error 1231\n9 error 30006\n10 row NULL\n10 rows 1\n11 ok 0\n12 ok 0\n13 ok 0\n14 error 1193\n",
    ),
    // a statement that fails at its second row leaves none, and those before it stay
    (
        "s1: BEGIN //\ns1: INSERT INTO t VALUES (1, 1) //\ns1: INSERT INTO t VALUES (2, 2), (1, 3) //\ns1: SELECT COUNT(*) FROM t //\ns1: COMMIT //\ns1: SELECT ROW_COUNT() //\ns1: SELECT ROW_COUNT() //\n",
        "2 ok 0\n3 ok 1\n4 error 1062\n5 row 1\n5 rows 1\n6 ok 0\n7 row 0\n7 rows 1\n8 row -1\n8 rows 1\n",
    ),
    // what is no statement, at its place
    (
        "s1: SELECT 1 FORM t //\ns1: SELECT 1; SELECT 2 //\ns1: //\nreplica: SELECT 1 FORM t //\n",
        "2 error 1064 at 9\n3 error 1064 at 8\n4 error 1064 at 0\n5 error 1064 at 9\n",
    ),
    // a sum of nothing, and what arithmetic refuses
    (
        "s1: SELECT SUM(id) FROM t //\ns1: SELECT 9223372036854775807 + 1 //\ns1: SELECT 1 DIV 0 //\ns1: SELECT 'a' + 1 //\n",
        "2 row NULL\n2 rows 1\n3 error 1690\n4 error 1365\n5 error 30002\n",
    ),
    // the clock, the draw and the identity of each node; the last draw repeats
    (
        "s1: SELECT UNIX_TIMESTAMP(), USER(), @@server_id, CONNECTION_ID() //\nreplica: SELECT UNIX_TIMESTAMP(), USER(), @@server_id, CONNECTION_ID() //\n",
        "2 row 1700000002, 'root@localhost', 1, 1\n2 rows 1\n3 row 1600000001, 'rep@localhost', 2, 0\n3 rows 1\n",
    ),
    // bytes that are shown in hexadecimal digits, and a table that is emptied
    (
        "s1: SELECT X'0027', 'it''s', 'plain' //\ns1: INSERT INTO t VALUES (1, 1), (2, 2) //\ns1: TRUNCATE TABLE t //\ns1: SELECT * FROM t //\n",
        "2 row X'0027', X'69742773', 'plain'\n2 rows 1\n3 ok 2\n4 ok 0\n5 rows 0\n",
    ),
];

/// Scripts behind the table `a`, and what they write.
static OF_A: [(&str, &str); 4] = [
    (
        "s1: INSERT INTO a (k) VALUES (1), (1), (2) //\ns1: INSERT INTO a (k) VALUES (5) //\ns1: SELECT * FROM a //\n",
        "1 ok 0\n2 error 1062\n3 ok 1\n4 row 3, 5\n4 rows 1\n",
    ),
    (
        "s1: INSERT INTO a VALUES (149, 1) //\ns1: INSERT INTO a VALUES (NULL, 2), (300, 3), (NULL, 4) //\ns1: SELECT id FROM a //\nreplica: FETCH 100000 //\nreplica: APPLY 100 //\nreplica: SELECT id FROM a //\n",
        "1 ok 0\n2 ok 1\n3 ok 3\n4 row 149\n4 row 150\n4 row 300\n4 row 301\n4 rows 4\n5 fetched 566\n6 applied 3 1:570\n7 row 149\n7 row 150\n7 row 300\n7 row 301\n7 rows 4\n",
    ),
    (
        "s1: INSERT INTO a VALUES (3, 1) //\ns1: SET auto_increment_increment = 10, auto_increment_offset = 3 //\ns1: INSERT INTO a (k) VALUES (2) //\ns1: SET auto_increment_offset = 20 //\ns1: INSERT INTO a (k) VALUES (3) //\ns1: SELECT id FROM a //\n",
        "1 ok 0\n2 ok 1\n3 ok 0\n4 ok 1\n5 ok 0\n6 ok 1\n7 row 3\n7 row 13\n7 row 20\n7 rows 3\n",
    ),
    (
        "s1: INSERT INTO a VALUES (2147483647, 1) //\ns1: INSERT INTO a (k) VALUES (2) //\n",
        "1 ok 0\n2 ok 1\n3 error 1467\n",
    ),
];

/// Statements with two causes to be refused, each with the number of the one that comes first: behind a table `t` and a table
/// `n` with a column that takes no NULL and has no default, while the first session has changed a row in its transaction.
static TWO_CAUSES: [(&str, &str); 25] = [
    ("SELECT nosuch FORM nosuch", "1064 at 14"),
    ("SELECT nosuch FROM nosuch", "1146"),
    ("SELECT f(), nosuch FROM t", "1054"),
    ("SELECT @@nosuch, f() FROM t", "1305"),
    ("SELECT @@nosuch FROM t LIMIT m", "1193"),
    ("INSERT INTO t (id, id) SELECT 1, 2 FROM t LIMIT m", "1327"),
    ("INSERT INTO t (id, id) VALUES (1)", "1110"),
    ("INSERT INTO t VALUES ((SELECT v FROM t))", "1136"),
    ("INSERT INTO n (id) VALUES ((SELECT id FROM n))", "1093"),
    ("INSERT INTO n (id) VALUES (1)", "1364"),
    ("UPDATE nosuch SET v = 1", "1146"),
    ("INSERT INTO t VALUES (1, 'a')", "1205 by s1"),
    ("CREATE TABLE u (k INT, PRIMARY KEY (k))", "1205 by s1"),
    ("CREATE TABLE t (a INT, a INT, PRIMARY KEY (a))", "1050"),
    (
        "CREATE TABLE u (a INT, a INT, UNIQUE KEY k (a), UNIQUE KEY k (a), PRIMARY KEY (a))",
        "1060",
    ),
    (
        "CREATE TABLE u (a INT, UNIQUE KEY k (a), UNIQUE KEY k (b), PRIMARY KEY (a))",
        "1061",
    ),
    ("CREATE TABLE u (a INT, UNIQUE KEY k (b))", "1072"),
    ("CREATE TABLE u (a INT DEFAULT 'x')", "30001"),
    (
        "CREATE TABLE u (a VARCHAR(5) AUTO_INCREMENT DEFAULT 'x', PRIMARY KEY (a))",
        "1067",
    ),
    (
        "CREATE TABLE u (a INT, b VARCHAR(5) AUTO_INCREMENT, PRIMARY KEY (a))",
        "1063",
    ),
    (
        "CREATE TABLE u (a INT, b INT AUTO_INCREMENT, c VARCHAR(0), PRIMARY KEY (a))",
        "1075",
    ),
    (
        "CREATE TABLE u (a INT, c VARCHAR(0), PRIMARY KEY (a))",
        "30009",
    ),
    ("DROP TABLE nosuch", "1051"),
    ("TRUNCATE nosuch", "1146"),
    ("DROP TRIGGER nosuch", "1360"),
];

/// What stands around each of them.
static HELD: Frame = Frame {
    before: "s1: CREATE TABLE t (id INT, v INT, PRIMARY KEY (id)) //\ns1: CREATE TABLE n (id INT, w INT NOT NULL, PRIMARY KEY (id)) //\ns1: BEGIN //\ns1: INSERT INTO t VALUES (1, 1) //\ns2: ",
    behind: " //",
    first: "1 ok 0\n2 ok 0\n3 ok 0\n4 ok 1\n5 error ",
    last: "\n",
};

/// A front, a piece so many times, a middle, another piece as often, an end; and what that writes.
struct Long {
    front: &'static str,
    piece: &'static str,
    times: u32,
    middle: &'static str,
    other: &'static str,
    end: &'static str,
    lines: &'static [u8],
}

/// A sum of so many terms besides the first, so many parentheses around a number, so many names besides the first: a SET or a CALL with these
/// prints longer than it is written, at 200,000 names a million bytes and at 220,000 more than 2^20.
static LONG: [Long; 9] = [
    Long {
        front: "s1: SELECT 1",
        piece: " + 1",
        times: 198,
        middle: "",
        other: "",
        end: " //",
        lines: b"1 row 199\n1 rows 1\n",
    },
    Long {
        front: "s1: SELECT 1",
        piece: " + 1",
        times: 199,
        middle: "",
        other: "",
        end: " //",
        lines: b"1 error 30007\n",
    },
    Long {
        front: "s1: SELECT ",
        piece: "(",
        times: 400,
        middle: "1",
        other: ")",
        end: " //",
        lines: b"1 row 1\n1 rows 1\n",
    },
    Long {
        front: "s1: SELECT ",
        piece: "(",
        times: 401,
        middle: "1",
        other: ")",
        end: " //",
        lines: b"1 error 30007\n",
    },
    Long {
        front: "s1: SET @a = CONCAT(a",
        piece: ",a",
        times: 199_999,
        middle: "",
        other: "",
        end: ") //",
        lines: b"1 error 1054\n",
    },
    Long {
        front: "s1: SET @a = CONCAT(a",
        piece: ",a",
        times: 219_999,
        middle: "",
        other: "",
        end: ") //",
        lines: b"1 error 1153\n",
    },
    Long {
        front: "s1: CALL p(CONCAT(a",
        piece: ",a",
        times: 199_999,
        middle: "",
        other: "",
        end: ")) //",
        lines: b"1 error 1054\n",
    },
    Long {
        front: "s1: CALL p(CONCAT(a",
        piece: ",a",
        times: 219_999,
        middle: "",
        other: "",
        end: ")) //",
        lines: b"1 error 1153\n",
    },
    Long {
        front: "replica: SELECT 1",
        piece: " + 1",
        times: 199,
        middle: "",
        other: "",
        end: " //",
        lines: b"1 error 30007\n",
    },
];

fn script_of(alloc: Global, long: &Long) -> Bytes {
    let mut script = joined(alloc, &[long.front]);
    put_times(&mut script, long.piece, long.times);
    put_times(&mut script, long.middle, 1);
    put_times(&mut script, long.other, long.times);
    put_times(&mut script, long.end, 1);
    script
}

fn runs_long(alloc: Global, long: &Long) -> bool {
    let script = script_of(alloc, long);
    runs(alloc, script.as_slice(), long.lines)
}

/// How many long scripts write their lines, from the first on.
fn held_long(alloc: Global) -> usize {
    for (i, long) in LONG.iter().enumerate() {
        if !runs_long(alloc, long) {
            return i;
        }
    }
    LONG.len()
}

#[test]
fn statements_of_sessions(rt: HostRuntime) {
    let alloc = rt.alloc();
    expect_all(&rt, "scripts behind t", held(alloc, &T, &OF_T), OF_T.len());
    expect_all(&rt, "scripts behind a", held(alloc, &A, &OF_A), OF_A.len());
    expect_all(
        &rt,
        "causes in their order",
        held(alloc, &HELD, &TWO_CAUSES),
        TWO_CAUSES.len(),
    );
    expect_all(&rt, "long scripts", held_long(alloc), LONG.len());
}
