//! What the replica has of the source: fetched in pieces, carried out in groups.

use crate::playing::{BARE, expect_all, held, joined, put_number, put_times, runs};
use std::alloc::Global;
use val_types::Bytes;

/// Scripts and what they write. A log begins with a magic of 4 bytes and an event of 119; the CREATE of `t` has 83 bytes. The
/// transaction of one row has 130 bytes by its text: 40, 63 for a text of 28, 27; and 146 by its row: 40, 39 and 40 for the map and
/// the row, 27.
static SCRIPTS: [(&str, &str); 17] = [
    // a table and a row
    (
        "s1: CREATE TABLE t (id INT, v INT, PRIMARY KEY (id)) //\ns1: INSERT INTO t VALUES (1, 10) //\nreplica: FETCH 1000 //\nreplica: APPLY 10 //\nreplica: SELECT * FROM t //\n",
        "1 ok 0\n2 ok 1\n3 fetched 332\n4 applied 2 1:336\n5 row 1, 10\n5 rows 1\n",
    ),
    // the same by rows
    (
        "s1: CREATE TABLE t (id INT, v INT, PRIMARY KEY (id)) //\ns1: SET binlog_format = 'ROW' //\ns1: INSERT INTO t VALUES (1, 10) //\nreplica: FETCH 1000 //\nreplica: APPLY 10 //\nreplica: SELECT * FROM t //\n",
        "1 ok 0\n2 ok 0\n3 ok 1\n4 fetched 348\n5 applied 2 1:352\n6 row 1, 10\n6 rows 1\n",
    ),
    // nothing was fetched; what is not whole waits; what is there is fetched once; a late FETCH
    (
        "replica: APPLY 4294967295 //\nreplica: FETCH 10 //\nreplica: APPLY 1 //\nreplica: FETCH 1000 //\nreplica: APPLY 1 //\nreplica: FETCH 1000 //\ns1: CREATE TABLE t (id INT, v INT, PRIMARY KEY (id)) //\nreplica: APPLY 5 //\nreplica: FETCH 50 //\nreplica: APPLY 5 //\nreplica: SELECT * FROM t //\nreplica: FETCH 1000 //\nreplica: APPLY 5 //\nreplica: SELECT * FROM t //\n",
        "1 applied 0 1:4\n2 fetched 10\n3 applied 0 1:4\n4 fetched 109\n5 applied 0 1:4\n6 fetched 0\n7 ok 0\n8 applied 0 1:4\n9 fetched 50\n10 applied 0 1:4\n11 error 1146\n12 fetched 33\n13 applied 1 1:206\n14 rows 0\n",
    ),
    // no more groups than are asked for
    (
        "s1: CREATE TABLE t (id INT, v INT, PRIMARY KEY (id)) //\ns1: INSERT INTO t VALUES (1, 10) //\ns2: INSERT INTO t VALUES (2, 20) //\nreplica: FETCH 1000 //\nreplica: APPLY 1 //\nreplica: SELECT * FROM t //\nreplica: APPLY 1 //\nreplica: SELECT * FROM t //\nreplica: APPLY 10 //\nreplica: APPLY 10 //\nreplica: SELECT COUNT(*) FROM t //\n",
        "1 ok 0\n2 ok 1\n3 ok 1\n4 fetched 462\n5 applied 1 1:206\n6 rows 0\n7 applied 1 1:336\n8 row 1, 10\n8 rows 1\n9 applied 1 1:466\n10 applied 0 1:466\n11 row 2\n11 rows 1\n",
    ),
    // what is not committed, or taken back, is not in the log
    (
        "s1: CREATE TABLE t (id INT, v INT, PRIMARY KEY (id)) //\ns1: BEGIN //\ns1: INSERT INTO t VALUES (1, 10) //\nreplica: FETCH 1000 //\nreplica: APPLY 10 //\nreplica: SELECT * FROM t //\ns1: ROLLBACK //\ns1: INSERT INTO t VALUES (2, 20), (2, 30) //\nreplica: FETCH 1000 //\n",
        "1 ok 0\n2 ok 0\n3 ok 1\n4 fetched 202\n5 applied 1 1:206\n6 rows 0\n7 ok 0\n8 error 1062\n9 fetched 0\n",
    ),
    // a counter is not taken back, and the replica has the generated value
    (
        "s1: CREATE TABLE a (id INT NOT NULL AUTO_INCREMENT, k INT NOT NULL, PRIMARY KEY (id), UNIQUE KEY uk (k)) //\ns1: BEGIN //\ns1: INSERT INTO a (k) VALUES (1) //\ns1: ROLLBACK //\ns1: INSERT INTO a (k) VALUES (1) //\nreplica: FETCH 1000 //\nreplica: APPLY 10 //\nreplica: SELECT * FROM a //\n",
        "1 ok 0\n2 ok 0\n3 ok 1\n4 ok 0\n5 ok 1\n6 fetched 412\n7 applied 2 1:416\n8 row 2, 1\n8 rows 1\n",
    ),
    // a trigger runs again on the replica for texts, and not for rows: it inserts into a table with generated values, which is by
    // rows unless a session asks for texts, and then warned
    (
        "s1: CREATE TABLE t (id INT, v INT, PRIMARY KEY (id)) //\ns1: CREATE TABLE l (id INT AUTO_INCREMENT, w INT NOT NULL, PRIMARY KEY (id)) //\ns1: CREATE TRIGGER tr AFTER INSERT ON t FOR EACH ROW INSERT INTO l (w) VALUES (NEW.id) //\ns1: SET binlog_format = 'STATEMENT' //\ns1: INSERT INTO t VALUES (1, 1) //\ns1: SET binlog_format = 'MIXED' //\ns1: INSERT INTO t VALUES (2, 2) //\nreplica: FETCH 1000 //\nreplica: APPLY 10 //\nreplica: SELECT * FROM l //\n",
        "1 ok 0\n2 ok 0\n3 ok 0\n4 ok 0\n5 ok 1 warning 1592\n6 ok 0\n7 ok 1\n8 fetched 780\n9 applied 5 1:784\n10 row 1, 1\n10 row 2, 2\n10 rows 2\n",
    ),
    // what a statement that fails changed is not in the log, also in its triggers and functions
    (
        "s1: CREATE TABLE t (id INT, v INT, PRIMARY KEY (id)) //\ns1: CREATE TABLE u (id INT, v BIGINT, PRIMARY KEY (id)) //\ns1: CREATE FUNCTION h(x INT) RETURNS BIGINT RETURN 9223372036854775805 + x //\ns1: CREATE TRIGGER b BEFORE UPDATE ON t FOR EACH ROW INSERT INTO u VALUES (OLD.id, h(OLD.id)) //\ns1: INSERT INTO t VALUES (1, 0), (2, 0), (3, 0), (4, 0), (5, 0) //\ns1: UPDATE t SET v = 1 //\nreplica: FETCH 1000 //\nreplica: APPLY 10 //\nreplica: SELECT COUNT(*) FROM u //\nreplica: SELECT COUNT(*), SUM(v) FROM t //\ns1: UPDATE t SET v = 1 WHERE id = 1 //\nreplica: FETCH 1000 //\nreplica: APPLY 10 //\nreplica: SELECT * FROM u //\nreplica: SELECT SUM(v) FROM t //\n",
        "1 ok 0\n2 ok 0\n3 ok 0\n4 ok 0\n5 ok 5\n6 error 1690\n7 fetched 678\n8 applied 5 1:682\n9 row 0\n9 rows 1\n10 row 5, 0\n10 rows 1\n11 ok 1\n12 fetched 133\n13 applied 1 1:815\n14 row 1, 9223372036854775806\n14 rows 1\n15 row 1\n15 rows 1\n",
    ),
    // a SELECT that changes rows is in the log; the replica runs none by itself
    (
        "s1: CREATE TABLE t (id INT, v INT, PRIMARY KEY (id)) //\ns1: CREATE FUNCTION f(n INT) RETURNS INT BEGIN INSERT INTO t VALUES (n, 0); RETURN n + 1; END //\ns1: SELECT f(9) //\nreplica: SELECT f(7) //\nreplica: FETCH 1000 //\nreplica: APPLY 10 //\nreplica: SELECT f(7) //\nreplica: SELECT * FROM t //\n",
        "1 ok 0\n2 ok 0\n3 row 10\n3 rows 1\n4 error 1305\n5 fetched 439\n6 applied 3 1:443\n7 error 1290\n8 row 9, 0\n8 rows 1\n",
    ),
    // increment and offset are carried, and the generated value
    (
        "s1: CREATE TABLE a (id INT NOT NULL AUTO_INCREMENT, k INT NOT NULL, PRIMARY KEY (id), UNIQUE KEY uk (k)) //\ns1: INSERT INTO a VALUES (3, 1) //\ns1: SET auto_increment_increment = 10, auto_increment_offset = 3 //\ns1: INSERT INTO a (k) VALUES (2) //\ns1: SET auto_increment_offset = 20 //\ns1: INSERT INTO a (k) VALUES (3) //\nreplica: FETCH 1000 //\nreplica: APPLY 10 //\nreplica: SELECT id FROM a //\n",
        "1 ok 0\n2 ok 1\n3 ok 0\n4 ok 1\n5 ok 0\n6 ok 1\n7 fetched 709\n8 applied 4 1:713\n9 row 3\n9 row 13\n9 row 20\n9 rows 3\n",
    ),
    // user variables are carried, also one that was never set
    (
        "s1: CREATE TABLE t (id INT, v INT, PRIMARY KEY (id)) //\ns1: CREATE FUNCTION g() RETURNS INT RETURN COALESCE(@x, 7) //\ns2: SET @x = 3 //\ns2: INSERT INTO t VALUES (1, @x) //\ns1: INSERT INTO t VALUES (2, g()) //\nreplica: FETCH 1000 //\nreplica: APPLY 10 //\ns1: SELECT * FROM t //\nreplica: SELECT * FROM t //\n",
        "1 ok 0\n2 ok 0\n3 ok 0\n4 ok 1\n5 ok 1\n6 fetched 620\n7 applied 4 1:624\n8 row 1, 3\n8 row 2, 7\n8 rows 2\n9 row 1, 3\n9 row 2, 7\n9 rows 2\n",
    ),
    // connection and moment are the source's; user and server are the replica's own, and such a statement differs there
    (
        "s1: CREATE TABLE t (id INT, v INT, PRIMARY KEY (id)) //\ns2: SET binlog_format = STATEMENT //\ns2: INSERT INTO t VALUES (CONNECTION_ID(), UNIX_TIMESTAMP()) //\ns2: INSERT INTO t VALUES (LENGTH(USER()), @@server_id) //\nreplica: FETCH 1000 //\nreplica: APPLY 10 //\ns1: SELECT * FROM t //\nreplica: SELECT * FROM t //\n",
        "1 ok 0\n2 ok 0\n3 ok 1\n4 ok 1 warning 1592\n5 fetched 512\n6 applied 3 1:516\n7 row 2, 1700000002\n7 row 14, 1\n7 rows 2\n8 row 2, 1700000002\n8 row 13, 2\n8 rows 2\n",
    ),
    // seeds are carried: such a statement does the same, and is warned all the same
    (
        "s1: CREATE TABLE t (id INT, v INT, PRIMARY KEY (id)) //\ns1: SET binlog_format = 'STATEMENT' //\ns1: SET rand_seed1 = 1, rand_seed2 = 2 //\ns1: INSERT INTO t VALUES (1, FLOOR(RAND() * 1073741823)), (2, FLOOR(RAND() * 1073741823)) //\ns1: UPDATE t SET v = v + 1 //\nreplica: FETCH 1000 //\nreplica: APPLY 10 //\ns1: SELECT * FROM t //\nreplica: SELECT * FROM t //\n",
        "1 ok 0\n2 ok 0\n3 ok 0\n4 ok 2 warning 1592\n5 ok 2\n6 fetched 548\n7 applied 3 1:552\n8 row 1, 6\n8 row 2, 56\n8 rows 2\n9 row 1, 6\n9 row 2, 56\n9 rows 2\n",
    ),
    // SELECT, DO and SET that change rows run again
    (
        "s1: CREATE TABLE t (id INT, v INT, PRIMARY KEY (id)) //\ns1: CREATE FUNCTION f(n INT) RETURNS INT BEGIN INSERT INTO t VALUES (n, 0); RETURN n + 1; END //\ns1: SELECT f(1) //\ns1: DO f(2) //\ns1: SET @a = f(3) //\ns1: SET @a = 1 + f(4), @b = 'x' //\ns1: SELECT @a, @b //\nreplica: FETCH 1000 //\nreplica: APPLY 10 //\nreplica: SELECT * FROM t //\n",
        "1 ok 0\n2 ok 0\n3 row 2\n3 rows 1\n4 ok 0\n5 ok 0\n6 ok 0\n7 row 6, 'x'\n7 rows 1\n8 fetched 781\n9 applied 6 1:785\n10 row 1, 0\n10 row 2, 0\n10 row 3, 0\n10 row 4, 0\n10 rows 4\n",
    ),
    // a text that has no effect on a replica that differs stops APPLY there, and again when more was fetched
    (
        "s1: CREATE TABLE t (id INT, v INT, PRIMARY KEY (id)) //\ns1: SET binlog_format = STATEMENT //\ns1: INSERT INTO t VALUES (LENGTH(USER()), 1) //\ns1: INSERT INTO t VALUES (13, 2) //\nreplica: FETCH 1000 //\nreplica: APPLY 10 //\ns1: INSERT INTO t VALUES (5, 5) //\nreplica: FETCH 1000 //\nreplica: APPLY 10 //\nreplica: SELECT * FROM t //\n",
        "1 ok 0\n2 ok 0\n3 ok 1 warning 1592\n4 ok 1\n5 fetched 474\n6 applied 2 1:348 stopped differs 388 1062 - ()\n7 ok 1\n8 fetched 129\n9 applied 0 1:348 stopped differs 388 1062 - ()\n10 row 13, 1\n10 rows 1\n",
    ),
    // and so does a row that is not there; the event of an UPDATE has 50 bytes
    (
        "s1: CREATE TABLE t (id INT, v INT, PRIMARY KEY (id)) //\ns1: SET binlog_format = STATEMENT //\ns1: INSERT INTO t VALUES (LENGTH(USER()), 1) //\ns1: SET binlog_format = 'ROW' //\ns1: UPDATE t SET v = 2 //\nreplica: FETCH 1000 //\nreplica: APPLY 10 //\ns1: DELETE FROM t //\nreplica: FETCH 1000 //\nreplica: APPLY 10 //\nreplica: SELECT * FROM t //\n",
        "1 ok 0\n2 ok 0\n3 ok 1 warning 1592\n4 ok 0\n5 ok 1\n6 fetched 500\n7 applied 2 1:348 stopped differs 427 1032 t (14)\n8 ok 1\n9 fetched 146\n10 applied 0 1:348 stopped differs 427 1032 t (14)\n11 row 13, 1\n11 rows 1\n",
    ),
    // keys that are changed by rows: a primary one, a unique one, two of both that change places, and all of both moved by a statement
    (
        "s1: CREATE TABLE u (id INT, k INT, PRIMARY KEY (id), UNIQUE KEY uk (k)) //\ns1: SET binlog_format = ROW //\ns1: INSERT INTO u VALUES (1, 10), (2, 20), (3, 30) //\ns1: UPDATE u SET id = 4 WHERE id = 1 //\ns1: UPDATE u SET k = 40 WHERE id = 2 //\ns1: BEGIN //\ns1: UPDATE u SET id = 9 WHERE id = 2 //\ns1: UPDATE u SET id = 2 WHERE id = 3 //\ns1: UPDATE u SET id = 3 WHERE id = 9 //\ns1: UPDATE u SET k = NULL WHERE id = 3 //\ns1: UPDATE u SET k = 40 WHERE id = 2 //\ns1: UPDATE u SET k = 30 WHERE id = 3 //\ns1: COMMIT //\ns1: UPDATE u SET id = id + 1 ORDER BY id DESC //\ns1: UPDATE u SET k = k + 10 ORDER BY k DESC //\nreplica: FETCH 100000 //\nreplica: APPLY 100 //\ns1: SELECT * FROM u //\nreplica: SELECT * FROM u //\n",
        "1 ok 0\n2 ok 0\n3 ok 3\n4 ok 1\n5 ok 1\n6 ok 0\n7 ok 1\n8 ok 1\n9 ok 1\n10 ok 1\n11 ok 1\n12 ok 1\n13 ok 0\n14 ok 3\n15 ok 3\n16 fetched 1674\n17 applied 7 1:1678\n18 row 3, 50\n18 row 4, 40\n18 row 5, 20\n18 rows 3\n19 row 3, 50\n19 row 4, 40\n19 row 5, 20\n19 rows 3\n",
    ),
];

/// How many bytes a table and a row have in the log behind its magic.
const BYTES: u32 = 332;

/// Where the table's definition and the row's transaction end, counted in bytes that were fetched.
const ENDS: [u32; 2] = [202, BYTES];

/// A table and a row, fetched byte by byte with an APPLY behind each.
fn byte_by_byte(alloc: Global) -> Bytes {
    let made =
        "s1: CREATE TABLE t (id INT, v INT, PRIMARY KEY (id)) //\ns1: INSERT INTO t VALUES (1, 10) //\n";
    let mut script = joined(alloc, &[made]);
    put_times(
        &mut script,
        "replica: FETCH 1 //\nreplica: APPLY 1 //\n",
        BYTES,
    );
    put_times(
        &mut script,
        "replica: FETCH 1 //\nreplica: SELECT * FROM t //\n",
        1,
    );
    script
}

/// Puts a line: the command's number, and words.
fn put_line(alloc: Global, lines: &mut Bytes, number: u32, words: &str) {
    put_number(alloc, lines, number);
    put_times(lines, words, 1);
}

/// What an APPLY says behind so many bytes.
fn applied_behind(fetched: u32) -> &'static str {
    let [table, row] = ENDS;
    if fetched < table {
        " applied 0 1:4\n"
    } else if fetched == table {
        " applied 1 1:206\n"
    } else if fetched < row {
        " applied 0 1:206\n"
    } else {
        " applied 1 1:336\n"
    }
}

/// Puts what the script writes behind its first two lines.
fn put_lines(alloc: Global, lines: &mut Bytes) {
    let mut number: u32 = 2;
    for fetched in 1..BYTES + 1 {
        put_line(alloc, lines, number.saturating_add(1), " fetched 1\n");
        number = number.saturating_add(2);
        put_line(alloc, lines, number, applied_behind(fetched));
    }
    put_times(lines, "667 fetched 0\n668 row 1, 10\n668 rows 1\n", 1);
}

/// Whether the end is the same however the log is cut: 330 of the APPLYs carry out nothing.
fn runs_byte_by_byte(alloc: Global) -> bool {
    let mut lines = joined(alloc, &["1 ok 0\n2 ok 1\n"]);
    put_lines(alloc, &mut lines);
    runs(alloc, byte_by_byte(alloc).as_slice(), lines.as_slice())
}

#[test]
fn fetched_and_applied(rt: HostRuntime) {
    let alloc = rt.alloc();
    expect_all(&rt, "scripts", held(alloc, &BARE, &SCRIPTS), SCRIPTS.len());
    assert!(rt; runs_byte_by_byte(alloc));
}
