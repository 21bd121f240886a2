//! What a replica has of its own, its counters, clock, seeds, user and server: the same comes of a text that carries what it needs, and of
//! rows, and something else of a text that asks for one of these.

use crate::playing::{FAR, LAST, NEAR, expect_all, held};

/// Scripts, and their lines with the rows of both nodes, whatever the replica is told. How many bytes are fetched says which items are
/// texts and which are rows, and what texts carry: 119, and for a text 35 and its length, with increment and offset 5 more; for a number
/// 28, for seeds 35, for a variable 24 and its name, and where it is not NULL 10 and its value; 67 around a transaction.
static ALIKE: [(&str, &str); 10] = [
    // counters: values are generated and taken back at the source alone
    (
        "s1: CREATE TABLE a (id INT AUTO_INCREMENT, k INT, PRIMARY KEY (id)) //\ns1: BEGIN //\ns1: INSERT INTO a (k) VALUES (1), (2) //\ns1: ROLLBACK //\ns1: INSERT INTO a (k) VALUES (3), (4) //\ns1: INSERT INTO a VALUES (9, LAST_INSERT_ID()) //\ns1: INSERT INTO a (k) VALUES (@@last_insert_id), (6) //\nreplica: FETCH 100000 //\nreplica: APPLY 100 //\ns1: SELECT * FROM a //\nreplica: SELECT * FROM a //\n",
        "1 ok 0\n2 ok 0\n3 ok 2\n4 ok 0\n5 ok 2\n6 ok 1\n7 ok 2\n8 fetched 758\n9 applied 4 1:762\n10 row 3, 3\n10 row 4, 4\n10 row 9, 3\n10 row 10, 3\n10 row 11, 6\n10 rows 5\n11 row 3, 3\n11 row 4, 4\n11 row 9, 3\n11 row 10, 3\n11 row 11, 6\n11 rows 5\n",
    ),
    // the clock and the session: the replica has other moments, and applies in a session of its own
    (
        "s1: CREATE TABLE w (id INT, v BIGINT, s VARCHAR(40), PRIMARY KEY (id)) //\ns2: INSERT INTO w VALUES (1, UNIX_TIMESTAMP(), NOW()) //\ns2: INSERT INTO w VALUES (2, @@timestamp + CONNECTION_ID(), NOW()) //\ns2: SET timestamp = 86400 //\ns2: INSERT INTO w VALUES (3, UNIX_TIMESTAMP(), NOW()) //\nreplica: FETCH 100000 //\nreplica: APPLY 100 //\ns1: SELECT * FROM w //\nreplica: SELECT * FROM w //\n",
        "1 ok 0\n2 ok 1\n3 ok 1\n4 ok 0\n5 ok 1\n6 fetched 686\n7 applied 4 1:690\n8 row 1, 1700000002, '2023-11-14 22:13:22'\n8 row 2, 1700000005, '2023-11-14 22:13:23'\n8 row 3, 86400, '1970-01-02 00:00:00'\n8 rows 3\n9 row 1, 1700000002, '2023-11-14 22:13:22'\n9 row 2, 1700000005, '2023-11-14 22:13:23'\n9 row 3, 86400, '1970-01-02 00:00:00'\n9 rows 3\n",
    ),
    // variables of the session, also what was never set, and those of one alone
    (
        "s1: CREATE TABLE a (id INT AUTO_INCREMENT, k INT, PRIMARY KEY (id)) //\ns2: SET @x = 5, @y = 'ab', auto_increment_increment = 10, auto_increment_offset = 3 //\ns2: INSERT INTO a (k) VALUES (@x), (LENGTH(@y)), (COALESCE(@z, 7)), (@@auto_increment_increment) //\ns1: INSERT INTO a (k) VALUES (COALESCE(@x, 0)) //\nreplica: FETCH 100000 //\nreplica: APPLY 100 //\ns1: SELECT * FROM a //\nreplica: SELECT * FROM a //\n",
        "1 ok 0\n2 ok 0\n3 ok 4\n4 ok 1\n5 fetched 746\n6 applied 3 1:750\n7 row 3, 5\n7 row 13, 2\n7 row 23, 7\n7 row 33, 10\n7 row 34, 0\n7 rows 5\n8 row 3, 5\n8 row 13, 2\n8 row 23, 7\n8 row 33, 10\n8 row 34, 0\n8 rows 5\n",
    ),
    // seeds: by the text with the source's, warned all the same, and by the row
    (
        "s1: CREATE TABLE t (id INT, v BIGINT, PRIMARY KEY (id)) //\ns1: SET binlog_format = STATEMENT //\ns1: INSERT INTO t VALUES (1, FLOOR(RAND() * 1073741823)), (2, FLOOR(RAND() * 1073741823)) //\ns1: SET binlog_format = MIXED //\ns1: INSERT INTO t VALUES (3, FLOOR(RAND() * 1073741823)) //\nreplica: FETCH 100000 //\nreplica: APPLY 100 //\ns1: SELECT * FROM t //\nreplica: SELECT * FROM t //\n",
        "1 ok 0\n2 ok 0\n3 ok 2 warning 1592\n4 ok 0\n5 ok 1\n6 fetched 577\n7 applied 3 1:581\n8 row 1, 5\n8 row 2, 55\n8 row 3, 293\n8 rows 3\n9 row 1, 5\n9 row 2, 55\n9 row 3, 293\n9 rows 3\n",
    ),
    // user, server, identifiers, the system's clock and the count of rows: by rows
    (
        "s1: CREATE TABLE w (id INT, v BIGINT, s VARCHAR(40), PRIMARY KEY (id)) //\ns1: INSERT INTO w VALUES (1, @@server_id, USER()) //\ns1: INSERT INTO w VALUES (2, ROW_COUNT(), UUID()) //\ns1: INSERT INTO w VALUES (3, 0, SYSDATE()) //\nreplica: FETCH 100000 //\nreplica: APPLY 100 //\ns1: SELECT * FROM w //\nreplica: SELECT * FROM w //\n",
        "1 ok 0\n2 ok 1\n3 ok 1\n4 ok 1\n5 fetched 751\n6 applied 4 1:755\n7 row 1, 1, 'root@localhost'\n7 row 2, 1, '00000000-0000-0000-0000-000000000003'\n7 row 3, 0, '2023-11-14 22:13:24'\n7 rows 3\n8 row 1, 1, 'root@localhost'\n8 row 2, 1, '00000000-0000-0000-0000-000000000003'\n8 row 3, 0, '2023-11-14 22:13:24'\n8 rows 3\n",
    ),
    // what a function reads that a trigger calls
    (
        "s1: CREATE TABLE a (id INT AUTO_INCREMENT, k INT, PRIMARY KEY (id)) //\ns1: CREATE TABLE l (id INT, v BIGINT, PRIMARY KEY (id)) //\ns1: CREATE FUNCTION f() RETURNS BIGINT RETURN COALESCE(@x, 0) + LAST_INSERT_ID() //\ns1: CREATE TRIGGER r AFTER INSERT ON a FOR EACH ROW INSERT INTO l VALUES (NEW.id, f()) //\ns1: SET @x = 40 //\ns1: BEGIN //\ns1: INSERT INTO a (k) VALUES (1) //\ns1: ROLLBACK //\ns1: INSERT INTO a (k) VALUES (2), (3) //\nreplica: FETCH 100000 //\nreplica: APPLY 100 //\ns1: SELECT * FROM a //\ns1: SELECT * FROM l //\nreplica: SELECT * FROM a //\nreplica: SELECT * FROM l //\n",
        "1 ok 0\n2 ok 0\n3 ok 0\n4 ok 0\n5 ok 0\n6 ok 0\n7 ok 1\n8 ok 0\n9 ok 2\n10 fetched 765\n11 applied 5 1:769\n12 row 2, 2\n12 row 3, 3\n12 rows 2\n13 row 2, 41\n13 row 3, 41\n13 rows 2\n14 row 2, 2\n14 row 3, 3\n14 rows 2\n15 row 2, 41\n15 row 3, 41\n15 rows 2\n",
    ),
    // what is warned for the order of rows and keys does the same here, where rows have an order
    (
        "s1: CREATE TABLE a (id INT AUTO_INCREMENT, k INT, PRIMARY KEY (id)) //\ns1: CREATE TABLE x (id INT, v INT, PRIMARY KEY (id)) //\ns1: CREATE TABLE u (id INT, k INT, PRIMARY KEY (id), UNIQUE KEY uk (k)) //\ns1: SET binlog_format = STATEMENT //\ns1: INSERT INTO x VALUES (1, 1), (2, 2), (3, 3) //\ns1: DELETE FROM x LIMIT 1 //\ns1: INSERT INTO a (k) SELECT v FROM x //\ns1: INSERT IGNORE INTO x SELECT v + 1, v FROM x //\ns1: REPLACE INTO x SELECT id, v + 1 FROM x WHERE id > 2 //\ns1: INSERT INTO x SELECT id, v FROM x WHERE id = 2 ON DUPLICATE KEY UPDATE v = 9 //\ns1: INSERT INTO u VALUES (1, 10) //\ns1: INSERT INTO u VALUES (1, 5) ON DUPLICATE KEY UPDATE k = 20 //\nreplica: FETCH 100000 //\nreplica: APPLY 100 //\ns1: SELECT * FROM a //\ns1: SELECT * FROM x //\ns1: SELECT * FROM u //\nreplica: SELECT * FROM a //\nreplica: SELECT * FROM x //\nreplica: SELECT * FROM u //\n",
        "1 ok 0\n2 ok 0\n3 ok 0\n4 ok 0\n5 ok 3\n6 ok 1 warning 1592\n7 ok 2 warning 1592\n8 ok 1 warning 1592\n9 ok 4 warning 1592\n10 ok 2 warning 1592\n11 ok 1\n12 ok 2 warning 1592\n13 fetched 1599\n14 applied 11 1:1603\n15 row 1, 2\n15 row 2, 3\n15 rows 2\n16 row 2, 9\n16 row 3, 4\n16 row 4, 4\n16 rows 3\n17 row 1, 20\n17 rows 1\n18 row 1, 2\n18 row 2, 3\n18 rows 2\n19 row 2, 9\n19 row 3, 4\n19 row 4, 4\n19 rows 3\n20 row 1, 20\n20 rows 1\n",
    ),
    // a transaction of texts and rows
    (
        "s1: CREATE TABLE t (id INT, v INT, PRIMARY KEY (id)) //\ns1: INSERT INTO t VALUES (1, 10) //\ns1: BEGIN //\ns1: INSERT INTO t VALUES (2, 20) //\ns1: UPDATE t SET v = v + 1 LIMIT 1 //\ns1: INSERT INTO t VALUES (3, @@server_id) //\ns1: DELETE FROM t WHERE id = 2 //\ns1: COMMIT //\nreplica: FETCH 100000 //\nreplica: APPLY 100 //\ns1: SELECT * FROM t //\nreplica: SELECT * FROM t //\n",
        "1 ok 0\n2 ok 1\n3 ok 0\n4 ok 1\n5 ok 1\n6 ok 1\n7 ok 1\n8 ok 0\n9 fetched 691\n10 applied 3 1:695\n11 row 1, 11\n11 row 3, 1\n11 rows 2\n12 row 1, 11\n12 row 3, 1\n12 rows 2\n",
    ),
    // what has a reason and changes no row is not in the log, in no format
    (
        "s1: CREATE TABLE t (id INT, v INT, PRIMARY KEY (id)) //\ns1: INSERT INTO t VALUES (1, 10) //\ns1: UPDATE t SET v = 10 LIMIT 1 //\ns1: BEGIN //\ns1: INSERT IGNORE INTO t SELECT id, v FROM t //\ns1: DELETE FROM t WHERE v = @@server_id //\ns1: COMMIT //\ns1: SET binlog_format = STATEMENT //\ns1: UPDATE t SET v = 10 LIMIT 1 //\ns1: SET binlog_format = ROW //\ns1: UPDATE t SET v = 10 LIMIT 1 //\nreplica: FETCH 100000 //\nreplica: APPLY 100 //\ns1: SELECT * FROM t //\nreplica: SELECT * FROM t //\n",
        "1 ok 0\n2 ok 1\n3 ok 0\n4 ok 0\n5 ok 0\n6 ok 0\n7 ok 0\n8 ok 0\n9 ok 0\n10 ok 0\n11 ok 0\n12 fetched 332\n13 applied 2 1:336\n14 row 1, 10\n14 rows 1\n15 row 1, 10\n15 rows 1\n",
    ),
    // a shop, by three sessions in three formats
    (
        "s1: CREATE TABLE item (id INT NOT NULL AUTO_INCREMENT, name VARCHAR(20) NOT NULL, stock INT NOT NULL, PRIMARY KEY (id), UNIQUE KEY n (name)) //\ns1: CREATE TABLE orders (id INT NOT NULL AUTO_INCREMENT, item INT NOT NULL, qty INT NOT NULL, at VARCHAR(19) NOT NULL, PRIMARY KEY (id)) //\ns1: CREATE TABLE audit (id INT NOT NULL AUTO_INCREMENT, what VARCHAR(40) NOT NULL, PRIMARY KEY (id)) //\ns1: CREATE TABLE token (k INT NOT NULL, v VARCHAR(36), who INT, PRIMARY KEY (k)) //\ns1: CREATE FUNCTION left_of(i INT) RETURNS INT RETURN (SELECT stock FROM item WHERE id = i) //\ns1: CREATE TRIGGER o_bi BEFORE INSERT ON orders FOR EACH ROW UPDATE item SET stock = stock - NEW.qty WHERE id = NEW.item //\ns1: CREATE TRIGGER o_ai AFTER INSERT ON orders FOR EACH ROW INSERT INTO audit (what) VALUES (CONCAT('left ', left_of(NEW.item))) //\ns1: CREATE PROCEDURE buy(i INT, q INT) BEGIN IF left_of(i) >= q THEN INSERT INTO orders (item, qty, at) VALUES (i, q, NOW()); END IF; END //\ns1: INSERT INTO item (name, stock) VALUES ('pen', 10), ('ink', 3) //\ns1: CALL buy(1, 4) //\ns2: SET binlog_format = 'STATEMENT' //\ns2: INSERT INTO token VALUES (1, NOW(), CONNECTION_ID()) //\ns2: INSERT INTO item (name, stock) VALUES ('nib', 8) //\ns2: INSERT INTO token VALUES (2, NULL, LAST_INSERT_ID()) //\ns3: SET binlog_format = 'ROW' //\ns3: INSERT INTO token VALUES (3, UUID(), 0) //\ns1: UPDATE token SET v = UUID() WHERE k = 2 //\ns3: BEGIN //\ns3: INSERT INTO item (name, stock) VALUES ('cap', 1) //\ns3: ROLLBACK //\ns1: INSERT INTO item (name, stock) VALUES ('cap', 2) //\ns1: CALL buy(2, 5) //\ns1: CALL buy(3, 8) //\nreplica: FETCH 100000 //\nreplica: APPLY 100 //\ns1: SELECT * FROM item //\ns1: SELECT * FROM orders //\ns1: SELECT * FROM audit //\ns1: SELECT * FROM token //\nreplica: SELECT * FROM item //\nreplica: SELECT * FROM orders //\nreplica: SELECT * FROM audit //\nreplica: SELECT * FROM token //\n",
        "1 ok 0\n2 ok 0\n3 ok 0\n4 ok 0\n5 ok 0\n6 ok 0\n7 ok 0\n8 ok 0\n9 ok 2\n10 ok 1\n11 ok 0\n12 ok 1\n13 ok 1\n14 ok 1\n15 ok 0\n16 ok 1\n17 ok 1\n18 ok 0\n19 ok 1\n20 ok 0\n21 ok 1\n22 ok 0\n23 ok 1\n24 fetched 3312\n25 applied 17 1:3316\n26 row 1, 'pen', 6\n26 row 2, 'ink', 3\n26 row 3, 'nib', 0\n26 row 5, 'cap', 2\n26 rows 4\n27 row 1, 1, 4, '2023-11-14 22:13:30'\n27 row 2, 3, 8, '2023-11-14 22:13:43'\n27 rows 2\n28 row 1, 'left 6'\n28 row 2, 'left 0'\n28 rows 2\n29 row 1, '2023-11-14 22:13:32', 2\n29 row 2, '00000000-0000-0000-0000-000000000011', 3\n29 row 3, '00000000-0000-0000-0000-000000000010', 0\n29 rows 3\n30 row 1, 'pen', 6\n30 row 2, 'ink', 3\n30 row 3, 'nib', 0\n30 row 5, 'cap', 2\n30 rows 4\n31 row 1, 1, 4, '2023-11-14 22:13:30'\n31 row 2, 3, 8, '2023-11-14 22:13:43'\n31 rows 2\n32 row 1, 'left 6'\n32 row 2, 'left 0'\n32 rows 2\n33 row 1, '2023-11-14 22:13:32', 2\n33 row 2, '00000000-0000-0000-0000-000000000011', 3\n33 row 3, '00000000-0000-0000-0000-000000000010', 0\n33 rows 3\n",
    ),
];

/// Texts that are warned, of which the replica that is near makes something else, and their lines.
static UNLIKE: [(&str, &str); 3] = [
    // each from what the replica has of its own: its first draw is that of opening
    (
        OWN,
        "1 ok 0\n2 ok 0\n3 ok 1 warning 1592\n4 ok 1 warning 1592\n5 ok 1 warning 1592\n6 ok 1 warning 1592\n7 ok 1 warning 1592\n8 fetched 920\n9 applied 6 1:924\n10 row 1, 0, '00000000-0000-0000-0000-000000000003'\n10 row 2, 0, '2023-11-14 22:13:24'\n10 row 3, 0, 'root@localhost'\n10 row 4, 1, ''\n10 row 5, 1, ''\n10 rows 5\n11 row 1, 0, '00000000-0000-0000-0000-0000000003e9'\n11 row 2, 0, '2020-09-13 12:26:41'\n11 row 3, 0, 'rep@localhost'\n11 row 4, -1, ''\n11 row 5, 2, ''\n11 rows 5\n",
    ),
    // a trigger and a function that generate values, which the source took back once
    (
        "s1: CREATE TABLE t (id INT, v INT, PRIMARY KEY (id)) //\ns1: CREATE TABLE a (id INT AUTO_INCREMENT, k INT, PRIMARY KEY (id)) //\ns1: CREATE TRIGGER r AFTER INSERT ON t FOR EACH ROW INSERT INTO a (k) VALUES (NEW.id) //\ns1: CREATE FUNCTION f(n INT) RETURNS INT BEGIN INSERT INTO a (k) VALUES (n); RETURN n; END //\ns1: SET binlog_format = STATEMENT //\ns1: BEGIN //\ns1: INSERT INTO t VALUES (1, 1) //\ns1: ROLLBACK //\ns1: INSERT INTO t VALUES (2, 2) //\ns1: SELECT f(3) //\nreplica: FETCH 100000 //\nreplica: APPLY 100 //\ns1: SELECT * FROM t //\ns1: SELECT * FROM a //\nreplica: SELECT * FROM t //\nreplica: SELECT * FROM a //\n",
        "1 ok 0\n2 ok 0\n3 ok 0\n4 ok 0\n5 ok 0\n6 ok 0\n7 ok 1 warning 1592\n8 ok 0\n9 ok 1 warning 1592\n10 row 3\n10 rows 1 warning 1592\n11 fetched 779\n12 applied 6 1:783\n13 row 2, 2\n13 rows 1\n14 row 2, 2\n14 row 3, 3\n14 rows 2\n15 row 2, 2\n15 rows 1\n16 row 1, 2\n16 row 2, 3\n16 rows 2\n",
    ),
    // a variable of the server that decides which row goes
    (
        "s1: CREATE TABLE t (id INT, v INT, PRIMARY KEY (id)) //\ns1: INSERT INTO t VALUES (1, 1), (2, 2) //\ns1: SET binlog_format = STATEMENT //\ns1: DELETE FROM t WHERE id = @@server_id //\nreplica: FETCH 100000 //\nreplica: APPLY 100 //\ns1: SELECT * FROM t //\nreplica: SELECT * FROM t //\n",
        "1 ok 0\n2 ok 2\n3 ok 0\n4 ok 1 warning 1592\n5 fetched 477\n6 applied 3 1:481\n7 row 2, 2\n7 rows 1\n8 row 1, 1\n8 rows 1\n",
    ),
];

/// Texts that ask for what the replica has of its own.
const OWN: &str =
    "s1: CREATE TABLE w (id INT, v BIGINT, s VARCHAR(40), PRIMARY KEY (id)) //\ns1: SET binlog_format = STATEMENT //\ns1: INSERT INTO w VALUES (1, 0, UUID()) //\ns1: INSERT INTO w VALUES (2, 0, SYSDATE()) //\ns1: INSERT INTO w VALUES (3, 0, USER()) //\ns1: INSERT INTO w VALUES (4, ROW_COUNT(), '') //\ns1: INSERT INTO w VALUES (5, @@server_id, '') //\nreplica: FETCH 100000 //\nreplica: APPLY 100 //\ns1: SELECT * FROM w //\nreplica: SELECT * FROM w //\n";

/// The same with another replica.
static UNLIKE_FAR: [(&str, &str); 1] = [(
    OWN,
    "1 ok 0\n2 ok 0\n3 ok 1 warning 1592\n4 ok 1 warning 1592\n5 ok 1 warning 1592\n6 ok 1 warning 1592\n7 ok 1 warning 1592\n8 fetched 920\n9 applied 6 1:924\n10 row 1, 0, '00000000-0000-0000-0000-000000000003'\n10 row 2, 0, '2023-11-14 22:13:24'\n10 row 3, 0, 'root@localhost'\n10 row 4, 1, ''\n10 row 5, 1, ''\n10 rows 5\n11 row 1, 0, '00000000-0000-0000-0000-0000ee6b2801'\n11 row 2, 0, '1970-01-01 00:00:06'\n11 row 3, 0, 'someone.else@far.host'\n11 row 4, -1, ''\n11 row 5, 77, ''\n11 rows 5\n",
)];

#[test]
fn alike_on_every_replica(rt: HostRuntime) {
    let alloc = rt.alloc();
    let near = held(alloc, &NEAR, "", "", &ALIKE);
    expect_all(&rt, "near", near, ALIKE.len());
    let far = held(alloc, &FAR, "", "", &ALIKE);
    expect_all(&rt, "far", far, ALIKE.len());
    let last = held(alloc, &LAST, "", "", &ALIKE);
    expect_all(&rt, "last", last, ALIKE.len());
}

#[test]
fn warned_and_different(rt: HostRuntime) {
    let alloc = rt.alloc();
    let near = held(alloc, &NEAR, "", "", &UNLIKE);
    expect_all(&rt, "near", near, UNLIKE.len());
    let far = held(alloc, &FAR, "", "", &UNLIKE_FAR);
    expect_all(&rt, "far", far, UNLIKE_FAR.len());
}
