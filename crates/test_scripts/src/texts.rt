//! The source's log behind a script: what `print` shows of it, which is all that each statement carries and where its events
//! stand, and what `replay` makes of it.

use crate::playing::{asked, expect_all, joined, log_of, plays, wanted};
use std::alloc::Global;

/// The line of the event with which each log begins.
const FIRST_LINE: &str = "4 FORMAT_DESCRIPTION 5.7.44-log\n";

/// Scripts, the lines that show their logs behind the first, and that of their replay. Places are sums of the lengths of events: 35
/// and the text for a statement, and 5 where increment and offset stand before it, 40 for BEGIN, 27 for XID, 28 for a number, 35 for
/// seeds. Each moment is that of the third draw, but that of the first command.
static LOGS: [(&str, &str, &str); 21] = [
    // a table and a row
    (
        "s1: CREATE TABLE t (id INT, v INT, PRIMARY KEY (id)) //\ns1: INSERT INTO t VALUES (1, 10) //\n",
        "123 QUERY thread=1 time=1700000001 CREATE TABLE t (id INT, v INT, PRIMARY KEY (id))\n206 QUERY thread=1 time=1700000002 BEGIN\n246 QUERY thread=1 time=1700000002 INSERT INTO t VALUES (1, 10)\n309 XID 2\n",
        "applied 2 1:336\n",
    ),
    // a statement that failed used two values
    (
        "s1: CREATE TABLE a (id INT NOT NULL AUTO_INCREMENT, k INT NOT NULL, PRIMARY KEY (id), UNIQUE KEY uk (k)) //\ns1: INSERT INTO a (k) VALUES (1), (1), (2) //\ns1: INSERT INTO a (k) VALUES (5) //\n",
        "123 QUERY thread=1 time=1700000001 CREATE TABLE a (id INT NOT NULL AUTO_INCREMENT, k INT NOT NULL, PRIMARY KEY (id), UNIQUE KEY uk (k))\n258 QUERY thread=1 time=1700000002 BEGIN\n298 INTVAR INSERT_ID 3\n326 QUERY thread=1 time=1700000002 INSERT INTO a (k) VALUES (5)\n389 XID 2\n",
        "applied 2 1:416\n",
    ),
    // what is taken back to a savepoint is not in the log
    (
        "s1: CREATE TABLE t (id INT, v INT, PRIMARY KEY (id)) //\ns1: BEGIN //\ns1: INSERT INTO t VALUES (1, 10) //\ns1: SAVEPOINT x //\ns1: INSERT INTO t VALUES (2, 20) //\ns1: ROLLBACK TO x //\ns1: COMMIT //\n",
        "123 QUERY thread=1 time=1700000001 CREATE TABLE t (id INT, v INT, PRIMARY KEY (id))\n206 QUERY thread=1 time=1700000002 BEGIN\n246 QUERY thread=1 time=1700000002 INSERT INTO t VALUES (1, 10)\n309 XID 2\n",
        "applied 2 1:336\n",
    ),
    // a rollback gives no value back
    (
        "s1: CREATE TABLE a (id INT NOT NULL AUTO_INCREMENT, k INT NOT NULL, PRIMARY KEY (id), UNIQUE KEY uk (k)) //\ns1: BEGIN //\ns1: INSERT INTO a (k) VALUES (1) //\ns1: ROLLBACK //\ns1: INSERT INTO a (k) VALUES (1) //\n",
        "123 QUERY thread=1 time=1700000001 CREATE TABLE a (id INT NOT NULL AUTO_INCREMENT, k INT NOT NULL, PRIMARY KEY (id), UNIQUE KEY uk (k))\n258 QUERY thread=1 time=1700000002 BEGIN\n298 INTVAR INSERT_ID 2\n326 QUERY thread=1 time=1700000002 INSERT INTO a (k) VALUES (1)\n389 XID 2\n",
        "applied 2 1:416\n",
    ),
    // the first of the generated values is carried; a value that was given is not
    (
        "s1: CREATE TABLE a (id INT NOT NULL AUTO_INCREMENT, k INT NOT NULL, PRIMARY KEY (id), UNIQUE KEY uk (k)) //\ns1: INSERT INTO a VALUES (149, 1) //\ns1: INSERT INTO a VALUES (NULL, 2), (300, 3), (NULL, 4) //\n",
        "123 QUERY thread=1 time=1700000001 CREATE TABLE a (id INT NOT NULL AUTO_INCREMENT, k INT NOT NULL, PRIMARY KEY (id), UNIQUE KEY uk (k))\n258 QUERY thread=1 time=1700000002 BEGIN\n298 QUERY thread=1 time=1700000002 INSERT INTO a VALUES (149, 1)\n362 XID 2\n389 QUERY thread=1 time=1700000002 BEGIN\n429 INTVAR INSERT_ID 150\n457 QUERY thread=1 time=1700000002 INSERT INTO a VALUES (NULL, 2), (300, 3), (NULL, 4)\n543 XID 3\n",
        "applied 3 1:570\n",
    ),
    // increment and offset, where they are not both 1
    (
        "s1: CREATE TABLE a (id INT NOT NULL AUTO_INCREMENT, k INT NOT NULL, PRIMARY KEY (id), UNIQUE KEY uk (k)) //\ns1: INSERT INTO a VALUES (3, 1) //\ns1: SET auto_increment_increment = 10, auto_increment_offset = 3 //\ns1: INSERT INTO a (k) VALUES (2) //\ns1: SET auto_increment_offset = 20 //\ns1: INSERT INTO a (k) VALUES (3) //\n",
        "123 QUERY thread=1 time=1700000001 CREATE TABLE a (id INT NOT NULL AUTO_INCREMENT, k INT NOT NULL, PRIMARY KEY (id), UNIQUE KEY uk (k))\n258 QUERY thread=1 time=1700000002 BEGIN\n298 QUERY thread=1 time=1700000002 INSERT INTO a VALUES (3, 1)\n360 XID 2\n387 QUERY thread=1 time=1700000002 BEGIN\n427 INTVAR INSERT_ID 13\n455 QUERY thread=1 time=1700000002 inc=10 off=3 INSERT INTO a (k) VALUES (2)\n523 XID 3\n550 QUERY thread=1 time=1700000002 BEGIN\n590 INTVAR INSERT_ID 20\n618 QUERY thread=1 time=1700000002 inc=10 off=20 INSERT INTO a (k) VALUES (3)\n686 XID 4\n",
        "applied 4 1:713\n",
    ),
    // a user variable, also one that was never set and that a function reads
    (
        "s1: CREATE TABLE t (id INT, v INT, PRIMARY KEY (id)) //\ns1: CREATE FUNCTION g() RETURNS INT RETURN COALESCE(@x, 7) //\ns2: SET @x = 3 //\ns2: INSERT INTO t VALUES (1, @x) //\ns1: INSERT INTO t VALUES (2, g()) //\n",
        "123 QUERY thread=1 time=1700000001 CREATE TABLE t (id INT, v INT, PRIMARY KEY (id))\n206 QUERY thread=1 time=1700000002 CREATE FUNCTION g() RETURNS INT RETURN COALESCE(@x, 7)\n295 QUERY thread=2 time=1700000002 BEGIN\n335 USER_VAR x 3\n378 QUERY thread=2 time=1700000002 INSERT INTO t VALUES (1, @x)\n441 XID 3\n468 QUERY thread=1 time=1700000002 BEGIN\n508 USER_VAR x NULL\n533 QUERY thread=1 time=1700000002 INSERT INTO t VALUES (2, g())\n597 XID 4\n",
        "applied 4 1:624\n",
    ),
    // what changes no row is not in the log
    (
        "s1: CREATE TABLE t (id INT, v INT, PRIMARY KEY (id)) //\ns1: INSERT INTO t VALUES (1, 10) //\ns1: INSERT INTO t VALUES (1, 10) ON DUPLICATE KEY UPDATE v = 10 //\ns1: INSERT INTO t VALUES (1, 20) ON DUPLICATE KEY UPDATE v = VALUES(v) + 1 //\ns1: REPLACE INTO t VALUES (1, 5) //\n",
        "123 QUERY thread=1 time=1700000001 CREATE TABLE t (id INT, v INT, PRIMARY KEY (id))\n206 QUERY thread=1 time=1700000002 BEGIN\n246 QUERY thread=1 time=1700000002 INSERT INTO t VALUES (1, 10)\n309 XID 2\n336 QUERY thread=1 time=1700000002 BEGIN\n376 QUERY thread=1 time=1700000002 INSERT INTO t VALUES (1, 20) ON DUPLICATE KEY UPDATE v = VALUES(v) + 1\n481 XID 3\n508 QUERY thread=1 time=1700000002 BEGIN\n548 QUERY thread=1 time=1700000002 REPLACE INTO t VALUES (1, 5)\n611 XID 4\n",
        "applied 4 1:638\n",
    ),
    // reading that changes rows; a SET is logged as the DO of its expressions
    (
        "s1: CREATE TABLE t (id INT, v INT, PRIMARY KEY (id)) //\ns1: CREATE FUNCTION f(n INT) RETURNS INT BEGIN INSERT INTO t VALUES (n, 0); RETURN n + 1; END //\ns1: SELECT f(1) //\ns1: DO f(2) //\ns1: SET @a = f(3) //\ns1: SET @a = 1 + f(4), @b = 'x' //\n",
        "123 QUERY thread=1 time=1700000001 CREATE TABLE t (id INT, v INT, PRIMARY KEY (id))\n206 QUERY thread=1 time=1700000002 CREATE FUNCTION f(n INT) RETURNS INT BEGIN INSERT INTO t VALUES (n, 0); RETURN n + 1; END\n330 QUERY thread=1 time=1700000002 BEGIN\n370 QUERY thread=1 time=1700000002 SELECT f(1)\n416 XID 3\n443 QUERY thread=1 time=1700000002 BEGIN\n483 QUERY thread=1 time=1700000002 DO f(2)\n525 XID 4\n552 QUERY thread=1 time=1700000002 BEGIN\n592 QUERY thread=1 time=1700000002 DO `f`(3)\n636 XID 5\n663 QUERY thread=1 time=1700000002 BEGIN\n703 QUERY thread=1 time=1700000002 DO (1 + `f`(4)), 'x'\n758 XID 6\n",
        "applied 6 1:785\n",
    ),
    // a SET that is refused behind its evaluation is not in the log
    (
        "s1: CREATE TABLE t (id INT, v INT, PRIMARY KEY (id)) //\ns1: CREATE FUNCTION f(n INT) RETURNS INT BEGIN INSERT INTO t VALUES (n, 0); RETURN n + 1; END //\ns1: SET @a = f(1), rand_seed1 = 'a' //\ns1: BEGIN //\ns1: SET @a = f(1), binlog_format = ROW //\ns1: COMMIT //\ns1: SET @a = f(3) //\n",
        "123 QUERY thread=1 time=1700000001 CREATE TABLE t (id INT, v INT, PRIMARY KEY (id))\n206 QUERY thread=1 time=1700000002 CREATE FUNCTION f(n INT) RETURNS INT BEGIN INSERT INTO t VALUES (n, 0); RETURN n + 1; END\n330 QUERY thread=1 time=1700000002 BEGIN\n370 QUERY thread=1 time=1700000002 DO `f`(3)\n414 XID 3\n",
        "applied 3 1:441\n",
    ),
    // the last generated value, as it was before the statement
    (
        "s1: CREATE TABLE a (id INT NOT NULL AUTO_INCREMENT, k INT NOT NULL, PRIMARY KEY (id), UNIQUE KEY uk (k)) //\ns1: INSERT INTO a (k) VALUES (1) //\ns1: INSERT INTO a (k) VALUES (LAST_INSERT_ID() + 1) //\ns1: INSERT INTO a (k) VALUES (9) //\n",
        "123 QUERY thread=1 time=1700000001 CREATE TABLE a (id INT NOT NULL AUTO_INCREMENT, k INT NOT NULL, PRIMARY KEY (id), UNIQUE KEY uk (k))\n258 QUERY thread=1 time=1700000002 BEGIN\n298 INTVAR INSERT_ID 1\n326 QUERY thread=1 time=1700000002 INSERT INTO a (k) VALUES (1)\n389 XID 2\n416 QUERY thread=1 time=1700000002 BEGIN\n456 INTVAR LAST_INSERT_ID 1\n484 INTVAR INSERT_ID 2\n512 QUERY thread=1 time=1700000002 INSERT INTO a (k) VALUES (LAST_INSERT_ID() + 1)\n594 XID 3\n621 QUERY thread=1 time=1700000002 BEGIN\n661 INTVAR INSERT_ID 3\n689 QUERY thread=1 time=1700000002 INSERT INTO a (k) VALUES (9)\n752 XID 4\n",
        "applied 4 1:779\n",
    ),
    // seeds, and a statement that carries nothing
    (
        "s1: CREATE TABLE t (id INT, v INT, PRIMARY KEY (id)) //\ns1: SET binlog_format = STATEMENT //\ns1: SET rand_seed1 = 1, rand_seed2 = 2 //\ns1: INSERT INTO t VALUES (1, FLOOR(RAND() * 1073741823)), (2, FLOOR(RAND() * 1073741823)) //\ns1: UPDATE t SET v = v + 1 //\n",
        "123 QUERY thread=1 time=1700000001 CREATE TABLE t (id INT, v INT, PRIMARY KEY (id))\n206 QUERY thread=1 time=1700000002 BEGIN\n246 RAND 1 2\n281 QUERY thread=1 time=1700000002 INSERT INTO t VALUES (1, FLOOR(RAND() * 1073741823)), (2, FLOOR(RAND() * 1073741823))\n401 XID 2\n428 QUERY thread=1 time=1700000002 BEGIN\n468 QUERY thread=1 time=1700000002 UPDATE t SET v = v + 1\n525 XID 3\n",
        "applied 3 1:552\n",
    ),
    // what a trigger reads, in the order of names; the second item carries nothing
    (
        "s1: CREATE TABLE t (id INT, v INT, PRIMARY KEY (id)) //\ns1: CREATE TRIGGER b BEFORE INSERT ON t FOR EACH ROW SET NEW.v = COALESCE(@x, 7) //\ns1: INSERT INTO t VALUES (1, 0) //\ns1: SET @x = 5, @name = 'ab' //\ns1: BEGIN //\ns1: INSERT INTO t VALUES (LENGTH(@name), 0) //\ns1: DELETE FROM t WHERE id = 1 //\ns1: COMMIT //\ns1: UPDATE t SET v = v + 1 //\n",
        "123 QUERY thread=1 time=1700000001 CREATE TABLE t (id INT, v INT, PRIMARY KEY (id))\n206 QUERY thread=1 time=1700000002 CREATE TRIGGER b BEFORE INSERT ON t FOR EACH ROW SET NEW.v = COALESCE(@x, 7)\n317 QUERY thread=1 time=1700000002 BEGIN\n357 USER_VAR x NULL\n382 QUERY thread=1 time=1700000002 INSERT INTO t VALUES (1, 0)\n444 XID 3\n471 QUERY thread=1 time=1700000002 BEGIN\n511 USER_VAR name 'ab'\n551 USER_VAR x 5\n594 QUERY thread=1 time=1700000002 INSERT INTO t VALUES (LENGTH(@name), 0)\n668 QUERY thread=1 time=1700000002 DELETE FROM t WHERE id = 1\n729 XID 4\n756 QUERY thread=1 time=1700000002 BEGIN\n796 QUERY thread=1 time=1700000002 UPDATE t SET v = v + 1\n853 XID 5\n",
        "applied 5 1:880\n",
    ),
    // one session by both formats
    (
        "s1: CREATE TABLE t (id INT, v INT, PRIMARY KEY (id)) //\ns1: INSERT INTO t VALUES (1, 10) //\ns1: SET binlog_format = ROW //\ns1: INSERT INTO t VALUES (2, 20) //\ns1: UPDATE t SET v = v + 1 //\ns1: DELETE FROM t WHERE v = 21 //\ns1: SET binlog_format = STATEMENT //\ns1: DELETE FROM t WHERE id = 1 //\n",
        "123 QUERY thread=1 time=1700000001 CREATE TABLE t (id INT, v INT, PRIMARY KEY (id))\n206 QUERY thread=1 time=1700000002 BEGIN\n246 QUERY thread=1 time=1700000002 INSERT INTO t VALUES (1, 10)\n309 XID 2\n336 QUERY thread=1 time=1700000002 BEGIN\n376 TABLE_MAP 1 t\n415 WRITE_ROWS 1 end (2, 20)\n455 XID 3\n482 QUERY thread=1 time=1700000002 BEGIN\n522 TABLE_MAP 1 t\n561 UPDATE_ROWS 1 end (1, 10)->(1, 11) (2, 20)->(2, 21)\n629 XID 4\n656 QUERY thread=1 time=1700000002 BEGIN\n696 TABLE_MAP 1 t\n735 DELETE_ROWS 1 end (2, 21)\n775 XID 5\n802 QUERY thread=1 time=1700000002 BEGIN\n842 QUERY thread=1 time=1700000002 DELETE FROM t WHERE id = 1\n903 XID 6\n",
        "applied 6 1:930\n",
    ),
    // a statement of a procedure with its locals closed in, a transaction each
    (
        "s1: CREATE TABLE n (id INT, v INT, w VARCHAR(10), PRIMARY KEY (id)) //\ns1: CREATE PROCEDURE p(v INT, b VARCHAR(10)) BEGIN INSERT INTO n VALUES (1, 7, b); UPDATE n SET v = v + 1 WHERE id = 1; END //\ns1: CALL p(-5, X'0027') //\n",
        "123 QUERY thread=1 time=1700000001 CREATE TABLE n (id INT, v INT, w VARCHAR(10), PRIMARY KEY (id))\n221 QUERY thread=1 time=1700000002 CREATE PROCEDURE p(v INT, b VARCHAR(10)) BEGIN INSERT INTO n VALUES (1, 7, b); UPDATE n SET v = v + 1 WHERE id = 1; END\n375 QUERY thread=1 time=1700000002 BEGIN\n415 QUERY thread=1 time=1700000002 INSERT INTO `n` VALUES (1, 7, NAME_CONST('b', X'0027'))\n505 XID 3\n532 QUERY thread=1 time=1700000002 BEGIN\n572 QUERY thread=1 time=1700000002 UPDATE `n` SET `v` = (NAME_CONST('v', -5) + 1) WHERE (`id` = 1)\n670 XID 4\n",
        "applied 4 1:697\n",
    ),
    // arguments, a DEFAULT, conditions and a SET that change rows
    (
        "s1: CREATE TABLE t (id INT, v INT, PRIMARY KEY (id)) //\ns1: CREATE FUNCTION f(n INT) RETURNS INT BEGIN INSERT INTO t VALUES (n, 0); RETURN n; END //\ns1: CREATE PROCEDURE p(a INT) BEGIN DECLARE b INT DEFAULT f(a + 1); IF f(3) = b THEN DO 1; ELSEIF f(4) THEN SET b = f(5), @y = 'x'; END IF; SELECT f(b + 1), @y; END //\ns1: CALL p(f(1)) //\ns1: CALL p(f(7) DIV 0) //\n",
        "123 QUERY thread=1 time=1700000001 CREATE TABLE t (id INT, v INT, PRIMARY KEY (id))\n206 QUERY thread=1 time=1700000002 CREATE FUNCTION f(n INT) RETURNS INT BEGIN INSERT INTO t VALUES (n, 0); RETURN n; END\n326 QUERY thread=1 time=1700000002 CREATE PROCEDURE p(a INT) BEGIN DECLARE b INT DEFAULT f(a + 1); IF f(3) = b THEN DO 1; ELSEIF f(4) THEN SET b = f(5), @y = 'x'; END IF; SELECT f(b + 1), @y; END\n521 QUERY thread=1 time=1700000002 BEGIN\n561 QUERY thread=1 time=1700000002 DO `f`(1)\n605 XID 4\n632 QUERY thread=1 time=1700000002 BEGIN\n672 QUERY thread=1 time=1700000002 DO `f`((NAME_CONST('a', 1) + 1))\n739 XID 5\n766 QUERY thread=1 time=1700000002 BEGIN\n806 QUERY thread=1 time=1700000002 DO (`f`(3) = NAME_CONST('b', 2))\n873 XID 6\n900 QUERY thread=1 time=1700000002 BEGIN\n940 QUERY thread=1 time=1700000002 DO `f`(4)\n984 XID 7\n1011 QUERY thread=1 time=1700000002 BEGIN\n1051 QUERY thread=1 time=1700000002 DO `f`(5), 'x'\n1100 XID 8\n1127 QUERY thread=1 time=1700000002 BEGIN\n1167 USER_VAR y 'x'\n1203 QUERY thread=1 time=1700000002 SELECT `f`((NAME_CONST('b', 5) + 1)), @`y`\n1280 XID 9\n",
        "applied 9 1:1307\n",
    ),
    // in a transaction, with a LIMIT, which is by rows, and behind an error
    (
        "s1: CREATE TABLE a (id INT NOT NULL AUTO_INCREMENT, k INT, PRIMARY KEY (id)) //\ns1: CREATE PROCEDURE p(n INT) BEGIN INSERT INTO a (k) VALUES (LAST_INSERT_ID()), (n); SET @x = n; UPDATE a SET k = @x ORDER BY id LIMIT n; INSERT INTO a VALUES (1, n); END //\ns1: BEGIN //\ns1: CALL p(1) //\ns1: SAVEPOINT s //\ns1: CALL p(2) //\ns1: ROLLBACK TO s //\ns1: CALL p(NULL) //\ns1: COMMIT //\n",
        "123 QUERY thread=1 time=1700000001 CREATE TABLE a (id INT NOT NULL AUTO_INCREMENT, k INT, PRIMARY KEY (id))\n230 QUERY thread=1 time=1700000002 CREATE PROCEDURE p(n INT) BEGIN INSERT INTO a (k) VALUES (LAST_INSERT_ID()), (n); SET @x = n; UPDATE a SET k = @x ORDER BY id LIMIT n; INSERT INTO a VALUES (1, n); END\n432 QUERY thread=1 time=1700000002 BEGIN\n472 INTVAR LAST_INSERT_ID 0\n500 INTVAR INSERT_ID 1\n528 QUERY thread=1 time=1700000002 INSERT INTO `a` (`k`) VALUES (LAST_INSERT_ID()), (NAME_CONST('n', 1))\n632 TABLE_MAP 1 a\n671 UPDATE_ROWS 1 end (1, 0)->(1, 1)\n721 INTVAR LAST_INSERT_ID 3\n749 INTVAR INSERT_ID 5\n777 QUERY thread=1 time=1700000002 INSERT INTO `a` (`k`) VALUES (LAST_INSERT_ID()), (NAME_CONST('n', NULL))\n884 XID 3\n",
        "applied 3 1:911\n",
    ),
    // a trigger that inserts into a table with generated values: by its text where texts are asked for, else by rows
    (
        "s1: CREATE TABLE t (id INT, v INT, PRIMARY KEY (id)) //\ns1: CREATE TABLE l (id INT AUTO_INCREMENT, w INT NOT NULL, PRIMARY KEY (id)) //\ns1: CREATE TRIGGER tr AFTER INSERT ON t FOR EACH ROW INSERT INTO l (w) VALUES (NEW.id) //\ns1: SET binlog_format = 'STATEMENT' //\ns1: INSERT INTO t VALUES (1, 1) //\ns1: SET binlog_format = 'MIXED' //\ns1: INSERT INTO t VALUES (2, 2) //\n",
        "123 QUERY thread=1 time=1700000001 CREATE TABLE t (id INT, v INT, PRIMARY KEY (id))\n206 QUERY thread=1 time=1700000002 CREATE TABLE l (id INT AUTO_INCREMENT, w INT NOT NULL, PRIMARY KEY (id))\n313 QUERY thread=1 time=1700000002 CREATE TRIGGER tr AFTER INSERT ON t FOR EACH ROW INSERT INTO l (w) VALUES (NEW.id)\n430 QUERY thread=1 time=1700000002 BEGIN\n470 QUERY thread=1 time=1700000002 INSERT INTO t VALUES (1, 1)\n532 XID 4\n559 QUERY thread=1 time=1700000002 BEGIN\n599 TABLE_MAP 1 t\n638 TABLE_MAP 2 l\n677 WRITE_ROWS 1 (2, 2)\n717 WRITE_ROWS 2 end (2, 2)\n757 XID 5\n",
        "applied 5 1:784\n",
    ),
    // a transaction of both kinds: each item by itself
    (
        "s1: CREATE TABLE t (id INT, v INT, PRIMARY KEY (id)) //\ns1: INSERT INTO t VALUES (1, 10) //\ns1: BEGIN //\ns1: INSERT INTO t VALUES (2, 20) //\ns1: UPDATE t SET v = v + 1 LIMIT 1 //\ns1: INSERT INTO t VALUES (3, @@server_id) //\ns1: DELETE FROM t WHERE id = 2 //\ns1: COMMIT //\n",
        "123 QUERY thread=1 time=1700000001 CREATE TABLE t (id INT, v INT, PRIMARY KEY (id))\n206 QUERY thread=1 time=1700000002 BEGIN\n246 QUERY thread=1 time=1700000002 INSERT INTO t VALUES (1, 10)\n309 XID 2\n336 QUERY thread=1 time=1700000002 BEGIN\n376 QUERY thread=1 time=1700000002 INSERT INTO t VALUES (2, 20)\n439 TABLE_MAP 1 t\n478 UPDATE_ROWS 1 end (1, 10)->(1, 11)\n528 TABLE_MAP 1 t\n567 WRITE_ROWS 1 end (3, 1)\n607 QUERY thread=1 time=1700000002 DELETE FROM t WHERE id = 2\n668 XID 3\n",
        "applied 3 1:695\n",
    ),
    // what reading, a SET, arguments and a condition change, by rows; a statement of the same procedure by its text
    (
        "s1: CREATE TABLE t (id INT, v INT, PRIMARY KEY (id)) //\ns1: CREATE FUNCTION f(n INT) RETURNS INT BEGIN INSERT INTO t VALUES (n, @@server_id); RETURN n; END //\ns1: CREATE PROCEDURE p(n INT) IF f(n) THEN DELETE FROM t WHERE id = n; END IF //\ns1: SELECT f(1) //\ns1: DO f(2) //\ns1: SET @a = f(3) //\ns1: CALL p(f(4) + 1) //\n",
        "123 QUERY thread=1 time=1700000001 CREATE TABLE t (id INT, v INT, PRIMARY KEY (id))\n206 QUERY thread=1 time=1700000002 CREATE FUNCTION f(n INT) RETURNS INT BEGIN INSERT INTO t VALUES (n, @@server_id); RETURN n; END\n336 QUERY thread=1 time=1700000002 CREATE PROCEDURE p(n INT) IF f(n) THEN DELETE FROM t WHERE id = n; END IF\n444 QUERY thread=1 time=1700000002 BEGIN\n484 TABLE_MAP 1 t\n523 WRITE_ROWS 1 end (1, 1)\n563 XID 4\n590 QUERY thread=1 time=1700000002 BEGIN\n630 TABLE_MAP 1 t\n669 WRITE_ROWS 1 end (2, 1)\n709 XID 5\n736 QUERY thread=1 time=1700000002 BEGIN\n776 TABLE_MAP 1 t\n815 WRITE_ROWS 1 end (3, 1)\n855 XID 6\n882 QUERY thread=1 time=1700000002 BEGIN\n922 TABLE_MAP 1 t\n961 WRITE_ROWS 1 end (4, 1)\n1001 XID 7\n1028 QUERY thread=1 time=1700000002 BEGIN\n1068 TABLE_MAP 1 t\n1107 WRITE_ROWS 1 end (5, 1)\n1147 XID 8\n1174 QUERY thread=1 time=1700000002 BEGIN\n1214 QUERY thread=1 time=1700000002 DELETE FROM `t` WHERE (`id` = NAME_CONST('n', 5))\n1298 XID 9\n",
        "applied 9 1:1325\n",
    ),
    // what has a reason and changes no row is not in the log, in no format
    (
        "s1: CREATE TABLE t (id INT, v INT, PRIMARY KEY (id)) //\ns1: INSERT INTO t VALUES (1, 10) //\ns1: SET binlog_format = STATEMENT //\ns1: UPDATE t SET v = @@server_id WHERE id = 2 //\ns1: DELETE FROM t WHERE id = 2 LIMIT 1 //\ns1: INSERT IGNORE INTO t SELECT id, v FROM t //\ns1: DO LENGTH(UUID()) //\ns1: SET binlog_format = ROW //\ns1: UPDATE t SET v = 10 LIMIT 1 //\n",
        "123 QUERY thread=1 time=1700000001 CREATE TABLE t (id INT, v INT, PRIMARY KEY (id))\n206 QUERY thread=1 time=1700000002 BEGIN\n246 QUERY thread=1 time=1700000002 INSERT INTO t VALUES (1, 10)\n309 XID 2\n",
        "applied 2 1:336\n",
    ),
];

/// Whether a word over a log writes this, to its end.
fn shows(alloc: Global, word: &str, log: &[u8], shown: &[u8]) -> bool {
    plays(alloc, &asked(word, log), &wanted(shown, ""))
}

/// Whether `print` shows of a script's log these lines behind the first, and `replay` writes this one.
fn has_log(alloc: Global, script: &str, lines: &str, replayed: &str) -> bool {
    let log = log_of(alloc, script.as_bytes());
    let lines = joined(alloc, &[FIRST_LINE, lines]);
    shows(alloc, "print", log.as_slice(), lines.as_slice())
        && shows(alloc, "replay", log.as_slice(), replayed.as_bytes())
}

/// How many logs are so, from the first on.
fn held(alloc: Global) -> usize {
    for (i, (script, lines, replayed)) in LOGS.iter().enumerate() {
        if !has_log(alloc, *script, *lines, *replayed) {
            return i;
        }
    }
    LOGS.len()
}

#[test]
fn logs_printed_and_replayed(rt: HostRuntime) {
    expect_all(&rt, "logs of scripts", held(rt.alloc()), LOGS.len());
}
