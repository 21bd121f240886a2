//! Texts that are statements: each is read, and read back from its canonical text.
use crate::tests::common::{expect_all, is_read_back, repeated};
use std::alloc::Global;

/// Tables, their rows, transactions and variables.
static PLAIN: &[&str] = &[
    "CREATE TABLE t (id INT, v INT, PRIMARY KEY (id))",
    "CREATE TABLE a (id INT NOT NULL AUTO_INCREMENT, k INT NOT NULL, PRIMARY KEY (id), UNIQUE KEY uk (k))",
    "CREATE TABLE l (id INT AUTO_INCREMENT, w INT NOT NULL, PRIMARY KEY (id))",
    "CREATE TABLE n (id INT, v INT, w VARCHAR(10), PRIMARY KEY (id))",
    "CREATE TABLE u (id INT, v BIGINT, PRIMARY KEY (id))",
    "CREATE TABLE b (id INT, w VARCHAR(65000), PRIMARY KEY (id))",
    "CREATE TABLE `t` (`id` INT NOT NULL, `v` INT NULL, PRIMARY KEY (`id`))",
    "CREATE TABLE g (id BIGINT NOT NULL AUTO_INCREMENT, k INT NOT NULL, v VARCHAR(20) NOT NULL, PRIMARY KEY (id), UNIQUE KEY u (k))",
    "DROP TABLE t",
    "INSERT INTO t VALUES (1, 10)",
    "INSERT INTO t VALUES (2, 20)",
    "INSERT INTO t VALUES (1, 1)",
    "INSERT INTO t VALUES (2, 2)",
    "INSERT INTO t VALUES (1, @x)",
    "INSERT INTO t VALUES (2, g())",
    "INSERT INTO t VALUES (1, 0), (2, 0), (3, 0), (4, 0), (5, 0)",
    "INSERT INTO t VALUES (1, FLOOR(RAND() * 1073741823)), (2, FLOOR(RAND() * 1073741823))",
    "INSERT INTO t VALUES (1, 10) ON DUPLICATE KEY UPDATE v = 10",
    "INSERT INTO t VALUES (1, 20) ON DUPLICATE KEY UPDATE v = VALUES(v) + 1",
    "INSERT INTO a (k) VALUES (1), (1), (2)",
    "INSERT INTO a (k) VALUES (1)",
    "INSERT INTO a (k) VALUES (2)",
    "INSERT INTO a (k) VALUES (3)",
    "INSERT INTO a (k) VALUES (5)",
    "INSERT INTO a VALUES (NULL, 2), (300, 3), (NULL, 4)",
    "INSERT INTO a VALUES (2147483647, 1)",
    "INSERT INTO a VALUES (149, 1)",
    "INSERT INTO a VALUES (3, 1)",
    "INSERT INTO `n` VALUES (1, 7, NAME_CONST('b', X'0027'))",
    "INSERT INTO g (k, v) VALUES (3, 'b3'), (100003, 'c')",
    "REPLACE INTO t VALUES (1, 5)",
    "UPDATE t SET v = 1",
    "UPDATE t SET v = 0",
    "UPDATE `n` SET `v` = (NAME_CONST('v', -5) + 1) WHERE (`id` = 1)",
    "UPDATE g SET v = CONCAT(v, 'x') WHERE k = 3",
    "DELETE FROM g WHERE k = 1 LIMIT 1",
    "SELECT 1",
    "SELECT * FROM t",
    "SELECT * FROM a",
    "SELECT COUNT(*) FROM g",
    "BEGIN",
    "SAVEPOINT x",
    "ROLLBACK TO x",
    "ROLLBACK",
    "COMMIT",
    "SET @x = 3",
    "SET auto_increment_offset = 20",
    "SET auto_increment_increment = 10, auto_increment_offset = 3",
    "SET rand_seed1 = 1, rand_seed2 = 2",
    "SET binlog_format = 'STATEMENT'",
    "SET binlog_format = 'MIXED'",
    "CALL q()",
    "CALL w(1000001)",
    "CALL w(1000000)",
    "CALL r(516)",
    "CALL r(1)",
    "CALL p(-5, X'0027')",
];

/// Stored programs.
static PROGRAMS: &[&str] = &[
    "CREATE TRIGGER tr AFTER INSERT ON t FOR EACH ROW INSERT INTO l (w) VALUES (NEW.id)",
    "CREATE TRIGGER b BEFORE UPDATE ON t FOR EACH ROW INSERT INTO u VALUES (OLD.id, h(OLD.id))",
    "CREATE FUNCTION g() RETURNS INT RETURN COALESCE(@x, 7)",
    "CREATE FUNCTION h(x INT) RETURNS BIGINT RETURN 9223372036854775805 + x",
    "CREATE PROCEDURE p(v INT, b VARCHAR(10)) BEGIN INSERT INTO n VALUES (1, 7, b); UPDATE n SET v = v + 1 WHERE id = 1; END",
    "CREATE PROCEDURE w(n INT) BEGIN DECLARE i INT DEFAULT 0; WHILE i < n DO SET i = i + 1; END WHILE; END",
    "CREATE PROCEDURE q() BEGIN INSERT INTO t VALUES (1, 1); INSERT INTO t VALUES (2, 2); INSERT INTO t VALUES (1, 3); END",
    "CREATE PROCEDURE r(n INT) BEGIN DECLARE i INT DEFAULT 0; WHILE i < n DO UPDATE b SET w = CONCAT(SUBSTRING(w, 2, 64999), SUBSTRING(w, 1, 1)); SET i = i + 1; END WHILE; END",
];

/// A shop: items, orders that take from the stock, an audit of them.
static SHOP: &[&str] = &[
    "CREATE TABLE item (id INT NOT NULL AUTO_INCREMENT, name VARCHAR(20) NOT NULL, stock INT NOT NULL, PRIMARY KEY (id), UNIQUE KEY n (name))",
    "CREATE TABLE orders (id INT NOT NULL AUTO_INCREMENT, item INT NOT NULL, qty INT NOT NULL, at VARCHAR(19) NOT NULL, PRIMARY KEY (id))",
    "CREATE TABLE audit (id INT NOT NULL AUTO_INCREMENT, what VARCHAR(40) NOT NULL, PRIMARY KEY (id))",
    "CREATE TABLE token (k INT NOT NULL, v VARCHAR(36), who INT, PRIMARY KEY (k))",
    "CREATE FUNCTION left_of(i INT) RETURNS INT RETURN (SELECT stock FROM item WHERE id = i)",
    "CREATE TRIGGER o_bi BEFORE INSERT ON orders FOR EACH ROW UPDATE item SET stock = stock - NEW.qty WHERE id = NEW.item",
    "CREATE TRIGGER o_ai AFTER INSERT ON orders FOR EACH ROW INSERT INTO audit (what) VALUES (CONCAT('left ', left_of(NEW.item)))",
    "CREATE PROCEDURE buy(i INT, q INT) BEGIN IF left_of(i) >= q THEN INSERT INTO orders (item, qty, at) VALUES (i, q, NOW()); END IF; END",
    "INSERT INTO item (name, stock) VALUES ('pen', 10), ('ink', 3)",
    "INSERT INTO item (name, stock) VALUES ('nib', 8)",
    "INSERT INTO item (name, stock) VALUES ('cap', 1)",
    "INSERT INTO item (name, stock) VALUES ('cap', 2)",
    "CALL buy(1, 4)",
    "CALL buy(2, 5)",
    "CALL buy(3, 8)",
    "INSERT INTO token VALUES (1, NOW(), CONNECTION_ID())",
    "INSERT INTO token VALUES (2, NULL, LAST_INSERT_ID())",
    "SET binlog_format = 'ROW'",
    "INSERT INTO token VALUES (3, UUID(), 0)",
    "UPDATE token SET v = UUID() WHERE k = 2",
];

/// A text with a piece so many times in its middle.
static LONG: [(&str, u32, &str, &str); 6] = [
    (
        "CREATE PROCEDURE c(b VARCHAR(65535)) UPDATE t SET v = LENGTH(b)",
        16,
        " + LENGTH(b)",
        "",
    ),
    (
        "CREATE PROCEDURE c(b VARCHAR(65535)) UPDATE t SET v = LENGTH(b)",
        17,
        " + LENGTH(b)",
        "",
    ),
    ("SELECT 1", 198, " + 1", ""),
    ("INSERT INTO b VALUES (1, 'x", 64_999, "a", "')"),
    ("SAVEPOINT ", 64, "A", ""),
    ("SAVEPOINT `", 64, "``", "`"),
];

type Long = (&'static str, u32, &'static str, &'static str);

fn is_long_read_back(alloc: Global, long: &Long) -> bool {
    let (front, count, piece, end) = long;
    let text = repeated(alloc, front, *count, piece, end);
    is_read_back(alloc, text.as_slice())
}

/// How many texts from the first on are read back.
fn count_read_back(alloc: Global, rows: &[&str]) -> usize {
    for (i, text) in rows.iter().enumerate() {
        if !is_read_back(alloc, text.as_bytes()) {
            return i;
        }
    }
    rows.len()
}

/// How many long texts from the first on are read back.
fn count_long(alloc: Global, rows: &[Long]) -> usize {
    for (i, long) in rows.iter().enumerate() {
        if !is_long_read_back(alloc, long) {
            return i;
        }
    }
    rows.len()
}

#[test]
fn statements_are_read_back(rt: HostRuntime) {
    let alloc = rt.alloc();
    expect_all(&rt, "plain", count_read_back(alloc, PLAIN), PLAIN.len());
    expect_all(
        &rt,
        "programs",
        count_read_back(alloc, PROGRAMS),
        PROGRAMS.len(),
    );
    expect_all(&rt, "a shop", count_read_back(alloc, SHOP), SHOP.len());
    expect_all(&rt, "long texts", count_long(alloc, &LONG), LONG.len());
}
