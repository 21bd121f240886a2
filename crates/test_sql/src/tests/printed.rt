//! Texts of statements with their canonical text, by hand.
use crate::tests::common::{expect_all, is_printed};
use std::alloc::Global;

/// What stands between tokens, and how names are written.
static TOKENS: &[(&str, &str)] = &[
    ("select/* a */1-- b\n+2--\n/**/", "SELECT (1 + 2)"),
    ("\t DO\r\n1 ", "DO 1"),
    ("DO 4/* *//**//***//*/*/", "DO 4"),
    ("DO 1 --", "DO 1"),
    ("DO 1 --\t+ 2", "DO 1"),
    ("DO 1 -- a\r+ 2", "DO 1"),
    ("DO 1 -- a\n+ 2", "DO (1 + 2)"),
    ("SELECT-1", "SELECT -1"),
    ("SELECT(1)", "SELECT 1"),
    ("SELECT'a'", "SELECT 'a'"),
    (
        "SELECT @ /* */ X, @@ \n session\t. Y, a . B",
        "SELECT @`x`, @@y, `a`.`b`",
    ),
    (
        "SELECT `Select`, `A``B`.` c `, _d1$, `1`, @`E ``F`, @@`g`",
        "SELECT `select`, `a``b`.` c `, `_d1$`, `1`, @`e ``f`, @@g",
    ),
    (
        "SELECT end, begin, do, function, index, offset, row, value, new, old, no, work FROM engine",
        "SELECT `end`, `begin`, `do`, `function`, `index`, `offset`, `row`, `value`, `new`, `old`, `no`, `work` FROM `engine`",
    ),
    (
        "SELECT count, SUM, abs, rand, floor, user, now, name_const, ifnull, f FROM max",
        "SELECT `count`, `sum`, `abs`, `rand`, `floor`, `user`, `now`, `name_const`, `ifnull`, `f` FROM `max`",
    ),
    (
        "SELECT value.row, new.C, NEW . c, `new`.c, old.c, `OLD`.`c`, session.c, @@session, @@session.session",
        "SELECT `value`.`row`, NEW.`c`, NEW.`c`, `new`.`c`, OLD.`c`, `old`.`c`, `session`.`c`, @@session, @@session",
    ),
    (
        "SELECT @@`select`, @@`a b`, @@Timestamp, @@`session`",
        "SELECT @@`select`, @@`a b`, @@timestamp, @@session",
    ),
];

/// Literals: texts, whose bytes are shown where each can be, and numbers.
static LITERALS: &[(&str, &str)] = &[
    (
        r#"DO '', 'a b~', "a", 'a"b', "it's", 'it''s', "a""b", '""'"#,
        r#"DO '', 'a b~', 'a', 'a"b', X'69742773', X'69742773', 'a"b', '""'"#,
    ),
    (
        r#"DO '\0\'\"\b\n\r\t\Z\\', '\%\_', '\a\B\N\z\x', "\"\'", "''""#,
        r#"DO X'002722080A0D091A5C', X'5C255C5F', 'aBNzx', X'2227', X'2727'"#,
    ),
    (
        "DO 'a\\\\b', 'a\nb', '\u{7f}', '\u{e9}', '-- /* a'",
        "DO X'615C62', X'610A62', X'7F', X'C3A9', '-- /* a'",
    ),
    (
        "DO X'4a', x'0027', X'', x'fF', NULL, null",
        "DO 'J', X'0027', '', X'FF', NULL, NULL",
    ),
    (
        "DO 0, 007, 9223372036854775807, 0009223372036854775807, -0, -007, -9223372036854775808",
        "DO 0, 7, 9223372036854775807, 9223372036854775807, 0, -7, -9223372036854775808",
    ),
    (
        "DO -5, - 5, --5, - -5, - - 5, -(5), -/**/5, -a, -- -5\n- -a",
        "DO -5, (- 5), (- -5), (- -5), (- (- 5)), (- 5), (- 5), (- `a`), (- (- `a`))",
    ),
    (
        "DO 3 -5, 3-5, 3--5, 3 - -5, 3 - 5, a -5, (1)-5, f()-5, 'a'-5, NULL -5, @a -5, CASE WHEN 1 THEN 2 END -5",
        "DO (3 - 5), (3 - 5), (3 - -5), (3 - -5), (3 - 5), (`a` - 5), (1 - 5), (`f`() - 5), ('a' - 5), (NULL - 5), (@`a` - 5), (CASE WHEN 1 THEN 2 END - 5)",
    ),
    (
        "DO 3 - -9223372036854775808, --9223372036854775808, (-9223372036854775808), a -9223372036854775807",
        "DO (3 - -9223372036854775808), (- -9223372036854775808), -9223372036854775808, (`a` - 9223372036854775807)",
    ),
];

/// Which operator holds what.
static OPERATORS: &[(&str, &str)] = &[
    (
        "DO a OR b OR c, a AND b AND c, a = b = c, a - b - c, a * b * c",
        "DO ((`a` OR `b`) OR `c`), ((`a` AND `b`) AND `c`), ((`a` = `b`) = `c`), ((`a` - `b`) - `c`), ((`a` * `b`) * `c`)",
    ),
    (
        "DO a - b + c, a DIV b MOD c % d * e, a < b >= c",
        "DO ((`a` - `b`) + `c`), ((((`a` DIV `b`) MOD `c`) MOD `d`) * `e`), ((`a` < `b`) >= `c`)",
    ),
    (
        "DO a OR b AND c, a AND b OR c, (a OR b) AND c, a OR NOT b, a AND NOT b AND c",
        "DO (`a` OR (`b` AND `c`)), ((`a` AND `b`) OR `c`), ((`a` OR `b`) AND `c`), (`a` OR (NOT `b`)), ((`a` AND (NOT `b`)) AND `c`)",
    ),
    (
        "DO NOT a = b, NOT a AND b, NOT NOT a, (NOT a) = b, NOT -a + b IS NULL",
        "DO (NOT (`a` = `b`)), ((NOT `a`) AND `b`), (NOT (NOT `a`)), ((NOT `a`) = `b`), (NOT (((- `a`) + `b`) IS NULL))",
    ),
    (
        "DO a = b + c, a + b = c, a = b AND c = d, a + b * c, a * b + c, a * (b + c), a - (b - c)",
        "DO (`a` = (`b` + `c`)), ((`a` + `b`) = `c`), ((`a` = `b`) AND (`c` = `d`)), (`a` + (`b` * `c`)), ((`a` * `b`) + `c`), (`a` * (`b` + `c`)), (`a` - (`b` - `c`))",
    ),
    (
        "DO -a * b, - a + b, a * - b, a - - b, -(a + b), -5 * a, - 5 * a",
        "DO ((- `a`) * `b`), ((- `a`) + `b`), (`a` * (- `b`)), (`a` - (- `b`)), (- (`a` + `b`)), (-5 * `a`), ((- 5) * `a`)",
    ),
    (
        "DO a <=> b, a <> b, a != b, a < b, a <= b, a > b, a >= b",
        "DO (`a` <=> `b`), (`a` <> `b`), (`a` <> `b`), (`a` < `b`), (`a` <= `b`), (`a` > `b`), (`a` >= `b`)",
    ),
    (
        "DO a IS NULL, a IS NOT NULL, a IS NULL IS NULL, a = b IS NULL, a IS NULL = b, NOT a IS NULL, a + b IS NULL",
        "DO (`a` IS NULL), (`a` IS NOT NULL), ((`a` IS NULL) IS NULL), ((`a` = `b`) IS NULL), ((`a` IS NULL) = `b`), (NOT (`a` IS NULL)), ((`a` + `b`) IS NULL)",
    ),
    (
        "DO a IN (1), a NOT IN (1, b), a IN (1) IN (2), NOT a IN (1), a = b IN (1), a IN (1) = b, a IN (b OR c)",
        "DO (`a` IN (1)), (`a` NOT IN (1, `b`)), ((`a` IN (1)) IN (2)), (NOT (`a` IN (1))), ((`a` = `b`) IN (1)), ((`a` IN (1)) = `b`), (`a` IN ((`b` OR `c`)))",
    ),
];

/// Calls, CASE and subqueries.
static PRIMARIES: &[(&str, &str)] = &[
    (
        "DO abs(1), Coalesce(1), COALESCE(1, NULL, a), if(a, b, c), ifnull(a, b), concat('a'), CONCAT (a, 'b'), length(a), substring(a, 1, 2)",
        "DO ABS(1), COALESCE(1), COALESCE(1, NULL, `a`), IF(`a`, `b`, `c`), IFNULL(`a`, `b`), CONCAT('a'), CONCAT(`a`, 'b'), LENGTH(`a`), SUBSTRING(`a`, 1, 2)",
    ),
    (
        "DO now(), unix_timestamp(), sysdate(), user(), uuid(), connection_id(), last_insert_id(), row_count ( )",
        "DO NOW(), UNIX_TIMESTAMP(), SYSDATE(), USER(), UUID(), CONNECTION_ID(), LAST_INSERT_ID(), ROW_COUNT()",
    ),
    (
        "DO F(), f (1, A), `abs`(), `Count`(1), `now`(1, 2), `rand`(), left_of(NEW.a), end(1), new(1)",
        "DO `f`(), `f`(1, `a`), `abs`(), `count`(1), `now`(1, 2), `rand`(), `left_of`(NEW.`a`), `end`(1), `new`(1)",
    ),
    (
        "DO VALUES(c), values ( `C` ), NAME_CONST('v', -5), name_const(\"V\", NULL), NAME_CONST(X'00', 'a')",
        "DO VALUES(`c`), VALUES(`c`), NAME_CONST('v', -5), NAME_CONST('V', NULL), NAME_CONST(X'00', 'a')",
    ),
    (
        "DO FLOOR(RAND() * 10), floor ( rand ( ) * -a ), FLOOR(RAND() * (a + b)), FLOOR(RAND() * -5), FLOOR(RAND() * CASE WHEN a THEN b END)",
        "DO FLOOR(RAND() * 10), FLOOR(RAND() * (- `a`)), FLOOR(RAND() * (`a` + `b`)), FLOOR(RAND() * -5), FLOOR(RAND() * (CASE WHEN `a` THEN `b` END))",
    ),
    (
        "DO CASE WHEN a THEN b END, case when a or b then c when d then e else (f) end, CASE WHEN 1 THEN end END",
        "DO CASE WHEN `a` THEN `b` END, CASE WHEN (`a` OR `b`) THEN `c` WHEN `d` THEN `e` ELSE `f` END, CASE WHEN 1 THEN `end` END",
    ),
    (
        "DO (SELECT 1), ((SELECT a FROM t LIMIT 1)), (SELECT COUNT(*) FROM t), EXISTS (SELECT * FROM t), exists(select 1, 2)",
        "DO (SELECT 1), (SELECT `a` FROM `t` LIMIT 1), (SELECT COUNT(*) FROM `t`), EXISTS (SELECT * FROM `t`), EXISTS (SELECT 1, 2)",
    ),
];

/// SELECT, and what changes rows.
static CHANGES: &[(&str, &str)] = &[
    (
        "UPDATE n SET v = NAME_CONST('v', -5) + 1 WHERE id = 1",
        "UPDATE `n` SET `v` = (NAME_CONST('v', -5) + 1) WHERE (`id` = 1)",
    ),
    (
        "CREATE TABLE n (w VARCHAR(10) NOT NULL DEFAULT X'0027', PRIMARY KEY (w), UNIQUE KEY k (w))",
        "CREATE TABLE `n` (`w` VARCHAR(10) NOT NULL DEFAULT X'0027', PRIMARY KEY (`w`), UNIQUE KEY `k` (`w`))",
    ),
    (
        "SELECT A, b FROM T WHERE a = 1 ORDER BY a ASC, b DESC, a + b LIMIT 03",
        "SELECT `a`, `b` FROM `t` WHERE (`a` = 1) ORDER BY `a`, `b` DESC, (`a` + `b`) LIMIT 3",
    ),
    (
        "SELECT * FROM t LIMIT 5, 10",
        "SELECT * FROM `t` LIMIT 10 OFFSET 5",
    ),
    (
        "SELECT * FROM t LIMIT a, b",
        "SELECT * FROM `t` LIMIT `b` OFFSET `a`",
    ),
    (
        "SELECT * FROM t WHERE 1 LIMIT offset OFFSET offset",
        "SELECT * FROM `t` WHERE 1 LIMIT `offset` OFFSET `offset`",
    ),
    (
        "SELECT count ( * ), COUNT(a), sum(a + 1), MIN(a), max((a)) FROM t WHERE a",
        "SELECT COUNT(*), COUNT(`a`), SUM((`a` + 1)), MIN(`a`), MAX(`a`) FROM `t` WHERE `a`",
    ),
    (
        "insert t value (1), (2, a)",
        "INSERT INTO `t` VALUES (1), (2, `a`)",
    ),
    (
        "INSERT IGNORE t (a, B) VALUES (1, 2) ON DUPLICATE KEY UPDATE a = VALUES(b), b = 3",
        "INSERT IGNORE INTO `t` (`a`, `b`) VALUES (1, 2) ON DUPLICATE KEY UPDATE `a` = VALUES(`b`), `b` = 3",
    ),
    (
        "INSERT INTO value (value) SELECT b FROM u ORDER BY b LIMIT 1 ON DUPLICATE KEY UPDATE value = 1",
        "INSERT INTO `value` (`value`) SELECT `b` FROM `u` ORDER BY `b` LIMIT 1 ON DUPLICATE KEY UPDATE `value` = 1",
    ),
    (
        "INSERT INTO t SELECT 1 ON DUPLICATE KEY UPDATE a = 1",
        "INSERT INTO `t` SELECT 1 ON DUPLICATE KEY UPDATE `a` = 1",
    ),
    ("replace t value (1)", "REPLACE INTO `t` VALUES (1)"),
    (
        "REPLACE INTO t (a) SELECT * FROM u",
        "REPLACE INTO `t` (`a`) SELECT * FROM `u`",
    ),
    (
        "UPDATE t SET a = 1, b = a = 1 WHERE a IN (1) ORDER BY b DESC LIMIT 2",
        "UPDATE `t` SET `a` = 1, `b` = (`a` = 1) WHERE (`a` IN (1)) ORDER BY `b` DESC LIMIT 2",
    ),
    (
        "DELETE FROM t WHERE a ORDER BY a ASC LIMIT N",
        "DELETE FROM `t` WHERE `a` ORDER BY `a` LIMIT `n`",
    ),
];

/// Tables, and statements of a session.
static SESSIONS: &[(&str, &str)] = &[
    (
        "create table T (A int(11), b BIGINT(20) NULL DEFAULT NULL, c VARCHAR(010) NOT NULL DEFAULT X'27', d INTEGER AUTO_INCREMENT UNIQUE, PRIMARY KEY (`A`, B)) ENGINE = InnoDB",
        "CREATE TABLE `t` (`a` INT NOT NULL, `b` BIGINT NOT NULL DEFAULT NULL, `c` VARCHAR(10) NOT NULL DEFAULT X'27', `d` INT NULL AUTO_INCREMENT, PRIMARY KEY (`a`, `b`), UNIQUE KEY `d` (`d`))",
    ),
    (
        "CREATE TABLE t (UNIQUE k (a, b), UNIQUE KEY l (a), b INT UNIQUE KEY, UNIQUE INDEX m (a), UNIQUE INDEX (a), UNIQUE index Index (b), a INT) engine innodb",
        "CREATE TABLE `t` (`b` INT NULL, `a` INT NULL, UNIQUE KEY `k` (`a`, `b`), UNIQUE KEY `l` (`a`), UNIQUE KEY `b` (`b`), UNIQUE KEY `m` (`a`), UNIQUE KEY `index` (`a`), UNIQUE KEY `index` (`b`))",
    ),
    (
        "CREATE TABLE t (a INT AUTO_INCREMENT DEFAULT -5 UNIQUE KEY PRIMARY KEY NULL)",
        "CREATE TABLE `t` (`a` INT NOT NULL DEFAULT -5 AUTO_INCREMENT, PRIMARY KEY (`a`), UNIQUE KEY `a` (`a`))",
    ),
    (
        "CREATE TABLE t (PRIMARY KEY (a, a), UNIQUE KEY k (z))",
        "CREATE TABLE `t` (PRIMARY KEY (`a`, `a`), UNIQUE KEY `k` (`z`))",
    ),
    ("DROP TABLE `T`", "DROP TABLE `t`"),
    ("drop function f", "DROP FUNCTION `f`"),
    ("DROP PROCEDURE function", "DROP PROCEDURE `function`"),
    ("DROP TRIGGER g", "DROP TRIGGER `g`"),
    ("TRUNCATE TABLE t", "TRUNCATE `t`"),
    ("TRUNCATE truncate", "TRUNCATE `truncate`"),
    ("CALL P", "CALL `p`()"),
    ("CALL p ( )", "CALL `p`()"),
    ("CALL p(1, a = b)", "CALL `p`(1, (`a` = `b`))"),
    ("BEGIN WORK", "BEGIN"),
    ("start transaction", "BEGIN"),
    ("Commit", "COMMIT"),
    ("ROLLBACK", "ROLLBACK"),
    ("ROLLBACK TO X", "ROLLBACK TO `x`"),
    ("ROLLBACK TO SAVEPOINT x", "ROLLBACK TO `x`"),
    ("ROLLBACK TO SAVEPOINT", "ROLLBACK TO `savepoint`"),
    ("ROLLBACK TO savepoint savepoint", "ROLLBACK TO `savepoint`"),
    ("SAVEPOINT begin", "SAVEPOINT `begin`"),
    ("RELEASE SAVEPOINT x", "RELEASE SAVEPOINT `x`"),
    (
        "SET @a := 1, b = 2, @@c = 3, NEW.d := 4, SESSION e = 5, @@session.F = 6, `new`=7",
        "SET @`a` = 1, `b` = 2, @@c = 3, NEW.`d` = 4, `e` = 5, @@f = 6, `new` = 7",
    ),
    (
        "SET session = 1, @@session = 2, session session = 3, @@session.session = 4, new = 5, old := 6, @`A b` = 7, session := 8",
        "SET `session` = 1, @@session = 2, `session` = 3, @@session = 4, `new` = 5, `old` = 6, @`a b` = 7, `session` = 8",
    ),
    ("SET @@SESSION.timestamp := 0", "SET @@timestamp = 0"),
    ("SET SESSION l = 1", "SET `l` = 1"),
    ("SET binlog_format = row", "SET `binlog_format` = 'ROW'"),
    (
        "SET @@binlog_format := Mixed, SESSION binlog_format = statement, @@session.BINLOG_FORMAT = ROW, `binlog_format` = MIXED",
        "SET @@binlog_format = 'MIXED', `binlog_format` = 'STATEMENT', @@binlog_format = 'ROW', `binlog_format` = 'MIXED'",
    ),
    (
        "SET binlog_format = 'row', binlog_format = row + 1, binlog_format = (row), binlog_format = `row`, binlog_format = ro",
        "SET `binlog_format` = 'row', `binlog_format` = (`row` + 1), `binlog_format` = `row`, `binlog_format` = `row`, `binlog_format` = `ro`",
    ),
    (
        "SET @binlog_format = row, NEW.binlog_format = row, a = row",
        "SET @`binlog_format` = `row`, NEW.`binlog_format` = `row`, `a` = `row`",
    ),
];

/// Stored programs.
static PROGRAMS: &[(&str, &str)] = &[
    (
        "CREATE FUNCTION Abs(a INT(5), B VARCHAR(5)) RETURNS BIGINT(9) NOT DETERMINISTIC DETERMINISTIC NO SQL CONTAINS SQL READS SQL DATA MODIFIES SQL DATA RETURN a + 1",
        "CREATE FUNCTION `abs`(`a` INT, `b` VARCHAR(5)) RETURNS BIGINT RETURN (`a` + 1)",
    ),
    (
        "create procedure p(in a int, b integer) reads sql data begin declare X, y int(3) default 1; declare z varchar(2); end",
        "CREATE PROCEDURE `p`(`a` INT, `b` INT) BEGIN DECLARE `x`, `y` INT DEFAULT 1; DECLARE `z` VARCHAR(2); END",
    ),
    (
        "CREATE PROCEDURE p() BEGIN if a then set x = 1; elseif b then select 1; do end; else begin end; end if; while do do call p; end while; return 1; end",
        "CREATE PROCEDURE `p`() BEGIN IF `a` THEN SET `x` = 1; ELSEIF `b` THEN SELECT 1; DO `end`; ELSE BEGIN END; END IF; WHILE `do` DO CALL `p`(); END WHILE; RETURN 1; END",
    ),
    (
        "CREATE PROCEDURE p() IF IF(a, b, c) THEN COMMIT; ELSE IF 1 THEN ROLLBACK; END IF; END IF",
        "CREATE PROCEDURE `p`() IF IF(`a`, `b`, `c`) THEN COMMIT; ELSE IF 1 THEN ROLLBACK; END IF; END IF",
    ),
    (
        "CREATE PROCEDURE p() BEGIN ROLLBACK TO x; SAVEPOINT y; RELEASE SAVEPOINT z; TRUNCATE t; DROP TABLE t; CREATE TABLE t (a INT); REPLACE t VALUE (1); DELETE FROM t; END",
        "CREATE PROCEDURE `p`() BEGIN ROLLBACK TO `x`; SAVEPOINT `y`; RELEASE SAVEPOINT `z`; TRUNCATE `t`; DROP TABLE `t`; CREATE TABLE `t` (`a` INT NULL); REPLACE INTO `t` VALUES (1); DELETE FROM `t`; END",
    ),
    (
        "CREATE TRIGGER after AFTER DELETE ON t FOR EACH ROW CREATE TRIGGER row BEFORE UPDATE ON each1 FOR EACH ROW SET NEW.a = OLD.b",
        "CREATE TRIGGER `after` AFTER DELETE ON `t` FOR EACH ROW CREATE TRIGGER `row` BEFORE UPDATE ON `each1` FOR EACH ROW SET NEW.`a` = OLD.`b`",
    ),
    (
        "CREATE TRIGGER g BEFORE INSERT ON t FOR EACH ROW BEGIN END",
        "CREATE TRIGGER `g` BEFORE INSERT ON `t` FOR EACH ROW BEGIN END",
    ),
];

/// Whether this is the canonical text, and its own.
fn is_canonical(alloc: Global, text: &str, canonical: &str) -> bool {
    is_printed(alloc, text.as_bytes(), canonical.as_bytes())
        && is_printed(alloc, canonical.as_bytes(), canonical.as_bytes())
}

/// How many texts from the first on have their canonical text.
fn count_canonical(alloc: Global, rows: &[(&str, &str)]) -> usize {
    for (i, (text, canonical)) in rows.iter().enumerate() {
        if !is_canonical(alloc, text, canonical) {
            return i;
        }
    }
    rows.len()
}

#[test]
fn canonical_texts_are_printed(rt: HostRuntime) {
    let alloc = rt.alloc();
    expect_all(&rt, "tokens", count_canonical(alloc, TOKENS), TOKENS.len());
    expect_all(
        &rt,
        "literals",
        count_canonical(alloc, LITERALS),
        LITERALS.len(),
    );
    expect_all(
        &rt,
        "operators",
        count_canonical(alloc, OPERATORS),
        OPERATORS.len(),
    );
    expect_all(
        &rt,
        "primaries",
        count_canonical(alloc, PRIMARIES),
        PRIMARIES.len(),
    );
    expect_all(
        &rt,
        "changes",
        count_canonical(alloc, CHANGES),
        CHANGES.len(),
    );
    expect_all(
        &rt,
        "sessions",
        count_canonical(alloc, SESSIONS),
        SESSIONS.len(),
    );
    expect_all(
        &rt,
        "programs",
        count_canonical(alloc, PROGRAMS),
        PROGRAMS.len(),
    );
}
