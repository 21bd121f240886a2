//! Which words are names without quotes.
use crate::tests::common::{expect_all, is_read_back, is_refused_at, repeated};
use std::alloc::Global;

/// The reserved words.
static RESERVED: &[&str] = &[
    "ALTER",
    "AND",
    "AS",
    "ASC",
    "BEFORE",
    "BETWEEN",
    "BIGINT",
    "BY",
    "CALL",
    "CASE",
    "CREATE",
    "DECLARE",
    "DEFAULT",
    "DELETE",
    "DESC",
    "DETERMINISTIC",
    "DISTINCT",
    "DIV",
    "DROP",
    "EACH",
    "ELSE",
    "ELSEIF",
    "EXISTS",
    "FOR",
    "FROM",
    "GROUP",
    "IF",
    "IGNORE",
    "IN",
    "INSERT",
    "INT",
    "INTEGER",
    "INTO",
    "IS",
    "JOIN",
    "KEY",
    "LIMIT",
    "MOD",
    "MODIFIES",
    "NOT",
    "NULL",
    "ON",
    "OR",
    "ORDER",
    "PRIMARY",
    "PROCEDURE",
    "READS",
    "RELEASE",
    "REPLACE",
    "RETURN",
    "SELECT",
    "SET",
    "SQL",
    "TABLE",
    "THEN",
    "TO",
    "TRIGGER",
    "UNION",
    "UNIQUE",
    "UPDATE",
    "VALUES",
    "VARCHAR",
    "WHEN",
    "WHERE",
    "WHILE",
];

/// Words of the grammar, and others, that are names without quotes too.
static FREE: &[&str] = &[
    "AFTER",
    "AUTO_INCREMENT",
    "BEGIN",
    "COMMIT",
    "CONTAINS",
    "DATA",
    "DO",
    "DUPLICATE",
    "END",
    "ENGINE",
    "FUNCTION",
    "INDEX",
    "INNODB",
    "MIXED",
    "NEW",
    "NO",
    "OFFSET",
    "OLD",
    "RETURNS",
    "ROLLBACK",
    "ROW",
    "SAVEPOINT",
    "SESSION",
    "START",
    "STATEMENT",
    "TRANSACTION",
    "TRUNCATE",
    "VALUE",
    "WORK",
    "ABS",
    "COALESCE",
    "CONCAT",
    "CONNECTION_ID",
    "COUNT",
    "FLOOR",
    "IFNULL",
    "LAST_INSERT_ID",
    "LENGTH",
    "MAX",
    "MIN",
    "NAME_CONST",
    "NOW",
    "RAND",
    "ROW_COUNT",
    "SUBSTRING",
    "SUM",
    "SYSDATE",
    "UNIX_TIMESTAMP",
    "USER",
    "UUID",
    "ALL",
    "LIKE",
    "XOR",
    "TRUE",
    "HAVING",
    "USING",
    "CHECK",
    "CONSTRAINT",
    "INNER",
    "GLOBAL",
    "VIEW",
    "x",
];

/// Whether a word is refused as a name without quotes.
fn is_reserved(alloc: Global, word: &str) -> bool {
    let bare = repeated(alloc, "SAVEPOINT ", 1, word, "");
    is_refused_at(alloc, bare.as_slice(), 10)
}

/// Whether a word is a name in quotes.
fn is_quoted(alloc: Global, word: &str) -> bool {
    let quoted = repeated(alloc, "SAVEPOINT `", 1, word, "`");
    is_read_back(alloc, quoted.as_slice())
}

/// Whether a word is a name without quotes too.
fn is_free(alloc: Global, word: &str) -> bool {
    let bare = repeated(alloc, "SAVEPOINT ", 1, word, "");
    is_read_back(alloc, bare.as_slice())
}

/// How many words from the first on are names in quotes alone.
fn count_reserved(alloc: Global, rows: &[&str]) -> usize {
    for (i, word) in rows.iter().enumerate() {
        if !is_reserved(alloc, word) || !is_quoted(alloc, word) {
            return i;
        }
    }
    rows.len()
}

/// How many words from the first on are names without quotes.
fn count_free(alloc: Global, rows: &[&str]) -> usize {
    for (i, word) in rows.iter().enumerate() {
        if !is_free(alloc, word) {
            return i;
        }
    }
    rows.len()
}

#[test]
fn words_and_names(rt: HostRuntime) {
    let alloc = rt.alloc();
    expect_all(
        &rt,
        "reserved words",
        count_reserved(alloc, RESERVED),
        RESERVED.len(),
    );
    expect_all(&rt, "free words", count_free(alloc, FREE), FREE.len());
}
