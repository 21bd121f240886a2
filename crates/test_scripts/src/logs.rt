//! The source's log in place of the answers.

use crate::playing::{expect_all, write_log_of};
use std::alloc::Global;

/// Scripts, the number of the status that they end with, and how many bytes of log are written. A log begins with a magic of 4 bytes
/// and an event of 119; the CREATE has 83 bytes, and the transaction of one row 130 by its text and 146 by its row.
static SCRIPTS: [(&str, u8, usize); 5] = [
    ("", 0, 123),
    (
        "s1: CREATE TABLE t (id INT, v INT, PRIMARY KEY (id)) //\ns1: INSERT INTO t VALUES (1, 10) //\nreplica: SELECT 1 //\n",
        0,
        336,
    ),
    (
        "s1: CREATE TABLE t (id INT, v INT, PRIMARY KEY (id)) //\ns1: SET binlog_format = ROW //\ns1: INSERT INTO t VALUES (1, 10) //\n",
        0,
        352,
    ),
    (
        "s1: CREATE TABLE t (id INT, v INT, PRIMARY KEY (id)) //\ns1: BEGIN //\ns1: INSERT INTO t VALUES (1, 10) //\n",
        0,
        206,
    ),
    ("s1: SELECT 1 //\nx", 2, 0),
];

/// Whether a script's log ends with a status and has so many bytes, which begin as a log does where there are any.
fn is_written(alloc: Global, script: &str, number: u8, size: usize) -> bool {
    let (status, log) = write_log_of(alloc, script.as_bytes());
    status == number && log.len() == size && log.as_slice().starts_with(b"\xFEbin") == (size > 0)
}

/// How many logs are so, from the first on.
fn held(alloc: Global) -> usize {
    for (i, (script, number, size)) in SCRIPTS.iter().enumerate() {
        if !is_written(alloc, *script, *number, *size) {
            return i;
        }
    }
    SCRIPTS.len()
}

#[test]
fn logs_written(rt: HostRuntime) {
    expect_all(&rt, "logs written", held(rt.alloc()), SCRIPTS.len());
}
