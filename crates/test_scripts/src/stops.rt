//! Rows of another server carried out: keys that they change and swap, each stop of a row, and tables that differ.

use crate::made::Piece;
use crate::playing::expect_all;
use crate::replays::{MAP, is_read_behind};
use std::alloc::Global;

/// The row (1, 10) by the map of `t`: the number 1, the end of a statement, two columns, both there, none NULL.
const ROW: &[u8] =
    b"\x01\x00\x00\x00\x00\x00\x01\x00\x02\x00\x02\x03\x00\x01\x00\x00\x00\x0a\x00\x00\x00";

/// The map of a table `u` of two numbers, likewise.
const MAP_U: &[u8] = b"\x01\x00\x00\x00\x00\x00\x00\x00\x02db\x00\x01u\x00\x02\x03\x03\x00\x02";

/// What stands in a log behind the table `t`, the line of its replay, and the line of the status that it ends with.
static ROWS: [(&[Piece<'_>], &str, &str); 30] = [
    // a primary key that is changed; two that are swapped by way of a third; the rows are then deleted
    (
        &[
            Piece::Begin,
            Piece::Event(19, MAP),
            Piece::Rows(30, &[(1, 10), (2, 20)]),
            Piece::Xid(2),
            Piece::Begin,
            Piece::Event(19, MAP),
            Piece::Rows(31, &[(1, 10), (3, 10)]),
            Piece::Xid(3),
            Piece::Begin,
            Piece::Event(19, MAP),
            Piece::Rows(31, &[(2, 20), (1, 20), (3, 10), (2, 10)]),
            Piece::Xid(4),
            Piece::Begin,
            Piece::Event(19, MAP),
            Piece::Rows(32, &[(1, 20), (2, 10)]),
            Piece::Xid(5),
        ],
        "applied 5 1:846\n",
        "",
    ),
    // a unique key that is changed, two that are swapped by way of NULL
    (
        &[
            Piece::Text("CREATE TABLE u (id INT, k INT, PRIMARY KEY (id), UNIQUE KEY uk (k))"),
            Piece::Begin,
            Piece::Event(19, MAP_U),
            Piece::Rows(30, &[(1, 10), (2, 20)]),
            Piece::Xid(3),
            Piece::Begin,
            Piece::Event(19, MAP_U),
            Piece::Rows(31, &[(1, 10), (1, 30)]),
            Piece::Xid(4),
            Piece::Begin,
            Piece::Event(19, MAP_U),
            Piece::Event(
                31,
                b"\x01\x00\x00\x00\x00\x00\x01\x00\x02\x00\x02\x03\x03\x00\x01\x00\x00\x00\x1e\x00\x00\x00\x02\x01\x00\x00\x00\x00\x02\x00\x00\x00\x14\x00\x00\x00\x00\x02\x00\x00\x00\x1e\x00\x00\x00\x02\x01\x00\x00\x00\x00\x01\x00\x00\x00\x14\x00\x00\x00",
            ),
            Piece::Xid(5),
            Piece::Begin,
            Piece::Event(19, MAP_U),
            Piece::Rows(32, &[(1, 20), (2, 30)]),
            Piece::Xid(6),
        ],
        "applied 6 1:958\n",
        "",
    ),
    // a change to a primary key that is taken
    (
        &[
            Piece::Begin,
            Piece::Event(19, MAP),
            Piece::Rows(30, &[(1, 10), (2, 20)]),
            Piece::Xid(2),
            Piece::Begin,
            Piece::Event(19, MAP),
            Piece::Rows(31, &[(1, 10), (2, 11)]),
            Piece::Xid(3),
        ],
        "applied 2 1:361\n",
        "differs at 440 code 1062 table t key (2)\n",
    ),
    // two that change places: the first finds its key taken, though the second would free it
    (
        &[
            Piece::Begin,
            Piece::Event(19, MAP),
            Piece::Rows(30, &[(1, 10), (2, 20)]),
            Piece::Xid(2),
            Piece::Begin,
            Piece::Event(19, MAP),
            Piece::Rows(31, &[(1, 10), (2, 10), (2, 20), (1, 20)]),
            Piece::Xid(3),
        ],
        "applied 2 1:361\n",
        "differs at 440 code 1062 table t key (2)\n",
    ),
    // a unique key that is taken, of a row to add; the key told is the primary one
    (
        &[
            Piece::Text("CREATE TABLE u (id INT, k INT, PRIMARY KEY (id), UNIQUE KEY uk (k))"),
            Piece::Begin,
            Piece::Event(19, MAP_U),
            Piece::Rows(30, &[(1, 10)]),
            Piece::Xid(3),
            Piece::Begin,
            Piece::Event(19, MAP_U),
            Piece::Rows(30, &[(2, 10)]),
            Piece::Xid(4),
        ],
        "applied 3 1:454\n",
        "differs at 533 code 1062 table u key (2)\n",
    ),
    // the same of a row to change, whose group is taken back with what it added before
    (
        &[
            Piece::Text("CREATE TABLE u (id INT, k INT, PRIMARY KEY (id), UNIQUE KEY uk (k))"),
            Piece::Begin,
            Piece::Event(19, MAP_U),
            Piece::Rows(30, &[(1, 10), (2, 20)]),
            Piece::Xid(3),
            Piece::Begin,
            Piece::Event(19, MAP_U),
            Piece::Event(
                30,
                b"\x01\x00\x00\x00\x00\x00\x00\x00\x02\x00\x02\x03\x00\x03\x00\x00\x00\x1e\x00\x00\x00",
            ),
            Piece::Rows(31, &[(2, 20), (2, 10)]),
            Piece::Xid(4),
        ],
        "applied 3 1:463\n",
        "differs at 582 code 1062 table u key (2)\n",
    ),
    // a row of that key with other values
    (
        &[
            Piece::Begin,
            Piece::Event(19, MAP),
            Piece::Rows(30, &[(1, 10), (2, 20)]),
            Piece::Xid(2),
            Piece::Begin,
            Piece::Event(19, MAP),
            Piece::Rows(32, &[(1, 11)]),
            Piece::Xid(3),
        ],
        "applied 2 1:361\n",
        "differs at 440 code 1032 table t key (1)\n",
    ),
    // the same to change, though the key to put is taken, too
    (
        &[
            Piece::Begin,
            Piece::Event(19, MAP),
            Piece::Rows(30, &[(1, 10), (2, 20)]),
            Piece::Xid(2),
            Piece::Begin,
            Piece::Event(19, MAP),
            Piece::Rows(31, &[(1, 11), (2, 11)]),
            Piece::Xid(3),
        ],
        "applied 2 1:361\n",
        "differs at 440 code 1032 table t key (1)\n",
    ),
    // a table that is not there, to change a row in
    (
        &[
            Piece::Begin,
            Piece::Event(19, MAP_U),
            Piece::Rows(31, &[(1, 10), (1, 11)]),
            Piece::Xid(2),
        ],
        "applied 1 1:206\n",
        "differs at 285 code 1146 table u key ()\n",
    ),
    // the same, to delete one
    (
        &[
            Piece::Begin,
            Piece::Event(19, MAP_U),
            Piece::Rows(32, &[(1, 10)]),
            Piece::Xid(2),
        ],
        "applied 1 1:206\n",
        "differs at 285 code 1146 table u key ()\n",
    ),
    // fewer columns
    (
        &[
            Piece::Begin,
            Piece::Event(
                19,
                b"\x01\x00\x00\x00\x00\x00\x00\x00\x02\x64\x62\x00\x01\x74\x00\x01\x03\x00\x00",
            ),
            Piece::Event(
                30,
                b"\x01\x00\x00\x00\x00\x00\x01\x00\x02\x00\x01\x01\x00\x01\x00\x00\x00",
            ),
            Piece::Xid(2),
        ],
        "applied 1 1:206\n",
        "differs at 284 code 30010 table t key ()\n",
    ),
    // a text whose greatest length is 6 in the map and 5 in the table
    (
        &[
            Piece::Text("CREATE TABLE s (id INT, w VARCHAR(5), PRIMARY KEY (id))"),
            Piece::Begin,
            Piece::Event(
                19,
                b"\x01\x00\x00\x00\x00\x00\x00\x00\x02\x64\x62\x00\x01\x73\x00\x02\x03\x0f\x02\x06\x00\x02",
            ),
            Piece::Event(
                30,
                b"\x01\x00\x00\x00\x00\x00\x01\x00\x02\x00\x02\x03\x00\x01\x00\x00\x00\x02\x61\x62",
            ),
            Piece::Xid(3),
        ],
        "applied 2 1:296\n",
        "differs at 377 code 30010 table s key ()\n",
    ),
    // NULL for a column that takes none, in the row to put
    (
        &[
            Piece::Begin,
            Piece::Event(19, MAP),
            Piece::Rows(30, &[(1, 10)]),
            Piece::Xid(2),
            Piece::Begin,
            Piece::Event(19, MAP),
            Piece::Event(
                31,
                b"\x01\x00\x00\x00\x00\x00\x01\x00\x02\x00\x02\x03\x03\x00\x01\x00\x00\x00\x0a\x00\x00\x00\x01\x0a\x00\x00\x00",
            ),
            Piece::Xid(3),
        ],
        "applied 2 1:352\n",
        "differs at 431 code 30010 table t key ()\n",
    ),
    // the same in the row that was
    (
        &[
            Piece::Begin,
            Piece::Event(19, MAP),
            Piece::Rows(30, &[(1, 10)]),
            Piece::Xid(2),
            Piece::Begin,
            Piece::Event(19, MAP),
            Piece::Event(
                31,
                b"\x01\x00\x00\x00\x00\x00\x01\x00\x02\x00\x02\x03\x03\x01\x0a\x00\x00\x00\x00\x01\x00\x00\x00\x0b\x00\x00\x00",
            ),
            Piece::Xid(3),
        ],
        "applied 2 1:352\n",
        "differs at 431 code 30010 table t key ()\n",
    ),
    // a row to delete that is not there
    (
        &[
            Piece::Begin,
            Piece::Event(19, MAP),
            Piece::Event(32, ROW),
            Piece::Xid(2),
        ],
        "applied 1 1:206\n",
        "differs at 285 code 1032 table t key (1)\n",
    ),
    // a row to change that is not there: (1, 10) to (1, 11)
    (
        &[
            Piece::Begin,
            Piece::Event(19, MAP),
            Piece::Event(
                31,
                b"\x01\x00\x00\x00\x00\x00\x01\x00\x02\x00\x02\x03\x03\x00\x01\x00\x00\x00\x0a\x00\x00\x00\x00\x01\x00\x00\x00\x0b\x00\x00\x00",
            ),
            Piece::Xid(2),
        ],
        "applied 1 1:206\n",
        "differs at 285 code 1032 table t key (1)\n",
    ),
    // a row to add whose key is taken
    (
        &[
            Piece::Begin,
            Piece::Event(19, MAP),
            Piece::Event(30, ROW),
            Piece::Xid(2),
            Piece::Begin,
            Piece::Event(19, MAP),
            Piece::Event(30, ROW),
            Piece::Xid(3),
        ],
        "applied 2 1:352\n",
        "differs at 431 code 1062 table t key (1)\n",
    ),
    // a row of a table that is not there
    (
        &[
            Piece::Begin,
            Piece::Event(
                19,
                b"\x01\x00\x00\x00\x00\x00\x00\x00\x02db\x00\x01u\x00\x02\x03\x03\x00\x02",
            ),
            Piece::Event(30, ROW),
            Piece::Xid(2),
        ],
        "applied 1 1:206\n",
        "differs at 285 code 1146 table u key ()\n",
    ),
    // columns of another type
    (
        &[
            Piece::Begin,
            Piece::Event(
                19,
                b"\x01\x00\x00\x00\x00\x00\x00\x00\x02db\x00\x01t\x00\x02\x03\x08\x00\x02",
            ),
            Piece::Event(
                30,
                b"\x01\x00\x00\x00\x00\x00\x01\x00\x02\x00\x02\x03\x00\x01\x00\x00\x00\x0a\x00\x00\x00\x00\x00\x00\x00",
            ),
            Piece::Xid(2),
        ],
        "applied 1 1:206\n",
        "differs at 285 code 30010 table t key ()\n",
    ),
    // NULL where none may stand
    (
        &[
            Piece::Begin,
            Piece::Event(19, MAP),
            Piece::Event(
                30,
                b"\x01\x00\x00\x00\x00\x00\x01\x00\x02\x00\x02\x03\x01\x0a\x00\x00\x00",
            ),
            Piece::Xid(2),
        ],
        "applied 1 1:206\n",
        "differs at 285 code 30010 table t key ()\n",
    ),
    // a row that is there with another value, to delete and to change
    (
        &[
            Piece::Begin,
            Piece::Text("INSERT INTO t VALUES (1, 10)"),
            Piece::Xid(2),
            Piece::Begin,
            Piece::Event(19, MAP),
            Piece::Event(
                32,
                b"\x01\x00\x00\x00\x00\x00\x01\x00\x02\x00\x02\x03\x00\x01\x00\x00\x00\x0b\x00\x00\x00",
            ),
            Piece::Xid(3),
        ],
        "applied 2 1:336\n",
        "differs at 415 code 1032 table t key (1)\n",
    ),
    (
        &[
            Piece::Begin,
            Piece::Text("INSERT INTO t VALUES (1, 10)"),
            Piece::Xid(2),
            Piece::Begin,
            Piece::Event(19, MAP),
            Piece::Event(
                31,
                b"\x01\x00\x00\x00\x00\x00\x01\x00\x02\x00\x02\x03\x03\x00\x01\x00\x00\x00\x0b\x00\x00\x00\x00\x01\x00\x00\x00\x0c\x00\x00\x00",
            ),
            Piece::Xid(3),
        ],
        "applied 2 1:336\n",
        "differs at 415 code 1032 table t key (1)\n",
    ),
    // a row to change to one whose key is taken: (1, 10) to (2, 11)
    (
        &[
            Piece::Begin,
            Piece::Text("INSERT INTO t VALUES (1, 10), (2, 20)"),
            Piece::Xid(2),
            Piece::Begin,
            Piece::Event(19, MAP),
            Piece::Event(
                31,
                b"\x01\x00\x00\x00\x00\x00\x01\x00\x02\x00\x02\x03\x03\x00\x01\x00\x00\x00\x0a\x00\x00\x00\x00\x02\x00\x00\x00\x0b\x00\x00\x00",
            ),
            Piece::Xid(3),
        ],
        "applied 2 1:345\n",
        "differs at 424 code 1062 table t key (2)\n",
    ),
    // a unique key that is taken, of a row to add and of one to change: (2, 20) to (2, 10)
    (
        &[
            Piece::Text("CREATE TABLE q (id INT, v INT, PRIMARY KEY (id), UNIQUE KEY k (v))"),
            Piece::Begin,
            Piece::Text("INSERT INTO q VALUES (1, 10)"),
            Piece::Xid(2),
            Piece::Begin,
            Piece::Event(
                19,
                b"\x01\x00\x00\x00\x00\x00\x00\x00\x02db\x00\x01q\x00\x02\x03\x03\x00\x02",
            ),
            Piece::Event(
                30,
                b"\x01\x00\x00\x00\x00\x00\x01\x00\x02\x00\x02\x03\x00\x02\x00\x00\x00\x0a\x00\x00\x00",
            ),
            Piece::Xid(3),
        ],
        "applied 3 1:437\n",
        "differs at 516 code 1062 table q key (2)\n",
    ),
    (
        &[
            Piece::Text("CREATE TABLE q (id INT, v INT, PRIMARY KEY (id), UNIQUE KEY k (v))"),
            Piece::Begin,
            Piece::Text("INSERT INTO q VALUES (1, 10), (2, 20)"),
            Piece::Xid(2),
            Piece::Begin,
            Piece::Event(
                19,
                b"\x01\x00\x00\x00\x00\x00\x00\x00\x02db\x00\x01q\x00\x02\x03\x03\x00\x02",
            ),
            Piece::Event(
                31,
                b"\x01\x00\x00\x00\x00\x00\x01\x00\x02\x00\x02\x03\x03\x00\x02\x00\x00\x00\x14\x00\x00\x00\x00\x02\x00\x00\x00\x0a\x00\x00\x00",
            ),
            Piece::Xid(3),
        ],
        "applied 3 1:446\n",
        "differs at 525 code 1062 table q key (2)\n",
    ),
    // fewer columns and more, and a text of another greatest length
    (
        &[
            Piece::Begin,
            Piece::Event(
                19,
                b"\x01\x00\x00\x00\x00\x00\x00\x00\x02db\x00\x01t\x00\x01\x03\x00\x00",
            ),
            Piece::Event(
                30,
                b"\x01\x00\x00\x00\x00\x00\x01\x00\x02\x00\x01\x01\x00\x01\x00\x00\x00",
            ),
            Piece::Xid(2),
        ],
        "applied 1 1:206\n",
        "differs at 284 code 30010 table t key ()\n",
    ),
    (
        &[
            Piece::Begin,
            Piece::Event(
                19,
                b"\x01\x00\x00\x00\x00\x00\x00\x00\x02db\x00\x01t\x00\x03\x03\x03\x03\x00\x06",
            ),
            Piece::Event(
                30,
                b"\x01\x00\x00\x00\x00\x00\x01\x00\x02\x00\x03\x07\x00\x01\x00\x00\x00\x0a\x00\x00\x00\x05\x00\x00\x00",
            ),
            Piece::Xid(2),
        ],
        "applied 1 1:206\n",
        "differs at 286 code 30010 table t key ()\n",
    ),
    (
        &[
            Piece::Text("CREATE TABLE w (id INT, s VARCHAR(5), PRIMARY KEY (id))"),
            Piece::Begin,
            Piece::Event(
                19,
                b"\x01\x00\x00\x00\x00\x00\x00\x00\x02db\x00\x01w\x00\x02\x03\x0f\x02\x06\x00\x02",
            ),
            Piece::Event(
                30,
                b"\x01\x00\x00\x00\x00\x00\x01\x00\x02\x00\x02\x03\x00\x01\x00\x00\x00\x01a",
            ),
            Piece::Xid(2),
        ],
        "applied 2 1:296\n",
        "differs at 377 code 30010 table w key ()\n",
    ),
    // NULL where none may stand, in the row that another is changed to
    (
        &[
            Piece::Begin,
            Piece::Text("INSERT INTO t VALUES (1, 10)"),
            Piece::Xid(2),
            Piece::Begin,
            Piece::Event(19, MAP),
            Piece::Event(
                31,
                b"\x01\x00\x00\x00\x00\x00\x01\x00\x02\x00\x02\x03\x03\x00\x01\x00\x00\x00\x0a\x00\x00\x00\x01\x0b\x00\x00\x00",
            ),
            Piece::Xid(3),
        ],
        "applied 2 1:336\n",
        "differs at 415 code 30010 table t key ()\n",
    ),
    // a NULL in an image to delete
    (
        &[
            Piece::Begin,
            Piece::Event(19, MAP),
            Piece::Event(
                32,
                b"\x01\x00\x00\x00\x00\x00\x01\x00\x02\x00\x02\x03\x01\x0a\x00\x00\x00",
            ),
            Piece::Xid(2),
        ],
        "applied 1 1:206\n",
        "differs at 285 code 30010 table t key ()\n",
    ),
];

/// How many logs are read so, from the first on.
fn held(alloc: Global) -> usize {
    for (i, (pieces, line, ending)) in ROWS.iter().enumerate() {
        if !is_read_behind(alloc, *pieces, *line, *ending) {
            return i;
        }
    }
    ROWS.len()
}

#[test]
fn rows_of_another_server(rt: HostRuntime) {
    expect_all(&rt, "rows of another server", held(rt.alloc()), ROWS.len());
}
