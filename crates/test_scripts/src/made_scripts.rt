//! The made script: the words that ask for it, what is written, and what it comes to when it is run.

use crate::playing::{
    ANY, Outcome, Shown, asked, asked_in_pieces, expect_all, joined, plays, report_of, runs,
    written_by,
};
use std::alloc::Global;
use val_types::Bytes;

/// The first line, and the last ones.
const FIRST: &str =
    "s1: CREATE TABLE g (id BIGINT NOT NULL AUTO_INCREMENT, k INT NOT NULL, v VARCHAR(20) NOT NULL, PRIMARY KEY (id), UNIQUE KEY u (k)) //\n";

const LAST: &str =
    "replica: FETCH 1000000000 //\nreplica: APPLY 4294967295 //\nreplica: SELECT COUNT(*) FROM g //\n";

/// The lines of the first four changes.
const FOUR: &str =
    "s1: INSERT INTO g (k, v) VALUES (1, 'a1') //\ns1: DELETE FROM g WHERE k = 1 LIMIT 1 //\ns1: INSERT INTO g (k, v) VALUES (3, 'b3'), (100003, 'c') //\ns1: UPDATE g SET v = CONCAT(v, 'x') WHERE k = 3 //\n";

/// Words that ask for the script with four changes.
static MADE: [&str; 2] = ["gen 4", "-- gen 4"];

/// Words beside these, which ask for nothing; more of them stand in `test_words`.
static REFUSED: [&str; 6] = ["gen", "gen 0", "gen 01", "gen 4 4", "gen 100001", "load 4"];

/// A script with these changes.
fn script_of(alloc: Global, changes: &str) -> Bytes {
    joined(alloc, &[FIRST, changes, LAST])
}

/// Whether words write this script, and read nothing.
fn is_made(alloc: Global, line: &str, changes: &str) -> bool {
    let script = script_of(alloc, changes);
    let outcome = Outcome {
        shown: Shown::Just(script.as_slice()),
        ending: "",
        reads: (0, 0),
        writes: ANY,
    };
    plays(alloc, &asked(line, b"s1: x //"), &outcome)
}

/// How many words write their script, from the first on.
fn held_made(alloc: Global) -> usize {
    for (i, line) in MADE.iter().enumerate() {
        if !is_made(alloc, *line, FOUR) {
            return i;
        }
    }
    MADE.len()
}

/// Whether words ask for nothing: they read and write nothing.
fn is_refused(alloc: Global, line: &str) -> bool {
    let outcome = Outcome {
        shown: Shown::Just(b""),
        ending: "bad words\n",
        reads: (0, 0),
        writes: (0, 0),
    };
    plays(alloc, &asked_in_pieces(line, b"s1: x //", 0, 0), &outcome)
}

/// How many words are refused, from the first on.
fn held_refused(alloc: Global) -> usize {
    for (i, line) in REFUSED.iter().enumerate() {
        if !is_refused(alloc, *line) {
            return i;
        }
    }
    REFUSED.len()
}

/// What the script with four changes comes to: a table and four transactions of 930 bytes, the second by its row, since a LIMIT
/// is not safe by its text; and two rows.
const RUN: &[u8] =
    b"1 ok 0\n2 ok 1\n3 ok 1\n4 ok 2\n5 ok 1\n6 fetched 930\n7 applied 5 1:934\n8 row 2\n8 rows 1\n";

/// Whether a made script is the same when it is made again, and ends with these lines when it is run; how many commands, commits and
/// applied ones came before its last command.
fn comes_to(alloc: Global, line: &str, end: &[u8], counts: (u32, u64, u64)) -> bool {
    let (script, _, _) = written_by(alloc, &asked(line, b""));
    let (again, _, _) = written_by(alloc, &asked(line, b""));
    let (shown, _, _) = written_by(alloc, &asked("run", script.as_slice()));
    let now = report_of(alloc, &asked("run", script.as_slice())).now;
    script.as_slice() == again.as_slice()
        && shown.as_slice().ends_with(end)
        && (now.command, now.committed, now.applied) == counts
}

#[test]
fn made(rt: HostRuntime) {
    let alloc = rt.alloc();
    expect_all(&rt, "made scripts", held_made(alloc), MADE.len());
    expect_all(&rt, "refused words", held_refused(alloc), REFUSED.len());
}

#[test]
fn carried_out(rt: HostRuntime) {
    let alloc = rt.alloc();
    assert!(rt; runs(alloc, script_of(alloc, FOUR).as_slice(), RUN));
    // a thousand and one commits, each applied, and the rows that are left of a thousand changes
    assert!(rt;
        comes_to(
            alloc,
            "gen 1000",
            b"\n1024 row 500\n1024 rows 1\n",
            (1024, 1001, 1001)
        )
    );
}
