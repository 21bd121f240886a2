//! How a run ends, and what it tells.

use crate::playing::{
    ANY, Outcome, Shown, asked, asked_in_pieces, expect_all, is_rep, is_root, joined, plays,
    report_of, wanted,
};
use answer_text::{Mark, Report, Status};
use program_calls::repl_run::{number_of, tell};
use program_calls::{REPLICA_MOMENT, SOURCE_MOMENT, draw};
use std::alloc::Global;
use val_types::{Bytes, List};

/// Scripts that do not split or that ask what no node does yet, and the line that tells the first bad byte.
static BAD_SCRIPTS: [(&str, &str); 11] = [
    ("s1: SELECT 1", "bad script at 0\n"),
    ("s0: SELECT 1 //", "bad script at 0\n"),
    ("s100: SELECT 1 //", "bad script at 0\n"),
    ("replica: DROP TABLE t //", "bad script at 0\n"),
    (" \n s1 : SELECT 1 //", "bad script at 3\n"),
    ("s1: SELECT 1 //\nx", "bad script at 16\n"),
    ("s1: SELECT 1 // s1: SELECT 2 /", "bad script at 0\n"),
    ("s1: SELECT 1 //\n\ns1: SELECT 2 /", "bad script at 17\n"),
    (
        "replica: APPLY 1 //\nsource: FLUSH //",
        "bad script at 20\n",
    ),
    ("source: FLUSH //", "bad script at 0\n"),
    // what does not split comes before what is asked too early
    ("source: RESTART //\nx", "bad script at 19\n"),
];

/// Whether a script ends so, with no write.
fn is_bad(alloc: Global, script: &str, ending: &str) -> bool {
    let wanted = Outcome {
        shown: Shown::Just(b""),
        ending,
        reads: ANY,
        writes: (0, 0),
    };
    plays(
        alloc,
        &asked_in_pieces("run", script.as_bytes(), 0, 0),
        &wanted,
    )
}

/// How many scripts end so, from the first on.
fn held_scripts(alloc: Global) -> usize {
    for (i, (script, ending)) in BAD_SCRIPTS.iter().enumerate() {
        if !is_bad(alloc, *script, *ending) {
            return i;
        }
    }
    BAD_SCRIPTS.len()
}

/// A front, a letter so many times, an end; what is written, and the line that tells the status: a command and a script at their limits.
static LIMITS: [(&str, u8, usize, &str, &[u8], &str); 5] = [
    ("\ns1:", b'x', 1_048_571, "//", b"1 error 1064 at 0\n", ""),
    ("\ns1:", b'x', 1_048_572, "//", b"", "bad script at 1\n"),
    ("", b' ', 67_108_864, "", b"", ""),
    ("", b' ', 67_108_865, "", b"", "bad script at 67108864\n"),
    ("", b' ', 67_108_900, "", b"", "bad script at 67108864\n"),
];

fn filled(alloc: Global, letter: u8, count: usize) -> Bytes {
    match vec![in alloc; letter; count] {
        Ok(letters) => List::from_vec(letters),
        Err(_) => List::new(alloc),
    }
}

fn long_script(alloc: Global, front: &str, letter: u8, count: usize, end: &str) -> Bytes {
    let mut script = joined(alloc, &[front]);
    let _ = script.append(filled(alloc, letter, count));
    let _ = script.extend_from_slice(end.as_bytes());
    script
}

fn has_limit(alloc: Global, limit: &(&str, u8, usize, &str, &[u8], &str)) -> bool {
    let (front, letter, count, end, shown, ending) = limit;
    let script = long_script(alloc, *front, *letter, *count, *end);
    plays(
        alloc,
        &asked("run", script.as_slice()),
        &wanted(*shown, *ending),
    )
}

/// How many limits are so, from the first on.
fn held_limits(alloc: Global) -> usize {
    for (i, limit) in LIMITS.iter().enumerate() {
        if !has_limit(alloc, limit) {
            return i;
        }
    }
    LIMITS.len()
}

/// Lines of words, and whether they ask for a run.
static WORDS: [(&str, bool); 14] = [
    ("run", true),
    ("-- run", true),
    ("run --", true),
    ("", false),
    ("--", false),
    ("-- -- run", false),
    ("run fast", false),
    ("Run", false),
    ("log", false),
    ("print log", false),
    ("run print", false),
    ("Replay", false),
    ("dump", false),
    ("dump both", false),
];

/// Whether words ask for a run, and where they do not nothing is read.
fn is_asked(alloc: Global, line: &str, asks: bool) -> bool {
    let wanted = Outcome {
        shown: Shown::Any,
        ending: if asks { "" } else { "bad words\n" },
        reads: if asks { (1, u64::MAX) } else { (0, 0) },
        writes: ANY,
    };
    plays(alloc, &asked_in_pieces(line, b"s1: x //", 0, 0), &wanted)
}

/// How many words are so, from the first on.
fn held_words(alloc: Global) -> usize {
    for (i, (line, asks)) in WORDS.iter().enumerate() {
        if !is_asked(alloc, *line, *asks) {
            return i;
        }
    }
    WORDS.len()
}

/// A script of 185 bytes: 19 reads of 10 bytes at the most, and the 20th finds the end.
const SCRIPT: &str =
    "s1: CREATE TABLE t (id INT, PRIMARY KEY (id)) //\ns1: INSERT INTO t VALUES (1) //\ns2: INSERT INTO t VALUES (1) //\nreplica: FETCH 1000 //\nreplica: APPLY 10 //\nreplica: SELECT * FROM t //\n";

/// What it shows, in writes of 7, 7, 10, 3, 10, 4, 10, 8, 10 and 7 bytes.
const SHOWN: &str =
    "1 ok 0\n2 ok 1\n3 error 1062\n4 fetched 321\n5 applied 2 1:325\n6 row 1\n6 rows 1\n";

/// Its writes, and how many bytes were written before each.
static WRITES: [(u64, usize); 10] = [
    (1, 0),
    (2, 7),
    (3, 14),
    (4, 24),
    (5, 27),
    (6, 37),
    (7, 41),
    (8, 51),
    (9, 59),
    (10, 69),
];

/// Whether the script in pieces of 10 bytes, with these faults, writes so much of what it shows, and ends so.
fn is_played(
    alloc: Global,
    faults: (u64, u64),
    written: usize,
    ending: &str,
    reads: u64,
    writes: u64,
) -> bool {
    let (read, write) = faults;
    let wanted = Outcome {
        shown: Shown::Just(SHOWN.as_bytes().get(..written).unwrap_or(b"?")),
        ending,
        reads: (reads, reads),
        writes: (writes, writes),
    };
    plays(
        alloc,
        &asked_in_pieces("run", SCRIPT.as_bytes(), read, write),
        &wanted,
    )
}

/// The first read that fails and does not end the run so, 0 for none.
fn held_reads(alloc: Global) -> u64 {
    for call in 1..=20u64 {
        if !is_played(alloc, (call, 0), 0, "read fault\n", call, 0) {
            return call;
        }
    }
    0
}

/// How many writes that fail end the run so, from the first on.
fn held_writes(alloc: Global) -> usize {
    for (i, (call, written)) in WRITES.iter().enumerate() {
        if !is_played(alloc, (0, *call), *written, "write fault\n", 20, *call) {
            return i;
        }
    }
    WRITES.len()
}

/// Whether a report tells what both nodes drew: each node's opening has its first draw; the third is the source's last, and so the
/// fourth is the same; FETCH takes none.
fn tells_draws(report: &Report) -> bool {
    let first = draw(SOURCE_MOMENT, 0);
    let last = draw(SOURCE_MOMENT, 2);
    let opening = draw(REPLICA_MOMENT, 0);
    report.src_draws.as_slice() == [first, draw(SOURCE_MOMENT, 1), last, last].as_slice()
        && report.rep_draws.as_slice()
            == [opening, draw(REPLICA_MOMENT, 1), draw(REPLICA_MOMENT, 2)].as_slice()
}

/// Whether it tells who both nodes are, that the last command was the sixth, and that the table and its row were committed and carried
/// out before.
fn tells_rest(report: &Report) -> bool {
    report
        .src_identity
        .as_ref()
        .is_some_and(|identity| is_root(identity))
        && report
            .rep_identity
            .as_ref()
            .is_some_and(|identity| is_rep(identity))
        && report.now.command == 6
        && report.now.committed == 2
        && report.now.applied == 2
        && tells_marks(report)
}

/// Whether a mark names these numbers, pushed in this command.
fn names(mark: &Mark, command: u32, committed: u64, applied: u64) -> bool {
    mark.command == command && mark.committed == committed && mark.applied == applied
}

/// Whether it has a mark for the table and one for its row, behind the six calls of the source's disk that keep an entry, and then one for
/// each as it is carried out: behind the one call that puts into the relay what is fetched, and the four that keep a group.
fn tells_marks(report: &Report) -> bool {
    match report.marks.as_slice() {
        [table, row, first, second] => {
            names(table, 1, 1, 0)
                && names(row, 2, 2, 0)
                && names(first, 5, 2, 1)
                && names(second, 5, 2, 2)
                && table.src_calls.checked_add(6) == Some(row.src_calls)
                && row.src_calls <= first.src_calls
                && first.src_calls == second.src_calls
                && table.rep_calls == row.rep_calls
                && row.rep_calls.checked_add(5) == Some(first.rep_calls)
                && first.rep_calls.checked_add(4) == Some(second.rep_calls)
                && report.now.src_calls == first.src_calls
                && report.now.rep_calls == second.rep_calls
        }
        _ => false,
    }
}

fn tells_run(alloc: Global) -> bool {
    let report = report_of(alloc, &asked("run", SCRIPT.as_bytes()));
    tells_draws(&report) && tells_rest(&report)
}

/// Whether a status is told.
fn told(alloc: Global, out: &mut Vec<u8>, status: &Status) -> bool {
    tell(alloc, out, status).is_ok()
}

/// Whether three statuses are told by these lines.
fn are_told(alloc: Global) -> bool {
    let mut out = Vec::new(alloc);
    told(alloc, &mut out, &Status::Done)
        && told(alloc, &mut out, &Status::BadScript { at: 17 })
        && told(alloc, &mut out, &Status::NoMemory)
        && out.as_slice() == b"bad script at 17\nout of memory\n".as_slice()
}

/// Texts, and the number of the source's server that each gives.
static NUMBERS: [(&str, u32); 10] = [
    ("1", 1),
    ("2", 2),
    ("4294967295", 4294967295),
    ("4294967296", 1),
    ("0", 1),
    ("007", 1),
    ("+7", 1),
    (" 7", 1),
    ("7x", 1),
    ("", 1),
];

/// How many texts give these numbers, from the first on.
fn held_numbers(alloc: Global) -> usize {
    for (i, (text, number)) in NUMBERS.iter().enumerate() {
        if !matches!(number_of(alloc, *text), Ok(found) if found == *number) {
            return i;
        }
    }
    NUMBERS.len()
}

#[test]
fn scripts_and_words(rt: HostRuntime) {
    let alloc = rt.alloc();
    expect_all(&rt, "bad scripts", held_scripts(alloc), BAD_SCRIPTS.len());
    expect_all(&rt, "limits", held_limits(alloc), LIMITS.len());
    expect_all(&rt, "words", held_words(alloc), WORDS.len());
    expect_all(&rt, "server ids", held_numbers(alloc), NUMBERS.len());
}

#[test]
fn faults_and_reports(rt: HostRuntime) {
    let alloc = rt.alloc();
    assert!(rt; is_played(alloc, (0, 0), SHOWN.len(), "", 20, 10));
    assert!(rt; held_reads(alloc) == 0);
    expect_all(&rt, "writes that fail", held_writes(alloc), WRITES.len());
    assert!(rt; tells_run(alloc) && are_told(alloc));
}
