//! Logs of another server, printed and replayed: texts and groups that are refused, what is damaged or not known, and logs that are cut.

use crate::made::{FIRST_BODY, Piece, begun, put_all, put_text};
use crate::playing::{
    ANY, Call, Outcome, Shown, asked, asked_in_pieces, expect_all, is_rep, log_of, plays,
    report_of, wanted, written_by,
};
use answer_text::Report;
use port_traits::{Draw, Identity};
use program_calls::{REPLICA_MOMENT, draw};
use std::alloc::Global;
use val_types::{Bytes, List};

/// The text that makes the table `t` of two numbers, whose key is `id`. Its event ends at 206.
const T: &str = "CREATE TABLE t (id INT, v INT, PRIMARY KEY (id))";

/// The map of `t`: the number 1, no flags, the schema, the name, two columns of four bytes, of which the second may be NULL.
pub const MAP: &[u8] = b"\x01\x00\x00\x00\x00\x00\x00\x00\x02db\x00\x01t\x00\x02\x03\x03\x00\x02";

/// What stands in a log behind that table, the line of its replay, and the line of the status that it ends with.
static CASES: [(&[Piece<'_>], &str, &str); 39] = [
    // texts that have no place in a transaction, and outside of one
    (
        &[Piece::Begin, Piece::Text("COMMIT"), Piece::Xid(2)],
        "applied 1 1:206\n",
        "differs at 246 code 30005 table - key ()\n",
    ),
    (
        &[Piece::Begin, Piece::Text("CALL p()"), Piece::Xid(2)],
        "applied 1 1:206\n",
        "differs at 246 code 30005 table - key ()\n",
    ),
    (
        &[Piece::Text("INSERT INTO t VALUES (1, 10)")],
        "applied 1 1:206\n",
        "differs at 206 code 30005 table - key ()\n",
    ),
    (
        &[Piece::Text("CREATE PROCEDURE p() COMMIT")],
        "applied 1 1:206\n",
        "differs at 206 code 30005 table - key ()\n",
    ),
    // texts that are no statements
    (
        &[
            Piece::Begin,
            Piece::Text("INSERT INTO t VALUES (1, 10"),
            Piece::Xid(2),
        ],
        "applied 1 1:206\n",
        "differs at 246 code 1064 table - key ()\n",
    ),
    (
        &[Piece::Text("ALTER TABLE t")],
        "applied 1 1:206\n",
        "differs at 206 code 1064 table - key ()\n",
    ),
    // what the tables and definitions refuse
    (
        &[
            Piece::Begin,
            Piece::Text("INSERT INTO u VALUES (1, 10)"),
            Piece::Xid(2),
        ],
        "applied 1 1:206\n",
        "differs at 246 code 1146 table - key ()\n",
    ),
    (
        &[Piece::Text("CREATE TABLE t (id INT, v INT, PRIMARY KEY (id))")],
        "applied 1 1:206\n",
        "differs at 206 code 1050 table - key ()\n",
    ),
    // an error of the second item; the first is taken back with it
    (
        &[
            Piece::Begin,
            Piece::Text("INSERT INTO t VALUES (1, 10)"),
            Piece::Text("UPDATE t SET v = 9223372036854775807 + v"),
            Piece::Xid(2),
        ],
        "applied 1 1:206\n",
        "differs at 309 code 1690 table - key ()\n",
    ),
    // a variable goes with its item alone: the rows that are deleted are (1, 5) and (2, 7)
    (
        &[
            Piece::Begin,
            Piece::Event(
                14,
                b"\x01\x00\x00\x00x\x00\x02?\x00\x00\x00\x08\x00\x00\x00\x05\x00\x00\x00\x00\x00\x00\x00\x00",
            ),
            Piece::Text("INSERT INTO t VALUES (1, @x)"),
            Piece::Text("INSERT INTO t VALUES (2, COALESCE(@x, 7))"),
            Piece::Xid(2),
            Piece::Begin,
            Piece::Event(19, MAP),
            Piece::Event(
                32,
                b"\x01\x00\x00\x00\x00\x00\x01\x00\x02\x00\x02\x03\x00\x01\x00\x00\x00\x05\x00\x00\x00\x00\x02\x00\x00\x00\x07\x00\x00\x00",
            ),
            Piece::Xid(3),
        ],
        "applied 3 1:610\n",
        "",
    ),
    // an unknown type behind a whole log
    (
        &[
            Piece::Begin,
            Piece::Text("INSERT INTO t VALUES (1, 10)"),
            Piece::Xid(2),
            Piece::Event(
                34,
                b"\x00\x00\x00\x00\x00\x00\x00\x00\x00\x00\x00\x00\x00\x00\x00\x00\x00\x00\x00\x00\x00\x00\x00\x00\x00\x00\x00\x00\x00\x00\x00\x00\x00\x00\x00\x00\x00\x00\x00\x00\x00\x00",
            ),
        ],
        "applied 2 1:336\n",
        "log foreign at 336 type 34\n",
    ),
    // a statement that changes no row
    (
        &[Piece::Begin, Piece::Text("DELETE FROM t"), Piece::Xid(2)],
        "applied 2 1:321\n",
        "",
    ),
    // the name of the next log, and bytes behind it
    (
        &[Piece::Event(4, b"\x04\x00\x00\x00\x00\x00\x00\x00binlog.000007")],
        "applied 1 7:4\n",
        "",
    ),
    (
        &[
            Piece::Event(4, b"\x04\x00\x00\x00\x00\x00\x00\x00binlog.000007"),
            Piece::Xid(2),
        ],
        "applied 1 7:4\n",
        "log damaged at 246\n",
    ),
    // events of unknown types, and values that have another meaning
    (
        &[Piece::Event(
            34,
            b"\x00\x00\x00\x00\x00\x00\x00\x00\x00\x00\x00\x00\x00\x00\x00\x00\x00\x00\x00\x00\x00\x00\x00\x00\x00\x00\x00\x00\x00\x00\x00\x00\x00\x00\x00\x00\x00\x00\x00\x00\x00\x00",
        )],
        "applied 1 1:206\n",
        "log foreign at 206 type 34\n",
    ),
    (
        &[Piece::Begin, Piece::Event(3, b"")],
        "applied 1 1:206\n",
        "log foreign at 246 type 3\n",
    ),
    (
        &[Piece::Event(4, b"\x05\x00\x00\x00\x00\x00\x00\x00binlog.000007")],
        "applied 1 1:206\n",
        "log foreign at 206 type 4\n",
    ),
    (
        &[Piece::Event(4, b"\x04\x00\x00\x00\x00\x00\x00\x00binlog.00000x")],
        "applied 1 1:206\n",
        "log foreign at 206 type 4\n",
    ),
    (
        &[Piece::Event(
            2,
            b"\x07\x00\x00\x00\x00\x00\x00\x00\x02\x01\x00\x00\x00db\x00BEGIN",
        )],
        "applied 1 1:206\n",
        "log foreign at 206 type 2\n",
    ),
    (
        &[Piece::Event(
            2,
            b"\x07\x00\x00\x00\x00\x00\x00\x00\x02\x00\x00\x00\x00da\x00BEGIN",
        )],
        "applied 1 1:206\n",
        "log foreign at 206 type 2\n",
    ),
    (
        &[Piece::Event(
            2,
            b"\x07\x00\x00\x00\x00\x00\x00\x00\x02\x00\x00\x05\x00\x04\x01\x00\x01\x00db\x00BEGIN",
        )],
        "applied 1 1:206\n",
        "log foreign at 206 type 2\n",
    ),
    (
        &[
            Piece::Begin,
            Piece::Event(5, b"\x02\x00\x00\x00\x00\x00\x00\x00\x80"),
        ],
        "applied 1 1:206\n",
        "log foreign at 246 type 5\n",
    ),
    (
        &[
            Piece::Begin,
            Piece::Event(
                14,
                b"\x01\x00\x00\x00x\x00\x01?\x00\x00\x00\x00\x00\x00\x00\x00",
            ),
        ],
        "applied 1 1:206\n",
        "log foreign at 246 type 14\n",
    ),
    (
        &[
            Piece::Begin,
            Piece::Event(
                19,
                b"\x01\x00\x00\x00\x00\x00\x00\x00\x02db\x00\x01t\x00\x02\x03\x02\x00\x02",
            ),
        ],
        "applied 1 1:206\n",
        "log foreign at 246 type 19\n",
    ),
    // events outside their forms
    (
        &[Piece::Event(
            2,
            b"\x07\x00\x00\x00\x00\x00\x00\x00\x02\x00\x00\x05\x00\x03\x00\x00\x01\x00db\x00BEGIN",
        )],
        "applied 1 1:206\n",
        "log damaged at 206\n",
    ),
    (
        &[
            Piece::Begin,
            Piece::Event(5, b"\x03\x01\x00\x00\x00\x00\x00\x00\x00"),
        ],
        "applied 1 1:206\n",
        "log damaged at 246\n",
    ),
    (
        &[
            Piece::Begin,
            Piece::Event(16, b"\x02\x00\x00\x00\x00\x00\x00"),
        ],
        "applied 1 1:206\n",
        "log damaged at 246\n",
    ),
    (
        &[
            Piece::Begin,
            Piece::Event(19, MAP),
            Piece::Event(
                30,
                b"\x01\x00\x00\x00\x00\x00\x01\x00\x02\x00\x02\x03\x00\x01\x00\x00\x00\x0a\x00\x00",
            ),
            Piece::Xid(2),
        ],
        "applied 1 1:206\n",
        "log damaged at 285\n",
    ),
    // events that no group begins or goes on with
    (
        &[Piece::Xid(2)],
        "applied 1 1:206\n",
        "log damaged at 206\n",
    ),
    (
        &[Piece::Event(15, FIRST_BODY)],
        "applied 1 1:206\n",
        "log damaged at 206\n",
    ),
    (
        &[Piece::Begin, Piece::Xid(2)],
        "applied 1 1:206\n",
        "log damaged at 246\n",
    ),
    (
        &[
            Piece::Begin,
            Piece::Event(4, b"\x04\x00\x00\x00\x00\x00\x00\x00binlog.000007"),
        ],
        "applied 1 1:206\n",
        "log damaged at 246\n",
    ),
    (
        &[Piece::Begin, Piece::Event(19, MAP), Piece::Event(19, MAP)],
        "applied 1 1:206\n",
        "log damaged at 285\n",
    ),
    (
        &[
            Piece::Begin,
            Piece::Event(
                19,
                b"\x01\x00\x00\x00\x00\x00\x00\x00\x02db\x00\x01u\x00\x02\x03\x03\x00\x02",
            ),
            Piece::Event(
                30,
                b"\x02\x00\x00\x00\x00\x00\x01\x00\x02\x00\x02\x03\x00\x01\x00\x00\x00\x0a\x00\x00\x00",
            ),
            Piece::Xid(2),
        ],
        "applied 1 1:206\n",
        "log damaged at 285\n",
    ),
    // headers: too short a length, another next position, a length of a GiB of which nothing came
    (
        &[Piece::Raw(
            b"\x01\x00\x00\x00\x10\x09\x00\x00\x00\x12\x00\x00\x00\xe0\x00\x00\x00\x00\x00",
        )],
        "applied 1 1:206\n",
        "log damaged at 206\n",
    ),
    (
        &[Piece::Raw(
            b"\x01\x00\x00\x00\x10\x09\x00\x00\x00\x1b\x00\x00\x00\xea\x00\x00\x00\x00\x00\x02\x00\x00\x00\x00\x00\x00\x00",
        )],
        "applied 1 1:206\n",
        "log damaged at 206\n",
    ),
    (
        &[Piece::Raw(b"\x01\x00\x00\x00\x02\x09\x00\x00\x00\x00\x00\x00@\xce\x00\x00@\x00\x00")],
        "applied 1 1:206\n",
        "log damaged at 206\n",
    ),
    // a front of a group at the end
    (
        &[Piece::Begin, Piece::Text("INSERT INTO t VALUES (1, 10)")],
        "applied 1 1:206\n",
        "log damaged at 206\n",
    ),
    (
        &[
            Piece::Begin,
            Piece::Text("INSERT INTO t VALUES (1, 10)"),
            Piece::Xid(2),
            Piece::Raw(b"\x01"),
        ],
        "applied 2 1:336\n",
        "log damaged at 336\n",
    ),
];

/// A log with the table `t` and these pieces.
fn behind_table(alloc: Global, pieces: &[Piece<'_>]) -> Bytes {
    let mut log = begun(alloc);
    put_text(alloc, &mut log, T.as_bytes());
    put_all(alloc, &mut log, pieces);
    log
}

/// How the printing of a log ends whose replay ends so: tables are nothing to it.
fn printing_ends(replay: &str) -> &str {
    if replay.starts_with("differs") {
        ""
    } else {
        replay
    }
}

/// Whether a call ends so, whatever it writes.
fn ends<'a>(ending: &'a str) -> Outcome<'a> {
    Outcome {
        shown: Shown::Any,
        ending,
        reads: ANY,
        writes: ANY,
    }
}

/// Whether printing and replaying a log end so, and the replay writes this line.
fn is_read(alloc: Global, log: &[u8], line: &str, ending: &str) -> bool {
    let replayed = wanted(line.as_bytes(), ending);
    plays(alloc, &asked("replay", log), &replayed)
        && plays(alloc, &asked("print", log), &ends(printing_ends(ending)))
}

/// The same of a log with the table and these pieces.
pub fn is_read_behind(alloc: Global, pieces: &[Piece<'_>], line: &str, ending: &str) -> bool {
    let log = behind_table(alloc, pieces);
    is_read(alloc, log.as_slice(), line, ending)
}

/// How many logs are read so, from the first on.
fn held(alloc: Global) -> usize {
    for (i, (pieces, line, ending)) in CASES.iter().enumerate() {
        if !is_read_behind(alloc, *pieces, *line, *ending) {
            return i;
        }
    }
    CASES.len()
}

/// What is no log, or no more than its beginning.
static BEGINNINGS: [(&[u8], &str, &str); 6] = [
    (b"", "applied 0 1:4\n", "log damaged at 0\n"),
    (b"\xFEbi", "applied 0 1:4\n", "log damaged at 0\n"),
    (b"\xFEbim", "applied 0 1:4\n", "log damaged at 0\n"),
    (b"s1: SELECT 1 //", "applied 0 1:4\n", "log damaged at 0\n"),
    (b"\xFEbin", "applied 0 1:4\n", ""),
    (b"\xFEbin\x00", "applied 0 1:4\n", "log damaged at 4\n"),
];

/// How many beginnings are read so, from the first on.
fn held_beginnings(alloc: Global) -> usize {
    for (i, (log, line, ending)) in BEGINNINGS.iter().enumerate() {
        if !is_read(alloc, *log, *line, *ending) {
            return i;
        }
    }
    BEGINNINGS.len()
}

/// Whether a text of one byte more than a statement may have differs.
fn is_too_long(alloc: Global) -> bool {
    let mut blanks: Bytes = List::new(alloc);
    for _blank in 0..1_048_577u32 {
        let _ = blanks.push(b' ');
    }
    let mut log = behind_table(alloc, &[]);
    put_text(alloc, &mut log, blanks.as_slice());
    is_read(
        alloc,
        log.as_slice(),
        "applied 1 1:206\n",
        "differs at 206 code 1153 table - key ()\n",
    )
}

/// A table, a row by its text, and one deleted by its image.
const SCRIPT: &str =
    "s1: CREATE TABLE t (id INT, v INT, PRIMARY KEY (id)) //\ns1: INSERT INTO t VALUES (1, 10) //\ns1: SET binlog_format = ROW //\ns1: DELETE FROM t //\n";

/// What the replay of its log writes.
const REPLAYED: &str = "applied 3 1:482\n";

/// Fronts of its log, from this length to before that one, the line of their replay, and the line of the status that they end with. Its
/// groups end at 123, 206, 336 and 482; a front that ends elsewhere is damaged where its last group begins.
static FRONTS: [(usize, usize, &str, &str); 10] = [
    (0, 4, "applied 0 1:4\n", "log damaged at 0\n"),
    (4, 5, "applied 0 1:4\n", ""),
    (5, 123, "applied 0 1:4\n", "log damaged at 4\n"),
    (123, 124, "applied 0 1:4\n", ""),
    (124, 206, "applied 0 1:4\n", "log damaged at 123\n"),
    (206, 207, "applied 1 1:206\n", ""),
    (207, 336, "applied 1 1:206\n", "log damaged at 206\n"),
    (336, 337, "applied 2 1:336\n", ""),
    (337, 482, "applied 2 1:336\n", "log damaged at 336\n"),
    (482, 483, REPLAYED, ""),
];

/// Whether fronts of a log are read so.
fn are_read(alloc: Global, log: &[u8], front: &(usize, usize, &str, &str)) -> bool {
    let (from, to, line, ending) = front;
    for length in *from..*to {
        if !is_read(alloc, log.get(..length).unwrap_or(b""), *line, *ending) {
            return false;
        }
    }
    true
}

/// How many kinds of fronts are read so, from the first on.
fn held_fronts(alloc: Global, log: &[u8]) -> usize {
    for (i, front) in FRONTS.iter().enumerate() {
        if !are_read(alloc, log, front) {
            return i;
        }
    }
    FRONTS.len()
}

/// Whether a call of a word in pieces of 10 ends so, and a front of what is shown is written.
fn stops(
    alloc: Global,
    call: &Call<'_>,
    shown: &[u8],
    ending: &str,
    reads: (u64, u64),
    writes: (u64, u64),
) -> bool {
    let wanted = Outcome {
        shown: Shown::FrontOf(shown),
        ending,
        reads,
        writes,
    };
    plays(alloc, call, &wanted)
}

/// Whether each read that fails is the last.
fn stops_at_reads(alloc: Global, word: &str, log: &[u8], shown: &[u8], reads: u64) -> bool {
    for call in 1..=reads {
        let asked = asked_in_pieces(word, log, call, 0);
        if !stops(alloc, &asked, shown, "read fault\n", (call, call), ANY) {
            return false;
        }
    }
    true
}

/// Whether each write that fails is the last.
fn stops_at_writes(alloc: Global, word: &str, log: &[u8], shown: &[u8], writes: u64) -> bool {
    for call in 1..=writes {
        let asked = asked_in_pieces(word, log, 0, call);
        if !stops(alloc, &asked, shown, "write fault\n", ANY, (call, call)) {
            return false;
        }
    }
    true
}

/// Whether each read and each write that fails ends a word over a log, of which there are more than 48 and more than one.
fn stops_at_faults(alloc: Global, word: &str, log: &[u8], shown: &[u8]) -> bool {
    let (_, reads, writes) = written_by(alloc, &asked_in_pieces(word, log, 0, 0));
    reads > 48
        && writes > 1
        && stops_at_reads(alloc, word, log, shown, reads)
        && stops_at_writes(alloc, word, log, shown, writes)
}

/// Whether all faults under printing and replaying a log do so.
fn stops_at_all(alloc: Global, log: &[u8]) -> bool {
    let (shown, _, _) = written_by(alloc, &asked("print", log));
    stops_at_faults(alloc, "print", log, shown.as_slice())
        && stops_at_faults(alloc, "replay", log, REPLAYED.as_bytes())
}

/// Whether the replica is told, or none where none is to be.
fn is_told(identity: &Option<Identity>, replica: bool) -> bool {
    match identity {
        Some(identity) => replica && is_rep(identity),
        None => !replica,
    }
}

/// Whether a report tells who the replica is or nothing, these draws of it, and nothing of a source.
fn tells(report: &Report, replica: bool, draws: &[Draw]) -> bool {
    is_told(&report.rep_identity, replica)
        && report.rep_draws.as_slice() == draws
        && report.src_identity.is_none()
        && report.src_draws.is_empty()
}

/// Whether a replay tells who the replica is and its one draw, and a print tells nothing.
fn tells_of_words(alloc: Global, log: &[u8]) -> bool {
    let replay = report_of(alloc, &asked("replay", log));
    let print = report_of(alloc, &asked("print", log));
    tells(&replay, true, &[draw(REPLICA_MOMENT, 0)]) && tells(&print, false, &[])
}

#[test]
fn logs_of_another_server(rt: HostRuntime) {
    let alloc = rt.alloc();
    expect_all(&rt, "logs of another server", held(alloc), CASES.len());
    expect_all(&rt, "beginnings", held_beginnings(alloc), BEGINNINGS.len());
    assert!(rt; is_too_long(alloc));
}

#[test]
fn a_log_of_its_own(rt: HostRuntime) {
    let alloc = rt.alloc();
    let log = log_of(alloc, SCRIPT.as_bytes());
    assert!(rt; log.len() == 482);
    expect_all(
        &rt,
        "fronts",
        held_fronts(alloc, log.as_slice()),
        FRONTS.len(),
    );
    assert!(rt; stops_at_all(alloc, log.as_slice()));
    assert!(rt; tells_of_words(alloc, log.as_slice()));
}
