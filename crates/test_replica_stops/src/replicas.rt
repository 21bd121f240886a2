//! A replica on its disk: what it carries out stays, and a later call, a RESTART or a replay goes on behind it.

use crate::events::{put_end, put_removal, put_text, put_transaction, put_unknown};
use crate::turns::{
    Both, Turn, behind, behind_all, both_show, file, no_disks, replays, runs, shows,
};
use answer_text::Mark;
use crash_images::{disk_left, no_files};
use disk_model::{Call, MemDisk};
use program_calls::{
    Ended, SHOP, asked, bytes, comes_to, dump_at, dumped, dumped_replica, files_of, over,
};
use std::alloc::Global;
use val_types::{Bytes, List};

// ---- the bytes of its files

static ROW_APPLIED: &str = "s1: CREATE TABLE t (id INT, v INT, PRIMARY KEY (id)) //
s1: INSERT INTO t VALUES (1, 10) //
replica: FETCH 1000 //
replica: APPLY 10 //
replica: SELECT * FROM t //
";

static ROW_APPLIED_LINES: &str =
    "1 ok 0\n2 ok 1\n3 fetched 332\n4 applied 2 1:336\n5 row 1, 10\n5 rows 1\n";

/// The journal behind both groups: an open gate and a length; the definition that was carried out as number 1 up to position 206 of log
/// 1, with its 48 bytes of text; a gate and a length; the transaction carried out as number 2 up to 336, one change, a row put into `t`,
/// two numbers; a closed gate.
static BOTH_CARRIED_OUT: &[u8] =
    b"\x01\x45\x00\x00\x00\x12\x01\x00\x00\x00\x00\x00\x00\x00\x01\x00\x00\x00\xce\x00\x00\x00\x30\x00\x00\x00CREATE TABLE t (id INT, v INT, PRIMARY KEY (id))\x01\x2b\x00\x00\x00\x11\x02\x00\x00\x00\x00\x00\x00\x00\x01\x00\x00\x00\x50\x01\x00\x00\x01\x00\x00\x00\x01\x01t\x02\x01\x01\x00\x00\x00\x00\x00\x00\x00\x01\x0a\x00\x00\x00\x00\x00\x00\x00\x00";

/// What is shown of a table with nothing, with one row, and with two.
static TABLE: &str =
    "create CREATE TABLE `t` (`id` INT NOT NULL, `v` INT NULL, PRIMARY KEY (`id`))\n";

static ONE_ROW: &str =
    "create CREATE TABLE `t` (`id` INT NOT NULL, `v` INT NULL, PRIMARY KEY (`id`))\nrow 1, 10\n";

static TWO_ROWS: &str =
    "create CREATE TABLE `t` (`id` INT NOT NULL, `v` INT NULL, PRIMARY KEY (`id`))\nrow 1, 10\nrow 2, 20\n";

/// A log without its first four bytes, as it is fetched.
fn behind_magic(log: &[u8]) -> &[u8] {
    &log[log.len().min(4)..]
}

/// Whether the replica's files have these bytes behind a first call, and what it has fetched is gone behind the next opening.
fn has_these_files(alloc: Global) -> bool {
    let Some(first) = behind_all(alloc, &[runs(ROW_APPLIED, ROW_APPLIED_LINES)]) else {
        return false;
    };
    let Some(second) = behind(alloc, &first, &runs("", "")) else {
        return false;
    };
    file(&first.replica, 2) == BOTH_CARRIED_OUT
        && file(&first.replica, 8) == behind_magic(file(&first.source, 8))
        && file(&second.replica, 2) == BOTH_CARRIED_OUT
        && file(&second.replica, 8).is_empty()
        && both_show(alloc, &second, ONE_ROW)
}

#[test]
fn a_replica_keeps_what_it_carries_out(rt: HostRuntime) {
    assert!(&rt; has_these_files(rt.alloc()));
}

/// Whether the four calls before a moment are a record's write and its sync, its gate's write and its sync.
fn is_commit(calls: &[Call], moment: u64) -> bool {
    let end = moment.min(calls.len() as u64) as usize;
    match &calls[..end] {
        [.., a, b, c, d] => is_write(a) && is_sync(b) && is_write(c) && is_sync(d),
        _ => false,
    }
}

fn is_write(call: &Call) -> bool {
    match call {
        Call::Write { file, .. } => *file == 2,
        _ => false,
    }
}

fn is_sync(call: &Call) -> bool {
    match call {
        Call::Sync { file, .. } => *file == 2,
        _ => false,
    }
}

/// Whether a mark has these numbers: of its command, of transactions committed and applied.
fn tells(mark: &Mark, command: u32, committed: u64, applied: u64) -> bool {
    mark.command == command && mark.committed == committed && mark.applied == applied
}

/// Whether the marks are those of two commits of the source and of two groups carried out, each of which is named behind its calls of
/// the replica's disk.
fn names_each_group(ended: &Ended, calls: &[Call]) -> bool {
    match ended.report.marks.as_slice() {
        [first, second, third, fourth] => {
            tells(first, 1, 1, 0)
                && tells(second, 2, 2, 0)
                && tells(third, 4, 2, 1)
                && tells(fourth, 4, 2, 2)
                && third.src_calls == fourth.src_calls
                && is_commit(calls, third.rep_calls)
                && is_commit(calls, fourth.rep_calls)
                && fourth.rep_calls == calls.len() as u64
        }
        _ => false,
    }
}

#[test]
fn a_mark_names_each_group(rt: HostRuntime) {
    let alloc = rt.alloc();
    let mut disk = MemDisk::new(alloc);
    let ended = over(
        alloc,
        &asked("run", ROW_APPLIED.as_bytes()),
        &mut MemDisk::new(alloc),
        &mut disk,
    );
    assert!(&rt; ended.is_some_and(|ended| names_each_group(&ended, disk.history())));
}

// ---- a call goes on where the one before it ended

/// Of two groups that were fetched on the first day one is carried out. What else was fetched is gone on the second, and is fetched again.
static DAYS: [(&str, &str); 3] = [
    (
        "s1: CREATE TABLE t (id INT, v INT, PRIMARY KEY (id)) //
s1: INSERT INTO t VALUES (1, 10) //
replica: FETCH 1000 //
replica: APPLY 1 //
",
        "1 ok 0\n2 ok 1\n3 fetched 332\n4 applied 1 1:206\n",
    ),
    (
        "s1: INSERT INTO t VALUES (2, 20) //
replica: SELECT * FROM t //
replica: FETCH 1000 //
replica: APPLY 1 //
replica: SELECT * FROM t //
replica: APPLY 10 //
replica: SELECT * FROM t //
",
        "1 ok 1\n2 rows 0\n3 fetched 260\n4 applied 1 1:336\n5 row 1, 10\n5 rows 1\n6 applied 1 1:466\n7 row 1, 10\n7 row 2, 20\n7 rows 2\n",
    ),
    (
        "replica: FETCH 1000 //
replica: APPLY 10 //
replica: SELECT * FROM t //
",
        "1 fetched 0\n2 applied 0 1:466\n3 row 1, 10\n3 row 2, 20\n3 rows 2\n",
    ),
];

/// Whether each day comes to its lines, and both dumps then show the same.
fn goes_on(alloc: Global) -> bool {
    let mut files = no_disks(alloc);
    for (script, lines) in DAYS.iter() {
        match behind(alloc, &files, &runs(*script, *lines)) {
            Some(left) => files = left,
            None => return false,
        }
    }
    both_show(alloc, &files, TWO_ROWS)
}

#[test]
fn a_later_call_of_a_replica_goes_on(rt: HostRuntime) {
    assert!(&rt; goes_on(rt.alloc()));
}

static RESTARTED: &str = "s1: CREATE TABLE t (id INT, v INT, PRIMARY KEY (id)) //
s1: INSERT INTO t VALUES (1, 10) //
replica: FETCH 1000 //
replica: APPLY 1 //
replica: RESTART //
replica: SELECT * FROM t //
replica: APPLY 10 //
replica: FETCH 1000 //
replica: APPLY 10 //
replica: RESTART //
replica: SELECT * FROM t //
source: RESTART //
s1: INSERT INTO t VALUES (2, 20) //
replica: FETCH 1000 //
replica: APPLY 10 //
replica: SELECT * FROM t //
";

static RESTARTED_LINES: &str = "1 ok 0
2 ok 1
3 fetched 332
4 applied 1 1:206
5 ok 0
6 rows 0
7 applied 0 1:206
8 fetched 130
9 applied 1 1:336
10 ok 0
11 row 1, 10
11 rows 1
12 ok 0
13 ok 1
14 fetched 130
15 applied 1 1:466
16 row 1, 10
16 row 2, 20
16 rows 2
";

/// What was fetched is gone behind a RESTART, and what was carried out stays.
#[test]
fn a_replica_restarts(rt: HostRuntime) {
    let alloc = rt.alloc();
    let files = behind_all(alloc, &[runs(RESTARTED, RESTARTED_LINES)]);
    assert!(&rt; files.is_some_and(|files| both_show(alloc, &files, TWO_ROWS)));
}

// ---- a log that is replayed

/// The first log of a source that has carried out a script.
pub fn log_of(alloc: Global, script: &str) -> Bytes {
    let mut disk = MemDisk::new(alloc);
    let _ = over(
        alloc,
        &asked("run", script.as_bytes()),
        &mut disk,
        &mut MemDisk::new(alloc),
    );
    bytes(alloc, disk.contents(8))
}

static TABLE_MADE: &str = "s1: CREATE TABLE t (id INT, v INT, PRIMARY KEY (id)) //
";

static ROW_MADE: &str = "s1: CREATE TABLE t (id INT, v INT, PRIMARY KEY (id)) //
s1: INSERT INTO t VALUES (1, 10) //
";

/// Whether these calls, from empty disks on, end so, and the replica's dump then shows this.
fn all_show(alloc: Global, turns: &[Turn<'_>], text: &str) -> bool {
    match behind_all(alloc, turns) {
        Some(files) => shows(alloc, files.replica.as_slice(), text),
        None => false,
    }
}

/// A log that is cut, one that is whole, and one with an event of a type that is not known behind it.
#[test]
fn a_log_is_replayed_to_its_end(rt: HostRuntime) {
    let alloc = rt.alloc();
    let log = log_of(alloc, ROW_MADE);
    assert_eq!(&rt; log.len(), 336);
    let cut = replays(
        &log.as_slice()[..330.min(log.len())],
        "applied 1 1:206\n",
        "log damaged at 206\n",
    );
    assert!(&rt; all_show(alloc, &[cut], TABLE));
    let whole = replays(log.as_slice(), "applied 2 1:336\n", "");
    assert!(&rt; all_show(alloc, &[whole], ONE_ROW));
    let mut longer = bytes(alloc, log.as_slice());
    put_unknown(&mut longer);
    let known = replays(
        longer.as_slice(),
        "applied 2 1:336\n",
        "log foreign at 336 type 34\n",
    );
    assert!(&rt; all_show(alloc, &[known], ONE_ROW));
}

/// A replay goes on behind what the ones before it carried out; a log that is shorter than that is damaged at its end.
#[test]
fn a_replay_goes_on(rt: HostRuntime) {
    let alloc = rt.alloc();
    let log = log_of(alloc, ROW_MADE);
    let turns = [
        replays(
            &log.as_slice()[..330.min(log.len())],
            "applied 1 1:206\n",
            "log damaged at 206\n",
        ),
        replays(log.as_slice(), "applied 1 1:336\n", ""),
        replays(log.as_slice(), "applied 0 1:336\n", ""),
        replays(
            &log.as_slice()[..330.min(log.len())],
            "applied 0 1:336\n",
            "log damaged at 330\n",
        ),
        replays(b"", "applied 0 1:336\n", "log damaged at 0\n"),
    ];
    assert!(&rt; all_show(alloc, &turns, ONE_ROW));
}

/// A replica that replayed the front of a log fetches the rest of it from the source that wrote it.
#[test]
fn a_fetch_goes_on_behind_a_replay(rt: HostRuntime) {
    let alloc = rt.alloc();
    let log = log_of(alloc, TABLE_MADE);
    let turns = [
        replays(log.as_slice(), "applied 1 1:206\n", ""),
        runs(
            "s1: CREATE TABLE t (id INT, v INT, PRIMARY KEY (id)) //
s1: INSERT INTO t VALUES (1, 10) //
replica: FETCH 1000 //
replica: APPLY 10 //
",
            "1 ok 0\n2 ok 1\n3 fetched 130\n4 applied 1 1:336\n",
        ),
    ];
    let files = behind_all(alloc, &turns);
    assert!(&rt; files.is_some_and(|files| both_show(alloc, &files, ONE_ROW)));
}

/// A group that differs leaves nothing, and the replica can go on with another log.
#[test]
fn a_row_that_is_not_there_differs(rt: HostRuntime) {
    let alloc = rt.alloc();
    let mut log = log_of(alloc, TABLE_MADE);
    let rest = log_of(alloc, ROW_MADE);
    put_removal(alloc, &mut log);
    let differs = replays(
        log.as_slice(),
        "applied 1 1:206\n",
        "differs at 285 code 1032 table t key (1)\n",
    );
    assert!(&rt; all_show(alloc, &[differs], TABLE));
    let again = replays(
        log.as_slice(),
        "applied 0 1:206\n",
        "differs at 285 code 1032 table t key (1)\n",
    );
    let other = replays(rest.as_slice(), "applied 1 1:336\n", "");
    assert!(&rt; all_show(alloc, &[differs, again, other], ONE_ROW));
}

/// A transaction that changes no row is carried out once like any other: 40, 48 and 27 bytes behind 206.
#[test]
fn a_group_without_changes_is_kept(rt: HostRuntime) {
    let alloc = rt.alloc();
    let mut log = log_of(alloc, TABLE_MADE);
    put_transaction(alloc, &mut log, "DELETE FROM t");
    let turns = [
        replays(log.as_slice(), "applied 2 1:321\n", ""),
        replays(log.as_slice(), "applied 0 1:321\n", ""),
    ];
    assert!(&rt; all_show(alloc, &turns, TABLE));
}

/// The end of a log moves the place to the next one, which the next replay takes: 40 bytes behind 336, and then 40, 63 and 27 behind 123.
/// In the journal that is a record of 17 bytes with its gate and length.
#[test]
fn the_end_of_a_log_is_kept(rt: HostRuntime) {
    let alloc = rt.alloc();
    let mut first = log_of(alloc, ROW_MADE);
    put_end(&mut first);
    let mut second = log_of(alloc, "");
    put_transaction(alloc, &mut second, "INSERT INTO t VALUES (2, 20)");
    let ended = behind_all(alloc, &[replays(first.as_slice(), "applied 2 2:4\n", "")]);
    let size = BOTH_CARRIED_OUT.len() + 22;
    assert!(&rt; ended.is_some_and(|files| file(&files.replica, 2).len() == size));
    let turns = [
        replays(first.as_slice(), "applied 2 2:4\n", ""),
        replays(second.as_slice(), "applied 1 2:253\n", ""),
        replays(second.as_slice(), "applied 0 2:253\n", ""),
    ];
    assert!(&rt; all_show(alloc, &turns, TWO_ROWS));
}

/// A text that defines something is carried out once: 35 and 47 bytes behind 206.
#[test]
fn a_definition_is_kept(rt: HostRuntime) {
    let alloc = rt.alloc();
    let mut log = log_of(alloc, TABLE_MADE);
    put_text(
        alloc,
        &mut log,
        "CREATE TABLE u (id INT, v INT, PRIMARY KEY (v))",
    );
    let turns = [
        replays(
            &log.as_slice()[..206.min(log.len())],
            "applied 1 1:206\n",
            "",
        ),
        replays(log.as_slice(), "applied 1 1:288\n", ""),
        replays(log.as_slice(), "applied 0 1:288\n", ""),
    ];
    assert!(&rt;
        all_show(
            alloc,
            &turns,
            "create CREATE TABLE `t` (`id` INT NOT NULL, `v` INT NULL, PRIMARY KEY (`id`))\ncreate CREATE TABLE `u` (`id` INT NULL, `v` INT NOT NULL, PRIMARY KEY (`v`))\n"
        )
    );
}

// ---- the shop

/// The answers of the shop's commands.
static SHOP_LINES: &str = "1 ok 0
2 ok 0
3 ok 0
4 ok 0
5 ok 0
6 ok 0
7 ok 0
8 ok 0
9 ok 2
10 ok 1
11 ok 0
12 ok 1
13 ok 1
14 ok 1
15 ok 0
16 ok 1
17 ok 1
18 ok 0
19 ok 1
20 ok 0
21 ok 1
22 ok 0
23 ok 1
";

/// The shop, and then what its replica fetches and carries out.
pub fn shop_with(alloc: Global, behind: &str) -> Bytes {
    let mut script = bytes(alloc, SHOP.as_bytes());
    let _ = script.extend_from_slice(behind.as_bytes());
    script
}

/// Lines behind those of the shop.
fn lines_with(alloc: Global, behind: Option<String>) -> Option<String> {
    let mut lines = String::from_str(alloc, SHOP_LINES).ok()?;
    lines.push_str(behind?.as_str()).ok()?;
    Some(lines)
}

/// The lines of one FETCH of a whole log of this length, and of one APPLY of all its groups.
fn fetched_and_applied(alloc: Global, length: usize) -> Option<String> {
    let fetched = length.saturating_sub(4);
    format!(in alloc; "24 fetched {fetched}\n25 applied 17 1:{length}\n").ok()
}

/// The files that the shop leaves where its replica has carried out all; none where the lines are others.
fn shop_followed(alloc: Global) -> Option<Both> {
    let script = shop_with(alloc, "replica: FETCH 100000 //\nreplica: APPLY 100 //\n");
    let length = log_of(alloc, SHOP).len();
    let lines = lines_with(alloc, fetched_and_applied(alloc, length))?;
    let turn = Turn {
        words: "run",
        input: script.as_slice(),
        written: lines.as_str(),
        line: "",
    };
    behind(alloc, &no_disks(alloc), &turn)
}

/// Whether the dump of a replica's files shows the shop behind so many transactions.
pub fn shows_shop(alloc: Global, files: &[Bytes], number: u64) -> bool {
    match dumped_replica(alloc, files) {
        Some(text) => text.as_slice() == dump_at(alloc, number).as_slice(),
        None => false,
    }
}

/// Whether both dumps show the whole shop.
fn both_show_shop(alloc: Global, files: &Both) -> bool {
    match dumped(alloc, files.source.as_slice()) {
        Some(text) => {
            text.as_slice() == dump_at(alloc, 17).as_slice()
                && shows_shop(alloc, files.replica.as_slice(), 17)
        }
        None => false,
    }
}

#[test]
fn a_replica_follows_the_shop(rt: HostRuntime) {
    let alloc = rt.alloc();
    let files = shop_followed(alloc);
    assert!(&rt; files.is_some_and(|files| both_show_shop(alloc, &files)));
}

/// How a replay ended, and the files that it left.
#[derive(Drop)]
struct Outcome {
    ended: Ended,
    files: List<Bytes>,
}

/// A replay of a log over these files.
fn replayed(alloc: Global, before: &[Bytes], log: &[u8]) -> Option<Outcome> {
    let mut disk = disk_left(alloc, before)?;
    let ended = over(
        alloc,
        &asked("replay", log),
        &mut MemDisk::new(alloc),
        &mut disk,
    )?;
    let files = files_of(alloc, &disk);
    Some(Outcome { ended, files })
}

/// The number of transactions behind which the dump of a replica's files shows the shop.
fn number_of(alloc: Global, files: &[Bytes]) -> Option<u64> {
    let text = dumped_replica(alloc, files)?;
    for number in 0..18 {
        if text.as_slice() == dump_at(alloc, number).as_slice() {
            return Some(number);
        }
    }
    None
}

/// Whether a call that replayed all but so many of the shop's groups ended well, at the end of a log of this length.
fn has_replayed(alloc: Global, ended: &Ended, before: u64, length: usize) -> bool {
    let left = 17_u64.saturating_sub(before);
    match format!(in alloc; "applied {left} 1:{length}\n") {
        Ok(line) => {
            ended.line.is_empty() && ended.written.as_slice() == line.as_str().as_bytes()
        }
        Err(_) => false,
    }
}

/// Whether the shop's log comes to the whole shop over the files that a replay of its front left, each group carried out once.
fn goes_on_with(alloc: Global, files: &[Bytes], log: &[u8]) -> bool {
    let Some(number) = number_of(alloc, files) else {
        return false;
    };
    match replayed(alloc, files, log) {
        Some(second) => {
            has_replayed(alloc, &second.ended, number, log.len())
                && shows_shop(alloc, second.files.as_slice(), 17)
        }
        None => false,
    }
}

/// Whether it does so behind a replay up to some byte.
fn in_two_parts(alloc: Global, log: &[u8], cut: usize) -> bool {
    let none = no_files(alloc, 0);
    match replayed(alloc, none.as_slice(), &log[..cut.min(log.len())]) {
        Some(first) => goes_on_with(alloc, first.files.as_slice(), log),
        None => false,
    }
}

/// The shop's log in one part, and cut at every 61st byte.
#[test]
fn the_log_of_the_shop_is_replayed(rt: HostRuntime) {
    let alloc = rt.alloc();
    let log = log_of(alloc, SHOP);
    for part in 0..200 {
        let cut = part * 61;
        if cut <= log.len() {
            assert!(&rt; in_two_parts(alloc, log.as_slice(), cut), "cut at {cut}");
        }
    }
    assert!(&rt; in_two_parts(alloc, log.as_slice(), log.len()));
}

// ---- files that stand for nothing

/// The same journal with another byte at a place.
fn harmed(alloc: Global, at: usize, byte: u8) -> Bytes {
    let mut journal = bytes(alloc, BOTH_CARRIED_OUT);
    if at < journal.len() {
        journal.set(at, byte);
    }
    journal
}

/// All bytes but the last.
fn without_last(bytes: &[u8]) -> &[u8] {
    match bytes {
        [front @ .., _] => front,
        [] => bytes,
    }
}

/// Whether each word that opens the replica finds the place of damage in a journal, and the file is left as it is.
fn is_damaged(alloc: Global, journal: &[u8], line: &str) -> bool {
    for words in ["run", "replay", "dump replica"] {
        let mut files = no_files(alloc, 2);
        let _ = files.push(bytes(alloc, journal));
        let Some(mut disk) = disk_left(alloc, files.as_slice()) else {
            return false;
        };
        let ended = over(
            alloc,
            &asked(words, b""),
            &mut MemDisk::new(alloc),
            &mut disk,
        );
        if !comes_to(&ended, "", line) || disk.contents(2) != journal {
            return false;
        }
    }
    true
}

/// Byte 0 is the first gate, 1 the first record's length, 5 its kind, 6 its number; 74 the second gate, 79 the second record's kind, 80 its
/// number, 96 how many changes it has, 102 the name of the table.
static HARMED: [(usize, u8, &str); 8] = [
    (1, 0xff, "replica damaged file 2 at 0\n"),
    (5, 2, "replica damaged file 2 at 0\n"),
    (6, 2, "replica damaged file 2 at 0\n"),
    (79, 1, "replica damaged file 2 at 74\n"),
    (80, 1, "replica damaged file 2 at 74\n"),
    (80, 3, "replica damaged file 2 at 74\n"),
    (96, 2, "replica damaged file 2 at 74\n"),
    (102, b'u', "replica damaged file 2 at 74\n"),
];

#[test]
fn a_damaged_replica_is_named(rt: HostRuntime) {
    let alloc = rt.alloc();
    assert!(&rt;
        is_damaged(
            alloc,
            b"\x01\xff\x00\x00\x00\x00",
            "replica damaged file 2 at 0\n"
        )
    );
    for (at, byte, line) in HARMED.iter() {
        let journal = harmed(alloc, *at, *byte);
        assert!(&rt; is_damaged(alloc, journal.as_slice(), *line), "byte {at}");
    }
    let size = BOTH_CARRIED_OUT.len() - 1;
    assert!(&rt;
        is_damaged(
            alloc,
            &BOTH_CARRIED_OUT[..size],
            "replica damaged file 2 at 74\n"
        )
    );
}
