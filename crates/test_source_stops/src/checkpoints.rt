//! CHECKPOINT of a source and of a replica: what their files hold behind it, a stop inside and behind each of its calls of the disk and of
//! the openings that follow, open transactions, and many checkpoints in a row.
ghost use Rattle.std.specs.Prelude.{Some, IfSome};
ghost use Rattle.disk_model.specs.Files.{story_of};
ghost use Rattle.disk_model.specs.Moments.{IsSettled};

use crash_images::{CRASHES, disk_left, files_left, no_files};
use disk_model::{Disk, FuseDisk, MemDisk};
use program_calls::{
    Ended, FILES, asked, bytes, comes_to, dumped, dumped_replica, files_of, named, named_applied,
    over,
};
use std::alloc::Global;
use val_types::{Bytes, List};

// ---- the bytes of files

/// The snapshot of a source that has nothing but its log: open, 29 bytes; a source, generation 1, number 0; one log that ends at 123; no
/// object.
static NEW_SNAPSHOT: [u8; 38] = [
    1, 29, 0, 0, 0, 0, 0, 0, 0, 1, 1, 0, 0, 0, 0, 0, 0, 0, 0, 0, 0, 0, 0, 0, 0, 0, 1, 0, 0, 0, 123,
    0, 0, 0, 0, 0, 0, 0,
];

/// That of a replica that has carried out nothing: open, 29 bytes; a replica, generation 1, number 0; the place 1:4; no object.
static NEW_REPLICA: [u8; 38] = [
    1, 29, 0, 0, 0, 0, 0, 0, 0, 2, 1, 0, 0, 0, 0, 0, 0, 0, 0, 0, 0, 0, 0, 0, 0, 0, 1, 0, 0, 0, 4,
    0, 0, 0, 0, 0, 0, 0,
];

#[test]
fn a_new_source_writes_its_snapshot(rt: HostRuntime) {
    let alloc = rt.alloc();
    let mut disk = MemDisk::new(alloc);
    let mut other = MemDisk::new(alloc);
    let ended = over(
        alloc,
        &asked("run", b"source: CHECKPOINT //"),
        &mut disk,
        &mut other,
    );
    assert!(&rt; comes_to(&ended, "1 ok 0\n", ""));
    assert!(&rt; disk.contents(1) == NEW_SNAPSHOT.as_slice());
    assert!(&rt; disk.contents(3) == [0u8].as_slice());
    assert_eq!(&rt; disk.contents(0).len(), 0);
    assert_eq!(&rt; disk.contents(8).len(), 123);
}

#[test]
fn a_new_replica_writes_its_snapshot(rt: HostRuntime) {
    let alloc = rt.alloc();
    let mut source = MemDisk::new(alloc);
    let mut disk = MemDisk::new(alloc);
    let ended = over(
        alloc,
        &asked("run", b"replica: CHECKPOINT //"),
        &mut source,
        &mut disk,
    );
    assert!(&rt; comes_to(&ended, "1 ok 0\n", ""));
    assert!(&rt; disk.contents(1) == NEW_REPLICA.as_slice());
    assert!(&rt; disk.contents(3) == [0u8].as_slice());
    assert_eq!(&rt; source.contents(1).len(), 0);
}

/// A commit behind a checkpoint goes into the other journal.
#[test]
fn a_later_commit_goes_on_in_the_other_journal(rt: HostRuntime) {
    let alloc = rt.alloc();
    let mut disk = MemDisk::new(alloc);
    let script = b"source: CHECKPOINT //\ns1: CREATE TABLE t (id INT, PRIMARY KEY (id)) //";
    let ended = over(
        alloc,
        &asked("run", script),
        &mut disk,
        &mut MemDisk::new(alloc),
    );
    assert!(&rt; comes_to(&ended, "1 ok 0\n2 ok 0\n", ""));
    assert_eq!(&rt; disk.contents(2).len(), 27);
    assert!(&rt; disk.contents(3).first() == Some(&1));
}

// ---- a stop at each call

/// A source with a checkpoint behind each second of its commits.
const COMMITS: &str = "s1: CREATE TABLE t (id INT, PRIMARY KEY (id)) //
s1: INSERT INTO t VALUES (1) //
source: CHECKPOINT //
s1: INSERT INTO t VALUES (2) //
s1: INSERT INTO t VALUES (3) //
source: CHECKPOINT //
source: CHECKPOINT //
s1: INSERT INTO t VALUES (4) //
";

static COMMITS_LINES: &str = "1 ok 0\n2 ok 1\n3 ok 0\n4 ok 1\n5 ok 1\n6 ok 0\n7 ok 0\n8 ok 1\n";

/// A replica with checkpoints between what it carries out.
const CARRIES: &str = "s1: CREATE TABLE t (id INT, PRIMARY KEY (id)) //
s1: INSERT INTO t VALUES (1) //
s1: INSERT INTO t VALUES (2) //
s1: INSERT INTO t VALUES (3) //
replica: FETCH 100000 //
replica: APPLY 2 //
replica: CHECKPOINT //
replica: APPLY 1 //
replica: CHECKPOINT //
replica: CHECKPOINT //
replica: APPLY 9 //
";

/// The rows of the table behind so many transactions: the first makes it, each other puts in a row.
static ROWS: [&str; 4] = ["row 1\n", "row 2\n", "row 3\n", "row 4\n"];

/// The dump behind so many transactions.
fn dump_at(alloc: Global, number: u64) -> Bytes {
    let mut text = List::new(alloc);
    if number > 0 {
        let created = b"create CREATE TABLE `t` (`id` INT NOT NULL, PRIMARY KEY (`id`))\n";
        let _ = text.extend_from_slice(created);
    }
    for (i, row) in ROWS.iter().enumerate() {
        if (i as u64).saturating_add(2) <= number {
            let _ = text.extend_from_slice(row.as_bytes());
        }
    }
    text
}

/// Which of the disks stops.
#[derive(Clone, Copy)]
enum Side {
    Source,
    Replica,
}

/// What the dump of one node's files shows.
fn shown(alloc: Global, side: Side, files: &[Bytes]) -> Option<Bytes> {
    match side {
        Side::Source => dumped(alloc, files),
        Side::Replica => dumped_replica(alloc, files),
    }
}

/// Whether files hold the table behind so many transactions, or behind one more.
fn holds(alloc: Global, side: Side, files: &[Bytes], least: u64) -> bool {
    match shown(alloc, side, files) {
        Some(text) => {
            text.as_slice() == dump_at(alloc, least).as_slice()
                || text.as_slice() == dump_at(alloc, least.saturating_add(1)).as_slice()
        }
        None => false,
    }
}

/// A script over a disk that may stop, with the other node's disk whole.
fn played(alloc: Global, side: Side, script: &str, disk: &mut FuseDisk) -> Option<Ended>
    requires { IsSettled (Some (story_of disk.old.inner)) }
{
    let asked = asked("run", script.as_bytes());
    match side {
        Side::Source => over(alloc, &asked, disk, &mut MemDisk::new(alloc)),
        Side::Replica => over(alloc, &asked, &mut MemDisk::new(alloc), disk),
    }
}

/// How many transactions the marks of a call name.
fn named_of(side: Side, ended: &Ended) -> u64 {
    match side {
        Side::Source => named(ended.report.marks.as_slice()),
        Side::Replica => named_applied(ended.report.marks.as_slice()),
    }
}

/// Whether each call of an opening over these files may be its last, and what that leaves shows the same.
fn opens_well(alloc: Global, side: Side, files: &[Bytes]) -> bool {
    let Some(text) = shown(alloc, side, files) else {
        return false;
    };
    for k in 1..24 {
        let Some(disk) = disk_left(alloc, files) else {
            return false;
        };
        let mut disk = FuseDisk::new(disk, k);
        let Some(ended) = played(alloc, side, "", &mut disk) else {
            return false;
        };
        for crash in CRASHES.iter() {
            let left = files_left(alloc, files, disk.inner().history(), *crash);
            match shown(alloc, side, left.as_slice()) {
                Some(again) if again.as_slice() == text.as_slice() => {}
                _ => return false,
            }
        }
        if ended.line.is_empty() {
            return k > 1 && disk.calls() < k;
        }
    }
    false
}

/// A script that keeps something at one of the nodes, the line with which it stops where that node's disk fails, and how many calls of the
/// disk its commits and checkpoints take.
struct Kept {
    side: Side,
    script: &'static str,
    line: &'static str,
    calls: u64,
}

/// Five commits of six calls; checkpoints of ten calls over a new file, twice, and of eleven over one with an older snapshot: a sync and
/// one or two looks, and four pieces with their syncs.
static AT_SOURCE: Kept = Kept {
    side: Side::Source,
    script: COMMITS,
    line: "source disk fault\n",
    calls: 61,
};

/// Four groups of four calls, and the same three checkpoints.
static AT_REPLICA: Kept = Kept {
    side: Side::Replica,
    script: CARRIES,
    line: "replica disk fault\n",
    calls: 47,
};

/// Whether a call whose k-th call of the disk fails stops there, and each crash leaves a front of the transactions that holds what the
/// marks name, also where the opening of it stops.
fn stops_well(alloc: Global, kept: &Kept, k: u64) -> bool {
    let mut disk = FuseDisk::new(MemDisk::new(alloc), k);
    let Some(ended) = played(alloc, kept.side, kept.script, &mut disk) else {
        return false;
    };
    if ended.line.as_slice() != kept.line.as_bytes() || disk.calls() != k {
        return false;
    }
    let least = named_of(kept.side, &ended);
    let none = no_files(alloc, FILES);
    for crash in CRASHES.iter() {
        let files = files_left(alloc, none.as_slice(), disk.inner().history(), *crash);
        if !holds(alloc, kept.side, files.as_slice(), least)
            || !opens_well(alloc, kept.side, files.as_slice())
        {
            return false;
        }
    }
    true
}

/// How many calls of the disk a script takes that ends well.
fn calls_of(alloc: Global, kept: &Kept) -> Option<u64> {
    let mut disk = FuseDisk::new(MemDisk::new(alloc), 0);
    let ended = played(alloc, kept.side, kept.script, &mut disk)?;
    if !ended.line.is_empty() {
        return None;
    }
    Some(disk.calls())
}

/// The first call from one on that does not stop well, up to another one; that one where each does.
fn first_bad(alloc: Global, kept: &Kept, from: u64, to: u64) -> u64 {
    for k in from..to {
        if !stops_well(alloc, kept, k) {
            return k;
        }
    }
    to
}

/// Whether each of the calls from one on stops well, up to another one, or to the last: opening takes some before those that are counted.
fn stop_well(alloc: Global, kept: &Kept, from: u64, to: u64) -> bool {
    match calls_of(alloc, kept) {
        Some(calls) if calls > kept.calls && calls < kept.calls.saturating_add(30) => {
            let end = to.min(calls.saturating_add(1));
            from < end && first_bad(alloc, kept, from, end) == end
        }
        _ => false,
    }
}

#[test]
fn a_source_stops_at_the_first_calls(rt: HostRuntime) {
    assert!(&rt; stop_well(rt.alloc(), &AT_SOURCE, 1, 25));
}

#[test]
fn a_source_stops_at_the_middle_calls(rt: HostRuntime) {
    assert!(&rt; stop_well(rt.alloc(), &AT_SOURCE, 25, 50));
}

#[test]
fn a_source_stops_at_the_last_calls(rt: HostRuntime) {
    assert!(&rt; stop_well(rt.alloc(), &AT_SOURCE, 50, 100));
}

#[test]
fn a_replica_stops_at_the_first_calls(rt: HostRuntime) {
    assert!(&rt; stop_well(rt.alloc(), &AT_REPLICA, 1, 25));
}

#[test]
fn a_replica_stops_at_the_last_calls(rt: HostRuntime) {
    assert!(&rt; stop_well(rt.alloc(), &AT_REPLICA, 25, 100));
}

#[test]
fn the_commits_end_well(rt: HostRuntime) {
    let alloc = rt.alloc();
    let mut disk = MemDisk::new(alloc);
    let ended = over(
        alloc,
        &asked("run", COMMITS.as_bytes()),
        &mut disk,
        &mut MemDisk::new(alloc),
    );
    assert!(&rt; comes_to(&ended, COMMITS_LINES, ""));
    let text = dumped(alloc, files_of(alloc, &disk).as_slice());
    assert!(&rt; text.is_some_and(|text| text.as_slice() == dump_at(alloc, 5).as_slice()));
}

// ---- open transactions

/// A checkpoint between the statements of a transaction, which goes on; the relay too.
static OPEN: &str = "s1: CREATE TABLE t (id INT, v INT, PRIMARY KEY (id)) //
s1: INSERT INTO t VALUES (1, 10) //
replica: FETCH 100000 //
s1: BEGIN //
s1: INSERT INTO t VALUES (2, 20) //
source: CHECKPOINT //
replica: CHECKPOINT //
s2: SELECT * FROM t //
s1: SELECT * FROM t //
s2: INSERT INTO t VALUES (9, 90) //
replica: APPLY 9 //
s1: COMMIT //
s2: SELECT * FROM t //
source: RESTART //
s2: SELECT * FROM t //
";

static OPEN_LINES: &str = "1 ok 0
2 ok 1
3 fetched 332
4 ok 0
5 ok 1
6 ok 0
7 ok 0
8 row 1, 10
8 rows 1
9 row 1, 10
9 row 2, 20
9 rows 2
10 error 1205 by s1
11 applied 2 1:336
12 ok 0
13 row 1, 10
13 row 2, 20
13 rows 2
14 ok 0
15 row 1, 10
15 row 2, 20
15 rows 2
";

#[test]
fn a_transaction_goes_on(rt: HostRuntime) {
    let alloc = rt.alloc();
    let ended = over(
        alloc,
        &asked("run", OPEN.as_bytes()),
        &mut MemDisk::new(alloc),
        &mut MemDisk::new(alloc),
    );
    assert!(&rt; comes_to(&ended, OPEN_LINES, ""));
}

/// What is not committed is in no snapshot.
#[test]
fn open_rows_are_not_kept(rt: HostRuntime) {
    let alloc = rt.alloc();
    let mut disk = MemDisk::new(alloc);
    let script =
        b"s1: CREATE TABLE t (id INT, PRIMARY KEY (id)) //\ns1: INSERT INTO t VALUES (1) //\ns1: BEGIN //\ns1: INSERT INTO t VALUES (2) //\ns1: DELETE FROM t WHERE id = 1 //\nsource: CHECKPOINT //";
    let ended = over(
        alloc,
        &asked("run", script),
        &mut disk,
        &mut MemDisk::new(alloc),
    );
    assert!(&rt;
        comes_to(
            &ended,
            "1 ok 0\n2 ok 1\n3 ok 0\n4 ok 1\n5 ok 1\n6 ok 0\n",
            ""
        )
    );
    let dumped = dumped(alloc, files_of(alloc, &disk).as_slice());
    assert!(&rt; dumped.is_some_and(|text| text.as_slice() == dump_at(alloc, 2).as_slice()));
}

/// A checkpoint takes no draw and pushes no mark: each node's next command has the draw behind that of its opening.
#[test]
fn a_checkpoint_takes_no_draw(rt: HostRuntime) {
    let alloc = rt.alloc();
    let script =
        b"source: CHECKPOINT //\nreplica: CHECKPOINT //\ns1: SELECT UNIX_TIMESTAMP() //\nreplica: SELECT UNIX_TIMESTAMP() //";
    let ended = over(
        alloc,
        &asked("run", script),
        &mut MemDisk::new(alloc),
        &mut MemDisk::new(alloc),
    );
    let lines = "1 ok 0\n2 ok 0\n3 row 1700000001\n3 rows 1\n4 row 1600000001\n4 rows 1\n";
    assert!(&rt; comes_to(&ended, lines, ""));
    assert!(&rt; ended.is_some_and(|ended| ended.report.marks.as_slice().is_empty()));
}

// ---- many in a row

/// The generation of a snapshot as its file has it: eight bytes behind a gate, a length and the kind of its node.
fn generation_in(snapshot: &[u8]) -> &[u8] {
    snapshot.get(10..18).unwrap_or(b"")
}

/// A script that makes a table with a row, and then so many checkpoints.
fn many(alloc: Global, count: u64) -> Bytes {
    let mut script: Bytes = List::new(alloc);
    let _ = script.extend_from_slice(
        b"s1: CREATE TABLE t (id INT, PRIMARY KEY (id)) //\ns1: INSERT INTO t VALUES (1) //\n",
    );
    for _n in 0..count {
        let _ = script.extend_from_slice(b"source: CHECKPOINT //\n");
    }
    script
}

/// Behind a hundred checkpoints the generation is 100, in file 0, and the journal of it has no record.
#[test]
fn a_hundred_in_a_row(rt: HostRuntime) {
    let alloc = rt.alloc();
    let mut disk = MemDisk::new(alloc);
    let script = many(alloc, 100);
    let ended = over(
        alloc,
        &asked("run", script.as_slice()),
        &mut disk,
        &mut MemDisk::new(alloc),
    );
    assert!(&rt; ended.is_some_and(|ended| ended.line.is_empty()));
    assert!(&rt; generation_in(disk.contents(0)) == b"\x64\x00\x00\x00\x00\x00\x00\x00".as_slice());
    assert!(&rt; generation_in(disk.contents(1)) == b"\x63\x00\x00\x00\x00\x00\x00\x00".as_slice());
    assert!(&rt; disk.contents(2).first() == Some(&0));
    let dumped = dumped(alloc, files_of(alloc, &disk).as_slice());
    assert!(&rt; dumped.is_some_and(|text| text.as_slice() == dump_at(alloc, 2).as_slice()));
}

// ---- the last generation

/// The checkpoint of a node.
fn checkpoint_of(side: Side) -> &'static str {
    match side {
        Side::Source => "source: CHECKPOINT //",
        Side::Replica => "replica: CHECKPOINT //",
    }
}

/// A snapshot with the last generation.
fn raised(alloc: Global, snapshot: &[u8]) -> Bytes {
    let mut raised = bytes(alloc, snapshot);
    for at in 10..18 {
        if at < raised.len() {
            raised.set(at, 255);
        }
    }
    raised
}

/// The disk that comes up behind a first checkpoint, with the last generation in its snapshot, which stands in file 1 as well.
fn at_the_last(alloc: Global, side: Side) -> Option<MemDisk>
    ensures { IfSome result (λ d. IsSettled (Some (story_of d))) }
{
    let mut disk = FuseDisk::new(MemDisk::new(alloc), 0);
    let _ = played(alloc, side, checkpoint_of(side), &mut disk);
    let mut files: List<Bytes> = List::new(alloc);
    for (at, file) in files_of(alloc, disk.inner()).as_slice().iter().enumerate() {
        let left = if at == 1 {
            raised(alloc, file.as_slice())
        } else {
            bytes(alloc, file.as_slice())
        };
        let _ = files.push(left);
    }
    disk_left(alloc, files.as_slice())
}

/// Whether a checkpoint is answered there, and calls no disk.
fn does_nothing(alloc: Global, side: Side) -> bool {
    let (Some(one), Some(other)) = (at_the_last(alloc, side), at_the_last(alloc, side)) else {
        return false;
    };
    let mut one = FuseDisk::new(one, 0);
    let mut other = FuseDisk::new(other, 0);
    let opened = played(alloc, side, "", &mut one);
    let asked = played(alloc, side, checkpoint_of(side), &mut other);
    comes_to(&opened, "", "")
        && comes_to(&asked, "1 ok 0\n", "")
        && generation_in(other.inner().contents(1))
            == b"\xff\xff\xff\xff\xff\xff\xff\xff".as_slice()
        && one.calls() == other.calls()
}

#[test]
fn the_last_generation_stays(rt: HostRuntime) {
    let alloc = rt.alloc();
    assert!(&rt; does_nothing(alloc, Side::Source));
    assert!(&rt; does_nothing(alloc, Side::Replica));
}
