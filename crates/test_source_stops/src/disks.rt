//! A source on its disk: what its files hold, what a later call of the program finds there, RESTART, and files that stand for nothing.
ghost use Rattle.std.specs.Prelude.{Some, IfSome};
ghost use Rattle.disk_model.specs.Files.{story_of};
ghost use Rattle.disk_model.specs.Moments.{IsSettled};

use crash_images::{disk_left, no_files};
use disk_model::{MemDisk, TwistDisk};
use program_calls::{again, asked, bytes, comes_to, over};
use std::alloc::Global;

/// A disk with a file 2 of these bytes, and else without any.
fn with_journal(alloc: Global, journal: &[u8]) -> Option<MemDisk>
    ensures { IfSome result (λ d. IsSettled (Some (story_of d))) }
{
    let mut files = no_files(alloc, 2);
    files.push(bytes(alloc, journal)).ok()?;
    disk_left(alloc, files.as_slice())
}

// ---- the bytes of files

/// The journal of a source that has begun its log: an open gate, a length, the record of the log's start with number 0, log 1 and
/// position 123, no log before it, and a closed gate.
static BEGUN: [u8; 27] = [
    0x01, 21, 0, 0, 0, 0x03, 0, 0, 0, 0, 0, 0, 0, 0, 1, 0, 0, 0, 123, 0, 0, 0, 0, 0, 0, 0, 0,
];

/// Bytes 4 to 22 of its log: the head of a FORMAT_DESCRIPTION of server 1 at the moment 1700000000.
static HEAD: [u8; 19] = [
    0x00, 0xf1, 0x53, 0x65, 0x0f, 0x01, 0, 0, 0, 0x77, 0, 0, 0, 0x7b, 0, 0, 0, 0, 0,
];

/// The journal of a replica that has carried out nothing: its first gate, closed.
static OPENED: [u8; 1] = [0x00];

#[test]
fn a_source_begins_its_log(rt: HostRuntime) {
    let alloc = rt.alloc();
    let mut disk = MemDisk::new(alloc);
    let mut other = MemDisk::new(alloc);
    let ended = over(alloc, &asked("run", b""), &mut disk, &mut other);
    assert!(&rt; comes_to(&ended, "", ""));
    assert!(&rt; disk.contents(2) == BEGUN.as_slice());
    assert_eq!(&rt; disk.contents(8).len(), 123);
    assert!(&rt; disk.contents(8)[4..23] == HEAD[..]);
    assert!(&rt; other.contents(2) == OPENED.as_slice());
    assert_eq!(&rt; other.contents(8).len(), 0);
}

// ---- a call goes on where the one before it ended

static FIRST_DAY: &str = "s1: CREATE TABLE t (id INT AUTO_INCREMENT, v INT, PRIMARY KEY (id)) //
s1: INSERT INTO t (v) VALUES (10), (20) //
s1: SET @x = 5 //
s1: BEGIN //
s1: INSERT INTO t (v) VALUES (30) //
";

static SECOND_DAY: &str = "s1: SELECT @x //
s1: SELECT * FROM t //
s1: INSERT INTO t (v) VALUES (40) //
s2: SELECT * FROM t //
replica: FETCH 100000 //
replica: APPLY 10 //
replica: SELECT * FROM t //
";

static SECOND_LINES: &str = "1 row NULL
1 rows 1
2 row 1, 10
2 row 2, 20
2 rows 2
3 ok 1
4 row 1, 10
4 row 2, 20
4 row 3, 40
4 rows 3
5 fetched 541
6 applied 3 1:545
7 row 1, 10
7 row 2, 20
7 row 3, 40
7 rows 3
";

static DUMPED: &str =
    "create CREATE TABLE `t` (`id` INT NOT NULL AUTO_INCREMENT, `v` INT NULL, PRIMARY KEY (`id`))
row 1, 10
row 2, 20
row 3, 40
";

/// What a source has committed outlives the call of the program, and nothing else does: variables, and a transaction that was open.
#[test]
fn a_later_call_goes_on(rt: HostRuntime) {
    let alloc = rt.alloc();
    let mut none = MemDisk::new(alloc);
    let mut disk = MemDisk::new(alloc);
    let first = over(
        alloc,
        &asked("run", FIRST_DAY.as_bytes()),
        &mut disk,
        &mut none,
    );
    assert!(&rt; comes_to(&first, "1 ok 0\n2 ok 2\n3 ok 0\n4 ok 0\n5 ok 1\n", ""));
    assert!(&rt; goes_on(alloc, &disk));
}

/// Whether the second call goes on where a disk stands that has come up again, and its dump shows what both left.
fn goes_on(alloc: Global, disk: &MemDisk) -> bool {
    match again(alloc, disk) {
        Some(mut disk) => {
            let second = over(
                alloc,
                &asked("run", SECOND_DAY.as_bytes()),
                &mut disk,
                &mut MemDisk::new(alloc),
            );
            comes_to(&second, SECOND_LINES, "") && is_dumped(alloc, &disk, DUMPED)
        }
        None => false,
    }
}

/// Whether the dump of a disk that has come up again writes these lines.
fn is_dumped(alloc: Global, disk: &MemDisk, lines: &str) -> bool {
    match again(alloc, disk) {
        Some(mut disk) => {
            let dumped = over(
                alloc,
                &asked("dump source", b""),
                &mut disk,
                &mut MemDisk::new(alloc),
            );
            comes_to(&dumped, lines, "")
        }
        None => false,
    }
}

// ---- RESTART

static RESTARTED: &str = "s1: CREATE TABLE t (id INT, v INT, PRIMARY KEY (id)) //
s1: INSERT INTO t VALUES (1, 10) //
s1: SET @x = 5 //
s2: BEGIN //
s2: UPDATE t SET v = 11 WHERE id = 1 //
source: RESTART //
s1: SELECT @x //
s1: INSERT INTO t VALUES (2, 20) //
s2: SELECT * FROM t //
replica: FETCH 100000 //
replica: APPLY 10 //
replica: SELECT * FROM t //
";

static RESTARTED_LINES: &str = "1 ok 0
2 ok 1
3 ok 0
4 ok 0
5 ok 1
6 ok 0
7 row NULL
7 rows 1
8 ok 1
9 row 1, 10
9 row 2, 20
9 rows 2
10 fetched 462
11 applied 3 1:466
12 row 1, 10
12 row 2, 20
12 rows 2
";

/// Sessions, their variables, open transactions and the writer's lock are gone behind a RESTART; what was committed stays, and the log goes
/// on behind it.
#[test]
fn a_restart_drops_what_was_not_committed(rt: HostRuntime) {
    let alloc = rt.alloc();
    let ended = over(
        alloc,
        &asked("run", RESTARTED.as_bytes()),
        &mut MemDisk::new(alloc),
        &mut MemDisk::new(alloc),
    );
    assert!(&rt; comes_to(&ended, RESTARTED_LINES, ""));
}

static READ_BACK: &str = "s1: CREATE TABLE t (id INT, v INT, PRIMARY KEY (id)) //
s1: INSERT INTO t VALUES (1, 10) //
source: RESTART //
s1: SELECT * FROM t //
";

/// A RESTART has what the disk reads back: here another byte in the row's record, the 20 in place of the 10.
#[test]
fn a_restart_reads_its_disk(rt: HostRuntime) {
    let alloc = rt.alloc();
    let mut disk = TwistDisk::new(MemDisk::new(alloc), 2, 140, 0x14);
    let ended = over(
        alloc,
        &asked("run", READ_BACK.as_bytes()),
        &mut disk,
        &mut MemDisk::new(alloc),
    );
    assert!(&rt;
        comes_to(
            &ended,
            "1 ok 0\n2 ok 1\n3 ok 0\n4 row 1, 20\n4 rows 1\n",
            ""
        )
    );
}

// ---- files that stand for nothing

/// Whether each word that opens the source finds the place of damage, and writes nothing.
fn is_damaged(alloc: Global, journal: &[u8], line: &str) -> bool {
    for word in ["run", "dump source"] {
        let Some(mut disk) = with_journal(alloc, journal) else {
            return false;
        };
        let ended = over(
            alloc,
            &asked(word, b""),
            &mut disk,
            &mut MemDisk::new(alloc),
        );
        if !comes_to(&ended, "", line) {
            return false;
        }
    }
    true
}

#[test]
fn a_damaged_journal_is_named(rt: HostRuntime) {
    let alloc = rt.alloc();
    assert!(&rt;
        is_damaged(
            alloc,
            b"\x01\xff\x00\x00\x00\x00",
            "source damaged file 2 at 0\n"
        )
    );
}

/// Whether a source begins on a journal of one byte, whatever it is: it has no gate yet.
fn is_begun(alloc: Global, journal: &[u8]) -> bool {
    match with_journal(alloc, journal) {
        Some(mut disk) => {
            let ended = over(
                alloc,
                &asked("run", b""),
                &mut disk,
                &mut MemDisk::new(alloc),
            );
            comes_to(&ended, "", "")
        }
        None => false,
    }
}

#[test]
fn a_journal_of_one_byte_has_none(rt: HostRuntime) {
    assert!(&rt; is_begun(rt.alloc(), b"\x5a"));
}
