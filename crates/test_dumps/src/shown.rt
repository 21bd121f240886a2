//! What is shown of stores.

use crate::stores::{
    Step, bytes, disk_of, disk_with, is_only_read, journal, lines, put_four, put_record,
};
use answer_text::Status;
use disk_model::MemDisk;
use dump_store::dump;
use port_traits::MemSink;
use std::alloc::Global;
use store_model::Kind;
use val_types::{Bytes, List};

/// Whether of a disk just these lines are shown, and it is only read; where there are none, nothing is written.
fn is_shown(alloc: Global, disk: Option<MemDisk>, node: Kind, wanted: &[&str]) -> bool {
    let Some(mut disk) = disk else {
        return false;
    };
    let mut out = MemSink::new(alloc, List::new(alloc));
    let status = dump(alloc, &mut disk, &mut out, node);
    let shown = lines(alloc, wanted);
    is_done(&status)
        && out.written().as_slice() == shown.as_slice()
        && (out.calls() == 0) == wanted.is_empty()
        && is_only_read(&disk)
}

fn is_done(status: &Status) -> bool {
    match status {
        Status::Done => true,
        _ => false,
    }
}

/// Whether of a store that took these steps just these lines are shown.
fn shows(alloc: Global, node: Kind, steps: &[Step], wanted: &[&str]) -> bool {
    is_shown(
        alloc,
        disk_of(alloc, journal(alloc, node, steps), 123),
        node,
        wanted,
    )
}

// ---- nothing

#[test]
fn nothing_is_shown_of_nothing(rt: HostRuntime) {
    let alloc = rt.alloc();
    assert!(&rt; is_shown(alloc, Some(MemDisk::new(alloc)), Kind::Source, &[]));
    assert!(&rt; is_shown(alloc, Some(MemDisk::new(alloc)), Kind::Replica, &[]));
    assert!(&rt; shows(alloc, Kind::Source, &[], &[]));
    assert!(&rt; shows(alloc, Kind::Replica, &[Step::Moves], &[]));
}

/// One byte is no journal, whatever it is.
#[test]
fn one_byte_is_no_journal(rt: HostRuntime) {
    let alloc = rt.alloc();
    let disk = disk_of(alloc, bytes(alloc, b"\x5a"), 0);
    assert!(&rt; is_shown(alloc, disk, Kind::Source, &[]));
}

// ---- objects and rows

/// The rows (3, NULL), (5, 5) and (-7, 10) of t; (3, 2147483647) in the place of the first; the second is taken out.
static ROWS_OF_T: &[u8] = b"\
\x01\x01t\x02\x01\x03\x00\x00\x00\x00\x00\x00\x00\x00\
\x01\x01t\x02\x01\x05\x00\x00\x00\x00\x00\x00\x00\x01\x05\x00\x00\x00\x00\x00\x00\x00\
\x01\x01t\x02\x01\xf9\xff\xff\xff\xff\xff\xff\xff\x01\x0a\x00\x00\x00\x00\x00\x00\x00";

static CHANGES_OF_T: &[u8] = b"\
\x02\x01t\x02\x01\x03\x00\x00\x00\x00\x00\x00\x00\x00\x02\x01\x03\x00\x00\x00\x00\x00\x00\x00\x01\xff\xff\xff\x7f\x00\x00\x00\x00\
\x03\x01t\x02\x01\x05\x00\x00\x00\x00\x00\x00\x00\x01\x05\x00\x00\x00\x00\x00\x00\x00";

/// Of w: ('pen', 9223372036854775807, ''), ('', NULL, 'plain ~') and one of a quote, the least number and the end of a line.
static ROWS_OF_W: &[u8] = b"\
\x01\x01w\x03\x02\x03\x00\x00\x00pen\x01\xff\xff\xff\xff\xff\xff\xff\x7f\x02\x00\x00\x00\x00\
\x01\x01w\x03\x02\x00\x00\x00\x00\x00\x02\x07\x00\x00\x00plain ~\
\x01\x01w\x03\x02\x04\x00\x00\x00it's\x01\x00\x00\x00\x00\x00\x00\x00\x80\x02\x03\x00\x00\x00a\x0ab";

/// Tables with rows, programs between them, and one table that is dropped.
fn all_steps() -> [Step; 11] {
    [
        Step::Defines("create table t (id int, v int, primary key (id))"),
        Step::Changes(3, ROWS_OF_T),
        Step::Defines("CREATE TABLE gone (a INT PRIMARY KEY)"),
        Step::Defines("CREATE PROCEDURE p(a INT) BEGIN INSERT t VALUES (a, NULL); END"),
        Step::Defines(
            "CREATE TABLE w (k VARCHAR(80), n BIGINT DEFAULT -5, s VARCHAR(300) NOT NULL, UNIQUE u (n), PRIMARY KEY (k)) ENGINE InnoDB",
        ),
        Step::Changes(3, ROWS_OF_W),
        Step::Defines("DROP TABLE gone"),
        Step::Defines("CREATE FUNCTION f(x INT) RETURNS INT RETURN x + 1"),
        Step::Changes(2, CHANGES_OF_T),
        Step::Defines(
            "CREATE TRIGGER g AFTER INSERT ON t FOR EACH ROW UPDATE w SET n = NEW.id WHERE k = 'x'",
        ),
        Step::Defines("CREATE TABLE gone (b INT, PRIMARY KEY (b))"),
    ]
}

static SHOWN: [&str; 11] = [
    "create CREATE TABLE `t` (`id` INT NOT NULL, `v` INT NULL, PRIMARY KEY (`id`))",
    "row -7, 10",
    "row 3, 2147483647",
    "create CREATE PROCEDURE `p`(`a` INT) BEGIN INSERT INTO `t` VALUES (`a`, NULL); END",
    "create CREATE TABLE `w` (`k` VARCHAR(80) NOT NULL, `n` BIGINT NULL DEFAULT -5, `s` VARCHAR(300) NOT NULL, PRIMARY KEY (`k`), UNIQUE KEY `u` (`n`))",
    "row '', NULL, 'plain ~'",
    "row X'69742773', -9223372036854775808, X'610A62'",
    "row 'pen', 9223372036854775807, ''",
    "create CREATE FUNCTION `f`(`x` INT) RETURNS INT RETURN (`x` + 1)",
    "create CREATE TRIGGER `g` AFTER INSERT ON `t` FOR EACH ROW UPDATE `w` SET `n` = NEW.`id` WHERE (`k` = 'x')",
    "create CREATE TABLE `gone` (`b` INT NOT NULL, PRIMARY KEY (`b`))",
];

#[test]
fn a_source_is_shown(rt: HostRuntime) {
    let alloc = rt.alloc();
    assert!(&rt; shows(alloc, Kind::Source, &all_steps(), &SHOWN));
}

/// A replica's store shows the same, wherever it goes on.
#[test]
fn a_replica_is_shown(rt: HostRuntime) {
    let alloc = rt.alloc();
    assert!(&rt; shows(alloc, Kind::Replica, &all_steps(), &SHOWN));
    let moved = [
        Step::Defines("CREATE TABLE t (id INT, v INT, PRIMARY KEY (id))"),
        Step::Changes(3, ROWS_OF_T),
        Step::Moves,
    ];
    let wanted = [
        "create CREATE TABLE `t` (`id` INT NOT NULL, `v` INT NULL, PRIMARY KEY (`id`))",
        "row -7, 10",
        "row 3, NULL",
        "row 5, 5",
    ];
    assert!(&rt; shows(alloc, Kind::Replica, &moved, &wanted));
}

/// What stands behind a closed gate is not shown.
#[test]
fn a_staged_record_is_not_shown(rt: HostRuntime) {
    let alloc = rt.alloc();
    let steps = all_steps();
    let made = journal(alloc, Kind::Source, &steps[..1]);
    let closed = made.len().saturating_sub(1);
    let mut staged = journal(alloc, Kind::Source, &steps[..2]);
    if closed < staged.len() {
        staged.set(closed, 0);
    }
    let disk = disk_of(alloc, staged, 123);
    assert!(&rt; is_shown(alloc, disk, Kind::Source, &SHOWN[..1]));
}

// ---- a snapshot

/// The snapshot of a source's generation 1: two transactions, a log that ends at 123, one object with one row.
fn snapshot(alloc: Global) -> Bytes {
    let text = b"CREATE TABLE `t` (`id` INT NOT NULL, `v` INT NULL, PRIMARY KEY (`id`))";
    let mut body = bytes(
        alloc,
        b"\x01\x01\x00\x00\x00\x00\x00\x00\x00\x02\x00\x00\x00\x00\x00\x00\x00\x01\x00\x00\x00\x7b\x00\x00\x00\x01\x00\x00\x00",
    );
    put_four(&mut body, text.len());
    put_four(&mut body, 0);
    let _ = body.extend_from_slice(text);
    let row = b"\x01\x00\x00\x00\x00\x00\x00\x00\x02\x01\x03\x00\x00\x00\x00\x00\x00\x00\x00";
    let _ = body.extend_from_slice(row);
    let mut file = bytes(alloc, b"\x01");
    put_four(&mut file, body.len());
    put_four(&mut file, 0);
    let _ = file.append(body);
    file
}

/// Transaction 3, behind the snapshot, puts (-1, 0) into its table; the other journal does not count.
#[test]
fn a_snapshot_is_shown_with_its_journal(rt: HostRuntime) {
    let alloc = rt.alloc();
    let mut journal = List::new(alloc);
    let put =
        b"\x01\x03\x00\x00\x00\x00\x00\x00\x00\x01\x00\x00\x00\x7b\x00\x00\x00\x01\x00\x00\x00\x01\x01t\x02\x01\xff\xff\xff\xff\xff\xff\xff\xff\x01\x00\x00\x00\x00\x00\x00\x00\x00";
    put_record(&mut journal, bytes(alloc, put));
    let _ = journal.push(0);
    let other = bytes(alloc, b"\x01\xff");
    let disk = disk_with(alloc, snapshot(alloc), other, journal, 123);
    let wanted = [SHOWN[0], "row -1, 0", "row 3, NULL"];
    assert!(&rt; is_shown(alloc, disk, Kind::Source, &wanted));
}
