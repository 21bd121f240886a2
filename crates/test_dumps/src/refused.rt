//! Damaged stores, and disks and outputs that fail.

use crate::stores::{Step, bytes, disk_of, is_only_read, journal, lines};
use answer_text::Status;
use disk_model::{Disk, FuseDisk, MemDisk};
use dump_store::dump;
use port_traits::MemSink;
use std::alloc::Global;
use store_model::Kind;
use val_types::{Bytes, List};

/// How a dump ended: the status, with the place of damage.
#[derive(Clone, Copy, PartialEq, Eq)]
enum Ended {
    Done,
    SourceDisk,
    ReplicaDisk,
    SourceDamaged(u32, u64),
    ReplicaDamaged(u32, u64),
    WriteFault,
    Other,
}

fn how_ended(status: &Status) -> Ended {
    match status {
        Status::Done => Ended::Done,
        Status::SourceDisk => Ended::SourceDisk,
        Status::ReplicaDisk => Ended::ReplicaDisk,
        Status::SourceDamaged { file, at } => Ended::SourceDamaged(*file, *at),
        Status::ReplicaDamaged { file, at } => Ended::ReplicaDamaged(*file, *at),
        Status::WriteFault => Ended::WriteFault,
        _ => Ended::Other,
    }
}

// ---- damage

/// How the dump of a journal beside so many bytes of a log ends; nothing is written.
fn refused(alloc: Global, node: Kind, journal: Bytes, log: usize) -> Ended {
    let Some(mut disk) = disk_of(alloc, journal, log) else {
        return Ended::Other;
    };
    let mut out = MemSink::new(alloc, List::new(alloc));
    let status = dump(alloc, &mut disk, &mut out, node);
    if out.calls() > 0 || !is_only_read(&disk) {
        return Ended::Other;
    }
    how_ended(&status)
}

/// A table of one column, and a transaction that takes out a row that is not there.
static STEPS: [Step; 2] = [
    Step::Defines("CREATE TABLE t (a INT, PRIMARY KEY (a))"),
    Step::Changes(1, b"\x03\x01t\x01\x01\x01\x00\x00\x00\x00\x00\x00\x00"),
];

/// A record that is not whole, or of the other node, at its gate; a log that is short, at its length.
#[test]
fn damage_is_told(rt: HostRuntime) {
    let alloc = rt.alloc();
    let cut = b"\x01\xff\x00\x00\x00\x00";
    assert!(&rt; refused(alloc, Kind::Source, bytes(alloc, cut), 0) == Ended::SourceDamaged(2, 0));
    assert!(&rt;
        refused(alloc, Kind::Replica, bytes(alloc, cut), 0) == Ended::ReplicaDamaged(2, 0)
    );
    let source = journal(alloc, Kind::Source, &STEPS[..1]);
    assert!(&rt; refused(alloc, Kind::Replica, source, 123) == Ended::ReplicaDamaged(2, 0));
    let short = journal(alloc, Kind::Source, &STEPS[..1]);
    assert!(&rt; refused(alloc, Kind::Source, short, 122) == Ended::SourceDamaged(8, 122));
}

/// The gate of the second record of a replica stands behind 65 bytes: a gate, a length of 4 bytes, 17 bytes, 4 and 39 of the text.
/// On a source the record of its log, 26 bytes with gate and length, stands before them.
#[test]
fn damage_behind_a_table_is_told(rt: HostRuntime) {
    let alloc = rt.alloc();
    let replica = journal(alloc, Kind::Replica, &STEPS);
    assert!(&rt; refused(alloc, Kind::Replica, replica, 0) == Ended::ReplicaDamaged(2, 65));
    let source = journal(alloc, Kind::Source, &STEPS);
    assert!(&rt; refused(alloc, Kind::Source, source, 123) == Ended::SourceDamaged(2, 91));
}

// ---- a disk that fails

/// How the dump of a store ends whose k-th call fails, and how many calls there were; nothing is written.
fn failing(alloc: Global, node: Kind, k: u64) -> (Ended, u64) {
    let made = journal(alloc, node, &STEPS[..1]);
    let Some(disk) = disk_of(alloc, made, 123) else {
        return (Ended::Other, 0);
    };
    let mut disk = FuseDisk::new(disk, k);
    let mut out = MemSink::new(alloc, List::new(alloc));
    let status = dump(alloc, &mut disk, &mut out, node);
    if k > 0 && out.calls() > 0 {
        return (Ended::Other, 0);
    }
    (how_ended(&status), disk.calls())
}

/// Whether a dump ends at each call of its disk that fails.
fn each_fails(alloc: Global, node: Kind, fault: Ended) -> bool {
    let (whole, calls) = failing(alloc, node, 0);
    if whole != Ended::Done || calls == 0 {
        return false;
    }
    for k in 0..calls {
        let at = k.saturating_add(1);
        if failing(alloc, node, at) != (fault, at) {
            return false;
        }
    }
    true
}

#[test]
fn faults_of_the_disk_are_told(rt: HostRuntime) {
    let alloc = rt.alloc();
    assert!(&rt; each_fails(alloc, Kind::Source, Ended::SourceDisk));
    assert!(&rt; each_fails(alloc, Kind::Replica, Ended::ReplicaDisk));
}

// ---- an output that fails

/// Puts a row of a number and a text of 40,000 bytes into `b`, as the bytes of a change.
fn put_long(changes: &mut Bytes, id: u8) {
    let _ = changes.extend_from_slice(b"\x01\x01b\x02\x01");
    let _ = changes.extend_from_slice(&[id, 0, 0, 0, 0, 0, 0, 0]);
    let _ = changes.extend_from_slice(b"\x02\x40\x9c\x00\x00");
    for _byte in 0..40_000 {
        let _ = changes.push(b'x');
    }
}

/// A disk with two such rows, and a procedure behind their table.
fn long_disk(alloc: Global) -> Option<MemDisk> {
    let steps = [
        Step::Defines("CREATE TABLE b (id INT, w VARCHAR(65000), PRIMARY KEY (id))"),
        Step::Defines("CREATE PROCEDURE p() BEGIN END"),
    ];
    let mut made = journal(alloc, Kind::Replica, &steps);
    let _ = made.pop();
    let mut body = bytes(
        alloc,
        b"\x11\x03\x00\x00\x00\x00\x00\x00\x00\x01\x00\x00\x00\x7b\x00\x00\x00\x02\x00\x00\x00",
    );
    put_long(&mut body, 1);
    put_long(&mut body, 2);
    crate::stores::put_record(&mut made, body);
    let _ = made.push(0);
    disk_of(alloc, made, 0)
}

/// Puts the line of such a row.
fn put_line(shown: &mut Bytes, id: &[u8]) {
    let _ = shown.extend_from_slice(b"row ");
    let _ = shown.extend_from_slice(id);
    let _ = shown.extend_from_slice(b", '");
    for _byte in 0..40_000 {
        let _ = shown.push(b'x');
    }
    let _ = shown.extend_from_slice(b"'\n");
}

/// The lines up to the second row, behind which more than 65,535 bytes are gathered.
fn first_piece(alloc: Global) -> Bytes {
    let mut shown = lines(
        alloc,
        &[
            "create CREATE TABLE `b` (`id` INT NOT NULL, `w` VARCHAR(65000) NULL, PRIMARY KEY (`id`))",
        ],
    );
    put_line(&mut shown, b"1");
    put_line(&mut shown, b"2");
    shown
}

/// How the dump of that disk ends where a write fails, 0 for none, and whether just so much was written in so many calls.
fn failing_write(alloc: Global, fails: u64, wanted: &[u8], calls: u64) -> (Ended, bool) {
    let Some(mut disk) = long_disk(alloc) else {
        return (Ended::Other, false);
    };
    let mut at = List::new(alloc);
    let _ = at.push(fails);
    let mut out = MemSink::new(alloc, at);
    let status = dump(alloc, &mut disk, &mut out, Kind::Replica);
    (
        how_ended(&status),
        out.written().as_slice() == wanted && out.calls() == calls,
    )
}

#[test]
fn faults_of_the_output_are_told(rt: HostRuntime) {
    let alloc = rt.alloc();
    let first = first_piece(alloc);
    let mut all = first_piece(alloc);
    let _ = all.append(lines(alloc, &["create CREATE PROCEDURE `p`() BEGIN END"]));
    assert!(&rt; failing_write(alloc, 0, all.as_slice(), 2) == (Ended::Done, true));
    assert!(&rt; failing_write(alloc, 1, b"", 1) == (Ended::WriteFault, true));
    assert!(&rt; failing_write(alloc, 2, first.as_slice(), 2) == (Ended::WriteFault, true));
}
