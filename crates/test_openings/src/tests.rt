//! Stores by hand, opened.
//!
//! What wants memory is left out, and then the test fails. Numbers have their least byte first.

use disk_model::{MemDisk, OpenRefusal};
use std::alloc::Global;
use store_model::Kind;
use store_open::{Opened, load};
use val_types::{Bytes, List, Row, Value};

/// Log 1 begins, and ends at 123.
static LOG_BEGINS: [u8; 21] = [
    3, 0, 0, 0, 0, 0, 0, 0, 0, 1, 0, 0, 0, 123, 0, 0, 0, 0, 0, 0, 0,
];

/// Log 2 begins, and ends at 123; log 1 has 40 bytes more.
static NEXT_BEGINS: [u8; 21] = [
    3, 0, 0, 0, 0, 0, 0, 0, 0, 2, 0, 0, 0, 123, 0, 0, 0, 163, 0, 0, 0,
];

/// Transaction 1 makes a table, and log 1 ends at 206.
static TABLE_MADE: &[u8] =
    b"\x02\x01\x00\x00\x00\x00\x00\x00\x00\x01\x00\x00\x00\xce\x00\x00\x00\x30\x00\x00\x00CREATE TABLE t (id INT, v INT, PRIMARY KEY (id))";

/// The same as transaction 2.
static TABLE_AGAIN: &[u8] =
    b"\x02\x02\x00\x00\x00\x00\x00\x00\x00\x01\x00\x00\x00\xce\x00\x00\x00\x30\x00\x00\x00CREATE TABLE t (id INT, v INT, PRIMARY KEY (id))";

/// Transaction 1 makes a table with a counter.
static COUNTED_MADE: &[u8] =
    b"\x02\x01\x00\x00\x00\x00\x00\x00\x00\x01\x00\x00\x00\xce\x00\x00\x00\x3f\x00\x00\x00CREATE TABLE t (id INT AUTO_INCREMENT, v INT, PRIMARY KEY (id))";

/// A definition that defines nothing.
static SELECTED: &[u8] =
    b"\x02\x01\x00\x00\x00\x00\x00\x00\x00\x01\x00\x00\x00\xce\x00\x00\x00\x08\x00\x00\x00SELECT 1";

/// Transaction 2 puts the row (1, 10) into t, and log 1 ends at 336.
static ROW_PUT_IN: [u8; 43] = [
    1, 2, 0, 0, 0, 0, 0, 0, 0, 1, 0, 0, 0, 80, 1, 0, 0, 1, 0, 0, 0, // one change
    1, 1, 116, 2, 1, 1, 0, 0, 0, 0, 0, 0, 0, 1, 10, 0, 0, 0, 0, 0, 0, 0,
];

/// The same row as transaction 1, and as transaction 3.
static ROW_FIRST: [u8; 43] = [
    1, 1, 0, 0, 0, 0, 0, 0, 0, 1, 0, 0, 0, 80, 1, 0, 0, 1, 0, 0, 0, // one change
    1, 1, 116, 2, 1, 1, 0, 0, 0, 0, 0, 0, 0, 1, 10, 0, 0, 0, 0, 0, 0, 0,
];

static ROW_AGAIN: [u8; 43] = [
    1, 3, 0, 0, 0, 0, 0, 0, 0, 1, 0, 0, 0, 80, 1, 0, 0, 1, 0, 0, 0, // one change
    1, 1, 116, 2, 1, 1, 0, 0, 0, 0, 0, 0, 0, 1, 10, 0, 0, 0, 0, 0, 0, 0,
];

/// Transaction 2 puts a row of one value into t.
static ROW_OF_ONE: [u8; 34] = [
    1, 2, 0, 0, 0, 0, 0, 0, 0, 1, 0, 0, 0, 80, 1, 0, 0, 1, 0, 0, 0, // one change
    1, 1, 116, 1, 1, 1, 0, 0, 0, 0, 0, 0, 0,
];

/// Transaction 3 takes the row (1, 11) out of t.
static OTHER_TAKEN_OUT: [u8; 43] = [
    1, 3, 0, 0, 0, 0, 0, 0, 0, 1, 0, 0, 0, 80, 1, 0, 0, 1, 0, 0, 0, // one change
    3, 1, 116, 2, 1, 1, 0, 0, 0, 0, 0, 0, 0, 1, 11, 0, 0, 0, 0, 0, 0, 0,
];

/// Log 1 begins, and a byte more.
static BYTE_MORE: [u8; 22] = [
    3, 0, 0, 0, 0, 0, 0, 0, 0, 1, 0, 0, 0, 123, 0, 0, 0, 0, 0, 0, 0, 0,
];

/// A replica's table, its row, and its place at the first event of log 2.
static TABLE_CARRIED_OUT: &[u8] =
    b"\x12\x01\x00\x00\x00\x00\x00\x00\x00\x01\x00\x00\x00\xce\x00\x00\x00\x30\x00\x00\x00CREATE TABLE t (id INT, v INT, PRIMARY KEY (id))";

static ROW_CARRIED_OUT: [u8; 43] = [
    17, 2, 0, 0, 0, 0, 0, 0, 0, 1, 0, 0, 0, 80, 1, 0, 0, 1, 0, 0, 0, // one change
    1, 1, 116, 2, 1, 1, 0, 0, 0, 0, 0, 0, 0, 1, 10, 0, 0, 0, 0, 0, 0, 0,
];

static PLACE_MOVED: [u8; 17] = [19, 2, 0, 0, 0, 0, 0, 0, 0, 2, 0, 0, 0, 4, 0, 0, 0];

/// A snapshot of a source with nothing but its first log, of generation 1.
static NEW_SNAPSHOT: [u8; 38] = [
    1, 29, 0, 0, 0, 0, 0, 0, 0, // open, 29 bytes
    1, 1, 0, 0, 0, 0, 0, 0, 0, 0, 0, 0, 0, 0, 0, 0, 0, // a source, generation 1, number 0
    1, 0, 0, 0, 123, 0, 0, 0, 0, 0, 0, 0,
];

/// A snapshot of a replica of generation 2: transaction 2, log 1 at 336, the table with its row.
static SNAPSHOT_OF_ROW: &[u8] =
    b"\x01\x86\x00\x00\x00\x00\x00\x00\x00\x02\x02\x00\x00\x00\x00\x00\x00\x00\x02\x00\x00\x00\x00\x00\x00\x00\x01\x00\x00\x00\x50\x01\x00\x00\x01\x00\x00\x00\x46\x00\x00\x00\x00\x00\x00\x00CREATE TABLE `t` (`id` INT NOT NULL, `v` INT NULL, PRIMARY KEY (`id`))\x01\x00\x00\x00\x00\x00\x00\x00\x02\x01\x01\x00\x00\x00\x00\x00\x00\x00\x01\x0a\x00\x00\x00\x00\x00\x00\x00";

/// Bytes with memory of their own.
fn bytes(alloc: Global, of: &[u8]) -> Bytes {
    let mut bytes = List::new(alloc);
    let _ = bytes.extend_from_slice(of);
    bytes
}

/// A journal of these bodies: each behind an open gate and its length, and a closed gate behind the last.
fn journal(alloc: Global, bodies: &[&'static [u8]]) -> Bytes {
    let mut file = List::new(alloc);
    for body in bodies {
        let size = *body;
        let _ = file.extend_from_slice(&[1, (size.len() % 256) as u8, 0, 0, 0]);
        let _ = file.extend_from_slice(size);
    }
    let _ = file.push(0);
    file
}

/// A disk that has come up with two snapshots, the journal of generation 0, and two logs of these lengths.
fn disk(
    alloc: Global,
    zeroth: &[u8],
    first: &[u8],
    journal: Bytes,
    logs: (usize, usize),
) -> Option<MemDisk> {
    let mut files = List::new(alloc);
    let _ = files.push(bytes(alloc, zeroth));
    let _ = files.push(bytes(alloc, first));
    let _ = files.push(journal);
    for _file in 3..8 {
        let _ = files.push(List::new(alloc));
    }
    let _ = files.push(bytes(alloc, &LOGGED[..logs.0.min(512)]));
    let _ = files.push(bytes(alloc, &LOGGED[..logs.1.min(512)]));
    MemDisk::with_files(alloc, files).ok()
}

static LOGGED: [u8; 512] = [0x4c; 512];

/// The place where a store is damaged.
fn damage(alloc: Global, node: Kind, mut disk: MemDisk) -> Option<(u32, u64)> {
    match load(alloc, &mut disk, node) {
        Err(OpenRefusal::Damaged { file, at }) => Some((file, at)),
        _ => None,
    }
}

/// That of a source with a journal of these bodies and a log of this length.
fn damage_of(alloc: Global, bodies: &[&'static [u8]], log: usize) -> Option<(u32, u64)> {
    damage(
        alloc,
        Kind::Source,
        disk(alloc, b"", b"", journal(alloc, bodies), (log, 0))?,
    )
}

#[test]
fn records_are_damaged_at_their_gates(rt: HostRuntime) {
    let alloc = rt.alloc();
    let cut = disk(
        alloc,
        b"",
        b"",
        bytes(alloc, b"\x01\x15\x00\x00\x00"),
        (0, 0),
    );
    assert!(&rt; cut.is_some_and(|d| damage(alloc, Kind::Source, d) == Some((2, 0))));
    // Of the other kind of store; a body that goes on behind its end; before its log; a log that begins twice.
    assert_eq!(&rt; damage_of(alloc, &[TABLE_CARRIED_OUT], 206), Some((2, 0)));
    assert_eq!(&rt; damage_of(alloc, &[&BYTE_MORE], 123), Some((2, 0)));
    assert_eq!(&rt; damage_of(alloc, &[TABLE_MADE], 206), Some((2, 0)));
    assert_eq!(&rt;
        damage_of(alloc, &[&LOG_BEGINS, &LOG_BEGINS], 123),
        Some((2, 26))
    );
    // The number before once more.
    assert_eq!(&rt;
        damage_of(alloc, &[&LOG_BEGINS, TABLE_MADE, &ROW_FIRST], 336),
        Some((2, 100))
    );
}

#[test]
fn what_cannot_be_made_is_damage(rt: HostRuntime) {
    let alloc = rt.alloc();
    // A definition that defines nothing; a table that is there; one that is not.
    assert_eq!(&rt;
        damage_of(alloc, &[&LOG_BEGINS, SELECTED], 206),
        Some((2, 26))
    );
    assert_eq!(&rt;
        damage_of(alloc, &[&LOG_BEGINS, TABLE_MADE, TABLE_AGAIN], 206),
        Some((2, 100))
    );
    assert_eq!(&rt;
        damage_of(alloc, &[&LOG_BEGINS, &ROW_FIRST], 336),
        Some((2, 26))
    );
    // A row that does not fit; a key that is taken; a row that is not there.
    assert_eq!(&rt;
        damage_of(alloc, &[&LOG_BEGINS, TABLE_MADE, &ROW_OF_ONE], 336),
        Some((2, 100))
    );
    assert_eq!(&rt;
        damage_of(
            alloc,
            &[&LOG_BEGINS, TABLE_MADE, &ROW_PUT_IN, &ROW_AGAIN],
            336
        ),
        Some((2, 148))
    );
    assert_eq!(&rt;
        damage_of(
            alloc,
            &[&LOG_BEGINS, TABLE_MADE, &ROW_PUT_IN, &OTHER_TAKEN_OUT],
            336
        ),
        Some((2, 148))
    );
}

/// A journal whose second record cannot be the next, and whose third is not whole.
fn twice_damaged(alloc: Global) -> Bytes {
    let mut file = journal(alloc, &[&LOG_BEGINS, &LOG_BEGINS]);
    let last = file.len().saturating_sub(1);
    if last < file.len() {
        file.set(last, 1);
    }
    file
}

#[test]
fn the_first_damage_is_told(rt: HostRuntime) {
    let alloc = rt.alloc();
    let records = disk(alloc, b"", b"", twice_damaged(alloc), (0, 0));
    assert!(&rt; records.is_some_and(|d| damage(alloc, Kind::Source, d) == Some((2, 26))));
    // Both snapshots, a record and a log.
    let all = disk(
        alloc,
        &NEW_SNAPSHOT,
        b"\x01\x00",
        twice_damaged(alloc),
        (0, 0),
    );
    assert!(&rt; all.is_some_and(|d| damage(alloc, Kind::Source, d) == Some((0, 0))));
}

#[test]
fn logs_are_damaged_at_their_lengths(rt: HostRuntime) {
    let alloc = rt.alloc();
    assert_eq!(&rt;
        damage_of(alloc, &[&LOG_BEGINS, TABLE_MADE], 205),
        Some((8, 205))
    );
    let both = journal(alloc, &[&LOG_BEGINS, &NEXT_BEGINS]);
    let second = disk(alloc, b"", b"", both, (163, 7));
    assert!(&rt; second.is_some_and(|d| damage(alloc, Kind::Source, d) == Some((9, 7))));
    let both = journal(alloc, &[&LOG_BEGINS, &NEXT_BEGINS]);
    let first = disk(alloc, b"", b"", both, (162, 7));
    assert!(&rt; first.is_some_and(|d| damage(alloc, Kind::Source, d) == Some((8, 162))));
}

#[test]
fn snapshots_are_damaged_at_their_first_byte(rt: HostRuntime) {
    let alloc = rt.alloc();
    let other_file = disk(alloc, &NEW_SNAPSHOT, b"", List::new(alloc), (123, 0));
    assert!(&rt; other_file.is_some_and(|d| damage(alloc, Kind::Source, d) == Some((0, 0))));
    let not_whole = disk(
        alloc,
        b"",
        &NEW_SNAPSHOT[..37],
        bytes(alloc, b"\x01\x00"),
        (123, 0),
    );
    assert!(&rt; not_whole.is_some_and(|d| damage(alloc, Kind::Source, d) == Some((1, 0))));
    let other_node = disk(alloc, b"", &NEW_SNAPSHOT, List::new(alloc), (123, 0));
    assert!(&rt; other_node.is_some_and(|d| damage(alloc, Kind::Replica, d) == Some((1, 0))));
}

/// A file with another length of less than 256 bytes in front of its body.
fn with_size(file: Bytes, size: u8) -> Bytes {
    let mut file = file;
    if file.len() > 1 {
        file.set(1, size);
    }
    file
}

/// The snapshot of generation 2 without its row, which its count tells of.
fn snapshot_without_row(alloc: Global) -> Bytes {
    with_size(bytes(alloc, &SNAPSHOT_OF_ROW[..124]), 115)
}

/// The same with two rows (n, 10), of these keys.
fn snapshot_of_rows(alloc: Global, first: u8, second: u8) -> Bytes {
    let mut file = bytes(alloc, &SNAPSHOT_OF_ROW[..116]);
    let _ = file.extend_from_slice(&[2, 0, 0, 0, 0, 0, 0, 0]);
    for id in [first, second] {
        let _ = file.extend_from_slice(&[2, 1, id, 0, 0, 0, 0, 0, 0, 0]);
        let _ = file.extend_from_slice(&[1, 10, 0, 0, 0, 0, 0, 0, 0]);
    }
    with_size(file, 153)
}

/// The place where a replica with this snapshot in file 0 is damaged.
fn damage_of_snapshot(alloc: Global, file: Bytes) -> Option<(u32, u64)> {
    damage(
        alloc,
        Kind::Replica,
        disk(alloc, file.as_slice(), b"", List::new(alloc), (0, 0))?,
    )
}

#[test]
fn rows_of_a_snapshot_are_whole_and_rise(rt: HostRuntime) {
    let alloc = rt.alloc();
    assert_eq!(&rt;
        damage_of_snapshot(alloc, snapshot_without_row(alloc)),
        Some((0, 0))
    );
    assert_eq!(&rt;
        damage_of_snapshot(alloc, snapshot_of_rows(alloc, 2, 1)),
        Some((0, 0))
    );
    assert_eq!(&rt;
        damage_of_snapshot(alloc, snapshot_of_rows(alloc, 1, 1)),
        Some((0, 0))
    );
    let rising = snapshot_of_rows(alloc, 1, 2);
    let whole = disk(alloc, rising.as_slice(), b"", List::new(alloc), (0, 0));
    let whole = opened(alloc, Kind::Replica, whole);
    assert!(&rt; whole.is_some_and(|o| has_key(alloc, &o, 1) && has_key(alloc, &o, 2)));
}

/// A source's disk with the new snapshot of generation 1, a damaged journal of generation 0, and this one of generation 1.
fn disk_of_next_generation(alloc: Global, journal: Bytes) -> Option<MemDisk> {
    let mut files = List::new(alloc);
    let _ = files.push(List::new(alloc));
    let _ = files.push(bytes(alloc, &NEW_SNAPSHOT));
    let _ = files.push(bytes(alloc, b"\x01\xff\x00"));
    let _ = files.push(journal);
    for _file in 4..8 {
        let _ = files.push(List::new(alloc));
    }
    let _ = files.push(bytes(alloc, &LOGGED[..336]));
    MemDisk::with_files(alloc, files).ok()
}

#[test]
fn a_journal_goes_by_its_generation(rt: HostRuntime) {
    let alloc = rt.alloc();
    let twice = disk_of_next_generation(alloc, journal(alloc, &[TABLE_MADE, TABLE_MADE]));
    assert!(&rt; twice.is_some_and(|d| damage(alloc, Kind::Source, d) == Some((3, 74))));
    let whole = disk_of_next_generation(alloc, journal(alloc, &[TABLE_MADE, &ROW_PUT_IN]));
    let whole = opened(alloc, Kind::Source, whole);
    assert!(&rt; whole.is_some_and(|o| o.store.number() == 2 && has_row(alloc, &o)));
}

/// A key of one number.
fn key(alloc: Global, number: i64) -> Row {
    let mut key = Row::new(alloc);
    let _ = key.push(Value::Int(number));
    key
}

/// Whether the table has the row (1, 10) and no row of key 2.
fn has_row(alloc: Global, o: &Opened) -> bool {
    let name = bytes(alloc, b"t");
    let tables = o.work.tables();
    if tables.get(&name, &key(alloc, 2)).is_some() {
        return false;
    }
    match tables.get(&name, &key(alloc, 1)) {
        Some(row) => match row.get(1) {
            Some(Value::Int(number)) => *number == 10,
            _ => false,
        },
        None => false,
    }
}

/// Whether the table has a row of this key.
fn has_key(alloc: Global, o: &Opened, number: i64) -> bool {
    let name = bytes(alloc, b"t");
    o.work.tables().get(&name, &key(alloc, number)).is_some()
}

/// What a disk's store holds.
fn opened(alloc: Global, node: Kind, disk: Option<MemDisk>) -> Option<Opened> {
    load(alloc, &mut disk?, node).ok()
}

#[test]
fn a_source_is_opened(rt: HostRuntime) {
    let alloc = rt.alloc();
    let none: &[u32] = &[];
    let empty = opened(
        alloc,
        Kind::Source,
        disk(alloc, b"", b"", List::new(alloc), (0, 0)),
    );
    assert!(&rt; empty.is_some_and(|o| o.store.number() == 0 && o.store.ends() == none));
    let file = journal(alloc, &[&LOG_BEGINS, TABLE_MADE, &ROW_PUT_IN]);
    let ends: &[u32] = &[336];
    let whole = opened(alloc, Kind::Source, disk(alloc, b"", b"", file, (400, 0)));
    assert!(&rt;
        whole.is_some_and(|o| o.store.number() == 2 && o.store.ends() == ends && has_row(alloc, &o))
    );
}

#[test]
fn a_replica_is_opened(rt: HostRuntime) {
    let alloc = rt.alloc();
    let file = journal(alloc, &[TABLE_CARRIED_OUT, &ROW_CARRIED_OUT, &PLACE_MOVED]);
    let whole = opened(alloc, Kind::Replica, disk(alloc, b"", b"", file, (0, 0)));
    assert!(&rt;
        whole.is_some_and(|o| o.store.number() == 2
            && o.store.log() == 2
            && o.store.pos() == 4
            && has_row(alloc, &o))
    );
}

#[test]
fn a_snapshot_is_opened(rt: HostRuntime) {
    let alloc = rt.alloc();
    let ends: &[u32] = &[123];
    let new = opened(
        alloc,
        Kind::Source,
        disk(
            alloc,
            b"",
            &NEW_SNAPSHOT,
            bytes(alloc, b"\x01\xff\x00"),
            (123, 0),
        ),
    );
    assert!(&rt; new.is_some_and(|o| o.store.generation() == 1 && o.store.ends() == ends));
    let filled = opened(
        alloc,
        Kind::Replica,
        disk(alloc, SNAPSHOT_OF_ROW, b"", List::new(alloc), (0, 0)),
    );
    assert!(&rt;
        filled.is_some_and(|o| o.store.generation() == 2
            && o.store.number() == 2
            && o.store.pos() == 336
            && has_row(alloc, &o))
    );
}

/// A snapshot of a replica that has nothing, of a generation, behind transaction 1 at log 1, position 206.
fn snapshot_of_nothing(alloc: Global, generation: u8) -> Bytes {
    bytes(
        alloc,
        &[
            1, 29, 0, 0, 0, 0, 0, 0, 0, // open, 29 bytes
            2, generation, 0, 0, 0, 0, 0, 0, 0, 1, 0, 0, 0, 0, 0, 0, 0, // a replica, number 1
            1, 0, 0, 0, 206, 0, 0, 0, 0, 0, 0, 0,
        ],
    )
}

#[test]
fn the_greater_generation_counts(rt: HostRuntime) {
    let alloc = rt.alloc();
    let other = snapshot_of_nothing(alloc, 1);
    let older = opened(
        alloc,
        Kind::Replica,
        disk(
            alloc,
            SNAPSHOT_OF_ROW,
            other.as_slice(),
            List::new(alloc),
            (0, 0),
        ),
    );
    assert!(&rt;
        older.is_some_and(|o| o.store.generation() == 2
            && o.store.pos() == 336
            && has_row(alloc, &o))
    );
    let other = snapshot_of_nothing(alloc, 3);
    let newer = opened(
        alloc,
        Kind::Replica,
        disk(
            alloc,
            SNAPSHOT_OF_ROW,
            other.as_slice(),
            List::new(alloc),
            (0, 0),
        ),
    );
    assert!(&rt;
        newer.is_some_and(|o| o.store.generation() == 3
            && o.store.number() == 1
            && o.store.pos() == 206)
    );
}

#[test]
fn counters_start_behind_what_is_held(rt: HostRuntime) {
    let alloc = rt.alloc();
    let name = bytes(alloc, b"t");
    let file = journal(alloc, &[&LOG_BEGINS, COUNTED_MADE, &ROW_PUT_IN]);
    let counted = opened(alloc, Kind::Source, disk(alloc, b"", b"", file, (400, 0)));
    assert!(&rt; counted.is_some_and(|o| o.work.counters().value(&name) == 2));
}
