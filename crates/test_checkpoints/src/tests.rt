//! Checkpoints of stores by hand. What wants memory is left out, and then the test fails. Numbers have their least byte first.

use crate::{checkpointed, checkpointed_beside};
use crash_images::{CRASHES, disk_left, files_left};
use disk_model::FuseDisk;
use sharing::Shared;
use std::alloc::Global;
use store_model::Kind;
use store_open::{Opened, load};
use val_types::{Bytes, List, Row, Value};

/// A source's journal: log 1 begins and ends at 123; transaction 1 makes a table, log 1 ends at 206; transaction 2 puts in the row (1, 10),
/// log 1 ends at 336.
static NEW_SOURCE: &[u8] =
    b"\x01\x15\x00\x00\x00\x03\x00\x00\x00\x00\x00\x00\x00\x00\x01\x00\x00\x00\x7b\x00\x00\x00\x00\x00\x00\x00\x00";

pub(crate) static SOURCE_WITH_ROW: &[u8] =
    b"\x01\x15\x00\x00\x00\x03\x00\x00\x00\x00\x00\x00\x00\x00\x01\x00\x00\x00\x7b\x00\x00\x00\x00\x00\x00\x00\x01\x45\x00\x00\x00\x02\x01\x00\x00\x00\x00\x00\x00\x00\x01\x00\x00\x00\xce\x00\x00\x00\x30\x00\x00\x00CREATE TABLE t (id INT, v INT, PRIMARY KEY (id))\x01\x2b\x00\x00\x00\x01\x02\x00\x00\x00\x00\x00\x00\x00\x01\x00\x00\x00\x50\x01\x00\x00\x01\x00\x00\x00\x01\x01\x74\x02\x01\x01\x00\x00\x00\x00\x00\x00\x00\x01\x0a\x00\x00\x00\x00\x00\x00\x00\x00";

/// A replica's: the same, carried out.
static REPLICA_WITH_ROW: &[u8] =
    b"\x01\x45\x00\x00\x00\x12\x01\x00\x00\x00\x00\x00\x00\x00\x01\x00\x00\x00\xce\x00\x00\x00\x30\x00\x00\x00CREATE TABLE t (id INT, v INT, PRIMARY KEY (id))\x01\x2b\x00\x00\x00\x11\x02\x00\x00\x00\x00\x00\x00\x00\x01\x00\x00\x00\x50\x01\x00\x00\x01\x00\x00\x00\x01\x01\x74\x02\x01\x01\x00\x00\x00\x00\x00\x00\x00\x01\x0a\x00\x00\x00\x00\x00\x00\x00\x00";

/// A snapshot of the new source: open, 29 bytes; a source, generation 1, number 0; one log that ends at 123; no object.
static NEW_SNAPSHOT: [u8; 38] = [
    1, 29, 0, 0, 0, 0, 0, 0, 0, 1, 1, 0, 0, 0, 0, 0, 0, 0, 0, 0, 0, 0, 0, 0, 0, 0, 1, 0, 0, 0, 123,
    0, 0, 0, 0, 0, 0, 0,
];

/// A snapshot of the replica: open, 134 bytes; a replica, generation 1, number 2, place 1:336; one object, its text, one row of two values.
static REPLICA_SNAPSHOT: &[u8] =
    b"\x01\x86\x00\x00\x00\x00\x00\x00\x00\x02\x01\x00\x00\x00\x00\x00\x00\x00\x02\x00\x00\x00\x00\x00\x00\x00\x01\x00\x00\x00\x50\x01\x00\x00\x01\x00\x00\x00\x46\x00\x00\x00\x00\x00\x00\x00CREATE TABLE `t` (`id` INT NOT NULL, `v` INT NULL, PRIMARY KEY (`id`))\x01\x00\x00\x00\x00\x00\x00\x00\x02\x01\x01\x00\x00\x00\x00\x00\x00\x00\x01\x0a\x00\x00\x00\x00\x00\x00\x00";

pub(crate) static LOGGED: [u8; 336] = [0x4c; 336];

/// Bytes with memory of their own.
pub(crate) fn bytes(alloc: Global, of: &[u8]) -> Bytes {
    let mut bytes = List::new(alloc);
    let _ = bytes.extend_from_slice(of);
    bytes
}

/// The files of a disk with a journal of generation 0 and so many bytes of a log.
pub(crate) fn files(alloc: Global, journal: &[u8], log: usize) -> List<Bytes> {
    let mut files = List::new(alloc);
    let _ = files.push(List::new(alloc));
    let _ = files.push(List::new(alloc));
    let _ = files.push(bytes(alloc, journal));
    for _file in 3..8 {
        let _ = files.push(List::new(alloc));
    }
    let _ = files.push(bytes(alloc, &LOGGED[..log.min(336)]));
    files
}

/// A row of two values.
fn row(alloc: Global, id: i64, v: i64) -> Row {
    let mut row = List::new(alloc);
    let _ = row.push(Value::Int(id));
    let _ = row.push(Value::Int(v));
    row
}

/// The files behind so many checkpoints; none where memory was short or one was refused.
pub(crate) fn files_behind(
    alloc: Global,
    start: &[Bytes],
    node: Kind,
    times: u32,
) -> Option<List<Bytes>> {
    let mut disk = disk_left(alloc, start)?;
    checkpointed(alloc, &mut disk, node, times).ok()?;
    let mut behind = List::new(alloc);
    for f in 0..9 {
        let _ = behind.push(bytes(alloc, disk.contents(f)));
    }
    Some(behind)
}

/// Whether a file has these bytes.
pub(crate) fn has(files: &List<Bytes>, f: usize, of: &[u8]) -> bool {
    files.get(f).is_some_and(|file| file.as_slice() == of)
}

/// Whether these rows are this one of two values alone.
fn are_row(alloc: Global, rows: &List<Shared<Row>>, id: i64, v: i64) -> bool {
    match rows.get(0) {
        Some(held) => {
            let expected = row(alloc, id, v);
            rows.len() == 1 && held.get().as_slice() == expected.as_slice()
        }
        None => false,
    }
}

/// Whether what is there to stay of the table t is that.
pub(crate) fn has_row(alloc: Global, opened: &Opened, id: i64, v: i64) -> bool {
    let tables = opened.work.tables();
    let Some(at) = tables.place(&bytes(alloc, b"t")) else {
        return false;
    };
    match tables.committed_rows(at) {
        Ok(rows) => are_row(alloc, &rows, id, v),
        Err(_) => false,
    }
}

/// The generation of the store on the disk that comes up with these files, if it holds transaction 2, and the row (1, 10) alone.
pub(crate) fn held_at(alloc: Global, files: &[Bytes], node: Kind) -> Option<u64> {
    let mut disk = disk_left(alloc, files)?;
    match load(alloc, &mut disk, node) {
        Ok(opened) if opened.store.number() == 2 && has_row(alloc, &opened, 1, 10) => {
            Some(opened.store.generation())
        }
        _ => None,
    }
}

#[test]
fn a_source_by_hand(rt: HostRuntime) {
    let alloc = rt.alloc();
    let start = files(alloc, NEW_SOURCE, 123);
    let once = files_behind(alloc, start.as_slice(), Kind::Source, 1);
    assert!(&rt;
        once.is_some_and(|f| has(&f, 1, &NEW_SNAPSHOT)
            && has(&f, 3, &[0])
            && has(&f, 2, NEW_SOURCE))
    );
}

#[test]
fn a_replica_by_hand(rt: HostRuntime) {
    let alloc = rt.alloc();
    let start = files(alloc, REPLICA_WITH_ROW, 0);
    let once = files_behind(alloc, start.as_slice(), Kind::Replica, 1);
    assert!(&rt; once.is_some_and(|f| has(&f, 1, REPLICA_SNAPSHOT)));
}

#[test]
fn a_hundred_in_a_row(rt: HostRuntime) {
    let alloc = rt.alloc();
    let start = files(alloc, SOURCE_WITH_ROW, 336);
    let behind = files_behind(alloc, start.as_slice(), Kind::Source, 100);
    assert!(&rt; behind.is_some_and(|f| held_at(alloc, f.as_slice(), Kind::Source) == Some(100)));
}

/// Whether a stop of the k-th call of a checkpoint leaves what was held, with each crash, at this generation or the next; none where no call
/// was stopped.
fn stopped(alloc: Global, node: Kind, start: &[Bytes], generation: u64, k: u64) -> Option<bool> {
    let inner = disk_left(alloc, start)?;
    let mut disk = FuseDisk::new(inner, k);
    if checkpointed(alloc, &mut disk, node, 1).is_ok() {
        return None;
    }
    for crash in &CRASHES {
        let left = files_left(alloc, start, disk.inner().history(), *crash);
        match held_at(alloc, left.as_slice(), node) {
            Some(of) if of == generation || of == generation.saturating_add(1) => {}
            _ => return Some(false),
        }
    }
    Some(true)
}

/// Whether all stops do of a checkpoint from these files, which are more than twelve.
fn all_stopped(alloc: Global, node: Kind, start: &[Bytes], generation: u64) -> bool {
    for k in 1..60 {
        match stopped(alloc, node, start, generation, k) {
            Some(true) => {}
            Some(false) => return false,
            None => return k > 12,
        }
    }
    false
}

/// Whether all stops of the first checkpoint do, of a store with this journal and so many bytes of a log.
fn first_stopped(alloc: Global, node: Kind, journal: &[u8], log: usize) -> bool {
    let start = files(alloc, journal, log);
    all_stopped(alloc, node, start.as_slice(), 0)
}

#[test]
fn stops_leave_what_was_held(rt: HostRuntime) {
    let alloc = rt.alloc();
    assert!(&rt; first_stopped(alloc, Kind::Source, SOURCE_WITH_ROW, 336));
    assert!(&rt; first_stopped(alloc, Kind::Replica, REPLICA_WITH_ROW, 0));
}

/// Whether all stops of a checkpoint behind so many others do.
fn later_stopped(alloc: Global, times: u32) -> bool {
    let start = files(alloc, SOURCE_WITH_ROW, 336);
    match files_behind(alloc, start.as_slice(), Kind::Source, times) {
        Some(behind) => { all_stopped(alloc, Kind::Source, behind.as_slice(), u64::from(times)) }
        None => false,
    }
}

#[test]
fn later_stops_do_too(rt: HostRuntime) {
    let alloc = rt.alloc();
    assert!(&rt; later_stopped(alloc, 1));
    assert!(&rt; later_stopped(alloc, 2));
}

/// The generation of a checkpoint beside the row (2, 20), which is not there to stay, if the store holds the row (1, 10) alone.
fn held_beside(alloc: Global) -> Option<u64> {
    let start = files(alloc, SOURCE_WITH_ROW, 336);
    let mut disk = disk_left(alloc, start.as_slice())?;
    let name = bytes(alloc, b"t");
    let made = checkpointed_beside(alloc, &mut disk, Kind::Source, &name, row(alloc, 2, 20)).ok()?;
    let mut behind = List::new(alloc);
    for f in 0..9 {
        let _ = behind.push(bytes(alloc, disk.contents(f)));
    }
    if made {
        held_at(alloc, behind.as_slice(), Kind::Source)
    } else {
        None
    }
}

#[test]
fn open_changes_are_in_no_snapshot(rt: HostRuntime) {
    assert_eq!(&rt; held_beside(rt.alloc()), Some(1));
}
