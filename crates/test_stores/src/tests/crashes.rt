//! Stores over disks in which each call fails in turn, and what four crashes leave of them.
ghost use Rattle.std.specs.Prelude.{◌<◌, ◌≤◌};

use super::bytes;
use super::tables::{
    CHANGE_CARRIED_OUT, LOG_BEGINS, PLACE_MOVED, REMOVAL_CARRIED_OUT, ROW_CARRIED_OUT, ROW_CHANGED,
    ROW_PUT_IN, ROW_TAKEN_OUT, TABLE_CARRIED_OUT, TABLE_MADE,
};
use crate::{Step, commit_steps, opened};
use commit_store::Store;
use crash_images::{CRASHES, image};
use disk_model::{Disk, FuseDisk, MemDisk, OpenRefusal};
use gate_journal::scan;
use std::alloc::Global;
use store_model::Kind;
use val_types::{Bytes, List};

// ---- scripts

/// Records that a store of one kind commits, one by one.
#[derive(Drop)]
struct Script {
    node: Kind,
    steps: List<Step>,
}

/// A record of a source: log 1 begins, a table, and three changes of its row.
fn of_source(j: usize) -> &'static [u8] {
    match j {
        0 => &LOG_BEGINS,
        1 => TABLE_MADE,
        2 => &ROW_PUT_IN,
        3 => &ROW_CHANGED,
        _ => &ROW_TAKEN_OUT,
    }
}

/// A record of a replica: the same without the log, and the place at the next one.
fn of_replica(j: usize) -> &'static [u8] {
    match j {
        0 => TABLE_CARRIED_OUT,
        1 => &ROW_CARRIED_OUT,
        2 => &CHANGE_CARRIED_OUT,
        3 => &REMOVAL_CARRIED_OUT,
        _ => &PLACE_MOVED,
    }
}

/// Where log 1 ends behind each record of a source.
static ENDS: [u32; 5] = [123, 206, 336, 466, 596];

/// What the readers give before and behind each record: on a source the number; on a replica number, log and position.
static NUMBERS: [u64; 6] = [0, 0, 1, 2, 3, 4];

static PLACES: [(u64, u32, u32); 6] = [
    (0, 1, 4),
    (1, 1, 206),
    (2, 1, 336),
    (3, 1, 466),
    (4, 1, 596),
    (4, 2, 4),
];

/// Bytes of the number in the row, at byte 35 of the two records that have it.
static IN_ROW: [u8; 6] = [10, 0, 1, 255, 90, 7];

/// Bytes of a log.
static LOGGED: [u8; 130] = [0x4c; 130];

/// Of each record of a source, how many bytes it puts behind the log.
static PIECES: [usize; 5] = [123, 83, 130, 130, 130];

/// A body, with another byte where it has a row of a number.
fn body_with(alloc: Global, of: &[u8], byte: u8) -> Bytes {
    let mut body = bytes(alloc, of);
    if body.len() == 43 || body.len() == 54 {
        body.set(35, byte);
    }
    body
}

/// Step j of a script, with a byte in its row.
fn step(alloc: Global, node: Kind, j: usize, byte: u8) -> Step {
    if is_source(node) {
        let size = PIECES[j.min(4)].min(130);
        Step {
            body: body_with(alloc, of_source(j), byte),
            piece: bytes(alloc, &LOGGED[..size]),
        }
    } else {
        Step {
            body: body_with(alloc, of_replica(j), byte),
            piece: List::new(alloc),
        }
    }
}

/// One of 60 scripts: of either kind, of one to five records, with one of six rows.
fn made_script(alloc: Global, i: usize) -> Script {
    let node = if i % 2 == 0 {
        Kind::Source
    } else {
        Kind::Replica
    };
    let mut steps = List::new(alloc);
    for j in 0..1 + i / 2 % 5 {
        let _ = steps.push(step(alloc, node, j, IN_ROW[i / 10 % 6]));
    }
    Script { node, steps }
}

fn is_source(node: Kind) -> bool {
    match node {
        Kind::Source => true,
        Kind::Replica => false,
    }
}

// ---- what is left

/// How many of the records, from the first on, a disk reads that has come up with this journal; None where it reads others.
fn reads(alloc: Global, journal: Bytes, steps: &[Step]) -> Option<usize> {
    let mut files = List::new(alloc);
    let _ = files.push(List::new(alloc));
    let _ = files.push(List::new(alloc));
    let _ = files.push(journal);
    let mut disk = MemDisk::with_files(alloc, files).ok()?;
    let found = scan(alloc, &mut disk, 2).ok()?.bodies;
    for (i, body) in found.as_slice().iter().enumerate() {
        if body.as_slice() != steps.get(i)?.body.as_slice() {
            return None;
        }
    }
    Some(found.len())
}

/// Whether a log is as long as so many records of a source say.
fn is_long(log: &[u8], count: usize) -> bool {
    match count.checked_sub(1) {
        Some(last) => match ENDS.get(last) {
            Some(end) => log.len() >= *end as usize,
            None => false,
        },
        None => true,
    }
}

// ---- runs

/// How many calls a record of a script takes: four, and on a source four more for its log.
fn calls_each(node: Kind) -> usize
    ensures { 0 < result }
{
    if is_source(node) { 8 } else { 4 }
}

/// How many calls a script takes: five open, and then come those of its records, of which there are at most five.
fn calls_of(script: &Script) -> usize
    ensures { result ≤ 45 }
{
    let count = script.steps.len().min(5);
    if is_source(script.node) {
        5 + 8 * count
    } else {
        5 + 4 * count
    }
}

/// How many records are kept where the k-th call is the last, and whether one more may be: five calls open; the last two
/// of a record's open its gate.
fn counted(script: &Script, k: usize) -> (usize, usize) {
    let each = calls_each(script.node);
    let count = script.steps.len().min(5);
    if k == 0 || k > calls_of(script) {
        return (count, 0);
    }
    if k <= 5 {
        return (0, 0);
    }
    let (done, inside) = ((k - 6) / each, (k - 6) % each);
    (done, if inside + 2 >= each { 1 } else { 0 })
}

/// Whether a store's readers give what so many records have set.
fn has_reached(store: &Store, count: usize) -> bool {
    let at = count.min(5);
    let none: &[u32] = &[];
    if store.generation() != 0 {
        return false;
    }
    if !is_source(store.node()) {
        return (store.number(), store.log(), store.pos()) == PLACES[at] && store.ends() == none;
    }
    let ends = match at.checked_sub(1) {
        Some(last) => &ENDS[last..at],
        None => none,
    };
    store.number() == NUMBERS[at] && store.ends() == ends && store.log() == 1 && store.pos() == 4
}

/// Commits a script to a disk: whether all is done, or the disk failed; None where it ended otherwise, or the readers give
/// anything but what so many records have set.
fn run(alloc: Global, disk: &mut FuseDisk, script: &Script, count: usize) -> Option<bool> {
    let mut store = match opened(alloc, disk, script.node) {
        Ok(Some(store)) => store,
        Err(OpenRefusal::Disk) => return Some(false),
        _ => return None,
    };
    let ended = commit_steps(alloc, &mut store, disk, script.steps.as_slice());
    if !has_reached(&store, count) {
        return None;
    }
    match ended {
        Ok(true) => Some(true),
        Err(OpenRefusal::Disk) => Some(false),
        _ => None,
    }
}

/// Whether each crash of a run whose k-th call fails leaves what was held, or in the last two calls of a commit that or what
/// its record makes of it.
fn holds(alloc: Global, script: &Script, k: usize) -> bool {
    let mut disk = FuseDisk::new(MemDisk::new(alloc), k as u64);
    let (sure, more) = counted(script, k);
    let fails = 0 < k && k <= calls_of(script);
    if run(alloc, &mut disk, script, sure) != Some(!fails) || fails && disk.calls() != k as u64 {
        return false;
    }
    for crash in &CRASHES {
        let calls = disk.inner().history();
        let log = image(alloc, b"", calls, 8, *crash);
        match reads(
            alloc,
            image(alloc, b"", calls, 2, *crash),
            script.steps.as_slice(),
        ) {
            Some(count) if count == sure || count == sure.saturating_add(more) => {
                if is_source(script.node) && !is_long(log.as_slice(), count) {
                    return false;
                }
            }
            _ => return false,
        }
    }
    true
}

/// Whether each call of a script that fails leaves what it may, and a run without one.
fn all_hold(alloc: Global, i: usize) -> bool {
    let script = made_script(alloc, i);
    for k in 0..=calls_of(&script) {
        if !holds(alloc, &script, k) {
            return false;
        }
    }
    true
}

#[test]
fn crashes_leave_what_was_committed(rt: HostRuntime) {
    let alloc = rt.alloc();
    for i in 0..20 {
        assert!(&rt; all_hold(alloc, i), "script {i}");
    }
}

#[test]
fn more_crashes_leave_what_was_committed(rt: HostRuntime) {
    let alloc = rt.alloc();
    for i in 20..40 {
        assert!(&rt; all_hold(alloc, i), "script {i}");
    }
}

#[test]
fn the_last_crashes_leave_what_was_committed(rt: HostRuntime) {
    let alloc = rt.alloc();
    for i in 40..60 {
        assert!(&rt; all_hold(alloc, i), "script {i}");
    }
}

/// A store that a record made, byte by byte: log 1 begins.
#[test]
fn a_new_source_has_these_bytes(rt: HostRuntime) {
    let alloc = rt.alloc();
    let script = made_script(alloc, 0);
    let mut disk = FuseDisk::new(MemDisk::new(alloc), 0);
    assert!(&rt; run(alloc, &mut disk, &script, 1) == Some(true));
    // A gate, 21 bytes, the record, and a closed gate.
    assert_eq!(&rt; disk.inner().contents(2).len(), 27);
    assert!(&rt;
        disk.inner()
            .contents(2)
            .starts_with(b"\x01\x15\x00\x00\x00")
    );
    assert!(&rt; disk.inner().contents(2)[5..26] == LOG_BEGINS[..]);
    assert!(&rt; disk.inner().contents(2).ends_with(b"\x00"));
    assert_eq!(&rt; disk.inner().contents(8).len(), 123);
}
