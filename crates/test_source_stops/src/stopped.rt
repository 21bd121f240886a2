//! A source that stops inside and behind each call of its disk, and what it finds when it opens again: the tables behind a front of what it
//! committed, which holds all that its marks name and all that it answered.

use answer_text::Mark;
use crash_images::{CRASHES, disk_left, files_left, no_files};
use disk_model::{Disk, FuseDisk, MemDisk};
use program_calls::{Call, Ended, FILES, SHOP, answered, asked, dump_at, dumped, named, over};
use std::alloc::Global;
use val_types::Bytes;

/// How many transactions the commands with these numbers, from 1 on, have committed.
static COMMITTED: [u64; 24] = [
    0, 1, 2, 3, 4, 5, 6, 7, 8, 9, 10, 10, 11, 12, 13, 13, 14, 15, 15, 15, 15, 16, 16, 17,
];

/// The call that carries out the shop.
fn shop() -> Call<'static> {
    asked("run", SHOP.as_bytes())
}

/// Whether these files hold the shop behind so many transactions, or behind one more.
fn holds(alloc: Global, files: &[Bytes], least: u64) -> bool {
    match dumped(alloc, files) {
        Some(text) => {
            text.as_slice() == dump_at(alloc, least).as_slice()
                || text.as_slice() == dump_at(alloc, least.saturating_add(1)).as_slice()
        }
        None => false,
    }
}

/// Whether marks name each number once and in order, from 1 on.
fn are_in_order(marks: &[Mark]) -> bool {
    for (i, mark) in marks.iter().enumerate() {
        if mark.committed != i as u64 + 1 {
            return false;
        }
    }
    true
}

/// Whether the marks of a call that stopped name all that it answered, and no more than the command in flight adds.
fn names_answered(ended: &Ended) -> bool {
    let count = answered(ended.written.as_slice());
    let number = named(ended.report.marks.as_slice());
    match (COMMITTED.get(count), COMMITTED.get(count.saturating_add(1))) {
        (Some(before), Some(after)) => *before <= number && number <= *after,
        (Some(before), None) => number == *before,
        _ => false,
    }
}

/// Whether a call whose k-th call of the disk fails stops there, and each crash leaves a front of the transactions that holds what the
/// marks name.
fn stops_well(alloc: Global, k: u64) -> bool {
    let mut disk = FuseDisk::new(MemDisk::new(alloc), k);
    let Some(ended) = over(alloc, &shop(), &mut disk, &mut MemDisk::new(alloc)) else {
        return false;
    };
    if ended.line.as_slice() != b"source disk fault\n".as_slice()
        || disk.calls() != k
        || !names_answered(&ended)
        || !are_in_order(ended.report.marks.as_slice())
    {
        return false;
    }
    let least = named(ended.report.marks.as_slice());
    let none = no_files(alloc, FILES);
    for crash in CRASHES.iter() {
        let files = files_left(alloc, none.as_slice(), disk.inner().history(), *crash);
        if !holds(alloc, files.as_slice(), least) {
            return false;
        }
    }
    true
}

/// How many calls of the disk the shop takes, and whether it ends well with all that it committed.
fn calls_of_the_shop(alloc: Global) -> Option<u64> {
    let mut disk = MemDisk::new(alloc);
    let ended = over(alloc, &shop(), &mut disk, &mut MemDisk::new(alloc))?;
    if !ended.line.is_empty() || named(ended.report.marks.as_slice()) != 17 {
        return None;
    }
    Some(disk.calls())
}

/// The first call from one on that does not stop well, up to another one; that one where each does.
fn first_bad(alloc: Global, from: u64, to: u64) -> u64 {
    for k in from..to {
        if !stops_well(alloc, k) {
            return k;
        }
    }
    to
}

/// Whether each of the calls of one third stops well: 18 entries take six calls each, and opening some before them.
fn third_stops_well(alloc: Global, third: u64) -> bool {
    let Some(calls) = calls_of_the_shop(alloc) else {
        return false;
    };
    if calls <= 108 || calls >= 200 {
        return false;
    }
    let (from, to) = match third {
        0 => (1, 40),
        1 => (40, 80),
        _ => (80, calls + 1),
    };
    first_bad(alloc, from, to) == to
}

#[test]
fn stops_at_the_first_calls(rt: HostRuntime) {
    assert!(&rt; third_stops_well(rt.alloc(), 0));
}

#[test]
fn stops_at_the_middle_calls(rt: HostRuntime) {
    assert!(&rt; third_stops_well(rt.alloc(), 1));
}

#[test]
fn stops_at_the_last_calls(rt: HostRuntime) {
    assert!(&rt; third_stops_well(rt.alloc(), 2));
}

/// The dump of the whole shop, line by line.
#[test]
fn the_shop_is_dumped(rt: HostRuntime) {
    let alloc = rt.alloc();
    let mut disk = MemDisk::new(alloc);
    let _ = over(alloc, &shop(), &mut disk, &mut MemDisk::new(alloc));
    let none = no_files(alloc, FILES);
    let files = files_left(
        alloc,
        none.as_slice(),
        disk.history(),
        crash_images::Crash::Nothing,
    );
    let text = dumped(alloc, files.as_slice());
    assert!(&rt; text.is_some_and(|text| text.as_slice() == dump_at(alloc, 17).as_slice()));
}

// ---- a second stop inside the opening of what the first one left

/// Whether each call of an opening over these files may be its last, and what it leaves holds the same tables.
fn opens_well(alloc: Global, files: &[Bytes], least: u64) -> bool {
    let Some(text) = dumped(alloc, files) else {
        return false;
    };
    for k in 1..20 {
        let Some(disk) = disk_left(alloc, files) else {
            return false;
        };
        let mut disk = FuseDisk::new(disk, k);
        let ended = over(
            alloc,
            &asked("run", b""),
            &mut disk,
            &mut MemDisk::new(alloc),
        );
        let Some(ended) = ended else {
            return false;
        };
        if ended.line.is_empty() {
            return k > 1 && disk.calls() < k && holds(alloc, files, least);
        }
        for crash in CRASHES.iter() {
            let left = files_left(alloc, files, disk.inner().history(), *crash);
            match dumped(alloc, left.as_slice()) {
                Some(again) if again.as_slice() == text.as_slice() => {}
                _ => return false,
            }
        }
    }
    false
}

/// What the crashes of a stop leave is opened again, and each call of that may be the last one too.
fn opens_behind(alloc: Global, k: u64) -> bool {
    let mut disk = FuseDisk::new(MemDisk::new(alloc), k);
    let Some(ended) = over(alloc, &shop(), &mut disk, &mut MemDisk::new(alloc)) else {
        return false;
    };
    let none = no_files(alloc, FILES);
    for crash in CRASHES.iter() {
        let files = files_left(alloc, none.as_slice(), disk.inner().history(), *crash);
        if !opens_well(
            alloc,
            files.as_slice(),
            named(ended.report.marks.as_slice()),
        ) {
            return false;
        }
    }
    true
}

#[test]
fn an_opening_may_stop_too(rt: HostRuntime) {
    let alloc = rt.alloc();
    for k in [1, 5, 9, 12, 60, 63, 65, 66] {
        assert!(&rt; opens_behind(alloc, k), "call {k}");
    }
}
