//! A replica that stops inside and behind each call of its disk, and what it finds when it opens again: the shop behind a front of what it
//! carried out, which holds all that its marks name and all that it answered.

use crate::replicas::{log_of, shop_with, shows_shop};
use answer_text::Mark;
use crash_images::{CRASHES, Crash, disk_left, files_left, no_files};
use disk_model::{Disk, FuseDisk, MemDisk};
use program_calls::{
    Ended, FILES, SHOP, again, answered, asked, dumped, dumped_replica, files_of, named_applied,
    over,
};
use std::alloc::Global;
use val_types::{Bytes, List};

/// What the replica does behind the shop: all is fetched at once, and carried out by threes.
static BY_THREES: &str = "replica: FETCH 100000 //
replica: APPLY 3 //
replica: APPLY 3 //
replica: APPLY 3 //
replica: APPLY 3 //
replica: APPLY 3 //
replica: APPLY 3 //
";

/// Whether these files hold the shop behind so many transactions, or behind one more.
fn holds(alloc: Global, files: &[Bytes], least: u64) -> bool {
    shows_shop(alloc, files, least) || shows_shop(alloc, files, least.saturating_add(1))
}

/// Whether marks name each number once and in order, first of the source and then of the replica, from 1 on.
fn are_in_order(marks: &[Mark]) -> bool {
    let mut committed: u64 = 0;
    let mut applied: u64 = 0;
    for mark in marks {
        if committed < 17 {
            committed += 1;
        } else {
            applied = applied.saturating_add(1);
        }
        if mark.committed != committed || mark.applied != applied {
            return false;
        }
    }
    true
}

/// Whether the marks of a call that stopped name all that it answered, and no more than the command in flight adds: 24 lines stand before
/// those of APPLY, which carry out three groups each, the last one two.
fn names_answered(ended: &Ended) -> bool {
    let lines = answered(ended.written.as_slice()) as u64;
    let number = named_applied(ended.report.marks.as_slice());
    match lines.checked_sub(24) {
        Some(applies) => {
            let before = applies.saturating_mul(3).min(17);
            before <= number && number <= before.saturating_add(3).min(17)
        }
        None => number == 0,
    }
}

/// Whether a later call goes on with what a crash left of the replica, until it has what the source has.
fn catches_up(alloc: Global, source: &MemDisk, files: &[Bytes]) -> bool {
    match caught_up(alloc, source, files) {
        Some((at_source, at_replica)) => at_source.as_slice() == at_replica.as_slice(),
        None => false,
    }
}

/// The dumps of both behind that call.
fn caught_up(alloc: Global, source: &MemDisk, files: &[Bytes]) -> Option<(Bytes, Bytes)> {
    let mut source = again(alloc, source)?;
    let mut replica = disk_left(alloc, files)?;
    let ended = over(
        alloc,
        &asked("run", b"replica: FETCH 100000 //\nreplica: APPLY 100 //\n"),
        &mut source,
        &mut replica,
    )?;
    if !ended.line.is_empty() {
        return None;
    }
    let at_source = dumped(alloc, files_of(alloc, &source).as_slice())?;
    let at_replica = dumped_replica(alloc, files_of(alloc, &replica).as_slice())?;
    Some((at_source, at_replica))
}

/// Whether a call whose k-th call of the replica's disk fails stops there, and each crash leaves a front of the transactions that holds
/// what the marks name, and with which a later call goes on.
fn stops_well(alloc: Global, k: u64) -> bool {
    let script = shop_with(alloc, BY_THREES);
    let mut source = MemDisk::new(alloc);
    let mut disk = FuseDisk::new(MemDisk::new(alloc), k);
    let ended = over(
        alloc,
        &asked("run", script.as_slice()),
        &mut source,
        &mut disk,
    );
    match ended {
        Some(ended) => {
            ended.line.as_slice() == b"replica disk fault\n".as_slice()
                && disk.calls() == k
                && names_answered(&ended)
                && are_in_order(ended.report.marks.as_slice())
                && crashes_leave(
                    alloc,
                    &source,
                    disk.inner(),
                    named_applied(ended.report.marks.as_slice()),
                )
        }
        None => false,
    }
}

/// What a crash leaves of a disk that had no files.
fn left(alloc: Global, disk: &MemDisk, crash: Crash) -> List<Bytes> {
    let none = no_files(alloc, FILES);
    files_left(alloc, none.as_slice(), disk.history(), crash)
}

/// Whether each crash leaves the shop behind so many transactions or one more, with which a later call goes on.
fn crashes_leave(alloc: Global, source: &MemDisk, replica: &MemDisk, least: u64) -> bool {
    for crash in CRASHES.iter() {
        let files = left(alloc, replica, *crash);
        if !holds(alloc, files.as_slice(), least) || !catches_up(alloc, source, files.as_slice()) {
            return false;
        }
    }
    true
}

/// How many calls of the replica's disk all that takes; none where it does not end well, with all carried out.
fn calls_of_all(alloc: Global) -> Option<u64> {
    let script = shop_with(alloc, BY_THREES);
    let mut disk = MemDisk::new(alloc);
    let ended = over(
        alloc,
        &asked("run", script.as_slice()),
        &mut MemDisk::new(alloc),
        &mut disk,
    )?;
    if ended.line.is_empty() && named_applied(ended.report.marks.as_slice()) == 17 {
        Some(disk.calls())
    } else {
        None
    }
}

/// The first call from one on that does not stop well, up to another one; that one where each does.
fn first_bad(alloc: Global, from: u64, to: u64) -> u64 {
    for k in from..to {
        if !stops_well(alloc, k) {
            return k;
        }
    }
    to
}

/// Whether each of the calls from one on stops well, up to another one, or to the last: 17 groups take four calls each, and opening some
/// before them.
fn stop_well(alloc: Global, from: u64, to: u64) -> bool {
    match calls_of_all(alloc) {
        Some(calls) if calls > 68 && calls < 120 => {
            let end = to.min(calls.saturating_add(1));
            first_bad(alloc, from, end) == end
        }
        _ => false,
    }
}

#[test]
fn a_replica_stops_while_it_opens(rt: HostRuntime) {
    assert!(&rt; stop_well(rt.alloc(), 1, 20));
}

#[test]
fn a_replica_stops_at_the_first_groups(rt: HostRuntime) {
    assert!(&rt; stop_well(rt.alloc(), 20, 40));
}

#[test]
fn a_replica_stops_at_the_middle_groups(rt: HostRuntime) {
    assert!(&rt; stop_well(rt.alloc(), 40, 56));
}

#[test]
fn a_replica_stops_at_the_later_groups(rt: HostRuntime) {
    assert!(&rt; stop_well(rt.alloc(), 56, 70));
}

#[test]
fn a_replica_stops_at_the_last_groups(rt: HostRuntime) {
    assert!(&rt; stop_well(rt.alloc(), 70, 120));
}

// ---- a second stop inside the opening of what the first one left

/// Whether each call of an opening over these files may be its last, and what it leaves holds the same tables.
fn opens_well(alloc: Global, files: &[Bytes]) -> bool {
    let Some(text) = dumped_replica(alloc, files) else {
        return false;
    };
    for k in 1..20 {
        let Some(disk) = disk_left(alloc, files) else {
            return false;
        };
        let mut disk = FuseDisk::new(disk, k);
        let ended = over(
            alloc,
            &asked("run", b""),
            &mut MemDisk::new(alloc),
            &mut disk,
        );
        let Some(ended) = ended else {
            return false;
        };
        if !leaves_same(alloc, files, disk.inner(), text.as_slice()) {
            return false;
        }
        if ended.line.is_empty() {
            return k > 1 && disk.calls() < k;
        }
    }
    false
}

/// Whether each crash of a disk that came up with these files leaves what shows this.
fn leaves_same(alloc: Global, files: &[Bytes], disk: &MemDisk, text: &[u8]) -> bool {
    for crash in CRASHES.iter() {
        let left = files_left(alloc, files, disk.history(), *crash);
        match dumped_replica(alloc, left.as_slice()) {
            Some(again) if again.as_slice() == text => {}
            _ => return false,
        }
    }
    true
}

/// What the crashes of a stop leave is opened again, and each call of that may be the last one too.
fn opens_behind(alloc: Global, k: u64) -> bool {
    let script = shop_with(alloc, BY_THREES);
    let mut disk = FuseDisk::new(MemDisk::new(alloc), k);
    let ended = over(
        alloc,
        &asked("run", script.as_slice()),
        &mut MemDisk::new(alloc),
        &mut disk,
    );
    if ended.is_none() {
        return false;
    }
    for crash in CRASHES.iter() {
        let files = left(alloc, disk.inner(), *crash);
        if !opens_well(alloc, files.as_slice()) {
            return false;
        }
    }
    true
}

#[test]
fn an_opening_behind_an_opening_may_stop_too(rt: HostRuntime) {
    let alloc = rt.alloc();
    for k in [1, 9, 12] {
        assert!(&rt; opens_behind(alloc, k), "call {k}");
    }
}

#[test]
fn an_opening_behind_groups_may_stop_too(rt: HostRuntime) {
    let alloc = rt.alloc();
    for k in [40, 41, 42] {
        assert!(&rt; opens_behind(alloc, k), "call {k}");
    }
}

// ---- a replay that stops

/// Whether a replay of the shop's log whose k-th call of the disk fails stops there without a line, and each crash leaves a front of the
/// groups that holds what the marks name, behind which the next replay goes on to the end.
fn replay_stops_well(alloc: Global, log: &[u8], k: u64) -> Option<bool> {
    let mut disk = FuseDisk::new(MemDisk::new(alloc), k);
    let ended = over(
        alloc,
        &asked("replay", log),
        &mut MemDisk::new(alloc),
        &mut disk,
    )?;
    if ended.line.is_empty() {
        return None;
    }
    let least = named_applied(ended.report.marks.as_slice());
    let stopped = ended.line.as_slice() == b"replica disk fault\n".as_slice()
        && ended.written.is_empty()
        && disk.calls() == k;
    Some(stopped && each_is_replayed(alloc, disk.inner(), log, least))
}

/// Whether each crash leaves a front of the groups, behind which a replay goes on to the end.
fn each_is_replayed(alloc: Global, disk: &MemDisk, log: &[u8], least: u64) -> bool {
    for crash in CRASHES.iter() {
        let files = left(alloc, disk, *crash);
        if !holds(alloc, files.as_slice(), least)
            || !is_replayed(alloc, files.as_slice(), log).is_some_and(|whole| whole)
        {
            return false;
        }
    }
    true
}

/// Whether a replay over these files comes to the whole shop.
fn is_replayed(alloc: Global, files: &[Bytes], log: &[u8]) -> Option<bool> {
    let mut disk = disk_left(alloc, files)?;
    let ended = over(
        alloc,
        &asked("replay", log),
        &mut MemDisk::new(alloc),
        &mut disk,
    )?;
    let behind = files_of(alloc, &disk);
    Some(ended.line.is_empty() && shows_shop(alloc, behind.as_slice(), 17))
}

/// Whether each of the calls from one on stops well, up to another one, or to the end of the replay, which opens, takes in each of 18
/// groups, and writes 17 of them with four calls each.
fn replays_stop_well(alloc: Global, from: u64, to: u64) -> bool {
    let log = log_of(alloc, SHOP);
    for k in from..to {
        match replay_stops_well(alloc, log.as_slice(), k) {
            Some(true) => {}
            Some(false) => return false,
            None => return k > 80,
        }
    }
    true
}

#[test]
fn a_replay_stops_at_the_first_calls(rt: HostRuntime) {
    assert!(&rt; replays_stop_well(rt.alloc(), 1, 30));
}

#[test]
fn a_replay_stops_at_the_middle_calls(rt: HostRuntime) {
    assert!(&rt; replays_stop_well(rt.alloc(), 30, 55));
}

#[test]
fn a_replay_stops_at_the_later_calls(rt: HostRuntime) {
    assert!(&rt; replays_stop_well(rt.alloc(), 55, 76));
}

#[test]
fn a_replay_stops_at_the_last_calls(rt: HostRuntime) {
    assert!(&rt; replays_stop_well(rt.alloc(), 76, 160));
}
