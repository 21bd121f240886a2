//! One INSERT that commits by itself, stopped within and behind each of the six calls of the disk that its commit makes: a write of the
//! log and its sync, a write of the record behind the closed gate and its sync, the gate and its sync.
ghost use Rattle.std.specs.Prelude.{Some};
ghost use Rattle.disk_model.specs.Files.{story_of};
ghost use Rattle.disk_model.specs.Moments.{IsSettled};

use answer_text::Mark;
use crash_images::{CRASHES, Crash, files_left, no_files};
use disk_model::{Call, Disk, FuseDisk, MemDisk};
use program_calls::{Ended, FILES, asked, dumped, over};
use std::alloc::Global;

static TABLE: &str = "s1: CREATE TABLE t (id INT, v INT, PRIMARY KEY (id)) //
";

static TABLE_AND_ROW: &str = "s1: CREATE TABLE t (id INT, v INT, PRIMARY KEY (id)) //
s1: INSERT INTO t VALUES (1, 10) //
";

/// What is shown behind one transaction, and behind two.
static ONE: &str =
    "create CREATE TABLE `t` (`id` INT NOT NULL, `v` INT NULL, PRIMARY KEY (`id`))\n";

static TWO: &str =
    "create CREATE TABLE `t` (`id` INT NOT NULL, `v` INT NULL, PRIMARY KEY (`id`))\nrow 1, 10\n";

/// How many transactions the files stand for that a crash leaves behind these calls.
fn stands_for(alloc: Global, calls: &[Call], crash: Crash) -> Option<u64> {
    let none = no_files(alloc, FILES);
    let files = files_left(alloc, none.as_slice(), calls, crash);
    let text = dumped(alloc, files.as_slice())?;
    if text.as_slice() == ONE.as_bytes() {
        Some(1)
    } else if text.as_slice() == TWO.as_bytes() {
        Some(2)
    } else {
        None
    }
}

/// How many transactions the four crashes have to leave where the gate was not reached, where its byte is not durable yet, and where it
/// is. A byte of which a half is left is not there, and any other byte than 0 opens the gate.
const NOT_YET: [u64; 4] = [1, 1, 1, 1];

const MAYBE: [u64; 4] = [1, 2, 1, 2];

const KEPT: [u64; 4] = [2, 2, 2, 2];

/// Whether the four crashes leave so many.
fn leaves(alloc: Global, calls: &[Call], wanted: [u64; 4]) -> bool {
    for (crash, count) in CRASHES.iter().zip(wanted.iter()) {
        if stands_for(alloc, calls, *crash) != Some(*count) {
            return false;
        }
    }
    true
}

/// How many calls of the disk come before those of the INSERT.
fn calls_before(alloc: Global) -> u64 {
    let mut disk = MemDisk::new(alloc);
    let _ = over(
        alloc,
        &asked("run", TABLE.as_bytes()),
        &mut disk,
        &mut MemDisk::new(alloc),
    );
    disk.calls()
}

/// The mark of the table, which was the first command, behind so many calls.
fn mark_of_table(calls: u64) -> Mark {
    Mark {
        command: 1,
        committed: 1,
        src_calls: calls,
        applied: 0,
        rep_calls: 0,
    }
}

/// Whether the marks are those of both commands, or of the first one alone. What the replica's disk counts is left open.
fn marks_are(marks: &[Mark], wanted: &[Mark]) -> bool {
    if marks.len() != wanted.len() {
        return false;
    }
    for (mark, other) in marks.iter().zip(wanted.iter()) {
        let seen = Mark {
            rep_calls: 0,
            ..*mark
        };
        if seen != *other {
            return false;
        }
    }
    true
}

/// Whether a call answered these lines, ended with this line, and pushed these marks.
fn has_ended(ended: &Ended, lines: &str, line: &str, marks: &[Mark]) -> bool {
    ended.written.as_slice() == lines.as_bytes()
        && ended.line.as_slice() == line.as_bytes()
        && marks_are(ended.report.marks.as_slice(), marks)
}

/// Whether the INSERT stops well within the i-th of its calls, and the crashes leave so many transactions then.
fn stops_within(alloc: Global, before: u64, i: u64, wanted: [u64; 4]) -> bool {
    let mut disk = FuseDisk::new(MemDisk::new(alloc), before.saturating_add(i));
    let ended = over(
        alloc,
        &asked("run", TABLE_AND_ROW.as_bytes()),
        &mut disk,
        &mut MemDisk::new(alloc),
    );
    match ended {
        Some(ended) => {
            has_ended(
                &ended,
                "1 ok 0\n",
                "source disk fault\n",
                &[mark_of_table(before)],
            ) && leaves(alloc, disk.inner().history(), wanted)
        }
        None => false,
    }
}

#[test]
fn the_insert_stops_within_its_calls(rt: HostRuntime) {
    let alloc = rt.alloc();
    let before = calls_before(alloc);
    for i in 1..5 {
        assert!(&rt; stops_within(alloc, before, i, NOT_YET), "call {i}");
    }
    for i in 5..7 {
        assert!(&rt; stops_within(alloc, before, i, MAYBE), "call {i}");
    }
}

/// Whether the crashes leave so many transactions behind the i-th of its calls.
fn stands_behind(alloc: Global, calls: &[Call], before: u64, i: u64, wanted: [u64; 4]) -> bool {
    let end = before.saturating_add(i).min(calls.len() as u64) as usize;
    leaves(alloc, &calls[..end], wanted)
}

/// Whether the INSERT makes six calls, and its mark names two transactions behind them.
fn is_whole(alloc: Global, disk: &mut MemDisk, before: u64) -> bool
    requires { IsSettled (Some (story_of disk.old)) }
{
    let ended = over(
        alloc,
        &asked("run", TABLE_AND_ROW.as_bytes()),
        disk,
        &mut MemDisk::new(alloc),
    );
    let behind = before.saturating_add(6);
    let second = Mark {
        command: 2,
        committed: 2,
        src_calls: behind,
        applied: 0,
        rep_calls: 0,
    };
    match ended {
        Some(ended) => {
            disk.calls() == behind
                && has_ended(
                    &ended,
                    "1 ok 0\n2 ok 1\n",
                    "",
                    &[mark_of_table(before), second],
                )
        }
        None => false,
    }
}

#[test]
fn the_insert_stands_behind_its_calls(rt: HostRuntime) {
    let alloc = rt.alloc();
    let before = calls_before(alloc);
    let mut disk = MemDisk::new(alloc);
    assert!(&rt; is_whole(alloc, &mut disk, before));
    for i in 0..5 {
        assert!(&rt;
            stands_behind(alloc, disk.history(), before, i, NOT_YET),
            "call {i}"
        );
    }
    assert!(&rt; stands_behind(alloc, disk.history(), before, 5, MAYBE));
    assert!(&rt; stands_behind(alloc, disk.history(), before, 6, KEPT));
}
