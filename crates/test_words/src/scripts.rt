//! Made scripts: their lines, what they say, and writes that fail.

use gen_script::write_script;
use load_script::gen_;
use port_traits::MemSink;
use script_read::{What, split};
use std::alloc::Global;
use val_types::{Bytes, List};

/// The first line, and the last ones.
const FIRST: &str =
    "s1: CREATE TABLE g (id BIGINT NOT NULL AUTO_INCREMENT, k INT NOT NULL, v VARCHAR(20) NOT NULL, PRIMARY KEY (id), UNIQUE KEY u (k)) //\n";

const LAST: &str =
    "replica: FETCH 1000000000 //\nreplica: APPLY 4294967295 //\nreplica: SELECT COUNT(*) FROM g //\n";

/// The lines of the first four changes.
const FOUR: &str =
    "s1: INSERT INTO g (k, v) VALUES (1, 'a1') //\ns1: DELETE FROM g WHERE k = 1 LIMIT 1 //\ns1: INSERT INTO g (k, v) VALUES (3, 'b3'), (100003, 'c') //\ns1: UPDATE g SET v = CONCAT(v, 'x') WHERE k = 3 //\n";

/// The lines of the hundredth change, behind which the replica fetches and applies, and of the next.
const HUNDREDTH: &str =
    "s1: UPDATE g SET v = CONCAT(v, 'x') WHERE k = 99 //\nreplica: FETCH 1000000 //\nreplica: APPLY 1000 //\n";

const NEXT: &str = "s1: INSERT INTO g (k, v) VALUES (101, 'a101') //\n";

/// A script of so many changes; nothing where memory is short, and then a test fails.
fn made(alloc: Global, changes: u32) -> Bytes {
    match gen_(alloc, changes) {
        Ok(script) => script,
        Err(_) => List::new(alloc),
    }
}

/// Texts, one behind the other.
fn joined(alloc: Global, parts: &[&str]) -> Bytes {
    let mut all = List::new(alloc);
    for part in parts {
        let _ = all.extend_from_slice(part.as_bytes());
    }
    all
}

/// Whether the script with four changes has these lines.
fn has_four(alloc: Global) -> bool {
    made(alloc, 4).as_slice() == joined(alloc, &[FIRST, FOUR, LAST]).as_slice()
}

/// Whether the script of more changes goes on behind the lines of fewer, without their last ones, with these lines.
fn goes_on(alloc: Global, fewer: u32, more: u32, lines: &[&str]) -> bool {
    let before = made(alloc, fewer);
    let after = made(alloc, more);
    let front = before.len().saturating_sub(LAST.len());
    let begins = before
        .as_slice()
        .get(..front)
        .is_some_and(|front| after.as_slice().starts_with(front));
    let ends = after
        .as_slice()
        .get(front..)
        .is_some_and(|end| end == joined(alloc, lines).as_slice());
    begins && ends
}

/// How many commands a script of so many changes has, and how many of them are the session's; 0 where it is none.
fn commands(alloc: Global, changes: u32) -> (usize, usize) {
    let script = made(alloc, changes);
    match split(alloc, script.as_slice()) {
        Ok(commands) => {
            let mut sessions = 0usize;
            for command in commands.as_slice() {
                if matches!(command.what, What::Session { .. }) {
                    sessions = sessions.saturating_add(1);
                }
            }
            (commands.len(), sessions)
        }
        Err(_) => (0, 0),
    }
}

/// An output that moves at most 10 bytes a write, of which one fails, 0 for none.
fn output(alloc: Global, fault: u64) -> MemSink {
    let mut fails = List::new(alloc);
    let _ = fails.push(fault);
    MemSink::new(alloc, fails).with_piece(10)
}

/// Whether the script of four changes, of 424 bytes, is written in 43 writes, and ends at the one that fails, with the bytes before
/// it written; the number of the status.
fn is_written(alloc: Global, fault: u64, bytes: usize, number: u8) -> bool {
    let mut out = output(alloc, fault);
    let status = write_script(alloc, 4, &mut out);
    let script = made(alloc, 4);
    status.number() == number
        && script
            .as_slice()
            .get(..bytes)
            .is_some_and(|front| out.written().as_slice() == front)
}

/// The first write that fails and does not end the writing so, 0 for none.
fn held_faults(alloc: Global) -> u64 {
    for fault in 1..=43u64 {
        if !is_written(alloc, fault, 10 * (fault as usize - 1), 4) {
            return fault;
        }
    }
    0
}

#[test]
fn made_by_hand(rt: HostRuntime) {
    let alloc = rt.alloc();
    assert!(rt; has_four(alloc));
    assert!(rt; goes_on(alloc, 99, 100, &[HUNDREDTH, LAST]));
    assert!(rt; goes_on(alloc, 100, 101, &[NEXT, LAST]));
}

#[test]
fn commands_counted(rt: HostRuntime) {
    let alloc = rt.alloc();
    assert!(rt; commands(alloc, 4) == (8, 5));
    assert!(rt; commands(alloc, 1000) == (1024, 1001));
    assert!(rt; commands(alloc, 100_000) == (102_004, 100_001));
    assert!(rt; made(alloc, 1000).as_slice() == made(alloc, 1000).as_slice());
}

#[test]
fn written_in_pieces(rt: HostRuntime) {
    let alloc = rt.alloc();
    assert!(rt; is_written(alloc, 0, 424, 0));
    assert!(rt; held_faults(alloc) == 0);
}
