//! Journals over disks in which each call fails in turn, and what four crashes leave of them.

use super::{bytes, listed};
use crate::put_bodies;
use disk_model::{Call, Disk, FuseDisk, MemDisk, OpenRefusal};
use gate_journal::scan;
use std::alloc::Global;
use val_types::{Bytes, List};

/// What a crash leaves of what was written since the last sync.
#[derive(Clone, Copy)]
enum Crash {
    Nothing,
    All,
    Half,
    Garbage,
}

static CRASHES: [Crash; 4] = [Crash::Nothing, Crash::All, Crash::Half, Crash::Garbage];

static GARBAGE: [u8; 64] = [0xff; 64];

/// What is left of a piece.
fn left_of(crash: Crash, piece: &[u8]) -> &[u8] {
    match crash {
        Crash::Nothing => &[],
        Crash::All => piece,
        Crash::Half => &piece[..piece.len() / 2],
        Crash::Garbage => &GARBAGE[..piece.len().min(64)],
    }
}

/// A piece over what stands from a place on.
fn over(alloc: Global, contents: &[u8], at: u64, piece: &[u8]) -> Bytes {
    let at = at.min(contents.len() as u64) as usize;
    let mut new = bytes(alloc, &contents[..at]);
    let _ = new.extend_from_slice(piece);
    let rest = &contents[at..];
    if piece.len() < rest.len() {
        let _ = new.extend_from_slice(&rest[piece.len()..]);
    }
    new
}

/// What a crash leaves of file 2 after these calls: what was written before its last sync, and of the rest as the
/// crash has it. A write that failed has begun.
fn image(alloc: Global, calls: &[Call], crash: Crash) -> Bytes {
    let mut now = List::new(alloc);
    let mut left = List::new(alloc);
    for call in calls {
        match call {
            Call::Write {
                file: 2,
                at,
                piece,
                done,
            } => {
                left = over(
                    alloc,
                    left.as_slice(),
                    *at,
                    left_of(crash, piece.as_slice()),
                );
                if *done {
                    now = over(alloc, now.as_slice(), *at, piece.as_slice());
                }
            }
            Call::Sync {
                file: 2,
                done: true,
            } => left = bytes(alloc, now.as_slice()),
            _ => {}
        }
    }
    left
}

/// How many of the bodies, from the first on, a disk reads that has come up with this file 2; None where it reads
/// others.
fn reads(alloc: Global, file: Bytes, bodies: &List<Bytes>) -> Option<usize> {
    let mut files = List::new(alloc);
    let _ = files.push(List::new(alloc));
    let _ = files.push(List::new(alloc));
    let _ = files.push(file);
    let mut disk = MemDisk::with_files(alloc, files).ok()?;
    let found = scan(alloc, &mut disk, 2).ok()?.bodies;
    if bodies.as_slice().starts_with(found.as_slice()) {
        Some(found.len())
    } else {
        None
    }
}

/// How many bodies are in the journal where the k-th call is the last, and whether one more may be: three calls
/// open, two write the first gate, and of a body's four the first two stage it and the others open its gate.
fn counted(k: usize, bodies: usize) -> (usize, usize) {
    if k == 0 || k > 5 + 4 * bodies.min(100) {
        return (bodies, 0);
    }
    if k <= 5 {
        return (0, 0);
    }
    ((k - 6) / 4, (k - 6) % 4 / 2)
}

/// Whether each crash of a run whose k-th call fails leaves what it may leave.
fn holds(alloc: Global, bodies: &List<Bytes>, k: usize) -> bool {
    let mut disk = FuseDisk::new(MemDisk::new(alloc), k as u64);
    let ended = put_bodies(alloc, &mut disk, 2, bodies);
    let fails = 0 < k && k <= 5 + 4 * bodies.len().min(100);
    if fails != (ended == Err(OpenRefusal::Disk)) || !fails && ended.is_err() {
        return false;
    }
    if fails && disk.calls() != k as u64 {
        return false;
    }
    let (sure, more) = counted(k, bodies.len());
    for crash in &CRASHES {
        let left = image(alloc, disk.inner().history(), *crash);
        match reads(alloc, left, bodies) {
            Some(count) if count == sure || count == sure.saturating_add(more) => {}
            _ => return false,
        }
    }
    true
}

static SCRIPTS: [&[&[u8]]; 4] = [
    &[b"abc", b"", b"\xff"],
    &[b"", b"", b""],
    &[b"\x00\x01\x02\x03\x04\x05\x06\x07", b"\x01"],
    &[b"\x01\x00\x00\x00\x00\x00", b"\xff\xff\xff\xff\xff"],
];

#[test]
fn a_crash_leaves_the_bodies_whose_gates_were_opened(rt: HostRuntime) {
    let alloc = rt.alloc();
    for script in &SCRIPTS {
        let bodies = listed(alloc, *script);
        for k in 0..20 {
            assert!(&rt; holds(alloc, &bodies, k), "call {k}");
        }
    }
}
