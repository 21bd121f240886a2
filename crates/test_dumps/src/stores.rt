//! Disks whose files are put together by hand. Numbers have their least byte first.
//!
//! A journal is a gate and a record, one after the other, and a closed gate: the gate, the length of the body, the body. A source's
//! first record says that log 1 begins; all its records give 123 as the end of that log.

use disk_model::{Call, MemDisk};
use std::alloc::Global;
use store_model::Kind;
use val_types::{Bytes, List};

/// What a record says.
#[derive(Clone, Copy)]
pub(crate) enum Step {
    /// A definition, by its text.
    Defines(&'static str),
    /// So many changes, and their bytes.
    Changes(u8, &'static [u8]),
    /// A replica goes on at the next log.
    Moves,
}

/// Bytes with memory of their own.
pub(crate) fn bytes(alloc: Global, of: &[u8]) -> Bytes {
    let mut bytes = List::new(alloc);
    let _ = bytes.extend_from_slice(of);
    bytes
}

/// Lines, each with its end.
pub(crate) fn lines(alloc: Global, of: &[&str]) -> Bytes {
    let mut bytes = List::new(alloc);
    for line in of {
        let _ = bytes.extend_from_slice(line.as_bytes());
        let _ = bytes.push(b'\n');
    }
    bytes
}

/// Puts a number of four bytes.
pub(crate) fn put_four(bytes: &mut Bytes, number: usize) {
    let number = u32::try_from(number).unwrap_or(0);
    let _ = bytes.extend_from_slice(&number.to_le_bytes());
}

/// Puts the head of a record: its kind, the number of the transaction, the log, and the end or the place.
fn put_head(body: &mut Bytes, kind: u8, number: u8, log: u8, pos: u8) {
    let head = [
        kind, number, 0, 0, 0, 0, 0, 0, 0, log, 0, 0, 0, pos, 0, 0, 0,
    ];
    let _ = body.extend_from_slice(&head);
}

/// The body of the record of a step, with the number of its transaction. A replica's kinds are 16 above a source's.
fn body(alloc: Global, above: u8, number: u8, step: Step) -> Bytes {
    let mut body = List::new(alloc);
    match step {
        Step::Changes(count, changes) => {
            put_head(&mut body, above.saturating_add(1), number, 1, 123);
            put_four(&mut body, usize::from(count));
            let _ = body.extend_from_slice(changes);
        }
        Step::Defines(text) => {
            put_head(&mut body, above.saturating_add(2), number, 1, 123);
            put_four(&mut body, text.len());
            let _ = body.extend_from_slice(text.as_bytes());
        }
        Step::Moves => put_head(
            &mut body,
            above.saturating_add(3),
            number.saturating_sub(1),
            2,
            4,
        ),
    }
    body
}

/// Puts an open gate and a record.
pub(crate) fn put_record(journal: &mut Bytes, body: Bytes) {
    let _ = journal.push(1);
    put_four(journal, body.len());
    let _ = journal.append(body);
}

/// The journal of a store that took these steps, with its closed gate.
pub(crate) fn journal(alloc: Global, node: Kind, steps: &[Step]) -> Bytes {
    let mut journal = List::new(alloc);
    let above = match node {
        Kind::Source => {
            let begins = [
                3, 0, 0, 0, 0, 0, 0, 0, 0, 1, 0, 0, 0, 123, 0, 0, 0, 0, 0, 0, 0,
            ];
            put_record(&mut journal, bytes(alloc, &begins));
            0
        }
        Kind::Replica => 16,
    };
    let mut number = 0u8;
    for step in steps {
        number = number.saturating_add(1);
        put_record(&mut journal, body(alloc, above, number, *step));
    }
    let _ = journal.push(0);
    journal
}

/// A disk with a snapshot in file 1, journals in files 2 and 3, and so many bytes in log 1.
pub(crate) fn disk_with(
    alloc: Global,
    snapshot: Bytes,
    second: Bytes,
    third: Bytes,
    log: usize,
) -> Option<MemDisk> {
    let mut files = List::new(alloc);
    let _ = files.push(List::new(alloc));
    let _ = files.push(snapshot);
    let _ = files.push(second);
    let _ = files.push(third);
    for _file in 4..8 {
        let _ = files.push(List::new(alloc));
    }
    let mut logged = List::new(alloc);
    for _byte in 0..log {
        let _ = logged.push(0x4c);
    }
    let _ = files.push(logged);
    MemDisk::with_files(alloc, files).ok()
}

/// A disk with this first journal, and so many bytes in log 1.
pub(crate) fn disk_of(alloc: Global, journal: Bytes, log: usize) -> Option<MemDisk> {
    disk_with(alloc, List::new(alloc), journal, List::new(alloc), log)
}

/// Whether a disk was only read and made durable.
pub(crate) fn is_only_read(disk: &MemDisk) -> bool {
    for call in disk.history() {
        match call {
            Call::Look => {}
            Call::Sync { .. } => {}
            _ => return false,
        }
    }
    true
}
