//! Disks in memory: bytes of a journal, and a byte that reads back as another.

use super::{bytes, listed};
use crate::put_bodies;
use disk_model::{Disk, MemDisk, OpenRefusal, TwistDisk, cut_unsynced, write_unsynced};
use gate_journal::{NextRecord, Records, next_record, scan};
use std::alloc::Global;
use val_types::List;

/// Bodies of three bytes, of none and of one.
static BODIES: [&[u8]; 3] = [b"abc", b"", b"\xff"];

/// Gate, length, body, and so on; a closed gate behind.
static JOURNAL: [u8; 20] = [
    1, 3, 0, 0, 0, 97, 98, 99, 1, 0, 0, 0, 0, 1, 1, 0, 0, 0, 255, 0,
];

fn journal(alloc: Global) -> Result<MemDisk, OpenRefusal> {
    let mut disk = MemDisk::new(alloc);
    put_bodies(alloc, &mut disk, 2, &listed(alloc, &BODIES))?;
    Ok(disk)
}

fn is_scanned(records: &Records) -> bool {
    let gates: &[u64] = &[0, 8, 13];
    records.bodies.len() == 3
        && records.bodies[0].as_slice() == b"abc".as_slice()
        && records.bodies[1].is_empty()
        && records.bodies[2].as_slice() == b"\xff".as_slice()
        && records.gates.as_slice() == gates
        && records.journal.gate() == 19
        && records.journal.file() == 2
}

#[test]
fn a_journal_has_these_bytes(rt: HostRuntime) {
    let alloc = rt.alloc();
    let Ok(mut disk) = journal(alloc) else {
        assert!(&rt; false, "no journal");
        return;
    };
    assert_eq!(&rt; disk.contents(2), &JOURNAL[..]);
    // Three to open, two for the first gate, four a body.
    assert_eq!(&rt; disk.calls(), 17);
    assert_eq!(&rt; disk.history().len(), 17);
    let Ok(records) = scan(alloc, &mut disk, 2) else {
        assert!(&rt; false, "no records");
        return;
    };
    assert!(&rt; is_scanned(&records));
    assert!(&rt; next_record(&JOURNAL, 13) == NextRecord::Record { size: 1 });
    assert!(&rt; next_record(&JOURNAL, 19) == NextRecord::End);
    assert!(&rt; next_record(&JOURNAL[..19], 13) == NextRecord::Damaged);
}

/// The damage of a file 2 of these bytes.
fn damage(alloc: Global, of: &[u8]) -> Option<u64> {
    let mut files = List::new(alloc);
    let _ = files.push(List::new(alloc));
    let _ = files.push(List::new(alloc));
    let _ = files.push(bytes(alloc, of));
    let mut disk = MemDisk::with_files(alloc, files).ok()?;
    match scan(alloc, &mut disk, 2) {
        Err(OpenRefusal::Damaged { file: 2, at }) => Some(at),
        _ => None,
    }
}

#[test]
fn damage_is_told_at_its_gate(rt: HostRuntime) {
    let alloc = rt.alloc();
    assert_eq!(&rt; damage(alloc, b"\x01\xff\x00\x00\x00\x00"), Some(0));
    assert_eq!(&rt; damage(alloc, &JOURNAL[..19]), Some(13));
    assert_eq!(&rt; damage(alloc, &JOURNAL[..13]), Some(8));
    assert_eq!(&rt; damage(alloc, &JOURNAL), None);
    assert_eq!(&rt; damage(alloc, b"\x5a"), None);
}

/// What a disk reads of a file from a place on.
fn read<D: Disk>(disk: &mut D, file: u32, at: u64, wanted: &[u8]) -> bool {
    let mut buf = [0u8; 8];
    match disk.read(file, at, &mut buf) {
        Ok(count) => count == wanted.len() && buf.starts_with(wanted),
        Err(_) => false,
    }
}

#[test]
fn a_twisted_disk_gives_another_byte(rt: HostRuntime) {
    let alloc = rt.alloc();
    let mut disk = TwistDisk::new(MemDisk::new(alloc), 8, 3, b'!');
    assert!(&rt; disk.write(8, 0, b"abcdef").is_ok());
    assert!(&rt; disk.write(9, 0, b"abcdef").is_ok());
    assert!(&rt; read(&mut disk, 8, 0, b"abc!ef"));
    assert!(&rt; read(&mut disk, 8, 3, b"!ef"));
    assert!(&rt; read(&mut disk, 8, 4, b"ef"));
    assert!(&rt; read(&mut disk, 9, 0, b"abcdef"));
    assert!(&rt; disk.cut(8, 3).is_ok());
    assert!(&rt; read(&mut disk, 8, 0, b"abc"));
    assert!(&rt; disk.sync(8).is_ok());
    assert_eq!(&rt; disk.length(8).ok(), Some(3));
    assert_eq!(&rt; disk.calls(), 10);
    assert_eq!(&rt; disk.inner().contents(9), b"abcdef".as_slice());
}

#[test]
fn a_file_is_cut_and_grows(rt: HostRuntime) {
    let alloc = rt.alloc();
    let mut disk = MemDisk::new(alloc);
    assert!(&rt; write_unsynced(&mut disk, 8, 0, b"abcdef").is_ok());
    assert_eq!(&rt; disk.contents(8), b"abcdef".as_slice());
    assert!(&rt; disk.contents(7).is_empty());
    if disk.contents(8).len() >= 2 {
        assert!(&rt; cut_unsynced(&mut disk, 8, 2).is_ok());
    }
    assert_eq!(&rt; disk.contents(8), b"ab".as_slice());
    assert_eq!(&rt; disk.calls(), 2);
}
