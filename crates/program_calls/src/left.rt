//! What is left of the disks of a call: what a later call of the program shows of it, and what its marks name.
ghost use Rattle.std.specs.Prelude.{Some, IfSome};
ghost use Rattle.disk_model.specs.Files.{story_of};
ghost use Rattle.disk_model.specs.Moments.{IsSettled};

use crate::calls::{Ended, asked, over};
use crate::environments::bytes;
use answer_text::Mark;
use crash_images::disk_left;
use disk_model::MemDisk;
use std::alloc::Global;
use val_types::{Bytes, List};

/// The files that a node of one log has: two snapshots, two journals, and file 8, its log or what it has fetched.
pub const FILES: u32 = 9;

/// What a call wrote; none where it does not end well.
fn shown(ended: Option<Ended>) -> Option<Bytes> {
    let ended = ended?;
    if ended.line.is_empty() {
        Some(ended.written)
    } else {
        None
    }
}

/// What the dump of a source's files shows; none where it does not end well.
pub fn dumped(alloc: Global, files: &[Bytes]) -> Option<Bytes> {
    let mut disk = disk_left(alloc, files)?;
    shown(over(
        alloc,
        &asked("dump source", b""),
        &mut disk,
        &mut MemDisk::new(alloc),
    ))
}

/// What the dump of a replica's files shows; none where it does not end well.
pub fn dumped_replica(alloc: Global, files: &[Bytes]) -> Option<Bytes> {
    let mut disk = disk_left(alloc, files)?;
    shown(over(
        alloc,
        &asked("dump replica", b""),
        &mut MemDisk::new(alloc),
        &mut disk,
    ))
}

/// The files of a disk as they are read.
pub fn files_of(alloc: Global, disk: &MemDisk) -> List<Bytes> {
    let mut files: List<Bytes> = List::new(alloc);
    for file in 0..FILES {
        let _ = files.push(bytes(alloc, disk.contents(file)));
    }
    files
}

/// The disk that comes up with all that is read of this one.
pub fn again(alloc: Global, disk: &MemDisk) -> Option<MemDisk>
    ensures { IfSome result (λ d. IsSettled (Some (story_of d))) }
{
    disk_left(alloc, files_of(alloc, disk).as_slice())
}

/// How many transactions of the source the last mark names, 0 where there is none.
pub fn named(marks: &[Mark]) -> u64 {
    match marks.last() {
        Some(mark) => mark.committed,
        None => 0,
    }
}

/// How many of the replica.
pub fn named_applied(marks: &[Mark]) -> u64 {
    match marks.last() {
        Some(mark) => mark.applied,
        None => 0,
    }
}
