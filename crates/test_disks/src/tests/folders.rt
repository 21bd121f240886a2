//! A disk over a real folder, each call once.

use disk_model::{Disk, DiskRefusal, HostDisk};
use std::fs::{self, OpenOptions};
use std::io;
use val_types::NoMemory;

const FOLDER: &str = "disk_callers_folder";

const FILE: &str = "disk_callers_folder/8";

/// Whether a read of file 8 from a place on gives these bytes.
fn gives<D: Disk>(disk: &mut D, at: u64, wanted: &[u8]) -> bool {
    let mut buf = [0u8; 10];
    match disk.read(8, at, &mut buf) {
        Ok(count) => count == wanted.len() && buf.starts_with(wanted),
        Err(_) => false,
    }
}

/// Whether file 8 has so many bytes.
fn has<D: Disk>(disk: &mut D, size: u64) -> bool {
    match disk.length(8) {
        Ok(found) => found == size,
        Err(_) => false,
    }
}

type Folder<'a> = HostDisk<&'a HostRuntime>;

/// Four calls: nothing is there, and none is a fault.
fn is_empty(disk: &mut Folder<'_>) -> bool {
    has(disk, 0) && gives(disk, 0, b"") && disk.cut(8, 0).is_ok() && disk.sync(8).is_ok()
}

/// Five calls: two writes, the first of which makes the folder and the file.
fn is_written(disk: &mut Folder<'_>) -> bool {
    disk.write(8, 0, b"abcdef").is_ok()
        && disk.write(8, 3, b"XY").is_ok()
        && disk.sync(8).is_ok()
        && has(disk, 6)
        && gives(disk, 2, b"cXYf")
}

/// Three calls.
fn is_cut(disk: &mut Folder<'_>) -> bool {
    gives(disk, 9, b"") && disk.cut(8, 4).is_ok() && gives(disk, 0, b"abcX")
}

/// Three calls: a file that was cut behind the disk's back to 2, and a write that no file has room for.
fn is_short(disk: &mut Folder<'_>) -> bool {
    has(disk, 2)
        && gives(disk, 0, b"ab")
        && disk.write(8, u64::MAX, b"a") == Err(DiskRefusal::Failed)
}

/// Cuts the file behind the disk's back.
fn cut_behind(rt: &HostRuntime) -> io::Result<()> {
    OpenOptions::new().write(true).open(rt, FILE)?.set_len(2)
}

fn disk_over<'a>(rt: &'a HostRuntime, folder: &str) -> Result<Folder<'a>, NoMemory> {
    let alloc = rt.alloc();
    HostDisk::new(alloc, rt, String::from_str(alloc, folder)?)
}

/// Whether another disk over the folder reads the same.
fn is_found_again(rt: &HostRuntime) -> bool {
    match disk_over(rt, FOLDER) {
        Ok(mut disk) => gives(&mut disk, 0, b"ab"),
        Err(_) => false,
    }
}

/// Whether a disk over a file is a fault.
fn is_no_folder(rt: &HostRuntime) -> bool {
    match disk_over(rt, FILE) {
        Ok(mut disk) => disk.write(8, 0, b"a") == Err(DiskRefusal::Failed),
        Err(_) => false,
    }
}

/// How many of the steps hold, from the first on.
fn steps(rt: &HostRuntime, disk: &mut Folder<'_>) -> u32 {
    if !is_empty(disk) || fs::exists(rt, FOLDER).unwrap_or(true) {
        return 0;
    }
    if !is_written(disk) || !is_cut(disk) || disk.calls() != 12 {
        return 1;
    }
    if cut_behind(rt).is_err() || !is_short(disk) || disk.calls() != 15 {
        return 2;
    }
    3
}

#[test]
fn a_folder_is_a_disk(rt: HostRuntime) {
    let _ = fs::remove_dir_all(&rt, FOLDER);
    let held = match disk_over(&rt, FOLDER) {
        Ok(mut disk) => steps(&rt, &mut disk),
        Err(_) => 0,
    };
    assert_eq!(&rt; held, 3);
    assert!(&rt; is_found_again(&rt));
    assert!(&rt; is_no_folder(&rt));
    let _ = fs::remove_dir_all(&rt, FOLDER);
}
