//! A disk over a folder of the system.
ghost use Rattle.std.specs.Prelude.{◌≡◌, Ok, IfOk, None};
ghost use Rattle.disk_model.specs.Answers.{HasDiskCause};

use crate::disk::Disk;
use crate::refusals::DiskRefusal;
use folder_files::{FileFault, FolderFiles};
use std::alloc::Global;
use std::fs::File;
use std::rt::Files;
use val_types::NoMemory;

/// A disk over a folder: file n is `<folder>/n`.
///
/// A file or a folder that does not exist has no bytes and needs no sync or cut; a write makes both. Each error
/// of the system is a fault. It does not tell its story: what a real file holds is outside all claims.
#[derive(Drop)]
pub struct HostDisk<R> {
    files: FolderFiles<R>,
    calls: u64,
    faults: u64,
}

/// The answer of a folder's file as a disk gives it.
fn refused<T>(answer: Result<T, FileFault>) -> Result<T, DiskRefusal>
    ensures { (value : T) → result ≡ Ok value → answer ≡ Ok value }
{
    match answer {
        Ok(value) => Ok(value),
        Err(FileFault::Failed) => Err(DiskRefusal::Failed),
        Err(FileFault::NoMemory) => Err(DiskRefusal::NoMemory),
    }
}

impl<R: Drop> HostDisk<R> {
    /// The disk over this folder, which need not exist. Nothing is opened yet.
    pub fn new(alloc: Global, rt: R, folder: String) -> Result<HostDisk<R>, NoMemory>
        ensures { IfOk result (λ d. d.faults ≡ 0) }
    {
        Ok(HostDisk {
            files: FolderFiles::new(alloc, rt, folder)?,
            calls: 0,
            faults: 0,
        })
    }

    /// Counts a call with this answer, and its fault. One that found no memory was none.
    fn count<T>(&mut self, answer: &Result<T, DiskRefusal>)
        ensures { HasDiskCause self.old.faults self.new.faults answer.now }
    {
        match answer {
            Ok(_) => self.calls = self.calls.saturating_add(1),
            Err(DiskRefusal::Failed) => {
                self.calls = self.calls.saturating_add(1);
                self.faults = self.faults.saturating_add(1);
            }
            Err(DiskRefusal::NoMemory) => {}
        }
    }
}

impl<R: Files<File = File> + Drop> Disk for HostDisk<R> {
    ghost told = { λ _. None };

    ghost faults = { λ d. d.faults };

    fn length(&mut self, file: u32) -> Result<u64, DiskRefusal> {
        let answer = refused(self.files.length(file));
        self.count(&answer);
        answer
    }

    fn read(&mut self, file: u32, at: u64, buf: &mut [u8]) -> Result<usize, DiskRefusal> {
        let answer = refused(self.files.read(file, at, buf));
        self.count(&answer);
        answer
    }

    fn write(&mut self, file: u32, at: u64, piece: &[u8]) -> Result<(), DiskRefusal> {
        let answer = refused(self.files.write(file, at, piece));
        self.count(&answer);
        answer
    }

    fn cut(&mut self, file: u32, size: u64) -> Result<(), DiskRefusal> {
        let answer = refused(self.files.cut(file, size));
        self.count(&answer);
        answer
    }

    fn sync(&mut self, file: u32) -> Result<(), DiskRefusal> {
        let answer = refused(self.files.sync(file));
        self.count(&answer);
        answer
    }

    fn calls(&self) -> u64 {
        self.calls
    }
}
