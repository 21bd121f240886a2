//! A disk in memory with a call that fails.
ghost use Rattle.std.specs.Prelude.{◌≡◌, Some};
ghost use Rattle.disk_model.specs.Files.{story_of};

use crate::call::Call;
use crate::disk::Disk;
use crate::memory::MemDisk;
use crate::refusals::DiskRefusal;

/// A disk in memory whose k-th call from now on fails.
#[derive(Drop)]
pub struct FuseDisk {
    inner: MemDisk,
    /// The number of the call that fails among all calls of the disk in memory.
    blows_at: u64,
}

impl FuseDisk {
    /// This disk, whose k-th call fails; calls are counted from 1, and for 0 none fails.
    pub fn new(inner: MemDisk, k: u64) -> FuseDisk
        ensures { result.inner ≡ inner }
    {
        let calls = inner.calls();
        FuseDisk {
            inner,
            blows_at: calls.saturating_add(k),
        }
    }

    /// The disk in memory, with all calls so far.
    pub fn inner(&self) -> &MemDisk
        ensures { result.now ≡ self.now.inner }
    {
        &self.inner
    }

    /// Whether the next call is the one that fails.
    fn blows(&self) -> bool {
        self.blows_at.checked_sub(1) == Some(self.inner.calls())
    }
}

impl Disk for FuseDisk {
    ghost told = { λ d. Some (story_of d.inner) };

    ghost faults = { λ d. d.inner.faults };

    fn length(&mut self, file: u32) -> Result<u64, DiskRefusal> {
        if self.blows() {
            return self.inner.fail(Call::Look);
        }
        self.inner.length(file)
    }

    fn read(&mut self, file: u32, at: u64, buf: &mut [u8]) -> Result<usize, DiskRefusal> {
        if self.blows() {
            return self.inner.fail(Call::Look);
        }
        self.inner.read(file, at, buf)
    }

    fn write(&mut self, file: u32, at: u64, piece: &[u8]) -> Result<(), DiskRefusal> {
        if self.blows() {
            return self.inner.fail_write(file, at, piece);
        }
        self.inner.write(file, at, piece)
    }

    fn cut(&mut self, file: u32, size: u64) -> Result<(), DiskRefusal> {
        if self.blows() {
            return self.inner.fail(Call::Cut {
                file,
                length: size,
                done: false,
            });
        }
        self.inner.cut(file, size)
    }

    fn sync(&mut self, file: u32) -> Result<(), DiskRefusal> {
        if self.blows() {
            return self.inner.fail(Call::Sync { file, done: false });
        }
        self.inner.sync(file)
    }

    fn calls(&self) -> u64 {
        self.inner.calls()
    }
}
