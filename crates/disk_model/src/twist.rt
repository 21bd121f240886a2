//! A disk for tests of what is read back.
ghost use Rattle.std.specs.Prelude.{◌≡◌, Some, None, length, nat_lt};
ghost use Rattle.disk_model.specs.Story.{seen};
ghost use Rattle.disk_model.specs.Files.{story_of};

use crate::call::Call;
use crate::disk::Disk;
use crate::memory::MemDisk;
use crate::refusals::DiskRefusal;

/// A disk that passes each call on to one in memory, but a read of one file that covers one place gives a
/// stated byte there. It does not tell its story.
#[derive(Drop)]
pub struct TwistDisk {
    inner: MemDisk,
    file: u32,
    at: u64,
    byte: u8,
}

impl TwistDisk {
    /// This disk, where a read of the file gives the byte at the place.
    pub fn new(inner: MemDisk, file: u32, at: u64, byte: u8) -> TwistDisk
        ensures { result ≡ record { inner = inner; file = file; at = at; byte = byte } }
    {
        TwistDisk {
            inner,
            file,
            at,
            byte,
        }
    }

    /// The disk in memory.
    pub fn inner(&self) -> &MemDisk
        ensures { result.now ≡ self.now.inner }
    {
        &self.inner
    }

    /// Whether a place is behind a file's end, where nothing is written or cut.
    fn is_behind(&self, file: u32, at: u64) -> bool
        ensures { result ≡ nat_lt (length (seen (Some (story_of self.now.inner)) file)) at }
    {
        at > self.inner.contents(file).len() as u64
    }
}

impl Disk for TwistDisk {
    ghost told = { λ _. None };

    ghost faults = { λ d. d.inner.faults };

    fn length(&mut self, file: u32) -> Result<u64, DiskRefusal> {
        self.inner.length(file)
    }

    fn read(&mut self, file: u32, at: u64, buf: &mut [u8]) -> Result<usize, DiskRefusal> {
        let count = self.inner.read(file, at, buf)?;
        if file == self.file && self.at >= at && self.at - at < count as u64 {
            buf[(self.at - at) as usize] = self.byte;
        }
        Ok(count)
    }

    fn write(&mut self, file: u32, at: u64, piece: &[u8]) -> Result<(), DiskRefusal> {
        if self.is_behind(file, at) {
            return self.inner.fail(Call::Look);
        }
        self.inner.write(file, at, piece)
    }

    fn cut(&mut self, file: u32, size: u64) -> Result<(), DiskRefusal> {
        if self.is_behind(file, size) {
            return self.inner.fail(Call::Look);
        }
        self.inner.cut(file, size)
    }

    fn sync(&mut self, file: u32) -> Result<(), DiskRefusal> {
        self.inner.sync(file)
    }

    fn calls(&self) -> u64 {
        self.inner.calls()
    }
}
