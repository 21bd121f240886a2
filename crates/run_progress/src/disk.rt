//! A disk that is watched.
ghost use Rattle.std.specs.Prelude.{◌≡◌};

use crate::watch::Watch;
use disk_model::{Disk, DiskRefusal};

/// A disk that does what another does, and counts what is read of it where it is watched.
#[derive(Drop)]
pub struct WatchedDisk<'a, D> {
    disk: D,
    watch: Option<Watch<'a>>,
}

impl<'a, D: Disk> WatchedDisk<'a, D> {
    /// This disk, watched by that, if by any.
    pub fn new(disk: D, watch: Option<Watch<'a>>) -> WatchedDisk<'a, D>
        ensures { result.disk ≡ disk }
    {
        WatchedDisk { disk, watch }
    }
}

impl<'a, D: Disk> Disk for WatchedDisk<'a, D> {
    ghost told = { λ d. D.told d.disk };

    ghost faults = { λ d. D.faults d.disk };

    fn length(&mut self, file: u32) -> Result<u64, DiskRefusal> {
        self.disk.length(file)
    }

    fn read(&mut self, file: u32, at: u64, buf: &mut [u8]) -> Result<usize, DiskRefusal> {
        let count = self.disk.read(file, at, buf)?;
        if let Some(watch) = &mut self.watch {
            watch.pass(count);
        }
        Ok(count)
    }

    fn write(&mut self, file: u32, at: u64, piece: &[u8]) -> Result<(), DiskRefusal> {
        self.disk.write(file, at, piece)
    }

    fn cut(&mut self, file: u32, size: u64) -> Result<(), DiskRefusal> {
        self.disk.cut(file, size)
    }

    fn sync(&mut self, file: u32) -> Result<(), DiskRefusal> {
        self.disk.sync(file)
    }

    fn calls(&self) -> u64 {
        self.disk.calls()
    }
}
