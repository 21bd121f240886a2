//! A stream that is watched.

use crate::watch::Watch;
use std::io;
use std::io::Read;

/// A stream that gives what another gives, and counts it where it is watched.
#[derive(Drop)]
pub struct WatchedReader<'a, R> {
    reader: R,
    watch: Option<Watch<'a>>,
}

impl<'a, R: Read> WatchedReader<'a, R> {
    /// This stream, watched by that, if by any.
    pub fn new(reader: R, watch: Option<Watch<'a>>) -> WatchedReader<'a, R> {
        WatchedReader { reader, watch }
    }
}

impl<'a, R: Read> Read for WatchedReader<'a, R> {
    ghost remaining = { λ d. R.remaining d.reader };

    fn read(&mut self, buf: &mut [u8]) -> io::Result<usize> {
        let count = self.reader.read(buf)?;
        if let Some(watch) = &mut self.watch {
            watch.pass(count);
        }
        Ok(count)
    }
}
