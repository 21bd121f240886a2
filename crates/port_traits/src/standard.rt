//! Readers and writers of the runtime as streams, standard input and output above all.
ghost use Rattle.std.specs.Prelude.{◌≡◌, ◌<◌, ◌≤◌, true, None, length};
ghost use Rattle.std.specs.Io.KnownBytes.{ReadConsumes, WriteAppends};
ghost use Rattle.fault_counts.specs.Causes.{HasCause, Rose, one_more};
ghost use Rattle.port_traits.specs.Streams.{Puts, Takes, ended_after, is_end};

use crate::calls::ended_after;
use crate::failed::Failed;
use crate::sink::Sink;
use crate::source::Source;
use std::io::{Read, Write};

/// A source over a reader: over standard input where that is the runtime's `reader()`.
///
/// It does not tell what it has left. Each error of the reader is a fault.
#[derive(Drop)]
pub struct StdSource<R> {
    pub reader: R,
    faults: u64,
    ended: u64,
}

impl<R: Read> StdSource<R> {
    /// A source over this reader, with no fault yet.
    pub fn new(reader: R) -> StdSource<R>
        ensures reader { result.reader ≡ reader }
        ensures faults { ⟦<StdSource<R> as Source>⟧.faults result ≡ 0 }
        ensures ended { ⟦<StdSource<R> as Source>⟧.ended result ≡ 0 }
    {
        StdSource {
            reader,
            faults: 0,
            ended: 0,
        }
    }
}

impl<R: Read> Source for StdSource<R> {
    ghost left = { λ _. None };

    ghost faults = { λ s. s.faults };

    ghost ended = { λ s. s.ended };

    fn read(&mut self, buf: &mut [u8]) -> Result<usize, Failed>
        ensures takes { Takes None None result buf.new }
        ensures cause { HasCause self.old.faults self.new.faults result }
        ensures ended { self.new.ended ≡ ended_after self.old.ended (is_end result buf.new) }
        ensures bytes { ReadConsumes (R.remaining self.old.reader) (R.remaining self.new.reader) result buf.new }
    {
        match self.reader.read(buf) {
            Ok(count) => {
                let end = count == 0 && !buf.is_empty();
                self.ended = ended_after(self.ended, end);
                Ok(count)
            }
            Err(_) => {
                self.ended = ended_after(self.ended, true);
                self.faults = self.faults.saturating_add(1);
                Err(Failed)
            }
        }
    }
}

/// A sink over a writer: over standard output where that is `io::writer` of the runtime.
///
/// It does not tell what was written. Each error of the writer is a fault, and so is a write that
/// takes none of a piece that is not empty.
#[derive(Drop)]
pub struct StdSink<W> {
    pub writer: W,
    faults: u64,
    ended: u64,
}

impl<W: Write> StdSink<W> {
    /// A sink over this writer, with no fault yet.
    pub fn new(writer: W) -> StdSink<W>
        ensures writer { result.writer ≡ writer }
        ensures faults { ⟦<StdSink<W> as Sink>⟧.faults result ≡ 0 }
        ensures ended { ⟦<StdSink<W> as Sink>⟧.ended result ≡ 0 }
    {
        StdSink {
            writer,
            faults: 0,
            ended: 0,
        }
    }
}

impl<W> StdSink<W> {
    /// Counts a fault, and the call as one that ended the stream.
    fn fault(&mut self)
        ensures later { self.old.faults ≤ self.new.faults }
        ensures after { self.new ≡ record self.old {
          faults = one_more self.old.faults;
          ended = ended_after self.old.ended true;
        } }
    {
        self.faults = self.faults.saturating_add(1);
        self.ended = ended_after(self.ended, true);
    }
}

impl<W: Write> Sink for StdSink<W> {
    ghost written = { λ _. None };

    ghost faults = { λ s. s.faults };

    ghost ended = { λ s. s.ended };

    fn write(&mut self, piece: &[u8]) -> Result<usize, Failed>
        ensures puts { Puts None None result piece.now }
        ensures cause { HasCause self.old.faults self.new.faults result }
        ensures none_taken { result ≡ Ok 0 → 0 < length piece.now
            → Rose self.old.faults self.new.faults }
        ensures ended { self.new.ended ≡ ended_after self.old.ended (is_end result piece.now) }
        ensures bytes { WriteAppends (W.contents self.old.writer) (W.contents self.new.writer) result piece.now }
    {
        match self.writer.write(piece) {
            Ok(0) if !piece.is_empty() => {
                self.fault();
                Ok(0)
            }
            Ok(count) => {
                self.ended = ended_after(self.ended, false);
                Ok(count)
            }
            Err(_) => {
                self.fault();
                Err(Failed)
            }
        }
    }
}
