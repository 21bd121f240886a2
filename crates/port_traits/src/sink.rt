//! A stream of bytes that is written.
ghost use Rattle.std.specs.Prelude.{◌≡◌, ℕ, ◌<◌, List, Option, length};
ghost use Rattle.fault_counts.specs.Causes.{HasCause, Rose};
ghost use Rattle.port_traits.specs.Streams.{Puts, ended_after, is_end};

use crate::failed::Failed;

/// A stream of bytes that is written at its end.
pub trait Sink {
    /// The bytes that were written, None where the stream does not tell.
    ghost written: { Self → Option (List ℕ) };

    /// How many faults the stream has had, up to 2^64 - 1.
    ghost faults: { Self → ℕ };

    /// How many writes there were from the first one on that failed or took none of a piece that is
    /// not empty, up to 2^64 - 1: 0 while none did, 1 where that one was the last write.
    ghost ended: { Self → ℕ };

    /// Writes bytes from the front of the piece and says how many. Where it takes none of a piece
    /// that is not empty, that is a fault, which the stream has counted.
    fn write(&mut self, piece: &[u8]) -> Result<usize, Failed>
        ensures puts { Puts (written self.old) (written self.new) result piece.now }
        ensures cause { HasCause (faults self.old) (faults self.new) result }
        ensures none_taken { result ≡ Ok 0 → 0 < length piece.now
            → Rose (faults self.old) (faults self.new) }
        ensures ended { ended self.new ≡ ended_after (ended self.old) (is_end result piece.now) };
}
