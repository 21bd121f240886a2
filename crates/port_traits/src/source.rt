//! A stream of bytes that is read.
ghost use Rattle.std.specs.Prelude.{◌≡◌, ℕ, List, Option};
ghost use Rattle.fault_counts.specs.Causes.{HasCause};
ghost use Rattle.port_traits.specs.Streams.{Takes, ended_after, is_end};

use crate::failed::Failed;

/// A stream of bytes that is read from its front.
pub trait Source {
    /// The bytes that are left, None where the stream does not tell.
    ghost left: { Self → Option (List ℕ) };

    /// How many faults the stream has had, up to 2^64 - 1.
    ghost faults: { Self → ℕ };

    /// How many reads there were from the first one on that failed or found the end of the input,
    /// up to 2^64 - 1: 0 while none did, 1 where that one was the last read.
    ghost ended: { Self → ℕ };

    /// Puts bytes into the front of the buffer and says how many. 0 into a buffer that is not empty
    /// is the end of the input.
    fn read(&mut self, buf: &mut [u8]) -> Result<usize, Failed>
        ensures takes { Takes (left self.old) (left self.new) result buf.new }
        ensures cause { HasCause (faults self.old) (faults self.new) result }
        ensures ended { ended self.new ≡ ended_after (ended self.old) (is_end result buf.new) };
}
