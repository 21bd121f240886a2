//! A disk.
ghost use Rattle.std.specs.Prelude.{◌≡◌, ℕ, ◌+◌, ◌-◌, ◌^◌, ◌<◌, ◌≤◌, min, length, Option, IfOk, OnOk, IfSome};
ghost use Rattle.disk_model.specs.declared.call.Call.TheVariants.{Look, Cut, Sync};
ghost use Rattle.disk_model.specs.Story.{Story, seen};
ghost use Rattle.disk_model.specs.Left.{AreBytes};
ghost use Rattle.disk_model.specs.Answers.{Tells, HasDiskCause, Reads, write_call};

use crate::refusals::DiskRefusal;

/// Files by number, what a read of them gives, and what a crash may leave of them at each moment.
///
/// A disk that tells its story says all this of it. A disk that does not, as one over real files, has its
/// counts alone.
pub trait Disk {
    /// The story so far, None where the disk does not tell.
    ghost told: { Self → Option Story };

    /// How many faults the device has had, up to 2^64 - 1.
    ghost faults: { Self → ℕ };

    /// How many bytes a file has, 0 where it does not exist.
    fn length(&mut self, file: u32) -> Result<u64, DiskRefusal>
        ensures value { IfOk result (λ n. IfSome (told self.old) (λ _. n ≡ length (seen (told self.old) file))) }
        ensures story { Tells result (λ _. Look) (told self.old) (told self.new) }
        ensures cause { HasDiskCause (faults self.old) (faults self.new) result };

    /// The bytes from a place on, as many as the buffer and the file have.
    fn read(&mut self, file: u32, at: u64, buf: &mut [u8]) -> Result<usize, DiskRefusal>
        ensures value { IfOk result (λ n. IfSome (told self.old) (λ _. Reads (seen (told self.old) file) at n buf.new)) }
        ensures fits { IfOk result (λ n. n ≤ length buf.new) }
        ensures story { Tells result (λ _. Look) (told self.old) (told self.new) }
        ensures cause { HasDiskCause (faults self.old) (faults self.new) result };

    /// Writes a whole piece over what stands from a place on. Until a sync a crash may leave any bytes there.
    /// A piece that would end above 2^64 - 1 is Failed.
    fn write(&mut self, file: u32, at: u64, piece: &[u8]) -> Result<(), DiskRefusal>
        requires { IfSome (told self.old) (λ _. at ≤ length (seen (told self.old) file)) }
        ensures room { OnOk result (at + length piece.now < 2 ^ 64) }
        ensures story { Tells result (write_call file at piece.now) (told self.old) (told self.new) }
        ensures cause { HasDiskCause (faults self.old) (faults self.new) result };

    /// Cuts a file to a length.
    fn cut(&mut self, file: u32, size: u64) -> Result<(), DiskRefusal>
        requires { IfSome (told self.old) (λ _. size ≤ length (seen (told self.old) file)) }
        ensures story { Tells result (λ done. Cut file size done) (told self.old) (told self.new) }
        ensures cause { HasDiskCause (faults self.old) (faults self.new) result };

    /// Makes what is read of a file durable.
    fn sync(&mut self, file: u32) -> Result<(), DiskRefusal>
        ensures story { Tells result (λ done. Sync file done) (told self.old) (told self.new) }
        ensures cause { HasDiskCause (faults self.old) (faults self.new) result };

    /// How many calls of the five above there were, up to 2^64 - 1. It is none itself, and takes no memory. What is told is a story of bytes.
    fn calls(&self) -> u64
        ensures count { IfSome (told self.now) (λ s. result ≡ min (length s.calls) (2 ^ 64 - 1)) }
        ensures bytes { IfSome (told self.now) (λ s. AreBytes s.first s.calls) };
}
