//! A write that is made durable at once.
ghost use Rattle.std.specs.Prelude.{◌≡◌, ℕ, ◌+◌, ◌^◌, ◌<◌, ◌≤◌, length, OnOk, IfSome};
ghost use Rattle.disk_model.specs.Story.{seen, count, overwritten};
ghost use Rattle.disk_model.specs.Moments.{Only};
ghost use Rattle.disk_model.specs.Claims.{Puts};
ghost use Rattle.disk_model.specs.Answers.{HasDiskCause};

use crate::disk::Disk;
use crate::refusals::DiskRefusal;

/// Writes a piece over a durable file and syncs it: two calls of the disk. At each moment in it the piece's
/// range may hold anything, and all else stays.
pub fn put<D: Disk>(d: &mut D, file: u32, at: u64, piece: &[u8]) -> Result<(), DiskRefusal>
    requires durable { Only (D.told d.old) file (seen (D.told d.old) file) }
    requires within { IfSome (D.told d.old) (λ _. at ≤ length (seen (D.told d.old) file)) }
    ensures durable { OnOk result (Only (D.told d.new) file (seen (D.told d.new) file)) }
    ensures reads { OnOk result (IfSome (D.told d.old) (λ _. seen (D.told d.new) file ≡ overwritten at piece.now (seen (D.told d.old) file))) }
    ensures room { OnOk result (at + length piece.now < 2 ^ 64) }
    ensures puts { Puts (D.told d.old) (D.told d.new) file at piece.now }
    ensures calls { OnOk result (IfSome (D.told d.old) (λ _. count (D.told d.new) ≡ count (D.told d.old) + 2)) }
    ensures cause { HasDiskCause (D.faults d.old) (D.faults d.new) result }
{
    d.write(file, at, piece)?;
    d.sync(file)?;
    Ok(())
}
