//! Calls on a file of which nothing is claimed after a crash.
ghost use Rattle.std.specs.Prelude.{◌≡◌, ℕ, ◌+◌, ◌^◌, ◌<◌, ◌≤◌, length, take, OnOk, IfSome};
ghost use Rattle.disk_model.specs.Story.{seen, overwritten};
ghost use Rattle.disk_model.specs.Claims.{WorksOn};
ghost use Rattle.disk_model.specs.Answers.{HasDiskCause};

use crate::disk::Disk;
use crate::refusals::DiskRefusal;

/// Writes a piece and does not sync it: one call of the disk.
pub fn write_unsynced<D: Disk>(
    d: &mut D,
    file: u32,
    at: u64,
    piece: &[u8],
) -> Result<(), DiskRefusal>
    requires { IfSome (D.told d.old) (λ _. at ≤ length (seen (D.told d.old) file)) }
    ensures reads { OnOk result (IfSome (D.told d.old) (λ _. seen (D.told d.new) file ≡ overwritten at piece.now (seen (D.told d.old) file))) }
    ensures room { OnOk result (at + length piece.now < 2 ^ 64) }
    ensures works { WorksOn (D.told d.old) (D.told d.new) file }
    ensures cause { HasDiskCause (D.faults d.old) (D.faults d.new) result }
{
    d.write(file, at, piece)
}

/// Cuts a file and does not sync it: one call of the disk.
pub fn cut_unsynced<D: Disk>(d: &mut D, file: u32, size: u64) -> Result<(), DiskRefusal>
    requires { IfSome (D.told d.old) (λ _. size ≤ length (seen (D.told d.old) file)) }
    ensures reads { OnOk result (IfSome (D.told d.old) (λ _. seen (D.told d.new) file ≡ take size (seen (D.told d.old) file))) }
    ensures works { WorksOn (D.told d.old) (D.told d.new) file }
    ensures cause { HasDiskCause (D.faults d.old) (D.faults d.new) result }
{
    d.cut(file, size)
}
