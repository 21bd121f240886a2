//! Calls that change nothing that is read.
ghost use Rattle.std.specs.Prelude.{◌≡◌, IfOk, OnOk, IfSome};
ghost use Rattle.disk_model.specs.Story.{seen};
ghost use Rattle.disk_model.specs.Moments.{Only};
ghost use Rattle.disk_model.specs.Claims.{Quietly};
ghost use Rattle.disk_model.specs.Answers.{HasDiskCause};

use crate::disk::Disk;
use crate::refusals::DiskRefusal;
use std::alloc::Global;
use val_types::{Bytes, List};

/// Makes a file durable as it is read: one call of the disk.
pub fn settle<D: Disk>(d: &mut D, file: u32) -> Result<(), DiskRefusal>
    ensures durable { OnOk result (Only (D.told d.new) file (seen (D.told d.new) file)) }
    ensures quiet { Quietly (D.told d.old) (D.told d.new) }
    ensures cause { HasDiskCause (D.faults d.old) (D.faults d.new) result }
{
    d.sync(file)
}

/// All the bytes of a file: two calls of the disk.
pub fn whole_file<D: Disk>(alloc: Global, d: &mut D, file: u32) -> Result<Bytes, DiskRefusal>
    ensures bytes { IfOk result (λ bytes. IfSome (D.told d.old) (λ _. bytes ≡ seen (D.told d.old) file)) }
    ensures quiet { Quietly (D.told d.old) (D.told d.new) }
    ensures cause { HasDiskCause (D.faults d.old) (D.faults d.new) result }
{
    let size = d.length(file)?;
    let mut bytes = vec![in alloc; 0u8; size as usize]?;
    let count = d.read(file, 0, bytes.as_mut_slice())?;
    bytes.truncate(count);
    Ok(List::from_vec(bytes))
}
