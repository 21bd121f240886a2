//! The logs of a source, as its store says that they are there.
ghost use Rattle.std.specs.Prelude.{◌≡◌, ◌≤◌, OnOk, IfSome, length};
ghost use Rattle.disk_model.specs.Story.{seen};
ghost use Rattle.disk_model.specs.Moments.{Only};
ghost use Rattle.disk_model.specs.Claims.{Quietly};
ghost use Rattle.disk_model.specs.Answers.{HasOpenCause};
ghost use Rattle.store_model.specs.Held.{most_logs};
ghost use Rattle.store_model.specs.Stores.{HasLogs, first_log};
ghost use Rattle.store_load.specs.Loading.{LogsAreSettled, TellsFirstShort, TellsShort, ends_at};

use disk_model::{Disk, OpenRefusal, settle};
use val_types::List;

/// Makes a log durable, and looks whether it is as long as its end says.
fn look_at_log<D: Disk>(d: &mut D, file: u32, end: u32) -> Result<(), OpenRefusal>
    ensures long { OnOk result (IfSome (D.told d.old) (λ _. end ≤ length (seen (D.told d.old) file))) }
    ensures short { TellsShort (D.told d.old) file end result }
    ensures durable { OnOk result (Only (D.told d.new) file (seen (D.told d.new) file)) }
    ensures quiet { Quietly (D.told d.old) (D.told d.new) }
    ensures cause { HasOpenCause (D.faults d.old) (D.faults d.new) result }
{
    settle(d, file)?;
    let size = d.length(file)?;
    if size < u64::from(end) {
        return Err(OpenRefusal::Damaged { file, at: size });
    }
    Ok(())
}

/// Makes logs durable, and looks whether each is as long as its end says, the first one first: two calls of the disk for each.
pub fn look_at_logs<D: Disk>(d: &mut D, ends: &List<u32>) -> Result<(), OpenRefusal>
    requires { length ends.now ≤ most_logs }
    ensures long { OnOk result (IfSome (D.told d.old) (λ _. HasLogs first_log (ends_at ends.now) (seen (D.told d.old)))) }
    ensures short { TellsFirstShort (D.told d.old) (ends_at ends.now) result }
    ensures durable { OnOk result (LogsAreSettled (D.told d.new) (length ends.now)) }
    ensures quiet { Quietly (D.told d.old) (D.told d.new) }
    ensures cause { HasOpenCause (D.faults d.old) (D.faults d.new) result }
{
    let mut file = 8;
    for end in ends.as_slice() {
        look_at_log(d, file, *end)?;
        file += 1;
    }
    Ok(())
}
