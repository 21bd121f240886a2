//! Want of memory as a status.
ghost use Rattle.std.specs.Prelude.{◌≡◌};
ghost use Rattle.run_streams.specs.Stops.{with_status};

use answer_text::Status;
use val_types::NoMemory;

/// What a call gave, with want of memory as a status.
pub fn with_status<T>(given: Result<T, NoMemory>) -> Result<T, Status>
    ensures { result ≡ with_status given }
{
    match given {
        Ok(value) => Ok(value),
        Err(_) => Err(Status::NoMemory),
    }
}
