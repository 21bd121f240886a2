//! The bytes of a record.
ghost use Rattle.std.specs.Prelude.{◌≡◌, ◌^◌, ◌<◌, length, IfOk};
ghost use Rattle.gate_journal.specs.Records.{framed};

use byte_fields::bytes_u32;
use std::alloc::Global;
use val_types::{Bytes, List, NoMemory};

/// A record as a journal has it behind a gate: the length of its body, the body, and the next gate, closed. It needs no journal,
/// so that records can be made long before they are written.
pub fn frame(alloc: Global, body: &[u8]) -> Result<Bytes, NoMemory>
    requires { length body.now < 2 ^ 32 }
    ensures { IfOk result (λ bytes. bytes ≡ framed body.now) }
{
    let mut bytes = List::from_slice(alloc, &bytes_u32(body.len() as u64))?;
    bytes.extend_from_slice(body)?;
    bytes.push(0)?;
    Ok(bytes)
}
