//! UUIDs as text.
ghost use Rattle.std.specs.Prelude.{◌≡◌, IfOk};
ghost use Rattle.value_rules.specs.Identifiers.{uuid_text};

use std::alloc::Global;
use uuid::Uuid;
use val_types::{Bytes, List, NoMemory};

/// The text of the UUID with the 16 bytes of a number, the most significant first: 32 lower case
/// hexadecimal digits in groups of 8, 4, 4, 4 and 12 with `-` between them.
pub fn uuid_text(alloc: Global, n: u128) -> Result<Bytes, NoMemory>
    ensures { IfOk result (λ text. text ≡ uuid_text n) }
{
    let mut buffer = Uuid::encode_buffer();
    let text = Uuid::from_u128(n).hyphenated().encode_lower(&mut buffer);
    List::from_slice(alloc, text.as_bytes())
}
