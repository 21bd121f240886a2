//! The script made whole.
ghost use Rattle.std.specs.Prelude.{◌≡◌, IfOk};
ghost use Rattle.load_script.specs.Script.{load_text};

use crate::lines::{put_first, put_last, put_turn};
use std::alloc::Global;
use val_types::{Bytes, NoMemory};

/// The script with so many changes.
#[tactic(auto, using(crate::proofs::Turns::turns_more))]
pub fn gen_(alloc: Global, changes: u32) -> Result<Bytes, NoMemory>
    ensures { IfOk result (λ text. text ≡ load_text changes) }
{
    let mut text = Bytes::new(alloc);
    put_first(&mut text)?;
    let mut i = 0;
    while i < changes {
        i += 1;
        put_turn(alloc, &mut text, i)?;
    }
    put_last(&mut text)?;
    Ok(text)
}
