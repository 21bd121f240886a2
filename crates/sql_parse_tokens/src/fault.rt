//! Why reading stops.
ghost use Rattle.std.specs.Prelude.{◌≡◌};

use crate::rest::Rest;
use std::alloc::AllocError;

/// Why reading stops, with what is left from there on: no statement goes on so, one construct too many
/// would be open, or want of memory.
#[derive(Drop)]
pub enum Stop<'t> {
    Syntax(Rest<'t>),
    Deep(Rest<'t>),
    NoMemory,
}

impl<'t> From<AllocError> for Stop<'t> {
    ghost use Rattle.sql_parse_tokens.specs.declared.fault.Stop.TheVariants.{NoMemory};

    ghost from_gives = { λ _ e. e ≡ NoMemory };

    fn from(_e: AllocError) -> Stop<'t> {
        Stop::NoMemory
    }
}
