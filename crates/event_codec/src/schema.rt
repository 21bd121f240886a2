//! The one schema of this log.
ghost use Rattle.std.specs.Prelude.{◌≡◌};
ghost use Rattle.event_codec.specs.Bodies.{is_schema};

/// Its name.
pub const SCHEMA: [u8; 2] = *b"db";

/// Whether a name is its name.
pub fn is_schema(name: &[u8]) -> bool
    ensures { result ≡ is_schema name.now }
{
    name == SCHEMA.as_slice()
}
