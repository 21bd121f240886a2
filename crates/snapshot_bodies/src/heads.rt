//! What stands in a snapshot's body before its objects.
ghost use Rattle.std.specs.Prelude.{◌≡◌, ◌++◌, OnOk};
ghost use Rattle.byte_fields.specs.Field.{number_bytes};
ghost use Rattle.store_model.specs.Held.{Held};
ghost use Rattle.store_model.specs.Snapshots.{node_of, places_bytes};
ghost use Rattle.store_bodies.specs.Ends.{ends_at};

use byte_fields::{bytes_u8, bytes_u32, bytes_u64};
use std::alloc::AllocError;
use store_bodies::put_ends;
use store_model::Kind;
use val_types::{Bytes, NoMemory};

/// The number that says whose store it is.
fn node_of(kind: Kind) -> u64
    ensures { result ≡ node_of kind }
{
    match kind {
        Kind::Source => 1,
        Kind::Replica => 2,
    }
}

/// Puts whose store it is, the generation, and how many transactions were committed, or carried out.
pub fn put_head(kind: Kind, generation: u64, number: u64, out: &mut Bytes) -> Result<(), NoMemory>
    ensures { OnOk result (out.new ≡ out.old ++ (number_bytes 1 (node_of kind) ++ number_bytes 8 generation ++ number_bytes 8 number)) }
{
    out.extend_from_slice(&bytes_u8(node_of(kind)))?;
    out.extend_from_slice(&bytes_u64(generation))?;
    out.extend_from_slice(&bytes_u64(number))
}

/// Puts the ends of a source's logs, or the place up to which a replica has carried out its source's.
pub fn put_places(
    kind: Kind,
    ends: &[u32],
    log: u32,
    pos: u32,
    out: &mut Bytes,
) -> Result<(), NoMemory>
    ensures { (held : Held) → held.ends ≡ ends_at ends.now → held.place ≡ record { log = log; pos = pos }
        → OnOk result (out.new ≡ out.old ++ places_bytes kind held) }
{
    match kind {
        Kind::Source => {
            if ends.len() > 0xffff_ffff {
                return Err(AllocError);
            }
            put_ends(ends, out)
        }
        Kind::Replica => {
            out.extend_from_slice(&bytes_u32(u64::from(log)))?;
            out.extend_from_slice(&bytes_u32(u64::from(pos)))
        }
    }
}
