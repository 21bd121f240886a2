//! A snapshot, made in memory.
ghost use Rattle.std.specs.Prelude.{◌≡◌, ◌≤◌, ◌<◌, ◌^◌, ◌++◌, drop, length, IfOk, OnOk};
ghost use Rattle.byte_fields.specs.Field.{number_bytes};
ghost use Rattle.store_model.specs.Snapshots.{snapshot_body};
ghost use Rattle.checkpoint_model.specs.Pieces.{snapshot_framed};
ghost use Rattle.checkpoint.specs.Checkpoints.{HasSizes, held_kept};

use byte_fields::bytes_u64;
use commit_store::Store;
use row_store::Tables;
use snapshot_bodies::catalog_show_create::catalog_objects::Objects;
use snapshot_bodies::{put_base, put_head, put_places};
use std::alloc::Global;
use val_types::{Bytes, List, NoMemory};

/// Puts the body of a snapshot at the end of some bytes.
fn put_body(
    alloc: Global,
    s: &Store,
    generation: u64,
    tables: &Tables,
    objects: &Objects,
    out: &mut Bytes,
) -> Result<(), NoMemory>
    ensures body { OnOk result (out.new ≡ out.old ++ snapshot_body s.now.node generation (held_kept s.now tables.now objects.now)) }
    ensures few { OnOk result (length objects.now < 2 ^ 32) }
{
    let kind = s.node();
    put_head(kind, generation, s.number(), out)?;
    put_places(kind, s.ends(), s.log(), s.pos(), out)?;
    put_base(alloc, tables, objects, out)
}

/// Writes a number into the first eight of some bytes.
#[tactic(auto, using(crate::proofs::Framing::put_next))]
fn put_number(bytes: &mut Bytes, number: u64)
    requires { 8 ≤ length bytes.old }
    ensures { bytes.new ≡ number_bytes 8 number ++ drop 8 bytes.old }
{
    let field = bytes_u64(number);
    for at in 0..field.len() {
        bytes.set(at, field[at]);
    }
}

/// A snapshot of what a store holds as its file has it behind the gate: the length of its body, and the body. It stands in memory once.
pub(crate) fn framed_snapshot(
    alloc: Global,
    s: &Store,
    generation: u64,
    tables: &Tables,
    objects: &Objects,
) -> Result<Bytes, NoMemory>
    ensures bytes { IfOk result (λ framed. framed ≡ snapshot_framed (snapshot_body s.now.node generation (held_kept s.now tables.now objects.now))) }
    ensures sizes { IfOk result (λ framed. HasSizes s.now.node generation (held_kept s.now tables.now objects.now)) }
{
    let mut framed = List::from_slice(alloc, &bytes_u64(0))?;
    put_body(alloc, s, generation, tables, objects, &mut framed)?;
    let length = framed.len() - 8;
    put_number(&mut framed, length as u64);
    Ok(framed)
}
