//! The body of a snapshot.
ghost use Rattle.std.specs.Prelude.{◌≡◌, IfOk, IfSome};
ghost use Rattle.store_model.specs.log_model.Images.{and_then};
ghost use Rattle.store_model.specs.Snapshots.{held_in, node_of, snapshot_of};
ghost use Rattle.store_bodies.specs.Seen.{seen};
ghost use Rattle.store_open.specs.Begun.{HeldRead, IsBegun, IsReached, begun_seen, generation_behind, with_base};

use crate::objects::take_base;
use prog_work::Work;
use std::alloc::Global;
use store_bodies::{take_eight, take_ends, take_four, take_one};
use store_load::{Reached, Stored};
use store_model::Kind;
use val_types::{List, NoMemory};

/// How many transactions a source commits at the most.
const MOST_COMMITTED: u64 = 4_294_967_295;

/// Catalog and tables with how far a store has come, as a snapshot has them.
#[derive(Drop)]
pub(crate) struct Begun {
    pub(crate) work: Work,
    pub(crate) reached: Reached,
}

/// How far a source has come, behind its number.
fn take_source(
    alloc: Global,
    number: u64,
    bytes: &[u8],
) -> Result<Option<(Reached, &[u8])>, NoMemory>
    ensures held { IfOk result (λ o. held_in Kind.Source number bytes.now ≡ and_then with_base (seen o)) }
    ensures reached { IfOk result (λ o. IfSome o (λ r. IsReached Kind.Source r.0)) }
{
    if number > MOST_COMMITTED {
        return Ok(None);
    }
    match take_ends(alloc, bytes)? {
        Some((ends, rest)) => {
            let reached = Reached {
                number,
                ends,
                log: 1,
                pos: 4,
            };
            Ok(Some((reached, rest)))
        }
        None => Ok(None),
    }
}

/// How far a replica has come, behind its number.
fn take_replica(alloc: Global, number: u64, bytes: &[u8]) -> Option<(Reached, &[u8])>
    ensures held { held_in Kind.Replica number bytes.now ≡ and_then with_base (seen result) }
    ensures reached { IfSome result (λ r. IsReached Kind.Replica r.0) }
{
    let Some((log, behind)) = take_four(bytes) else {
        return None;
    };
    let Some((pos, rest)) = take_four(behind) else {
        return None;
    };
    let reached = Reached {
        number,
        ends: List::new(alloc),
        log,
        pos,
    };
    Some((reached, rest))
}

/// How far a store has come, behind its number.
fn take_reached(
    alloc: Global,
    kind: Kind,
    number: u64,
    bytes: &[u8],
) -> Result<Option<(Reached, &[u8])>, NoMemory>
    ensures held { IfOk result (λ o. held_in kind number bytes.now ≡ and_then with_base (seen o)) }
    ensures reached { IfOk result (λ o. IfSome o (λ r. IsReached kind r.0)) }
{
    match kind {
        Kind::Source => take_source(alloc, number, bytes),
        Kind::Replica => Ok(take_replica(alloc, number, bytes)),
    }
}

/// What is held, behind its number.
fn take_held(
    alloc: Global,
    kind: Kind,
    number: u64,
    bytes: &[u8],
) -> Result<Option<(Begun, &[u8])>, NoMemory>
    ensures { IfOk result (λ o. HeldRead kind o (held_in kind number bytes.now)) }
{
    let Some((reached, behind)) = take_reached(alloc, kind, number, bytes)? else {
        return Ok(None);
    };
    match take_base(alloc, behind)? {
        Some((work, rest)) => Ok(Some((Begun { work, reached }, rest))),
        None => Ok(None),
    }
}

/// The number of the node of a store.
fn node_of(kind: Kind) -> u8
    ensures { result ≡ node_of kind }
{
    match kind {
        Kind::Source => 1,
        Kind::Replica => 2,
    }
}

/// The generation, and the bytes behind it, where the node is that of the store.
fn take_generation(kind: Kind, body: &[u8]) -> Option<(u64, &[u8])>
    ensures { seen result ≡ generation_behind kind body.now }
{
    let Some((node, behind)) = take_one(body) else {
        return None;
    };
    if node != node_of(kind) {
        return None;
    }
    take_eight(behind)
}

/// Generation and what is held, by a snapshot's body, to its last byte.
#[tactic(auto, using(crate::proofs::Decoding::no_generation, crate::proofs::Decoding::no_number))]
pub(crate) fn read_body(alloc: Global, kind: Kind, body: &[u8]) -> Result<Option<Stored>, NoMemory>
    ensures is { IfOk result (λ o. begun_seen o ≡ snapshot_of kind body.now) }
    ensures begun { IfOk result (λ o. IfSome o (IsBegun kind)) }
{
    let Some((generation, behind)) = take_generation(kind, body) else {
        return Ok(None);
    };
    let Some((number, bytes)) = take_eight(behind) else {
        return Ok(None);
    };
    let Some((begun, rest)) = take_held(alloc, kind, number, bytes)? else {
        return Ok(None);
    };
    if !rest.is_empty() {
        return Ok(None);
    }
    let Begun { work, reached } = begun;
    Ok(Some(Stored::begun(alloc, work, kind, generation, reached)))
}
