//! The ends of a source's logs, as a snapshot has them.
ghost use Rattle.std.specs.Prelude.{◌≡◌, ◌<◌, ◌≤◌, ◌^◌, ◌++◌, flat_map, length, IfOk, IfSome, OnOk, OnErr};
ghost use Rattle.byte_fields.specs.Field.{BeginsWith};
ghost use Rattle.store_model.specs.Reading.{so_many};
ghost use Rattle.store_model.specs.Bodies.{all_bytes};
ghost use Rattle.store_model.specs.Snapshots.{end_bytes, end_in, ends_in, are_ends};
ghost use Rattle.store_bodies.specs.Ends.{ends_at, ends_seen};

use crate::taking::take_four;
use byte_fields::bytes_u32;
use std::alloc::Global;
use val_types::{Bytes, List, NoMemory};

/// Where the last log of a source ends at the latest.
const LATEST_END: u32 = 1_150_000_000;

/// Where each other log ends at the latest.
const LATEST_OLD_END: u32 = 1_150_000_040;

/// How many logs a source has at the most.
const MOST_LOGS: usize = 60_000;

/// Puts ends at the end of some bytes, one behind the other.
#[tactic(auto, using(byte_fields::proofs::FieldLaws::begins_more))]
fn put_each(ends: &[u32], out: &mut Bytes) -> Result<(), NoMemory>
    ensures ok { OnOk result (out.new ≡ out.old ++ flat_map end_bytes (ends_at ends.now)) }
    ensures err { OnErr result (BeginsWith out.new out.old) }
{
    for end in ends {
        out.extend_from_slice(&bytes_u32(u64::from(*end)))?;
    }
    Ok(())
}

/// Puts ends behind their count at the end of some bytes.
#[tactic(auto, using(byte_fields::proofs::FieldLaws::begins_more))]
pub fn put_ends(ends: &[u32], out: &mut Bytes) -> Result<(), NoMemory>
    requires { length ends.now < 2 ^ 32 }
    ensures ok { OnOk result (out.new ≡ out.old ++ all_bytes 4 end_bytes (ends_at ends.now)) }
    ensures err { OnErr result (BeginsWith out.new out.old) }
{
    out.extend_from_slice(&bytes_u32(ends.len() as u64))?;
    put_each(ends, out)
}

/// So many ends.
fn take_each(
    alloc: Global,
    count: u32,
    bytes: &[u8],
) -> Result<Option<(List<u32>, &[u8])>, NoMemory>
    ensures { IfOk result (λ o. ends_seen o ≡ so_many end_in count bytes.now) }
{
    let mut list = List::new(alloc);
    let mut rest = bytes;
    for _end in 0..count {
        match take_four(rest) {
            Some((end, next)) => {
                list.push(end)?;
                rest = next;
            }
            None => return Ok(None),
        }
    }
    Ok(Some((list, rest)))
}

/// Whether ends may be those of logs: the last one's, and the others'.
fn may_end(ends: &[u32]) -> bool
    ensures { result ≡ are_ends (ends_at ends.now) }
{
    let mut left = ends;
    while let [end, rest @ ..] = left {
        let latest = if rest.is_empty() {
            LATEST_END
        } else {
            LATEST_OLD_END
        };
        if *end > latest {
            return false;
        }
        left = rest;
    }
    true
}

/// The ends of a source's logs behind their count, where there may be such logs.
pub fn take_ends(alloc: Global, bytes: &[u8]) -> Result<Option<(List<u32>, &[u8])>, NoMemory>
    ensures ends { IfOk result (λ o. ends_seen o ≡ ends_in bytes.now) }
    ensures few { IfOk result (λ o. IfSome o (λ ends. length ends.0 ≤ MOST_LOGS)) }
{
    let Some((count, behind)) = take_four(bytes) else {
        return Ok(None);
    };
    let Some((ends, rest)) = take_each(alloc, count, behind)? else {
        return Ok(None);
    };
    if ends.is_empty() || ends.len() > MOST_LOGS || !may_end(ends.as_slice()) {
        return Ok(None);
    }
    Ok(Some((ends, rest)))
}
