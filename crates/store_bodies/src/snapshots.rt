//! Parts of a snapshot's body: the texts of objects, and the rows of tables.
ghost use Rattle.std.specs.Prelude.{◌≡◌, ◌++◌, IfOk, OnOk, OnErr};
ghost use Rattle.byte_fields.specs.Field.{BeginsWith};
ghost use Rattle.store_model.specs.Reading.{so_many, text_behind, all_behind, row_in};
ghost use Rattle.store_model.specs.Bodies.{text_bytes};
ghost use Rattle.store_bodies.specs.Seen.{seen, piece_seen};

use crate::rows::take_shared_row;
use crate::taking::{take_eight, take_piece};
use byte_fields::bytes_u64;
use sharing::Shared;
use std::alloc::Global;
use val_types::{Bytes, List, NoMemory, Row};

/// Puts the text of an object behind its length of eight bytes at the end.
#[tactic(auto, using(byte_fields::proofs::FieldLaws::begins_more))]
pub fn put_object_text(text: &Bytes, out: &mut Bytes) -> Result<(), NoMemory>
    ensures ok { OnOk result (out.new ≡ out.old ++ text_bytes 8 text.now) }
    ensures err { OnErr result (BeginsWith out.new out.old) }
{
    out.extend_from_slice(&bytes_u64(text.len() as u64))?;
    out.extend_from_slice(text.as_slice())
}

/// The text of an object behind its length of eight bytes.
pub fn take_object_text(bytes: &[u8]) -> Option<(&[u8], &[u8])>
    ensures { piece_seen result ≡ text_behind 8 bytes.now }
{
    match take_eight(bytes) {
        Some((count, rest)) => take_piece(count as usize, rest),
        None => None,
    }
}

/// So many rows.
fn take_each(
    alloc: Global,
    count: u64,
    bytes: &[u8],
) -> Result<Option<(List<Shared<Row>>, &[u8])>, NoMemory>
    ensures { IfOk result (λ o. seen o ≡ so_many row_in count bytes.now) }
{
    let mut list = List::new(alloc);
    let mut rest = bytes;
    for _row in 0..count {
        match take_shared_row(alloc, rest)? {
            Some((row, next)) => {
                list.push(row)?;
                rest = next;
            }
            None => return Ok(None),
        }
    }
    Ok(Some((list, rest)))
}

/// The rows of a table behind their count of eight bytes.
pub fn take_rows(
    alloc: Global,
    bytes: &[u8],
) -> Result<Option<(List<Shared<Row>>, &[u8])>, NoMemory>
    ensures { IfOk result (λ o. seen o ≡ all_behind 8 row_in bytes.now) }
{
    match take_eight(bytes) {
        Some((count, rest)) => take_each(alloc, count, rest),
        None => Ok(None),
    }
}
