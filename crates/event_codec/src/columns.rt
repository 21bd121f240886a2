//! The types of a table's columns in its map.
ghost use Rattle.std.specs.Prelude.{◌≡◌, ◌≤◌, length};
ghost use Rattle.event_codec.specs.Columns.{is_known, are_known, texts, columns_at, columns_seen};

use crate::bitmap::bitmap_size;
use crate::fault::Fault;
use crate::parts::{encoded, some};

/// A number of four bytes.
pub const LONG: u8 = 3;

/// A number of eight bytes.
pub const LONGLONG: u8 = 8;

/// A text.
pub const VARCHAR: u8 = 15;

/// Types, metadata, and bits of the columns that may be NULL.
#[derive(Clone, Copy)]
pub struct ColumnsView<'a> {
    pub kinds: &'a [u8],
    pub metadata: &'a [u8],
    pub nulls: &'a [u8],
}

/// Whether a type of a column is known.
fn is_known(kind: u8) -> bool
    ensures { result ≡ is_known kind }
{
    kind == LONG || kind == LONGLONG || kind == VARCHAR
}

/// Whether each type of a column is known.
#[tactic(auto, using(crate::proofs::Stepping::known_step))]
fn are_known(kinds: &[u8]) -> bool
    ensures { result ≡ are_known kinds.now }
{
    for kind in kinds {
        if !is_known(*kind) {
            return false;
        }
    }
    true
}

/// How many columns are texts.
#[tactic(auto, using(crate::proofs::Stepping::texts_step))]
fn texts(kinds: &[u8]) -> usize
    ensures exact { result ≡ texts kinds.now }
    ensures few { result ≤ length kinds.now }
{
    let mut count = 0;
    for kind in kinds {
        if *kind == VARCHAR {
            count += 1;
        }
    }
    count
}

/// The columns of a map, which end it.
#[tactic(auto, unfolding(crate::specs::Columns::columns_at))]
pub fn read_columns(bytes: &[u8]) -> Result<ColumnsView<'_>, Fault>
    ensures { columns_seen result ≡ columns_at bytes.now }
{
    let (count, rest) = encoded(bytes)?;
    let (kinds, rest) = some(count, rest)?;
    let (size, rest) = encoded(rest)?;
    let (metadata, nulls) = some(size, rest)?;
    if nulls.len() as u64 != bitmap_size(kinds.len() as u64) {
        return Err(Fault::Damaged);
    }
    if !are_known(kinds) {
        return Err(Fault::Foreign);
    }
    if metadata.len() != 2 * texts(kinds) {
        return Err(Fault::Damaged);
    }
    Ok(ColumnsView {
        kinds,
        metadata,
        nulls,
    })
}
