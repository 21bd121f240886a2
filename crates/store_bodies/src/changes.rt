//! Changes at the front of some bytes.
ghost use Rattle.std.specs.Prelude.{◌≡◌, IfOk};
ghost use Rattle.store_model.specs.log_model.Images.{and_then};
ghost use Rattle.store_model.specs.Reading.{read_as, so_many, row_in, change_of_kind, change_in};
ghost use Rattle.store_model.specs.Bodies.{changes_in};
ghost use Rattle.store_bodies.specs.Seen.{seen};

use crate::rows::take_shared_row;
use crate::taking::{take_four, take_name, take_one};
use sharing::Shared;
use std::alloc::Global;
use val_types::{Bytes, Change, List, NoMemory};

/// The name of a table, for a change to hold.
fn shared_name(alloc: Global, name: &[u8]) -> Result<Shared<Bytes>, NoMemory>
    ensures { IfOk result (λ s. s ≡ name.now) }
{
    let name = Bytes::from_slice(alloc, name)?;
    Shared::new(alloc, name)
}

/// A row that was put in.
fn take_insert<'a>(
    alloc: Global,
    name: &[u8],
    bytes: &'a [u8],
) -> Result<Option<(Change, &'a [u8])>, NoMemory>
    ensures { IfOk result (λ o. seen o ≡ read_as (λ row. Change.Insert name.now row) (row_in bytes.now)) }
{
    let Some((row, rest)) = take_shared_row(alloc, bytes)? else {
        return Ok(None);
    };
    let table = shared_name(alloc, name)?;
    Ok(Some((Change::Insert { table, row }, rest)))
}

/// A row as it was before and after.
fn take_update<'a>(
    alloc: Global,
    name: &[u8],
    bytes: &'a [u8],
) -> Result<Option<(Change, &'a [u8])>, NoMemory>
    ensures { IfOk result (λ o. seen o ≡ and_then (λ before rest. read_as (λ after. Change.Update name.now before after) (row_in rest)) (row_in bytes.now)) }
{
    let Some((before, middle)) = take_shared_row(alloc, bytes)? else {
        return Ok(None);
    };
    let Some((after, rest)) = take_shared_row(alloc, middle)? else {
        return Ok(None);
    };
    let table = shared_name(alloc, name)?;
    let change = Change::Update {
        table,
        before,
        after,
    };
    Ok(Some((change, rest)))
}

/// A row that was taken out.
fn take_delete<'a>(
    alloc: Global,
    name: &[u8],
    bytes: &'a [u8],
) -> Result<Option<(Change, &'a [u8])>, NoMemory>
    ensures { IfOk result (λ o. seen o ≡ read_as (λ row. Change.Delete name.now row) (row_in bytes.now)) }
{
    let Some((row, rest)) = take_shared_row(alloc, bytes)? else {
        return Ok(None);
    };
    let table = shared_name(alloc, name)?;
    Ok(Some((Change::Delete { table, row }, rest)))
}

/// A change behind its kind and the name of its table.
fn take_kind<'a>(
    alloc: Global,
    kind: u8,
    name: &[u8],
    bytes: &'a [u8],
) -> Result<Option<(Change, &'a [u8])>, NoMemory>
    ensures { IfOk result (λ o. seen o ≡ change_of_kind kind name.now bytes.now) }
{
    match kind {
        1 => take_insert(alloc, name, bytes),
        2 => take_update(alloc, name, bytes),
        3 => take_delete(alloc, name, bytes),
        _ => Ok(None),
    }
}

/// A change, and what is behind it.
#[tactic(auto, unfolding(store_model::specs::Reading::change_in))]
fn take_change(alloc: Global, bytes: &[u8]) -> Result<Option<(Change, &[u8])>, NoMemory>
    ensures { IfOk result (λ o. seen o ≡ change_in bytes.now) }
{
    let Some((kind, named)) = take_one(bytes) else {
        return Ok(None);
    };
    let Some((name, rest)) = take_name(named) else {
        return Ok(None);
    };
    take_kind(alloc, kind, name, rest)
}

/// So many changes.
fn take_each(
    alloc: Global,
    count: u32,
    bytes: &[u8],
) -> Result<Option<(List<Change>, &[u8])>, NoMemory>
    ensures { IfOk result (λ o. seen o ≡ so_many change_in count bytes.now) }
{
    let mut list = List::new(alloc);
    let mut rest = bytes;
    for _change in 0..count {
        match take_change(alloc, rest)? {
            Some((change, next)) => {
                list.push(change)?;
                rest = next;
            }
            None => return Ok(None),
        }
    }
    Ok(Some((list, rest)))
}

/// The changes of a transaction, and what is behind them.
pub fn take_changes(alloc: Global, bytes: &[u8]) -> Result<Option<(List<Change>, &[u8])>, NoMemory>
    ensures { IfOk result (λ o. seen o ≡ changes_in bytes.now) }
{
    match take_four(bytes) {
        Some((count, rest)) => take_each(alloc, count, rest),
        None => Ok(None),
    }
}
