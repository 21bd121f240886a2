//! The record that a body is.
ghost use Rattle.std.specs.Prelude.{◌≡◌, IfOk};
ghost use Rattle.store_model.specs.log_model.Images.{and_then};
ghost use Rattle.store_model.specs.Reading.{read_as, number_of, to_the_end};
ghost use Rattle.store_model.specs.Bodies.{head_in, with_changes, with_text, with_old_end, record_of_kind, record_of};
ghost use Rattle.store_bodies.specs.Seen.{seen};

use crate::changes::take_changes;
use crate::taking::{take_eight, take_four, take_one, take_text};
use std::alloc::Global;
use store_model::{Head, Kind, Record};
use val_types::{Bytes, NoMemory};

/// The head of a record behind its kind.
fn take_head(bytes: &[u8]) -> Option<(Head, &[u8])>
    ensures { seen result ≡ head_in bytes.now }
{
    let Some((number, behind)) = take_eight(bytes) else {
        return None;
    };
    let Some((log, later)) = take_four(behind) else {
        return None;
    };
    let Some((pos, rest)) = take_four(later) else {
        return None;
    };
    Some((Head { number, log, pos }, rest))
}

/// A transaction that a source committed.
fn transaction(alloc: Global, bytes: &[u8]) -> Result<Option<(Record, &[u8])>, NoMemory>
    ensures { IfOk result (λ o. seen o ≡ and_then (with_changes (λ head cs. Record.Transaction head cs)) (head_in bytes.now)) }
{
    let Some((head, behind)) = take_head(bytes) else {
        return Ok(None);
    };
    match take_changes(alloc, behind)? {
        Some((changes, rest)) => Ok(Some((Record::Transaction { head, changes }, rest))),
        None => Ok(None),
    }
}

/// A definition that a source committed.
fn definition(alloc: Global, bytes: &[u8]) -> Result<Option<(Record, &[u8])>, NoMemory>
    ensures { IfOk result (λ o. seen o ≡ and_then (with_text (λ head text. Record.Definition head text)) (head_in bytes.now)) }
{
    let Some((head, behind)) = take_head(bytes) else {
        return Ok(None);
    };
    let Some((words, rest)) = take_text(behind) else {
        return Ok(None);
    };
    let text = Bytes::from_slice(alloc, words)?;
    Ok(Some((Record::Definition { head, text }, rest)))
}

/// A log of a source that begins.
fn log_start(bytes: &[u8]) -> Option<(Record, &[u8])>
    ensures { seen result ≡ and_then with_old_end (head_in bytes.now) }
{
    let Some((head, behind)) = take_head(bytes) else {
        return None;
    };
    match take_four(behind) {
        Some((old_end, rest)) => Some((Record::LogStart { head, old_end }, rest)),
        None => None,
    }
}

/// A transaction that a replica carried out.
fn transaction_applied(alloc: Global, bytes: &[u8]) -> Result<Option<(Record, &[u8])>, NoMemory>
    ensures { IfOk result (λ o. seen o ≡ and_then (with_changes (λ head cs. Record.TransactionApplied head cs)) (head_in bytes.now)) }
{
    let Some((head, behind)) = take_head(bytes) else {
        return Ok(None);
    };
    match take_changes(alloc, behind)? {
        Some((changes, rest)) => Ok(Some((Record::TransactionApplied { head, changes }, rest))),
        None => Ok(None),
    }
}

/// A definition that a replica carried out.
fn definition_applied(alloc: Global, bytes: &[u8]) -> Result<Option<(Record, &[u8])>, NoMemory>
    ensures { IfOk result (λ o. seen o ≡ and_then (with_text (λ head text. Record.DefinitionApplied head text)) (head_in bytes.now)) }
{
    let Some((head, behind)) = take_head(bytes) else {
        return Ok(None);
    };
    let Some((words, rest)) = take_text(behind) else {
        return Ok(None);
    };
    let text = Bytes::from_slice(alloc, words)?;
    Ok(Some((Record::DefinitionApplied { head, text }, rest)))
}

/// A place that a replica moved.
fn place_moved(bytes: &[u8]) -> Option<(Record, &[u8])>
    ensures { seen result ≡ read_as (λ head. Record.PlaceMoved head) (head_in bytes.now) }
{
    match take_head(bytes) {
        Some((head, rest)) => Some((Record::PlaceMoved { head }, rest)),
        None => None,
    }
}

/// A record of a source behind its kind.
fn of_source(alloc: Global, kind: u8, bytes: &[u8]) -> Result<Option<(Record, &[u8])>, NoMemory>
    ensures { IfOk result (λ o. seen o ≡ record_of_kind Kind.Source kind bytes.now) }
{
    match kind {
        1 => transaction(alloc, bytes),
        2 => definition(alloc, bytes),
        3 => Ok(log_start(bytes)),
        _ => Ok(None),
    }
}

/// A record of a replica behind its kind.
fn of_replica(alloc: Global, kind: u8, bytes: &[u8]) -> Result<Option<(Record, &[u8])>, NoMemory>
    ensures { IfOk result (λ o. seen o ≡ record_of_kind Kind.Replica kind bytes.now) }
{
    match kind {
        17 => transaction_applied(alloc, bytes),
        18 => definition_applied(alloc, bytes),
        19 => Ok(place_moved(bytes)),
        _ => Ok(None),
    }
}

/// A record in a store of one kind, behind its kind.
fn take_record(alloc: Global, kind: Kind, bytes: &[u8]) -> Result<Option<(Record, &[u8])>, NoMemory>
    ensures { IfOk result (λ o. seen o ≡ and_then (record_of_kind kind) (number_of 1 bytes.now)) }
{
    match take_one(bytes) {
        Some((number, rest)) => match kind {
            Kind::Source => of_source(alloc, number, rest),
            Kind::Replica => of_replica(alloc, number, rest),
        },
        None => Ok(None),
    }
}

/// What was read, where nothing is behind it.
#[tactic(auto, using(crate::proofs::Ending::ended, crate::proofs::Ending::not_ended))]
fn whole(read: Option<(Record, &[u8])>) -> Option<Record>
    ensures { result ≡ to_the_end (seen read.entry) }
{
    match read {
        Some((record, left)) => { if left.is_empty() { Some(record) } else { None } }
        None => None,
    }
}

/// The record that a body is, to its last byte, in a store of one kind; None where it is none.
#[tactic(auto, unfolding(store_model::specs::Bodies::record_of))]
pub fn record_of(alloc: Global, kind: Kind, body: &[u8]) -> Result<Option<Record>, NoMemory>
    ensures { IfOk result (λ o. o ≡ record_of kind body.now) }
{
    Ok(whole(take_record(alloc, kind, body)?))
}
