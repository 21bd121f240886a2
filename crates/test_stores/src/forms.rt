//! Whether a record has a body.
ghost use Rattle.std.specs.Prelude.{◌≡◌, ◌<◌, ◌^◌, true, length, IfOk, FitsSigned};
ghost use Rattle.std.specs.Int.{w64};
ghost use Rattle.std.specs.List.{AllByRecursion};
ghost use Rattle.store_model.specs.Bodies.{AreChanges, IsChange, IsHead, IsRecord, IsRow, IsValue, body_of};

use std::alloc::Global;
use store_bodies::put_record;
use store_model::{Kind, Record};
use val_types::{Bytes, Change, List, NoMemory, Row, Value};

/// Whether four bytes say how long a text is.
fn is_short(text: &Bytes) -> bool
    ensures { result ≡ true → length text.now < 2 ^ 32 }
{
    text.len() as u64 <= u64::from(u32::MAX)
}

/// A law: a number of 64 bits with a sign fits its bytes.
fn numbers_fit(number: i64)
    ensures { FitsSigned w64 number }
{}

/// A law: the fields of a head fit theirs.
fn heads_fit(number: u64, log: u32, pos: u32)
    ensures { IsHead (record { number = number; log = log; pos = pos }) }
{}

/// A law: so does the end of a log.
fn ends_fit(end: u32)
    ensures { end < 2 ^ 32 }
{}

/// Whether a value has its bytes.
fn is_value(value: &Value) -> bool
    ensures { result ≡ true → IsValue value.now }
{
    match value {
        Value::Null => true,
        Value::Int(number) => {
            numbers_fit(*number);
            true
        }
        Value::Text(text) => is_short(text),
    }
}

/// Whether each of some values has.
fn are_values(values: &[Value]) -> bool
    ensures { result ≡ true → AllByRecursion IsValue values.now }
{
    let mut left = values;
    while let [value, behind @ ..] = left {
        if !is_value(value) {
            return false;
        }
        left = behind;
    }
    true
}

/// Whether a row has its bytes.
fn is_row(row: &Row) -> bool
    ensures { result ≡ true → IsRow row.now }
{
    row.len() <= 255 && are_values(row.as_slice())
}

/// Whether a change has.
fn is_change(change: &Change) -> bool
    ensures { result ≡ true → IsChange change.now }
{
    match change {
        Change::Insert { table, row } => table.get().len() <= 255 && is_row(row.get()),
        Change::Update {
            table,
            before,
            after,
        } => table.get().len() <= 255 && is_row(before.get()) && is_row(after.get()),
        Change::Delete { table, row } => table.get().len() <= 255 && is_row(row.get()),
    }
}

/// Whether each of some changes has.
fn is_each_change(changes: &[Change]) -> bool
    ensures { result ≡ true → AllByRecursion IsChange changes.now }
{
    let mut left = changes;
    while let [change, behind @ ..] = left {
        if !is_change(change) {
            return false;
        }
        left = behind;
    }
    true
}

/// Whether the changes of a transaction have theirs.
fn are_changes(changes: &List<Change>) -> bool
    ensures { result ≡ true → AreChanges changes.now }
{
    changes.len() as u64 <= u64::from(u32::MAX) && is_each_change(changes.as_slice())
}

/// Whether a record has a body in a source's store.
fn is_source(r: &Record) -> bool
    ensures { result ≡ true → IsRecord Kind.Source r.now }
{
    match r {
        Record::Transaction { head, changes } => {
            heads_fit(head.number, head.log, head.pos);
            are_changes(changes)
        }
        Record::Definition { head, text } => {
            heads_fit(head.number, head.log, head.pos);
            is_short(text)
        }
        Record::LogStart { head, old_end } => {
            heads_fit(head.number, head.log, head.pos);
            ends_fit(*old_end);
            true
        }
        Record::TransactionApplied { .. } => false,
        Record::DefinitionApplied { .. } => false,
        Record::PlaceMoved { .. } => false,
    }
}

/// Whether it has one in a replica's.
fn is_replica(r: &Record) -> bool
    ensures { result ≡ true → IsRecord Kind.Replica r.now }
{
    match r {
        Record::Transaction { .. } => false,
        Record::Definition { .. } => false,
        Record::LogStart { .. } => false,
        Record::TransactionApplied { head, changes } => {
            heads_fit(head.number, head.log, head.pos);
            are_changes(changes)
        }
        Record::DefinitionApplied { head, text } => {
            heads_fit(head.number, head.log, head.pos);
            is_short(text)
        }
        Record::PlaceMoved { head } => {
            heads_fit(head.number, head.log, head.pos);
            true
        }
    }
}

/// Whether a record has a body in a store of one kind.
pub fn has_form(kind: Kind, r: &Record) -> bool
    ensures { result ≡ true → IsRecord kind r.now }
{
    match kind {
        Kind::Source => is_source(r),
        Kind::Replica => is_replica(r),
    }
}

/// Whether a journal takes its body.
pub fn has_room(alloc: Global, r: &Record) -> Result<bool, NoMemory>
    requires { (kind : Kind) × IsRecord kind r.now }
    ensures { IfOk result (λ has. has ≡ true → length (body_of r.now) < 2 ^ 32) }
{
    let mut body = List::new(alloc);
    put_record(r, &mut body)?;
    Ok(is_short(&body))
}
