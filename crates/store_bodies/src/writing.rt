//! The body of a record.
ghost use Rattle.std.specs.Prelude.{◌≡◌, ◌<◌, ◌^◌, ◌++◌, length, OnOk, OnErr};
ghost use Rattle.byte_fields.specs.Field.{number_bytes, BeginsWith};
ghost use Rattle.store_model.specs.declared.record.Kind.{Kind as Node};
ghost use Rattle.store_model.specs.Bodies.{text_bytes, changes_bytes, head_bytes, body_of, AreChanges, IsRecord};
ghost use Rattle.store_bodies.specs.Forms.{HasForm};

use crate::putting::{put_changes, put_text};
use byte_fields::{bytes_u8, bytes_u32, bytes_u64};
use store_model::{Head, Record};
use val_types::{Bytes, Change, List, NoMemory};

/// Puts the kind of a record and its head at the end.
#[tactic(auto, using(byte_fields::proofs::FieldLaws::begins_more))]
fn put_head(kind: u8, head: &Head, out: &mut Bytes) -> Result<(), NoMemory>
    ensures ok { OnOk result (out.new ≡ out.old ++ head_bytes kind head.now) }
    ensures err { OnErr result (BeginsWith out.new out.old) }
{
    out.extend_from_slice(&bytes_u8(u64::from(kind)))?;
    out.extend_from_slice(&bytes_u64(head.number))?;
    out.extend_from_slice(&bytes_u32(u64::from(head.log)))?;
    out.extend_from_slice(&bytes_u32(u64::from(head.pos)))
}

/// Puts a head and changes at the end.
#[tactic(auto, using(byte_fields::proofs::FieldLaws::begins_more))]
fn put_transaction(
    kind: u8,
    head: &Head,
    changes: &List<Change>,
    out: &mut Bytes,
) -> Result<(), NoMemory>
    requires { AreChanges changes.now }
    ensures ok { OnOk result (out.new ≡ out.old ++ (head_bytes kind head.now ++ changes_bytes changes.now)) }
    ensures err { OnErr result (BeginsWith out.new out.old) }
{
    put_head(kind, head, out)?;
    put_changes(changes, out)
}

/// Puts a head and a text at the end.
#[tactic(auto, using(byte_fields::proofs::FieldLaws::begins_more))]
fn put_definition(kind: u8, head: &Head, text: &Bytes, out: &mut Bytes) -> Result<(), NoMemory>
    requires { length text.now < 2 ^ 32 }
    ensures ok { OnOk result (out.new ≡ out.old ++ (head_bytes kind head.now ++ text_bytes 4 text.now)) }
    ensures err { OnErr result (BeginsWith out.new out.old) }
{
    put_head(kind, head, out)?;
    put_text(text, out)
}

/// Puts a head and the end of the log before at the end.
#[tactic(auto, using(byte_fields::proofs::FieldLaws::begins_more))]
fn put_log_start(kind: u8, head: &Head, old_end: u32, out: &mut Bytes) -> Result<(), NoMemory>
    ensures ok { OnOk result (out.new ≡ out.old ++ (head_bytes kind head.now ++ number_bytes 4 old_end)) }
    ensures err { OnErr result (BeginsWith out.new out.old) }
{
    put_head(kind, head, out)?;
    out.extend_from_slice(&bytes_u32(u64::from(old_end)))
}

/// Puts the body of a record at the end, or a front of it.
#[tactic(auto, unfolding(store_model::specs::Bodies::body_of))]
fn put_body(r: &Record, out: &mut Bytes) -> Result<(), NoMemory>
    requires { HasForm r.now }
    ensures ok { OnOk result (out.new ≡ out.old ++ body_of r.now) }
    ensures err { OnErr result (BeginsWith out.new out.old) }
{
    match r {
        Record::Transaction { head, changes } => put_transaction(1, head, changes, out),
        Record::Definition { head, text } => put_definition(2, head, text, out),
        Record::LogStart { head, old_end } => put_log_start(3, head, *old_end, out),
        Record::TransactionApplied { head, changes } => put_transaction(17, head, changes, out),
        Record::DefinitionApplied { head, text } => put_definition(18, head, text, out),
        Record::PlaceMoved { head } => put_head(19, head, out),
    }
}

/// Puts the body of a record at the end. Where there is no memory, the bytes are as before.
pub fn put_record(r: &Record, out: &mut Bytes) -> Result<(), NoMemory>
    requires { (kind : Node) × IsRecord kind r.now }
    ensures ok { OnOk result (out.new ≡ out.old ++ body_of r.now) }
    ensures err { OnErr result (out.new ≡ out.old) }
{
    let start = out.len();
    let put = put_body(r, out);
    if put.is_err() {
        out.truncate(start);
    }
    put
}
