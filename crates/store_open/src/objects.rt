//! Objects, as a snapshot has them: made one after the other, each by its canonical text, tables with their rows.
ghost use Rattle.std.specs.Prelude.{◌≡◌, ◌≤◌, [], length, IfOk};
ghost use Rattle.std.specs.Option.{option_and_then, option_copied, option_map};
ghost use Rattle.sql_tree.specs.StatementView.{view};
ghost use Rattle.text_answers.specs.Answers.{text_answer};
ghost use Rattle.prog_work.specs.Contents.{base_of};
ghost use Rattle.store_model.specs.sql_reach.catalog_rules.Bases.{defined};
ghost use Rattle.store_model.specs.Snapshots.{base_in, object_made_by, object_onto, objects_onto, one_more, statement_in};
ghost use Rattle.store_load.specs.Loading.{BaseIs};
ghost use Rattle.store_open.specs.Objects.{BaseRead, IsBaseRead, parsed_view, table_made};

use crate::filling::take_filled;
use prog_work::{Work, is_definition};
use row_store::tables_are_kept;
use sql_parse::{ParseRefusal, Parsed};
use sql_print::print;
use sql_tree::Stmt;
use std::alloc::{AllocError, Global};
use store_bodies::{take_four, take_object_text};
use store_load::{define, statement_of};
use val_types::{Bytes, NoMemory};

/// The statement whose canonical text a text is.
#[tactic(auto, using(crate::proofs::Onto::is_canonical, crate::proofs::Onto::not_canonical, crate::proofs::Onto::no_syntax, crate::proofs::Onto::not_so_deep))]
fn canonical(alloc: Global, text: &[u8]) -> Result<Option<Parsed>, NoMemory>
    requires { length text.now ≤ 4294967295 }
    ensures { IfOk result (λ o. option_map parsed_view o ≡ statement_in text.now (text_answer text.now)) }
{
    match statement_of(alloc, text) {
        Ok(parsed) => {
            let printed = print(alloc, &parsed.statement)?;
            if printed.as_slice() == text {
                Ok(Some(parsed))
            } else {
                Ok(None)
            }
        }
        Err(ParseRefusal::Syntax { .. }) => Ok(None),
        Err(ParseRefusal::Deep) => Ok(None),
        Err(ParseRefusal::NoMemory) => Err(AllocError),
    }
}

/// How many objects there are.
fn count_objects(work: &Work) -> usize
    ensures { result ≡ length (base_of work.now).catalog }
{
    work.catalog().objects().all().len()
}

/// A statement carried out, where it makes one object that nothing refuses.
#[tactic(auto, using(crate::proofs::Made::no_definition, crate::proofs::Made::refused, crate::proofs::Made::counted_more, crate::proofs::Made::counted_other))]
fn make_one(work: &mut Work, statement: &Stmt) -> Result<bool, NoMemory>
    requires { work.old.changes ≡ [] }
    ensures { IfOk result (λ made. BaseIs made (option_and_then (one_more (base_of work.old)) (defined (view statement.now) (base_of work.old))) work.new) }
{
    if !is_definition(statement) {
        return Ok(false);
    }
    let before = count_objects(work);
    if !define(work, statement)? {
        return Ok(false);
    }
    let after = count_objects(work);
    if after > before && after - before == 1 {
        Ok(true)
    } else {
        Ok(false)
    }
}

/// The name of the table that a statement makes.
fn table_made(statement: &Stmt) -> Option<&Bytes>
    ensures { option_copied result ≡ table_made (view statement.now) }
{
    match statement {
        Stmt::CreateTable(t) => Some(&t.name),
        _ => None,
    }
}

/// The object that a statement makes, a table with the rows at the front of some bytes; what is behind it.
fn make_object<'a>(
    alloc: Global,
    work: &mut Work,
    statement: &Stmt,
    bytes: &'a [u8],
) -> Result<Option<&'a [u8]>, NoMemory>
    requires { work.old.changes ≡ [] }
    ensures { IfOk result (λ o. BaseRead o (object_made_by (base_of work.old) (view statement.now) bytes.now) work.new) }
{
    if !make_one(work, statement)? {
        return Ok(None);
    }
    tables_are_kept(work.tables());
    match table_made(statement) {
        Some(name) => take_filled(alloc, work, name, bytes),
        None => Ok(Some(bytes)),
    }
}

/// An object more; what is behind it. A text of more bytes than the parser counts wants memory.
#[tactic(auto, using(crate::proofs::Onto::no_text, crate::proofs::Onto::no_statement, crate::proofs::Onto::onto_ok))]
fn take_object<'a>(
    alloc: Global,
    work: &mut Work,
    bytes: &'a [u8],
) -> Result<Option<&'a [u8]>, NoMemory>
    requires { work.old.changes ≡ [] }
    ensures { IfOk result (λ o. BaseRead o (object_onto (base_of work.old) bytes.now) work.new) }
{
    let Some((text, rest)) = take_object_text(bytes) else {
        return Ok(None);
    };
    if text.len() as u64 > u64::from(u32::MAX) {
        return Err(AllocError);
    }
    match canonical(alloc, text)? {
        Some(parsed) => make_object(alloc, work, &parsed.statement, rest),
        None => Ok(None),
    }
}

/// So many objects, one after the other; what is behind them.
fn take_objects<'a>(
    alloc: Global,
    work: &mut Work,
    count: u32,
    bytes: &'a [u8],
) -> Result<Option<&'a [u8]>, NoMemory>
    requires { work.old.changes ≡ [] }
    ensures { IfOk result (λ o. BaseRead o (objects_onto count (base_of work.old) bytes.now) work.new) }
{
    let mut rest = bytes;
    for _object in 0..count {
        match take_object(alloc, work, rest)? {
            Some(next) => rest = next,
            None => return Ok(None),
        }
    }
    Ok(Some(rest))
}

/// The objects of a base behind their count; what is behind them.
#[tactic(auto, using(crate::proofs::Onto::no_count, crate::proofs::Onto::by_count))]
pub(crate) fn take_base(alloc: Global, bytes: &[u8]) -> Result<Option<(Work, &[u8])>, NoMemory>
    ensures { IfOk result (λ o. IsBaseRead o (base_in bytes.now)) }
{
    let Some((count, behind)) = take_four(bytes) else {
        return Ok(None);
    };
    let mut work = Work::new(alloc);
    match take_objects(alloc, &mut work, count, behind)? {
        Some(rest) => Ok(Some((work, rest))),
        None => Ok(None),
    }
}
