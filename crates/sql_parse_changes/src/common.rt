//! Statements that stand in programs and outside, and CREATE TABLE.
ghost use Rattle.std.specs.Prelude.{◌≡◌};
ghost use Rattle.sql_parse_nodes.specs.Kept.{IsKept, Keeps, in_place};
ghost use Rattle.sql_syntax.specs.Programs as spec;
ghost use Rattle.sql_tree.specs.Depth.{depth_of};
ghost use Rattle.sql_tree.specs.StatementView.{view};
ghost use Rattle.sql_tree.specs.declared.statements.Stmt.{Stmt};

use crate::assignments::{call, do_exprs, set};
use crate::changes::change;
use sql_lex::Keyword;
use sql_parse_definitions::sessions::{drop_named, transaction, truncated};
use sql_parse_expressions::selects::select;
use sql_parse_nodes::held;
use sql_parse_nodes::kept::{Kept, Levelled};
use sql_parse_tokens::fault::Stop;
use sql_parse_tokens::kinds::FIRST_WORD;
use sql_parse_tokens::rest::Rest;
use sql_tree::{Select, Stmt};
use std::alloc::Global;
use val_types::Boxed;

/// A statement of one level.
pub fn leaf(part: Stmt) -> Kept<Stmt>
    ensures { depth_of (view part) ≡ 1 → IsKept view depth_of (view part) result }
{
    Some(Levelled { part, levels: 1 })
}

/// A SELECT as a statement.
fn selected(query: Kept<Boxed<Select>>) -> Kept<Stmt>
    ensures { result ≡ in_place (λ q. Stmt.Select q) query }
{
    held!(query, a => Stmt::Select(a.into_inner()))
}

/// A SELECT.
fn a_select<'t>(
    alloc: Global,
    depth: u32,
    rest: Rest<'t>,
) -> Result<(Kept<Stmt>, Rest<'t>), Stop<'t>>
    ensures { Keeps view depth_of result ((spec.selected depth).read rest.entry) }
{
    let (query, rest) = select(alloc, depth, rest)?;
    Ok((selected(query), rest))
}

/// What opens no construct at its first word: all but CREATE, BEGIN, IF, WHILE, RETURN and START.
pub fn common<'t>(
    alloc: Global,
    depth: u32,
    rest: Rest<'t>,
) -> Result<(Kept<Stmt>, Rest<'t>), Stop<'t>>
    ensures { Keeps view depth_of result ((spec.common depth).read rest.entry) }
{
    if rest.is_key(Keyword::Drop) {
        let (part, rest) = drop_named(alloc, rest)?;
        return Ok((leaf(part), rest));
    }
    if rest.is_key(Keyword::Truncate) {
        let (part, rest) = truncated(alloc, rest)?;
        return Ok((leaf(part), rest));
    }
    if rest.is_in(&CHANGE_WORDS) {
        return change(alloc, depth, rest);
    }
    if rest.is_key(Keyword::Select) {
        return a_select(alloc, depth, rest);
    }
    if rest.is_key(Keyword::Do) {
        return do_exprs(alloc, depth, rest);
    }
    if rest.is_key(Keyword::Set) {
        return set(alloc, depth, rest);
    }
    if rest.is_key(Keyword::Call) {
        return call(alloc, depth, rest);
    }
    let (part, rest) = transaction(alloc, rest)?;
    Ok((leaf(part), rest))
}

/// What INSERT, REPLACE, UPDATE and DELETE begin with.
const CHANGE_WORDS: [u8; 4] = [
    FIRST_WORD + Keyword::Insert as u8,
    FIRST_WORD + Keyword::Replace as u8,
    FIRST_WORD + Keyword::Update as u8,
    FIRST_WORD + Keyword::Delete as u8,
];
