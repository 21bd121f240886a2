//! Statements in stored programs: blocks, IF, WHILE and RETURN over all others.
ghost use Rattle.std.specs.Prelude.{◌≡◌, List as Items, length, map, pred};
ghost use Rattle.sql_lex.specs.declared.keyword.Keyword.TheVariants as words;
ghost use Rattle.sql_grammar.specs.Rule.{any_of, before, behind, both, mapped, opened};
ghost use Rattle.sql_parse_nodes.specs.Kept.{IsKept, Keeps};
ghost use Rattle.sql_parse_bodies.specs.KeptParts.{depth_of_branch};
ghost use Rattle.sql_syntax.specs.Programs as spec;
ghost use Rattle.sql_syntax.specs.Tables as tables;
ghost use Rattle.sql_syntax.specs.Tokens.{code, keyword, kind};
ghost use Rattle.sql_tree.specs.Depth.{depth_of, depth_of_otherwise, depth_of_statements, deepest};
ghost use Rattle.sql_tree.specs.Statement.{Statement, create_table, if_steps};
ghost use Rattle.sql_tree.specs.StatementView.{view, view_branch, view_otherwise, view_statements};

use crate::bodies::{
    blocked, branched, chosen, declarations, repeated, returned, some_steps, with_heads,
};
use sql_lex::{Keyword, Symbol};
use sql_parse_changes::common::{common, leaf};
use sql_parse_definitions::heads::a_head;
use sql_parse_definitions::tables::table;
use sql_parse_expressions::expressions::whole;
use sql_parse_nodes::kept::{Kept, Levelled, alone_boxed, on_heap, push_boxed};
use sql_parse_tokens::closing::{before_end, before_key, before_mark};
use sql_parse_tokens::fault::Stop;
use sql_parse_tokens::kinds::{FIRST_WORD, code};
use sql_parse_tokens::opening::opening;
use sql_parse_tokens::rest::Rest;
use sql_syntax::Head;
use sql_tree::{Branch, Stmt};
use std::alloc::Global;
use val_types::{Boxed, List};

/// What a statement in a program begins with.
const INNER_WORDS: [u8; 19] = [
    FIRST_WORD + Keyword::Begin as u8,
    FIRST_WORD + Keyword::If as u8,
    FIRST_WORD + Keyword::While as u8,
    FIRST_WORD + Keyword::Return as u8,
    FIRST_WORD + Keyword::Create as u8,
    FIRST_WORD + Keyword::Drop as u8,
    FIRST_WORD + Keyword::Truncate as u8,
    FIRST_WORD + Keyword::Insert as u8,
    FIRST_WORD + Keyword::Replace as u8,
    FIRST_WORD + Keyword::Update as u8,
    FIRST_WORD + Keyword::Delete as u8,
    FIRST_WORD + Keyword::Select as u8,
    FIRST_WORD + Keyword::Do as u8,
    FIRST_WORD + Keyword::Set as u8,
    FIRST_WORD + Keyword::Call as u8,
    FIRST_WORD + Keyword::Commit as u8,
    FIRST_WORD + Keyword::Rollback as u8,
    FIRST_WORD + Keyword::Savepoint as u8,
    FIRST_WORD + Keyword::Release as u8,
];

/// A statement in a program. Programs whose bodies are programs are read one behind the other, and
/// put together from the inside.
#[cycle(programs)]
pub fn inner<'t>(
    alloc: Global,
    depth: u32,
    rest: Rest<'t>,
) -> Result<(Kept<Boxed<Stmt>>, Rest<'t>), Stop<'t>>
    ensures { Keeps view depth_of result ((spec.inner depth).read rest.entry) }
{
    let mut heads = List::new(alloc);
    let mut rest = rest;
    for _turn in 0..rest.len() {
        if !rest.is_key(Keyword::Create) {
            return bodied(alloc, depth, heads, rest);
        }
        let ((), after) = rest.skip_key(Keyword::Create)?;
        if after.is_key(Keyword::Table) {
            return tabled(alloc, depth, heads, after);
        }
        let (head, after) = a_head(alloc, depth, after)?;
        heads.push(head)?;
        rest = after;
    }
    bodied(alloc, depth, heads, rest)
}

/// Programs in one another round a table, from behind its CREATE.
fn tabled<'t>(
    alloc: Global,
    depth: u32,
    heads: List<Head>,
    rest: Rest<'t>,
) -> Result<(Kept<Boxed<Stmt>>, Rest<'t>), Stop<'t>>
    ensures { Keeps view depth_of result ((mapped (λ t. spec.with_heads heads (create_table t)) (tables.table depth)).read rest.entry) }
{
    let (part, rest) = table(alloc, depth, rest)?;
    let body = on_heap(alloc, leaf(Stmt::CreateTable(part)))?;
    let program = with_heads(alloc, heads, body)?;
    Ok((program, rest))
}

/// Programs in one another round a statement that is no CREATE.
#[cycle(programs)]
fn bodied<'t>(
    alloc: Global,
    depth: u32,
    heads: List<Head>,
    rest: Rest<'t>,
) -> Result<(Kept<Boxed<Stmt>>, Rest<'t>), Stop<'t>>
    ensures { Keeps view depth_of result ((mapped (spec.with_heads heads) (spec.core depth)).read rest.entry) }
{
    let (body, rest) = inner_core(alloc, depth, rest)?;
    let program = with_heads(alloc, heads, body)?;
    Ok((program, rest))
}

/// A statement in a program that is no CREATE.
#[cycle(programs)]
fn inner_core<'t>(
    alloc: Global,
    depth: u32,
    rest: Rest<'t>,
) -> Result<(Kept<Boxed<Stmt>>, Rest<'t>), Stop<'t>>
    ensures { Keeps view depth_of result ((spec.core depth).read rest.entry) }
{
    if rest.is_key(Keyword::Begin) {
        return block(alloc, depth, rest);
    }
    if rest.is_key(Keyword::If) {
        return choice(alloc, depth, rest);
    }
    if rest.is_key(Keyword::While) {
        return repetition(alloc, depth, rest);
    }
    if rest.is_key(Keyword::Return) {
        return return_value(alloc, depth, rest);
    }
    common_step(alloc, depth, rest)
}

/// A statement that may stand outside of programs too.
fn common_step<'t>(
    alloc: Global,
    depth: u32,
    rest: Rest<'t>,
) -> Result<(Kept<Boxed<Stmt>>, Rest<'t>), Stop<'t>>
    ensures { Keeps view depth_of result ((spec.common depth).read rest.entry) }
{
    let (step, rest) = common(alloc, depth, rest)?;
    Ok((on_heap(alloc, step)?, rest))
}

/// RETURN and its value.
fn return_value<'t>(
    alloc: Global,
    depth: u32,
    rest: Rest<'t>,
) -> Result<(Kept<Boxed<Stmt>>, Rest<'t>), Stop<'t>>
    ensures { Keeps view depth_of result ((spec.a_return depth).read rest.entry) }
{
    let ((), rest) = rest.skip_key(Keyword::Return)?;
    let (value, rest) = whole(alloc, depth, rest)?;
    Ok((returned(alloc, value)?, rest))
}

/// A block.
#[cycle(programs)]
fn block<'t>(
    alloc: Global,
    depth: u32,
    rest: Rest<'t>,
) -> Result<(Kept<Boxed<Stmt>>, Rest<'t>), Stop<'t>>
    ensures { Keeps view depth_of result ((opened depth (any_of kind (code words.Begin)) (λ u s. s) (spec.block_body (pred depth) (spec.inside depth))).read rest.entry) }
{
    let (depth, rest) = opening(depth, code(Keyword::Begin), rest)?;
    block_body(alloc, depth, rest)
}

/// A block from behind BEGIN.
#[cycle(programs)]
fn block_body<'t>(
    alloc: Global,
    depth: u32,
    rest: Rest<'t>,
) -> Result<(Kept<Boxed<Stmt>>, Rest<'t>), Stop<'t>>
    ensures { Keeps view depth_of result ((spec.block_body depth (spec.inner depth)).read rest.entry) }
{
    let (declarations, rest) = declarations(alloc, depth, rest)?;
    let (body, rest) = steps_to_end(alloc, depth, rest)?;
    Ok((blocked(alloc, declarations, body)?, rest))
}

/// Steps, none too, and END.
#[cycle(programs)]
fn steps_to_end<'t>(
    alloc: Global,
    depth: u32,
    rest: Rest<'t>,
) -> Result<(Kept<List<Stmt>>, Rest<'t>), Stop<'t>>
    ensures { Keeps view_statements depth_of_statements result ((before (spec.steps_if (spec.inner depth)) (keyword words.End)).read rest.entry) }
{
    let (body, rest) = steps_if(alloc, depth, rest)?;
    before_key(body, Keyword::End, rest)
}

/// A statement and its semicolon.
#[cycle(programs)]
fn a_step<'t>(
    alloc: Global,
    depth: u32,
    rest: Rest<'t>,
) -> Result<(Kept<Boxed<Stmt>>, Rest<'t>), Stop<'t>>
    ensures { Keeps view depth_of result ((spec.a_step (spec.inner depth)).read rest.entry) }
{
    let (step, rest) = inner(alloc, depth, rest)?;
    before_mark(step, Symbol::Semicolon, rest)
}

/// Steps behind those so far.
#[cycle(programs)]
fn more_steps<'t>(
    alloc: Global,
    depth: u32,
    items: Kept<List<Stmt>>,
    rest: Rest<'t>,
) -> Result<(Kept<List<Stmt>>, Rest<'t>), Stop<'t>>
    ensures { (ss : Items Statement) → IsKept (map view) (deepest depth_of) ss items
        → Keeps (map view) (deepest depth_of) result (spec.more_steps (spec.inner depth) (length rest.entry) ss rest.entry) }
{
    let mut items = items;
    let mut rest = rest;
    for _turn in 0..rest.len() {
        if !rest.is_in(&INNER_WORDS) {
            return Ok((items, rest));
        }
        let (item, after) = a_step(alloc, depth, rest)?;
        items = push_boxed(items, item)?;
        rest = after;
    }
    Ok((items, rest))
}

/// Steps, none too.
#[cycle(programs)]
fn steps_if<'t>(
    alloc: Global,
    depth: u32,
    rest: Rest<'t>,
) -> Result<(Kept<List<Stmt>>, Rest<'t>), Stop<'t>>
    ensures { Keeps view_statements depth_of_statements result ((spec.steps_if (spec.inner depth)).read rest.entry) }
{
    let part = List::new(alloc);
    more_steps(alloc, depth, Some(Levelled { part, levels: 0 }), rest)
}

/// One step or more.
#[cycle(programs)]
fn steps<'t>(
    alloc: Global,
    depth: u32,
    rest: Rest<'t>,
) -> Result<(Kept<List<Stmt>>, Rest<'t>), Stop<'t>>
    ensures { Keeps view_statements depth_of_statements result ((spec.steps' (spec.inner depth)).read rest.entry) }
{
    let (first, rest) = a_step(alloc, depth, rest)?;
    let first = alone_boxed(alloc, first)?;
    more_steps(alloc, depth, first, rest)
}

/// A condition, THEN and its steps.
#[cycle(programs)]
fn a_branch<'t>(
    alloc: Global,
    depth: u32,
    rest: Rest<'t>,
) -> Result<(Kept<Boxed<Branch>>, Rest<'t>), Stop<'t>>
    ensures { Keeps view_branch depth_of_branch result ((spec.a_branch depth (spec.inner depth)).read rest.entry) }
{
    let (condition, rest) = whole(alloc, depth, rest)?;
    let (steps, rest) = then_steps(alloc, depth, rest)?;
    Ok((branched(alloc, condition, steps)?, rest))
}

/// THEN and steps.
#[cycle(programs)]
fn then_steps<'t>(
    alloc: Global,
    depth: u32,
    rest: Rest<'t>,
) -> Result<(Kept<List<Stmt>>, Rest<'t>), Stop<'t>>
    ensures { Keeps view_statements depth_of_statements result ((behind (keyword words.Then) (spec.steps' (spec.inner depth))).read rest.entry) }
{
    let ((), rest) = rest.skip_key(Keyword::Then)?;
    steps(alloc, depth, rest)
}

/// ELSEIF and a branch.
#[cycle(programs)]
fn next_branch<'t>(
    alloc: Global,
    depth: u32,
    rest: Rest<'t>,
) -> Result<(Kept<Boxed<Branch>>, Rest<'t>), Stop<'t>>
    ensures { Keeps view_branch depth_of_branch result ((spec.next_branch depth (spec.inner depth)).read rest.entry) }
{
    let ((), rest) = rest.skip_key(Keyword::Elseif)?;
    a_branch(alloc, depth, rest)
}

/// The branches of an IF.
#[cycle(programs)]
fn branches<'t>(
    alloc: Global,
    depth: u32,
    rest: Rest<'t>,
) -> Result<(Kept<List<Branch>>, Rest<'t>), Stop<'t>>
    ensures { Keeps (map view_branch) (deepest depth_of_branch) result ((spec.branches depth (spec.inner depth)).read rest.entry) }
{
    let (first, mut rest) = a_branch(alloc, depth, rest)?;
    let mut items = alone_boxed(alloc, first)?;
    for _turn in 0..rest.len() {
        if !rest.is_key(Keyword::Elseif) {
            return Ok((items, rest));
        }
        let (item, after) = next_branch(alloc, depth, rest)?;
        items = push_boxed(items, item)?;
        rest = after;
    }
    Ok((items, rest))
}

/// ELSE and its steps, or nothing.
#[cycle(programs)]
fn otherwise<'t>(
    alloc: Global,
    depth: u32,
    rest: Rest<'t>,
) -> Result<(Kept<Option<List<Stmt>>>, Rest<'t>), Stop<'t>>
    ensures { Keeps view_otherwise depth_of_otherwise result ((spec.otherwise (spec.inner depth)).read rest.entry) }
{
    if !rest.is_key(Keyword::Else) {
        let part = None;
        return Ok((Some(Levelled { part, levels: 0 }), rest));
    }
    let ((), rest) = rest.skip_key(Keyword::Else)?;
    let (steps, rest) = steps(alloc, depth, rest)?;
    Ok((some_steps(steps), rest))
}

/// An IF from behind its word.
#[cycle(programs)]
fn if_body<'t>(
    alloc: Global,
    depth: u32,
    rest: Rest<'t>,
) -> Result<(Kept<Boxed<Stmt>>, Rest<'t>), Stop<'t>>
    ensures { Keeps view depth_of result ((spec.if_body depth (spec.inner depth)).read rest.entry) }
{
    let (choice, rest) = if_parts(alloc, depth, rest)?;
    before_end(choice, Keyword::If, rest)
}

/// The branches of an IF, and ELSE or nothing.
#[cycle(programs)]
fn if_parts<'t>(
    alloc: Global,
    depth: u32,
    rest: Rest<'t>,
) -> Result<(Kept<Boxed<Stmt>>, Rest<'t>), Stop<'t>>
    ensures { Keeps view depth_of result ((both (λ bs o. if_steps (spec.branches_of bs) o) (spec.branches depth (spec.inner depth)) (spec.otherwise (spec.inner depth))).read rest.entry) }
{
    let (arms, rest) = branches(alloc, depth, rest)?;
    let (otherwise, rest) = otherwise(alloc, depth, rest)?;
    Ok((chosen(alloc, arms, otherwise)?, rest))
}

/// An IF.
#[cycle(programs)]
fn choice<'t>(
    alloc: Global,
    depth: u32,
    rest: Rest<'t>,
) -> Result<(Kept<Boxed<Stmt>>, Rest<'t>), Stop<'t>>
    ensures { Keeps view depth_of result ((opened depth (any_of kind (code words.If)) (λ u s. s) (spec.if_body (pred depth) (spec.inside depth))).read rest.entry) }
{
    let (depth, rest) = opening(depth, code(Keyword::If), rest)?;
    if_body(alloc, depth, rest)
}

/// A WHILE from behind its word.
#[cycle(programs)]
fn while_body<'t>(
    alloc: Global,
    depth: u32,
    rest: Rest<'t>,
) -> Result<(Kept<Boxed<Stmt>>, Rest<'t>), Stop<'t>>
    ensures { Keeps view depth_of result ((spec.while_body depth (spec.inner depth)).read rest.entry) }
{
    let (condition, rest) = whole(alloc, depth, rest)?;
    let (steps, rest) = do_steps(alloc, depth, rest)?;
    Ok((repeated(alloc, condition, steps)?, rest))
}

/// DO, steps and END WHILE.
#[cycle(programs)]
fn do_steps<'t>(
    alloc: Global,
    depth: u32,
    rest: Rest<'t>,
) -> Result<(Kept<List<Stmt>>, Rest<'t>), Stop<'t>>
    ensures { Keeps view_statements depth_of_statements result ((behind (keyword words.Do) (before (spec.steps' (spec.inner depth)) (behind (keyword words.End) (keyword words.While)))).read rest.entry) }
{
    let ((), rest) = rest.skip_key(Keyword::Do)?;
    let (steps, rest) = steps(alloc, depth, rest)?;
    before_end(steps, Keyword::While, rest)
}

/// A WHILE.
#[cycle(programs)]
fn repetition<'t>(
    alloc: Global,
    depth: u32,
    rest: Rest<'t>,
) -> Result<(Kept<Boxed<Stmt>>, Rest<'t>), Stop<'t>>
    ensures { Keeps view depth_of result ((opened depth (any_of kind (code words.While)) (λ u s. s) (spec.while_body (pred depth) (spec.inside depth))).read rest.entry) }
{
    let (depth, rest) = opening(depth, code(Keyword::While), rest)?;
    while_body(alloc, depth, rest)
}
