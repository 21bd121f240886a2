//! Programs round their bodies, and the parts of blocks, IF and WHILE.
ghost use Rattle.std.specs.Prelude.{◌≡◌, IfOk, Some};
ghost use Rattle.sql_syntax.specs.Expressions.{expression};
ghost use Rattle.sql_parse_nodes.specs.Kept.{IsKept, Keeps, above, beside, in_place};
ghost use Rattle.sql_syntax.specs.Programs as spec;
ghost use Rattle.sql_tree.specs.Depth.{depth_of, depth_of_declarations, depth_of_part, depth_of_declared};
ghost use Rattle.sql_tree.specs.Statement.{Statement};
ghost use Rattle.sql_tree.specs.StatementView.{view, view_declarations, view_declaration};
ghost use Rattle.sql_tree.specs.View.{view_part};
ghost use Rattle.sql_tree.specs.declared.statements.Stmt.{Stmt};

use sql_lex::{Keyword, Symbol};
use sql_parse_changes::changes::owned;
use sql_parse_definitions::types::a_type;
use sql_parse_expressions::expressions::whole;
use sql_parse_nodes::kept::{Kept, Levelled, above, beside, push};
use sql_parse_nodes::nodes::{no_part, part};
use sql_parse_nodes::{held, node};
use sql_parse_tokens::fault::Stop;
use sql_parse_tokens::parts::name_list;
use sql_parse_tokens::rest::Rest;
use sql_syntax::Head;
use sql_tree::{Branch, Declaration, Expr, Routine, SqlType, Stmt, TriggerDef};
use std::alloc::Global;
use val_types::{Boxed, Bytes, List, NoMemory};

/// A stored program with its body.
fn with_body(alloc: Global, head: Head, body: Stmt) -> Result<Stmt, NoMemory>
    ensures { IfOk result (λ s. view s ≡ spec.with_body head (view body)) }
{
    match head {
        Head::Function(name, parameters, kind) => {
            let returns = Some(kind);
            let program = Routine {
                name,
                parameters,
                returns,
                body,
            };
            Ok(Stmt::CreateFunction(Boxed::new(alloc, program)?))
        }
        Head::Procedure(name, parameters) => {
            let returns = None;
            let program = Routine {
                name,
                parameters,
                returns,
                body,
            };
            Ok(Stmt::CreateProcedure(Boxed::new(alloc, program)?))
        }
        Head::Trigger(name, time, event, table) => {
            let trigger = TriggerDef {
                name,
                time,
                event,
                table,
                body,
            };
            Ok(Stmt::CreateTrigger(Boxed::new(alloc, trigger)?))
        }
    }
}

/// A stored program with its body, where both are kept.
pub fn with_kept_body(
    alloc: Global,
    head: Head,
    body: Kept<Boxed<Stmt>>,
) -> Result<Kept<Boxed<Stmt>>, NoMemory>
    ensures { IfOk result (λ k. (s : Statement) → IsKept view depth_of s body → IsKept view depth_of (spec.with_body head s) k) }
{
    let Some(Levelled { part, levels }) = above(body) else {
        return Ok(None);
    };
    let program = with_body(alloc, head, part.into_inner())?;
    let part = Boxed::new(alloc, program)?;
    Ok(Some(Levelled { part, levels }))
}

/// Stored programs in one another round the body of the last.
pub fn with_heads(
    alloc: Global,
    heads: List<Head>,
    body: Kept<Boxed<Stmt>>,
) -> Result<Kept<Boxed<Stmt>>, NoMemory>
    ensures { IfOk result (λ k. (s : Statement) → IsKept view depth_of s body → IsKept view depth_of (spec.with_heads heads s) k) }
{
    let mut heads = heads;
    let mut body = body;
    while let Some(head) = heads.pop() {
        body = with_kept_body(alloc, head, body)?;
    }
    Ok(body)
}

/// DEFAULT and its value, or nothing.
fn preset<'t>(
    alloc: Global,
    depth: u32,
    rest: Rest<'t>,
) -> Result<(Kept<Option<Boxed<Expr>>>, Rest<'t>), Stop<'t>>
    ensures { Keeps view_part depth_of_part result ((spec.preset (expression depth)).read rest.entry) }
{
    if !rest.is_key(Keyword::Default) {
        return Ok((no_part(), rest));
    }
    let ((), rest) = rest.skip_key(Keyword::Default)?;
    let (value, rest) = whole(alloc, depth, rest)?;
    Ok((part(value), rest))
}

/// A DECLARE of these parts.
fn declared(
    names: List<Bytes>,
    kind: SqlType,
    preset: Kept<Option<Boxed<Expr>>>,
) -> Kept<Declaration>
    ensures { result ≡ in_place (λ p. record { names = names; kind = kind; preset = p }) preset }
{
    held!(preset, a => Declaration {
        names,
        kind,
        preset: owned(a),
    })
}

/// DECLARE and its semicolon.
fn declaration<'t>(
    alloc: Global,
    depth: u32,
    rest: Rest<'t>,
) -> Result<(Kept<Declaration>, Rest<'t>), Stop<'t>>
    ensures { Keeps view_declaration depth_of_declared result ((spec.declaration depth).read rest.entry) }
{
    let ((), rest) = rest.skip_key(Keyword::Declare)?;
    let (names, rest) = name_list(alloc, rest)?;
    let (kind, rest) = a_type(depth, rest)?;
    let (preset, rest) = preset(alloc, depth, rest)?;
    let ((), rest) = rest.skip_mark(Symbol::Semicolon)?;
    Ok((declared(names, kind, preset), rest))
}

/// DECLAREs, none too.
pub fn declarations<'t>(
    alloc: Global,
    depth: u32,
    rest: Rest<'t>,
) -> Result<(Kept<List<Declaration>>, Rest<'t>), Stop<'t>>
    ensures { Keeps view_declarations depth_of_declarations result ((spec.declarations depth).read rest.entry) }
{
    let part = List::new(alloc);
    let mut items = Some(Levelled { part, levels: 0 });
    let mut rest = rest;
    for _turn in 0..rest.len() {
        if !rest.is_key(Keyword::Declare) {
            return Ok((items, rest));
        }
        let (item, after) = declaration(alloc, depth, rest)?;
        items = push(items, item)?;
        rest = after;
    }
    Ok((items, rest))
}

/// A block of these parts.
pub fn blocked(
    alloc: Global,
    declarations: Kept<List<Declaration>>,
    body: Kept<List<Stmt>>,
) -> Result<Kept<Boxed<Stmt>>, NoMemory>
    ensures { IfOk result (λ r. r ≡ in_place (λ p. Stmt.Block p.0 p.1) (above (beside declarations body))) }
{
    node!(alloc, above(beside(declarations, body)), (declarations, body) => Stmt::Block { declarations, body })
}

/// A branch of an IF of these parts.
pub fn branched(
    alloc: Global,
    condition: Kept<Boxed<Expr>>,
    steps: Kept<List<Stmt>>,
) -> Result<Kept<Boxed<Branch>>, NoMemory>
    ensures { IfOk result (λ r. r ≡ in_place (λ p. record { condition = p.0; steps = p.1 }) (beside condition steps)) }
{
    node!(alloc, beside(condition, steps), (condition, steps) => Branch { condition: condition.into_inner(), steps })
}

/// Steps behind ELSE.
pub fn some_steps(steps: Kept<List<Stmt>>) -> Kept<Option<List<Stmt>>>
    ensures { result ≡ in_place (λ ss. Some ss) steps }
{
    held!(steps, a => Some(a))
}

/// An IF of these parts.
pub fn chosen(
    alloc: Global,
    arms: Kept<List<Branch>>,
    otherwise: Kept<Option<List<Stmt>>>,
) -> Result<Kept<Boxed<Stmt>>, NoMemory>
    ensures { IfOk result (λ r. r ≡ in_place (λ p. Stmt.If p.0 p.1) (above (beside arms otherwise))) }
{
    node!(alloc, above(beside(arms, otherwise)), (arms, otherwise) => Stmt::If { arms, otherwise })
}

/// A WHILE of these parts.
pub fn repeated(
    alloc: Global,
    condition: Kept<Boxed<Expr>>,
    steps: Kept<List<Stmt>>,
) -> Result<Kept<Boxed<Stmt>>, NoMemory>
    ensures { IfOk result (λ r. r ≡ in_place (λ p. Stmt.While p.0 p.1) (above (beside condition steps))) }
{
    node!(alloc, above(beside(condition, steps)), (condition, steps) => Stmt::While { condition: condition.into_inner(), steps })
}

/// A RETURN of this value.
pub fn returned(alloc: Global, value: Kept<Boxed<Expr>>) -> Result<Kept<Boxed<Stmt>>, NoMemory>
    ensures { IfOk result (λ r. r ≡ in_place (λ e. Stmt.Return e) (above value)) }
{
    node!(alloc, above(value), a => Stmt::Return(a.into_inner()))
}
