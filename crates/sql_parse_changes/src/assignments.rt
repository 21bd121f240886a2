//! SET, DO and CALL.
ghost use Rattle.std.specs.Prelude.{◌≡◌, IfOk, map, true};
ghost use Rattle.std.specs.Option.{option_map};
ghost use Rattle.sql_lex.specs.declared.token.Symbol.TheVariants as signs;
ghost use Rattle.sql_grammar.specs.Rule.{behind, mapped, paired, with_tokens};
ghost use Rattle.sql_syntax.specs.Expressions.{expression};
ghost use Rattle.sql_parse_nodes.specs.Kept.{IsKept, Keeps, above, in_place};
ghost use Rattle.sql_syntax.specs.Parts.{list_of};
ghost use Rattle.sql_syntax.specs.Sessions as spec;
ghost use Rattle.sql_syntax.specs.Tokens.{first_keyword, sign};
ghost use Rattle.sql_tree.specs.Depth.{depth_of, depth_of_tree, depth_of_trees, deepest, depth_of_value};
ghost use Rattle.sql_tree.specs.StatementView.{view, view_assignment};
ghost use Rattle.sql_tree.specs.Tree.{Tree};
ghost use Rattle.sql_tree.specs.View.{view_tree, view_trees};
ghost use Rattle.sql_tree.specs.declared.statements.Stmt.{Stmt};

use sql_lex::{Keyword, Symbol};
use sql_parse_definitions::sessions::{assigning, target};
use sql_parse_expressions::calls::arguments;
use sql_parse_expressions::expressions::{list, whole};
use sql_parse_nodes::held;
use sql_parse_nodes::kept::{Kept, Levelled, above, alone, push};
use sql_parse_tokens::fault::Stop;
use sql_parse_tokens::kinds::sign_code;
use sql_parse_tokens::opening::opening;
use sql_parse_tokens::parts::a_name;
use sql_parse_tokens::rest::Rest;
use sql_tree::{Assignment, Expr, Stmt, Target};
use std::alloc::Global;
use val_types::{Boxed, Bytes, List, NoMemory, Value};

/// The format that a word without quotes names.
fn format_word(word: Option<Keyword>) -> Option<&'static [u8]>
    ensures { option_map (λ w. w.now) result ≡ spec.format_word word }
{
    match word {
        Some(Keyword::Statement) => Some(b"STATEMENT"),
        Some(Keyword::Mixed) => Some(b"MIXED"),
        Some(Keyword::Row) => Some(b"ROW"),
        _ => None,
    }
}

/// Whether an assignment writes the variable binlog_format.
fn is_format(target: &Target) -> bool
    ensures { result ≡ spec.is_format target.now }
{
    match target {
        Target::User(_) | Target::New(_) => false,
        Target::Plain(name) | Target::System(name) => name.as_slice()
            == b"binlog_format".as_slice(),
    }
}

/// The text where a format was named, else the expression.
fn format_or(
    alloc: Global,
    format: Option<&[u8]>,
    value: Kept<Boxed<Expr>>,
) -> Result<Kept<Boxed<Expr>>, NoMemory>
    ensures { IfOk result (λ k. (t : Tree) → IsKept view_tree depth_of_tree t value
        → IsKept view_tree depth_of_tree (spec.format_or (option_map (λ w. w.now) format.entry) t) k) }
{
    let Some(word) = format else {
        return Ok(value);
    };
    let text = List::from_slice(alloc, word)?;
    let part = Boxed::new(alloc, Expr::Literal(Value::Text(text)))?;
    Ok(Some(Levelled { part, levels: 1 }))
}

/// The format that the next token names, where an expression from here on is that token alone.
fn format_next(rest: &Rest<'_>) -> Option<&'static [u8]>
    ensures { option_map (λ w. w.now) result ≡ spec.format_word (first_keyword rest.now) }
{
    format_word(rest.first_key())
}

/// An expression, or a format by its word.
fn format_or_value<'t>(
    alloc: Global,
    depth: u32,
    rest: Rest<'t>,
) -> Result<(Kept<Boxed<Expr>>, Rest<'t>), Stop<'t>>
    ensures { Keeps view_tree depth_of_tree result ((mapped (spec.value_assigned true) (with_tokens paired (expression depth))).read rest.entry) }
{
    let format = format_next(&rest);
    let count = rest.len();
    let (value, rest) = whole(alloc, depth, rest)?;
    let taken = count.saturating_sub(rest.len());
    if taken != 1 {
        return Ok((value, rest));
    }
    Ok((format_or(alloc, format, value)?, rest))
}

/// An expression, or to binlog_format a format by its word.
fn assigned<'t>(
    alloc: Global,
    depth: u32,
    is_format: bool,
    rest: Rest<'t>,
) -> Result<(Kept<Boxed<Expr>>, Rest<'t>), Stop<'t>>
    ensures { Keeps view_tree depth_of_tree result ((mapped (spec.value_assigned is_format) (with_tokens paired (expression depth))).read rest.entry) }
{
    if is_format {
        format_or_value(alloc, depth, rest)
    } else {
        whole(alloc, depth, rest)
    }
}

/// A value for a target.
fn assignment_of(target: Target, value: Kept<Boxed<Expr>>) -> Kept<Assignment>
    ensures { result ≡ in_place (λ v. record { target = target; value = v }) value }
{
    held!(value, a => Assignment {
        target,
        value: a.into_inner(),
    })
}

/// A target, `=` or `:=`, and its value.
fn assignment<'t>(
    alloc: Global,
    depth: u32,
    rest: Rest<'t>,
) -> Result<(Kept<Assignment>, Rest<'t>), Stop<'t>>
    ensures { Keeps view_assignment depth_of_value result ((spec.assignment depth).read rest.entry) }
{
    let (target, rest) = target(alloc, rest)?;
    let ((), rest) = assigning(rest)?;
    let (value, rest) = assigned(alloc, depth, is_format(&target), rest)?;
    Ok((assignment_of(target, value), rest))
}

/// A comma and an assignment.
fn next_assignment<'t>(
    alloc: Global,
    depth: u32,
    rest: Rest<'t>,
) -> Result<(Kept<Assignment>, Rest<'t>), Stop<'t>>
    ensures { Keeps view_assignment depth_of_value result ((behind (sign signs.Comma) (spec.assignment depth)).read rest.entry) }
{
    let ((), rest) = rest.skip_mark(Symbol::Comma)?;
    assignment(alloc, depth, rest)
}

/// Assignments with commas between.
fn assignments<'t>(
    alloc: Global,
    depth: u32,
    rest: Rest<'t>,
) -> Result<(Kept<List<Assignment>>, Rest<'t>), Stop<'t>>
    ensures { Keeps (map view_assignment) (deepest depth_of_value) result ((list_of (spec.assignment depth)).read rest.entry) }
{
    let (first, mut rest) = assignment(alloc, depth, rest)?;
    let mut items = alone(alloc, first)?;
    for _turn in 0..rest.len() {
        if !rest.is_mark(Symbol::Comma) {
            return Ok((items, rest));
        }
        let (item, after) = next_assignment(alloc, depth, rest)?;
        items = push(items, item)?;
        rest = after;
    }
    Ok((items, rest))
}

/// A SET of these assignments.
fn set_all(items: Kept<List<Assignment>>) -> Kept<Stmt>
    ensures { result ≡ in_place (λ items. Stmt.Set items) (above items) }
{
    held!(above(items), a => Stmt::Set(a))
}

/// SET.
pub fn set<'t>(
    alloc: Global,
    depth: u32,
    rest: Rest<'t>,
) -> Result<(Kept<Stmt>, Rest<'t>), Stop<'t>>
    ensures { Keeps view depth_of result ((spec.set depth).read rest.entry) }
{
    let ((), rest) = rest.skip_key(Keyword::Set)?;
    let (items, rest) = assignments(alloc, depth, rest)?;
    Ok((set_all(items), rest))
}

/// A DO of these expressions.
fn evaluated(values: Kept<List<Expr>>) -> Kept<Stmt>
    ensures { result ≡ in_place (λ values. Stmt.Do values) (above values) }
{
    held!(above(values), a => Stmt::Do(a))
}

/// DO.
pub fn do_exprs<'t>(
    alloc: Global,
    depth: u32,
    rest: Rest<'t>,
) -> Result<(Kept<Stmt>, Rest<'t>), Stop<'t>>
    ensures { Keeps view depth_of result ((spec.do_exprs depth).read rest.entry) }
{
    let ((), rest) = rest.skip_key(Keyword::Do)?;
    let (values, rest) = list(alloc, depth, rest)?;
    Ok((evaluated(values), rest))
}

/// Arguments in parentheses.
fn arguments_in<'t>(
    alloc: Global,
    depth: u32,
    rest: Rest<'t>,
) -> Result<(Kept<List<Expr>>, Rest<'t>), Stop<'t>>
    ensures { Keeps view_trees depth_of_trees result ((spec.arguments_in depth).read rest.entry) }
{
    let (depth, rest) = opening(depth, sign_code(Symbol::Open), rest)?;
    arguments(alloc, depth, rest)
}

/// Arguments in parentheses, or nothing.
fn optional_arguments<'t>(
    alloc: Global,
    depth: u32,
    rest: Rest<'t>,
) -> Result<(Kept<List<Expr>>, Rest<'t>), Stop<'t>>
    ensures { Keeps view_trees depth_of_trees result ((spec.optional_arguments depth).read rest.entry) }
{
    if rest.is_mark(Symbol::Open) {
        return arguments_in(alloc, depth, rest);
    }
    let part = List::new(alloc);
    Ok((Some(Levelled { part, levels: 0 }), rest))
}

/// A CALL of these parts.
fn called(name: Bytes, values: Kept<List<Expr>>) -> Kept<Stmt>
    ensures { result ≡ in_place (λ values. Stmt.Call name values) (above values) }
{
    held!(above(values), a => Stmt::Call {
        name,
        arguments: a,
    })
}

/// CALL.
pub fn call<'t>(
    alloc: Global,
    depth: u32,
    rest: Rest<'t>,
) -> Result<(Kept<Stmt>, Rest<'t>), Stop<'t>>
    ensures { Keeps view depth_of result ((spec.call depth).read rest.entry) }
{
    let ((), rest) = rest.skip_key(Keyword::Call)?;
    let (name, rest) = a_name(alloc, rest)?;
    let (values, rest) = optional_arguments(alloc, depth, rest)?;
    Ok((called(name, values), rest))
}
