//! Primary expressions.
ghost use Rattle.sql_grammar.specs.Rule.{mapped, behind, paired};
ghost use Rattle.sql_lex.specs.declared.token.Symbol.TheVariants as signs;
ghost use Rattle.sql_lex.specs.declared.keyword.Keyword.TheVariants as words;
ghost use Rattle.sql_syntax.specs.Expressions as spec;
ghost use Rattle.sql_parse_nodes.specs.Kept.{Keeps, view_beside, depth_beside};
ghost use Rattle.sql_syntax.specs.Parts as part;
ghost use Rattle.sql_syntax.specs.Tokens.{keyword, sign};
ghost use Rattle.sql_tree.specs.Depth.{depth_of_tree, depth_of_part, deepest};
ghost use Rattle.sql_tree.specs.Tree as tree;
ghost use Rattle.sql_tree.specs.BuiltIns.{on_three};
ghost use Rattle.val_types.specs.declared.ops.Func3.{Func3};
ghost use Rattle.sql_tree.specs.View.{view_tree, view_arm, view_part};
ghost use Rattle.std.specs.Prelude.{map, pred};

use crate::calls::by_name;
use crate::expressions::whole;
use crate::selects::{select, single};
use sql_lex::{Keyword, Symbol};
use sql_parse_nodes::kept::{Kept, alone_boxed, beside, push_boxed};
use sql_parse_nodes::leaves::{system_variable, user_variable, values_call};
use sql_parse_nodes::nodes::{Three, arm, choice, exists, func3, no_part, part, subquery};
use sql_parse_tokens::fault::Stop;
use sql_parse_tokens::opening::{open_key, open_mark};
use sql_parse_tokens::rest::Rest;
use sql_tree::{Arm, Expr};
use std::alloc::Global;
use val_types::{Boxed, Func3, List};

/// A primary expression, of which the first token decides.
#[cycle(expressions)]
pub fn primary<'t>(
    alloc: Global,
    depth: u32,
    rest: Rest<'t>,
) -> Result<(Kept<Boxed<Expr>>, Rest<'t>), Stop<'t>>
    ensures { Keeps view_tree depth_of_tree result
        ((spec.primary depth (spec.nested (pred depth))).read rest.entry) }
{
    if rest.is_mark(Symbol::Open) {
        let (inside, rest) = open_mark(depth, Symbol::Open, rest)?;
        return grouped(alloc, inside, rest);
    }
    if rest.is_key(Keyword::If) {
        return if_call(alloc, depth, rest);
    }
    if rest.is_key(Keyword::Values) {
        return values_call(alloc, depth, rest);
    }
    if rest.is_key(Keyword::Case) {
        let (inside, rest) = open_key(depth, Keyword::Case, rest)?;
        return case_body(alloc, inside, rest);
    }
    if rest.is_key(Keyword::Exists) {
        return exists_call(alloc, depth, rest);
    }
    if rest.is_mark(Symbol::At) {
        return user_variable(alloc, rest);
    }
    if rest.is_mark(Symbol::AtAt) {
        return system_variable(alloc, rest);
    }
    by_name(alloc, depth, rest)
}

/// In parentheses: a SELECT with one item, or an expression.
#[cycle(expressions)]
fn grouped<'t>(
    alloc: Global,
    depth: u32,
    rest: Rest<'t>,
) -> Result<(Kept<Boxed<Expr>>, Rest<'t>), Stop<'t>>
    ensures { Keeps view_tree depth_of_tree result ((spec.grouped (spec.nested depth)).read rest.entry) }
{
    if !rest.is_key(Keyword::Select) {
        return closed_whole(alloc, depth, rest);
    }
    let (query, rest) = single(alloc, depth, rest)?;
    let ((), rest) = rest.skip_mark(Symbol::Close)?;
    Ok((subquery(alloc, query)?, rest))
}

/// An expression and the closing parenthesis.
#[cycle(expressions)]
pub fn closed_whole<'t>(
    alloc: Global,
    depth: u32,
    rest: Rest<'t>,
) -> Result<(Kept<Boxed<Expr>>, Rest<'t>), Stop<'t>>
    ensures { Keeps view_tree depth_of_tree result ((part.closed (spec.nested depth).whole).read rest.entry) }
{
    let (a, rest) = whole(alloc, depth, rest)?;
    let ((), rest) = rest.skip_mark(Symbol::Close)?;
    Ok((a, rest))
}

/// EXISTS and a SELECT in parentheses.
#[cycle(expressions)]
fn exists_call<'t>(
    alloc: Global,
    depth: u32,
    rest: Rest<'t>,
) -> Result<(Kept<Boxed<Expr>>, Rest<'t>), Stop<'t>>
    ensures { Keeps view_tree depth_of_tree result
        ((behind (keyword words.Exists) (part.in_parentheses depth (mapped tree.exists (part.closed (spec.nested (pred depth)).select)))).read rest.entry) }
{
    let ((), rest) = rest.skip_key(Keyword::Exists)?;
    let (inside, rest) = open_mark(depth, Symbol::Open, rest)?;
    let (query, rest) = select(alloc, inside, rest)?;
    let ((), rest) = rest.skip_mark(Symbol::Close)?;
    Ok((exists(alloc, query)?, rest))
}

/// IF and three expressions in parentheses.
#[cycle(expressions)]
fn if_call<'t>(
    alloc: Global,
    depth: u32,
    rest: Rest<'t>,
) -> Result<(Kept<Boxed<Expr>>, Rest<'t>), Stop<'t>>
    ensures { Keeps view_tree depth_of_tree result
        ((behind (keyword words.If) (part.in_parentheses depth (spec.three_arguments (on_three Func3.If) (spec.nested (pred depth)).whole))).read rest.entry) }
{
    let ((), rest) = rest.skip_key(Keyword::If)?;
    let (inside, rest) = open_mark(depth, Symbol::Open, rest)?;
    let (three, rest) = three_arguments(alloc, inside, rest)?;
    Ok((func3(alloc, Func3::If, three)?, rest))
}

/// Three expressions with commas between, and the closing parenthesis.
#[cycle(expressions)]
pub fn three_arguments<'t>(
    alloc: Global,
    depth: u32,
    rest: Rest<'t>,
) -> Result<(Kept<Three>, Rest<'t>), Stop<'t>>
    ensures { Keeps (view_beside view_tree (view_beside view_tree view_tree))
        (depth_beside depth_of_tree (depth_beside depth_of_tree depth_of_tree)) result
        ((spec.three_arguments spec.as_three (spec.nested depth).whole).read rest.entry) }
{
    let (a, rest) = whole(alloc, depth, rest)?;
    let (more, rest) = comma_two(alloc, depth, rest)?;
    Ok((beside(a, more), rest))
}

/// A comma, and two expressions.
#[cycle(expressions)]
fn comma_two<'t>(
    alloc: Global,
    depth: u32,
    rest: Rest<'t>,
) -> Result<(Kept<(Boxed<Expr>, Boxed<Expr>)>, Rest<'t>), Stop<'t>>
    ensures { Keeps (view_beside view_tree view_tree) (depth_beside depth_of_tree depth_of_tree) result
        ((behind (sign signs.Comma) (spec.two_arguments paired (spec.nested depth).whole)).read rest.entry) }
{
    let ((), rest) = rest.skip_mark(Symbol::Comma)?;
    two_arguments(alloc, depth, rest)
}

/// Two expressions with a comma between, and the closing parenthesis.
#[cycle(expressions)]
pub fn two_arguments<'t>(
    alloc: Global,
    depth: u32,
    rest: Rest<'t>,
) -> Result<(Kept<(Boxed<Expr>, Boxed<Expr>)>, Rest<'t>), Stop<'t>>
    ensures { Keeps (view_beside view_tree view_tree) (depth_beside depth_of_tree depth_of_tree) result
        ((spec.two_arguments paired (spec.nested depth).whole).read rest.entry) }
{
    let (a, rest) = whole(alloc, depth, rest)?;
    let (b, rest) = comma_one(alloc, depth, rest)?;
    Ok((beside(a, b), rest))
}

/// A comma, an expression and the closing parenthesis.
#[cycle(expressions)]
fn comma_one<'t>(
    alloc: Global,
    depth: u32,
    rest: Rest<'t>,
) -> Result<(Kept<Boxed<Expr>>, Rest<'t>), Stop<'t>>
    ensures { Keeps view_tree depth_of_tree result
        ((behind (sign signs.Comma) (part.closed (spec.nested depth).whole)).read rest.entry) }
{
    let ((), rest) = rest.skip_mark(Symbol::Comma)?;
    closed_whole(alloc, depth, rest)
}

/// What stands behind CASE.
#[cycle(expressions)]
fn case_body<'t>(
    alloc: Global,
    depth: u32,
    rest: Rest<'t>,
) -> Result<(Kept<Boxed<Expr>>, Rest<'t>), Stop<'t>>
    ensures { Keeps view_tree depth_of_tree result ((spec.case_body (spec.nested depth).whole).read rest.entry) }
{
    let (parts, rest) = case_parts(alloc, depth, rest)?;
    let ((), rest) = rest.skip_key(Keyword::End)?;
    Ok((parts, rest))
}

/// The WHENs and ELSE of a CASE.
#[cycle(expressions)]
fn case_parts<'t>(
    alloc: Global,
    depth: u32,
    rest: Rest<'t>,
) -> Result<(Kept<Boxed<Expr>>, Rest<'t>), Stop<'t>>
    ensures { Keeps view_tree depth_of_tree result ((spec.case_parts (spec.nested depth).whole).read rest.entry) }
{
    let (arms, rest) = when_arms(alloc, depth, rest)?;
    let (otherwise, rest) = else_part(alloc, depth, rest)?;
    Ok((choice(alloc, arms, otherwise)?, rest))
}

/// The WHENs of a CASE, one or more.
#[cycle(expressions)]
fn when_arms<'t>(
    alloc: Global,
    depth: u32,
    rest: Rest<'t>,
) -> Result<(Kept<List<Arm>>, Rest<'t>), Stop<'t>>
    ensures { Keeps (map view_arm) (deepest (depth_beside depth_of_tree depth_of_tree)) result
        ((spec.when_arms (spec.nested depth).whole).read rest.entry) }
{
    let (first, mut rest) = when_arm(alloc, depth, rest)?;
    let mut arms = alone_boxed(alloc, first)?;
    for _turn in 0..rest.len() {
        if !rest.is_key(Keyword::When) {
            return Ok((arms, rest));
        }
        let (arm, after) = when_arm(alloc, depth, rest)?;
        arms = push_boxed(arms, arm)?;
        rest = after;
    }
    Ok((arms, rest))
}

/// WHEN condition THEN value
#[cycle(expressions)]
fn when_arm<'t>(
    alloc: Global,
    depth: u32,
    rest: Rest<'t>,
) -> Result<(Kept<Boxed<Arm>>, Rest<'t>), Stop<'t>>
    ensures { Keeps view_arm (depth_beside depth_of_tree depth_of_tree) result
        ((spec.when_arm (spec.nested depth).whole).read rest.entry) }
{
    let ((), rest) = rest.skip_key(Keyword::When)?;
    let (condition, rest) = whole(alloc, depth, rest)?;
    let (value, rest) = then_value(alloc, depth, rest)?;
    Ok((arm(alloc, condition, value)?, rest))
}

/// THEN value
#[cycle(expressions)]
fn then_value<'t>(
    alloc: Global,
    depth: u32,
    rest: Rest<'t>,
) -> Result<(Kept<Boxed<Expr>>, Rest<'t>), Stop<'t>>
    ensures { Keeps view_tree depth_of_tree result
        ((behind (keyword words.Then) (spec.nested depth).whole).read rest.entry) }
{
    let ((), rest) = rest.skip_key(Keyword::Then)?;
    whole(alloc, depth, rest)
}

/// [ELSE expr]
#[cycle(expressions)]
fn else_part<'t>(
    alloc: Global,
    depth: u32,
    rest: Rest<'t>,
) -> Result<(Kept<Option<Boxed<Expr>>>, Rest<'t>), Stop<'t>>
    ensures { Keeps view_part depth_of_part result
        ((spec.else_part (spec.nested depth).whole).read rest.entry) }
{
    if !rest.is_key(Keyword::Else) {
        return Ok((no_part(), rest));
    }
    let ((), rest) = rest.skip_key(Keyword::Else)?;
    let (a, rest) = whole(alloc, depth, rest)?;
    Ok((part(a), rest))
}
