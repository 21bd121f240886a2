//! Expressions: operators by their levels.
ghost use Rattle.sql_syntax.specs.Expressions as spec;
ghost use Rattle.sql_parse_nodes.specs.Kept.{Keeps};
ghost use Rattle.sql_syntax.specs.Parts as part;
ghost use Rattle.sql_parse_nodes.specs.Trials.{view_trial, depth_of_test};
ghost use Rattle.sql_tree.specs.Depth.{depth_of_tree, depth_of_trees};
ghost use Rattle.sql_tree.specs.View.{view_tree, view_trees};
ghost use Rattle.std.specs.Prelude.{pred};

use crate::primaries::primary;
use sql_lex::{Keyword, Symbol};
use sql_parse_nodes::kept::{Kept, alone_boxed, push_boxed};
use sql_parse_nodes::leaves::negative_literal;
use sql_parse_nodes::nodes::{Trial, among, binary, compared, null_test, tested, unary};
use sql_parse_nodes::operators::{
    PRODUCT_OPS, SUM_OPS, TEST_KINDS, comparison_op, nullness, product_op, sum_op,
};
use sql_parse_tokens::fault::Stop;
use sql_parse_tokens::kinds::TIGHT_MINUS;
use sql_parse_tokens::opening::{open_key, open_mark};
use sql_parse_tokens::rest::Rest;
use sql_tree::Expr;
use std::alloc::Global;
use val_types::{BinOp, Boxed, List, UnOp};

/// An expression, with so many constructs still to be opened.
#[cycle(expressions)]
pub fn whole<'t>(
    alloc: Global,
    depth: u32,
    rest: Rest<'t>,
) -> Result<(Kept<Boxed<Expr>>, Rest<'t>), Stop<'t>>
    ensures { Keeps view_tree depth_of_tree result ((spec.nested depth).whole.read rest.entry) }
{
    disjunction(alloc, depth, rest)
}

/// Operands with OR between.
#[cycle(expressions)]
fn disjunction<'t>(
    alloc: Global,
    depth: u32,
    rest: Rest<'t>,
) -> Result<(Kept<Boxed<Expr>>, Rest<'t>), Stop<'t>>
    ensures { Keeps view_tree depth_of_tree result
        ((spec.disjunction (spec.nested depth).negation).read rest.entry) }
{
    let (mut left, mut rest) = conjunction(alloc, depth, rest)?;
    for _turn in 0..rest.len() {
        if !rest.is_key(Keyword::Or) {
            return Ok((left, rest));
        }
        let ((), after) = rest.skip_key(Keyword::Or)?;
        let (right, after) = conjunction(alloc, depth, after)?;
        left = binary(alloc, BinOp::Or, left, right)?;
        rest = after;
    }
    Ok((left, rest))
}

/// Operands with AND between.
#[cycle(expressions)]
fn conjunction<'t>(
    alloc: Global,
    depth: u32,
    rest: Rest<'t>,
) -> Result<(Kept<Boxed<Expr>>, Rest<'t>), Stop<'t>>
    ensures { Keeps view_tree depth_of_tree result
        ((spec.conjunction (spec.nested depth).negation).read rest.entry) }
{
    let (mut left, mut rest) = negation(alloc, depth, rest)?;
    for _turn in 0..rest.len() {
        if !rest.is_key(Keyword::And) {
            return Ok((left, rest));
        }
        let ((), after) = rest.skip_key(Keyword::And)?;
        let (right, after) = negation(alloc, depth, after)?;
        left = binary(alloc, BinOp::And, left, right)?;
        rest = after;
    }
    Ok((left, rest))
}

/// NOT as often as may be, and a comparison.
#[cycle(expressions)]
fn negation<'t>(
    alloc: Global,
    depth: u32,
    rest: Rest<'t>,
) -> Result<(Kept<Boxed<Expr>>, Rest<'t>), Stop<'t>>
    ensures { Keeps view_tree depth_of_tree result ((spec.nested depth).negation.read rest.entry) }
{
    if !rest.is_key(Keyword::Not) {
        return comparison(alloc, depth, rest);
    }
    let (inside, rest) = open_key(depth, Keyword::Not, rest)?;
    let (operand, rest) = negation(alloc, inside, rest)?;
    Ok((unary(alloc, UnOp::Not, operand)?, rest))
}

/// A sum, and tests of it.
#[cycle(expressions)]
fn comparison<'t>(
    alloc: Global,
    depth: u32,
    rest: Rest<'t>,
) -> Result<(Kept<Boxed<Expr>>, Rest<'t>), Stop<'t>>
    ensures { Keeps view_tree depth_of_tree result
        ((spec.comparison depth (spec.nested (pred depth)).whole (spec.nested depth).prefix).read rest.entry) }
{
    let (mut left, mut rest) = sum(alloc, depth, rest)?;
    for _turn in 0..rest.len() {
        if !rest.is_in(&TEST_KINDS) {
            return Ok((left, rest));
        }
        let (trial, after) = test(alloc, depth, rest)?;
        left = tested(alloc, left, trial)?;
        rest = after;
    }
    Ok((left, rest))
}

/// IS, IN, NOT IN, or a sign and the right operand.
#[cycle(expressions)]
fn test<'t>(alloc: Global, depth: u32, rest: Rest<'t>) -> Result<(Kept<Trial>, Rest<'t>), Stop<'t>>
    ensures { Keeps view_trial depth_of_test result
        ((spec.test depth (spec.nested (pred depth)).whole (spec.nested depth).prefix).read rest.entry) }
{
    if rest.is_key(Keyword::Is) {
        let (op, rest) = nullness(rest)?;
        return Ok((null_test(op), rest));
    }
    if rest.is_key(Keyword::In) {
        return membership(alloc, false, depth, rest);
    }
    if rest.is_key(Keyword::Not) {
        let ((), rest) = rest.skip_key(Keyword::Not)?;
        return membership(alloc, true, depth, rest);
    }
    let (op, rest) = comparison_op(rest)?;
    let (right, rest) = sum(alloc, depth, rest)?;
    Ok((compared(op, right), rest))
}

/// IN and the list in parentheses.
#[cycle(expressions)]
fn membership<'t>(
    alloc: Global,
    negated: bool,
    depth: u32,
    rest: Rest<'t>,
) -> Result<(Kept<Trial>, Rest<'t>), Stop<'t>>
    ensures { Keeps view_trial depth_of_test result
        ((spec.membership negated depth (spec.nested (pred depth)).whole).read rest.entry) }
{
    let ((), rest) = rest.skip_key(Keyword::In)?;
    let (inside, rest) = open_mark(depth, Symbol::Open, rest)?;
    let (items, rest) = closed_list(alloc, inside, rest)?;
    Ok((among(negated, items), rest))
}

/// Expressions with commas between, and the closing parenthesis.
#[cycle(expressions)]
pub fn closed_list<'t>(
    alloc: Global,
    depth: u32,
    rest: Rest<'t>,
) -> Result<(Kept<List<Expr>>, Rest<'t>), Stop<'t>>
    ensures { Keeps view_trees depth_of_trees result
        ((part.closed (part.exprs (spec.nested depth).whole)).read rest.entry) }
{
    let (items, rest) = list(alloc, depth, rest)?;
    let ((), rest) = rest.skip_mark(Symbol::Close)?;
    Ok((items, rest))
}

/// Expressions with commas between.
#[cycle(expressions)]
pub fn list<'t>(
    alloc: Global,
    depth: u32,
    rest: Rest<'t>,
) -> Result<(Kept<List<Expr>>, Rest<'t>), Stop<'t>>
    ensures { Keeps view_trees depth_of_trees result
        ((part.exprs (spec.nested depth).whole).read rest.entry) }
{
    let (first, mut rest) = whole(alloc, depth, rest)?;
    let mut items = alone_boxed(alloc, first)?;
    for _turn in 0..rest.len() {
        if !rest.is_mark(Symbol::Comma) {
            return Ok((items, rest));
        }
        let ((), after) = rest.skip_mark(Symbol::Comma)?;
        let (item, after) = whole(alloc, depth, after)?;
        items = push_boxed(items, item)?;
        rest = after;
    }
    Ok((items, rest))
}

/// Products with `+` and `-` between.
#[cycle(expressions)]
fn sum<'t>(
    alloc: Global,
    depth: u32,
    rest: Rest<'t>,
) -> Result<(Kept<Boxed<Expr>>, Rest<'t>), Stop<'t>>
    ensures { Keeps view_tree depth_of_tree result ((spec.sum (spec.nested depth).prefix).read rest.entry) }
{
    let (mut left, mut rest) = product(alloc, depth, rest)?;
    for _turn in 0..rest.len() {
        if !rest.is_in(&SUM_OPS) {
            return Ok((left, rest));
        }
        let (op, after) = sum_op(rest)?;
        let (right, after) = product(alloc, depth, after)?;
        left = binary(alloc, op, left, right)?;
        rest = after;
    }
    Ok((left, rest))
}

/// Operands with `*`, `%`, DIV and MOD between.
#[cycle(expressions)]
fn product<'t>(
    alloc: Global,
    depth: u32,
    rest: Rest<'t>,
) -> Result<(Kept<Boxed<Expr>>, Rest<'t>), Stop<'t>>
    ensures { Keeps view_tree depth_of_tree result ((spec.product (spec.nested depth).prefix).read rest.entry) }
{
    let (mut left, mut rest) = prefix(alloc, depth, rest)?;
    for _turn in 0..rest.len() {
        if !rest.is_in(&PRODUCT_OPS) {
            return Ok((left, rest));
        }
        let (op, after) = product_op(rest)?;
        let (right, after) = prefix(alloc, depth, after)?;
        left = binary(alloc, op, left, right)?;
        rest = after;
    }
    Ok((left, rest))
}

/// An operand: a primary expression, or one behind minuses.
#[cycle(expressions)]
pub fn prefix<'t>(
    alloc: Global,
    depth: u32,
    rest: Rest<'t>,
) -> Result<(Kept<Boxed<Expr>>, Rest<'t>), Stop<'t>>
    ensures { Keeps view_tree depth_of_tree result ((spec.nested depth).prefix.read rest.entry) }
{
    if rest.is_in(&[TIGHT_MINUS]) {
        return negative_literal(alloc, rest);
    }
    if !rest.is_mark(Symbol::Minus) {
        return primary(alloc, depth, rest);
    }
    let (inside, rest) = open_mark(depth, Symbol::Minus, rest)?;
    let (operand, rest) = prefix(alloc, inside, rest)?;
    Ok((unary(alloc, UnOp::Negate, operand)?, rest))
}
