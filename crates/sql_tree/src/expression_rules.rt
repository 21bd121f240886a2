//! Expressions and SELECTs that the grammar can give.
ghost use Rattle.std.specs.Prelude.{◌≡◌};
ghost use Rattle.sql_tree.specs.Well.{has_tree, is_one_tree, has_arm, has_aggregate, is_one_aggregate, has_order, gives_one, is_unordered, goes_with_origin, is_well_tree, are_well_trees, are_well_arms, is_well_part, is_well_query, is_well_selected, are_well_aggregates, is_well_origin, are_well_orders};
ghost use Rattle.sql_tree.specs.View.{view_tree, view_trees, view_arms, view_part, view_query, view_selected, view_aggregates, view_from, view_origin, view_orders};

use crate::expressions::{Aggregate, Arm, Expr, FromClause, OrderItem, Select, Selection};
use crate::names::{is_limit_if, is_literal, is_name, is_text};
use val_types::{Boxed, List};

/// Whether there is an expression.
pub fn has_expr(exprs: &List<Expr>) -> bool
    ensures { result ≡ has_tree (view_trees exprs.now) }
{
    !exprs.is_empty()
}

fn is_one_expr(exprs: &List<Expr>) -> bool
    ensures { result ≡ is_one_tree (view_trees exprs.now) }
{
    exprs.len() == 1
}

fn has_arm(arms: &List<Arm>) -> bool
    ensures { result ≡ has_arm (view_arms arms.now) }
{
    !arms.is_empty()
}

fn has_aggregate(aggregates: &List<Aggregate>) -> bool
    ensures { result ≡ has_aggregate (view_aggregates aggregates.now) }
{
    !aggregates.is_empty()
}

fn is_one_aggregate(aggregates: &List<Aggregate>) -> bool
    ensures { result ≡ is_one_aggregate (view_aggregates aggregates.now) }
{
    aggregates.len() == 1
}

fn has_order(order: &List<OrderItem>) -> bool
    ensures { result ≡ has_order (view_orders order.now) }
{
    !order.is_empty()
}

/// Whether a SELECT gives exactly one item or aggregate, which is not `*`.
pub fn gives_one(select: &Select) -> bool
    ensures { result ≡ gives_one (view_query select.now) }
{
    match &select.what {
        Selection::Items(items) => is_one_expr(items),
        Selection::All => false,
        Selection::Aggregates(aggregates) => is_one_aggregate(aggregates),
    }
}

fn is_unordered(from: &FromClause) -> bool
    ensures { result ≡ is_unordered (view_from from.now) }
{
    !has_order(&from.order) && from.limit.is_none()
}

/// Whether what a SELECT gives goes with its FROM.
fn goes_with_origin(select: &Select) -> bool
    ensures { result ≡ goes_with_origin (view_query select.now) }
{
    match (&select.what, &select.from) {
        (Selection::Items(_), _) => true,
        (_, None) => false,
        (Selection::All, Some(_)) => true,
        (Selection::Aggregates(_), Some(from)) => is_unordered(from),
    }
}

/// Whether the grammar can give an expression, however deep it is.
#[cycle(rules)]
pub fn well_expr(expr: &Expr) -> bool
    ensures { result ≡ is_well_tree (view_tree expr.now) }
{
    match expr {
        Expr::Literal(value) => is_literal(value),
        Expr::Name(name) | Expr::NewColumn(name) | Expr::OldColumn(name) => is_name(name),
        Expr::UserVariable(name) | Expr::SystemVariable(name) => is_name(name),
        Expr::Values(name) => is_name(name),
        Expr::Column(table, column) => is_name(table) && is_name(column),
        Expr::NameConst(text, value) => is_text(text) && is_literal(value),
        Expr::Unary(_, a) | Expr::FloorRand(a) | Expr::Func1(_, a) => well_expr(a.get()),
        Expr::Binary(_, a, b) | Expr::Func2(_, a, b) => well_expr(a.get()) && well_expr(b.get()),
        Expr::Func3(_, a, b, c) => {
            well_expr(a.get()) && well_expr(b.get()) && well_expr(c.get())
        }
        Expr::In { left, items, .. } => {
            well_expr(left.get()) && has_expr(items) && well_exprs(items)
        }
        Expr::Case { arms, otherwise } => {
            has_arm(arms) && well_arms(arms) && well_part(otherwise)
        }
        Expr::Subquery(select) => gives_one(select.get()) && well_select(select.get()),
        Expr::Exists(select) => well_select(select.get()),
        Expr::Call { name, arguments } => is_name(name) && well_exprs(arguments),
        Expr::FuncN(_, arguments) => { has_expr(arguments) && well_exprs(arguments) }
        Expr::Func0(_) => true,
    }
}

/// Whether the grammar can give each of some expressions. There may be none.
#[cycle(rules)]
pub fn well_exprs(exprs: &List<Expr>) -> bool
    ensures { result ≡ are_well_trees (view_trees exprs.now) }
{
    for expr in exprs.as_slice() {
        if !well_expr(expr) {
            return false;
        }
    }
    true
}

#[cycle(rules)]
fn well_arms(arms: &List<Arm>) -> bool
    ensures { result ≡ are_well_arms (view_arms arms.now) }
{
    for arm in arms.as_slice() {
        if !well_expr(&arm.condition) || !well_expr(&arm.value) {
            return false;
        }
    }
    true
}

#[cycle(rules)]
fn well_part(part: &Option<Boxed<Expr>>) -> bool
    ensures { result ≡ is_well_part (view_part part.now) }
{
    match part {
        None => true,
        Some(expr) => well_expr(expr.get()),
    }
}

/// Whether the grammar can give a SELECT, however deep it is.
#[cycle(rules)]
pub fn well_select(select: &Select) -> bool
    ensures { result ≡ is_well_query (view_query select.now) }
{
    goes_with_origin(select) && well_selection(&select.what) && well_from(&select.from)
}

#[cycle(rules)]
fn well_selection(what: &Selection) -> bool
    ensures { result ≡ is_well_selected (view_selected what.now) }
{
    match what {
        Selection::Items(items) => has_expr(items) && well_exprs(items),
        Selection::All => true,
        Selection::Aggregates(aggregates) => {
            has_aggregate(aggregates) && well_aggregates(aggregates)
        }
    }
}

#[cycle(rules)]
fn well_aggregates(aggregates: &List<Aggregate>) -> bool
    ensures { result ≡ are_well_aggregates (view_aggregates aggregates.now) }
{
    for aggregate in aggregates.as_slice() {
        if let Aggregate::Of(_, expr) = aggregate
            && !well_expr(expr.get())
        {
            return false;
        }
    }
    true
}

#[cycle(rules)]
fn well_from(from: &Option<FromClause>) -> bool
    ensures { result ≡ is_well_origin (view_origin from.now) }
{
    match from {
        None => true,
        Some(from) => {
            is_name(&from.table)
                && well_part(&from.filter)
                && well_order(&from.order)
                && is_limit_if(&from.limit)
        }
    }
}

/// Whether the grammar can give each item of ORDER BY. There may be none.
#[cycle(rules)]
pub fn well_order(order: &List<OrderItem>) -> bool
    ensures { result ≡ are_well_orders (view_orders order.now) }
{
    for item in order.as_slice() {
        if !well_expr(&item.by) {
            return false;
        }
    }
    true
}
