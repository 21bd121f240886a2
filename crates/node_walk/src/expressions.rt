//! Whether what is asked holds of a node of an expression or SELECT.
ghost use Rattle.std.specs.Prelude.{◌≡◌};
ghost use Rattle.std.specs.List.{list_any};
ghost use Rattle.catalog_objects.specs.catalog_rules.Nodes.{no_sight, nodes_of_tree, nodes_of_trees};
ghost use Rattle.node_walk.specs.Asking.{asks_node};
ghost use Rattle.sql_tree.specs.View.{view_aggregates, view_arms, view_from, view_orders, view_part, view_query, view_selected, view_tree, view_trees};
ghost use Rattle.node_walk.specs.Walking.{in_aggregates, in_arms, in_count, in_limit, in_orders, in_origin, in_part, in_query, in_selected, in_tree, in_trees};

use crate::asking::{
    Ask, asks_built_in, asks_call, asks_limit, asks_random_number, asks_system_variable, asks_table,
};
use sql_tree::{Aggregate, Arm, Count, Expr, FromClause, Limit, OrderItem, Select, Selection};
use val_types::{Boxed, Func, List};

/// LIMIT of a change.
pub(crate) fn in_count(ask: &Ask<'_>, count: &Option<Count>) -> bool
    ensures { result ≡ in_count ask.now count.now }
{
    match count {
        None => false,
        Some(count) => asks_limit(ask, count),
    }
}

/// LIMIT with its offset.
fn in_limit(ask: &Ask<'_>, limit: &Option<Limit>) -> bool
    ensures { result ≡ in_limit ask.now limit.now }
{
    match limit {
        None => false,
        Some(limit) => asks_limit(ask, &limit.count) || in_count(ask, &limit.offset),
    }
}

#[cycle(walk)]
pub(crate) fn in_expr(ask: &Ask<'_>, e: &Expr) -> bool
    ensures { result ≡ in_tree ask.now (view_tree e.now) }
{
    match e {
        Expr::Literal(_) | Expr::UserVariable(_) | Expr::NameConst(_, _) => false,
        Expr::Name(_) | Expr::Column(_, _) | Expr::NewColumn(_) | Expr::OldColumn(_) => false,
        Expr::Values(_) => false,
        Expr::SystemVariable(name) => asks_system_variable(ask, name),
        Expr::Unary(_, a) => in_expr(ask, a.get()),
        Expr::Binary(_, a, b) => in_expr(ask, a.get()) || in_expr(ask, b.get()),
        Expr::In { left, items, .. } => in_expr(ask, left.get()) || in_exprs(ask, items),
        Expr::Case { arms, otherwise } => in_arms(ask, arms) || in_boxed(ask, otherwise),
        Expr::Subquery(query) | Expr::Exists(query) => in_select(ask, query.get()),
        Expr::Call { name, arguments } => asks_call(ask, name) || in_exprs(ask, arguments),
        Expr::FloorRand(a) => asks_random_number(ask) || in_expr(ask, a.get()),
        Expr::Func0(f) => asks_built_in(ask, Func::Zero(*f)),
        Expr::Func1(f, a) => asks_built_in(ask, Func::One(*f)) || in_expr(ask, a.get()),
        Expr::Func2(f, a, b) => asks_built_in(ask, Func::Two(*f))
            || in_expr(ask, a.get())
            || in_expr(ask, b.get()),
        Expr::Func3(f, a, b, c) => asks_built_in(ask, Func::Three(*f))
            || in_expr(ask, a.get())
            || in_expr(ask, b.get())
            || in_expr(ask, c.get()),
        Expr::FuncN(f, arguments) => asks_built_in(ask, Func::Many(*f)) || in_exprs(ask, arguments),
    }
}

#[cycle(walk)]
pub(crate) fn in_exprs(ask: &Ask<'_>, list: &List<Expr>) -> bool
    ensures { result ≡ in_trees ask.now (view_trees list.now) }
{
    for e in list.as_slice() {
        if in_expr(ask, e) {
            return true;
        }
    }
    false
}

#[cycle(walk)]
fn in_arms(ask: &Ask<'_>, list: &List<Arm>) -> bool
    ensures { result ≡ in_arms ask.now (view_arms list.now) }
{
    for arm in list.as_slice() {
        if in_expr(ask, &arm.condition) || in_expr(ask, &arm.value) {
            return true;
        }
    }
    false
}

#[cycle(walk)]
fn in_boxed(ask: &Ask<'_>, part: &Option<Boxed<Expr>>) -> bool
    ensures { result ≡ in_part ask.now (view_part part.now) }
{
    match part {
        None => false,
        Some(e) => in_expr(ask, e.get()),
    }
}

#[cycle(walk)]
pub(crate) fn in_select(ask: &Ask<'_>, query: &Select) -> bool
    ensures { result ≡ in_query ask.now (view_query query.now) }
{
    in_selection(ask, &query.what)
        || match &query.from {
            None => false,
            Some(from) => in_from(ask, from),
        }
}

#[cycle(walk)]
fn in_selection(ask: &Ask<'_>, what: &Selection) -> bool
    ensures { result ≡ in_selected ask.now (view_selected what.now) }
{
    match what {
        Selection::Items(items) => in_exprs(ask, items),
        Selection::All => false,
        Selection::Aggregates(list) => in_aggregates(ask, list),
    }
}

#[cycle(walk)]
fn in_aggregates(ask: &Ask<'_>, list: &List<Aggregate>) -> bool
    ensures { result ≡ in_aggregates ask.now (view_aggregates list.now) }
{
    for aggregate in list.as_slice() {
        if let Aggregate::Of(_, e) = aggregate {
            if in_expr(ask, e.get()) {
                return true;
            }
        }
    }
    false
}

#[cycle(walk)]
fn in_from(ask: &Ask<'_>, from: &FromClause) -> bool
    ensures { result ≡ in_origin ask.now (view_from from.now) }
{
    asks_table(ask, &from.table)
        || in_boxed(ask, &from.filter)
        || in_order(ask, &from.order)
        || in_limit(ask, &from.limit)
}

#[cycle(walk)]
pub(crate) fn in_order(ask: &Ask<'_>, list: &List<OrderItem>) -> bool
    ensures { result ≡ in_orders ask.now (view_orders list.now) }
{
    for item in list.as_slice() {
        if in_expr(ask, &item.by) {
            return true;
        }
    }
    false
}

/// Whether what is asked holds of a node of an expression.
#[tactic(auto, using(crate::proofs::Walked::tree_walked))]
pub fn in_expression(ask: &Ask<'_>, e: &Expr) -> bool
    ensures { result ≡ list_any (asks_node ask.now) (nodes_of_tree (view_tree e.now) no_sight) }
{
    in_expr(ask, e)
}

/// Whether it holds of a node of one of some expressions.
#[tactic(auto, using(crate::proofs::Walked::trees_walked))]
pub fn in_expressions(ask: &Ask<'_>, list: &List<Expr>) -> bool
    ensures { result ≡ list_any (asks_node ask.now) (nodes_of_trees (view_trees list.now) no_sight) }
{
    in_exprs(ask, list)
}
