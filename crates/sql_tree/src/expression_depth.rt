//! How deep expressions and SELECTs are.
ghost use Rattle.std.specs.Prelude.{◌≡◌, ◌-◌, ◌^◌, min};
ghost use Rattle.sql_tree.specs.Depth.{depth_of_tree, depth_of_trees, depth_of_arms, depth_of_part, depth_of_query, depth_of_selected, depth_of_aggregates, depth_of_origin, depth_of_orders};
ghost use Rattle.sql_tree.specs.View.{view_tree, view_trees, view_arms, view_part, view_query, view_selected, view_aggregates, view_origin, view_orders};

use crate::expressions::{Aggregate, Arm, Expr, FromClause, OrderItem, Select, Selection};
use val_types::{Boxed, List};

/// How deep an expression is, 4294967295 where it is that or more.
#[cycle(depth)]
pub fn expr_depth(expr: &Expr) -> u32
    ensures { result ≡ min (depth_of_tree (view_tree expr.now)) (2 ^ 32 - 1) }
{
    match expr {
        Expr::Literal(_) | Expr::Name(_) | Expr::NameConst(_, _) => 1,
        Expr::Column(_, _) | Expr::NewColumn(_) | Expr::OldColumn(_) | Expr::Values(_) => 1,
        Expr::UserVariable(_) | Expr::SystemVariable(_) => 1,
        Expr::Func0(_) => 1,
        Expr::Unary(_, a) | Expr::FloorRand(a) | Expr::Func1(_, a) => {
            expr_depth(a.get()).saturating_add(1)
        }
        Expr::Binary(_, a, b) | Expr::Func2(_, a, b) => {
            expr_depth(a.get())
                .max(expr_depth(b.get()))
                .saturating_add(1)
        }
        Expr::Func3(_, a, b, c) => expr_depth(a.get())
            .max(expr_depth(b.get()))
            .max(expr_depth(c.get()))
            .saturating_add(1),
        Expr::In { left, items, .. } => {
            expr_depth(left.get())
                .max(list_depth(items))
                .saturating_add(1)
        }
        Expr::Case { arms, otherwise } => {
            arms_depth(arms)
                .max(part_depth(otherwise))
                .saturating_add(1)
        }
        Expr::Subquery(select) => select_depth(select.get()),
        Expr::Exists(select) => select_depth(select.get()).saturating_add(1),
        Expr::Call { arguments, .. } | Expr::FuncN(_, arguments) => {
            list_depth(arguments).saturating_add(1)
        }
    }
}

/// The depth of the deepest of some expressions, 0 where there is none.
#[cycle(depth)]
pub fn list_depth(exprs: &List<Expr>) -> u32
    ensures { result ≡ min (depth_of_trees (view_trees exprs.now)) (2 ^ 32 - 1) }
{
    let mut most = 0;
    for expr in exprs.as_slice() {
        most = expr_depth(expr).max(most);
    }
    most
}

#[cycle(depth)]
fn arms_depth(arms: &List<Arm>) -> u32
    ensures { result ≡ min (depth_of_arms (view_arms arms.now)) (2 ^ 32 - 1) }
{
    let mut most = 0;
    for arm in arms.as_slice() {
        most = expr_depth(&arm.condition)
            .max(expr_depth(&arm.value))
            .max(most);
    }
    most
}

#[cycle(depth)]
fn part_depth(part: &Option<Boxed<Expr>>) -> u32
    ensures { result ≡ min (depth_of_part (view_part part.now)) (2 ^ 32 - 1) }
{
    match part {
        None => 0,
        Some(expr) => expr_depth(expr.get()),
    }
}

/// How deep a SELECT is, 4294967295 where it is that or more.
#[cycle(depth)]
pub fn select_depth(select: &Select) -> u32
    ensures { result ≡ min (depth_of_query (view_query select.now)) (2 ^ 32 - 1) }
{
    let what = selection_depth(&select.what);
    what.max(from_depth(&select.from)).saturating_add(1)
}

#[cycle(depth)]
fn selection_depth(what: &Selection) -> u32
    ensures { result ≡ min (depth_of_selected (view_selected what.now)) (2 ^ 32 - 1) }
{
    match what {
        Selection::Items(items) => list_depth(items),
        Selection::All => 0,
        Selection::Aggregates(aggregates) => aggregates_depth(aggregates),
    }
}

#[cycle(depth)]
fn aggregates_depth(aggregates: &List<Aggregate>) -> u32
    ensures { result ≡ min (depth_of_aggregates (view_aggregates aggregates.now)) (2 ^ 32 - 1) }
{
    let mut most = 0;
    for aggregate in aggregates.as_slice() {
        let depth = match aggregate {
            Aggregate::CountAll => 1,
            Aggregate::Of(_, expr) => expr_depth(expr.get()).saturating_add(1),
        };
        most = depth.max(most);
    }
    most
}

#[cycle(depth)]
fn from_depth(from: &Option<FromClause>) -> u32
    ensures { result ≡ min (depth_of_origin (view_origin from.now)) (2 ^ 32 - 1) }
{
    match from {
        None => 0,
        Some(from) => part_depth(&from.filter).max(order_depth(&from.order)),
    }
}

/// The depth of the deepest expression of ORDER BY, 0 where there is none.
#[cycle(depth)]
pub fn order_depth(order: &List<OrderItem>) -> u32
    ensures { result ≡ min (depth_of_orders (view_orders order.now)) (2 ^ 32 - 1) }
{
    let mut most = 0;
    for item in order.as_slice() {
        most = expr_depth(&item.by).max(most);
    }
    most
}
