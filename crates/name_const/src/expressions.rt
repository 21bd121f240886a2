//! Expressions and SELECTs with locals closed in.
ghost use Rattle.std.specs.Prelude.{◌≡◌, IfOk};
ghost use Rattle.sql_tree.specs.View.{view_aggregate, view_aggregates, view_arm, view_arms, view_orders, view_origin, view_part, view_query, view_selected, view_tree, view_trees};
ghost use Rattle.name_const_names.specs.name_const_length.Closed.{closed_aggregates, closed_arms, closed_orders, closed_origin, closed_part, closed_query, closed_selected, closed_tree, closed_trees};
ghost use Rattle.name_const_names.specs.name_const_length.Items.{closed_aggregate, closed_arm};

use name_const_names::{close_limit, close_name};
use sql_locals::Locals;
use sql_tree::{Aggregate, Arm, Expr, FromClause, OrderItem, Select, Selection};
use std::alloc::Global;
use tree_copies::copy_expr;
use val_types::{Boxed, Duplicate, List, NoMemory};

/// An expression with locals closed in; one in which no name stands is left as it is.
#[cycle(close)]
pub fn close_expr(alloc: Global, locals: &Locals, expr: &Expr) -> Result<Expr, NoMemory>
    ensures { IfOk result (λ copy. view_tree copy ≡ closed_tree locals.now (view_tree expr.now)) }
{
    match expr {
        Expr::Name(name) => close_name(alloc, locals, name),
        Expr::Unary(op, a) => Ok(Expr::Unary(*op, close_boxed(alloc, locals, a)?)),
        Expr::Binary(op, a, b) => {
            let a = close_boxed(alloc, locals, a)?;
            Ok(Expr::Binary(*op, a, close_boxed(alloc, locals, b)?))
        }
        Expr::In {
            negated,
            left,
            items,
        } => {
            let left = close_boxed(alloc, locals, left)?;
            let items = close_exprs(alloc, locals, items)?;
            Ok(Expr::In {
                negated: *negated,
                left,
                items,
            })
        }
        Expr::Case { arms, otherwise } => {
            let arms = close_arms(alloc, locals, arms)?;
            let otherwise = close_part(alloc, locals, otherwise)?;
            Ok(Expr::Case { arms, otherwise })
        }
        Expr::Subquery(select) => Ok(Expr::Subquery(close_query(alloc, locals, select)?)),
        Expr::Exists(select) => Ok(Expr::Exists(close_query(alloc, locals, select)?)),
        Expr::Call { name, arguments } => {
            let name = name.duplicate(alloc)?;
            let arguments = close_exprs(alloc, locals, arguments)?;
            Ok(Expr::Call { name, arguments })
        }
        Expr::FloorRand(a) => Ok(Expr::FloorRand(close_boxed(alloc, locals, a)?)),
        Expr::Func1(function, a) => Ok(Expr::Func1(*function, close_boxed(alloc, locals, a)?)),
        Expr::Func2(function, a, b) => {
            let a = close_boxed(alloc, locals, a)?;
            Ok(Expr::Func2(*function, a, close_boxed(alloc, locals, b)?))
        }
        Expr::Func3(function, a, b, c) => {
            let a = close_boxed(alloc, locals, a)?;
            let b = close_boxed(alloc, locals, b)?;
            Ok(Expr::Func3(*function, a, b, close_boxed(alloc, locals, c)?))
        }
        Expr::FuncN(function, arguments) => {
            Ok(Expr::FuncN(*function, close_exprs(alloc, locals, arguments)?))
        }
        _ => copy_expr(alloc, expr),
    }
}

#[cycle(close)]
fn close_boxed(alloc: Global, locals: &Locals, expr: &Boxed<Expr>) -> Result<Boxed<Expr>, NoMemory>
    ensures { IfOk result (λ copy. view_tree copy ≡ closed_tree locals.now (view_tree expr.now)) }
{
    Boxed::new(alloc, close_expr(alloc, locals, expr.get())?)
}

#[cycle(close)]
fn close_query(
    alloc: Global,
    locals: &Locals,
    select: &Boxed<Select>,
) -> Result<Boxed<Select>, NoMemory>
    ensures { IfOk result (λ copy. view_query copy ≡ closed_query locals.now (view_query select.now)) }
{
    Boxed::new(alloc, close_select(alloc, locals, select.get())?)
}

#[cycle(close)]
fn close_part(
    alloc: Global,
    locals: &Locals,
    part: &Option<Boxed<Expr>>,
) -> Result<Option<Boxed<Expr>>, NoMemory>
    ensures { IfOk result (λ copy. view_part copy ≡ closed_part locals.now (view_part part.now)) }
{
    match part {
        None => Ok(None),
        Some(expr) => Ok(Some(close_boxed(alloc, locals, expr)?)),
    }
}

/// Expressions with locals closed in, in the same order.
#[cycle(close)]
pub fn close_exprs(
    alloc: Global,
    locals: &Locals,
    exprs: &List<Expr>,
) -> Result<List<Expr>, NoMemory>
    ensures { IfOk result (λ copy. view_trees copy ≡ closed_trees locals.now (view_trees exprs.now)) }
{
    let mut copy = List::new(alloc);
    for expr in exprs.as_slice() {
        copy.push(close_expr(alloc, locals, expr)?)?;
    }
    Ok(copy)
}

#[cycle(close)]
fn close_arms(alloc: Global, locals: &Locals, arms: &List<Arm>) -> Result<List<Arm>, NoMemory>
    ensures { IfOk result (λ copy. view_arms copy ≡ closed_arms locals.now (view_arms arms.now)) }
{
    let mut copy = List::new(alloc);
    for arm in arms.as_slice() {
        copy.push(close_arm(alloc, locals, arm)?)?;
    }
    Ok(copy)
}

#[cycle(close)]
fn close_arm(alloc: Global, locals: &Locals, arm: &Arm) -> Result<Arm, NoMemory>
    ensures { IfOk result (λ copy. view_arm copy ≡ closed_arm locals.now (view_arm arm.now)) }
{
    Ok(Arm {
        condition: close_expr(alloc, locals, &arm.condition)?,
        value: close_expr(alloc, locals, &arm.value)?,
    })
}

/// A SELECT with locals closed in.
#[cycle(close)]
pub fn close_select(alloc: Global, locals: &Locals, select: &Select) -> Result<Select, NoMemory>
    ensures { IfOk result (λ copy. view_query copy ≡ closed_query locals.now (view_query select.now)) }
{
    let what = close_selection(alloc, locals, &select.what)?;
    let from = close_from(alloc, locals, &select.from)?;
    Ok(Select { what, from })
}

#[cycle(close)]
fn close_selection(alloc: Global, locals: &Locals, what: &Selection) -> Result<Selection, NoMemory>
    ensures { IfOk result (λ copy. view_selected copy ≡ closed_selected locals.now (view_selected what.now)) }
{
    Ok(match what {
        Selection::Items(items) => Selection::Items(close_exprs(alloc, locals, items)?),
        Selection::All => Selection::All,
        Selection::Aggregates(aggregates) => {
            Selection::Aggregates(close_aggregates(alloc, locals, aggregates)?)
        }
    })
}

#[cycle(close)]
fn close_aggregates(
    alloc: Global,
    locals: &Locals,
    aggregates: &List<Aggregate>,
) -> Result<List<Aggregate>, NoMemory>
    ensures { IfOk result (λ copy. view_aggregates copy ≡ closed_aggregates locals.now (view_aggregates aggregates.now)) }
{
    let mut copy = List::new(alloc);
    for aggregate in aggregates.as_slice() {
        copy.push(close_aggregate(alloc, locals, aggregate)?)?;
    }
    Ok(copy)
}

#[cycle(close)]
fn close_aggregate(
    alloc: Global,
    locals: &Locals,
    aggregate: &Aggregate,
) -> Result<Aggregate, NoMemory>
    ensures { IfOk result (λ copy. view_aggregate copy ≡ closed_aggregate locals.now (view_aggregate aggregate.now)) }
{
    Ok(match aggregate {
        Aggregate::CountAll => Aggregate::CountAll,
        Aggregate::Of(function, expr) => Aggregate::Of(
            *function,
            close_boxed(alloc, locals, expr)?,
        ),
    })
}

#[cycle(close)]
fn close_from(
    alloc: Global,
    locals: &Locals,
    from: &Option<FromClause>,
) -> Result<Option<FromClause>, NoMemory>
    ensures { IfOk result (λ copy. view_origin copy ≡ closed_origin locals.now (view_origin from.now)) }
{
    match from {
        None => Ok(None),
        Some(from) => {
            let table = from.table.duplicate(alloc)?;
            let filter = close_part(alloc, locals, &from.filter)?;
            let order = close_order(alloc, locals, &from.order)?;
            let limit = close_limit(alloc, locals, &from.limit)?;
            Ok(Some(FromClause {
                table,
                filter,
                order,
                limit,
            }))
        }
    }
}

/// Items of ORDER BY with locals closed in, in the same order.
#[cycle(close)]
pub fn close_order(
    alloc: Global,
    locals: &Locals,
    order: &List<OrderItem>,
) -> Result<List<OrderItem>, NoMemory>
    ensures { IfOk result (λ copy. view_orders copy ≡ closed_orders locals.now (view_orders order.now)) }
{
    let mut copy = List::new(alloc);
    for item in order.as_slice() {
        let by = close_expr(alloc, locals, &item.by)?;
        copy.push(OrderItem {
            by,
            descending: item.descending,
        })?;
    }
    Ok(copy)
}
