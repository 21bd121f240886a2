//! Copies of expressions and SELECTs.
ghost use Rattle.std.specs.Prelude.{◌≡◌, IfOk};

use sql_tree::{Aggregate, Arm, Expr, FromClause, OrderItem, Select, Selection};
use std::alloc::Global;
use val_types::{Boxed, Duplicate, List, NoMemory};

/// An equal expression.
#[cycle(copies)]
pub fn copy_expr(alloc: Global, expr: &Expr) -> Result<Expr, NoMemory>
    ensures { IfOk result (λ copy. copy ≡ expr.now) }
{
    Ok(match expr {
        Expr::Literal(value) => Expr::Literal(value.duplicate(alloc)?),
        Expr::Name(name) => Expr::Name(name.duplicate(alloc)?),
        Expr::Column(table, name) => {
            Expr::Column(table.duplicate(alloc)?, name.duplicate(alloc)?)
        }
        Expr::NewColumn(name) => Expr::NewColumn(name.duplicate(alloc)?),
        Expr::OldColumn(name) => Expr::OldColumn(name.duplicate(alloc)?),
        Expr::UserVariable(name) => Expr::UserVariable(name.duplicate(alloc)?),
        Expr::SystemVariable(name) => Expr::SystemVariable(name.duplicate(alloc)?),
        Expr::Unary(op, a) => Expr::Unary(*op, copy_boxed(alloc, a)?),
        Expr::Binary(op, a, b) => {
            Expr::Binary(*op, copy_boxed(alloc, a)?, copy_boxed(alloc, b)?)
        }
        Expr::In {
            negated,
            left,
            items,
        } => Expr::In {
            negated: *negated,
            left: copy_boxed(alloc, left)?,
            items: copy_exprs(alloc, items)?,
        },
        Expr::Case { arms, otherwise } => Expr::Case {
            arms: copy_arms(alloc, arms)?,
            otherwise: copy_part(alloc, otherwise)?,
        },
        Expr::Subquery(select) => Expr::Subquery(copy_query(alloc, select)?),
        Expr::Exists(select) => Expr::Exists(copy_query(alloc, select)?),
        Expr::Call { name, arguments } => Expr::Call {
            name: name.duplicate(alloc)?,
            arguments: copy_exprs(alloc, arguments)?,
        },
        Expr::Values(name) => Expr::Values(name.duplicate(alloc)?),
        Expr::NameConst(name, value) => {
            Expr::NameConst(name.duplicate(alloc)?, value.duplicate(alloc)?)
        }
        Expr::FloorRand(a) => Expr::FloorRand(copy_boxed(alloc, a)?),
        Expr::Func0(function) => Expr::Func0(*function),
        Expr::Func1(function, a) => Expr::Func1(*function, copy_boxed(alloc, a)?),
        Expr::Func2(function, a, b) => {
            Expr::Func2(*function, copy_boxed(alloc, a)?, copy_boxed(alloc, b)?)
        }
        Expr::Func3(function, a, b, c) => Expr::Func3(
            *function,
            copy_boxed(alloc, a)?,
            copy_boxed(alloc, b)?,
            copy_boxed(alloc, c)?,
        ),
        Expr::FuncN(function, arguments) => {
            Expr::FuncN(*function, copy_exprs(alloc, arguments)?)
        }
    })
}

#[cycle(copies)]
fn copy_boxed(alloc: Global, expr: &Boxed<Expr>) -> Result<Boxed<Expr>, NoMemory>
    ensures { IfOk result (λ copy. copy ≡ expr.now) }
{
    Boxed::new(alloc, copy_expr(alloc, expr.get())?)
}

#[cycle(copies)]
fn copy_query(alloc: Global, select: &Boxed<Select>) -> Result<Boxed<Select>, NoMemory>
    ensures { IfOk result (λ copy. copy ≡ select.now) }
{
    Boxed::new(alloc, copy_select(alloc, select.get())?)
}

#[cycle(copies)]
fn copy_part(alloc: Global, part: &Option<Boxed<Expr>>) -> Result<Option<Boxed<Expr>>, NoMemory>
    ensures { IfOk result (λ copy. copy ≡ part.now) }
{
    match part {
        None => Ok(None),
        Some(expr) => Ok(Some(copy_boxed(alloc, expr)?)),
    }
}

/// Equal expressions in the same order.
#[cycle(copies)]
pub fn copy_exprs(alloc: Global, exprs: &List<Expr>) -> Result<List<Expr>, NoMemory>
    ensures { IfOk result (λ copy. copy ≡ exprs.now) }
{
    let mut copy = List::new(alloc);
    for expr in exprs.as_slice() {
        copy.push(copy_expr(alloc, expr)?)?;
    }
    Ok(copy)
}

#[cycle(copies)]
fn copy_arms(alloc: Global, arms: &List<Arm>) -> Result<List<Arm>, NoMemory>
    ensures { IfOk result (λ copy. copy ≡ arms.now) }
{
    let mut copy = List::new(alloc);
    for arm in arms.as_slice() {
        copy.push(copy_arm(alloc, arm)?)?;
    }
    Ok(copy)
}

#[cycle(copies)]
fn copy_arm(alloc: Global, arm: &Arm) -> Result<Arm, NoMemory>
    ensures { IfOk result (λ copy. copy ≡ arm.now) }
{
    Ok(Arm {
        condition: copy_expr(alloc, &arm.condition)?,
        value: copy_expr(alloc, &arm.value)?,
    })
}

/// An equal SELECT.
#[cycle(copies)]
pub fn copy_select(alloc: Global, select: &Select) -> Result<Select, NoMemory>
    ensures { IfOk result (λ copy. copy ≡ select.now) }
{
    let what = copy_selection(alloc, &select.what)?;
    let from = copy_from(alloc, &select.from)?;
    Ok(Select { what, from })
}

#[cycle(copies)]
fn copy_selection(alloc: Global, what: &Selection) -> Result<Selection, NoMemory>
    ensures { IfOk result (λ copy. copy ≡ what.now) }
{
    Ok(match what {
        Selection::Items(items) => Selection::Items(copy_exprs(alloc, items)?),
        Selection::All => Selection::All,
        Selection::Aggregates(aggregates) => {
            Selection::Aggregates(copy_aggregates(alloc, aggregates)?)
        }
    })
}

#[cycle(copies)]
fn copy_aggregates(alloc: Global, aggregates: &List<Aggregate>) -> Result<List<Aggregate>, NoMemory>
    ensures { IfOk result (λ copy. copy ≡ aggregates.now) }
{
    let mut copy = List::new(alloc);
    for aggregate in aggregates.as_slice() {
        copy.push(copy_aggregate(alloc, aggregate)?)?;
    }
    Ok(copy)
}

#[cycle(copies)]
fn copy_aggregate(alloc: Global, aggregate: &Aggregate) -> Result<Aggregate, NoMemory>
    ensures { IfOk result (λ copy. copy ≡ aggregate.now) }
{
    Ok(match aggregate {
        Aggregate::CountAll => Aggregate::CountAll,
        Aggregate::Of(function, expr) => Aggregate::Of(*function, copy_boxed(alloc, expr)?),
    })
}

#[cycle(copies)]
fn copy_from(alloc: Global, from: &Option<FromClause>) -> Result<Option<FromClause>, NoMemory>
    ensures { IfOk result (λ copy. copy ≡ from.now) }
{
    match from {
        None => Ok(None),
        Some(from) => {
            let table = from.table.duplicate(alloc)?;
            let filter = copy_part(alloc, &from.filter)?;
            let order = copy_order(alloc, &from.order)?;
            let limit = from.limit.duplicate(alloc)?;
            Ok(Some(FromClause {
                table,
                filter,
                order,
                limit,
            }))
        }
    }
}

/// Equal items of ORDER BY in the same order.
#[cycle(copies)]
pub fn copy_order(alloc: Global, order: &List<OrderItem>) -> Result<List<OrderItem>, NoMemory>
    ensures { IfOk result (λ copy. copy ≡ order.now) }
{
    let mut copy = List::new(alloc);
    for item in order.as_slice() {
        let by = copy_expr(alloc, &item.by)?;
        copy.push(OrderItem {
            by,
            descending: item.descending,
        })?;
    }
    Ok(copy)
}
