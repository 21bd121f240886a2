//! The names in expressions and SELECTs.
ghost use Rattle.std.specs.Prelude.{◌≡◌, OnOk};
ghost use Rattle.sql_tree.specs.View.{view_aggregates, view_arms, view_from, view_orders, view_part, view_query, view_selected, view_tree, view_trees};
ghost use Rattle.statement_names.specs.Walking.{of_aggregates, of_arms, of_orders, of_origin, of_part, of_query, of_selected, of_tree, of_trees};

use crate::visitor::NameVisitor;
use sql_tree::{Aggregate, Arm, Expr, FromClause, OrderItem, Select, Selection};
use val_types::{Boxed, List, NoMemory};

#[cycle(walk)]
pub(crate) fn visit_expr<V: NameVisitor>(visitor: &mut V, e: &Expr) -> Result<(), NoMemory>
    ensures { OnOk result (visitor.new ≡ of_tree V.visits (view_tree e.now) visitor.old) }
{
    match e {
        Expr::Literal(_) | Expr::SystemVariable(_) | Expr::NameConst(_, _) => Ok(()),
        Expr::Name(_) | Expr::Column(_, _) | Expr::NewColumn(_) | Expr::OldColumn(_) => Ok(()),
        Expr::Values(_) | Expr::Func0(_) => Ok(()),
        Expr::UserVariable(name) => visitor.visit_variable(name),
        Expr::Unary(_, a) | Expr::FloorRand(a) | Expr::Func1(_, a) => visit_expr(visitor, a.get()),
        Expr::Binary(_, a, b) | Expr::Func2(_, a, b) => {
            visit_expr(visitor, a.get())?;
            visit_expr(visitor, b.get())
        }
        Expr::Func3(_, a, b, c) => {
            visit_expr(visitor, a.get())?;
            visit_expr(visitor, b.get())?;
            visit_expr(visitor, c.get())
        }
        Expr::In { left, items, .. } => {
            visit_expr(visitor, left.get())?;
            visit_exprs(visitor, items)
        }
        Expr::Case { arms, otherwise } => {
            visit_arms(visitor, arms)?;
            visit_boxed(visitor, otherwise)
        }
        Expr::Subquery(query) | Expr::Exists(query) => visit_select(visitor, query.get()),
        Expr::Call { arguments, .. } | Expr::FuncN(_, arguments) => visit_exprs(visitor, arguments),
    }
}

#[cycle(walk)]
pub(crate) fn visit_exprs<V: NameVisitor>(
    visitor: &mut V,
    list: &List<Expr>,
) -> Result<(), NoMemory>
    ensures { OnOk result (visitor.new ≡ of_trees V.visits (view_trees list.now) visitor.old) }
{
    for e in list.as_slice() {
        visit_expr(visitor, e)?;
    }
    Ok(())
}

#[cycle(walk)]
fn visit_arms<V: NameVisitor>(visitor: &mut V, list: &List<Arm>) -> Result<(), NoMemory>
    ensures { OnOk result (visitor.new ≡ of_arms V.visits (view_arms list.now) visitor.old) }
{
    for arm in list.as_slice() {
        visit_expr(visitor, &arm.condition)?;
        visit_expr(visitor, &arm.value)?;
    }
    Ok(())
}

#[cycle(walk)]
fn visit_boxed<V: NameVisitor>(visitor: &mut V, part: &Option<Boxed<Expr>>) -> Result<(), NoMemory>
    ensures { OnOk result (visitor.new ≡ of_part V.visits (view_part part.now) visitor.old) }
{
    match part {
        None => Ok(()),
        Some(e) => visit_expr(visitor, e.get()),
    }
}

#[cycle(walk)]
pub(crate) fn visit_select<V: NameVisitor>(visitor: &mut V, query: &Select) -> Result<(), NoMemory>
    ensures { OnOk result (visitor.new ≡ of_query V.visits (view_query query.now) visitor.old) }
{
    visit_selection(visitor, &query.what)?;
    match &query.from {
        None => Ok(()),
        Some(from) => visit_from(visitor, from),
    }
}

#[cycle(walk)]
fn visit_selection<V: NameVisitor>(visitor: &mut V, what: &Selection) -> Result<(), NoMemory>
    ensures { OnOk result (visitor.new ≡ of_selected V.visits (view_selected what.now) visitor.old) }
{
    match what {
        Selection::Items(items) => visit_exprs(visitor, items),
        Selection::All => Ok(()),
        Selection::Aggregates(list) => visit_aggregates(visitor, list),
    }
}

#[cycle(walk)]
fn visit_aggregates<V: NameVisitor>(visitor: &mut V, list: &List<Aggregate>) -> Result<(), NoMemory>
    ensures { OnOk result (visitor.new ≡ of_aggregates V.visits (view_aggregates list.now) visitor.old) }
{
    for aggregate in list.as_slice() {
        if let Aggregate::Of(_, e) = aggregate {
            visit_expr(visitor, e.get())?;
        }
    }
    Ok(())
}

#[cycle(walk)]
fn visit_from<V: NameVisitor>(visitor: &mut V, from: &FromClause) -> Result<(), NoMemory>
    ensures { OnOk result (visitor.new ≡ of_origin V.visits (view_from from.now) visitor.old) }
{
    visitor.visit_table(&from.table)?;
    visit_boxed(visitor, &from.filter)?;
    visit_order(visitor, &from.order)
}

#[cycle(walk)]
pub(crate) fn visit_order<V: NameVisitor>(
    visitor: &mut V,
    list: &List<OrderItem>,
) -> Result<(), NoMemory>
    ensures { OnOk result (visitor.new ≡ of_orders V.visits (view_orders list.now) visitor.old) }
{
    for item in list.as_slice() {
        visit_expr(visitor, &item.by)?;
    }
    Ok(())
}
