//! Nodes of expressions over kept parts.
//!
//! Each node keeps what is kept of its parts, with one level more: where a part has too many
//! levels, or the node would have, nothing is kept.
ghost use Rattle.std.specs.Prelude.{◌≡◌, IfOk, Option, Some, None};
ghost use Rattle.sql_syntax.specs.Expressions as spec;
ghost use Rattle.sql_syntax.specs.Selects.{origin_of};
ghost use Rattle.sql_tree.specs.declared.expressions.Limit.{Limit as LimitClause};
ghost use Rattle.sql_parse_nodes.specs.Trials.{view_trial, depth_of_test};
ghost use Rattle.sql_parse_nodes.specs.Kept.{IsKept, view_beside, depth_beside, depth_of_aggregate};
ghost use Rattle.sql_tree.specs.Depth.{depth_of_tree, depth_of_trees, depth_of_arms, depth_of_part, depth_of_query, depth_of_selected, depth_of_aggregates, depth_of_origin, depth_of_orders};
ghost use Rattle.sql_tree.specs.Tree.{Tree, Trees, Arms, Part, Query, Selected, Aggregates, Origin, Orders};
ghost use Rattle.sql_tree.specs.Tree as tree;
ghost use Rattle.sql_tree.specs.BuiltIns.{on_none, on_one, on_two, on_three, on_many};
ghost use Rattle.sql_tree.specs.View.{view_tree, view_trees, view_arm, view_arms, view_part, view_query, view_selected, view_aggregate, view_aggregates, view_origin, view_order, view_orders};

use crate::kept::{Kept, Levelled, above, beside};
use crate::{held, node};
use sql_tree::{Aggregate, Arm, Expr, FromClause, Limit, OrderItem, Select, Selection};
use std::alloc::Global;
use val_types::{
    Agg, BinOp, Boxed, Bytes, Func0, Func1, Func2, Func3, FuncN, List, NoMemory, UnOp,
};

/// A node without parts.
pub fn leaf(alloc: Global, part: Expr) -> Result<Kept<Boxed<Expr>>, NoMemory>
    ensures { IfOk result (λ k. depth_of_tree (view_tree part) ≡ 1
        → IsKept view_tree depth_of_tree (view_tree part) k) }
{
    let part = Boxed::new(alloc, part)?;
    Ok(Some(Levelled { part, levels: 1 }))
}

/// An operator before its operand.
pub fn unary(alloc: Global, op: UnOp, a: Kept<Boxed<Expr>>) -> Result<Kept<Boxed<Expr>>, NoMemory>
    ensures { IfOk result (λ k. (t : Tree) → IsKept view_tree depth_of_tree t a
        → IsKept view_tree depth_of_tree (tree.unary op t) k) }
{
    node!(alloc, above(a), a => Expr::Unary(op, a))
}

/// An operator between two operands.
pub fn binary(
    alloc: Global,
    op: BinOp,
    a: Kept<Boxed<Expr>>,
    b: Kept<Boxed<Expr>>,
) -> Result<Kept<Boxed<Expr>>, NoMemory>
    ensures { IfOk result (λ k. (t u : Tree)
        → IsKept view_tree depth_of_tree t a → IsKept view_tree depth_of_tree u b
        → IsKept view_tree depth_of_tree (tree.binary op t u) k) }
{
    node!(alloc, above(beside(a, b)), (a, b) => Expr::Binary(op, a, b))
}

/// What stands behind the left operand of a comparison.
#[derive(Drop)]
pub enum Trial {
    /// A sign that compares, and the right operand.
    Compared(BinOp, Boxed<Expr>),
    /// IS NULL or IS NOT NULL.
    IsNull(UnOp),
    /// The expressions of IN, or of NOT IN where `true`.
    Among(bool, List<Expr>),
}

/// A sign that compares, and the right operand.
pub fn compared(op: BinOp, a: Kept<Boxed<Expr>>) -> Kept<Trial>
    ensures { (t : Tree) → IsKept view_tree depth_of_tree t a
        → IsKept view_trial depth_of_test (spec.compared op t) result }
{
    held!(a, a => Trial::Compared(op, a))
}

/// IS NULL or IS NOT NULL.
pub fn null_test(op: UnOp) -> Kept<Trial>
    ensures { IsKept view_trial depth_of_test (spec.null_test op) result }
{
    Some(Levelled {
        part: Trial::IsNull(op),
        levels: 0,
    })
}

/// The expressions of IN or NOT IN.
pub fn among(negated: bool, items: Kept<List<Expr>>) -> Kept<Trial>
    ensures { (ts : Trees) → IsKept view_trees depth_of_trees ts items
        → IsKept view_trial depth_of_test (spec.among negated ts) result }
{
    held!(items, a => Trial::Among(negated, a))
}

/// The left operand with what stands behind it.
pub fn tested(
    alloc: Global,
    left: Kept<Boxed<Expr>>,
    trial: Kept<Trial>,
) -> Result<Kept<Boxed<Expr>>, NoMemory>
    ensures { IfOk result (λ k. (t : Tree) (u : spec.Test)
        → IsKept view_tree depth_of_tree t left → IsKept view_trial depth_of_test u trial
        → IsKept view_tree depth_of_tree (spec.tested t u) k) }
{
    let Some(k) = trial else {
        return Ok(None);
    };
    let levels = k.levels;
    match k.part {
        Trial::Compared(op, part) => binary(alloc, op, left, Some(Levelled { part, levels })),
        Trial::IsNull(op) => unary(alloc, op, left),
        Trial::Among(negated, part) => is_in(alloc, negated, left, Some(Levelled { part, levels })),
    }
}

/// IN, or NOT IN.
fn is_in(
    alloc: Global,
    negated: bool,
    a: Kept<Boxed<Expr>>,
    items: Kept<List<Expr>>,
) -> Result<Kept<Boxed<Expr>>, NoMemory>
    ensures { IfOk result (λ k. (t : Tree) (ts : Trees)
        → IsKept view_tree depth_of_tree t a → IsKept view_trees depth_of_trees ts items
        → IsKept view_tree depth_of_tree (tree.is_in negated t ts) k) }
{
    node!(alloc, above(beside(a, items)), (left, items) => Expr::In { negated, left, items })
}

/// CASE.
pub fn choice(
    alloc: Global,
    arms: Kept<List<Arm>>,
    otherwise: Kept<Option<Boxed<Expr>>>,
) -> Result<Kept<Boxed<Expr>>, NoMemory>
    ensures { IfOk result (λ k. (as' : Arms) (o : Part)
        → IsKept view_arms depth_of_arms as' arms → IsKept view_part depth_of_part o otherwise
        → IsKept view_tree depth_of_tree (tree.choice as' o) k) }
{
    node!(alloc, above(beside(arms, otherwise)), (arms, otherwise) => Expr::Case { arms, otherwise })
}

/// A SELECT of one value, which stands in parentheses and is no level more.
pub fn subquery(alloc: Global, query: Kept<Boxed<Select>>) -> Result<Kept<Boxed<Expr>>, NoMemory>
    ensures { IfOk result (λ k. (q : Query) → IsKept view_query depth_of_query q query
        → IsKept view_tree depth_of_tree (tree.subquery q) k) }
{
    node!(alloc, query, a => Expr::Subquery(a))
}

/// EXISTS.
pub fn exists(alloc: Global, query: Kept<Boxed<Select>>) -> Result<Kept<Boxed<Expr>>, NoMemory>
    ensures { IfOk result (λ k. (q : Query) → IsKept view_query depth_of_query q query
        → IsKept view_tree depth_of_tree (tree.exists q) k) }
{
    node!(alloc, above(query), a => Expr::Exists(a))
}

/// A call of a stored function.
pub fn call(
    alloc: Global,
    name: Bytes,
    arguments: Kept<List<Expr>>,
) -> Result<Kept<Boxed<Expr>>, NoMemory>
    ensures { IfOk result (λ k. (ts : Trees) → IsKept view_trees depth_of_trees ts arguments
        → IsKept view_tree depth_of_tree (tree.call name ts) k) }
{
    node!(alloc, above(arguments), arguments => Expr::Call { name, arguments })
}

/// `FLOOR(RAND() * a)`
pub fn floor_rand(alloc: Global, a: Kept<Boxed<Expr>>) -> Result<Kept<Boxed<Expr>>, NoMemory>
    ensures { IfOk result (λ k. (t : Tree) → IsKept view_tree depth_of_tree t a
        → IsKept view_tree depth_of_tree (tree.floor_rand t) k) }
{
    node!(alloc, above(a), a => Expr::FloorRand(a))
}

/// A call of a built-in without arguments.
pub fn func0(alloc: Global, function: Func0) -> Result<Kept<Boxed<Expr>>, NoMemory>
    ensures { IfOk result (λ k. IsKept view_tree depth_of_tree (on_none function) k) }
{
    leaf(alloc, Expr::Func0(function))
}

/// A call of a built-in of one argument.
pub fn func1(
    alloc: Global,
    function: Func1,
    a: Kept<Boxed<Expr>>,
) -> Result<Kept<Boxed<Expr>>, NoMemory>
    ensures { IfOk result (λ k. (t : Tree) → IsKept view_tree depth_of_tree t a
        → IsKept view_tree depth_of_tree (on_one function t) k) }
{
    node!(alloc, above(a), a => Expr::Func1(function, a))
}

/// A call of a built-in of two arguments.
pub fn func2(
    alloc: Global,
    function: Func2,
    two: Kept<(Boxed<Expr>, Boxed<Expr>)>,
) -> Result<Kept<Boxed<Expr>>, NoMemory>
    ensures { IfOk result (λ k. (ts : Tree × Tree)
        → IsKept (view_beside view_tree view_tree) (depth_beside depth_of_tree depth_of_tree) ts two
        → IsKept view_tree depth_of_tree (on_two function ts.0 ts.1) k) }
{
    node!(alloc, above(two), (a, b) => Expr::Func2(function, a, b))
}

/// The parts of a call of three arguments.
pub type Three = (Boxed<Expr>, (Boxed<Expr>, Boxed<Expr>));

/// A call of a built-in of three arguments.
pub fn func3(
    alloc: Global,
    function: Func3,
    three: Kept<Three>,
) -> Result<Kept<Boxed<Expr>>, NoMemory>
    ensures { IfOk result (λ k. (ts : Tree × (Tree × Tree))
        → IsKept (view_beside view_tree (view_beside view_tree view_tree))
        (depth_beside depth_of_tree (depth_beside depth_of_tree depth_of_tree)) ts three
        → IsKept view_tree depth_of_tree (on_three function ts.0 ts.1.0 ts.1.1) k) }
{
    node!(alloc, above(three), (a, (b, c)) => Expr::Func3(function, a, b, c))
}

/// A call of a built-in of one argument or more.
pub fn func_n(
    alloc: Global,
    function: FuncN,
    arguments: Kept<List<Expr>>,
) -> Result<Kept<Boxed<Expr>>, NoMemory>
    ensures { IfOk result (λ k. (ts : Trees) → IsKept view_trees depth_of_trees ts arguments
        → IsKept view_tree depth_of_tree (on_many function ts) k) }
{
    node!(alloc, above(arguments), list => Expr::FuncN(function, list))
}

/// An expression that may be left out, and is.
pub fn no_part() -> Kept<Option<Boxed<Expr>>>
    ensures { IsKept view_part depth_of_part tree.no_part result }
{
    Some(Levelled {
        part: None,
        levels: 0,
    })
}

/// An expression that may be left out, and is there.
pub fn part(a: Kept<Boxed<Expr>>) -> Kept<Option<Boxed<Expr>>>
    ensures { (t : Tree) → IsKept view_tree depth_of_tree t a
        → IsKept view_part depth_of_part (tree.part t) result }
{
    held!(a, a => Some(a))
}

/// A WHEN of a CASE.
pub fn arm(
    alloc: Global,
    condition: Kept<Boxed<Expr>>,
    value: Kept<Boxed<Expr>>,
) -> Result<Kept<Boxed<Arm>>, NoMemory>
    ensures { IfOk result (λ k. (t u : Tree)
        → IsKept view_tree depth_of_tree t condition → IsKept view_tree depth_of_tree u value
        → IsKept view_arm (depth_beside depth_of_tree depth_of_tree) (t, u) k) }
{
    node!(alloc, beside(condition, value), (condition, value) => Arm {
        condition: condition.into_inner(),
        value: value.into_inner(),
    })
}

/// ORDER BY's items, and whether they descend.
pub fn order_item(
    alloc: Global,
    by: Kept<Boxed<Expr>>,
    descending: bool,
) -> Result<Kept<Boxed<OrderItem>>, NoMemory>
    ensures { IfOk result (λ k. (t : Tree) → IsKept view_tree depth_of_tree t by
        → IsKept view_order (λ o. depth_of_tree o.0) (t, descending) k) }
{
    node!(alloc, by, by => OrderItem { by: by.into_inner(), descending })
}

/// An aggregate of an expression.
pub fn aggregate(function: Agg, a: Kept<Boxed<Expr>>) -> Kept<Aggregate>
    ensures { (t : Tree) → IsKept view_tree depth_of_tree t a
        → IsKept view_aggregate depth_of_aggregate (Some (function, t)) result }
{
    held!(above(a), a => Aggregate::Of(function, a))
}

/// `COUNT(*)`
pub fn count_all() -> Kept<Aggregate>
    ensures { IsKept view_aggregate depth_of_aggregate None result }
{
    Some(Levelled {
        part: Aggregate::CountAll,
        levels: 1,
    })
}

/// What a SELECT gives: expressions.
pub fn items(list: Kept<List<Expr>>) -> Kept<Selection>
    ensures { (ts : Trees) → IsKept view_trees depth_of_trees ts list
        → IsKept view_selected depth_of_selected (tree.items ts) result }
{
    held!(list, a => Selection::Items(a))
}

/// What a SELECT gives: all columns.
pub fn all_columns() -> Kept<Selection>
    ensures { IsKept view_selected depth_of_selected tree.all_columns result }
{
    Some(Levelled {
        part: Selection::All,
        levels: 0,
    })
}

/// What a SELECT gives: aggregates.
pub fn aggregates(list: Kept<List<Aggregate>>) -> Kept<Selection>
    ensures { (as' : Aggregates) → IsKept view_aggregates depth_of_aggregates as' list
        → IsKept view_selected depth_of_selected (tree.aggregates as') result }
{
    held!(list, a => Selection::Aggregates(a))
}

/// ORDER BY and LIMIT.
pub type Ordering = (List<OrderItem>, Option<Limit>);

/// ORDER BY with LIMIT.
pub fn ordering(order: Kept<List<OrderItem>>, limit: Option<Limit>) -> Kept<Ordering>
    ensures { (os : Orders) → IsKept view_orders depth_of_orders os order
        → IsKept (view_beside view_orders (λ l. l)) (λ o. depth_of_orders o.0) (os, limit) result }
{
    held!(order, a => (a, limit))
}

/// WHERE, ORDER BY and LIMIT.
pub type Conditions = (Option<Boxed<Expr>>, Ordering);

/// The FROM part of a SELECT.
pub fn from_clause(table: Bytes, conditions: Kept<Conditions>) -> Kept<Option<FromClause>>
    ensures { (c : Part × (Orders × Option LimitClause))
        → IsKept (view_beside view_part (view_beside view_orders (λ l. l)))
        (depth_beside depth_of_part (λ o. depth_of_orders o.0)) c conditions
        → IsKept view_origin depth_of_origin (origin_of table c) result }
{
    held!(conditions, (filter, (order, limit)) => Some(FromClause { table, filter, order, limit }))
}

/// The FROM part of a SELECT of aggregates.
pub fn plain_from(
    alloc: Global,
    table: Bytes,
    filter: Kept<Option<Boxed<Expr>>>,
) -> Kept<Option<FromClause>>
    ensures { (w : Part) → IsKept view_part depth_of_part w filter
        → IsKept view_origin depth_of_origin (tree.from_table table w tree.no_order None) result }
{
    held!(filter, filter => Some(FromClause {
        table,
        filter,
        order: List::new(alloc),
        limit: None,
    }))
}

/// No FROM part.
pub fn no_origin() -> Kept<Option<FromClause>>
    ensures { IsKept view_origin depth_of_origin tree.no_origin result }
{
    Some(Levelled {
        part: None,
        levels: 0,
    })
}

/// A SELECT.
pub fn select(
    alloc: Global,
    what: Kept<Selection>,
    from: Kept<Option<FromClause>>,
) -> Result<Kept<Boxed<Select>>, NoMemory>
    ensures { IfOk result (λ k. (s : Selected) (o : Origin)
        → IsKept view_selected depth_of_selected s what → IsKept view_origin depth_of_origin o from
        → IsKept view_query depth_of_query (tree.query s o) k) }
{
    node!(alloc, above(beside(what, from)), (what, from) => Select { what, from })
}
