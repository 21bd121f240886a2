//! What refuses the expressions and SELECTs of a statement, in one walk.
ghost use Rattle.std.specs.Prelude.{◌≡◌, min};
ghost use Rattle.sql_tree.specs.View.{view_tree, view_trees, view_arms, view_part, view_query, view_selected, view_aggregates, view_from, view_orders};
ghost use Rattle.catalog_objects.specs.catalog_rules.Ranks.{tree_rank, trees_rank, arms_rank, part_rank, query_rank, selected_rank, aggregates_rank, origin_rank, orders_rank};
ghost use Rattle.catalog_checks.specs.Asking.{asked_of, sight_of};

use crate::checks::{Checks, count_of, is_readable};
use crate::ranks::{NO_COLUMN, NO_VARIABLE, NOTHING, unless};
use crate::sight::{Sight, is_known_column, is_known_inserted, row_has_column};
use sql_tree::{Aggregate, Arm, Expr, FromClause, OrderItem, Select, Selection};
use val_types::{Boxed, List};

/// The rank of a part behind which nothing stands.
fn only(rank: u8) -> u8
    ensures { result ≡ min rank 10 }
{
    rank.min(NOTHING)
}

/// What refuses an expression.
#[cycle(walk)]
pub(crate) fn expr(checks: &Checks<'_>, e: &Expr, sight: &Sight<'_>) -> u8
    ensures { result ≡ tree_rank (asked_of checks.now) (view_tree e.now) (sight_of sight.now) }
{
    match e {
        Expr::Literal(_) | Expr::UserVariable(_) | Expr::NameConst(_, _) => NOTHING,
        Expr::Func0(_) => NOTHING,
        Expr::Name(name) => unless(checks.is_known(name, sight), NO_COLUMN),
        Expr::Column(table, column) => unless(
            is_known_column(checks.objects, sight, table, column),
            NO_COLUMN,
        ),
        Expr::NewColumn(column) => unless(row_has_column(column, checks.new_row), NO_COLUMN),
        Expr::OldColumn(column) => unless(row_has_column(column, checks.old_row), NO_COLUMN),
        Expr::Values(column) => unless(is_known_inserted(checks.objects, sight, column), NO_COLUMN),
        Expr::SystemVariable(name) => unless(is_readable(name), NO_VARIABLE),
        Expr::Unary(_, a) | Expr::FloorRand(a) => expr(checks, a.get(), sight),
        Expr::Binary(_, a, b) => expr(checks, a.get(), sight).min(expr(checks, b.get(), sight)),
        Expr::Func1(_, a) => only(expr(checks, a.get(), sight)),
        Expr::Func2(_, a, b) => {
            expr(checks, a.get(), sight).min(only(expr(checks, b.get(), sight)))
        }
        Expr::Func3(_, a, b, c) => {
            let rest = expr(checks, b.get(), sight).min(only(expr(checks, c.get(), sight)));
            expr(checks, a.get(), sight).min(rest)
        }
        Expr::In { left, items, .. } => {
            expr(checks, left.get(), sight).min(exprs(checks, items, sight))
        }
        Expr::Case {
            arms: choices,
            otherwise,
        } => { arms(checks, choices, sight).min(part(checks, otherwise, sight)) }
        Expr::Subquery(query) | Expr::Exists(query) => select(checks, query.get(), sight),
        Expr::Call { name, arguments } => checks
            .function(name, count_of(arguments))
            .min(exprs(checks, arguments, sight)),
        Expr::FuncN(_, arguments) => exprs(checks, arguments, sight),
    }
}

/// What refuses some expressions.
#[cycle(walk)]
#[tactic(auto, using(crate::proofs::Most::trees_most))]
pub(crate) fn exprs(checks: &Checks<'_>, list: &List<Expr>, sight: &Sight<'_>) -> u8
    ensures { result ≡ trees_rank (asked_of checks.now) (view_trees list.now) (sight_of sight.now) }
{
    let mut rank = NOTHING;
    for e in list.as_slice() {
        rank = expr(checks, e, sight).min(rank);
    }
    rank
}

#[cycle(walk)]
#[tactic(auto, using(crate::proofs::Most::arms_most))]
fn arms(checks: &Checks<'_>, list: &List<Arm>, sight: &Sight<'_>) -> u8
    ensures { result ≡ arms_rank (asked_of checks.now) (view_arms list.now) (sight_of sight.now) }
{
    let mut rank = NOTHING;
    for arm in list.as_slice() {
        rank = expr(checks, &arm.condition, sight)
            .min(expr(checks, &arm.value, sight))
            .min(rank);
    }
    rank
}

#[cycle(walk)]
fn part(checks: &Checks<'_>, part: &Option<Boxed<Expr>>, sight: &Sight<'_>) -> u8
    ensures { result ≡ part_rank (asked_of checks.now) (view_part part.now) (sight_of sight.now) }
{
    match part {
        None => NOTHING,
        Some(e) => expr(checks, e.get(), sight),
    }
}

/// What refuses a SELECT, whose items see the row of its table.
#[cycle(walk)]
pub(crate) fn select(checks: &Checks<'_>, query: &Select, sight: &Sight<'_>) -> u8
    ensures { result ≡ query_rank (asked_of checks.now) (view_query query.now) (sight_of sight.now) }
{
    match &query.from {
        None => only(selection(checks, &query.what, sight)),
        Some(from) => selection(checks, &query.what, &Sight::Row(&from.table, &*sight)).min(origin(
            checks, from, sight,
        )),
    }
}

#[cycle(walk)]
fn selection(checks: &Checks<'_>, what: &Selection, sight: &Sight<'_>) -> u8
    ensures { result ≡ selected_rank (asked_of checks.now) (view_selected what.now) (sight_of sight.now) }
{
    match what {
        Selection::Items(items) => exprs(checks, items, sight),
        Selection::All => NOTHING,
        Selection::Aggregates(list) => aggregates(checks, list, sight),
    }
}

#[cycle(walk)]
#[tactic(auto, using(crate::proofs::Most::aggregates_most))]
fn aggregates(checks: &Checks<'_>, list: &List<Aggregate>, sight: &Sight<'_>) -> u8
    ensures { result ≡ aggregates_rank (asked_of checks.now) (view_aggregates list.now) (sight_of sight.now) }
{
    let mut rank = NOTHING;
    for aggregate in list.as_slice() {
        if let Aggregate::Of(_, e) = aggregate {
            rank = expr(checks, e.get(), sight).min(rank);
        }
    }
    rank
}

/// What refuses a FROM, where so much is in view outside.
#[cycle(walk)]
fn origin(checks: &Checks<'_>, from: &FromClause, sight: &Sight<'_>) -> u8
    ensures { result ≡ origin_rank (asked_of checks.now) (view_from from.now) (sight_of sight.now) }
{
    let inside = Sight::Row(&from.table, &*sight);
    let parts = part(checks, &from.filter, &inside).min(order(checks, &from.order, &inside));
    checks
        .read(&from.table)
        .min(parts.min(checks.limit(&from.limit)))
}

/// What refuses an ORDER BY.
#[cycle(walk)]
#[tactic(auto, using(crate::proofs::Most::orders_most))]
pub(crate) fn order(checks: &Checks<'_>, list: &List<OrderItem>, sight: &Sight<'_>) -> u8
    ensures { result ≡ orders_rank (asked_of checks.now) (view_orders list.now) (sight_of sight.now) }
{
    let mut rank = NOTHING;
    for item in list.as_slice() {
        rank = expr(checks, &item.by, sight).min(rank);
    }
    rank
}
