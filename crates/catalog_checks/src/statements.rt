//! What refuses a statement, in one walk.
ghost use Rattle.std.specs.Prelude.{◌≡◌};
ghost use Rattle.sql_tree.specs.View.{view_part, view_orders};
ghost use Rattle.sql_tree.specs.StatementView.{view, view_rows, view_supply, view_sets, view_assignments, view_declarations, view_insert, view_replace, view_update, view_delete, view_statements, view_branches, view_otherwise};
ghost use Rattle.catalog_objects.specs.catalog_rules.Ranks.{part_rank, rows_rank, supply_rank, sets_rank, assignments_rank, declared_rank, changed_rank, statement_rank, steps_rank, branches_rank, otherwise_rank};
ghost use Rattle.catalog_objects.specs.catalog_rules.Nodes.{in_sight, no_sight};
ghost use Rattle.catalog_checks.specs.Asking.{asked_of, condition_rank, sight_of};

use crate::checks::{Checks, count_of};
use crate::expressions::{expr, exprs, order, select};
use crate::inserting::insert;
use crate::ranks::{NO_COLUMN, NO_TABLE, NOTHING, unless};
use crate::sight::{Sight, has_table, table_has_column};
use sql_tree::{
    Assignment, Branch, ColumnSet, Count, Declaration, DeleteStmt, Expr, InsertStmt, OrderItem,
    ReplaceStmt, Source, Stmt, UpdateStmt,
};
use val_types::{Bytes, List};

fn option(checks: &Checks<'_>, e: &Option<Expr>, sight: &Sight<'_>) -> u8
    ensures { result ≡ part_rank (asked_of checks.now) (view_part e.now) (sight_of sight.now) }
{
    match e {
        None => NOTHING,
        Some(e) => expr(checks, e, sight),
    }
}

#[tactic(auto, using(crate::proofs::Most::rows_most))]
fn rows(checks: &Checks<'_>, rows: &List<List<Expr>>) -> u8
    ensures { result ≡ rows_rank (asked_of checks.now) (view_rows rows.now) }
{
    let mut rank = NOTHING;
    for row in rows.as_slice() {
        rank = exprs(checks, row, &Sight::Nothing).min(rank);
    }
    rank
}

/// What refuses the rows of an INSERT or REPLACE: VALUES may not read its table.
fn supply(checks: &Checks<'_>, table: &Bytes, source: &Source) -> u8
    ensures { result ≡ supply_rank (asked_of checks.now) table.now (view_supply source.now) }
{
    match source {
        Source::Rows(list) => rows(&checks.changing(table), list),
        Source::Select(query) => select(checks, query, &Sight::Nothing),
    }
}

#[tactic(auto, using(crate::proofs::Most::sets_most))]
fn sets(checks: &Checks<'_>, table: &Bytes, list: &List<ColumnSet>, sight: &Sight<'_>) -> u8
    ensures { result ≡ sets_rank (asked_of checks.now) table.now (view_sets list.now) (sight_of sight.now) }
{
    let mut rank = NOTHING;
    for set in list.as_slice() {
        let column = unless(
            table_has_column(checks.objects, &set.column, table),
            NO_COLUMN,
        );
        rank = column.min(expr(checks, &set.value, sight)).min(rank);
    }
    rank
}

/// What refuses the items of an UPDATE, which see the row of its table.
fn row_sets(checks: &Checks<'_>, table: &Bytes, list: &List<ColumnSet>) -> u8
    ensures { result ≡ sets_rank (asked_of checks.now) table.now (view_sets list.now) (in_sight table.now no_sight) }
{
    sets(checks, table, list, &Sight::Only(table))
}

#[tactic(auto, using(crate::proofs::Most::assignments_most))]
fn assignments(checks: &Checks<'_>, list: &List<Assignment>) -> u8
    ensures { result ≡ assignments_rank (asked_of checks.now) (view_assignments list.now) }
{
    let mut rank = NOTHING;
    for assignment in list.as_slice() {
        rank = checks
            .assigned(&assignment.target)
            .min(expr(checks, &assignment.value, &Sight::Nothing))
            .min(rank);
    }
    rank
}

#[tactic(auto, using(crate::proofs::Most::declared_most))]
fn declared(checks: &Checks<'_>, list: &List<Declaration>) -> u8
    ensures { result ≡ declared_rank (asked_of checks.now) (view_declarations list.now) }
{
    let mut rank = NOTHING;
    for declaration in list.as_slice() {
        rank = option(checks, &declaration.preset, &Sight::Nothing).min(rank);
    }
    rank
}

/// What refuses the condition and the order of a change, which see the row of the table.
fn condition(
    checks: &Checks<'_>,
    table: &Bytes,
    filter: &Option<Expr>,
    items: &List<OrderItem>,
) -> u8
    ensures { result ≡ condition_rank table.now (view_part filter.now) (view_orders items.now) (asked_of checks.now) }
{
    let sight = Sight::Only(table);
    option(checks, filter, &sight).min(order(checks, items, &sight))
}

/// What refuses a change of the rows of a table that a condition lets through.
fn changed(
    checks: &Checks<'_>,
    table: &Bytes,
    filter: &Option<Expr>,
    items: &List<OrderItem>,
    limit: &Option<Count>,
) -> u8
    ensures { result ≡ changed_rank (asked_of checks.now) table.now (view_part filter.now) (view_orders items.now) limit.now }
{
    let rows = condition(&checks.changing(table), table, filter, items);
    unless(has_table(checks.objects, table), NO_TABLE).min(rows.min(checks.count_if(limit)))
}

fn insert_rank(checks: &Checks<'_>, i: &InsertStmt) -> u8
    ensures { result ≡ statement_rank (asked_of checks.now) (view_insert i.now) }
{
    let rest = supply(checks, &i.table, &i.source).min(sets(
        checks,
        &i.table,
        &i.update,
        &Sight::Update(&i.table),
    ));
    insert(checks, &i.table, &i.columns, &i.source).min(rest)
}

fn replace_rank(checks: &Checks<'_>, r: &ReplaceStmt) -> u8
    ensures { result ≡ statement_rank (asked_of checks.now) (view_replace r.now) }
{
    insert(checks, &r.table, &r.columns, &r.source).min(supply(checks, &r.table, &r.source))
}

fn update_rank(checks: &Checks<'_>, u: &UpdateStmt) -> u8
    ensures { result ≡ statement_rank (asked_of checks.now) (view_update u.now) }
{
    row_sets(&checks.changing(&u.table), &u.table, &u.sets).min(changed(
        checks, &u.table, &u.filter, &u.order, &u.limit,
    ))
}

fn delete_rank(checks: &Checks<'_>, d: &DeleteStmt) -> u8
    ensures { result ≡ statement_rank (asked_of checks.now) (view_delete d.now) }
{
    changed(checks, &d.table, &d.filter, &d.order, &d.limit)
}

/// What refuses a statement.
#[cycle(walk)]
pub(crate) fn statement(checks: &Checks<'_>, s: &Stmt) -> u8
    ensures { result ≡ statement_rank (asked_of checks.now) (view s.now) }
{
    match s {
        Stmt::CreateTable(_) | Stmt::CreateFunction(_) | Stmt::CreateProcedure(_) => NOTHING,
        Stmt::CreateTrigger(_) | Stmt::DropTable(_) | Stmt::DropFunction(_) => NOTHING,
        Stmt::DropProcedure(_) | Stmt::DropTrigger(_) | Stmt::Truncate(_) => NOTHING,
        Stmt::Begin | Stmt::Commit | Stmt::Rollback => NOTHING,
        Stmt::Savepoint(_) | Stmt::RollbackTo(_) | Stmt::ReleaseSavepoint(_) => NOTHING,
        Stmt::Insert(i) => insert_rank(checks, i),
        Stmt::Replace(r) => replace_rank(checks, r),
        Stmt::Update(u) => update_rank(checks, u),
        Stmt::Delete(d) => delete_rank(checks, d),
        Stmt::Select(query) => select(checks, query, &Sight::Nothing),
        Stmt::Do(list) => exprs(checks, list, &Sight::Nothing),
        Stmt::Set(list) => assignments(checks, list),
        Stmt::Call { name, arguments } => checks
            .procedure(name, count_of(arguments))
            .min(exprs(checks, arguments, &Sight::Nothing)),
        Stmt::Block { declarations, body } => {
            declared(checks, declarations).min(steps(checks, body))
        }
        Stmt::If { arms, otherwise } => {
            branches(checks, arms).min(otherwise_rank(checks, otherwise))
        }
        Stmt::While {
            condition,
            steps: body,
        } => { expr(checks, condition, &Sight::Nothing).min(steps(checks, body)) }
        Stmt::Return(e) => expr(checks, e, &Sight::Nothing),
    }
}

#[cycle(walk)]
#[tactic(auto, using(crate::proofs::Most::steps_most))]
fn steps(checks: &Checks<'_>, list: &List<Stmt>) -> u8
    ensures { result ≡ steps_rank (asked_of checks.now) (view_statements list.now) }
{
    let mut rank = NOTHING;
    for step in list.as_slice() {
        rank = statement(checks, step).min(rank);
    }
    rank
}

#[cycle(walk)]
#[tactic(auto, using(crate::proofs::Most::branches_most))]
fn branches(checks: &Checks<'_>, list: &List<Branch>) -> u8
    ensures { result ≡ branches_rank (asked_of checks.now) (view_branches list.now) }
{
    let mut rank = NOTHING;
    for branch in list.as_slice() {
        rank = expr(checks, &branch.condition, &Sight::Nothing)
            .min(steps(checks, &branch.steps))
            .min(rank);
    }
    rank
}

#[cycle(walk)]
fn otherwise_rank(checks: &Checks<'_>, otherwise: &Option<List<Stmt>>) -> u8
    ensures { result ≡ otherwise_rank (asked_of checks.now) (view_otherwise otherwise.now) }
{
    match otherwise {
        None => NOTHING,
        Some(list) => steps(checks, list),
    }
}
