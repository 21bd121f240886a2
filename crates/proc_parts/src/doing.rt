//! The DO over expressions, by which a runner is asked for their values.
ghost use Rattle.std.specs.Prelude.{◌≡◌, IfOk};
ghost use Rattle.sql_tree.specs.Statement.{evaluate};
ghost use Rattle.sql_tree.specs.StatementView.{view, view_assignments};
ghost use Rattle.sql_tree.specs.View.{view_tree, view_trees};
ghost use Rattle.name_const.specs.sql_meaning.Within.{do_one, values_assigned};

use sql_tree::{Assignment, Expr, Stmt};
use std::alloc::Global;
use tree_copies::{copy_expr, copy_exprs};
use val_types::{Boxed, List, NoMemory};

/// The DO over some expressions, on the heap.
fn do_over(alloc: Global, list: List<Expr>) -> Result<Boxed<Stmt>, NoMemory>
    ensures { IfOk result (λ s. view s ≡ evaluate (view_trees list)) }
{
    Boxed::new(alloc, Stmt::Do(list))
}

/// The DO over copies of some expressions.
pub(crate) fn do_all(alloc: Global, list: &List<Expr>) -> Result<Boxed<Stmt>, NoMemory>
    ensures { IfOk result (λ s. view s ≡ evaluate (view_trees list.now)) }
{
    do_over(alloc, copy_exprs(alloc, list)?)
}

/// The DO over a copy of one expression.
#[tactic(auto, using(crate::proofs::Asked::alone))]
pub(crate) fn do_one(alloc: Global, e: &Expr) -> Result<Boxed<Stmt>, NoMemory>
    ensures { IfOk result (λ s. view s ≡ do_one (view_tree e.now)) }
{
    let mut list = List::new(alloc);
    list.push(copy_expr(alloc, e)?)?;
    do_over(alloc, list)
}

/// The DO over copies of the expressions of some assignments.
#[tactic(auto, using(crate::proofs::Asked::assigned))]
pub(crate) fn do_assigned(
    alloc: Global,
    assignments: &List<Assignment>,
) -> Result<Boxed<Stmt>, NoMemory>
    ensures { IfOk result (λ s. view s ≡ evaluate (values_assigned (view_assignments assignments.now))) }
{
    let mut list = List::with_capacity(alloc, assignments.len())?;
    for assignment in assignments.as_slice() {
        list.push(copy_expr(alloc, &assignment.value)?)?;
    }
    do_over(alloc, list)
}
