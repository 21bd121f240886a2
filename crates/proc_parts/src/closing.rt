//! Locals closed into what is run, and what refuses that.
ghost use Rattle.std.specs.Prelude.{◌≡◌, true, IfOk};
ghost use Rattle.sql_tree.specs.StatementView.{view};
ghost use Rattle.name_const.specs.Refusing.{Closes};
ghost use Rattle.name_const.specs.proc_model.Closing.{closing_refusal};
ghost use Rattle.name_const.specs.proc_model.Procedures.{is_plain};
ghost use Rattle.proc_parts.specs.Calls.{Passes};

use sql_locals::Locals;
use sql_tree::Stmt;
use std::alloc::Global;
use val_types::{Boxed, SqlRefusal};

/// What refuses to close a statement: 1153, 1327 or 30002.
#[tactic(auto, using(crate::proofs::Closed::passing))]
pub(crate) fn check_closing(alloc: Global, s: &Stmt, locals: &Locals) -> Result<(), SqlRefusal>
    ensures passes { Passes result (closing_refusal (view s.now) locals.now) }
{
    name_const::name_const_checks::check_closing(alloc, s, locals)
}

/// A change, a SELECT or a DO with its locals closed in, on the heap; another statement of the same kind.
#[tactic(auto, using(crate::proofs::Closed::closing))]
pub(crate) fn close_over(
    alloc: Global,
    s: &Stmt,
    locals: &Locals,
) -> Result<Boxed<Stmt>, SqlRefusal>
    requires plain { is_plain (view s.now) ≡ true }
    ensures closes { Closes result (view s.now) locals.now }
    ensures plain { IfOk result (λ copy. is_plain (view copy) ≡ true) }
{
    let closed = name_const::close_over(alloc, s, locals)?;
    Ok(Boxed::new(alloc, closed)?)
}
