//! A statement of a procedure as it is logged.
ghost use Rattle.std.specs.Prelude.{◌≡◌, IfOk};
ghost use Rattle.sql_tree.specs.StatementView.{view};
ghost use Rattle.sql_reach.specs.Closing.{closed};
ghost use Rattle.name_const.specs.Refusing.{Closes};

use crate::statements::close_stmt;
use name_const_checks::check_closing;
use sql_locals::Locals;
use sql_tree::Stmt;
use std::alloc::Global;
use val_types::{Boxed, NoMemory, SqlRefusal};

/// A statement of a procedure with its locals closed in, as it is logged: NAME_CONST where a local hides a
/// name, and the number itself in a LIMIT. It is refused as [`check_closing`] says.
pub fn close_over(alloc: Global, s: &Stmt, locals: &Locals) -> Result<Stmt, SqlRefusal>
    ensures { Closes result (view s.now) locals.now }
{
    check_closing(alloc, s, locals)?;
    Ok(close_stmt(alloc, locals, s)?)
}

/// A statement with its locals closed in, on the heap. It is dropped here, so that no crate that has one made has a function for
/// each type of a tree.
pub struct Closed {
    pub statement: Boxed<Stmt>,
}

impl Drop for Closed {
    fn drop(self) {
        let Closed { statement } = self;
        drop(statement);
    }
}

/// A statement with locals closed in, as [`close_stmt`], on the heap.
pub fn closed_over(alloc: Global, s: &Stmt, locals: &Locals) -> Result<Closed, NoMemory>
    ensures { IfOk result (λ c. view c.statement ≡ closed (view s.now) locals.now) }
{
    let statement = Boxed::new(alloc, close_stmt(alloc, locals, s)?)?;
    Ok(Closed { statement })
}
