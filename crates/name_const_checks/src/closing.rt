//! What refuses to close a statement of a procedure.
ghost use Rattle.std.specs.Prelude.{◌≡◌, IfOk, map};
ghost use Rattle.std.specs.List.{list_any};
ghost use Rattle.sql_tree.specs.StatementView.{view};
ghost use Rattle.name_const_length.specs.catalog_rules.Nodes.{nodes_of};
ghost use Rattle.name_const_length.specs.sql_meaning.Running.{is_ill_limit};
ghost use Rattle.name_const_checks.specs.Refusing.{CanClose, numbered};
ghost use Rattle.proc_model.specs.Closing.{is_nameless, limit_refusal};

use name_const_length::closed_length;
use node_walk::{Ask, in_statement};
use sql_locals::{Local, Locals};
use sql_tree::Stmt;
use std::alloc::Global;
use val_types::{Duplicate, KINDS_MIXED, NoMemory, SqlError, SqlRefusal, TEXT_TOO_LONG, Value};

/// A LIMIT is a name that is no local variable (ER_SP_UNDECLARED_VAR).
const NO_LOCAL: SqlError = 1327;

/// A text of a statement has at most so many bytes.
const MOST_BYTES: u64 = 1_048_576;

/// The same local variables, each of which is a number.
fn numbered(alloc: Global, locals: &Locals) -> Result<Locals, NoMemory>
    ensures { IfOk result (λ numbers. numbers ≡ map numbered locals.now) }
{
    let mut numbers = Locals::new(alloc);
    for local in locals.as_slice() {
        let name = local.name.duplicate(alloc)?;
        numbers.push(Local {
            name,
            kind: local.kind,
            value: Value::Int(0),
        })?;
    }
    Ok(numbers)
}

/// Whether a LIMIT of a statement cannot be closed.
#[tactic(auto, using(crate::proofs::Limits::any_ill))]
fn has_ill_limit(s: &Stmt, locals: &Locals) -> bool
    ensures { result ≡ list_any (is_ill_limit locals.now) (nodes_of (view s.now)) }
{
    in_statement(&Ask::IllLimit(locals), s)
}

/// Whether a LIMIT of a statement is a name that is no local variable.
fn has_nameless_limit(alloc: Global, s: &Stmt, locals: &Locals) -> Result<bool, NoMemory>
    ensures { IfOk result (λ found. found ≡ list_any (is_nameless locals.now) (nodes_of (view s.now))) }
{
    let numbers = numbered(alloc, locals)?;
    Ok(has_ill_limit(s, &numbers))
}

/// The error of a LIMIT that cannot be closed, where a statement has one.
fn ill_limit(alloc: Global, s: &Stmt, locals: &Locals) -> Result<Option<SqlError>, NoMemory>
    ensures { IfOk result (λ error. error ≡ limit_refusal (view s.now) locals.now) }
{
    if !has_ill_limit(s, locals) {
        Ok(None)
    } else if has_nameless_limit(alloc, s, locals)? {
        Ok(Some(NO_LOCAL))
    } else {
        Ok(Some(KINDS_MIXED))
    }
}

/// What refuses to close a statement, without closing it: 1153 where the canonical text of the closed statement
/// is too long, else 1327 where a LIMIT is a name that is no local, else 30002 where a LIMIT is a local that is no
/// number from 0. Each local is one that a literal can say.
pub fn check_closing(alloc: Global, s: &Stmt, locals: &Locals) -> Result<(), SqlRefusal>
    ensures { CanClose result (view s.now) locals.now }
{
    if closed_length(alloc, s, locals)? > MOST_BYTES {
        return Err(SqlRefusal::Sql(TEXT_TOO_LONG));
    }
    if let Some(error) = ill_limit(alloc, s, locals)? {
        return Err(SqlRefusal::Sql(error));
    }
    locals.hold_literals();
    Ok(())
}
