//! Ranks: how early an error comes in the order of checks.
ghost use Rattle.std.specs.Prelude.{◌≡◌, map};
ghost use Rattle.std.specs.List.{list_any};
ghost use Rattle.sql_tree.specs.declared.statements.Parameter.{Parameter};
ghost use Rattle.catalog_create_table.specs.catalog_rules.Creating.{is_ill_type};
ghost use Rattle.catalog_create_program.specs.BodyRanks.{allowed_rank, type_rank, variable_rank};
ghost use Rattle.catalog_create_program.specs.Refusing.{code_by, trigger_code};

use catalog_create_table::catalog_checks::is_session_variable;
use catalog_create_table::is_ill_type;
use sql_tree::{Parameter, SqlType};
use val_types::{Bytes, List, SqlError};

/// SET of a name that is no variable (1193).
pub(crate) const UNKNOWN: u8 = 0;
/// What is not allowed in such a body (30005).
pub(crate) const NOT_ALLOWED: u8 = 1;
/// A type of no size, or of too great a one (30009).
pub(crate) const ILL_TYPE: u8 = 2;
/// No error.
pub(crate) const NOTHING: u8 = 3;

/// What refuses something, unless it is allowed.
pub(crate) fn unless_allowed(is_allowed: bool) -> u8
    ensures { result ≡ allowed_rank is_allowed }
{
    if is_allowed { NOTHING } else { NOT_ALLOWED }
}

/// What refuses SET of a variable of the session: all do.
pub(crate) fn variable_rank(name: &Bytes) -> u8
    ensures { result ≡ variable_rank name.now }
{
    if is_session_variable(name) {
        NOT_ALLOWED
    } else {
        UNKNOWN
    }
}

/// What refuses a type.
pub(crate) fn type_rank(kind: SqlType) -> u8
    ensures { result ≡ type_rank kind }
{
    if is_ill_type(kind) { ILL_TYPE } else { NOTHING }
}

/// Whether a parameter has a type of no size.
pub(crate) fn has_ill_type(parameters: &List<Parameter>) -> bool
    ensures { result ≡ list_any is_ill_type (map (λ (p : Parameter). p.kind) parameters.now) }
{
    for parameter in parameters.as_slice() {
        if is_ill_type(parameter.kind) {
            return true;
        }
    }
    false
}

/// The error of a rank, or 30009 where there are programs enough.
pub(crate) fn code_by(rank: u8, is_full: bool) -> Option<SqlError>
    ensures { result ≡ code_by rank is_full }
{
    if rank == UNKNOWN {
        Some(1193)
    } else if rank == NOT_ALLOWED {
        Some(30005)
    } else if rank == ILL_TYPE || is_full {
        Some(30009)
    } else {
        None
    }
}

/// The same of a trigger, whose table may have one for the same.
pub(crate) fn trigger_code(rank: u8, is_taken: bool, is_full: bool) -> Option<SqlError>
    ensures { result ≡ trigger_code rank is_taken is_full }
{
    if rank == UNKNOWN {
        Some(1193)
    } else if is_taken {
        Some(30005)
    } else {
        code_by(rank, is_full)
    }
}
