//! What refuses the body of a stored program, in one walk.
ghost use Rattle.std.specs.Prelude.{◌≡◌};
ghost use Rattle.sql_tree.specs.StatementView.{view, view_assignments, view_branches, view_declarations, view_otherwise, view_statements};
ghost use Rattle.catalog_create_program.specs.BodyRanks.{assignments_rank, body_rank, branches_rank, declared_rank, otherwise_rank, steps_rank, target_rank};
ghost use Rattle.catalog_create_program.specs.Kinds.{kind_of};
ghost use Rattle.catalog_create_program.specs.Scopes.{names_of};

use crate::kinds::Kind;
use crate::ranks::{NOT_ALLOWED, NOTHING, type_rank, unless_allowed, variable_rank};
use crate::scope::{Names, has_name};
use sql_tree::{Assignment, Branch, Declaration, Stmt, Target};
use val_types::List;

/// What refuses the left side of an assignment.
fn target_rank(kind: Kind, names: &Names<'_>, target: &Target) -> u8
    ensures { result ≡ target_rank (kind_of kind) (names_of names.now) target.now }
{
    match target {
        Target::User(_) => unless_allowed(kind.is_procedure()),
        Target::New(_) => unless_allowed(kind.writes_new()),
        Target::Plain(name) => {
            if has_name(names, name) {
                NOTHING
            } else {
                variable_rank(name)
            }
        }
        Target::System(name) => variable_rank(name),
    }
}

#[tactic(auto, using(crate::proofs::Most::assignments_most))]
fn assignments(kind: Kind, names: &Names<'_>, list: &List<Assignment>) -> u8
    ensures { result ≡ assignments_rank (kind_of kind) (names_of names.now) (view_assignments list.now) }
{
    let mut rank = NOTHING;
    for assignment in list.as_slice() {
        rank = target_rank(kind, names, &assignment.target).min(rank);
    }
    rank
}

#[tactic(auto, using(crate::proofs::Most::declared_most))]
fn declared(list: &List<Declaration>) -> u8
    ensures { result ≡ declared_rank (view_declarations list.now) }
{
    let mut rank = NOTHING;
    for declaration in list.as_slice() {
        rank = type_rank(declaration.kind).min(rank);
    }
    rank
}

/// What refuses a statement of a body, where some locals are in scope.
#[cycle(walk)]
pub(crate) fn body(kind: Kind, names: &Names<'_>, s: &Stmt) -> u8
    ensures { result ≡ body_rank (kind_of kind) (names_of names.now) (view s.now) }
{
    match s {
        Stmt::CreateTable(_) | Stmt::CreateFunction(_) | Stmt::CreateProcedure(_) => NOT_ALLOWED,
        Stmt::CreateTrigger(_) | Stmt::DropTable(_) | Stmt::DropFunction(_) => NOT_ALLOWED,
        Stmt::DropProcedure(_) | Stmt::DropTrigger(_) | Stmt::Truncate(_) => NOT_ALLOWED,
        Stmt::Begin | Stmt::Commit | Stmt::Rollback => NOT_ALLOWED,
        Stmt::Savepoint(_) | Stmt::RollbackTo(_) | Stmt::ReleaseSavepoint(_) => NOT_ALLOWED,
        Stmt::Insert(_) | Stmt::Replace(_) | Stmt::Update(_) | Stmt::Delete(_) => NOTHING,
        Stmt::Select(_) => unless_allowed(kind.is_procedure()),
        Stmt::Do(_) => NOTHING,
        Stmt::Set(list) => assignments(kind, names, list),
        Stmt::Call { .. } => unless_allowed(kind.is_procedure()),
        Stmt::Block { declarations, body } => {
            let inner = Names::Declared(declarations, &*names);
            declared(declarations).min(steps(kind, &inner, body))
        }
        Stmt::If { arms, otherwise } => {
            branches(kind, names, arms).min(otherwise_rank(kind, names, otherwise))
        }
        Stmt::While { steps: body, .. } => steps(kind, names, body),
        Stmt::Return(_) => unless_allowed(kind.returns()),
    }
}

#[cycle(walk)]
#[tactic(auto, using(crate::proofs::Most::steps_most))]
fn steps(kind: Kind, names: &Names<'_>, list: &List<Stmt>) -> u8
    ensures { result ≡ steps_rank (kind_of kind) (names_of names.now) (view_statements list.now) }
{
    let mut rank = NOTHING;
    for step in list.as_slice() {
        rank = body(kind, names, step).min(rank);
    }
    rank
}

#[cycle(walk)]
#[tactic(auto, using(crate::proofs::Most::branches_most))]
fn branches(kind: Kind, names: &Names<'_>, list: &List<Branch>) -> u8
    ensures { result ≡ branches_rank (kind_of kind) (names_of names.now) (view_branches list.now) }
{
    let mut rank = NOTHING;
    for branch in list.as_slice() {
        rank = steps(kind, names, &branch.steps).min(rank);
    }
    rank
}

#[cycle(walk)]
fn otherwise_rank(kind: Kind, names: &Names<'_>, otherwise: &Option<List<Stmt>>) -> u8
    ensures { result ≡ otherwise_rank (kind_of kind) (names_of names.now) (view_otherwise otherwise.now) }
{
    match otherwise {
        None => NOTHING,
        Some(list) => steps(kind, names, list),
    }
}
