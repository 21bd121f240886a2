//! The names of the locals in scope, kept on the stack.
ghost use Rattle.std.specs.Prelude.{◌≡◌, map};
ghost use Rattle.sql_tree.specs.StatementView.{view_declarations};
ghost use Rattle.sql_tree.specs.declared.statements.Parameter.{Parameter};
ghost use Rattle.catalog_create_table.specs.catalog_rules.Names.{is_among};
ghost use Rattle.catalog_create_table.specs.catalog_rules.Bodies.{declared_names};
ghost use Rattle.catalog_create_program.specs.Scopes.{names_of};

use catalog_create_table::catalog_checks::is_among;
use sql_tree::{Declaration, Parameter};
use val_types::{Bytes, List};

/// Names in scope, the innermost block first.
#[derive(Clone, Copy)]
pub enum Names<'a> {
    Nothing,
    Parameters(&'a List<Parameter>),
    Declared(&'a List<Declaration>, &'a Names<'a>),
}

/// Whether a parameter has a name.
fn is_parameter(parameters: &List<Parameter>, name: &Bytes) -> bool
    ensures { result ≡ is_among (map (λ (p : Parameter). p.name) parameters.now) name.now }
{
    for parameter in parameters.as_slice() {
        if *name == parameter.name {
            return true;
        }
    }
    false
}

/// Whether a DECLARE has a name.
#[tactic(auto, using(crate::proofs::Among::among_append))]
fn is_declared(declarations: &List<Declaration>, name: &Bytes) -> bool
    ensures { result ≡ is_among (declared_names (view_declarations declarations.now)) name.now }
{
    for declaration in declarations.as_slice() {
        if is_among(declaration.names.as_slice(), name) {
            return true;
        }
    }
    false
}

/// Whether a local of a name is in scope.
#[tactic(auto, using(crate::proofs::Among::among_append))]
pub(crate) fn has_name(names: &Names<'_>, name: &Bytes) -> bool
    ensures { result ≡ is_among (names_of names.now) name.now }
{
    match names {
        Names::Nothing => false,
        Names::Parameters(parameters) => is_parameter(parameters, name),
        Names::Declared(declarations, outer) => {
            is_declared(declarations, name) || has_name(outer, name)
        }
    }
}
