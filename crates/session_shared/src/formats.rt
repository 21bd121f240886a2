//! How what a statement changed is logged.
ghost use Rattle.std.specs.Prelude.{◌≡◌};
ghost use Rattle.prog_work.specs.catalog_objects.Keys.{objects_of};
ghost use Rattle.sql_tree.specs.StatementView.{view};
ghost use Rattle.session_model.specs.sql_reach.Reasons.{reasons};
ghost use Rattle.session_model.specs.Formats.{is_unsafe, logs_rows, warns};

use prog_work::catalog_objects::Objects;
use session_model::Format;
use sql_tree::Stmt;
use waiting_entries::binlog_items::unsafe_rules::reasons;

/// Whether what a statement changed is logged by its rows, and whether the statement is warned.
#[derive(Clone, Copy)]
pub struct HowLogged {
    pub rows: bool,
    pub warned: bool,
}

/// Whether there is a reason for which a statement is unsafe to log by its text.
#[tactic(auto, using(crate::proofs::Unsafe::by_reasons))]
fn is_unsafe(statement: &Stmt, objects: &Objects) -> bool
    ensures { result ≡ is_unsafe (reasons (objects_of objects.now) (view statement.now)) }
{
    !reasons(statement, objects).is_empty()
}

/// How what a statement changed is logged in a format. Where all is logged by rows, no reason is looked for.
#[tactic(auto, using(crate::proofs::Unsafe::by_reasons))]
pub fn how_logged(format: Format, statement: &Stmt, objects: &Objects) -> HowLogged
    ensures rows { result.rows ≡ logs_rows format (reasons (objects_of objects.now) (view statement.now)) }
    ensures warned { result.warned ≡ warns format (reasons (objects_of objects.now) (view statement.now)) }
{
    match format {
        Format::Row => HowLogged {
            rows: true,
            warned: false,
        },
        Format::Mixed => HowLogged {
            rows: is_unsafe(statement, objects),
            warned: false,
        },
        Format::Statement => HowLogged {
            rows: false,
            warned: is_unsafe(statement, objects),
        },
    }
}
