//! The table that a statement changes, looked up once by its name.
ghost use Rattle.std.specs.Prelude.{IfOk};
ghost use Rattle.sql_tree.specs.View.{view_part};
ghost use Rattle.sql_statements.specs.Changed.{ArePicked, IsTarget, TargetFound};

use changed_rows::sql_evaluation::where_candidates::candidates;
use changed_rows::sql_evaluation::{Around, outside_of};
use exec_state::Stage;
use sharing::Shared;
use sql_tree::Expr;
use std::alloc::Global;
use val_types::{Bytes, List, NoMemory, Row, SqlError, SqlRefusal, TableDef};

/// A name that is no table's.
const NO_SUCH_TABLE: SqlError = 1146;

/// Where a table stands, and its definition.
#[derive(Drop)]
pub(crate) struct Target {
    pub(crate) at: usize,
    pub(crate) definition: Shared<TableDef>,
}

/// The table of a name; 1146 where there is none.
#[tactic(auto)]
pub(crate) fn find_target(stage: &Stage, name: &Bytes) -> Result<Target, SqlRefusal>
    ensures { TargetFound result name.now stage.now }
{
    let Some(at) = stage.tables.place(name) else {
        return Err(SqlRefusal::Sql(NO_SUCH_TABLE));
    };
    let Some(definition) = stage.tables.shared_definition(at) else {
        return Err(SqlRefusal::Sql(NO_SUCH_TABLE));
    };
    let definition = definition.share()?;
    Ok(Target { at, definition })
}

/// The rows of it that a WHERE has to look at, without a copy.
#[tactic(auto, using(crate::proofs::Picked::picking))]
pub(crate) fn rows_there(
    alloc: Global,
    around: &Around<'_>,
    stage: &Stage,
    name: &Bytes,
    target: &Target,
    filter: &Option<Expr>,
) -> Result<List<Shared<Row>>, NoMemory>
    requires { IsTarget target.now name.now stage.now }
    ensures { IfOk result (λ rows. ArePicked around.now name.now target.now.definition (view_part filter.now) stage.now rows) }
{
    candidates(
        alloc,
        &stage.tables,
        &outside_of(around),
        target.at,
        target.definition.get(),
        filter,
    )
}
