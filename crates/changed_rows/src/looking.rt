//! Rows that have a key of another one.
#![tactic(auto)]

ghost use Rattle.std.specs.Prelude.{◌≡◌, false, true, None, Some, IfOk};
ghost use Rattle.std.specs.Option.{option_copied};
ghost use Rattle.table_rules.specs.Stored.{has_key_in_way};
ghost use Rattle.sql_evaluation.specs.sql_meaning.Scenes.{done};
ghost use Rattle.sql_evaluation.specs.exec_state.Stage.{scene_of};
ghost use Rattle.changed_rows.specs.Changed.{StandsAt};
ghost use Rattle.changed_rows.specs.Inserted.{InWay, found_by, way_of};

use sharing::Shared;
use sql_evaluation::exec_state::Stage;
use std::alloc::Global;
use val_types::{Duplicate, NoMemory, Row, TableDef};

/// A copy of a row that others may hold.
fn copied(alloc: Global, row: Option<&Row>) -> Result<Option<Shared<Row>>, NoMemory>
    ensures { IfOk result (λ copy. copy ≡ option_copied row.entry) }
{
    match row {
        Some(row) => Ok(Some(Shared::new(alloc, row.duplicate(alloc)?)?)),
        None => Ok(None),
    }
}

/// The first row that has the key of a number in common with a row.
pub(crate) fn row_on_key(
    alloc: Global,
    stage: &Stage,
    at: usize,
    definition: &Shared<TableDef>,
    row: &Row,
    which: usize,
) -> Result<Option<Shared<Row>>, NoMemory>
    requires { StandsAt at definition.now stage.now }
    ensures { IfOk result (λ found. found_by definition.now (has_key_in_way definition.now row.now which) (scene_of stage.now) ≡ done found (scene_of stage.now)) }
{
    let _ = definition;
    copied(alloc, stage.tables.row_on_key(at, row, which))
}

/// The first row that has the first key in the way of a row.
pub(crate) fn row_in_way(
    alloc: Global,
    stage: &Stage,
    at: usize,
    definition: &Shared<TableDef>,
    row: &Row,
) -> Result<Option<Shared<Row>>, NoMemory>
    requires { StandsAt at definition.now stage.now }
    ensures { IfOk result (λ found. way_of definition.now row.now (scene_of stage.now) ≡ done found (scene_of stage.now)) }
{
    let _ = definition;
    copied(alloc, stage.tables.row_in_way(at, row))
}

/// The same where there is one.
pub(crate) fn row_met(
    alloc: Global,
    stage: &Stage,
    at: usize,
    definition: &Shared<TableDef>,
    row: &Row,
) -> Result<Shared<Row>, NoMemory>
    requires stands { StandsAt at definition.now stage.now }
    requires in_way { InWay definition.now row.now (scene_of stage.now) }
    ensures { IfOk result (λ other. way_of definition.now row.now (scene_of stage.now) ≡ done (Some other) (scene_of stage.now)) }
{
    match row_in_way(alloc, stage, at, definition, row)? {
        Some(other) => Ok(other),
        None => unreachable!(),
    }
}

/// Whether a row has a key in the way of a row.
pub(crate) fn is_in_way(stage: &Stage, at: usize, definition: &Shared<TableDef>, row: &Row) -> bool
    requires { StandsAt at definition.now stage.now }
    ensures clear { result ≡ false → way_of definition.now row.now (scene_of stage.now) ≡ done None (scene_of stage.now) }
    ensures taken { result ≡ true → InWay definition.now row.now (scene_of stage.now) }
{
    let _ = definition;
    stage.tables.row_in_way(at, row).is_some()
}
