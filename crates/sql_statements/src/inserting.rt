//! INSERT and REPLACE.
ghost use Rattle.std.specs.Prelude.{◌≡◌, []};
ghost use Rattle.sql_tree.specs.StatementView.{view_rows, view_supply};
ghost use Rattle.changed_rows.specs.sql_meaning.Changing.{nothing_inserted};
ghost use Rattle.exec_state.specs.Stage.{EndsAsBy, LeadsOn, scene_of};
ghost use Rattle.changed_rows.specs.sql_evaluation.Seen.{Evaluates, LeadsAlways, world_of};
ghost use Rattle.changed_rows.specs.Changed.{StandsAt, inserting_of, manner_of};
ghost use Rattle.sql_statements.specs.Changed.{insert_in, lists_in, rows_in, supply_in};
ghost use Rattle.sql_statements.specs.Did.{did_of};

use crate::columns::given_places;
use crate::did::{Did, inserting};
use crate::target::find_target;
use auto_inc::StmtSeq;
use changed_rows::sql_evaluation::{Around, Views, rows_of_query, values};
use changed_rows::{ChangedTable, Executor, Inserting, Insertion, Manner, insert_row};
use exec_state::Stage;
use sharing::Shared;
use sql_tree::{Expr, Source};
use std::alloc::Global;
use val_types::{Bytes, Duplicate, List, Row, SqlRefusal, Value};

/// An INSERT before its first row.
fn nothing_yet() -> Inserting
    ensures { inserting_of result ≡ nothing_inserted }
{
    Inserting {
        sequence: StmtSeq::new(),
        affected: 0,
        last_id: None,
    }
}

/// Inserts the rows of VALUES: each list is evaluated behind the insert of the one before.
#[tactic(auto, using(exec_state::proofs::Leading::leading, crate::proofs::Aimed::standing, crate::proofs::Inserts::listing))]
fn insert_lists<V: Fn(&mut Stage, &Expr, &Views) -> Result<Value, SqlRefusal>, E: Executor>(
    evaluate: &V,
    table: &ChangedTable<'_, E>,
    insertion: &Insertion<'_>,
    stage: &mut Stage,
    lists: &[List<Expr>],
    views: &Views,
) -> Result<Inserting, SqlRefusal>
    requires callable { V.IsAlwaysCallable evaluate.now }
    requires gives { Evaluates (V.post evaluate.now) table.now.around.now }
    requires leads { LeadsAlways (V.post evaluate.now) }
    requires serves { E.serves table.now.executor.now (world_of table.now.around.now).below }
    requires stands { StandsAt table.now.at table.now.definition.now stage.old }
    requires none { views.now ≡ [] }
    ensures gives { EndsAsBy inserting_of result (scene_of stage.new) (lists_in table.now.around.now insertion.now.forced table.now.definition.now insertion.now.places.now (manner_of insertion.now.manner) nothing_inserted (view_rows lists.now) (scene_of stage.old)) }
    ensures leads { LeadsOn stage.old stage.new }
{
    let mut so_far = nothing_yet();
    for list in lists {
        let values = values(table.alloc, evaluate, table.around, stage, list, views)?;
        so_far = insert_row(table, insertion, stage, so_far, values)?;
    }
    Ok(so_far)
}

/// Inserts rows that were read before.
#[tactic(auto, using(exec_state::proofs::Leading::leading, crate::proofs::Aimed::standing, crate::proofs::Inserts::reading))]
fn insert_rows<E: Executor>(
    table: &ChangedTable<'_, E>,
    insertion: &Insertion<'_>,
    stage: &mut Stage,
    rows: &[Shared<Row>],
) -> Result<Inserting, SqlRefusal>
    requires serves { E.serves table.now.executor.now (world_of table.now.around.now).below }
    requires stands { StandsAt table.now.at table.now.definition.now stage.old }
    ensures gives { EndsAsBy inserting_of result (scene_of stage.new) (rows_in table.now.around.now insertion.now.forced table.now.definition.now insertion.now.places.now (manner_of insertion.now.manner) nothing_inserted rows.now (scene_of stage.old)) }
    ensures leads { LeadsOn stage.old stage.new }
{
    let mut so_far = nothing_yet();
    for row in rows {
        let values = row.get().duplicate(table.alloc)?;
        so_far = insert_row(table, insertion, stage, so_far, values)?;
    }
    Ok(so_far)
}

/// Inserts the rows of VALUES, or those of a SELECT, which are all read before the first is inserted.
#[tactic(auto, using(exec_state::proofs::Leading::leading, crate::proofs::Aimed::standing, crate::proofs::Inserts::supplying))]
fn insert_all<V: Fn(&mut Stage, &Expr, &Views) -> Result<Value, SqlRefusal>, E: Executor>(
    evaluate: &V,
    table: &ChangedTable<'_, E>,
    insertion: &Insertion<'_>,
    stage: &mut Stage,
    source: &Source,
) -> Result<Inserting, SqlRefusal>
    requires callable { V.IsAlwaysCallable evaluate.now }
    requires gives { Evaluates (V.post evaluate.now) table.now.around.now }
    requires leads { LeadsAlways (V.post evaluate.now) }
    requires serves { E.serves table.now.executor.now (world_of table.now.around.now).below }
    requires stands { StandsAt table.now.at table.now.definition.now stage.old }
    ensures gives { EndsAsBy inserting_of result (scene_of stage.new) (supply_in table.now.around.now insertion.now.forced table.now.definition.now insertion.now.places.now (manner_of insertion.now.manner) (view_supply source.now) (scene_of stage.old)) }
    ensures leads { LeadsOn stage.old stage.new }
{
    match source {
        Source::Rows(lists) => {
            let views = Views::new(table.alloc);
            insert_lists(evaluate, table, insertion, stage, lists.as_slice(), &views)
        }
        Source::Select(select) => {
            let views = Views::new(table.alloc);
            let rows = rows_of_query(table.alloc, evaluate, table.around, stage, select, &views)?;
            insert_rows(table, insertion, stage, rows.as_slice())
        }
    }
}

/// INSERT and REPLACE: the rows of a source put into the columns that are named, all where none are.
#[tactic(auto, using(exec_state::proofs::Leading::leading, crate::proofs::Aimed::standing, crate::proofs::Inserts::insert))]
pub(crate) fn insert<V: Fn(&mut Stage, &Expr, &Views) -> Result<Value, SqlRefusal>, E: Executor>(
    alloc: Global,
    evaluate: &V,
    executor: &E,
    around: &Around<'_>,
    forced: Option<i64>,
    stage: &mut Stage,
    table: &Bytes,
    names: &Option<List<Bytes>>,
    source: &Source,
    manner: Manner<'_>,
) -> Result<Did, SqlRefusal>
    requires callable { V.IsAlwaysCallable evaluate.now }
    requires gives { Evaluates (V.post evaluate.now) around.now }
    requires leads { LeadsAlways (V.post evaluate.now) }
    requires serves { E.serves executor.now (world_of around.now).below }
    ensures gives { EndsAsBy did_of result (scene_of stage.new) (insert_in around.now forced table.now names.now (view_supply source.now) (manner_of manner.entry) (scene_of stage.old)) }
    ensures leads { LeadsOn stage.old stage.new }
{
    let target = find_target(stage, table)?;
    let places = given_places(alloc, target.definition.get(), names)?;
    let table = ChangedTable {
        alloc,
        executor,
        around,
        at: target.at,
        definition: &target.definition,
    };
    let insertion = Insertion {
        forced,
        places: places.as_slice(),
        manner,
    };
    let so_far = insert_all(evaluate, &table, &insertion, stage, source)?;
    Ok(inserting(&so_far))
}
