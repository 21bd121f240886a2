//! Changes and DO in a body.
ghost use Rattle.std.specs.Prelude.{◌≡◌, None};
ghost use Rattle.sql_tree.specs.StatementView.{view};
ghost use Rattle.sql_statements.specs.sql_meaning.Running.{body_perform, frame_of, perform};
ghost use Rattle.exec_state.specs.Stage.{EndsAsBy, LeadsOn, scene_of};
ghost use Rattle.sql_evaluation.specs.Seen.{Calls, CallsLead, world_of};
ghost use Rattle.sql_statements.specs.changed_rows.Firing.{Fires, FiresLead};
ghost use Rattle.sql_statements.specs.Did.{did_of};
ghost use Rattle.stored_programs.specs.Bodies.{body_of, ended_at, world_with};

use crate::body::{Body, row_in};
use crate::evaluating::{LEVELS, check_statement_here, with_statement};
use exec_state::{Running, Stage};
use sharing::Shared;
use sql_evaluation::Around;
use sql_statements::{Did, perform};
use sql_tree::{Cause, Stmt, Time};
use std::alloc::Global;
use val_types::{Bytes, List, Row, SqlRefusal, TableDef, Value};

/// Does a statement where a body stands, without checks.
#[tactic(auto, unfolding(sql_evaluation::specs::Seen::world_of, sql_evaluation::specs::Seen::frame_of))]
fn perform_here<
    'a,
    F: Fn(&mut Stage, &Running<'_>, &Bytes, List<Value>) -> Result<Value, SqlRefusal>,
    T: Fn(
        &mut Stage,
        &Running<'_>,
        Time,
        Cause,
        &Shared<TableDef>,
        Option<&Row>,
        Option<&Shared<Row>>,
    ) -> Result<Option<Row>, SqlRefusal>,
>(
    alloc: Global,
    run: &F,
    fire: &T,
    around: &Around<'a>,
    running: &'a Running<'a>,
    stage: &mut Stage,
    body: &'a Body,
    s: &Stmt,
) -> Result<Did, SqlRefusal>
    requires calls { F.IsAlwaysCallable run.now }
    requires called { Calls (F.post run.now) around.now }
    requires call_leads { CallsLead (F.post run.now) }
    requires fires { T.IsAlwaysCallable fire.now }
    requires fired { Fires (T.post fire.now) around.now }
    requires fire_leads { FiresLead (T.post fire.now) }
    ensures gives { EndsAsBy did_of result (scene_of stage.new) (perform (world_with around.now running.now) (frame_of (body_of body.now)) None (view s.now) (scene_of stage.old)) }
    ensures leads { LeadsOn stage.old stage.new }
{
    let here = Around {
        running,
        locals: &body.locals,
        new_row: row_in(&body.new_row),
        old_row: row_in(&body.old_row),
        inserted: None,
        ..*around
    };
    perform(alloc, run, fire, &here, LEVELS, None, stage, s)
}

/// A change or DO.
#[tactic(auto, using(crate::proofs::Performed::performing, exec_state::proofs::Leading::leading))]
pub(crate) fn perform_step<
    F: Fn(&mut Stage, &Running<'_>, &Bytes, List<Value>) -> Result<Value, SqlRefusal>,
    T: Fn(
        &mut Stage,
        &Running<'_>,
        Time,
        Cause,
        &Shared<TableDef>,
        Option<&Row>,
        Option<&Shared<Row>>,
    ) -> Result<Option<Row>, SqlRefusal>,
>(
    alloc: Global,
    run: &F,
    fire: &T,
    around: &Around<'_>,
    stage: &mut Stage,
    body: &Body,
    s: &Stmt,
) -> Result<Option<Value>, SqlRefusal>
    requires calls { F.IsAlwaysCallable run.now }
    requires called { Calls (F.post run.now) around.now }
    requires call_leads { CallsLead (F.post run.now) }
    requires fires { T.IsAlwaysCallable fire.now }
    requires fired { Fires (T.post fire.now) around.now }
    requires fire_leads { FiresLead (T.post fire.now) }
    ensures gives { EndsAsBy (ended_at (body_of body.now)) result (scene_of stage.new) (body_perform (world_of around.now) (body_of body.now) (view s.now) (scene_of stage.old)) }
    ensures leads { LeadsOn stage.old stage.new }
{
    check_statement_here(around, body, s)?;
    let running = with_statement(s, around.running);
    perform_here(alloc, run, fire, around, &running, stage, body, s)?;
    Ok(None)
}
