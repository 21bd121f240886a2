//! Who evaluates and fires triggers for a statement.
ghost use Rattle.changed_rows.specs.sql_evaluation.Seen.{CallsLead};
ghost use Rattle.changed_rows.specs.Firing.{FiresLead};
ghost use Rattle.sql_statements.specs.Served.{CallsBelow, FiresBelow};

use changed_rows::Executor;
use changed_rows::sql_evaluation::{Around, Views, value};
use exec_state::{Running, Stage};
use sharing::Shared;
use sql_tree::{Cause, Expr, Time};
use std::alloc::Global;
use val_types::{Bytes, List, Row, SqlRefusal, TableDef, Value};

/// Evaluates by what calls stored functions, and fires triggers; `levels` bounds how deep an expression is evaluated.
#[derive(Drop)]
pub(crate) struct Evaluator<'p, F, T> {
    pub(crate) alloc: Global,
    pub(crate) run: &'p F,
    pub(crate) fire: &'p T,
    pub(crate) levels: u16,
}

impl<
    F: Fn(&mut Stage, &Running<'_>, &Bytes, List<Value>) -> Result<Value, SqlRefusal>,
    T: Fn(
        &mut Stage,
        &Running<'_>,
        Time,
        Cause,
        &Shared<TableDef>,
        Option<&Row>,
        Option<&Shared<Row>>,
    ) -> Result<Option<Row>, SqlRefusal>,
> Executor for Evaluator<'_, F, T> {
    ghost serves = { λ e below.
        F.IsAlwaysCallable e.run.now × CallsBelow (F.post e.run.now) below × CallsLead (F.post e.run.now)
        × T.IsAlwaysCallable e.fire.now × FiresBelow (T.post e.fire.now) below × FiresLead (T.post e.fire.now) };

    fn value(
        &self,
        around: &Around<'_>,
        stage: &mut Stage,
        e: &Expr,
        views: &Views,
    ) -> Result<Value, SqlRefusal> {
        value(self.alloc, self.run, around, self.levels, stage, e, views)
    }

    #[tactic(auto, using(changed_rows::proofs::Triggers::under_way))]
    fn fire(
        &self,
        around: &Around<'_>,
        stage: &mut Stage,
        time: Time,
        event: Cause,
        definition: &Shared<TableDef>,
        new: Option<&Row>,
        old: Option<&Shared<Row>>,
    ) -> Result<Option<Row>, SqlRefusal> {
        (self.fire)(stage, around.running, time, event, definition, new, old)
    }
}
