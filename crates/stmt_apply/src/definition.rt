//! A CREATE, DROP or TRUNCATE of a log.
ghost use Rattle.std.specs.Prelude.{◌≡◌, [], true, Ok, OnErr, OnOk};
ghost use Rattle.sql_tree.specs.StatementView.{view};
ghost use Rattle.apply_laws.specs.sql_reach.Reach.{is_definition};
ghost use Rattle.apply_model.specs.Groups.{define_allowed};
ghost use Rattle.apply_model.specs.Texts.{statement_in, stops_at};
ghost use Rattle.row_apply.specs.prog_work.Contents.{base_of};
ghost use Rattle.row_apply.specs.Ends.{Ends};
ghost use Rattle.stmt_apply.specs.Applying.{applied_in};
ghost use Rattle.stmt_apply.specs.Ending.{EndsBy};
ghost use Rattle.stmt_apply.specs.Leading.{Makes, MakesBy};

use crate::needs::nothing_carried;
use crate::reading::statement_in;
use crate::text::NOT_ALLOWED;
use apply_laws::session_ctx::{Ctx, from_carried};
use event_codec::QueryView;
use port_traits::{Draw, Identity};
use prog_run::{Meter, Work, is_definition, run_stmt};
use row_apply::{Stop, stop_at};
use sql_tree::Stmt;
use std::alloc::Global;
use val_types::SqlRefusal;

/// A statement carried out, 30005 for all but definitions.
#[tactic(auto, using(crate::proofs::Defined::no_definition, crate::proofs::Leading::definition_makes))]
fn define(
    alloc: Global,
    work: &mut Work,
    statement: &Stmt,
    context: &mut Ctx,
    draw: &Draw,
) -> Result<(), SqlRefusal>
    requires { work.old.changes ≡ [] }
    ensures ends { EndsBy result (applied_in work.new) (define_allowed (base_of work.old) work.old.counters (Ok (view statement.now))) }
    ensures makes { OnOk result (Makes (view statement.now) work.old work.new) }
    ensures err { OnErr result (work.new ≡ work.old) }
{
    if !is_definition(statement) {
        return Err(SqlRefusal::Sql(NOT_ALLOWED));
    }
    let mut meter = Meter::full();
    match run_stmt(alloc, work, statement, context, draw, &mut meter) {
        Ok(_) => Ok(()),
        Err(refusal) => Err(refusal),
    }
}

/// The definition that a text is. It reads nothing of its context.
#[tactic(auto, using(crate::proofs::Defined::refused_text, crate::proofs::Defined::read_text, crate::proofs::Leading::text_makes))]
fn define_text(
    alloc: Global,
    work: &mut Work,
    query: &QueryView,
    identity: &Identity,
    draw: &Draw,
) -> Result<(), SqlRefusal>
    requires { work.old.changes ≡ [] }
    ensures ends { EndsBy result (applied_in work.new) (define_allowed (base_of work.old) work.old.counters (statement_in query.now.text.now)) }
    ensures makes { OnOk result (MakesBy query.now.text.now work.old work.new) }
    ensures err { OnErr result (work.new ≡ work.old) }
{
    let mut context = from_carried(alloc, &nothing_carried(alloc), identity, draw)?;
    let parsed = statement_in(alloc, query.text)?;
    define(alloc, work, &parsed.statement, &mut context, draw)
}

/// The definition at a place.
pub(crate) fn apply_definition(
    alloc: Global,
    work: &mut Work,
    pos: u64,
    query: &QueryView,
    identity: &Identity,
    draw: &Draw,
) -> Result<(), Stop>
    requires { work.old.changes ≡ [] }
    ensures ends { Ends result (applied_in work.new) (stops_at pos (define_allowed (base_of work.old) work.old.counters (statement_in query.now.text.now))) }
    ensures makes { OnOk result (MakesBy query.now.text.now work.old work.new) }
    ensures err { OnErr result (work.new ≡ work.old) }
{
    match define_text(alloc, work, query, identity, draw) {
        Ok(()) => Ok(()),
        Err(SqlRefusal::Sql(code)) => Err(stop_at(alloc, pos, code)),
        Err(SqlRefusal::NoMemory) => Err(Stop::NoMemory),
    }
}
