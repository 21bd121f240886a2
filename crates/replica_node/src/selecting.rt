//! A text of a reader: a SELECT, in a session of its own that has no number.
ghost use Rattle.std.specs.Prelude.{◌≡◌, ◌≤◌, [], false, length, IfOk};
ghost use Rattle.sql_tree.specs.StatementView.{view};
ghost use Rattle.stmt_apply.specs.prog_run.prog_work.Contents.{base_of};
ghost use Rattle.unsafe_rules.specs.sql_reach.Reach.{is_definition};
ghost use Rattle.replica_model.specs.apply_model.binlog_sizes.Sizes.{most_text};
ghost use Rattle.row_apply.specs.Ends.{Stays};
ghost use Rattle.replica_model.specs.Selecting.{select_answer, select_checked, select_run};

use answer_text::Answer;
use port_traits::{Draw, Identity};
use session_ctx::SessionVars;
use sql_parse::ParseRefusal;
use sql_tree::Stmt;
use std::alloc::Global;
use stmt_apply::answer_making::{NodeFault, refused, refused_at, statement_of, told};
use stmt_apply::checked;
use stmt_apply::prog_run::{Meter, Work, run_stmt};
use unsafe_rules::writes;
use val_types::{Duplicate, SqlRefusal};

/// A text is too deep.
const TOO_DEEP: u16 = 30007;

/// A replica's rows are changed by its source alone (ER_OPTION_PREVENTS_STATEMENT).
const READ_ONLY: u16 = 1290;

/// Runs a statement that is no definition.
#[tactic(auto)]
fn run(
    alloc: Global,
    identity: &Identity,
    work: &mut Work,
    statement: &Stmt,
    draw: &Draw,
) -> Result<Answer, NodeFault>
    requires plain { is_definition (view statement.now) ≡ false }
    requires changes { work.old.changes ≡ [] }
    ensures answer { IfOk result (λ answer. answer ≡ select_run identity.now draw.entry.now (work.old.counters) (base_of work.old) (view statement.now)) }
    ensures stays { Stays work.old work.new }
{
    let mut session = SessionVars::new(alloc, identity, 0, draw)?;
    let mut meter = Meter::full();
    work.together();
    let result = run_stmt(
        alloc,
        work,
        statement,
        &mut session.context,
        draw,
        &mut meter,
    );
    work.together();
    match result {
        Err(SqlRefusal::NoMemory) => Err(NodeFault::NoMemory),
        Err(SqlRefusal::Sql(code)) => Ok(refused(alloc, code)),
        Ok(outcome) => Ok(told(alloc, &outcome)?),
    }
}

/// Runs a statement that is no definition, and puts back what it did to rows and counters.
#[tactic(auto, using(stmt_apply::proofs::Staying::given_back))]
fn read(
    alloc: Global,
    identity: &Identity,
    work: &mut Work,
    statement: &Stmt,
    draw: &Draw,
) -> Result<Answer, NodeFault>
    requires plain { is_definition (view statement.now) ≡ false }
    requires changes { work.old.changes ≡ [] }
    ensures answer { IfOk result (λ answer. answer ≡ select_run identity.now draw.entry.now (work.old.counters) (base_of work.old) (view statement.now)) }
    ensures same { work.new ≡ work.old }
{
    let counters = work.counters().duplicate(alloc)?;
    let answer = run(alloc, identity, work, statement, draw);
    work.give_up(counters);
    answer
}

/// A statement: checked, refused where it would write, and run.
#[tactic(auto, using(crate::proofs::Reading::no_definition))]
fn select_checked(
    alloc: Global,
    identity: &Identity,
    work: &mut Work,
    statement: &Stmt,
    draw: &Draw,
) -> Result<Answer, NodeFault>
    requires { work.old.changes ≡ [] }
    ensures answer { IfOk result (λ answer. answer ≡ select_checked identity.now draw.entry.now (work.old.counters) (base_of work.old) (view statement.now)) }
    ensures same { work.new ≡ work.old }
{
    if let Some(code) = checked(alloc, work, statement) {
        return Ok(refused(alloc, code));
    }
    if writes(statement, work.catalog().objects()) {
        return Ok(refused(alloc, READ_ONLY));
    }
    read(alloc, identity, work, statement, draw)
}

/// The answer to a text, on rows that stay as they are.
#[tactic(auto, unfolding(replica_model::specs::Selecting::select_answer))]
pub(crate) fn answer(
    alloc: Global,
    identity: &Identity,
    work: &mut Work,
    text: &[u8],
    draw: &Draw,
) -> Result<Answer, NodeFault>
    requires length { length text.now ≤ most_text }
    requires changes { work.old.changes ≡ [] }
    ensures answer { IfOk result (λ answer. answer ≡ select_answer identity.now draw.entry.now work.old.counters (base_of work.old) text.now) }
    ensures same { work.new ≡ work.old }
{
    match statement_of(alloc, text) {
        Err(ParseRefusal::NoMemory) => Err(NodeFault::NoMemory),
        Err(ParseRefusal::Deep) => Ok(refused(alloc, TOO_DEEP)),
        Err(ParseRefusal::Syntax { at }) => Ok(refused_at(alloc, at)),
        Ok(parsed) => select_checked(alloc, identity, work, &parsed.statement, draw),
    }
}
