//! What the runner is asked: statements and expressions.
ghost use Rattle.std.specs.Prelude.{◌≡◌, true};
ghost use Rattle.sql_tree.specs.StatementView.{view};
ghost use Rattle.name_const.specs.proc_model.Procedures.{evaluate_with, is_plain, run_closed};
ghost use Rattle.proc_parts.specs.Calls.{EndsBy, Moves, effect_of, expressions_of, held_of, is_do, plainly};

use crate::held::Held;
use crate::runner::{RunRefusal, Runner};
use prog_run::{Meter, Outcome};
use sql_locals::Locals;
use sql_tree::Stmt;
use val_types::{List, Value};

/// Has a statement run, over which locals are closed.
#[tactic(auto, using(crate::proofs::Behind::run_ends))]
pub(crate) fn run_closed<R: Runner>(
    r: &mut R,
    held: &mut Held,
    nesting: u8,
    s: &Stmt,
) -> Result<Outcome, RunRefusal>
    requires plain { is_plain (view s.now) ≡ true }
    ensures gives { EndsBy R.rules R.faults effect_of result (held_of held.new) r.old (run_closed nesting (view s.now) (held_of held.old)) r.new }
    ensures moves { Moves (R.faults r.old) (R.faults r.new) held.old.turns held.new.turns }
{
    let mut meter = Meter {
        depth: nesting,
        turns: held.turns,
        uuids: held.uuids,
    };
    let result = r.run(s, &mut meter);
    held.turns = meter.turns;
    held.uuids = meter.uuids;
    result
}

/// Has the expressions of a DO evaluated, where locals are in scope.
#[tactic(auto, using(crate::proofs::Behind::gave_ends))]
pub(crate) fn evaluate<R: Runner>(
    r: &mut R,
    held: &mut Held,
    nesting: u8,
    locals: &Locals,
    s: &Stmt,
) -> Result<List<Value>, RunRefusal>
    requires is { is_do (view s.now) ≡ true }
    ensures gives { EndsBy R.rules R.faults plainly result (held_of held.new) r.old (evaluate_with nesting locals.now (expressions_of (view s.now)) (held_of held.old)) r.new }
    ensures moves { Moves (R.faults r.old) (R.faults r.new) held.old.turns held.new.turns }
{
    let mut meter = Meter {
        depth: nesting,
        turns: held.turns,
        uuids: held.uuids,
    };
    let result = r.eval(s, locals, &mut meter);
    held.turns = meter.turns;
    held.uuids = meter.uuids;
    result
}
