//! Changes, SELECT and DO of a procedure.
ghost use Rattle.std.specs.Prelude.{◌≡◌, true, IfOk};
ghost use Rattle.sql_tree.specs.StatementView.{view};
ghost use Rattle.name_const.specs.proc_model.Procedures.{is_plain, noted};
ghost use Rattle.proc_parts.specs.Calls.{EndsBy, Moves, always, effect_of, held_of};
ghost use Rattle.proc_parts.specs.Parts.{plain_at};

use crate::asking::run_closed;
use crate::closing::close_over;
use crate::held::Held;
use crate::runner::{RunRefusal, Runner};
use crate::world::World;
use prog_run::Outcome;
use sharing::Shared;
use sql_locals::Locals;
use sql_tree::Stmt;
use std::alloc::Global;
use val_types::{Duplicate, List, NoMemory, Row};

/// The greatest count of rows in an answer.
const MOST_AFFECTED: u64 = 9_223_372_036_854_775_807;

/// Copies of some rows.
fn copies(alloc: Global, rows: &[Shared<Row>]) -> Result<List<Row>, NoMemory>
    ensures { IfOk result (λ list. list ≡ rows.now) }
{
    let mut list = List::with_capacity(alloc, rows.len())?;
    for row in rows {
        list.push(row.get().duplicate(alloc)?)?;
    }
    Ok(list)
}

/// Notes what a statement did: its rows are shown, and counted.
fn note(alloc: Global, held: &mut Held, outcome: &Outcome) -> Result<(), NoMemory>
    ensures noted { IfOk result (λ _. held_of held.new ≡ noted (effect_of outcome.now) (held_of held.old)) }
    ensures turns { held.new.turns ≡ held.old.turns }
{
    if let Some(rows) = &outcome.rows {
        held.sets.push(copies(alloc, rows.as_slice())?)?;
    }
    let sum = held.affected.saturating_add(outcome.affected);
    held.affected = if sum < MOST_AFFECTED {
        sum
    } else {
        MOST_AFFECTED
    };
    Ok(())
}

/// A change, a SELECT or a DO: its locals are closed in, then it is run, and what it did is noted.
///
/// It takes the runner, what the CALL has so far, where what `s` did is noted, what is round `s`, and the locals in scope; it
/// gives nothing, or why the procedure ends here.
#[tactic(auto, using(crate::proofs::Plain::performing, crate::proofs::Behind::moving))]
pub fn plain_step<R: Runner>(
    alloc: Global,
    r: &mut R,
    held: &mut Held,
    world: &World<'_>,
    locals: &Locals,
    s: &Stmt,
) -> Result<(), RunRefusal>
    requires plain { is_plain (view s.now) ≡ true }
    ensures gives { EndsBy R.rules R.faults (always locals.now) result (held_of held.new) r.old (plain_at world.now locals.now (view s.now) (held_of held.old)) r.new }
    ensures moves { Moves (R.faults r.old) (R.faults r.new) held.old.turns held.new.turns }
{
    let closed = close_over(alloc, s, locals)?;
    let outcome = run_closed(r, held, world.nesting, closed.get())?;
    note(alloc, held, &outcome)?;
    Ok(())
}
