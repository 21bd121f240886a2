//! A CALL of a session.
ghost use Rattle.std.specs.Prelude.{◌≡◌, ◌≤◌, Err, IfOk};
ghost use Rattle.fault_counts.specs.Causes.{Rose};
ghost use Rattle.proc_parts.specs.catalog_objects.Keys.{objects_of};
ghost use Rattle.proc_parts.specs.proc_model.Procedures.{Came, IsCall};
ghost use Rattle.proc_parts.specs.Calls.{held_of, left_of};
ghost use Rattle.proc_run.specs.Answers.{AnswersBy};
ghost use Rattle.proc_run.specs.declared.calls.CallRefusal.TheVariants.{Device};

use crate::nesting::call_procedure;
use answer_text::{Answer, End};
use catalog::Catalog;
use exec_state::Running;
use proc_parts::{Held, RunRefusal, Runner, World};
use prog_run::Meter;
use std::alloc::Global;
use thiserror::Error;
use val_types::{Bytes, List, Value};

/// Why a CALL has no answer: a device failed, or there is no memory.
#[derive(Clone, Copy, PartialEq, Eq, Debug, Error)]
pub enum CallRefusal {
    #[error("a device failed")]
    Device,
    #[error("out of memory")]
    NoMemory,
}

/// How a CALL ends, by how its procedure did; `sets` are shown in both.
fn answer(held: Held, ended: Result<(), RunRefusal>) -> Result<Answer, CallRefusal>
    ensures gives { AnswersBy (held_of held) ended result }
{
    let end = match ended {
        Ok(()) => End::Ok {
            affected: held.affected,
            warned: false,
        },
        Err(RunRefusal::Sql { code, holder }) => End::Refused {
            code,
            at: None,
            holder,
        },
        Err(RunRefusal::Device) => return Err(CallRefusal::Device),
        Err(RunRefusal::NoMemory) => return Err(CallRefusal::NoMemory),
    };
    Ok(Answer {
        sets: held.sets,
        end,
    })
}

/// A CALL of a procedure with the values of its arguments, carried out through a runner, to which the catalog is equal: the
/// sets of rows that it shows, then how many rows it affected, or the error at which it ended.
#[tactic(auto, using(crate::proofs::Answering::answering))]
pub fn call<R: Runner>(
    alloc: Global,
    r: &mut R,
    catalog: &Catalog,
    name: &Bytes,
    values: List<Value>,
    m: &mut Meter,
) -> Result<Answer, CallRefusal>
    ensures call { IfOk result (λ answer. IsCall R.rules (objects_of catalog.now) (left_of m.old) name.now values r.old (record { answer = answer; turns = m.new.turns; uuids = m.new.uuids }) r.new) }
    ensures device { result ≡ Err Device → Rose (R.faults r.old) (R.faults r.new) }
    ensures later { R.faults r.old ≤ R.faults r.new }
    ensures spends { m.new.turns ≤ m.old.turns }
    ensures depth { m.new.depth ≡ m.old.depth }
{
    let nobody = Running::Nothing;
    let world = World {
        catalog,
        nesting: m.depth,
        running: &nobody,
    };
    let mut held = Held {
        turns: m.turns,
        uuids: m.uuids,
        sets: List::new(alloc),
        affected: 0,
    };
    let result = call_procedure(alloc, &world, r, &mut held, name, values);
    m.turns = held.turns;
    m.uuids = held.uuids;
    answer(held, result)
}
