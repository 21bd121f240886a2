//! Who carries out what a procedure asks.
ghost use Rattle.std.specs.Prelude.{◌≡◌, ℕ, ◌≤◌, true, OnOk};
ghost use Rattle.fault_counts.specs.Causes.{Rose};
ghost use Rattle.sql_tree.specs.StatementView.{view};
ghost use Rattle.name_const.specs.proc_model.Procedures.{is_plain};
ghost use Rattle.proc_parts.specs.declared.runner.RunRefusal.TheVariants.{NoMemory as Wanted};
ghost use Rattle.proc_parts.specs.Calls.{Tells, effect_of, expressions_of, is_do, left_of, plainly, widened};

use name_const::proc_model::Ruled;
use prog_run::{Meter, Outcome};
use sql_locals::Locals;
use sql_tree::Stmt;
use thiserror::Error;
use val_types::{Bytes, List, NoMemory, SqlError, SqlRefusal, Value};

/// Why a runner gives no answer: SQL refuses, with 1205 as another session writes; a device failed; or there is no memory.
#[derive(Clone, Copy, PartialEq, Eq, Debug, Error)]
pub enum RunRefusal {
    #[error("SQL error {code}")]
    Sql { code: SqlError, holder: Option<u8> },
    #[error("a device failed")]
    Device,
    #[error("out of memory")]
    NoMemory,
}

impl From<NoMemory> for RunRefusal {
    ghost from_gives = { λ _ refusal. refusal ≡ Wanted };

    fn from(_error: NoMemory) -> RunRefusal {
        RunRefusal::NoMemory
    }
}

impl From<SqlRefusal> for RunRefusal {
    ghost from_gives = { λ error refusal. refusal ≡ widened error };

    fn from(error: SqlRefusal) -> RunRefusal {
        match error {
            SqlRefusal::Sql(code) => RunRefusal::Sql { code, holder: None },
            SqlRefusal::NoMemory => RunRefusal::NoMemory,
        }
    }
}

/// Carries out what a procedure asks, one statement step of a session each.
pub trait Runner: Ruled {
    /// How many faults its devices have had. It never falls.
    ghost faults: { Self → ℕ };

    /// Runs a change, a SELECT or a DO, over which locals are closed.
    fn run(&mut self, s: &Stmt, m: &mut Meter) -> Result<Outcome, RunRefusal>
        requires plain { is_plain (view s.now) ≡ true }
        ensures gives { Tells (λ told. Self.rules.ran self.old (left_of m.old) (view s.now) told self.new) (Rose (faults self.old) (faults self.new)) effect_of result m.new }
        ensures later { faults self.old ≤ faults self.new }
        ensures spends { m.new.turns ≤ m.old.turns };

    /// The values of the expressions of a DO, left to right, where locals are in scope, as that DO evaluates them.
    fn eval(&mut self, s: &Stmt, locals: &Locals, m: &mut Meter) -> Result<List<Value>, RunRefusal>
        requires is { is_do (view s.now) ≡ true }
        ensures gives { Tells (λ told. Self.rules.gave self.old (left_of m.old) locals.now (expressions_of (view s.now)) told self.new) (Rose (faults self.old) (faults self.new)) plainly result m.new }
        ensures later { faults self.old ≤ faults self.new }
        ensures spends { m.new.turns ≤ m.old.turns };

    /// Assigns a user variable of the session. This is no statement.
    fn assign(&mut self, name: &Bytes, value: Value) -> Result<(), NoMemory>
        ensures assigned { OnOk result (Self.rules.assigned self.old name.now value self.new) }
        ensures later { faults self.old ≤ faults self.new };
}
