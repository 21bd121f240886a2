//! Who carries out what a procedure asks.
ghost use Rattle.std.specs.Prelude.{ℕ};

use crate::asked::{evaluate_step, run_step};
use answer_making::prog_work::{Meter, Outcome};
use port_traits::{Draw, Identity};
use proc_run::proc_model::Ruled;
use proc_run::proc_parts::{RunRefusal, Runner};
use session_statement::session_shared::{Command, Desk, Session};
use sql_locals::Locals;
use sql_tree::Stmt;
use std::alloc::Global;
use val_types::{Bytes, List, NoMemory, Value};

/// Carries out what the procedures of a CALL ask, each thing as one step of its session on what all sessions share, and knows
/// whether one of them was warned. It has no device.
#[derive(Drop)]
pub struct CallSteps {
    pub(crate) alloc: Global,
    pub(crate) identity: Identity,
    pub(crate) draw: Draw,
    pub(crate) number: u8,
    pub(crate) desk: Desk,
    pub(crate) session: Session,
    pub(crate) warned: bool,
}

impl Ruled for CallSteps {
    ghost use Rattle.session_call.specs.Stepping.{step_rules};

    ghost rules = { step_rules };
}

impl Runner for CallSteps {
    ghost faults = { λ s. 0 };

    fn run(&mut self, s: &Stmt, m: &mut Meter) -> Result<Outcome, RunRefusal> {
        let command = Command {
            identity: &self.identity,
            draw: &self.draw,
            number: self.number,
        };
        run_step(
            self.alloc,
            &command,
            &mut self.desk,
            &mut self.session,
            &mut self.warned,
            s,
            m,
        )
    }

    fn eval(
        &mut self,
        s: &Stmt,
        locals: &Locals,
        m: &mut Meter,
    ) -> Result<List<Value>, RunRefusal> {
        let command = Command {
            identity: &self.identity,
            draw: &self.draw,
            number: self.number,
        };
        evaluate_step(
            self.alloc,
            &command,
            &mut self.desk,
            &mut self.session,
            &mut self.warned,
            s,
            locals,
            m,
        )
    }

    fn assign(&mut self, name: &Bytes, value: Value) -> Result<(), NoMemory> {
        self.session.vars.context.set_user_variable(name, value)
    }
}
