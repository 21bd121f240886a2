//! What stands in the log before a text for it.
ghost use Rattle.std.specs.Prelude.{◌≡◌, ◌≤◌, IfOk, IfSome, OnErr, OnOk, Some};
ghost use Rattle.log_groups.specs.log_entries.Variables.{variable_set};
ghost use Rattle.apply_laws.specs.session_ctx.Carrying.{context_carried};
ghost use Rattle.event_codec.specs.Event.{query_of, value_of};
ghost use Rattle.apply_model.specs.Texts.{carried_of, increment_of, offset_of};
ghost use Rattle.apply_model.specs.Groups.{with_number};
ghost use Rattle.stmt_apply.specs.Needing.{Counts, needs_of, no_text};

use apply_laws::session_ctx::{Ctx, from_carried};
use event_codec::{IntVarKind, QueryView, Step, UserVarView, VarValue};
use log_groups::log_entries::{Carried, Vars};
use port_traits::{Draw, Identity};
use std::alloc::Global;
use std::marker::Model;
use val_types::{List, NoMemory, Value};

/// What a text carries, as far as its events were read. Its moment and its session, with increment and offset, come with the
/// QUERY.
#[derive(Drop)]
pub(crate) struct Needs {
    carried: Carried,
}

impl Model for Needs {
    ghost use Rattle.log_groups.specs.log_entries.declared.carried.Carried.{Carried as Parts};
    ghost use Rattle.apply_laws.specs.session_ctx.Carrying.{IsCarriedInBounds};

    ghost Value = { Parts };

    ghost view = { λ n. n.carried };

    ghost invariant = { λ n. IsCarriedInBounds n.carried };
}

/// What a text carries before which nothing stands.
pub(crate) fn nothing_carried(alloc: Global) -> Carried
    ensures { result ≡ no_text }
{
    Carried {
        stamp: 0,
        connection: 0,
        inc: 1,
        off: 1,
        last_id: None,
        first: None,
        seeds: None,
        vars: Vars::new(alloc),
    }
}

/// The value of a user variable, copied.
fn value_in(alloc: Global, value: VarValue<'_>) -> Result<Value, NoMemory>
    ensures { IfOk result (λ v. v ≡ value_of value.entry) }
{
    Ok(match value {
        VarValue::Null => Value::Null,
        VarValue::Int(number) => Value::Int(number),
        VarValue::Text(text) => Value::Text(List::from_slice(alloc, text)?),
    })
}

/// The increment and the offset of a QUERY, 1 where they do not stand there.
fn step_of(query: &QueryView) -> Step
    requires { Counts query.now.step }
    ensures increment { result.increment ≡ increment_of query.now.step }
    ensures offset { result.offset ≡ offset_of query.now.step }
    ensures from_one { (1 ≤ result.increment) × (1 ≤ result.offset) }
{
    match query.step {
        None => Step {
            increment: 1,
            offset: 1,
        },
        Some(step) => step,
    }
}

impl Needs {
    /// Nothing stands there yet.
    pub fn new(alloc: Global) -> Needs
        ensures { result ≡ no_text }
    {
        Needs {
            carried: nothing_carried(alloc),
        }
    }

    /// LAST_INSERT_ID() before the text, or its first generated value.
    pub fn put_number(&mut self, kind: IntVarKind, value: u64)
        requires { value ≤ 9223372036854775807 }
        ensures { needs_of self.new ≡ with_number kind value (needs_of self.old) }
    {
        let number = value as i64;
        match kind {
            IntVarKind::LastInsertId => self.carried.last_id = Some(number),
            IntVarKind::InsertId => self.carried.first = Some(number),
        }
    }

    /// The seeds of RAND() before the text.
    pub fn put_seeds(&mut self, first: u32, second: u32)
        ensures { needs_of self.new ≡ record (needs_of self.old) { seeds = Some (first, second) } }
    {
        self.carried.seeds = Some((u64::from(first), u64::from(second)));
    }

    /// A user variable before the text.
    pub fn put_variable(&mut self, alloc: Global, variable: &UserVarView) -> Result<(), NoMemory>
        ensures { OnOk result (needs_of self.new ≡ record (needs_of self.old) { vars = variable_set (needs_of self.old).vars variable.now.name.now (value_of variable.now.value) }) }
    {
        let name = List::from_slice(alloc, variable.name)?;
        let value = value_in(alloc, variable.value)?;
        self.carried.vars.set(&name, value)
    }

    /// The context of the text of a QUERY, which has what stands before it, and else is as in a new session.
    pub fn context(
        &mut self,
        alloc: Global,
        query: &QueryView,
        identity: &Identity,
        draw: &Draw,
    ) -> Result<Ctx, NoMemory>
        requires { Counts query.now.step }
        ensures context { IfOk result (λ context. context ≡ context_carried (carried_of query.now.stamp (query_of query.now) (needs_of self.old)) identity.now draw.entry.now) }
        ensures same { needs_of self.new ≡ needs_of self.old }
    {
        let step = step_of(query);
        self.carried.stamp = query.stamp;
        self.carried.connection = query.thread;
        self.carried.inc = step.increment;
        self.carried.off = step.offset;
        from_carried(alloc, &self.carried, identity, draw)
    }
}
