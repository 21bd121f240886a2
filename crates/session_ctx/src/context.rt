//! The context in which a session's statement runs.
ghost use Rattle.std.specs.Prelude.{◌≡◌, ◌≤◌, nat_eq, int_le, pos, IsTrue, IfOk, OnErr, OnOk, None, option_copied};
ghost use Rattle.std.specs.Cmp.Lexicographic.{pointwise};
ghost use Rattle.std.specs.Map.{lookup};
ghost use Rattle.sql_meaning.specs.log_entries.Variables.{variable_set};
ghost use Rattle.session_ctx.specs.Contexts.{IsInBounds, new_context, seeds_drawn};
ghost use Rattle.session_ctx.specs.Variables.{unless_zero};

use port_traits::{Draw, Identity};
use sql_meaning::log_entries::Vars;
use std::alloc::Global;
use std::marker::Model;
use val_types::{Bytes, Duplicate, NoMemory, Value};

/// What a statement of a session sees beside the tables, and what of it statements change.
#[derive(Drop)]
pub struct Ctx {
    /// The moment of NOW(), in seconds since 1970-01-01 UTC.
    pub(crate) stamp: u32,
    /// The moment of SYSDATE().
    pub(crate) sys: u32,
    /// The number of the session.
    pub(crate) connection: u32,
    pub(crate) user: Bytes,
    pub(crate) server_id: u32,
    /// LAST_INSERT_ID().
    pub(crate) last_id: i64,
    /// A forced INSERT_ID.
    pub(crate) forced: Option<i64>,
    /// The seeds of RAND().
    pub(crate) seed1: u64,
    pub(crate) seed2: u64,
    pub(crate) vars: Vars,
    /// The variables auto_increment_increment and auto_increment_offset.
    pub(crate) inc: u16,
    pub(crate) off: u16,
    /// ROW_COUNT().
    pub(crate) row_count: i64,
}

impl Model for Ctx {
    ghost use Rattle.sql_meaning.specs.Frames.{Context};
    ghost use Rattle.session_ctx.specs.Contexts.{AreInBounds};

    ghost Value = { Context };

    ghost view = { λ c. record {
      stamp = c.stamp;
      sys = c.sys;
      connection = c.connection;
      user = c.user;
      server_id = c.server_id;
      last_id = c.last_id;
      forced = c.forced;
      seeds = (c.seed1, c.seed2);
      variables = c.vars;
      increment = c.inc;
      offset = c.off;
      row_count = c.row_count;
    } };

    ghost invariant = { λ c. AreInBounds c.inc c.off c.last_id c.forced };
}

impl Ctx {
    /// The moment of NOW(), in seconds since 1970-01-01 UTC.
    pub fn stamp(&self) -> u32
        ensures { result ≡ self.now.stamp }
    {
        self.stamp
    }

    /// The moment of SYSDATE(), in seconds since 1970-01-01 UTC.
    pub fn sys(&self) -> u32
        ensures { result ≡ self.now.sys }
    {
        self.sys
    }

    /// The number of the session.
    pub fn connection(&self) -> u32
        ensures { result ≡ self.now.connection }
    {
        self.connection
    }

    /// What USER() gives.
    pub fn user(&self) -> &Bytes
        ensures { result.now ≡ self.now.user }
    {
        &self.user
    }

    /// The number of the server.
    pub fn server_id(&self) -> u32
        ensures { result ≡ self.now.server_id }
    {
        self.server_id
    }

    /// LAST_INSERT_ID().
    pub fn last_id(&self) -> i64
        ensures { result ≡ self.now.last_id }
    {
        self.last_id
    }

    /// The forced INSERT_ID.
    pub fn forced(&self) -> Option<i64>
        ensures { result ≡ self.now.forced }
    {
        self.forced
    }

    /// The seeds of RAND().
    pub fn seeds(&self) -> (u64, u64)
        ensures { result ≡ self.now.seeds }
    {
        (self.seed1, self.seed2)
    }

    /// The value of a user variable, None where it was never set.
    pub fn user_variable(&self, name: &Bytes) -> Option<&Value>
        ensures { option_copied result ≡ lookup (pointwise nat_eq name.now) self.now.variables }
    {
        self.vars.get(name)
    }

    /// The variable auto_increment_increment.
    pub fn increment(&self) -> u16
        ensures value { result ≡ self.now.increment }
        ensures counts { 1 ≤ result }
    {
        self.inc
    }

    /// The variable auto_increment_offset.
    pub fn offset(&self) -> u16
        ensures value { result ≡ self.now.offset }
        ensures counts { 1 ≤ result }
    {
        self.off
    }

    /// ROW_COUNT().
    pub fn row_count(&self) -> i64
        ensures { result ≡ self.now.row_count }
    {
        self.row_count
    }

    /// What holds of every context.
    pub fn bounds(&self)
        ensures { IsInBounds self.now }
    {
        let _ = &self.inc;
    }

    /// Sets the seeds of RAND().
    pub fn set_seeds(&mut self, seed1: u64, seed2: u64)
        ensures { self.new ≡ record self.old { seeds = (seed1, seed2) } }
    {
        self.seed1 = seed1;
        self.seed2 = seed2;
    }

    /// Sets LAST_INSERT_ID().
    pub fn set_last_id(&mut self, id: i64)
        requires { IsTrue (int_le (pos 0) id) }
        ensures { self.new ≡ record self.old { last_id = id } }
    {
        self.last_id = id;
    }

    /// Uses a forced INSERT_ID up.
    pub fn clear_forced(&mut self)
        ensures { self.new ≡ record self.old { forced = None } }
    {
        self.forced = None;
    }

    /// Sets ROW_COUNT().
    pub fn set_row_count(&mut self, count: i64)
        ensures { self.new ≡ record self.old { row_count = count } }
    {
        self.row_count = count;
    }

    /// Sets a user variable; one that is there keeps its place.
    pub fn set_user_variable(&mut self, name: &Bytes, value: Value) -> Result<(), NoMemory>
        ensures ok { OnOk result (self.new ≡ record self.old { variables = variable_set (self.old.variables) name.now value }) }
        ensures err { OnErr result (self.new ≡ self.old) }
    {
        self.vars.set(name, value)
    }

    /// Sets the variable auto_increment_increment.
    pub(crate) fn set_increment(&mut self, increment: u16)
        requires { 1 ≤ increment }
        ensures { self.new ≡ record self.old { increment = increment } }
    {
        self.inc = increment;
    }

    /// Sets the variable auto_increment_offset.
    pub(crate) fn set_offset(&mut self, offset: u16)
        requires { 1 ≤ offset }
        ensures { self.new ≡ record self.old { offset = offset } }
    {
        self.off = offset;
    }

    /// Forces an INSERT_ID, none for 0.
    pub(crate) fn force(&mut self, id: i64)
        requires { IsTrue (int_le (pos 0) id) }
        ensures { self.new ≡ record self.old { forced = unless_zero id id } }
    {
        self.forced = if id == 0 { None } else { Some(id) };
    }

    /// Sets the two moments of a command.
    pub(crate) fn set_moments(&mut self, stamp: u32, sys: u32)
        ensures { self.new ≡ record self.old { stamp = stamp; sys = sys } }
    {
        self.stamp = stamp;
        self.sys = sys;
    }
}

/// The context of a new session at its first command.
pub(crate) fn new_context(
    alloc: Global,
    identity: &Identity,
    connection: u32,
    draw: &Draw,
) -> Result<Ctx, NoMemory>
    ensures { IfOk result (λ context. context ≡ new_context identity.now connection draw.entry.now) }
{
    let (seed1, seed2) = seeds_drawn(draw);
    Ok(Ctx {
        stamp: draw.now,
        sys: draw.sys,
        connection,
        user: identity.user.duplicate(alloc)?,
        server_id: identity.server_id,
        last_id: 0,
        forced: None,
        seed1,
        seed2,
        vars: Vars::new(alloc),
        inc: 1,
        off: 1,
        row_count: -1,
    })
}

/// The seeds of RAND() are taken modulo this number.
const SEED_BOUND: u64 = 1_073_741_823;

/// The seeds that a draw gives a new session.
pub(crate) fn seeds_drawn(draw: &Draw) -> (u64, u64)
    ensures { result ≡ seeds_drawn draw.entry.now }
{
    (draw.seed1 % SEED_BOUND, draw.seed2 % SEED_BOUND)
}
