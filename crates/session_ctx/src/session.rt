//! What a session keeps from one command to the next.
ghost use Rattle.std.specs.Prelude.{◌≡◌, IfOk, None};
ghost use Rattle.session_ctx.specs.Contexts.{at_command, new_context};

use crate::context::{Ctx, new_context};
use port_traits::{Draw, Identity};
use std::alloc::Global;
use val_types::NoMemory;

/// The context of a session, and the timestamp that SET fixed, None while the draws' moments count.
#[derive(Drop)]
pub struct SessionVars {
    pub context: Ctx,
    pub timestamp: Option<u32>,
}

impl SessionVars {
    /// A new session at its first command.
    pub fn new(
        alloc: Global,
        identity: &Identity,
        connection: u32,
        draw: &Draw,
    ) -> Result<SessionVars, NoMemory>
        ensures { IfOk result (λ session. session
            ≡ record { context = new_context identity.now connection draw.entry.now; timestamp = None }) }
    {
        Ok(SessionVars {
            context: new_context(alloc, identity, connection, draw)?,
            timestamp: None,
        })
    }

    /// Begins a command of the session: its moments are those of the draw, but for a timestamp that SET fixed.
    pub fn begin_command(&mut self, draw: &Draw)
        ensures { self.new ≡ record self.old { context = at_command self.old.timestamp draw.entry.now self.old.context } }
    {
        let stamp = match self.timestamp {
            None => draw.now,
            Some(timestamp) => timestamp,
        };
        self.context.set_moments(stamp, draw.sys);
    }
}
