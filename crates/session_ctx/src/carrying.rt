//! The context of an item's statement.
ghost use Rattle.std.specs.Prelude.{◌≡◌, IfOk};
ghost use Rattle.session_ctx.specs.Carrying.{IsCarriedInBounds, context_carried};

use crate::context::{Ctx, seeds_drawn};
use port_traits::{Draw, Identity};
use sql_meaning::log_entries::Carried;
use std::alloc::Global;
use val_types::{Duplicate, NoMemory};

/// The context in which the statement of an item runs again: what the item carries, and else as in a new session.
pub fn from_carried(
    alloc: Global,
    carried: &Carried,
    identity: &Identity,
    draw: &Draw,
) -> Result<Ctx, NoMemory>
    requires { IsCarriedInBounds carried.now }
    ensures { IfOk result (λ context. context ≡ context_carried carried.now identity.now draw.entry.now) }
{
    let (seed1, seed2) = match carried.seeds {
        None => seeds_drawn(draw),
        Some(seeds) => seeds,
    };
    let last_id = carried.last_id.unwrap_or(0);
    let user = identity.user.duplicate(alloc)?;
    let vars = carried.vars.duplicate(alloc)?;
    Ok(Ctx {
        stamp: carried.stamp,
        sys: draw.sys,
        connection: carried.connection,
        user,
        server_id: identity.server_id,
        last_id,
        forced: carried.first,
        seed1,
        seed2,
        vars,
        inc: carried.inc,
        off: carried.off,
        row_count: -1,
    })
}
