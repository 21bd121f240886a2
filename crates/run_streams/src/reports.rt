//! What a call of the program tells of the environments that it ran in.
ghost use Rattle.std.specs.Prelude.{◌≡◌, ◌+◌, ◌++◌, ◌∷◌, Some, None, [], length, IfOk, IsSome, OnOk, OnErr};
ghost use Rattle.run_streams.specs.Reports.{IsEmpty, IsNamed, GoesOnDrawing};

use answer_text::{Mark, Report};
use port_traits::{Draw, Env, Identity};
use std::alloc::Global;
use val_types::{Duplicate, List, NoMemory};

/// An empty report, as the program's top call takes it.
pub fn empty_report(alloc: Global) -> Report
    ensures { IsEmpty result }
{
    Report {
        src_identity: None,
        rep_identity: None,
        src_draws: List::new(alloc),
        rep_draws: List::new(alloc),
        marks: List::new(alloc),
        now: Mark {
            command: 0,
            committed: 0,
            src_calls: 0,
            applied: 0,
            rep_calls: 0,
        },
    }
}

/// Takes the next draw of an environment and tells it. Where there is no memory to tell it, the draw
/// is gone.
pub fn take_draw<E: Env>(env: &mut E, draws: &mut List<Draw>) -> Result<Draw, NoMemory>
    ensures told { IfOk result (λ draw. draws.new ≡ draws.old ++ draw ∷ []) }
    ensures drawn { OnOk result (GoesOnDrawing (E.draws env.old) draws.old (E.draws env.new) draws.new) }
    ensures count { OnOk result (length draws.new ≡ length draws.old + 1) }
    ensures err { OnErr result (draws.new ≡ draws.old) }
    ensures same_identity { E.told env.new ≡ E.told env.old }
{
    let draw = env.draw();
    draws.push(draw)?;
    Ok(draw)
}

/// Opens a node's environment: takes who the node is and its first draw, and tells both. Where there is no
/// memory for the draw, the identity is told.
pub fn open<E: Env>(
    alloc: Global,
    env: &mut E,
    identity: &mut Option<Identity>,
    draws: &mut List<Draw>,
) -> Result<(Identity, Draw), NoMemory>
    requires { identity.old ≡ None }
    ensures told { IfOk result (λ opened. (identity.new ≡ Some opened.0) × (draws.new ≡ draws.old ++ opened.1 ∷ [])) }
    ensures named { IsNamed (E.told env.old) identity.new }
    ensures some { OnOk result (IsSome identity.new) }
    ensures drawn { OnOk result (GoesOnDrawing (E.draws env.old) draws.old (E.draws env.new) draws.new) }
    ensures count { OnOk result (length draws.new ≡ length draws.old + 1) }
    ensures err { OnErr result (draws.new ≡ draws.old) }
{
    let named = env.identity()?;
    *identity = Some(named.duplicate(alloc)?);
    let draw = take_draw(env, draws)?;
    Ok((named, draw))
}
