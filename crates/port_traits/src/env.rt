//! The environment of a node.
ghost use Rattle.std.specs.Prelude.{◌≡◌, List, Option, IfOk, IfSome, option_map, slice_get};
ghost use Rattle.port_traits.specs.declared.identity.Identity.{Identity};
ghost use Rattle.port_traits.specs.declared.identity.Draw.{Draw};
ghost use Rattle.port_traits.specs.Draws.{draws_after};

use crate::identity::{Draw, Identity};
use val_types::NoMemory;

/// What a node knows of its place in the world.
pub trait Env {
    /// Who the node is, None where the environment does not tell.
    ghost told: { Self → Option Identity };

    /// The draws that are left, the next one first, None where the environment does not tell.
    ghost draws: { Self → Option (List Draw) };

    /// Who the node is.
    fn identity(&mut self) -> Result<Identity, NoMemory>
        ensures value { IfOk result (λ identity. IfSome (told self.old) (λ named. identity ≡ named)) }
        ensures same_identity { told self.new ≡ told self.old }
        ensures same_draws { draws self.new ≡ draws self.old };

    /// The next draw, which is then taken off unless it is the last. It takes no memory.
    fn draw(&mut self) -> Draw
        ensures first { IfSome (draws self.old) (λ left. slice_get left 0 ≡ Some result) }
        ensures after { draws self.new ≡ option_map draws_after (draws self.old) }
        ensures same_identity { told self.new ≡ told self.old };
}
