//! Why a node gives no answer.

use std::alloc::AllocError;
use thiserror::Error;

/// Why a node in memory gives no answer: memory is short. The faults of a node on its disk are those of `disk_model`.
#[derive(Clone, Copy, PartialEq, Eq, Debug, Error)]
pub enum NodeFault {
    #[error("out of memory")]
    NoMemory,
}

impl From<AllocError> for NodeFault {
    ghost use Rattle.std.specs.Prelude.{◌≡◌};
    ghost use Rattle.answer_making.specs.declared.fault.NodeFault.TheVariants.{NoMemory};

    ghost from_gives = { λ _ e. e ≡ NoMemory };

    fn from(_e: AllocError) -> NodeFault {
        NodeFault::NoMemory
    }
}
