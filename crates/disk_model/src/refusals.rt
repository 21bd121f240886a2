//! Why calls over a disk give nothing.
ghost use Rattle.std.specs.Prelude.{◌≡◌};

use std::alloc::AllocError;
use thiserror::Error;

/// Why a call of a disk was refused.
#[derive(Clone, Copy, PartialEq, Eq, Debug, Error)]
pub enum DiskRefusal {
    /// The device failed, and its count of faults rose.
    #[error("the disk failed")]
    Failed,
    #[error("out of memory")]
    NoMemory,
}

/// Why a node over a disk could not go on.
#[derive(Clone, Copy, PartialEq, Eq, Debug, Error)]
pub enum NodeFault {
    /// The device failed, and its count of faults rose.
    #[error("disk fault")]
    Disk,
    #[error("out of memory")]
    NoMemory,
}

/// Why a store could not be opened.
#[derive(Clone, Copy, PartialEq, Eq, Debug, Error)]
pub enum OpenRefusal {
    /// The device failed, and its count of faults rose.
    #[error("disk fault")]
    Disk,
    /// The files stand for no state; this is the first place where they do not.
    #[error("damaged file {file} at {at}")]
    Damaged { file: u32, at: u64 },
    #[error("out of memory")]
    NoMemory,
}

impl From<AllocError> for DiskRefusal {
    ghost use Rattle.disk_model.specs.declared.refusals.DiskRefusal.TheVariants.{NoMemory};

    ghost from_gives = { λ _ refusal. refusal ≡ NoMemory };

    fn from(_error: AllocError) -> DiskRefusal {
        DiskRefusal::NoMemory
    }
}

impl From<AllocError> for NodeFault {
    ghost use Rattle.disk_model.specs.declared.refusals.NodeFault.TheVariants.{NoMemory};

    ghost from_gives = { λ _ fault. fault ≡ NoMemory };

    fn from(_error: AllocError) -> NodeFault {
        NodeFault::NoMemory
    }
}

impl From<AllocError> for OpenRefusal {
    ghost use Rattle.disk_model.specs.declared.refusals.OpenRefusal.TheVariants.{NoMemory};

    ghost from_gives = { λ _ refusal. refusal ≡ NoMemory };

    fn from(_error: AllocError) -> OpenRefusal {
        OpenRefusal::NoMemory
    }
}

impl From<DiskRefusal> for NodeFault {
    ghost use Rattle.disk_model.specs.Refusals.{fault_of};

    ghost from_gives = { λ refusal fault. fault ≡ fault_of refusal };

    fn from(refusal: DiskRefusal) -> NodeFault {
        match refusal {
            DiskRefusal::Failed => NodeFault::Disk,
            DiskRefusal::NoMemory => NodeFault::NoMemory,
        }
    }
}

impl From<DiskRefusal> for OpenRefusal {
    ghost use Rattle.disk_model.specs.Refusals.{refusal_of};

    ghost from_gives = { λ refusal given. given ≡ refusal_of refusal };

    fn from(refusal: DiskRefusal) -> OpenRefusal {
        match refusal {
            DiskRefusal::Failed => OpenRefusal::Disk,
            DiskRefusal::NoMemory => OpenRefusal::NoMemory,
        }
    }
}
