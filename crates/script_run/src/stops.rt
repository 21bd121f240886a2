//! Why a node gave nothing, and whose disk it was; as a status.
ghost use Rattle.std.specs.Prelude.{◌≡◌};
ghost use Rattle.script_run.specs.Faults.{by_open_replica, by_open_source, by_replica, by_source, status_by};

use answer_text::Status;
use disk_model::{NodeFault, OpenRefusal};
use std::alloc::AllocError;

/// Why a node gave nothing.
#[derive(Clone, Copy)]
pub(crate) enum Refusal {
    /// The source's device failed, and its count of faults rose.
    SourceDisk,
    /// The replica's did.
    ReplicaDisk,
    /// The source's files stand for no state; this is the first place where they do not.
    SourceDamaged { file: u32, at: u64 },
    /// The replica's do.
    ReplicaDamaged { file: u32, at: u64 },
    NoMemory,
}

impl From<AllocError> for Refusal {
    ghost use Rattle.script_run.specs.declared.stops.Refusal.TheVariants.{NoMemory};

    ghost from_gives = { λ _ refusal. refusal ≡ NoMemory };

    fn from(_error: AllocError) -> Refusal {
        Refusal::NoMemory
    }
}

/// Why a source that opens gave nothing.
pub(crate) fn by_source(refusal: OpenRefusal) -> Refusal
    ensures { result ≡ by_source refusal }
{
    match refusal {
        OpenRefusal::Disk => Refusal::SourceDisk,
        OpenRefusal::Damaged { file, at } => Refusal::SourceDamaged { file, at },
        OpenRefusal::NoMemory => Refusal::NoMemory,
    }
}

/// Why a source that is open did.
pub(crate) fn by_open_source(fault: NodeFault) -> Refusal
    ensures { result ≡ by_open_source fault }
{
    match fault {
        NodeFault::Disk => Refusal::SourceDisk,
        NodeFault::NoMemory => Refusal::NoMemory,
    }
}

/// Why a replica that opens gave nothing.
pub(crate) fn by_replica(refusal: OpenRefusal) -> Refusal
    ensures { result ≡ by_replica refusal }
{
    match refusal {
        OpenRefusal::Disk => Refusal::ReplicaDisk,
        OpenRefusal::Damaged { file, at } => Refusal::ReplicaDamaged { file, at },
        OpenRefusal::NoMemory => Refusal::NoMemory,
    }
}

/// Why a replica that is open did.
pub(crate) fn by_open_replica(fault: NodeFault) -> Refusal
    ensures { result ≡ by_open_replica fault }
{
    match fault {
        NodeFault::Disk => Refusal::ReplicaDisk,
        NodeFault::NoMemory => Refusal::NoMemory,
    }
}

/// The status with which a run ends where the nodes gave nothing.
pub(crate) fn status_by(refusal: Refusal) -> Status
    ensures { result ≡ status_by refusal }
{
    match refusal {
        Refusal::SourceDisk => Status::SourceDisk,
        Refusal::ReplicaDisk => Status::ReplicaDisk,
        Refusal::SourceDamaged { file, at } => Status::SourceDamaged { file, at },
        Refusal::ReplicaDamaged { file, at } => Status::ReplicaDamaged { file, at },
        Refusal::NoMemory => Status::NoMemory,
    }
}
