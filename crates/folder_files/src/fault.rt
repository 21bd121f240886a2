//! Why a call on a folder's file gives nothing.
ghost use Rattle.std.specs.Prelude.{◌≡◌};
ghost use Rattle.folder_files.specs.declared.fault.FileFault.TheVariants.{NoMemory};

use std::alloc::AllocError;

/// Why a call on a folder's file gives nothing.
#[derive(Clone, Copy, PartialEq, Eq)]
pub enum FileFault {
    /// The system answered an error.
    Failed,
    NoMemory,
}

impl From<AllocError> for FileFault {
    ghost from_gives = { λ _ fault. fault ≡ NoMemory };

    fn from(_error: AllocError) -> FileFault {
        FileFault::NoMemory
    }
}
