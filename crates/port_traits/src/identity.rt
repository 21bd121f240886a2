//! Who a node is, and what it draws from its environment.
ghost use Rattle.std.specs.Prelude.{◌≡◌, IfOk};

use std::alloc::Global;
use val_types::{Bytes, Duplicate, NoMemory};

/// Who a node is.
#[derive(Clone, PartialEq, Eq, Debug, Drop)]
pub struct Identity {
    /// The number of the server, as its events carry it.
    pub server_id: u32,
    /// The user whose statements these are, as `root@localhost`.
    pub user: Bytes,
}

/// What a node draws once for each opening and each command.
#[derive(Clone, Copy, PartialEq, Eq, Debug)]
pub struct Draw {
    /// What NOW() starts from, in seconds since 1970-01-01 UTC.
    pub now: u32,
    /// The system's time, in seconds since 1970-01-01 UTC.
    pub sys: u32,
    /// The first word that RAND() starts from.
    pub seed1: u64,
    /// The second word that RAND() starts from.
    pub seed2: u64,
    /// What UUID() starts from, the most significant byte first.
    pub uuid: [u8; 16],
}

impl Duplicate for Identity {
    fn duplicate(&self, alloc: Global) -> Result<Identity, NoMemory> {
        Ok(Identity {
            server_id: self.server_id,
            user: self.user.duplicate(alloc)?,
        })
    }
}

impl Duplicate for Draw {
    fn duplicate(&self, alloc: Global) -> Result<Draw, NoMemory> {
        let _ = alloc;
        Ok(*self)
    }
}
