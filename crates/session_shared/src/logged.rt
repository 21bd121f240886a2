//! Where entries are logged, and what waits to be written.
ghost use Rattle.std.specs.Prelude.{◌≡◌, ◌∷◌, ◌++◌, [], OnErr, OnOk};
ghost use Rattle.session_model.specs.Running.{is_full};
ghost use Rattle.session_shared.specs.Desk.{place_of};

use val_types::{List, NoMemory};
use waiting_entries::{Made, Waiting};

/// The log and the position where the next entry comes, and what was committed and is not written yet, in its order.
#[derive(Drop)]
pub struct Logged {
    pub log: u32,
    pub pos: u32,
    pub waiting: List<Waiting>,
}

/// No log comes behind the one with this number.
const LAST_LOG: u32 = 60_000;

/// A log of so many bytes takes no transaction more.
const FULL_LOG: u32 = 1_073_741_824;

impl Logged {
    /// Whether the log takes no transaction more.
    pub fn is_full(&self) -> bool
        ensures { result ≡ is_full (place_of self.now) }
    {
        self.log == LAST_LOG || self.pos >= FULL_LOG
    }

    /// Puts what was made of an entry behind what waits already. Where there is no memory, all is as before.
    pub fn put(&mut self, made: Made) -> Result<(), NoMemory>
        ensures ok { OnOk result (self.new ≡ record { log = self.old.log; pos = made.end; waiting = self.old.waiting ++ made.waiting ∷ [] }) }
        ensures err { OnErr result (self.new ≡ self.old) }
    {
        let Made { waiting, end } = made;
        self.waiting.push(waiting)?;
        self.pos = end;
        Ok(())
    }
}
