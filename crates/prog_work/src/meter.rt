//! What is left to a command, and what is told of a statement.
ghost use Rattle.std.specs.Prelude.{◌≡◌};
ghost use Rattle.prog_work.specs.Outcomes.{full_meter};

use sharing::Shared;
use val_types::{List, Row};

/// What is left to a command, and how many UUIDs it made.
#[derive(Clone, Copy, PartialEq, Eq, Debug)]
pub struct Meter {
    /// How many programs may run one inside the other.
    pub depth: u8,
    /// Turns of WHILE.
    pub turns: u32,
    pub uuids: u128,
}

impl Meter {
    /// What is left to a command at its beginning, and to a statement of a log.
    pub fn full() -> Meter
        ensures { result ≡ full_meter }
    {
        Meter {
            depth: 16,
            turns: 1_000_000,
            uuids: 0,
        }
    }
}

/// What is told of a statement that came to its end.
#[derive(Drop)]
pub struct Outcome {
    /// How many rows it changed.
    pub affected: u64,
    /// The rows that it shows, None where it is no SELECT. They are shared with the tables, so that a row which is
    /// shown as it stands is not copied.
    pub rows: Option<List<Shared<Row>>>,
    /// The first value that it generated.
    pub first: Option<i64>,
}
