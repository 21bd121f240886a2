//! What an APPLY tells.

use commit_store::Prepared;
use relay_log::Walk;
use val_types::{Bytes, Row, SqlError};

/// Why no more was carried out.
#[derive(Drop)]
pub enum Stopped {
    /// What is read and the tables differ: the place of the event, the error's number, and the table and the primary key that
    /// it is about, empty where there is none.
    Differs {
        pos: u64,
        code: SqlError,
        table: Bytes,
        key: Row,
    },
    /// An event is outside its form, or no group has it there.
    Damaged {
        pos: u64,
    },
    /// An event is not known, with its type.
    Foreign {
        pos: u64,
        kind: u8,
    },
}

/// How many definitions and transactions were carried out, the place behind them, and what stopped, if anything did.
#[derive(Drop)]
pub struct Applied {
    pub count: u32,
    pub log: u32,
    pub pos: u32,
    pub stop: Option<Stopped>,
}

/// What was done at a place of the relay, with the record that is to be kept of it.
#[derive(Drop)]
pub enum Step {
    /// The beginning of a log, which is passed over: where to look next.
    Over(Walk),
    /// The end of a log, behind which the replica stands now.
    Moved(Prepared),
    /// A definition or a transaction, carried out.
    Carried(Prepared),
    /// Nothing, as there is no whole group.
    Waits,
    /// Nothing, for this reason.
    Stopped(Stopped),
}
