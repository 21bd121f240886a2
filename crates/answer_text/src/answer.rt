//! What a command is answered.

use val_types::{List, Row, SqlError};

/// How an answer ends: rows were affected, rows were shown, or the command is refused.
#[derive(Drop)]
pub enum End {
    /// So many rows were affected, 0 for what affects none.
    Ok {
        affected: u64,
        warned: bool,
    },
    /// The rows of the last set were shown.
    Rows {
        warned: bool,
    },
    /// An error, with the place of a syntax error in the text, and with the session that holds the
    /// writer's lock.
    Refused {
        code: SqlError,
        at: Option<u32>,
        holder: Option<u8>,
    },
}

/// The sets of rows that a command shows, and how it ends.
#[derive(Drop)]
pub struct Answer {
    pub sets: List<List<Row>>,
    pub end: End,
}
