//! Items of a transaction, and entries of what a source committed.

use crate::carried::Carried;
use sharing::Shared;
use val_types::{Bytes, Change, List, TableDef};

/// A statement that changed rows, as a log has it: by its text with what that carries, or by its rows.
#[derive(Drop)]
pub struct Item {
    pub text: Bytes,
    pub carried: Carried,
    /// Whether it is logged by its rows.
    pub rows: bool,
    /// The definitions of the tables of its changes, shared with the catalog that they come from.
    pub defs: List<Shared<TableDef>>,
    pub changes: List<Change>,
}

/// An entry of what a source committed, in its order. `I` is what is known of an item; a definition is one, too.
#[derive(Drop)]
pub enum Entry<I> {
    /// A transaction: the moment of the command that commits it, the server's number, its items.
    Transaction {
        stamp: u32,
        server_id: u32,
        items: List<I>,
    },
    /// A CREATE, DROP or TRUNCATE.
    Definition {
        stamp: u32,
        server_id: u32,
        item: I,
    },
    /// A log begins.
    LogStart {
        stamp: u32,
        server_id: u32,
    },
}
