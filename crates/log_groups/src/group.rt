//! A group of events, as a view of the bytes that it was read from.

use crate::items::Items;
use event_codec::QueryView;

/// What a group is.
#[derive(Clone, Copy)]
pub enum Form<'a> {
    /// A log begins.
    Start,
    /// The log with this number follows.
    Rotate {
        next: u32,
    },
    /// A CREATE, DROP or TRUNCATE.
    Ddl(QueryView<'a>),
    /// A transaction: its BEGIN, its items, and its number.
    Txn {
        begin: QueryView<'a>,
        items: Items<'a>,
        xid: u64,
    },
}

/// A group, with the places of its first byte and of the byte behind it.
#[derive(Clone, Copy)]
pub struct Group<'a> {
    pub form: Form<'a>,
    pub begin: u64,
    pub end: u64,
}

/// What stands at the front of some bytes: a group; a front of one; or an event that is outside its
/// form, not known, or that no group has there, with its place.
#[derive(Clone, Copy)]
pub enum Next<'a> {
    Group(Group<'a>),
    NotWhole,
    Damaged { pos: u64 },
    Foreign { pos: u64, kind: u8 },
}
