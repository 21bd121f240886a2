//! A command of a session.

use port_traits::{Draw, Identity};

/// What a command has round it: who the node is, the command's draw, and the number of its session.
#[derive(Clone, Copy)]
pub struct Command<'a> {
    pub identity: &'a Identity,
    pub draw: &'a Draw,
    pub number: u8,
}
