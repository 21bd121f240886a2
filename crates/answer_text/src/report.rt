//! What a run tells beside its output.

use port_traits::{Draw, Identity};
use val_types::List;

/// Where a run stood when a transaction was kept on a disk, or a command began: the command's number, the
/// transactions committed and applied, and the calls of each node's disk.
#[derive(Clone, Copy, PartialEq, Eq, Debug)]
pub struct Mark {
    pub command: u32,
    pub committed: u64,
    pub src_calls: u64,
    pub applied: u64,
    pub rep_calls: u64,
}

/// The identities and draws that a run took from its environments, the marks of what it kept, and where it
/// stands.
#[derive(Drop)]
pub struct Report {
    pub src_identity: Option<Identity>,
    pub rep_identity: Option<Identity>,
    pub src_draws: List<Draw>,
    pub rep_draws: List<Draw>,
    pub marks: List<Mark>,
    pub now: Mark,
}
