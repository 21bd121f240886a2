//! Where a number stands.

/// A block, and a place in it, both counted from 0.
#[derive(Clone, Copy)]
pub struct Spot {
    pub(crate) block: usize,
    pub(crate) at: usize,
}
