//! Where a walk stands.

use row_index::block_list::Spot;

/// Before an entry, and before a committed row.
#[derive(Clone, Copy)]
pub struct Place {
    pub entry: Spot,
    pub row: Spot,
}
