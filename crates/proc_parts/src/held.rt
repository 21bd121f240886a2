//! What a CALL has so far.
use val_types::{List, Row};

/// The turns of WHILE left and the UUIDs made, the sets of rows shown, and how many rows were affected.
#[derive(Drop)]
pub struct Held {
    pub turns: u32,
    pub uuids: u128,
    pub sets: List<List<Row>>,
    pub affected: u64,
}
