//! Bodies and stores, by tables worked out by hand.
//!
//! What wants memory is left out, and then the test fails.

mod bodies;
mod crashes;
mod reading;
mod tables;

use std::alloc::Global;
use val_types::{Bytes, List};

/// Bytes with memory of their own.
fn bytes(alloc: Global, of: &[u8]) -> Bytes {
    let mut bytes = List::new(alloc);
    let _ = bytes.extend_from_slice(of);
    bytes
}
