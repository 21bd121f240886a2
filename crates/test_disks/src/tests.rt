//! Disks and journals, by tables worked out by hand.
//!
//! What wants memory is left out, and then the test fails.

mod crashes;
mod folders;
mod memory;

use std::alloc::Global;
use val_types::{Bytes, List};

/// Bytes with memory of their own.
fn bytes(alloc: Global, of: &[u8]) -> Bytes {
    let mut bytes = List::new(alloc);
    let _ = bytes.extend_from_slice(of);
    bytes
}

/// Bodies with memory of their own.
fn listed(alloc: Global, bodies: &[&'static [u8]]) -> List<Bytes> {
    let mut list = List::new(alloc);
    for body in bodies {
        let _ = list.push(bytes(alloc, *body));
    }
    list
}
