//! The source and the replica that tests of the program have: who they are, and what they draw.

use port_traits::{Draw, Identity, MemEnv};
use std::alloc::Global;
use val_types::{Bytes, List};

/// Bytes with memory of their own. What wants memory is left out, and then a test fails.
pub fn bytes(alloc: Global, of: &[u8]) -> Bytes {
    let mut bytes = List::new(alloc);
    let _ = bytes.extend_from_slice(of);
    bytes
}

/// The moments of the first draws of both nodes.
pub const SOURCE_MOMENT: u32 = 1_700_000_000;

pub const REPLICA_MOMENT: u32 = 1_600_000_000;

/// The seeds of a node whose first moment is given, and the number of its first identifier: the replica's are its own.
fn own_numbers(first: u32) -> (u64, u64, u32) {
    if first == REPLICA_MOMENT {
        (7, 9, 1000)
    } else {
        (1, 2, 0)
    }
}

/// A number as the sixteen bytes of an identifier, the most significant first.
fn identifier_of(number: u32) -> [u8; 16] {
    let [a, b, c, d] = number.to_be_bytes();
    [0, 0, 0, 0, 0, 0, 0, 0, 0, 0, 0, 0, a, b, c, d]
}

/// The n-th draw of a node whose first moment is given.
pub fn draw(first: u32, n: u32) -> Draw {
    let now = first.saturating_add(n);
    let (seed1, seed2, identifier) = own_numbers(first);
    Draw {
        now,
        sys: now,
        seed1,
        seed2,
        uuid: identifier_of(identifier.saturating_add(n)),
    }
}

/// An environment with so many draws.
fn environment(alloc: Global, identity: Identity, first: u32, count: u32) -> Option<MemEnv> {
    let mut draws = List::new(alloc);
    for n in 0..count {
        let _ = draws.push(draw(first, n));
    }
    if 0 < draws.len() {
        Some(MemEnv::new(identity, draws))
    } else {
        None
    }
}

/// The environments of the source and of the replica, with so many draws.
pub fn source_env(alloc: Global, draws: u32) -> Option<MemEnv> {
    let root = Identity {
        server_id: 1,
        user: bytes(alloc, b"root@localhost"),
    };
    environment(alloc, root, SOURCE_MOMENT, draws)
}

pub fn replica_env(alloc: Global, draws: u32) -> Option<MemEnv> {
    let rep = Identity {
        server_id: 2,
        user: bytes(alloc, b"rep@localhost"),
    };
    environment(alloc, rep, REPLICA_MOMENT, draws)
}
