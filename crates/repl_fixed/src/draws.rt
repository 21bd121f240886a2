//! Who the nodes are, and what they draw.
ghost use Rattle.std.specs.Prelude.{◌≡◌, ◌<◌, ◌≤◌, codes, length, IfOk};

use port_traits::{Draw, Identity, MemEnv};
use std::alloc::Global;
use val_types::{List, NoMemory};

/// How many draws a node has; the last one repeats.
const DRAWS: u32 = 4096;

/// What a node draws: the moment of its first draw, in seconds since 1970, its seeds, and the number of its first identifier.
#[derive(Clone, Copy)]
struct Kind {
    moment: u32,
    seeds: (u64, u64),
    identifier: u32,
}

/// The source's draws.
const SOURCE: Kind = Kind {
    moment: 1_700_000_000,
    seeds: (1, 2),
    identifier: 0,
};

/// The replica's draws.
const REPLICA: Kind = Kind {
    moment: 1_600_000_000,
    seeds: (7, 9),
    identifier: 1000,
};

/// A number as the sixteen bytes of an identifier, the most significant first.
fn identifier_of(number: u32) -> [u8; 16] {
    let [a, b, c, d] = number.to_be_bytes();
    [0, 0, 0, 0, 0, 0, 0, 0, 0, 0, 0, 0, a, b, c, d]
}

/// A draw: so many seconds behind the first one, with an identifier as much greater.
fn drawn(kind: Kind, number: u32) -> Draw {
    let now = kind.moment.saturating_add(number);
    Draw {
        now,
        sys: now,
        seed1: kind.seeds.0,
        seed2: kind.seeds.1,
        uuid: identifier_of(kind.identifier.saturating_add(number)),
    }
}

/// The draws of a node: a first one, and those behind it.
fn draws_of(alloc: Global, kind: Kind) -> Result<List<Draw>, NoMemory>
    ensures { IfOk result (λ draws. 0 < length draws) }
{
    let mut draws = List::new(alloc);
    draws.push(drawn(kind, 0))?;
    for number in 1..DRAWS {
        draws.push(drawn(kind, number))?;
    }
    Ok(draws)
}

/// A node that is told who it is and what it draws.
fn env_of(alloc: Global, server_id: u32, user: &[u8], kind: Kind) -> Result<MemEnv, NoMemory>
    ensures { IfOk result (λ env. (env.identity.server_id ≡ server_id) × (env.identity.user ≡ user.now)) }
{
    let user = List::from_slice(alloc, user)?;
    let draws = draws_of(alloc, kind)?;
    Ok(MemEnv::new(Identity { server_id, user }, draws))
}

/// The source: server 1, `root@localhost`.
pub fn source_env(alloc: Global) -> Result<MemEnv, NoMemory>
    ensures { IfOk result (λ env. (env.identity.server_id ≡ 1) × (env.identity.user ≡ codes "root@localhost")) }
{
    env_of(alloc, 1, b"root@localhost", SOURCE)
}

/// The replica: server 2, `rep@localhost`.
pub fn replica_env(alloc: Global) -> Result<MemEnv, NoMemory>
    ensures { IfOk result (λ env. (env.identity.server_id ≡ 2) × (env.identity.user ≡ codes "rep@localhost")) }
{
    env_of(alloc, 2, b"rep@localhost", REPLICA)
}
