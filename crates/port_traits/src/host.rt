//! The clock and the random source of the runtime as the environment of a node.
ghost use Rattle.std.specs.Prelude.{◌≡◌, ◌<◌, None, IfOk};

use crate::env::Env;
use crate::identity::{Draw, Identity};
use std::random::RandomSource;
use std::rt::Clock;
use val_types::NoMemory;

/// The words that RAND() starts from are below this number.
pub const SEED_BOUND: u64 = 1_073_741_823;

/// The environment that the runtime gives, with an identity that is handed in.
///
/// It does not tell its identity and draws. A clock or a random source that fails gives zeros, and
/// so does a clock past the year 2106, whose seconds do not fit.
#[derive(Drop)]
pub struct HostEnv<R> {
    rt: R,
    pub identity: Identity,
}

impl<R: Clock + RandomSource> HostEnv<R> {
    /// The environment of the node with this identity.
    pub fn new(rt: R, identity: Identity) -> HostEnv<R>
        ensures { result.identity ≡ identity }
    {
        HostEnv { rt, identity }
    }

    /// The seconds since 1970-01-01 UTC, 0 where the clock fails or they do not fit.
    fn seconds(&self) -> u32 {
        match self.rt.since_1970() {
            Ok(time) => u32::try_from(time.as_secs()).unwrap_or(0),
            Err(_) => 0,
        }
    }

    /// Random bytes, all 0 where the random source fails.
    fn random_bytes<const N: usize>(&self) -> [u8; N] {
        let mut bytes = [0; N];
        match self.rt.fill_bytes(&mut bytes) {
            Ok(()) => bytes,
            Err(_) => [0; N],
        }
    }

    /// A random word that RAND() may start from.
    fn seed(&self) -> u64
        ensures { result < SEED_BOUND }
    {
        u64::from_be_bytes(self.random_bytes()) % SEED_BOUND
    }
}

impl<R: Clock + RandomSource> Env for HostEnv<R> {
    ghost told = { λ _. None };

    ghost draws = { λ _. None };

    fn identity(&mut self) -> Result<Identity, NoMemory>
        ensures value { IfOk result (λ identity. identity ≡ self.old.identity) }
        ensures same { self.new ≡ self.old }
    {
        self.identity.clone()
    }

    fn draw(&mut self) -> Draw
        ensures one_time { result.now ≡ result.sys }
        ensures first_seed { result.seed1 < SEED_BOUND }
        ensures second_seed { result.seed2 < SEED_BOUND }
        ensures same { self.new ≡ self.old }
    {
        let seconds = self.seconds();
        Draw {
            now: seconds,
            sys: seconds,
            seed1: self.seed(),
            seed2: self.seed(),
            uuid: self.random_bytes(),
        }
    }
}
