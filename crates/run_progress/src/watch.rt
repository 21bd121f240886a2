//! What counts bytes, and tells how many.

use std::io::Write;
use std::time::Instant;
use std::{env, io};

/// The environment variable that asks for it, whatever it holds.
const VARIABLE: &str = "REPL_PROGRESS";

/// How many bytes pass between two looks at the clock.
const STEP: u64 = 1_048_576;

/// How many bytes of something have passed.
#[derive(Drop)]
pub struct Watch<'a> {
    rt: &'a HostRuntime,
    what: &'static str,
    passed: u64,
    next: u64,
    told: Instant,
}

impl<'a> Watch<'a> {
    /// A watch over what is called so; none where it was not asked for, or the clock does not answer.
    pub fn asked(rt: &'a HostRuntime, what: &'static str) -> Option<Watch<'a>> {
        if env::var(rt, VARIABLE).is_err() {
            return None;
        }
        let told = Instant::now(rt).ok()?;
        Some(Watch {
            rt,
            what,
            passed: 0,
            next: STEP,
            told,
        })
    }

    /// Counts bytes that have passed, and tells how many, once a second at the most.
    pub fn pass(&mut self, count: usize) {
        self.passed = self.passed.saturating_add(count as u64);
        if self.passed < self.next {
            return;
        }
        self.next = self.passed.saturating_add(STEP);
        let Ok(since) = self.told.elapsed(self.rt) else {
            return;
        };
        if since.as_secs() == 0 {
            return;
        }
        if let Ok(now) = Instant::now(self.rt) {
            self.told = now;
        }
        // where standard error takes nothing, nothing is told
        let _ = self.tell();
    }

    /// Tells it in one line.
    fn tell(&self) -> io::Result<()> {
        let number = self.passed.to_string(self.rt.alloc())?;
        let mut err = self.rt.stderr();
        err.write_all(self.what.as_bytes())?;
        err.write_all(b": ")?;
        err.write_all(number.as_bytes())?;
        err.write_all(b" bytes read\n")
    }
}
