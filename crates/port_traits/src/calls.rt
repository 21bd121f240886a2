//! Which calls of an object in memory fail, how many calls and faults it has had, and how many calls
//! since its end.
ghost use Rattle.std.specs.Prelude.{◌≡◌, ◌≤◌, max, if◌then◌else◌, is_err};
ghost use Rattle.fault_counts.specs.Causes.{HasCause, one_more};
ghost use Rattle.port_traits.specs.Memory.{is_among};
ghost use Rattle.port_traits.specs.Streams.{ended_after};

use crate::failed::Failed;
use val_types::List;

/// How many calls there were from the first one on that was the end of a stream, after one call more.
pub fn ended_after(ended: u64, end: bool) -> u64
    ensures { result ≡ ended_after ended end }
{
    if end || ended > 0 {
        ended.saturating_add(1)
    } else {
        0
    }
}

/// The calls of an object in memory, counted from 1. All counts stand still at 2^64 - 1.
#[derive(Drop)]
pub struct Calls {
    /// The numbers of the calls that fail.
    pub fails: List<u64>,
    pub count: u64,
    pub faults: u64,
    /// How many calls there were from the object's end on.
    pub ended: u64,
}

impl Calls {
    /// No call has been made yet.
    pub fn new(fails: List<u64>) -> Calls
        ensures { result ≡ record { fails = fails; count = 0; faults = 0; ended = 0 } }
    {
        Calls {
            fails,
            count: 0,
            faults: 0,
            ended: 0,
        }
    }

    /// Counts a call, and a fault where the call is one that fails; a fault is the object's end.
    pub fn begin(&mut self) -> Result<(), Failed>
        ensures cause { HasCause self.old.faults self.new.faults result }
        ensures answer { is_err result ≡ is_among self.old.fails (one_more self.old.count) }
        ensures after { self.new ≡ record {
          fails = self.old.fails;
          count = one_more self.old.count;
          faults = if is_err result then one_more self.old.faults else self.old.faults;
          ended = ended_after self.old.ended (is_err result);
        } }
    {
        self.count = self.count.saturating_add(1);
        let fails = self.fails.as_slice().contains(&self.count);
        self.ended = ended_after(self.ended, fails);
        if fails {
            self.faults = self.faults.saturating_add(1);
            return Err(Failed);
        }
        Ok(())
    }

    /// A fault in a call that had begun well.
    pub fn fault(&mut self) -> Failed
        ensures later { self.old.faults ≤ self.new.faults }
        ensures after { self.new ≡ record self.old {
          faults = one_more self.old.faults;
          ended = max self.old.ended 1;
        } }
    {
        self.faults = self.faults.saturating_add(1);
        self.end();
        Failed
    }

    /// The call that had begun well was the object's end.
    pub fn end(&mut self)
        ensures { self.new ≡ record self.old { ended = max self.old.ended 1 } }
    {
        self.ended = self.ended.max(1);
    }
}
