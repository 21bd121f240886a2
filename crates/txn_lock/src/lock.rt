//! The lock, and the refusal to one who asks for it beside its holder.
ghost use Rattle.std.specs.Prelude.{◌≡◌, None, Some, IfErr, OnErr, OnOk};
ghost use Rattle.txn_lock.specs.Lock.{freed_by, other_than};

use std::marker::Model;

/// The writer's lock, which contracts see as the session that holds it.
#[derive(Drop)]
pub struct WriterLock {
    holder: Option<u8>,
}

impl Model for WriterLock {
    ghost use Rattle.std.specs.Prelude.{Option, ℕ};

    ghost Value = { Option ℕ };

    ghost view = { λ l. l.holder };
}

/// Another session holds the lock.
#[derive(Clone, Copy)]
pub struct Busy {
    pub holder: u8,
}

impl WriterLock {
    /// A lock that no session holds.
    pub fn new() -> WriterLock
        ensures { result ≡ None }
    {
        WriterLock { holder: None }
    }

    /// The other session that holds the lock, if there is one.
    pub fn other(&self, session: u8) -> Option<u8>
        ensures { result ≡ other_than session self.now }
    {
        match self.holder {
            Some(holder) if holder != session => Some(holder),
            _ => None,
        }
    }

    /// Gives the lock to a session, which may hold it already.
    pub fn take(&mut self, session: u8) -> Result<(), Busy>
        ensures ok { OnOk result ((other_than session self.old ≡ None) × (self.new ≡ Some session)) }
        ensures busy { IfErr result (λ busy. other_than session self.old ≡ Some busy.holder) }
        ensures err { OnErr result (self.new ≡ self.old) }
    {
        match self.other(session) {
            Some(holder) => Err(Busy { holder }),
            None => {
                self.holder = Some(session);
                Ok(())
            }
        }
    }

    /// Frees the lock where the session holds it.
    pub fn release(&mut self, session: u8)
        ensures { self.new ≡ freed_by session self.old }
    {
        if self.other(session).is_none() {
            self.holder = None;
        }
    }
}
