//! What all sessions share.
ghost use Rattle.std.specs.Prelude.{◌≡◌, ◌≤◌, [], ◌∷◌, false, length, None, Some, IfOk, OnErr, OnOk};
ghost use Rattle.prog_work.specs.Contents.{base_of};
ghost use Rattle.session_model.specs.log_entries.declared.entries.Entry.TheVariants.{Transaction};
ghost use Rattle.session_model.specs.binlog_sizes.Sizes.{are_too_large};
ghost use Rattle.session_model.specs.Running.{all_committed, is_other, released, writing_check};
ghost use Rattle.session_model.specs.Commands.{changes_of_own, dropped};
ghost use Rattle.session_shared.specs.Desk.{cut_to, has_any, own_behind, shared_of};
ghost use Rattle.session_shared.specs.Logging.{Logs};
ghost use Rattle.waiting_entries.specs.Making.{has_place};

use crate::checking::Refusal;
use crate::logged::Logged;
use prog_work::Work;
use std::alloc::{AllocError, Global};
use txn_lock::WriterLock;
use val_types::{Change, List, NoMemory, SqlError};
use waiting_entries::binlog_items::Items;
use waiting_entries::{Head, made_transaction};

/// How many transactions may be committed.
const MOST_COMMITTED: u64 = 4_294_967_295;

/// There are too many transactions, or the log is full.
const TOO_MANY: SqlError = 30008;

/// Another session writes.
const OTHER_WRITES: SqlError = 1205;

/// The rows with the open changes, the session that writes, how many transactions were committed, and where the next one is logged,
/// with what waits to be written.
#[derive(Drop)]
pub struct Desk {
    pub work: Work,
    pub lock: WriterLock,
    pub committed: u64,
    pub log: Logged,
}

impl Desk {
    /// What a store has: its tables with its catalog and counters, how many transactions were committed, and where the next one comes.
    /// No change is open, no session writes, and nothing waits.
    pub fn found(alloc: Global, work: Work, at: Head) -> Desk
        requires none { work.changes ≡ [] }
        ensures shared { shared_of result ≡ record { base = base_of work; counters = work.counters; changes = []; writer = None; committed = at.number; place = has_place at } }
        ensures log { result.log.waiting ≡ [] }
    {
        Desk {
            work,
            lock: WriterLock::new(),
            committed: at.number,
            log: Logged {
                log: at.log,
                pos: at.pos,
                waiting: List::new(alloc),
            },
        }
    }

    /// How many transactions were committed.
    pub fn committed(&self) -> u64
        ensures { result ≡ (shared_of self.now).committed }
    {
        self.committed
    }

    /// Whether a change is open.
    pub fn has_changes(&self) -> bool
        ensures { result ≡ has_any ((shared_of self.now).changes) }
    {
        self.work.undo().mark() > 0
    }

    /// Whether another session writes.
    pub fn is_other(&self, session: u8) -> bool
        ensures { result ≡ is_other session (shared_of self.now).writer }
    {
        self.lock.other(session).is_some()
    }

    /// What refuses a statement that writes.
    pub fn writing_check(&self, session: u8) -> Option<Refusal>
        ensures { result ≡ writing_check session (shared_of self.now) }
    {
        if self.committed >= MOST_COMMITTED || self.log.is_full() {
            return Some(Refusal {
                code: TOO_MANY,
                holder: None,
            });
        }
        match self.lock.other(session) {
            None => None,
            Some(holder) => Some(Refusal {
                code: OTHER_WRITES,
                holder: Some(holder),
            }),
        }
    }

    /// The session writes from here on.
    pub fn take_lock(&mut self, session: u8)
        ensures shared { shared_of self.new ≡ record (shared_of self.old) { writer = Some session } }
        ensures log { self.new.log ≡ self.old.log }
    {
        let mut lock = WriterLock::new();
        let _ = lock.take(session);
        self.lock = lock;
    }

    /// Frees the writer's lock where the session has it.
    pub fn release(&mut self, session: u8)
        ensures shared { shared_of self.new ≡ released session (shared_of self.old) }
        ensures log { self.new.log ≡ self.old.log }
    {
        self.lock.release(session);
    }

    /// Where the next entry comes, with how many transactions stand before it.
    pub fn place(&self) -> Head
        ensures { result ≡ record { number = self.now.committed; log = self.now.log.log; pos = self.now.log.pos } }
    {
        Head {
            number: self.committed,
            log: self.log.log,
            pos: self.log.pos,
        }
    }

    /// Commits the open changes as the transaction of some items, and logs it. What it leaves to be written is made before anything is
    /// kept.
    pub fn commit(
        &mut self,
        alloc: Global,
        stamp: u32,
        server_id: u32,
        items: &Items,
    ) -> Result<(), NoMemory>
        requires some { 1 ≤ length items.now }
        requires small { are_too_large items.now ≡ false }
        ensures shared { OnOk result (shared_of self.new ≡ all_committed (Transaction stamp server_id items.now) (shared_of self.old)) }
        ensures log { OnOk result (Logs (Transaction stamp server_id items.now ∷ []) self.old self.new) }
        ensures err { OnErr result (self.new ≡ self.old) }
    {
        let Some(committed) = self.committed.checked_add(1) else {
            return Err(AllocError);
        };
        let made = made_transaction(alloc, self.place(), stamp, server_id, items)?;
        self.log.put(made)?;
        self.work.together();
        self.work.commit();
        self.committed = committed;
        Ok(())
    }

    /// Drops the open changes of a session, with its lock.
    pub fn drop_changes(&mut self, session: u8)
        ensures shared { shared_of self.new ≡ dropped session (shared_of self.old) }
        ensures log { self.new.log ≡ self.old.log }
    {
        if !self.is_other(session) {
            self.work.take_back_to(0);
            self.lock.release(session);
        }
    }

    /// How many changes the transaction of a session has.
    pub fn own_changes(&self, session: u8) -> u64
        ensures { result ≡ changes_of_own session (shared_of self.now) }
    {
        if self.is_other(session) {
            0
        } else {
            self.work.undo().mark()
        }
    }

    /// Whether a session has changes behind so many.
    pub fn has_changed(&self, session: u8, mark: u64) -> bool
        ensures { result ≡ has_any (own_behind session mark (shared_of self.now)) }
    {
        !self.is_other(session) && mark < self.work.undo().mark()
    }

    /// Copies of the changes of a session behind so many.
    pub fn changes_since(
        &self,
        alloc: Global,
        session: u8,
        mark: u64,
    ) -> Result<List<Change>, NoMemory>
        ensures { IfOk result (λ changes. changes ≡ own_behind session mark (shared_of self.now)) }
    {
        if self.is_other(session) || mark >= self.work.undo().mark() {
            return Ok(List::new(alloc));
        }
        self.work.undo().since(mark)
    }

    /// Takes the changes of a session back to so many.
    pub fn cut(&mut self, session: u8, count: u64)
        ensures shared { shared_of self.new ≡ cut_to session count (shared_of self.old) }
        ensures log { self.new.log ≡ self.old.log }
    {
        if !self.is_other(session) {
            self.work.take_back_to(count);
        }
    }
}
