//! How far a store has come.
ghost use Rattle.std.specs.Prelude.{◌≡◌, OnOk};
ghost use Rattle.store_model.specs.sql_reach.catalog_rules.Bases.{Base};
ghost use Rattle.store_model.specs.Held.{carried_out, committed, log_begun, with_last_end};
ghost use Rattle.store_load.specs.Loading.{behind, ends_at, held_of};

use store_model::{Head, Record};
use val_types::{List, NoMemory};

/// What is held but for catalog and tables.
#[derive(Drop)]
pub struct Reached {
    /// How many transactions were committed, or carried out.
    pub number: u64,
    /// Where each log of a source ends, from the first on.
    pub ends: List<u32>,
    /// The log and the position up to which a replica has carried out its source's logs.
    pub log: u32,
    pub pos: u32,
}

/// Puts the end of the last log elsewhere.
#[tactic(auto, using(crate::proofs::Reaching::last_set, crate::proofs::Reaching::none_set))]
fn set_last(ends: &mut List<u32>, pos: u32)
    ensures { ends_at ends.new ≡ with_last_end pos (ends_at ends.old) }
{
    let count = ends.len();
    if count > 0 {
        ends.set(count - 1, pos);
    }
}

impl Reached {
    /// A transaction was committed.
    #[tactic(auto, using(crate::proofs::Reaching::with_ends))]
    fn commit(&mut self, head: &Head)
        ensures { (base made : Base) → held_of made self.new ≡ committed head.now (held_of base self.old) made }
    {
        set_last(&mut self.ends, head.pos);
        self.number = head.number;
    }

    /// A log began.
    #[tactic(auto, using(crate::proofs::Reaching::with_ends, crate::proofs::Reaching::one_begun))]
    fn begin_log(&mut self, head: &Head, old_end: u32) -> Result<(), NoMemory>
        ensures { OnOk result ((base made : Base) → held_of made self.new ≡ record (log_begun head.now old_end (held_of base self.old)) { base = made }) }
    {
        set_last(&mut self.ends, old_end);
        self.ends.push(head.pos)
    }

    /// A step was carried out.
    fn carry_out(&mut self, head: &Head)
        ensures { (base made : Base) → held_of made self.new ≡ carried_out head.now (held_of base self.old) made }
    {
        self.number = head.number;
        self.log = head.log;
        self.pos = head.pos;
    }

    /// Takes over what a record sets.
    pub(crate) fn take(&mut self, r: &Record) -> Result<(), NoMemory>
        ensures { OnOk result ((base made : Base) → held_of made self.new ≡ behind r.now (held_of base self.old) made) }
    {
        match r {
            Record::Transaction { head, .. } => self.commit(head),
            Record::Definition { head, .. } => self.commit(head),
            Record::LogStart { head, old_end } => self.begin_log(head, *old_end)?,
            Record::TransactionApplied { head, .. } => self.carry_out(head),
            Record::DefinitionApplied { head, .. } => self.carry_out(head),
            Record::PlaceMoved { head } => self.carry_out(head),
        }
        Ok(())
    }
}
