//! A record applied to what is held.
ghost use Rattle.std.specs.Prelude.{◌≡◌, ◌≤◌, ◌<◌, [], length, IfOk, true};
ghost use Rattle.store_model.specs.declared.record.Record.TheVariants.{Transaction, Definition};
ghost use Rattle.store_model.specs.sql_reach.catalog_rules.Bases.{Base};
ghost use Rattle.store_model.specs.Bodies.{record_of};
ghost use Rattle.store_model.specs.Held.{applied, begins_log, body_applied, changed, is_next_commit, most_logs, next_applied};
ghost use Rattle.prog_work.specs.Contents.{base_of};
ghost use Rattle.store_load.specs.Whose.{HasTextWithin, IsOf};
ghost use Rattle.store_load.specs.Loading.{BaseIs, GoesOn, HeldIs, base_made, held_in, held_of, is_next};

use crate::changing::make_all;
use crate::defining::define_by;
use crate::reached::Reached;
use crate::stored::Stored;
use prog_work::Work;
use std::alloc::Global;
use store_bodies::record_of;
use store_model::{Head, Record};
use val_types::{Change, List, NoMemory};

/// How many transactions a source commits at the most.
const MOST_COMMITTED: u64 = 4_294_967_295;

/// How many logs it has at the most.
const MOST_LOGS: u32 = 60_000;

/// Where its last log ends at the latest.
const LATEST_END: u32 = 1_150_000_000;

/// Where the logs before it end at the latest.
const LATEST_OLD_END: u32 = 1_150_000_040;

/// Whether a head has the number behind the last one and speaks of the last log.
fn is_next_commit(reached: &Reached, head: &Head) -> bool
    ensures { (base : Base) → result ≡ is_next_commit head.now (held_of base reached.now) }
{
    reached.number < MOST_COMMITTED
        && head.number == reached.number + 1
        && head.log > 0
        && head.log as usize == reached.ends.len()
        && head.pos <= LATEST_END
}

/// Whether a head has the last number and speaks of the next log, where the log before it may end so.
fn begins_log(reached: &Reached, head: &Head, old_end: u32) -> bool
    ensures { (base : Base) → result ≡ begins_log head.now old_end (held_of base reached.now) }
{
    head.number == reached.number
        && head.number <= MOST_COMMITTED
        && head.log > 0
        && (head.log - 1) as usize == reached.ends.len()
        && head.log <= MOST_LOGS
        && head.pos <= LATEST_END
        && old_end <= LATEST_OLD_END
        && (!reached.ends.is_empty() || old_end == 0)
}

/// Whether a record may be the next one, whatever its changes or its text.
fn is_next(reached: &Reached, r: &Record) -> bool
    ensures { (base : Base) → result ≡ is_next r.now (held_of base reached.now) }
{
    match r {
        Record::Transaction { head, .. } => is_next_commit(reached, head),
        Record::Definition { head, .. } => is_next_commit(reached, head),
        Record::LogStart { head, old_end } => begins_log(reached, head, *old_end),
        Record::TransactionApplied { head, .. } => head.number == reached.number.saturating_add(1),
        Record::DefinitionApplied { head, .. } => head.number == reached.number.saturating_add(1),
        Record::PlaceMoved { head } => head.number == reached.number,
    }
}

/// The changes of a transaction made, to stay.
fn change_rows(alloc: Global, work: &mut Work, changes: List<Change>) -> Result<bool, NoMemory>
    ensures { IfOk result (λ made. BaseIs made (changed changes (base_of work.old)) work.new) }
{
    if !make_all(alloc, work, changes)? {
        return Ok(false);
    }
    work.commit();
    Ok(true)
}

/// The base that a record makes.
fn make_base(alloc: Global, work: &mut Work, r: Record) -> Result<bool, NoMemory>
    requires none { work.old.changes ≡ [] }
    requires text { HasTextWithin 4294967295 r }
    ensures { IfOk result (λ made. BaseIs made (base_made r (base_of work.old)) work.new) }
{
    match r {
        Record::Transaction { changes, .. } => change_rows(alloc, work, changes),
        Record::TransactionApplied { changes, .. } => change_rows(alloc, work, changes),
        Record::Definition { text, .. } => define_by(alloc, work, text.as_slice()),
        Record::DefinitionApplied { text, .. } => define_by(alloc, work, text.as_slice()),
        Record::LogStart { .. } => Ok(true),
        Record::PlaceMoved { .. } => Ok(true),
    }
}

/// A record applied to what was read, where it can be the next one.
fn apply(alloc: Global, stored: &mut Stored, r: Record) -> Result<bool, NoMemory>
    requires none { stored.old.work.changes ≡ [] }
    requires kind { IsOf stored.old.node r }
    requires text { HasTextWithin 4294967295 r }
    ensures held { IfOk result (λ made. HeldIs made (applied r (held_in stored.old)) (held_in stored.new)) }
    ensures rest { IfOk result (λ made. made ≡ true → GoesOn stored.old stored.new) }
{
    if !is_next(&stored.reached, &r) {
        return Ok(false);
    }
    stored.reached.take(&r)?;
    make_base(alloc, &mut stored.work, r)
}

/// The record that a body is applied, where it is one that can be the next.
pub(crate) fn apply_body(alloc: Global, stored: &mut Stored, body: &[u8]) -> Result<bool, NoMemory>
    requires none { stored.old.work.changes ≡ [] }
    requires fits { length body.now ≤ 4294967295 }
    ensures held { IfOk result (λ made. HeldIs made (body_applied stored.old.node body.now (held_in stored.old)) (held_in stored.new)) }
    ensures rest { IfOk result (λ made. made ≡ true → GoesOn stored.old stored.new) }
{
    match record_of(alloc, stored.node, body)? {
        Some(r) => apply(alloc, stored, r),
        None => Ok(false),
    }
}
