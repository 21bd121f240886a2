//! One step of an APPLY: a group that is carried out, passed over or passed, or what stops it.
ghost use Rattle.std.specs.Prelude.{◌≡◌, ◌-◌, ℕ, [], length, IfOk, OnErr};
ghost use Rattle.log_groups.specs.Views.{group_seen};
ghost use Rattle.stmt_apply.specs.prog_run.prog_work.Contents.{base_of};
ghost use Rattle.relay_log.specs.Reaching.{IsAhead};
ghost use Rattle.relay_log.specs.apply_model.Groups.{group_carried};
ghost use Rattle.replica_model.specs.Applying.{Going as Under, by_next, next_at};
ghost use Rattle.replica_node.specs.Kept.{replica_of};
ghost use Rattle.replica_node.specs.Records.{IsDefinition, IsTransaction, Leaves, IsRecorded, MovesOn};
ghost use Rattle.replica_node.specs.Steps.{CarriesOut, GoesOn, IsOver, Tells, behind_step, ended_by, going_at};

use crate::records::{definition_record, head_at, place_record, transaction_record};
use crate::replica::ReplicaNode;
use crate::told::{Applied, Step, Stopped};
use commit_store::store_model::{Head, steps_lead};
use log_groups::{Form, Group, Next};
use port_traits::{Draw, Identity};
use relay_log::Walk;
use row_apply::Stop;
use std::alloc::Global;
use stmt_apply::answer_making::NodeFault;
use stmt_apply::apply_group;
use stmt_apply::prog_run::Work;
use val_types::Duplicate;

/// Why a group is not carried out, unless memory is short.
fn stopped(alloc: Global, stop: Stop) -> Result<Step, NodeFault>
    ensures { IfOk result (λ step. Tells stop step) }
{
    match stop {
        Stop::Differs {
            pos,
            code,
            table,
            key,
        } => Ok(Step::Stopped(Stopped::Differs {
            pos,
            code,
            table: table.copied(alloc)?,
            key,
        })),
        Stop::NoMemory => Err(NodeFault::NoMemory),
    }
}

/// Carries a transaction out, makes its record of its changes, and lets them stand; or says why it stops. Where memory is short its
/// changes go back.
#[tactic(auto, using(stmt_apply::proofs::Staying::given_back, crate::proofs::Carrying::transaction_opens))]
fn carry_transaction(
    alloc: Global,
    work: &mut Work,
    group: &Group<'_>,
    head: Head,
    identity: &Identity,
    draw: &Draw,
) -> Result<Step, NodeFault>
    requires none { work.old.changes ≡ [] }
    requires form { IsTransaction (group_seen group.now).form }
    ensures carried { IfOk result (λ step. CarriesOut step work.old work.new (group_carried identity.now draw.entry.now (base_of work.old) work.old.counters (group_seen group.now))) }
    ensures makes { IfOk result (λ step. IsRecorded step head work.old work.new) }
    ensures changes { work.new.changes ≡ [] }
    ensures err { OnErr result (work.new ≡ work.old) }
{
    steps_lead();
    let counters = work.counters().duplicate(alloc)?;
    if let Err(stop) = apply_group(alloc, work, group, identity, draw) {
        return stopped(alloc, stop);
    }
    match transaction_record(alloc, head, work) {
        Ok(kept) => {
            work.commit();
            Ok(Step::Carried(kept))
        }
        Err(_) => {
            work.give_up(counters);
            Err(NodeFault::NoMemory)
        }
    }
}

/// Makes the record of a definition and carries it out, which cannot be taken back; or says why it stops.
fn carry_definition(
    alloc: Global,
    work: &mut Work,
    group: &Group<'_>,
    head: Head,
    text: &[u8],
    identity: &Identity,
    draw: &Draw,
) -> Result<Step, NodeFault>
    requires none { work.old.changes ≡ [] }
    requires form { IsDefinition text.now (group_seen group.now).form }
    ensures carried { IfOk result (λ step. CarriesOut step work.old work.new (group_carried identity.now draw.entry.now (base_of work.old) work.old.counters (group_seen group.now))) }
    ensures makes { IfOk result (λ step. IsRecorded step head work.old work.new) }
    ensures changes { work.new.changes ≡ [] }
    ensures err { OnErr result (work.new ≡ work.old) }
{
    steps_lead();
    let kept = definition_record(alloc, head, text)?;
    match apply_group(alloc, work, group, identity, draw) {
        Ok(()) => Ok(Step::Carried(kept)),
        Err(stop) => stopped(alloc, stop),
    }
}

impl ReplicaNode {
    /// The place behind what was carried out, where nothing is passed over yet.
    pub fn here(&self) -> Walk
        ensures over { IsOver (replica_of self.now) result }
        ensures passed { result.passed ≡ 0 }
    {
        self.relay.here()
    }

    /// The end of a log, behind which the replica goes on, with its record.
    fn move_on(&mut self, behind: &Walk) -> Result<Step, NodeFault>
        requires { IsAhead self.old.relay behind.now }
        ensures moves { IfOk result (λ step. MovesOn step self.old self.new behind.now) }
        ensures err { OnErr result (self.new ≡ self.old) }
    {
        steps_lead();
        let kept = place_record(self.alloc, head_at(self.number, behind.place))?;
        self.relay.pass(behind);
        Ok(Step::Moved(kept))
    }

    /// Passes a group that was carried out; where none was, all stays.
    fn pass_carried(&mut self, step: Step, behind: &Walk) -> Step
        requires { IsAhead self.old.relay behind.now }
        ensures step { result ≡ step }
        ensures passes { self.new ≡ behind_step step behind.now self.old }
    {
        if let Step::Carried(_) = &step {
            self.number = self.number.saturating_add(1);
            self.relay.pass(behind);
        }
        step
    }

    /// What stands behind bytes that were passed over: the beginning of a log is passed over too, its end is passed, and a
    /// definition or a transaction is carried out. What is to be kept of it is its record; where memory is short, all is as it was.
    pub fn step(&mut self, ahead: &Walk, draw: &Draw) -> Result<Step, NodeFault>
        requires { IsOver (replica_of self.old) ahead.now }
        ensures identity { self.new.identity ≡ self.old.identity }
        ensures step { IfOk result (λ step. (more : Under → Under) → (count : ℕ) → by_next more self.old.identity draw.entry.now (going_at (replica_of self.old) ahead.now.passed count) (next_at (going_at (replica_of self.old) ahead.now.passed count))
            ≡ ended_by more step (replica_of self.new) ahead.now.passed count) }
        ensures err { OnErr result (self.new ≡ self.old) }
        ensures goes_on { IfOk result (λ step. GoesOn step (length (replica_of self.old).relay - ahead.now.passed) (replica_of self.new)) }
        ensures leaves { IfOk result (λ step. Leaves step (replica_of self.old) (replica_of self.new)) }
    {
        match self.relay.next(ahead) {
            Next::NotWhole => Ok(Step::Waits),
            Next::Damaged { pos } => Ok(Step::Stopped(Stopped::Damaged { pos })),
            Next::Foreign { pos, kind } => Ok(Step::Stopped(Stopped::Foreign { pos, kind })),
            Next::Group(group) => {
                let behind = self.relay.behind(ahead, &group);
                match &group.form {
                    Form::Start => Ok(Step::Over(behind)),
                    Form::Rotate { .. } => self.move_on(&behind),
                    Form::Ddl(query) => {
                        let step = carry_definition(
                            self.alloc,
                            &mut self.work,
                            &group,
                            head_at(self.number.saturating_add(1), behind.place),
                            query.text,
                            &self.identity,
                            draw,
                        )?;
                        Ok(self.pass_carried(step, &behind))
                    }
                    Form::Txn { .. } => {
                        let step = carry_transaction(
                            self.alloc,
                            &mut self.work,
                            &group,
                            head_at(self.number.saturating_add(1), behind.place),
                            &self.identity,
                            draw,
                        )?;
                        Ok(self.pass_carried(step, &behind))
                    }
                }
            }
        }
    }

    /// What is told of so many groups that were carried out.
    pub fn applied(&self, count: u32, stop: Option<Stopped>) -> Applied
        ensures count { result.count ≡ count }
        ensures place { record { log = result.log; pos = result.pos } ≡ (replica_of self.now).place }
        ensures stop { result.stop ≡ stop }
    {
        let place = self.relay.place();
        Applied {
            count,
            log: place.log,
            pos: place.pos,
            stop,
        }
    }
}
