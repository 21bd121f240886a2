//! A log on an input, replayed.
ghost use Rattle.std.specs.Prelude.{◌≡◌, ◌≤◌, [], Err, IfErr, IfOk, None, OnErr, OnOk};
ghost use Rattle.fault_counts.specs.Causes.{Rose};
ghost use Rattle.disk_model.specs.Moments.{GoesOn, IsSettled};
ghost use Rattle.durable_replica.specs.Standing.{IsOnDisk};
ghost use Rattle.durable_replica.specs.store_replica.durable_runs.Replicas.{ReplicaRuns};
ghost use Rattle.durable_replica.specs.replica_node.Kept.{held_of};
ghost use Rattle.store_model.specs.Held.{Held};
ghost use Rattle.durable_replica.specs.store_replica.Writing.{OpensOn};
ghost use Rattle.run_streams.specs.Reports.{AllTold, IsEmpty, Tells};
ghost use Rattle.run_streams.specs.Stops.{failed_writes, status_of};
ghost use Rattle.replay_log.specs.Ends.{Opened, ReplayEnds, Reports};
ghost use Rattle.replay_log.specs.Replaying.{CameTo, IsFresh, IsRefused, Refused, kept};

use crate::replaying::Replaying;
use answer_text::{Report, Status};
use disk_model::{Disk, OpenRefusal};
use durable_replica::DurableReplica;
use port_traits::{Draw, Env, Identity, Sink, Source};
use run_streams::open;
use std::alloc::Global;

/// Opens a replica on what its disk has.
fn opened_on<R: Disk>(
    alloc: Global,
    rep: &mut R,
    identity: Identity,
    draw: &Draw,
) -> Result<Replaying, Status>
    requires settled { IsSettled (R.told rep.old) }
    ensures identity { IfOk result (λ r. r.node.node.identity ≡ identity) }
    ensures fresh { IfOk result (λ r. IsFresh r) }
    ensures on { IfOk result (λ r. IsOnDisk (R.told rep.new) r.node) }
    ensures opened { IfOk result (λ r. Opened (R.told rep.old) (kept r)) }
    ensures holds { IfOk result (λ r. OpensOn (R.told rep.old) (held_of (kept r))) }
    ensures runs { (held : Held) → OpensOn (R.told rep.old) held → ReplicaRuns (R.told rep.old) (R.told rep.new) held [] [] [] }
    ensures refused { IfErr result (λ status. IsRefused status (R.told rep.old)) }
    ensures goes { GoesOn (R.told rep.old) (R.told rep.new) }
    ensures later { R.faults rep.old ≤ R.faults rep.new }
    ensures disk_fault { result ≡ Err Status.ReplicaDisk → Rose (R.faults rep.old) (R.faults rep.new) }
{
    match DurableReplica::open(alloc, rep, identity, draw) {
        Ok(node) => Ok(Replaying::new(node)),
        Err(OpenRefusal::Disk) => Err(Status::ReplicaDisk),
        Err(OpenRefusal::Damaged { file, at }) => Err(Status::ReplicaDamaged { file, at }),
        Err(OpenRefusal::NoMemory) => Err(Status::NoMemory),
    }
}

/// Opens the replica's environment, and the replica on what its disk has, at the draw.
fn opened<R: Disk, F: Env>(
    alloc: Global,
    rep: &mut R,
    rep_env: &mut F,
    report: &mut Report,
) -> Result<(Replaying, Draw), Status>
    requires empty { IsEmpty report.old }
    requires settled { IsSettled (R.told rep.old) }
    ensures fresh { IfOk result (λ o. IsFresh o.0) }
    ensures on { IfOk result (λ o. IsOnDisk (R.told rep.new) o.0.node) }
    ensures told { IfOk result (λ o. Reports o.0.node.node.identity o.1 report.new) }
    ensures opened { IfOk result (λ o. Opened (R.told rep.old) (kept o.0)) }
    ensures holds { IfOk result (λ o. OpensOn (R.told rep.old) (held_of (kept o.0))) }
    ensures marks { report.new.marks ≡ [] }
    ensures runs { OnOk result ((held : Held) → OpensOn (R.told rep.old) held → ReplicaRuns (R.told rep.old) (R.told rep.new) held [] [] []) }
    ensures refused { IfErr result (λ status. Refused status (R.told rep.old) (R.told rep.new) report.new) }
    ensures goes { GoesOn (R.told rep.old) (R.told rep.new) }
    ensures later { R.faults rep.old ≤ R.faults rep.new }
    ensures disk_fault { result ≡ Err Status.ReplicaDisk → Rose (R.faults rep.old) (R.faults rep.new) }
    ensures drawn { AllTold (status_of result) (F.draws rep_env.old) (F.draws rep_env.new) report.new.rep_draws }
    ensures replica { Tells (F.told rep_env.old) (F.draws rep_env.old) report.new.rep_identity report.new.rep_draws }
    ensures src_identity { report.new.src_identity ≡ None }
    ensures src_draws { report.new.src_draws ≡ [] }
{
    let Ok((identity, draw)) = open(
        alloc,
        rep_env,
        &mut report.rep_identity,
        &mut report.rep_draws,
    ) else {
        return Err(Status::NoMemory);
    };
    match opened_on(alloc, rep, identity, &draw) {
        Ok(replaying) => Ok((replaying, draw)),
        Err(status) => Err(status),
    }
}

/// Opens a replica, and carries out the groups of the log on the input: the replica, and what they came to.
fn carried_out<S: Source, R: Disk, F: Env>(
    alloc: Global,
    input: &mut S,
    rep: &mut R,
    rep_env: &mut F,
    report: &mut Report,
) -> Result<(Replaying, Status), Status>
    requires empty { IsEmpty report.old }
    requires settled { IsSettled (R.told rep.old) }
    ensures came { IfOk result (λ done. CameTo done.1 (S.left input.old) (S.left input.new) (R.told rep.old) (R.told rep.new) report.new done.0) }
    ensures refused { IfErr result (λ status. Refused status (R.told rep.old) (R.told rep.new) report.new) }
    ensures unread { OnErr result (input.new ≡ input.old) }
    ensures goes { GoesOn (R.told rep.old) (R.told rep.new) }
    ensures later { R.faults rep.old ≤ R.faults rep.new }
    ensures disk_fault { IfOk result (λ done. done.1 ≡ Status.ReplicaDisk → Rose (R.faults rep.old) (R.faults rep.new)) }
    ensures disk_refused { result ≡ Err Status.ReplicaDisk → Rose (R.faults rep.old) (R.faults rep.new) }
    ensures read_fault { IfOk result (λ done. done.1 ≡ Status.ReadFault → Rose (S.faults input.old) (S.faults input.new)) }
    ensures once { S.ended input.old ≡ 0 → S.ended input.new ≤ 1 }
    ensures last { IfOk result (λ done. done.1 ≡ Status.ReadFault → S.ended input.old ≡ 0 → S.ended input.new ≡ 1) }
    ensures at_end { IfOk result (λ done. done.1 ≡ Status.Done → S.ended input.old ≡ 0 → S.ended input.new ≡ 1) }
    ensures drawn { AllTold (status_of result) (F.draws rep_env.old) (F.draws rep_env.new) report.new.rep_draws }
    ensures replica { Tells (F.told rep_env.old) (F.draws rep_env.old) report.new.rep_identity report.new.rep_draws }
    ensures src_identity { report.new.src_identity ≡ None }
    ensures src_draws { report.new.src_draws ≡ [] }
{
    let (mut replaying, draw) = opened(alloc, rep, rep_env, report)?;
    let came = match replaying.carry_out_all(alloc, input, rep, &draw, report) {
        Ok(()) => Status::Done,
        Err(status) => status,
    };
    Ok((replaying, came))
}

/// Carries out the log on the input, from the place of the replica that opens on what its disk has, at one draw of its environment, and
/// writes how many groups were carried out, and the place behind them: `applied 2 1:336`. Each group that is carried out is on the disk
/// before the next is read, and a mark tells it.
pub fn replay<S: Source, K: Sink, R: Disk, F: Env>(
    alloc: Global,
    input: &mut S,
    out: &mut K,
    rep: &mut R,
    rep_env: &mut F,
    report: &mut Report,
) -> Status
    requires empty { IsEmpty report.old }
    requires settled { IsSettled (R.told rep.old) }
    // At Done, LogDamaged and LogForeign all groups of the log from the replica's place on were carried out, up to the log's end or to what
    // is damaged or not known; at Differs those before the first that is not. The disk holds what they make, and each has its mark. The line
    // of them was written, at WriteFault a front of it, and else nothing. At ReplicaDamaged the disk's files stood for nothing, at that first
    // place. Whatever the status is, each image of each moment of the disk holds what the first of the groups make.
    ensures run { ReplayEnds result (S.left input.old) (S.left input.new) (R.told rep.old) (R.told rep.new) report.new (K.written out.old) (K.written out.new) }
    ensures goes { GoesOn (R.told rep.old) (R.told rep.new) }

    // A fault has its cause, and is the last call on its stream; nothing is read behind the end of the input, and at Done it was
    // read to there.
    ensures read_fault { result ≡ Status.ReadFault → Rose (S.faults input.old) (S.faults input.new) }
    ensures write_fault { result ≡ Status.WriteFault → Rose (K.faults out.old) (K.faults out.new) }
    ensures disk_fault { result ≡ Status.ReplicaDisk → Rose (R.faults rep.old) (R.faults rep.new) }
    ensures reads_once { S.ended input.old ≡ 0 → S.ended input.new ≤ 1 }
    ensures last_read { result ≡ Status.ReadFault → S.ended input.old ≡ 0 → S.ended input.new ≡ 1 }
    ensures read_end { result ≡ Status.Done → S.ended input.old ≡ 0 → S.ended input.new ≡ 1 }
    ensures last_write { K.ended out.old ≡ 0 → K.ended out.new ≡ failed_writes result }

    // The report is true at any status, and tells nothing of a source. Nothing else was drawn, but for a draw that there was no
    // memory to tell.
    ensures drawn { AllTold result (F.draws rep_env.old) (F.draws rep_env.new) report.new.rep_draws }
    ensures replica { Tells (F.told rep_env.old) (F.draws rep_env.old) report.new.rep_identity report.new.rep_draws }
    ensures src_identity { report.new.src_identity ≡ None }
    ensures src_draws { report.new.src_draws ≡ [] }
{
    match carried_out(alloc, input, rep, rep_env, report) {
        Ok((replaying, came)) => replaying.tell(alloc, came, out),
        Err(status) => status,
    }
}
