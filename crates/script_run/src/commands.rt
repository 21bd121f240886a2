//! The commands of a script, each answered before the next.
ghost use Rattle.std.specs.Prelude.{◌≡◌, ◌<◌, ◌≤◌, ◌^◌, ℕ, None, [], length, map, IfOk, IfErr, IsTrue, OnErr, OnOk, Option};
ghost use Rattle.std.specs.List.{list_all};
ghost use Rattle.disk_model.specs.Moments.{GoesOn, IsSettled};
ghost use Rattle.disk_model.specs.Story.{Story};
ghost use Rattle.run_laws.specs.run_model.Run.{Both, Names, Starts};
ghost use Rattle.run_streams.specs.Reports.{AllTold, DrewUntil, IsEmpty, Tells};
ghost use Rattle.run_streams.specs.Stops.{failed_writes, status_of};
ghost use Rattle.script_run.specs.Asking.{asked_seen, is_fit, most_commands};
ghost use Rattle.script_run.specs.Beginning.{FromEach, ReplicaStoodFor, SourceStoodFor, StoodFor};
ghost use Rattle.script_run.specs.Disks.{BothGoOn, Disks, NoFewer, Stores, disks, faults};
ghost use Rattle.script_run.specs.Faults.{RefusesNodes, RefusesOpening, StopsCommands, StopsRunning, ended_by};
ghost use Rattle.script_run.specs.Opening.{ReplicaOpened, SourceOpened};
ghost use Rattle.script_run.specs.Ran.{Ran};
ghost use Rattle.script_run.specs.Running.{Ends, EndsRunning, Going};
ghost use Rattle.script_run.specs.Survives.{ReplicaOpens, SourceOpens};
ghost use Rattle.script_run.specs.Together.{AreOnDisks, CarriedOut, GaveUp, Grew, Opened, SourceIsOn, Stopped, Together, Told};

use crate::asked::Asked;
use crate::nodes::Nodes;
use crate::stops::{Refusal, by_replica, by_source, status_by};
use answer_text::{Report, Status};
use disk_model::Disk;
use durable_replica::DurableReplica;
use durable_source::DurableSource;
use port_traits::{Env, Sink};
use run_laws::runs_open;
use run_laws::session_model::openings_hold;
use run_stores::durable_runs::{runs_last, sources_last};
use run_stores::replica_has_carried;
use run_streams::{draws_begin, open, write_line};
use std::alloc::Global;
use val_types::{Bytes, List};

/// A law: a moment is below 2^32.
fn moment_fits(moment: u32)
    ensures { moment < 2 ^ 32 }
{
    let _ = moment;
}

/// Opens the source on its disk, with who it is and its first draw.
fn open_source<D: Disk, E: Env>(
    alloc: Global,
    d: &mut D,
    env: &mut E,
    report: &mut Report,
) -> Result<DurableSource, Refusal>
    requires identity { report.old.src_identity ≡ None }
    requires draws { report.old.src_draws ≡ [] }
    requires settled { IsSettled (D.told d.old) }
    ensures opened { IfOk result (λ source. SourceOpened (D.told d.old) (D.told d.new) source report.new) }
    ensures on { IfOk result (λ source. SourceIsOn (D.told d.new) source) }
    ensures stood { OnOk result (SourceStoodFor (D.told d.old)) }
    ensures goes { OnOk result (GoesOn (D.told d.old) (D.told d.new)) }
    ensures survives { SourceOpens (D.told d.old) (D.told d.new) }
    ensures drawn { AllTold (ended_by result) (E.draws env.old) (E.draws env.new) report.new.src_draws }
    ensures tells { Tells (E.told env.old) (E.draws env.old) report.new.src_identity report.new.src_draws }
    ensures rest { report.new ≡ record report.old { src_identity = report.new.src_identity; src_draws = report.new.src_draws } }
    ensures refuses { IfErr result (λ refusal. (rep : Option Story) (n : ℕ) →
        RefusesOpening refusal (disks (D.told d.old) rep) (faults (D.faults d.old) n) (faults (D.faults d.new) n)) }
    ensures later { D.faults d.old ≤ D.faults d.new }
{
    openings_hold();
    runs_last();
    sources_last();
    let (name, draw) = open(alloc, env, &mut report.src_identity, &mut report.src_draws)?;
    moment_fits(draw.now);
    match DurableSource::open(alloc, d, name, &draw) {
        Ok(source) => Ok(source),
        Err(refusal) => Err(by_source(refusal)),
    }
}

/// Opens the replica on its disk, with who it is and its first draw.
fn open_replica<R: Disk, F: Env>(
    alloc: Global,
    d: &mut R,
    env: &mut F,
    report: &mut Report,
) -> Result<DurableReplica, Refusal>
    requires identity { report.old.rep_identity ≡ None }
    requires draws { report.old.rep_draws ≡ [] }
    requires settled { IsSettled (R.told d.old) }
    ensures opened { IfOk result (λ replica. ReplicaOpened (R.told d.old) (R.told d.new) replica report.new) }
    ensures stood { OnOk result (ReplicaStoodFor (R.told d.old)) }
    ensures goes { GoesOn (R.told d.old) (R.told d.new) }
    ensures survives { ReplicaOpens (R.told d.old) (R.told d.new) }
    ensures drawn { AllTold (ended_by result) (F.draws env.old) (F.draws env.new) report.new.rep_draws }
    ensures tells { Tells (F.told env.old) (F.draws env.old) report.new.rep_identity report.new.rep_draws }
    ensures rest { report.new ≡ record report.old { rep_identity = report.new.rep_identity; rep_draws = report.new.rep_draws } }
    ensures refuses { IfErr result (λ refusal. (src : Option Story) (n : ℕ) →
        RefusesOpening refusal (disks src (R.told d.old)) (faults n (R.faults d.old)) (faults n (R.faults d.new))) }
    ensures later { R.faults d.old ≤ R.faults d.new }
{
    let (name, draw) = open(alloc, env, &mut report.rep_identity, &mut report.rep_draws)?;
    match DurableReplica::open(alloc, d, name, &draw) {
        Ok(replica) => Ok(replica),
        Err(refusal) => Err(by_replica(refusal)),
    }
}

/// Opens the source on its disk, then the replica, each with who it is and its first draw.
pub(crate) fn open_nodes<D: Disk, R: Disk, E: Env, F: Env>(
    alloc: Global,
    src: &mut D,
    rep: &mut R,
    src_env: &mut E,
    rep_env: &mut F,
    report: &mut Report,
) -> Result<Nodes, Refusal>
    requires report { IsEmpty report.old }
    requires settled { IsSettled (D.told src.old) }
    requires rep_settled { IsSettled (R.told rep.old) }
    ensures opened { IfOk result (λ nodes. FromEach (disks (D.told src.old) (R.told rep.old)) (λ from.
        Opened from (disks (D.told src.old) (R.told rep.old)) (disks (D.told src.new) (R.told rep.new)) nodes report.new)) }
    ensures on { IfOk result (λ nodes. AreOnDisks (disks (D.told src.new) (R.told rep.new)) nodes) }
    ensures stood { OnOk result (StoodFor (disks (D.told src.old) (R.told rep.old))) }
    ensures goes { OnOk result (BothGoOn (disks (D.told src.old) (R.told rep.old)) (disks (D.told src.new) (R.told rep.new))) }
    ensures survives { SourceOpens (D.told src.old) (D.told src.new) }
    ensures rep_survives { ReplicaOpens (R.told rep.old) (R.told rep.new) }
    ensures src_drawn { AllTold (ended_by result) (E.draws src_env.old) (E.draws src_env.new) report.new.src_draws }
    ensures rep_drawn { AllTold (ended_by result) (F.draws rep_env.old) (F.draws rep_env.new) report.new.rep_draws }
    ensures source { Tells (E.told src_env.old) (E.draws src_env.old) report.new.src_identity report.new.src_draws }
    ensures replica { Tells (F.told rep_env.old) (F.draws rep_env.old) report.new.rep_identity report.new.rep_draws }
    ensures marks { report.new.marks ≡ report.old.marks }
    ensures now { report.new.now ≡ report.old.now }
    ensures refuses { IfErr result (λ refusal. RefusesOpening refusal (disks (D.told src.old) (R.told rep.old))
        (faults (D.faults src.old) (R.faults rep.old)) (faults (D.faults src.new) (R.faults rep.new))) }
    ensures later { NoFewer (faults (D.faults src.old) (R.faults rep.old)) (faults (D.faults src.new) (R.faults rep.new)) }
{
    openings_hold();
    runs_open();
    runs_last();
    sources_last();
    draws_begin();
    let source = open_source(alloc, src, src_env, report)?;
    let replica = open_replica(alloc, rep, rep_env, report)?;
    Ok(Nodes { source, replica })
}

/// Carries out the command with this number, and gives the lines that show what it is told.
fn lines_of<D: Disk, R: Disk, E: Env, F: Env>(
    alloc: Global,
    number: u32,
    asked: &Asked<'_>,
    nodes: &mut Nodes,
    src: &mut D,
    rep: &mut R,
    src_env: &mut E,
    rep_env: &mut F,
    report: &mut Report,
) -> Result<Bytes, Refusal>
    requires fit { IsTrue (is_fit asked.now) }
    requires on { AreOnDisks (disks (D.told src.old) (R.told rep.old)) nodes.old }
    ensures lined { (names : Names) (start : Stores) (b : Both) → Together names (disks (D.told src.old) (R.told rep.old)) start nodes.old b
        → IfOk result (λ lines. CarriedOut names b number (asked_seen asked.now) (disks (D.told src.old) (R.told rep.old))
        (disks (D.told src.new) (R.told rep.new)) start report.old report.new nodes.new lines) }
    ensures left { (names : Names) (start : Stores) (b : Both) → Together names (disks (D.told src.old) (R.told rep.old)) start nodes.old b
        → OnErr result (GaveUp names b number (asked_seen asked.now) (disks (D.told src.old) (R.told rep.old)) (disks (D.told src.new) (R.told rep.new)) start
        report.old report.new) }
    ensures on { OnOk result (AreOnDisks (disks (D.told src.new) (R.told rep.new)) nodes.new) }
    ensures goes { BothGoOn (disks (D.told src.old) (R.told rep.old)) (disks (D.told src.new) (R.told rep.new)) }
    ensures src_drawn { DrewUntil (ended_by result) (E.draws src_env.old) report.old.src_draws (E.draws src_env.new) report.new.src_draws }
    ensures rep_drawn { DrewUntil (ended_by result) (F.draws rep_env.old) report.old.rep_draws (F.draws rep_env.new) report.new.rep_draws }
    ensures grew { Grew report.old report.new }
    ensures refuses { IfErr result (λ refusal. RefusesNodes refusal (disks (D.told src.old) (R.told rep.old))
        (faults (D.faults src.old) (R.faults rep.old)) (faults (D.faults src.new) (R.faults rep.new))) }
    ensures later { NoFewer (faults (D.faults src.old) (R.faults rep.old)) (faults (D.faults src.new) (R.faults rep.new)) }
{
    report.now = nodes.mark(number, src, rep);
    nodes.carry_out(alloc, number, asked, src, rep, src_env, rep_env, report)
}

/// Carries out the command with this number and shows its answer.
fn answer_command<K: Sink, D: Disk, R: Disk, E: Env, F: Env>(
    alloc: Global,
    number: u32,
    asked: &Asked<'_>,
    nodes: &mut Nodes,
    src: &mut D,
    rep: &mut R,
    src_env: &mut E,
    rep_env: &mut F,
    report: &mut Report,
    out: &mut K,
) -> Result<(), Status>
    requires fit { IsTrue (is_fit asked.now) }
    requires on { AreOnDisks (disks (D.told src.old) (R.told rep.old)) nodes.old }
    ensures told { (names : Names) (start : Stores) (b : Both) → Together names (disks (D.told src.old) (R.told rep.old)) start nodes.old b → OnOk result
        (Told names b number (asked_seen asked.now) (disks (D.told src.old) (R.told rep.old)) (disks (D.told src.new) (R.told rep.new)) start report.old report.new
        nodes.new (K.written out.old) (K.written out.new)) }
    ensures stopped { (names : Names) (start : Stores) (b : Both) → Together names (disks (D.told src.old) (R.told rep.old)) start nodes.old b → IfErr result (λ status.
        Stopped status names b number (asked_seen asked.now) (disks (D.told src.old) (R.told rep.old)) (disks (D.told src.new) (R.told rep.new)) start report.old
        report.new (K.written out.old) (K.written out.new)) }
    ensures on { OnOk result (AreOnDisks (disks (D.told src.new) (R.told rep.new)) nodes.new) }
    ensures goes { BothGoOn (disks (D.told src.old) (R.told rep.old)) (disks (D.told src.new) (R.told rep.new)) }
    ensures src_drawn { DrewUntil (status_of result) (E.draws src_env.old) report.old.src_draws (E.draws src_env.new) report.new.src_draws }
    ensures rep_drawn { DrewUntil (status_of result) (F.draws rep_env.old) report.old.rep_draws (F.draws rep_env.new) report.new.rep_draws }
    ensures grew { Grew report.old report.new }
    ensures stop { IfErr result (λ status. StopsRunning status (disks (D.told src.old) (R.told rep.old)) (K.faults out.old) (K.faults out.new)
        (faults (D.faults src.old) (R.faults rep.old)) (faults (D.faults src.new) (R.faults rep.new))) }
    ensures later { K.faults out.old ≤ K.faults out.new }
    ensures disk_later { NoFewer (faults (D.faults src.old) (R.faults rep.old)) (faults (D.faults src.new) (R.faults rep.new)) }
    ensures ended { K.ended out.old ≡ 0 → K.ended out.new ≡ failed_writes (status_of result) }
{
    match lines_of(
        alloc, number, asked, nodes, src, rep, src_env, rep_env, report,
    ) {
        Ok(lines) => write_line(out, lines.as_slice()),
        Err(refusal) => Err(status_by(refusal)),
    }
}

/// Carries out the commands in order. What is said of them is said from wherever the run may have begun.
pub(crate) fn answer_all<K: Sink, D: Disk, R: Disk, E: Env, F: Env>(
    alloc: Global,
    asked: &List<Asked<'_>>,
    nodes: &mut Nodes,
    src: &mut D,
    rep: &mut R,
    src_env: &mut E,
    rep_env: &mut F,
    report: &mut Report,
    out: &mut K,
) -> Result<(), Status>
    requires on { AreOnDisks (disks (D.told src.old) (R.told rep.old)) nodes.old }
    requires count { length asked.now ≤ most_commands }
    requires fit { IsTrue (list_all is_fit asked.now) }
    ensures going { (from : Starts) (t : Disks) → Opened from t (disks (D.told src.old) (R.told rep.old)) nodes.old report.old
        → OnOk result (Going from t (disks (D.told src.new) (R.told rep.new)) (map asked_seen asked.now) (length asked.now) report.new (K.written out.old)
        (K.written out.new) nodes.new) }
    ensures ends { (from : Starts) (t : Disks) → Opened from t (disks (D.told src.old) (R.told rep.old)) nodes.old report.old
        → IfErr result (λ status. Ends status from t (disks (D.told src.new) (R.told rep.new)) (map asked_seen asked.now) report.new (K.written out.old) (K.written out.new)) }
    ensures on { OnOk result (AreOnDisks (disks (D.told src.new) (R.told rep.new)) nodes.new) }
    ensures goes { BothGoOn (disks (D.told src.old) (R.told rep.old)) (disks (D.told src.new) (R.told rep.new)) }
    ensures src_drawn { DrewUntil (status_of result) (E.draws src_env.old) report.old.src_draws (E.draws src_env.new) report.new.src_draws }
    ensures rep_drawn { DrewUntil (status_of result) (F.draws rep_env.old) report.old.rep_draws (F.draws rep_env.new) report.new.rep_draws }
    ensures grew { Grew report.old report.new }
    ensures stop { IfErr result (λ status. StopsRunning status (disks (D.told src.old) (R.told rep.old)) (K.faults out.old) (K.faults out.new)
        (faults (D.faults src.old) (R.faults rep.old)) (faults (D.faults src.new) (R.faults rep.new))) }
    ensures later { K.faults out.old ≤ K.faults out.new }
    ensures disk_later { NoFewer (faults (D.faults src.old) (R.faults rep.old)) (faults (D.faults src.new) (R.faults rep.new)) }
    ensures ended { K.ended out.old ≡ 0 → K.ended out.new ≡ failed_writes (status_of result) }
{
    sources_last();
    replica_has_carried();
    for (i, command) in asked.as_slice().iter().enumerate() {
        let number = i as u32 + 1;
        answer_command(
            alloc, number, command, nodes, src, rep, src_env, rep_env, report, out,
        )?;
    }
    Ok(())
}

/// Opens both nodes and carries out the commands in order.
pub(crate) fn run_commands<K: Sink, D: Disk, R: Disk, E: Env, F: Env>(
    alloc: Global,
    asked: &List<Asked<'_>>,
    src: &mut D,
    rep: &mut R,
    src_env: &mut E,
    rep_env: &mut F,
    report: &mut Report,
    out: &mut K,
) -> Result<(), Status>
    requires report { IsEmpty report.old }
    requires settled { IsSettled (D.told src.old) }
    requires rep_settled { IsSettled (R.told rep.old) }
    requires count { length asked.now ≤ most_commands }
    requires fit { IsTrue (list_all is_fit asked.now) }
    ensures ran { OnOk result (FromEach (disks (D.told src.old) (R.told rep.old)) (λ from.
        Ran from (disks (D.told src.old) (R.told rep.old)) (disks (D.told src.new) (R.told rep.new)) (map asked_seen asked.now) report.new (K.written out.old) (K.written out.new))) }
    ensures stood { OnOk result (StoodFor (disks (D.told src.old) (R.told rep.old))) }
    ensures ends { IfErr result (λ status. EndsRunning status (disks (D.told src.old) (R.told rep.old)) (disks (D.told src.new) (R.told rep.new))
        (map asked_seen asked.now) report.new (K.written out.old) (K.written out.new)) }
    ensures src_drawn { AllTold (status_of result) (E.draws src_env.old) (E.draws src_env.new) report.new.src_draws }
    ensures rep_drawn { AllTold (status_of result) (F.draws rep_env.old) (F.draws rep_env.new) report.new.rep_draws }
    ensures source { Tells (E.told src_env.old) (E.draws src_env.old) report.new.src_identity report.new.src_draws }
    ensures replica { Tells (F.told rep_env.old) (F.draws rep_env.old) report.new.rep_identity report.new.rep_draws }
    ensures stop { IfErr result (λ status. StopsCommands status (K.faults out.old) (K.faults out.new)
        (faults (D.faults src.old) (R.faults rep.old)) (faults (D.faults src.new) (R.faults rep.new))) }
    ensures disk_later { NoFewer (faults (D.faults src.old) (R.faults rep.old)) (faults (D.faults src.new) (R.faults rep.new)) }
    ensures ended { K.ended out.old ≡ 0 → K.ended out.new ≡ failed_writes (status_of result) }
{
    sources_last();
    replica_has_carried();
    match open_nodes(alloc, src, rep, src_env, rep_env, report) {
        Ok(mut nodes) => answer_all(
            alloc, asked, &mut nodes, src, rep, src_env, rep_env, report, out,
        ),
        Err(refusal) => Err(status_by(refusal)),
    }
}
