//! The source's log behind the commands of a script, in place of what they are told.
ghost use Rattle.std.specs.Prelude.{◌≡◌, ◌≤◌, None, length, map, IfOk, IfErr, IsTrue, OnOk, Option};
ghost use Rattle.std.specs.List.{list_all};
ghost use Rattle.fault_counts.specs.Causes.{Rose};
ghost use Rattle.disk_model.specs.Answers.{HasDiskCause};
ghost use Rattle.disk_model.specs.Moments.{GoesOn, IsSettled};
ghost use Rattle.disk_model.specs.Story.{Story};
ghost use Rattle.run_laws.specs.run_model.Run.{Both, Names, Starts, log_with};
ghost use Rattle.run_streams.specs.Reports.{IsEmpty, StaysHandedOut, Tells};
ghost use Rattle.run_streams.specs.Stops.{status_of};
ghost use Rattle.script_run.specs.Asking.{asked_seen, is_fit, most_commands};
ghost use Rattle.script_run.specs.Beginning.{FromEach, StoodFor};
ghost use Rattle.script_run.specs.Disks.{Disks, NoFewer, Stores, disks, faults};
ghost use Rattle.script_run.specs.Faults.{HasFault, StopsLogging, StopsOpening, StopsServing};
ghost use Rattle.script_run.specs.Logged.{LogEndsBy, Logged};
ghost use Rattle.script_run.specs.Together.{AreOnDisks, Grew, Opened, SourceIsOn, Together};

use crate::asked::{Asked, read_asked};
use crate::commands::{answer_all, open_nodes};
use crate::nodes::Nodes;
use crate::stops::status_by;
use answer_text::{Report, Status};
use disk_model::{Disk, DiskRefusal};
use port_traits::{Env, Failed, Sink, Source};
use run_laws::log_model::log_goes_on;
use run_stores::durable_runs::{logs_go_on, stores_go_on};
use run_streams::{read_script, write_line};
use std::alloc::Global;
use val_types::{Bytes, List};

/// The number of a source's one log.
const FIRST_LOG: u32 = 1;

/// A stream that takes all bytes, keeps none, and has no faults.
#[derive(Drop)]
struct Dropped;

impl Sink for Dropped {
    ghost written = { λ _. None };

    ghost faults = { λ _. 0 };

    ghost ended = { λ _. 0 };

    fn write(&mut self, piece: &[u8]) -> Result<usize, Failed> {
        Ok(piece.len())
    }
}

/// The bytes of the source's log, from its magic on, as its file has them.
fn whole_log<D: Disk>(alloc: Global, nodes: &Nodes, d: &mut D) -> Result<Bytes, DiskRefusal>
    requires { SourceIsOn (D.told d.old) nodes.now.source }
    ensures log { (names : Names) (rep : Option Story) (start : Stores) (b : Both) → Together names (disks (D.told d.old) rep) start nodes.now b
        → IfOk result (λ log. log ≡ log_with b.from b.machine) }
    ensures goes { GoesOn (D.told d.old) (D.told d.new) }
    ensures cause { HasDiskCause (D.faults d.old) (D.faults d.new) result }
{
    log_goes_on();
    logs_go_on();
    stores_go_on();
    nodes.source.log_bytes(alloc, d, FIRST_LOG, 0, u32::MAX)
}

/// The same, with a refusal as the status of a run.
fn whole_log_by<D: Disk>(alloc: Global, nodes: &Nodes, d: &mut D) -> Result<Bytes, Status>
    requires { SourceIsOn (D.told d.old) nodes.now.source }
    ensures log { (names : Names) (rep : Option Story) (start : Stores) (b : Both) → Together names (disks (D.told d.old) rep) start nodes.now b
        → IfOk result (λ log. log ≡ log_with b.from b.machine) }
    ensures goes { GoesOn (D.told d.old) (D.told d.new) }
    ensures stop { IfErr result (λ status. StopsServing status (D.faults d.old) (D.faults d.new)) }
    ensures later { D.faults d.old ≤ D.faults d.new }
{
    match whole_log(alloc, nodes, d) {
        Ok(log) => Ok(log),
        Err(DiskRefusal::Failed) => Err(Status::SourceDisk),
        Err(DiskRefusal::NoMemory) => Err(Status::NoMemory),
    }
}

/// Carries out the commands in order, without a line of what they are told, and gives the source's log behind them.
fn log_of_all<D: Disk, R: Disk, E: Env, F: Env>(
    alloc: Global,
    asked: &List<Asked<'_>>,
    nodes: &mut Nodes,
    src: &mut D,
    rep: &mut R,
    src_env: &mut E,
    rep_env: &mut F,
    report: &mut Report,
) -> Result<Bytes, Status>
    requires on { AreOnDisks (disks (D.told src.old) (R.told rep.old)) nodes.old }
    requires count { length asked.now ≤ most_commands }
    requires fit { IsTrue (list_all is_fit asked.now) }
    ensures logged { (from : Starts) (t : Disks) → Opened from t (disks (D.told src.old) (R.told rep.old)) nodes.old report.old
        → IfOk result (λ log. Logged from t (disks (D.told src.new) (R.told rep.new)) (map asked_seen asked.now) report.new log) }
    ensures stop { IfErr result (λ status. StopsLogging status (disks (D.told src.old) (R.told rep.old)) (faults (D.faults src.old) (R.faults rep.old)) (faults (D.faults src.new) (R.faults rep.new))) }
    ensures src_handed { StaysHandedOut (E.draws src_env.old) report.old.src_draws report.new.src_draws }
    ensures rep_handed { StaysHandedOut (F.draws rep_env.old) report.old.rep_draws report.new.rep_draws }
    ensures grew { Grew report.old report.new }
    ensures later { NoFewer (faults (D.faults src.old) (R.faults rep.old)) (faults (D.faults src.new) (R.faults rep.new)) }
{
    answer_all(
        alloc,
        asked,
        nodes,
        src,
        rep,
        src_env,
        rep_env,
        report,
        &mut Dropped,
    )?;
    whole_log_by(alloc, nodes, src)
}

/// Opens both nodes, carries out the commands in order, and gives the source's log behind them.
fn log_commands<D: Disk, R: Disk, E: Env, F: Env>(
    alloc: Global,
    asked: &List<Asked<'_>>,
    src: &mut D,
    rep: &mut R,
    src_env: &mut E,
    rep_env: &mut F,
    report: &mut Report,
) -> Result<Bytes, Status>
    requires report { IsEmpty report.old }
    requires settled { IsSettled (D.told src.old) }
    requires rep_settled { IsSettled (R.told rep.old) }
    requires count { length asked.now ≤ most_commands }
    requires fit { IsTrue (list_all is_fit asked.now) }
    ensures logged { IfOk result (λ log. FromEach (disks (D.told src.old) (R.told rep.old)) (λ from.
        Logged from (disks (D.told src.old) (R.told rep.old)) (disks (D.told src.new) (R.told rep.new)) (map asked_seen asked.now) report.new log)) }
    ensures stood { OnOk result (StoodFor (disks (D.told src.old) (R.told rep.old))) }
    ensures stop { IfErr result (λ status. StopsOpening status (disks (D.told src.old) (R.told rep.old)) (faults (D.faults src.old) (R.faults rep.old)) (faults (D.faults src.new) (R.faults rep.new))) }
    ensures source { Tells (E.told src_env.old) (E.draws src_env.old) report.new.src_identity report.new.src_draws }
    ensures replica { Tells (F.told rep_env.old) (F.draws rep_env.old) report.new.rep_identity report.new.rep_draws }
{
    match open_nodes(alloc, src, rep, src_env, rep_env, report) {
        Ok(mut nodes) => log_of_all(alloc, asked, &mut nodes, src, rep, src_env, rep_env, report),
        Err(refusal) => Err(status_by(refusal)),
    }
}

/// Carries out the script on the input, and writes the source's log behind it.
fn log_script<S: Source, K: Sink, D: Disk, R: Disk, E: Env, F: Env>(
    alloc: Global,
    input: &mut S,
    out: &mut K,
    src: &mut D,
    rep: &mut R,
    src_env: &mut E,
    rep_env: &mut F,
    report: &mut Report,
) -> Result<(), Status>
    requires report { IsEmpty report.old }
    requires settled { IsSettled (D.told src.old) }
    requires rep_settled { IsSettled (R.told rep.old) }
    ensures run { LogEndsBy (status_of result) (S.left input.old) (S.left input.new) (disks (D.told src.old) (R.told rep.old)) (disks (D.told src.new) (R.told rep.new)) report.new
        (K.written out.old) (K.written out.new) }
    ensures fault { IfErr result (λ status. HasFault status (S.faults input.old) (S.faults input.new)
        (K.faults out.old) (K.faults out.new) (faults (D.faults src.old) (R.faults rep.old)) (faults (D.faults src.new) (R.faults rep.new))) }
    ensures source { Tells (E.told src_env.old) (E.draws src_env.old) report.new.src_identity report.new.src_draws }
    ensures replica { Tells (F.told rep_env.old) (F.draws rep_env.old) report.new.rep_identity report.new.rep_draws }
{
    let script = read_script(alloc, input)?;
    let asked = read_asked(alloc, script.as_slice())?;
    let log = log_commands(alloc, &asked, src, rep, src_env, rep_env, report)?;
    write_line(out, log.as_slice())
}

/// Carries out the script on the input as [`run_script`](crate::run_script) does, and writes the bytes of the source's binary log
/// behind it, from their magic on, in place of what the commands are told.
pub fn write_log<S: Source, K: Sink, D: Disk, R: Disk, E: Env, F: Env>(
    alloc: Global,
    input: &mut S,
    out: &mut K,
    src: &mut D,
    rep: &mut R,
    src_env: &mut E,
    rep_env: &mut F,
    report: &mut Report,
) -> Status
    requires report { IsEmpty report.old }
    requires settled { IsSettled (D.told src.old) }
    requires rep_settled { IsSettled (R.told rep.old) }
    // At Done all commands were carried out, and the log of the machine behind them was written, at WriteFault a front of it, else
    // nothing.
    ensures run { LogEndsBy result (S.left input.old) (S.left input.new) (disks (D.told src.old) (R.told rep.old)) (disks (D.told src.new) (R.told rep.new)) report.new
        (K.written out.old) (K.written out.new) }
    ensures read_fault { result ≡ Status.ReadFault → Rose (S.faults input.old) (S.faults input.new) }
    ensures write_fault { result ≡ Status.WriteFault → Rose (K.faults out.old) (K.faults out.new) }
    ensures disk_fault { result ≡ Status.SourceDisk → Rose (D.faults src.old) (D.faults src.new) }
    ensures rep_disk_fault { result ≡ Status.ReplicaDisk → Rose (R.faults rep.old) (R.faults rep.new) }
    // The report is true at any status.
    ensures source { Tells (E.told src_env.old) (E.draws src_env.old)
        report.new.src_identity report.new.src_draws }
    ensures replica { Tells (F.told rep_env.old) (F.draws rep_env.old)
        report.new.rep_identity report.new.rep_draws }
{
    match log_script(alloc, input, out, src, rep, src_env, rep_env, report) {
        Ok(()) => Status::Done,
        Err(status) => status,
    }
}
