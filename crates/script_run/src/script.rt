//! The word `run`: the script on the input, over any input, output, disks and environments.
ghost use Rattle.std.specs.Prelude.{◌≡◌, ◌≤◌, true, IfSome, IfErr};
ghost use Rattle.disk_model.specs.Moments.{IsSettled};
ghost use Rattle.fault_counts.specs.Causes.{Rose};
ghost use Rattle.run_streams.specs.Read.{RestBehindScript, TakesUpToLimit};
ghost use Rattle.run_streams.specs.Reports.{AllTold, IsEmpty, Tells};
ghost use Rattle.run_streams.specs.Stops.{failed_writes, is_early, status_of};
ghost use Rattle.script_run.specs.Disks.{disks, faults};
ghost use Rattle.script_run.specs.Faults.{HasFault};
ghost use Rattle.script_run.specs.Ran.{EndsBy};

use crate::asked::read_asked;
use crate::commands::run_commands;
use answer_text::{Report, Status};
use disk_model::Disk;
use port_traits::{Env, Sink, Source};
use run_stores::durable_runs::sources_last;
use run_streams::read_script;
use std::alloc::Global;

/// Carries out the script on the input, which is read whole and split before anything runs.
fn run<S: Source, K: Sink, D: Disk, R: Disk, E: Env, F: Env>(
    alloc: Global,
    input: &mut S,
    out: &mut K,
    src: &mut D,
    rep: &mut R,
    src_env: &mut E,
    rep_env: &mut F,
    report: &mut Report,
) -> Result<(), Status>
    requires report { IsEmpty report.old }
    requires settled { IsSettled (D.told src.old) }
    requires rep_settled { IsSettled (R.told rep.old) }
    ensures run { EndsBy (status_of result) (S.left input.old) (S.left input.new) (disks (D.told src.old) (R.told rep.old)) (disks (D.told src.new) (R.told rep.new)) report.new
        (K.written out.old) (K.written out.new) }
    ensures refused { IfSome (S.left input.old) (λ script. RestBehindScript (status_of result) script (S.left input.new)) }
    ensures limit { TakesUpToLimit (S.left input.old) (S.left input.new) }
    ensures once { S.ended input.old ≡ 0 → S.ended input.new ≤ 1 }
    ensures last { result ≡ Err Status.ReadFault → S.ended input.old ≡ 0 → S.ended input.new ≡ 1 }
    ensures at_end { status_of result ≡ Status.Done → S.ended input.old ≡ 0 → S.ended input.new ≡ 1 }
    ensures ended { K.ended out.old ≡ 0 → K.ended out.new ≡ failed_writes (status_of result) }
    ensures idle { is_early (status_of result) ≡ true → (out.new ≡ out.old) × (src.new ≡ src.old) × (rep.new ≡ rep.old)
        × (src_env.new ≡ src_env.old) × (rep_env.new ≡ rep_env.old) × (report.new ≡ report.old) }
    ensures src_drawn { AllTold (status_of result) (E.draws src_env.old) (E.draws src_env.new) report.new.src_draws }
    ensures rep_drawn { AllTold (status_of result) (F.draws rep_env.old) (F.draws rep_env.new) report.new.rep_draws }
    ensures fault { IfErr result (λ status. HasFault status (S.faults input.old) (S.faults input.new)
        (K.faults out.old) (K.faults out.new) (faults (D.faults src.old) (R.faults rep.old)) (faults (D.faults src.new) (R.faults rep.new))) }
    ensures source { Tells (E.told src_env.old) (E.draws src_env.old) report.new.src_identity report.new.src_draws }
    ensures replica { Tells (F.told rep_env.old) (F.draws rep_env.old) report.new.rep_identity report.new.rep_draws }
{
    sources_last();
    let script = read_script(alloc, input)?;
    let asked = read_asked(alloc, script.as_slice())?;
    run_commands(alloc, &asked, src, rep, src_env, rep_env, report, out)
}

/// The word `run`, with its end as a status: carries out the script on the input, each command by a source on its disk in the one
/// environment or a replica on its own in the other, and writes what it is told before the next begins. Both begin where their disks
/// stand; the source opens first.
///
/// The report is empty before, and tells after, at any status, who the source and the replica are, as far as they were opened, what
/// they drew, where the last command began, and which transactions were kept.
pub fn run_script<S: Source, K: Sink, D: Disk, R: Disk, E: Env, F: Env>(
    alloc: Global,
    input: &mut S,
    out: &mut K,
    src: &mut D,
    rep: &mut R,
    src_env: &mut E,
    rep_env: &mut F,
    report: &mut Report,
) -> Status
    requires report { IsEmpty report.old }
    requires settled { IsSettled (D.told src.old) }
    requires rep_settled { IsSettled (R.told rep.old) }
    ensures run { EndsBy result (S.left input.old) (S.left input.new) (disks (D.told src.old) (R.told rep.old)) (disks (D.told src.new) (R.told rep.new)) report.new
        (K.written out.old) (K.written out.new) }
    ensures refused { IfSome (S.left input.old) (λ script. RestBehindScript result script (S.left input.new)) }
    ensures limit { TakesUpToLimit (S.left input.old) (S.left input.new) }
    ensures idle { is_early result ≡ true → (out.new ≡ out.old) × (src.new ≡ src.old) × (rep.new ≡ rep.old)
        × (src_env.new ≡ src_env.old) × (rep_env.new ≡ rep_env.old) × (report.new ≡ report.old) }
    ensures read_fault { result ≡ Status.ReadFault → Rose (S.faults input.old) (S.faults input.new) }
    ensures write_fault { result ≡ Status.WriteFault → Rose (K.faults out.old) (K.faults out.new) }
    ensures disk_fault { result ≡ Status.SourceDisk → Rose (D.faults src.old) (D.faults src.new) }
    ensures rep_disk_fault { result ≡ Status.ReplicaDisk → Rose (R.faults rep.old) (R.faults rep.new) }
    ensures reads_once { S.ended input.old ≡ 0 → S.ended input.new ≤ 1 }
    ensures last_read { result ≡ Status.ReadFault → S.ended input.old ≡ 0 → S.ended input.new ≡ 1 }
    ensures read_end { result ≡ Status.Done → S.ended input.old ≡ 0 → S.ended input.new ≡ 1 }
    ensures last_write { K.ended out.old ≡ 0 → K.ended out.new ≡ failed_writes result }
    ensures src_drawn { AllTold result (E.draws src_env.old) (E.draws src_env.new) report.new.src_draws }
    ensures rep_drawn { AllTold result (F.draws rep_env.old) (F.draws rep_env.new) report.new.rep_draws }
    ensures source { Tells (E.told src_env.old) (E.draws src_env.old)
        report.new.src_identity report.new.src_draws }
    ensures replica { Tells (F.told rep_env.old) (F.draws rep_env.old)
        report.new.rep_identity report.new.rep_draws }
{
    match run(alloc, input, out, src, rep, src_env, rep_env, report) {
        Ok(()) => Status::Done,
        Err(status) => status,
    }
}
