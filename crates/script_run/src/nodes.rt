//! A source and a replica, and one command over both.
ghost use Rattle.std.specs.Prelude.{◌≡◌, ◌≤◌, ◌<◌, ℕ, List as Items, length, IfErr, IfOk, IsTrue, OnErr, OnOk, Option};
ghost use Rattle.answer_text.specs.declared.report.Mark.{Mark as AnyMark};
ghost use Rattle.answer_text.specs.declared.report.Report.{Report as AnyReport};
ghost use Rattle.port_traits.specs.declared.identity.Draw.{Draw as AnyDraw};
ghost use Rattle.disk_model.specs.Story.{Story};
ghost use Rattle.disk_model.specs.Moments.{GoesOn};
ghost use Rattle.durable_replica.specs.Standing.{IsOnDisk};
ghost use Rattle.script_read.specs.Script.{command_limit};
ghost use Rattle.run_laws.specs.run_model.Asked.{checkpoint_replica, checkpoint_source, restart_replica, restart_source, say, select, take_bytes, take_groups};
ghost use Rattle.run_laws.specs.run_model.Run.{Both, Names, mark_at};
ghost use Rattle.run_streams.specs.Reports.{DrewUntil};
ghost use Rattle.script_run.specs.Asking.{asked_seen, is_fit};
ghost use Rattle.script_run.specs.Disks.{BothGoOn, Disks, NoFewer, Stores, disks, faults};
ghost use Rattle.script_run.specs.Faults.{RefusesNodes, ended_by};
ghost use Rattle.script_run.specs.Marks.{CalledNow, uncounted};
ghost use Rattle.script_run.specs.Survives.{CarriesOn, LastsOn};
ghost use Rattle.script_run.specs.Together.{AreOnDisks, Before, CarriedOut, Grew, GaveUp, Shows, SourceIsOn, Together};

use crate::asked::Asked;
use crate::stops::{Refusal, by_open_replica, by_open_source, by_replica, by_source};
use answer_text::{Mark, Report, shown};
use disk_model::{Disk, DiskRefusal};
use durable_replica::DurableReplica;
use durable_replica::replica_node::answer_making::ok;
use durable_replica::replica_node::{applied_line, fetched_line};
use durable_source::DurableSource;
use port_traits::Env;
use run_laws::log_entry_laws::entries_can_log_on;
use run_laws::log_model::{entries_have_length, heads_have_length, log_goes_on};
use run_laws::session_model::{formats_decide, openings_hold, runs_hold};
use run_laws::session_replays::transactions_replay;
use run_laws::{replica_follows, restarts_keep};
use run_stores::durable_runs::{logs_go_on, runs_last, stores_go_on};
use run_streams::take_draw;
use std::alloc::Global;
use val_types::Bytes;

/// A source and a replica, each on the disk that is handed in with each call.
#[derive(Drop)]
pub(crate) struct Nodes {
    pub(crate) source: DurableSource,
    pub(crate) replica: DurableReplica,
}

impl Nodes {
    /// Where a run stands as the command with this number begins.
    pub(crate) fn mark<D: Disk, R: Disk>(&self, number: u32, src: &D, rep: &R) -> Mark
        ensures numbers { (names : Names) (start : Stores) (b : Both) → Together names (disks (D.told src.now) (R.told rep.now)) start self.now b
            → uncounted result ≡ mark_at number b }
        ensures calls { CalledNow (D.told src.now) result.src_calls }
        ensures rep_calls { CalledNow (R.told rep.now) result.rep_calls }
    {
        log_goes_on();
        logs_go_on();
        stores_go_on();
        Mark {
            command: number,
            committed: self.source.number(),
            src_calls: src.calls(),
            applied: self.replica.number(),
            rep_calls: rep.calls(),
        }
    }

    /// A text of a session, at the next draw of the source's environment.
    fn say<D: Disk, E: Env>(
        &mut self,
        alloc: Global,
        number: u32,
        session: u8,
        text: &[u8],
        src: &mut D,
        env: &mut E,
        report: &mut Report,
    ) -> Result<Bytes, Refusal>
        requires number { session < 100 }
        requires length { length text.now ≤ command_limit }
        requires on { SourceIsOn (D.told src.old) self.old.source }
        ensures carried { (names : Names) (rep : Option Story) (start : Stores) (b : Both) → Before names (disks (D.told src.old) rep) start self.old number b report.old
            → IfOk result (λ lines.
            CarriedOut names b number (say session text.now) (disks (D.told src.old) rep) (disks (D.told src.new) rep) start report.old report.new self.new lines) }
        ensures left { (names : Names) (rep : Option Story) (start : Stores) (b : Both) → Before names (disks (D.told src.old) rep) start self.old number b report.old
            → OnErr result (GaveUp names b number (say session text.now) (disks (D.told src.old) rep) (disks (D.told src.new) rep) start report.old report.new) }
        ensures on { OnOk result (SourceIsOn (D.told src.new) self.new.source) }
        ensures replica { self.new.replica ≡ self.old.replica }
        ensures goes { GoesOn (D.told src.old) (D.told src.new) }
        ensures drawn { DrewUntil (ended_by result) (E.draws env.old) report.old.src_draws (E.draws env.new) report.new.src_draws }
        ensures others { report.new.rep_draws ≡ report.old.rep_draws }
        ensures grew { Grew report.old report.new }
        ensures refuses { IfErr result (λ refusal. (rep : Option Story) (n : ℕ) →
            RefusesNodes refusal (disks (D.told src.old) rep) (faults (D.faults src.old) n) (faults (D.faults src.new) n)) }
        ensures later { D.faults src.old ≤ D.faults src.new }
    {
        transactions_replay();
        runs_hold();
        formats_decide();
        entries_can_log_on();
        entries_have_length();
        heads_have_length();
        replica_follows();
        log_goes_on();
        logs_go_on();
        stores_go_on();
        runs_last();
        let draw = take_draw(env, &mut report.src_draws)?;
        match self.source.exec(src, session, text, &draw, report) {
            Ok(answer) => Ok(shown(alloc, number, &answer)?),
            Err(fault) => Err(by_open_source(fault)),
        }
    }

    /// A RESTART of the source, at the next draw of its environment.
    fn restart_source<D: Disk, E: Env>(
        &mut self,
        alloc: Global,
        number: u32,
        src: &mut D,
        env: &mut E,
        report: &mut Report,
    ) -> Result<Bytes, Refusal>
        requires { SourceIsOn (D.told src.old) self.old.source }
        ensures carried { (names : Names) (rep : Option Story) (start : Stores) (b : Both) → Before names (disks (D.told src.old) rep) start self.old number b report.old
            → IfOk result (λ lines.
            CarriedOut names b number restart_source (disks (D.told src.old) rep) (disks (D.told src.new) rep) start report.old report.new self.new lines) }
        ensures left { (names : Names) (rep : Option Story) (start : Stores) (b : Both) → Before names (disks (D.told src.old) rep) start self.old number b report.old
            → OnErr result (GaveUp names b number restart_source (disks (D.told src.old) rep) (disks (D.told src.new) rep) start report.old report.new) }
        ensures on { OnOk result (SourceIsOn (D.told src.new) self.new.source) }
        ensures replica { self.new.replica ≡ self.old.replica }
        ensures goes { GoesOn (D.told src.old) (D.told src.new) }
        ensures drawn { DrewUntil (ended_by result) (E.draws env.old) report.old.src_draws (E.draws env.new) report.new.src_draws }
        ensures others { report.new.rep_draws ≡ report.old.rep_draws }
        ensures grew { Grew report.old report.new }
        ensures refuses { IfErr result (λ refusal. (rep : Option Story) (n : ℕ) →
            RefusesNodes refusal (disks (D.told src.old) rep) (faults (D.faults src.old) n) (faults (D.faults src.new) n)) }
        ensures later { D.faults src.old ≤ D.faults src.new }
    {
        entries_have_length();
        heads_have_length();
        openings_hold();
        replica_follows();
        restarts_keep();
        log_goes_on();
        logs_go_on();
        stores_go_on();
        runs_last();
        let draw = take_draw(env, &mut report.src_draws)?;
        match self.source.restart(src, &draw) {
            Ok(()) => {
                let answer = ok(alloc, 0);
                Ok(shown(alloc, number, &answer)?)
            }
            Err(refusal) => Err(by_source(refusal)),
        }
    }

    /// A RESTART of the replica, at the next draw of its environment.
    fn restart_replica<R: Disk, F: Env>(
        &mut self,
        alloc: Global,
        number: u32,
        rep: &mut R,
        env: &mut F,
        report: &mut Report,
    ) -> Result<Bytes, Refusal>
        requires { IsOnDisk (R.told rep.old) self.old.replica }
        ensures carried { (names : Names) (src : Option Story) (start : Stores) (b : Both) → Before names (disks src (R.told rep.old)) start self.old number b report.old
            → IfOk result (λ lines.
            CarriedOut names b number restart_replica (disks src (R.told rep.old)) (disks src (R.told rep.new)) start report.old report.new self.new lines) }
        ensures left { (names : Names) (src : Option Story) (start : Stores) (b : Both) → Before names (disks src (R.told rep.old)) start self.old number b report.old
            → OnErr result (GaveUp names b number restart_replica (disks src (R.told rep.old)) (disks src (R.told rep.new)) start report.old report.new) }
        ensures on { OnOk result (IsOnDisk (R.told rep.new) self.new.replica) }
        ensures source { self.new.source ≡ self.old.source }
        ensures goes { GoesOn (R.told rep.old) (R.told rep.new) }
        ensures drawn { DrewUntil (ended_by result) (F.draws env.old) report.old.rep_draws (F.draws env.new) report.new.rep_draws }
        ensures others { report.new.src_draws ≡ report.old.src_draws }
        ensures grew { Grew report.old report.new }
        ensures refuses { IfErr result (λ refusal. (src : Option Story) (n : ℕ) →
            RefusesNodes refusal (disks src (R.told rep.old)) (faults n (R.faults rep.old)) (faults n (R.faults rep.new))) }
        ensures later { R.faults rep.old ≤ R.faults rep.new }
    {
        replica_follows();
        restarts_keep();
        let draw = take_draw(env, &mut report.rep_draws)?;
        match self.replica.restart(rep, &draw) {
            Ok(()) => {
                let answer = ok(alloc, 0);
                Ok(shown(alloc, number, &answer)?)
            }
            Err(refusal) => Err(by_replica(refusal)),
        }
    }

    /// A CHECKPOINT of the source. It takes no draw.
    fn checkpoint_source<D: Disk>(
        &mut self,
        alloc: Global,
        number: u32,
        src: &mut D,
    ) -> Result<Bytes, Refusal>
        requires { SourceIsOn (D.told src.old) self.old.source }
        ensures carried { (names : Names) (rep : Option Story) (start : Stores) (b : Both) (report : AnyReport) → Before names (disks (D.told src.old) rep) start self.old number b report
            → IfOk result (λ lines.
            CarriedOut names b number checkpoint_source (disks (D.told src.old) rep) (disks (D.told src.new) rep) start report report self.new lines) }
        ensures left { (names : Names) (rep : Option Story) (start : Stores) (b : Both) (report : AnyReport) → Before names (disks (D.told src.old) rep) start self.old number b report
            → OnErr result (GaveUp names b number checkpoint_source (disks (D.told src.old) rep) (disks (D.told src.new) rep) start report report) }
        ensures on { OnOk result (SourceIsOn (D.told src.new) self.new.source) }
        ensures replica { self.new.replica ≡ self.old.replica }
        ensures goes { GoesOn (D.told src.old) (D.told src.new) }
        ensures refuses { IfErr result (λ refusal. (rep : Option Story) (n : ℕ) →
            RefusesNodes refusal (disks (D.told src.old) rep) (faults (D.faults src.old) n) (faults (D.faults src.new) n)) }
        ensures later { D.faults src.old ≤ D.faults src.new }
    {
        log_goes_on();
        logs_go_on();
        stores_go_on();
        runs_last();
        match self.source.checkpoint(src) {
            Ok(()) => {
                let answer = ok(alloc, 0);
                Ok(shown(alloc, number, &answer)?)
            }
            Err(fault) => Err(by_open_source(fault)),
        }
    }

    /// A CHECKPOINT of the replica. It takes no draw.
    fn checkpoint_replica<R: Disk>(
        &mut self,
        alloc: Global,
        number: u32,
        rep: &mut R,
    ) -> Result<Bytes, Refusal>
        requires { IsOnDisk (R.told rep.old) self.old.replica }
        ensures carried { (names : Names) (src : Option Story) (start : Stores) (b : Both) (report : AnyReport) → Before names (disks src (R.told rep.old)) start self.old number b report
            → IfOk result (λ lines.
            CarriedOut names b number checkpoint_replica (disks src (R.told rep.old)) (disks src (R.told rep.new)) start report report self.new lines) }
        ensures left { (names : Names) (src : Option Story) (start : Stores) (b : Both) (report : AnyReport) → Before names (disks src (R.told rep.old)) start self.old number b report
            → OnErr result (GaveUp names b number checkpoint_replica (disks src (R.told rep.old)) (disks src (R.told rep.new)) start report report) }
        ensures on { OnOk result (IsOnDisk (R.told rep.new) self.new.replica) }
        ensures source { self.new.source ≡ self.old.source }
        ensures goes { GoesOn (R.told rep.old) (R.told rep.new) }
        ensures refuses { IfErr result (λ refusal. (src : Option Story) (n : ℕ) →
            RefusesNodes refusal (disks src (R.told rep.old)) (faults n (R.faults rep.old)) (faults n (R.faults rep.new))) }
        ensures later { R.faults rep.old ≤ R.faults rep.new }
    {
        match self.replica.checkpoint(rep) {
            Ok(()) => {
                let answer = ok(alloc, 0);
                Ok(shown(alloc, number, &answer)?)
            }
            Err(fault) => Err(by_open_replica(fault)),
        }
    }

    /// A SELECT of the replica, at the next draw of its environment.
    fn select<F: Env>(
        &mut self,
        alloc: Global,
        number: u32,
        text: &[u8],
        env: &mut F,
        report: &mut Report,
    ) -> Result<Bytes, Refusal>
        requires { length text.now ≤ command_limit }
        ensures carried { (names : Names) (t : Disks) (start : Stores) (b : Both) → Before names t start self.old number b report.old → IfOk result (λ lines.
            CarriedOut names b number (select text.now) t t start report.old report.new self.new lines) }
        ensures left { (names : Names) (t : Disks) (start : Stores) (b : Both) → Before names t start self.old number b report.old
            → OnErr result (GaveUp names b number (select text.now) t t start report.old report.new) }
        ensures same { self.new ≡ self.old }
        ensures drawn { DrewUntil (ended_by result) (F.draws env.old) report.old.rep_draws (F.draws env.new) report.new.rep_draws }
        ensures others { report.new.src_draws ≡ report.old.src_draws }
        ensures grew { Grew report.old report.new }
        ensures short { IfErr result (λ refusal. refusal ≡ Refusal.NoMemory) }
    {
        let draw = take_draw(env, &mut report.rep_draws)?;
        match self.replica.select(text, &draw) {
            Ok(answer) => Ok(shown(alloc, number, &answer)?),
            Err(_) => Err(Refusal::NoMemory),
        }
    }

    /// The next bytes of the source's log, at most so many, for the replica. It takes no draw.
    fn fetch<D: Disk, R: Disk>(
        &mut self,
        alloc: Global,
        number: u32,
        count: u32,
        src: &mut D,
        rep: &mut R,
    ) -> Result<Bytes, Refusal>
        requires { AreOnDisks (disks (D.told src.old) (R.told rep.old)) self.old }
        ensures shows { (names : Names) (start : Stores) (b : Both) (draw : AnyDraw) → Together names (disks (D.told src.old) (R.told rep.old)) start self.old b
            → IfOk result (λ lines.
            Shows names b number (take_bytes count) draw (disks (D.told src.old) (R.told rep.old)) (disks (D.told src.new) (R.told rep.new)) start self.new lines) }
        ensures on { OnOk result (AreOnDisks (disks (D.told src.new) (R.told rep.new)) self.new) }
        ensures source { self.new.source ≡ self.old.source }
        ensures generation { OnOk result (self.new.replica.store.generation ≡ self.old.replica.store.generation) }
        ensures lasts { (names : Names) (start : Stores) (b : Both) (marks : Items AnyMark) → Together names (disks (D.told src.old) (R.told rep.old)) start self.old b
            → LastsOn (D.told src.old) (D.told src.new) start.source b.machine.history b.machine.history marks marks }
        ensures carries { (names : Names) (start : Stores) (b : Both) (draw : AnyDraw) (marks : Items AnyMark)
            → Together names (disks (D.told src.old) (R.told rep.old)) start self.old b
            → CarriesOn (R.told rep.old) (R.told rep.new) names b (take_bytes count) draw marks marks }
        ensures goes { BothGoOn (disks (D.told src.old) (R.told rep.old)) (disks (D.told src.new) (R.told rep.new)) }
        ensures refuses { IfErr result (λ refusal. RefusesNodes refusal (disks (D.told src.old) (R.told rep.old))
            (faults (D.faults src.old) (R.faults rep.old)) (faults (D.faults src.new) (R.faults rep.new))) }
        ensures later { NoFewer (faults (D.faults src.old) (R.faults rep.old)) (faults (D.faults src.new) (R.faults rep.new)) }
    {
        replica_follows();
        log_goes_on();
        logs_go_on();
        stores_go_on();
        runs_last();
        let (log, pos) = self.replica.want();
        // No log ends past the last place, so that this leaves nothing out.
        let most = count.min(u32::MAX - pos);
        let piece = match self.source.log_bytes(alloc, src, log, pos, most) {
            Ok(piece) => piece,
            Err(DiskRefusal::Failed) => return Err(Refusal::SourceDisk),
            Err(DiskRefusal::NoMemory) => return Err(Refusal::NoMemory),
        };
        match self.replica.fetch(rep, &piece) {
            Ok(()) => Ok(fetched_line(alloc, number, piece.len() as u32)?),
            Err(fault) => Err(by_open_replica(fault)),
        }
    }

    /// At most so many groups of what was fetched, carried out by the replica at the next draw of its environment.
    fn apply<R: Disk, F: Env>(
        &mut self,
        alloc: Global,
        number: u32,
        count: u32,
        rep: &mut R,
        env: &mut F,
        report: &mut Report,
    ) -> Result<Bytes, Refusal>
        requires { IsOnDisk (R.told rep.old) self.old.replica }
        ensures carried { (names : Names) (src : Option Story) (start : Stores) (b : Both) → Before names (disks src (R.told rep.old)) start self.old number b report.old
            → IfOk result (λ lines.
            CarriedOut names b number (take_groups count) (disks src (R.told rep.old)) (disks src (R.told rep.new)) start report.old report.new self.new lines) }
        ensures left { (names : Names) (src : Option Story) (start : Stores) (b : Both) → Before names (disks src (R.told rep.old)) start self.old number b report.old
            → OnErr result (GaveUp names b number (take_groups count) (disks src (R.told rep.old)) (disks src (R.told rep.new)) start report.old report.new) }
        ensures on { OnOk result (IsOnDisk (R.told rep.new) self.new.replica) }
        ensures source { self.new.source ≡ self.old.source }
        ensures goes { GoesOn (R.told rep.old) (R.told rep.new) }
        ensures drawn { DrewUntil (ended_by result) (F.draws env.old) report.old.rep_draws (F.draws env.new) report.new.rep_draws }
        ensures others { report.new.src_draws ≡ report.old.src_draws }
        ensures grew { Grew report.old report.new }
        ensures refuses { IfErr result (λ refusal. (src : Option Story) (n : ℕ) →
            RefusesNodes refusal (disks src (R.told rep.old)) (faults n (R.faults rep.old)) (faults n (R.faults rep.new))) }
        ensures later { R.faults rep.old ≤ R.faults rep.new }
    {
        replica_follows();
        log_goes_on();
        logs_go_on();
        stores_go_on();
        runs_last();
        let draw = take_draw(env, &mut report.rep_draws)?;
        match self.replica.apply(rep, count, &draw, report) {
            Ok(applied) => Ok(applied_line(alloc, number, &applied)?),
            Err(fault) => Err(by_open_replica(fault)),
        }
    }

    /// One command with its number, and the lines that show what it is told.
    #[tactic(auto, using(crate::proofs::Drawing::none_drawn, crate::proofs::Drawing::none_handed))]
    pub(crate) fn carry_out<D: Disk, R: Disk, E: Env, F: Env>(
        &mut self,
        alloc: Global,
        number: u32,
        asked: &Asked<'_>,
        src: &mut D,
        rep: &mut R,
        src_env: &mut E,
        rep_env: &mut F,
        report: &mut Report,
    ) -> Result<Bytes, Refusal>
        requires fit { IsTrue (is_fit asked.now) }
        requires on { AreOnDisks (disks (D.told src.old) (R.told rep.old)) self.old }
        ensures carried { (names : Names) (start : Stores) (b : Both) → Before names (disks (D.told src.old) (R.told rep.old)) start self.old number b report.old
            → IfOk result (λ lines.
            CarriedOut names b number (asked_seen asked.now) (disks (D.told src.old) (R.told rep.old)) (disks (D.told src.new) (R.told rep.new)) start report.old report.new
            self.new lines) }
        ensures left { (names : Names) (start : Stores) (b : Both) → Before names (disks (D.told src.old) (R.told rep.old)) start self.old number b report.old
            → OnErr result (GaveUp names b number (asked_seen asked.now) (disks (D.told src.old) (R.told rep.old)) (disks (D.told src.new) (R.told rep.new)) start
            report.old report.new) }
        ensures on { OnOk result (AreOnDisks (disks (D.told src.new) (R.told rep.new)) self.new) }
        ensures goes { BothGoOn (disks (D.told src.old) (R.told rep.old)) (disks (D.told src.new) (R.told rep.new)) }
        ensures src_drawn { DrewUntil (ended_by result) (E.draws src_env.old) report.old.src_draws (E.draws src_env.new) report.new.src_draws }
        ensures rep_drawn { DrewUntil (ended_by result) (F.draws rep_env.old) report.old.rep_draws (F.draws rep_env.new) report.new.rep_draws }
        ensures grew { Grew report.old report.new }
        ensures refuses { IfErr result (λ refusal. RefusesNodes refusal (disks (D.told src.old) (R.told rep.old))
            (faults (D.faults src.old) (R.faults rep.old)) (faults (D.faults src.new) (R.faults rep.new))) }
        ensures later { NoFewer (faults (D.faults src.old) (R.faults rep.old)) (faults (D.faults src.new) (R.faults rep.new)) }
    {
        match *asked {
            Asked::Say { session, text } => {
                self.say(alloc, number, session, text, src, src_env, report)
            }
            Asked::CheckpointSource => self.checkpoint_source(alloc, number, src),
            Asked::CheckpointReplica => self.checkpoint_replica(alloc, number, rep),
            Asked::RestartSource => self.restart_source(alloc, number, src, src_env, report),
            Asked::RestartReplica => self.restart_replica(alloc, number, rep, rep_env, report),
            Asked::Select { text } => self.select(alloc, number, text, rep_env, report),
            Asked::Fetch { count } => self.fetch(alloc, number, count, src, rep),
            Asked::Apply { count } => self.apply(alloc, number, count, rep, rep_env, report),
        }
    }
}
