//! The groups of a log, carried out one after the other.
ghost use Rattle.std.specs.Prelude.{◌≡◌, ◌≤◌, [], Err, IfErr, IfOk, None};
ghost use Rattle.fault_counts.specs.Causes.{Rose};
ghost use Rattle.disk_model.specs.Answers.{HasNodeCause};
ghost use Rattle.disk_model.specs.Moments.{GoesOn};
ghost use Rattle.durable_replica.specs.Standing.{IsOnDisk};
ghost use Rattle.log_reader.specs.log_model.Groups.{Group as AnyGroup};
ghost use Rattle.log_reader.specs.Reading.{next_pos};
ghost use Rattle.durable_replica.specs.replica_node.Kept.{replica_of};
ghost use Rattle.durable_replica.specs.replica_node.replica_model.Replaying.{Replay, by_form};
ghost use Rattle.run_streams.specs.Reports.{first_mark};
ghost use Rattle.run_streams.specs.Stops.{failed_writes, status_of};
ghost use Rattle.log_reader.specs.log_file_model.Passing.{names_next};
ghost use Rattle.replay_log.specs.Keeping.{IsWhole};
ghost use Rattle.replay_log.specs.Replaying.{ComesTo, IsFresh, IsKept, IsNext, IsStop, KeptBy, Stands, Tells, Went, WentOn, is_told, kept};

use crate::line::replayed_line;
use answer_text::{Report, Status};
use disk_model::{Disk, NodeFault};
use durable_replica::DurableReplica;
use durable_replica::replica_node::{Applied, Stopped};
use log_reader::{Found, LogReader, calls_lead, front_leads, fronts_are_known, read_front};
use port_traits::{Draw, Sink, Source};
use run_streams::write_line;
use std::alloc::Global;
use val_types::Bytes;

/// A replica on its disk that carries out the groups of a log: how many it has carried out, and the log and the position behind them.
#[derive(Drop)]
pub(crate) struct Replaying {
    pub(crate) node: DurableReplica,
    pub(crate) count: u32,
    pub(crate) log: u32,
    pub(crate) pos: u32,
}

impl Replaying {
    /// A replica that has just opened, at its place.
    pub(crate) fn new(node: DurableReplica) -> Replaying
        requires { (replica_of node.node).relay ≡ [] }
        ensures node { result.node ≡ node }
        ensures fresh { IsFresh result }
    {
        let (log, pos) = node.want();
        Replaying {
            node,
            count: 0,
            log,
            pos,
        }
    }

    /// Carries out the group that a reader has, in memory and on the disk, or says why it is not.
    fn apply<R: Disk>(
        &mut self,
        alloc: Global,
        rep: &mut R,
        reader: &LogReader,
        draw: &Draw,
        report: &mut Report,
    ) -> Result<Option<Stopped>, NodeFault>
        requires next { IsNext self.old reader.now }
        requires on { IsOnDisk (R.told rep.old) self.old.node }
        ensures identity { self.new.node.node.identity ≡ self.old.node.node.identity }
        ensures went_on { IfOk result (λ stop. (g : AnyGroup) (s : Replay) → IsWhole reader.now.bytes reader.now.begin g → Stands self.old s → s.stop ≡ None
            → WentOn stop self.new (by_form self.old.node.node.identity draw.entry.now g s g.form) (names_next g.form) (next_pos reader.now)) }
        ensures kept { (g : AnyGroup) (s : Replay) → IsWhole reader.now.bytes reader.now.begin g → Stands self.old s → s.stop ≡ None
            → IsKept result (R.told rep.old) (R.told rep.new) self.old self.new s (by_form self.old.node.node.identity draw.entry.now g s g.form)
            report.old.now report.old.marks report.new.marks }
        ensures rest { report.new ≡ record report.old { marks = report.new.marks } }
        ensures goes { GoesOn (R.told rep.old) (R.told rep.new) }
        ensures cause { HasNodeCause (R.faults rep.old) (R.faults rep.new) result }
    {
        let group = Bytes::from_slice(alloc, reader.bytes())?;
        self.node.fetch(rep, &group)?;
        let Applied {
            count,
            log,
            pos,
            stop,
        } = self.node.apply(rep, 1, draw, report)?;
        self.count += count;
        self.log = log;
        self.pos = pos;
        Ok(stop)
    }

    /// Carries out the group that a reader has; else the status tells why it is not.
    fn carry_out<R: Disk>(
        &mut self,
        alloc: Global,
        rep: &mut R,
        reader: &LogReader,
        draw: &Draw,
        report: &mut Report,
    ) -> Result<(), Status>
        requires next { IsNext self.old reader.now }
        requires on { IsOnDisk (R.told rep.old) self.old.node }
        ensures identity { self.new.node.node.identity ≡ self.old.node.node.identity }
        ensures went { (g : AnyGroup) (s : Replay) → IsWhole reader.now.bytes reader.now.begin g → Stands self.old s → s.stop ≡ None
            → Went (status_of result) self.new (by_form self.old.node.node.identity draw.entry.now g s g.form) (names_next g.form) (next_pos reader.now) }
        ensures kept { (g : AnyGroup) (s : Replay) → IsWhole reader.now.bytes reader.now.begin g → Stands self.old s → s.stop ≡ None
            → KeptBy (status_of result) (R.told rep.old) (R.told rep.new) self.old self.new s (by_form self.old.node.node.identity draw.entry.now g s g.form)
            report.old.now report.old.marks report.new.marks }
        ensures err { IfErr result (λ status. IsStop status) }
        ensures rest { report.new ≡ record report.old { marks = report.new.marks } }
        ensures goes { GoesOn (R.told rep.old) (R.told rep.new) }
        ensures later { R.faults rep.old ≤ R.faults rep.new }
        ensures disk_fault { result ≡ Err Status.ReplicaDisk → Rose (R.faults rep.old) (R.faults rep.new) }
    {
        match self.apply(alloc, rep, reader, draw, report) {
            Ok(None) => Ok(()),
            Ok(
                Some(
                    Stopped::Differs {
                        pos,
                        code,
                        table,
                        key,
                    },
                ),
            ) => Err(Status::Differs {
                pos,
                code,
                table,
                key,
            }),
            Ok(Some(Stopped::Damaged { pos })) => Err(Status::LogDamaged { pos }),
            Ok(Some(Stopped::Foreign { pos, kind })) => Err(Status::LogForeign { pos, kind }),
            Err(NodeFault::Disk) => Err(Status::ReplicaDisk),
            Err(NodeFault::NoMemory) => Err(Status::NoMemory),
        }
    }

    /// Carries out the groups of the log on the input, from the replica's place up to the log's end; else the status tells why there is no
    /// more.
    pub(crate) fn carry_out_all<S: Source, R: Disk>(
        &mut self,
        alloc: Global,
        input: &mut S,
        rep: &mut R,
        draw: &Draw,
        report: &mut Report,
    ) -> Result<(), Status>
        requires fresh { IsFresh self.old }
        requires on { IsOnDisk (R.told rep.old) self.old.node }
        requires now { report.old.now ≡ first_mark }
        requires marks { report.old.marks ≡ [] }
        ensures comes_to { ComesTo (status_of result) self.old.node.node.identity draw.entry.now (kept self.old) (S.left input.old) (S.left input.new)
            (R.told rep.old) (R.told rep.new) self.new report.new.marks }
        ensures rest { report.new ≡ record report.old { marks = report.new.marks } }
        ensures goes { GoesOn (R.told rep.old) (R.told rep.new) }
        ensures later { R.faults rep.old ≤ R.faults rep.new }
        ensures disk_fault { result ≡ Err Status.ReplicaDisk → Rose (R.faults rep.old) (R.faults rep.new) }
        ensures read_fault { result ≡ Err Status.ReadFault → Rose (S.faults input.old) (S.faults input.new) }
        ensures once { S.ended input.old ≡ 0 → S.ended input.new ≤ 1 }
        ensures last { result ≡ Err Status.ReadFault → S.ended input.old ≡ 0 → S.ended input.new ≡ 1 }
        ensures at_end { status_of result ≡ Status.Done → S.ended input.old ≡ 0 → S.ended input.new ≡ 1 }
    {
        front_leads();
        calls_lead();
        fronts_are_known();
        let damaged = read_front(alloc, input, self.pos)?;
        if let Some(pos) = damaged {
            return Err(Status::LogDamaged { pos });
        }
        let mut reader = LogReader::at(alloc, self.pos);
        loop {
            match reader.next(input)? {
                Found::Group => self.carry_out(alloc, rep, &reader, draw, report)?,
                Found::End => return Ok(()),
                Found::Damaged { pos } => return Err(Status::LogDamaged { pos }),
                Found::Foreign { pos, kind } => return Err(Status::LogForeign { pos, kind }),
            }
        }
    }

    /// Writes the line that tells what was carried out, unless a stream or the disk failed or memory was short, and gives the status that
    /// the replay ends with.
    pub(crate) fn tell<K: Sink>(&self, alloc: Global, came: Status, out: &mut K) -> Status
        requires { failed_writes came ≡ 0 }
        ensures tells { Tells came result self.now (K.written out.old) (K.written out.new) }
        ensures write_fault { result ≡ Status.WriteFault → Rose (K.faults out.old) (K.faults out.new) }
        ensures ended { K.ended out.old ≡ 0 → K.ended out.new ≡ failed_writes result }
    {
        if !is_told(&came) {
            return came;
        }
        let Ok(line) = replayed_line(alloc, self.count, self.log, self.pos) else {
            return Status::NoMemory;
        };
        match write_line(out, line.as_slice()) {
            Ok(()) => came,
            Err(fault) => fault,
        }
    }
}

/// Whether a line comes before a status.
fn is_told(status: &Status) -> bool
    ensures { result ≡ is_told status.now }
{
    !matches!(
        status,
        Status::ReadFault | Status::ReplicaDisk | Status::NoMemory
    )
}
