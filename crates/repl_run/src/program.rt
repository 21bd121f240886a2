//! The whole program, over any input, output and environments.
ghost use Rattle.std.specs.Prelude.{◌≡◌, ◌⊎◌, ◌≤◌, [], false, true, Some, None, map, string_bytes, IfSome};
ghost use Rattle.disk_model.specs.Claims.{Quietly};
ghost use Rattle.disk_model.specs.Moments.{IsSettled};
ghost use Rattle.fault_counts.specs.Causes.{Rose};
ghost use Rattle.run_streams.specs.Read.{RestBehindScript, TakesUpToLimit};
ghost use Rattle.run_streams.specs.Reports.{AllTold, IsEmpty, Tells};
ghost use Rattle.run_streams.specs.Stops.{failed_writes, is_early};
ghost use Rattle.program_words.specs.Words.{IfGen, calls_replica, calls_source, reads_input, shows_store, word_asked};
ghost use Rattle.program_words.specs.declared.words.Word.TheVariants.{DumpReplica, DumpSource, Print, Replay, Run};
ghost use Rattle.store_model.specs.declared.record.Kind.TheVariants.{Replica as OfReplica, Source as OfSource};
ghost use Rattle.dump_store.specs.Ends.{DumpEnds, IsDoneOrShort, IsFaultless, IsHeld};
ghost use Rattle.script_run.specs.Disks.{disks};
ghost use Rattle.script_run.specs.Ran.{EndsBy};
ghost use Rattle.print_log.specs.Ends.{PrintEnds};
ghost use Rattle.replay_log.specs.Ends.{ReplayEnds};
ghost use Rattle.gen_script.specs.Ends.{GenEnds};
ghost use Rattle.repl_run.specs.Headline.{FollowsReplay};
ghost use Rattle.repl_run.specs.Whole.{IsAsked, IsWholeLog, IsWhollyOwed};

use crate::laws::replays_follow;
use answer_text::{Report, Status};
use disk_model::Disk;
use dump_store::dump;
use gen_script::write_script;
use port_traits::{Env, Sink, Source};
use print_log::print;
use program_words::{Word, asked_word};
use replay_log::replay;
use script_run::run_script;
use script_run::run_stores::durable_runs::sources_last;
use std::alloc::Global;
use store_model::Kind;

/// The whole program: the words ask for something to be done with the input and the output, by a
/// source in the one environment and on the one disk, and a replica in the other and on the other.
///
/// - `run` carries out the script on the input: each command is carried out by the source or by the replica, which open on what their
///   disks have, and what it is told is written before the next begins. What is committed is on the source's disk, and what is carried out
///   on the replica's, before the command is answered. What a session commits is logged in its format: by its text under
///   STATEMENT, by its rows under ROW, and under MIXED by its text exactly where it has no reason for which that is unsafe. The
///   replica fetches the log of the source and carries out what stands there; it follows the source, however the log is cut, and
///   whatever its clock, its seeds, its identity and its counters are. No APPLY stops, and once all is carried out the tables are
///   equal, as long as nothing is warned, or by RAND() alone; under MIXED and ROW nothing is.
/// - `print` shows the binary log on the input, a line for each event of each whole group.
/// - `replay` carries out the binary log on the input, from the replica's place on, by the replica on its disk, and writes how many groups
///   these were and the place behind them.
/// - `dump source` and `dump replica` write what the store of a disk holds: of each object its CREATE statement, and behind a table its
///   rows. They read that disk, and write nothing there.
/// - `gen n` writes the made script with n changes, and reads and touches nothing else.
///
/// Any other words are [`Status::BadWords`], and nothing is read. The report is empty before, and tells after, at any status, who the
/// source and the replica are, as far as they were opened, and what they drew.
#[tactic(auto, using(crate::proofs::Unread::are_bad, crate::proofs::Unread::are_not_read, crate::proofs::Unread::not_made, crate::proofs::Unread::not_dumped, crate::proofs::Unread::not_printed, crate::proofs::Unread::not_replayed, crate::proofs::Unread::not_run, crate::proofs::Unread::not_taken, disk_model::proofs::Quiet::quiet_none))]
pub fn top<S: Source, K: Sink, E: Env, F: Env, D: Disk, R: Disk>(
    alloc: Global,
    words: &[String],
    input: &mut S,
    out: &mut K,
    src: &mut D,
    rep: &mut R,
    src_env: &mut E,
    rep_env: &mut F,
    report: &mut Report,
) -> Status
    requires empty { IsEmpty report.old }
    requires settled { IsSettled (D.told src.old) }
    requires rep_settled { IsSettled (R.told rep.old) }
    ensures words { result ≡ Status.BadWords → word_asked (map string_bytes words.now) ≡ None }
    ensures other_words { word_asked (map string_bytes words.now) ≡ None → (result ≡ Status.BadWords) ⊎ (result ≡ Status.NoMemory) }

    // What `run` comes to: each status only by its cause. At Done each command was told what both nodes of the definition tell,
    // all lines of that were written, the report tells the draws, each session's transactions are logged in the format that it had
    // (under MIXED the items without a reason by their texts, and no others), and the replica follows the source; at any other status
    // a front of these lines was written.
    ensures run { word_asked (map string_bytes words.now) ≡ Some Run → EndsBy result (S.left input.old) (S.left input.new)
        (disks (D.told src.old) (R.told rep.old)) (disks (D.told src.new) (R.told rep.new)) report.new (K.written out.old) (K.written out.new) }

    // What `print` comes to: the lines of all groups of the log on the input were written, at Done up to its end, at LogDamaged and
    // LogForeign up to what is damaged or not known; at any other status a front of them.
    ensures print { word_asked (map string_bytes words.now) ≡ Some Print → PrintEnds result (S.left input.old) (S.left input.new)
        (K.written out.old) (K.written out.new) }

    // What `replay` comes to: all groups of the log on the input from the replica's place on were carried out and kept on its disk, at one
    // draw that the report tells, at Done up to the log's end, at LogDamaged and LogForeign up to what is damaged or not known, at Differs
    // up to the first that is not carried out; and the line of these was written, at WriteFault a front of it, and else nothing.
    ensures replay { word_asked (map string_bytes words.now) ≡ Some Replay → ReplayEnds result (S.left input.old) (S.left input.new)
        (R.told rep.old) (R.told rep.new) report.new (K.written out.old) (K.written out.new) }

    // Where the replica is behind the log's source, and the log is a front of that source's: each image of each moment of its disk has carried
    // out the first of what it owed, no fewer than the marks name; where all of that does the same at every replica, the replay stops at
    // nothing but the log's end, the place where it was cut, a fault or want of memory, and of a whole log it comes to the source's base.
    ensures replay_follows { word_asked (map string_bytes words.now) ≡ Some Replay → FollowsReplay result (S.left input.old) (R.told rep.old) (R.told rep.new) report.new }

    // What `dump` comes to: the lines of what the store of that disk holds were written, or a front of them; nothing where it is damaged.
    ensures dump_source { word_asked (map string_bytes words.now) ≡ Some DumpSource → DumpEnds result OfSource (D.told src.old)
        (K.written out.old) (K.written out.new) }
    ensures dump_replica { word_asked (map string_bytes words.now) ≡ Some DumpReplica → DumpEnds result OfReplica (R.told rep.old)
        (K.written out.old) (K.written out.new) }

    // It reads that disk and writes nothing there; where the disk tells what it holds and neither fails, all was written or memory was short.
    ensures quiet_source { word_asked (map string_bytes words.now) ≡ Some DumpSource → Quietly (D.told src.old) (D.told src.new) }
    ensures quiet_replica { word_asked (map string_bytes words.now) ≡ Some DumpReplica → Quietly (R.told rep.old) (R.told rep.new) }
    ensures whole_source { word_asked (map string_bytes words.now) ≡ Some DumpSource → IsHeld OfSource (D.told src.old)
        → IsFaultless (D.faults src.old) (D.faults src.new) → IsFaultless (K.faults out.old) (K.faults out.new) → IsDoneOrShort result }
    ensures whole_replica { word_asked (map string_bytes words.now) ≡ Some DumpReplica → IsHeld OfReplica (R.told rep.old)
        → IsFaultless (R.faults rep.old) (R.faults rep.new) → IsFaultless (K.faults out.old) (K.faults out.new) → IsDoneOrShort result }

    // Where no count of faults rose, and the disks that are called stand for something: a script that can be split is carried out, a log of
    // whole groups shown, the whole log of a source that the replica is behind carried out, and a made script written, or memory was short.
    ensures whole_run { word_asked (map string_bytes words.now) ≡ Some Run → IsAsked (S.left input.old) → IsHeld OfSource (D.told src.old) → IsHeld OfReplica (R.told rep.old)
        → IsFaultless (S.faults input.old) (S.faults input.new) → IsFaultless (K.faults out.old) (K.faults out.new)
        → IsFaultless (D.faults src.old) (D.faults src.new) → IsFaultless (R.faults rep.old) (R.faults rep.new) → IsDoneOrShort result }
    ensures whole_print { word_asked (map string_bytes words.now) ≡ Some Print → IsWholeLog (S.left input.old)
        → IsFaultless (S.faults input.old) (S.faults input.new) → IsFaultless (K.faults out.old) (K.faults out.new) → IsDoneOrShort result }
    ensures whole_replay { word_asked (map string_bytes words.now) ≡ Some Replay → IsWhollyOwed (R.told rep.old) (S.left input.old)
        → IsFaultless (S.faults input.old) (S.faults input.new) → IsFaultless (K.faults out.old) (K.faults out.new)
        → IsFaultless (R.faults rep.old) (R.faults rep.new) → IsDoneOrShort result }
    ensures whole_made { IfGen (word_asked (map string_bytes words.now)) (λ n. IsFaultless (K.faults out.old) (K.faults out.new) → IsDoneOrShort result) }

    // What `gen` comes to: the made script was written, or a front of it.
    ensures made { IfGen (word_asked (map string_bytes words.now)) (λ n. GenEnds result n (K.written out.old) (K.written out.new)) }

    // What is left of the input: all of it behind bad words, what is past the limit behind a bad
    // script, and never less of a script.
    ensures unread { result ≡ Status.BadWords → input.new ≡ input.old }
    ensures refused { IfSome (S.left input.old) (λ script. RestBehindScript result script (S.left input.new)) }
    ensures limit { word_asked (map string_bytes words.now) ≡ Some Run → TakesUpToLimit (S.left input.old) (S.left input.new) }

    // Behind bad words nothing is touched; before a script was read and split, nothing but the input; `print` touches no
    // environment and no report, `replay` none of a source, `dump` neither, and `gen` nothing but the output. No word calls a disk
    // but `run` both, `dump source` the source's, and `replay` and `dump replica` the replica's.
    ensures untouched { result ≡ Status.BadWords → (out.new ≡ out.old)
        × (src_env.new ≡ src_env.old) × (rep_env.new ≡ rep_env.old) × (report.new ≡ report.old) }
    ensures idle { word_asked (map string_bytes words.now) ≡ Some Run → is_early result ≡ true → (out.new ≡ out.old)
        × (src_env.new ≡ src_env.old) × (rep_env.new ≡ rep_env.old) × (src.new ≡ src.old) × (rep.new ≡ rep.old) × (report.new ≡ report.old) }
    ensures source_disk_alone { calls_source (word_asked (map string_bytes words.now)) ≡ false → src.new ≡ src.old }
    ensures replica_disk_alone { calls_replica (word_asked (map string_bytes words.now)) ≡ false → rep.new ≡ rep.old }
    ensures dumped_alone { shows_store (word_asked (map string_bytes words.now)) ≡ true → (input.new ≡ input.old)
        × (src_env.new ≡ src_env.old) × (rep_env.new ≡ rep_env.old) × (report.new ≡ report.old) }
    ensures print_alone { word_asked (map string_bytes words.now) ≡ Some Print →
        (src_env.new ≡ src_env.old) × (rep_env.new ≡ rep_env.old) × (report.new ≡ report.old) }
    ensures replay_alone { word_asked (map string_bytes words.now) ≡ Some Replay →
        (src_env.new ≡ src_env.old) × (report.new.src_identity ≡ None) × (report.new.src_draws ≡ []) }

    ensures made_alone { IfGen (word_asked (map string_bytes words.now)) (λ n. (input.new ≡ input.old)
        × (src_env.new ≡ src_env.old) × (rep_env.new ≡ rep_env.old) × (report.new ≡ report.old)) }

    // A fault has its cause, whatever the streams are, and is the last call on its stream; nothing is
    // read behind the end of the input, and at Done it was read to there by each word that reads.
    ensures read_fault { result ≡ Status.ReadFault → Rose (S.faults input.old) (S.faults input.new) }
    ensures write_fault { result ≡ Status.WriteFault → Rose (K.faults out.old) (K.faults out.new) }
    ensures source_disk { result ≡ Status.SourceDisk → Rose (D.faults src.old) (D.faults src.new) }
    ensures replica_disk { result ≡ Status.ReplicaDisk → Rose (R.faults rep.old) (R.faults rep.new) }
    ensures reads_once { S.ended input.old ≡ 0 → S.ended input.new ≤ 1 }
    ensures last_read { result ≡ Status.ReadFault → S.ended input.old ≡ 0 → S.ended input.new ≡ 1 }
    ensures read_end { reads_input (word_asked (map string_bytes words.now)) ≡ true → result ≡ Status.Done → S.ended input.old ≡ 0 → S.ended input.new ≡ 1 }
    ensures last_write { K.ended out.old ≡ 0 → K.ended out.new ≡ failed_writes result }

    // The report is true at any status. Nothing else was drawn, but for a draw that there was no memory to tell.
    ensures src_drawn { AllTold result (E.draws src_env.old) (E.draws src_env.new) report.new.src_draws }
    ensures rep_drawn { AllTold result (F.draws rep_env.old) (F.draws rep_env.new) report.new.rep_draws }
    ensures source { Tells (E.told src_env.old) (E.draws src_env.old)
        report.new.src_identity report.new.src_draws }
    ensures replica { Tells (F.told rep_env.old) (F.draws rep_env.old)
        report.new.rep_identity report.new.rep_draws }
{
    sources_last();
    replays_follow();
    match asked_word(alloc, words) {
        Err(_) => Status::NoMemory,
        Ok(None) => Status::BadWords,
        Ok(Some(Word::Run)) => run_script(alloc, input, out, src, rep, src_env, rep_env, report),
        Ok(Some(Word::Print)) => print(alloc, input, out),
        Ok(Some(Word::Replay)) => replay(alloc, input, out, rep, rep_env, report),
        Ok(Some(Word::DumpSource)) => dump(alloc, src, out, Kind::Source),
        Ok(Some(Word::DumpReplica)) => dump(alloc, rep, out, Kind::Replica),
        Ok(Some(Word::Gen(changes))) => write_script(alloc, changes, out),
    }
}
