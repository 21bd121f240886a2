//! A script of commands, carried out over a source and a replica, each on its disk.
//!
//! [`run_script`] is the word `run`, over any input, output, disks and environments; [`write_log`] carries out a script for its log.
//! Their clauses are over definitions: how a script splits (`script_read`), what its commands ask and lead to (`run_model`, over
//! the machine of `session_model`), where a run begins (`specs/Beginning`) and how it ends (`specs/Ran`), and how the writing of its log
//! does (`specs/Logged`).
//!
//! - `script`: [`run_script`]
//! - `logging`: [`write_log`], the source's log in place of what the commands are told
//! - `commands`: the commands, one after the other, and the lines that show what they are told
//! - `nodes`: a source and a replica, and one command over both
//! - `asked`: what a script asks of them
//! - `stops`: why a node gave nothing, and whose disk it was, as a status
//! - `laws`: where a run may begin
//!
//! In specs/: `Disks` (both disks at once), `Beginning` (where a run begins), `Opening` (each node as it was opened), `Ran` (how a run ends),
//! `Logged` (how the writing of its log ends), `Running` (commands on their way), `Together` (nodes that stand for those of a run, and what one
//! command makes of them), `Marks` (the marks of a run), `Survives` (what may stand on each disk at any moment), `Generations` (which generation
//! is active on each), `Asking` (what is read of a script), `Faults` (the cause of a fault).
//!
//! It stands on `run_streams`, `run_model` with its laws (`run_laws`, `run_stores`), `durable_source` and `durable_replica`; `repl_run` asks
//! [`run_script`] by a word.
//!
//! # Proved
//! Over any input, output, disks and environments that keep the contracts of `port_traits` and `disk_model`:
//!
//! - What a run comes to (`run`), by its status. Where both disks tell their stories, this is said from wherever they stand as the run
//!   begins (`RunStands`): each pair of stores whose source has one log stands somewhere ([`stores_stand`]), and empty disks where a run
//!   begins with nothing ([`empty_disks_begin`]); of what a disk has that tells nothing, nothing is said. Done: all commands of the script
//!   on the input, which was read to its end (`read_end`), were carried out, each at a draw of its node's environment, FETCH at none; all
//!   lines that show what they were told were written, and each is told what both nodes of the definition tell, which begin where their
//!   disks stood; the report tells who the nodes are and these draws. What a session's text commits is logged in the format that the
//!   session had before it: by its text under STATEMENT, by its rows under ROW, and under MIXED by its text exactly where it has no reason
//!   (`formats`). WriteFault: the first commands were carried out, each at a draw that the report tells; the lines of all but the last were
//!   written, of the last's a front. BadScript: the byte is the first at which no command begins, or else the first of a command that no
//!   node carries out, and nothing was written. ReadFault: nothing was written. SourceDisk, ReplicaDisk, NoMemory: no command was begun, or
//!   the lines of the first commands, whole, were written, and the report begins with their draws. SourceDamaged, ReplicaDamaged: that
//!   disk's files stood for nothing, and this is their first place of damage; no command was begun. Done, WriteFault and a stop behind
//!   commands come where both stood for something. No other status comes.
//! - Where the run began as one may (`run_laws::Begins`), besides: what the statements of the committed entries give, run again one transaction
//!   after the other, are just the changes of the entries, and these make the committed base of the one at the start; each entry can be read
//!   again from the log. The replica follows the source: it has carried out the first of the entries that were owed and committed, each once
//!   and in their order, however FETCH cut the log, and its base and counters are what the definition of an applier makes of their
//!   groups, each at the draw of its APPLY, whatever texts are among them. Where each item of them does the same at every replica, its base
//!   is what they make of its first one, and where they are all, it is the source's (`run_laws::all_carried_is_equal`). No APPLY stopped
//!   where each item that it came to does the same at every replica, and none at anything but an item that has no effect at the replica. Each
//!   item does where it is logged by its rows, is not warned, or is warned because of RAND() alone; so under MIXED and ROW each does
//!   (`session_replays::unwarned_items_follow`, `run_laws::others_follow`).
//! - Marks and `now` are true at every status: a mark for each transaction that was committed and each group that was carried out and kept, as
//!   the run stood when its command began; those that raise a number name each once and in order, from the numbers at the opening on, and the
//!   last names what the source has committed and the replica carried out, at want of memory and at a fault of a disk what they had kept by then.
//!   `now` is where the last command began, and how many calls each disk had had then.
//! - What may stand on the source's disk (`Survives`), at every status but BadScript and ReadFault, at which no call was made: each image
//!   of each moment since the run began, inside a write too, holds what the source's store held behind some first entries of those that its
//!   commands put out, the one in flight among them (`MayPut`): base and number, and in each log, up to its end, what stood there and what they
//!   put there. It holds no less than the marks until then name, and no mark says more calls than the disk has had.
//! - What may stand on the replica's (`ReplicaSurvives`), at the same statuses: each image of each moment since the run began, inside a
//!   write too, holds what the replica of the definition is behind some steps of some APPLY, or behind some commands (`IsStateOf`): base,
//!   number and place together, and of a group all or nothing. Its number is no less than the marks until then name. Where the run began as
//!   one may, each such image has carried out a prefix of the entries that were owed and committed (`ReplicaRecovers`): its place is
//!   behind them, and where each item of them does the same at every replica, its base is what they make of the one that the replica had; and
//!   its number is no more than the source had committed when the replica's disk had had so many calls. No mark says more calls than it has
//!   had.
//! - Behind each command, at moments in their order, each image that a crash left of a disk had the generation active at which the disk was
//!   opened, raised by the checkpoints of its node among the commands until then, and no mark of a command says more calls than the disk had
//!   had at its moment (`Raised`); behind all commands that were carried out it is so at the end (`AreRaised`), at Done and at WriteFault.
//! - Settled disks with such images are where the next run stands (`RunStands`), and an opening keeps what each has, whatever it answers and
//!   whether the other opens or not (`SourceOpens`, `ReplicaOpens`), so that a second stop inside it loses nothing.
//! - At BadScript and ReadFault all but the input is as before, and no disk was called (`idle`). At BadScript the input was read to its end
//!   or to one byte past the limit (`refused`), and never further (`limit`).
//! - A fault comes only where the count of faults of the stream or of the disk rose, or stands at its last value
//!   (`read_fault`, `write_fault`, `disk_fault`, `rep_disk_fault`), and of a stream it is the last call (`last_read`, `last_write`, `reads_once`).
//! - The report's identities and draws are the environments' at any status (`source`, `replica`), and at any but NoMemory all
//!   that was drawn is told (`src_drawn`, `rep_drawn`).
//! - [`write_log`], by its status (`run`). Done: all commands of the script on the input, which was read whole, were carried out,
//!   each at a draw that the report tells, and the bytes of the source's log behind them were written, what it had as the run began among them, in
//!   which each session's transactions stand in its format. WriteFault: a front of these. At the others nothing was written;
//!   BadScript is at the byte at which [`run_script`] would have it, SourceDamaged and ReplicaDamaged where that would. A fault comes only
//!   where its count rose (`read_fault`, `write_fault`, `disk_fault`, `rep_disk_fault`); the report is true at any status (`source`, `replica`).
//!
//! # Only tested
//! In the tests of the program: that calls succeed with ample memory, and that a RESTART reads its disk.
#![tactic(auto)]

mod asked;
mod commands;
mod laws;
mod logging;
mod nodes;
mod script;
mod stops;

// What is its own, and the crates below that it speaks of, passed on: who stands above names them through it.
pub use laws::{empty_disks_begin, stores_stand};
pub use logging::write_log;
pub use run_stores;
pub use run_streams;
pub use script::run_script;
