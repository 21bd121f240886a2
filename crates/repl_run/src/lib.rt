//! The program: a script of commands, carried out over a source and a replica; a log that is replayed, or shown; a script that is made;
//! and what each program does around that.
//!
//! [`top`] is all that the program does, over any input, output and environments. Its clauses are over definitions: how a run
//! ends (`script_run`, in specs/Ran), how a log that is shown (`print_log`) or replayed (`replay_log`) ends, and how the writing of a
//! made script does (`gen_script`).
//!
//! - `program`: [`top`], which asks which word it is
//! - [`write_log`] of `script_run`: a script carried out as `run` has it, and the source's log behind it
//! - `starting`: [`start`], one call of a program over two environments
//! - `command_line`: [`words`], those of the command line; which a program has ([`Known`]), and [`asks_log`]
//! - `laws`: [`replays_follow`], what the headline says of a log that is replayed (specs/Headline)
//! - `pages`: [`Page`], `--help` and `--version`, and which of them some words ask for
//! - `ending`: [`exit_of`] and [`tell`], how a status ends the process
//! - `nodes`: who the nodes of a program over the system are ([`source_identity`], [`replica_identity`]), with the number that
//!   `REPL_SERVER_ID` gives the source ([`number_of`])
//!
//! It stands on `program_words`, on `script_run` for the word that is given a script, on `print_log` and `replay_log` for the
//! words that are given a log, and on `gen_script` for the one that makes a script; the programs give it the real edges. What stands around
//! [`top`] is no crate of its own, since `rt` sums up all that a library is made from, which takes minutes for one more on top of all.
//!
//! # Proved
//! Over any input, output, environments and settled disks that keep the contracts of `port_traits` and `disk_model`:
//!
//! - [`top`] answers BadWords exactly where the words ask for none of `run`, `print`, `replay`, `dump` and `gen n`, want of memory apart,
//!   and then reads and touches nothing (`words`, `other_words`, `unread`, `untouched`). In a run, at BadScript and ReadFault all but the
//!   input is as before (`idle`). `print` touches no environment and no report, and `replay` none of a source (`print_alone`,
//!   `replay_alone`). `run` calls both disks, `replay` and `dump replica` the replica's, `dump source` the source's, and no other word any
//!   (`source_disk_alone`, `replica_disk_alone`).
//! - What a run comes to (`run`) is what `script_run` says of it, by its status. At Done each session's transactions are logged in the
//!   format that it had before: under MIXED the text items are exactly those without a reason (field `formats`). The replica has
//!   carried out the first entries that the source committed, each once, and its base and counters are what the definition of an
//!   applier makes of their groups, each at the draw of its APPLY (`follows`). Where no item of them is warned, or by RAND() alone, its
//!   base is what they make of the one that it began with, whatever its clock, seeds, identity and counters; and no APPLY stopped where this holds of
//!   the entries carried out and of the next one (`unstopped`). Under MIXED and ROW nothing is warned.
//! - What `print` comes to (`print`). At Done, LogDamaged and LogForeign the log on the input ends so, at this place, and the lines of
//!   all its groups were written; at ReadFault, WriteFault and NoMemory a front of them. No other status comes.
//! - What `replay` comes to (`replay`). At Done, LogDamaged and LogForeign the log on the input ends so, at this place, and all its
//!   groups from the replica's place on were carried out as the definition of a replay has it, by the replica that its disk stood for, at
//!   one draw; at Differs the first that is not carried out stops so, and those before it were. The disk has what they make, and each
//!   image of each moment what the first of them make, no less than the marks name. The report tells who the replica is, the draw, and a
//!   mark for each group. Just the line of what was carried out was written; at WriteFault a front of it, and else nothing.
//! - Where the replica is behind the log's source, and the log is a front of that source's, cut anywhere (`replay_follows`): each image of
//!   each moment of its disk has carried out the first of what it owed, no fewer than the marks name; its place is behind them, and where they
//!   do the same at every replica, its base is what they make. Where all that it owed does, the replay stops at nothing but the log's end,
//!   the group in which it was cut, a fault or want of memory; and of a whole log it comes to the source's base.
//! - Where no count of faults rose, and the disks that are called stand for something, `run` of a script that can be split, `print` of whole
//!   groups, `replay` of the whole log of a source that its replica is behind, `dump` and `gen` are done, or memory was short (`whole_run`,
//!   `whole_print`, `whole_replay`, `whole_source`, `whole_replica`, `whole_made`).
//! - What `gen n` comes to (`made`). At Done just the made script with n changes was written, at WriteFault and NoMemory a front of it.
//!   No other status comes; the input, the environments and the report are as before (`made_alone`).
//! - At BadScript the input was read to its end or to one byte past the limit (`refused`), and in a run never further (`limit`). At
//!   Done of `run`, `print` and `replay` it was read to its end (`read_end`).
//! - A fault comes only where the count of faults of that stream or disk rose, or stands at its last value (`read_fault`, `write_fault`,
//!   `source_disk`, `replica_disk`), and is the last call on its stream (`last_read`, `last_write`, `reads_once`).
//! - The report's identities and draws are the environments' at any status (`source`, `replica`), and at any but NoMemory all
//!   that was drawn is told (`src_drawn`, `rep_drawn`).
//!
//! Around it:
//!
//! - The source's log is asked for exactly by the one word `log` ([`asks_log`]).
//! - A page is shown exactly where the first word is `--help` or `--version` ([`page_asked`]).
//! - The exit status is the number of the status ([`exit_of`]).
//! - Where [`tell`] ends well, it put exactly the line of the status at the end of a writer that tells its bytes, which is
//!   nothing at Done.
//! - The number of a text is the one that it is in decimal from 1 to 4294967295, and 1 for any other text; without a text it is 1
//!   (`server_id_of`).
//! - The source is `root@localhost`, the replica `rep@localhost` with the number 2.
//!
//! # Only read
//! The text of the pages; that only a program that has the word `log` takes it; that pages go to standard output, and the line of
//! a status to standard error; that `REPL_SERVER_ID` is the variable that is read. What [`start`] hands to `top` is tested by the
//! programs' stored runs.
//!
//! # Only tested
//! In the tests of the program: that calls succeed with ample memory.
#![tactic(auto)]

mod command_line;
mod ending;
mod laws;
mod nodes;
mod pages;
mod program;
mod starting;

// What is its own, and the crates below that it speaks of, passed on: who stands above names them through it.
pub use command_line::{Known, asks_log, words};
pub use ending::{exit_of, tell};
pub use laws::replays_follow;
pub use nodes::{number_of, replica_identity, source_identity};
pub use pages::{Page, page_asked};
pub use program::top;
pub use script_run::{run_streams, write_log};
pub use starting::start;
