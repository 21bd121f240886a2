//! Tests of the program over streams and environments in memory.
//!
//! They stand in a crate of their own above `repl_run`, since a crate with tests of its own is proved once more for them.
//!
//! - `playing`: calls of the program on scripts and on logs
//! - `answers`: scripts and what they write: transactions, generated values, limits of trees, errors and their order
//! - `refusals`: statements, SETs, CALLs and definitions with one cause to be refused, and SELECTs of the replica
//! - `programs`: stored functions and triggers; `settings`: SET that is refused behind its evaluation
//! - `keys`: conditions that name the key of a row, or seem to; `orders`: ORDER BY the key, and COUNT, MIN and MAX
//! - `replication`: logs fetched in pieces and carried out in groups
//! - `logs`: the source's log in place of the answers
//! - `texts`: that log printed and replayed: what each statement carries, by its text and by its rows, and what a procedure leaves
//! - `made`, `replays`: logs of another server, made event by event: texts and groups that are refused, what is damaged or not known,
//!   logs that are cut, streams that fail; `stops`: rows that change and swap keys, each stop of a row, tables that differ
//! - `made_scripts`: the word that makes a script, and what that comes to when it is run
//! - `statuses`: words, scripts that do not split, streams that fail, what the report tells
#![tactic(auto)]

#[cfg(test)]
mod answers;
#[cfg(test)]
mod keys;
#[cfg(test)]
mod logs;
#[cfg(test)]
mod made;
#[cfg(test)]
mod made_scripts;
#[cfg(test)]
mod orders;
#[cfg(test)]
mod playing;
#[cfg(test)]
mod programs;
#[cfg(test)]
mod refusals;
#[cfg(test)]
mod replays;
#[cfg(test)]
mod replication;
#[cfg(test)]
mod settings;
#[cfg(test)]
mod statuses;
#[cfg(test)]
mod stops;
#[cfg(test)]
mod texts;
