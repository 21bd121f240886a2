//! A whole log by its groups: which they are, why no other follows, and the lines that show it.
//!
//! Definitions and laws, and no code. They stand over single groups in `log_model` and lines of events in `log_print`; what reads
//! a log from an input, as the printer of logs and the replica that is given one, stands on this crate.
//!
//! The definitions in specs/:
//! - `Walk`: the groups of a log, one after the other, and its ending (`grouped`); those from a position on (`grouped_from`)
//! - `Passing`: what is known of a whole log behind bytes of it that were read
//! - `Printed`: the lines of a log (`log_lines`)
//! - `Worked`: small logs for the worked examples
//!
//! The laws stand in `laws`, the examples in `worked`, as functions that do nothing.
//!
//! # Proved
//! - the walk has turns enough ([`turns_are_enough`]), and a group at the front is its first piece ([`group_is_first`])
//! - behind the magic, or bytes up to a position, and groups that were passed, whatever follows: one more group ([`magic_is_passed`],
//!   [`front_is_passed`], [`group_is_passed`]), the end ([`end_is_seen`]), what is damaged or not known, a front of a group
//!   ([`stop_is_seen`]), a byte behind the name of the next log ([`nothing_behind_names`])
//! - a log without its magic is damaged at 0 ([`others_are_damaged`]); from a position on also one that does not reach it
//!   ([`fronts_are_damaged`]), and behind 1,200,000,000 any byte is ([`nothing_above`]); from 4 on it is as it is read
//!   ([`all_from_four`])
//! - the worked examples
//!
//! # Only tested
//! Nothing.
#![tactic(auto)]

mod laws;
mod worked;

// What is its own, and the crates below that it speaks of, passed on: who stands above names them through it.
pub use laws::{
    all_from_four, end_is_seen, front_is_passed, fronts_are_damaged, group_is_first,
    group_is_passed, magic_is_passed, nothing_above, nothing_behind_names, others_are_damaged,
    stop_is_seen, turns_are_enough,
};
pub use log_print;
pub use worked::{first_log_by_hand, magic_by_hand, positions_by_hand, stops_by_hand};
