//! AUTO_INCREMENT: the counters of tables, and the values that a statement generates.
//!
//! A contract sees [`Counters`] as a list of names with numbers, and a [`StmtSeq`] as the first value
//! that the statement has generated with its own next number. When a value is asked for, and when a
//! counter moves, is the part of the crate that runs statements.
//!
//! - `counters`: [`Counters`]
//! - `starting`: [`start_value`]
//! - `sequence`: [`StmtSeq`]
//! - `laws`: what follows from the definitions
//! - `worked`: values by hand, which the checker computes
//!
//! # Proved
//! - [`Counters::value`], [`Counters::raise`], [`Counters::reset`] and [`Counters::remove`] give and make
//!   exactly what their definitions say, without memory; a table without a counter has 0, and nothing
//!   changes there; behind `remove` it has none. [`Counters::add`] puts a counter at the end, where the table has
//!   none, or wants memory and changes nothing
//! - no table has two counters ([`Counters::one_each`]); `raise` and `reset` leave the tables as they are
//! - [`Counters::place`] is the place of a table's counter, at which [`Counters::value_at`] and
//!   [`Counters::raise_at`] give and make what `value` and `raise` do
//! - a copy of counters is equal, or memory is wanted
//! - [`start_value`] is the number behind the greatest one held in the AUTO_INCREMENT column, 1 where there is
//!   none above 0 or no such column; each row raises it as its value would raise the counter ([`start_rises`])
//! - [`StmtSeq::next`] gives exactly the value of the definition, None exactly where it is past the
//!   greatest number, and the sequence then stays; [`StmtSeq::explicit`], [`StmtSeq::forced`] and
//!   [`StmtSeq::first`] are their definitions
//! - a law: the value looked for is the least at or above its start with the wanted rest
//!   ([`least_congruent_is_least`])
//! - the worked values
//!
//! # Only tested
//! That `add` succeeds with ample memory, and first values at the ends of the types, in `test_contexts`.
#![tactic(auto)]

mod counters;
mod laws;
mod sequence;
mod starting;
mod worked;

pub use counters::{Counter, Counters};
pub use laws::{least_congruent_is_least, start_rises};
pub use sequence::StmtSeq;
pub use starting::start_value;
pub use worked::{values_at_start, values_generated, values_looked_for};
