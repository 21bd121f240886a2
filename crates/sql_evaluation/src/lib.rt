//! The values of expressions and the rows of SELECTs.
//!
//! An expression is evaluated in what is [`Around`] it, with the rows in view ([`Views`]), on a `Stage` of
//! `exec_state`, which contracts see as the scene of the definitions in `sql_meaning`. Each kind of expression is a
//! function that takes the evaluation of its parts as a closure; [`value`] ties them in one cycle of two. What a call
//! of a stored function does is handed in (`run`), so that programs stand above this crate, as changes do.
//!
//! - `world`, `views`: what is round an expression, and the rows that it sees; `outside`: what of it a WHERE may name
//! - `expressions`: [`value`]
//! - `operators`: unary and binary operators, IN; `choices`: CASE, IF, IFNULL, COALESCE, conditions
//! - `built_ins`: built-in functions, by their number of arguments; `session_values`: what the session gives
//! - `functions`: calls of stored functions, and RAND()
//! - `lookup`: what names mean, [`place_of`] a column; `value_lists`: lists of expressions
//! - `queries`: SELECT with WHERE, EXISTS and scalar subqueries; `sorting`: ORDER BY and LIMIT; `aggregates`; `shortcuts`: ORDER BY without a
//!   sort, LIMIT 1, COUNT, MIN and MAX without a walk, where the primary key's order says all
//!
//! The definitions in specs/ say what the code's values stand for (`Seen`).
//!
//! # Proved
//! - [`value`] gives the value that the definition gives, or its error's number, with the scene behind it, for every
//!   expression and state; or memory is short, as where an expression is deeper than the levels that it was given
//!   (`gives`)
//! - on every way out the stage leads on from the one before: changes that calls made lead from the old rows to the
//!   new and can be taken back, no counter is lower, no turn came back (`leads`)
//! - [`rows_of_query`] and each kind of expression by itself the same, for every evaluation that is handed in
//! - [`place_of`] is the place of the first column of a name, None where there is none
//!
//! # Only tested
//! That statements run with ample memory, in `test_scripts` and the stored runs of the programs.
#![tactic(auto, using(crate::proofs::Steps::steps))]

mod aggregates;
mod built_ins;
mod choices;
mod expressions;
mod functions;
mod lookup;
mod operators;
mod outside;
mod queries;
mod session_values;
mod shortcuts;
mod sorting;
mod value_lists;
mod views;
mod world;

// What is its own, and the crates below that it speaks of, passed on: who stands above names them through it.
pub use built_ins::{of_many, of_none, of_one, of_three, of_two};
pub use choices::{case_value, first_known, first_of_two, if_value};
pub use exec_state;
pub use expressions::value;
pub use functions::{call_value, floor_rand_value};
pub use key_order::where_candidates;
pub use key_order::where_candidates::session_ctx;
pub use lookup::{copied, place_of};
pub use operators::{binary_value, membership, unary_value};
pub use outside::outside_of;
pub use queries::{exists_value, kept_rows, ordered_rows, rows_of_query, subquery_value};
pub use session_values::{
    capped, connection_id, last_insert_id, now, row_count, sys_date, system_variable,
    unix_timestamp, user, user_variable, uuid,
};
pub use sorting::{count_of, cut};
pub use value_lists::values;
pub use views::{Views, seeing};
pub use world::{Around, View};
