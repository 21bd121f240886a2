//! Names, and the numbers of LIMITs, with locals closed in.
//!
//! - `names`: [`close_name`] for names; [`close_limit`] and [`close_count_if`] for the numbers of LIMITs
//!
//! What they are with locals closed in is a definition of `sql_reach`; of what may be absent, one of `name_const_length`.
//!
//! # Proved
//! - [`close_name`] gives a name, or NAME_CONST where a local hides it, or finds no memory.
//! - [`close_limit`] gives the LIMIT of a SELECT, where there is one, and [`close_count_if`] that of UPDATE and DELETE, or an
//!   OFFSET: a name of a local that is a number from 0 as that number, and any other as it is. Or they find no memory.
//!
//! # Only tested
//! That calls succeed with ample memory, in `test_procedures` and `test_scripts`.
#![tactic(auto)]

mod names;

// What is its own, and the crates below that it speaks of, passed on: who stands above names them through it.
pub use name_const_length::log_entries;
pub use names::{close_count_if, close_limit, close_name};
