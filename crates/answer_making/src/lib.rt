//! What both nodes answer commands with.
//!
//! - `reading`: [`statement_of`], the statement that a text is
//! - `answers`: [`Answer`](answer_text::Answer)s made: [`ok`], [`refused`], [`refused_at`], [`refused_by`], [`showing`] and
//!   [`told`]; [`with_warning`], one that shows whether something is warned; [`row_count_after`], what ROW_COUNT() is behind one
//! - `fault`: [`NodeFault`], why a node gives no answer
//!
//! The definitions stand in specs/: `ReadTexts` (why a text is no statement), `Telling` (the answer of what a statement came to);
//! those of the answers are `session_model`'s.
//!
//! # Proved
//! - [`statement_of`] gives the statement that a text is, or the place of its syntax error, or that it is too deep, exactly, or
//!   wants memory.
//! - Each answer is just the one that its definition is, or memory is short where rows are shown.
//!
//! # Only tested
//! Nothing here: that rows are shown with ample memory is tested where scripts run.
#![tactic(auto)]

mod answers;
mod fault;
mod reading;

// What is its own, and the crates below that it speaks of, passed on: who stands above names them through it.
pub use answers::{
    ok, refused, refused_at, refused_by, row_count_after, showing, told, with_warning,
};
pub use fault::NodeFault;
pub use prog_work;
pub use prog_work::{catalog, catalog_create_program, catalog_create_table};
pub use reading::statement_of;
pub use session_model;
pub use session_model::session_ctx;
pub use sql_parse;
