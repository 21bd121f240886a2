//! Equal copies of syntax trees.
//!
//! - `expressions`: copies of expressions and SELECTs
//! - `statements`: copies of statements and of the stored programs in them
//!
//! # Proved
//! Each call gives a tree that is equal to the original, or answers want of memory.
#![tactic(auto)]

mod expressions;
mod statements;

pub use expressions::{copy_expr, copy_exprs, copy_order, copy_select};
pub use statements::{copy_routine, copy_stmt, copy_trigger};
