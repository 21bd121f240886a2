//! The syntax trees of SQL: what a statement's text says, without the text.
//!
//! The parser makes these trees, the printer writes them, and all that runs, checks or closes a
//! statement walks over them. Definitions speak of a plain mirror of them, in `specs/Tree.antt` and
//! `specs/Statement.antt`, which contracts reach by the views in `specs/View.antt` and
//! `specs/StatementView.antt`.
//!
//! - `expressions`: [`Expr`], [`Select`] and their parts
//! - `built_ins`: the table of built-in functions
//! - `statements`: [`Stmt`], with [`Routine`] and [`TriggerDef`] for stored programs
//! - `expression_depth`, `statement_depth`: [`depth`], how many nodes lie one in the other
//! - `names`, `expression_rules`, `statement_rules`: [`well`], what the parser can give
//! - `part_copies`: equal copies of what holds no tree
//! - `worked`: worked examples of depth and of what the parser can give
//!
//! # Proved
//! - [`depth`], [`expr_depth`], [`select_depth`] give how deep a tree is, or 4294967295 where it is that
//!   or more.
//! - [`well`], [`well_step`], [`well_expr`], [`well_select`], [`is_name`] answer just what their
//!   definitions say: which statements the parser can give, at most 200 deep, which stand inside a
//!   stored program, and which parts stand in them.
//! - [`function_name`], [`function_named`], [`is_unsafe`], [`reads_last_id`] answer what the table of
//!   built-in functions says, in `specs/BuiltIns.antt`.
//! - Copies of tables, LIMITs and numbers of rows are equal to the original, or memory is short.
#![tactic(auto)]

mod built_ins;
mod expression_depth;
mod expression_rules;
mod expressions;
mod names;
mod part_copies;
mod statement_depth;
mod statement_rules;
mod statements;
mod worked;

pub use built_ins::{function_name, function_named, is_unsafe, reads_last_id};
pub use expression_depth::{expr_depth, select_depth};
pub use expression_rules::{well_expr, well_select};
pub use expressions::{
    Aggregate, Arm, Count, Expr, FromClause, Limit, OrderItem, Select, Selection,
};
pub use names::is_name;
pub use statement_depth::depth;
pub use statement_rules::{well, well_step};
pub use statements::{
    Assignment, Branch, Cause, Column, ColumnSet, CreateTable, Declaration, DeleteStmt, InsertStmt,
    Parameter, ReplaceStmt, Routine, Source, SqlType, Stmt, Target, Time, TriggerDef, UniqueKey,
    UpdateStmt,
};
pub use worked::{
    deepest_statements, depths_of_expressions, depths_of_statements, expressions_that_are_given,
    names_and_numbers, programs_that_are_given, selects_that_are_given, statements_that_are_given,
    tables_that_are_given,
};
