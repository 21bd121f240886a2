//! What a catalog is and what may be done to it: definitions with worked examples, and no code.
//!
//! The definitions stand in specs/: `Names` (lists of names), `Objects` (a catalog and looking up in it), `Defined` (the
//! definition that CREATE TABLE makes, and back), `Bodies` (what may stand in a stored program), `Creating` (CREATE, DROP
//! and TRUNCATE: their checks in order, and the catalog after them), `Nodes` (all that a statement names, as one list),
//! `Checks` (the catalog checks of a statement, in their order), `Ranks` (the same in one walk over the trees, which keeps how
//! early the first error comes), `Bases` (a catalog with the rows of its tables).
//!
//! - `worked`: statements by hand, which the checker computes
//!
//! # Proved
//! - the worked examples: which statement is refused with which error
//! - the walk of `Ranks` finds just the error that `Checks` says, of a statement (`refusal_law` in proofs/Refusing) and of an
//!   expression of a body (`expression_law`)
#![tactic(auto)]

mod worked;

pub use worked::{
    names_checked, objects_dropped, programs_created, tables_created, tables_defined,
};
