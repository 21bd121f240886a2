//! The user variables and the tables of statements, by name.
//!
//! One walk over a statement's tree meets each name, and a visitor does something with it: it puts a user variable among [`Names`],
//! which stand in the order of their bytes, each once, or the table behind the tables before.
//!
//! - `variables`: [`Names`], [`put_variables`]
//! - `tables`: [`tables_of`]
//! - `visitor`: what is done with names
//! - `statements`, `expressions`: the walk
//! - `laws`: what follows from the definitions
//!
//! In specs/ stand `Visiting` (what a visitor makes of nodes, one after the other), `Walking` (the same, over a tree), `Naming` (the
//! two visitors) and `Rising` (names that rise, and the place of one).
//!
//! # Proved
//! - [`Names::put`] puts a name at its place or leaves the names as they are where it is there, or wants memory; the names of
//!   [`Names::all`] rise strictly
//! - [`put_variables`] puts the name of each user variable that a statement names, and no other, or wants memory
//! - put where none is, the names of nodes are those of the definition of what an item carries
//!   ([`names_are_in_byte_order`])
//! - [`tables_of`] gives the name of each table that a statement names, in the order of the definition and as often as it stands
//!   there, and no other, or wants memory
//!
//! # Only tested
//! That names are put with ample memory, in `test_reach` and where a source runs statements.
#![tactic(auto)]

mod expressions;
mod laws;
mod statements;
mod tables;
mod variables;
mod visitor;

// What is its own, and the crates below that it speaks of, passed on: who stands above names them through it.
pub use laws::names_are_in_byte_order;
pub use sql_reach::sql_meaning;
pub use tables::tables_of;
pub use variables::{Names, put_variables};
