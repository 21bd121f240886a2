//! The catalog: tables, functions, procedures and triggers in order of creation, and the checks of statements against them.
//!
//! - `catalog`: [`Catalog`]
//! - `refusing`: what refuses CREATE TABLE, DROP and TRUNCATE
//!
//! A contract sees a [`Catalog`] as the list of what it holds, and by `objects_of` of `catalog_objects` as the catalog that
//! definitions speak of.
//!
//! # Proved
//! - [`Catalog::table`], [`Catalog::routine`] and [`Catalog::trigger`] find just what the definitions find
//! - [`Catalog::check`] and [`Catalog::check_in`] refuse a statement, and [`Catalog::check_expr`] an expression of a body, with
//!   just the error that the definition says comes first, and let others through
//! - [`Catalog::add_table`], [`Catalog::add_function`], [`Catalog::add_procedure`] and [`Catalog::add_trigger`] make just the
//!   catalog after a CREATE, or refuse it with just the error of its first check; then, and where memory is wanted, nothing changes
//! - [`Catalog::remove`] makes just the catalog after a DROP, without memory; an object that is not there is refused, and
//!   nothing changes. [`Catalog::check_removal`] answers what refuses a DROP or TRUNCATE
//! - [`Catalog::copy`] is equal, or wants memory
//! - [`Catalog::object`] gives the CREATE statement of the object at a place in order of creation, None just past the last, or
//!   wants memory; what that statement is, and that it makes the object again, stands in `catalog_show_create`
#![tactic(auto)]

mod catalog;
mod refusing;

// What is its own, and the crates below that it speaks of, passed on: who stands above names them through it.
pub use catalog::Catalog;
pub use catalog_create_program;
pub use catalog_create_program::catalog_create_table;
pub use catalog_show_create::catalog_objects;
