//! The objects of a catalog in order of creation, found by their names and triggers by what they wait for, without a walk.
//!
//! - `object`: [`Object`], a table, function, procedure or trigger, which as many hold as have it
//! - `looking`: looking by halves in the order of keys
//! - `going`: what goes with a DROP
//! - `counting`: how many tables and programs there are
//! - `objects`: [`Objects`]
//!
//! A contract sees [`Objects`] as the list of what they hold, and by `objects_of` (`Keys`) as the catalog that definitions speak
//! of. `Rising` is of any items with keys: their order, what is found, put in and kept. `Lookups` says what is found by which key.
//!
//! # Proved
//! - [`Objects::table`], [`Objects::function`], [`Objects::procedure`], [`Objects::trigger_named`] and [`Objects::trigger`] give
//!   just what the definitions find by a walk over the catalog; [`Objects::object`] the object at a place in order of creation,
//!   [`Objects::all`] all of them
//! - [`Objects::count_tables`] and [`Objects::count_programs`] count them
//! - [`Objects::add`] puts an object behind the others; where memory is wanted nothing changes
//! - [`Objects::remove`] leaves just the catalog after a DROP, without memory: with a table go its triggers
//! - [`Objects::copy`] is equal, and copies no object
//! - the invariant: no two objects of a kind have one name, no two triggers wait for one event, and what is kept in the order of
//!   keys is the same
#![tactic(auto)]

mod counting;
mod going;
mod looking;
mod object;
mod objects;

pub use object::Object;
pub use objects::Objects;
