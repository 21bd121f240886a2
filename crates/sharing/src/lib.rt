//! Values on the heap that many may hold, so that a row or a program that is only read is not copied.
//!
//! - `shared`: [`Shared`]
//!
//! # Proved
//! - [`Shared::new`] and [`Shared::share`] give a holder of just the value, or want memory; [`Shared::get`]
//!   borrows it.
//!
//! # Only tested
//! That calls succeed with ample memory, where holders are used.
#![tactic(auto)]

mod shared;

pub use shared::Shared;
