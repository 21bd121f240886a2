//! The writer's lock: at most one session changes rows at a time.
//!
//! A session takes the lock with its first statement that writes, and keeps it until its transaction ends; a
//! statement of another session that would write is refused meanwhile (1205). A source stands on this crate.
//!
//! - `lock`: [`WriterLock`] and [`Busy`]
//!
//! # Proved
//! - [`WriterLock::take`] gives the lock to a session unless another one holds it, which it names, and then the lock
//!   stays as it was; [`WriterLock::release`] frees the lock where the session holds it, and else leaves it;
//!   [`WriterLock::other`] is the other session that holds it, if there is one.
//!
//! # Only tested
//! Nothing: no call can fail for another reason.
#![tactic(auto)]

mod lock;

pub use lock::{Busy, WriterLock};
