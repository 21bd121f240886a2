//! What a replica has fetched of its source's logs: the bytes from the place on up to which all was carried out.
//!
//! Bytes are put behind the others as they come, wherever they are cut, and are passed group by group. Passing a group moves the
//! others only when at least as many were passed as are left, so that the time of all calls is that of all bytes. Groups are read
//! by `log_groups`; a replica stands on this crate.
//!
//! - `relay`: [`Relay`]; `place`: [`Place`] and [`Walk`]
//! - `walking`: a walk over whole groups, which finds where the bytes end
//!
//! The definitions in specs/ say what a relay is, where bytes lead, and what is ahead of the applied place (`Reaching`); where
//! groups lead is `replica_model`'s.
//!
//! # Proved
//! - [`Relay::at`] has no bytes, at just the place that it is given.
//! - [`Relay::append`] puts just the piece behind the others, or memory is short and all is as before.
//! - [`Relay::next`] is just the group that the definition has at a place ahead, and [`Relay::behind`] the place behind it, which
//!   is ahead, too, and lies within the bytes.
//! - [`Relay::pass`] leaves just the bytes behind a place ahead, from that place on.
//! - [`Relay::want`] is just the place where the bytes end.
//!
//! # Only tested
//! Nothing here: that pieces are put in with ample memory is tested where a replica fetches. That no call takes longer than it
//! should is not proved.
#![tactic(auto)]

mod place;
mod relay;
mod walking;

// What is its own, and the crates below that it speaks of, passed on: who stands above names them through it.
pub use log_groups;
pub use place::{Place, Walk};
pub use relay::Relay;
