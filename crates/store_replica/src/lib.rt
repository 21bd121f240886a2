//! What a replica writes to its disk.
//!
//! What a replica has carried out in memory is one record, which is prepared before (`commit_store`): base and place in one. It is staged
//! behind the journal's closed gate, and the gate is opened, each synced before the next; behind a transaction's gate its mark is pushed.
//! Room for the mark is taken before the first call of the disk; nothing else takes memory. What a replica fetches is put into a file of
//! its own and never synced, so that nothing is claimed of it after a crash: an opening empties it.
//!
//! This crate stands on the store of `commit_store`, on `store_open`, and on the runs of `durable_runs`; the replica on its disk stands on it.
//!
//! - `keeping`: [`keep`]
//! - `relay`: [`put_in_relay`], and the relay emptied
//! - `opening`: [`open_store`]
//! - `laws`: [`replicas_stand`]
//! - `specs/Writing`: what a replica has on its disk (`IsOn`), and which record can be kept (`CanKeep`); `specs/Pushed`: marks;
//!   `specs/Opening`: a store that is opened
//!
//! # Proved
//! - [`keep`]: whatever it answers, and whichever call of the disk fails, it is a run of the replica over its one record, with just the mark
//!   that it pushed: each image of each moment stands for what the replica had, or for what the record makes of it, no less than the marks
//!   until then name. After Ok the disk has what the record makes. The mark names the next number, and none is pushed for a record that counts
//!   no transaction, or at a refusal; it makes four calls, and reads what was fetched as before. The store's generation stays.
//! - [`put_in_relay`] puts a piece into the file of what is fetched, by one call; whatever comes of it, the replica has what it had, and it
//!   is a run of no record.
//! - [`open_store`] gives just what a disk holds whose files but the relay's are durable, at the generation that counts, or the first place
//!   of damage; its calls are a run of no record, and behind it the relay's file is empty.
//! - A crash leaves what the replica has where its disk is not called, and a replica's store has no logs ([`replicas_stand`]).
//! - A refusal is the disk's own, or want of memory. Failed comes only where the disk's count of faults rose.
//!
//! # Only tested
//! Where the program runs over disks: that records are kept with ample memory, and what crashes leave meanwhile.
#![tactic(auto)]

mod keeping;
mod laws;
mod opening;
mod relay;

// What is its own, and of the crates below what it speaks of, passed on.
pub use durable_runs;
pub use keeping::keep;
pub use laws::replicas_stand;
pub use opening::open_store;
pub use relay::put_in_relay;
pub use store_open;
