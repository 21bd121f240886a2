//! A store on a disk, committed record by record.
//!
//! A store keeps a journal of records on a disk; what its files stand for is defined in `store_model`. A record is first
//! prepared, which takes all the memory that its commit needs, then staged behind the journal's closed gate, and then
//! committed by that gate: until then each image that a crash may leave stands for what was held before, and from then on
//! for what the record makes of it. A source writes the bytes of its log before it stages.
//!
//! This crate stands on the journal of `gate_journal`, on the definitions of `store_model` and on the bodies of
//! `store_bodies`; the nodes with disks stand on it.
//!
//! - `store`: [`Store`], with the calls that write, and its readers
//! - `prepared`: [`Prepared`], a record that is made before it is written; `next`: what a store's readers give behind it;
//!   `reserved`: where logs end, with room for more
//! - `laws`: [`other_files_leave_the_store`]
//! - `specs/Keeping`: what a disk holds of a store (`Holds`, `Keeps`), and which record leads on (`LeadsOn`)
//! - `specs/Next`: the readers behind a record; `specs/Reserved`: ends with their room; `specs/Laws`: what leaves a store as it is
//!
//! # Proved
//! - [`Prepared::new`] makes exactly the bytes of a record, and what the readers give behind it, without a store; [`Store::make_room`]
//!   makes room for the ends of logs that are to begin; [`Store::take`] takes a record over without memory. [`Store::prepare`] does all
//!   three, or wants memory and leaves the store as it was. [`Store::stage`] and [`Store::commit`] take no memory of their own, so
//!   that all memory of many commits can be taken before the first.
//! - In [`Store::start`] and [`Store::stage`] each image stands for what is held, at each moment; in [`Store::commit`] each stands
//!   for that or for what the record makes of it. That holds whichever call of the disk fails, so at an error a crash leaves what
//!   it may leave inside the call; then the readers give what they gave. Other files stay as they were.
//! - After Ok the disk keeps what is held, durable, with the journal at a closed gate, and the readers give it ([`Store::commit`]:
//!   what is held behind the record). Staging and committing make two calls of the disk each, starting two or none. A refusal
//!   is the disk's own, and Failed comes only where its count of faults rose.
//! - After Ok of [`Store::start`] and of [`Store::commit`] the journal rests, whatever was held, so that the next record can be staged;
//!   [`Store::found`] makes a store with a journal that was read.
//! - [`Store::move_to`] goes on in another generation's journal, where the disk stands for what is held at that generation.
//! - What is put into a log, or done to what a replica has fetched, leaves all this as it is ([`other_files_leave_the_store`]).
//!
//! # Only tested
//! In `test_stores`: that calls succeed with ample memory; scripts of commits over disks in which each call fails in turn, with what four
//! crashes leave.
#![tactic(auto)]

mod laws;
mod next;
mod prepared;
mod reserved;
mod store;

// What is its own, and of the crates below what it speaks of, passed on.
pub use laws::other_files_leave_the_store;
pub use prepared::Prepared;
pub use store::Store;
pub use store_bodies::are_changes;
pub use store_model;
