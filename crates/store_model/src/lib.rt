//! What a source and a replica keep on a disk: the bytes of it, what they stand for, and where they are damaged. Definitions
//! and laws; no code runs here.
//!
//! A store is a journal of records, behind a snapshot once there are any, and on a source the bytes of its logs. A record says
//! what one commit of a source, or one step of a replica, made of what was held: the changes of its rows or its text, how many
//! transactions there are with it, and the end of the last log or the place carried out, all in one. What an image of the files
//! holds is computed from these bytes alone, record by record, or the first place where they are damaged.
//!
//! This crate stands on what `gate_journal` reads of a journal, on the images of `disk_model`, and on the definitions of
//! tables, catalogs, texts and entries; who writes, loads or commits a store stands on it.
//!
//! - `record`: [`Record`], its [`Head`], and the [`Kind`] of a store
//! - `specs/Reading`, `specs/Bodies`: values, rows, changes and the body of each kind of record, both ways
//! - `specs/Held`: what a store holds, and what a record makes of it
//! - `specs/Snapshots`: the body of a snapshot, both ways, and its file
//! - `specs/Stores`: what an image holds, or its first place of damage (`held_by`); the same apart (`Stands`)
//! - `specs/Entries`: what is held behind an entry of a source, and the record that is written for it
//! - `laws`: what follows; `worked`: stores by hand
//!
//! # Proved
//! - The body of each record is read as that record, and that of a snapshot as what is held ([`bodies_are_read`]); rows and changes
//!   have just as many bytes as those of a transaction are counted by ([`bodies_are_counted`]).
//! - What an image holds is what its journal's open records make of what it begins from, where its logs are as long as their
//!   ends say, both ways ([`images_stand`]).
//! - A snapshot's file that is not open, a journal behind its open records, the other generation's journal, a log behind its end
//!   and all other files may hold anything ([`what_counts_decides`]).
//! - With one open record more, an image stands for what that record makes of what was held ([`records_are_applied`]).
//! - Where an entry of a source leads on, so does the record that is written for it, whatever is known of its items
//!   ([`entries_lead`]), and the next is written where its log ends; so does the record of what a replica carried out
//!   ([`steps_lead`]).
//! - The bytes of stores by hand, of a source and of a replica, of a snapshot, and of damaged ones with their first places
//!   ([`sources_by_hand`], [`replicas_by_hand`], [`snapshots_by_hand`], [`damage_by_hand`], [`unfit_by_hand`],
//!   [`first_damage_by_hand`]).
#![tactic(auto)]

mod laws;
mod record;
mod worked;

pub use laws::{
    bodies_are_counted, bodies_are_read, entries_lead, images_stand, records_are_applied,
    steps_lead, what_counts_decides,
};
pub use record::{Head, Kind, Record};
pub use worked::{
    damage_by_hand, first_damage_by_hand, replicas_by_hand, snapshots_by_hand, sources_by_hand,
    unfit_by_hand,
};
