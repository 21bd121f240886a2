//! What a statement reaches holds all that it can run: laws over the definitions, and no code.
//!
//! - `specs/Agreeing`: settings that are the same to what is reached
//! - `specs/Laws`: what holds
//! - `laws`: the laws, as functions that do nothing
//!
//! # Proved
//! - A function that is found under a name which a statement reached calls is reached, and so is a trigger that is found for what
//!   a statement reached causes, with all that their bodies name ([`runs_are_reached`]).
//! - A statement ends just the same, whatever it ends with, in two settings that are the same to what it reaches: other functions
//!   and triggers may be there or not, and other variables and functions of the session have any value ([`reached_is_what_runs`]).
//! - A statement that does not write leaves tables and changes as they were, whether it ends with or without an error, in whatever
//!   scene, with whatever functions and triggers; so do expressions that a session evaluates ([`readers_change_nothing`]).
//!
//! Laws on two runs go by one induction over the definitions (`proofs/Like` and those behind it), for each way in which two actions
//! may be alike that is closed under what the definitions make actions of.
#![tactic(auto)]

mod laws;

pub use laws::{reached_is_what_runs, readers_change_nothing, runs_are_reached};
