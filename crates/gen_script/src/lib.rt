//! The word that writes the made script.
//!
//! It is made and written some lines at a time, so that the whole of it is never held.
//!
//! - `writing`: [`write_script`]
//!
//! The definitions stand in specs/: `Ends` (how writing ends), `Gathered`; the script itself in `load_script`.
//!
//! # Proved
//! - [`write_script`] writes exactly the script with this number of changes, or at a fault or for want of memory a front of it
//!   (`run`). No other status comes. A fault has its cause and is the last call on the output.
//!
//! # Only tested
//! In the crates above: that calls succeed with ample memory. How many lines are held at once follows from the code and is not proved.
#![tactic(auto)]

mod writing;

pub use writing::write_script;
