//! Counts of faults, which vouch for the faults that streams and disks answer.
//!
//! Each object over the system counts its faults, and the count never falls. A call answers a fault only
//! where the count rose in it, so that code over such an object can't make one up. At its last value,
//! 2^64 - 1, a count stands still; there "it rose" reads "it stands at its last value".
//!
//! This crate has definitions (`specs/Causes`) and one worked example, and no code. `port_traits` (streams)
//! and `disk_model` (disks) stand on it.
//!
//! # Proved
//! - [`counts_by_hand`]: what rose and what did not, also at the last value, and which answers have their cause
#![tactic(auto)]

mod worked;

pub use worked::counts_by_hand;
