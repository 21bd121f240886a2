//! Tests of formats: which statements are logged by their texts and which by their rows, which lines are warned, and what a replica
//! makes of both that is told another server, user, clock and seeds.
//!
//! - `playing`: scripts over a source and such a replica, and the log that they leave
//! - `reasons`: each reason, however it is reached, in each format
//! - `warned`: lines with the warning, and lines of the same kinds without
//! - `alike`: what a replica has of its own, which texts do the same there, and which do not
#![tactic(auto)]

#[cfg(test)]
mod alike;
#[cfg(test)]
mod playing;
#[cfg(test)]
mod reasons;
#[cfg(test)]
mod warned;
