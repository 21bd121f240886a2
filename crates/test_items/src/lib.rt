//! Tests of items that are written, beside bytes that an independent program wrote from the layouts of
//! the events.
//!
//! - `rows`: changes as a map and rows events
//! - `caches`: a cache that is cut, and the transaction of what is left
//! - `texts`: a text that needs all that there is
#![tactic(auto)]

#[cfg(test)]
mod caches;
#[cfg(test)]
mod rows;
#[cfg(test)]
mod texts;
