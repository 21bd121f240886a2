//! Indexes of unique keys beside a transaction: one of the committed rows, one of the rows in its entries. Definitions with their laws,
//! and no code.
//!
//! An index has the rows of a table's slots in the order of their values in a unique key, without those that have a NULL there. The
//! rows that a transaction shows have no value twice, so that an index of the entries' rows and one of the committed rows find each row
//! that is shown: what no entry's row has is looked for among the committed rows, and counts where the transaction has no entry of that
//! row's key. An entry whose row is taken out and put back leaves its index and comes back, so that no value has to be kept.
//!
//! The definitions stand in specs/ `Indexes`, what they owe in `IndexLaws`; those of all unique keys together in `Wholes`.
//!
//! - `laws`: what follows from the definitions
//!
//! # Proved
//! - an index stays one where a row is put or taken out, with a NULL or without ([`indexes_are_kept`])
//! - both indexes together find just the row that is shown with some values ([`indexes_find_rows`])
//! - the same of all unique keys of a table: their indexes stay such ([`all_indexes_are_kept`]), and the first key in which they find a
//!   row is the first in the way ([`indexes_find_ways`])
#![tactic(auto)]

mod laws;

pub use laws::{all_indexes_are_kept, indexes_are_kept, indexes_find_rows, indexes_find_ways};
