//! What a table shows while a transaction changes it: entries over committed rows. Definitions with their laws, and no code.
//!
//! The committed rows stay as they are until the transaction is settled. A row that it puts, and the key of a row that it takes
//! out, has an entry, which is set again by later changes and never removed, so that a change is taken back without memory. Of
//! each unique key there are claims besides: the values that the transaction put where they were not, and the entry that has each.
//!
//! The definitions stand in specs/: `Slots` (keys with the row that each has or none), `Over` (slots over slots; entries
//! settled), `Claims` (who has a value of a unique key), `Sheets` (all of it for one table), `Writes` (the claims of all its unique keys),
//! `Orders` (the numbers of `block_list` as an order of slots). `OverLaws`, `ClaimLaws` and `SheetLaws` say what they owe, `Worked` has a small transaction.
//!
//! - `laws`: what follows from the definitions
//! - `worked`: a small transaction by hand, which the checker computes
//!
//! # Proved
//! - an entry that is set again fills its slot, one of a new key is a new slot, and one of the key of a committed row hides that
//!   row ([`entries_over_rows`])
//! - what is shown rises by key and has of each key what its entry has, else the committed row; slots are told by what they have
//!   of each key ([`slots_are_told`])
//! - settling an entry, whichever, leaves the rows that are shown, and so does settling all in any order, which are all where
//!   each is held, none twice, and they are as many ([`settling_shows_the_same`])
//! - claims are kept where an entry is made, a row taken out of one, and a row put into one; a value that is kept stays so, and a
//!   row of it is put without a new claim ([`claims_are_kept`]); so are those of all unique keys of a table, where the row that is put
//!   collides with none that is shown ([`all_claims_are_kept`])
//! - a value leads to the row that is shown with it, if there is one ([`values_lead_to_rows`])
//! - a sheet begins with the committed rows, its claims lead to the rows that it shows, and settled in any order these are the
//!   committed ones ([`sheets_show_rows`])
//! - numbers whose keys rise are in order for a search; the number that it finds has the slot of the key; a number put, taken out or
//!   given another row there puts its slot, takes it out or fills it ([`orders_are_slots`])
//! - the worked transactions
#![tactic(auto)]

mod laws;
mod worked;

pub use laws::{
    all_claims_are_kept, claims_are_kept, entries_over_rows, orders_are_slots,
    settling_shows_the_same, sheets_show_rows, slots_are_told, values_lead_to_rows,
};
pub use worked::{pens_claimed, pens_found, pens_shown};
