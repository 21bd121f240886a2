//! What a store holds can be made again.
//!
//! A store's records have definitions by their texts, and its snapshots have objects by theirs. This law says that whatever
//! an image of bytes holds, its objects can be made again in their order by statements that read as their trees, so that the
//! next snapshot can have them; it stands on `store_model` and `catalog_laws`, and no code runs here.
//!
//! # Proved
//! - What an image of bytes holds has objects that can be made again in their order, and so has what one record more makes of it
//!   ([`held_is_made_again`])
//! - Changes that can be made to the tables of such objects have the form of a body: names of at most 64 bytes, few values, each
//!   of 64 bits or of few bytes ([`changes_have_forms`])
#![tactic(auto)]

mod laws;

pub use laws::{changes_have_forms, held_is_made_again};
