//! Parts of trees as the parser of statements holds them, and nodes of expressions made of them.
//!
//! Over `sql_parse_tokens`, below the parts of the parser that make trees. A part is [`Kept`](kept)
//! with its number of levels, and not at all where it has more than a statement may have, so that
//! no tree is ever deeper than that.
//!
//! - [`kept`]: kept parts, side by side, one level higher, in lists
//! - [`nodes`]: nodes of expressions and SELECTs over kept parts
//! - [`leaves`]: expressions without parts
//! - [`operators`]: operators between operands
//!
//! # Proved
//! - `beside`, `above`, `alone`, `push` and their like: exactly the definitions of the same names.
//! - Each function of `nodes`: where the parts that it is given are what is kept of some trees, it
//!   gives what is kept of the node over these trees, or want of memory.
//! - Each function of `leaves` and `operators` that reads: what its rule reads is kept, or given,
//!   with the same tokens left, or the same fault, or want of memory (`Keeps`, `Gives`).
#![tactic(auto)]

pub mod kept;
pub mod leaves;
pub mod nodes;
pub mod operators;
