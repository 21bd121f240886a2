//! The canonical text of a statement is read back as that statement: laws without code.
//!
//! `sql_print` says how a statement is written, `sql_syntax` which statement a text is, and
//! `sql_tree` which statements the parser can give. This crate stands above the three and shows
//! that they fit, through bytes and tokens.
//!
//! The proof goes once over the tree. For each part it says that the part's bytes, before whatever
//! may follow them, [say](../proofs/Saying.antt) some tokens, from which the part's rule takes the
//! part and leaves what follows. Such [readings](../proofs/Reading.antt) are put together as the
//! rules are: one behind the other, lists, steps of operators. Each level of a tree opens at most
//! two constructs at once, so a tree of 200 levels opens at most 400.
//!
//! The other way goes once over the rules: the tokens of a text of bytes [are
//! good](../proofs/Good.antt), and from good tokens each rule takes what is well and leaves good ones.
//!
//! - [`laws`]: the text is read, and as nothing else; and whatever is read is well
//! - [`worked`]: statements that these laws speak of
//!
//! # Proved
//! - The canonical text of each statement that the parser can give is read as that statement, and as no
//!   other; two such statements have two texts.
//! - A text of bytes is read as such a statement alone.
//! - The worked statements are such, with the texts beside them.
#![tactic(auto)]

mod laws;
mod worked;

pub use laws::{prints_are_read, prints_tell_statements_apart, readings_are_well};
pub use worked::these_are_well;
