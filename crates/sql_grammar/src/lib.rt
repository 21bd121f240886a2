//! Rules of a grammar, from which a text is read from left to right, with the exact place of a fault.
//!
//! This crate has definitions and their laws, and no code. It stands on `std` alone and below the
//! crates that read a language. A language's tokens are any type, with a function that gives each
//! token a number, its kind.
//!
//! A [rule](../specs/Rule.antt) says three things at once. Its *texts* are a relation: a value, the
//! tokens from where it begins, and what is left behind it. Its *fronts* are the lists of tokens
//! that a text may begin with. Its *reading function* gives the value and what is left, or a fault
//! that carries what is left from its place on. Rules are made of rules, so that each is written
//! once:
//!
//! - `token`, `word`: one token, by its kind and what it says; `pure`: nothing
//! - `both`, `behind`, `before`: one rule behind another
//! - `either`, `optional`: one or another, by the kind of the next token
//! - `either_by_two`: by the kinds of the next two tokens
//! - `chain`, `repeated`, `listed`: a first value and steps behind it, which are operators to the
//!   left, repetitions and lists with separators; in `chain_by` the rule of a step depends on the
//!   value so far, and `only_if` refuses one that was given before
//! - `mapped`, `with_tokens`: another value
//! - `opened`: a construct that its first token opens, which takes one from the number of those that
//!   may still be opened. A rule that nests is defined by recursion on this number.
//!
//! A fault is `Syntax` where the tokens before its place begin a text and with the next token none,
//! whatever may be opened. It is `Deep` where they are a front, and with the next token only if one
//! construct more may be opened. Fronts count the constructs that are opened in them, and not those
//! that a text would have to open further on: so a text that must go on with a parenthesis too
//! many, and does not, has a `Syntax` fault.
//!
//! Each way of making a rule keeps the laws (`Lawful` in proofs/): reading gives just the texts,
//! whatever stands behind them; reading stops nowhere in a front; what stands before a fault is
//! one. What is asked for in turn is that certain sets of kinds have nothing in common, which is
//! computed. So a rule costs a few lines, and the laws of a whole language follow from those of its
//! first rule: `IsExact` of [whole texts](../specs/Whole.antt). A clause cannot speak of every type
//! of tokens at once, so [`laws`] states them of [two small languages](../specs/Sums.antt), as each
//! language states them of itself.
#![tactic(auto)]

mod laws;

pub use laws::{applications_are_exact, sums_are_exact, worked_texts_are_read};
