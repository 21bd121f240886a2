//! Tests of the program's words, and of the script that is made.
//!
//! - `words`: lists of words, and what they ask for
//! - `scripts`: made scripts, whole and written, and what they say; what they come to when they are run stands in `test_scripts`
#![tactic(auto)]

#[cfg(test)]
mod scripts;
#[cfg(test)]
mod words;
