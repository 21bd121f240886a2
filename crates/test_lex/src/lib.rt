//! Tests of `sql_lex`, which would prove it a second time where they stood in it.
#![tactic(auto)]

#[cfg(test)]
mod tests;
