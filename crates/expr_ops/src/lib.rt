//! The operators and built-in functions of SQL on values.
//!
//! What each gives is defined in `value_rules`, as plain data: a value, or the number of an error. The
//! functions here compute it, on all values. The operands of an expression are evaluated by the crate
//! that runs statements; what depends on a session, as NOW() or USER(), stands there too.
//!
//! - `operators`: [`binary`] and [`unary`], every operator
//! - `truths`: conditions, NOT, AND and OR with three values; [`truth`], [`holds`] and [`decided`] are for those
//!   who leave out operands that do not count, [`truth_value`] and [`value_of_truth`] for EXISTS and IN
//! - `comparing`: comparisons; [`compare`] and [`equal`] are for IN
//! - `arithmetic`: numbers of 64 bits with their overflow
//! - `functions`: [`builtin`], the built-in functions that depend on their arguments alone, and by their
//!   number of arguments [`value_of_one`], [`value_of_two`], [`value_of_three`] and [`value_of_many`]
//! - `texts`: CONCAT, LENGTH and SUBSTRING
//! - `moments`: [`time_text`], date and time of a second
//! - `identifiers`: [`uuid_text`]
//! - `random`: [`rand_step`] and [`floor_rand`], what RAND() draws
//!
//! # Proved
//! - [`binary`], [`unary`], [`compare`], [`equal`], [`truth`], [`holds`], [`truth_value`], [`value_of_truth`],
//!   [`decided`], [`rand_step`] and [`floor_rand`] give exactly the value or the error number of their
//!   definitions, on all values and without memory
//! - [`builtin`] the same, or wants memory, for each function of values with just its number of
//!   arguments; [`value_of_one`], [`value_of_two`], [`value_of_three`] and [`value_of_many`] for all values
//! - [`time_text`] and [`uuid_text`] give exactly the text of the definition, for every u32 and u128, or
//!   want memory
//!
//! # Only tested
//! That calls succeed with ample memory, in `test_rows`.
#![tactic(auto)]

mod arithmetic;
mod comparing;
mod functions;
mod identifiers;
mod moments;
mod operators;
mod random;
mod texts;
mod truths;

pub use arithmetic::absolute;
pub use comparing::{compare, equal};
pub use functions::{builtin, value_of_many, value_of_one, value_of_three, value_of_two};
pub use identifiers::uuid_text;
pub use moments::time_text;
pub use operators::{binary, unary};
pub use random::{floor_rand, rand_step};
pub use texts::{concat, length, substring};
pub use truths::{decided, holds, truth, truth_value, value_of_truth};
