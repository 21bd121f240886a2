//! The values, rows and lists that every other crate stands on.
//!
//! A contract sees a [`List`] as the list of its items, a [`Boxed`] as what it holds and a [`Value`]
//! as plain data, so that definitions speak of lists and values and never of pointers or capacities.
//!
//! - `list`: [`List`], [`Bytes`] and [`NoMemory`]
//! - `boxed`: [`Boxed`], for trees
//! - `duplicate`: [`Duplicate`], copies that are equal to what they copy
//! - `value`: [`Value`], [`Row`] and the order of keys
//! - `ops`: the operators, built-in functions and aggregates of SQL, by name
//! - `text`: values and rows as the text that answers and printed logs show
//! - `refusal`: [`SqlError`] with the numbers that values meet, and [`SqlRefusal`]
//! - `definitions`: [`TableDef`], [`ColumnDef`], [`ColType`] and [`KeyDef`]
//! - `fitting`: which values and rows fit their columns
//! - `keys`: the key of a row, and its value in a column
//! - `change`: [`Change`], whose name and rows are shared, and its inverse
//! - `worked`: texts, orders, fitting and keys by hand, which the checker computes
//!
//! An edit here proves everything again, so only what nearly all crates cite stands here: what
//! operators and functions give stands in `value_rules`, what tables are in `table_rules`.
//!
//! # Proved
//! - each method of [`List`] and [`Boxed`] is one equation on lists; want of memory leaves a list as it
//!   was
//! - [`Duplicate::duplicate`] and [`Duplicate::duplicate_all`] give equal copies, or want of memory
//! - [`key_cmp`] is the order of keys, Equal exactly on equal keys, and a total order
//!   (`key_order_is_total`)
//! - [`value_text`] and [`row_text`] give exactly the text of the definitions, [`fits`], [`type_fits`],
//!   [`row_fits`], [`greatest`], [`Change::inverse`] and [`Change::table`] exactly what theirs say, [`value_at`] the value in a
//!   column, [`key_of`] the key or want of memory
//! - the worked texts, orders, fittings and keys
//!
//! # Only tested
//! That calls succeed with ample memory, in `test_values`.
#![tactic(auto)]

mod boxed;
mod change;
mod definitions;
mod duplicate;
mod fitting;
mod keys;
mod list;
mod ops;
mod refusal;
mod text;
mod value;
mod worked;

pub use boxed::Boxed;
pub use change::Change;
pub use definitions::{ColType, ColumnDef, KeyDef, TableDef};
pub use duplicate::Duplicate;
pub use fitting::{fits, greatest, row_fits, type_fits};
pub use keys::{key_of, value_at};
pub use list::{Bytes, List, NoMemory};
pub use ops::{Agg, BinOp, Func, Func0, Func1, Func2, Func3, FuncN, UnOp};
pub use refusal::{
    DIVISION_BY_ZERO, KINDS_MIXED, NUMBER_OVERFLOW, OUT_OF_RANGE, SqlError, SqlRefusal,
    TEXT_TOO_LONG, TOO_LONG_FOR_COLUMN,
};
pub use text::{row_text, value_text};
pub use value::{Row, Value, key_cmp, key_order_is_total};
pub use worked::{keys_of_rows, orders_of_keys, rows_that_fit, texts_of_values, values_that_fit};
