//! Tables beside lists.

mod beside;
mod cases;
mod lots;
mod many;
mod values;
