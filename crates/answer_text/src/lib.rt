//! What commands are answered and how a run ends, and the text that shows it.
//!
//! - `answer`: [`Answer`] and [`End`], what a command is answered
//! - `showing`: [`shown`], the lines of an answer
//! - `status`: [`Status`], how a run ends, and [`status_line`]
//! - `report`: [`Report`] and [`Mark`], what a run tells beside its output
//! - `putting`: numbers and words at the end of a text
//!
//! # Proved
//! - [`shown`] gives exactly the lines of an answer, or wants memory
//! - [`Status::number`] is the number that the program exits with, and [`status_line`] gives exactly the line
//!   that tells a status, none for Done, or wants memory
//! - the worked answers and statuses, but for the digits of numbers
//!
//! # Only tested
//! That lines are shown with ample memory, in `test_scripts` and the stored runs of the programs.
#![tactic(auto)]

mod answer;
mod putting;
mod report;
mod showing;
mod status;

pub use answer::{Answer, End};
pub use report::{Mark, Report};
pub use showing::shown;
pub use status::{Status, status_line};
