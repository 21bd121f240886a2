//! Numbers in an order that callers know, in blocks: what is put or taken out moves a block, and not all.
//!
//! The numbers stand for what a caller has elsewhere, as rows of an arena, and nothing here compares them: a
//! search is handed the comparison. A block has at most 255 numbers, none is empty, and two neighbours have
//! more than one block holds. So a search takes at most one comparison more than one by halves over all, and
//! few blocks hold many numbers. Blocks that are not in use are kept as spare ones: a caller that has made
//! room puts so many numbers without memory, wherever they go.
//!
//! A contract sees [`Blocks`] as a `Layout`: the list of the numbers of each block, and how many spare blocks
//! there are. `flat` are the numbers in their order, `place` says what place among them a [`Spot`] is, and
//! `room` how many can be put without memory. `holds` is how many numbers there may be without memory while
//! some are taken out and others put, as often as one likes.
//!
//! - `block`: one block
//! - `spot`: [`Spot`], a block and a place in it
//! - `counting`: [`Steps`], comparisons counted at no cost
//! - `halves`: looking by halves
//! - `joining`: a block split into two, and neighbours made one where they fit
//! - `changing`: a number put or taken out, with the shape kept
//! - `blocks`: [`Blocks`], and the room for more
//! - `reading`: numbers read where they stand, one after the other
//! - `searching`: a number looked for
//!
//! # Proved
//! - [`Blocks::put`] puts a number at the place of a spot among all, [`Blocks::take`] takes one out and answers
//!   with it; neither takes memory, `put` leaves at most one less room, `take` and [`Blocks::clear`] no less
//! - [`Blocks::make_room`] makes room for so many more, or wants memory; the numbers stay where they are, and
//!   the room is never less
//! - [`Blocks::make_hold`] makes blocks that hold so many numbers, or wants memory; no call makes them hold less,
//!   and where there are fewer numbers than they hold there is room for one more ([`Blocks::has_room`])
//! - [`Blocks::len`] and [`Blocks::is_empty`] count the numbers; [`Blocks::first`] and [`Blocks::after`] are
//!   spots one after the other, [`Blocks::end`] and [`Blocks::before`] the other way round; [`Blocks::get`] is
//!   the number there, None behind the last, and [`Blocks::standing`] the spot of that number itself
//! - [`Blocks::search`] and [`Blocks::find`] give the spot of the number that the comparison calls equal, or the
//!   one at which it belongs, for every order that the comparison computes and in which the numbers stand; the
//!   first in at most one comparison more than the count of numbers has binary digits
//! - each call leaves the shape of blocks and the count
//!
//! # Only tested
//! That calls succeed with ample memory, in `test_blocks`.
#![tactic(auto)]

mod block;
mod blocks;
mod changing;
mod counting;
mod halves;
mod joining;
mod reading;
mod searching;
mod spot;

pub use blocks::Blocks;
pub use counting::Steps;
pub use spot::Spot;
