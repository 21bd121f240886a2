//! What stands before the body of a stored program.

use sql_tree::{Cause, Parameter, SqlType, Time};
use val_types::{Bytes, List};

/// A stored program without its body.
#[derive(Drop)]
pub enum Head {
    Function(Bytes, List<Parameter>, SqlType),
    Procedure(Bytes, List<Parameter>),
    Trigger(Bytes, Time, Cause, Bytes),
}
