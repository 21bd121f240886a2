//! The one answer of a stream that did not do what it was asked.

use thiserror::Error;

/// A fault of a stream, which has counted it.
#[derive(Clone, Copy, Debug, PartialEq, Eq, Error)]
#[error("the stream failed")]
pub struct Failed;
