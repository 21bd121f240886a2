//! Places in the logs of a source.

/// A place in the log with a number.
#[derive(Clone, Copy)]
pub struct Place {
    pub log: u32,
    pub pos: u32,
}

/// A place, and how many bytes lie between it and another.
#[derive(Clone, Copy)]
pub struct Walk {
    pub place: Place,
    pub passed: usize,
}
