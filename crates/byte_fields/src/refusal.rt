//! Why no number stands at a place.

/// Fewer bytes stand there than the `need` of the field.
#[derive(Clone, Copy)]
pub struct Short {
    pub need: usize,
}

/// Why no length-encoded integer stands there: fewer bytes than it needs, or a first byte that begins
/// none.
#[derive(Clone, Copy)]
pub enum LenRefusal {
    Short { need: usize },
    Bad,
}
