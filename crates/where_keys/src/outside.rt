//! What a WHERE has outside of its table.
use session_ctx::Ctx;
use sql_locals::Locals;
use val_types::{Row, TableDef};

/// A row with the definition of its table.
#[derive(Clone, Copy)]
pub struct RowOf<'a> {
    pub definition: &'a TableDef,
    pub row: &'a Row,
}

/// The locals in scope, the user variables, and in a trigger NEW and OLD.
#[derive(Clone, Copy)]
pub struct Outside<'a> {
    pub locals: &'a Locals,
    pub context: &'a Ctx,
    pub new_row: Option<RowOf<'a>>,
    pub old_row: Option<RowOf<'a>>,
}
