//! What is round an expression, and the rows that it sees.
ghost use Rattle.std.specs.Prelude.{◌≡◌, IfOk};

use catalog_objects::Objects;
use exec_state::Running;
use key_order::where_candidates::session_ctx::Ctx;
use sharing::Shared;
use sql_locals::Locals;
use val_types::{NoMemory, Row, TableDef};

/// A row with the definition of its table.
#[derive(Drop)]
pub struct View {
    pub definition: Shared<TableDef>,
    pub row: Shared<Row>,
}

impl View {
    /// The same view once more, without a copy.
    pub fn share(&self) -> Result<View, NoMemory>
        ensures { IfOk result (λ v. v ≡ self.now) }
    {
        Ok(View {
            definition: self.definition.share()?,
            row: self.row.share()?,
        })
    }
}

/// All that is round an expression but the rows of SELECTs in view.
#[derive(Clone, Copy)]
pub struct Around<'a> {
    pub catalog: &'a Objects,
    pub context: &'a Ctx,
    /// The number from which UUID() counts on.
    pub uuid: u128,
    /// How many programs may run one inside the other from here on.
    pub nesting: u8,
    pub running: &'a Running<'a>,
    pub locals: &'a Locals,
    pub new_row: Option<&'a View>,
    pub old_row: Option<&'a View>,
    /// The row that was to be inserted, behind ON DUPLICATE KEY UPDATE.
    pub inserted: Option<&'a View>,
}
