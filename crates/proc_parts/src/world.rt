//! What is round a statement of a procedure.
use exec_state::Running;
use prog_run::catalog::Catalog;

/// The catalog, how many more programs may run one inside the other, and the procedures that are running.
#[derive(Clone, Copy)]
pub struct World<'a> {
    pub catalog: &'a Catalog,
    pub nesting: u8,
    pub running: &'a Running<'a>,
}
