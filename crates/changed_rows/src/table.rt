//! The table that is changed.
use sharing::Shared;
use sql_evaluation::Around;
use std::alloc::Global;
use val_types::TableDef;

/// A table whose rows are changed: where it stands, its definition, what is round the statement, and who evaluates and fires
/// triggers for it.
#[derive(Drop)]
pub struct ChangedTable<'c, E> {
    pub alloc: Global,
    pub executor: &'c E,
    pub around: &'c Around<'c>,
    pub at: usize,
    pub definition: &'c Shared<TableDef>,
}
