//! A law of items by their rows.
ghost use Rattle.row_laws.specs.Laws.{RowsCanBeWritten};

/// What changes are written as can be written, where their last event ends within a log.
pub fn rows_can_be_written()
    ensures { RowsCanBeWritten }
{}
