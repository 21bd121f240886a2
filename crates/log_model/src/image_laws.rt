//! Laws of rows in bytes: each function proves one, and does nothing.
ghost use Rattle.log_model.specs.Images.{ChangesAreReadAgain, RowsAreReadAgain};

/// A row that is written is read again, whatever follows it.
pub fn rows_are_read_again()
    ensures { RowsAreReadAgain }
{}

/// Changes of a table that are written are read again.
pub fn changes_are_read_again()
    ensures { ChangesAreReadAgain }
{}
