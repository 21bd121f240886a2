//! Laws of numbers in bytes: each function proves one, and does nothing.
ghost use Rattle.byte_fields.specs.Laws.{FieldsAreReadAgain, FieldsHaveTheirWidth, LengthEncodedAreReadAgain};

/// A number that is written in so many bytes is read again, whatever follows it.
pub fn fields_are_read_again()
    ensures { FieldsAreReadAgain }
{}

/// A number takes as many bytes as its field has.
pub fn fields_have_their_width()
    ensures { FieldsHaveTheirWidth }
{}

/// A length-encoded integer that is written is read again, whatever follows it.
pub fn lenencs_are_read_again()
    ensures { LengthEncodedAreReadAgain }
{}
