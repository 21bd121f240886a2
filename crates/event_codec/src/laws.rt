//! Laws of reading and writing: each function proves one, and does nothing.
ghost use Rattle.event_codec.specs.Laws.{HasLength, LiesWithin, WrittenIsRead};

/// What is written is read again, whatever follows it.
pub fn written_is_read()
    ensures { WrittenIsRead }
{}

/// An event takes as many bytes as it says.
pub fn has_length()
    ensures { HasLength }
{}

/// An event lies within its bytes, and within a log.
pub fn lies_within()
    ensures { LiesWithin }
{}
