//! Laws of events that are written: each function proves one, and does nothing.
ghost use Rattle.log_model.specs.Written.{EventsAreReadAgain, EventsHaveLength, TransactionIsReadAgain};

/// Events have as many bytes as they say.
pub fn events_have_length()
    ensures { EventsHaveLength }
{}

/// Events that are written are read again, whatever follows them.
pub fn events_are_read_again()
    ensures { EventsAreReadAgain }
{}

/// A transaction that is written is read again, whatever follows it.
pub fn transaction_is_read_again()
    ensures { TransactionIsReadAgain }
{}
