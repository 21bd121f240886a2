//! Laws of items and entries that are written: each function proves one, and does nothing.
ghost use Rattle.log_model.specs.Items.{ChangesAreCarried, ItemIsSpelled};
ghost use Rattle.log_model.specs.Log.{DefinitionIsOneGroup, EntriesHaveLength, HeadsHaveLength, LogGoesOn, LogStartIsRead, TransactionIsOneGroup};

/// What an item is written as is an item.
pub fn item_is_spelled()
    ensures { ItemIsSpelled }
{}

/// The changes of a rows item are read again, in their order.
pub fn changes_are_carried()
    ensures { ChangesAreCarried }
{}

/// A transaction that is logged is read as one group, whatever follows it.
pub fn transaction_is_one_group()
    ensures { TransactionIsOneGroup }
{}

/// So is a definition, whose text is not BEGIN.
pub fn definition_is_one_group()
    ensures { DefinitionIsOneGroup }
{}

/// Entries behind others are logged behind what those append.
pub fn log_goes_on()
    ensures { LogGoesOn }
{}

/// A transaction or a definition moves a place by the bytes that it appends.
pub fn entries_have_length()
    ensures { EntriesHaveLength }
{}

/// The head of a log has 123 bytes.
pub fn heads_have_length()
    ensures { HeadsHaveLength }
{}

/// The first event of a log is read as its start, and the name of the next log as that.
pub fn log_start_is_read()
    ensures { LogStartIsRead }
{}
